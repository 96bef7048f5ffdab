//! What may stand at a place of a text.
#![tactic(auto)]

pub mod expected;
pub mod laws;
