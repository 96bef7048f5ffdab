//! Refusals of texts that spell no type, as a person is shown them.
#![tactic(auto)]

pub mod expected;
pub mod explain;
mod hints;
mod rows;
