//! Values of component types.
#![tactic(auto)]

pub mod laws;
pub mod value;
