//! All faults of a text at a type.
#![tactic(auto)]

pub mod faults;
pub mod laws;
mod leaves;
mod records;
mod told;
