//! Explanations of refusals, at their types and without.
#![tactic(auto)]

pub mod call;
mod escape;
mod expected;
mod indent;
mod open;
mod syntax;
pub mod value;
