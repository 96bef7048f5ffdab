//! Values that a C program holds between its calls.
#![tactic(auto)]

pub mod func;
mod parts;
pub mod ty;
