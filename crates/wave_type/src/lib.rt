//! Types of component values and of functions: their parts, their equality and their text.
#![tactic(auto)]

pub mod error;
pub mod func;
pub mod laws;
mod reader;
mod tokens;
pub mod ty;
