//! Values of one token, read at their types, and why a value is refused.
#![tactic(auto)]

pub mod error;
mod fast;
pub mod fault;
mod keys;
pub mod leaf;
pub mod simple;
mod texts;
