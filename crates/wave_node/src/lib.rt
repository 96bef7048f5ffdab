//! Nodes of the untyped tree, and what they are at a type.
#![tactic(auto)]

pub mod ast;
mod flags;
pub mod params;
mod reading;
mod record;
mod typed;
