//! The grammar of values and the tokens that it is made of: numbers, names and decoded texts; the forms
//! of nodes, and what a node of each form is at a type.
#![tactic(auto)]

pub mod builder;
pub mod form;
pub mod label;
pub mod laws;
pub mod number;
pub mod text;
pub mod typed;
