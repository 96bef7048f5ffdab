//! Tokens and strings of the text encoding.
#![tactic(auto)]

pub mod asked;
pub mod error;
pub mod found;
pub mod laws;
pub mod lex;
pub mod machine;
pub mod strings;
