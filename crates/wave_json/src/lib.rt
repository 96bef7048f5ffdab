//! A value as JSON, and JSON as a value of a type.
#![tactic(auto)]

pub mod decode;
pub mod encode;
pub mod error;
pub mod laws;
pub(crate) mod parts;
pub(crate) mod place;
