//! Values made of those of Rust.
#![tactic(auto)]

pub mod convert;
