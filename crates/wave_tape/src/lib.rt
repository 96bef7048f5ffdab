//! A value, a call or a type as a tape: the bytes by which it crosses to C, Rust and Python.
#![tactic(auto)]

pub(crate) mod bytes;
pub mod decode;
pub mod encode;
pub mod encode_type;
pub mod error;
pub mod laws;
pub(crate) mod plain;
pub mod write;
