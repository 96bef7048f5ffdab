//! The writer of canonical text, and values as text.
#![tactic(auto)]

pub mod display;
pub(crate) mod plain;
pub(crate) mod room;
pub(crate) mod rows;
pub mod writer;
