//! Component values, their types, and their text.
#![tactic(auto)]

pub mod byte_runs;
pub mod fingerprints;
pub mod keyword;
pub mod laws;
pub mod wasm;
