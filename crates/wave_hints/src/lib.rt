//! Hints: what was meant, and how it is written.
#![tactic(auto)]

mod author;
pub mod hints;
mod names;
pub mod params;
pub mod rows;
pub mod word;
