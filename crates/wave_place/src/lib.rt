//! A place of a text as a person is shown it, and the path to the part of a value where it lies.
#![tactic(auto)]

pub mod explain;
pub mod path;
pub mod place;
