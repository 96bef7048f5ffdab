//! The commands over files: what is answered on the text of a file.
#![tactic(auto)]

pub mod check;
pub mod format;
pub mod name;
pub mod report;
