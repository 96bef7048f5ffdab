//! Files by their names, what is answered on each, and options among arguments.
#![tactic(auto)]

pub mod answers;
pub mod disk;
pub mod folder;
pub mod json;
pub mod options;
pub mod output;
