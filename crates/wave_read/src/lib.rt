//! Values of parts, read at their types while their tokens are taken.
#![tactic(auto)]

mod enums;
mod flags;
mod flat;
mod leaves;
mod lists;
mod maps;
mod options;
mod parts;
pub mod records;
mod results;
mod tuples;
pub mod values;
mod variants;
