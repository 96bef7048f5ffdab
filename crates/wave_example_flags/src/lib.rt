//! An example for who embeds: a type and values of one's own, which are read and written as any
//! others. `NameSet` is a type of flags; `OrderedFlags`, its values, keep the order of the names
//! that they are made of.
#![tactic(auto)]

pub mod name_set;
mod names;
pub mod ordered_flags;
