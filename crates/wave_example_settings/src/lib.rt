//! Examples to copy. `settings` reads a record, views its fields, changes one and writes it again;
//! `calls` answers calls over flags of an embedder's own, and `flags` reads such flags by a generic call; `bare` has
//! values of one's own that keep no type.
#![tactic(auto)]

pub mod bare;
pub mod calls;
pub mod flags;
pub mod settings;
