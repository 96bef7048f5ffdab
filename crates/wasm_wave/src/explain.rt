//! Refusals of texts, as a person is shown them.

pub use wave_explain::call::{explain_call, explain_untyped_call};
pub use wave_explain::value::{explain_untyped, explain_value};
pub use wave_place::explain::{explain, explain_at};
pub use wave_type_explain::explain::{explain_func_type, explain_type};
