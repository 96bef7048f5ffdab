//! Values of component types, their types, the types of functions, Rust values as values, and why a
//! text spells no type.
pub use wave_convert::convert::IntoValue;
pub use wave_type::error::{TypeError, TypeErrorKind};
pub use wave_type::func::FuncType;
pub use wave_type::ty::Type;
pub use wave_value::value::Value;
