//! Rust values as values of component types.
use std::alloc::{AllocError, Global};
use wave_type::ty::Type;
use wave_value::value::Value;

mod built;
mod compounds;
mod scalars;
mod tuples;

/// A Rust type whose values stand for values of one component type. An implementation says which
/// type that is, and of each value which one it stands for.
pub trait IntoValue: Sized + Drop {
    ghost use Rattle.std.specs.Prelude.{◌≡◌, IfOk};
    ghost use Rattle.wave_wasm.specs.Types.{TypeTree, IsRepresentable};
    ghost use Rattle.wave_wasm.specs.Values as value;
    ghost use Rattle.wave_value.specs.ConstructorRules.{Built};

    /// The type of all the values.
    ghost own: { TypeTree };

    /// The value that one stands for.
    ghost tree: { Self → value.Value };

    /// The type of all the values. The only error is out of memory.
    fn value_type(alloc: Global) -> Result<Type, AllocError>
        ensures { IfOk result (λ t. t ≡ own) };

    /// The value that this one stands for. It is one of the type that `value_type` answers, its own.
    /// The only error is out of memory.
    fn into_value(self, alloc: Global) -> Result<Value, AllocError>
        ensures { IfOk result (Built (tree self) own) };

    /// `Type` has that type.
    ghost is_representable: { IsRepresentable own };
}
