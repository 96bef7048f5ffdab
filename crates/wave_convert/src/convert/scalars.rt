//! Rust values that stand for values of one token.
use crate::convert::IntoValue;
use std::alloc::{AllocError, Global};
use wave_type::ty::Type;
use wave_value::value::Value;
use wave_wasm::wasm::WasmValue;

/// A Rust type whose values stand for values of one token, which are made without memory.
pub trait OneToken: Into<Value> + Default + Drop {
    ghost use Rattle.std.specs.Prelude.{◌≡◌};
    ghost use Rattle.wave_wasm.specs.Types.{Simple};
    ghost use Rattle.wave_wasm.specs.Values.{Leaf, leaf_type};
    ghost use Rattle.wave_value.specs.TypedValue.{TypedValue, typed_leaf};

    /// The simple type of all the values.
    ghost simple: { Simple };

    /// The value of one token that one stands for.
    ghost leaf: { Self → Leaf };

    /// It is of that type.
    ghost is_simple: { (val : Self) → leaf_type (leaf val) ≡ simple };

    /// It is what is made of one.
    ghost is_made: { (val : Self) (built : TypedValue) → Self.converts val built → built ≡ typed_leaf (leaf val) };
}

impl OneToken for bool {
    ghost use Rattle.std.specs.Prelude.{refl};
    ghost use Rattle.wave_wasm.specs.Types as type;
    ghost use Rattle.wave_wasm.specs.Values as value;

    ghost simple = { type.bool };

    ghost leaf = { λ val. value.bool val };

    ghost is_simple = { λ val. refl };

    ghost is_made = { λ val built is. is };
}

impl OneToken for i8 {
    ghost use Rattle.std.specs.Prelude.{refl};
    ghost use Rattle.wave_wasm.specs.Types as type;
    ghost use Rattle.wave_wasm.specs.Values as value;

    ghost simple = { type.whole type.s8 };

    ghost leaf = { λ val. value.whole type.s8 val };

    ghost is_simple = { λ val. refl };

    ghost is_made = { λ val built is. is };
}

impl OneToken for i16 {
    ghost use Rattle.std.specs.Prelude.{refl};
    ghost use Rattle.wave_wasm.specs.Types as type;
    ghost use Rattle.wave_wasm.specs.Values as value;

    ghost simple = { type.whole type.s16 };

    ghost leaf = { λ val. value.whole type.s16 val };

    ghost is_simple = { λ val. refl };

    ghost is_made = { λ val built is. is };
}

impl OneToken for i32 {
    ghost use Rattle.std.specs.Prelude.{refl};
    ghost use Rattle.wave_wasm.specs.Types as type;
    ghost use Rattle.wave_wasm.specs.Values as value;

    ghost simple = { type.whole type.s32 };

    ghost leaf = { λ val. value.whole type.s32 val };

    ghost is_simple = { λ val. refl };

    ghost is_made = { λ val built is. is };
}

impl OneToken for i64 {
    ghost use Rattle.std.specs.Prelude.{refl};
    ghost use Rattle.wave_wasm.specs.Types as type;
    ghost use Rattle.wave_wasm.specs.Values as value;

    ghost simple = { type.whole type.s64 };

    ghost leaf = { λ val. value.whole type.s64 val };

    ghost is_simple = { λ val. refl };

    ghost is_made = { λ val built is. is };
}

impl OneToken for u8 {
    ghost use Rattle.std.specs.Prelude.{pos, refl};
    ghost use Rattle.wave_wasm.specs.Types as type;
    ghost use Rattle.wave_wasm.specs.Values as value;

    ghost simple = { type.whole type.u8 };

    ghost leaf = { λ val. value.whole type.u8 (pos val) };

    ghost is_simple = { λ val. refl };

    ghost is_made = { λ val built is. is };
}

impl OneToken for u16 {
    ghost use Rattle.std.specs.Prelude.{pos, refl};
    ghost use Rattle.wave_wasm.specs.Types as type;
    ghost use Rattle.wave_wasm.specs.Values as value;

    ghost simple = { type.whole type.u16 };

    ghost leaf = { λ val. value.whole type.u16 (pos val) };

    ghost is_simple = { λ val. refl };

    ghost is_made = { λ val built is. is };
}

impl OneToken for u32 {
    ghost use Rattle.std.specs.Prelude.{pos, refl};
    ghost use Rattle.wave_wasm.specs.Types as type;
    ghost use Rattle.wave_wasm.specs.Values as value;

    ghost simple = { type.whole type.u32 };

    ghost leaf = { λ val. value.whole type.u32 (pos val) };

    ghost is_simple = { λ val. refl };

    ghost is_made = { λ val built is. is };
}

impl OneToken for u64 {
    ghost use Rattle.std.specs.Prelude.{pos, refl};
    ghost use Rattle.wave_wasm.specs.Types as type;
    ghost use Rattle.wave_wasm.specs.Values as value;

    ghost simple = { type.whole type.u64 };

    ghost leaf = { λ val. value.whole type.u64 (pos val) };

    ghost is_simple = { λ val. refl };

    ghost is_made = { λ val built is. is };
}

impl OneToken for char {
    ghost use Rattle.std.specs.Prelude.{refl};
    ghost use Rattle.wave_wasm.specs.Types as type;
    ghost use Rattle.wave_wasm.specs.Values as value;

    ghost simple = { type.char };

    ghost leaf = { λ val. value.char val };

    ghost is_simple = { λ val. refl };

    ghost is_made = { λ val built is. is };
}

impl<T: OneToken> IntoValue for T {
    ghost use Rattle.std.specs.Prelude.{refl};
    ghost use Rattle.wave_wasm.specs.Types as type;
    ghost use Rattle.wave_wasm.specs.Values as value;

    ghost own = { type.simple T.simple };

    ghost tree = { λ val. value.leaf (T.leaf val) };

    ghost is_representable = { refl };

    fn value_type(_alloc: Global) -> Result<Type, AllocError> {
        let val: Value = T::default().into();
        val.ty()
    }

    fn into_value(self, _alloc: Global) -> Result<Value, AllocError> {
        let val: Value = self.into();
        // Its clause says that the value is sound.
        WasmValue::kind(&val);
        Ok(val)
    }
}

impl IntoValue for String {
    ghost use Rattle.std.specs.Prelude.{refl, string_bytes};
    ghost use Rattle.wave_wasm.specs.Types as type;
    ghost use Rattle.wave_wasm.specs.Values as value;

    ghost own = { type.simple type.string };

    ghost tree = { λ val. value.leaf (value.string (string_bytes val)) };

    ghost is_representable = { refl };

    fn value_type(_alloc: Global) -> Result<Type, AllocError> {
        Ok(Type::STRING)
    }

    fn into_value(self, _alloc: Global) -> Result<Value, AllocError> {
        Ok(Value::from(self))
    }
}

impl IntoValue for &str {
    ghost use Rattle.std.specs.Prelude.{◌≡◌, IfOk, refl};
    ghost use Rattle.wave_wasm.specs.Types as type;
    ghost use Rattle.wave_wasm.specs.Values as value;
    ghost use Rattle.wave_value.specs.ConstructorRules.{Built};

    ghost own = { type.simple type.string };

    ghost tree = { λ val. value.leaf (value.string val.now) };

    ghost is_representable = { refl };

    fn value_type(_alloc: Global) -> Result<Type, AllocError>
        ensures { IfOk result (λ t. t ≡ type.simple type.string) }
    {
        Ok(Type::STRING)
    }

    // A copy of the text.
    fn into_value(self, alloc: Global) -> Result<Value, AllocError>
        ensures { IfOk result (Built (value.leaf (value.string self.now)) (type.simple type.string)) }
    {
        Ok(Value::from(String::from_str(alloc, self)?))
    }
}
