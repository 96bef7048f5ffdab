//! Rust values as values of component types. Nothing is refused, and no memory is taken: a text is
//! moved.
ghost use Rattle.std.specs.Prelude.{◌≡◌, pos, string_bytes};
ghost use Rattle.wave_wasm.specs.Types as type;
ghost use Rattle.wave_wasm.specs.Values as value;
ghost use Rattle.wave_value.specs.TypedValue.{typed_leaf};

use super::{Content, Scalar, Type, Value, scalar_value};

impl From<bool> for Value {
    ghost from_gives = { λ val built. built ≡ typed_leaf (value.bool val) };

    fn from(val: bool) -> Value {
        scalar_value(Type::BOOL, Scalar::Bool(val))
    }
}

impl From<i8> for Value {
    ghost from_gives = { λ val built. built ≡ typed_leaf (value.whole type.s8 val) };

    fn from(val: i8) -> Value {
        scalar_value(Type::S8, Scalar::S8(val))
    }
}

impl From<i16> for Value {
    ghost from_gives = { λ val built. built ≡ typed_leaf (value.whole type.s16 val) };

    fn from(val: i16) -> Value {
        scalar_value(Type::S16, Scalar::S16(val))
    }
}

impl From<i32> for Value {
    ghost from_gives = { λ val built. built ≡ typed_leaf (value.whole type.s32 val) };

    fn from(val: i32) -> Value {
        scalar_value(Type::S32, Scalar::S32(val))
    }
}

impl From<i64> for Value {
    ghost from_gives = { λ val built. built ≡ typed_leaf (value.whole type.s64 val) };

    fn from(val: i64) -> Value {
        scalar_value(Type::S64, Scalar::S64(val))
    }
}

impl From<u8> for Value {
    ghost from_gives = { λ val built. built ≡ typed_leaf (value.whole type.u8 (pos val)) };

    fn from(val: u8) -> Value {
        scalar_value(Type::U8, Scalar::U8(val))
    }
}

impl From<u16> for Value {
    ghost from_gives = { λ val built. built ≡ typed_leaf (value.whole type.u16 (pos val)) };

    fn from(val: u16) -> Value {
        scalar_value(Type::U16, Scalar::U16(val))
    }
}

impl From<u32> for Value {
    ghost from_gives = { λ val built. built ≡ typed_leaf (value.whole type.u32 (pos val)) };

    fn from(val: u32) -> Value {
        scalar_value(Type::U32, Scalar::U32(val))
    }
}

impl From<u64> for Value {
    ghost from_gives = { λ val built. built ≡ typed_leaf (value.whole type.u64 (pos val)) };

    fn from(val: u64) -> Value {
        scalar_value(Type::U64, Scalar::U64(val))
    }
}

impl From<char> for Value {
    ghost from_gives = { λ val built. built ≡ typed_leaf (value.char val) };

    fn from(val: char) -> Value {
        scalar_value(Type::CHAR, Scalar::Char(val))
    }
}

impl From<String> for Value {
    ghost from_gives = { λ val built. built ≡ typed_leaf (value.string (string_bytes val)) };

    fn from(val: String) -> Value {
        Value {
            own: Type::STRING,
            content: Content::String(val),
        }
    }
}
