//! Makers of values, from the parts of others and from Rust values.
ghost use Rattle.std.specs.Prelude.{◌≡◌};
ghost use Rattle.wave_wasm.specs.Values.{kind_of};

use crate::answer::{Stopped, valued};
use crate::types::type_of;
use crate::values::viewed;
use std::alloc::{AllocError, Global};
use wave_convert::convert::IntoValue;
use wave_type::ty::Type;
use wave_value::value::Value;
use wave_wasm::wasm::{WasmType, WasmTypeKind, WasmValue, WasmValueError};
use wave_writer::display::DisplayValue;

/// A list of copies of the items at the type.
pub fn list(alloc: Global, ty: &Type, items: &[&Value]) -> Result<Value, WasmValueError> {
    Value::make_list(alloc, ty, copies(alloc, items)?)
}

/// Copies of the values.
fn copies(alloc: Global, vals: &[&Value]) -> Result<Vec<Value>, AllocError> {
    let mut items = Vec::new(alloc);
    for val in vals {
        let val: &Value = val;
        items.push(val.clone(alloc)?)?;
    }
    Ok(items)
}

/// What the constructor of records makes at the type of copies of the value's fields.
fn record(alloc: Global, ty: &Type, val: &Value) -> Result<Value, WasmValueError>
    requires { kind_of val.now.tree ≡ WasmTypeKind.Record }
{
    let mut fields = Vec::new(alloc);
    for (name, val) in val.unwrap_record(alloc)? {
        fields.push((name, val.clone(alloc)?))?;
    }
    Value::make_record(alloc, ty, fields)
}

/// What the constructor of maps makes at the type of copies of the value's entries.
fn map(alloc: Global, ty: &Type, val: &Value) -> Result<Value, WasmValueError>
    requires { kind_of val.now.tree ≡ WasmTypeKind.Map }
{
    let mut entries = Vec::new(alloc);
    for (key, val) in val.unwrap_map(alloc)? {
        let key = key.clone(alloc)?;
        entries.push((key, val.clone(alloc)?))?;
    }
    Value::make_map(alloc, ty, entries)
}

/// A copy of the value, where there is one.
fn copy(alloc: Global, val: Option<&Value>) -> Result<Option<Value>, AllocError> {
    match val {
        Some(val) => Ok(Some(val.clone(alloc)?)),
        None => Ok(None),
    }
}

/// What the constructor of the value's kind makes at the type of copies of what the value's view answers.
pub fn of_parts(alloc: Global, ty: &Type, val: &Value) -> Result<Value, WasmValueError> {
    match val.kind() {
        WasmTypeKind::List | WasmTypeKind::FixedLengthList => {
            list(alloc, ty, val.unwrap_list(alloc)?.as_slice())
        }
        WasmTypeKind::Tuple => {
            let items = copies(alloc, val.unwrap_tuple(alloc)?.as_slice())?;
            Value::make_tuple(alloc, ty, items)
        }
        WasmTypeKind::Flags => Value::make_flags(alloc, ty, val.unwrap_flags(alloc)?.as_slice()),
        WasmTypeKind::Record => record(alloc, ty, val),
        WasmTypeKind::Map => map(alloc, ty, val),
        _ => of_part(alloc, ty, val),
    }
}

/// The same for a value of one part or none.
fn of_part(alloc: Global, ty: &Type, val: &Value) -> Result<Value, WasmValueError> {
    match val.kind() {
        WasmTypeKind::Enum => Value::make_enum(alloc, ty, val.unwrap_enum()),
        WasmTypeKind::Option => Value::make_option(alloc, ty, copy(alloc, val.unwrap_option())?),
        WasmTypeKind::Result => match val.unwrap_result() {
            Ok(val) => Value::make_result(alloc, ty, Ok(copy(alloc, val)?)),
            Err(val) => Value::make_result(alloc, ty, Err(copy(alloc, val)?)),
        },
        WasmTypeKind::Variant => {
            let (case, val) = val.unwrap_variant();
            Value::make_variant(alloc, ty, case, copy(alloc, val)?)
        }
        WasmTypeKind::String => Value::make_string(alloc, val.unwrap_string()),
        _ => Err(WasmValueError::WrongNumberOfTupleValues { want: 0, got: 0 }),
    }
}

/// Prints what a constructor makes at the type of parts that no value's views give, in another order or
/// twice under one name; and whether the type is its own, and a copy the same.
pub fn of_pairs(rt: HostRuntime, text: &str) -> Result<(), Stopped> {
    let ty = type_of(rt.alloc(), text)?;
    match pairs(rt.alloc(), &ty) {
        Ok(val) => {
            print!(rt; "{} ", DisplayValue::new(rt.alloc(), &val))?;
            print!(rt; "{} {}", val.ty()? == ty, val.clone(rt.alloc())? == val)?;
            Ok(())
        }
        Err(error) => valued(rt, Err(error)),
    }
}

/// What the constructor of the type's kind makes of such parts.
fn pairs(alloc: Global, ty: &Type) -> Result<Value, WasmValueError> {
    match ty.kind() {
        WasmTypeKind::Record => {
            let numbers = [Value::from(1u8), Value::from(2u8), Value::from(3u8)];
            let [first, second, third] = numbers;
            let fields = [("b", first), ("a", second), ("b", third)];
            Value::make_record(alloc, ty, Vec::from_array(alloc, fields)?)
        }
        WasmTypeKind::Flags => Value::make_flags(alloc, ty, &["run", "read", "run"]),
        _ => {
            let first = Value::make_string(alloc, "a")?;
            let second = Value::make_string(alloc, "b")?;
            let third = Value::make_string(alloc, "a")?;
            let numbers = [Value::from(1u8), Value::from(2u8), Value::from(3u8)];
            let [one, two, three] = numbers;
            let entries = [(first, one), (second, two), (third, three)];
            Value::make_map(alloc, ty, Vec::from_array(alloc, entries)?)
        }
    }
}

/// Prints the text of the value that the Rust value stands for and the type that its Rust type answers, and
/// whether that is the value's own.
fn stood<T: IntoValue>(rt: HostRuntime, from: T) -> Result<(), Stopped> {
    let ty = T::value_type(rt.alloc())?;
    let val = from.into_value(rt.alloc())?;
    print!(rt; "{}: ", DisplayValue::new(rt.alloc(), &val))?;
    print!(rt; "{ty} {}", val.ty()? == ty)?;
    Ok(())
}

/// Prints the value that the Rust value of this name stands for.
pub fn of_rust(rt: HostRuntime, name: &str) -> Result<(), Stopped> {
    match name {
        "i8" => stood(rt, -1i8),
        "i16" => stood(rt, -1i16),
        "i32" => stood(rt, -1i32),
        "i64" => stood(rt, -1i64),
        "u8" => stood(rt, 200u8),
        "u16" => stood(rt, 60000u16),
        "u32" => stood(rt, 4000000000u32),
        "u64" => stood(rt, 7u64),
        "bool" => stood(rt, false),
        "char" => stood(rt, '☃'),
        "str" => stood(rt, "str"),
        "string" => stood(rt, String::from_str(rt.alloc(), "oops")?),
        _ => of_rust_parts(rt, name),
    }
}

/// The same of a list, an option, a result or a tuple.
fn of_rust_parts(rt: HostRuntime, name: &str) -> Result<(), Stopped> {
    match name {
        "vec" => stood(rt, Vec::from_array(rt.alloc(), [1i32, 2, 3])?),
        "empty vec" => stood(rt, Vec::<u16>::new(rt.alloc())),
        "array" => stood(rt, ['a'; 3]),
        "none" => stood(rt, None::<u8>),
        "some" => stood(rt, Some("a")),
        "some number" => stood(rt, Some(1i32)),
        "ok" => stood(rt, Ok::<u8, char>(1)),
        "ok or string" => stood(rt, Ok::<u8, String>(1)),
        "err" => stood(rt, Err::<u8, &str>("oops")),
        "err string" => stood(rt, Err::<u8, String>(String::from_str(rt.alloc(), "oops")?)),
        "single" => stood(rt, (1i32,)),
        "pair" => stood(rt, (1u8, true)),
        "triple" => stood(rt, (1i32, "str", [9i32; 2])),
        "four" => stood(rt, (1u8, 2u8, 3u8, 4u8)),
        "five" => stood(rt, (1u8, 2u8, 3u8, 4u8, true)),
        _ => stood(rt, (1u8, 2u8, 3u8, 4u8, true, 'a')),
    }
}

/// A call on the text, or on the scalar of this name: its view, or its text and its type.
pub fn of_name(rt: HostRuntime, name: &str, text: &str) -> Result<(), Stopped> {
    match name {
        "make_string" => valued(rt, Value::make_string(rt.alloc(), text)),
        "From<String>" => match String::from_str(rt.alloc(), text) {
            Ok(text) => viewed(rt, &Value::from(text)),
            Err(_) => Err(Stopped::NotCalled),
        },
        _ => match scalar(rt.alloc(), text) {
            Ok(val) if name == "scalar" => viewed(rt, &val),
            Ok(val) => {
                print!(rt; "{}: ", DisplayValue::new(rt.alloc(), &val))?;
                print!(rt; "{}", val.ty()?)?;
                Ok(())
            }
            Err(error) => valued(rt, Err(error)),
        },
    }
}

/// The scalar that has this name, by its constructor or by `From`.
fn scalar(alloc: Global, name: &str) -> Result<Value, WasmValueError> {
    match name {
        "bool" => Value::make_bool(alloc, true),
        "s8" => Value::make_s8(alloc, -128),
        "s16" => Value::make_s16(alloc, -32768),
        "s32" => Value::make_s32(alloc, -2147483648),
        "s64" => Value::make_s64(alloc, -9223372036854775808),
        "u8" => Value::make_u8(alloc, 255),
        "u16" => Value::make_u16(alloc, 65535),
        "u32" => Value::make_u32(alloc, 4294967295),
        "u64" => Value::make_u64(alloc, 18446744073709551615),
        "char" => Value::make_char(alloc, '☃'),
        "from String" => Ok(Value::from(String::from_str(alloc, "it's")?)),
        _ => Ok(converted(name)),
    }
}

/// The value of the Rust value of this name by `From`.
fn converted(name: &str) -> Value {
    match name {
        "from false" => Value::from(false),
        "from 7" => Value::from(7u8),
        "from -7" => Value::from(-7i64),
        "from i8" => Value::from(-128i8),
        "from i16" => Value::from(-32768i16),
        "from i32" => Value::from(-2147483648i32),
        "from i64" => Value::from(-9223372036854775808i64),
        "from u8" => Value::from(255u8),
        "from u16" => Value::from(65535u16),
        "from u32" => Value::from(4294967295u32),
        "from u64" => Value::from(18446744073709551615u64),
        "from bool" => Value::from(true),
        _ => Value::from('a'),
    }
}
