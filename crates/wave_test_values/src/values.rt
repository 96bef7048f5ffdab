//! Calls on values, and their views that take no memory.
use crate::answer::{Stopped, valued, word};
use crate::types::type_of;
use crate::{making, writing};
use wave_value::value::Value;
use wave_wasm::wasm::{WasmTypeKind, WasmValue};
use wave_writer::display::DisplayValue;

/// A call on the value; that of a constructor at the type that is the third word.
pub fn on_value(rt: HostRuntime, name: &str, val: &Value, words: &[String]) -> Result<(), Stopped> {
    match name {
        "to_string" | "write_value" | "failing writers" => writing::on_value(rt, name, val),
        "DisplayValue" => Ok(print!(rt; "{}", DisplayValue::new(rt.alloc(), val))?),
        "make" => {
            let ty = type_of(rt.alloc(), word(words, 2))?;
            valued(rt, making::of_parts(rt.alloc(), &ty, val))
        }
        "make_list" => {
            let ty = type_of(rt.alloc(), word(words, 2))?;
            valued(rt, making::list(rt.alloc(), &ty, &[val]))
        }
        "Value::clone" => {
            let copy = val.clone(rt.alloc())?;
            print!(rt; "{} ", DisplayValue::new(rt.alloc(), &copy))?;
            print!(rt; "{}", copy == *val)?;
            Ok(())
        }
        "Value::ty" => Ok(print!(rt; "{}", val.ty()?)?),
        _ => viewed(rt, val),
    }
}

/// Prints the case, and whether it has a payload.
fn case(rt: HostRuntime, name: &str, payload: Option<&Value>) -> Result<(), Stopped> {
    print!(rt; "{name} {}", payload.is_some())?;
    Ok(())
}

/// Prints the view of the value.
pub fn viewed(rt: HostRuntime, val: &Value) -> Result<(), Stopped> {
    match val.kind() {
        WasmTypeKind::Bool => Ok(print!(rt; "{}", val.unwrap_bool())?),
        WasmTypeKind::Char => Ok(print!(rt; "{}", val.unwrap_char())?),
        WasmTypeKind::String => Ok(print!(rt; "{}", val.unwrap_string())?),
        WasmTypeKind::Enum => Ok(print!(rt; "{}", val.unwrap_enum())?),
        WasmTypeKind::Option => case(rt, "some", val.unwrap_option()),
        WasmTypeKind::Variant => {
            let (name, payload) = val.unwrap_variant();
            case(rt, name, payload)
        }
        WasmTypeKind::Result => match val.unwrap_result() {
            Ok(payload) => case(rt, "ok", payload),
            Err(payload) => case(rt, "err", payload),
        },
        _ => number(rt, val),
    }
}

/// Prints the view of a number.
fn number(rt: HostRuntime, val: &Value) -> Result<(), Stopped> {
    match val.kind() {
        WasmTypeKind::S8 => print!(rt; "{}", val.unwrap_s8())?,
        WasmTypeKind::S16 => print!(rt; "{}", val.unwrap_s16())?,
        WasmTypeKind::S32 => print!(rt; "{}", val.unwrap_s32())?,
        WasmTypeKind::S64 => print!(rt; "{}", val.unwrap_s64())?,
        WasmTypeKind::U8 => print!(rt; "{}", val.unwrap_u8())?,
        WasmTypeKind::U16 => print!(rt; "{}", val.unwrap_u16())?,
        WasmTypeKind::U32 => print!(rt; "{}", val.unwrap_u32())?,
        WasmTypeKind::U64 => print!(rt; "{}", val.unwrap_u64())?,
        _ => return Err(Stopped::NoCall),
    }
    Ok(())
}
