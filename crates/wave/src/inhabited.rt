// Whether a type has a value.
ghost use Rattle.std.specs.Prelude.{◌≡◌, ◌↔◌, IfOk, IsTrue};
ghost use Rattle.wave_wasm.specs.Types.{kind_of, maybe_type};
ghost use Rattle.wave_wasm.specs.Borrowed.{denoted};
ghost use Rattle.wave.specs.Types.{HasValue};
ghost use Rattle.wave.specs.Private.Inhabited.{inhabited, payload_inhabited};

use std::alloc::{AllocError, Global};
use wasm_wave::wasm::{WasmType, WasmTypeKind};

/// Whether the type has a value. The only error is out of memory.
pub fn is_inhabited<T: WasmType>(alloc: Global, ty: &T) -> Result<bool, AllocError>
    ensures { IfOk result (λ b. IsTrue b ↔ HasValue (T.tree ty.now)) }
{
    type_has_value(alloc, ty)
}

#[cycle(values)]
fn type_has_value<T: WasmType>(alloc: Global, ty: &T) -> Result<bool, AllocError>
    ensures { IfOk result (λ b. b ≡ inhabited (T.tree ty.now)) }
{
    match ty.kind() {
        WasmTypeKind::F32 | WasmTypeKind::F64 | WasmTypeKind::Unsupported => Ok(false),
        WasmTypeKind::FixedLengthList => {
            let (Some(element), Some(length)) = (ty.list_element_type(), ty.list_length()) else {
                unreachable!()
            };
            if length == 0 {
                return Ok(true);
            }
            type_has_value(alloc, element)
        }
        WasmTypeKind::Record => fields_have_value(alloc, ty),
        WasmTypeKind::Tuple => items_have_value(alloc, ty),
        WasmTypeKind::Variant => some_case_has_value(alloc, ty),
        WasmTypeKind::Enum => Ok(!ty.enum_cases(alloc)?.is_empty()),
        WasmTypeKind::Result => {
            let Some((ok, err)) = ty.result_types() else {
                unreachable!()
            };
            if payload_has_value(alloc, ok)? {
                return Ok(true);
            }
            payload_has_value(alloc, err)
        }
        WasmTypeKind::Bool
        | WasmTypeKind::S8
        | WasmTypeKind::S16
        | WasmTypeKind::S32
        | WasmTypeKind::S64
        | WasmTypeKind::U8
        | WasmTypeKind::U16
        | WasmTypeKind::U32
        | WasmTypeKind::U64
        | WasmTypeKind::Char
        | WasmTypeKind::String
        | WasmTypeKind::List
        | WasmTypeKind::Option
        | WasmTypeKind::Flags
        | WasmTypeKind::Map => Ok(true),
    }
}

/// Whether the type of each field has a value.
#[cycle(values)]
fn fields_have_value<T: WasmType>(alloc: Global, ty: &T) -> Result<bool, AllocError>
    requires { kind_of (T.tree ty.now) ≡ WasmTypeKind.Record }
    ensures { IfOk result (λ b. b ≡ inhabited (T.tree ty.now)) }
{
    let fields = ty.record_fields(alloc)?;
    for field in &fields {
        let (_, field_type) = *field;
        if !type_has_value(alloc, field_type)? {
            return Ok(false);
        }
    }
    Ok(true)
}

/// Whether the type of each item has a value.
#[cycle(values)]
fn items_have_value<T: WasmType>(alloc: Global, ty: &T) -> Result<bool, AllocError>
    requires { kind_of (T.tree ty.now) ≡ WasmTypeKind.Tuple }
    ensures { IfOk result (λ b. b ≡ inhabited (T.tree ty.now)) }
{
    let items = ty.tuple_element_types(alloc)?;
    for item in &items {
        if !type_has_value(alloc, *item)? {
            return Ok(false);
        }
    }
    Ok(true)
}

/// Whether a case has no payload, or one whose type has a value.
#[cycle(values)]
fn some_case_has_value<T: WasmType>(alloc: Global, ty: &T) -> Result<bool, AllocError>
    requires { kind_of (T.tree ty.now) ≡ WasmTypeKind.Variant }
    ensures { IfOk result (λ b. b ≡ inhabited (T.tree ty.now)) }
{
    let cases = ty.variant_cases(alloc)?;
    for case in &cases {
        let (_, payload) = *case;
        if payload_has_value(alloc, payload)? {
            return Ok(true);
        }
    }
    Ok(false)
}

/// Whether there is no payload, or its type has a value.
#[cycle(values)]
fn payload_has_value<T: WasmType>(alloc: Global, payload: Option<&T>) -> Result<bool, AllocError>
    ensures { IfOk result (λ b. b ≡ payload_inhabited (maybe_type (denoted T.tree payload.entry))) }
{
    match payload {
        Some(ty) => type_has_value(alloc, ty),
        None => Ok(true),
    }
}
