//! Any type as a `Type`.
ghost use Rattle.std.specs.Prelude.{◌≡◌, ◌≢◌, None, IfOk};
ghost use Rattle.wave_wasm.specs.Types.{kind_of, list_part};
ghost use Rattle.wave_wasm.specs.Borrowed.{denoted};
ghost use Rattle.wave_type.specs.TypeConversion.{converted_type};
ghost use Rattle.wave_type.specs.Private.TypeConversion.{converted_payload};

use super::Type;
use std::alloc::{AllocError, Global};
use wave_wasm::wasm::{WasmType, WasmTypeKind};

impl Type {
    /// The `Type` of the same tree. None exactly where the type holds, at any depth, an unsupported
    /// kind, or a record, tuple, variant, enum or flags without parts. The only error is out of
    /// memory.
    #[cycle(conversion)]
    pub fn from_wasm_type<T: WasmType>(alloc: Global, ty: &T) -> Result<Option<Type>, AllocError>
        ensures { IfOk result (λ r. r ≡ converted_type (T.tree ty.now)) }
    {
        let kind = ty.kind();
        match kind {
            WasmTypeKind::List | WasmTypeKind::FixedLengthList => convert_list(alloc, ty),
            WasmTypeKind::Record => convert_record(alloc, ty),
            WasmTypeKind::Tuple => convert_tuple(alloc, ty),
            WasmTypeKind::Variant => convert_variant(alloc, ty),
            WasmTypeKind::Enum => Type::enum_ty(alloc, &ty.enum_cases(alloc)?),
            WasmTypeKind::Option => {
                let Some(payload) = ty.option_some_type() else {
                    unreachable!()
                };
                let Some(payload) = Type::from_wasm_type(alloc, payload)? else {
                    return Ok(None);
                };
                Ok(Some(Type::option(alloc, payload)?))
            }
            WasmTypeKind::Result => convert_result(alloc, ty),
            WasmTypeKind::Flags => Type::flags(alloc, &ty.flags_names(alloc)?),
            WasmTypeKind::Map => {
                let Some((key, value)) = ty.map_key_value_types() else {
                    unreachable!()
                };
                let Some(key) = Type::from_wasm_type(alloc, key)? else {
                    return Ok(None);
                };
                let Some(value) = Type::from_wasm_type(alloc, value)? else {
                    return Ok(None);
                };
                Type::map(alloc, key, value)
            }
            _ => Ok(Type::simple(kind)),
        }
    }
}

#[cycle(conversion)]
fn convert_list<T: WasmType>(alloc: Global, ty: &T) -> Result<Option<Type>, AllocError>
    requires { list_part (T.tree ty.now) ≢ None }
    ensures { IfOk result (λ r. r ≡ converted_type (T.tree ty.now)) }
{
    let Some(element) = ty.list_element_type() else {
        unreachable!()
    };
    let Some(element) = Type::from_wasm_type(alloc, element)? else {
        return Ok(None);
    };
    match ty.list_length() {
        None => Ok(Some(Type::list(alloc, element)?)),
        Some(length) => Ok(Some(Type::fixed_length_list(alloc, element, length)?)),
    }
}

#[cycle(conversion)]
fn convert_result<T: WasmType>(alloc: Global, ty: &T) -> Result<Option<Type>, AllocError>
    requires { kind_of (T.tree ty.now) ≡ WasmTypeKind.Result }
    ensures { IfOk result (λ r. r ≡ converted_type (T.tree ty.now)) }
{
    let Some((ok, err)) = ty.result_types() else {
        unreachable!()
    };
    let Some(ok) = convert_payload(alloc, ok)? else {
        return Ok(None);
    };
    let Some(err) = convert_payload(alloc, err)? else {
        return Ok(None);
    };
    Ok(Some(Type::result(alloc, ok, err)?))
}

#[cycle(conversion)]
fn convert_record<T: WasmType>(alloc: Global, ty: &T) -> Result<Option<Type>, AllocError>
    requires { kind_of (T.tree ty.now) ≡ WasmTypeKind.Record }
    ensures { IfOk result (λ r. r ≡ converted_type (T.tree ty.now)) }
{
    let fields = ty.record_fields(alloc)?;
    let mut converted = Vec::new(alloc);
    for field in &fields {
        let (name, field_type) = *field;
        let Some(field_type) = Type::from_wasm_type(alloc, field_type)? else {
            return Ok(None);
        };
        converted.push((name, field_type))?;
    }
    Type::record(alloc, converted)
}

#[cycle(conversion)]
fn convert_tuple<T: WasmType>(alloc: Global, ty: &T) -> Result<Option<Type>, AllocError>
    requires { kind_of (T.tree ty.now) ≡ WasmTypeKind.Tuple }
    ensures { IfOk result (λ r. r ≡ converted_type (T.tree ty.now)) }
{
    let items = ty.tuple_element_types(alloc)?;
    let mut converted = Vec::new(alloc);
    for item in &items {
        let Some(item) = Type::from_wasm_type(alloc, *item)? else {
            return Ok(None);
        };
        converted.push(item)?;
    }
    Type::tuple(alloc, converted)
}

#[cycle(conversion)]
fn convert_variant<T: WasmType>(alloc: Global, ty: &T) -> Result<Option<Type>, AllocError>
    requires { kind_of (T.tree ty.now) ≡ WasmTypeKind.Variant }
    ensures { IfOk result (λ r. r ≡ converted_type (T.tree ty.now)) }
{
    let cases = ty.variant_cases(alloc)?;
    let mut converted = Vec::new(alloc);
    for case in &cases {
        let (name, payload) = *case;
        let Some(payload) = convert_payload(alloc, payload)? else {
            return Ok(None);
        };
        converted.push((name, payload))?;
    }
    Type::variant(alloc, converted)
}

// The payload's type converted, where there is one; none where it can't be.
#[cycle(conversion)]
fn convert_payload<T: WasmType>(
    alloc: Global,
    payload: Option<&T>,
) -> Result<Option<Option<Type>>, AllocError>
    ensures { IfOk result (λ r. r ≡ converted_payload (denoted T.tree payload.entry)) }
{
    let Some(ty) = payload else {
        return Ok(Some(None));
    };
    let Some(ty) = Type::from_wasm_type(alloc, ty)? else {
        return Ok(None);
    };
    Ok(Some(Some(ty)))
}
