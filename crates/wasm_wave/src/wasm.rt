//! Kinds of types, what types, functions and values answer about themselves, and how they are shown.
ghost use Rattle.std.specs.Prelude.{IfOk, MatchOption};
ghost use Rattle.wave_wasm.specs.Values.{record_fields};
ghost use Rattle.wasm_wave.specs.FieldByName.{HasNoField, IsFirstField};

use std::alloc::{AllocError, Global};
pub use wave_wasm::wasm::{
    DisplayFunc, DisplayType, WasmFunc, WasmType, WasmTypeKind, WasmValue, WasmValueError,
    ensure_type_kind,
};
pub use wave_writer::display::{DisplayFuncArgs, DisplayFuncResults, DisplayValue};

/// The value of the record's field of this name; none where it has no such field, or is not a
/// record. Where the name repeats, it is that of the first. The only error is out of memory.
/// Example: `field(alloc, &value, "port")?` is `Some` of the value 80 where `value` is `{port: 80}`.
pub fn field<'a, V: WasmValue>(
    alloc: Global,
    value: &'a V,
    name: &str,
) -> Result<Option<&'a V>, AllocError>
    ensures { IfOk result (λ found. MatchOption found
        (HasNoField name.now (record_fields (V.tree value.now)))
        (λ part. IsFirstField name.now (record_fields (V.tree value.now)) (V.tree part.now))) }
{
    if value.kind() != WasmTypeKind::Record {
        return Ok(None);
    }
    for (own, part) in value.unwrap_record(alloc)? {
        if own == name {
            return Ok(Some(part));
        }
    }
    Ok(None)
}
