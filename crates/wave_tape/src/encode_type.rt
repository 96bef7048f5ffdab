//! Types and functions' types as tapes.
ghost use Rattle.std.specs.Prelude.{◌≡◌, ◌++◌, ◌∷◌, length, true, IfErr, OnOk, OnErr};
ghost use Rattle.std.specs.List.{list_all};
ghost use Rattle.wave_wasm.specs.Types.{kind_of, every_maybe, maybe_type};
ghost use Rattle.wave_wasm.specs.Borrowed.{denoted, denoted_all, texts};
ghost use Rattle.wave_tape.specs.Tape.{count_bytes, name_bytes};
ghost use Rattle.wave_tape.specs.TypeTape.{type_tape, type_bytes, payload_type_bytes, is_told, has_type_tape, func_tape, counted_type_bytes, has_func_tape};
ghost use Rattle.wave_tape.specs.Private.Writers.{Puts};
ghost use Rattle.wave_tape.specs.Errors.{HasNoTape};

use crate::encode::{put_bytes, put_count, put_names, put_text};
use crate::error::{Stop, TapeError, TapeErrorKind};
use std::alloc::Global;
use wave_wasm::wasm::{WasmFunc, WasmType, WasmTypeKind};

/// Appends the tape of the type: the version, 1, and the bytes of the type, as docs/FORMATS.md lays
/// them out. An error leaves `out` as it was: of kind `Unsupported` where a part of the type is
/// unsupported, which has no bytes, and else `OutOfMemory`. Its place is 0.
pub fn encode_type<T: WasmType>(alloc: Global, ty: &T, out: &mut Vec<u8>) -> Result<(), TapeError>
    ensures ok { OnOk result (out.new.items ≡ out.old.items ++ type_tape (T.tree ty.now)) }
    ensures whole { OnOk result (has_type_tape (T.tree ty.now) ≡ true) }
    ensures err { OnErr result (out.new.items ≡ out.old.items) }
    ensures cause { IfErr result (λ e. HasNoTape e (has_type_tape (T.tree ty.now))) }
{
    let before = out.len();
    match put_type_tape(alloc, ty, out) {
        Ok(()) => Ok(()),
        Err(stop) => {
            out.truncate(before);
            Err(TapeError::new(stop, 0))
        }
    }
}

/// Appends the tape of the function's type: the version, 1, then the parameters and then the results:
/// the count of each, and so many names and types. A type without a name has an empty one. Errors are
/// as those of `encode_type`.
pub fn encode_func<F: WasmFunc>(alloc: Global, func: &F, out: &mut Vec<u8>) -> Result<(), TapeError>
    ensures ok { OnOk result (out.new.items ≡ out.old.items ++ func_tape (F.func func.now)) }
    ensures whole { OnOk result (has_func_tape (F.func func.now) ≡ true) }
    ensures err { OnErr result (out.new.items ≡ out.old.items) }
    ensures cause { IfErr result (λ e. HasNoTape e (has_func_tape (F.func func.now))) }
{
    let before = out.len();
    match put_func_tape(alloc, func, out) {
        Ok(()) => Ok(()),
        Err(stop) => {
            out.truncate(before);
            Err(TapeError::new(stop, 0))
        }
    }
}

/// Appends the tape of the type.
fn put_type_tape<T: WasmType>(alloc: Global, ty: &T, out: &mut Vec<u8>) -> Result<(), Stop>
    ensures { Puts (type_tape (T.tree ty.now)) (has_type_tape (T.tree ty.now)) result out.old.items out.new.items }
{
    put_bytes(out, &[1])?;
    put_type(alloc, ty, out)
}

/// Appends the tape of the function's type.
fn put_func_tape<F: WasmFunc>(alloc: Global, func: &F, out: &mut Vec<u8>) -> Result<(), Stop>
    ensures { Puts (func_tape (F.func func.now)) (has_func_tape (F.func func.now)) result out.old.items out.new.items }
{
    let params = func.params(alloc)?;
    let param_names = func.param_names(alloc)?;
    let results = func.results(alloc)?;
    let result_names = func.result_names(alloc)?;
    put_bytes(out, &[1])?;
    put_named_types(alloc, &param_names, &params, out)?;
    put_named_types(alloc, &result_names, &results, out)
}

/// The count of the types, and each behind its name.
fn put_named_types<T: WasmType>(
    alloc: Global,
    names: &[&str],
    types: &[&T],
    out: &mut Vec<u8>,
) -> Result<(), Stop>
    ensures { Puts (counted_type_bytes (texts names.now) (denoted_all T.tree types.now)) (list_all has_type_tape (denoted_all T.tree types.now)) result out.old.items out.new.items }
{
    put_count(out, types.len())?;
    for i in 0..types.len() {
        let name = if i < names.len() { names[i] } else { "" };
        put_text(out, name)?;
        put_type(alloc, types[i], out)?;
    }
    Ok(())
}

/// Appends the bytes of the type within a tape.
#[cycle(put)]
fn put_type<T: WasmType>(alloc: Global, ty: &T, out: &mut Vec<u8>) -> Result<(), Stop>
    ensures { Puts (type_bytes (T.tree ty.now)) (has_type_tape (T.tree ty.now)) result out.old.items out.new.items }
{
    match ty.kind() {
        WasmTypeKind::Bool => put_bytes(out, &[1]),
        WasmTypeKind::U8 => put_bytes(out, &[2]),
        WasmTypeKind::U16 => put_bytes(out, &[3]),
        WasmTypeKind::U32 => put_bytes(out, &[4]),
        WasmTypeKind::U64 => put_bytes(out, &[5]),
        WasmTypeKind::S8 => put_bytes(out, &[6]),
        WasmTypeKind::S16 => put_bytes(out, &[7]),
        WasmTypeKind::S32 => put_bytes(out, &[8]),
        WasmTypeKind::S64 => put_bytes(out, &[9]),
        WasmTypeKind::Char => put_bytes(out, &[10]),
        WasmTypeKind::String => put_bytes(out, &[11]),
        WasmTypeKind::List => put_list(alloc, ty, out),
        WasmTypeKind::Tuple => put_tuple(alloc, ty, out),
        WasmTypeKind::Record => put_record(alloc, ty, out),
        WasmTypeKind::Variant => put_variant(alloc, ty, out),
        WasmTypeKind::Enum => put_named(16, &ty.enum_cases(alloc)?, out),
        WasmTypeKind::Option => put_option(alloc, ty, out),
        WasmTypeKind::Result => put_result(alloc, ty, out),
        WasmTypeKind::Flags => put_named(19, &ty.flags_names(alloc)?, out),
        WasmTypeKind::Map => put_map(alloc, ty, out),
        WasmTypeKind::FixedLengthList => put_fixed(alloc, ty, out),
        WasmTypeKind::F32 => put_bytes(out, &[22]),
        WasmTypeKind::F64 => put_bytes(out, &[23]),
        WasmTypeKind::Unsupported => Err(Stop::Fault(TapeErrorKind::Unsupported, 0)),
    }
}

/// A list: 12, and the type of its items.
#[cycle(put)]
fn put_list<T: WasmType>(alloc: Global, ty: &T, out: &mut Vec<u8>) -> Result<(), Stop>
    requires { kind_of (T.tree ty.now) ≡ WasmTypeKind.List }
    ensures { Puts (type_bytes (T.tree ty.now)) (has_type_tape (T.tree ty.now)) result out.old.items out.new.items }
{
    let Some(element) = ty.list_element_type() else {
        unreachable!();
    };
    put_bytes(out, &[12])?;
    put_type(alloc, element, out)
}

/// A tuple: 13, the count of its items, and their types.
#[cycle(put)]
fn put_tuple<T: WasmType>(alloc: Global, ty: &T, out: &mut Vec<u8>) -> Result<(), Stop>
    requires { kind_of (T.tree ty.now) ≡ WasmTypeKind.Tuple }
    ensures { Puts (type_bytes (T.tree ty.now)) (has_type_tape (T.tree ty.now)) result out.old.items out.new.items }
{
    let items = ty.tuple_element_types(alloc)?;
    put_head(13, items.len(), out)?;
    for item in &items {
        put_type(alloc, *item, out)?;
    }
    Ok(())
}

/// A record: 14, the count of its fields, and each name and type.
#[cycle(put)]
fn put_record<T: WasmType>(alloc: Global, ty: &T, out: &mut Vec<u8>) -> Result<(), Stop>
    requires { kind_of (T.tree ty.now) ≡ WasmTypeKind.Record }
    ensures { Puts (type_bytes (T.tree ty.now)) (has_type_tape (T.tree ty.now)) result out.old.items out.new.items }
{
    let fields = ty.record_fields(alloc)?;
    put_head(14, fields.len(), out)?;
    for field in &fields {
        put_text(out, field.0)?;
        put_type(alloc, field.1, out)?;
    }
    Ok(())
}

/// A variant: 15, the count of its cases, and each name and payload.
#[cycle(put)]
fn put_variant<T: WasmType>(alloc: Global, ty: &T, out: &mut Vec<u8>) -> Result<(), Stop>
    requires { kind_of (T.tree ty.now) ≡ WasmTypeKind.Variant }
    ensures { Puts (type_bytes (T.tree ty.now)) (has_type_tape (T.tree ty.now)) result out.old.items out.new.items }
{
    let cases = ty.variant_cases(alloc)?;
    put_head(15, cases.len(), out)?;
    for case in &cases {
        put_text(out, case.0)?;
        put_payload(alloc, case.1, out)?;
    }
    Ok(())
}

/// An option: 17, and the type of its payload.
#[cycle(put)]
fn put_option<T: WasmType>(alloc: Global, ty: &T, out: &mut Vec<u8>) -> Result<(), Stop>
    requires { kind_of (T.tree ty.now) ≡ WasmTypeKind.Option }
    ensures { Puts (type_bytes (T.tree ty.now)) (has_type_tape (T.tree ty.now)) result out.old.items out.new.items }
{
    let Some(payload) = ty.option_some_type() else {
        unreachable!();
    };
    put_bytes(out, &[17])?;
    put_type(alloc, payload, out)
}

/// A result: 18, and the payloads of `ok` and of `err`.
#[cycle(put)]
fn put_result<T: WasmType>(alloc: Global, ty: &T, out: &mut Vec<u8>) -> Result<(), Stop>
    requires { kind_of (T.tree ty.now) ≡ WasmTypeKind.Result }
    ensures { Puts (type_bytes (T.tree ty.now)) (has_type_tape (T.tree ty.now)) result out.old.items out.new.items }
{
    let Some((ok, err)) = ty.result_types() else {
        unreachable!();
    };
    put_bytes(out, &[18])?;
    put_payload(alloc, ok, out)?;
    put_payload(alloc, err, out)
}

/// A map: 20, the type of its keys and the type of its values.
#[cycle(put)]
fn put_map<T: WasmType>(alloc: Global, ty: &T, out: &mut Vec<u8>) -> Result<(), Stop>
    requires { kind_of (T.tree ty.now) ≡ WasmTypeKind.Map }
    ensures { Puts (type_bytes (T.tree ty.now)) (has_type_tape (T.tree ty.now)) result out.old.items out.new.items }
{
    let Some((key, val)) = ty.map_key_value_types() else {
        unreachable!();
    };
    put_bytes(out, &[20])?;
    put_type(alloc, key, out)?;
    put_type(alloc, val, out)
}

/// A list of a fixed length: 21, its length, and the type of its items.
#[cycle(put)]
fn put_fixed<T: WasmType>(alloc: Global, ty: &T, out: &mut Vec<u8>) -> Result<(), Stop>
    requires { kind_of (T.tree ty.now) ≡ WasmTypeKind.FixedLengthList }
    ensures { Puts (type_bytes (T.tree ty.now)) (has_type_tape (T.tree ty.now)) result out.old.items out.new.items }
{
    let Some(element) = ty.list_element_type() else {
        unreachable!();
    };
    let Some(length) = ty.list_length() else {
        unreachable!();
    };
    put_head(21, length as usize, out)?;
    put_type(alloc, element, out)
}

/// A payload's type: 0 where there is none, or 1 and the type.
#[cycle(put)]
fn put_payload<T: WasmType>(
    alloc: Global,
    payload: Option<&T>,
    out: &mut Vec<u8>,
) -> Result<(), Stop>
    ensures { Puts (payload_type_bytes (maybe_type (denoted T.tree payload.entry))) (every_maybe is_told (maybe_type (denoted T.tree payload.entry))) result out.old.items out.new.items }
{
    match payload {
        None => put_bytes(out, &[0]),
        Some(ty) => {
            put_bytes(out, &[1])?;
            put_type(alloc, ty, out)
        }
    }
}

/// A kind of which no more than names are told, and these.
fn put_named(kind: u8, names: &[&str], out: &mut Vec<u8>) -> Result<(), Stop>
    ensures { Puts (kind ∷ (count_bytes (length (texts names.now)) ++ name_bytes (texts names.now))) true result out.old.items out.new.items }
{
    put_bytes(out, &[kind])?;
    put_names(names, out)
}

/// The byte of a kind, and a count.
fn put_head(kind: u8, count: usize, out: &mut Vec<u8>) -> Result<(), Stop>
    ensures { Puts (kind ∷ count_bytes count) true result out.old.items out.new.items }
{
    put_bytes(out, &[kind])?;
    put_count(out, count)
}
