//! Values as tapes.
ghost use Rattle.std.specs.Prelude.{◌≡◌, ◌++◌, length, map, true, IfErr, OnOk, OnErr};
ghost use Rattle.std.specs.List.{flat_map, list_all};
ghost use Rattle.wave_wasm.specs.Values.{kind_of, maybe_value};
ghost use Rattle.wave_wasm.specs.Borrowed.{denoted, denoted_all, texts};
ghost use Rattle.wave_wasm.specs.Text.{is_writable, is_writable_maybe};
ghost use Rattle.wave_tape.specs.Tape.{tape, call_tape, bytes_of, payload_bytes, text_bytes, name_bytes, count_bytes};
ghost use Rattle.wave_tape.specs.Private.Writers.{Puts};
ghost use Rattle.wave_tape.specs.Private.Rows.{row_or_zero};
ghost use Rattle.wave_tape.specs.Errors.{HasNoTape};

use crate::error::{Stop, TapeError, TapeErrorKind};
use std::alloc::Global;
use wave_wasm::wasm::{WasmTypeKind, WasmValue};

/// Appends the tape of the value: the version, 1, and the bytes of the value, as docs/FORMATS.md lays
/// them out. An error leaves `out` as it was: of kind `Unsupported` where a part of the value is an
/// `f32`, an `f64` or unsupported, which have no bytes, and else `OutOfMemory`. Its place is 0.
pub fn encode<V: WasmValue>(alloc: Global, val: &V, out: &mut Vec<u8>) -> Result<(), TapeError>
    ensures ok { OnOk result (out.new.items ≡ out.old.items ++ tape (V.tree val.now)) }
    ensures whole { OnOk result (is_writable (V.tree val.now) ≡ true) }
    ensures err { OnErr result (out.new.items ≡ out.old.items) }
    ensures cause { IfErr result (λ e. HasNoTape e (is_writable (V.tree val.now))) }
{
    let before = out.len();
    match put_tape(alloc, val, out) {
        Ok(()) => Ok(()),
        Err(stop) => {
            out.truncate(before);
            Err(TapeError::new(stop, 0))
        }
    }
}

/// Appends the tape of a call: the version, 1, the name of the function, and the bytes of each
/// argument. How many arguments there are the function's type says. Errors are as those of `encode`.
pub fn encode_call<V: WasmValue>(
    alloc: Global,
    name: &str,
    args: &[V],
    out: &mut Vec<u8>,
) -> Result<(), TapeError>
    ensures ok { OnOk result (out.new.items ≡ out.old.items ++ call_tape name.now (map V.tree args.now)) }
    ensures whole { OnOk result (list_all is_writable (map V.tree args.now) ≡ true) }
    ensures err { OnErr result (out.new.items ≡ out.old.items) }
    ensures cause { IfErr result (λ e. HasNoTape e (list_all is_writable (map V.tree args.now))) }
{
    let before = out.len();
    match put_call(alloc, name, args, out) {
        Ok(()) => Ok(()),
        Err(stop) => {
            out.truncate(before);
            Err(TapeError::new(stop, 0))
        }
    }
}

/// Appends the tape of the value.
fn put_tape<V: WasmValue>(alloc: Global, val: &V, out: &mut Vec<u8>) -> Result<(), Stop>
    ensures { Puts (tape (V.tree val.now)) (is_writable (V.tree val.now)) result out.old.items out.new.items }
{
    put_bytes(out, &[1])?;
    put_value(alloc, val, out)
}

/// Appends the tape of the call.
fn put_call<V: WasmValue>(
    alloc: Global,
    name: &str,
    args: &[V],
    out: &mut Vec<u8>,
) -> Result<(), Stop>
    ensures { Puts (call_tape name.now (map V.tree args.now)) (list_all is_writable (map V.tree args.now)) result out.old.items out.new.items }
{
    put_bytes(out, &[1])?;
    put_text(out, name)?;
    for arg in args {
        put_value(alloc, arg, out)?;
    }
    Ok(())
}

/// Appends the bytes of the value within a tape.
#[cycle(put)]
fn put_value<V: WasmValue>(alloc: Global, val: &V, out: &mut Vec<u8>) -> Result<(), Stop>
    ensures { Puts (bytes_of (V.tree val.now)) (is_writable (V.tree val.now)) result out.old.items out.new.items }
{
    match val.kind() {
        WasmTypeKind::Bool => put_bytes(out, &[u8::from(val.unwrap_bool())]),
        WasmTypeKind::U8 => put_bytes(out, &val.unwrap_u8().to_le_bytes()),
        WasmTypeKind::U16 => put_bytes(out, &val.unwrap_u16().to_le_bytes()),
        WasmTypeKind::U32 => put_bytes(out, &val.unwrap_u32().to_le_bytes()),
        WasmTypeKind::U64 => put_bytes(out, &val.unwrap_u64().to_le_bytes()),
        WasmTypeKind::S8 => put_bytes(out, &val.unwrap_s8().to_le_bytes()),
        WasmTypeKind::S16 => put_bytes(out, &val.unwrap_s16().to_le_bytes()),
        WasmTypeKind::S32 => put_bytes(out, &val.unwrap_s32().to_le_bytes()),
        WasmTypeKind::S64 => put_bytes(out, &val.unwrap_s64().to_le_bytes()),
        WasmTypeKind::Char => put_bytes(out, &u32::from(val.unwrap_char()).to_le_bytes()),
        WasmTypeKind::String => put_text(out, val.unwrap_string()),
        WasmTypeKind::List => put_list(alloc, val, out),
        WasmTypeKind::FixedLengthList => put_fixed(alloc, val, out),
        WasmTypeKind::Tuple => put_tuple(alloc, val, out),
        WasmTypeKind::Record => put_record(alloc, val, out),
        WasmTypeKind::Variant => put_variant(alloc, val, out),
        WasmTypeKind::Enum => put_text(out, val.unwrap_enum()),
        WasmTypeKind::Option => put_option(alloc, val, out),
        WasmTypeKind::Result => put_result(alloc, val, out),
        WasmTypeKind::Flags => put_flags(alloc, val, out),
        WasmTypeKind::Map => put_map(alloc, val, out),
        WasmTypeKind::F32 | WasmTypeKind::F64 | WasmTypeKind::Unsupported => {
            Err(Stop::Fault(TapeErrorKind::Unsupported, 0))
        }
    }
}

/// A list: the count of its items, and these.
#[cycle(put)]
fn put_list<V: WasmValue>(alloc: Global, val: &V, out: &mut Vec<u8>) -> Result<(), Stop>
    requires { kind_of (V.tree val.now) ≡ WasmTypeKind.List }
    ensures { Puts (bytes_of (V.tree val.now)) (is_writable (V.tree val.now)) result out.old.items out.new.items }
{
    let items = val.unwrap_list(alloc)?;
    put_count(out, items.len())?;
    put_items(alloc, &items, out)
}

/// A list of a fixed length: its items.
#[cycle(put)]
fn put_fixed<V: WasmValue>(alloc: Global, val: &V, out: &mut Vec<u8>) -> Result<(), Stop>
    requires { kind_of (V.tree val.now) ≡ WasmTypeKind.FixedLengthList }
    ensures { Puts (bytes_of (V.tree val.now)) (is_writable (V.tree val.now)) result out.old.items out.new.items }
{
    let items = val.unwrap_list(alloc)?;
    put_row(alloc, &items, out)
}

/// A tuple: its items.
#[cycle(put)]
fn put_tuple<V: WasmValue>(alloc: Global, val: &V, out: &mut Vec<u8>) -> Result<(), Stop>
    requires { kind_of (V.tree val.now) ≡ WasmTypeKind.Tuple }
    ensures { Puts (bytes_of (V.tree val.now)) (is_writable (V.tree val.now)) result out.old.items out.new.items }
{
    let items = val.unwrap_tuple(alloc)?;
    put_row(alloc, &items, out)
}

/// Items whose number the type says; 0 where there are none.
#[cycle(put)]
fn put_row<V: WasmValue>(alloc: Global, items: &[&V], out: &mut Vec<u8>) -> Result<(), Stop>
    ensures { Puts (row_or_zero bytes_of (denoted_all V.tree items.now)) (list_all is_writable (denoted_all V.tree items.now)) result out.old.items out.new.items }
{
    if items.is_empty() {
        return put_bytes(out, &[0]);
    }
    put_items(alloc, items, out)
}

/// The items, one behind the other.
#[cycle(put)]
fn put_items<V: WasmValue>(alloc: Global, items: &[&V], out: &mut Vec<u8>) -> Result<(), Stop>
    ensures { Puts (flat_map bytes_of (denoted_all V.tree items.now)) (list_all is_writable (denoted_all V.tree items.now)) result out.old.items out.new.items }
{
    for item in items {
        put_value(alloc, *item, out)?;
    }
    Ok(())
}

/// A record: the values of its fields; 0 where there are none.
#[cycle(put)]
fn put_record<V: WasmValue>(alloc: Global, val: &V, out: &mut Vec<u8>) -> Result<(), Stop>
    requires { kind_of (V.tree val.now) ≡ WasmTypeKind.Record }
    ensures { Puts (bytes_of (V.tree val.now)) (is_writable (V.tree val.now)) result out.old.items out.new.items }
{
    let fields = val.unwrap_record(alloc)?;
    if fields.is_empty() {
        return put_bytes(out, &[0]);
    }
    for field in &fields {
        put_value(alloc, field.1, out)?;
    }
    Ok(())
}

/// A variant: the name of its case, and the payload where there is one.
#[cycle(put)]
fn put_variant<V: WasmValue>(alloc: Global, val: &V, out: &mut Vec<u8>) -> Result<(), Stop>
    requires { kind_of (V.tree val.now) ≡ WasmTypeKind.Variant }
    ensures { Puts (bytes_of (V.tree val.now)) (is_writable (V.tree val.now)) result out.old.items out.new.items }
{
    let (case, payload) = val.unwrap_variant();
    put_text(out, case)?;
    put_payload(alloc, payload, out)
}

/// An option: 0 for none, or 1 and the payload.
#[cycle(put)]
fn put_option<V: WasmValue>(alloc: Global, val: &V, out: &mut Vec<u8>) -> Result<(), Stop>
    requires { kind_of (V.tree val.now) ≡ WasmTypeKind.Option }
    ensures { Puts (bytes_of (V.tree val.now)) (is_writable (V.tree val.now)) result out.old.items out.new.items }
{
    match val.unwrap_option() {
        None => put_bytes(out, &[0]),
        Some(payload) => {
            put_bytes(out, &[1])?;
            put_value(alloc, payload, out)
        }
    }
}

/// A result: 0 for `ok`, 1 for `err`, and the payload where there is one.
#[cycle(put)]
fn put_result<V: WasmValue>(alloc: Global, val: &V, out: &mut Vec<u8>) -> Result<(), Stop>
    requires { kind_of (V.tree val.now) ≡ WasmTypeKind.Result }
    ensures { Puts (bytes_of (V.tree val.now)) (is_writable (V.tree val.now)) result out.old.items out.new.items }
{
    match val.unwrap_result() {
        Ok(payload) => {
            put_bytes(out, &[0])?;
            put_payload(alloc, payload, out)
        }
        Err(payload) => {
            put_bytes(out, &[1])?;
            put_payload(alloc, payload, out)
        }
    }
}

/// A payload, where there is one.
#[cycle(put)]
fn put_payload<V: WasmValue>(
    alloc: Global,
    payload: Option<&V>,
    out: &mut Vec<u8>,
) -> Result<(), Stop>
    ensures { Puts (payload_bytes (maybe_value (denoted V.tree payload.entry))) (is_writable_maybe (maybe_value (denoted V.tree payload.entry))) result out.old.items out.new.items }
{
    match payload {
        None => Ok(()),
        Some(val) => put_value(alloc, val, out),
    }
}

/// Flags: the count of their names, and these.
fn put_flags<V: WasmValue>(alloc: Global, val: &V, out: &mut Vec<u8>) -> Result<(), Stop>
    requires { kind_of (V.tree val.now) ≡ WasmTypeKind.Flags }
    ensures { Puts (bytes_of (V.tree val.now)) (is_writable (V.tree val.now)) result out.old.items out.new.items }
{
    let names = val.unwrap_flags(alloc)?;
    put_names(&names, out)
}

/// A map: the count of its entries, and these.
#[cycle(put)]
fn put_map<V: WasmValue>(alloc: Global, val: &V, out: &mut Vec<u8>) -> Result<(), Stop>
    requires { kind_of (V.tree val.now) ≡ WasmTypeKind.Map }
    ensures { Puts (bytes_of (V.tree val.now)) (is_writable (V.tree val.now)) result out.old.items out.new.items }
{
    let entries = val.unwrap_map(alloc)?;
    put_count(out, entries.len())?;
    for entry in &entries {
        put_value(alloc, entry.0, out)?;
        put_value(alloc, entry.1, out)?;
    }
    Ok(())
}

/// Names: their count, and these.
pub(crate) fn put_names(names: &[&str], out: &mut Vec<u8>) -> Result<(), Stop>
    ensures { Puts (count_bytes (length (texts names.now)) ++ name_bytes (texts names.now)) true result out.old.items out.new.items }
{
    put_count(out, names.len())?;
    for name in names {
        put_text(out, *name)?;
    }
    Ok(())
}

/// A name or a text: the count of its bytes, and these.
pub(crate) fn put_text(out: &mut Vec<u8>, name: &str) -> Result<(), Stop>
    ensures { Puts (text_bytes name.now) true result out.old.items out.new.items }
{
    put_count(out, name.len())?;
    put_bytes(out, name.as_bytes())
}

/// A count, as a number of 8 bytes.
pub(crate) fn put_count(out: &mut Vec<u8>, count: usize) -> Result<(), Stop>
    ensures { Puts (count_bytes count) true result out.old.items out.new.items }
{
    put_bytes(out, &(count as u64).to_le_bytes())
}

/// These bytes.
pub(crate) fn put_bytes(out: &mut Vec<u8>, bytes: &[u8]) -> Result<(), Stop>
    ensures { Puts bytes.now true result out.old.items out.new.items }
{
    out.extend_from_slice(bytes)?;
    Ok(())
}
