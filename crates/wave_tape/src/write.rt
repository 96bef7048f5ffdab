//! Tapes as canonical text, with no value made between.
ghost use Rattle.std.specs.Prelude.{◌≡◌, ◌++◌, ◌≤◌, IfErr, IfNone, IfOk, IfSome, List, MatchResult, Ok, OnOk, false, if◌then◌else◌, length, true, ℕ};
ghost use Rattle.std.specs.Fmt.{signed_decimal};
ghost use Rattle.std.specs.String.{string_bytes};
ghost use Rattle.wave_wasm.specs.ConstructorContracts.{IsOfListKind};
ghost use Rattle.wave_wasm.specs.Borrowed.{denoted, texts};
ghost use Rattle.wave_wasm.specs.Commas.{in_braces, joined};
ghost use Rattle.wave_wasm.specs.HasType.{HasType};
ghost use Rattle.wave_wasm.specs.Keywords.{case_label};
ghost use Rattle.wave_wasm.specs.Text.{has_text, is_no_option, text};
ghost use Rattle.wave_wasm.specs.TextParts.{whole_text};
ghost use Rattle.wave_wasm.specs.Types.{HasDistinctNames, kind_of};
ghost use Rattle.wave_wasm.specs.Values as value;
ghost use Rattle.wave_wasm.specs.Values.{Value, no_value};
ghost use Rattle.wave_tape.specs.Decoding.{IsFirstFault, IsLacking};
ghost use Rattle.wave_tape.specs.Names.{HasTextNames};
ghost use Rattle.wave_tape.specs.Reading.{tape_at, value_at, zero_at};
ghost use Rattle.wave_tape.specs.Tape.{tape};
ghost use Rattle.wave_tape.specs.Writing.{IsTextOfTape};
ghost use Rattle.wave_tape.specs.Private.Readers.{Gives};
ghost use Rattle.wave_tape.specs.Private.TextWriters.{AreCounted, AreWritten, EntriesAreWritten, IsLeafWritten, IsMadeWritten, IsPayloadWritten, IsTapeWritten, IsWholeRead, IsWritten};

use crate::bytes::{char_at, choice_at, name_at, text_at, u8_at, u16_at, u32_at, u64_at, zero_at};
use crate::decode::{read_names, refusal};
use crate::error::{Stop, TapeError, TapeErrorKind};
use crate::plain::is_plain;
use itoa::Buffer;
use std::alloc::{AllocError, Global};
use wave_wasm::keyword::Keyword;
use wave_wasm::wasm::{WasmType, WasmTypeKind, WasmValue, WasmValueError};
use wave_writer::writer::{merge_map_entries, to_string};

/// The canonical text of the value at the type of which all of these bytes are the tape, as
/// docs/FORMATS.md lays it out: the text that `to_string` gives of what `decode` gives.
///
/// Errors are those of `decode`. Only a char, and a string that has to be escaped, are made as values.
pub fn write<V: WasmValue>(alloc: Global, ty: &V::Type, bytes: &[u8]) -> Result<String, TapeError>
    ensures written { IfOk result (λ s. IsTextOfTape (V.Type.tree ty.now) bytes.now (string_bytes s)) }
    ensures only { (v : Value) → HasDistinctNames (V.Type.tree ty.now) → HasTextNames (V.Type.tree ty.now) → HasType (V.Type.tree ty.now) v → bytes.now ≡ tape v
        → MatchResult result (λ s. string_bytes s ≡ text v) (λ e. IsLacking (V.is_full (V.Type.tree ty.now)) e) }
    ensures fault { IfErr result (λ e. HasTextNames (V.Type.tree ty.now) → IsFirstFault (V.is_full (V.Type.tree ty.now)) e bytes.now (tape_at (V.Type.tree ty.now) bytes.now)) }
    ensures place { IfErr result (λ e. e.place ≤ length bytes.now) }
{
    match write_tape::<V>(alloc, ty, bytes) {
        Ok(text) => Ok(text),
        Err(stop) => Err(TapeError::new(stop, bytes.len())),
    }
}

/// The text of the value of which all of these bytes are the tape.
fn write_tape<V: WasmValue>(alloc: Global, ty: &V::Type, bytes: &[u8]) -> Result<String, Stop>
    ensures { IsTapeWritten V.is_full (V.Type.tree ty.now) bytes.now result }
{
    let (version, rest) = u8_at(bytes)?;
    if version != 1 {
        return Err(Stop::Fault(TapeErrorKind::Version, bytes.len()));
    }
    let mut out = String::with_capacity(alloc, bytes.len())?;
    let behind = write_value::<V>(alloc, ty, rest, &mut out)?;
    if !behind.is_empty() {
        return Err(Stop::Fault(TapeErrorKind::Trailing, behind.len()));
    }
    Ok(out)
}

/// Appends the text of a value at the type, and returns the bytes behind it.
#[cycle(write)]
fn write_value<'a, V: WasmValue>(
    alloc: Global,
    ty: &V::Type,
    bytes: &'a [u8],
    out: &mut String,
) -> Result<&'a [u8], Stop>
    ensures { IsWritten V.is_full (V.Type.tree ty.now) bytes.now (string_bytes out.old) (string_bytes out.new) result }
{
    let kind = ty.kind();
    match kind {
        WasmTypeKind::List | WasmTypeKind::FixedLengthList => {
            write_list::<V>(alloc, ty, bytes, out)
        }
        WasmTypeKind::Tuple => write_tuple::<V>(alloc, ty, bytes, out),
        WasmTypeKind::Record => write_record::<V>(alloc, ty, bytes, out),
        WasmTypeKind::Variant => write_variant::<V>(alloc, ty, bytes, out),
        WasmTypeKind::Enum => write_enum::<V>(alloc, ty, bytes, out),
        WasmTypeKind::Option => write_option::<V>(alloc, ty, bytes, out),
        WasmTypeKind::Result => write_result::<V>(alloc, ty, bytes, out),
        WasmTypeKind::Flags => write_flags::<V>(alloc, ty, bytes, out),
        WasmTypeKind::Map => write_map::<V>(alloc, ty, bytes, out),
        WasmTypeKind::F32 | WasmTypeKind::F64 | WasmTypeKind::Unsupported => {
            Err(Stop::Fault(TapeErrorKind::Unsupported, bytes.len()))
        }
        WasmTypeKind::Bool
        | WasmTypeKind::S8
        | WasmTypeKind::S16
        | WasmTypeKind::S32
        | WasmTypeKind::S64
        | WasmTypeKind::U8
        | WasmTypeKind::U16
        | WasmTypeKind::U32
        | WasmTypeKind::U64
        | WasmTypeKind::Char
        | WasmTypeKind::String => write_leaf::<V>(alloc, kind, bytes, out),
    }
}

/// So a value of one token, of a type of this kind.
fn write_leaf<'a, V: WasmValue>(
    alloc: Global,
    kind: WasmTypeKind,
    bytes: &'a [u8],
    out: &mut String,
) -> Result<&'a [u8], Stop>
    ensures { IsLeafWritten V.is_full kind bytes.now (string_bytes out.old) (string_bytes out.new) result }
{
    match kind {
        WasmTypeKind::Bool => {
            let (val, rest) = choice_at(bytes)?;
            put_either(out, val, "true", "false")?;
            Ok(rest)
        }
        WasmTypeKind::Char => {
            let (val, rest) = char_at(bytes)?;
            put_made(alloc, V::make_char(alloc, val), rest, out)
        }
        WasmTypeKind::String => write_string::<V>(alloc, bytes, out),
        _ => {
            let (is_negative, distance, rest) = whole_at(kind, bytes)?;
            put_either(out, is_negative, "-", "")?;
            let mut buffer = Buffer::new();
            out.push_str(buffer.format(distance))?;
            Ok(rest)
        }
    }
}

/// So a string.
fn write_string<'a, V: WasmValue>(
    alloc: Global,
    bytes: &'a [u8],
    out: &mut String,
) -> Result<&'a [u8], Stop>
    ensures { IsLeafWritten V.is_full WasmTypeKind.String bytes.now (string_bytes out.old) (string_bytes out.new) result }
{
    let (text, rest) = text_at(bytes)?;
    if !is_plain(text) {
        return put_made(alloc, V::make_string(alloc, text), rest, out);
    }
    out.push_str("\"")?;
    out.push_str(text)?;
    out.push_str("\"")?;
    Ok(rest)
}

/// A whole number of a type of this kind, by its sign and its distance from zero, and the bytes behind it.
fn whole_at(kind: WasmTypeKind, bytes: &[u8]) -> Result<(bool, u64, &[u8]), Stop>
    ensures { IsWholeRead kind bytes.now result }
{
    match kind {
        WasmTypeKind::U8 => {
            let (number, rest) = u8_at(bytes)?;
            Ok((false, u64::from(number), rest))
        }
        WasmTypeKind::U16 => {
            let (number, rest) = u16_at(bytes)?;
            Ok((false, u64::from(number), rest))
        }
        WasmTypeKind::U32 => {
            let (number, rest) = u32_at(bytes)?;
            Ok((false, u64::from(number), rest))
        }
        WasmTypeKind::U64 => {
            let (number, rest) = u64_at(bytes)?;
            Ok((false, number, rest))
        }
        WasmTypeKind::S8 => {
            let (number, rest) = u8_at(bytes)?;
            Ok(signed(i64::from(number.cast_signed()), rest))
        }
        WasmTypeKind::S16 => {
            let (number, rest) = u16_at(bytes)?;
            Ok(signed(i64::from(number.cast_signed()), rest))
        }
        WasmTypeKind::S32 => {
            let (number, rest) = u32_at(bytes)?;
            Ok(signed(i64::from(number.cast_signed()), rest))
        }
        WasmTypeKind::S64 => {
            let (number, rest) = u64_at(bytes)?;
            Ok(signed(number.cast_signed(), rest))
        }
        _ => Err(Stop::Fault(TapeErrorKind::Unsupported, bytes.len())),
    }
}

/// So a signed one that was read.
#[inline(always)]
fn signed(number: i64, rest: &[u8]) -> (bool, u64, &[u8])
    ensures text { whole_text result.0 result.1 ≡ signed_decimal number }
    ensures rest { result.2.now ≡ rest.now }
{
    (number < 0, number.unsigned_abs(), rest)
}

/// The text of what a constructor made of the bytes before these.
fn put_made<'a, V: WasmValue>(
    alloc: Global,
    made: Result<V, WasmValueError>,
    rest: &'a [u8],
    out: &mut String,
) -> Result<&'a [u8], Stop>
    ensures { IsMadeWritten V.tree made rest.now (string_bytes out.old) (string_bytes out.new) result }
{
    match made {
        Ok(val) => match to_string(alloc, &val) {
            Ok(text) => {
                out.push_str(text.as_str())?;
                Ok(rest)
            }
            // a char and a string have a text
            Err(_) => Err(Stop::Memory),
        },
        Err(cause) => Err(refusal(cause, rest.len())),
    }
}

/// So a list, or one of a fixed length: its items in brackets.
#[cycle(write)]
fn write_list<'a, V: WasmValue>(
    alloc: Global,
    ty: &V::Type,
    bytes: &'a [u8],
    out: &mut String,
) -> Result<&'a [u8], Stop>
    requires { IsOfListKind (kind_of (V.Type.tree ty.now)) }
    ensures { IsWritten V.is_full (V.Type.tree ty.now) bytes.now (string_bytes out.old) (string_bytes out.new) result }
{
    let Some(element) = ty.list_element_type() else {
        return Err(Stop::Fault(TapeErrorKind::Unsupported, bytes.len()));
    };
    let (count, rest) = count_at(ty, bytes)?;
    out.push_str("[")?;
    let rest = write_items::<V>(alloc, element, count, rest, out)?;
    out.push_str("]")?;
    Ok(rest)
}

/// How many items a list has, and the bytes of these.
fn count_at<'a, T: WasmType>(ty: &T, bytes: &'a [u8]) -> Result<(u64, &'a [u8]), Stop>
    requires { IsOfListKind (kind_of (T.tree ty.now)) }
    ensures { AreCounted (T.tree ty.now) bytes.now result }
{
    match ty.list_length() {
        Some(length) => {
            let rest = row_at(length == 0, bytes)?;
            Ok((u64::from(length), rest))
        }
        None => u64_at(bytes),
    }
}

/// The bytes of parts whose number the type says: those behind a 0, where there are none.
#[inline(always)]
fn row_at(is_empty: bool, bytes: &[u8]) -> Result<&[u8], Stop>
    ensures { Gives (λ x. x.now) result (if is_empty then zero_at bytes.now else Ok bytes.now) }
{
    if is_empty { zero_at(bytes) } else { Ok(bytes) }
}

/// This many values at the type, with commas between.
#[cycle(write)]
fn write_items<'a, V: WasmValue>(
    alloc: Global,
    ty: &V::Type,
    count: u64,
    bytes: &'a [u8],
    out: &mut String,
) -> Result<&'a [u8], Stop>
    ensures { AreWritten V.is_full (V.Type.tree ty.now) count bytes.now (string_bytes out.old) (string_bytes out.new) result }
{
    let mut rest = bytes;
    let mut later = false;
    for _ in 0..count {
        put_either(out, later, ", ", "")?;
        later = true;
        rest = write_value::<V>(alloc, ty, rest, out)?;
    }
    Ok(rest)
}

/// So a tuple: its items in parentheses.
#[cycle(write)]
fn write_tuple<'a, V: WasmValue>(
    alloc: Global,
    ty: &V::Type,
    bytes: &'a [u8],
    out: &mut String,
) -> Result<&'a [u8], Stop>
    requires { kind_of (V.Type.tree ty.now) ≡ WasmTypeKind.Tuple }
    ensures { IsWritten V.is_full (V.Type.tree ty.now) bytes.now (string_bytes out.old) (string_bytes out.new) result }
{
    let types = ty.tuple_element_types(alloc)?;
    let mut rest = row_at(types.is_empty(), bytes)?;
    out.push_str("(")?;
    let mut later = false;
    for item in &types {
        put_either(out, later, ", ", "")?;
        later = true;
        rest = write_value::<V>(alloc, *item, rest, out)?;
    }
    out.push_str(")")?;
    Ok(rest)
}

/// So a record: its fields in braces, without those that are `none`.
#[cycle(write)]
fn write_record<'a, V: WasmValue>(
    alloc: Global,
    ty: &V::Type,
    bytes: &'a [u8],
    out: &mut String,
) -> Result<&'a [u8], Stop>
    requires { kind_of (V.Type.tree ty.now) ≡ WasmTypeKind.Record }
    ensures { IsWritten V.is_full (V.Type.tree ty.now) bytes.now (string_bytes out.old) (string_bytes out.new) result }
{
    let fields = ty.record_fields(alloc)?;
    let mut rest = row_at(fields.is_empty(), bytes)?;
    let mut later = false;
    for field in &fields {
        let (name, part) = *field;
        if let Some(behind) = none_at(part, rest) {
            rest = behind;
            continue;
        }
        put_either(out, later, ", ", "{")?;
        later = true;
        out.push_str(name)?;
        out.push_str(": ")?;
        rest = write_value::<V>(alloc, part, rest, out)?;
    }
    put_either(out, later, "}", "{:}")?;
    Ok(rest)
}

/// The bytes behind `none`, where the value at the type is that.
#[inline(always)]
fn none_at<'a, T: WasmType>(ty: &T, bytes: &'a [u8]) -> Option<&'a [u8]>
    ensures none { IfSome result (λ rest. value_at (T.tree ty.now) bytes.now ≡ Ok (value.option no_value, rest.now)) }
    ensures other { IfNone result ((v : Value) (rest : List ℕ) → value_at (T.tree ty.now) bytes.now ≡ Ok (v, rest) → is_no_option v ≡ false) }
{
    match ty.kind() {
        WasmTypeKind::Option => match choice_at(bytes) {
            Ok((some, rest)) => { if some { None } else { Some(rest) } }
            Err(_) => None,
        },
        _ => None,
    }
}

/// So a variant: its case and the payload.
#[cycle(write)]
fn write_variant<'a, V: WasmValue>(
    alloc: Global,
    ty: &V::Type,
    bytes: &'a [u8],
    out: &mut String,
) -> Result<&'a [u8], Stop>
    requires { kind_of (V.Type.tree ty.now) ≡ WasmTypeKind.Variant }
    ensures { IsWritten V.is_full (V.Type.tree ty.now) bytes.now (string_bytes out.old) (string_bytes out.new) result }
{
    let (name, rest) = name_at(bytes)?;
    let Ok(name) = str::from_utf8(name) else {
        return Err(Stop::Fault(TapeErrorKind::Name, bytes.len()));
    };
    let Some((_, expected)) = ty.variant_case(alloc, name)? else {
        return Err(Stop::Fault(TapeErrorKind::Name, bytes.len()));
    };
    put_case(out, name)?;
    write_payload::<V>(alloc, expected, rest, out)
}

/// So a payload: in parentheses, where it has a type.
#[cycle(write)]
fn write_payload<'a, V: WasmValue>(
    alloc: Global,
    expected: Option<&V::Type>,
    bytes: &'a [u8],
    out: &mut String,
) -> Result<&'a [u8], Stop>
    ensures { IsPayloadWritten V.is_full (denoted V.Type.tree expected.entry) bytes.now (string_bytes out.old) (string_bytes out.new) result }
{
    match expected {
        Some(ty) => {
            out.push_str("(")?;
            let rest = write_value::<V>(alloc, ty, bytes, out)?;
            out.push_str(")")?;
            Ok(rest)
        }
        None => Ok(bytes),
    }
}

/// So an enum: its case.
fn write_enum<'a, V: WasmValue>(
    alloc: Global,
    ty: &V::Type,
    bytes: &'a [u8],
    out: &mut String,
) -> Result<&'a [u8], Stop>
    requires { kind_of (V.Type.tree ty.now) ≡ WasmTypeKind.Enum }
    ensures { IsWritten V.is_full (V.Type.tree ty.now) bytes.now (string_bytes out.old) (string_bytes out.new) result }
{
    let (name, rest) = name_at(bytes)?;
    let Ok(name) = str::from_utf8(name) else {
        return Err(Stop::Fault(TapeErrorKind::Name, bytes.len()));
    };
    if !ty.has_enum_case(alloc, name)? {
        return Err(Stop::Fault(TapeErrorKind::Name, bytes.len()));
    }
    put_case(out, name)?;
    Ok(rest)
}

/// So an option: `none`, or `some` and the payload.
#[cycle(write)]
fn write_option<'a, V: WasmValue>(
    alloc: Global,
    ty: &V::Type,
    bytes: &'a [u8],
    out: &mut String,
) -> Result<&'a [u8], Stop>
    requires { kind_of (V.Type.tree ty.now) ≡ WasmTypeKind.Option }
    ensures { IsWritten V.is_full (V.Type.tree ty.now) bytes.now (string_bytes out.old) (string_bytes out.new) result }
{
    let Some(expected) = ty.option_some_type() else {
        return Err(Stop::Fault(TapeErrorKind::Unsupported, bytes.len()));
    };
    let (some, rest) = choice_at(bytes)?;
    if !some {
        out.push_str("none")?;
        return Ok(rest);
    }
    out.push_str("some(")?;
    let rest = write_value::<V>(alloc, expected, rest, out)?;
    out.push_str(")")?;
    Ok(rest)
}

/// So a result: `ok` or `err`, and the payload.
#[cycle(write)]
fn write_result<'a, V: WasmValue>(
    alloc: Global,
    ty: &V::Type,
    bytes: &'a [u8],
    out: &mut String,
) -> Result<&'a [u8], Stop>
    requires { kind_of (V.Type.tree ty.now) ≡ WasmTypeKind.Result }
    ensures { IsWritten V.is_full (V.Type.tree ty.now) bytes.now (string_bytes out.old) (string_bytes out.new) result }
{
    let Some((ok, err)) = ty.result_types() else {
        return Err(Stop::Fault(TapeErrorKind::Unsupported, bytes.len()));
    };
    let (is_err, rest) = choice_at(bytes)?;
    if is_err {
        out.push_str("err")?;
        return write_payload::<V>(alloc, err, rest, out);
    }
    out.push_str("ok")?;
    write_payload::<V>(alloc, ok, rest, out)
}

/// So flags: their names in braces.
fn write_flags<'a, V: WasmValue>(
    alloc: Global,
    ty: &V::Type,
    bytes: &'a [u8],
    out: &mut String,
) -> Result<&'a [u8], Stop>
    requires { kind_of (V.Type.tree ty.now) ≡ WasmTypeKind.Flags }
    ensures { IsWritten V.is_full (V.Type.tree ty.now) bytes.now (string_bytes out.old) (string_bytes out.new) result }
{
    let names = ty.flags_names(alloc)?;
    let (count, rest) = u64_at(bytes)?;
    let (picked, rest) = read_names(alloc, &names, count, rest)?;
    put_in_braces(out, &picked)?;
    Ok(rest)
}

/// So a map: its entries in braces, merged.
#[cycle(write)]
fn write_map<'a, V: WasmValue>(
    alloc: Global,
    ty: &V::Type,
    bytes: &'a [u8],
    out: &mut String,
) -> Result<&'a [u8], Stop>
    requires { kind_of (V.Type.tree ty.now) ≡ WasmTypeKind.Map }
    ensures { IsWritten V.is_full (V.Type.tree ty.now) bytes.now (string_bytes out.old) (string_bytes out.new) result }
{
    let Some((key, val)) = ty.map_key_value_types() else {
        return Err(Stop::Fault(TapeErrorKind::Unsupported, bytes.len()));
    };
    let (count, rest) = u64_at(bytes)?;
    let (entries, rest) = entry_texts::<V>(alloc, key, val, count, rest)?;
    let merged = merge_map_entries(alloc, entries)?;
    let mut texts = Vec::new(alloc);
    for entry in &merged {
        texts.push(entry.1.as_str())?;
    }
    put_in_braces(out, &texts)?;
    Ok(rest)
}

/// Of so many entries the text of the key, and that of the whole entry.
#[cycle(write)]
fn entry_texts<'a, V: WasmValue>(
    alloc: Global,
    key_ty: &V::Type,
    val_ty: &V::Type,
    count: u64,
    bytes: &'a [u8],
) -> Result<(Vec<(String, (), String)>, &'a [u8]), Stop>
    ensures { EntriesAreWritten V.is_full (V.Type.tree key_ty.now) (V.Type.tree val_ty.now) count bytes.now result }
{
    let mut entries = Vec::new(alloc);
    let mut rest = bytes;
    for _ in 0..count {
        let mut key = String::new(alloc);
        let behind_key = write_value::<V>(alloc, key_ty, rest, &mut key)?;
        let mut entry = key.clone()?;
        entry.push_str(": ")?;
        let behind_val = write_value::<V>(alloc, val_ty, behind_key, &mut entry)?;
        entries.push((key, (), entry))?;
        rest = behind_val;
    }
    Ok((entries, rest))
}

/// The texts with commas between, in braces.
fn put_in_braces(out: &mut String, parts: &[&str]) -> Result<(), AllocError>
    ensures { OnOk result (string_bytes out.new ≡ string_bytes out.old ++ in_braces (joined (texts parts.now))) }
{
    out.push_str("{")?;
    let mut later = false;
    for part in parts {
        put_either(out, later, ", ", "")?;
        later = true;
        out.push_str(*part)?;
    }
    out.push_str("}")
}

/// The name of a case, after a `%` where it is a keyword.
fn put_case(out: &mut String, name: &str) -> Result<(), AllocError>
    ensures { OnOk result (string_bytes out.new ≡ string_bytes out.old ++ case_label name.now) }
{
    match Keyword::decode(name) {
        Some(_) => {
            out.push_str("%")?;
            out.push_str(name)
        }
        None => out.push_str(name),
    }
}

/// One of two texts.
#[inline(always)]
fn put_either(out: &mut String, first: bool, a: &str, b: &str) -> Result<(), AllocError>
    ensures { OnOk result (string_bytes out.new ≡ string_bytes out.old ++ (if first then a.now else b.now)) }
{
    if first {
        out.push_str(a)
    } else {
        out.push_str(b)
    }
}
