//! Tapes as values.
ghost use Rattle.std.specs.Prelude.{◌≡◌, ◌+◌, ◌≤◌, ◌<◌, drop, length, slice_get, Some, None, IfErr, IfNone, IfOk, IfSome, MatchResult};
ghost use Rattle.wave_wasm.specs.HasType.{HasType};
ghost use Rattle.wave_wasm.specs.Types.{HasDistinctNames, kind_of};
ghost use Rattle.wave_wasm.specs.Values.{Value};
ghost use Rattle.wave_wasm.specs.Borrowed.{denoted, denoted_all, denoted_fields, texts};
ghost use Rattle.wave_tape.specs.Tape.{tape};
ghost use Rattle.wave_tape.specs.Reading.{names_behind, tape_at};
ghost use Rattle.wave_tape.specs.Names.{HasTextNames};
ghost use Rattle.wave_tape.specs.Decoding.{IsFirstFault, IsLacking};
ghost use Rattle.wave_tape.specs.Private.Kinds.{IsNoText, IsNotUnsigned};
ghost use Rattle.wave_tape.specs.Private.Readers.{AreNamesRead, AreRead, AreReadEach, EntriesAreRead, FieldsAreRead, IsBuilt, IsLeafRead, IsPayloadRead, IsRead, IsRefusal, IsTapeRead};

use crate::bytes::{char_at, choice_at, name_at, text_at, u8_at, u16_at, u32_at, u64_at, zero_at};
use crate::error::{Stop, TapeError, TapeErrorKind};
use std::alloc::Global;
use wave_wasm::wasm::{WasmType, WasmTypeKind, WasmValue, WasmValueError};

/// The value at the type of which all of these bytes are the tape, as docs/FORMATS.md lays it out.
///
/// Where the names of the type are distinct, the value is of the type and the bytes are its tape; and an
/// error other than `OutOfMemory` and `Value` says that they are the tape of no value of the type: it is
/// the first fault from the left, and its place how many bytes stand before it. `Value` says that a
/// constructor refused a value; where constructors fail for memory alone, as those of `wave_value` do, it
/// never comes.
///
/// Parts are kept as they are read, so a count asks for no memory that the bytes don't cover.
pub fn decode<V: WasmValue>(alloc: Global, ty: &V::Type, bytes: &[u8]) -> Result<V, TapeError>
    ensures built { IfOk result (λ v. HasDistinctNames (V.Type.tree ty.now)
        → HasType (V.Type.tree ty.now) (V.tree v) × V.is_of v (V.Type.tree ty.now) × (bytes.now ≡ tape (V.tree v))) }
    ensures only { (v : Value) → HasDistinctNames (V.Type.tree ty.now) → HasTextNames (V.Type.tree ty.now) → HasType (V.Type.tree ty.now) v → bytes.now ≡ tape v
        → MatchResult result (λ w. V.tree w ≡ v) (λ e. IsLacking (V.is_full (V.Type.tree ty.now)) e) }
    ensures fault { IfErr result (λ e. HasDistinctNames (V.Type.tree ty.now) → HasTextNames (V.Type.tree ty.now) → IsFirstFault (V.is_full (V.Type.tree ty.now)) e bytes.now (tape_at (V.Type.tree ty.now) bytes.now)) }
    ensures place { IfErr result (λ e. e.place ≤ length bytes.now) }
{
    match read_tape(alloc, ty, bytes) {
        Ok(val) => Ok(val),
        Err(stop) => Err(TapeError::new(stop, bytes.len())),
    }
}

/// The value of which all of these bytes are the tape.
fn read_tape<V: WasmValue>(alloc: Global, ty: &V::Type, bytes: &[u8]) -> Result<V, Stop>
    ensures { IsTapeRead V.tree V.is_of V.is_full (V.Type.tree ty.now) bytes.now result }
{
    let (version, rest) = u8_at(bytes)?;
    if version != 1 {
        return Err(Stop::Fault(TapeErrorKind::Version, bytes.len()));
    }
    let (val, behind) = read_value(alloc, ty, rest)?;
    if !behind.is_empty() {
        return Err(Stop::Fault(TapeErrorKind::Trailing, behind.len()));
    }
    Ok(val)
}

/// A value at the type, and the bytes behind it.
#[cycle(read)]
fn read_value<'a, V: WasmValue>(
    alloc: Global,
    ty: &V::Type,
    bytes: &'a [u8],
) -> Result<(V, &'a [u8]), Stop>
    ensures { IsRead V.tree V.is_of V.is_full (V.Type.tree ty.now) bytes.now result }
{
    let kind = ty.kind();
    match kind {
        WasmTypeKind::List => read_list(alloc, ty, bytes),
        WasmTypeKind::FixedLengthList => read_fixed(alloc, ty, bytes),
        WasmTypeKind::Tuple => read_tuple(alloc, ty, bytes),
        WasmTypeKind::Record => read_record(alloc, ty, bytes),
        WasmTypeKind::Variant => read_variant(alloc, ty, bytes),
        WasmTypeKind::Enum => read_enum(alloc, ty, bytes),
        WasmTypeKind::Option => read_option(alloc, ty, bytes),
        WasmTypeKind::Result => read_result(alloc, ty, bytes),
        WasmTypeKind::Flags => read_flags(alloc, ty, bytes),
        WasmTypeKind::Map => read_map(alloc, ty, bytes),
        WasmTypeKind::F32 | WasmTypeKind::F64 | WasmTypeKind::Unsupported => {
            Err(Stop::Fault(TapeErrorKind::Unsupported, bytes.len()))
        }
        WasmTypeKind::Bool
        | WasmTypeKind::S8
        | WasmTypeKind::S16
        | WasmTypeKind::S32
        | WasmTypeKind::S64
        | WasmTypeKind::U8
        | WasmTypeKind::U16
        | WasmTypeKind::U32
        | WasmTypeKind::U64
        | WasmTypeKind::Char
        | WasmTypeKind::String => read_leaf(alloc, kind, bytes),
    }
}

/// A value of one token, of a type of this kind.
fn read_leaf<V: WasmValue>(
    alloc: Global,
    kind: WasmTypeKind,
    bytes: &[u8],
) -> Result<(V, &[u8]), Stop>
    ensures { IsLeafRead V.tree V.is_of V.is_full kind bytes.now result }
{
    match kind {
        WasmTypeKind::Bool => {
            let (val, rest) = choice_at(bytes)?;
            built(V::make_bool(alloc, val), rest)
        }
        WasmTypeKind::Char => {
            let (val, rest) = char_at(bytes)?;
            built(V::make_char(alloc, val), rest)
        }
        WasmTypeKind::String => {
            let (val, rest) = text_at(bytes)?;
            built(V::make_string(alloc, val), rest)
        }
        _ => read_unsigned(alloc, kind, bytes),
    }
}

/// A whole number, of a type of this kind.
fn read_unsigned<V: WasmValue>(
    alloc: Global,
    kind: WasmTypeKind,
    bytes: &[u8],
) -> Result<(V, &[u8]), Stop>
    requires { IsNoText kind }
    ensures { IsLeafRead V.tree V.is_of V.is_full kind bytes.now result }
{
    match kind {
        WasmTypeKind::U8 => {
            let (val, rest) = u8_at(bytes)?;
            built(V::make_u8(alloc, val), rest)
        }
        WasmTypeKind::U16 => {
            let (val, rest) = u16_at(bytes)?;
            built(V::make_u16(alloc, val), rest)
        }
        WasmTypeKind::U32 => {
            let (val, rest) = u32_at(bytes)?;
            built(V::make_u32(alloc, val), rest)
        }
        WasmTypeKind::U64 => {
            let (val, rest) = u64_at(bytes)?;
            built(V::make_u64(alloc, val), rest)
        }
        _ => read_signed(alloc, kind, bytes),
    }
}

/// A signed whole number, of a type of this kind.
fn read_signed<V: WasmValue>(
    alloc: Global,
    kind: WasmTypeKind,
    bytes: &[u8],
) -> Result<(V, &[u8]), Stop>
    requires text { IsNoText kind }
    requires unsigned { IsNotUnsigned kind }
    ensures { IsLeafRead V.tree V.is_of V.is_full kind bytes.now result }
{
    match kind {
        WasmTypeKind::S8 => {
            let (val, rest) = u8_at(bytes)?;
            built(V::make_s8(alloc, val.cast_signed()), rest)
        }
        WasmTypeKind::S16 => {
            let (val, rest) = u16_at(bytes)?;
            built(V::make_s16(alloc, val.cast_signed()), rest)
        }
        WasmTypeKind::S32 => {
            let (val, rest) = u32_at(bytes)?;
            built(V::make_s32(alloc, val.cast_signed()), rest)
        }
        WasmTypeKind::S64 => {
            let (val, rest) = u64_at(bytes)?;
            built(V::make_s64(alloc, val.cast_signed()), rest)
        }
        _ => Err(Stop::Fault(TapeErrorKind::Unsupported, bytes.len())),
    }
}

/// A list: the count of its items, and these.
#[cycle(read)]
fn read_list<'a, V: WasmValue>(
    alloc: Global,
    ty: &V::Type,
    bytes: &'a [u8],
) -> Result<(V, &'a [u8]), Stop>
    requires { kind_of (V.Type.tree ty.now) ≡ WasmTypeKind.List }
    ensures { IsRead V.tree V.is_of V.is_full (V.Type.tree ty.now) bytes.now result }
{
    let Some(element) = ty.list_element_type() else {
        return Err(Stop::Fault(TapeErrorKind::Unsupported, bytes.len()));
    };
    let (count, rest) = u64_at(bytes)?;
    let (mut vals, rest) = read_items(alloc, element, count, rest)?;
    built(V::make_list_unchecked(alloc, ty, &mut vals), rest)
}

/// A list of a fixed length: its items; 0 where there are none.
#[cycle(read)]
fn read_fixed<'a, V: WasmValue>(
    alloc: Global,
    ty: &V::Type,
    bytes: &'a [u8],
) -> Result<(V, &'a [u8]), Stop>
    requires { kind_of (V.Type.tree ty.now) ≡ WasmTypeKind.FixedLengthList }
    ensures { IsRead V.tree V.is_of V.is_full (V.Type.tree ty.now) bytes.now result }
{
    let Some(element) = ty.list_element_type() else {
        return Err(Stop::Fault(TapeErrorKind::Unsupported, bytes.len()));
    };
    let Some(length) = ty.list_length() else {
        return Err(Stop::Fault(TapeErrorKind::Unsupported, bytes.len()));
    };
    if length == 0 {
        let rest = zero_at(bytes)?;
        return built(V::make_list(alloc, ty, Vec::new(alloc)), rest);
    }
    let (mut vals, rest) = read_items(alloc, element, u64::from(length), bytes)?;
    built(V::make_list_unchecked(alloc, ty, &mut vals), rest)
}

/// This many values at the type. There is room for no more than were read, and each takes a byte.
#[cycle(read)]
fn read_items<'a, V: WasmValue>(
    alloc: Global,
    ty: &V::Type,
    count: u64,
    bytes: &'a [u8],
) -> Result<(Vec<V>, &'a [u8]), Stop>
    ensures { AreRead V.tree V.is_of V.is_full (V.Type.tree ty.now) count bytes.now result }
{
    let mut vals = Vec::new(alloc);
    let mut rest = bytes;
    for _ in 0..count {
        let (val, behind) = read_value(alloc, ty, rest)?;
        vals.push(val)?;
        rest = behind;
    }
    Ok((vals, rest))
}

/// A tuple: its items; 0 where there are none.
#[cycle(read)]
fn read_tuple<'a, V: WasmValue>(
    alloc: Global,
    ty: &V::Type,
    bytes: &'a [u8],
) -> Result<(V, &'a [u8]), Stop>
    requires { kind_of (V.Type.tree ty.now) ≡ WasmTypeKind.Tuple }
    ensures { IsRead V.tree V.is_of V.is_full (V.Type.tree ty.now) bytes.now result }
{
    let types = ty.tuple_element_types(alloc)?;
    if types.is_empty() {
        let rest = zero_at(bytes)?;
        return built(V::make_tuple(alloc, ty, Vec::new(alloc)), rest);
    }
    let (mut vals, rest) = read_each(alloc, &types, bytes)?;
    built(V::make_tuple_unchecked(alloc, ty, &mut vals), rest)
}

/// A value at each type.
#[cycle(read)]
fn read_each<'a, V: WasmValue>(
    alloc: Global,
    types: &[&V::Type],
    bytes: &'a [u8],
) -> Result<(Vec<V>, &'a [u8]), Stop>
    ensures { AreReadEach V.tree V.is_of V.is_full (denoted_all V.Type.tree types.now) bytes.now result }
{
    let mut vals = Vec::new(alloc);
    let mut rest = bytes;
    for ty in types {
        let (val, behind) = read_value(alloc, *ty, rest)?;
        vals.push(val)?;
        rest = behind;
    }
    Ok((vals, rest))
}

/// A record: the values of its fields; 0 where there are none.
#[cycle(read)]
fn read_record<'a, V: WasmValue>(
    alloc: Global,
    ty: &V::Type,
    bytes: &'a [u8],
) -> Result<(V, &'a [u8]), Stop>
    requires { kind_of (V.Type.tree ty.now) ≡ WasmTypeKind.Record }
    ensures { IsRead V.tree V.is_of V.is_full (V.Type.tree ty.now) bytes.now result }
{
    let fields = ty.record_fields(alloc)?;
    if fields.is_empty() {
        let rest = zero_at(bytes)?;
        return built(V::make_record(alloc, ty, Vec::new(alloc)), rest);
    }
    let (mut vals, rest) = read_fields(alloc, &fields, bytes)?;
    built(V::make_record_unchecked(alloc, ty, &mut vals), rest)
}

/// A value of each field, under its name.
#[cycle(read)]
fn read_fields<'a, 'name, V: WasmValue>(
    alloc: Global,
    fields: &[(&'name str, &V::Type)],
    bytes: &'a [u8],
) -> Result<(Vec<(&'name str, V)>, &'a [u8]), Stop>
    ensures { FieldsAreRead V.tree V.is_of V.is_full (denoted_fields V.Type.tree fields.now) bytes.now result }
{
    let mut vals = Vec::new(alloc);
    let mut rest = bytes;
    for field in fields {
        let (name, ty) = *field;
        let (val, behind) = read_value(alloc, ty, rest)?;
        vals.push((name, val))?;
        rest = behind;
    }
    Ok((vals, rest))
}

/// A variant: the name of its case, and the payload where there is one.
#[cycle(read)]
fn read_variant<'a, V: WasmValue>(
    alloc: Global,
    ty: &V::Type,
    bytes: &'a [u8],
) -> Result<(V, &'a [u8]), Stop>
    requires { kind_of (V.Type.tree ty.now) ≡ WasmTypeKind.Variant }
    ensures { IsRead V.tree V.is_of V.is_full (V.Type.tree ty.now) bytes.now result }
{
    let (name, rest) = name_at(bytes)?;
    let Ok(name) = str::from_utf8(name) else {
        return Err(Stop::Fault(TapeErrorKind::Name, bytes.len()));
    };
    let Some((_, expected)) = ty.variant_case(alloc, name)? else {
        return Err(Stop::Fault(TapeErrorKind::Name, bytes.len()));
    };
    let (mut payload, rest) = read_payload(alloc, expected, rest)?;
    built(
        V::make_variant_unchecked(alloc, ty, name, &mut payload),
        rest,
    )
}

/// A payload, where it has a type.
#[cycle(read)]
fn read_payload<'a, V: WasmValue>(
    alloc: Global,
    expected: Option<&V::Type>,
    bytes: &'a [u8],
) -> Result<(Option<V>, &'a [u8]), Stop>
    ensures { IsPayloadRead V.tree V.is_of V.is_full (denoted V.Type.tree expected.entry) bytes.now result }
{
    match expected {
        Some(ty) => {
            let (val, rest) = read_value(alloc, ty, bytes)?;
            Ok((Some(val), rest))
        }
        None => Ok((None, bytes)),
    }
}

/// An enum: the name of its case.
fn read_enum<'a, V: WasmValue>(
    alloc: Global,
    ty: &V::Type,
    bytes: &'a [u8],
) -> Result<(V, &'a [u8]), Stop>
    requires { kind_of (V.Type.tree ty.now) ≡ WasmTypeKind.Enum }
    ensures { IsRead V.tree V.is_of V.is_full (V.Type.tree ty.now) bytes.now result }
{
    let (name, rest) = name_at(bytes)?;
    let Ok(name) = str::from_utf8(name) else {
        return Err(Stop::Fault(TapeErrorKind::Name, bytes.len()));
    };
    if !ty.has_enum_case(alloc, name)? {
        return Err(Stop::Fault(TapeErrorKind::Name, bytes.len()));
    }
    built(V::make_enum(alloc, ty, name), rest)
}

/// An option: 0 for none, or 1 and the payload.
#[cycle(read)]
fn read_option<'a, V: WasmValue>(
    alloc: Global,
    ty: &V::Type,
    bytes: &'a [u8],
) -> Result<(V, &'a [u8]), Stop>
    requires { kind_of (V.Type.tree ty.now) ≡ WasmTypeKind.Option }
    ensures { IsRead V.tree V.is_of V.is_full (V.Type.tree ty.now) bytes.now result }
{
    let Some(expected) = ty.option_some_type() else {
        return Err(Stop::Fault(TapeErrorKind::Unsupported, bytes.len()));
    };
    let (some, rest) = choice_at(bytes)?;
    if !some {
        return built(V::make_option(alloc, ty, None), rest);
    }
    let (val, rest) = read_value(alloc, expected, rest)?;
    let mut payload = Some(val);
    built(V::make_option_unchecked(alloc, ty, &mut payload), rest)
}

/// A result: 0 for `ok`, 1 for `err`, and the payload where there is one.
#[cycle(read)]
fn read_result<'a, V: WasmValue>(
    alloc: Global,
    ty: &V::Type,
    bytes: &'a [u8],
) -> Result<(V, &'a [u8]), Stop>
    requires { kind_of (V.Type.tree ty.now) ≡ WasmTypeKind.Result }
    ensures { IsRead V.tree V.is_of V.is_full (V.Type.tree ty.now) bytes.now result }
{
    let Some((ok, err)) = ty.result_types() else {
        return Err(Stop::Fault(TapeErrorKind::Unsupported, bytes.len()));
    };
    let (is_err, rest) = choice_at(bytes)?;
    if is_err {
        let (payload, rest) = read_payload(alloc, err, rest)?;
        let mut val = Err(payload);
        return built(V::make_result_unchecked(alloc, ty, &mut val), rest);
    }
    let (payload, rest) = read_payload(alloc, ok, rest)?;
    let mut val = Ok(payload);
    built(V::make_result_unchecked(alloc, ty, &mut val), rest)
}

/// Flags: the count of their names, and these.
fn read_flags<'a, V: WasmValue>(
    alloc: Global,
    ty: &V::Type,
    bytes: &'a [u8],
) -> Result<(V, &'a [u8]), Stop>
    requires { kind_of (V.Type.tree ty.now) ≡ WasmTypeKind.Flags }
    ensures { IsRead V.tree V.is_of V.is_full (V.Type.tree ty.now) bytes.now result }
{
    let names = ty.flags_names(alloc)?;
    let (count, rest) = u64_at(bytes)?;
    let (picked, rest) = read_names(alloc, &names, count, rest)?;
    built(V::make_flags(alloc, ty, &picked), rest)
}

/// This many of the names, in their order.
pub(crate) fn read_names<'a, 'name>(
    alloc: Global,
    names: &[&'name str],
    count: u64,
    bytes: &'a [u8],
) -> Result<(Vec<&'name str>, &'a [u8]), Stop>
    ensures { AreNamesRead (texts names.now) count bytes.now result }
{
    let mut picked = Vec::new(alloc);
    let mut next = 0;
    let mut rest = bytes;
    for _ in 0..count {
        let (name, behind) = name_at(rest)?;
        let Some(place) = place_of(names, next, name) else {
            return Err(Stop::Fault(TapeErrorKind::Name, rest.len()));
        };
        picked.push(names[place])?;
        next = place + 1;
        rest = behind;
    }
    Ok((picked, rest))
}

/// Where the first of the names, from a place on, stands that is this one.
fn place_of(names: &[&str], from: usize, name: &[u8]) -> Option<usize>
    ensures found { IfSome result (λ place. place < length names.now × (slice_get (texts names.now) place ≡ Some name.now)
        × (names_behind (drop from (texts names.now)) name.now ≡ Some (drop (place + 1) (texts names.now)))) }
    ensures none { IfNone result (names_behind (drop from (texts names.now)) name.now ≡ None) }
{
    for i in from..names.len() {
        if name == names[i].as_bytes() {
            return Some(i);
        }
    }
    None
}

/// A map: the count of its entries, and these.
#[cycle(read)]
fn read_map<'a, V: WasmValue>(
    alloc: Global,
    ty: &V::Type,
    bytes: &'a [u8],
) -> Result<(V, &'a [u8]), Stop>
    requires { kind_of (V.Type.tree ty.now) ≡ WasmTypeKind.Map }
    ensures { IsRead V.tree V.is_of V.is_full (V.Type.tree ty.now) bytes.now result }
{
    let Some((key, val)) = ty.map_key_value_types() else {
        return Err(Stop::Fault(TapeErrorKind::Unsupported, bytes.len()));
    };
    let (count, rest) = u64_at(bytes)?;
    let (mut entries, rest) = read_entries(alloc, key, val, count, rest)?;
    built(V::make_map_unchecked(alloc, ty, &mut entries), rest)
}

/// This many entries, each a key and its value. There is room for no more than were read.
#[cycle(read)]
fn read_entries<'a, V: WasmValue>(
    alloc: Global,
    key_ty: &V::Type,
    val_ty: &V::Type,
    count: u64,
    bytes: &'a [u8],
) -> Result<(Vec<(V, V)>, &'a [u8]), Stop>
    ensures { EntriesAreRead V.tree V.is_of V.is_full (V.Type.tree key_ty.now) (V.Type.tree val_ty.now) count bytes.now result }
{
    let mut entries = Vec::new(alloc);
    let mut rest = bytes;
    for _ in 0..count {
        let (key, behind) = read_value(alloc, key_ty, rest)?;
        let (val, behind) = read_value(alloc, val_ty, behind)?;
        entries.push((key, val))?;
        rest = behind;
    }
    Ok((entries, rest))
}

/// What a constructor answered, with the bytes behind the value.
fn built<'a, V>(made: Result<V, WasmValueError>, rest: &'a [u8]) -> Result<(V, &'a [u8]), Stop>
    ensures { IsBuilt made rest.now result }
{
    match made {
        Ok(val) => Ok((val, rest)),
        Err(cause) => Err(refusal(cause, rest.len())),
    }
}

/// Why a value behind which this many bytes are left is refused.
pub(crate) fn refusal(cause: WasmValueError, left: usize) -> Stop
    ensures { IsRefusal cause result }
{
    match cause {
        WasmValueError::Memory(_) => Stop::Memory,
        _ => Stop::Refused(left),
    }
}
