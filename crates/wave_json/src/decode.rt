//! JSON as values.
ghost use Rattle.std.specs.Prelude.{◌≡◌, length, map, Ok, IfErr, IfOk, option_map};
ghost use Rattle.std.specs.Str.{chars};
ghost use Rattle.json.specs.Value.{value_view, items_view, members_view};
ghost use Rattle.wave_wasm.specs.Borrowed.{denoted, denoted_all, denoted_fields};
ghost use Rattle.wave_wasm.specs.ConstructorContracts.{IsOfListKind};
ghost use Rattle.wave_wasm.specs.HasType.{HasType};
ghost use Rattle.wave_wasm.specs.Types.{HasDistinctNames, kind_of};
ghost use Rattle.wave_json.specs.Decoding.{IsFirstFault};
ghost use Rattle.wave_json.specs.Reading.{field_at, json_at, left_out, member_of, only_scalar, some_at, is_option_type, under, value_at};
ghost use Rattle.wave_json.specs.Private.Readers.{AreEntriesRead, AreMembersRead, ArePairsRead, AreRead, AreReadEach, FieldsAreRead, IsLeafRead, IsNoText, IsPairRead, IsPayloadRead, IsRead, IsReadAs, Tells};
ghost use Rattle.wave_json.specs.Private.Stops.{step_text};

use crate::error::{JsonError, JsonErrorKind, Stop};
use crate::parts::{
    built, case_of, check_distinct, check_keys, check_known, first_repeat, has_length,
    is_empty_object, items_of, member_place, members_of, picked, read_names, some_of, text_of,
    whole,
};
use crate::place::place_of;
use json::{Error, Scratch, Value};
use std::alloc::Global;
use wave_wasm::wasm::{WasmType, WasmTypeKind, WasmValue};

/// The value at the type that the text is, as docs/FORMATS.md lays it out.
///
/// Where the names of the type are distinct, the value is what `json_at` gives, and an error other than
/// `OutOfMemory` and `Value` is the fault that it gives, with its path. `Value` says that a constructor
/// refused a value; where constructors fail for memory alone, as those of `wave_value` do, it never comes.
pub fn from_json<V: WasmValue>(alloc: Global, ty: &V::Type, text: &str) -> Result<V, JsonError>
    ensures read { IfOk result (λ v. HasDistinctNames (V.Type.tree ty.now)
        → HasType (V.Type.tree ty.now) (V.tree v) × V.is_of v (V.Type.tree ty.now) × (json_at (V.Type.tree ty.now) text.now ≡ Ok (V.tree v))) }
    ensures fault { IfErr result (λ e. HasDistinctNames (V.Type.tree ty.now)
        → IsFirstFault (V.is_full (V.Type.tree ty.now)) e (json_at (V.Type.tree ty.now) text.now)) }
{
    match read_text(alloc, ty, text) {
        Ok(val) => Ok(val),
        Err(stop) => Err(refusal(alloc, stop, text)),
    }
}

/// The value that the text is.
fn read_text<V: WasmValue>(alloc: Global, ty: &V::Type, text: &str) -> Result<V, Stop>
    ensures { IsReadAs V.tree V.is_of V.is_full (V.Type.tree ty.now) (json_at (V.Type.tree ty.now) text.now) result }
{
    let mut scratch = Scratch::new(alloc);
    match Value::parse(alloc, text, &mut scratch) {
        Ok(json) => read_value(alloc, ty, &json),
        Err(Error::Invalid) => Err(Stop::here(alloc, JsonErrorKind::Syntax)),
        Err(_) => Err(Stop::Memory),
    }
}

/// The error that says why reading the text stopped.
fn refusal(alloc: Global, stop: Stop, text: &str) -> JsonError
    ensures { Tells stop result }
{
    match stop {
        Stop::Memory => JsonError::new(JsonErrorKind::OutOfMemory, String::new(alloc), 0),
        Stop::Refused(trail) => {
            let place = place_of(alloc, text, &trail.places, JsonErrorKind::Value);
            JsonError::new(JsonErrorKind::Value, trail.path, place)
        }
        Stop::Fault(kind, trail) => {
            let place = place_of(alloc, text, &trail.places, kind);
            JsonError::new(kind, trail.path, place)
        }
    }
}

/// A value at the type.
#[cycle(read)]
fn read_value<V: WasmValue>(alloc: Global, ty: &V::Type, json: &Value<'_>) -> Result<V, Stop>
    ensures { IsRead V.tree V.is_of V.is_full (V.Type.tree ty.now) (value_view json.now) result }
{
    let kind = ty.kind();
    match kind {
        WasmTypeKind::List | WasmTypeKind::FixedLengthList => read_list(alloc, ty, json),
        WasmTypeKind::Tuple => read_tuple(alloc, ty, json),
        WasmTypeKind::Record => read_record(alloc, ty, json),
        WasmTypeKind::Variant => read_variant(alloc, ty, json),
        WasmTypeKind::Enum => read_enum(alloc, ty, json),
        WasmTypeKind::Option => read_option(alloc, ty, json),
        WasmTypeKind::Result => read_result(alloc, ty, json),
        WasmTypeKind::Flags => read_flags(alloc, ty, json),
        WasmTypeKind::Map => read_map(alloc, ty, json),
        WasmTypeKind::F32 | WasmTypeKind::F64 | WasmTypeKind::Unsupported => {
            Err(Stop::here(alloc, JsonErrorKind::Unsupported))
        }
        _ => read_leaf(alloc, kind, json),
    }
}

/// A value at the type, of the part to which the step leads.
#[cycle(read)]
fn read_part<V: WasmValue>(
    alloc: Global,
    ty: &V::Type,
    json: &Value<'_>,
    place: usize,
    name: Option<&str>,
) -> Result<V, Stop>
    ensures { IsReadAs V.tree V.is_of V.is_full (V.Type.tree ty.now) (under (step_text place name.entry) (value_at (V.Type.tree ty.now) (value_view json.now))) result }
{
    match read_value(alloc, ty, json) {
        Ok(val) => Ok(val),
        Err(stop) => Err(stop.under(alloc, place, name)),
    }
}

/// A value of one token, of a type of this kind.
fn read_leaf<V: WasmValue>(alloc: Global, kind: WasmTypeKind, json: &Value<'_>) -> Result<V, Stop>
    ensures { IsLeafRead V.tree V.is_of V.is_full kind (value_view json.now) result }
{
    match kind {
        WasmTypeKind::Bool => match json.as_bool() {
            Some(val) => built(alloc, V::make_bool(alloc, val)),
            None => Err(Stop::here(alloc, JsonErrorKind::Mismatch)),
        },
        WasmTypeKind::Char => match only_char(text_of(alloc, json)?) {
            Some(val) => built(alloc, V::make_char(alloc, val)),
            None => Err(Stop::here(alloc, JsonErrorKind::Char)),
        },
        WasmTypeKind::String => {
            let text = text_of(alloc, json)?;
            built(alloc, V::make_string(alloc, text))
        }
        _ => read_whole(alloc, kind, json),
    }
}

/// The scalar that the text is.
fn only_char(text: &str) -> Option<char>
    ensures { result ≡ only_scalar (chars text.now) }
{
    let mut scalars = text.chars();
    let first = scalars.next()?;
    match scalars.next() {
        Some(_) => None,
        None => Some(first),
    }
}

/// A whole number, of a type of this kind.
fn read_whole<V: WasmValue>(alloc: Global, kind: WasmTypeKind, json: &Value<'_>) -> Result<V, Stop>
    requires { IsNoText kind }
    ensures { IsLeafRead V.tree V.is_of V.is_full kind (value_view json.now) result }
{
    match kind {
        WasmTypeKind::S8 => built(alloc, V::make_s8(alloc, whole(alloc, json)?)),
        WasmTypeKind::S16 => built(alloc, V::make_s16(alloc, whole(alloc, json)?)),
        WasmTypeKind::S32 => built(alloc, V::make_s32(alloc, whole(alloc, json)?)),
        WasmTypeKind::S64 => built(alloc, V::make_s64(alloc, whole(alloc, json)?)),
        WasmTypeKind::U8 => built(alloc, V::make_u8(alloc, whole(alloc, json)?)),
        WasmTypeKind::U16 => built(alloc, V::make_u16(alloc, whole(alloc, json)?)),
        WasmTypeKind::U32 => built(alloc, V::make_u32(alloc, whole(alloc, json)?)),
        WasmTypeKind::U64 => built(alloc, V::make_u64(alloc, whole(alloc, json)?)),
        _ => Err(Stop::here(alloc, JsonErrorKind::Unsupported)),
    }
}

/// A list, which may be of a fixed length.
#[cycle(read)]
fn read_list<V: WasmValue>(alloc: Global, ty: &V::Type, json: &Value<'_>) -> Result<V, Stop>
    requires { IsOfListKind (kind_of (V.Type.tree ty.now)) }
    ensures { IsRead V.tree V.is_of V.is_full (V.Type.tree ty.now) (value_view json.now) result }
{
    let Some(element) = ty.list_element_type() else {
        return Err(Stop::here(alloc, JsonErrorKind::Unsupported));
    };
    let Some(items) = items_of(json) else {
        return Err(Stop::here(alloc, JsonErrorKind::Mismatch));
    };
    if !has_length(ty.list_length(), items.len()) {
        return Err(Stop::here(alloc, JsonErrorKind::Length));
    }
    let mut vals = read_items(alloc, element, items)?;
    built(alloc, V::make_list_unchecked(alloc, ty, &mut vals))
}

/// The items of an array, each at the type.
#[cycle(read)]
fn read_items<V: WasmValue>(
    alloc: Global,
    ty: &V::Type,
    items: &[Value<'_>],
) -> Result<Vec<V>, Stop>
    ensures { AreRead V.tree V.is_of V.is_full (V.Type.tree ty.now) (items_view items.now) result }
{
    let mut vals = Vec::new(alloc);
    for i in 0..items.len() {
        vals.push(read_part(alloc, ty, &items[i], i, None)?)?;
    }
    Ok(vals)
}

/// A tuple.
#[cycle(read)]
fn read_tuple<V: WasmValue>(alloc: Global, ty: &V::Type, json: &Value<'_>) -> Result<V, Stop>
    requires { kind_of (V.Type.tree ty.now) ≡ WasmTypeKind.Tuple }
    ensures { IsRead V.tree V.is_of V.is_full (V.Type.tree ty.now) (value_view json.now) result }
{
    let types = ty.tuple_element_types(alloc)?;
    let Some(items) = items_of(json) else {
        return Err(Stop::here(alloc, JsonErrorKind::Mismatch));
    };
    if items.len() != types.len() {
        return Err(Stop::here(alloc, JsonErrorKind::Length));
    }
    let mut vals = read_each(alloc, &types, items)?;
    built(alloc, V::make_tuple_unchecked(alloc, ty, &mut vals))
}

/// The items of an array, each at its type.
#[cycle(read)]
fn read_each<V: WasmValue>(
    alloc: Global,
    types: &[&V::Type],
    items: &[Value<'_>],
) -> Result<Vec<V>, Stop>
    requires { length types.now ≡ length items.now }
    ensures { AreReadEach V.tree V.is_of V.is_full (denoted_all V.Type.tree types.now) (map value_view items.now) result }
{
    let mut vals = Vec::new(alloc);
    for i in 0..types.len() {
        vals.push(read_part(alloc, types[i], &items[i], i, None)?)?;
    }
    Ok(vals)
}

/// A record.
#[cycle(read)]
fn read_record<V: WasmValue>(alloc: Global, ty: &V::Type, json: &Value<'_>) -> Result<V, Stop>
    requires { kind_of (V.Type.tree ty.now) ≡ WasmTypeKind.Record }
    ensures { IsRead V.tree V.is_of V.is_full (V.Type.tree ty.now) (value_view json.now) result }
{
    let fields = ty.record_fields(alloc)?;
    let Some(members) = members_of(json) else {
        return Err(Stop::here(alloc, JsonErrorKind::Mismatch));
    };
    check_distinct(alloc, members)?;
    check_known(alloc, &fields, members)?;
    let mut vals = read_fields(alloc, &fields, members)?;
    built(alloc, V::make_record_unchecked(alloc, ty, &mut vals))
}

/// A value of each field, under its name.
#[cycle(read)]
fn read_fields<'name, V: WasmValue>(
    alloc: Global,
    fields: &[(&'name str, &V::Type)],
    members: &[(&str, Value<'_>)],
) -> Result<Vec<(&'name str, V)>, Stop>
    ensures { FieldsAreRead V.tree V.is_of V.is_full (denoted_fields V.Type.tree fields.now) (members_view members.now) result }
{
    let mut vals = Vec::new(alloc);
    for field in fields {
        let (name, ty) = *field;
        vals.push((name, read_field(alloc, ty, name, members)?))?;
    }
    Ok(vals)
}

/// The value of a field, which may be left out where it is an option.
#[cycle(read)]
fn read_field<V: WasmValue>(
    alloc: Global,
    ty: &V::Type,
    name: &str,
    members: &[(&str, Value<'_>)],
) -> Result<V, Stop>
    ensures { IsReadAs V.tree V.is_of V.is_full (V.Type.tree ty.now)
        (field_at (value_at (V.Type.tree ty.now)) (left_out (V.Type.tree ty.now) name.now) name.now (member_of name.now (members_view members.now))) result }
{
    match member_place(members, name) {
        Some(place) => read_part(alloc, ty, &members[place].1, place, Some(name)),
        None if ty.kind() == WasmTypeKind::Option => built(alloc, V::make_option(alloc, ty, None)),
        None => Err(Stop::at(alloc, JsonErrorKind::Missing, 0, Some(name))),
    }
}

/// A variant.
#[cycle(read)]
fn read_variant<V: WasmValue>(alloc: Global, ty: &V::Type, json: &Value<'_>) -> Result<V, Stop>
    requires { kind_of (V.Type.tree ty.now) ≡ WasmTypeKind.Variant }
    ensures { IsRead V.tree V.is_of V.is_full (V.Type.tree ty.now) (value_view json.now) result }
{
    let Some((name, payload)) = case_of(json) else {
        return Err(Stop::here(alloc, JsonErrorKind::Mismatch));
    };
    let Some((_, expected)) = ty.variant_case(alloc, name)? else {
        return Err(Stop::here(alloc, JsonErrorKind::Unknown));
    };
    let mut val = read_payload(alloc, expected, name, payload)?;
    built(alloc, V::make_variant_unchecked(alloc, ty, name, &mut val))
}

/// The payload of the case of this name, which is there exactly where it has a type.
#[cycle(read)]
fn read_payload<V: WasmValue>(
    alloc: Global,
    expected: Option<&V::Type>,
    name: &str,
    payload: Option<&Value<'_>>,
) -> Result<Option<V>, Stop>
    ensures { IsPayloadRead V.tree V.is_of V.is_full (denoted V.Type.tree expected.entry) name.now (option_map (λ v. value_view v.now) payload.entry) result }
{
    match (expected, payload) {
        (None, None) => Ok(None),
        (Some(ty), Some(json)) => {
            let val = read_part(alloc, ty, json, 0, Some(name))?;
            Ok(Some(val))
        }
        _ => Err(Stop::here(alloc, JsonErrorKind::Payload)),
    }
}

/// An enum.
fn read_enum<V: WasmValue>(alloc: Global, ty: &V::Type, json: &Value<'_>) -> Result<V, Stop>
    requires { kind_of (V.Type.tree ty.now) ≡ WasmTypeKind.Enum }
    ensures { IsRead V.tree V.is_of V.is_full (V.Type.tree ty.now) (value_view json.now) result }
{
    let name = text_of(alloc, json)?;
    if !ty.has_enum_case(alloc, name)? {
        return Err(Stop::here(alloc, JsonErrorKind::Unknown));
    }
    built(alloc, V::make_enum(alloc, ty, name))
}

/// An option.
#[cycle(read)]
fn read_option<V: WasmValue>(alloc: Global, ty: &V::Type, json: &Value<'_>) -> Result<V, Stop>
    requires { kind_of (V.Type.tree ty.now) ≡ WasmTypeKind.Option }
    ensures { IsRead V.tree V.is_of V.is_full (V.Type.tree ty.now) (value_view json.now) result }
{
    let Some(expected) = ty.option_some_type() else {
        return Err(Stop::here(alloc, JsonErrorKind::Unsupported));
    };
    if json.is_null() {
        return built(alloc, V::make_option(alloc, ty, None));
    }
    let mut payload = Some(read_some(alloc, expected, json)?);
    built(alloc, V::make_option_unchecked(alloc, ty, &mut payload))
}

/// The payload of `some`, which stands in an object where it is an option too.
#[cycle(read)]
fn read_some<V: WasmValue>(alloc: Global, ty: &V::Type, json: &Value<'_>) -> Result<V, Stop>
    ensures { IsReadAs V.tree V.is_of V.is_full (V.Type.tree ty.now)
        (some_at (is_option_type (V.Type.tree ty.now)) (value_at (V.Type.tree ty.now)) (value_view json.now)) result }
{
    if ty.kind() == WasmTypeKind::Option {
        let Some(payload) = some_of(json) else {
            return Err(Stop::here(alloc, JsonErrorKind::Mismatch));
        };
        return read_part(alloc, ty, payload, 0, Some("some"));
    }
    read_value(alloc, ty, json)
}

/// A result.
#[cycle(read)]
fn read_result<V: WasmValue>(alloc: Global, ty: &V::Type, json: &Value<'_>) -> Result<V, Stop>
    requires { kind_of (V.Type.tree ty.now) ≡ WasmTypeKind.Result }
    ensures { IsRead V.tree V.is_of V.is_full (V.Type.tree ty.now) (value_view json.now) result }
{
    let Some((ok, err)) = ty.result_types() else {
        return Err(Stop::here(alloc, JsonErrorKind::Unsupported));
    };
    let Some((name, payload)) = case_of(json) else {
        return Err(Stop::here(alloc, JsonErrorKind::Mismatch));
    };
    if name == "ok" {
        let mut val = Ok(read_payload(alloc, ok, "ok", payload)?);
        return built(alloc, V::make_result_unchecked(alloc, ty, &mut val));
    }
    if name == "err" {
        let mut val = Err(read_payload(alloc, err, "err", payload)?);
        return built(alloc, V::make_result_unchecked(alloc, ty, &mut val));
    }
    Err(Stop::here(alloc, JsonErrorKind::Unknown))
}

/// Flags, in whatever order.
fn read_flags<V: WasmValue>(alloc: Global, ty: &V::Type, json: &Value<'_>) -> Result<V, Stop>
    requires { kind_of (V.Type.tree ty.now) ≡ WasmTypeKind.Flags }
    ensures { IsRead V.tree V.is_of V.is_full (V.Type.tree ty.now) (value_view json.now) result }
{
    let names = ty.flags_names(alloc)?;
    let Some(items) = items_of(json) else {
        return Err(Stop::here(alloc, JsonErrorKind::Mismatch));
    };
    let given = read_names(alloc, &names, items)?;
    if let Some((place, _)) = first_repeat(alloc, &given)? {
        return Err(Stop::at(alloc, JsonErrorKind::Repeated, place, None));
    }
    let picked = picked(alloc, &names, &given)?;
    built(alloc, V::make_flags(alloc, ty, &picked))
}

/// A map: an object where its keys are strings, else an array of pairs.
#[cycle(read)]
fn read_map<V: WasmValue>(alloc: Global, ty: &V::Type, json: &Value<'_>) -> Result<V, Stop>
    requires { kind_of (V.Type.tree ty.now) ≡ WasmTypeKind.Map }
    ensures { IsRead V.tree V.is_of V.is_full (V.Type.tree ty.now) (value_view json.now) result }
{
    let Some((key, val)) = ty.map_key_value_types() else {
        return Err(Stop::here(alloc, JsonErrorKind::Unsupported));
    };
    let mut entries = read_entries(alloc, key, val, json)?;
    built(alloc, V::make_map_unchecked(alloc, ty, &mut entries))
}

/// The entries of a map: an object's members where the keys are strings, else pairs.
#[cycle(read)]
fn read_entries<V: WasmValue>(
    alloc: Global,
    key_ty: &V::Type,
    val_ty: &V::Type,
    json: &Value<'_>,
) -> Result<Vec<(V, V)>, Stop>
    ensures { AreEntriesRead V.tree V.is_of V.is_full (V.Type.tree key_ty.now) (V.Type.tree val_ty.now) (value_view json.now) result }
{
    if key_ty.kind() == WasmTypeKind::String {
        return read_members(alloc, val_ty, json);
    }
    read_pairs(alloc, key_ty, val_ty, json)
}

/// The members of an object as entries.
#[cycle(read)]
fn read_members<V: WasmValue>(
    alloc: Global,
    ty: &V::Type,
    json: &Value<'_>,
) -> Result<Vec<(V, V)>, Stop>
    ensures { AreMembersRead V.tree V.is_of V.is_full (V.Type.tree ty.now) (value_view json.now) result }
{
    let Some(members) = members_of(json) else {
        return Err(Stop::here(alloc, JsonErrorKind::Mismatch));
    };
    check_distinct(alloc, members)?;
    let mut entries = Vec::new(alloc);
    for i in 0..members.len() {
        let name = members[i].0;
        let val = read_part(alloc, ty, &members[i].1, i, Some(name))?;
        let key = built(alloc, V::make_string(alloc, name))?;
        entries.push((key, val))?;
    }
    Ok(entries)
}

/// The pairs of an array as entries.
#[cycle(read)]
fn read_pairs<V: WasmValue>(
    alloc: Global,
    key_ty: &V::Type,
    val_ty: &V::Type,
    json: &Value<'_>,
) -> Result<Vec<(V, V)>, Stop>
    ensures { ArePairsRead V.tree V.is_of V.is_full (V.Type.tree key_ty.now) (V.Type.tree val_ty.now) (value_view json.now) result }
{
    let mut entries = Vec::new(alloc);
    if is_empty_object(json) {
        return Ok(entries);
    }
    let Some(pairs) = items_of(json) else {
        return Err(Stop::here(alloc, JsonErrorKind::Mismatch));
    };
    for i in 0..pairs.len() {
        match read_pair(alloc, key_ty, val_ty, &pairs[i]) {
            Ok(entry) => entries.push(entry)?,
            Err(stop) => return Err(stop.under(alloc, i, None)),
        }
    }
    check_keys(alloc, &entries)?;
    Ok(entries)
}

/// A pair as an entry.
#[cycle(read)]
fn read_pair<V: WasmValue>(
    alloc: Global,
    key_ty: &V::Type,
    val_ty: &V::Type,
    json: &Value<'_>,
) -> Result<(V, V), Stop>
    ensures { IsPairRead V.tree V.is_of V.is_full (V.Type.tree key_ty.now) (V.Type.tree val_ty.now) (value_view json.now) result }
{
    let Some(items) = items_of(json) else {
        return Err(Stop::here(alloc, JsonErrorKind::Mismatch));
    };
    if items.len() != 2 {
        return Err(Stop::here(alloc, JsonErrorKind::Length));
    }
    let key = read_part(alloc, key_ty, &items[0], 0, None)?;
    let val = read_part(alloc, val_ty, &items[1], 1, None)?;
    Ok((key, val))
}
