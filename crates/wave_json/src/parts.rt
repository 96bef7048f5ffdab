//! Parts of JSON that are no values yet.
ghost use Rattle.std.specs.Prelude.{◌≡◌, ◌≢◌, map, option_map, IfOk};
ghost use Rattle.std.specs.Bool.{MatchBool};
ghost use Rattle.json.specs.Json.{no_members, object};
ghost use Rattle.json.specs.Find.{as_array, as_object};
ghost use Rattle.json.specs.Value.{value_view, items_view, members_view};
ghost use Rattle.wave_wasm.specs.Borrowed.{texts};
ghost use Rattle.wave_wasm.specs.Names.{found_in, is_one_of};
ghost use Rattle.wave_wasm.specs.Text.{text};
ghost use Rattle.wave_json.specs.Reading.{distinct_members, each_at, first_repeated, json_case, json_some, known_members, name_at, sole_member as sole, text_at, whole_at};
ghost use Rattle.wave_json.specs.Private.Readers.{AreKeysDistinct, Gives, HasLength, IsBuilt, IsMemberAt, case_view};

use crate::error::{JsonErrorKind, Stop};
use json::Value;
use std::alloc::{AllocError, Global};
use std::collections::BTreeMap;
use wave_grammar::number::WholeNumber;
use wave_wasm::wasm::{WasmValue, WasmValueError};
use wave_writer::writer::to_string;

/// What a constructor answered.
pub(crate) fn built<V>(alloc: Global, made: Result<V, WasmValueError>) -> Result<V, Stop>
    ensures { IsBuilt made result }
{
    match made {
        Ok(val) => Ok(val),
        Err(cause) => Err(Stop::refused(alloc, cause)),
    }
}

/// The text of a string.
pub(crate) fn text_of<'a>(alloc: Global, json: &Value<'a>) -> Result<&'a str, Stop>
    ensures { Gives (λ s. s.now) (text_at (value_view json.now)) result }
{
    match json.as_str() {
        Some(text) => Ok(text),
        None => Err(Stop::here(alloc, JsonErrorKind::Mismatch)),
    }
}

/// A whole number of this type.
pub(crate) fn whole<N: WholeNumber>(alloc: Global, json: &Value<'_>) -> Result<N, Stop>
    ensures { Gives N.number (whole_at N.kind (value_view json.now)) result }
{
    let Some(text) = json.as_number() else {
        return Err(Stop::here(alloc, JsonErrorKind::Mismatch));
    };
    match N::from_text(text) {
        Some(number) => Ok(number),
        None => Err(Stop::here(alloc, JsonErrorKind::Number)),
    }
}

/// The items of an array.
pub(crate) fn items_of<'j, 'a>(json: &'j Value<'a>) -> Option<&'j [Value<'a>]>
    ensures { option_map (λ v. items_view v.now) result ≡ as_array (value_view json.now) }
{
    match json {
        Value::Array(items) => Some(items),
        _ => None,
    }
}

/// Whether there are as many as the length says, where there is one.
pub(crate) fn has_length(length: Option<u32>, count: usize) -> bool
    ensures { MatchBool result (HasLength length count) (HasLength length count → ⊥) }
{
    match length {
        Some(length) => count == length as usize,
        None => true,
    }
}

/// The members of an object.
pub(crate) fn members_of<'j, 'a>(json: &'j Value<'a>) -> Option<&'j [(&'a str, Value<'a>)]>
    ensures { option_map (λ v. members_view v.now) result ≡ as_object (value_view json.now) }
{
    match json {
        Value::Object(members) => Some(members),
        _ => None,
    }
}

/// Whether it is an object without members.
pub(crate) fn is_empty_object(json: &Value<'_>) -> bool
    ensures { MatchBool result (value_view json.now ≡ object no_members) (value_view json.now ≢ object no_members) }
{
    match members_of(json) {
        Some(members) => members.is_empty(),
        None => false,
    }
}

/// Asks that no member has the name of another.
pub(crate) fn check_distinct(alloc: Global, members: &[(&str, Value<'_>)]) -> Result<(), Stop>
    ensures { Gives (λ _. members_view members.now) (distinct_members (members_view members.now)) result }
{
    let mut names = Vec::with_capacity(alloc, members.len())?;
    for i in 0..members.len() {
        names.push(members[i].0)?;
    }
    match first_repeat(alloc, &names)? {
        Some((place, name)) => Err(Stop::at(alloc, JsonErrorKind::Repeated, place, Some(name))),
        None => Ok(()),
    }
}

/// The first of the names that stood before, and where it stands.
pub(crate) fn first_repeat<'a>(
    alloc: Global,
    names: &[&'a str],
) -> Result<Option<(usize, &'a str)>, AllocError>
    ensures { IfOk result (λ found. option_map (λ p. (p.0, p.1.now)) found ≡ first_repeated (texts names.now)) }
{
    let mut before: BTreeMap<&str, usize> = BTreeMap::new(alloc);
    for i in 0..names.len() {
        if before.insert(names[i], i)?.is_some() {
            return Ok(Some((i, names[i])));
        }
    }
    Ok(None)
}

/// Asks that each member has the name of a field.
pub(crate) fn check_known<T>(
    alloc: Global,
    fields: &[(&str, T)],
    members: &[(&str, Value<'_>)],
) -> Result<(), Stop>
    ensures { Gives (λ _. members_view members.now) (known_members (map (λ f. f.0.now) fields.now) (members_view members.now)) result }
{
    for i in 0..members.len() {
        let name = members[i].0;
        if !has_name(fields, i, name) {
            return Err(Stop::at(alloc, JsonErrorKind::Unknown, i, Some(name)));
        }
    }
    Ok(())
}

/// Whether a field has the name. One at this place is looked at first.
fn has_name<T>(fields: &[(&str, T)], first: usize, name: &str) -> bool
    ensures { result ≡ is_one_of (map (λ f. f.0.now) fields.now) name.now }
{
    (first < fields.len() && name == fields[first].0) || fields.iter().any(|field| name == field.0)
}

/// Where the first member of this name stands.
pub(crate) fn member_place(members: &[(&str, Value<'_>)], name: &str) -> Option<usize>
    ensures { IsMemberAt name.now members.now result }
{
    for i in 0..members.len() {
        if name == members[i].0 {
            return Some(i);
        }
    }
    None
}

/// The name and the value of the only member.
fn sole_member<'j, 'a>(members: &'j [(&'a str, Value<'a>)]) -> Option<(&'a str, &'j Value<'a>)>
    ensures { option_map (λ m. (m.0.now, value_view m.1.now)) result ≡ sole (members_view members.now) }
{
    if members.len() != 1 {
        return None;
    }
    let member = &members[0];
    Some((member.0, &member.1))
}

/// A case: its name, with the payload where it has one.
pub(crate) fn case_of<'j, 'a>(json: &'j Value<'a>) -> Option<(&'a str, Option<&'j Value<'a>>)>
    ensures { option_map case_view result ≡ json_case (value_view json.now) }
{
    if let Some(name) = json.as_str() {
        return Some((name, None));
    }
    let Some(members) = members_of(json) else {
        return None;
    };
    let Some((name, payload)) = sole_member(members) else {
        return None;
    };
    Some((name, Some(payload)))
}

/// The payload of `{"some": ..}`.
pub(crate) fn some_of<'j, 'a>(json: &'j Value<'a>) -> Option<&'j Value<'a>>
    ensures { option_map (λ v. value_view v.now) result ≡ json_some (value_view json.now) }
{
    let Some(members) = members_of(json) else {
        return None;
    };
    let Some((name, payload)) = sole_member(members) else {
        return None;
    };
    if name == "some" { Some(payload) } else { None }
}

/// The names that the strings are, each one of the names of flags.
pub(crate) fn read_names<'a>(
    alloc: Global,
    names: &[&str],
    items: &[Value<'a>],
) -> Result<Vec<&'a str>, Stop>
    ensures { Gives (λ v. texts v.items) (each_at (name_at (texts names.now)) 0 (items_view items.now)) result }
{
    let mut given = Vec::new(alloc);
    for i in 0..items.len() {
        match read_name(alloc, names, &items[i]) {
            Ok(name) => given.push(name)?,
            Err(stop) => return Err(stop.under(alloc, i, None)),
        }
    }
    Ok(given)
}

/// Whether the name is one of these.
fn is_among(names: &[&str], name: &str) -> bool
    ensures { result ≡ is_one_of (texts names.now) name.now }
{
    names.iter().any(|other| name == *other)
}

/// The name that the string is, one of these.
fn read_name<'a>(alloc: Global, names: &[&str], json: &Value<'a>) -> Result<&'a str, Stop>
    ensures { Gives (λ s. s.now) (name_at (texts names.now) (value_view json.now)) result }
{
    let name = text_of(alloc, json)?;
    if is_among(names, name) {
        Ok(name)
    } else {
        Err(Stop::here(alloc, JsonErrorKind::Unknown))
    }
}

/// Those of the names of flags that were given, in their own order.
pub(crate) fn picked<'name>(
    alloc: Global,
    names: &[&'name str],
    given: &[&str],
) -> Result<Vec<&'name str>, AllocError>
    ensures { IfOk result (λ v. texts v.items ≡ found_in (texts given.now) (texts names.now)) }
{
    let mut picked = Vec::new(alloc);
    for name in names {
        if is_among(given, *name) {
            picked.push(*name)?;
        }
    }
    Ok(picked)
}

/// Asks that no entry has the key of another.
pub(crate) fn check_keys<V: WasmValue>(alloc: Global, entries: &[(V, V)]) -> Result<(), Stop>
    ensures { AreKeysDistinct (map (λ e. text (V.tree e.0)) entries.now) result }
{
    let mut before: BTreeMap<String, usize> = BTreeMap::new(alloc);
    for i in 0..entries.len() {
        let Ok(text) = to_string(alloc, &entries[i].0) else {
            return Err(Stop::Memory);
        };
        if before.insert(text, i)?.is_some() {
            return Err(Stop::at(alloc, JsonErrorKind::Repeated, i, None));
        }
    }
    Ok(())
}
