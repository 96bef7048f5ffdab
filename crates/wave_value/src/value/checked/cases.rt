//! Makers of variants and flags, whose parts are found by name.
ghost use Rattle.std.specs.Prelude.{◌≡◌, ◌≤◌, ◌↔◌, [], IsTrue, IfOk, IfErr, OnOk, IfSome, OnSome, length, map};
ghost use Rattle.wave_wasm.specs.Names.{AreAllOf, found_in};
ghost use Rattle.wave_wasm.specs.Types.{flags_names};
ghost use Rattle.wave_wasm.specs.Borrowed.{texts};
ghost use Rattle.wave_wasm.specs.Values as value;
ghost use Rattle.wave_wasm.specs.Values.{maybe_value};
ghost use Rattle.wave_value.specs.Private.ValueModel.{Grows};
ghost use Rattle.wave_value.specs.ValueModel.{name_at, payload_tree};
ghost use Rattle.wave_value.specs.ConstructorRules.{Built};
ghost use Rattle.wave_value.specs.Private.CaseRules.{behind, MarksNames, MarksOneMore, ReportsUnmarked};
ghost use Rattle.wave_value.specs.CaseRules.{TakesVariant, TakesFlags, RefusesVariant, RefusesNames, RefusesFlags};

use super::super::refusals::{NameErrorKind, ShowsValue, named, wrong_kind};
use super::super::{Content, Type, Value};
use super::boxed_payload;
use std::alloc::{AllocError, Global};
use std::collections::BTreeMap;
use wave_type::ty::places::{flag_place, has_distinct_names, variant_case, variant_place};
use wave_wasm::wasm::{WasmType, WasmTypeKind, WasmValueError};

impl Value {
    // What `make_variant` answers, where a refusal shows values so.
    pub(crate) fn variant_of<S: ShowsValue>(
        alloc: Global,
        ty: &Type,
        case: &str,
        val: Option<Value>,
    ) -> Result<Value, WasmValueError>
        ensures built { IfOk result (Built (value.variant case.now (maybe_value (payload_tree val))) ty.now) }
        ensures taken { OnOk result (TakesVariant ty.now case.now val) }
        ensures refused { IfErr result (RefusesVariant S.words ty.now case.now val) }
    {
        match ty.kind() {
            WasmTypeKind::Variant => match variant_place(ty, case) {
                Some(place) => {
                    let (_, stated) = variant_case(ty, place);
                    let val = boxed_payload::<S>(alloc, case, stated, val)?;
                    Ok(Value {
                        own: ty.clone()?,
                        content: Content::Variant(place, val),
                    })
                }
                None => Err(named(alloc, NameErrorKind::UnknownCase, case)),
            },
            _ => Err(wrong_kind(alloc, WasmTypeKind::Variant, ty)),
        }
    }

    /// The type's flags whose names are handed over, in whatever order and however often; they
    /// stand in the type's order, and their own type is this one. Refused are a type of another
    /// kind and names of which one is no flag of the type.
    pub fn make_flags(alloc: Global, ty: &Type, names: &[&str]) -> Result<Value, WasmValueError>
        ensures built { IfOk result (Built (value.flags (found_in (texts names.now) (flags_names ty.now))) ty.now) }
        ensures taken { OnOk result (TakesFlags ty.now (texts names.now)) }
        ensures refused { IfErr result (RefusesFlags ty.now (texts names.now)) }
    {
        match ty.kind() {
            WasmTypeKind::Flags => {
                let places = places_of(alloc, ty, names)?;
                Ok(Value {
                    own: ty.clone()?,
                    content: Content::Flags(places),
                })
            }
            _ => Err(wrong_kind(alloc, WasmTypeKind::Flags, ty)),
        }
    }
}

// The places of those flags of the type that stand among the names. One of the names that is no
// flag is refused.
fn places_of(alloc: Global, ty: &Type, names: &[&str]) -> Result<Vec<usize>, WasmValueError>
    ensures known { OnOk result (AreAllOf (flags_names ty.now) (texts names.now)) }
    ensures grow { IfOk result (λ is. Grows 0 (length (flags_names ty.now)) is.items) }
    ensures found { IfOk result (λ is. map (name_at (flags_names ty.now)) is.items ≡ found_in (texts names.now) (flags_names ty.now)) }
    ensures refused { IfErr result (RefusesNames (flags_names ty.now) (texts names.now)) }
{
    if let Some(places) = places_in_turn(alloc, ty, names)? {
        return Ok(places);
    }
    let all = ty.flags_names(alloc)?;
    marked_places(alloc, &all, names)
}

// The places of the names among the flags of the type, where they stand there in the same order
// and none of the type's names stands twice; found without a walk over those. Else none.
fn places_in_turn(
    alloc: Global,
    ty: &Type,
    names: &[&str],
) -> Result<Option<Vec<usize>>, AllocError>
    ensures known { IfOk result (λ r. OnSome r (AreAllOf (flags_names ty.now) (texts names.now))) }
    ensures grow { IfOk result (λ r. IfSome r (λ is. Grows 0 (length (flags_names ty.now)) is.items)) }
    ensures found { IfOk result (λ r. IfSome r (λ is. map (name_at (flags_names ty.now)) is.items ≡ found_in (texts names.now) (flags_names ty.now))) }
{
    if !has_distinct_names(ty) {
        return Ok(None);
    }
    let mut places = Vec::with_capacity(alloc, names.len())?;
    let mut last = None;
    for name in names {
        match flag_place(ty, *name) {
            Some(place) if is_behind(last, place) => {
                places.push(place)?;
                last = Some(place);
            }
            _ => return Ok(None),
        }
    }
    Ok(Some(places))
}

// Whether the place is behind the last one, where there is a last one.
fn is_behind(last: Option<usize>, place: usize) -> bool
    ensures { IsTrue result ↔ (behind last ≤ place) }
{
    match last {
        Some(last) => last < place,
        None => true,
    }
}

// The places of those of the first names that stand among the others, by a map of those. One of
// the others that is none of the first is refused.
fn marked_places(alloc: Global, all: &[&str], names: &[&str]) -> Result<Vec<usize>, WasmValueError>
    ensures known { OnOk result (AreAllOf (texts all.now) (texts names.now)) }
    ensures grow { IfOk result (λ is. Grows 0 (length all.now) is.items) }
    ensures found { IfOk result (λ is. map (name_at (texts all.now)) is.items ≡ found_in (texts names.now) (texts all.now)) }
    ensures refused { IfErr result (RefusesNames (texts all.now) (texts names.now)) }
{
    let mut marks = unmarked(alloc, names)?;
    let mut places = Vec::with_capacity(alloc, names.len().min(all.len()))?;
    for i in 0..all.len() {
        if !mark(&mut marks, all[i]) {
            continue;
        }
        places.push(i)?;
    }
    check_marked(alloc, names, &marks)?;
    Ok(places)
}

// The names as keys, none of them marked.
fn unmarked<'a>(alloc: Global, names: &'a [&'a str]) -> Result<BTreeMap<&'a str, bool>, AllocError>
    ensures { IfOk result (λ m. MarksNames m (texts names.now) []) }
{
    let mut marks = BTreeMap::new(alloc);
    for name in names {
        marks.insert(*name, false)?;
    }
    Ok(marks)
}

// Marks the name; answers whether it is one of the keys.
fn mark(marks: &mut BTreeMap<&str, bool>, name: &str) -> bool
    ensures { MarksOneMore marks.old marks.new name.now result }
{
    match marks.get_mut(name) {
        Some(is_marked) => {
            *is_marked = true;
            true
        }
        None => false,
    }
}

// Refuses the first of the names that isn't marked.
fn check_marked(
    alloc: Global,
    names: &[&str],
    marks: &BTreeMap<&str, bool>,
) -> Result<(), WasmValueError>
    ensures { ReportsUnmarked marks.now (texts names.now) result }
{
    for name in names {
        if !marks.get(*name).copied().unwrap_or(false) {
            return Err(named(alloc, NameErrorKind::UnknownCase, *name));
        }
    }
    Ok(())
}
