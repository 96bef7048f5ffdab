//! What the values of a type ask of it: places of names, names at places, and parts.
ghost use Rattle.std.specs.Prelude.{◌≡◌, ◌↔◌, IsTrue, None, [], get_or, map, option_map, string_bytes};
ghost use Rattle.std.specs.Str.{bytes_eq};
ghost use Rattle.std.specs.List.{position};
ghost use Rattle.wave_wasm.specs.Types.{IsRepresentable, HasDistinctNames, types_of, fields_of, record_parts, variant_parts, enum_names, flags_names};
ghost use Rattle.wave_wasm.specs.Borrowed.{denoted_case};
ghost use Rattle.wave_type.specs.TypeModel.{by_bytes, tuple_part, record_part};

use super::index::{are_distinct, first_place};
use super::{Shape, Type};

/// Says nothing at run time: the tree of each type is one that a type can have.
pub fn is_representable(ty: &Type)
    ensures { IsRepresentable ty.now }
{
    let _ = &ty.shape;
}

/// Where the case of this name stands first in an enum, counted from zero; none where the type
/// is no enum or has no such case.
#[tactic(auto, using(crate::proofs::TypeTrees::Lists::families))]
pub fn enum_place(ty: &Type, name: &str) -> Option<usize>
    ensures { result ≡ position (λ n. bytes_eq name.now n) (enum_names ty.now) }
{
    match &ty.shape {
        Shape::Enum(names) => first_place(&names.1, name),
        _ => None,
    }
}

/// The name of the case at this place of an enum, counted from zero; no text past the last case,
/// and where the type is no enum.
#[tactic(auto, using(crate::proofs::TypeTrees::Lists::families))]
pub fn enum_name(ty: &Type, place: usize) -> &str
    ensures { result.now ≡ get_or (enum_names ty.now) place [] }
{
    match &ty.shape {
        Shape::Enum(names) => name_in(names.0.as_slice(), place),
        _ => "",
    }
}

/// The names of flags in their order; none where the type is none of flags.
#[tactic(auto, using(crate::proofs::TypeTrees::Lists::families))]
pub fn flags_in(ty: &Type) -> &[String]
    ensures { map string_bytes result.now ≡ flags_names ty.now }
{
    match &ty.shape {
        Shape::Flags(names) => names.0.as_slice(),
        _ => &[],
    }
}

/// Where the flag of this name stands first, counted from zero; none where the type is none of
/// flags or has no such flag.
#[tactic(auto, using(crate::proofs::TypeTrees::Lists::families))]
pub fn flag_place(ty: &Type, name: &str) -> Option<usize>
    ensures { result ≡ position (λ n. bytes_eq name.now n) (flags_names ty.now) }
{
    match &ty.shape {
        Shape::Flags(names) => first_place(&names.1, name),
        _ => None,
    }
}

/// Whether within each record, variant, enum and flags of the type no name stands twice. It
/// takes one step: a type with parts keeps it.
pub fn has_distinct_names(ty: &Type) -> bool
    ensures { IsTrue result ↔ HasDistinctNames ty.now }
{
    match &ty.shape {
        Shape::Simple(_) | Shape::F32 | Shape::F64 => true,
        Shape::List(element) => element.1,
        Shape::FixedLengthList(parts) => parts.2,
        Shape::Record(fields) => fields.2,
        Shape::Tuple(types) => types.1,
        Shape::Variant(cases) => cases.2,
        Shape::Enum(names) => are_distinct(&names.0, &names.1),
        Shape::Option(some) => some.1,
        Shape::Result(payloads) => payloads.2,
        Shape::Flags(names) => are_distinct(&names.0, &names.1),
        Shape::Map(types) => types.2,
    }
}

/// Where the first case of this name stands in a variant, counted from zero; none where the type
/// is no variant or has no such case.
#[tactic(auto, using(crate::proofs::TypeTrees::Lists::families))]
pub fn variant_place(ty: &Type, name: &str) -> Option<usize>
    ensures { result ≡ position (λ c. bytes_eq name.now c.0) (variant_parts ty.now) }
{
    match &ty.shape {
        Shape::Variant(cases) => first_place(&cases.1, name),
        _ => None,
    }
}

/// The name of the case at this place of a variant, counted from zero; no text past the last
/// case, and where the type is no variant.
#[tactic(auto, using(crate::proofs::TypeTrees::Lists::families))]
pub fn variant_name(ty: &Type, place: usize) -> &str
    ensures { result.now ≡ get_or (map (λ c. c.0) (variant_parts ty.now)) place [] }
{
    match &ty.shape {
        Shape::Variant(cases) => part_name(cases.0.as_slice(), place),
        _ => "",
    }
}

/// The names and types of a record's fields in their order; none where the type is no record.
#[tactic(auto, using(crate::proofs::TypeTrees::Lists::families))]
pub fn fields_in(ty: &Type) -> &[(String, Type)]
    ensures { map by_bytes result.now ≡ record_parts ty.now }
{
    match &ty.shape {
        Shape::Record(fields) => fields.0.as_slice(),
        _ => &[],
    }
}

/// Where the field of this name stands first in a record, counted from zero; none where the type
/// is no record or has no such field.
#[tactic(auto, using(crate::proofs::TypeTrees::Lists::families))]
pub fn field_place(ty: &Type, name: &str) -> Option<usize>
    ensures { result ≡ position (λ f. bytes_eq name.now f.0) (record_parts ty.now) }
{
    match &ty.shape {
        Shape::Record(fields) => first_place(&fields.1, name),
        _ => None,
    }
}

/// The name and the payload type of the case at this place of a variant, counted from zero; no
/// text and none past the last case, and where the type is no variant.
#[tactic(auto, using(crate::proofs::TypeTrees::Lists::families))]
pub fn variant_case(ty: &Type, place: usize) -> (&str, Option<&Type>)
    ensures { denoted_case (λ t. t) result ≡ get_or (variant_parts ty.now) place ([], None) }
{
    match &ty.shape {
        Shape::Variant(cases) => case_in(&cases.0, place),
        _ => ("", None),
    }
}

/// The types of a tuple in their order; none where the type is no tuple.
#[tactic(auto, using(crate::proofs::TypeTrees::Lists::families))]
pub fn tuple_types(ty: &Type) -> Option<&Vec<Type>>
    ensures { option_map (λ ts. types_of ts.now.items) result ≡ tuple_part ty.now }
{
    match &ty.shape {
        Shape::Tuple(types) => Some(&types.0),
        _ => None,
    }
}

/// The names and types of a record's fields in their order; none where the type is no record.
#[tactic(auto, using(crate::proofs::TypeTrees::Lists::families))]
pub fn named_types(ty: &Type) -> Option<&Vec<(String, Type)>>
    ensures { option_map (λ fs. fields_of (map by_bytes fs.now.items)) result ≡ record_part ty.now }
{
    match &ty.shape {
        Shape::Record(fields) => Some(&fields.0),
        _ => None,
    }
}

/// The name at this place, counted from zero; no text past the last one.
pub fn name_in(names: &[String], place: usize) -> &str
    ensures { result.now ≡ get_or (map string_bytes names.now) place [] }
{
    if place >= names.len() {
        return "";
    }
    let name = &names[place];
    name.as_str()
}

/// The name of the field or case at this place, counted from zero; no text past the last one.
pub fn part_name<A>(parts: &[(String, A)], place: usize) -> &str
    ensures { result.now ≡ get_or (map (λ p. p.0) (map by_bytes parts.now)) place [] }
{
    if place >= parts.len() {
        return "";
    }
    let part = &parts[place];
    part.0.as_str()
}

// The case at the place, and none past the end.
fn case_in(cases: &Vec<(String, Option<Type>)>, place: usize) -> (&str, Option<&Type>)
    ensures { denoted_case (λ t. t) result ≡ get_or (map by_bytes cases.now.items) place ([], None) }
{
    if place >= cases.len() {
        return ("", None);
    }
    let case = &cases[place];
    (case.0.as_str(), case.1.as_ref())
}
