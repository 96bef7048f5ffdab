//! Whether the names within a type are labels.
ghost use Rattle.std.specs.Prelude.{◌≡◌, ◌↔◌, IsTrue, map};
ghost use Rattle.wave_wasm.specs.Types.{IsRepresentable, types_of, fields_of, cases_of, maybe_type};
ghost use Rattle.wave_lex.specs.Labels.{HasDistinctLabels};
ghost use Rattle.wave_type.specs.TypeModel.{by_bytes};
ghost use Rattle.wave_type.specs.Private.NameIndex.{AreFirstPlaces};
ghost use Rattle.wave_type.specs.Private.LabelTest.{are_label_names, names_pass, types_pass, fields_pass, cases_pass, payload_passes};
ghost use Rattle.wave_type.specs.TypeWords.{is_label};

use super::index::{Named, first_place};
use super::{Shape, Type};
use std::collections::BTreeMap;
use wave_lex::machine::{Start, longest_prefix};

impl Type {
    /// Whether within each record, variant, enum and flags of the type the names are labels, and
    /// no name stands twice. The type's tree is one that a type can have.
    pub fn names_are_labels(&self) -> bool
        ensures labels { IsTrue result ↔ HasDistinctLabels self.now }
        ensures representable { IsRepresentable self.now }
    {
        let _ = &self.shape;
        names_pass(self)
    }
}

// Whether the names within the type pass.
#[cycle(names)]
fn names_pass(ty: &Type) -> bool
    ensures { result ≡ names_pass ty.now }
{
    match &ty.shape {
        Shape::Simple(_) | Shape::F32 | Shape::F64 => true,
        Shape::List(element) => names_pass(&element.0),
        Shape::FixedLengthList(parts) => names_pass(&parts.0),
        Shape::Record(fields) => are_label_names(&fields.0, &fields.1) && fields_pass(&fields.0),
        Shape::Tuple(types) => types_pass(&types.0),
        Shape::Variant(cases) => are_label_names(&cases.0, &cases.1) && cases_pass(&cases.0),
        Shape::Enum(names) => are_label_names(&names.0, &names.1),
        Shape::Option(some) => names_pass(&some.0),
        Shape::Result(payloads) => payload_passes(&payloads.0) && payload_passes(&payloads.1),
        Shape::Flags(names) => are_label_names(&names.0, &names.1),
        Shape::Map(types) => names_pass(&types.1),
    }
}

#[cycle(names)]
fn types_pass(types: &Vec<Type>) -> bool
    ensures { result ≡ types_pass (types_of types.now.items) }
{
    for ty in types.iter() {
        if !names_pass(ty) {
            return false;
        }
    }
    true
}

#[cycle(names)]
fn fields_pass(fields: &Vec<(String, Type)>) -> bool
    ensures { result ≡ fields_pass (fields_of (map by_bytes fields.now.items)) }
{
    for field in fields.iter() {
        if !names_pass(&field.1) {
            return false;
        }
    }
    true
}

#[cycle(names)]
fn cases_pass(cases: &Vec<(String, Option<Type>)>) -> bool
    ensures { result ≡ cases_pass (cases_of (map by_bytes cases.now.items)) }
{
    for case in cases.iter() {
        if !payload_passes(&case.1) {
            return false;
        }
    }
    true
}

#[cycle(names)]
fn payload_passes(payload: &Option<Type>) -> bool
    ensures { result ≡ payload_passes (maybe_type payload.now) }
{
    match payload {
        Some(ty) => names_pass(ty),
        None => true,
    }
}

// Whether the names are labels, and none stands twice: each stands first at its own place.
fn are_label_names<N: Named>(items: &Vec<N>, places: &BTreeMap<String, usize>) -> bool
    requires { AreFirstPlaces places.now (map N.name_of items.now.items) }
    ensures { result ≡ are_label_names (map N.name_of items.now.items) }
{
    for i in 0..items.len() {
        let name = items[i].name();
        if !is_label(name) || first_place(places, name) != Some(i) {
            return false;
        }
    }
    true
}

// Whether the name is a label: the longest label at its start is the whole name.
pub(crate) fn is_label(name: &str) -> bool
    ensures { result ≡ is_label name.now }
{
    longest_prefix(Start::Label, name) == Some(name.len())
}
