//! Equality of values: equal types and equal contents.
ghost use Rattle.std.specs.Prelude.{◌≡◌, map};
ghost use Rattle.std.specs.Str.{bytes_eq};
ghost use Rattle.std.specs.Cmp.Lexicographic.{pointwise};
ghost use Rattle.wave_wasm.specs.Types.{flags_names};
ghost use Rattle.wave_value.specs.ValueModel.{name_at, boxed};
ghost use Rattle.wave_value.specs.Private.ContentEquality.{same_all, same_pairs, same_option, same_content};

use super::{Content, Type, Value};
use std::boxed::Box;
use wave_type::ty::places::{enum_name, flags_in, name_in, variant_name};

impl PartialEq for Value {
    ghost use Rattle.wave_value.specs.ValueEquality.{same_typed, typed_per};

    ghost eq = { same_typed };

    ghost laws = { typed_per };

    #[cycle(same_values)]
    fn eq(&self, other: &Value) -> bool {
        self.own == other.own && same_content(&self.own, &self.content, &other.content)
    }
}

impl Eq for Value {
    ghost use Rattle.wave_value.specs.ValueEquality.{typed_equiv};

    ghost laws = { typed_equiv };
}

// Whether the contents are equal at the type.
#[cycle(same_values)]
fn same_content(own: &Type, a: &Content, b: &Content) -> bool
    ensures { result ≡ same_content own.now a.now b.now }
{
    match (a, b) {
        (Content::Scalar(a), Content::Scalar(b)) => *a == *b,
        (Content::String(a), Content::String(b)) => *a == *b,
        (Content::List(a), Content::List(b)) => same_values(a, b),
        (Content::Record(a), Content::Record(b)) => same_values(a, b),
        (Content::Tuple(a), Content::Tuple(b)) => same_values(a, b),
        (Content::Variant(i, a), Content::Variant(j, b)) => {
            variant_name(own, *i) == variant_name(own, *j) && same_payload(a, b)
        }
        (Content::Enum(i), Content::Enum(j)) => enum_name(own, *i) == enum_name(own, *j),
        (Content::Option(a), Content::Option(b)) => same_payload(a, b),
        (Content::Ok(a), Content::Ok(b)) => same_payload(a, b),
        (Content::Err(a), Content::Err(b)) => same_payload(a, b),
        (Content::Flags(a), Content::Flags(b)) => same_flags(own, a, b),
        (Content::Map(a), Content::Map(b)) => same_entries(a, b),
        (Content::Scalar(_), _)
        | (Content::String(_), _)
        | (Content::List(_), _)
        | (Content::Record(_), _)
        | (Content::Tuple(_), _)
        | (Content::Variant(_, _), _)
        | (Content::Enum(_), _)
        | (Content::Option(_), _)
        | (Content::Ok(_), _)
        | (Content::Err(_), _)
        | (Content::Flags(_), _)
        | (Content::Map(_), _) => false,
    }
}

// Whether the values are equal, one by one.
#[cycle(same_values)]
fn same_values(a: &Vec<Value>, b: &Vec<Value>) -> bool
    ensures { result ≡ same_all a.now.items b.now.items }
{
    if a.len() != b.len() {
        return false;
    }
    for i in 0..a.len() {
        let same = a[i] == b[i];
        if !same {
            return false;
        }
    }
    true
}

// Whether both payloads are there and equal, or neither is there.
#[cycle(same_values)]
fn same_payload(a: &Option<Box<Value>>, b: &Option<Box<Value>>) -> bool
    ensures { result ≡ same_option (boxed a.now) (boxed b.now) }
{
    match (a, b) {
        (None, None) => true,
        (Some(a), Some(b)) => **a == **b,
        _ => false,
    }
}

// Whether the keys and values are equal, entry by entry.
#[cycle(same_values)]
fn same_entries(a: &Vec<(Value, Value)>, b: &Vec<(Value, Value)>) -> bool
    ensures { result ≡ same_pairs a.now.items b.now.items }
{
    if a.len() != b.len() {
        return false;
    }
    for i in 0..a.len() {
        let left = &a[i];
        let right = &b[i];
        let same_key = left.0 == right.0;
        if !same_key {
            return false;
        }
        let same = left.1 == right.1;
        if !same {
            return false;
        }
    }
    true
}

// Whether the flags at the places have equal names.
fn same_flags(own: &Type, a: &Vec<usize>, b: &Vec<usize>) -> bool
    ensures { result
        ≡ pointwise bytes_eq (map (name_at (flags_names own.now)) a.now.items) (map (name_at (flags_names own.now)) b.now.items) }
{
    if a.len() != b.len() {
        return false;
    }
    let names = flags_in(own);
    for i in 0..a.len() {
        if name_in(names, a[i]) != name_in(names, b[i]) {
            return false;
        }
    }
    true
}
