//! The parts of values. What is answered is also what the constructor of that kind takes at the value's
//! own type, so each part has the own type that is stated there.
ghost use Rattle.std.specs.Prelude.{◌≡◌, IfOk, map};
ghost use Rattle.wave_wasm.specs.Types.{flags_names, record_parts};
ghost use Rattle.wave_wasm.specs.Values as value;
ghost use Rattle.wave_wasm.specs.Values.{kind_of, maybe_value, list_items, tuple_items, record_fields, map_entries};
ghost use Rattle.wave_wasm.specs.Borrowed.{texts, denoted, denoted_all, denoted_fields, denoted_pairs, denoted_either};
ghost use Rattle.wave_wasm.specs.ConstructorContracts.{IsOfListKind, result_value, leaf_entries};
ghost use Rattle.wave_value.specs.ValueModel.{trees, name_at, first_names, beside};
ghost use Rattle.wave_value.specs.ConstructorRules.{TakesList, TakesTuple, TakesOption, TakesResult};
ghost use Rattle.wave_value.specs.CaseRules.{TakesVariant, TakesMap};
ghost use Rattle.wave_value.specs.RecordConstructor.{TakesRecord};

use super::{Content, Type, Value};
use std::alloc::{AllocError, Global};
use wave_type::ty::places::{enum_name, fields_in, flags_in, name_in, part_name, variant_name};
use wave_wasm::wasm::WasmTypeKind;

#[tactic(auto, using(crate::proofs::ValueModel::Lists::value_families))]
impl Value {
    /// The items. It asks for a list. The only error is out of memory.
    pub fn unwrap_list(&self, alloc: Global) -> Result<Vec<&Value>, AllocError>
        requires { IsOfListKind (kind_of self.now.tree) }
        ensures trees { IfOk result (λ v. denoted_all (λ w. w.tree) v.items ≡ list_items self.now.tree) }
        ensures own { IfOk result (λ v. TakesList self.now.own (denoted_all (λ w. w) v.items)) }
    {
        match &self.content {
            Content::List(vals) => borrowed_values(alloc, vals),
            _ => Ok(Vec::new(alloc)),
        }
    }

    /// The items. It asks for a tuple. The only error is out of memory.
    pub fn unwrap_tuple(&self, alloc: Global) -> Result<Vec<&Value>, AllocError>
        requires { kind_of self.now.tree ≡ WasmTypeKind.Tuple }
        ensures trees { IfOk result (λ v. denoted_all (λ w. w.tree) v.items ≡ tuple_items self.now.tree) }
        ensures own { IfOk result (λ v. TakesTuple self.now.own (denoted_all (λ w. w) v.items)) }
    {
        match &self.content {
            Content::Tuple(vals) => borrowed_values(alloc, vals),
            _ => Ok(Vec::new(alloc)),
        }
    }

    /// The names and values of the fields in the type's order. It asks for a record. The only error
    /// is out of memory.
    pub fn unwrap_record(&self, alloc: Global) -> Result<Vec<(&str, &Value)>, AllocError>
        requires { kind_of self.now.tree ≡ WasmTypeKind.Record }
        ensures trees { IfOk result (λ v. denoted_fields (λ w. w.tree) v.items ≡ record_fields self.now.tree) }
        ensures own { IfOk result (λ v. TakesRecord self.now.own (denoted_fields (λ w. w) v.items)) }
    {
        match &self.content {
            Content::Record(vals) => borrowed_fields(alloc, &self.own, vals),
            _ => Ok(Vec::new(alloc)),
        }
    }

    /// The entries in their order. It asks for a map. The only error is out of memory.
    pub fn unwrap_map(&self, alloc: Global) -> Result<Vec<(&Value, &Value)>, AllocError>
        requires { kind_of self.now.tree ≡ WasmTypeKind.Map }
        ensures trees { IfOk result
            (λ v. denoted_pairs (λ w. w.tree) v.items ≡ leaf_entries (map_entries self.now.tree)) }
        ensures own { IfOk result (λ v. TakesMap self.now.own (denoted_pairs (λ w. w) v.items)) }
    {
        match &self.content {
            Content::Map(entries) => {
                let shown = borrowed_entries(alloc, entries)?;
                Ok(shown)
            }
            _ => Ok(Vec::new(alloc)),
        }
    }

    /// The case and its payload. It asks for a variant.
    pub fn unwrap_variant(&self) -> (&str, Option<&Value>)
        requires { kind_of self.now.tree ≡ WasmTypeKind.Variant }
        ensures tree { self.now.tree ≡ value.variant result.0.now (maybe_value (denoted (λ w. w.tree) result.1)) }
        ensures own { TakesVariant self.now.own result.0.now (denoted (λ w. w) result.1) }
    {
        match &self.content {
            Content::Variant(place, Some(val)) => (variant_name(&self.own, *place), Some(&**val)),
            Content::Variant(place, None) => (variant_name(&self.own, *place), None),
            _ => unreachable!(),
        }
    }

    /// The case. It asks for an enum.
    pub fn unwrap_enum(&self) -> &str
        requires { kind_of self.now.tree ≡ WasmTypeKind.Enum }
        ensures { self.now.tree ≡ value.enum result.now }
    {
        match &self.content {
            Content::Enum(place) => enum_name(&self.own, *place),
            _ => unreachable!(),
        }
    }

    /// The payload of `some`, or none. It asks for an option.
    pub fn unwrap_option(&self) -> Option<&Value>
        requires { kind_of self.now.tree ≡ WasmTypeKind.Option }
        ensures tree { self.now.tree ≡ value.option (maybe_value (denoted (λ w. w.tree) result)) }
        ensures own { TakesOption self.now.own (denoted (λ w. w) result) }
    {
        match &self.content {
            Content::Option(Some(val)) => Some(&**val),
            Content::Option(None) => None,
            _ => unreachable!(),
        }
    }

    /// The payload of `ok` or of `err`. It asks for a result.
    pub fn unwrap_result(&self) -> Result<Option<&Value>, Option<&Value>>
        requires { kind_of self.now.tree ≡ WasmTypeKind.Result }
        ensures tree { self.now.tree ≡ result_value (denoted_either (λ w. w.tree) result) }
        ensures own { TakesResult self.now.own (denoted_either (λ w. w) result) }
    {
        match &self.content {
            Content::Ok(Some(val)) => Ok(Some(&**val)),
            Content::Ok(None) => Ok(None),
            Content::Err(Some(val)) => Err(Some(&**val)),
            Content::Err(None) => Err(None),
            _ => unreachable!(),
        }
    }

    /// The names of the flags in the type's order. It asks for flags. The only error is out of
    /// memory.
    pub fn unwrap_flags(&self, alloc: Global) -> Result<Vec<&str>, AllocError>
        requires { kind_of self.now.tree ≡ WasmTypeKind.Flags }
        ensures { IfOk result (λ v. texts v.items ≡ value.flags_names self.now.tree) }
    {
        match &self.content {
            Content::Flags(places) => borrowed_flags(alloc, &self.own, places),
            _ => Ok(Vec::new(alloc)),
        }
    }
}

// The values, in their order.
fn borrowed_values(alloc: Global, values: &Vec<Value>) -> Result<Vec<&Value>, AllocError>
    ensures trees { IfOk result (λ v. denoted_all (λ w. w.tree) v.items ≡ trees values.now.items) }
    ensures values { IfOk result (λ v. denoted_all (λ w. w) v.items ≡ values.now.items) }
{
    let mut answer = Vec::with_capacity(alloc, values.len())?;
    for value in values {
        answer.push(value)?;
    }
    Ok(answer)
}

// The names of the flags at the places.
fn borrowed_flags<'a>(
    alloc: Global,
    own: &'a Type,
    places: &'a Vec<usize>,
) -> Result<Vec<&'a str>, AllocError>
    ensures { IfOk result (λ v. texts v.items ≡ map (name_at (flags_names own.now)) places.now.items) }
{
    let names = flags_in(own);
    let mut answer = Vec::with_capacity(alloc, places.len())?;
    for place in places {
        answer.push(name_in(names, *place))?;
    }
    Ok(answer)
}

// The values, each after the name of its field in the type.
fn borrowed_fields<'a>(
    alloc: Global,
    own: &'a Type,
    values: &'a Vec<Value>,
) -> Result<Vec<(&'a str, &'a Value)>, AllocError>
    ensures trees { IfOk result
        (λ v. denoted_fields (λ w. w.tree) v.items ≡ beside (first_names (record_parts own.now)) (trees values.now.items)) }
    ensures values { IfOk result (λ v. map (λ f. f.1.now) v.items ≡ values.now.items) }
{
    let fields = fields_in(own);
    let mut answer = Vec::with_capacity(alloc, values.len())?;
    for i in 0..values.len() {
        answer.push((part_name(fields, i), &values[i]))?;
    }
    Ok(answer)
}

// The keys and values, in their order.
fn borrowed_entries(
    alloc: Global,
    entries: &Vec<(Value, Value)>,
) -> Result<Vec<(&Value, &Value)>, AllocError>
    ensures trees { IfOk result
        (λ v. denoted_pairs (λ w. w.tree) v.items ≡ map (λ e. (e.0.tree, e.1.tree)) entries.now.items) }
    ensures entries { IfOk result (λ v. denoted_pairs (λ w. w) v.items ≡ entries.now.items) }
{
    let mut answer = Vec::with_capacity(alloc, entries.len())?;
    for entry in entries {
        answer.push((&entry.0, &entry.1))?;
    }
    Ok(answer)
}
