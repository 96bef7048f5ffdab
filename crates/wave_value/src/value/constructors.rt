//! Makers of values that have parts of their own types: a refusal shows a value by its canonical
//! text.
ghost use Rattle.std.specs.Prelude.{IfOk, IfErr, OnOk};
ghost use Rattle.wave_wasm.specs.Values as value;
ghost use Rattle.wave_wasm.specs.Values.{values, maybe_value};
ghost use Rattle.wave_wasm.specs.ConstructorContracts.{list_value, result_value, either_tree};
ghost use Rattle.wave_wasm.specs.Borrowed.{named};
ghost use Rattle.wave_value.specs.ValueModel.{trees, payload_tree};
ghost use Rattle.wave_value.specs.ConstructorRules.{Built, TakesList, TakesTuple, TakesOption, TakesResult, value_text, option_stated};
ghost use Rattle.wave_value.specs.ConstructorRules.{RefusesList, RefusesParts, RefusesTuple, RefusesResult};
ghost use Rattle.wave_value.specs.CaseRules.{TakesVariant, RefusesVariant, BuiltMap, TakesMap, map_stated};
ghost use Rattle.wave_value.specs.RecordConstructor.{TakesRecord, BuiltRecord, RefusesRecord};

use super::refusals::ByText;
use super::{Type, Value};
use std::alloc::Global;
use wave_wasm::wasm::{WasmTypeKind, WasmValueError};

impl Value {
    /// The list or fixed-length list of these items, whose own type is this one. A type of another
    /// kind is refused, and another count than a fixed-length list's, and an item whose own type
    /// isn't the element type.
    pub fn make_list(alloc: Global, ty: &Type, vals: Vec<Value>) -> Result<Value, WasmValueError>
        ensures built { IfOk result (Built (list_value ty.now (trees vals.items)) ty.now) }
        ensures taken { OnOk result (TakesList ty.now vals.items) }
        ensures refused { IfErr result (RefusesList value_text ty.now vals.items) }
    {
        Value::list_of::<ByText>(alloc, ty, vals)
    }

    /// The tuple of these items, whose own type is this one. A type of another kind is refused, and
    /// another count than the type's, and an item whose own type isn't the one at its place.
    pub fn make_tuple(alloc: Global, ty: &Type, vals: Vec<Value>) -> Result<Value, WasmValueError>
        ensures built { IfOk result (Built (value.tuple (values (trees vals.items))) ty.now) }
        ensures taken { OnOk result (TakesTuple ty.now vals.items) }
        ensures refused { IfErr result (RefusesTuple value_text ty.now vals.items) }
    {
        Value::tuple_of::<ByText>(alloc, ty, vals)
    }

    /// The record of these fields, whose own type is this one. Their order is free, and the last value
    /// under a name counts. A type of another kind is refused, and so is a field that is missing or
    /// that the type has twice, a name that no field has, and a value whose own type isn't its
    /// field's.
    pub fn make_record(
        alloc: Global,
        ty: &Type,
        fields: Vec<(&str, Value)>,
    ) -> Result<Value, WasmValueError>
        ensures built { IfOk result (BuiltRecord (named fields.entry.items) ty.now) }
        ensures taken { OnOk result (TakesRecord ty.now (named fields.entry.items)) }
        ensures refused { IfErr result (RefusesRecord value_text ty.now (named fields.entry.items)) }
    {
        Value::record_of::<ByText>(alloc, ty, fields)
    }

    /// `some` of the payload, or `none`, whose own type is this one. A type of another kind is
    /// refused, and a payload whose own type isn't the payload type.
    pub fn make_option(
        alloc: Global,
        ty: &Type,
        val: Option<Value>,
    ) -> Result<Value, WasmValueError>
        ensures built { IfOk result (Built (value.option (maybe_value (payload_tree val))) ty.now) }
        ensures taken { OnOk result (TakesOption ty.now val) }
        ensures refused { IfErr result (RefusesParts value_text WasmTypeKind.Option ty.now (option_stated ty.now val)) }
    {
        Value::option_of::<ByText>(alloc, ty, val)
    }

    /// `ok` or `err` with the payload, whose own type is this one. A type of another kind is refused,
    /// and so is a payload that is missing or unexpected there, or whose own type isn't the stated
    /// one.
    pub fn make_result(
        alloc: Global,
        ty: &Type,
        val: Result<Option<Value>, Option<Value>>,
    ) -> Result<Value, WasmValueError>
        ensures built { IfOk result (Built (result_value (either_tree (λ v. v.tree) val)) ty.now) }
        ensures taken { OnOk result (TakesResult ty.now val) }
        ensures refused { IfErr result (RefusesResult value_text ty.now val) }
    {
        Value::result_of::<ByText>(alloc, ty, val)
    }

    /// The first case of this name with this payload, whose own type is this one. Refused are a
    /// type of another kind, a name that is no case, and a payload that is missing, unexpected or
    /// whose own type isn't the payload type of that case.
    pub fn make_variant(
        alloc: Global,
        ty: &Type,
        case: &str,
        val: Option<Value>,
    ) -> Result<Value, WasmValueError>
        ensures built { IfOk result (Built (value.variant case.now (maybe_value (payload_tree val))) ty.now) }
        ensures taken { OnOk result (TakesVariant ty.now case.now val) }
        ensures refused { IfErr result (RefusesVariant value_text ty.now case.now val) }
    {
        Value::variant_of::<ByText>(alloc, ty, case, val)
    }

    /// The map of these entries, as they are handed over: in their order, a key as often as it
    /// stands there. Its own type is this one. A type of another kind is refused, and a key or a
    /// value whose own type isn't the key type or the value type.
    pub fn make_map(
        alloc: Global,
        ty: &Type,
        entries: Vec<(Value, Value)>,
    ) -> Result<Value, WasmValueError>
        ensures built { IfOk result (BuiltMap entries.items ty.now) }
        ensures taken { OnOk result (TakesMap ty.now entries.items) }
        ensures refused { IfErr result (RefusesParts value_text WasmTypeKind.Map ty.now (map_stated ty.now entries.items)) }
    {
        Value::map_of::<ByText>(alloc, ty, entries)
    }
}
