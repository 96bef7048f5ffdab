//! Makers of values that have parts.
ghost use Rattle.std.specs.Prelude.{◌≡◌, ℕ, List, map, length, Some, IfOk, IfErr, OnOk};
ghost use Rattle.std.specs.Bool.{OnTrue};
ghost use Rattle.wave_wasm.specs.Types.{fields_of, HasDistinctNames};
ghost use Rattle.wave_wasm.specs.Values as value;
ghost use Rattle.wave_wasm.specs.Values.{values, maybe_value};
ghost use Rattle.wave_wasm.specs.ConstructorContracts.{list_value, result_value, either_tree};
ghost use Rattle.wave_value.specs.ValueModel.{trees, payload_tree, boxed, first_names};
ghost use Rattle.wave_value.specs.Private.ValueModel.{PayloadAt, FieldsAt};
ghost use Rattle.wave_value.specs.ConstructorRules.{Built, HasLength, TakesList, TakesTuple, TakesOption, TakesResult, TakesEnum, option_stated};
ghost use Rattle.wave_value.specs.ConstructorRules.{RefusesList, RefusesParts, RefusesTuple, RefusesPayload, RefusesResult, RefusesEnum};
ghost use Rattle.wave_value.specs.CaseRules.{BuiltMap, TakesMap, map_stated};
ghost use Rattle.wave_value.specs.Private.ConstructorRules.{Reports, SaysLength};
ghost use Rattle.wave_wasm.specs.Borrowed.{denoted, named};
ghost use Rattle.wave_type.specs.TypeModel.{by_bytes, record_part};
ghost use Rattle.wave_value.specs.Private.RecordConstructor.{held, InOrder, IsInTurn};
ghost use Rattle.wave_value.specs.RecordConstructor.{last_under, TakesRecord, BuiltRecord, RefusesRecord, RefusesFields};

use super::refusals::{NameErrorKind, ShowsValue, named, wrong_kind, wrong_type};
use super::{Content, Type, Value};
use std::alloc::{AllocError, Global};
use std::boxed::Box;
use std::collections::BTreeMap;
use wave_type::ty::places::{enum_place, has_distinct_names, named_types, tuple_types};
use wave_wasm::wasm::{WasmType, WasmTypeKind, WasmValueError};

mod cases;

impl Value {
    // Whether the value's own type is this one.
    fn is_at(&self, ty: &Type) -> bool
        ensures { Reports result ty.now self.now }
    {
        self.own == *ty
    }

    // What `make_list` answers, where a refusal shows values so.
    pub(crate) fn list_of<S: ShowsValue>(
        alloc: Global,
        ty: &Type,
        vals: Vec<Value>,
    ) -> Result<Value, WasmValueError>
        ensures built { IfOk result (Built (list_value ty.now (trees vals.items)) ty.now) }
        ensures taken { OnOk result (TakesList ty.now vals.items) }
        ensures refused { IfErr result (RefusesList S.words ty.now vals.items) }
    {
        let Some(element) = ty.list_element_type() else {
            return Err(wrong_kind(alloc, WasmTypeKind::List, ty));
        };
        check_length(ty, &vals)?;
        for val in &vals {
            if !val.is_at(element) {
                return Err(wrong_type::<S>(alloc, element, val));
            }
        }
        Ok(Value {
            own: ty.clone()?,
            content: Content::List(vals),
        })
    }

    // What `make_tuple` answers, where a refusal shows values so.
    pub(crate) fn tuple_of<S: ShowsValue>(
        alloc: Global,
        ty: &Type,
        vals: Vec<Value>,
    ) -> Result<Value, WasmValueError>
        ensures built { IfOk result (Built (value.tuple (values (trees vals.items))) ty.now) }
        ensures taken { OnOk result (TakesTuple ty.now vals.items) }
        ensures refused { IfErr result (RefusesTuple S.words ty.now vals.items) }
    {
        let Some(types) = tuple_types(ty) else {
            return Err(wrong_kind(alloc, WasmTypeKind::Tuple, ty));
        };
        let want = types.len();
        let got = vals.len();
        if want != got {
            return Err(WasmValueError::WrongNumberOfTupleValues { want, got });
        }
        for i in 0..got {
            let stated = &types[i];
            let val = &vals[i];
            if !val.is_at(stated) {
                return Err(wrong_type::<S>(alloc, stated, val));
            }
        }
        Ok(Value {
            own: ty.clone()?,
            content: Content::Tuple(vals),
        })
    }

    // What `make_record` answers, where a refusal shows values so.
    pub(crate) fn record_of<S: ShowsValue>(
        alloc: Global,
        ty: &Type,
        fields: Vec<(&str, Value)>,
    ) -> Result<Value, WasmValueError>
        ensures built { IfOk result (BuiltRecord (named fields.entry.items) ty.now) }
        ensures taken { OnOk result (TakesRecord ty.now (named fields.entry.items)) }
        ensures refused { IfErr result (RefusesRecord S.words ty.now (named fields.entry.items)) }
    {
        let Some(stated) = named_types(ty) else {
            return Err(wrong_kind(alloc, WasmTypeKind::Record, ty));
        };
        let vals = ordered::<S>(alloc, ty, stated, fields)?;
        Ok(Value {
            own: ty.clone()?,
            content: Content::Record(vals),
        })
    }

    // What `make_map` answers, where a refusal shows values so.
    pub(crate) fn map_of<S: ShowsValue>(
        alloc: Global,
        ty: &Type,
        entries: Vec<(Value, Value)>,
    ) -> Result<Value, WasmValueError>
        ensures built { IfOk result (BuiltMap entries.items ty.now) }
        ensures taken { OnOk result (TakesMap ty.now entries.items) }
        ensures refused { IfErr result (RefusesParts S.words WasmTypeKind.Map ty.now (map_stated ty.now entries.items)) }
    {
        let Some((key, value)) = ty.map_key_value_types() else {
            return Err(wrong_kind(alloc, WasmTypeKind::Map, ty));
        };
        for entry in &entries {
            if !entry.0.is_at(key) {
                return Err(wrong_type::<S>(alloc, key, &entry.0));
            }
            if !entry.1.is_at(value) {
                return Err(wrong_type::<S>(alloc, value, &entry.1));
            }
        }
        Ok(Value {
            own: ty.clone()?,
            content: Content::Map(entries),
        })
    }

    // What `make_option` answers, where a refusal shows values so.
    pub(crate) fn option_of<S: ShowsValue>(
        alloc: Global,
        ty: &Type,
        val: Option<Value>,
    ) -> Result<Value, WasmValueError>
        ensures built { IfOk result (Built (value.option (maybe_value (payload_tree val))) ty.now) }
        ensures taken { OnOk result (TakesOption ty.now val) }
        ensures refused { IfErr result (RefusesParts S.words WasmTypeKind.Option ty.now (option_stated ty.now val)) }
    {
        let Some(some) = ty.option_some_type() else {
            return Err(wrong_kind(alloc, WasmTypeKind::Option, ty));
        };
        match val {
            None => Ok(Value {
                own: ty.clone()?,
                content: Content::Option(None),
            }),
            Some(val) => {
                if !val.is_at(some) {
                    return Err(wrong_type::<S>(alloc, some, &val));
                }
                let val = Box::new(alloc, val)?;
                Ok(Value {
                    own: ty.clone()?,
                    content: Content::Option(Some(val)),
                })
            }
        }
    }

    // What `make_result` answers, where a refusal shows values so.
    pub(crate) fn result_of<S: ShowsValue>(
        alloc: Global,
        ty: &Type,
        val: Result<Option<Value>, Option<Value>>,
    ) -> Result<Value, WasmValueError>
        ensures built { IfOk result (Built (result_value (either_tree (λ v. v.tree) val)) ty.now) }
        ensures taken { OnOk result (TakesResult ty.now val) }
        ensures refused { IfErr result (RefusesResult S.words ty.now val) }
    {
        let Some((ok, err)) = ty.result_types() else {
            return Err(wrong_kind(alloc, WasmTypeKind::Result, ty));
        };
        match val {
            Ok(payload) => {
                let payload = boxed_payload::<S>(alloc, "ok", ok, payload)?;
                Ok(Value {
                    own: ty.clone()?,
                    content: Content::Ok(payload),
                })
            }
            Err(payload) => {
                let payload = boxed_payload::<S>(alloc, "err", err, payload)?;
                Ok(Value {
                    own: ty.clone()?,
                    content: Content::Err(payload),
                })
            }
        }
    }

    /// The case of this name, whose own type is this one. A type of another kind is refused, and
    /// a name that is no case.
    pub fn make_enum(alloc: Global, ty: &Type, case: &str) -> Result<Value, WasmValueError>
        ensures built { IfOk result (Built (value.enum case.now) ty.now) }
        ensures taken { OnOk result (TakesEnum ty.now case.now) }
        ensures refused { IfErr result (RefusesEnum ty.now case.now) }
    {
        match ty.kind() {
            WasmTypeKind::Enum => match enum_place(ty, case) {
                Some(place) => Ok(Value {
                    own: ty.clone()?,
                    content: Content::Enum(place),
                }),
                None => Err(named(alloc, NameErrorKind::UnknownCase, case)),
            },
            _ => Err(wrong_kind(alloc, WasmTypeKind::Enum, ty)),
        }
    }
}

// Refuses another count than a fixed-length list's.
fn check_length(ty: &Type, vals: &Vec<Value>) -> Result<(), WasmValueError>
    ensures counted { OnOk result (HasLength ty.now vals.now.items) }
    ensures refused { IfErr result (SaysLength ty.now (length vals.now.items)) }
{
    let Some(want) = ty.list_length() else {
        return Ok(());
    };
    let got = vals.len();
    if want as usize != got {
        return Err(WasmValueError::WrongNumberOfElements { want, got });
    }
    Ok(())
}

// The payload of this case in its box. One that is missing or unexpected is refused, and one whose
// own type isn't the stated one.
fn boxed_payload<S: ShowsValue>(
    alloc: Global,
    case: &str,
    stated: Option<&Type>,
    val: Option<Value>,
) -> Result<Option<Box<Value>>, WasmValueError>
    ensures boxed { IfOk result (λ b. boxed b ≡ val) }
    ensures taken { OnOk result (PayloadAt (denoted (λ t. t) stated.entry) val) }
    ensures refused { IfErr result (RefusesPayload S.words case.now (denoted (λ t. t) stated.entry) val) }
{
    match val {
        None => match stated {
            None => Ok(None),
            Some(_) => Err(named(alloc, NameErrorKind::MissingPayload, case)),
        },
        Some(val) => match stated {
            None => Err(named(alloc, NameErrorKind::UnexpectedPayload, case)),
            Some(stated) => {
                if !val.is_at(stated) {
                    return Err(wrong_type::<S>(alloc, stated, &val));
                }
                Ok(Some(Box::new(alloc, val)?))
            }
        },
    }
}

// The payload in its box, where there is one.
pub(super) fn in_box(alloc: Global, val: Option<Value>) -> Result<Option<Box<Value>>, AllocError>
    ensures { IfOk result (λ b. boxed b ≡ val) }
{
    match val {
        None => Ok(None),
        Some(val) => Ok(Some(Box::new(alloc, val)?)),
    }
}

// The values in the fields' order. Fields that are handed in as the type has them need no look-up.
fn ordered<S: ShowsValue>(
    alloc: Global,
    ty: &Type,
    stated: &Vec<(String, Type)>,
    fields: Vec<(&str, Value)>,
) -> Result<Vec<Value>, WasmValueError>
    requires { Some (fields_of (map by_bytes stated.now.items)) ≡ record_part ty.now }
    ensures given { IfOk result
        (λ v. InOrder (map by_bytes stated.now.items) (last_under (named fields.entry.items)) v.items) }
    ensures refused { IfErr result
        (RefusesFields S.words (map by_bytes stated.now.items) (last_under (named fields.entry.items))) }
{
    if stand_in_order(ty, stated, &fields) {
        check_types::<S>(alloc, stated, &fields)?;
        return Ok(values_of(alloc, fields)?);
    }
    let given = last_values(alloc, fields)?;
    in_order::<S>(alloc, stated, given)
}

// Whether the fields have the names of the record type in its order, and no name stands twice
// within the type.
pub(super) fn stand_in_order<V>(
    ty: &Type,
    stated: &Vec<(String, Type)>,
    fields: &Vec<(&str, V)>,
) -> bool
    requires { Some (fields_of (map by_bytes stated.now.items)) ≡ record_part ty.now }
    ensures turn { OnTrue result (IsInTurn (map by_bytes stated.now.items) (named fields.now.items)) }
    ensures distinct { OnTrue result (HasDistinctNames ty.now) }
{
    let count = stated.len();
    if count != fields.len() {
        return false;
    }
    if !has_distinct_names(ty) {
        return false;
    }
    for i in 0..count {
        if fields[i].0 != stated[i].0.as_str() {
            return false;
        }
    }
    true
}

// Refuses a value of another type than the field at its place.
fn check_types<S: ShowsValue>(
    alloc: Global,
    stated: &Vec<(String, Type)>,
    fields: &Vec<(&str, Value)>,
) -> Result<(), WasmValueError>
    requires { IsInTurn (map by_bytes stated.now.items) (named fields.now.items) }
    ensures taken { OnOk result
        (FieldsAt (map by_bytes stated.now.items) (map (λ f. f.1) fields.now.items)) }
    ensures refused { IfErr result
        (RefusesFields S.words (map by_bytes stated.now.items) (last_under (named fields.now.items))) }
{
    for i in 0..stated.len() {
        let field = &stated[i];
        let val = &fields[i].1;
        if !val.is_at(&field.1) {
            return Err(wrong_type::<S>(alloc, &field.1, val));
        }
    }
    Ok(())
}

// The values of the fields.
pub(super) fn values_of<V: Drop>(
    alloc: Global,
    fields: Vec<(&str, V)>,
) -> Result<Vec<V>, AllocError>
    ensures { IfOk result (λ v. v.items ≡ map (λ f. f.1) fields.entry.items) }
{
    let mut vals = Vec::with_capacity(alloc, fields.len())?;
    for (_, val) in fields {
        vals.push(val)?;
    }
    Ok(vals)
}

// The last value under each name.
fn last_values<V: Drop>(
    alloc: Global,
    fields: Vec<(&str, V)>,
) -> Result<BTreeMap<&str, V>, AllocError>
    ensures { IfOk result (λ m. (name : List ℕ) → held m name ≡ last_under (named fields.entry.items) name) }
{
    let mut given = BTreeMap::new(alloc);
    for (name, val) in fields {
        given.insert(name, val)?;
    }
    Ok(given)
}

// The values in the fields' order. A field without a value is refused, and so is a value of another
// type, and one that is left.
fn in_order<S: ShowsValue>(
    alloc: Global,
    stated: &Vec<(String, Type)>,
    mut given: BTreeMap<&str, Value>,
) -> Result<Vec<Value>, WasmValueError>
    ensures given { IfOk result (λ v. InOrder (map by_bytes stated.now.items) (held given.entry) v.items) }
    ensures refused { IfErr result (RefusesFields S.words (map by_bytes stated.now.items) (held given.entry)) }
{
    let mut vals = Vec::with_capacity(alloc, stated.len())?;
    for field in stated {
        let name = field.0.as_str();
        let Some(val) = given.remove(name) else {
            return Err(named(alloc, NameErrorKind::MissingField, name));
        };
        if !val.is_at(&field.1) {
            return Err(wrong_type::<S>(alloc, &field.1, &val));
        }
        vals.push(val)?;
    }
    match given.first_key_value() {
        Some((name, _)) => Err(named(alloc, NameErrorKind::UnknownField, *name)),
        None => Ok(vals),
    }
}
