//! A value is lawful: it is of its own type, and a type is full where its names are distinct. Beside
//! the trait's clauses each constructor and each view of values has those of the one of `Value` of the
//! same name; a refusal shows a value by the text of its own type. The unchecked constructors are
//! handed the parts that a value of the type has: where the type is of that kind and has distinct
//! names they compare no part's type, else they ask the constructors that compare.
use super::checked::{in_box, stand_in_order, values_of};
use super::refusals::ByType;
use super::{Content, Type, Value};
use std::alloc::{AllocError, Global};
use std::mem::replace;
use wave_type::ty::places::{has_distinct_names, named_types, tuple_types, variant_place};
use wave_wasm::wasm::{WasmType, WasmTypeKind, WasmValue, WasmValueError};

#[tactic(auto, using(crate::proofs::Lawful::Values::built_leaf, crate::proofs::Lawful::Values::built_only, crate::proofs::Lawful::Values::never_refused, crate::proofs::Lawful::Values::full_leaf, crate::proofs::Lawful::Values::well_formed, crate::proofs::Lawful::Values::built_where, crate::proofs::Lawful::Values::full_list, crate::proofs::Lawful::Values::full_tuple, crate::proofs::Lawful::Records::built_record, crate::proofs::Lawful::VariantsFlagsMaps::full_variant, crate::proofs::Lawful::Values::full_option, crate::proofs::Lawful::Values::full_enum, crate::proofs::Lawful::Values::full_result, crate::proofs::Lawful::VariantsFlagsMaps::built_flags, crate::proofs::Lawful::VariantsFlagsMaps::full_flags, crate::proofs::Lawful::VariantsFlagsMaps::built_map, crate::proofs::Lawful::VariantsFlagsMaps::full_map))]
impl WasmValue for Value {
    ghost use Rattle.std.specs.Prelude.{◌≡◌, IfOk, IfErr, OnOk, pos};
    ghost use Rattle.wave_wasm.specs.Names.{found_in};
    ghost use Rattle.wave_wasm.specs.Types as type;
    ghost use Rattle.wave_wasm.specs.Types.{flags_names, HasDistinctNames};
    ghost use Rattle.wave_wasm.specs.Values as value;
    ghost use Rattle.wave_wasm.specs.Values.{kind_of, values, maybe_value, list_items, tuple_items, record_fields, map_entries, IsSound};
    ghost use Rattle.wave_wasm.specs.Borrowed.{texts, named, denoted, denoted_all, denoted_fields, denoted_pairs, denoted_either};
    ghost use Rattle.wave_wasm.specs.ConstructorContracts.{IsMemory, IsOfListKind, leaf_entries, list_value, result_value, either_tree};
    ghost use Rattle.wave_wasm.specs.ConstructorContracts.{MakesList, MakesTuple, MakesRecord, MakesVariant};
    ghost use Rattle.wave_wasm.specs.ConstructorContracts.{MakesEnum, MakesOption, MakesResult, MakesFlags, MakesMap};
    ghost use Rattle.wave_wasm.specs.ConstructorContracts.{FullList, FullTuple, FullRecord, FullVariant, FullEnum, FullOption, FullResult, FullFlags, FullMap};
    ghost use Rattle.wave_wasm.specs.ConstructorContracts.{TypedList, TypedTuple, TypedRecord, TypedVariant, TypedOption, TypedResult, TypedMap};
    ghost use Rattle.wave_value.specs.ValueModel.{trees, payload_tree};
    ghost use Rattle.wave_value.specs.TypedValue.{IsAt, MakesOnly, typed_leaf};
    ghost use Rattle.wave_value.specs.ConstructorRules.{Built, TakesList, TakesTuple, TakesOption, TakesResult, TakesEnum, own_text, option_stated};
    ghost use Rattle.wave_value.specs.ConstructorRules.{RefusesList, RefusesParts, RefusesTuple, RefusesResult, RefusesEnum};
    ghost use Rattle.wave_value.specs.CaseRules.{TakesVariant, RefusesVariant, TakesFlags, RefusesFlags, BuiltMap, TakesMap, map_stated};
    ghost use Rattle.wave_value.specs.RecordConstructor.{TakesRecord, BuiltRecord, RefusesRecord};
    ghost use Rattle.wave_value.specs.FullTypes.{IsFull, full_parts};

    type Type = Type;

    ghost tree = { λ v. v.tree };

    ghost is_of = { λ v T. IsAt T v };

    ghost is_full = { IsFull };

    ghost of_fits = { λ v T h. h.fits };

    ghost full_parts = { full_parts };

    fn kind(&self) -> WasmTypeKind {
        let _ = &self.content;
        Value::kind(self)
    }

    fn make_bool(alloc: Global, val: bool) -> Result<Value, WasmValueError>
        ensures { MakesOnly (value.bool val) result }
    {
        Value::make_bool(alloc, val)
    }

    fn make_s8(alloc: Global, val: i8) -> Result<Value, WasmValueError>
        ensures { MakesOnly (value.whole type.s8 val) result }
    {
        Value::make_s8(alloc, val)
    }

    fn make_s16(alloc: Global, val: i16) -> Result<Value, WasmValueError>
        ensures { MakesOnly (value.whole type.s16 val) result }
    {
        Value::make_s16(alloc, val)
    }

    fn make_s32(alloc: Global, val: i32) -> Result<Value, WasmValueError>
        ensures { MakesOnly (value.whole type.s32 val) result }
    {
        Value::make_s32(alloc, val)
    }

    fn make_s64(alloc: Global, val: i64) -> Result<Value, WasmValueError>
        ensures { MakesOnly (value.whole type.s64 val) result }
    {
        Value::make_s64(alloc, val)
    }

    fn make_u8(alloc: Global, val: u8) -> Result<Value, WasmValueError>
        ensures { MakesOnly (value.whole type.u8 (pos val)) result }
    {
        Value::make_u8(alloc, val)
    }

    fn make_u16(alloc: Global, val: u16) -> Result<Value, WasmValueError>
        ensures { MakesOnly (value.whole type.u16 (pos val)) result }
    {
        Value::make_u16(alloc, val)
    }

    fn make_u32(alloc: Global, val: u32) -> Result<Value, WasmValueError>
        ensures { MakesOnly (value.whole type.u32 (pos val)) result }
    {
        Value::make_u32(alloc, val)
    }

    fn make_u64(alloc: Global, val: u64) -> Result<Value, WasmValueError>
        ensures { MakesOnly (value.whole type.u64 (pos val)) result }
    {
        Value::make_u64(alloc, val)
    }

    fn make_char(alloc: Global, val: char) -> Result<Value, WasmValueError>
        ensures { MakesOnly (value.char val) result }
    {
        Value::make_char(alloc, val)
    }

    fn make_string(alloc: Global, val: &str) -> Result<Value, WasmValueError>
        ensures built { IfOk result (λ v. (v ≡ typed_leaf (value.string val.now)) × IsSound (value.string val.now)) }
        ensures refused { IfErr result IsMemory }
    {
        Value::make_string(alloc, val)
    }

    fn make_list(alloc: Global, ty: &Type, vals: Vec<Value>) -> Result<Value, WasmValueError>
        ensures built { IfOk result (MakesList (λ v. v.tree) (λ v T. IsAt T v) ty.now vals.items) }
        ensures full { IfErr result (FullList (λ v T. IsAt T v) IsFull ty.now vals.items) }
        ensures exact { IfOk result (Built (list_value ty.now (trees vals.items)) ty.now) }
        ensures taken { OnOk result (TakesList ty.now vals.items) }
        ensures refused { IfErr result (RefusesList own_text ty.now vals.items) }
    {
        Value::list_of::<ByType>(alloc, ty, vals)
    }

    fn make_tuple(alloc: Global, ty: &Type, vals: Vec<Value>) -> Result<Value, WasmValueError>
        ensures built { IfOk result (MakesTuple (λ v. v.tree) (λ v T. IsAt T v) ty.now vals.items) }
        ensures full { IfErr result (FullTuple (λ v T. IsAt T v) IsFull ty.now vals.items) }
        ensures exact { IfOk result (Built (value.tuple (values (trees vals.items))) ty.now) }
        ensures taken { OnOk result (TakesTuple ty.now vals.items) }
        ensures refused { IfErr result (RefusesTuple own_text ty.now vals.items) }
    {
        Value::tuple_of::<ByType>(alloc, ty, vals)
    }

    fn make_record(
        alloc: Global,
        ty: &Type,
        fields: Vec<(&str, Value)>,
    ) -> Result<Value, WasmValueError>
        ensures built { IfOk result (MakesRecord (λ v. v.tree) (λ v T. IsAt T v) ty.now fields.entry.items) }
        ensures full { IfErr result (FullRecord (λ v T. IsAt T v) IsFull ty.now fields.entry.items) }
        ensures exact { IfOk result (BuiltRecord (named fields.entry.items) ty.now) }
        ensures taken { OnOk result (TakesRecord ty.now (named fields.entry.items)) }
        ensures refused { IfErr result (RefusesRecord own_text ty.now (named fields.entry.items)) }
    {
        Value::record_of::<ByType>(alloc, ty, fields)
    }

    fn make_variant(
        alloc: Global,
        ty: &Type,
        case: &str,
        val: Option<Value>,
    ) -> Result<Value, WasmValueError>
        ensures built { IfOk result (MakesVariant (λ v. v.tree) (λ v T. IsAt T v) ty.now case.now val) }
        ensures full { IfErr result (FullVariant (λ v T. IsAt T v) IsFull ty.now case.now val) }
        ensures exact { IfOk result (Built (value.variant case.now (maybe_value (payload_tree val))) ty.now) }
        ensures taken { OnOk result (TakesVariant ty.now case.now val) }
        ensures refused { IfErr result (RefusesVariant own_text ty.now case.now val) }
    {
        Value::variant_of::<ByType>(alloc, ty, case, val)
    }

    fn make_enum(alloc: Global, ty: &Type, case: &str) -> Result<Value, WasmValueError>
        ensures built { IfOk result (MakesEnum (λ v. v.tree) (λ v T. IsAt T v) ty.now case.now) }
        ensures full { IfErr result (FullEnum (λ v T. IsAt T v) IsFull ty.now case.now) }
        ensures exact { IfOk result (Built (value.enum case.now) ty.now) }
        ensures taken { OnOk result (TakesEnum ty.now case.now) }
        ensures refused { IfErr result (RefusesEnum ty.now case.now) }
    {
        Value::make_enum(alloc, ty, case)
    }

    fn make_option(alloc: Global, ty: &Type, val: Option<Value>) -> Result<Value, WasmValueError>
        ensures built { IfOk result (MakesOption (λ v. v.tree) (λ v T. IsAt T v) ty.now val) }
        ensures full { IfErr result (FullOption (λ v T. IsAt T v) IsFull ty.now val) }
        ensures exact { IfOk result (Built (value.option (maybe_value (payload_tree val))) ty.now) }
        ensures taken { OnOk result (TakesOption ty.now val) }
        ensures refused { IfErr result (RefusesParts own_text WasmTypeKind.Option ty.now (option_stated ty.now val)) }
    {
        Value::option_of::<ByType>(alloc, ty, val)
    }

    fn make_result(
        alloc: Global,
        ty: &Type,
        val: Result<Option<Value>, Option<Value>>,
    ) -> Result<Value, WasmValueError>
        ensures built { IfOk result (MakesResult (λ v. v.tree) (λ v T. IsAt T v) ty.now val) }
        ensures full { IfErr result (FullResult (λ v T. IsAt T v) IsFull ty.now val) }
        ensures exact { IfOk result (Built (result_value (either_tree (λ v. v.tree) val)) ty.now) }
        ensures taken { OnOk result (TakesResult ty.now val) }
        ensures refused { IfErr result (RefusesResult own_text ty.now val) }
    {
        Value::result_of::<ByType>(alloc, ty, val)
    }

    fn make_flags(alloc: Global, ty: &Type, names: &[&str]) -> Result<Value, WasmValueError>
        ensures built { IfOk result (MakesFlags (λ v. v.tree) (λ v T. IsAt T v) ty.now names.now) }
        ensures full { IfErr result (FullFlags (λ v T. IsAt T v) IsFull ty.now names.now) }
        ensures exact { IfOk result (Built (value.flags (found_in (texts names.now) (flags_names ty.now))) ty.now) }
        ensures taken { OnOk result (TakesFlags ty.now (texts names.now)) }
        ensures refused { IfErr result (RefusesFlags ty.now (texts names.now)) }
    {
        Value::make_flags(alloc, ty, names)
    }

    fn make_map(
        alloc: Global,
        ty: &Type,
        entries: Vec<(Value, Value)>,
    ) -> Result<Value, WasmValueError>
        ensures built { IfOk result (MakesMap (λ v. v.tree) (λ v T. IsAt T v) ty.now entries.items) }
        ensures full { IfErr result (FullMap (λ v T. IsAt T v) IsFull ty.now entries.items) }
        ensures exact { IfOk result (BuiltMap entries.items ty.now) }
        ensures taken { OnOk result (TakesMap ty.now entries.items) }
        ensures refused { IfErr result (RefusesParts own_text WasmTypeKind.Map ty.now (map_stated ty.now entries.items)) }
    {
        Value::map_of::<ByType>(alloc, ty, entries)
    }

    fn make_list_unchecked(
        alloc: Global,
        ty: &Type,
        vals: &mut Vec<Value>,
    ) -> Result<Value, WasmValueError>
        requires { HasDistinctNames ty.now → TypedList (λ v T. IsAt T v) ty.now vals.now.items }
        ensures built { IfOk result (MakesList (λ v. v.tree) (λ v T. IsAt T v) ty.now vals.old.items) }
        ensures full { IfErr result (FullList (λ v T. IsAt T v) IsFull ty.now vals.old.items) }
        ensures exact { IfOk result (Built (list_value ty.now (trees vals.old.items)) ty.now) }
        ensures taken { OnOk result (TakesList ty.now vals.old.items) }
        ensures refused { IfErr result (RefusesList own_text ty.now vals.old.items) }
    {
        let vals = replace(vals, Vec::new(alloc));
        match ty.list_element_type() {
            Some(_) if has_distinct_names(ty) => Ok(Value {
                own: ty.clone()?,
                content: Content::List(vals),
            }),
            _ => Value::list_of::<ByType>(alloc, ty, vals),
        }
    }

    fn make_tuple_unchecked(
        alloc: Global,
        ty: &Type,
        vals: &mut Vec<Value>,
    ) -> Result<Value, WasmValueError>
        requires { HasDistinctNames ty.now → TypedTuple (λ v T. IsAt T v) ty.now vals.now.items }
        ensures built { IfOk result (MakesTuple (λ v. v.tree) (λ v T. IsAt T v) ty.now vals.old.items) }
        ensures full { IfErr result (FullTuple (λ v T. IsAt T v) IsFull ty.now vals.old.items) }
        ensures exact { IfOk result (Built (value.tuple (values (trees vals.old.items))) ty.now) }
        ensures taken { OnOk result (TakesTuple ty.now vals.old.items) }
        ensures refused { IfErr result (RefusesTuple own_text ty.now vals.old.items) }
    {
        let vals = replace(vals, Vec::new(alloc));
        match tuple_types(ty) {
            Some(_) if has_distinct_names(ty) => Ok(Value {
                own: ty.clone()?,
                content: Content::Tuple(vals),
            }),
            _ => Value::tuple_of::<ByType>(alloc, ty, vals),
        }
    }

    fn make_record_unchecked(
        alloc: Global,
        ty: &Type,
        fields: &mut Vec<(&str, Value)>,
    ) -> Result<Value, WasmValueError>
        requires { HasDistinctNames ty.now → TypedRecord (λ v T. IsAt T v) ty.now fields.now.items }
        ensures built { IfOk result (MakesRecord (λ v. v.tree) (λ v T. IsAt T v) ty.now fields.old.items) }
        ensures full { IfErr result (FullRecord (λ v T. IsAt T v) IsFull ty.now fields.old.items) }
        ensures exact { IfOk result (BuiltRecord (named fields.old.items) ty.now) }
        ensures taken { OnOk result (TakesRecord ty.now (named fields.old.items)) }
        ensures refused { IfErr result (RefusesRecord own_text ty.now (named fields.old.items)) }
    {
        let fields = replace(fields, Vec::new(alloc));
        match named_types(ty) {
            Some(stated) if stand_in_order(ty, stated, &fields) => {
                let vals = values_of(alloc, fields)?;
                Ok(Value {
                    own: ty.clone()?,
                    content: Content::Record(vals),
                })
            }
            _ => Value::record_of::<ByType>(alloc, ty, fields),
        }
    }

    fn make_variant_unchecked(
        alloc: Global,
        ty: &Type,
        case: &str,
        val: &mut Option<Value>,
    ) -> Result<Value, WasmValueError>
        requires { HasDistinctNames ty.now → TypedVariant (λ v T. IsAt T v) ty.now case.now val.now }
        ensures built { IfOk result (MakesVariant (λ v. v.tree) (λ v T. IsAt T v) ty.now case.now val.old) }
        ensures full { IfErr result (FullVariant (λ v T. IsAt T v) IsFull ty.now case.now val.old) }
        ensures exact { IfOk result (Built (value.variant case.now (maybe_value (payload_tree val.old))) ty.now) }
        ensures taken { OnOk result (TakesVariant ty.now case.now val.old) }
        ensures refused { IfErr result (RefusesVariant own_text ty.now case.now val.old) }
    {
        let val = val.take();
        match variant_place(ty, case) {
            Some(place) if has_distinct_names(ty) => {
                let val = in_box(alloc, val)?;
                Ok(Value {
                    own: ty.clone()?,
                    content: Content::Variant(place, val),
                })
            }
            _ => Value::variant_of::<ByType>(alloc, ty, case, val),
        }
    }

    fn make_option_unchecked(
        alloc: Global,
        ty: &Type,
        val: &mut Option<Value>,
    ) -> Result<Value, WasmValueError>
        requires { HasDistinctNames ty.now → TypedOption (λ v T. IsAt T v) ty.now val.now }
        ensures built { IfOk result (MakesOption (λ v. v.tree) (λ v T. IsAt T v) ty.now val.old) }
        ensures full { IfErr result (FullOption (λ v T. IsAt T v) IsFull ty.now val.old) }
        ensures exact { IfOk result (Built (value.option (maybe_value (payload_tree val.old))) ty.now) }
        ensures taken { OnOk result (TakesOption ty.now val.old) }
        ensures refused { IfErr result (RefusesParts own_text WasmTypeKind.Option ty.now (option_stated ty.now val.old)) }
    {
        let val = val.take();
        match ty.option_some_type() {
            Some(_) if has_distinct_names(ty) => {
                let val = in_box(alloc, val)?;
                Ok(Value {
                    own: ty.clone()?,
                    content: Content::Option(val),
                })
            }
            _ => Value::option_of::<ByType>(alloc, ty, val),
        }
    }

    fn make_result_unchecked(
        alloc: Global,
        ty: &Type,
        val: &mut Result<Option<Value>, Option<Value>>,
    ) -> Result<Value, WasmValueError>
        requires { HasDistinctNames ty.now → TypedResult (λ v T. IsAt T v) ty.now val.now }
        ensures built { IfOk result (MakesResult (λ v. v.tree) (λ v T. IsAt T v) ty.now val.old) }
        ensures full { IfErr result (FullResult (λ v T. IsAt T v) IsFull ty.now val.old) }
        ensures exact { IfOk result (Built (result_value (either_tree (λ v. v.tree) val.old)) ty.now) }
        ensures taken { OnOk result (TakesResult ty.now val.old) }
        ensures refused { IfErr result (RefusesResult own_text ty.now val.old) }
    {
        let val = replace(val, Ok(None));
        match ty.result_types() {
            Some(_) if has_distinct_names(ty) => match val {
                Ok(payload) => {
                    let payload = in_box(alloc, payload)?;
                    Ok(Value {
                        own: ty.clone()?,
                        content: Content::Ok(payload),
                    })
                }
                Err(payload) => {
                    let payload = in_box(alloc, payload)?;
                    Ok(Value {
                        own: ty.clone()?,
                        content: Content::Err(payload),
                    })
                }
            },
            _ => Value::result_of::<ByType>(alloc, ty, val),
        }
    }

    fn make_map_unchecked(
        alloc: Global,
        ty: &Type,
        entries: &mut Vec<(Value, Value)>,
    ) -> Result<Value, WasmValueError>
        requires { HasDistinctNames ty.now → TypedMap (λ v T. IsAt T v) ty.now entries.now.items }
        ensures built { IfOk result (MakesMap (λ v. v.tree) (λ v T. IsAt T v) ty.now entries.old.items) }
        ensures full { IfErr result (FullMap (λ v T. IsAt T v) IsFull ty.now entries.old.items) }
        ensures exact { IfOk result (BuiltMap entries.old.items ty.now) }
        ensures taken { OnOk result (TakesMap ty.now entries.old.items) }
        ensures refused { IfErr result (RefusesParts own_text WasmTypeKind.Map ty.now (map_stated ty.now entries.old.items)) }
    {
        let entries = replace(entries, Vec::new(alloc));
        match ty.map_key_value_types() {
            Some(_) if has_distinct_names(ty) => Ok(Value {
                own: ty.clone()?,
                content: Content::Map(entries),
            }),
            _ => Value::map_of::<ByType>(alloc, ty, entries),
        }
    }

    fn unwrap_bool(&self) -> bool {
        Value::unwrap_bool(self)
    }

    fn unwrap_s8(&self) -> i8 {
        Value::unwrap_s8(self)
    }

    fn unwrap_s16(&self) -> i16 {
        Value::unwrap_s16(self)
    }

    fn unwrap_s32(&self) -> i32 {
        Value::unwrap_s32(self)
    }

    fn unwrap_s64(&self) -> i64 {
        Value::unwrap_s64(self)
    }

    fn unwrap_u8(&self) -> u8 {
        Value::unwrap_u8(self)
    }

    fn unwrap_u16(&self) -> u16 {
        Value::unwrap_u16(self)
    }

    fn unwrap_u32(&self) -> u32 {
        Value::unwrap_u32(self)
    }

    fn unwrap_u64(&self) -> u64 {
        Value::unwrap_u64(self)
    }

    fn unwrap_char(&self) -> char {
        Value::unwrap_char(self)
    }

    fn unwrap_string(&self) -> &str {
        Value::unwrap_string(self)
    }

    fn unwrap_list(&self, alloc: Global) -> Result<Vec<&Value>, AllocError>
        requires { IsOfListKind (kind_of self.now.tree) }
        ensures trees { IfOk result (λ v. denoted_all (λ w. w.tree) v.items ≡ list_items self.now.tree) }
        ensures own { IfOk result (λ v. TakesList self.now.own (denoted_all (λ w. w) v.items)) }
    {
        Value::unwrap_list(self, alloc)
    }

    fn unwrap_tuple(&self, alloc: Global) -> Result<Vec<&Value>, AllocError>
        requires { kind_of self.now.tree ≡ WasmTypeKind.Tuple }
        ensures trees { IfOk result (λ v. denoted_all (λ w. w.tree) v.items ≡ tuple_items self.now.tree) }
        ensures own { IfOk result (λ v. TakesTuple self.now.own (denoted_all (λ w. w) v.items)) }
    {
        Value::unwrap_tuple(self, alloc)
    }

    fn unwrap_record(&self, alloc: Global) -> Result<Vec<(&str, &Value)>, AllocError>
        requires { kind_of self.now.tree ≡ WasmTypeKind.Record }
        ensures trees { IfOk result (λ v. denoted_fields (λ w. w.tree) v.items ≡ record_fields self.now.tree) }
        ensures own { IfOk result (λ v. TakesRecord self.now.own (denoted_fields (λ w. w) v.items)) }
    {
        Value::unwrap_record(self, alloc)
    }

    fn unwrap_variant(&self) -> (&str, Option<&Value>)
        requires { kind_of self.now.tree ≡ WasmTypeKind.Variant }
        ensures tree { self.now.tree ≡ value.variant result.0.now (maybe_value (denoted (λ w. w.tree) result.1)) }
        ensures own { TakesVariant self.now.own result.0.now (denoted (λ w. w) result.1) }
    {
        Value::unwrap_variant(self)
    }

    fn unwrap_enum(&self) -> &str {
        Value::unwrap_enum(self)
    }

    fn unwrap_option(&self) -> Option<&Value>
        requires { kind_of self.now.tree ≡ WasmTypeKind.Option }
        ensures tree { self.now.tree ≡ value.option (maybe_value (denoted (λ w. w.tree) result)) }
        ensures own { TakesOption self.now.own (denoted (λ w. w) result) }
    {
        Value::unwrap_option(self)
    }

    fn unwrap_result(&self) -> Result<Option<&Value>, Option<&Value>>
        requires { kind_of self.now.tree ≡ WasmTypeKind.Result }
        ensures tree { self.now.tree ≡ result_value (denoted_either (λ w. w.tree) result) }
        ensures own { TakesResult self.now.own (denoted_either (λ w. w) result) }
    {
        Value::unwrap_result(self)
    }

    fn unwrap_flags(&self, alloc: Global) -> Result<Vec<&str>, AllocError> {
        Value::unwrap_flags(self, alloc)
    }

    fn unwrap_map(&self, alloc: Global) -> Result<Vec<(&Value, &Value)>, AllocError>
        requires { kind_of self.now.tree ≡ WasmTypeKind.Map }
        ensures trees { IfOk result
            (λ v. denoted_pairs (λ w. w.tree) v.items ≡ leaf_entries (map_entries self.now.tree)) }
        ensures own { IfOk result (λ v. TakesMap self.now.own (denoted_pairs (λ w. w) v.items)) }
    {
        Value::unwrap_map(self, alloc)
    }
}
