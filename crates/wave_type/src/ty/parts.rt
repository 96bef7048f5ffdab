//! What a type answers about itself.
ghost use Rattle.std.specs.Prelude.{◌≡◌, IfOk, map};
ghost use Rattle.wave_wasm.specs.Borrowed.{denoted_all, denoted_fields, denoted_cases};
ghost use Rattle.wave_type.specs.TypeModel.{by_bytes};

use super::index::borrowed_names;
use super::places::{enum_place, field_place, flag_place, variant_case, variant_place};
use super::{Shape, SimpleType, Type};
use std::alloc::{AllocError, Global};
use wave_wasm::wasm::{WasmType, WasmTypeKind};

#[tactic(auto, using(crate::proofs::TypeTrees::Lists::families))]
impl WasmType for Type {
    ghost tree = { λ t. t };

    fn kind(&self) -> WasmTypeKind {
        match &self.shape {
            Shape::Simple(SimpleType::Bool) => WasmTypeKind::Bool,
            Shape::Simple(SimpleType::S8) => WasmTypeKind::S8,
            Shape::Simple(SimpleType::S16) => WasmTypeKind::S16,
            Shape::Simple(SimpleType::S32) => WasmTypeKind::S32,
            Shape::Simple(SimpleType::S64) => WasmTypeKind::S64,
            Shape::Simple(SimpleType::U8) => WasmTypeKind::U8,
            Shape::Simple(SimpleType::U16) => WasmTypeKind::U16,
            Shape::Simple(SimpleType::U32) => WasmTypeKind::U32,
            Shape::Simple(SimpleType::U64) => WasmTypeKind::U64,
            Shape::Simple(SimpleType::Char) => WasmTypeKind::Char,
            Shape::Simple(SimpleType::String) => WasmTypeKind::String,
            Shape::F32 => WasmTypeKind::F32,
            Shape::F64 => WasmTypeKind::F64,
            Shape::List(_) => WasmTypeKind::List,
            Shape::FixedLengthList(_) => WasmTypeKind::FixedLengthList,
            Shape::Record(_) => WasmTypeKind::Record,
            Shape::Tuple(_) => WasmTypeKind::Tuple,
            Shape::Variant(_) => WasmTypeKind::Variant,
            Shape::Enum(_) => WasmTypeKind::Enum,
            Shape::Option(_) => WasmTypeKind::Option,
            Shape::Result(_) => WasmTypeKind::Result,
            Shape::Flags(_) => WasmTypeKind::Flags,
            Shape::Map(_) => WasmTypeKind::Map,
        }
    }

    fn list_element_type(&self) -> Option<&Type> {
        match &self.shape {
            Shape::List(element) => Some(&element.0),
            Shape::FixedLengthList(parts) => Some(&parts.0),
            _ => None,
        }
    }

    fn list_length(&self) -> Option<u32> {
        match &self.shape {
            Shape::FixedLengthList(parts) => Some(parts.1),
            _ => None,
        }
    }

    fn record_fields(&self, alloc: Global) -> Result<Vec<(&str, &Type)>, AllocError> {
        match &self.shape {
            Shape::Record(fields) => borrowed_fields(alloc, &fields.0),
            _ => Ok(Vec::new(alloc)),
        }
    }

    fn tuple_element_types(&self, alloc: Global) -> Result<Vec<&Type>, AllocError> {
        match &self.shape {
            Shape::Tuple(types) => borrowed_types(alloc, &types.0),
            _ => Ok(Vec::new(alloc)),
        }
    }

    fn variant_cases(&self, alloc: Global) -> Result<Vec<(&str, Option<&Type>)>, AllocError> {
        match &self.shape {
            Shape::Variant(cases) => borrowed_cases(alloc, &cases.0),
            _ => Ok(Vec::new(alloc)),
        }
    }

    fn enum_cases(&self, alloc: Global) -> Result<Vec<&str>, AllocError> {
        match &self.shape {
            Shape::Enum(names) => borrowed_names(alloc, &names.0),
            _ => Ok(Vec::new(alloc)),
        }
    }

    fn option_some_type(&self) -> Option<&Type> {
        match &self.shape {
            Shape::Option(some) => Some(&some.0),
            _ => None,
        }
    }

    fn result_types(&self) -> Option<(Option<&Type>, Option<&Type>)> {
        match &self.shape {
            Shape::Result(payloads) => Some((payloads.0.as_ref(), payloads.1.as_ref())),
            _ => None,
        }
    }

    fn flags_names(&self, alloc: Global) -> Result<Vec<&str>, AllocError> {
        match &self.shape {
            Shape::Flags(names) => borrowed_names(alloc, &names.0),
            _ => Ok(Vec::new(alloc)),
        }
    }

    fn map_key_value_types(&self) -> Option<(&Type, &Type)> {
        match &self.shape {
            Shape::Map(types) => Some((&types.0, &types.1)),
            _ => None,
        }
    }

    fn variant_case(
        &self,
        _alloc: Global,
        name: &str,
    ) -> Result<Option<(&str, Option<&Type>)>, AllocError> {
        let Some(place) = variant_place(self, name) else {
            return Ok(None);
        };
        Ok(Some(variant_case(self, place)))
    }

    fn has_enum_case(&self, _alloc: Global, name: &str) -> Result<bool, AllocError> {
        Ok(enum_place(self, name).is_some())
    }

    fn flag_place(&self, _alloc: Global, name: &str) -> Result<Option<usize>, AllocError> {
        Ok(flag_place(self, name))
    }

    fn field_place(&self, name: &str) -> Option<usize> {
        field_place(self, name)
    }
}

// The fields by their names and types, in their order.
fn borrowed_fields(
    alloc: Global,
    fields: &Vec<(String, Type)>,
) -> Result<Vec<(&str, &Type)>, AllocError>
    ensures { IfOk result (λ v. denoted_fields (λ t. t) v.items ≡ map by_bytes fields.now.items) }
{
    let mut answer = Vec::with_capacity(alloc, fields.len())?;
    for field in fields {
        answer.push((field.0.as_str(), &field.1))?;
    }
    Ok(answer)
}

// The types, in their order.
fn borrowed_types(alloc: Global, types: &Vec<Type>) -> Result<Vec<&Type>, AllocError>
    ensures { IfOk result (λ v. denoted_all (λ t. t) v.items ≡ types.now.items) }
{
    let mut answer = Vec::with_capacity(alloc, types.len())?;
    for ty in types {
        answer.push(ty)?;
    }
    Ok(answer)
}

// The cases by their names and payload types, in their order.
fn borrowed_cases(
    alloc: Global,
    cases: &Vec<(String, Option<Type>)>,
) -> Result<Vec<(&str, Option<&Type>)>, AllocError>
    ensures { IfOk result (λ v. denoted_cases (λ t. t) v.items ≡ map by_bytes cases.now.items) }
{
    let mut answer = Vec::with_capacity(alloc, cases.len())?;
    for case in cases {
        answer.push((case.0.as_str(), case.1.as_ref()))?;
    }
    Ok(answer)
}
