//! Values made of parts that are of the stated types: these are refused for lack of memory alone.
ghost use Rattle.std.specs.Prelude.{◌≡◌, ◌≢◌, [], map, Ok, IfOk, IfErr};
ghost use Rattle.wave_wasm.specs.Types as type;
ghost use Rattle.wave_wasm.specs.Types.{types_of};
ghost use Rattle.wave_wasm.specs.Values as value;
ghost use Rattle.wave_wasm.specs.Values.{values, maybe_value};
ghost use Rattle.wave_wasm.specs.ConstructorContracts as constructor;
ghost use Rattle.wave_wasm.specs.ConstructorContracts.{IsMemory, either_tree};
ghost use Rattle.wave_value.specs.ValueModel.{trees, payload_tree};
ghost use Rattle.wave_value.specs.ConstructorRules.{Built, AllOwn, TakesList, TakesTuple, TakesOption, TakesResult};

use crate::convert::IntoValue;
use std::alloc::{AllocError, Global};
use wave_type::ty::Type;
use wave_value::value::Value;
use wave_wasm::wasm::WasmValueError;

// The tuple type of these types, at least one.
pub(crate) fn tuple_type(alloc: Global, types: Vec<Type>) -> Result<Type, AllocError>
    requires { types.items ≢ [] }
    ensures { IfOk result (λ t. t ≡ type.tuple (types_of types.items)) }
{
    match Type::tuple(alloc, types)? {
        Some(ty) => Ok(ty),
        None => unreachable!(),
    }
}

// What the items stand for.
pub(crate) fn values_of<T: IntoValue>(
    alloc: Global,
    items: Vec<T>,
) -> Result<Vec<Value>, AllocError>
    ensures own { IfOk result (λ v. AllOwn T.own v.items) }
    ensures trees { IfOk result (λ v. trees v.items ≡ map T.tree items.items) }
{
    let mut vals = Vec::new(alloc);
    for item in items {
        vals.push(item.into_value(alloc)?)?;
    }
    Ok(vals)
}

// The value that was made, where nothing but memory is refused.
fn unless_memory(built: Result<Value, WasmValueError>) -> Result<Value, AllocError>
    requires { IfErr built IsMemory }
    ensures { IfOk result (λ v. built ≡ Ok v) }
{
    match built {
        Ok(val) => Ok(val),
        Err(WasmValueError::Memory(e)) => Err(e),
        Err(_) => unreachable!(),
    }
}

// The list of these items, each of the element type, or the fixed-length list of as many as its length.
#[tactic(auto, using(wave_value::proofs::Lawful::Values::list_memory))]
pub(crate) fn list_of(alloc: Global, ty: &Type, vals: Vec<Value>) -> Result<Value, AllocError>
    requires { TakesList ty.now vals.items }
    ensures { IfOk result (Built (constructor.list_value ty.now (trees vals.items)) ty.now) }
{
    unless_memory(Value::make_list(alloc, ty, vals))
}

// The tuple of these items, each of the type at its place.
#[tactic(auto, using(crate::proofs::IntoValue::OutOfMemoryAlone::tuple_memory))]
pub(crate) fn tuple_of(alloc: Global, ty: &Type, vals: Vec<Value>) -> Result<Value, AllocError>
    requires { TakesTuple ty.now vals.items }
    ensures { IfOk result (Built (value.tuple (values (trees vals.items))) ty.now) }
{
    unless_memory(Value::make_tuple(alloc, ty, vals))
}

// `some` of the payload, which is of the payload type, or `none`.
#[tactic(auto, using(crate::proofs::IntoValue::OutOfMemoryAlone::option_memory))]
pub(crate) fn option_of(alloc: Global, ty: &Type, val: Option<Value>) -> Result<Value, AllocError>
    requires { TakesOption ty.now val }
    ensures { IfOk result (Built (value.option (maybe_value (payload_tree val))) ty.now) }
{
    unless_memory(Value::make_option(alloc, ty, val))
}

// `ok` or `err` with the payload, which is of the stated type.
#[tactic(auto, using(crate::proofs::IntoValue::OutOfMemoryAlone::result_memory))]
pub(crate) fn result_of(
    alloc: Global,
    ty: &Type,
    val: Result<Option<Value>, Option<Value>>,
) -> Result<Value, AllocError>
    requires { TakesResult ty.now val }
    ensures { IfOk result (Built (constructor.result_value (either_tree (λ v. v.tree) val)) ty.now) }
{
    unless_memory(Value::make_result(alloc, ty, val))
}
