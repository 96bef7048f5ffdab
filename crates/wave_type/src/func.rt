//! The type of a function: its parameters and its results, with their names.
ghost use Rattle.std.specs.Prelude.{◌≡◌, None, IfOk, IfErr, map};
ghost use Rattle.std.specs.List.{list_any};
ghost use Rattle.wave_wasm.specs.ValueErrors.{cause_of};
ghost use Rattle.wave_type.specs.TypeModel.{by_bytes};
ghost use Rattle.wave_type.specs.FunctionType.{function_of, is_one_unnamed};
ghost use Rattle.wave_type.specs.NamingRule.{is_unnamed, naming_fault, RefusesNames};

use crate::ty::Type;
use std::alloc::{AllocError, Global};
use std::marker::Model;
use wave_wasm::wasm::WasmValueError;

mod display;
mod equality;
mod parse;
mod wasm_func;

/// The type of a function: its parameters and its results by their names and types. All are named,
/// but a sole result may be unnamed.
#[derive(Debug, Drop)]
pub struct FuncType {
    params: Vec<(String, Type)>,
    results: Vec<(String, Type)>,
}

impl Model for FuncType {
    ghost use Rattle.std.specs.Prelude.{◌≡◌, None};
    ghost use Rattle.wave_type.specs.FunctionType.{FunctionType, function_of};
    ghost use Rattle.wave_type.specs.Private.FunctionEncoding.{function_code};
    ghost use Rattle.wave_type.specs.NamingRule.{naming_fault};

    ghost Value = { FunctionType };

    ghost coded = { function_code };

    ghost view = { λ f. function_of f.params.items f.results.items };

    ghost invariant = { λ f. naming_fault (function_of f.params.items f.results.items) ≡ None };
}

impl FuncType {
    /// The type of a function with these parameters and results, by their names and types. Any name
    /// is taken that isn't empty; an empty name means that there is none. An unnamed parameter is
    /// refused, which is tested first, and so is an unnamed result among two or more, both as
    /// `Other`. Memory is taken for the text of such a refusal alone, and where there is none
    /// `Memory` is answered in its place.
    pub fn new(
        alloc: Global,
        params: Vec<(String, Type)>,
        results: Vec<(String, Type)>,
    ) -> Result<FuncType, WasmValueError>
        ensures built { let f = function_of params.items results.items in
            IfOk result (λ t. (t ≡ f) × (naming_fault f ≡ None)) }
        ensures refused { let f = function_of params.items results.items in
            IfErr result (λ e. RefusesNames f (cause_of e)) }
    {
        if has_unnamed(&params) {
            let message = "func params must be named";
            return Err(WasmValueError::Other(String::from_str(alloc, message)?));
        }
        if results.len() > 1 && has_unnamed(&results) {
            let message = "funcs with more than one result must have all results named";
            return Err(WasmValueError::Other(String::from_str(alloc, message)?));
        }
        Ok(FuncType { params, results })
    }

    /// An equal type of a function. The only error is out of memory.
    pub fn clone(&self, alloc: Global) -> Result<FuncType, AllocError>
        ensures { IfOk result (λ f. f ≡ self.now) }
    {
        Ok(FuncType {
            params: clone_parts(alloc, &self.params)?,
            results: clone_parts(alloc, &self.results)?,
        })
    }
}

// Whether one of them has no name.
fn has_unnamed(parts: &Vec<(String, Type)>) -> bool
    ensures { result ≡ list_any is_unnamed (map by_bytes parts.now.items) }
{
    for part in parts {
        if part.0.is_empty() {
            return true;
        }
    }
    false
}

// Whether there is one alone, and it has no name.
fn is_one_unnamed(parts: &Vec<(String, Type)>) -> bool
    ensures { result ≡ is_one_unnamed (map by_bytes parts.now.items) }
{
    parts.len() == 1 && parts[0].0.is_empty()
}

// Copies of the names and types, in their order.
fn clone_parts(
    alloc: Global,
    parts: &Vec<(String, Type)>,
) -> Result<Vec<(String, Type)>, AllocError>
    ensures { IfOk result (λ v. map by_bytes v.items ≡ map by_bytes parts.now.items) }
{
    let mut clones = Vec::new(alloc);
    for part in parts {
        let name = String::from_str(alloc, part.0.as_str())?;
        clones.push((name, part.1.clone()?))?;
    }
    Ok(clones)
}
