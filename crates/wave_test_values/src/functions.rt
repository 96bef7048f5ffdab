//! Types of functions, and functions of one's own.
use crate::answer::{Stopped, refused, word};
use crate::types::type_of;
use std::alloc::{AllocError, Global};
use wave_type::error::TypeErrorKind;
use wave_type::func::FuncType;
use wave_type::ty::Type;
use wave_wasm::wasm::{DisplayFunc, WasmFunc, WasmValueError};

/// The names and types of the words from the first pair to before the last.
fn named(
    alloc: Global,
    words: &[String],
    first: usize,
    last: usize,
) -> Result<Vec<(String, Type)>, TypeErrorKind> {
    let mut parts = Vec::new(alloc);
    for at in first..last {
        let place = at.saturating_mul(2);
        let name = String::from_str(alloc, word(words, place.saturating_add(1)))?;
        parts.push((name, type_of(alloc, word(words, place.saturating_add(2)))?))?;
    }
    Ok(parts)
}

/// A call on the type of a function of the names and types that are the words from the second on; the
/// first has as many letters as there are parameters.
pub fn on_words(rt: HostRuntime, name: &str, words: &[String]) -> Result<(), Stopped> {
    let count = word(words, 0).len();
    let params = named(rt.alloc(), words, 0, count)?;
    let results = named(rt.alloc(), words, count, words.len().saturating_sub(1) / 2)?;
    match FuncType::new(rt.alloc(), params, results) {
        Ok(func) => on_function(rt, name, func),
        Err(WasmValueError::Memory(_)) if name != "FuncType::new" => Err(Stopped::NotCalled),
        Err(error) => refused(rt, &error),
    }
}

/// A call on this type of a function.
fn on_function(rt: HostRuntime, name: &str, func: FuncType) -> Result<(), Stopped> {
    match name {
        "FuncType::new" => print!(rt; "{func}")?,
        "FuncType::clone" => {
            let copy = func.clone(rt.alloc())?;
            print!(rt; "{copy} {}", copy == func)?;
        }
        "DisplayFunc" => print!(rt; "{}", DisplayFunc::new(rt.alloc(), func))?,
        _ => views(rt, &func)?,
    }
    Ok(())
}

/// Prints whether the words spell the same type of a function.
pub fn equality(rt: HostRuntime, words: &[String]) -> Result<(), Stopped> {
    let one = without_names(rt.alloc(), word(words, 0))?;
    let other = without_names(rt.alloc(), word(words, 1))?;
    print!(rt; "{}", one.func == other.func)?;
    Ok(())
}

/// Prints each name, with a blank before it.
fn listed(rt: HostRuntime, names: &[&str]) -> Result<(), Stopped> {
    for name in names {
        print!(rt; " {name}")?;
    }
    Ok(())
}

/// Prints how many parameters, names of parameters, results and names of results the views answer, and the names.
fn views(rt: HostRuntime, func: &FuncType) -> Result<(), Stopped> {
    let params = func.params(rt.alloc())?.len();
    let names = func.param_names(rt.alloc())?;
    let results = func.results(rt.alloc())?.len();
    let result_names = func.result_names(rt.alloc())?;
    print!(rt; "{params} {} {results} {}", names.len(), result_names.len())?;
    listed(rt, names.as_slice())?;
    listed(rt, result_names.as_slice())
}

/// A function of one's own: of the types of another, without names.
#[derive(Drop)]
pub struct Unnamed {
    pub func: FuncType,
}

impl WasmFunc for Unnamed {
    ghost use Rattle.std.specs.Prelude.{[]};
    ghost use Rattle.wave_type.specs.FunctionType.{func_of};

    type Type = Type;

    ghost func = { λ f. record {
      params = (func_of f.func).params;
      param_names = [];
      results = (func_of f.func).results;
      result_names = [];
    } };

    fn params(&self, alloc: Global) -> Result<Vec<&Type>, AllocError> {
        self.func.params(alloc)
    }

    fn param_names(&self, alloc: Global) -> Result<Vec<&str>, AllocError> {
        Ok(Vec::new(alloc))
    }

    fn results(&self, alloc: Global) -> Result<Vec<&Type>, AllocError> {
        self.func.results(alloc)
    }

    fn result_names(&self, alloc: Global) -> Result<Vec<&str>, AllocError> {
        Ok(Vec::new(alloc))
    }
}

/// The function of the types of the text, without names.
pub fn without_names(alloc: Global, text: &str) -> Result<Unnamed, TypeErrorKind> {
    match FuncType::parse(alloc, text) {
        Ok(func) => Ok(Unnamed { func }),
        Err(error) => Err(error.kind()),
    }
}
