// The types that the program reads at, from its arguments.
ghost use Rattle.std.specs.Prelude.{◌≡◌, ◌↔◌, IfOk, IsTrue, MatchOption};
ghost use Rattle.wave_wasm.specs.Types.{TypeTree};
ghost use Rattle.wave_wasm.specs.Lists.{AllOf};
ghost use Rattle.wave_type.specs.FunctionType.{FunctionType, types_of};
ghost use Rattle.wave.specs.Types.{text_of, HasValue, NamesType, NamesFunction};

use crate::inhabited::is_inhabited;
use std::alloc::{AllocError, Global};
use wasm_wave::value::{FuncType, Type, TypeErrorKind};
use wasm_wave::wasm::WasmFunc;

/// The type that the word names, a sample or the text of a type, where it has a value. The only error
/// is out of memory.
pub fn type_at(alloc: Global, word: &str) -> Result<Option<Type>, AllocError>
    ensures { IfOk result (λ found. MatchOption found
        ((T : TypeTree) → NamesType word.now T → ⊥)
        (NamesType word.now)) }
{
    let ty = match Type::parse(alloc, text_of(word)) {
        Ok(ty) => ty,
        Err(error) if error.kind() == TypeErrorKind::OutOfMemory => return Err(AllocError),
        Err(_) => return Ok(None),
    };
    if is_inhabited(alloc, &ty)? {
        Ok(Some(ty))
    } else {
        Ok(None)
    }
}

/// The type of a function that the word spells, where the type of each parameter has a value. The only
/// error is out of memory.
pub fn function_at(alloc: Global, word: &str) -> Result<Option<FuncType>, AllocError>
    ensures { IfOk result (λ found. MatchOption found
        ((f : FunctionType) → NamesFunction word.now f → ⊥)
        (NamesFunction word.now)) }
{
    let function = match FuncType::parse(alloc, word) {
        Ok(function) => function,
        Err(error) if error.kind() == TypeErrorKind::OutOfMemory => return Err(AllocError),
        Err(_) => return Ok(None),
    };
    if params_have_values(alloc, &function)? {
        Ok(Some(function))
    } else {
        Ok(None)
    }
}

/// Whether the type of each parameter has a value. The only error is out of memory.
fn params_have_values(alloc: Global, function: &FuncType) -> Result<bool, AllocError>
    ensures { IfOk result (λ b. IsTrue b ↔ AllOf HasValue (types_of function.now.params)) }
{
    let types = function.params(alloc)?;
    for ty in &types {
        if !is_inhabited(alloc, *ty)? {
            return Ok(false);
        }
    }
    Ok(true)
}

/// The text for which the word stands: that of a sample's type, or the word itself.
pub fn text_of(word: &str) -> &str
    ensures { result.now ≡ text_of word.now }
{
    match word {
        "bytes" => "list<u8>",
        "perms" => "flags { read, write, exec }",
        "status" => "enum { ok, not-found }",
        "response" => "variant { empty, body(list<u8>), err(string) }",
        "example" => "record { must-have: u8, optional: option<u8> }",
        "counts" => "map<string, u32>",
        "quad" => "list<u8, 4>",
        _ => word,
    }
}
