// What the calls answer of types, and of functions and their calls.
ghost use Rattle.std.specs.Prelude.{◌≡◌, ◌≢◌, IfOk, IfErr};
ghost use Rattle.wave_type.specs.declared.error.TypeErrorKind.TheVariants as type_kind;
ghost use Rattle.wave_type_explain.specs.TypeExplained.{IsExplainedAs};
ghost use Rattle.wave_c.specs.Answers.{IsSpelledBy, IsFunctionSpelledBy, IsExplanationBy, IsFunctionExplained, IsTypeTextAt, IsTypeTapeAt, IsFunctionTextAt, IsFunctionTapeAt, FailsToExplainBy};
ghost use Rattle.wave_c.specs.Failures.{limit_of, FailsAsType, FailsAsFunction, FailsToExplainType, FailsForMemory};

use crate::answer::{explained, limit_of, text_of};
use crate::ended::{Argument, Failure};
use std::alloc::Global;
use wave_tape::encode_type::{encode_func, encode_type};
use wave_type::error::{TypeError, TypeErrorKind};
use wave_type::func::FuncType;
use wave_type::ty::Type;
use wave_type_explain::expected::Reading;
use wave_type_explain::explain::explain_as;

/// The type that the text spells within the levels.
pub(crate) fn opened(alloc: Global, ty: &[u8], levels: u32) -> Result<Type, Failure>
    ensures opened { IfOk result (IsSpelledBy ty.now) }
    ensures failed { IfErr result (FailsAsType (limit_of levels) ty.now) }
{
    let ty = text_of(ty, Argument::TypeText)?;
    Ok(Type::parse_within(alloc, ty, limit_of(levels))?)
}

/// The type of a function that the text spells within the levels.
pub(crate) fn func_opened(alloc: Global, func: &[u8], levels: u32) -> Result<FuncType, Failure>
    ensures opened { IfOk result (IsFunctionSpelledBy func.now) }
    ensures failed { IfErr result (FailsAsFunction (limit_of levels) func.now) }
{
    let func = text_of(func, Argument::TypeText)?;
    Ok(FuncType::parse_within(alloc, func, limit_of(levels))?)
}

/// The canonical text of the type.
pub(crate) fn type_text(alloc: Global, ty: &Type) -> Result<Vec<u8>, Failure>
    ensures said { IfOk result (λ said. IsTypeTextAt ty.now said.items) }
    ensures failed { IfErr result FailsForMemory }
{
    Ok(ty.to_string(alloc)?.into_bytes())
}

/// Its tape.
pub(crate) fn type_tape(alloc: Global, ty: &Type) -> Result<Vec<u8>, Failure>
    ensures said { IfOk result (λ said. IsTypeTapeAt ty.now said.items) }
    ensures failed { IfErr result FailsForMemory }
{
    let mut tape = Vec::new(alloc);
    // each type that a text spells has a tape
    match encode_type(alloc, ty, &mut tape) {
        Ok(()) => Ok(tape),
        Err(_) => Err(Failure::Memory),
    }
}

/// The canonical text of the function's type.
pub(crate) fn func_text(alloc: Global, func: &FuncType) -> Result<Vec<u8>, Failure>
    ensures said { IfOk result (λ said. IsFunctionTextAt func.now said.items) }
    ensures failed { IfErr result FailsForMemory }
{
    Ok(func.to_string(alloc)?.into_bytes())
}

/// Its tape.
pub(crate) fn func_tape(alloc: Global, func: &FuncType) -> Result<Vec<u8>, Failure>
    ensures said { IfOk result (λ said. IsFunctionTapeAt func.now said.items) }
    ensures failed { IfErr result FailsForMemory }
{
    let mut tape = Vec::new(alloc);
    match encode_func(alloc, func, &mut tape) {
        Ok(()) => Ok(tape),
        Err(_) => Err(Failure::Memory),
    }
}

// ---- explanations

/// What explains the refusal of the type's text, or of the text at the type; nothing where neither is
/// refused.
pub(crate) fn explained_by(
    alloc: Global,
    ty: &[u8],
    text: &[u8],
    levels: u32,
) -> Result<Vec<u8>, Failure>
    ensures said { IfOk result (λ said. IsExplanationBy (limit_of levels) ty.now text.now said.items) }
    ensures failed { IfErr result (FailsToExplainBy ty.now text.now) }
{
    let spelling = text_of(ty, Argument::TypeText)?;
    match Type::parse_within(alloc, spelling, limit_of(levels)) {
        Ok(ty) => explained(alloc, &ty, text, levels),
        Err(error) => explain_type(alloc, &error, spelling, Reading::ValueType),
    }
}

/// What explains the refusal of the text of a function's type; nothing where it isn't refused.
pub(crate) fn func_explained(alloc: Global, func: &[u8], levels: u32) -> Result<Vec<u8>, Failure>
    ensures said { IfOk result (λ said. IsFunctionExplained (limit_of levels) func.now said.items) }
    ensures failed { IfErr result (FailsToExplainType func.now) }
{
    let func = text_of(func, Argument::TypeText)?;
    match FuncType::parse_within(alloc, func, limit_of(levels)) {
        Ok(_) => Ok(Vec::new(alloc)),
        Err(error) => explain_type(alloc, &error, func, Reading::FunctionType),
    }
}

/// What explains the refusal of a text that is to spell this; out of memory, for that or as the refusal itself.
fn explain_type(
    alloc: Global,
    error: &TypeError,
    ty: &str,
    reading: Reading,
) -> Result<Vec<u8>, Failure>
    ensures said { IfOk result (λ said. IsExplainedAs reading ty.now error.now said.items) }
    ensures reported { IfOk result (λ _. error.now.kind ≢ type_kind.OutOfMemory) }
    ensures failed { IfErr result FailsForMemory }
{
    if error.kind() == TypeErrorKind::OutOfMemory {
        return Err(Failure::Memory);
    }
    Ok(explain_as(alloc, error, ty, reading)?.into_bytes())
}
