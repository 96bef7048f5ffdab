// What the calls answer of texts without a type, and of calls of a function.
ghost use Rattle.std.specs.Prelude.{◌≡◌, IfOk, IfErr, map};
ghost use Rattle.wave_tree.specs.Untyped.{IsUntypedOf, RefusesTree};
ghost use Rattle.wave_lex.specs.Errors.{LiesInText};
ghost use Rattle.wave_c.specs.Answers.{IsDisplayOf, IsUntypedExplanationOf, IsCallTapeAt, IsCallExplanationAt, IsCalledAt};
ghost use Rattle.wave_c.specs.Failures.{limit_of, IsRefusedUntyped, IsRefusedCall, RefusesCallAt, FailsToRead, FailsToExplain};

use crate::answer::{limit_of, parser_at, refusal_of, text_of};
use crate::ended::{Argument, Failure};
use std::alloc::Global;
use wave_explain::call::explain_call;
use wave_explain::value::explain_untyped;
use wave_lex::error::ParserError;
use wave_tape::encode::encode_call;
use wave_tree::untyped::{UntypedFuncCall, UntypedValue};
use wave_type::func::FuncType;
use wave_value::value::Value;

/// The display of the text, which is read without a type.
pub(crate) fn untyped(alloc: Global, text: &[u8], levels: u32) -> Result<Vec<u8>, Failure>
    ensures said { IfOk result (λ said. IsDisplayOf (limit_of levels) text.now said.items) }
    ensures failed { IfErr result (FailsToRead (IsRefusedUntyped (limit_of levels) text.now) text.now) }
{
    let text = text_of(text, Argument::ValueText)?;
    let value = read_untyped(alloc, text, levels)?;
    Ok(value.to_string(alloc)?.into_bytes())
}

/// What explains the refusal of the text without a type; nothing where it isn't refused.
pub(crate) fn untyped_explained(alloc: Global, text: &[u8], levels: u32) -> Result<Vec<u8>, Failure>
    ensures said { IfOk result (λ said. IsUntypedExplanationOf (limit_of levels) text.now said.items) }
    ensures failed { IfErr result (FailsToExplain text.now) }
{
    let text = text_of(text, Argument::ValueText)?;
    match read_untyped(alloc, text, levels) {
        Ok(_) => Ok(Vec::new(alloc)),
        Err(error) => {
            let refusal = refusal_of(error)?;
            Ok(explain_untyped(alloc, &refusal, text)?.into_bytes())
        }
    }
}

/// The value that the whole text spells.
fn read_untyped(alloc: Global, text: &str, levels: u32) -> Result<UntypedValue<'_>, ParserError>
    ensures value { IfOk result (IsUntypedOf (limit_of levels) text.now) }
    ensures refused { IfErr result (RefusesTree (limit_of levels) text.now) }
    ensures within { IfErr result (λ e. LiesInText text.now e.span) }
{
    let mut parser = parser_at(text, levels);
    let value = parser.parse_raw_value(alloc)?;
    parser.finish()?;
    Ok(value)
}

// ---- calls of a function

/// The tape of the call that the text is.
pub(crate) fn called(
    alloc: Global,
    func: &FuncType,
    text: &[u8],
    levels: u32,
) -> Result<Vec<u8>, Failure>
    ensures said { IfOk result (λ said. IsCallTapeAt (limit_of levels) text.now func.now said.items) }
    ensures failed { IfErr result (FailsToRead (IsRefusedCall (limit_of levels) text.now func.now) text.now) }
{
    let text = text_of(text, Argument::ValueText)?;
    let (call, values) = read_call(alloc, func, text, levels)?;
    let mut tape = Vec::new(alloc);
    match encode_call(alloc, call.name(), values.as_slice(), &mut tape) {
        Ok(()) => Ok(tape),
        Err(_) => Err(Failure::Memory),
    }
}

/// What explains the refusal of the call; nothing where it isn't refused.
pub(crate) fn call_explained(
    alloc: Global,
    func: &FuncType,
    text: &[u8],
    levels: u32,
) -> Result<Vec<u8>, Failure>
    ensures said { IfOk result (λ said. IsCallExplanationAt (limit_of levels) text.now func.now said.items) }
    ensures failed { IfErr result (FailsToExplain text.now) }
{
    let text = text_of(text, Argument::ValueText)?;
    match read_call(alloc, func, text, levels) {
        Ok(_) => Ok(Vec::new(alloc)),
        Err(error) => {
            let refusal = refusal_of(error)?;
            Ok(explain_call(alloc, &refusal, text, func)?.into_bytes())
        }
    }
}

/// The call that the whole text is, and the values of the function's parameters.
fn read_call<'text>(
    alloc: Global,
    func: &FuncType,
    text: &'text str,
    levels: u32,
) -> Result<(UntypedFuncCall<'text>, Vec<Value>), ParserError>
    ensures called { IfOk result (λ r. IsCalledAt (limit_of levels) text.now func.now r.0 r.1.items) }
    ensures refused { IfErr result (RefusesCallAt (limit_of levels) func.now text.now) }
{
    let call = UntypedFuncCall::parse_within(alloc, text, limit_of(levels))?;
    let values = call.to_func_params::<Value, FuncType>(alloc, func)?;
    Ok((call, values))
}
