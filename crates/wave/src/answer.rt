// What a request answers on a text, and what explains its refusal.
ghost use Rattle.std.specs.Prelude.{◌≡◌, ◌++◌, IfOk, MatchResult, map, string_bytes};
ghost use Rattle.wave_wasm.specs.Text.{arguments_text};
ghost use Rattle.wave_writer.specs.WriterState.{IsOutOfMemory};
ghost use Rattle.wave_type.specs.FunctionType.{types_of};
ghost use Rattle.wave.specs.declared.answer.Unanswered.TheVariants as why;
ghost use Rattle.wave.specs.declared.request.Request.TheVariants as request;
ghost use Rattle.wave_tree.specs.ParserState.{IsLimit};
ghost use Rattle.wave_wasm.specs.Lists.{AllOf};
ghost use Rattle.wave_wasm.specs.Types.{HasDistinctNames};
ghost use Rattle.wave.specs.Answers.{Answers};
ghost use Rattle.wave.specs.Explained.{Explains};
ghost use Rattle.wave.specs.Private.Answers.{IsUnanswered};
ghost use Rattle.wave.specs.Private.Requests.{IsFit};

use crate::request::Request;
use std::alloc::{AllocError, Global};
use wasm_wave::explain::{explain_call, explain_untyped, explain_untyped_call, explain_value};
use wasm_wave::parser::{Parser, ParserError};
use wasm_wave::to_string;
use wasm_wave::untyped::UntypedFuncCall;
use wasm_wave::value::{FuncType, Type, Value};
use wasm_wave::wasm::DisplayFuncArgs;
use wasm_wave::writer::WriterError;

/// Why a request isn't answered on a text.
#[derive(Drop)]
pub enum Unanswered {
    /// The text is refused, for this reason; or there was no memory to read it, which is a reason too.
    Refused(ParserError),
    /// There was no memory to show the answer that the request has.
    OutOfMemory,
}

impl From<AllocError> for Unanswered {
    ghost from_gives = { λ _ unanswered. unanswered ≡ why.OutOfMemory };

    fn from(_error: AllocError) -> Unanswered {
        Unanswered::OutOfMemory
    }
}

impl From<ParserError> for Unanswered {
    ghost from_gives = { λ refusal unanswered. unanswered ≡ why.Refused refusal };

    fn from(error: ParserError) -> Unanswered {
        Unanswered::Refused(error)
    }
}

/// The answer of the request on the text.
pub fn answer(alloc: Global, request: &Request, text: &str) -> Result<String, Unanswered>
    requires { IsFit request.now }
    ensures { MatchResult result
        (λ answer. Answers request.now text.now (string_bytes answer))
        (IsUnanswered request.now text.now) }
{
    match request {
        Request::Value(levels) => value(alloc, *levels, text),
        Request::Call => Ok(UntypedFuncCall::parse(alloc, text)?.to_string(alloc)?),
        Request::CallAt(function) => call_at(alloc, function, text),
        Request::Read(ty, levels) => read(alloc, ty, *levels, text),
    }
}

/// The display of the tree that the text spells within `levels` levels.
fn value(alloc: Global, levels: u32, text: &str) -> Result<String, Unanswered>
    requires { IsLimit levels }
    ensures { MatchResult result
        (λ answer. Answers (request.Value levels) text.now (string_bytes answer))
        (IsUnanswered (request.Value levels) text.now) }
{
    let mut parser = Parser::new(text).with_limit(levels);
    let value = parser.parse_raw_value(alloc)?;
    parser.finish()?;
    Ok(value.to_string(alloc)?)
}

/// The name of the call that the text is, and its canonical parameters at the function's types.
fn call_at(alloc: Global, function: &FuncType, text: &str) -> Result<String, Unanswered>
    requires { AllOf HasDistinctNames (types_of function.now.params) }
    ensures { MatchResult result
        (λ answer. Answers (request.CallAt function.now) text.now (string_bytes answer))
        (IsUnanswered (request.CallAt function.now) text.now) }
{
    let untyped = UntypedFuncCall::parse(alloc, text)?;
    let params = untyped.to_func_params::<Value, FuncType>(alloc, function)?;
    Ok(canonical_call(alloc, untyped.name(), &params)?)
}

/// The name and the canonical parameters in their parentheses.
fn canonical_call(alloc: Global, name: &str, params: &Vec<Value>) -> Result<String, AllocError>
    ensures { IfOk result (λ call.
        string_bytes call ≡ name.now ++ arguments_text (map (λ v. v.tree) params.now.items)) }
{
    let arguments = DisplayFuncArgs::new(alloc, params.as_slice()).to_string(alloc)?;
    let mut call = String::from_str(alloc, name)?;
    call.push_str(arguments.as_str())?;
    Ok(call)
}

/// The canonical text of the value that the text means at the type within `levels` levels.
fn read(alloc: Global, ty: &Type, levels: u32, text: &str) -> Result<String, Unanswered>
    requires limit { IsLimit levels }
    requires distinct { HasDistinctNames ty.now }
    ensures { MatchResult result
        (λ answer. Answers (request.Read ty.now levels) text.now (string_bytes answer))
        (IsUnanswered (request.Read ty.now levels) text.now) }
{
    let mut parser = Parser::new(text).with_limit(levels);
    let value = parser.parse_value::<Value>(alloc, ty)?;
    parser.finish()?;
    match to_string(alloc, &value) {
        Ok(answer) => Ok(answer),
        Err(error) => Err(for_memory(error)),
    }
}

/// Out of memory, for which alone a value of a type isn't written.
fn for_memory(error: WriterError) -> Unanswered
    requires { IsOutOfMemory error }
    ensures { result ≡ why.OutOfMemory }
{
    match error {
        WriterError::Memory(_) => Unanswered::OutOfMemory,
        WriterError::Io(_) | WriterError::UnsupportedType => unreachable!(),
    }
}

/// The explanation of the refusal of the text that the request was made on. The only error is out of
/// memory.
pub fn explain_refusal(
    alloc: Global,
    request: &Request,
    refusal: &ParserError,
    text: &str,
) -> Result<String, AllocError>
    ensures { IfOk result (λ shown. Explains request.now text.now refusal.now (string_bytes shown)) }
{
    match request {
        Request::Value(_) => explain_untyped(alloc, refusal, text),
        Request::Call => explain_untyped_call(alloc, refusal, text),
        Request::CallAt(function) => explain_call(alloc, refusal, text, function),
        Request::Read(ty, _) => explain_value(alloc, refusal, text, ty),
    }
}
