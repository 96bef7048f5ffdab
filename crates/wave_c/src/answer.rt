// What the calls answer of values at a type.
ghost use Rattle.std.specs.Prelude.{◌≡◌, ◌≢◌, IfOk, IfErr, true};
ghost use Rattle.wave_wasm.specs.Text.{text, has_text};
ghost use Rattle.wave_lex.specs.declared.error.ParserErrorKind.TheVariants as kind;
ghost use Rattle.wave_tree.specs.ParserState.{IsLimit, first_at, limited, start_of};
ghost use Rattle.wave_c.specs.Answers.{IsReadAt, IsCanonicalAt, IsTapeAt, IsWrittenAt, IsExplanationAt};
ghost use Rattle.wave_c.specs.Failures.{limit_of, IsNotText, IsRefusedAt, RefusesAt, FailsToRead, FailsToWrite, FailsToExplain, FailsForMemory};

use crate::ended::{Argument, Failure};
use std::alloc::Global;
use wave_explain::value::explain_value;
use wave_lex::error::{ParserError, ParserErrorKind};
use wave_tape::encode::encode;
use wave_tape::write::write;
use wave_tree::parser::{DEFAULT_LEVELS, MAX_LEVELS, Parser};
use wave_type::ty::Type;
use wave_value::value::Value;
use wave_writer::writer::to_string;

// ---- what C hands over

/// The text that the bytes of the argument are.
pub(crate) fn text_of(bytes: &[u8], argument: Argument) -> Result<&str, Failure>
    ensures text { IfOk result (λ text. text.now ≡ bytes.now) }
    ensures failed { IfErr result (IsNotText bytes.now argument) }
{
    match str::from_utf8(bytes) {
        Ok(text) => Ok(text),
        Err(error) => Err(Failure::NotUtf8(argument, error.valid_up_to())),
    }
}

/// The limit of levels that the number stands for.
pub(crate) fn limit_of(levels: u32) -> u32
    ensures value { result ≡ limit_of levels }
    ensures limit { IsLimit result }
{
    if levels == 0 {
        DEFAULT_LEVELS
    } else if levels > MAX_LEVELS {
        MAX_LEVELS
    } else {
        levels
    }
}

/// A parser before the text, within the levels that the number stands for.
pub(crate) fn parser_at(text: &str, levels: u32) -> Parser<'_>
    ensures { result ≡ limited (first_at (start_of text.now).lexer) (limit_of levels) }
{
    Parser::new(text).with_limit(limit_of(levels))
}

/// The refusal that can be explained, which is any but out of memory.
pub(crate) fn refusal_of(error: ParserError) -> Result<ParserError, Failure>
    ensures refusal { IfOk result (λ e. (e ≡ error) × (error.kind ≢ kind.OutOfMemory)) }
    ensures failed { IfErr result FailsForMemory }
{
    if error.kind() == ParserErrorKind::OutOfMemory {
        return Err(Failure::Memory);
    }
    Ok(error)
}

// ---- values

/// The canonical text of the value that the text means at the type.
pub(crate) fn canonical(
    alloc: Global,
    ty: &Type,
    text: &[u8],
    levels: u32,
) -> Result<Vec<u8>, Failure>
    ensures said { IfOk result (λ said. IsCanonicalAt (limit_of levels) text.now ty.now said.items) }
    ensures failed { IfErr result (FailsToRead (IsRefusedAt (limit_of levels) text.now ty.now) text.now) }
{
    let value = value_at(alloc, ty, text, levels)?;
    canonical_text(alloc, &value)
}

/// Its tape.
pub(crate) fn taped(alloc: Global, ty: &Type, text: &[u8], levels: u32) -> Result<Vec<u8>, Failure>
    ensures said { IfOk result (λ said. IsTapeAt (limit_of levels) text.now ty.now said.items) }
    ensures failed { IfErr result (FailsToRead (IsRefusedAt (limit_of levels) text.now ty.now) text.now) }
{
    let value = value_at(alloc, ty, text, levels)?;
    let mut tape = Vec::new(alloc);
    // each value of a type that can be read has a tape
    match encode(alloc, &value, &mut tape) {
        Ok(()) => Ok(tape),
        Err(_) => Err(Failure::Memory),
    }
}

/// The canonical text of the value of the type of which the bytes are the tape.
pub(crate) fn written(alloc: Global, ty: &Type, tape: &[u8]) -> Result<Vec<u8>, Failure>
    ensures said { IfOk result (λ said. IsWrittenAt tape.now ty.now said.items) }
    ensures failed { IfErr result (FailsToWrite tape.now ty.now) }
{
    let said = write::<Value>(alloc, ty, tape)?;
    Ok(said.into_bytes())
}

/// What explains the refusal of the text at the type; nothing where it isn't refused.
pub(crate) fn explained(
    alloc: Global,
    ty: &Type,
    text: &[u8],
    levels: u32,
) -> Result<Vec<u8>, Failure>
    ensures said { IfOk result (λ said. IsExplanationAt (limit_of levels) text.now ty.now said.items) }
    ensures failed { IfErr result (FailsToExplain text.now) }
{
    let text = text_of(text, Argument::ValueText)?;
    match read(alloc, ty, text, levels) {
        Ok(_) => Ok(Vec::new(alloc)),
        Err(error) => {
            let refusal = refusal_of(error)?;
            Ok(explain_value(alloc, &refusal, text, ty)?.into_bytes())
        }
    }
}

/// The value that the text means at the type.
fn value_at(alloc: Global, ty: &Type, text: &[u8], levels: u32) -> Result<Value, Failure>
    ensures read { IfOk result (IsReadAt (limit_of levels) text.now ty.now) }
    ensures failed { IfErr result (FailsToRead (IsRefusedAt (limit_of levels) text.now ty.now) text.now) }
{
    let text = text_of(text, Argument::ValueText)?;
    Ok(read(alloc, ty, text, levels)?)
}

/// The value of the type that the whole text means.
fn read(alloc: Global, ty: &Type, text: &str, levels: u32) -> Result<Value, ParserError>
    ensures read { IfOk result (IsReadAt (limit_of levels) text.now ty.now) }
    ensures refused { IfErr result (RefusesAt (limit_of levels) text.now ty.now) }
{
    let mut parser = parser_at(text, levels);
    let value = parser.parse_value::<Value>(alloc, ty)?;
    parser.finish()?;
    Ok(value)
}

/// The canonical text of the value.
fn canonical_text(alloc: Global, value: &Value) -> Result<Vec<u8>, Failure>
    ensures said { IfOk result (λ said. said.items ≡ text value.now.tree) }
    ensures writable { IfOk result (λ _. has_text value.now.tree ≡ true) }
    ensures failed { IfErr result FailsForMemory }
{
    match to_string(alloc, value) {
        Ok(said) => Ok(said.into_bytes()),
        Err(_) => Err(Failure::Memory),
    }
}
