//! A refusal of a text that spells no type, as a person is shown it.
ghost use Rattle.std.specs.Prelude.{◌≡◌, ◌⊎◌, true, IfOk, string_bytes};
ghost use Rattle.wave_hints.specs.WordMarks.{IsWordMark};
ghost use Rattle.wave_type_explain.specs.TypeExplained.{is_misplaced, expectation, SayFirst, IsExplainedAs, IsTypeExplained, IsFunctionExplained};

use crate::expected::{Expected, Reading, expected_at};
use crate::hints::hints;
use std::alloc::{AllocError, Global};
use wave_hints::word::wrong_word;
use wave_lex::lex::Span;
use wave_place::explain::explain_at;
use wave_type::error::{TypeError, TypeErrorKind};

/// The refusal of a text by `Type::parse`: what `explain_at` shows, and behind it what might have stood there
/// and hints how to mend it, on lines that begin with `=`:
///
/// ```text
/// unexpected token in a type at 11..13
///  --> line 1, column 12
///   | record { a u8 }
///   |            ^^
///   = expected ':'
///   = a colon stands between a name and its type: name: T
/// ```
///
/// A word that is wrong as a whole, as `String`, is marked as a whole. The error and the text need not belong
/// together: an explanation is always made, and the only error is out of memory.
pub fn explain_type(alloc: Global, error: &TypeError, text: &str) -> Result<String, AllocError>
    ensures { IfOk result (λ shown. IsTypeExplained text.now error.now (string_bytes shown)) }
{
    explain_as(alloc, error, text, Reading::ValueType)
}

/// The same of a refusal by `FuncType::parse`.
pub fn explain_func_type(alloc: Global, error: &TypeError, text: &str) -> Result<String, AllocError>
    ensures { IfOk result (λ shown. IsFunctionExplained text.now error.now (string_bytes shown)) }
{
    explain_as(alloc, error, text, Reading::FunctionType)
}

/// The refusal of a text that is to spell this, as by `explain_type` or `explain_func_type`.
pub fn explain_as(
    alloc: Global,
    error: &TypeError,
    text: &str,
    reading: Reading,
) -> Result<String, AllocError>
    ensures { IfOk result (λ shown. IsExplainedAs reading text.now error.now (string_bytes shown)) }
{
    let mark = mark_of(error, text);
    let lines = lines(alloc, error.kind(), text, &mark, reading)?;
    let message = error.to_string(alloc)?;
    let mut shown = explain_at(alloc, message.as_str(), mark, text)?;
    shown.push_str(lines.as_str())?;
    Ok(shown)
}

/// What is marked: the word that is wrong as a whole and holds the span, or the span.
fn mark_of(error: &TypeError, text: &str) -> Span
    ensures { (result ≡ error.now.span) ⊎ IsWordMark text.now error.now.span result }
{
    let span = error.span();
    match wrong_word(text, &span) {
        Some(word) => word,
        None => span,
    }
}

/// The lines beside a refusal of this kind: what may stand where the mark begins, and hints; none where nothing
/// else may stand there.
fn lines(
    alloc: Global,
    kind: TypeErrorKind,
    text: &str,
    mark: &Span,
    reading: Reading,
) -> Result<String, AllocError>
    ensures { IfOk result (λ lines. is_misplaced kind ≡ true → SayFirst reading text.now mark.now.start (string_bytes lines)) }
{
    if !is_misplaced(kind) {
        return Ok(String::new(alloc));
    }
    let expected = expected_at(alloc, text, mark.start, reading)?;
    let mut lines = expectation(alloc, &expected)?;
    let hints = hints(alloc, text, mark, &expected)?;
    lines.push_str(hints.as_str())?;
    Ok(lines)
}

/// The line that says what may stand there; nothing where nothing may.
#[tactic(auto, using(crate::proofs::Said::some_said, crate::proofs::Said::none_said))]
fn expectation(alloc: Global, expected: &Expected) -> Result<String, AllocError>
    ensures { IfOk result (λ line. string_bytes line ≡ expectation expected.now.classes.items expected.now.may_end) }
{
    let mut line = String::new(alloc);
    if expected.classes.is_empty() && !expected.may_end {
        return Ok(line);
    }
    line.push_str("  = expected ")?;
    let words = expected.words(alloc)?;
    line.push_str(words.as_str())?;
    line.push_str("\n")?;
    Ok(line)
}

/// Whether something else may stand where a refusal of this kind arose.
fn is_misplaced(kind: TypeErrorKind) -> bool
    ensures { result ≡ is_misplaced kind }
{
    matches!(
        kind,
        TypeErrorKind::UnexpectedToken
            | TypeErrorKind::UnexpectedEnd
            | TypeErrorKind::InvalidToken
            | TypeErrorKind::InvalidKeyType
            | TypeErrorKind::InvalidCount
    )
}
