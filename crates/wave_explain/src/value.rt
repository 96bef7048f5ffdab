//! A refusal of a text at a type, as a person is shown it.
ghost use Rattle.std.specs.Prelude.{ℕ, ◌≡◌, ◌++◌, List, [], true, IfOk, IfSome, IfNone};
ghost use Rattle.std.specs.String.{string_bytes};
ghost use Rattle.wave_wasm.specs.Types.{TypeTree};
ghost use Rattle.wave_lex.specs.Errors.{error_text};
ghost use Rattle.wave_grammar.specs.TypedReading.{IsValueOf};
ghost use Rattle.wave_explain.specs.ValueExplained.{is_of_type, HasNoPart, IsPrefix, ReportsPart, IsPartMark, IsBlock, IsUntypedExplained, IsSyntaxExplained, IsValueExplained, heading_with_path, before_path};
ghost use Rattle.wave_explain.specs.ValueExplained.{ExplainsSyntax, ExplainsUntyped, ExplainsFault, ExplainsValue};
ghost use Rattle.wave_explain.specs.Private.Readings.{TellsAs};

use crate::escape::syntax_mark;
use crate::expected::push_expected;
use crate::open::open_line;
use crate::syntax::{Reading, syntax_lines};
use std::alloc::{AllocError, Global};
use wave_hints::hints::hints_of;
use wave_hints::word::{is_name, wrong_word};
use wave_lex::error::{ParserError, ParserErrorKind};
use wave_lex::lex::Span;
use wave_node::ast::Node;
use wave_place::explain::{marked_of, shown_lines};
use wave_place::path::part_at;
use wave_place::place::{Place, place_of};
use wave_tree::parser::{MAX_LEVELS, Parser};
use wave_tree::untyped::UntypedValue;
use wave_wasm::wasm::WasmType;

/// The refusal of a whole text at the type, by `from_str`, or by `Parser::parse_value` and `finish`: what
/// `explain` shows, and beside it the path to the part of the value that is wrong, the type that is expected
/// there, and hints how to mend it, on at most three lines that begin with `=`:
///
/// ```text
/// invalid value at 10..15
///  --> line 1, column 11, at .servers[2].port
///   | {port: 80800}
///   |        ^^^^^
///   = expected u16, a whole number from 0 to 65535
/// ```
///
/// A path has `.name` for the value of a record's field and for the payload of a case, `.some`, `.ok` and
/// `.err` for other payloads, `[0]` for an item of a list or a tuple, and `["key"]` for an entry of a map;
/// it is empty for the whole value. Where the fault is a name within the place, as that of a field that
/// the type hasn't, that name is marked, and where the place is within a word that is wrong as a whole, as
/// `True`, that word. A type that takes more than 60 scalars is truncated. A refusal of syntax is explained
/// as by `explain_untyped`, with a line for the path and the type where it is within a part of the value.
///
/// The text is read anew, without a type, for the explanation. The error, the text and the type need not
/// belong together: an explanation is always made, and the only error is out of memory.
pub fn explain_value<T: WasmType>(
    alloc: Global,
    error: &ParserError,
    source: &str,
    ty: &T,
) -> Result<String, AllocError>
    ensures { IfOk result (λ text. IsValueExplained source.now (T.tree ty.now) error.now (string_bytes text)) }
{
    let parts = value_explanation(alloc, error, source, ty)?;
    explained(alloc, error, source, &parts)
}

/// What explains a refusal of a text, in its parts.
#[derive(Debug, Drop)]
pub struct Explanation {
    /// What is marked of the text.
    pub mark: Span,
    /// The path to the part of the value that is wrong; empty for the whole value.
    pub path: String,
    /// The lines below the mark: each begins with `  = ` and ends with a line feed.
    pub lines: String,
}

/// What `explain_value` shows of the refusal, in its parts.
pub fn value_explanation<T: WasmType>(
    alloc: Global,
    error: &ParserError,
    source: &str,
    ty: &T,
) -> Result<Explanation, AllocError>
    ensures { IfOk result (λ x. ExplainsValue source.now (T.tree ty.now) error.now x.mark (string_bytes x.path) (string_bytes x.lines)) }
{
    match untyped(alloc, error.kind(), source)? {
        Some(value) => explain_part(alloc, error, source, &value, ty),
        None => explain_alone(alloc, error, source, ty),
    }
}

/// What `explain_untyped` shows of the refusal, in its parts.
pub fn untyped_explanation(
    alloc: Global,
    error: &ParserError,
    source: &str,
) -> Result<Explanation, AllocError>
    ensures { IfOk result (λ x. ExplainsUntyped source.now error.now x.mark (string_bytes x.path) (string_bytes x.lines)) }
{
    syntax_explanation(alloc, error, source, Reading::Value, "")
}

/// The explanation by the value that begins the source, read without a type.
fn explain_part<T: WasmType>(
    alloc: Global,
    error: &ParserError,
    source: &str,
    value: &UntypedValue<'_>,
    ty: &T,
) -> Result<Explanation, AllocError>
    requires prefix { IsPrefix source.now value.now }
    requires kind { is_of_type error.now.kind ≡ true }
    ensures { IfOk result (λ x. ExplainsValue source.now (T.tree ty.now) error.now x.mark (string_bytes x.path) (string_bytes x.lines)) }
{
    fault_explanation(alloc, error, source, value.node(), ty)
}

/// What `explain_value` shows of a fault of the value at the type, in its parts, by the node of the value: the
/// text isn't read again. The node was parsed from `source`, as a value.
pub fn fault_explanation<T: WasmType>(
    alloc: Global,
    error: &ParserError,
    source: &str,
    node: &Node,
    ty: &T,
) -> Result<Explanation, AllocError>
    requires { IsValueOf source.now node.now }
    ensures { IfOk result (λ x. ExplainsFault source.now node.now (T.tree ty.now) error.now x.mark (string_bytes x.path) (string_bytes x.lines)) }
{
    let mut path = String::new(alloc);
    let mut lines = String::new(alloc);
    let mark = report_part(alloc, error, source, node, ty, &mut path, &mut lines)?;
    Ok(Explanation { mark, path, lines })
}

/// The refusal of a text that is read without a type, as by `UntypedValue::parse`: what `explain` shows,
/// and beside it what might have stood there and hints how to mend it, on at most three lines that begin
/// with `=`. In a string or a char an escape that there isn't is marked, with its place, and not the
/// quote where no token begins; of a word that is wrong as a whole, as `0512`, all is marked:
///
/// ```text
/// unexpected token: Number at 3..4
///  --> line 1, column 4
///   | [1 2]
///   |    ^
///   = expected ',' or ']'
/// ```
///
/// The only error is out of memory.
pub fn explain_untyped(
    alloc: Global,
    error: &ParserError,
    source: &str,
) -> Result<String, AllocError>
    ensures { IfOk result (λ text. IsUntypedExplained source.now error.now (string_bytes text)) }
{
    explain_syntax(alloc, error, source, Reading::Value, "")
}

/// The refusal of a text that is read without a type, as a value or as a call, with these lines behind the
/// others.
pub(crate) fn explain_syntax(
    alloc: Global,
    error: &ParserError,
    source: &str,
    reading: Reading,
    more: &str,
) -> Result<String, AllocError>
    ensures { IfOk result (λ text. IsSyntaxExplained (TellsAs reading) source.now error.now (string_bytes text)) }
{
    let parts = syntax_explanation(alloc, error, source, reading, more)?;
    explained(alloc, error, source, &parts)
}

/// The explanation of such a refusal, in its parts.
pub(crate) fn syntax_explanation(
    alloc: Global,
    error: &ParserError,
    source: &str,
    reading: Reading,
    more: &str,
) -> Result<Explanation, AllocError>
    ensures { IfOk result (λ x. ExplainsSyntax (TellsAs reading) source.now error.now x.mark (string_bytes x.path) (string_bytes x.lines)) }
{
    let mut lines = syntax_lines(alloc, error, source, reading)?;
    lines.push_str(more)?;
    Ok(Explanation {
        mark: syntax_mark(error, source),
        path: String::new(alloc),
        lines,
    })
}

/// The text of an explanation.
pub(crate) fn explained(
    alloc: Global,
    error: &ParserError,
    source: &str,
    parts: &Explanation,
) -> Result<String, AllocError>
    ensures { IfOk result (λ text. IsBlock source.now (error_text error.now) parts.now.mark (string_bytes parts.now.path) (string_bytes parts.now.lines) (string_bytes text)) }
{
    let message = error.to_string(alloc)?;
    let mark = parts.mark.start..parts.mark.end;
    block(
        alloc,
        message.as_str(),
        mark,
        source,
        parts.path.as_str(),
        parts.lines.as_str(),
    )
}

/// The explanation where no part is looked for.
fn explain_alone<T: WasmType>(
    alloc: Global,
    error: &ParserError,
    source: &str,
    ty: &T,
) -> Result<Explanation, AllocError>
    requires { HasNoPart error.now.kind source.now }
    ensures { IfOk result (λ x. ExplainsValue source.now (T.tree ty.now) error.now x.mark (string_bytes x.path) (string_bytes x.lines)) }
{
    let at = part_mark(source, error.span(), None).start;
    let more = open_line(alloc, error.kind(), source, at, ty)?;
    syntax_explanation(alloc, error, source, Reading::Value, more.as_str())
}

/// The value that begins the source, read without a type, where the refusal is of a fault of type.
fn untyped(
    alloc: Global,
    kind: ParserErrorKind,
    source: &str,
) -> Result<Option<UntypedValue<'_>>, AllocError>
    ensures value { IfOk result (λ r. IfSome r (IsPrefix source.now)) }
    ensures kind { IfOk result (λ r. IfSome r (λ _. is_of_type kind ≡ true)) }
    ensures none { IfOk result (λ r. IfNone r (HasNoPart kind source.now)) }
{
    if !is_of_type(kind) {
        return Ok(None);
    }
    let mut parser = Parser::new(source).with_limit(MAX_LEVELS);
    match parser.parse_raw_value(alloc) {
        Ok(value) => Ok(Some(value)),
        Err(error) => match error.kind() {
            ParserErrorKind::OutOfMemory => Err(AllocError),
            _ => Ok(None),
        },
    }
}

/// Whether the kind is that of a fault of a value at its type.
pub fn is_of_type(kind: ParserErrorKind) -> bool
    ensures { result ≡ is_of_type kind }
{
    matches!(
        kind,
        ParserErrorKind::InvalidType
            | ParserErrorKind::InvalidValue
            | ParserErrorKind::InvalidEscape
            | ParserErrorKind::InvalidMultilineString
            | ParserErrorKind::DuplicateField
            | ParserErrorKind::WasmValueError
    )
}

/// Adds the path from the node to the part of it that is wrong, and the lines that say what is expected there;
/// what is to be marked.
pub(crate) fn report_part<T: WasmType>(
    alloc: Global,
    error: &ParserError,
    source: &str,
    node: &Node,
    ty: &T,
    path: &mut String,
    lines: &mut String,
) -> Result<Span, AllocError>
    requires lines { string_bytes lines.old ≡ [] }
    requires value { IsValueOf source.now node.now }
    ensures reported { IfOk result (λ _. (way : List ℕ) × (string_bytes path.new ≡ string_bytes path.old ++ way)
        × ReportsPart source.now error.now.span node.now (T.tree ty.now) way (string_bytes lines.new)) }
    ensures mark { IfOk result (λ mark. IsPartMark source.now error.now.span mark) }
{
    let span = error.span();
    let part = part_at(alloc, source, node, ty, &span, path)?;
    push_expected(alloc, lines, error, part.0, part.1)?;
    let hints = hints_of(alloc, error, source, part.0, part.1)?;
    lines.push_str(hints.lines.as_str())?;
    Ok(part_mark(source, span, hints.mark))
}

/// The name, where it is a whole one within the span; else the word that holds the span, where that is wrong,
/// or the span.
pub(crate) fn part_mark(source: &str, span: Span, name: Option<Span>) -> Span
    ensures { IsPartMark source.now span result }
{
    match name {
        Some(name) if span.start <= name.start && name.end <= span.end && is_name(source, &name) =>
            name,
        _ => match wrong_word(source, &span) {
            Some(word) => word,
            None => span,
        },
    }
}

/// The message, the place and the path, the line with the mark, and the lines.
pub(crate) fn block(
    alloc: Global,
    message: &str,
    mark: Span,
    source: &str,
    path: &str,
    lines: &str,
) -> Result<String, AllocError>
    ensures { IfOk result (λ text. IsBlock source.now message.now mark path.now lines.now (string_bytes text)) }
{
    let place = place_of(source, mark.start);
    let mut text = heading_with_path(alloc, message, &place, path)?;
    let marked = marked_of(place.rest, mark.end.saturating_sub(place.at));
    let shown = shown_lines(alloc, place.prefix, place.rest, marked)?;
    text.push_str(shown.as_str())?;
    text.push_str(lines)?;
    Ok(text)
}

/// The message, where it stands, and the path.
fn heading_with_path(
    alloc: Global,
    message: &str,
    place: &Place<'_>,
    path: &str,
) -> Result<String, AllocError>
    ensures { IfOk result (λ text. string_bytes text ≡ heading_with_path message.now place.now.line place.now.column path.now) }
{
    let before = before_path(path);
    format!(in alloc;
        "{message}\n --> line {}, column {}{before}{path}\n",
        place.line, place.column
    )
}

/// What stands before the path, where there is one.
fn before_path(path: &str) -> &'static str
    ensures { result.now ≡ before_path path.now }
{
    if path.is_empty() { "" } else { ", at " }
}
