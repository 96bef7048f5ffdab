//! What is told of a fault in a file.
ghost use Rattle.std.specs.Prelude.{◌≡◌, IfOk, string_bytes};
ghost use Rattle.wave_explain.specs.ValueExplained.{before_path};
ghost use Rattle.wave_commands.specs.Reports.{IsBlockIn, IsShortLine, IsJsonLine, IsReport, heading_in_file, line_in_file, json_line, place_members, text_members};

use std::alloc::{AllocError, Global};
use wave_explain::value::Explanation;
use wave_files::answers::FileName;
use wave_files::json::json_string;
use wave_lex::error::ParserError;
use wave_lex::lex::Span;
use wave_place::explain::{marked_of, shown_lines};
use wave_place::place::{Place, place_of};

/// How the faults of a file are told.
#[derive(Clone, Copy, Debug, PartialEq, Eq)]
pub enum Style {
    /// Each by its explanation, over lines.
    Blocks,
    /// Each on a line.
    Short,
    /// Each as an object of JSON, on a line.
    Json,
}

/// What is told of the fault in the file of this name, which is explained so.
pub fn report(
    alloc: Global,
    style: Style,
    name: &FileName,
    source: &str,
    error: &ParserError,
    parts: &Explanation,
) -> Result<String, AllocError>
    ensures { IfOk result (λ text. IsReport style name.now source.now error.now parts.now.mark (string_bytes parts.now.path) (string_bytes parts.now.lines) (string_bytes text)) }
{
    let message = error.to_string(alloc)?;
    match style {
        Style::Blocks => block_in(alloc, name.shown.as_str(), source, message.as_str(), parts),
        Style::Short => short_line(alloc, name.shown.as_str(), source, message.as_str(), parts),
        Style::Json => json_report(alloc, name.path.as_str(), source, error, parts),
    }
}

/// The message, the place in the file and the path, the line with the mark, and the lines.
fn block_in(
    alloc: Global,
    name: &str,
    source: &str,
    message: &str,
    parts: &Explanation,
) -> Result<String, AllocError>
    ensures { IfOk result (λ text. IsBlockIn name.now source.now message.now parts.now.mark (string_bytes parts.now.path) (string_bytes parts.now.lines) (string_bytes text)) }
{
    let place = place_of(source, parts.mark.start);
    let mut text = heading_in_file(alloc, name, message, &place, parts.path.as_str())?;
    let marked = marked_of(place.rest, parts.mark.end.saturating_sub(place.at));
    let shown = shown_lines(alloc, place.prefix, place.rest, marked)?;
    text.push_str(shown.as_str())?;
    text.push_str(parts.lines.as_str())?;
    Ok(text)
}

/// The message, the place in the file, and the path.
fn heading_in_file(
    alloc: Global,
    name: &str,
    message: &str,
    place: &Place<'_>,
    path: &str,
) -> Result<String, AllocError>
    ensures { IfOk result (λ text. string_bytes text ≡ heading_in_file name.now message.now place.now.line place.now.column path.now) }
{
    let before = before_path(path);
    format!(in alloc;
        "{message}\n --> {name}:{}:{}{before}{path}\n",
        place.line, place.column
    )
}

/// What stands before the path, where there is one.
fn before_path(path: &str) -> &'static str
    ensures { result.now ≡ before_path path.now }
{
    if path.is_empty() { "" } else { ", at " }
}

/// The place in the file, and the message.
fn short_line(
    alloc: Global,
    name: &str,
    source: &str,
    message: &str,
    parts: &Explanation,
) -> Result<String, AllocError>
    ensures { IfOk result (λ text. IsShortLine name.now source.now message.now parts.now.mark (string_bytes text)) }
{
    let place = place_of(source, parts.mark.start);
    line_in_file(alloc, name, message, &place)
}

/// The place and the message on a line.
fn line_in_file(
    alloc: Global,
    name: &str,
    message: &str,
    place: &Place<'_>,
) -> Result<String, AllocError>
    ensures { IfOk result (λ text. string_bytes text ≡ line_in_file name.now message.now place.now.line place.now.column) }
{
    format!(in alloc; "{name}:{}:{}: {message}\n", place.line, place.column)
}

/// The fault as an object of JSON.
fn json_report(
    alloc: Global,
    name: &str,
    source: &str,
    error: &ParserError,
    parts: &Explanation,
) -> Result<String, AllocError>
    ensures { IfOk result (λ text. IsJsonLine name.now source.now error.now parts.now.mark (string_bytes parts.now.path) (string_bytes parts.now.lines) (string_bytes text)) }
{
    let kind = error.kind().to_string(alloc)?;
    let message = error.to_string(alloc)?;
    let place = place_of(source, parts.mark.start);
    let span = error.span();
    json_line(
        alloc,
        name,
        kind.as_str(),
        message.as_str(),
        &place,
        &span,
        parts.path.as_str(),
        parts.lines.as_str(),
    )
}

/// The members of the object, in order.
fn json_line(
    alloc: Global,
    name: &str,
    kind: &str,
    message: &str,
    place: &Place<'_>,
    span: &Span,
    path: &str,
    lines: &str,
) -> Result<String, AllocError>
    ensures { IfOk result (λ text. string_bytes text ≡
        json_line name.now kind.now message.now place.now.line place.now.column span.now path.now lines.now) }
{
    let name = json_string(alloc, name)?;
    let places = place_members(alloc, place, span)?;
    let texts = text_members(alloc, path, kind, message, lines)?;
    format!(in alloc; "{{\"file\":{name}{places}{texts}}}\n")
}

/// The members that tell the place and the span.
fn place_members(alloc: Global, place: &Place<'_>, span: &Span) -> Result<String, AllocError>
    ensures { IfOk result (λ text. string_bytes text ≡ place_members place.now.line place.now.column span.now) }
{
    format!(in alloc;
        ",\"line\":{},\"column\":{},\"start\":{},\"end\":{}",
        place.line, place.column, span.start, span.end
    )
}

/// The members that tell the path, the kind, the message and the lines.
fn text_members(
    alloc: Global,
    path: &str,
    kind: &str,
    message: &str,
    lines: &str,
) -> Result<String, AllocError>
    ensures { IfOk result (λ text. string_bytes text ≡ text_members path.now kind.now message.now lines.now) }
{
    let path = json_string(alloc, path)?;
    let kind = json_string(alloc, kind)?;
    let message = json_string(alloc, message)?;
    let notes = json_string(alloc, lines)?;
    format!(in alloc; ",\"path\":{path},\"kind\":{kind},\"message\":{message},\"notes\":{notes}")
}
