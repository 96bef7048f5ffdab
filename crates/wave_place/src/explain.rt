//! A refusal of a text, as a person is shown it.
ghost use Rattle.std.specs.Prelude.{◌≡◌, ◌<◌, ◌-◌, ◌++◌, max, take, drop, replicate, chars, codes, false, IfOk, string_bytes};
ghost use Rattle.std.specs.Fmt.{digits};
ghost use Rattle.wave_lex.specs.Errors.{error_text};
ghost use Rattle.wave_place.specs.Places.{heading, IsMarked, IsExplained};
ghost use Rattle.wave_place.specs.Shown.{is_invisible, shown_scalar, shown_text, shown_before, shown_after};
ghost use Rattle.wave_place.specs.Shown.{ellipsis, columns, shown_lines};

use crate::place::{Place, place_of, scalars};
use std::alloc::{AllocError, Global};
use std::fmt::Write;
use ucd_category::GeneralCategory;
use unicode_width::UnicodeWidthStr;
use wave_lex::error::ParserError;
use wave_lex::lex::Span;

/// How many scalars of a line are shown before the place, and how many from there on.
const SHOWN: usize = 48;

/// The refusal's text, the line and the column where it stands in the source that was refused, the line
/// itself, and a mark below the place:
///
/// ```text
/// invalid value at 4..7
///  --> line 1, column 5
///   | [1, 300]
///   |     ^^^
/// ```
///
/// The mark ends where the span or the line does, and is as wide as what it stands below. A long line is
/// truncated around the place, and its line end isn't shown. A tab is shown as one blank, another control
/// character as U+FFFD, and an invisible scalar, as a bidirectional control or a blank that isn't the
/// space, by its number, as `\u{200b}`. The only error is out of memory.
pub fn explain(alloc: Global, error: &ParserError, source: &str) -> Result<String, AllocError>
    ensures { IfOk result (λ text. IsExplained source.now (error_text error.now) error.now.span (string_bytes text)) }
{
    let message = error.to_string(alloc)?;
    explain_at(alloc, message.as_str(), error.span(), source)
}

/// The same for any refusal of a text: this message, and these bytes of the source.
pub fn explain_at(
    alloc: Global,
    message: &str,
    span: Span,
    source: &str,
) -> Result<String, AllocError>
    ensures { IfOk result (λ text. IsExplained source.now message.now span (string_bytes text)) }
{
    let place = place_of(source, span.start);
    let mut text = heading(alloc, message, &place)?;
    let marked = marked_of(place.rest, span.end.saturating_sub(place.at));
    let lines = shown_lines(alloc, place.prefix, place.rest, marked)?;
    text.push_str(lines.as_str())?;
    Ok(text)
}

/// The message, and where it stands.
fn heading(alloc: Global, message: &str, place: &Place<'_>) -> Result<String, AllocError>
    ensures { IfOk result (λ text. string_bytes text ≡ heading message.now place.now.line place.now.column) }
{
    format!(in alloc;
        "{message}\n --> line {}, column {}\n",
        place.line, place.column
    )
}

/// What is marked of the line from the place on: the scalars that end within its first `count` bytes.
pub fn marked_of(rest: &str, count: usize) -> &str
    ensures { IsMarked rest.now count result.now }
{
    rest.split_at(rest.floor_char_boundary(count)).0
}

/// The line, truncated around the place, and the mark below it.
pub fn shown_lines(
    alloc: Global,
    prefix: &str,
    rest: &str,
    marked: &str,
) -> Result<String, AllocError>
    ensures { IfOk result (λ text. string_bytes text ≡ shown_lines prefix.now rest.now marked.now) }
{
    let before = shown_before(alloc, prefix)?;
    let after = shown_after(alloc, rest)?;
    let marks = marks(alloc, before.as_str(), marked)?;
    format!(in alloc; "  | {before}{after}\n  | {marks}\n")
}

/// The line before the place: its last scalars.
fn shown_before(alloc: Global, prefix: &str) -> Result<String, AllocError>
    ensures { IfOk result (λ text. string_bytes text ≡ shown_before prefix.now) }
{
    let left_out = scalars(prefix).saturating_sub(SHOWN);
    let mut text = String::new(alloc);
    push_ellipsis(&mut text, left_out)?;
    push_shown(&mut text, prefix, left_out, SHOWN)?;
    Ok(text)
}

/// The line from the place on: its first scalars.
fn shown_after(alloc: Global, rest: &str) -> Result<String, AllocError>
    ensures { IfOk result (λ text. string_bytes text ≡ shown_after rest.now) }
{
    let mut text = String::new(alloc);
    push_shown(&mut text, rest, 0, SHOWN)?;
    push_ellipsis(&mut text, scalars(rest).saturating_sub(SHOWN))?;
    Ok(text)
}

/// The marks below the line: after what is shown before the place, as wide as what is marked.
fn marks(alloc: Global, before: &str, marked: &str) -> Result<String, AllocError>
    ensures { IfOk result (λ text. string_bytes text ≡
        replicate (columns before.now) 32 ++ replicate (max 1 (columns (shown_text (take 48 (chars marked.now))))) 94) }
{
    let mut below = String::new(alloc);
    push_shown(&mut below, marked, 0, SHOWN)?;
    let width = below.as_str().width().max(1);
    let mut text = String::new(alloc);
    push_times(&mut text, ' ', before.width())?;
    push_times(&mut text, '^', width)?;
    Ok(text)
}

/// Adds `…` where any scalar is left out.
pub fn push_ellipsis(to: &mut String, left_out: usize) -> Result<(), AllocError>
    ensures { IfOk result (λ _. string_bytes to.new ≡ string_bytes to.old ++ ellipsis left_out) }
{
    if left_out > 0 {
        to.push('…')?;
    }
    Ok(())
}

/// Adds the text's scalars, as they are shown: at most `most` of them after the first `skipped`.
pub fn push_shown(
    to: &mut String,
    text: &str,
    skipped: usize,
    most: usize,
) -> Result<(), AllocError>
    ensures { IfOk result (λ _. string_bytes to.new ≡
        string_bytes to.old ++ shown_text (take most (drop skipped (chars text.now)))) }
{
    let mut left_out = skipped;
    let mut room = most;
    'scalars: for scalar in text.chars() {
        if left_out > 0 {
            left_out -= 1;
        } else if room > 0 {
            room -= 1;
            push_scalar(to, scalar)?;
        }
    }
    Ok(())
}

/// Adds the scalar, as it is shown.
fn push_scalar(to: &mut String, scalar: char) -> Result<(), AllocError>
    ensures { IfOk result (λ _. string_bytes to.new ≡ string_bytes to.old ++ shown_scalar scalar) }
{
    match scalar {
        '\t' => to.push(' '),
        scalar if scalar.is_control() => to.push('\u{fffd}'),
        scalar if is_invisible(scalar) => push_number(to, scalar),
        scalar => to.push(scalar),
    }
}

/// Adds the number of the scalar, as `\u{h}`.
fn push_number(to: &mut String, scalar: char) -> Result<(), AllocError>
    ensures { IfOk result (λ _. string_bytes to.new
        ≡ string_bytes to.old ++ (codes "\\u{" ++ (digits 16 false scalar ++ codes "}"))) }
{
    match write!(to, "\\u{{{:x}}}", u32::from(scalar)) {
        Ok(()) => Ok(()),
        Err(_) => Err(AllocError),
    }
}

/// Whether the scalar can't be seen.
pub fn is_invisible(scalar: char) -> bool
    ensures { result ≡ is_invisible scalar }
{
    use GeneralCategory::*;
    match GeneralCategory::for_char(scalar) {
        Format | LineSeparator | ParagraphSeparator | SpaceSeparator => scalar != ' ',
        _ => false,
    }
}

/// Adds the ASCII character so many times.
#[tactic(auto, using(std::proofs::lemmas::Str::encode_ascii))]
fn push_times(to: &mut String, mark: char, count: usize) -> Result<(), AllocError>
    requires { mark < 128 }
    ensures { IfOk result (λ _. string_bytes to.new ≡ string_bytes to.old ++ replicate count mark) }
{
    'times: for _ in 0..count {
        to.push(mark)?;
    }
    Ok(())
}
