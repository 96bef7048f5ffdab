//! What stands between the quotes of a char or a string.
ghost use Rattle.std.specs.Prelude.{◌≡◌, ◌++◌, [], OnOk};
ghost use Rattle.std.specs.String.{string_bytes};
ghost use Rattle.wave_lex.specs.Parts.{part_text, left_of};
ghost use Rattle.wave_grammar.specs.StringAssembly.{CharIn};
ghost use Rattle.wave_grammar.specs.StringAssembly.{IsOutOfMemoryAt, IsUncopied, PutTogether};
ghost use Rattle.wave_grammar.specs.Private.StringAssembly.{IsEnded, IsAppended};

use std::alloc::{AllocError, Global};
use std::borrow::CowStr;
use wave_lex::error::{ParserError, ParserErrorKind};
use wave_lex::lex::Span;
use wave_lex::strings::{StringPart, StringPartsIter, unescape};

/// The scalar that stands between the quotes of a char: itself, or as an escape. None where
/// anything else stands there.
pub fn char_in(inside: &str) -> Option<char>
    ensures { CharIn inside.now result }
{
    let first = inside.chars().next()?;
    if first != '\\' {
        return if first.len_utf8() == inside.len() {
            Some(first)
        } else {
            None
        };
    }
    let (scalar, count) = unescape(inside)?;
    if count == inside.len() {
        Some(scalar)
    } else {
        None
    }
}

/// The parts, one after another; borrowed where that is nothing or one run. Out of memory is
/// refused at `place`.
pub fn joined<'a>(
    alloc: Global,
    parts: StringPartsIter<'a>,
    place: &Span,
) -> Result<CowStr<'a>, ParserError>
    ensures { PutTogether (IsUncopied (left_of parts.entry)) [] (left_of parts.entry) place.now result }
{
    let mut parts = parts;
    let most = parts.bytes_left();
    match parts.part() {
        None => match parts.end() {
            Ok(()) => Ok(CowStr::Borrowed("")),
            Err(error) => Err(error),
        },
        Some(StringPart::Run(run)) => behind_run(alloc, run, &mut parts, most, place),
        Some(StringPart::Char(c)) => {
            copied(alloc, "", StringPart::Char(c), &mut parts, most, place)
        }
    }
}

/// The run, and after it the parts; borrowed where these are none. A copy has room for `most` bytes
/// at first.
#[inline(always)]
fn behind_run<'a>(
    alloc: Global,
    run: &'a str,
    parts: &mut StringPartsIter<'a>,
    most: usize,
    place: &Span,
) -> Result<CowStr<'a>, ParserError>
    ensures { PutTogether (IsEnded (left_of parts.old)) run.now (left_of parts.old) place.now result }
{
    match parts.part() {
        None => match parts.end() {
            Ok(()) => Ok(CowStr::Borrowed(run)),
            Err(error) => Err(error),
        },
        Some(part) => copied(alloc, run, part, parts, most, place),
    }
}

/// A copy of the text before it, the part, and after it the parts. It has room for `most` bytes at
/// first.
fn copied<'a>(
    alloc: Global,
    prefix: &str,
    part: StringPart<'a>,
    parts: &mut StringPartsIter<'a>,
    most: usize,
    place: &Span,
) -> Result<CowStr<'a>, ParserError>
    ensures { PutTogether ⊥ (prefix.now ++ part_text part.entry) (left_of parts.old) place.now result }
{
    let Ok(mut text) = String::with_capacity(alloc, most) else {
        return Err(out_of_memory(place));
    };
    let Ok(()) = push_all(&mut text, prefix, part, parts) else {
        return Err(out_of_memory(place));
    };
    match parts.end() {
        Ok(()) => Ok(CowStr::Owned(text)),
        Err(error) => Err(error),
    }
}

/// The refusal for lack of memory.
#[cold]
#[inline(never)]
fn out_of_memory(place: &Span) -> ParserError
    ensures { IsOutOfMemoryAt place.now result }
{
    ParserError::new(ParserErrorKind::OutOfMemory, place.start..place.end)
}

/// The text before it, the part, and after it the parts that come.
#[inline(always)]
fn push_all<'a>(
    text: &mut String,
    prefix: &str,
    part: StringPart<'a>,
    parts: &mut StringPartsIter<'a>,
) -> Result<(), AllocError>
    ensures { OnOk result (IsAppended (left_of parts.old) (left_of parts.new)
        (string_bytes text.old ++ (prefix.now ++ part_text part.entry)) (string_bytes text.new)) }
{
    text.push_str(prefix)?;
    push_part(text, part)?;
    push_parts(text, parts)
}

/// The parts that come.
#[inline(always)]
fn push_parts(text: &mut String, parts: &mut StringPartsIter<'_>) -> Result<(), AllocError>
    ensures { OnOk result (IsAppended (left_of parts.old) (left_of parts.new) (string_bytes text.old) (string_bytes text.new)) }
{
    while let Some(part) = parts.part() {
        push_part(text, part)?;
    }
    Ok(())
}

/// One part more.
#[inline(always)]
fn push_part(text: &mut String, part: StringPart<'_>) -> Result<(), AllocError>
    ensures { OnOk result (string_bytes text.new ≡ string_bytes text.old ++ part_text part.entry) }
{
    match part {
        StringPart::Run(run) => text.push_str(run),
        StringPart::Char(c) => text.push(c),
    }
}
