//! How a text that spells no type may be mended.
use crate::expected::Expected;
use crate::rows::{BEHIND, CLOSING, MARKS, Spot, TYPES, WORDS, row_hint};
use std::alloc::{AllocError, Global};
use strsim::levenshtein;
use wave_hints::rows::{line, token_hint};
use wave_hints::word::word_hint;
use wave_lex::lex::{Lexer, Span};
use wave_place::place::place_of;

/// The lines that help with what is marked, where these are expected; none where none are known.
pub(crate) fn hints(
    alloc: Global,
    text: &str,
    mark: &Span,
    expected: &Expected,
) -> Result<String, AllocError> {
    let (before, rest) = text.split_at(text.floor_char_boundary(mark.start));
    let length = mark.end.saturating_sub(mark.start);
    let spot = Spot {
        marked: rest.get(0..length).unwrap_or(""),
        before: before.trim_end(),
    };
    let hint = hint_at(alloc, &spot, expected)?;
    if !hint.is_empty() {
        return Ok(hint);
    }
    let hint = word_hint(alloc, text, mark, "")?;
    if !hint.is_empty() {
        return Ok(hint);
    }
    token_hint(alloc, rest)
}

/// The line that helps at the place, by what is met and expected there.
fn hint_at(alloc: Global, spot: &Spot<'_>, expected: &Expected) -> Result<String, AllocError> {
    if spot.marked.is_empty() || spot.marked.starts_with(CLOSING) {
        let hint = unclosed(alloc, spot.before, spot.marked)?;
        if !hint.is_empty() {
            return Ok(hint);
        }
    }
    let hint = row_hint(alloc, WORDS, spot, expected)?;
    if !hint.is_empty() {
        return Ok(hint);
    }
    let hint = row_hint(alloc, MARKS, spot, expected)?;
    if !hint.is_empty() || spot.marked.is_empty() {
        return Ok(hint);
    }
    if expected.may_end {
        return row_hint(alloc, BEHIND, spot, expected);
    }
    if expected.reports_one(TYPES) && spot.is_word() {
        return unknown_type(alloc, spot.marked);
    }
    Ok(hint)
}

/// The words that types begin with.
const KINDS: [&str; 22] = [
    "bool", "char", "string", "s8", "s16", "s32", "s64", "u8", "u16", "u32", "u64", "f32", "f64",
    "list", "option", "result", "tuple", "record", "variant", "enum", "flags", "map",
];

/// How many edits lead at most from a word to one that may be meant.
const MOST_EDITS: usize = 2;

/// What helps where no type begins with the word.
fn unknown_type(alloc: Global, word: &str) -> Result<String, AllocError> {
    let Some(near) = nearest(alloc, word)? else {
        let mut lines = line(alloc, "unknown type \"@\"", Some(word))?;
        lines.push_str(
            "  = types: bool, char, string, s8 to s64, u8 to u64, f32, f64, list, option, result, tuple, record, variant, enum, flags, map\n",
        )?;
        return Ok(lines);
    };
    if near.eq_ignore_ascii_case(word) {
        return line(alloc, "types are in lower case: @", Some(near));
    }
    let hint = format!(in alloc; "unknown type \"@\"; did you mean \"{near}\"?")?;
    line(alloc, hint.as_str(), Some(word))
}

/// The word of a type that differs only in capitals; else the first of those that the fewest edits lead to, at most
/// two, and fewer than the word has bytes.
fn nearest(alloc: Global, word: &str) -> Result<Option<&'static str>, AllocError> {
    let mut best = None;
    let mut most = MOST_EDITS.min(word.len().saturating_sub(1));
    for kind in KINDS {
        if word.eq_ignore_ascii_case(kind) {
            return Ok(Some(kind));
        }
        if word.len().abs_diff(kind.len()) <= MOST_EDITS {
            let edits = levenshtein(alloc, word, kind)?;
            if 0 < edits && edits <= most {
                best = Some(kind);
                most = edits - 1;
            }
        }
    }
    Ok(best)
}

/// The line that says which bracket is the last that is open behind the text, where what comes then doesn't close
/// it.
fn unclosed(alloc: Global, text: &str, behind: &str) -> Result<String, AllocError> {
    let Some(span) = open_bracket(alloc, text)? else {
        return Ok(String::new(alloc));
    };
    let bracket = text.get(span.start..span.end).unwrap_or("");
    if matches!(
        (bracket, behind),
        ("{", "}") | ("(", ")") | ("[", "]") | ("<", ">")
    ) {
        return Ok(String::new(alloc));
    }
    let place = place_of(text, span.start);
    format!(in alloc;
        "  = the {bracket} at line {}, column {} is not closed\n",
        place.line, place.column
    )
}

/// The last bracket that is open behind the text.
fn open_bracket(alloc: Global, text: &str) -> Result<Option<Span>, AllocError> {
    let mut open = Vec::new(alloc);
    let mut lexer = Lexer::new(text);
    let mut behind_minus = false;
    while lexer.next().is_some() {
        let token = lexer.slice();
        match token {
            "{" | "(" | "[" | "<" => open.push(lexer.span())?,
            ">" if behind_minus => {}
            "}" | ")" | "]" | ">" => {
                open.pop();
            }
            _ => {}
        }
        behind_minus = token == "-";
    }
    Ok(open.pop())
}
