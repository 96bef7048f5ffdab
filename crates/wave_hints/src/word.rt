//! A word that is wrong as a whole, as `0512`, `True` and `not_found`.
ghost use Rattle.std.specs.Prelude.{ℕ, ◌≡◌, ◌≤◌, ◌<◌, ◌-◌, length, IfSome, IsTrue, ◌↔◌, slice_index};
ghost use Rattle.wave_hints.specs.WordMarks.{IsOfWord, IsWordMark, IsName};

use crate::author::{DECIMALS, is_number, push_author_words};
use crate::rows::{DIGITS, KEYWORDS, line, row_for, row_hint};
use std::alloc::{AllocError, Global};
use wave_lex::lex::Span;

/// Before which of these an unquoted text of several words ends.
const TEXT_ENDS: &[char] = &['\r', '\n', ',', ')', ']', '}'];

/// What tells that words are no text.
const NOT_IN_TEXT: &[char] = &[':', '(', '[', '{', '"', '\'', '\\', '@'];

/// What is said beside a name in kebab-case where a string may be meant.
pub const BESIDE_NAME: &str = "; a string is written in double quotes: \"@\"";

/// What helps with the word that holds the span; no line where the word isn't wrong. Beside a name in kebab-case
/// this is said, with the text that begins with the word where `@` stands, but not of a word before a colon or a
/// payload.
pub fn word_hint(
    alloc: Global,
    source: &str,
    span: &Span,
    beside: &str,
) -> Result<String, AllocError> {
    let Some(place) = wrong_word(source, span) else {
        return Ok(String::new(alloc));
    };
    let word = source.get(place.start..place.end).unwrap_or("");
    if word.starts_with(DECIMALS) {
        let text = text_around(source, place.start);
        return row_hint(alloc, DIGITS, text, None, None, None);
    }
    let hint = row_hint(alloc, KEYWORDS, word, None, None, None)?;
    let name = kebab(alloc, word)?;
    let name = name.as_str().trim_end_matches('-');
    if !hint.is_empty() || name.is_empty() || name.starts_with(DECIMALS) {
        return Ok(hint);
    }
    let mut hint = String::from_str(alloc, "names are in kebab-case: ")?;
    push_author_words(&mut hint, name)?;
    let behind = source.get(place.end..source.len()).unwrap_or("");
    if !behind.trim_start().starts_with(BEHIND_NAME) {
        hint.push_str(beside)?;
    }
    let rest = source.get(place.start..source.len()).unwrap_or("");
    let text = rest
        .split_once(TEXT_ENDS)
        .unwrap_or((rest, ""))
        .0
        .trim_end();
    let shown = if text.contains(NOT_IN_TEXT) {
        word
    } else {
        text
    };
    line(alloc, hint.as_str(), Some(shown))
}

/// Before which of these an unquoted text ends.
const ENDS: &[char] = &[
    ' ', '\t', '\r', '\n', ',', ')', ']', '}', '(', '[', '{', '"', '\'',
];

/// Behind which of these an unquoted text begins.
const BEGINNINGS: &[char] = &[
    ' ', '\t', '\r', '\n', ',', ')', ']', '}', '(', '[', '{', '"', '\'', ':',
];

/// What stands behind a name that can be no string.
const BEHIND_NAME: &[char] = &[':', '('];

/// The digits of a number and the blanks between groups of them.
const BLANK_GROUPS: &[char] = &['0', '1', '2', '3', '4', '5', '6', '7', '8', '9', ' '];

/// So, with commas between them.
const COMMA_GROUPS: &[char] = &['0', '1', '2', '3', '4', '5', '6', '7', '8', '9', ','];

/// What stands between groups of digits.
const BETWEEN_GROUPS: &[char] = &[' ', ','];

/// What the word at the place, which begins with a digit, is of: a number in groups of three digits, or a text
/// without quotes.
fn text_around(source: &str, at: usize) -> &str {
    let before = source.get(0..at).unwrap_or("");
    let after = source.get(at..source.len()).unwrap_or("");
    let head = after.split_once(ENDS).unwrap_or((after, "")).0;
    let (between, groups) = if before.ends_with(',') {
        (',', COMMA_GROUPS)
    } else {
        (' ', BLANK_GROUPS)
    };
    let number = before.trim_end_matches(between);
    if number.len() < before.len()
        && number.ends_with(DECIMALS)
        && head.len() == 3
        && is_number(head)
    {
        let start = number.trim_end_matches(groups).trim_end_matches('-').len();
        let end = source
            .len()
            .saturating_sub(after.trim_start_matches(groups).len());
        let text = source.get(start..end).unwrap_or("");
        return text.trim_matches(BETWEEN_GROUPS);
    }
    let start = match before.rsplit_once(BEGINNINGS) {
        Some((_, tail)) => before.len().saturating_sub(tail.len()),
        None => 0,
    };
    let end = at.saturating_add(head.trim_end_matches(':').len());
    source.get(start..end).unwrap_or("")
}

/// The whole word that holds the span, where that is wrong: a number that is written otherwise, with a unit or
/// as part of a text, or a name or a keyword with an underscore or with letters of both cases.
pub fn wrong_word(source: &str, span: &Span) -> Option<Span>
    ensures { IfSome result (IsWordMark source.now span.now) }
{
    let place = word_around(source, span)?;
    let word = source.get(place.start..place.end)?;
    if is_wrong(word) { Some(place) } else { None }
}

/// The word around the start of the span, where that holds the span.
fn word_around(source: &str, span: &Span) -> Option<Span>
    ensures { IfSome result (IsWordMark source.now span.now) }
{
    let bytes = source.as_bytes();
    if span.end <= span.start || span.end > bytes.len() {
        return None;
    }
    let start = word_start(bytes, span.start);
    let end = word_end(bytes, span.start);
    if span.end <= end {
        Some(start..end)
    } else {
        None
    }
}

/// Whether a whole word stands at the span, perhaps with the `%` before it.
pub fn is_name(source: &str, span: &Span) -> bool
    ensures { IsTrue result → IsName source.now span.now }
{
    let bytes = source.as_bytes();
    let is_escaped = span.start < bytes.len() && bytes[span.start] == b'%';
    let start = if is_escaped {
        span.start + 1
    } else {
        span.start
    };
    match word_around(source, &(start..span.end)) {
        Some(word) => word.start == start && word.end == span.end,
        None => false,
    }
}

/// Where the bytes begin that stand before the place and may be of a word.
fn word_start(bytes: &[u8], at: usize) -> usize
    requires { at ≤ length bytes.now }
    ensures before { result ≤ at }
    ensures word { (i : ℕ) → result ≤ i → i < at → IsOfWord (slice_index bytes.now i) }
    ensures begins { 0 < result → IsOfWord (slice_index bytes.now (result - 1)) → ⊥ }
{
    let mut start = at;
    'bytes: while start > 0 {
        if !is_of_word(bytes[start - 1]) {
            return start;
        }
        start -= 1;
    }
    start
}

/// Where the bytes end that stand from the place on and may be of a word.
fn word_end(bytes: &[u8], at: usize) -> usize
    requires { at ≤ length bytes.now }
    ensures within { (at ≤ result) × (result ≤ length bytes.now) }
    ensures word { (i : ℕ) → at ≤ i → i < result → IsOfWord (slice_index bytes.now i) }
    ensures ends { result < length bytes.now → IsOfWord (slice_index bytes.now result) → ⊥ }
{
    for i in at..bytes.len() {
        if !is_of_word(bytes[i]) {
            return i;
        }
    }
    bytes.len()
}

/// Whether the byte may be of a word, which is meant for a name or a number.
fn is_of_word(byte: u8) -> bool
    ensures { IsTrue result ↔ IsOfWord byte }
{
    matches!(byte, b'0'..=b'9' | b'A'..=b'Z' | b'a'..=b'z' | b'_' | b'-')
}

/// Whether the word is neither a number nor a name: it has an underscore, or a part with letters of both cases.
fn is_wrong(word: &str) -> bool {
    if word.starts_with(DECIMALS) {
        return row_for(DIGITS, word, None, None).is_some();
    }
    let mut has_small = false;
    let mut has_capital = false;
    for scalar in word.chars() {
        if scalar == '-' {
            has_small = false;
            has_capital = false;
        }
        has_small = has_small || scalar.is_ascii_lowercase();
        has_capital = has_capital || scalar.is_ascii_uppercase();
        if scalar == '_' || has_small && has_capital {
            return true;
        }
    }
    false
}

/// The name in kebab-case: words in small letters, parted by `-`.
fn kebab(alloc: Global, word: &str) -> Result<String, AllocError> {
    let mut name = String::new(alloc);
    let mut small = false;
    for scalar in word.chars() {
        if scalar == '_' || scalar == '-' {
            small = false;
            if !name.is_empty() && !name.as_str().ends_with('-') {
                name.push('-')?;
            }
        } else {
            if scalar.is_ascii_uppercase() && small {
                name.push('-')?;
            }
            small = !scalar.is_ascii_uppercase();
            name.push(scalar.to_ascii_lowercase())?;
        }
    }
    Ok(name)
}
