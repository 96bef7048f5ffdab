//! How a fault of syntax may be mended.
ghost use Rattle.std.specs.Prelude.{◌≡◌, IfOk};
ghost use Rattle.std.specs.String.{string_bytes};
ghost use Rattle.wave_explain.specs.ValueExplained.{IsUnexpected, expectation, BeginWith};
ghost use Rattle.wave_explain.specs.Private.Readings.{MayStandAs, TellsAs};

use crate::escape::{fault_at, unknown_escape};
use crate::expected::push_line;
use crate::indent::misindented;
use std::alloc::{AllocError, Global};
use wave_expected::expected::{Expected, expected_at, expected_in_call_within};
use wave_hints::hints::{ESCAPES, kind_hint};
use wave_hints::rows::{line, token_hint};
use wave_hints::word::{BESIDE_NAME, word_hint};
use wave_lex::error::{ParserError, ParserErrorKind};
use wave_lex::lex::{FuncNameLexer, Lexer, Span, Token};
use wave_place::explain::is_invisible;
use wave_place::place::place_of;
use wave_tree::parser::MAX_LEVELS;

/// What a text is read as.
#[derive(Clone, Copy)]
pub(crate) enum Reading {
    /// A value.
    Value,
    /// A call.
    Call,
}

/// The lines beside a refusal of a text that has no value to be looked at: what might have stood there,
/// and a hint.
pub(crate) fn syntax_lines(
    alloc: Global,
    error: &ParserError,
    source: &str,
    reading: Reading,
) -> Result<String, AllocError>
    ensures { IfOk result (λ lines. IsUnexpected error.now.kind → BeginWith (TellsAs reading) source.now error.now.span.start (string_bytes lines)) }
{
    let hint = syntax_hint(alloc, error, source, reading)?;
    let mut lines = first_line(alloc, error, source, reading, hint.is_empty())?;
    lines.push_str(hint.as_str())?;
    Ok(lines)
}

/// The first line, which says what might have stood at an unexpected token or end, and at what is no token
/// where no hint is at hand; nothing beside other refusals.
fn first_line(
    alloc: Global,
    error: &ParserError,
    source: &str,
    reading: Reading,
    has_no_hint: bool,
) -> Result<String, AllocError>
    ensures { IfOk result (λ lines. IsUnexpected error.now.kind → TellsAs reading source.now error.now.span.start (string_bytes lines)) }
{
    match error.kind() {
        ParserErrorKind::UnexpectedToken | ParserErrorKind::UnexpectedEnd => {
            expected_line(alloc, source, error.span().start, reading)
        }
        ParserErrorKind::InvalidToken if has_no_hint => {
            expected_line(alloc, source, error.span().start, reading)
        }
        _ => Ok(String::new(alloc)),
    }
}

/// The line that says what might have stood at the place; nothing where nothing might, or where a call has no
/// name before it.
fn expected_line(
    alloc: Global,
    source: &str,
    at: usize,
    reading: Reading,
) -> Result<String, AllocError>
    ensures { IfOk result (λ lines. TellsAs reading source.now at (string_bytes lines)) }
{
    match expected_in(alloc, source, at, reading)? {
        Some(expected) => line_of(alloc, &expected),
        None => Ok(String::new(alloc)),
    }
}

/// The line that says what may stand there; nothing where nothing may.
#[tactic(auto, using(crate::proofs::Expecting::some_expected, crate::proofs::Expecting::none_expected))]
fn line_of(alloc: Global, expected: &Expected) -> Result<String, AllocError>
    ensures { IfOk result (λ lines. string_bytes lines ≡ expectation expected.now.classes.items expected.now.may_end) }
{
    let mut lines = String::new(alloc);
    if expected.classes.is_empty() && !expected.may_end {
        return Ok(lines);
    }
    let words = expected.words(alloc)?;
    push_line(&mut lines, words.as_str(), "")?;
    Ok(lines)
}

/// What might have stood at the place; none where a call has no name before it.
fn expected_in(
    alloc: Global,
    source: &str,
    at: usize,
    reading: Reading,
) -> Result<Option<Expected>, AllocError>
    ensures { IfOk result (MayStandAs reading source.now at) }
{
    match reading {
        Reading::Value => Ok(Some(expected_at(alloc, source, at, MAX_LEVELS)?)),
        Reading::Call => expected_in_call_within(alloc, source, at, MAX_LEVELS),
    }
}

/// How what was refused may be mended.
fn syntax_hint(
    alloc: Global,
    error: &ParserError,
    source: &str,
    reading: Reading,
) -> Result<String, AllocError> {
    let (_, rest) = source.split_at(source.floor_char_boundary(error.span().start));
    let begins_token = matches!(Lexer::new(rest).next(), Some(Ok(_)));
    if error.kind() == ParserErrorKind::TrailingCharacters && !begins_token {
        return invalid_token(alloc, source, &error.span(), reading);
    }
    let hint = whole_hint(error, source, reading);
    if !hint.is_empty() {
        let mut lines = line(alloc, hint, None)?;
        if rest.starts_with(BEHIND_WHOLE) {
            let why = misindented(alloc, source)?;
            lines.push_str(line(alloc, why.as_str(), None)?.as_str())?;
        }
        return Ok(lines);
    }
    match error.kind() {
        ParserErrorKind::UnexpectedEnd => unclosed(alloc, source, source.len(), reading),
        ParserErrorKind::OutOfMemory => Ok(String::new(alloc)),
        ParserErrorKind::InvalidToken => invalid_token(alloc, source, &error.span(), reading),
        ParserErrorKind::EmptyTuple | ParserErrorKind::DuplicateFlag => {
            line(alloc, kind_hint(error.kind()), None)
        }
        ParserErrorKind::UnexpectedToken | ParserErrorKind::TrailingCharacters => {
            let hint = beside_word(alloc, source, &error.span())?;
            if !hint.is_empty() {
                return Ok(hint);
            }
            misplaced_hint(alloc, source, error.span().start, reading)
        }
        _ => beside_word(alloc, source, &error.span()),
    }
}

// ---- the whole text

/// What helps with a text that is no call by its beginning, or that goes on behind what it is read as.
fn whole_hint(error: &ParserError, source: &str, reading: Reading) -> &'static str {
    let names_function = matches!(FuncNameLexer::new(source).next(), Some(Ok(_)));
    let place = place_of(source, error.span().start);
    let begins_line = place.line > 1 && place.prefix.trim().is_empty();
    let before = source.get(0..error.span().start).unwrap_or("");
    let has_closed = before.contains(CLOSING);
    match (error.kind(), reading) {
        (ParserErrorKind::UnexpectedEnd | ParserErrorKind::InvalidToken, Reading::Call)
            if !names_function => { "a call begins with the function's name" }
        (ParserErrorKind::TrailingCharacters, _) if place.rest.starts_with(CLOSING) => {
            "no bracket is open that this one closes"
        }
        (ParserErrorKind::TrailingCharacters, _) if place.rest.starts_with(',') && has_closed => {
            "all brackets are closed before this comma: is there one too many?"
        }
        (ParserErrorKind::TrailingCharacters, Reading::Call) if begins_line => ONE_CALL,
        (ParserErrorKind::TrailingCharacters, Reading::Value) if begins_line => ONE_VALUE,
        _ => "",
    }
}

/// That no second value stands in a text.
const ONE_VALUE: &str = "a text has only one value";

/// So of a call.
const ONE_CALL: &str = "a text has only one call";

/// The closing brackets.
const CLOSING: &[char] = &['}', ']', ')'];

/// What stands behind a whole value where a bracket before it is one too many.
const BEHIND_WHOLE: &[char] = &['}', ']', ')', ','];

// ---- misplaced tokens

/// What helps with a token that is none of those that may stand there.
fn misplaced_hint(
    alloc: Global,
    source: &str,
    at: usize,
    reading: Reading,
) -> Result<String, AllocError> {
    let (before, after) = source.split_at(source.floor_char_boundary(at));
    let hint = quote_hint(before, after);
    if !hint.is_empty() {
        return line(alloc, hint, None);
    }
    let Some(expected) = expected_in(alloc, source, at, reading)? else {
        return Ok(String::new(alloc));
    };
    let is_call = matches!(reading, Reading::Call);
    let Some(span) = expected.open_brackets.last() else {
        let only = if is_call { ONE_CALL } else { ONE_VALUE };
        let is_second = expected.may_end && !after.starts_with('=');
        return line(alloc, if is_second { only } else { "" }, None);
    };
    let bracket = source.get(span.start..span.end).unwrap_or("");
    let is_argument = is_call && expected.open_brackets.len() == 1;
    let hint = bracket_hint(bracket, is_argument, before.trim_end(), after, &expected);
    if !hint.is_empty() {
        return line(alloc, hint, None);
    }
    match (bracket, after.chars().next()) {
        ("{", Some(']' | ')')) | ("[", Some('}' | ')')) | ("(", Some('}' | ']')) => {
            unclosed(alloc, source, at, reading)
        }
        (_, Some(':' | '=' | ',' | '}' | ']' | ')')) => Ok(String::new(alloc)),
        _ if expected.contains(Token::Comma) => missing_comma(alloc, source, at),
        _ => Ok(String::new(alloc)),
    }
}

/// What helps with what stands between these texts in brackets that open so, perhaps those of a call, where these
/// are expected.
fn bracket_hint(
    bracket: &str,
    is_argument: bool,
    before: &str,
    after: &str,
    expected: &Expected,
) -> &'static str {
    let needs_colon = expected.contains(Token::Colon) && !expected.contains(Token::LabelOrKeyword);
    match (bracket, after.chars().next()) {
        ("(", Some(':' | '=')) if is_argument => {
            "arguments have no names: write their values alone, in order"
        }
        ("(", Some(':' | '=')) => {
            "a record is written in braces: {name: value}, as a payload name({name: value})"
        }
        ("[", Some(':' | '=')) => {
            "a map is written in braces: {key: value}; or a ] is missing before the name"
        }
        ("{", Some(':')) if ends_with_word(before) => {
            "a payload is written in parentheses: name(..), and a string in double quotes"
        }
        ("{", Some(',' | '}')) if needs_colon && !expected.contains(Token::Comma) => {
            "a colon and a value are missing, or the signs around a list [..], flags {name, name} or a string"
        }
        ("{", Some('{' | '[' | '(')) if before.ends_with(',') => {
            "a } is missing before this, or a name and a colon"
        }
        ("(", Some(',')) if !before.ends_with(BEFORE_VALUE) => {
            "a payload is one value; several are written as a tuple or a list: name((a, b)), name([a, b])"
        }
        (_, Some('{' | '[')) if ends_with_word(before) && expected.contains(Token::ParenOpen) => {
            "a payload is written in parentheses: name(..)"
        }
        ("{", Some('"' | '\'' | '0'..='9' | 'a'..='z' | 'A'..='Z' | '%')) if needs_colon => {
            "a colon stands between a name and its value, and a comma between flags"
        }
        _ => "",
    }
}

/// Where a comma is missing before what stands at the place; of words side by side, that they may be a string, of
/// three digits, that they may be of the number before them.
fn missing_comma(alloc: Global, source: &str, at: usize) -> Result<String, AllocError> {
    let mut end = 0;
    let mut lexer = Lexer::new(source.get(0..at).unwrap_or(""));
    while let Some(item) = lexer.next() {
        if item.is_ok() {
            end = lexer.span().end;
        }
    }
    let gap = source.get(end..at).unwrap_or("");
    let mut behind = Lexer::new(source.get(at..source.len()).unwrap_or(""));
    let first = behind.next();
    let is_group = matches!(first, Some(Ok(Token::Number))) && behind.slice().len() == 3;
    let begins_word = matches!(first, Some(Ok(Token::LabelOrKeyword)));
    let is_key = matches!(behind.next(), Some(Ok(Token::Colon)));
    let is_beside = ends_with_word(source.get(0..end).unwrap_or("")) && !gap.contains('\n');
    let or = if is_beside && begins_word && !is_key {
        ", or the double quotes of a string"
    } else if is_beside && is_group {
        ", or the space before these digits is one too many"
    } else {
        ""
    };
    let place = place_of(source, end);
    format!(in alloc;
        "  = a comma is missing at line {}, column {}{or}\n",
        place.line, place.column
    )
}

/// Behind which of these a value is expected.
const BEFORE_VALUE: &[char] = &['(', ','];

/// What helps where a quote and a word, or two quotes, stand side by side, and with an address.
fn quote_hint(before: &str, after: &str) -> &'static str {
    if after.starts_with("://") {
        return "a string is written in double quotes";
    }
    let begins_string = after.starts_with('"');
    if begins_string && ends_with_word(before) {
        return "a string is in double quotes as a whole: no word stands right before it";
    }
    let begins_word = match after.chars().next() {
        Some(scalar) => scalar.is_ascii_alphanumeric(),
        None => false,
    };
    if before.ends_with('"') && (begins_string || begins_word) {
        return "a double quote within a string is written \\\"";
    }
    ""
}

/// Whether a letter or a digit ends the text.
fn ends_with_word(text: &str) -> bool {
    match text.chars().next_back() {
        Some(scalar) => scalar.is_ascii_alphanumeric(),
        None => false,
    }
}

// ---- the end

/// The line that says which bracket is the last that is open at the place; at the end of the text also why, or
/// which others are open.
fn unclosed(
    alloc: Global,
    source: &str,
    at: usize,
    reading: Reading,
) -> Result<String, AllocError> {
    let Some(expected) = expected_in(alloc, source, at, reading)? else {
        return Ok(String::new(alloc));
    };
    let Some(span) = expected.open_brackets.last() else {
        return Ok(String::new(alloc));
    };
    let bracket = source.get(span.start..span.end).unwrap_or("");
    let place = place_of(source, span.start);
    let mut hint = format!(in alloc;
        "  = the {bracket} at line {}, column {} is not closed",
        place.line, place.column
    )?;
    if at == source.len() {
        let why = misindented(alloc, source)?;
        if why.is_empty() {
            push_others(alloc, source, &expected.open_brackets, &mut hint)?;
        } else {
            hint.push_str(": ")?;
            hint.push_str(why.as_str())?;
        }
    }
    hint.push_str("\n")?;
    Ok(hint)
}

/// How many brackets are named beside the last that is open.
const MOST_OTHERS: usize = 3;

/// Adds which brackets are open around the last one, the inner ones first.
fn push_others(
    alloc: Global,
    source: &str,
    brackets: &Vec<Span>,
    hint: &mut String,
) -> Result<(), AllocError> {
    let last = brackets.len().saturating_sub(1);
    for i in 0..last.min(MOST_OTHERS) {
        let span = &brackets[last - 1 - i];
        let bracket = source.get(span.start..span.end).unwrap_or("");
        let place = place_of(source, span.start);
        let other = format!(in alloc;
            ", nor the {bracket} at line {}, column {}",
            place.line, place.column
        )?;
        hint.push_str(other.as_str())?;
    }
    if last > MOST_OTHERS {
        hint.push_str(", nor others around them")?;
    }
    Ok(())
}

// ---- invalid tokens

/// What helps where no token begins.
fn invalid_token(
    alloc: Global,
    source: &str,
    span: &Span,
    reading: Reading,
) -> Result<String, AllocError> {
    let at = source.floor_char_boundary(span.start);
    if let Some(mark) = unknown_escape(source, at) {
        return escape_hint(alloc, source, at, mark);
    }
    let (before, after) = source.split_at(at);
    let mut hint = line(alloc, quote_hint(before, after), None)?;
    if hint.is_empty() && after.starts_with('=') {
        hint = misplaced_hint(alloc, source, at, reading)?;
    }
    if hint.is_empty() {
        hint = token_hint(alloc, after)?;
    }
    if !hint.is_empty() {
        return Ok(hint);
    }
    match after.chars().next() {
        Some(scalar) if is_invisible(scalar) => {
            line(alloc, "this is a character, which can't be seen", None)
        }
        Some(scalar) if !scalar.is_ascii() => {
            line(
                alloc,
                "a string is written in double quotes, and all else in ASCII",
                None,
            )
        }
        _ => beside_word(alloc, source, span),
    }
}

/// The lines of the escapes that there aren't in the string or the char at the place, of which this is the first.
fn escape_hint(alloc: Global, source: &str, at: usize, mark: Span) -> Result<String, AllocError> {
    let name = source.get(mark.start..mark.end).unwrap_or("");
    let behind = source.get(mark.end..source.len()).unwrap_or("");
    if name == "\\u" && behind.starts_with('{') {
        return line(
            alloc,
            "the braces of \\u{..} hold the number of a character, in one to six hexadecimal digits",
            None,
        );
    }
    let names = unknown_escapes(alloc, source, at)?;
    let several = names.as_str().contains(',');
    let hint = if several {
        "unknown escapes @"
    } else {
        "unknown escape @"
    };
    let digits = behind.get(0..4).unwrap_or("");
    if name == "\\u" && is_scalar(digits) {
        let others = if several { ", .." } else { "" };
        let hint = format!(in alloc; "{hint}: write \\u{{{digits}}}{others}")?;
        return line(alloc, hint.as_str(), Some(names.as_str()));
    }
    let mut lines = line(alloc, hint, Some(names.as_str()))?;
    lines.push_str(line(alloc, ESCAPES, None)?.as_str())?;
    Ok(lines)
}

/// The escapes that there aren't in the string or the char at the place, each once, parted by commas.
fn unknown_escapes(alloc: Global, source: &str, at: usize) -> Result<String, AllocError> {
    let mut names = Vec::new(alloc);
    let mut text = String::new(alloc);
    let quote = source.as_bytes().get(at).copied().unwrap_or(0);
    let mut rest = source.get(at.saturating_add(1)..source.len()).unwrap_or("");
    for _ in 0..source.len() {
        let Some(offset) = fault_at(rest, quote) else {
            return Ok(text);
        };
        rest = rest.get(offset..rest.len()).unwrap_or("");
        let behind = rest.get(1..rest.len()).unwrap_or("");
        let digits = rest.get(2..6).unwrap_or("");
        let length = match behind.chars().next() {
            Some('u') if is_scalar(digits) => 6,
            Some(scalar) if scalar != '\n' => scalar.len_utf8().saturating_add(1),
            _ => return Ok(text),
        };
        let name = rest.get(0..length).unwrap_or("");
        if !names.contains(&name) {
            if !names.is_empty() {
                text.push_str(", ")?;
            }
            text.push_str(name)?;
            names.push(name)?;
        }
        rest = rest.get(length..rest.len()).unwrap_or("");
    }
    Ok(text)
}

/// Whether these hexadecimal digits are the number of a character.
fn is_scalar(digits: &str) -> bool {
    match u32::from_str_radix(digits, 16) {
        Ok(number) => char::from_u32(number).is_some() && !digits.starts_with('+'),
        Err(_) => false,
    }
}

// ---- words

/// What helps with the word at the place, or with the parentheses around it.
fn beside_word(alloc: Global, source: &str, span: &Span) -> Result<String, AllocError> {
    let (before, after) = source.split_at(source.floor_char_boundary(span.start));
    if after.starts_with(')') && before.trim_end().ends_with('(') {
        return line(
            alloc,
            "the parentheses are empty: write a value in them, or the name without them",
            None,
        );
    }
    word_hint(alloc, source, span, BESIDE_NAME)
}
