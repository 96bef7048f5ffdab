//! The part that is open at a place of a text, also of one that can't be read.
use crate::call::push_parameter;
use std::alloc::{AllocError, Global};
use wave_expected::expected::{expected_at, expected_in_call_within};
use wave_lex::error::ParserErrorKind;
use wave_lex::lex::{Lexer, Span, Token};
use wave_place::path::{
    push_first, push_item, push_key, push_name, type_alone, type_of_case, type_of_field,
};
use wave_tree::parser::MAX_LEVELS;
use wave_wasm::wasm::{DisplayType, WasmFunc, WasmType, WasmTypeKind};

/// How many scalars of a type are shown.
const TYPE_SHOWN: usize = 60;

/// The line that says where in the value at the type the place is that was refused, and which type is expected
/// there; none where that is the whole value.
pub(crate) fn open_line<T: WasmType>(
    alloc: Global,
    kind: ParserErrorKind,
    source: &str,
    at: usize,
    ty: &T,
) -> Result<String, AllocError> {
    if !is_reported(kind) {
        return Ok(String::new(alloc));
    }
    let expected = expected_at(alloc, source, at, MAX_LEVELS)?;
    let mut path = String::new(alloc);
    let brackets = expected.open_brackets.as_slice();
    let expected_type = open_part(alloc, source, brackets, 0, at, ty, &mut path)?;
    type_line(alloc, source, at, path.as_str(), expected_type)
}

/// The line that says so of a call: the path begins with the parameter.
pub(crate) fn open_line_in_call<F: WasmFunc>(
    alloc: Global,
    kind: ParserErrorKind,
    source: &str,
    at: usize,
    func: &F,
) -> Result<String, AllocError> {
    let mut path = String::new(alloc);
    if !is_reported(kind) {
        return Ok(path);
    }
    let Some(expected) = expected_in_call_within(alloc, source, at, MAX_LEVELS)? else {
        return Ok(path);
    };
    let Some((first, inner)) = expected.open_brackets.as_slice().split_first() else {
        return Ok(path);
    };
    let end = match inner.first() {
        Some(bracket) => bracket.start,
        None => at,
    };
    let place = Passed::between(source, first.end, end);
    let types = func.params(alloc)?;
    if place.commas >= types.len() || inner.is_empty() && !place.is_needed {
        return Ok(path);
    }
    push_parameter(&mut path, &func.param_names(alloc)?, place.commas)?;
    let ty = types[place.commas];
    let expected_type = open_part(alloc, source, inner, first.end, at, ty, &mut path)?;
    type_line(alloc, source, at, path.as_str(), expected_type)
}

/// Whether a refusal of the kind stands in a part that is open.
fn is_reported(kind: ParserErrorKind) -> bool {
    matches!(
        kind,
        ParserErrorKind::InvalidToken
            | ParserErrorKind::UnexpectedToken
            | ParserErrorKind::UnexpectedEnd
    )
}

/// The line that says which type is expected at the path; none where that is empty. Where a string is expected and
/// no quote stands at the place, it says how one is written.
fn type_line<T: WasmType>(
    alloc: Global,
    source: &str,
    at: usize,
    path: &str,
    ty: &T,
) -> Result<String, AllocError> {
    let mut lines = String::new(alloc);
    if !path.is_empty() {
        let text = DisplayType::new(alloc, ty).to_string(alloc)?;
        lines.push_str("  = the type of ")?;
        lines.push_str(path)?;
        lines.push_str(" is ")?;
        push_first(&mut lines, text.as_str(), TYPE_SHOWN)?;
        let begins_string = source.get(at..source.len()).unwrap_or("").starts_with('"');
        if ty.kind() == WasmTypeKind::String && !begins_string {
            lines.push_str(", in double quotes")?;
        }
        lines.push_str("\n")?;
    }
    Ok(lines)
}

/// What is around a place.
#[derive(Clone, Copy)]
enum Around {
    /// Nothing: a whole value stands there.
    Nothing,
    /// The brackets of a list.
    List,
    /// The parentheses of a tuple.
    Tuple,
    /// The braces of a record, a map or flags.
    Braces,
    /// The parentheses of a payload.
    Payload,
}

/// The innermost part at the place that can be determined, of the type's value that begins at `start`, and its
/// type; the path to it is added. These brackets are open at the place.
fn open_part<'a, T: WasmType>(
    alloc: Global,
    source: &str,
    brackets: &[Span],
    start: usize,
    at: usize,
    ty: &'a T,
    path: &mut String,
) -> Result<&'a T, AllocError> {
    let mut around = Around::Nothing;
    let mut part = ty;
    let mut from = start;
    for bracket in brackets {
        let place = Passed::between(source, from, bracket.start);
        let Some(value) = value_at(alloc, around, part, &place, path)? else {
            return Ok(part);
        };
        let opening = source.get(bracket.start..bracket.end).unwrap_or("");
        let Some(entered) = enter(alloc, opening, place.word, value, path)? else {
            return Ok(value);
        };
        around = entered.0;
        part = entered.1;
        from = bracket.end;
    }
    let place = Passed::between(source, from, at);
    if !place.is_needed {
        return Ok(part);
    }
    match value_at(alloc, around, part, &place, path)? {
        Some(value) => Ok(value),
        None => Ok(part),
    }
}

/// What a word on one line has not in it.
const WHOLE: &[char] = &['{', '[', '(', '}', ']', ')', '"', '\n'];

/// The type of the value at the place within a part of the type, where that can be determined; the step to it is
/// added.
fn value_at<'a, T: WasmType>(
    alloc: Global,
    around: Around,
    ty: &'a T,
    place: &Passed<'_>,
    path: &mut String,
) -> Result<Option<&'a T>, AllocError> {
    match (around, place.key) {
        (Around::Nothing | Around::Payload, _) => Ok(Some(ty)),
        (Around::List, _) => {
            push_item(path, place.commas)?;
            Ok(ty.list_element_type())
        }
        (Around::Tuple, _) => {
            let types = ty.tuple_element_types(alloc)?;
            let Some(item_type) = types.get(place.commas).copied() else {
                return Ok(None);
            };
            push_item(path, place.commas)?;
            Ok(Some(item_type))
        }
        (Around::Braces, Some(key)) => {
            if let Some((_, value_type)) = ty.map_key_value_types() {
                push_key(path, key)?;
                return Ok(Some(value_type));
            }
            let name = key.strip_prefix('%').unwrap_or(key);
            let field_type = type_of_field(alloc, ty, name)?;
            if field_type.is_some() {
                push_name(path, name)?;
            }
            Ok(field_type)
        }
        (Around::Braces, None) => Ok(None),
    }
}

/// What is within the bracket that opens a value of the type, and of which type that is, where it fits; the
/// step to a payload is added.
fn enter<'a, T: WasmType>(
    alloc: Global,
    opening: &str,
    word: Option<&str>,
    ty: &'a T,
    path: &mut String,
) -> Result<Option<(Around, &'a T)>, AllocError> {
    if let Some(word) = word {
        return match payload_of(alloc, word, ty, path)? {
            Some(payload_type) => Ok(Some((Around::Payload, payload_type))),
            None => Ok(None),
        };
    }
    let ty = type_alone(ty).unwrap_or(ty);
    Ok(match opening {
        "[" if ty.list_element_type().is_some() => Some((Around::List, ty)),
        "{" => Some((Around::Braces, ty)),
        "(" => Some((Around::Tuple, ty)),
        _ => None,
    })
}

/// The type of the payload behind the word, where there is one; the step to it is added.
fn payload_of<'a, T: WasmType>(
    alloc: Global,
    word: &str,
    ty: &'a T,
    path: &mut String,
) -> Result<Option<&'a T>, AllocError> {
    let (ok, err) = ty.result_types().unwrap_or((None, None));
    let keyword_type = match word {
        "some" => ty.option_some_type(),
        "ok" => ok,
        "err" => err,
        _ => None,
    };
    if let Some(payload_type) = keyword_type {
        push_name(path, word)?;
        return Ok(Some(payload_type));
    }
    let name = word.strip_prefix('%').unwrap_or(word);
    let ty = type_alone(ty).unwrap_or(ty);
    let payload_type = type_of_case(alloc, ty, name)?;
    if payload_type.is_some() {
        push_name(path, name)?;
    }
    Ok(payload_type)
}

/// What was passed between an open bracket and a place within it, but for what is in brackets of its own.
#[derive(Drop)]
struct Passed<'source> {
    /// How many commas.
    commas: usize,
    /// The last token behind the last comma, which a payload may follow.
    word: Option<&'source str>,
    /// The last token before a colon there: the key, where a value is expected behind it or stands there.
    key: Option<&'source str>,
    /// Whether a value is expected at the place, as no token stands behind the last comma or colon, or the place is
    /// behind the word that a key has as its value on the same line.
    is_needed: bool,
}

impl<'source> Passed<'source> {
    /// What was passed between these two places of the source.
    fn between(source: &'source str, from: usize, to: usize) -> Passed<'source> {
        let mut passed = Passed {
            commas: 0,
            word: None,
            key: None,
            is_needed: true,
        };
        let mut depth = 0_usize;
        let mut lexer = Lexer::new(source.get(from..to).unwrap_or(""));
        while let Some(Ok(token)) = lexer.next() {
            match token {
                Token::BraceOpen | Token::ParenOpen | Token::BracketOpen => {
                    depth = depth.saturating_add(1);
                }
                Token::BraceClose | Token::ParenClose | Token::BracketClose => {
                    depth = depth.saturating_sub(1);
                }
                _ => {}
            }
            if depth == 0 {
                passed.note(token, lexer.slice());
            }
        }
        let behind_colon = source.get(from..to).unwrap_or("").rsplit_once(':');
        if let Some((_, value)) = behind_colon
            && passed.key.is_some()
            && !value.contains(WHOLE)
        {
            passed.is_needed = true;
        }
        passed
    }

    /// Notes a token of this text.
    fn note(&mut self, token: Token, text: &'source str) {
        match token {
            Token::Comma => {
                self.commas = self.commas.saturating_add(1);
                self.word = None;
                self.key = None;
                self.is_needed = true;
            }
            Token::Colon => {
                self.key = self.word.take();
                self.is_needed = true;
            }
            _ => {
                self.word = Some(text);
                self.is_needed = false;
            }
        }
    }
}
