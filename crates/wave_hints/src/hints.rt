//! How a fault of a value at its type may be mended.
use crate::author::{inside, is_token, without_percent, word_before};
use crate::names::{missing_line, push_names, push_quoted};
use crate::rows::{FORMS, LISTS, NUMBERS, PAYLOADS, SIGNED, UNSIGNED, line, row_hint};
use crate::word::{BESIDE_NAME, word_hint};
use std::alloc::{AllocError, Global};
use wave_lex::error::{ParserError, ParserErrorKind};
use wave_lex::lex::{Lexer, Span, Token};
use wave_node::ast::{Node, NodeType};
use wave_place::path::{type_alone, type_of_case, type_of_field};
use wave_place::place::place_of;
use wave_wasm::keyword::Keyword;
use wave_wasm::wasm::{DisplayType, WasmType, WasmTypeKind, WasmValueError};

/// At most two lines that say how the fault may be mended, and the name within the place that is wrong,
/// where there is one.
#[derive(Drop)]
pub struct Hints {
    /// The lines.
    pub lines: String,
    /// Where the name stands.
    pub mark: Option<Span>,
}

/// What helps against the refusal at the node, where a value of the type is expected.
pub fn hints_of<T: WasmType>(
    alloc: Global,
    error: &ParserError,
    source: &str,
    node: &Node,
    ty: &T,
) -> Result<Hints, AllocError> {
    let beside = if ty.kind() == WasmTypeKind::String {
        BESIDE_NAME
    } else {
        ""
    };
    let mut lines = word_hint(alloc, source, &node.span(), beside)?;
    if lines.is_empty() {
        match (error.cause(), error.kind(), ty.kind()) {
            (Some(WasmValueError::UnknownCase(_)), _, _)
            | (None, ParserErrorKind::InvalidValue, WasmTypeKind::Record) => {
                return unknown_name(alloc, error, source, node, ty);
            }
            (Some(WasmValueError::MissingField(name)), _, _) => {
                let unknown = unknown_name(alloc, error, source, node, ty)?;
                if unknown.mark.is_some() {
                    return Ok(unknown);
                }
                lines = missing_hint(alloc, name.as_str(), source, node.span().end, ty)?;
            }
            (Some(cause), _, _) => {
                lines = cause_hint(alloc, cause, text_at(source, &node.span()), ty)?;
            }
            _ => lines = hint_at(alloc, error, source, node, ty)?,
        }
    }
    Ok(Hints { lines, mark: None })
}

/// The escapes that there are.
pub const ESCAPES: &str =
    "the escapes are \\', \\\", \\\\, \\t, \\n, \\r and \\u{..} with the hexadecimal number of a character";

/// How a multiline string is written.
const MULTILINE: &str =
    "each line, an empty one too, begins with the spaces that stand before the closing \"\"\"; tabs are no spaces";

/// What helps against a refusal of this kind, whatever is refused.
pub fn kind_hint(kind: ParserErrorKind) -> &'static str {
    match kind {
        ParserErrorKind::EmptyTuple => "a tuple has at least one item",
        ParserErrorKind::DuplicateFlag => "a flag may be given only once",
        ParserErrorKind::DuplicateField => "a field may be given only once",
        ParserErrorKind::InvalidEscape => ESCAPES,
        ParserErrorKind::InvalidMultilineString => MULTILINE,
        _ => "",
    }
}

/// The text at the span.
fn text_at<'source>(source: &'source str, span: &Span) -> &'source str {
    source.get(span.start..span.end).unwrap_or("")
}

// ---- names

/// The name of a field, a case or a flag that the type hasn't, and those that it has.
fn unknown_name<T: WasmType>(
    alloc: Global,
    error: &ParserError,
    source: &str,
    node: &Node,
    ty: &T,
) -> Result<Hints, AllocError> {
    let mut lines = String::new(alloc);
    let (what, names) = names_of(alloc, ty)?;
    if let Some(WasmValueError::UnknownCase(name)) = error.cause() {
        push_names(alloc, &mut lines, what, name.as_str(), &names)?;
        let mark = label_of(source, node.span().start, name.as_str());
        return Ok(Hints { lines, mark });
    }
    let mark = unknown_key(source, node, &names);
    if let Some(span) = &mark {
        let name = without_percent(text_at(source, span));
        push_names(alloc, &mut lines, what, name, &names)?;
    }
    Ok(Hints { lines, mark })
}

/// What the names of the type are called, and these.
fn names_of<T: WasmType>(alloc: Global, ty: &T) -> Result<(&'static str, Vec<&str>), AllocError> {
    let mut names = Vec::new(alloc);
    match ty.kind() {
        WasmTypeKind::Flags => return Ok(("flag", ty.flags_names(alloc)?)),
        WasmTypeKind::Enum => return Ok(("case", ty.enum_cases(alloc)?)),
        WasmTypeKind::Record => {
            for (name, _) in &ty.record_fields(alloc)? {
                names.push(*name)?;
            }
            return Ok(("field", names));
        }
        _ => {
            for (name, _) in &ty.variant_cases(alloc)? {
                names.push(*name)?;
            }
            Ok(("case", names))
        }
    }
}

/// The first key of the record that is none of the names.
fn unknown_key(source: &str, node: &Node, names: &Vec<&str>) -> Option<Span> {
    let mut entries = node.as_map().ok()?;
    while let Some((key, _)) = entries.next() {
        let name = without_percent(text_at(source, &key.span()));
        if !names.contains(&name) {
            return Some(key.span());
        }
    }
    None
}

/// The names that stand in quotes as keys of the record, parted by commas.
fn quoted_keys(alloc: Global, source: &str, node: &Node) -> Result<String, AllocError> {
    let mut keys = String::new(alloc);
    let Ok(mut entries) = node.as_map() else {
        return Ok(keys);
    };
    while let Some((key, _)) = entries.next() {
        let text = text_at(source, &key.span());
        let name = inside(text);
        if text.starts_with('"') && is_token(name, Token::LabelOrKeyword) {
            if !keys.is_empty() {
                keys.push_str(", ")?;
            }
            keys.push_str(name)?;
        }
    }
    Ok(keys)
}

/// Where the first label of this name stands from this byte of the source on.
fn label_of(source: &str, start: usize, name: &str) -> Option<Span> {
    let mut lexer = Lexer::new(source.get(start..)?);
    while let Some(item) = lexer.next() {
        let is_label = matches!(item, Ok(Token::LabelOrKeyword));
        if is_label && without_percent(lexer.slice()) == name {
            let span = lexer.span();
            return Some(span.start.checked_add(start)?..span.end.checked_add(start)?);
        }
    }
    None
}

// ---- others

/// How the keys of a record are written, with their names.
const KEYS: &str = "the name of a field is a word without quotes: @";

/// What helps against a refusal without a cause.
fn hint_at<T: WasmType>(
    alloc: Global,
    error: &ParserError,
    source: &str,
    node: &Node,
    ty: &T,
) -> Result<String, AllocError> {
    let text = text_at(source, &node.span());
    let expected = Some(ty.kind());
    match (error.kind(), ty.kind(), node.ty()) {
        (ParserErrorKind::InvalidValue, _, _) => {
            row_hint(alloc, NUMBERS, text, None, expected, None)
        }
        (ParserErrorKind::InvalidType, WasmTypeKind::Record, NodeType::TupleSet) => {
            let keys = quoted_keys(alloc, source, node)?;
            let keys = if keys.is_empty() {
                None
            } else {
                Some(keys.as_str())
            };
            line(alloc, KEYS, keys)
        }
        (ParserErrorKind::InvalidType, _, _) => form_hint(alloc, source, node, ty),
        (ParserErrorKind::InvalidMultilineString, _, _) => multiline_hint(alloc, text),
        (kind, _, _) => line(alloc, kind_hint(kind), None),
    }
}

/// What helps with this text of a multiline string.
fn multiline_hint(alloc: Global, text: &str) -> Result<String, AllocError> {
    let (first, rest) = text.split_once('\n').unwrap_or(("", ""));
    if !first.trim_end().ends_with("\"\"\"") {
        return line(
            alloc,
            "the text begins on the line behind the opening \"\"\"",
            None,
        );
    }
    let last = match rest.rsplit_once('\n') {
        Some((_, last)) => last,
        None => rest,
    };
    let indent = last.trim_end_matches('"');
    let blanks = indent.trim_start_matches(' ');
    if blanks.contains('\t') && blanks.trim().is_empty() {
        return line(
            alloc,
            "a tab stands before the closing \"\"\": write spaces there",
            None,
        );
    }
    if !blanks.is_empty() {
        return line(
            alloc,
            "the closing \"\"\" stands on a line of its own",
            None,
        );
    }
    if indent.len() < 2 {
        return line(alloc, MULTILINE, None);
    }
    let count = format!(in alloc; "{}", indent.len())?;
    let hint =
        "each line, an empty one too, begins with the @ spaces before the closing \"\"\"; tabs are no spaces";
    line(alloc, hint, Some(count.as_str()))
}

/// What helps where the record that ends at the place lacks a field.
fn missing_hint<T: WasmType>(
    alloc: Global,
    name: &str,
    source: &str,
    end: usize,
    ty: &T,
) -> Result<String, AllocError> {
    let Some(field_type) = type_of_field(alloc, ty, name)? else {
        return Ok(String::new(alloc));
    };
    let mut what = String::new(alloc);
    push_quoted(&mut what, "the field ", name)?;
    let mut lines = missing_line(alloc, what.as_str(), field_type)?;
    if closes_more(source) {
        let place = place_of(source, end.saturating_sub(1));
        let place = format!(in alloc; "{}, column {}", place.line, place.column)?;
        let hint = "there are more } than {: this record ends at line @";
        lines.push_str(line(alloc, hint, Some(place.as_str()))?.as_str())?;
    }
    Ok(lines)
}

/// Whether more braces are closed than opened.
fn closes_more(source: &str) -> bool {
    let mut opened = 0_usize;
    let mut closed = 0_usize;
    let mut lexer = Lexer::new(source);
    while let Some(item) = lexer.next() {
        match item {
            Ok(Token::BraceOpen) => opened = opened.saturating_add(1),
            Ok(Token::BraceClose) => closed = closed.saturating_add(1),
            _ => {}
        }
    }
    closed > opened
}

/// How many scalars of the type are shown before the hints; beside a longer one the type of what is missing is told.
const EXPECTED_SHOWN: usize = 60;

/// What helps where the value of this text could not be made.
fn cause_hint<T: WasmType>(
    alloc: Global,
    cause: &WasmValueError,
    text: &str,
    ty: &T,
) -> Result<String, AllocError> {
    match cause {
        WasmValueError::MissingPayload(name) => {
            let payload = match ty.result_types() {
                Some((ok, err)) => if name.as_str() == "ok" { ok } else { err },
                None => type_of_case(alloc, ty, name.as_str())?,
            };
            let Some(payload) = payload else {
                return Ok(String::new(alloc));
            };
            let expected = Some(payload.kind());
            let mut lines = row_hint(alloc, PAYLOADS, text, None, expected, None)?;
            let whole = DisplayType::new(alloc, ty).to_string(alloc)?;
            if whole.len() > EXPECTED_SHOWN {
                let mut what = String::new(alloc);
                push_quoted(&mut what, "the payload of ", name.as_str())?;
                lines.push_str(missing_line(alloc, what.as_str(), payload)?.as_str())?;
            }
            Ok(lines)
        }
        WasmValueError::UnexpectedPayload(_) => line(
            alloc,
            "write @ alone, without a payload",
            Some(word_before(text)),
        ),
        WasmValueError::UnsupportedType(_) => line(
            alloc,
            "floats are not supported: no value of this type can be read",
            None,
        ),
        _ => Ok(String::new(alloc)),
    }
}

/// What helps where a value of another form is expected.
fn form_hint<T: WasmType>(
    alloc: Global,
    source: &str,
    node: &Node,
    ty: &T,
) -> Result<String, AllocError> {
    if let Some((ok, err)) = ty.result_types() {
        return result_hint(alloc, source, node, ok, err);
    }
    let text = text_at(source, &node.span());
    let case = match case_in(alloc, text, ty)? {
        Some(word) if Keyword::decode(word).is_some() => {
            if text.starts_with(word) {
                let hint = format!(in alloc; "{word} is a keyword: write %@")?;
                return line(alloc, hint.as_str(), Some(text));
            }
            None
        }
        case => case,
    };
    let expected = Some(ty.kind());
    row_hint(alloc, FORMS, text, Some(node), expected, case)
}

/// How a result is written that has these payloads: with the author's value, that in `some` where it is such,
/// as each payload that may be of its form.
fn result_hint<T: WasmType>(
    alloc: Global,
    source: &str,
    node: &Node,
    ok: Option<&T>,
    err: Option<&T>,
) -> Result<String, AllocError> {
    let value = match node.as_option() {
        Ok(Some(value)) => value,
        _ => node,
    };
    let mut hint = String::from_str(alloc, "a result is written ok")?;
    hint.push_str(payload_form(value.ty(), ok))?;
    hint.push_str(" or err")?;
    hint.push_str(payload_form(value.ty(), err))?;
    line(alloc, hint.as_str(), Some(text_at(source, &value.span())))
}

/// How a payload of the type is written, with `@` for a value of this form where it may be one.
fn payload_form<T: WasmType>(form: NodeType, payload: Option<&T>) -> &'static str {
    let Some(ty) = payload else {
        return "";
    };
    let kind = type_alone(ty).unwrap_or(ty).kind();
    let may_be = match form {
        NodeType::Number => UNSIGNED.contains(&kind) || SIGNED.contains(&kind),
        NodeType::String | NodeType::MultilineString => kind == WasmTypeKind::String,
        NodeType::Char => kind == WasmTypeKind::Char,
        NodeType::BoolTrue | NodeType::BoolFalse => kind == WasmTypeKind::Bool,
        NodeType::List => LISTS.contains(&kind),
        NodeType::Tuple => kind == WasmTypeKind::Tuple,
        NodeType::TupleSet => kind == WasmTypeKind::Record || kind == WasmTypeKind::Map,
        NodeType::Flags => kind == WasmTypeKind::Flags,
        _ => false,
    };
    if may_be { "(@)" } else { "(..)" }
}

/// The name of a case of the type that stands in quotes, before a payload or alone.
fn case_in<'a, T: WasmType>(
    alloc: Global,
    text: &'a str,
    ty: &T,
) -> Result<Option<&'a str>, AllocError> {
    let name = if text.starts_with('"') {
        inside(text)
    } else {
        word_before(text)
    };
    let is_case = match ty.kind() {
        WasmTypeKind::Enum => ty.has_enum_case(alloc, name)?,
        WasmTypeKind::Variant => ty.variant_case(alloc, name)?.is_some(),
        _ => false,
    };
    Ok(if is_case { Some(name) } else { None })
}
