//! The author's words, as they might be written instead.
ghost use Rattle.std.specs.Prelude.{◌≤◌};

use std::alloc::{AllocError, Global};
use wave_lex::lex::{Lexer, Token};
use wave_node::ast::{Node, NodeType};
use wave_place::path::push_first;
use wave_place::place::scalars;

/// How many scalars of a name, of a type or of the author's text are shown.
pub(crate) const SHOWN: usize = 40;

/// Which of the author's words a hint shows.
pub(crate) enum AuthorWords {
    /// None.
    Nothing,
    /// All.
    All,
    /// What is within brackets or quotes.
    Inside,
    /// The names within brackets.
    Names,
    /// A name without its `%`.
    Name,
    /// The case of the type.
    Case,
    /// `true` or `false` within quotes.
    Bool,
    /// One scalar, perhaps within quotes.
    Scalar,
    /// A whole number within quotes.
    Number,
    /// A number before a fraction of zeros alone.
    BeforePoint,
    /// A number without its underscores.
    BesideUnderscores,
    /// A number in groups of three digits, without the blanks between them.
    BesideBlanks,
    /// So, without the commas.
    BesideCommas,
    /// A number without the zeros before it.
    BehindZeros,
    /// A number, of which this is the hexadecimal, the octal or the binary form.
    Hexadecimal,
    Octal,
    Binary,
}

/// These words of the text, which is this value and names this case of the type, where there are such.
pub(crate) fn words_of<'a>(
    alloc: Global,
    which: &AuthorWords,
    text: &'a str,
    node: Option<&Node>,
    case: Option<&'a str>,
) -> Result<Option<String>, AllocError> {
    let words = match which {
        AuthorWords::Nothing => None,
        AuthorWords::All => Some(text),
        AuthorWords::Inside => Some(inside(text)),
        AuthorWords::Names => match node {
            Some(node) if are_names(node) => Some(inside(text)),
            _ => Some("name, name"),
        },
        AuthorWords::Name => Some(without_percent(text)),
        AuthorWords::Case => case,
        AuthorWords::Bool => match inside(text) {
            "true" => Some("true"),
            "false" => Some("false"),
            _ => None,
        },
        AuthorWords::Scalar => match text.strip_prefix('"') {
            Some(_) => one_scalar(inside(text)),
            None => one_scalar(text),
        },
        AuthorWords::Number => whole_number(inside(text)),
        AuthorWords::BeforePoint => before_point(text),
        AuthorWords::BesideUnderscores => return beside(alloc, text, '_'),
        AuthorWords::BesideBlanks => return beside(alloc, text, ' '),
        AuthorWords::BesideCommas => return beside(alloc, text, ','),
        AuthorWords::BehindZeros => match text.trim_start_matches('0') {
            "" => Some("0"),
            digits => Some(digits),
        },
        AuthorWords::Hexadecimal => return in_decimal(alloc, text, 16),
        AuthorWords::Octal => return in_decimal(alloc, text, 8),
        AuthorWords::Binary => return in_decimal(alloc, text, 2),
    };
    match words {
        Some(words) => Ok(Some(String::from_str(alloc, words)?)),
        None => Ok(None),
    }
}

/// Adds the author's text: of its first line at most so many scalars, and `…` where there is more.
pub(crate) fn push_author_words(lines: &mut String, text: &str) -> Result<(), AllocError> {
    let first = match text.split_once('\n') {
        Some((prefix, _)) => prefix.trim_end(),
        None => text,
    };
    push_first(lines, first, SHOWN)?;
    if first.len() < text.len() && scalars(first) <= SHOWN {
        lines.push('…')?;
    }
    Ok(())
}

/// The text without its first and its last byte, as those of brackets and quotes.
pub(crate) fn inside(text: &str) -> &str {
    text.get(1..text.len().saturating_sub(1)).unwrap_or("")
}

/// The name of a label.
pub(crate) fn without_percent(label: &str) -> &str {
    label.strip_prefix('%').unwrap_or(label)
}

/// What stands before the payload, or all where there is none.
pub(crate) fn word_before(text: &str) -> &str {
    match text.split_once('(') {
        Some((word, _)) => word.trim_end(),
        None => text,
    }
}

/// Whether the value is a list of names.
fn are_names(node: &Node) -> bool {
    let Ok(items) = node.as_list() else {
        return false;
    };
    for item in items {
        if item.ty() != NodeType::Label {
            return false;
        }
    }
    true
}

/// The text, where it is one scalar that stands for itself between single quotes.
fn one_scalar(text: &str) -> Option<&str> {
    if scalars(text) == 1 && text != "'" && text != "\\" {
        Some(text)
    } else {
        None
    }
}

/// The decimal digits.
pub(crate) const DECIMALS: &[char] = &['0', '1', '2', '3', '4', '5', '6', '7', '8', '9'];

/// Whether the text has digits alone, and some.
pub(crate) fn is_number(text: &str) -> bool {
    !text.is_empty() && text.trim_start_matches(DECIMALS).is_empty()
}

/// Whether the text is one token of the class.
pub(crate) fn is_token(text: &str, class: Token) -> bool {
    let mut lexer = Lexer::new(text);
    match lexer.next() {
        Some(Ok(token)) => token == class && lexer.slice().len() == text.len(),
        _ => false,
    }
}

/// The text, where it is a whole number as it is to be written.
fn whole_number(text: &str) -> Option<&str> {
    let digits = text.strip_prefix('-').unwrap_or(text);
    if is_number(digits) && (digits == "0" || !digits.starts_with('0')) {
        Some(text)
    } else {
        None
    }
}

/// The number before a fraction of zeros alone.
fn before_point(text: &str) -> Option<&str> {
    let (number, fraction) = text.split_once('.')?;
    if fraction.trim_matches('0').is_empty() {
        whole_number(number)
    } else {
        None
    }
}

/// The number without its underscores, blanks or commas, where it is a whole number then; blanks and commas
/// part groups of three digits.
fn beside(alloc: Global, word: &str, between: char) -> Result<Option<String>, AllocError> {
    let mut number = String::new(alloc);
    for part in word.split(between) {
        if between != '_' && !number.is_empty() && part.len() != 3 {
            return Ok(None);
        }
        number.push_str(part)?;
    }
    match whole_number(number.as_str()) {
        Some(_) => Ok(Some(number)),
        None => Ok(None),
    }
}

/// The number that the digits behind the first two bytes have in this base.
fn in_decimal(alloc: Global, word: &str, base: u32) -> Result<Option<String>, AllocError>
    requires { (2 ≤ base) × (base ≤ 36) }
{
    match u64::from_str_radix(word.get(2..).unwrap_or(""), base) {
        Ok(number) => Ok(Some(format!(in alloc; "{number}")?)),
        Err(_) => Ok(None),
    }
}
