//! Hints as rows: what is met, where which types are expected, which of the author's words are shown, and
//! what is said.
use crate::author::{AuthorWords, DECIMALS, is_number, is_token, push_author_words, words_of};
use AuthorWords::*;
use Met::*;
use std::alloc::{AllocError, Global};
use wave_lex::lex::Token;
use wave_node::ast::{Node, NodeType as Form};
use wave_wasm::wasm::WasmTypeKind as Kind;

/// What is met.
pub(crate) enum Met {
    /// Anything.
    Any,
    /// A value of one of these forms.
    Value(&'static [Form]),
    /// One of these texts.
    Text(&'static [&'static str]),
    /// A text that begins with this one.
    Start(&'static str),
    /// A text that begins with one of these scalars.
    First(&'static [char]),
    /// A text that has one of these scalars in it.
    Part(&'static [char]),
    /// Digits with a zero before them.
    LeadingZero,
    /// Digits with a name behind them, as that of a unit.
    Unit,
    /// What is no number.
    NoNumber,
}

/// A hint: what is met; the kinds of types that are expected there, or none for any; which of the author's
/// words are shown where `@` stands; and what is said, where what follows the first colon is left out if
/// there are no such words.
pub(crate) struct Row(Met, &'static [Kind], AuthorWords, &'static str);

/// Rows, each on a line.
macro_rules! rows {
    ($($met:expr, $expected:expr, $words:expr, $hint:expr;)*) => {
        &[$(Row($met, $expected, $words, $hint)),*]
    };
}

impl Row {
    /// Whether the hint is meant for this text, which is this value, where a type of this kind is expected.
    fn fits(&self, text: &str, node: Option<&Node>, expected: Option<Kind>) -> bool {
        let is_met = match &self.0 {
            Any => true,
            Value(forms) => match node {
                Some(node) => forms.contains(&node.ty()),
                None => false,
            },
            Text(texts) => texts.contains(&text),
            Start(start) => text.starts_with(*start),
            First(scalars) => text.starts_with(*scalars),
            Part(scalars) => text.contains(*scalars),
            LeadingZero => text.len() > 1 && text.starts_with('0') && is_number(text),
            Unit => {
                let unit = text.trim_start_matches(DECIMALS);
                let has_digits = unit.len() < text.len();
                has_digits
                    && is_token(unit, Token::LabelOrKeyword)
                    && !is_token(text, Token::Number)
            }
            NoNumber => !is_token(text, Token::Number),
        };
        let is_expected = match expected {
            Some(kind) => self.1.contains(&kind),
            None => false,
        };
        is_met && (is_expected || self.1.is_empty())
    }
}

/// The first row that is meant for this.
pub(crate) fn row_for<'a>(
    rows: &'a [Row],
    text: &str,
    node: Option<&Node>,
    expected: Option<Kind>,
) -> Option<&'a Row> {
    for row in rows {
        if row.fits(text, node, expected) {
            return Some(row);
        }
    }
    None
}

/// The line of the first hint that is meant for this, of which the text names this case of the type; none where
/// that says nothing.
pub(crate) fn row_hint<'a>(
    alloc: Global,
    rows: &[Row],
    text: &'a str,
    node: Option<&Node>,
    expected: Option<Kind>,
    case: Option<&'a str>,
) -> Result<String, AllocError> {
    let Some(row) = row_for(rows, text, node, expected) else {
        return Ok(String::new(alloc));
    };
    match words_of(alloc, &row.2, text, node, case)? {
        Some(words) => line(alloc, row.3, Some(words.as_str())),
        None => line(alloc, row.3, None),
    }
}

/// A line of this hint, with these words where `@` stands in it, or what it says before the first colon; no
/// line for an empty one.
pub fn line(alloc: Global, hint: &str, words: Option<&str>) -> Result<String, AllocError> {
    let mut line = String::new(alloc);
    if hint.is_empty() {
        return Ok(line);
    }
    line.push_str("  = ")?;
    match words {
        Some(words) => {
            for (i, part) in hint.split('@').enumerate() {
                if i > 0 {
                    push_author_words(&mut line, words)?;
                }
                line.push_str(part)?;
            }
        }
        None if hint.contains('@') => line.push_str(hint.split_once(": ").unwrap_or((hint, "")).0)?,
        None => line.push_str(hint)?,
    }
    line.push_str("\n")?;
    Ok(line)
}

/// What helps where no token begins with this text.
pub fn token_hint(alloc: Global, text: &str) -> Result<String, AllocError> {
    row_hint(alloc, TOKENS, text, None, None, None)
}

// ---- what is met and expected

const STRINGS: &[Form] = &[Form::String, Form::MultilineString];

const CASES: &[Kind] = &[Kind::Variant, Kind::Enum];

pub(crate) const LISTS: &[Kind] = &[Kind::List, Kind::FixedLengthList];

const BRACES: &[Kind] = &[Kind::Record, Kind::Map, Kind::Flags];

pub(crate) const UNSIGNED: &[Kind] = &[Kind::U8, Kind::U16, Kind::U32, Kind::U64];

pub(crate) const SIGNED: &[Kind] = &[Kind::S8, Kind::S16, Kind::S32, Kind::S64];

/// Values of one word, which may stand in quotes.
const WORDS: &[Form] = &[
    Form::Label,
    Form::Number,
    Form::BoolTrue,
    Form::BoolFalse,
    Form::OptionNone,
];

/// Names of a value that there is not.
const NULLS: &[&str] = &["null", "NULL", "nil", "NIL", "NONE", "undefined"];

// ---- hints

const NO_NULL: &str = "there is no null; where an option is expected, write none";

const NO_NULL_BOOL: &str = "there is no null; a bool is true or false, and an option may be none";

/// Where a value of another form is expected.
pub(crate) const FORMS: &[Row] = rows! {
    Text(NULLS), &[Kind::Bool], Nothing, NO_NULL_BOOL;
    Text(NULLS), &[Kind::Record, Kind::Flags], Nothing, NO_NULL;
    Value(STRINGS), CASES, Case, "a case is written without quotes: @";
    Value(&[Form::VariantWithPayload]), CASES, Case, "a case of an enum has no payload: @";
    Value(&[Form::TupleSet]), &[Kind::Variant], Nothing, "a payload is written in parentheses behind its case: name(..)";
    Any, CASES, Nothing, "";
    Value(&[Form::EmptySet]), &[Kind::Record], Nothing, "an empty record is written {:}";
    Value(&[Form::Flags]), &[Kind::Record], Nothing, "each field has a value: {name: value}";
    Any, &[Kind::Record], Nothing, "a record is written in braces: {name: value}";
    Text(&["{:}"]), &[Kind::Flags], Nothing, "empty flags are written {}";
    Value(&[Form::TupleSet]), &[Kind::Flags], Nothing, "flags are names, without values: {name, name}";
    Value(&[Form::List]), &[Kind::Flags], Names, "flags are written in braces: {@}";
    Value(&[Form::Label]), &[Kind::Flags], All, "flags are written in braces: {@}";
    Any, &[Kind::Flags], Nothing, "flags are written in braces: {name, name}";
    Text(NULLS), &[], Nothing, NO_NULL;
    Start("error("), &[], Nothing, "the error of a result is written err(..)";
    Value(STRINGS), &[Kind::Bool], Bool, "a bool is written true or false, without quotes: @";
    Any, &[Kind::Bool], Nothing, "a bool is written true or false";
    Value(STRINGS), SIGNED, Number, "a number is written in digits, without quotes: @";
    Value(STRINGS), UNSIGNED, Number, "a number is written in digits, without quotes: @";
    Any, &[Kind::Char], Scalar, "a char is written in single quotes: '@'";
    Value(WORDS), &[Kind::String], Name, "a string is written in double quotes: \"@\"";
    Any, &[Kind::String], Nothing, "a string is written in double quotes";
    Text(&["error", "failure", "fail"]), &[], Nothing, "where a result is expected, its error is written err(..)";
    Value(&[Form::Flags]), &[Kind::Map], Nothing, "each key has a value: {key: value}";
    Any, &[Kind::Map], Nothing, "a map is written in braces: {key: value}";
    Value(&[Form::Tuple]), LISTS, Inside, "a list is written in brackets: [@]";
    Any, LISTS, Nothing, "a list is written in brackets: [item, item]";
    Value(&[Form::List]), &[Kind::Tuple], Inside, "a tuple is written in parentheses: (@)";
    Any, &[Kind::Tuple], Nothing, "a tuple is written in parentheses: (item, item)";
    Any, &[Kind::Option], All, "this option is written some(@) or none";
};

/// Where the type has no such number.
pub(crate) const NUMBERS: &[Row] = rows! {
    Text(&["inf", "-inf", "nan"]), &[], Nothing, "inf and nan are not whole numbers";
    Part(&['.', 'e', 'E']), &[], BeforePoint, "a whole number is written without a fraction or an exponent: @";
    Start("-"), UNSIGNED, Nothing, "an unsigned number has no minus sign";
};

/// Where a case has a payload of the kind, with `..` for what is in it.
pub(crate) const PAYLOADS: &[Row] = rows! {
    Any, LISTS, All, "write @([..])";
    Any, &[Kind::Tuple], All, "write @((..))";
    Any, BRACES, All, "write @({..})";
    Any, &[Kind::String], All, "write @(\"..\")";
    Any, &[], All, "write @(..)";
};

/// Words that begin with a digit, and are wrong.
pub(crate) const DIGITS: &[Row] = rows! {
    Start("0x"), &[], Hexadecimal, "numbers are written in decimal, not in hexadecimal: @";
    Start("0X"), &[], Hexadecimal, "numbers are written in decimal, not in hexadecimal: @";
    Start("0b"), &[], Binary, "numbers are written in decimal, not in binary: @";
    Start("0B"), &[], Binary, "numbers are written in decimal, not in binary: @";
    Start("0o"), &[], Octal, "numbers are written in decimal, not in octal: @";
    Start("0O"), &[], Octal, "numbers are written in decimal, not in octal: @";
    Part(&['_']), &[], BesideUnderscores, "a number has no underscores: @";
    Part(&[' ']), &[], BesideBlanks, "a number has no spaces in it: @";
    Part(&[',']), &[], BesideCommas, "a number has no commas in it: @";
    LeadingZero, &[], BehindZeros, "a number has no leading zero: @";
    Unit, &[], All, "a number has no unit; a string is written in double quotes: \"@\"";
    NoNumber, &[], All, "a string is written in double quotes: \"@\"";
};

/// Words that are meant for keywords.
pub(crate) const KEYWORDS: &[Row] = rows! {
    Text(&["Null"]), &[], Nothing, NO_NULL;
    Text(&["None"]), &[], Nothing, "keywords are in lower case: none";
    Text(&["Some"]), &[], Nothing, "keywords are in lower case: some";
    Text(&["Ok"]), &[], Nothing, "keywords are in lower case: ok";
    Text(&["Err"]), &[], Nothing, "keywords are in lower case: err";
    Text(&["Error"]), &[], Nothing, "names are in kebab-case: error; the error of a result is written err(..)";
    Text(&["True"]), &[], Nothing, "keywords are in lower case: true";
    Text(&["False"]), &[], Nothing, "keywords are in lower case: false";
};

/// What begins no token.
const TOKENS: &[Row] = rows! {
    Start("\"\"\""), &[], Nothing, "the multiline string isn't closed: \"\"\" on a line of its own ends it";
    Start("\""), &[], Nothing, "the string isn't closed on its line; a string of several lines is written in \"\"\"";
    Start("'"), &[], Nothing, "a char is one character in single quotes; a string is written in double quotes";
    First(&['‘', '’', '“', '”', '„', '«', '»', '`']), &[], Nothing, "write straight quotes: \"text\", 'c'";
    Start("+"), &[], Nothing, "a number has no plus sign, and sums are not worked out";
    Start("="), &[], Nothing, "a colon stands between a name and its value: {name: value}";
    Text(&[";", ";\n"]), &[], Nothing, "no ; stands behind a value";
    Start(";"), &[], Nothing, "values are separated by commas, and a comment begins with //";
    Start("#"), &[], Nothing, "a comment begins with //";
    Start("--"), &[], Nothing, "a comment begins with //";
    Start("/*"), &[], Nothing, "a comment begins with // and ends with its line";
    Start("/"), &[], Nothing, "a string is written in double quotes, and a comment begins with //";
    Start("|"), &[], Nothing, "flags are written in braces, with commas between them: {name, name}";
    Start("%"), &[], Nothing, "a number has no percent sign; % stands only right before a name";
    Start("."), &[], Nothing, "a number has digits on both sides of its point; a string is written in double quotes";
    Start("-"), &[], Nothing, "a - stands right before the digits of a number, or between the letters of a name";
    Start("*"), &[], Nothing, "products are not worked out; a string is written in double quotes";
    First(&['\u{2010}', '\u{2011}', '\u{2012}', '\u{2013}', '\u{2014}', '\u{2212}']), &[], Nothing, "this is no hyphen of ASCII: write -";
    First(&['@', '$', '~', '<', '>', '&', '!', '?', '^', '\\']), &[], Nothing, "a string is written in double quotes";
    Start("\u{feff}"), &[], Nothing, "this is a byte order mark, U+FEFF, which can't be seen";
    Start("\u{200b}"), &[], Nothing, "this is a zero-width space, U+200B, which can't be seen";
    Start("\u{200c}"), &[], Nothing, "this is a zero-width non-joiner, U+200C, which can't be seen";
    Start("\u{200d}"), &[], Nothing, "this is a zero-width joiner, U+200D, which can't be seen";
    Start("\u{2060}"), &[], Nothing, "this is a word joiner, U+2060, which can't be seen";
    Start("\u{ad}"), &[], Nothing, "this is a soft hyphen, U+00AD, which can't be seen";
    Start("\u{a0}"), &[], Nothing, "this is a no-break space, U+00A0, which can't be seen";
    Start("\u{202f}"), &[], Nothing, "this is a narrow no-break space, U+202F, which can't be seen";
    Start("\u{3000}"), &[], Nothing, "this is an ideographic space, U+3000, which can't be seen";
};
