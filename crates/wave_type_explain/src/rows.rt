//! Hints as rows: what is met, where which classes are expected, which words of the text are shown, and what
//! is said.
use crate::expected::Class::*;
use crate::expected::{Class, Expected};
use Met::*;
use Shown::*;
use std::alloc::{AllocError, Global};
use wave_hints::rows::line;

/// What is met at the place.
enum Met {
    /// Anything.
    Any,
    /// One of these words, in small or in capital letters.
    Word(&'static [&'static str]),
    /// Any word.
    AnyWord,
    /// A text that begins with one of these scalars.
    First(&'static [char]),
    /// A bracket that closes, right behind this word and the one that opens its parts.
    Empty(&'static str),
    /// The end.
    End,
}

/// Which word stands where `@` does.
enum Shown {
    /// None.
    Nothing,
    /// The last word before the place, or `T` where there is none.
    Before,
}

/// A hint: what is met; one of the classes that are expected there, none for any; which word is shown; and what is
/// said.
pub(crate) struct Row(Met, &'static [Class], Shown, &'static str);

/// Rows, each on a line.
macro_rules! rows {
    ($($met:expr, $expected:expr, $shown:expr, $hint:expr;)*) => {
        &[$(Row($met, $expected, $shown, $hint)),*]
    };
}

/// A place of a text.
#[derive(Clone, Copy)]
pub(crate) struct Spot<'text> {
    /// What is marked there.
    pub(crate) marked: &'text str,
    /// The text before it, without whitespace at its end.
    pub(crate) before: &'text str,
}

impl<'text> Spot<'text> {
    /// Whether a word is marked.
    pub(crate) fn is_word(&self) -> bool {
        self.marked.starts_with(LETTERS)
    }

    /// The last word before the place.
    fn last_word(&self) -> &'text str {
        let head = self.before.trim_end_matches(WORD);
        self.before.get(head.len()..self.before.len()).unwrap_or("")
    }

    /// Whether the place is right behind the bracket that opens the parts of this word.
    fn opens(&self, word: &str) -> bool {
        let head = self.before.trim_end_matches(OPENING);
        head.len() < self.before.len() && head.trim_end().ends_with(word)
    }
}

impl Row {
    /// Whether the hint is meant for this place, where these are expected.
    fn fits(&self, spot: &Spot<'_>, expected: &Expected) -> bool {
        let is_met = match &self.0 {
            Any => true,
            Word(words) => is_one_of(words, spot.marked),
            AnyWord => spot.is_word(),
            First(scalars) => spot.marked.starts_with(*scalars),
            Empty(word) => spot.marked.starts_with(CLOSING) && spot.opens(*word),
            End => spot.marked.is_empty(),
        };
        is_met && (self.1.is_empty() || expected.reports_one(self.1))
    }
}

/// Whether the word is one of these, in small or in capital letters.
fn is_one_of(words: &[&str], word: &str) -> bool {
    for other in words {
        if word.eq_ignore_ascii_case(*other) {
            return true;
        }
    }
    false
}

/// The line of the first hint that is meant for this place; none where there is none.
pub(crate) fn row_hint(
    alloc: Global,
    rows: &[Row],
    spot: &Spot<'_>,
    expected: &Expected,
) -> Result<String, AllocError> {
    for row in rows {
        if row.fits(spot, expected) {
            let word = match row.2 {
                Nothing => "",
                Before => spot.last_word(),
            };
            let shown = if word.is_empty() { "T" } else { word };
            return line(alloc, row.3, Some(shown));
        }
    }
    Ok(String::new(alloc))
}

// ---- what is met and expected

const OPENING: &[char] = &['{', '(', '<', '['];

pub(crate) const CLOSING: &[char] = &['}', ')', '>', ']'];

const LETTERS: &[char] = &[
    'a', 'b', 'c', 'd', 'e', 'f', 'g', 'h', 'i', 'j', 'k', 'l', 'm', 'n', 'o', 'p', 'q', 'r', 's',
    't', 'u', 'v', 'w', 'x', 'y', 'z', 'A', 'B', 'C', 'D', 'E', 'F', 'G', 'H', 'I', 'J', 'K', 'L',
    'M', 'N', 'O', 'P', 'Q', 'R', 'S', 'T', 'U', 'V', 'W', 'X', 'Y', 'Z', '%',
];

/// What a word consists of.
const WORD: &[char] = &[
    'a', 'b', 'c', 'd', 'e', 'f', 'g', 'h', 'i', 'j', 'k', 'l', 'm', 'n', 'o', 'p', 'q', 'r', 's',
    't', 'u', 'v', 'w', 'x', 'y', 'z', 'A', 'B', 'C', 'D', 'E', 'F', 'G', 'H', 'I', 'J', 'K', 'L',
    'M', 'N', 'O', 'P', 'Q', 'R', 'S', 'T', 'U', 'V', 'W', 'X', 'Y', 'Z', '0', '1', '2', '3', '4',
    '5', '6', '7', '8', '9', '-',
];

const DIGITS: &[char] = &['0', '1', '2', '3', '4', '5', '6', '7', '8', '9', '-'];

/// What stands in values, in names or in other languages, but in no type.
const SIGNS: &[char] = &['.', '@', '$', '~', '!', '^', '\\', '+', '&', '*'];

const QUOTES: &[char] = &['"', '\''];

/// Where a type may stand.
pub(crate) const TYPES: &[Class] = &[AnyType, KeyType];

/// What may stand behind a part.
const BEHIND_PART: &[Class] = &[Comma, AngleClose, BraceClose, ParenClose];

// ---- hints

/// Words that no type begins with, where one is expected.
pub(crate) const WORDS: &[Row] = rows! {
    Word(&["i8", "int8", "int8_t", "sbyte"]), TYPES, Nothing, "the signed whole numbers are s8, s16, s32 and s64: write s8";
    Word(&["i16", "int16", "int16_t", "short"]), TYPES, Nothing, "the signed whole numbers are s8, s16, s32 and s64: write s16";
    Word(&["i32", "int32", "int32_t", "sint32"]), TYPES, Nothing, "the signed whole numbers are s8, s16, s32 and s64: write s32";
    Word(&["i64", "int64", "int64_t", "sint64", "long"]), TYPES, Nothing, "the signed whole numbers are s8, s16, s32 and s64: write s64";
    Word(&["i128", "u128", "int128", "uint128", "bigint"]), TYPES, Nothing, "whole numbers have at most 64 bits: s64, or u64 without a sign";
    Word(&["int", "integer", "isize", "number"]), TYPES, Nothing, "the whole numbers are s8, s16, s32 and s64, and without a sign u8, u16, u32 and u64";
    Word(&["byte", "uint8", "uint8_t", "octet"]), TYPES, Nothing, "a byte is u8";
    Word(&["uint16", "uint16_t", "ushort"]), TYPES, Nothing, "the whole numbers without a sign are u8, u16, u32 and u64: write u16";
    Word(&["uint32", "uint32_t"]), TYPES, Nothing, "the whole numbers without a sign are u8, u16, u32 and u64: write u32";
    Word(&["uint64", "uint64_t", "ulong"]), TYPES, Nothing, "the whole numbers without a sign are u8, u16, u32 and u64: write u64";
    Word(&["uint", "unsigned", "usize", "natural"]), TYPES, Nothing, "the whole numbers without a sign are u8, u16, u32 and u64";
    Word(&["float", "float32", "single"]), TYPES, Nothing, "this type is f32, which has no values here";
    Word(&["double", "float64", "real"]), TYPES, Nothing, "this type is f64, which has no values here";
    Word(&["f8", "f16", "f128", "decimal"]), TYPES, Nothing, "the floats are f32 and f64, which have no values here";
    Word(&["f32", "f64"]), &[KeyType], Nothing, "the keys of a map are no floats";
    Word(&["list", "option", "result", "tuple", "record", "variant", "enum", "flags", "map"]), &[KeyType], Nothing, "the keys of a map have no parts";
    Word(&["boolean"]), TYPES, Nothing, "write bool";
    Word(&["str", "text", "varchar"]), TYPES, Nothing, "write string";
    Word(&["character", "rune", "codepoint"]), TYPES, Nothing, "write char";
    Word(&["bytes", "blob", "binary", "buffer"]), TYPES, Nothing, "bytes are written list<u8>";
    Word(&["vec", "vector", "array", "slice", "seq", "sequence"]), TYPES, Nothing, "a list is written list<T>";
    Word(&["optional", "maybe", "nullable"]), TYPES, Nothing, "an option is written option<T>";
    Word(&["either", "expected"]), TYPES, Nothing, "a result is written result<T, E>";
    Word(&["struct", "object", "class", "dataclass"]), TYPES, Nothing, "a record is written record {name: T}";
    Word(&["union", "oneof", "one-of", "choice", "sum", "case"]), TYPES, Nothing, "a variant is written variant {name, name(T)}";
    Word(&["dict", "dictionary", "hashmap", "btreemap", "mapping"]), TYPES, Nothing, "a map is written map<K, V>";
    Word(&["set", "hashset", "btreeset"]), TYPES, Nothing, "there is no type of sets: write list<T>, or flags {name, name} of the names that there are";
    Word(&["void", "unit", "null", "nil", "none", "nothing"]), TYPES, Nothing, "there is no type without values; in result<_, E> the _ stands for no payload";
    Word(&["any", "value", "json", "dynamic"]), TYPES, Nothing, "there is no type of all values; a variant has a case for each type: variant {name(T), name(U)}";
    Word(&["own", "borrow", "resource", "future", "stream", "error-context"]), TYPES, Nothing, "values of resources, futures and streams have no text";
    Word(&["func", "function", "fn"]), TYPES, Nothing, "the type of a function is no type of values";
    Word(&["type", "typedef", "alias"]), TYPES, Nothing, "the type alone is written, as it stands behind =";
};

/// What is met in place of what is expected.
pub(crate) const MARKS: &[Row] = rows! {
    First(&['#']), &[], Nothing, "a comment begins with //";
    First(&['/']), &[], Nothing, "a comment begins with // and ends with its line";
    Empty("record"), &[Name], Nothing, "a record has at least one field: record {name: T}";
    Empty("variant"), &[Name], Nothing, "a variant has at least one case: variant {name, name(T)}";
    Empty("enum"), &[Name], Nothing, "an enum has at least one case: enum {name, name}";
    Empty("flags"), &[Name], Nothing, "flags have at least one name: flags {name, name}";
    Empty("tuple"), &[AnyType], Nothing, "a tuple has at least one type: tuple<T, U>";
    Empty("list"), &[AnyType], Nothing, "the type of the items is missing: list<T>";
    Empty("option"), &[AnyType], Nothing, "the type of the payload is missing: option<T>";
    Empty("result"), &[AnyType], Nothing, "a result without payloads is written result alone";
    Empty("map"), &[KeyType], Nothing, "the types of keys and values are missing: map<K, V>";
    Empty("->"), &[Name], Nothing, "where nothing is returned, no -> is written";
    Empty(""), TYPES, Nothing, "a type is missing within the brackets";
    Any, &[Func], Nothing, "the type of a function begins with func, and has no name: func(name: T) -> T";
    AnyWord, &[BraceOpen], Before, "@ has no name of its own in a type: @ {..}";
    First(OPENING), &[BraceOpen], Before, "the parts of @ stand in braces: @ {..}";
    End, &[BraceOpen], Before, "the parts of @ stand in braces: @ {..}";
    First(OPENING), &[AngleOpen], Before, "the types of @ stand in angle brackets: @<..>";
    AnyWord, &[AngleOpen], Before, "the types of @ stand in angle brackets: @<..>";
    End, &[AngleOpen], Before, "the types of @ stand in angle brackets: @<..>";
    First(&['?']), &[Colon], Nothing, "a field that may be left out has an option as its type: name: option<T>";
    Any, &[Colon], Nothing, "a colon stands between a name and its type: name: T";
    First(&[':', '=']), &[Arrow], Nothing, "the type of the result stands behind ->";
    First(QUOTES), &[Name], Nothing, "a name is written without quotes";
    First(DIGITS), &[Name], Nothing, "a name begins with a letter";
    First(&[',']), &[AnyType, KeyType, Name], Nothing, "nothing stands before this comma";
    First(QUOTES), TYPES, Nothing, "a type is written without quotes";
    First(DIGITS), TYPES, Nothing, "a number is no type";
    First(&['[']), TYPES, Nothing, "a list is written list<T>";
    First(&['(']), TYPES, Nothing, "a tuple is written tuple<T, U>";
    First(&['{']), TYPES, Nothing, "a record is written record {name: T}";
    First(&['?']), TYPES, Nothing, "an option is written option<T>";
    First(&['&', '*']), TYPES, Nothing, "there are no references: write the type alone";
    First(&['_']), TYPES, Nothing, "_ stands only before the comma of a result: result<_, E>";
    First(&[':', '=', '{', '[', '<']), &[ParenOpen], Nothing, "a payload is written in parentheses: name(T)";
    First(DIGITS), &[Count], Nothing, "a count is a whole number from 0 to 4294967295";
    AnyWord, &[Count], Nothing, "a list has one type, and perhaps a count: list<T>, list<T, 4>";
    First(&['>']), &[Comma], Nothing, "a second type is missing: map<K, V>, result<_, E>";
    First(&['?']), BEHIND_PART, Before, "an option is written option<@>";
    First(&['[']), BEHIND_PART, Before, "a list is written list<@>";
    First(&['=']), BEHIND_PART, Nothing, "neither a number nor a default value stands in a type";
    First(&[';', '|']), &[Comma], Nothing, "the parts are separated by commas";
    First(&['(', ':']), &[Comma], Nothing, "only a case of a variant has a payload: variant {name(T)}";
    AnyWord, &[Comma], Nothing, "a comma is missing before this";
    First(SIGNS), &[], Nothing, "this sign stands in no type";
};

/// What is met behind a whole text.
pub(crate) const BEHIND: &[Row] = rows! {
    First(&['?']), &[], Before, "an option is written option<@>";
    First(&['[']), &[], Before, "a list is written list<@>";
    First(&['|']), &[], Nothing, "a choice is written variant {name, name(T)} or enum {name, name}";
    First(&[',', ';']), &[], Nothing, "nothing stands behind a type";
    First(CLOSING), &[], Nothing, "no bracket is open that this one closes";
    Any, &[], Nothing, "nothing stands behind a type; several are written tuple<T, U>";
};
