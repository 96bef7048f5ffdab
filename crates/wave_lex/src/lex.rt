//! Tokens of the text encoding, and the lexer that tokenizes a source.
ghost use Rattle.std.specs.Prelude.{◌≡◌, ℕ, ◌+◌, false, IsTrue, Some, IfSome, slice_range, length};
ghost use Rattle.std.specs.Iterator.{at_most};
ghost use Rattle.wave_lex.specs.Errors.{class_name, name_class_name};
ghost use Rattle.wave_lex.specs.LongestMatch.{Greatest, IsPrefixOf};
ghost use Rattle.wave_lex.specs.Tokens.{shape, invalid};
ghost use Rattle.wave_lex.specs.NumbersInTurn.{TakesNumberInTurn};
ghost use Rattle.wave_lex.specs.Tokenization.{Lexed, Stands, NextIs, item_of, remainder_of, span};
ghost use Rattle.wave_lex.specs.Classes.{class_of, ClassAt};
ghost use Rattle.wave_lex.specs.Private.Reading.{TokenAt, IsMark, IsFirstMark, IsNumberBehindComma};

pub use self::func_name::FuncNameLexer;
use self::scan::{
    begins_number, char_at, label_at, mark_at, multiline_at, number_at, string_at, whitespace_at,
};
use crate::asked::Asked;
use crate::found::Found;
use crate::machine::{Start, longest_prefix};
use std::fmt;
use std::marker::Model;
use std::ops::Range;
pub use wave_wasm::keyword::Keyword;

mod func_name;
mod scan;
pub(crate) mod sets;

/// Byte positions in the source.
pub type Span = Range<usize>;

/// The class of a token.
#[derive(Clone, Copy, Debug, PartialEq, Eq)]
pub enum Token {
    /// `{`
    BraceOpen,
    /// `}`
    BraceClose,
    /// `(`
    ParenOpen,
    /// `)`
    ParenClose,
    /// `[`
    BracketOpen,
    /// `]`
    BracketClose,
    /// `:`
    Colon,
    /// `,`
    Comma,
    /// A number, or `-inf`.
    Number,
    /// A label, perhaps after a `%`, or a keyword.
    LabelOrKeyword,
    /// One scalar or escape between single quotes.
    Char,
    /// A text in one line between double quotes.
    String,
    /// Lines between three double quotes.
    MultilineString,
}

impl Token {
    /// The name of the class.
    pub fn name(self) -> &'static str
        ensures { result.now ≡ class_name self }
    {
        match self {
            Token::BraceOpen => "BraceOpen",
            Token::BraceClose => "BraceClose",
            Token::ParenOpen => "ParenOpen",
            Token::ParenClose => "ParenClose",
            Token::BracketOpen => "BracketOpen",
            Token::BracketClose => "BracketClose",
            Token::Colon => "Colon",
            Token::Comma => "Comma",
            Token::Number => "Number",
            Token::LabelOrKeyword => "LabelOrKeyword",
            Token::Char => "Char",
            Token::String => "String",
            Token::MultilineString => "MultilineString",
        }
    }
}

impl fmt::Display for Token {
    ghost output = { λ token. Some (class_name token) };

    fn fmt<W: fmt::Write>(&self, f: &mut fmt::Formatter<W>) -> fmt::Result {
        f.write_str(self.name())
    }
}

/// The one class of a function name lexer.
#[derive(Clone, Copy, Debug, PartialEq, Eq)]
pub enum FuncNameToken {
    /// The name of a function, with its package, its interface and its version where it has them.
    FunctionName,
}

impl fmt::Display for FuncNameToken {
    ghost output = { λ token. Some (name_class_name token) };

    fn fmt<W: fmt::Write>(&self, f: &mut fmt::Formatter<W>) -> fmt::Result {
        match self {
            FuncNameToken::FunctionName => f.write_str("FunctionName"),
        }
    }
}

/// The class of the tokens that begin with this scalar; of the two kinds of strings the plain one.
fn class_of(first: char) -> Option<Token>
    ensures { result ≡ class_of first }
{
    if matches!(first, 'a'..='z') {
        return Some(Token::LabelOrKeyword);
    }
    if matches!(first, '0'..='9') {
        return Some(Token::Number);
    }
    match first {
        '{' => Some(Token::BraceOpen),
        '}' => Some(Token::BraceClose),
        '(' => Some(Token::ParenOpen),
        ')' => Some(Token::ParenClose),
        '[' => Some(Token::BracketOpen),
        ']' => Some(Token::BracketClose),
        ':' => Some(Token::Colon),
        ',' => Some(Token::Comma),
        '-' => Some(Token::Number),
        '%' | 'A'..='Z' => Some(Token::LabelOrKeyword),
        '\'' => Some(Token::Char),
        '"' => Some(Token::String),
        _ => None,
    }
}

/// How many bytes the longest prefix in the class takes.
fn longest_in(class: Token, text: &str) -> Option<usize>
    ensures { Greatest (IsPrefixOf (shape class) text.now) result }
{
    match class {
        Token::BraceOpen => mark_at(b'{', text),
        Token::BraceClose => mark_at(b'}', text),
        Token::ParenOpen => mark_at(b'(', text),
        Token::ParenClose => mark_at(b')', text),
        Token::BracketOpen => mark_at(b'[', text),
        Token::BracketClose => mark_at(b']', text),
        Token::Colon => mark_at(b':', text),
        Token::Comma => mark_at(b',', text),
        Token::Number => number_at(text),
        Token::LabelOrKeyword => label_at(text),
        Token::Char => char_at(text),
        Token::String => string_at(text),
        Token::MultilineString => multiline_at(text),
    }
}

/// A digit at the place of each mark, which numbers the marks, and a point at every other.
static MARKS: [u8; 256] = *b"\
    ................................\
    ........23..7.............6.....\
    ...........................4.5..\
    ...........................0.1..\
    ................................\
    ................................\
    ................................\
    ................................";

/// The mark that this byte is.
#[inline(always)]
fn mark_of(byte: u8) -> Option<Token>
    ensures { IfSome result (IsMark byte) }
{
    match MARKS[byte as usize] {
        b'0' => Some(Token::BraceOpen),
        b'1' => Some(Token::BraceClose),
        b'2' => Some(Token::ParenOpen),
        b'3' => Some(Token::ParenClose),
        b'4' => Some(Token::BracketOpen),
        b'5' => Some(Token::BracketClose),
        b'6' => Some(Token::Colon),
        b'7' => Some(Token::Comma),
        _ => None,
    }
}

/// The mark at the start.
#[inline(always)]
fn first_mark(text: &str) -> Option<Token>
    ensures { IfSome result (IsFirstMark text.now) }
{
    let bytes = text.as_bytes();
    if bytes.len() == 0 {
        return None;
    }
    mark_of(bytes[0])
}

/// The class in which any token at the start lies.
fn class_at(text: &str) -> Option<Token>
    ensures { ClassAt text.now result }
{
    let first = text.chars().next()?;
    if first != '"' {
        return class_of(first);
    }
    let bytes = text.as_bytes();
    if bytes.len() > 2 && bytes[1] == b'"' && bytes[2] == b'"' {
        return Some(Token::MultilineString);
    }
    Some(Token::String)
}

/// The longest token at the start, and how many bytes it takes.
fn token_at(text: &str) -> Option<(Token, usize)>
    ensures { TokenAt text.now result }
{
    let class = class_at(text)?;
    let length = longest_in(class, text)?;
    Some((class, length))
}

/// The number behind the comma at the start, where they stand there: how many bytes the whitespace between
/// them takes, and how many the number.
#[inline(always)]
fn number_behind_comma(text: &str) -> Option<(usize, usize)>
    ensures { IfSome result (λ found. IsNumberBehindComma text.now found.0 found.1) }
{
    let bytes = text.as_bytes();
    if bytes.len() == 0 || bytes[0] != b',' {
        return None;
    }
    let rest = &text[1..];
    let whitespace = whitespace_at(rest);
    let number = &rest[whitespace..];
    let first = number.as_bytes();
    if first.len() == 0 || !begins_number(first[0]) {
        return None;
    }
    let length = number_at(number)?;
    Some((whitespace, length))
}

/// Tokenizes a source, one token after the other. Places are counted in bytes.
#[derive(Drop)]
pub struct Lexer<'source> {
    source: &'source str,
    start: usize,
    end: usize,
}

impl<'source> Model for Lexer<'source> {
    ghost Value = { Lexed };

    ghost view = { λ l. record { source = l.source.now; start = l.start; end = l.end } };

    ghost invariant = { λ l. Stands l.source.now l.start l.end };
}

impl<'source> Lexer<'source> {
    /// A lexer before the source, with the span 0..0.
    pub fn new(source: &'source str) -> Self
        ensures { result ≡ record { source = source.now; start = 0; end = 0 } }
    {
        Lexer {
            source,
            start: 0,
            end: 0,
        }
    }

    /// Where the last item stands, in bytes of the source; after the last one the empty span at
    /// the end.
    pub fn span(&self) -> Span
        ensures span { result ≡ span self.now.start self.now.end }
        ensures stands { Stands self.now.source self.now.start self.now.end }
    {
        self.start..self.end
    }

    /// The whole source.
    pub fn source(&self) -> &'source str
        ensures { result.now ≡ self.now.source }
    {
        self.source
    }

    /// The source at the span of the last item.
    pub fn slice(&self) -> &'source str
        ensures { result.now ≡ slice_range self.now.source self.now.start self.now.end }
    {
        &self.source[self.start..self.end]
    }

    /// The source after the last item.
    pub fn remainder(&self) -> &'source str
        ensures { result.now ≡ remainder_of self.now }
    {
        &self.source[self.end..]
    }

    /// A second lexer that stands where this one does.
    pub fn clone(&self) -> Lexer<'source>
        ensures { result ≡ self.now }
    {
        Lexer {
            source: self.source,
            start: self.start,
            end: self.end,
        }
    }

    /// Answers as `next`, and counts the question.
    #[inline(always)]
    pub fn next_ticked(&mut self, asked: &mut Asked) -> Option<Result<Token, Span>>
        ensures item { NextIs self.old self.new result }
        ensures counted { asked.new ≡ asked.old + 1 }
    {
        let found = self.take(asked);
        self.item(found)
    }

    /// Takes what stands next, and counts the question. A mark that stands at once is found here, by
    /// its byte.
    #[inline(always)]
    pub(crate) fn take(&mut self, asked: &mut Asked) -> Found
        ensures item { NextIs self.old self.new (item_of result self.new) }
        ensures counted { asked.new ≡ asked.old + 1 }
    {
        asked.tick();
        if let Some(mark) = first_mark(self.remainder()) {
            self.start = self.end;
            self.end += 1;
            return Found::Token(mark);
        }
        self.advance()
    }

    /// Takes the comma that stands at once and the number behind it, counts two questions, and says whether
    /// they stood there. Where they don't nothing is taken or counted.
    #[inline(always)]
    pub(crate) fn take_number_in_turn(&mut self, asked: &mut Asked) -> bool
        ensures taken { IsTrue result → TakesNumberInTurn self.old self.new × (asked.new ≡ asked.old + 2) }
        ensures stays { result ≡ false → (self.new ≡ self.old) × (asked.new ≡ asked.old) }
    {
        let Some((whitespace, length)) = number_behind_comma(self.remainder()) else {
            return false;
        };
        asked.tick();
        asked.tick();
        self.start = self.end + 1 + whitespace;
        self.end = self.start + length;
        true
    }

    /// The item of which this was taken last.
    #[inline(always)]
    fn item(&self, found: Found) -> Option<Result<Token, Span>>
        ensures { result ≡ item_of found self.now }
    {
        match found {
            Found::Token(token) => Some(Ok(token)),
            Found::Invalid => Some(Err(self.start..self.end)),
            Found::End => None,
        }
    }

    /// Skips whitespace and takes the longest token, or an invalid one where none stands.
    #[inline(never)]
    fn advance(&mut self) -> Found
        ensures { NextIs self.old self.new (item_of result self.new) }
    {
        let rest = &self.source[self.end..];
        let whitespace = whitespace_at(rest);
        let text = &rest[whitespace..];
        self.start = self.end + whitespace;
        if let Some((token, length)) = token_at(text) {
            self.end = self.start + length;
            return Found::Token(token);
        }
        if let Some(length) = longest_prefix(Start::Invalid, text) {
            self.end = self.start + length;
            return Found::Invalid;
        }
        self.end = self.start;
        Found::End
    }
}

impl<'source> Iterator for Lexer<'source> {
    type Item = Result<Token, Span>;

    ghost remaining = { λ l. at_most (length (remainder_of l)) };

    ghost next_gives = { λ old r new. NextIs old new r };

    /// Skips whitespace and takes the longest token; the span of an invalid token where none stands,
    /// and None at the end, for good.
    fn next(&mut self) -> Option<Result<Token, Span>> {
        let taken = self.advance();
        self.item(taken)
    }
}
