//! The lexer of function names.
ghost use Rattle.std.specs.Prelude.{◌≡◌, slice_range, length};
ghost use Rattle.std.specs.Iterator.{at_most};
ghost use Rattle.wave_lex.specs.FunctionName.{NameIs};
ghost use Rattle.wave_lex.specs.Tokenization.{Lexed, Stands, remainder_of, span};

use crate::lex::{FuncNameToken, Lexer, Span};
use crate::machine::{Start, longest_prefix};
use std::marker::Model;

/// Takes function names from a source, one after the other; it skips nothing. Places are counted in bytes.
#[derive(Drop)]
pub struct FuncNameLexer<'source> {
    source: &'source str,
    start: usize,
    end: usize,
}

impl<'source> Model for FuncNameLexer<'source> {
    ghost Value = { Lexed };

    ghost view = { λ l. record { source = l.source.now; start = l.start; end = l.end } };

    ghost invariant = { λ l. Stands l.source.now l.start l.end };
}

impl<'source> FuncNameLexer<'source> {
    /// A lexer before the source, with the span 0..0.
    pub fn new(source: &'source str) -> Self
        ensures { result ≡ record { source = source.now; start = 0; end = 0 } }
    {
        FuncNameLexer {
            source,
            start: 0,
            end: 0,
        }
    }

    /// Where the last item stands, in bytes of the source; after the last one the empty span at
    /// the end.
    pub fn span(&self) -> Span
        ensures span { result ≡ span self.now.start self.now.end }
        ensures stands { Stands self.now.source self.now.start self.now.end }
    {
        self.start..self.end
    }

    /// The whole source.
    pub fn source(&self) -> &'source str
        ensures { result.now ≡ self.now.source }
    {
        self.source
    }

    /// The source at the span of the last item.
    pub fn slice(&self) -> &'source str
        ensures { result.now ≡ slice_range self.now.source self.now.start self.now.end }
    {
        &self.source[self.start..self.end]
    }

    /// The source after the last item.
    pub fn remainder(&self) -> &'source str
        ensures { result.now ≡ remainder_of self.now }
    {
        &self.source[self.end..]
    }

    /// A second lexer that stands where this one does.
    pub fn clone(&self) -> FuncNameLexer<'source>
        ensures { result ≡ self.now }
    {
        FuncNameLexer {
            source: self.source,
            start: self.start,
            end: self.end,
        }
    }

    /// A lexer of tokens that goes on where this one stands; its span stays that of the last item.
    pub fn into_lexer(self) -> Lexer<'source>
        ensures { result ≡ self.entry }
    {
        let FuncNameLexer { source, start, end } = self;
        Lexer { source, start, end }
    }
}

impl<'source> Iterator for FuncNameLexer<'source> {
    type Item = Result<FuncNameToken, Span>;

    ghost remaining = { λ l. at_most (length (remainder_of l)) };

    ghost next_gives = { λ old r new. NameIs old new r };

    /// Takes the longest function name; the span of one scalar where none stands, and None at the
    /// end, for good.
    fn next(&mut self) -> Option<Result<FuncNameToken, Span>> {
        let rest = &self.source[self.end..];
        self.start = self.end;
        if let Some(length) = longest_prefix(Start::FunctionName, rest) {
            self.end = self.start + length;
            return Some(Ok(FuncNameToken::FunctionName));
        }
        let first = rest.chars().next()?;
        self.end = self.start + first.len_utf8();
        Some(Err(self.start..self.end))
    }
}
