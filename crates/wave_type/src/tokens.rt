//! The tokens of the text of a type.
ghost use Rattle.std.specs.Prelude.{◌≡◌, IfOk};
ghost use Rattle.wave_type.specs.Private.TypeTokens.{items_of, IsKnownAs};
ghost use Rattle.wave_type.specs.TypeItems.{AreItems};

use std::alloc::{AllocError, Global};
use wave_lex::lex::{self, Lexer, Span};

/// A token: its text, where it begins, and whether it is a token of the encoding or one more that
/// types have.
#[derive(Clone, Copy)]
pub(crate) struct Token<'text> {
    pub(crate) text: &'text str,
    pub(crate) start: usize,
    pub(crate) known: bool,
}

/// Whether the item of this text is a token of the encoding, or one more that types have;
/// `->` is two of these.
fn is_known(item: &Result<lex::Token, Span>, text: &str) -> bool
    ensures { IsKnownAs item.now text.now result }
{
    match item {
        Ok(_) => true,
        Err(_) => matches!(text, "<" | ">" | "_" | "-"),
    }
}

/// The tokens of the text.
pub(crate) fn tokens_of(alloc: Global, text: &str) -> Result<Vec<Token<'_>>, AllocError>
    ensures { IfOk result (λ v. AreItems text.now 0 (items_of v.items)) }
{
    let mut tokens = Vec::new(alloc);
    let mut lexer = Lexer::new(text);
    while let Some(item) = lexer.next() {
        let text = lexer.slice();
        let known = is_known(&item, text);
        let start = lexer.span().start;
        tokens.push(Token { text, start, known })?;
    }
    Ok(tokens)
}
