//! What a lexer takes, as the parser keeps it.
ghost use Rattle.std.specs.Prelude.{◌≡◌, ◌↔◌, ◌+◌, false, IsTrue};
ghost use Rattle.wave_lex.specs.NumbersInTurn.{TakesNumberInTurn};
ghost use Rattle.wave_lex.specs.Tokenization.{NextIs, item_of};
ghost use Rattle.wave_lex.specs.declared.found.Found.TheVariants as found;

use crate::asked::Asked;
use crate::lex::{Lexer, Token};

/// What a lexer takes. It stands at the span of the lexer, which small answers leave out. Users
/// don't name it.
#[derive(Clone, Copy)]
pub enum Found {
    /// A token of this class.
    Token(Token),
    /// What begins no token.
    Invalid,
    /// Nothing: only whitespace was left.
    End,
}

impl Found {
    /// Takes what stands next, as `Lexer::next_ticked` does.
    #[inline(always)]
    pub fn next_of(lexer: &mut Lexer, asked: &mut Asked) -> Found
        ensures item { NextIs lexer.old lexer.new (item_of result lexer.new) }
        ensures counted { asked.new ≡ asked.old + 1 }
    {
        lexer.take(asked)
    }

    /// Takes a comma that stands at once and the number behind it, as two calls of `next_of` do; takes and
    /// counts nothing where they don't stand there. Says whether they do.
    #[inline(always)]
    pub fn number_in_turn(lexer: &mut Lexer, asked: &mut Asked) -> bool
        ensures taken { IsTrue result → TakesNumberInTurn lexer.old lexer.new × (asked.new ≡ asked.old + 2) }
        ensures stays { result ≡ false → (lexer.new ≡ lexer.old) × (asked.new ≡ asked.old) }
    {
        lexer.take_number_in_turn(asked)
    }

    /// Whether it is a token of this class.
    #[inline(always)]
    pub fn is(self, class: Token) -> bool
        ensures { IsTrue result ↔ (self ≡ found.Token class) }
    {
        match self {
            Found::Token(token) => token == class,
            _ => false,
        }
    }
}
