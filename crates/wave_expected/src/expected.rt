//! What may stand at a place of a text: in place of a token that is refused, or at the end.
ghost use Rattle.std.specs.Prelude.{◌≡◌, ◌↔◌, ◌≤◌, ◌<◌, ◌+◌, ℕ, Some, Ok, IfOk, IsTrue, MatchOption, Contains};
ghost use Rattle.wave_lex.specs.Tokenization.{Lexed, NextIs};
ghost use Rattle.wave_expected.specs.Expected.{IsExpected, IsExpectedFrom, MayFollow, AreAValue, AreInOrder, open_after};

use crate::expected::automaton::Automaton;
pub use crate::expected::call::{expected_in_call_at, expected_in_call_within};
use std::alloc::{AllocError, Global};
use wave_lex::lex::{Lexer, Span, Token};

mod automaton;
mod call;
mod moves;
mod words;

/// What may stand at a place of a text.
#[derive(Drop)]
pub struct Expected {
    /// The classes of the tokens that may stand there.
    pub classes: Vec<Token>,
    /// Whether the text may end there: what stands before is a value.
    pub may_end: bool,
    /// The spans of the brackets that are open there, the outermost first.
    pub open_brackets: Vec<Span>,
}

impl Expected {
    /// Whether a token of this class may stand there.
    pub fn contains(&self, class: Token) -> bool
        ensures { IsTrue result ↔ Contains self.now.classes.items class }
    {
        self.classes.contains(&class)
    }
}

/// The next token, where it ends at or before the place `at`.
fn next_before(lexer: &mut Lexer, at: usize) -> Option<Token>
    ensures { MatchOption result
        ((c : Token) (next : Lexed) → NextIs lexer.old next (Some (Ok c)) → at < next.end)
        (λ c. NextIs lexer.old lexer.new (Some (Ok c)) × (lexer.new.end ≤ at)) }
{
    match lexer.next() {
        None => None,
        Some(Err(_)) => None,
        Some(Ok(class)) => {
            if lexer.span().end > at {
                return None;
            }
            Some(class)
        }
    }
}

/// Notes what bracket a token opens or closes.
fn note_bracket(spans: &mut Vec<Span>, class: Token, span: Span) -> Result<(), AllocError>
    ensures { IfOk result (λ _. spans.new.items ≡ open_after spans.old.items (class, span)) }
{
    match class {
        Token::BraceOpen | Token::ParenOpen | Token::BracketOpen => spans.push(span)?,
        Token::BraceClose | Token::ParenClose | Token::BracketClose => {
            spans.pop();
        }
        _ => {}
    }
    Ok(())
}

/// What may stand at the place `at`, where a value of at most `levels` levels is read from where the
/// lexer stands.
fn expected_from(
    alloc: Global,
    first: &Lexer,
    at: usize,
    levels: u32,
) -> Result<Expected, AllocError>
    requires { first.now.end ≤ at }
    ensures expected { IfOk result (IsExpectedFrom first.now at (MayFollow levels) (AreAValue levels)) }
    ensures order { IfOk result (λ e. AreInOrder e.classes.items) }
{
    let mut lexer = first.clone();
    let mut automaton = Automaton::new(alloc, levels);
    let mut open_brackets = Vec::new(alloc);
    while let Some(class) = next_before(&mut lexer, at) {
        note_bracket(&mut open_brackets, class, lexer.span())?;
        automaton.read(alloc, class, lexer.slice())?;
    }
    Ok(Expected {
        classes: automaton.classes(alloc)?,
        may_end: automaton.may_end(),
        open_brackets,
    })
}

/// What may stand at the byte place `at` of the source, where a value of at most `levels` levels is
/// read: after the tokens that end at or before `at`, up to the first that doesn't or to what is no
/// token. At the start of a syntax refusal's span it is what the reader might have read there in place
/// of what it refused; the span of an empty tuple starts at its `(`, that of a value which is too deep
/// at the token before it. A class is named where some token of that class, after the tokens before, begins a
/// value within those levels; so none is named where those tokens begin no such value. Which label
/// may stand there isn't reported: as a flag one that wasn't read before, and where a value is expected any but
/// a keyword that begins a payload past the last level.
/// The classes stand each once, in the order of the variants of `Token`.
pub fn expected_at(
    alloc: Global,
    source: &str,
    at: usize,
    levels: u32,
) -> Result<Expected, AllocError>
    ensures expected { IfOk result (IsExpected source.now at levels) }
    ensures order { IfOk result (λ e. AreInOrder e.classes.items) }
{
    expected_from(alloc, &Lexer::new(source), at, levels)
}
