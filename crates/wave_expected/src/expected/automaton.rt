//! The automaton over the tokens of a value: what is expected after those that were read.
ghost use Rattle.std.specs.Prelude.{◌≡◌, ◌↔◌, ◌++◌, List, [], ◌∷◌, IfOk, Contains, IsTrue};
ghost use Rattle.wave_grammar.specs.Token.{Token as GrammarToken};
ghost use Rattle.wave_grammar.specs.ParserPosition.{token_of};
ghost use Rattle.wave_tree.specs.declared.role.ValueStart.{ValueStart};
ghost use Rattle.wave_tree.specs.ValueStarts.{IsValueStart};
ghost use Rattle.wave_expected.specs.Expected.{MayFollow, AreInOrder};
ghost use Rattle.wave_expected.specs.Private.Moves.{stack_of, move_at};
ghost use Rattle.wave_expected.specs.Private.Prefixes.{IsAfter, IsNoted, MayEnd};

use crate::expected::moves::{Form, Move, State, goes_on, next_move};
use std::alloc::{AllocError, Global};
use std::collections::BTreeMap;
use wave_grammar::label::label_name;
use wave_lex::lex::Token;
use wave_tree::role::value_start;

/// All classes of tokens.
const CLASSES: [Token; 13] = [
    Token::BraceOpen,
    Token::BraceClose,
    Token::ParenOpen,
    Token::ParenClose,
    Token::BracketOpen,
    Token::BracketClose,
    Token::Colon,
    Token::Comma,
    Token::Number,
    Token::LabelOrKeyword,
    Token::Char,
    Token::String,
    Token::MultilineString,
];

/// Notes the name of a label after which this is expected, where it is a flag or may be one, and answers
/// whether it is a flag that was read before.
fn note_label<'source>(
    alloc: Global,
    names: &mut BTreeMap<&'source str, ()>,
    state: State,
    text: &'source str,
) -> Result<bool, AllocError>
    ensures { IfOk result (IsNoted state text.now names.old names.new) }
{
    match state {
        State::BehindWord => {
            *names = BTreeMap::new(alloc);
            names.insert(label_name(text), ())?;
            Ok(false)
        }
        State::BehindFlag => {
            let before = names.insert(label_name(text), ())?;
            Ok(before.is_some())
        }
        _ => Ok(false),
    }
}

/// Reads tokens, whatever they are, and knows what may stand after them.
#[derive(Drop)]
pub(crate) struct Automaton<'source> {
    state: State,
    /// The open forms, the outermost first.
    forms: Vec<Form>,
    /// The names of the flags since the last open brace.
    names: BTreeMap<&'source str, ()>,
    /// At most so many levels.
    levels: usize,
}

impl<'source> Automaton<'source> {
    /// Before the first token of a value of at most `levels` levels.
    pub(crate) fn new(alloc: Global, levels: u32) -> Self
        ensures after { IsAfter levels [] result.state result.forms.items result.names }
        ensures levels { result.levels ≡ levels }
    {
        Automaton {
            state: State::Value,
            forms: Vec::new(alloc),
            names: BTreeMap::new(alloc),
            levels: levels as usize,
        }
    }

    /// What the token does that comes next: it is refused where no value can end after it.
    fn step(&self, class: Token, text: &str) -> Move
        ensures { (start : ValueStart) × IsValueStart class text.now start
            × (result ≡ move_at self.now.state (stack_of self.now.forms.items) self.now.levels class start) }
    {
        let form = self.forms.last().copied();
        let left = self.levels.saturating_sub(self.forms.len());
        let moved = next_move(self.state, form, left, class, value_start(class, text));
        if goes_on(moved, left) {
            moved
        } else {
            Move::Refused
        }
    }

    /// Reads a token.
    pub(crate) fn read(
        &mut self,
        alloc: Global,
        class: Token,
        text: &'source str,
    ) -> Result<(), AllocError>
        ensures after { IfOk result (λ _. (tokens : List GrammarToken)
            → IsAfter self.old.levels tokens self.old.state self.old.forms.items self.old.names
            → IsAfter self.old.levels (tokens ++ token_of class text.now ∷ []) self.new.state self.new.forms.items self.new.names) }
        ensures levels { self.new.levels ≡ self.old.levels }
    {
        match self.step(class, text) {
            Move::Refused => {
                self.state = State::Nothing;
                Ok(())
            }
            Move::Open(form, state) => {
                self.forms.push(form)?;
                self.state = state;
                Ok(())
            }
            Move::Close(state) => {
                self.forms.pop();
                self.state = state;
                Ok(())
            }
            Move::To(state) => {
                let was_read = note_label(alloc, &mut self.names, state, text)?;
                if was_read {
                    self.state = State::Nothing;
                    return Ok(());
                }
                self.state = state;
                Ok(())
            }
        }
    }

    /// The classes of the tokens that may stand next; of labels the case `a` shows whether one may.
    pub(crate) fn classes(&self, alloc: Global) -> Result<Vec<Token>, AllocError>
        ensures follow { IfOk result (λ v. (tokens : List GrammarToken)
            → IsAfter self.now.levels tokens self.now.state self.now.forms.items self.now.names
            → (c : Token) → Contains v.items c ↔ MayFollow self.now.levels tokens c) }
        ensures order { IfOk result (λ v. AreInOrder v.items) }
    {
        let mut classes = Vec::new(alloc);
        for class in CLASSES {
            match self.step(class, "a") {
                Move::Refused => {}
                _ => classes.push(class)?,
            }
        }
        Ok(classes)
    }

    /// Whether the value may end here.
    pub(crate) fn may_end(&self) -> bool
        ensures { IsTrue result ↔ MayEnd self.now.state self.now.forms.items }
    {
        match self.state {
            State::BehindValue | State::BehindLabel => self.forms.is_empty(),
            _ => false,
        }
    }
}
