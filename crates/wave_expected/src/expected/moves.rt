//! What each token does in the automaton over the tokens of a value.
ghost use Rattle.std.specs.Prelude.{◌≡◌};
ghost use Rattle.wave_expected.specs.Private.Moves as spec;

use wave_lex::lex::Token;
use wave_tree::role::ValueStart;

/// What is expected.
#[derive(Clone, Copy)]
pub(crate) enum State {
    /// A value.
    Value,
    /// The first item of a tuple or a list, or the close.
    FirstItem,
    /// After a comma a further item of a tuple or a list, or the close.
    NextItem,
    /// After a value what the innermost open form takes.
    BehindValue,
    /// After a label, `ok` or `err` a payload, or what is expected after a value.
    BehindLabel,
    /// After `some` a payload.
    Paren,
    /// What stands in braces.
    InBraces,
    /// After `{:` the close.
    NoFields,
    /// After the first label in braces a colon, a comma or the close.
    BehindWord,
    /// After a comma a further key, or the close.
    Key,
    /// After a key its colon.
    BehindKey,
    /// After a comma a further flag, or the close.
    Flag,
    /// After a flag a comma or the close.
    BehindFlag,
    /// Nothing: the tokens begin no value.
    Nothing,
}

/// What is open around a value.
#[derive(Clone, Copy)]
pub(crate) enum Form {
    Tuple,
    List,
    Payload,
    /// The braces of entries, between a colon and the end of its value.
    Entries,
}

/// What a token does.
#[derive(Clone, Copy)]
pub(crate) enum Move {
    /// It is read, and then this is expected.
    To(State),
    /// It opens a form, in which this is expected.
    Open(Form, State),
    /// It closes the innermost form, after which this is expected.
    Close(State),
    /// It is refused.
    Refused,
}

/// Where a value is expected, and this many levels are left.
fn value_move(left: usize, start: ValueStart) -> Move
    ensures { result ≡ spec.value_move left start }
{
    match start {
        _ if left == 0 => Move::Refused,
        ValueStart::Alone(_) => Move::To(State::BehindValue),
        ValueStart::Some => Move::To(State::Paren),
        ValueStart::Label(_, _) => Move::To(State::BehindLabel),
        ValueStart::Paren => Move::Open(Form::Tuple, State::FirstItem),
        ValueStart::Bracket => Move::Open(Form::List, State::FirstItem),
        ValueStart::Brace => Move::To(State::InBraces),
        ValueStart::Nothing => Move::Refused,
    }
}

/// After a value within this form.
fn behind_move(form: Option<Form>, class: Token) -> Move
    ensures { result ≡ spec.behind_move form class }
{
    match (form, class) {
        (Some(Form::Tuple | Form::List), Token::Comma) => Move::To(State::NextItem),
        (Some(Form::Entries), Token::Comma) => Move::Close(State::Key),
        (Some(Form::Tuple | Form::Payload), Token::ParenClose)
        | (Some(Form::List), Token::BracketClose)
        | (Some(Form::Entries), Token::BraceClose) => Move::Close(State::BehindValue),
        _ => Move::Refused,
    }
}

/// In braces, where no value is expected.
fn brace_move(state: State, class: Token) -> Move
    ensures { result ≡ spec.brace_move state class }
{
    match (state, class) {
        (State::InBraces, Token::LabelOrKeyword) => Move::To(State::BehindWord),
        (State::InBraces, Token::Colon) => Move::To(State::NoFields),
        (State::Flag, Token::LabelOrKeyword) => Move::To(State::BehindFlag),
        (State::Key, Token::LabelOrKeyword)
        | (
            State::InBraces | State::Key,
            Token::Number | Token::Char | Token::String | Token::MultilineString,
        ) => Move::To(State::BehindKey),
        (State::BehindWord | State::BehindFlag, Token::Comma) => Move::To(State::Flag),
        (State::BehindWord | State::BehindKey, Token::Colon) => {
            Move::Open(Form::Entries, State::Value)
        }
        (
            State::InBraces
            | State::NoFields
            | State::BehindWord
            | State::Key
            | State::Flag
            | State::BehindFlag,
            Token::BraceClose,
        ) => Move::To(State::BehindValue),
        _ => Move::Refused,
    }
}

/// What a token of this class does, where this is expected within this form and so many levels are left;
/// a value that it begins, begins so. Of flags that are repeated it knows nothing.
pub(crate) fn next_move(
    state: State,
    form: Option<Form>,
    left: usize,
    class: Token,
    start: ValueStart,
) -> Move
    ensures { result ≡ spec.next_move state form left class start }
{
    match (state, form, class) {
        // No tuple is empty.
        (State::FirstItem, Some(Form::Tuple), Token::ParenClose) => Move::Refused,
        (State::NextItem, Some(Form::Tuple), Token::ParenClose)
        | (State::FirstItem | State::NextItem, Some(Form::List), Token::BracketClose) => {
            Move::Close(State::BehindValue)
        }
        (State::Value | State::FirstItem | State::NextItem, _, _) => value_move(left, start),
        (State::BehindLabel | State::Paren, _, Token::ParenOpen) => {
            Move::Open(Form::Payload, State::Value)
        }
        (State::BehindValue | State::BehindLabel, _, _) => behind_move(form, class),
        _ => brace_move(state, class),
    }
}

/// Whether a value can end after this move from where so many levels are left: not where the move
/// leads to a value past the last level. Of the forms only a list may have no value.
pub(crate) fn goes_on(moved: Move, left: usize) -> bool
    ensures { result ≡ spec.goes_on moved left }
{
    match moved {
        Move::Refused => false,
        Move::Open(Form::List, _) => true,
        Move::Open(_, _) | Move::To(State::Paren | State::BehindKey) => left > 1,
        Move::To(_) | Move::Close(_) => true,
    }
}
