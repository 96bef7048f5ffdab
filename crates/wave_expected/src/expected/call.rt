//! What may stand at a place of a call.
ghost use Rattle.std.specs.Prelude.{◌≡◌, List, IfOk, MatchOption};
ghost use Rattle.wave_lex.specs.Tokenization.{Lexed};
ghost use Rattle.wave_expected.specs.Expected.{Placed, StandBefore, IsExpectedInCall, IsExpectedInCallWithin, IsWithoutName};
ghost use Rattle.wave_tree.specs.ParserState.{IsLimit};
ghost use Rattle.wave_expected.specs.Private.CallPrefixes.{classes_of, prefix_of, classes_in_call, end_in_call};

use crate::expected::{Expected, expected_from, next_before};
use std::alloc::{AllocError, Global};
use wave_lex::lex::{Lexer, Token};
use wave_tree::parser::DEFAULT_LEVELS;
use wave_tree::untyped::call::name_at;

/// How the tokens behind the name of a function begin.
#[derive(Clone, Copy)]
pub(crate) enum CallPrefix {
    /// There are none.
    Nothing,
    /// The first is no `(`.
    Other,
    /// `(` alone.
    Open,
    /// `(` and `)` alone.
    NoParams,
    /// `(` and others.
    Params,
}

/// How the tokens begin that stand from where the lexer stands up to the place `at`.
fn prefix_of(first: &Lexer, at: usize) -> CallPrefix
    ensures { (tokens : List Placed) → StandBefore first.now at tokens → result ≡ prefix_of (classes_of tokens) }
{
    let mut lexer = first.clone();
    let Some(class) = next_before(&mut lexer, at) else {
        return CallPrefix::Nothing;
    };
    if class != Token::ParenOpen {
        return CallPrefix::Other;
    }
    let Some(next) = next_before(&mut lexer, at) else {
        return CallPrefix::Open;
    };
    if next != Token::ParenClose {
        return CallPrefix::Params;
    }
    match next_before(&mut lexer, at) {
        None => CallPrefix::NoParams,
        Some(_) => CallPrefix::Params,
    }
}

/// What may stand in a call, by what may stand in a tuple.
fn in_call(prefix: CallPrefix, mut tuple: Expected) -> Result<Expected, AllocError>
    ensures classes { IfOk result (λ e. e.classes.items ≡ classes_in_call prefix tuple.classes.items) }
    ensures end { IfOk result (λ e. e.may_end ≡ end_in_call prefix tuple.may_end) }
    ensures brackets { IfOk result (λ e. e.open_brackets.items ≡ tuple.open_brackets.items) }
{
    match prefix {
        CallPrefix::Nothing => {
            tuple.classes.clear();
            tuple.classes.push(Token::ParenOpen)?;
            tuple.may_end = false;
            Ok(tuple)
        }
        CallPrefix::Other => {
            tuple.classes.clear();
            tuple.may_end = false;
            Ok(tuple)
        }
        CallPrefix::Open => {
            tuple.classes.push(Token::ParenClose)?;
            tuple.may_end = false;
            Ok(tuple)
        }
        CallPrefix::NoParams => {
            tuple.may_end = true;
            Ok(tuple)
        }
        CallPrefix::Params => Ok(tuple),
    }
}

/// What may stand at the byte place `at` of the source, where a call is read as by
/// `UntypedFuncCall::parse`: behind the name first `(`, and then values of at most 100 levels, as
/// `expected_at` tells of a value; or `)` at once. None where no function name begins the source, or it
/// ends behind `at`. Open brackets are reported as by `expected_at`, the parenthesis of the call the first.
pub fn expected_in_call_at(
    alloc: Global,
    source: &str,
    at: usize,
) -> Result<Option<Expected>, AllocError>
    ensures { IfOk result (λ found. MatchOption found (IsWithoutName source.now at) (IsExpectedInCall source.now at)) }
{
    expected_in_call_within(alloc, source, at, DEFAULT_LEVELS)
}

/// As `expected_in_call_at`, where a call is read as by `UntypedFuncCall::parse_within`: its values have at
/// most `levels` levels.
pub fn expected_in_call_within(
    alloc: Global,
    source: &str,
    at: usize,
    levels: u32,
) -> Result<Option<Expected>, AllocError>
    requires { IsLimit levels }
    ensures { IfOk result (λ found. MatchOption found (IsWithoutName source.now at) (IsExpectedInCallWithin levels source.now at)) }
{
    let Ok(names) = name_at(source) else {
        return Ok(None);
    };
    if names.span().end > at {
        return Ok(None);
    }
    let first = names.into_lexer();
    let tuple = expected_from(alloc, &first, at, levels + 1)?;
    Ok(Some(in_call(prefix_of(&first, at), tuple)?))
}
