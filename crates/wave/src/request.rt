// What the arguments after the program's name ask for.
ghost use Rattle.std.specs.Prelude.{ℕ, [], ◌∷◌, ◌≡◌, IfOk, IfErr, MatchOption, map, string_bytes};
ghost use Rattle.wave.specs.Requests.{IsLimitWord, AreWordsOf, HaveType};
ghost use Rattle.wave.specs.Private.Requests.{MakeNone};

use crate::types::{function_at, type_at};
use std::alloc::{AllocError, Global};
use wasm_wave::WholeNumber;
use wasm_wave::parser::{DEFAULT_LEVELS, MAX_LEVELS};
use wasm_wave::value::{FuncType, Type};

/// What the program is to do.
#[derive(Debug, Drop)]
pub enum Request {
    /// A text is read without a type, within this many levels, and displayed.
    Value(u32),
    /// A call is read without types, and displayed.
    Call,
    /// A call is read at the types of the function's parameters, and its name and the canonical
    /// parameters printed.
    CallAt(FuncType),
    /// A text is read at the type, within this many levels, and the canonical text of its value printed.
    Read(Type, u32),
}

/// The limit that the word writes: a decimal number from 1 to `MAX_LEVELS` without a leading zero.
pub fn limit_of(word: &str) -> Option<u32>
    ensures { MatchOption result
        ((n : ℕ) → IsLimitWord word.now n → ⊥)
        (IsLimitWord word.now) }
{
    if let [b'0', ..] = word.as_bytes() {
        return None;
    }
    let levels = u32::from_text(word)?;
    if 1 <= levels && levels <= MAX_LEVELS {
        Some(levels)
    } else {
        None
    }
}

/// The request that one word makes.
fn one_word(word: &str) -> Option<Request>
    ensures { MatchOption result
        (MakeNone (word.now ∷ []))
        (λ request. AreWordsOf request (word.now ∷ [])) }
{
    match word {
        "value" => Some(Request::Value(DEFAULT_LEVELS)),
        "call" => Some(Request::Call),
        _ => None,
    }
}

/// The request that two arguments make. The only error is out of memory.
fn two_words(alloc: Global, first: &str, second: &str) -> Result<Option<Request>, AllocError>
    ensures built { IfOk result (λ found. MatchOption found
        (MakeNone (first.now ∷ second.now ∷ []))
        (λ request. AreWordsOf request (first.now ∷ second.now ∷ []))) }
    ensures memory { IfErr result (λ e. HaveType (first.now ∷ second.now ∷ [])) }
{
    match first {
        "value" => match limit_of(second) {
            Some(levels) => Ok(Some(Request::Value(levels))),
            None => Ok(None),
        },
        "call" => match function_at(alloc, second)? {
            Some(function) => Ok(Some(Request::CallAt(function))),
            None => Ok(None),
        },
        "read" => match type_at(alloc, second)? {
            Some(ty) => Ok(Some(Request::Read(ty, DEFAULT_LEVELS))),
            None => Ok(None),
        },
        _ => Ok(None),
    }
}

/// The request that three arguments make. The only error is out of memory.
fn three_words(
    alloc: Global,
    first: &str,
    second: &str,
    third: &str,
) -> Result<Option<Request>, AllocError>
    ensures built { IfOk result (λ found. MatchOption found
        (MakeNone (first.now ∷ second.now ∷ third.now ∷ []))
        (λ request. AreWordsOf request (first.now ∷ second.now ∷ third.now ∷ []))) }
    ensures memory { IfErr result (λ e. HaveType (first.now ∷ second.now ∷ third.now ∷ [])) }
{
    if first != "read" {
        return Ok(None);
    }
    let Some(levels) = limit_of(third) else {
        return Ok(None);
    };
    match type_at(alloc, second)? {
        Some(ty) => Ok(Some(Request::Read(ty, levels))),
        None => Ok(None),
    }
}

/// The request that the arguments make, which have no options. The only error is out of memory, for the
/// type that they name.
pub fn request_of(alloc: Global, words: &[String]) -> Result<Option<Request>, AllocError>
    ensures built { IfOk result (λ found. MatchOption found
        (MakeNone (map string_bytes words.now))
        (λ request. AreWordsOf request (map string_bytes words.now))) }
    ensures memory { IfErr result (λ e. HaveType (map string_bytes words.now)) }
{
    match words {
        [word] => Ok(one_word(word.as_str())),
        [first, second] => two_words(alloc, first.as_str(), second.as_str()),
        [first, second, third] => {
            three_words(alloc, first.as_str(), second.as_str(), third.as_str())
        }
        _ => Ok(None),
    }
}
