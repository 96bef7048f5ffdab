//! What may stand at a place of a text, and refusals, as a person is shown them: with and without their type, at
//! places of one's own, and at a function whose parameters have no names.
use crate::calls::called;
use wasm_wave::expected::{Expected, expected_at, expected_in_call_at, expected_in_call_within};
use wasm_wave::explain::{explain, explain_at, explain_call, explain_value};
use wasm_wave::from_str;
use wasm_wave::parser::{MAX_LEVELS, ParserError, ParserErrorKind};
use wasm_wave::value::Value;
use wave_test_values::answer::{Stopped, word};
use wave_test_values::functions::{Unnamed, without_names};
use wave_test_values::types::type_of;

/// The number that the word at this place spells.
fn number(words: &[String], at: usize) -> Result<usize, Stopped> {
    match word(words, at).parse::<usize>() {
        Ok(number) => Ok(number),
        Err(_) => Err(Stopped::NoCall),
    }
}

/// Prints the words for people, and behind each semicolon the place of an open bracket.
fn shown(rt: HostRuntime, expected: Expected) -> Result<(), Stopped> {
    print!(rt; "{}", expected.words(rt.alloc())?)?;
    for span in expected.open_brackets.as_slice() {
        print!(rt; "; {}", span.start)?;
    }
    Ok(())
}

/// Prints so what may stand in a call, or `no name`.
fn shown_in_call(rt: HostRuntime, found: Option<Expected>) -> Result<(), Stopped> {
    match found {
        Some(expected) => shown(rt, expected),
        None => Ok(print!(rt; "no name")?),
    }
}

/// Prints what may stand in a value or a call: the words are the text, how many bytes of it stand before the place,
/// and the levels, but of `expected_in_call_at`.
pub fn may_stand(rt: HostRuntime, name: &str, words: &[String]) -> Result<(), Stopped> {
    let (text, at) = (word(words, 0), number(words, 1)?);
    match word(words, 2).parse::<u32>() {
        _ if name == "expected_in_call_at" => {
            shown_in_call(rt, expected_in_call_at(rt.alloc(), text, at)?)
        }
        Ok(levels) if name == "expected_at" => {
            shown(rt, expected_at(rt.alloc(), text, at, levels)?)
        }
        Ok(levels) if 1 <= levels && levels <= MAX_LEVELS => shown_in_call(
            rt,
            expected_in_call_within(rt.alloc(), text, at, levels)?,
        ),
        _ => Err(Stopped::NoCall),
    }
}

/// The refusal that is answered, where it is one of the text.
fn refusal<T: Drop>(answer: Result<T, ParserError>) -> Result<ParserError, Stopped> {
    match answer {
        Ok(_) => Err(Stopped::NoCall),
        Err(error) => match error.kind() {
            ParserErrorKind::OutOfMemory => Err(Stopped::NotCalled),
            _ => Ok(error),
        },
    }
}

/// Prints the block that the call of this name gives on the words: of the message `no` at a span of a source, or of the
/// refusal of a call or of a text at a type.
pub fn block(rt: HostRuntime, name: &str, words: &[String]) -> Result<(), Stopped> {
    let text = word(words, 0);
    match name {
        "explain_at" => {
            let (start, end) = (number(words, 1)?, number(words, 2)?);
            print!(rt; "{}", explain_at(rt.alloc(), "no", start..end, text)?)?;
            Ok(())
        }
        "explain_call" => of_call(rt, words),
        _ => of_value(rt, name, words),
    }
}

/// Prints what is shown of the refusal of the call, which is read as by `called`, at a function of a byte and a string
/// that have no names.
fn of_call(rt: HostRuntime, words: &[String]) -> Result<(), Stopped> {
    let func = without_names(rt.alloc(), "func(a: u8, b: string)")?;
    let error = match called(rt.alloc(), words) {
        Ok(call) => refusal(call.to_func_params::<Value, Unnamed>(rt.alloc(), &func))?,
        Err(error) => refusal::<Value>(Err(error))?,
    };
    print!(rt;
        "{}",
        explain_call(rt.alloc(), &error, word(words, 0), &func)?
    )?;
    Ok(())
}

/// Prints what is shown of the refusal of the second word at the type that is the first, with the type or without.
fn of_value(rt: HostRuntime, name: &str, words: &[String]) -> Result<(), Stopped> {
    let (alloc, text) = (rt.alloc(), word(words, 1));
    let ty = type_of(alloc, word(words, 0))?;
    let error = refusal(from_str::<Value>(alloc, &ty, text))?;
    match name {
        "explain" => print!(rt; "{}", explain(alloc, &error, text)?)?,
        _ => print!(rt; "{}", explain_value(alloc, &error, text, &ty)?)?,
    }
    Ok(())
}
