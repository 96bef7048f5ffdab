//! Calls that read a text at a type or without one.
use crate::cuts;
use std::alloc::Global;
use wasm_wave::from_str;
use wasm_wave::parser::ParserError;
use wasm_wave::untyped::UntypedValue;
use wasm_wave::value::{Type, Value};
use wave_test_values::answer::{Stopped, valued, word};
use wave_test_values::types::type_of;

/// The value of the word after this place, at the type that is the word there.
pub fn value_at(rt: HostRuntime, words: &[String], at: usize) -> Result<Value, Stopped> {
    let ty = type_of(rt.alloc(), word(words, at))?;
    let text = word(words, at.saturating_add(1));
    Ok(from_str::<Value>(rt.alloc(), &ty, text)?)
}

/// Prints whether the value of the first two words equals that of the next two.
pub fn equality(rt: HostRuntime, words: &[String]) -> Result<(), Stopped> {
    let (one, other) = (value_at(rt, words, 0)?, value_at(rt, words, 2)?);
    print!(rt; "{}", one == other)?;
    Ok(())
}

/// The value of the text, read without the type at first and then at it.
pub fn read_late(alloc: Global, ty: &Type, text: &str) -> Result<Value, ParserError> {
    UntypedValue::parse(alloc, text)?.to_wasm_value(alloc, ty)
}

/// A call that reads the second word at the type that is the first.
pub fn at_type(rt: HostRuntime, name: &str, words: &[String]) -> Result<(), Stopped> {
    let alloc = rt.alloc();
    let (ty, text) = (type_of(alloc, word(words, 0))?, word(words, 1));
    match name {
        "to_wasm_value" => {
            let value = UntypedValue::parse(alloc, text)?;
            valued(rt, value.to_wasm_value::<Value>(alloc, &ty))
        }
        "Node::to_wasm_value" => {
            let value = UntypedValue::parse(alloc, text)?;
            let node = value.node().clone(alloc)?;
            valued(rt, node.to_wasm_value::<Value>(alloc, &ty, value.source()))
        }
        "each way" => {
            valued(rt, from_str::<Value>(alloc, &ty, text))?;
            println!(rt; "")?;
            valued(rt, read_late(alloc, &ty, text))
        }
        "text"
            if !cuts::is_read_alike(alloc, &ty, text)
                || !cuts::is_reported_at_each_cut(alloc, &ty, text) => { Err(Stopped::NoCall) }
        _ => valued(rt, from_str::<Value>(alloc, &ty, text)),
    }
}
