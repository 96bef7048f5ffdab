//! Untyped values and calls: their displays, sources of their own, and the parameters of a call.
use crate::cuts::is_reported_at_each_cut;
use crate::reading::value_at;
use std::alloc::Global;
use wasm_wave::parser::{MAX_LEVELS, ParserError, parse_raw_func_call};
use wasm_wave::untyped::{UntypedFuncCall, UntypedValue};
use wasm_wave::value::{FuncType, Type, Value};
use wasm_wave::wasm::{DisplayFuncArgs, DisplayFuncResults, WasmFunc, WasmValue};
use wave_test_values::answer::{Stopped, refused, shown, word};
use wave_test_values::types::type_of;

/// A call without a type, or one of the crates below.
pub fn call(rt: HostRuntime, name: &str, words: &[String]) -> Result<(), Stopped> {
    let (alloc, text) = (rt.alloc(), word(words, 0));
    match name {
        "UntypedValue::parse" => shown(rt, UntypedValue::parse(alloc, text)),
        "parse_raw_func_call" => shown(rt, parse_raw_func_call(alloc, text)),
        "UntypedFuncCall::parse" | "UntypedFuncCall::parse_within" => {
            shown(rt, called(alloc, words))
        }
        "untyped text" | "call's text" if !is_reported_at_each_cut(alloc, &Type::U8, text) => {
            Err(Stopped::NoCall)
        }
        "untyped text" => shown(rt, UntypedValue::parse(alloc, text)),
        "call's text" => shown(rt, UntypedFuncCall::parse(alloc, text)),
        "into_owned" => owned(rt, text),
        "UntypedFuncCall::into_owned" => owned_call(rt, text),
        "to_wasm_params" | "params_node" => at_types(rt, name, words),
        "to_func_params" => {
            let func = FuncType::parse(alloc, text).map_err(|error| error.kind())?;
            arguments(
                rt,
                params_of::<Value, FuncType>(alloc, &func, word(words, 1)),
            )
        }
        "DisplayFuncResults" => results(rt, words),
        _ => wave_test_values::call(rt, name, words),
    }
}

/// The call that the first word is, within as many levels as the second says, if there is one.
pub fn called(alloc: Global, words: &[String]) -> Result<UntypedFuncCall<'_>, ParserError> {
    match word(words, 1).parse::<u32>() {
        Ok(levels) if 1 <= levels && levels <= MAX_LEVELS => {
            UntypedFuncCall::parse_within(alloc, word(words, 0), levels)
        }
        _ => UntypedFuncCall::parse(alloc, word(words, 0)),
    }
}

/// Prints the source and the display of the untyped value with a source of its own. One that is handed
/// back for lack of memory is asked again, and printed in its place.
fn owned(rt: HostRuntime, text: &str) -> Result<(), Stopped> {
    let alloc = rt.alloc();
    let value = UntypedValue::parse(alloc, text)?;
    match value.into_owned(alloc) {
        Ok(value) => print!(rt; "{} is {value}", value.source())?,
        Err(value) => match value.into_owned(alloc) {
            Ok(value) => print!(rt; "{} is {value}", value.source())?,
            Err(value) => {
                print!(rt; "{} is {value}", value.source())?;
                return Err(Stopped::OutOfMemory);
            }
        },
    }
    Ok(())
}

/// The same of a call, and its name at first.
fn owned_call(rt: HostRuntime, text: &str) -> Result<(), Stopped> {
    let alloc = rt.alloc();
    let call = UntypedFuncCall::parse(alloc, text)?;
    match call.into_owned(alloc) {
        Ok(call) => print!(rt; "{} in {} is {call}", call.name(), call.source())?,
        Err(call) => match call.into_owned(alloc) {
            Ok(call) => print!(rt; "{} in {} is {call}", call.name(), call.source())?,
            Err(call) => {
                print!(rt; "{} in {} is {call}", call.name(), call.source())?;
                return Err(Stopped::OutOfMemory);
            }
        },
    }
    Ok(())
}

/// The parameters of the call at those of the function, by what any function and any value promise.
fn params_of<V: WasmValue, F: WasmFunc<Type = V::Type>>(
    alloc: Global,
    func: &F,
    text: &str,
) -> Result<Vec<V>, ParserError> {
    UntypedFuncCall::parse(alloc, text)?.to_func_params(alloc, func)
}

/// Prints the values as arguments, or the refusal.
fn arguments(rt: HostRuntime, answer: Result<Vec<Value>, ParserError>) -> Result<(), Stopped> {
    match answer {
        Ok(vals) => print!(rt; "{}", DisplayFuncArgs::new(rt.alloc(), vals.as_slice()))?,
        Err(error) => refused(rt, &error)?,
    }
    Ok(())
}

/// Prints the parameters of the call, which is the first word, at the types that are the others; read of the call,
/// or of its node of parameters, where there is one.
fn at_types(rt: HostRuntime, name: &str, words: &[String]) -> Result<(), Stopped> {
    let alloc = rt.alloc();
    let mut types = Vec::new(alloc);
    for at in 1..words.len() {
        if types.push(type_of(alloc, word(words, at))?).is_err() {
            return Err(Stopped::NotCalled);
        }
    }
    let call = UntypedFuncCall::parse(alloc, word(words, 0))?;
    if name == "to_wasm_params" {
        return arguments(rt, call.to_wasm_params(alloc, types.as_slice()));
    }
    match call.params_node() {
        Some(node) => arguments(
            rt,
            node.to_wasm_params(alloc, types.as_slice(), call.source()),
        ),
        None => Ok(print!(rt; "no node")?),
    }
}

/// Prints the values as results, each of which is a word behind its type.
fn results(rt: HostRuntime, words: &[String]) -> Result<(), Stopped> {
    let mut vals = Vec::new(rt.alloc());
    for at in 0..words.len() / 2 {
        if vals.push(value_at(rt, words, at * 2)?).is_err() {
            return Err(Stopped::NotCalled);
        }
    }
    print!(rt; "{}", DisplayFuncResults::new(rt.alloc(), vals.as_slice()))?;
    Ok(())
}
