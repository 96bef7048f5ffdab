//! How long calls take.
use crate::cases::Case;
use std::alloc::Global;
use std::time::Instant;
use wasm_wave::parser::ParserError;
use wasm_wave::untyped::{UntypedFuncCall, UntypedValue};
use wasm_wave::value::{Type, Value};
use wasm_wave::{from_str, to_string};

/// Nanoseconds of the call on the case, so often. Its type and value are made before.
pub(crate) fn spent(
    rt: HostRuntime,
    call: &str,
    loops: usize,
    case: &Case,
) -> anyhow::Result<u128> {
    let ty = Type::parse(rt.alloc(), case.types)?;
    let val = from_str::<Value>(rt.alloc(), &ty, case.text)?;
    if call == "read" {
        reading(rt, &ty, case.text, loops)
    } else if call == "nodes" {
        by_nodes(rt, &ty, case.text, loops)
    } else if call == "write" {
        writing(rt, &val, loops)
    } else {
        parsing(rt, case.text, loops)
    }
}

/// Nanoseconds of reading.
fn reading(rt: HostRuntime, ty: &Type, text: &str, loops: usize) -> anyhow::Result<u128> {
    let start = Instant::now(&rt)?;
    for _ in 0..loops {
        from_str::<Value>(rt.alloc(), ty, text)?;
    }
    Ok(start.elapsed(&rt)?.as_nanos())
}

/// The value of the text by way of nodes: its tree is parsed without a type, and read at the type.
pub(crate) fn late(alloc: Global, ty: &Type, text: &str) -> Result<Value, ParserError> {
    UntypedValue::parse(alloc, text)?.to_wasm_value(alloc, ty)
}

/// Nanoseconds of reading by way of nodes.
fn by_nodes(rt: HostRuntime, ty: &Type, text: &str, loops: usize) -> anyhow::Result<u128> {
    let start = Instant::now(&rt)?;
    for _ in 0..loops {
        late(rt.alloc(), ty, text)?;
    }
    Ok(start.elapsed(&rt)?.as_nanos())
}

/// Nanoseconds of writing.
fn writing(rt: HostRuntime, val: &Value, loops: usize) -> anyhow::Result<u128> {
    let start = Instant::now(&rt)?;
    for _ in 0..loops {
        to_string(rt.alloc(), val)?;
    }
    Ok(start.elapsed(&rt)?.as_nanos())
}

/// Nanoseconds of parsing without a type.
fn parsing(rt: HostRuntime, text: &str, loops: usize) -> anyhow::Result<u128> {
    let start = Instant::now(&rt)?;
    for _ in 0..loops {
        UntypedValue::parse(rt.alloc(), text)?;
    }
    Ok(start.elapsed(&rt)?.as_nanos())
}

/// The parameters of the call at the types.
pub(crate) fn params(alloc: Global, types: &[Type], text: &str) -> Result<Vec<Value>, ParserError> {
    UntypedFuncCall::parse(alloc, text)?.to_wasm_params(alloc, types)
}

/// Nanoseconds of parsing the calls of all lines, and of reading their parameters at the types.
pub(crate) fn calling(
    rt: HostRuntime,
    types: &[Type],
    text: &str,
    loops: usize,
) -> anyhow::Result<u128> {
    let start = Instant::now(&rt)?;
    for _ in 0..loops {
        call_lines(rt, types, text)?;
    }
    Ok(start.elapsed(&rt)?.as_nanos())
}

/// The calls of all lines, once.
fn call_lines(rt: HostRuntime, types: &[Type], text: &str) -> anyhow::Result<()> {
    for line in text.split('\n') {
        if !line.is_empty() {
            params(rt.alloc(), types, line)?;
        }
    }
    Ok(())
}
