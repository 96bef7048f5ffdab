//! Each call once, without times.
use crate::cases::{Case, types_of};
use crate::times::{late, params};
use std::alloc::Global;
use wasm_wave::untyped::UntypedValue;
use wasm_wave::value::{Type, Value};
use wasm_wave::{from_str, to_string};

/// Prints the case's name and bytes, and whether its answers agree.
pub(crate) fn check(rt: HostRuntime, case: &Case) -> anyhow::Result<()> {
    let agree = if case.name.starts_with("call") {
        lines_are_read(rt.alloc(), case)?
    } else {
        let ty = Type::parse(rt.alloc(), case.types)?;
        agree(rt.alloc(), &ty, case.text)?
    };
    let verdict = if agree { "ok" } else { "differs" };
    println!(rt; "{} {} {verdict}", case.name, case.text.len())?;
    Ok(())
}

/// Whether the text means the same read at once, by way of nodes, and read again from what is written,
/// which is a text without a type too.
fn agree(alloc: Global, ty: &Type, text: &str) -> anyhow::Result<bool> {
    let val = from_str::<Value>(alloc, ty, text)?;
    let nodes = late(alloc, ty, text)?;
    let written = to_string(alloc, &val)?;
    let again = from_str::<Value>(alloc, ty, written.as_str())?;
    UntypedValue::parse(alloc, written.as_str())?;
    Ok(val == nodes && val == again)
}

/// Whether each line is a call whose parameters are read, as many as there are types.
fn lines_are_read(alloc: Global, case: &Case) -> anyhow::Result<bool> {
    let types = types_of(alloc, case.types)?;
    let mut agree = true;
    for line in case.text.split('\n') {
        if !line.is_empty() {
            let read = params(alloc, types.as_slice(), line)?;
            agree = agree && read.len() == types.len();
        }
    }
    Ok(agree)
}
