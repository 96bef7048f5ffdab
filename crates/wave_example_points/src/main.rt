//! An example to copy: each file that an argument names is read as a `Point`. Printed is its label
//! and the canonical text of the point, or why the text means no point and where.
#![tactic(auto)]

mod point;

use point::Point;
use std::alloc::Global;
use std::{env, fs};
use wasm_wave::explain::explain_value;
use wasm_wave::value::{IntoValue, Type, Value};
use wasm_wave::writer::WriterError;
use wasm_wave::{from_str, to_string};

// What is printed of a text.
fn answer(alloc: Global, ty: &Type, text: &str) -> Result<String, WriterError> {
    let value = match from_str::<Value>(alloc, ty, text) {
        Ok(value) => value,
        Err(error) => return Ok(explain_value(alloc, &error, text, ty)?),
    };
    let Some(point) = Point::from_value(alloc, &value)? else {
        return Ok(String::from_str(alloc, "no point\n")?);
    };
    let label = point.label.clone()?;
    let written = to_string(alloc, &point.into_value(alloc)?)?;
    Ok(format!(in alloc; "{label}: {written}\n")?)
}

fn main(rt: HostRuntime) -> anyhow::Result<()> {
    let ty = Point::value_type(rt.alloc())?;
    for path in env::args(&rt)?.skip(1) {
        let text = fs::read_to_string(&rt, path.as_str())?;
        print!(rt; "{}", answer(rt.alloc(), &ty, text.as_str())?)?;
    }
    Ok(())
}
