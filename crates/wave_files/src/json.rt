//! Strings as JSON writes them.
ghost use Rattle.std.specs.Prelude.{◌≡◌, ◌++◌, false, chars, IfOk, string_bytes};
ghost use Rattle.std.specs.Fmt.{digits};
ghost use Rattle.std.specs.List.{flat_map};
ghost use Rattle.wave_files.specs.Json.{json_scalar, json_string};

use std::alloc::{AllocError, Global};
use std::fmt::Write;

/// The text as a string of JSON, in its quotes. The only error is out of memory.
pub fn json_string(alloc: Global, text: &str) -> Result<String, AllocError>
    ensures { IfOk result (λ string. string_bytes string ≡ json_string text.now) }
{
    let mut string = String::from_str(alloc, "\"")?;
    push_json_scalars(&mut string, text)?;
    string.push_str("\"")?;
    Ok(string)
}

/// Adds the text's scalars as they stand in a string.
fn push_json_scalars(to: &mut String, text: &str) -> Result<(), AllocError>
    ensures { IfOk result (λ _. string_bytes to.new ≡ string_bytes to.old ++ flat_map json_scalar (chars text.now)) }
{
    'scalars: for scalar in text.chars() {
        push_json_scalar(to, scalar)?;
    }
    Ok(())
}

/// Adds the scalar as it stands in a string.
#[tactic(auto, unfolding(crate::specs::Json::json_scalar))]
fn push_json_scalar(to: &mut String, scalar: char) -> Result<(), AllocError>
    ensures { IfOk result (λ _. string_bytes to.new ≡ string_bytes to.old ++ json_scalar scalar) }
{
    match scalar {
        '"' => to.push_str("\\\""),
        '\\' => to.push_str("\\\\"),
        scalar if scalar < '\u{10}' => push_number(to, "\\u000", scalar),
        scalar if scalar < ' ' => push_number(to, "\\u00", scalar),
        scalar => to.push(scalar),
    }
}

/// Adds the number of the scalar behind this text, in hexadecimal digits.
fn push_number(to: &mut String, prefix: &str, scalar: char) -> Result<(), AllocError>
    ensures { IfOk result (λ _. string_bytes to.new ≡ string_bytes to.old ++ (prefix.now ++ digits 16 false scalar)) }
{
    match write!(to, "{prefix}{:x}", u32::from(scalar)) {
        Ok(()) => Ok(()),
        Err(_) => Err(AllocError),
    }
}
