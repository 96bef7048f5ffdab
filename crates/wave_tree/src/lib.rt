//! The parser: trees and values, read from texts; untyped values and calls.
#![tactic(auto)]

ghost use Rattle.std.specs.Prelude.{IfOk, IfErr};
ghost use Rattle.wave_tree.specs.FromStr.{IsRead, RefusesText};

use crate::parser::Parser;
use std::alloc::Global;
use wave_lex::error::ParserError;
use wave_wasm::wasm::WasmValue;

mod descent;
pub mod laws;
mod nodes;
pub mod parser;
pub mod role;
mod tokens;
pub mod untyped;

/// The value of the type that the whole text means. A syntax fault of the value is answered before
/// any fault of type, and a fault of type before `TrailingCharacters`. The span of a refusal is in
/// byte places of the text; `OutOfMemory` stands at 0..0. At any type the text that is read is that
/// of one value, and is else refused as by `UntypedValue::parse`; what such a text means, and which
/// fault of type it has, is said where the names of the type are distinct.
pub fn from_str<V: WasmValue>(alloc: Global, ty: &V::Type, s: &str) -> Result<V, ParserError>
    ensures read { IfOk result (IsRead V.tree V.is_of (V.Type.tree ty.now) 100 s.now) }
    ensures refused { IfErr result (RefusesText V.is_full (V.Type.tree ty.now) 100 s.now) }
{
    let mut parser = Parser::new(s);
    let value = parser.parse_value::<V>(alloc, ty)?;
    parser.finish()?;
    Ok(value)
}
