//! Texts and values, laid out over lines, with their comments.
#![tactic(auto)]

ghost use Rattle.std.specs.Prelude.{◌≡◌, ℕ, true, IfOk, IfErr, OnOk, string_bytes};
ghost use Rattle.wave_wasm.specs.Text.{text, has_text};
ghost use Rattle.wave_writer.specs.WriterState.{IsGrounded};
ghost use Rattle.wave_lex.specs.Errors.{LiesInText};
ghost use Rattle.wave_grammar.specs.Tree.{Tree};
ghost use Rattle.wave_grammar.specs.Denotes.{SpellsText};
ghost use Rattle.wave_grammar.specs.DisplayLaws.{MeanTheSame};
ghost use Rattle.wave_tree.specs.Untyped.{RefusesTree, MemoryAtStart};
ghost use Rattle.wave_tree.specs.UntypedCall.{RefusesCall, MemoryAtName};
ghost use Rattle.wave_format.specs.Layout.{IsLaidOut, KeepsTrees, IsCallLaidOut, KeepsCalls};

use crate::layout::lay_out;
pub use crate::options::FormatOptions;
use std::alloc::Global;
use wave_lex::error::{ParserError, ParserErrorKind};
use wave_lex::lex::Lexer;
use wave_tree::untyped::{UntypedFuncCall, UntypedValue};
use wave_wasm::wasm::WasmValue;
use wave_writer::writer::{WriterError, to_string};

mod layout;
mod measure;
pub mod options;
mod page;

/// The text of a value, laid out over lines: the same tokens but for commas before a closing bracket, and
/// the same comments. So it spells the same value without a type, and means the same at every type. A text
/// that spells no value is refused as by `UntypedValue::parse`.
pub fn format_text(
    alloc: Global,
    source: &str,
    options: &FormatOptions,
) -> Result<String, ParserError>
    ensures laid { IfOk result (λ s. IsLaidOut source.now (string_bytes s)) }
    ensures trees { IfOk result (λ s. KeepsTrees source.now (string_bytes s)) }
    ensures means { IfOk result (λ s. MeanTheSame source.now (string_bytes s)) }
    ensures refused { IfErr result (RefusesTree 100 source.now) }
    ensures memory { IfErr result MemoryAtStart }
    ensures within { IfErr result (λ e. LiesInText source.now e.span) }
{
    let _value = UntypedValue::parse(alloc, source)?;
    match lay_out(alloc, Lexer::new(source), *options) {
        Ok(text) => Ok(text),
        Err(_) => Err(ParserError::new(ParserErrorKind::OutOfMemory, 0..0)),
    }
}

/// The call, laid out over lines in the same way. A text that is no call is refused as by
/// `UntypedFuncCall::parse`.
pub fn format_call(
    alloc: Global,
    source: &str,
    options: &FormatOptions,
) -> Result<String, ParserError>
    ensures laid { IfOk result (λ s. IsCallLaidOut source.now (string_bytes s)) }
    ensures calls { IfOk result (λ s. KeepsCalls source.now (string_bytes s)) }
    ensures refused { IfErr result (RefusesCall source.now) }
    ensures memory { IfErr result (MemoryAtName source.now) }
    ensures within { IfErr result (λ e. LiesInText source.now e.span) }
{
    let _call = UntypedFuncCall::parse(alloc, source)?;
    let names = wave_tree::untyped::call::name_at(source)?;
    let name = names.span();
    match lay_out(alloc, names.into_lexer(), *options) {
        Ok(text) => Ok(text),
        Err(_) => Err(ParserError::new(ParserErrorKind::OutOfMemory, name)),
    }
}

/// The canonical text of the value, laid out over lines in the same way, where it spells a value without a
/// type, as the text of each value of a type does whose names are labels.
pub fn to_string_pretty<V: WasmValue>(
    alloc: Global,
    value: &V,
    options: &FormatOptions,
) -> Result<String, WriterError>
    ensures laid { (n : ℕ) (t : Tree) → SpellsText n (text (V.tree value.now)) t → IfOk result (λ s. IsLaidOut (text (V.tree value.now)) (string_bytes s)) }
    ensures trees { IfOk result (λ s. KeepsTrees (text (V.tree value.now)) (string_bytes s)) }
    ensures writable { OnOk result (has_text (V.tree value.now) ≡ true) }
    ensures refused { IfErr result (λ e. IsGrounded e (has_text (V.tree value.now)) 0 0) }
{
    let text = to_string(alloc, value)?;
    match lay_out(alloc, Lexer::new(text.as_str()), *options) {
        Ok(text) => Ok(text),
        Err(error) => Err(WriterError::Memory(error)),
    }
}
