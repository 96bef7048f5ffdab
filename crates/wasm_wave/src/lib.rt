//! Component values, their types and their text: reading and writing, by the crates below.
#![tactic(auto)]

ghost use Rattle.std.specs.Prelude.{IfOk, IfErr};
ghost use Rattle.std.specs.String.{string_bytes};
ghost use Rattle.wave_wasm.specs.HasType.{HasType};
ghost use Rattle.wave_lex.specs.Labels.{HasDistinctLabels};
ghost use Rattle.wave_grammar.specs.UnambiguityLaws.{OneReading};
ghost use Rattle.wave_grammar.specs.RoundTripLaws.{ReadBack, ReadsBackWithinTwice};
ghost use Rattle.wave_wasm.specs.Types.{TypeTree, HasDistinctNames, IsRepresentable};
ghost use Rattle.wave_tree.specs.FromStr.{IsRead, RefusesText};
ghost use Rattle.wasm_wave.specs.MainTheorem.{OneValue, IsTextOf, RefusesWriting};
ghost use Rattle.wasm_wave.specs.MainTheorem.{IsDistinguishedByText, IsReadAgain};

use crate::wasm::WasmValue;
use crate::writer::WriterError;
use std::alloc::Global;
use wave_lex::error::ParserError;

pub mod explain;
pub mod format;
pub mod laws;
pub mod value;
pub mod wasm;

pub use wave_expected::expected;
pub use wave_faults::faults;
pub use wave_grammar::number::WholeNumber;
pub use wave_lex::asked::Asked;
pub use wave_lex::{lex, strings};
pub use wave_node::ast;
pub use wave_tree::{parser, untyped};
pub use wave_writer::writer;

/// The value that the whole text means at the type, which is of that type; a text that means none
/// is refused, and so is any text for lack of memory, at 0..0. A refusal's span lies in the text; a
/// `WasmValueError` has a cause and stands at a node of what was read. At any type what is read is
/// the text of one value within 100 levels, a syntax refusal stands where the text has none, and a
/// fault of type has no kind of syntax. All the rest where the names of the type are distinct and,
/// for a refusal, constructors serve every value of the type, as those of `Value` do there: what is read
/// is merged, and no tokens spell two values nor begin the spelling of another; where the names are
/// labels too and the type's tree is one that `Type` has, what is read within some levels has a
/// canonical text of at most twice as many.
/// Example: `from_str::<Value>(alloc, &Type::CHAR, "'\\u{1F44B}'")?` is the char '👋'.
pub fn from_str<V: WasmValue>(alloc: Global, ty: &V::Type, s: &str) -> Result<V, ParserError>
    ensures read { IfOk result (IsRead V.tree V.is_of (V.Type.tree ty.now) 100 s.now) }
    ensures refused { IfErr result (RefusesText V.is_full (V.Type.tree ty.now) 100 s.now) }
    ensures one { let T = V.Type.tree ty.now in HasDistinctNames T → OneValue T }
    ensures reading { let T = V.Type.tree ty.now in HasDistinctNames T → OneReading T }
    ensures twice { let T = V.Type.tree ty.now in HasDistinctLabels T → IsRepresentable T → ReadsBackWithinTwice T }
{
    wave_tree::from_str::<V>(alloc, ty, s)
}

/// The canonical text of the value, which then has one; `UnsupportedType` is answered only where it
/// has none, `Io` never, and a value of a type is refused for lack of memory alone: every `Value`
/// is one of its own type (`Value::ty`). Of a type whose names are distinct labels, another value
/// has the same text exactly where the two are equal, merged. Where the type's tree is also one
/// that `Type` has, the text is read back as the value, merged, within its own levels, so by
/// `from_str` where these are at most 100, and by a parser whose limit they don't pass; and it has at
/// most twice the levels of any text that is read as the value.
/// Example: `to_string(alloc, &Value::from('\u{1F44B}'))?` is the text `'👋'`.
pub fn to_string<V: WasmValue>(alloc: Global, val: &V) -> Result<String, WriterError>
    ensures text { IfOk result (λ s. IsTextOf (V.tree val.now) (string_bytes s)) }
    ensures refused { IfErr result (RefusesWriting (V.tree val.now)) }
    ensures equal { let v = V.tree val.now in
        (T : TypeTree) → HasDistinctLabels T → HasType T v → IsDistinguishedByText T v }
    ensures back { let v = V.tree val.now in
        (T : TypeTree) → HasDistinctLabels T → IsRepresentable T → HasType T v → ReadBack T v }
    ensures again { (T : TypeTree) → IsReadAgain T (V.tree val.now) }
    ensures twice { (T : TypeTree) → HasDistinctLabels T → IsRepresentable T → ReadsBackWithinTwice T }
{
    writer::to_string(alloc, val)
}
