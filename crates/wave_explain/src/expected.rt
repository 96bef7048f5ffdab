//! The line that says which type is expected, and what stands there instead.
ghost use Rattle.std.specs.Prelude.{ℕ, ◌≡◌, ◌++◌, List, IfOk};
ghost use Rattle.std.specs.String.{string_bytes};
ghost use Rattle.wave_wasm.specs.TypeText.{type_text};
ghost use Rattle.wave_explain.specs.ValueExplained.{expected_line};

use std::alloc::{AllocError, Global};
use wave_lex::error::{ParserError, ParserErrorKind};
use wave_node::ast::{Node, NodeType};
use wave_place::path::push_first;
use wave_wasm::wasm::{DisplayType, WasmType, WasmTypeKind};

/// How many scalars of a type are shown.
const TYPE_SHOWN: usize = 60;

/// Adds the line that says which type is expected at the node, and what was found there or which values the
/// type has.
pub(crate) fn push_expected<T: WasmType>(
    alloc: Global,
    lines: &mut String,
    error: &ParserError,
    node: &Node,
    ty: &T,
) -> Result<(), AllocError>
    ensures { IfOk result (λ _. (more : List ℕ) × (string_bytes lines.new ≡ string_bytes lines.old ++ expected_line (type_text (T.tree ty.now)) more)) }
{
    let text = DisplayType::new(alloc, ty).to_string(alloc)?;
    push_line(lines, text.as_str(), more(error, node, ty.kind()))
}

/// Adds the line of what is expected, and more on it.
pub(crate) fn push_line(lines: &mut String, text: &str, more: &str) -> Result<(), AllocError>
    ensures { IfOk result (λ _. string_bytes lines.new ≡ string_bytes lines.old ++ expected_line text.now more.now) }
{
    lines.push_str("  = expected ")?;
    push_first(lines, text, TYPE_SHOWN)?;
    lines.push_str(more)?;
    lines.push_str("\n")
}

/// What was found, where that is of another form than the type takes; else which values the type has.
fn more(error: &ParserError, node: &Node, kind: WasmTypeKind) -> &'static str {
    let refused = error.span();
    let whole = node.span();
    let is_whole = refused.start == whole.start && refused.end == whole.end;
    match error.kind() {
        ParserErrorKind::InvalidType if is_whole => found(node.ty()),
        ParserErrorKind::InvalidValue | ParserErrorKind::InvalidEscape => values(kind),
        _ => "",
    }
}

/// What was found.
fn found(ty: NodeType) -> &'static str {
    match ty {
        NodeType::BoolTrue => ", found true",
        NodeType::BoolFalse => ", found false",
        NodeType::Number => ", found a number",
        NodeType::Char => ", found a char",
        NodeType::String | NodeType::MultilineString => ", found a string",
        NodeType::Tuple => ", found a tuple",
        NodeType::List => ", found a list",
        NodeType::TupleSet => ", found a record or a map",
        NodeType::EmptySet => ", found empty flags or an empty map",
        NodeType::Flags => ", found flags",
        NodeType::Label => ", found a name",
        NodeType::VariantWithPayload => ", found a case with a payload",
        NodeType::OptionSome => ", found some(..)",
        NodeType::OptionNone => ", found none",
        NodeType::ResultOk => ", found ok",
        NodeType::ResultErr => ", found err",
    }
}

/// Which values a type of this kind has, where that is soon said.
fn values(kind: WasmTypeKind) -> &'static str {
    match kind {
        WasmTypeKind::Bool => ", true or false",
        WasmTypeKind::S8 => ", a whole number from -128 to 127",
        WasmTypeKind::S16 => ", a whole number from -32768 to 32767",
        WasmTypeKind::S32 => ", a whole number from -2147483648 to 2147483647",
        WasmTypeKind::S64 => ", a whole number from -9223372036854775808 to 9223372036854775807",
        WasmTypeKind::U8 => ", a whole number from 0 to 255",
        WasmTypeKind::U16 => ", a whole number from 0 to 65535",
        WasmTypeKind::U32 => ", a whole number from 0 to 4294967295",
        WasmTypeKind::U64 => ", a whole number from 0 to 18446744073709551615",
        WasmTypeKind::Char => ", one character in single quotes",
        WasmTypeKind::String => ", text in double quotes",
        _ => "",
    }
}
