//! What is wrong with values of one token, and with keys.
ghost use Rattle.std.specs.Prelude.{ℕ, ◌≡◌, Bool, Some, IfOk, MatchBool};
ghost use Rattle.std.specs.declared.ops.Range.{Range};
ghost use Rattle.wave_wasm.specs.Types as type;
ghost use Rattle.wave_wasm.specs.Types.{Simple, simple_kind};
ghost use Rattle.wave_wasm.specs.Text.{bool_text};
ghost use Rattle.wave_grammar.specs.Nodes.{IsParsedFrom, IsTokenOf};
ghost use Rattle.wave_grammar.specs.NodeAccessors.{node_text};
ghost use Rattle.wave_grammar.specs.NodeTree.{place_of};
ghost use Rattle.wave_grammar.specs.Token.{Token};
ghost use Rattle.wave_grammar.specs.TypeErrors.{MapKeyFault, key_expected};
ghost use Rattle.wave_lex.specs.Errors.{Says};
ghost use Rattle.wave_lex.specs.declared.error.ParserErrorKind.TheVariants.{InvalidType};
ghost use Rattle.wave_faults.specs.AllFaults.{OfLeaf};
ghost use Rattle.wave_faults.specs.Private.Told.{Adds};
ghost use Rattle.wave_faults.specs.Private.LeafAnswers.{AnswersLeaf, errors_in};

use crate::told::tell_error;
use std::alloc::{AllocError, Global};
use wave_grammar::number::WholeNumber;
use wave_lex::error::{ParserError, ParserErrorKind};
use wave_node::ast::{Node, NodeType};
use wave_wasm::wasm::{DisplayType, WasmType, WasmTypeKind};

/// Why the node gives no value of a simple type of this kind. The node was parsed from `source`.
pub(crate) fn leaf_error(
    alloc: Global,
    source: &str,
    node: &Node,
    kind: WasmTypeKind,
) -> Result<Option<ParserError>, AllocError>
    requires { IsParsedFrom source.now node.now }
    ensures { IfOk result (λ error. (S : Simple) → kind ≡ simple_kind S → AnswersLeaf S source.now node.now error) }
{
    match kind {
        WasmTypeKind::Bool => match node.as_bool() {
            Ok(_) => Ok(None),
            Err(error) => Ok(Some(error)),
        },
        WasmTypeKind::Char => match node.as_char(source) {
            Ok(_) => Ok(None),
            Err(error) => Ok(Some(error)),
        },
        WasmTypeKind::String => string_error(alloc, source, node),
        _ => Ok(whole_error(source, node, kind)),
    }
}

/// Why the node gives no string.
fn string_error(alloc: Global, source: &str, node: &Node) -> Result<Option<ParserError>, AllocError>
    requires { IsParsedFrom source.now node.now }
    ensures { IfOk result (AnswersLeaf type.string source.now node.now) }
{
    match node.as_str(alloc, source) {
        Ok(_) => Ok(None),
        Err(error) => {
            if error.kind() == ParserErrorKind::OutOfMemory {
                return Err(AllocError);
            }
            Ok(Some(error))
        }
    }
}

/// Why the node gives no whole number of a type of this kind.
fn whole_error(source: &str, node: &Node, kind: WasmTypeKind) -> Option<ParserError>
    requires { IsParsedFrom source.now node.now }
    ensures { (which : type.Whole) → kind ≡ type.whole_kind which → AnswersLeaf (type.whole which) source.now node.now result }
{
    match kind {
        WasmTypeKind::S8 => number_error::<i8>(source, node),
        WasmTypeKind::S16 => number_error::<i16>(source, node),
        WasmTypeKind::S32 => number_error::<i32>(source, node),
        WasmTypeKind::S64 => number_error::<i64>(source, node),
        WasmTypeKind::U8 => number_error::<u8>(source, node),
        WasmTypeKind::U16 => number_error::<u16>(source, node),
        WasmTypeKind::U32 => number_error::<u32>(source, node),
        WasmTypeKind::U64 => number_error::<u64>(source, node),
        _ => None,
    }
}

/// Why the node gives no number of this type.
fn number_error<N: WholeNumber + Drop>(source: &str, node: &Node) -> Option<ParserError>
    requires { IsParsedFrom source.now node.now }
    ensures { AnswersLeaf (type.whole N.WholeNumber.kind) source.now node.now result }
{
    match node.as_number::<N>(source) {
        Ok(_) => None,
        Err(error) => Some(error),
    }
}

/// Tells what is wrong with the node as a key of a map. The node was parsed from `source`, as a key.
pub(crate) fn tell_map_key<T: WasmType>(
    alloc: Global,
    source: &str,
    node: &Node,
    ty: &T,
    told: &mut Vec<ParserError>,
) -> Result<(), AllocError>
    requires { IsParsedFrom source.now node.now }
    ensures { IfOk result (λ _. (K : Simple) (p : Range ℕ) (key : Token) → T.tree ty.now ≡ type.simple K → IsTokenOf source.now node.now p key
        → Adds (OfLeaf K key (MapKeyFault K p key)) told.old.items told.new.items) }
{
    match key_error(alloc, source, node, ty)? {
        Some(error) => tell_error(error, told),
        None => Ok(()),
    }
}

/// What is wrong with the node as a key of a map. Of a label that spells no key it says which key is
/// expected.
fn key_error<T: WasmType>(
    alloc: Global,
    source: &str,
    node: &Node,
    ty: &T,
) -> Result<Option<ParserError>, AllocError>
    requires { IsParsedFrom source.now node.now }
    ensures { IfOk result (λ error. (K : Simple) (p : Range ℕ) (key : Token) → T.tree ty.now ≡ type.simple K → IsTokenOf source.now node.now p key
        → OfLeaf K key (MapKeyFault K p key) (errors_in error)) }
{
    let kind = ty.kind();
    if node.ty() != NodeType::Label {
        return leaf_error(alloc, source, node, kind);
    }
    if is_bool_key(kind, text_of(source, node)) {
        return Ok(None);
    }
    Ok(Some(unspelled(alloc, node, ty)?))
}

/// The source at the node.
fn text_of<'source>(source: &'source str, node: &Node) -> &'source str
    requires { IsParsedFrom source.now node.now }
    ensures { result.now ≡ node_text source.now node.now }
{
    &source[node.span()]
}

/// Whether the kind is that of bool, and the text a bool's word.
fn is_bool_key(kind: WasmTypeKind, text: &str) -> bool
    ensures { MatchBool result ((kind ≡ WasmTypeKind.Bool) × (b : Bool) × (text.now ≡ bool_text b)) (kind ≡ WasmTypeKind.Bool → (b : Bool) → text.now ≡ bool_text b → ⊥) }
{
    match kind {
        WasmTypeKind::Bool => match text {
            "true" | "false" => true,
            _ => false,
        },
        _ => false,
    }
}

/// That the node, a label, is no key of the type.
fn unspelled<T: WasmType>(alloc: Global, node: &Node, ty: &T) -> Result<ParserError, AllocError>
    ensures { IfOk result (λ e. Says e InvalidType (place_of node.now) (Some (key_expected (T.tree ty.now)))) }
{
    let detail = format!(in alloc;
        "expected a {} key, found a label",
        DisplayType::new(alloc, ty)
    )?;
    Ok(ParserError::with_detail(ParserErrorKind::InvalidType, node.span(), detail))
}
