//! Values without parts: of one token, or flags.
ghost use Rattle.std.specs.Prelude.{ℕ, List, ◌≡◌, ◌≢◌};
ghost use Rattle.wave_wasm.specs.Types.{TypeTree, kind_of};
ghost use Rattle.wave_grammar.specs.FaultOrder.{Order};
ghost use Rattle.wave_grammar.specs.NodeTree.{NodeTree, type_of, place_of};
ghost use Rattle.wave_grammar.specs.declared.form.NodeType.TheVariants as node_type;
ghost use Rattle.wave_read.specs.Flat.{IsFlatAt};
ghost use Rattle.wave_read.specs.Private.NamedFlags.{IsReadOfFlags};
ghost use Rattle.wave_read.specs.Private.Leaves.{IsTokenOfSome};
ghost use Rattle.wave_leaf.specs.Reading.{IsOfType, IsReadAs, IsReadOfLeaf};

use crate::enums::read_enum;
use crate::flags::read_flags;
use crate::flat::{flat_payload, wrap};
use crate::options::read_none;
use crate::results::read_alone;
use crate::variants::read_case;
use std::alloc::Global;
use std::collections::BTreeMap;
use wave_grammar::form::NodeType;
use wave_leaf::error::ReadError;
use wave_leaf::leaf::LeafToken;
use wave_leaf::simple::refuse_form;
use wave_lex::error::ParserErrorKind;
use wave_lex::lex::Span;
use wave_wasm::wasm::{WasmType, WasmTypeKind, WasmValue};

/// The value of one token, which stands in some text, at the type.
#[inline(never)]
pub(crate) fn read_leaf<V: WasmValue>(
    leaf: &LeafToken<'_>,
    alloc: Global,
    ty: &V::Type,
) -> Result<V, ReadError>
    requires { IsTokenOfSome leaf.now }
    ensures { IsReadOfLeaf V.tree V.is_of V.is_full (V.Type.tree ty.now) leaf.now result }
{
    match flat_payload(ty, leaf.ty) {
        Some(payload) => {
            let built = read_directly::<V>(leaf, alloc, payload);
            wrap(alloc, ty, leaf.span.start..leaf.span.end, built)
        }
        None => read_directly(leaf, alloc, ty),
    }
}

/// The value of one token at the type, which is none of a flat payload.
#[inline(always)]
fn read_directly<V: WasmValue>(
    leaf: &LeafToken<'_>,
    alloc: Global,
    ty: &V::Type,
) -> Result<V, ReadError>
    requires { (U : TypeTree) → IsFlatAt (V.Type.tree ty.now) leaf.now.ty U → ⊥ }
    ensures { IsReadOfLeaf V.tree V.is_of V.is_full (V.Type.tree ty.now) leaf.now result }
{
    match ty.kind() {
        WasmTypeKind::List
        | WasmTypeKind::FixedLengthList
        | WasmTypeKind::Tuple
        | WasmTypeKind::Record
        | WasmTypeKind::Map
        | WasmTypeKind::Flags => Err(leaf.error(ParserErrorKind::InvalidType)),
        WasmTypeKind::Variant => read_case(leaf, alloc, ty),
        WasmTypeKind::Enum => read_enum(leaf, alloc, ty),
        WasmTypeKind::Option => match leaf.ty {
            NodeType::OptionNone => read_none(leaf, alloc, ty),
            _ => Err(leaf.error(ParserErrorKind::InvalidType)),
        },
        WasmTypeKind::Result => match leaf.ty {
            NodeType::ResultOk => read_alone(leaf, alloc, ty, true),
            NodeType::ResultErr => read_alone(leaf, alloc, ty, false),
            _ => Err(leaf.error(ParserErrorKind::InvalidType)),
        },
        _ => leaf.read_simple(alloc, ty),
    }
}

/// The value of these flags at the type, which is none of a flat payload.
pub(crate) fn flags_at<V: WasmValue>(
    alloc: Global,
    ty: &V::Type,
    span: Span,
    flags: BTreeMap<&str, Span>,
) -> Result<V, ReadError>
    requires { (U : TypeTree) → IsFlatAt (V.Type.tree ty.now) node_type.Flags U → ⊥ }
    ensures read { IsReadOfFlags V.tree V.is_of V.is_full (V.Type.tree ty.now) span flags.entry result }
    ensures typed { IsOfType V.is_of (V.Type.tree ty.now) result }
{
    if ty.kind() == WasmTypeKind::Flags {
        return read_flags(alloc, ty, span, flags);
    }
    refuse_flags(alloc, ty, span)
}

/// What is read of flags that stand here at a type of another kind, which is none of a flat payload.
pub(crate) fn refuse_flags<V: WasmValue>(
    alloc: Global,
    ty: &V::Type,
    span: Span,
) -> Result<V, ReadError>
    requires kind { kind_of (V.Type.tree ty.now) ≢ WasmTypeKind.Flags }
    requires flat { (U : TypeTree) → IsFlatAt (V.Type.tree ty.now) node_type.Flags U → ⊥ }
    ensures { (o w : Order) (source : List ℕ) (n : NodeTree) → type_of n ≡ node_type.Flags → place_of n ≡ span
        → IsReadAs V.tree V.is_of V.is_full o w (V.Type.tree ty.now) source n result }
{
    match ty.kind() {
        WasmTypeKind::Flags
        | WasmTypeKind::List
        | WasmTypeKind::FixedLengthList
        | WasmTypeKind::Tuple
        | WasmTypeKind::Record
        | WasmTypeKind::Map
        | WasmTypeKind::Variant
        | WasmTypeKind::Enum
        | WasmTypeKind::Option
        | WasmTypeKind::Result => Err(ReadError::new(ParserErrorKind::InvalidType, span)),
        _ => refuse_form(alloc, ty, span),
    }
}
