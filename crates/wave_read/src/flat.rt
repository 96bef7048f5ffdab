//! Values that stand for an option or a result of themselves.
ghost use Rattle.std.specs.Prelude.{ℕ, List, ◌≡◌};
ghost use Rattle.wave_wasm.specs.Types.{TypeTree};
ghost use Rattle.wave_wasm.specs.Borrowed.{denoted};
ghost use Rattle.wave_grammar.specs.FaultOrder.{Order};
ghost use Rattle.wave_grammar.specs.NodeTree.{NodeTree, type_of, place_of};
ghost use Rattle.wave_leaf.specs.Reading.{IsReadAs};
ghost use Rattle.wave_read.specs.Flat.{IsFlatAt, IsWrapper, IsOfFlatPart};
ghost use Rattle.wave_read.specs.Private.Flat.{GivesFlatAt};

use std::alloc::Global;
use wave_grammar::form::NodeType;
use wave_grammar::typed::flat_type;
use wave_leaf::error::ReadError;
use wave_leaf::fault::or_error_at;
use wave_lex::error::ParserErrorKind;
use wave_lex::lex::Span;
use wave_wasm::wasm::{WasmType, WasmTypeKind, WasmValue};

/// The type of the payload that a node of this type stands for alone, where the type is an option or
/// a result.
pub(crate) fn flat_payload<'ty, T: WasmType>(ty: &'ty T, node: NodeType) -> Option<&'ty T>
    ensures { GivesFlatAt (T.tree ty.now) node (denoted T.tree result) }
{
    match ty.kind() {
        WasmTypeKind::Option => match node {
            NodeType::OptionSome | NodeType::OptionNone => None,
            _ => flat_type(ty.option_some_type()),
        },
        WasmTypeKind::Result => match node {
            NodeType::ResultOk | NodeType::ResultErr => None,
            _ => match ty.result_types() {
                Some((ok, _)) => flat_type(ok),
                None => None,
            },
        },
        _ => None,
    }
}

/// The option or result of which a node of this type is the flat payload, where it is one; and the type at
/// which the node is read.
pub(crate) fn wrapper_and_type<'ty, T: WasmType>(
    ty: &'ty T,
    node: NodeType,
) -> (Option<&'ty T>, &'ty T)
    ensures { IsWrapper T.tree (T.tree ty.now) node result.0 result.1 }
{
    match flat_payload(ty, node) {
        Some(payload) => (Some(ty), payload),
        None => (None, ty),
    }
}

/// The option or result of a flat payload that stands there, and was read at its type.
#[inline(never)]
pub(crate) fn wrap<V: WasmValue>(
    alloc: Global,
    ty: &V::Type,
    span: Span,
    built: Result<V, ReadError>,
) -> Result<V, ReadError>
    requires { IsOfFlatPart V.is_of (V.Type.tree ty.now) built }
    ensures { (o w : Order) (source : List ℕ) (n : NodeTree) (U : TypeTree) → IsFlatAt (V.Type.tree ty.now) (type_of n) U → place_of n ≡ span
        → IsReadAs V.tree V.is_of V.is_full o w U source n built → IsReadAs V.tree V.is_of V.is_full o w (V.Type.tree ty.now) source n result }
{
    let val = match built {
        Ok(val) => val,
        Err(error) => return Err(error),
    };
    match ty.kind() {
        WasmTypeKind::Option => {
            let mut payload = Some(val);
            or_error_at(
                alloc,
                span,
                V::make_option_unchecked(alloc, ty, &mut payload),
            )
        }
        WasmTypeKind::Result => {
            let mut payload = Ok(Some(val));
            or_error_at(
                alloc,
                span,
                V::make_result_unchecked(alloc, ty, &mut payload),
            )
        }
        _ => Err(ReadError::new(ParserErrorKind::InvalidType, span)),
    }
}
