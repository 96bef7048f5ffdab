//! Enums, read at their types.
ghost use Rattle.std.specs.Prelude.{◌≡◌};
ghost use Rattle.wave_wasm.specs.Types.{kind_of};
ghost use Rattle.wave_wasm.specs.ValueErrors.{unknown_case};
ghost use Rattle.wave_grammar.specs.NodeTree.{place_of};
ghost use Rattle.wave_grammar.specs.PartReading.{IsCaused};
ghost use Rattle.wave_leaf.specs.Leaves.{leaf_node};
ghost use Rattle.wave_leaf.specs.Reading.{IsReadOfLeaf};

use std::alloc::Global;
use wave_grammar::form::NodeType;
use wave_grammar::label::label_name;
use wave_leaf::error::ReadError;
use wave_leaf::leaf::LeafToken;
use wave_lex::error::ParserErrorKind;
use wave_wasm::wasm::{WasmType, WasmTypeKind, WasmValue, WasmValueError};

/// An enum: the name of one of its cases.
pub(crate) fn read_enum<V: WasmValue>(
    leaf: &LeafToken<'_>,
    alloc: Global,
    ty: &V::Type,
) -> Result<V, ReadError>
    requires { kind_of (V.Type.tree ty.now) ≡ WasmTypeKind.Enum }
    ensures { IsReadOfLeaf V.tree V.is_of V.is_full (V.Type.tree ty.now) leaf.now result }
{
    if leaf.ty != NodeType::Label {
        return Err(leaf.error(ParserErrorKind::InvalidType));
    }
    let name = label_name(leaf.text);
    match V::make_enum(alloc, ty, name) {
        Ok(val) => Ok(val),
        Err(cause) => match ty.has_enum_case(alloc, name) {
            Ok(true) => Err(leaf.refused(alloc, cause)),
            Ok(false) => Err(no_case(leaf, alloc, name)),
            Err(_) => Err(leaf.error(ParserErrorKind::OutOfMemory)),
        },
    }
}

/// A refusal at the leaf because the type has no case of this name.
pub(crate) fn no_case(leaf: &LeafToken<'_>, alloc: Global, name: &str) -> ReadError
    ensures cause { IsCaused (unknown_case name.now) (leaf_node leaf.now) result }
    ensures span { result.span ≡ place_of (leaf_node leaf.now) }
{
    match String::from_str(alloc, name) {
        Ok(name) => leaf.refused(alloc, WasmValueError::UnknownCase(name)),
        Err(error) => leaf.refused(alloc, WasmValueError::Memory(error)),
    }
}
