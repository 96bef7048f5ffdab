//! Variants, read at their types.
ghost use Rattle.std.specs.Prelude.{ℕ, ◌≡◌, List, [], Ok, None, IfOk};
ghost use Rattle.wave_wasm.specs.Types.{kind_of};
ghost use Rattle.wave_wasm.specs.ValueErrors.{missing_payload};
ghost use Rattle.wave_grammar.specs.FaultOrder.{Order};
ghost use Rattle.wave_grammar.specs.NodeTree.{place_of};
ghost use Rattle.wave_grammar.specs.declared.form.NodeType.TheVariants as node_type;
ghost use Rattle.wave_grammar.specs.PartReading.{IsCaused};
ghost use Rattle.wave_leaf.specs.Leaves.{leaf_node};
ghost use Rattle.wave_read.specs.CaseParts.{AreCaseParts, payload_expected};
ghost use Rattle.wave_read.specs.Private.PartSteps.{AddsKey, AddsPart, FinishesAs, WereRead};
ghost use Rattle.wave_leaf.specs.Reading.{IsReadOfLeaf};

use crate::enums::no_case;
use std::alloc::{AllocError, Global};
use wave_grammar::form::NodeType;
use wave_grammar::label::label_name;
use wave_leaf::error::ReadError;
use wave_leaf::fault::{Fault, caused, or_error_at};
use wave_leaf::leaf::LeafToken;
use wave_lex::error::ParserErrorKind;
use wave_lex::lex::Span;
use wave_wasm::wasm::{WasmType, WasmTypeKind, WasmValue, WasmValueError};

/// What has been read of a case and its payload.
#[derive(Drop)]
pub struct CasePayload<'ty, T, V> {
    /// The type of the variant.
    ty: &'ty T,
    /// The name of the case and the type of its payload, once its label was read.
    pub(crate) case: Option<(&'ty str, &'ty T)>,
    /// The payload, once it was read.
    payload: Option<V>,
}

impl<'ty, V: WasmValue> CasePayload<'ty, V::Type, V> {
    /// Nothing yet, of a value of the type.
    pub(crate) fn new(ty: &'ty V::Type) -> Self
        requires { kind_of (V.Type.tree ty.now) ≡ WasmTypeKind.Variant }
        ensures { (w : Order) (source : List ℕ) → AreCaseParts V.Type.tree V.tree V.is_of V.is_full w (V.Type.tree ty.now) source [] result }
    {
        CasePayload {
            ty,
            case: None,
            payload: None,
        }
    }

    /// The label of the case is read: the type has such a case, and the case has a payload; or that is
    /// wrong.
    pub(crate) fn push_key(
        &mut self,
        alloc: Global,
        ty: NodeType,
        span: Span,
        text: &str,
    ) -> Result<Option<Fault>, AllocError>
        ensures { IfOk result (AddsKey AreCaseParts V.Type.tree V.tree V.is_of V.is_full node_type.VariantWithPayload self.old ty span text.now self.new) }
    {
        let name = label_name(text);
        match self.ty.variant_case(alloc, name)? {
            Some((case, Some(payload))) => {
                self.case = Some((case, payload));
                Ok(None)
            }
            Some((_, None)) => {
                let name = String::from_str(alloc, name)?;
                let cause = WasmValueError::UnexpectedPayload(name);
                Ok(Some(caused(alloc, cause)))
            }
            None => {
                let name = String::from_str(alloc, name)?;
                let cause = WasmValueError::UnknownCase(name);
                Ok(Some(caused(alloc, cause)))
            }
        }
    }

    /// The payload is read.
    pub(crate) fn push_part(&mut self, val: V)
        ensures { AddsPart AreCaseParts V.Type.tree V.tree V.is_of V.is_full node_type.VariantWithPayload payload_expected self.old (Ok val) self.new None }
    {
        drop(self.payload.replace(val));
    }

    /// The variant of the case and the payload that were read, the payload at its type, at this place.
    pub(crate) fn finish(self, alloc: Global, span: Span) -> Result<V, ReadError>
        requires { WereRead AreCaseParts V.Type.tree V.tree V.is_of V.is_full self }
        ensures { FinishesAs AreCaseParts V.Type.tree V.tree V.is_of V.is_full node_type.VariantWithPayload self.entry span result }
    {
        let CasePayload { ty, case, payload } = self;
        let (name, val) = match (case, payload) {
            (Some((name, _)), Some(val)) => (name, val),
            _ => return Err(ReadError::new(ParserErrorKind::InvalidType, span)),
        };
        let mut payload = Some(val);
        or_error_at(
            alloc,
            span,
            V::make_variant_unchecked(alloc, ty, name, &mut payload),
        )
    }
}

/// A variant of a case without a payload.
pub(crate) fn read_case<V: WasmValue>(
    leaf: &LeafToken<'_>,
    alloc: Global,
    ty: &V::Type,
) -> Result<V, ReadError>
    requires { kind_of (V.Type.tree ty.now) ≡ WasmTypeKind.Variant }
    ensures { IsReadOfLeaf V.tree V.is_of V.is_full (V.Type.tree ty.now) leaf.now result }
{
    if leaf.ty != NodeType::Label {
        return Err(leaf.error(ParserErrorKind::InvalidType));
    }
    let name = label_name(leaf.text);
    match V::make_variant(alloc, ty, name, None) {
        Ok(val) => Ok(val),
        Err(cause) => match ty.variant_case(alloc, name) {
            Ok(Some((_, Some(_)))) => Err(no_payload(leaf, alloc, name)),
            Ok(Some((_, None))) => Err(leaf.refused(alloc, cause)),
            Ok(None) => Err(no_case(leaf, alloc, name)),
            Err(_) => Err(leaf.error(ParserErrorKind::OutOfMemory)),
        },
    }
}

/// A refusal at the leaf because the case of this name has a payload.
fn no_payload(leaf: &LeafToken<'_>, alloc: Global, name: &str) -> ReadError
    ensures cause { IsCaused (missing_payload name.now) (leaf_node leaf.now) result }
    ensures span { result.span ≡ place_of (leaf_node leaf.now) }
{
    match String::from_str(alloc, name) {
        Ok(name) => leaf.refused(alloc, WasmValueError::MissingPayload(name)),
        Err(error) => leaf.refused(alloc, WasmValueError::Memory(error)),
    }
}
