//! Options, read at their types.
ghost use Rattle.std.specs.Prelude.{ℕ, List, [], ◌≡◌, IfOk, None};
ghost use Rattle.wave_wasm.specs.Types.{kind_of};
ghost use Rattle.wave_grammar.specs.FaultOrder.{Order};
ghost use Rattle.wave_grammar.specs.declared.form.NodeType.TheVariants as node_type;
ghost use Rattle.wave_leaf.specs.Leaves.{leaf_node};
ghost use Rattle.wave_leaf.specs.Reading.{IsReadAs};
ghost use Rattle.wave_read.specs.Payloads.{AreOfSome, some_expected};
ghost use Rattle.wave_read.specs.Private.PartSteps.{AddsPart, FinishesAs, WereRead};

use std::alloc::{AllocError, Global};
use wave_leaf::error::ReadError;
use wave_leaf::fault::or_error_at;
use wave_leaf::leaf::LeafToken;
use wave_lex::error::ParserErrorKind;
use wave_lex::lex::Span;
use wave_wasm::wasm::{WasmType, WasmTypeKind, WasmValue};

/// What has been read of `some` of a payload.
#[derive(Drop)]
pub struct SomePayload<'ty, T, V> {
    /// The type of the option.
    ty: &'ty T,
    /// The type of the payload.
    pub(crate) expected: &'ty T,
    /// The payload or its refusal, once it was read.
    built: Option<Result<V, ReadError>>,
}

impl<'ty, V: WasmValue> SomePayload<'ty, V::Type, V> {
    /// Nothing yet, of a value of the type.
    pub(crate) fn new(ty: &'ty V::Type) -> Self
        requires { kind_of (V.Type.tree ty.now) ≡ WasmTypeKind.Option }
        ensures { (w : Order) (source : List ℕ) → AreOfSome V.Type.tree V.tree V.is_of V.is_full w (V.Type.tree ty.now) source [] result }
    {
        SomePayload {
            ty,
            expected: ty.option_some_type().unwrap(),
            built: None,
        }
    }

    /// The payload was read, or refused.
    #[inline(never)]
    pub(crate) fn push_part(
        &mut self,
        alloc: Global,
        built: Result<V, ReadError>,
    ) -> Result<(), AllocError>
        ensures { IfOk result (λ _. AddsPart AreOfSome V.Type.tree V.tree V.is_of V.is_full node_type.OptionSome some_expected self.old built self.new None) }
    {
        self.built = Some(built);
        Ok(())
    }

    /// `some` of the payload that was read at its type, at this place.
    pub(crate) fn finish(self, alloc: Global, span: Span) -> Result<V, ReadError>
        requires { WereRead AreOfSome V.Type.tree V.tree V.is_of V.is_full self }
        ensures { FinishesAs AreOfSome V.Type.tree V.tree V.is_of V.is_full node_type.OptionSome self.entry span result }
    {
        let SomePayload {
            ty,
            expected: _,
            built,
        } = self;
        match built {
            Some(Ok(val)) => {
                let mut payload = Some(val);
                or_error_at(
                    alloc,
                    span,
                    V::make_option_unchecked(alloc, ty, &mut payload),
                )
            }
            Some(Err(error)) => Err(error),
            None => Err(ReadError::new(ParserErrorKind::InvalidType, span)),
        }
    }
}

/// `none`.
pub(crate) fn read_none<V: WasmValue>(
    leaf: &LeafToken<'_>,
    alloc: Global,
    ty: &V::Type,
) -> Result<V, ReadError>
    requires form { leaf.now.ty ≡ node_type.OptionNone }
    requires kind { kind_of (V.Type.tree ty.now) ≡ WasmTypeKind.Option }
    ensures { (o w : Order) (source : List ℕ) → IsReadAs V.tree V.is_of V.is_full o w (V.Type.tree ty.now) source (leaf_node leaf.now) result }
{
    leaf.or_error_here(alloc, V::make_option(alloc, ty, None))
}
