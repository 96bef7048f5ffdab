//! Results, read at their types.
ghost use Rattle.std.specs.Prelude.{ℕ, List, [], ◌≡◌, IfOk, IfErr, None};
ghost use Rattle.wave_wasm.specs.Types.{TypeTree, kind_of};
ghost use Rattle.wave_wasm.specs.Borrowed.{denoted};
ghost use Rattle.wave_grammar.specs.FaultOrder.{Order};
ghost use Rattle.wave_grammar.specs.NodeTree.{NodeTree, node, node_trees, place_of};
ghost use Rattle.wave_grammar.specs.NodeAccessors.{first_of};
ghost use Rattle.wave_grammar.specs.PartReading.{IsCaused, IsPayloadOf, AnswersPayload};
ghost use Rattle.wave_grammar.specs.ErrorSpans.{RefusesInPart};
ghost use Rattle.wave_leaf.specs.Leaves.{leaf_node};
ghost use Rattle.wave_leaf.specs.Reading.{IsReadAs};
ghost use Rattle.wave_read.specs.Payloads.{AreOfResult, IsReadPayload, result_node, result_expected};
ghost use Rattle.wave_read.specs.Private.Payloads.{IsOfPayloadType, payload_cause, result_name, result_with};
ghost use Rattle.wave_read.specs.Private.PartSteps.{AddsPart, WereRead};

use std::alloc::{AllocError, Global};
use wave_leaf::error::ReadError;
use wave_leaf::fault::or_error_at;
use wave_leaf::leaf::LeafToken;
use wave_lex::lex::Span;
use wave_wasm::wasm::{WasmType, WasmTypeKind, WasmValue, WasmValueError};

/// What has been read of `ok` or `err`, with a payload or without.
#[derive(Drop)]
pub struct ResultPayload<'ty, T, V> {
    /// The type of the result.
    ty: &'ty T,
    /// Whether it is `ok`.
    is_ok: bool,
    /// The type of the payload, where one is expected.
    pub(crate) expected: Option<&'ty T>,
    /// The payload or its refusal, once it was read; where none is expected, whatever was made of it.
    built: Option<Result<V, ReadError>>,
}

impl<'ty, V: WasmValue> ResultPayload<'ty, V::Type, V> {
    /// Nothing yet, of `ok` or of `err` at the type.
    pub(crate) fn new(ty: &'ty V::Type, is_ok: bool) -> Self
        requires { kind_of (V.Type.tree ty.now) ≡ WasmTypeKind.Result }
        ensures parts { (w : Order) (source : List ℕ) → AreOfResult V.Type.tree V.tree V.is_of V.is_full w (V.Type.tree ty.now) source [] result }
        ensures case { result.is_ok ≡ is_ok }
    {
        let (ok, err) = ty.result_types().unwrap();
        ResultPayload {
            ty,
            is_ok,
            expected: if is_ok { ok } else { err },
            built: None,
        }
    }

    /// The payload was read, or refused.
    #[inline(never)]
    pub(crate) fn push_part(
        &mut self,
        alloc: Global,
        built: Result<V, ReadError>,
    ) -> Result<(), AllocError>
        ensures parts { IfOk result (λ _. AddsPart AreOfResult V.Type.tree V.tree V.is_of V.is_full (result_node self.old.is_ok) result_expected
            self.old built self.new None) }
        ensures case { self.new.is_ok ≡ self.old.is_ok }
    {
        self.built = Some(built);
        Ok(())
    }

    /// `ok` or `err` with the payload that was read at its type, or without one, at this place.
    pub(crate) fn finish(self, alloc: Global, span: Span) -> Result<V, ReadError>
        requires { WereRead AreOfResult V.Type.tree V.tree V.is_of V.is_full self }
        ensures { (o w : Order) (T : TypeTree) (source : List ℕ) (children : List NodeTree) → AreOfResult V.Type.tree V.tree V.is_of V.is_full w T source children self.entry
            → IsReadAs V.tree V.is_of V.is_full o w T source (node (result_node self.entry.is_ok) span (node_trees children)) result }
    {
        let ResultPayload {
            ty,
            is_ok,
            expected,
            built,
        } = self;
        match read_payload(
            alloc,
            case_name(is_ok),
            expected,
            built,
            span.start..span.end,
        ) {
            Ok(payload) => {
                let mut payload = case_with(is_ok, payload);
                or_error_at(
                    alloc,
                    span,
                    V::make_result_unchecked(alloc, ty, &mut payload),
                )
            }
            Err(error) => Err(error),
        }
    }
}

/// The name of the case.
fn case_name(is_ok: bool) -> &'static str
    ensures { result.now ≡ result_name is_ok }
{
    if is_ok { "ok" } else { "err" }
}

/// `ok` or `err` with this payload.
fn case_with<V>(is_ok: bool, payload: Option<V>) -> Result<Option<V>, Option<V>>
    ensures { result ≡ result_with is_ok payload }
{
    if is_ok { Ok(payload) } else { Err(payload) }
}

/// `ok` or `err` without a payload.
pub(crate) fn read_alone<V: WasmValue>(
    leaf: &LeafToken<'_>,
    alloc: Global,
    ty: &V::Type,
    is_ok: bool,
) -> Result<V, ReadError>
    requires form { leaf.now.ty ≡ result_node is_ok }
    requires kind { kind_of (V.Type.tree ty.now) ≡ WasmTypeKind.Result }
    ensures { (o w : Order) (source : List ℕ) → IsReadAs V.tree V.is_of V.is_full o w (V.Type.tree ty.now) source (leaf_node leaf.now) result }
{
    let payload = ResultPayload::new(ty, is_ok);
    payload.finish(alloc, leaf.span.start..leaf.span.end)
}

/// The payload of the case of this name, where one is expected; the case stands there.
fn read_payload<V: WasmValue>(
    alloc: Global,
    name: &str,
    expected: Option<&V::Type>,
    built: Option<Result<V, ReadError>>,
    span: Span,
) -> Result<Option<V>, ReadError>
    ensures answer { (w : Order) (source : List ℕ) (children : List NodeTree) (n : NodeTree) → place_of n ≡ span
        → IsReadPayload V.tree V.is_of V.is_full w (denoted V.Type.tree expected.entry) source children built
        → AnswersPayload V.tree V.is_of V.is_full w name.now (denoted V.Type.tree expected.entry) source n (first_of children) result }
    ensures within { (w : Order) (source : List ℕ) (children : List NodeTree) (n : NodeTree) → place_of n ≡ span
        → IsReadPayload V.tree V.is_of V.is_full w (denoted V.Type.tree expected.entry) source children built
        → IsPayloadOf source (first_of children) → IfErr result (RefusesInPart n (first_of children)) }
    ensures typed { (w : Order) (source : List ℕ) (children : List NodeTree)
        → IsReadPayload V.tree V.is_of V.is_full w (denoted V.Type.tree expected.entry) source children built
        → IfOk result (IsOfPayloadType V.is_of (denoted V.Type.tree expected.entry)) }
{
    match expected {
        Some(_) => match built {
            Some(Ok(val)) => Ok(Some(val)),
            Some(Err(error)) => Err(error),
            None => Err(refused_payload(alloc, name, true, span)),
        },
        None => match built {
            Some(_) => Err(refused_payload(alloc, name, false, span)),
            None => Ok(None),
        },
    }
}

/// A refusal, at this place, of the payload of the case of this name: it is expected and not there, or
/// there and not expected.
fn refused_payload(alloc: Global, name: &str, is_needed: bool, span: Span) -> ReadError
    ensures cause { (n : NodeTree) → place_of n ≡ span → IsCaused (payload_cause is_needed name.now) n result }
    ensures span { result.span ≡ span }
{
    let cause = match String::from_str(alloc, name) {
        Err(error) => WasmValueError::Memory(error),
        Ok(name) if is_needed => WasmValueError::MissingPayload(name),
        Ok(name) => WasmValueError::UnexpectedPayload(name),
    };
    ReadError::with_cause(alloc, span, cause)
}
