//! The builder that reads values of a type.
ghost use Rattle.std.specs.Prelude.{ℕ, ◌≡◌, ◌++◌, List, [], ◌∷◌, length, Option, Some, Err, IfOk, IfErr, IfSome, IfNone};
ghost use Rattle.wave_wasm.specs.Types.{TypeTree, kind_of};
ghost use Rattle.wave_wasm.specs.Borrowed.{denoted};
ghost use Rattle.wave_grammar.specs.SpannedTree.{slice};
ghost use Rattle.wave_grammar.specs.FaultOrder.{Order, in_text, by_type};
ghost use Rattle.wave_grammar.specs.FlagParts.{AreFlagsOf, flag_nodes};
ghost use Rattle.wave_grammar.specs.NodeParts.{IsOfParts, IsOneToken, TakesKey, TakesPart};
ghost use Rattle.wave_grammar.specs.NodeTree.{NodeTree, node, no_nodes, node_trees, type_of, place_of};
ghost use Rattle.wave_grammar.specs.declared.form.NodeType.{NodeType};
ghost use Rattle.wave_grammar.specs.declared.form.NodeType.TheVariants as node_type;
ghost use Rattle.wave_leaf.specs.Leaves.{leaf_node, IsLeafIn};
ghost use Rattle.wave_leaf.specs.PlainReading.{IsReadSparing, TakesMemory};
ghost use Rattle.wave_read.specs.Private.Leaves.{IsTokenOfSome};
ghost use Rattle.wave_leaf.specs.Reading.{IsReadAs};
ghost use Rattle.wave_read.specs.Flat.{IsWrapper, IsWrapperWhereExpected, IsCounted, IsOfPartWithin, ReadsFlags, ReadsNoRecord};
ghost use Rattle.wave_read.specs.KeptParts.{AreKeptOfSome, AreKeptWhereExpected};
ghost use Rattle.wave_read.specs.PartsOfKinds.{AreRefusedAtOnce, next_expected};

use crate::flat::{wrap, wrapper_and_type};
use crate::leaves::{flags_at, read_leaf, refuse_flags};
use crate::parts::Partial;
use std::alloc::{AllocError, Global};
use std::collections::BTreeMap;
use wave_grammar::builder::Builder;
use wave_grammar::form::NodeType;
use wave_leaf::error::{ReadError, Reason};
use wave_leaf::fault::Fault;
use wave_leaf::leaf::LeafToken;
use wave_lex::error::ParserErrorKind;
use wave_lex::lex::Span;
use wave_wasm::wasm::{WasmType, WasmTypeKind, WasmValue};

/// The builder that reads a value of the type that is expected. Where none is expected nothing is kept, and the
/// answer is worth nothing.
#[derive_where(Clone, Copy)]
pub struct ValueBuilder<'ty, V: WasmValue> {
    expected: Option<&'ty V::Type>,
}

impl<'ty, V: WasmValue> ValueBuilder<'ty, V> {
    /// The builder that reads a value of the type.
    pub fn new(ty: &'ty V::Type) -> Self
        ensures { result.expected ≡ Some ty.entry }
    {
        ValueBuilder { expected: Some(ty) }
    }

    /// The type of the record that is expected at a node of entries, after the option or result that
    /// wraps it.
    pub fn record(self, node: NodeType) -> Option<(Option<&'ty V::Type>, &'ty V::Type)>
        ensures node { IfSome result (λ _. node ≡ node_type.TupleSet) }
        ensures wrapper { IfSome result (λ found. IsWrapperWhereExpected V.Type.tree (denoted V.Type.tree self.entry.expected) node_type.TupleSet found.0 found.1) }
        ensures kind { IfSome result (λ found. kind_of (V.Type.tree found.1.now) ≡ WasmTypeKind.Record) }
        ensures none { IfNone result ((T : TypeTree) → denoted V.Type.tree self.entry.expected ≡ Some T → ReadsNoRecord T node) }
    {
        if node != NodeType::TupleSet {
            return None;
        }
        let (wrapper, ty) = wrapper_and_type(self.expected?, NodeType::TupleSet);
        match ty.kind() {
            WasmTypeKind::Record => Some((wrapper, ty)),
            _ => None,
        }
    }

    /// What is read of a node of flags that stands here, where no flags are expected.
    pub fn no_flags(self, alloc: Global, span: Span) -> Option<Result<V, ReadError>>
        ensures read { IfSome result (λ built. (o w : Order) (source : List ℕ) (n : NodeTree) → type_of n ≡ node_type.Flags → place_of n ≡ span
            → IsReadSparing V.tree V.is_of V.is_full o w (denoted V.Type.tree self.entry.expected) source n built) }
        ensures expected { IfNone result ((T : TypeTree) → denoted V.Type.tree self.entry.expected ≡ Some T → ReadsFlags T) }
    {
        let expected = match self.expected {
            Some(expected) => expected,
            None => return Some(Err(ReadError::new(ParserErrorKind::InvalidType, span))),
        };
        let (wrapper, ty) = wrapper_and_type(expected, NodeType::Flags);
        if ty.kind() == WasmTypeKind::Flags {
            return None;
        }
        let built = refuse_flags::<V>(alloc, ty, span.start..span.end);
        Some(wrapped(alloc, wrapper, ty, span, built))
    }

    /// Adds the part of this token, which is read by the builder of the part.
    #[inline(never)]
    fn push_token(
        self,
        alloc: Global,
        parts: &mut Frame<'ty, V::Type, V>,
        leaf: &LeafToken<'_>,
    ) -> Result<(), AllocError>
        requires { IsTokenOfSome leaf.now }
        ensures kept { IfOk result (λ _. (w : Order) (expected : Option TypeTree) (source : List ℕ) (whole : NodeType) (children : List NodeTree)
            → IsLeafIn source leaf.now → TakesPart whole children
            → AreKeptWhereExpected V.Type.tree V.tree V.is_of V.is_full w expected source whole children parts.old
            → AreKeptWhereExpected V.Type.tree V.tree V.is_of V.is_full w expected source whole (children ++ leaf_node leaf.now ∷ []) parts.new) }
        ensures memory { IfErr result (λ _. (w : Order) (expected : Option TypeTree) (source : List ℕ) (whole : NodeType) (children : List NodeTree)
            → AreKeptWhereExpected V.Type.tree V.tree V.is_of V.is_full w expected source whole children parts.old → TakesMemory expected) }
    {
        let built = self
            .part(parts)
            .leaf(alloc, leaf.ty, leaf.span.start..leaf.span.end, leaf.text);
        self.push_part(alloc, parts, built)
    }
}

/// What was read of a node that stands there, within the option or result that wraps it: at the type
/// of the flat payload, where one is.
pub fn wrapped<V: WasmValue>(
    alloc: Global,
    whole: Option<&V::Type>,
    ty: &V::Type,
    span: Span,
    built: Result<V, ReadError>,
) -> Result<V, ReadError>
    requires { IsOfPartWithin V.Type.tree V.is_of whole built }
    ensures { (o w : Order) (T : TypeTree) (source : List ℕ) (n : NodeTree) → IsWrapper V.Type.tree T (type_of n) whole.entry ty.entry → place_of n ≡ span
        → IsReadAs V.tree V.is_of V.is_full o w (V.Type.tree ty.now) source n built → IsReadAs V.tree V.is_of V.is_full o w T source n result }
{
    match whole {
        Some(whole) => wrap(alloc, whole, span, built),
        None => built,
    }
}

/// What has been read of the parts of a value, or of the flat payload that stands for the value.
#[derive(Drop)]
pub struct Frame<'ty, T, V> {
    wrapper: Option<&'ty T>,
    parts: Partial<'ty, T, V>,
}

impl<'ty, V: WasmValue> Frame<'ty, V::Type, V> {
    /// No parts yet, of a value of the type at a node of this one.
    #[inline(always)]
    fn new(alloc: Global, ty: &'ty V::Type, of: NodeType) -> Self
        ensures begun { (w : Order) (source : List ℕ) → IsOfParts of
            → AreKeptWhereExpected V.Type.tree V.tree V.is_of V.is_full w (Some (V.Type.tree ty.now)) source of [] result }
        ensures rejected { AreRefusedAtOnce V.Type.tree V.tree V.is_of V.is_full (V.Type.tree ty.now) of result.parts }
    {
        let (wrapper, expected) = wrapper_and_type(ty, of);
        Frame {
            wrapper,
            parts: Partial::new(alloc, expected, of),
        }
    }

    /// The refusal of a node that stands here and has this many parts, before any of them is read: where
    /// the type takes no such form, or tuples of another number of items.
    pub fn refused(&self, span: Span, count: usize) -> Option<ReadError>
        ensures refused { IfSome result (λ error. (w : Order) (expected : Option TypeTree) (source : List ℕ) (ty : NodeType) (children : List NodeTree)
            → IsOfParts ty → length children ≡ count → AreKeptWhereExpected V.Type.tree V.tree V.is_of V.is_full w expected source ty [] self.now
            → ((T : TypeTree) → expected ≡ Some T → AreRefusedAtOnce V.Type.tree V.tree V.is_of V.is_full T ty self.now.parts)
            → IsReadSparing V.tree V.is_of V.is_full by_type w expected source (node ty span (node_trees children)) (Err error)) }
        ensures counted { IfNone result ((w : Order) (T : TypeTree) (source : List ℕ) (ty : NodeType) → IsOfParts ty
            → AreKeptWhereExpected V.Type.tree V.tree V.is_of V.is_full w (Some T) source ty [] self.now
            → AreRefusedAtOnce V.Type.tree V.tree V.is_of V.is_full T ty self.now.parts → IsCounted T ty count) }
    {
        match &self.parts {
            Partial::Faulty(fault) => fault.of_kind(span),
            Partial::TupleItems(row) => row.miscounted(span, count),
            _ => None,
        }
    }
}

impl<'ty, V: WasmValue> Builder for ValueBuilder<'ty, V> {
    type Built = Result<V, ReadError>;

    type Parts = Frame<'ty, V::Type, V>;

    ghost use Rattle.wave_wasm.specs.Borrowed.{denoted};
    ghost use Rattle.wave_grammar.specs.FaultOrder.{in_text};
    ghost use Rattle.wave_leaf.specs.PlainReading.{IsReadSparing, TakesMemory};
    ghost use Rattle.wave_read.specs.KeptParts.{AreKeptWhereExpected, next_takes};
    ghost use Rattle.wave_read.specs.PartsOfKinds.{next_expected};

    ghost is_built = { λ builder source n built. IsReadSparing V.tree V.is_of V.is_full in_text in_text (denoted V.Type.tree builder.expected) source n built };

    ghost are_parts = { λ builder source ty children kept.
        AreKeptWhereExpected V.Type.tree V.tree V.is_of V.is_full in_text (denoted V.Type.tree builder.expected) source ty children kept };

    ghost next = { λ builder kept. record builder { expected = next_expected kept.parts } };

    ghost takes_memory = { λ builder. TakesMemory (denoted V.Type.tree builder.expected) };

    ghost next_takes = { λ builder source ty children kept are takes.
        next_takes V.Type.tree V.tree V.is_of V.is_full in_text (denoted V.Type.tree builder.expected) source ty children kept are takes };

    #[inline(always)]
    fn leaf(self, alloc: Global, ty: NodeType, span: Span, text: &str) -> Result<V, ReadError>
        requires one { IsOneToken ty }
        requires text { (source : List ℕ) × (text.now ≡ slice source span) }
        ensures { (o w : Order) (source : List ℕ) → IsOneToken ty → text.now ≡ slice source span
            → IsReadSparing V.tree V.is_of V.is_full o w (denoted V.Type.tree self.entry.expected) source (node ty span no_nodes) result }
    {
        let leaf = LeafToken { ty, span, text };
        match self.expected {
            Some(expected) => match leaf.read_fast(alloc, expected) {
                Some(val) => Ok(val),
                None => read_leaf(&leaf, alloc, expected),
            },
            None => Err(ReadError::new(ParserErrorKind::InvalidType, leaf.span)),
        }
    }

    #[inline(always)]
    fn parts(self, alloc: Global, ty: NodeType) -> Frame<'ty, V::Type, V>
        ensures begun { (w : Order) (source : List ℕ) → IsOfParts ty
            → AreKeptWhereExpected V.Type.tree V.tree V.is_of V.is_full w (denoted V.Type.tree self.entry.expected) source ty [] result }
        ensures rejected { (T : TypeTree) → denoted V.Type.tree self.entry.expected ≡ Some T → AreRefusedAtOnce V.Type.tree V.tree V.is_of V.is_full T ty result.parts }
    {
        match self.expected {
            Some(expected) => Frame::new(alloc, expected, ty),
            None => Frame {
                wrapper: None,
                parts: Partial::Faulty(Fault::Whole(Reason::Plain(ParserErrorKind::InvalidType))),
            },
        }
    }

    #[inline(always)]
    fn part(self, parts: &Frame<'ty, V::Type, V>) -> Self {
        ValueBuilder {
            expected: parts.parts.next(),
        }
    }

    #[inline(always)]
    fn push_key(
        self,
        alloc: Global,
        parts: &mut Frame<'ty, V::Type, V>,
        ty: NodeType,
        span: Span,
        text: &str,
    ) -> Result<(), AllocError>
        ensures kept { IfOk result (λ _. (w : Order) (expected : Option TypeTree) (source : List ℕ) (whole : NodeType) (children : List NodeTree)
            → text.now ≡ slice source span → TakesKey whole children
            → AreKeptWhereExpected V.Type.tree V.tree V.is_of V.is_full w expected source whole children parts.old
            → AreKeptWhereExpected V.Type.tree V.tree V.is_of V.is_full w expected source whole (children ++ node ty span no_nodes ∷ []) parts.new) }
        ensures memory { IfErr result (λ _. (w : Order) (expected : Option TypeTree) (source : List ℕ) (whole : NodeType) (children : List NodeTree)
            → AreKeptWhereExpected V.Type.tree V.tree V.is_of V.is_full w expected source whole children parts.old → TakesMemory expected) }
    {
        parts.parts.push_key(alloc, ty, span, text)
    }

    #[inline(always)]
    fn push_part(
        self,
        alloc: Global,
        parts: &mut Frame<'ty, V::Type, V>,
        built: Result<V, ReadError>,
    ) -> Result<(), AllocError>
        ensures kept { IfOk result (λ _. (w : Order) (expected : Option TypeTree) (source : List ℕ) (whole : NodeType) (children : List NodeTree) (n : NodeTree)
            → TakesPart whole children → AreKeptWhereExpected V.Type.tree V.tree V.is_of V.is_full w expected source whole children parts.old
            → IsReadSparing V.tree V.is_of V.is_full w w (denoted V.Type.tree (next_expected parts.old.parts)) source n built
            → AreKeptWhereExpected V.Type.tree V.tree V.is_of V.is_full w expected source whole (children ++ n ∷ []) parts.new) }
        ensures memory { IfErr result (λ _. (w : Order) (expected : Option TypeTree) (source : List ℕ) (whole : NodeType) (children : List NodeTree)
            → AreKeptWhereExpected V.Type.tree V.tree V.is_of V.is_full w expected source whole children parts.old → TakesMemory expected) }
    {
        parts.parts.push_part(alloc, built)
    }

    #[inline(always)]
    fn push_leaf(
        self,
        alloc: Global,
        parts: &mut Frame<'ty, V::Type, V>,
        ty: NodeType,
        span: Span,
        text: &str,
    ) -> Result<(), AllocError> {
        let leaf = LeafToken { ty, span, text };
        if parts.parts.push_fast(alloc, &leaf)? {
            return Ok(());
        }
        self.push_token(alloc, parts, &leaf)
    }

    #[inline(always)]
    fn finish(
        self,
        alloc: Global,
        ty: NodeType,
        span: Span,
        parts: Frame<'ty, V::Type, V>,
    ) -> Result<V, ReadError>
        requires { AreKeptOfSome V.Type.tree V.tree V.is_of V.is_full parts }
        ensures { (w : Order) (expected : Option TypeTree) (source : List ℕ) (of : NodeType) (children : List NodeTree)
            → AreKeptWhereExpected V.Type.tree V.tree V.is_of V.is_full w expected source of children parts.entry
            → IsReadSparing V.tree V.is_of V.is_full in_text w expected source (node of span (node_trees children)) result }
    {
        let Frame {
            wrapper: whole,
            parts,
        } = parts;
        match whole {
            Some(whole) => {
                let place = span.start..span.end;
                let built = parts.finish(alloc, span);
                wrap(alloc, whole, place, built)
            }
            None => parts.finish(alloc, span),
        }
    }

    fn flags(
        self,
        alloc: Global,
        span: Span,
        flags: BTreeMap<&str, Span>,
    ) -> Result<Result<V, ReadError>, AllocError>
        ensures { IfOk result (λ built. (o w : Order) (source : List ℕ) → AreFlagsOf source flags.entry
            → IsReadSparing V.tree V.is_of V.is_full o w (denoted V.Type.tree self.entry.expected) source (node node_type.Flags span (flag_nodes flags.entry)) built) }
    {
        let Some(expected) = self.expected else {
            return Ok(Err(ReadError::new(ParserErrorKind::InvalidType, span)));
        };
        let (wrapper, ty) = wrapper_and_type(expected, NodeType::Flags);
        let built = flags_at::<V>(alloc, ty, span.start..span.end, flags);
        Ok(wrapped(alloc, wrapper, ty, span, built))
    }
}
