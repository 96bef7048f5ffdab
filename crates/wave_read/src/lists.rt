//! Lists and fixed-length lists, read at their types.
ghost use Rattle.std.specs.Prelude.{ℕ, List, [], ◌∷◌, ◌++◌, ◌≡◌, IfOk, IfErr, MatchBool, None};
ghost use Rattle.wave_wasm.specs.Types.{TypeTree, kind_of};
ghost use Rattle.wave_wasm.specs.ConstructorContracts.{IsOfListKind};
ghost use Rattle.wave_grammar.specs.FaultOrder.{Order};
ghost use Rattle.wave_grammar.specs.NodeTree.{NodeTree, NodeTrees, node};
ghost use Rattle.wave_grammar.specs.PartReading.{IsOfLength, IsOtherLength};
ghost use Rattle.wave_leaf.specs.Leaves.{leaf_node, IsLeafIn};
ghost use Rattle.wave_read.specs.ListParts.{AreItems, element_expected};
ghost use Rattle.wave_read.specs.Private.PartSteps.{AddsPart, FinishesAs, WereRead};

use std::alloc::{AllocError, Global};
use wave_grammar::form::NodeType;
use wave_leaf::error::{ReadError, Reason};
use wave_leaf::fault::or_error_at;
use wave_leaf::leaf::LeafToken;
use wave_lex::error::ParserErrorKind;
use wave_lex::lex::Span;
use wave_wasm::wasm::{WasmType, WasmValue};

/// The items of a list so far. A fixed-length list of another number of items is refused for the
/// number alone, so the refusal of an item is held until the end; the items after it are counted
/// and not kept.
#[derive(Drop)]
pub struct Items<'ty, T, V> {
    /// The type of the list.
    ty: &'ty T,
    /// The type of its items.
    pub(crate) element: &'ty T,
    /// The items that were read.
    items: Vec<V>,
    /// The refusal of the first item that was refused.
    pub(crate) held: Option<ReadError>,
    /// The number of all items so far.
    count: usize,
}

impl<'ty, V: WasmValue> Items<'ty, V::Type, V> {
    /// No items, of a list of the type.
    pub(crate) fn new(alloc: Global, ty: &'ty V::Type) -> Self
        requires { IsOfListKind (kind_of (V.Type.tree ty.now)) }
        ensures { (w : Order) (source : List ℕ) → AreItems V.Type.tree V.tree V.is_of V.is_full w (V.Type.tree ty.now) source [] result }
    {
        let element = ty.list_element_type().unwrap();
        Items {
            ty,
            element,
            items: Vec::new(alloc),
            held: None,
            count: 0,
        }
    }

    /// Adds an item, which was read at the type that is expected.
    #[inline(always)]
    pub(crate) fn push_part(
        &mut self,
        alloc: Global,
        built: Result<V, ReadError>,
    ) -> Result<(), AllocError>
        ensures { IfOk result (λ _. AddsPart AreItems V.Type.tree V.tree V.is_of V.is_full NodeType.List element_expected self.old built self.new None) }
    {
        match self.count.checked_add(1) {
            Some(count) => self.count = count,
            None => return Err(AllocError),
        }
        if self.held.is_some() {
            return Ok(());
        }
        match built {
            Ok(item) => {
                self.items.reserve(1)?;
                self.items.push_reserved(item);
                Ok(())
            }
            Err(error) => {
                self.held = Some(error);
                Ok(())
            }
        }
    }

    /// Adds the item of one token, where it is read at once; says whether it was.
    #[inline(always)]
    pub(crate) fn push_fast(
        &mut self,
        alloc: Global,
        leaf: &LeafToken<'_>,
    ) -> Result<bool, AllocError>
        ensures { IfOk result (λ added. MatchBool added
            ((w : Order) (T : TypeTree) (source : List ℕ) (children : List NodeTree) → IsLeafIn source leaf.now
            → AreItems V.Type.tree V.tree V.is_of V.is_full w T source children self.old
            → AreItems V.Type.tree V.tree V.is_of V.is_full w T source (children ++ leaf_node leaf.now ∷ []) self.new)
            (self.new ≡ self.old)) }
    {
        if self.held.is_some() {
            return Ok(false);
        }
        let item = match leaf.read_fast(alloc, self.element) {
            Some(item) => item,
            None => return Ok(false),
        };
        match self.count.checked_add(1) {
            Some(count) => self.count = count,
            None => return Err(AllocError),
        }
        self.items.reserve(1)?;
        self.items.push_reserved(item);
        Ok(true)
    }

    /// The list of these items, which stands here. They are of the element type, since they were read at
    /// it, and as many as the type says, so their types aren't compared again.
    pub(crate) fn finish(self, alloc: Global, span: Span) -> Result<V, ReadError>
        requires { WereRead AreItems V.Type.tree V.tree V.is_of V.is_full self }
        ensures { FinishesAs AreItems V.Type.tree V.tree V.is_of V.is_full NodeType.List self.entry span result }
    {
        let Items {
            ty,
            items,
            held,
            count,
            ..
        } = self;
        check_length(ty, count, &span)?;
        if let Some(error) = held {
            return Err(error);
        }
        let mut items = items;
        or_error_at(alloc, span, V::make_list_unchecked(alloc, ty, &mut items))
    }
}

/// Refuses a list of `got` items, which stands here, where the type is a fixed-length list of another
/// number.
fn check_length<T: WasmType>(ty: &T, got: usize, span: &Span) -> Result<(), ReadError>
    ensures fits { IfOk result (λ done. IsOfLength (T.tree ty.now) got) }
    ensures other { IfErr result (λ e. (children : NodeTrees) → IsOtherLength (T.tree ty.now) got (node NodeType.List span.now children) e) }
{
    let want = match ty.list_length() {
        Some(want) => want,
        None => return Ok(()),
    };
    if got != want as usize {
        let reason = Reason::Elements(ParserErrorKind::WasmValueError, want, got);
        return Err(ReadError::at(span.start..span.end, reason));
    }
    Ok(())
}
