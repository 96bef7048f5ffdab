//! Tuples, read at their types.
ghost use Rattle.std.specs.Prelude.{ℕ, List, [], ◌≡◌, ◌≢◌, Ok, Err, None, length, IfOk, IfSome, MatchOption};
ghost use Rattle.wave_wasm.specs.Types.{kind_of};
ghost use Rattle.wave_wasm.specs.ValueErrors as causes;
ghost use Rattle.wave_lex.specs.Errors.{caused, refusal_of};
ghost use Rattle.wave_grammar.specs.FaultOrder.{Order};
ghost use Rattle.wave_read.specs.TupleParts.{IsRow, item_expected};
ghost use Rattle.wave_read.specs.Private.PartSteps.{AddsPart, FinishesAs, WereRead};

use std::alloc::{AllocError, Global};
use wave_grammar::form::NodeType;
use wave_leaf::error::{ReadError, Reason};
use wave_leaf::fault::{Fault, or_error_at};
use wave_lex::error::ParserErrorKind;
use wave_lex::lex::Span;
use wave_wasm::wasm::{WasmType, WasmTypeKind, WasmValue};

/// The items of a tuple so far. Items beyond those that the type has are counted and not kept.
#[derive(Drop)]
pub struct TupleItems<'ty, T, V> {
    /// The type of the tuple.
    ty: &'ty T,
    /// The types of its items.
    types: Vec<&'ty T>,
    /// The items that were read.
    items: Vec<V>,
    /// The number of all items so far.
    count: usize,
}

impl<'ty, V: WasmValue> TupleItems<'ty, V::Type, V> {
    /// No items, of a tuple of the type.
    pub(crate) fn new(alloc: Global, ty: &'ty V::Type) -> Result<Self, AllocError>
        requires { kind_of (V.Type.tree ty.now) ≡ WasmTypeKind.Tuple }
        ensures { IfOk result (λ new. (w : Order) (source : List ℕ) → IsRow V.Type.tree V.tree V.is_of V.is_full w (V.Type.tree ty.now) source [] new) }
    {
        let types = ty.tuple_element_types(alloc)?;
        let items = Vec::with_capacity(alloc, types.len())?;
        Ok(TupleItems {
            ty,
            types,
            items,
            count: 0,
        })
    }

    /// The type of the item that comes next, where there is one.
    pub(crate) fn next(&self) -> Option<&'ty V::Type>
        ensures { result ≡ item_expected self.now }
    {
        match self.types.get(self.items.len()) {
            Some(ty) => Some(*ty),
            None => None,
        }
    }

    /// Adds an item, which was read at the type that is expected.
    pub(crate) fn push_part(&mut self, item: V) -> Result<(), AllocError>
        ensures { IfOk result (λ _. AddsPart IsRow V.Type.tree V.tree V.is_of V.is_full NodeType.Tuple item_expected self.old (Ok item) self.new None) }
    {
        match self.count.checked_add(1) {
            Some(count) => self.count = count,
            None => return Err(AllocError),
        }
        if self.next().is_none() {
            return Ok(());
        }
        self.items.reserve(1)?;
        self.items.push_reserved(item);
        Ok(())
    }

    /// Counts an item that was refused, and answers what is wrong with the tuple where it was expected.
    #[cold]
    #[inline(never)]
    pub(crate) fn push_failed(&mut self, error: ReadError) -> Result<Option<Fault>, AllocError>
        ensures { IfOk result (AddsPart IsRow V.Type.tree V.tree V.is_of V.is_full NodeType.Tuple item_expected self.old (Err error) self.new) }
    {
        match self.count.checked_add(1) {
            Some(count) => self.count = count,
            None => return Err(AllocError),
        }
        if self.next().is_none() {
            return Ok(None);
        }
        Ok(Some(Fault::Part(error)))
    }

    /// The refusal of a tuple that stands here and has this many items, where the type has another
    /// number of them.
    pub(crate) fn miscounted(&self, span: Span, count: usize) -> Option<ReadError>
        ensures count { MatchOption result (count ≡ length self.now.types.items) (λ _. count ≢ length self.now.types.items) }
        ensures refusal { IfSome result (λ error. refusal_of error ≡ caused (causes.wrong_number (length self.now.types.items) count)) }
        ensures span { IfSome result (λ error. error.span ≡ span) }
    {
        let want = self.types.len();
        if count == want {
            return None;
        }
        let reason = Reason::TupleValues(ParserErrorKind::WasmValueError, want, count);
        Some(ReadError::at(span, reason))
    }

    /// The tuple of these items, each of which was read at its type; it stands here.
    pub(crate) fn finish(self, alloc: Global, span: Span) -> Result<V, ReadError>
        requires { WereRead IsRow V.Type.tree V.tree V.is_of V.is_full self }
        ensures { FinishesAs IsRow V.Type.tree V.tree V.is_of V.is_full NodeType.Tuple self.entry span result }
    {
        if let Some(error) = self.miscounted(span.start..span.end, self.count) {
            return Err(error);
        }
        let TupleItems { ty, mut items, .. } = self;
        or_error_at(alloc, span, V::make_tuple_unchecked(alloc, ty, &mut items))
    }
}
