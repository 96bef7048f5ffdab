//! The parts of a value of any type.
ghost use Rattle.std.specs.Prelude.{ℕ, ◌≡◌, ◌++◌, List, [], ◌∷◌, None, Ok, Err, IfOk, IfErr, IsOk, MatchBool, MatchOption};
ghost use Rattle.wave_wasm.specs.Types.{TypeTree, kind_of};
ghost use Rattle.wave_wasm.specs.ConstructorContracts.{IsOfListKind};
ghost use Rattle.wave_wasm.specs.Borrowed.{denoted};
ghost use Rattle.wave_grammar.specs.SpannedTree.{slice};
ghost use Rattle.wave_grammar.specs.FaultOrder.{Order, in_text};
ghost use Rattle.wave_grammar.specs.NodeTree.{NodeTree, node, no_nodes, node_trees};
ghost use Rattle.wave_grammar.specs.NodeParts.{TakesKey, TakesPart};
ghost use Rattle.wave_leaf.specs.Leaves.{leaf_node, IsLeafIn};
ghost use Rattle.wave_leaf.specs.PlainReading.{IsPlain};
ghost use Rattle.wave_leaf.specs.Reading.{IsReadAs, IsReadWhereExpected, IsReadOfForm};
ghost use Rattle.wave_lex.specs.Errors.{Says};
ghost use Rattle.wave_read.specs.Flat.{IsFlatAt};
ghost use Rattle.wave_read.specs.PartsOfKinds.{AreParts, AreBareOrRead, IsBare, IsSimpleAt, TakesEmptySet, next_expected, AreNoPartsYet};
ghost use Rattle.wave_read.specs.Private.PartsOfKinds.{AreNoItems};
ghost use Rattle.wave_read.specs.declared.parts.Partial.TheVariants as parts;
ghost use Rattle.wave_leaf.specs.declared.error.Reason.TheVariants as reason;
ghost use Rattle.wave_leaf.specs.declared.fault.Fault.TheVariants as fault;
ghost use Rattle.wave_lex.specs.declared.error.ParserErrorKind.TheVariants as why;
ghost use Rattle.wave_grammar.specs.declared.form.NodeType.TheVariants as node_type;

use crate::flags::read_flags;
use crate::lists::Items;
use crate::maps::Entries;
use crate::options::SomePayload;
use crate::records::Fields;
use crate::results::ResultPayload;
use crate::tuples::TupleItems;
use crate::variants::CasePayload;
use std::alloc::{AllocError, Global};
use std::collections::BTreeMap;
use wave_grammar::form::NodeType;
use wave_leaf::error::{ReadError, Reason};
use wave_leaf::fault::{Fault, or_error_at};
use wave_leaf::leaf::LeafToken;
use wave_leaf::simple::refuse_form;
use wave_lex::error::ParserErrorKind;
use wave_lex::lex::Span;
use wave_wasm::wasm::{WasmType, WasmTypeKind, WasmValue};

/// What has been read of the parts of a value, at its type.
pub enum Partial<'ty, T, V> {
    /// The value has this fault, whatever its parts are.
    Faulty(Fault),
    /// Parts of a value of this type, which is a simple one or has no values.
    Simple(&'ty T),
    /// No flags, or no entries, of a value of this type.
    Empty(&'ty T),
    /// The items of a list.
    Items(Items<'ty, T, V>),
    /// The items of a tuple.
    TupleItems(TupleItems<'ty, T, V>),
    /// The payload of `some`.
    OfSome(SomePayload<'ty, T, V>),
    /// The payload of `ok` or `err`.
    OfResult(ResultPayload<'ty, T, V>),
    /// The label of a case, and its payload.
    OfCase(CasePayload<'ty, T, V>),
    /// The fields of a record.
    Fields(Fields<'ty, T, V>),
    /// The entries of a map.
    Entries(Entries<'ty, T, V>),
}

impl<'ty, T, V: Drop> Drop for Partial<'ty, T, V> {
    /// Never inlined, so that what drops a `Frame` is small enough to be inlined: else each place where the
    /// parser gives up would keep a copy of the frame in the stack of each level.
    #[inline(never)]
    fn drop(self) {
        match self {
            Partial::Faulty(_) => {}
            Partial::Simple(_) => {}
            Partial::Empty(_) => {}
            Partial::Items(_) => {}
            Partial::TupleItems(_) => {}
            Partial::OfSome(_) => {}
            Partial::OfResult(_) => {}
            Partial::OfCase(_) => {}
            Partial::Fields(_) => {}
            Partial::Entries(_) => {}
        }
    }
}

impl<'ty, V: WasmValue> Partial<'ty, V::Type, V> {
    /// No parts yet, of a value of the type at a node of this one.
    #[inline(always)]
    pub(crate) fn new(alloc: Global, ty: &'ty V::Type, of: NodeType) -> Self
        requires { (U : TypeTree) → IsFlatAt (V.Type.tree ty.now) of U → ⊥ }
        ensures begun { AreNoPartsYet V.Type.tree V.tree V.is_of V.is_full (V.Type.tree ty.now) of result }
        ensures plain { IsPlain (V.Type.tree ty.now) → IsSimpleAt V.Type.tree (V.Type.tree ty.now) result }
    {
        match ty.kind() {
            WasmTypeKind::List | WasmTypeKind::FixedLengthList => Partial::of_list(alloc, ty, of),
            WasmTypeKind::Tuple => Partial::of_tuple(alloc, ty, of),
            WasmTypeKind::Record => Partial::of_record(alloc, ty, of),
            WasmTypeKind::Map => Partial::of_map(alloc, ty, of),
            WasmTypeKind::Flags => match of {
                NodeType::EmptySet => Partial::Empty(ty),
                _ => Partial::refused(ParserErrorKind::InvalidType),
            },
            WasmTypeKind::Variant => Partial::of_variant(ty, of),
            WasmTypeKind::Enum => Partial::refused(ParserErrorKind::InvalidType),
            WasmTypeKind::Option => Partial::of_option(ty, of),
            WasmTypeKind::Result => Partial::of_result(ty, of),
            _ => Partial::Simple(ty),
        }
    }

    /// No items yet of a list.
    fn of_list(alloc: Global, ty: &'ty V::Type, of: NodeType) -> Self
        requires { IsOfListKind (kind_of (V.Type.tree ty.now)) }
        ensures { AreNoPartsYet V.Type.tree V.tree V.is_of V.is_full (V.Type.tree ty.now) of result }
    {
        match of {
            NodeType::List => Partial::Items(Items::new(alloc, ty)),
            _ => Partial::refused(ParserErrorKind::InvalidType),
        }
    }

    /// No items yet of a tuple.
    fn of_tuple(alloc: Global, ty: &'ty V::Type, of: NodeType) -> Self
        requires { kind_of (V.Type.tree ty.now) ≡ WasmTypeKind.Tuple }
        ensures { AreNoPartsYet V.Type.tree V.tree V.is_of V.is_full (V.Type.tree ty.now) of result }
    {
        match of {
            NodeType::Tuple => match TupleItems::new(alloc, ty) {
                Ok(row) => Partial::TupleItems(row),
                Err(_) => Partial::refused(ParserErrorKind::OutOfMemory),
            },
            _ => Partial::refused(ParserErrorKind::InvalidType),
        }
    }

    /// No fields yet of a record.
    fn of_record(alloc: Global, ty: &'ty V::Type, of: NodeType) -> Self
        requires { kind_of (V.Type.tree ty.now) ≡ WasmTypeKind.Record }
        ensures { AreNoPartsYet V.Type.tree V.tree V.is_of V.is_full (V.Type.tree ty.now) of result }
    {
        match of {
            NodeType::TupleSet => match Fields::new(alloc, ty) {
                Ok(fields) => Partial::Fields(fields),
                Err(_) => Partial::refused(ParserErrorKind::OutOfMemory),
            },
            _ => Partial::refused(ParserErrorKind::InvalidType),
        }
    }

    /// No entries yet of a map.
    fn of_map(alloc: Global, ty: &'ty V::Type, of: NodeType) -> Self
        requires { kind_of (V.Type.tree ty.now) ≡ WasmTypeKind.Map }
        ensures { AreNoPartsYet V.Type.tree V.tree V.is_of V.is_full (V.Type.tree ty.now) of result }
    {
        match of {
            NodeType::TupleSet => Partial::Entries(Entries::new(alloc, ty)),
            NodeType::EmptySet => Partial::Empty(ty),
            _ => Partial::refused(ParserErrorKind::InvalidType),
        }
    }

    /// Nothing yet of a case and its payload.
    fn of_variant(ty: &'ty V::Type, of: NodeType) -> Self
        requires { kind_of (V.Type.tree ty.now) ≡ WasmTypeKind.Variant }
        ensures { AreNoPartsYet V.Type.tree V.tree V.is_of V.is_full (V.Type.tree ty.now) of result }
    {
        match of {
            NodeType::VariantWithPayload => Partial::OfCase(CasePayload::new(ty)),
            _ => Partial::refused(ParserErrorKind::InvalidType),
        }
    }

    /// Nothing yet of the payload of `some`.
    fn of_option(ty: &'ty V::Type, of: NodeType) -> Self
        requires kind { kind_of (V.Type.tree ty.now) ≡ WasmTypeKind.Option }
        requires flat { (U : TypeTree) → IsFlatAt (V.Type.tree ty.now) of U → ⊥ }
        ensures { AreNoPartsYet V.Type.tree V.tree V.is_of V.is_full (V.Type.tree ty.now) of result }
    {
        match of {
            NodeType::OptionSome => Partial::OfSome(SomePayload::new(ty)),
            _ => Partial::refused(ParserErrorKind::InvalidType),
        }
    }

    /// Nothing yet of the payload of `ok` or `err`.
    fn of_result(ty: &'ty V::Type, of: NodeType) -> Self
        requires kind { kind_of (V.Type.tree ty.now) ≡ WasmTypeKind.Result }
        requires flat { (U : TypeTree) → IsFlatAt (V.Type.tree ty.now) of U → ⊥ }
        ensures { AreNoPartsYet V.Type.tree V.tree V.is_of V.is_full (V.Type.tree ty.now) of result }
    {
        match of {
            NodeType::ResultOk => Partial::OfResult(ResultPayload::new(ty, true)),
            NodeType::ResultErr => Partial::OfResult(ResultPayload::new(ty, false)),
            _ => Partial::refused(ParserErrorKind::InvalidType),
        }
    }

    /// Parts of a value that is refused for this alone, whatever they are.
    fn refused(kind: ParserErrorKind) -> Self
        ensures { result ≡ parts.Faulty (fault.Whole (reason.Plain kind)) }
    {
        Partial::Faulty(Fault::Whole(Reason::Plain(kind)))
    }

    /// The type of the value that comes next, where one is expected.
    pub(crate) fn next(&self) -> Option<&'ty V::Type>
        ensures { result ≡ next_expected self.now }
    {
        match self {
            Partial::Items(items) => match items.held {
                None => Some(items.element),
                Some(_) => None,
            },
            Partial::TupleItems(row) => row.next(),
            Partial::OfSome(payload) => Some(payload.expected),
            Partial::OfResult(payload) => payload.expected,
            Partial::OfCase(payload) => match payload.case {
                Some((_, ty)) => Some(ty),
                None => None,
            },
            Partial::Fields(fields) => match fields.expected {
                Some((_, ty)) => Some(ty),
                None => None,
            },
            Partial::Entries(entries) => match entries.key {
                Some(_) => Some(entries.value_type),
                None => None,
            },
            _ => None,
        }
    }

    /// Adds a key or the label of a case.
    pub(crate) fn push_key(
        &mut self,
        alloc: Global,
        ty: NodeType,
        span: Span,
        text: &str,
    ) -> Result<(), AllocError>
        ensures grown { IfOk result (λ _. (w : Order) (T : TypeTree) (source : List ℕ) (of : NodeType) (children : List NodeTree)
            → text.now ≡ slice source span → TakesKey of children → AreParts V.Type.tree V.tree V.is_of V.is_full w T source of children self.old
            → AreParts V.Type.tree V.tree V.is_of V.is_full w T source of (children ++ node ty span no_nodes ∷ []) self.new) }
        ensures bare { IsBare self.old → (self.new ≡ self.old) × IsOk result }
    {
        let found = match self {
            Partial::OfCase(payload) => payload.push_key(alloc, ty, span, text)?,
            Partial::Fields(fields) => fields.push_key(alloc, ty, span, text)?,
            Partial::Entries(entries) => entries.push_key(alloc, ty, span, text)?,
            _ => None,
        };
        self.wrong(found);
        Ok(())
    }

    /// Adds the next value, which was read at the type that was expected.
    #[inline(never)]
    pub(crate) fn push_part(
        &mut self,
        alloc: Global,
        built: Result<V, ReadError>,
    ) -> Result<(), AllocError>
        ensures grown { IfOk result (λ _. (w : Order) (T : TypeTree) (source : List ℕ) (of : NodeType) (children : List NodeTree) (n : NodeTree)
            → TakesPart of children → AreParts V.Type.tree V.tree V.is_of V.is_full w T source of children self.old
            → IsReadWhereExpected V.tree V.is_of V.is_full w w (denoted V.Type.tree (next_expected self.old)) source n built
            → AreParts V.Type.tree V.tree V.is_of V.is_full w T source of (children ++ n ∷ []) self.new) }
        ensures bare { IsBare self.old → (self.new ≡ self.old) × IsOk result }
    {
        match self {
            Partial::Items(items) => items.push_part(alloc, built),
            _ => match built {
                Ok(val) => self.push_value(alloc, val),
                Err(error) => self.push_failed(alloc, error),
            },
        }
    }

    /// Adds the next value, of one token, where it is read at once; says whether it was. An item of a list is
    /// added where this is called.
    #[inline(always)]
    pub(crate) fn push_fast(
        &mut self,
        alloc: Global,
        leaf: &LeafToken<'_>,
    ) -> Result<bool, AllocError>
        ensures grown { IfOk result (λ added. MatchBool added
            ((w : Order) (T : TypeTree) (source : List ℕ) (of : NodeType) (children : List NodeTree) → IsLeafIn source leaf.now
            → TakesPart of children → AreParts V.Type.tree V.tree V.is_of V.is_full w T source of children self.old
            → AreParts V.Type.tree V.tree V.is_of V.is_full w T source of (children ++ leaf_node leaf.now ∷ []) self.new)
            (self.new ≡ self.old)) }
        ensures bare { IsBare self.old → (self.new ≡ self.old) × IsOk result }
    {
        match self {
            Partial::Items(items) => items.push_fast(alloc, leaf),
            _ => self.push_other_fast(alloc, leaf),
        }
    }

    /// The same for the parts of a value that is no list.
    #[inline(never)]
    fn push_other_fast(&mut self, alloc: Global, leaf: &LeafToken<'_>) -> Result<bool, AllocError>
        requires { AreNoItems self.now }
        ensures grown { IfOk result (λ added. MatchBool added
            ((w : Order) (T : TypeTree) (source : List ℕ) (of : NodeType) (children : List NodeTree) → IsLeafIn source leaf.now
            → TakesPart of children → AreParts V.Type.tree V.tree V.is_of V.is_full w T source of children self.old
            → AreParts V.Type.tree V.tree V.is_of V.is_full w T source of (children ++ leaf_node leaf.now ∷ []) self.new)
            (self.new ≡ self.old)) }
        ensures bare { IsBare self.old → (self.new ≡ self.old) × IsOk result }
    {
        let ty = match self.next() {
            Some(ty) => ty,
            None => return Ok(false),
        };
        match leaf.read_fast(alloc, ty) {
            Some(val) => {
                self.push_value(alloc, val)?;
                Ok(true)
            }
            None => Ok(false),
        }
    }

    /// Adds a part that was made to those of a value that is no list.
    #[inline(always)]
    fn push_value(&mut self, alloc: Global, val: V) -> Result<(), AllocError>
        requires { AreNoItems self.now }
        ensures grown { IfOk result (λ _. (w : Order) (T : TypeTree) (source : List ℕ) (of : NodeType) (children : List NodeTree) (n : NodeTree)
            → TakesPart of children → AreParts V.Type.tree V.tree V.is_of V.is_full w T source of children self.old
            → IsReadWhereExpected V.tree V.is_of V.is_full w w (denoted V.Type.tree (next_expected self.old)) source n (Ok val)
            → AreParts V.Type.tree V.tree V.is_of V.is_full w T source of (children ++ n ∷ []) self.new) }
        ensures bare { IsBare self.old → (self.new ≡ self.old) × IsOk result }
    {
        match self {
            Partial::TupleItems(row) => row.push_part(val),
            Partial::OfSome(payload) => payload.push_part(alloc, Ok(val)),
            Partial::OfResult(payload) => payload.push_part(alloc, Ok(val)),
            Partial::OfCase(payload) => {
                payload.push_part(val);
                Ok(())
            }
            Partial::Fields(fields) => {
                fields.push_part(val);
                Ok(())
            }
            Partial::Entries(entries) => entries.push_part(val),
            _ => Ok(()),
        }
    }

    /// The same for a part that was refused.
    #[cold]
    #[inline(never)]
    fn push_failed(&mut self, alloc: Global, error: ReadError) -> Result<(), AllocError>
        requires { AreNoItems self.now }
        ensures grown { IfOk result (λ _. (w : Order) (T : TypeTree) (source : List ℕ) (of : NodeType) (children : List NodeTree) (n : NodeTree)
            → TakesPart of children → AreParts V.Type.tree V.tree V.is_of V.is_full w T source of children self.old
            → IsReadWhereExpected V.tree V.is_of V.is_full w w (denoted V.Type.tree (next_expected self.old)) source n (Err error)
            → AreParts V.Type.tree V.tree V.is_of V.is_full w T source of (children ++ n ∷ []) self.new) }
        ensures bare { IsBare self.old → (self.new ≡ self.old) × IsOk result }
    {
        let found = match self {
            Partial::TupleItems(row) => row.push_failed(error)?,
            Partial::OfSome(payload) => return payload.push_part(alloc, Err(error)),
            Partial::OfResult(payload) => return payload.push_part(alloc, Err(error)),
            Partial::OfCase(_) => Some(Fault::Part(error)),
            Partial::Fields(_) => Some(Fault::Part(error)),
            Partial::Entries(_) => Some(Fault::Part(error)),
            _ => None,
        };
        self.wrong(found);
        Ok(())
    }

    /// A fault that was found takes the place of the parts.
    #[inline(always)]
    fn wrong(&mut self, found: Option<Fault>)
        ensures { MatchOption found (self.new ≡ self.old) (λ f. self.new ≡ parts.Faulty f) }
    {
        if let Some(fault) = found {
            *self = Partial::Faulty(fault);
        }
    }

    /// The value of these parts, which stands here.
    pub(crate) fn finish(self, alloc: Global, span: Span) -> Result<V, ReadError>
        requires { AreBareOrRead V.Type.tree V.tree V.is_of V.is_full self }
        ensures read { (w : Order) (T : TypeTree) (source : List ℕ) (of : NodeType) (children : List NodeTree)
            → AreParts V.Type.tree V.tree V.is_of V.is_full w T source of children self.entry
            → IsReadAs V.tree V.is_of V.is_full in_text w T source (node of span (node_trees children)) result }
        ensures plain { (T : TypeTree) → IsPlain T → IsSimpleAt V.Type.tree T self.entry → IfErr result (λ e. Says e why.InvalidType span None) }
    {
        match self {
            Partial::Faulty(fault) => Err(fault.report(span)),
            Partial::Simple(ty) => refuse_form(alloc, ty, span),
            Partial::Empty(ty) => read_empty(alloc, ty, span),
            Partial::Items(items) => items.finish(alloc, span),
            Partial::TupleItems(row) => row.finish(alloc, span),
            Partial::OfSome(payload) => payload.finish(alloc, span),
            Partial::OfResult(payload) => payload.finish(alloc, span),
            Partial::OfCase(payload) => payload.finish(alloc, span),
            Partial::Fields(fields) => fields.finish(alloc, span),
            Partial::Entries(entries) => entries.finish(alloc, span),
        }
    }
}

/// No flags, or no entries, where `{}` stands here.
#[inline(never)]
fn read_empty<V: WasmValue>(alloc: Global, ty: &V::Type, span: Span) -> Result<V, ReadError>
    ensures { (o w : Order) (source : List ℕ) → TakesEmptySet (V.Type.tree ty.now)
        → IsReadAs V.tree V.is_of V.is_full o w (V.Type.tree ty.now) source (node node_type.EmptySet span no_nodes) result }
{
    match ty.kind() {
        WasmTypeKind::Flags => read_flags(alloc, ty, span, BTreeMap::new(alloc)),
        WasmTypeKind::Map => or_error_at(alloc, span, V::make_map(alloc, ty, Vec::new(alloc))),
        _ => Err(ReadError::new(ParserErrorKind::InvalidType, span)),
    }
}
