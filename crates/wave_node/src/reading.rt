//! What is read of nodes, in the order of their types.
ghost use Rattle.std.specs.Prelude.{ℕ, List, [], ◌≡◌, ◌≢◌, ◌<◌, Option, Some, Err, take, length, IfOk, IfErr, IfSome, IfNone, MatchBool};
ghost use Rattle.wave_wasm.specs.Types.{TypeTree, kind_of};
ghost use Rattle.wave_wasm.specs.Borrowed.{denoted};
ghost use Rattle.wave_grammar.specs.FaultOrder.{Order, by_type};
ghost use Rattle.wave_grammar.specs.NodeTree.{node, type_of, place_of, children_of};
ghost use Rattle.wave_grammar.specs.TypedReading.{IsValueOf};
ghost use Rattle.wave_grammar.specs.NodeAccessors.{RefusedAs, denoted_node};
ghost use Rattle.wave_grammar.specs.ErrorSpans.{RefusesInPart};
ghost use Rattle.wave_grammar.specs.NodeFields.{AnswersField, IsFieldNode};
ghost use Rattle.wave_grammar.specs.FlagParts.{AreFlagsOf, flag_nodes};
ghost use Rattle.wave_grammar.specs.NodeParts.{IsOfParts, TakesKey, TakesPart};
ghost use Rattle.wave_leaf.specs.PlainReading.{IsReadSparing};
ghost use Rattle.wave_leaf.specs.Reading.{IsReadAs};
ghost use Rattle.wave_read.specs.Flat.{IsWrapper, IsCounted, ReadsNoRecord};
ghost use Rattle.wave_read.specs.KeptParts.{AreKeptWhereExpected};
ghost use Rattle.wave_read.specs.PartsOfKinds.{AreRefusedAtOnce};
ghost use Rattle.wave_node.specs.Private.NodeForms.{IsOfOneToken};

use crate::ast::{Node, NodeType};
use std::alloc::{AllocError, Global};
use std::collections::BTreeMap;
use wave_grammar::builder::Builder;
use wave_grammar::label::label_name;
use wave_leaf::error::ReadError;
use wave_leaf::fault::or_error_at;
use wave_lex::error::ParserErrorKind;
use wave_lex::lex::Span;
use wave_read::records::left_out;
use wave_read::values::{Frame, ValueBuilder, wrapped};
use wave_wasm::wasm::{WasmType, WasmTypeKind, WasmValue};

impl Node {
    /// The value of the node at the type.
    #[cycle(making)]
    pub(crate) fn read<V: WasmValue>(
        &self,
        alloc: Global,
        ty: &V::Type,
        src: &str,
    ) -> Result<V, ReadError>
        requires { IsValueOf src.now self.now }
        ensures { IsReadAs V.tree V.is_of V.is_full by_type by_type (V.Type.tree ty.now) src.now self.now result }
    {
        match self.make(alloc, ValueBuilder::<V>::new(ty), src) {
            Ok(built) => built,
            Err(_) => Err(self.read_error(ParserErrorKind::OutOfMemory)),
        }
    }

    /// What the builder makes of the node, which was parsed from `src` as a value. Each level of a value
    /// takes such a call, so what it calls isn't inlined, and its frame stays small.
    #[cycle(making)]
    fn make<V: WasmValue>(
        &self,
        alloc: Global,
        builder: ValueBuilder<'_, V>,
        src: &str,
    ) -> Result<Result<V, ReadError>, AllocError>
        requires { IsValueOf src.now self.now }
        ensures { IfOk result (IsReadSparing V.tree V.is_of V.is_full by_type by_type (denoted V.Type.tree builder.entry.expected) src.now self.now) }
    {
        if self.is_of(NodeType::Flags) {
            return self.make_of_flags(alloc, builder, src);
        }
        if let Some((wrapper, ty)) = builder.record(self.ty()) {
            let built = self.read_record::<V>(alloc, ty, src);
            return Ok(wrapped(alloc, wrapper, ty, self.span(), built));
        }
        if self.has_parts() {
            return self.make_of_parts(alloc, builder, src);
        }
        Ok(self.make_of_token(alloc, builder, src))
    }

    /// What the builder makes of a node of one token.
    #[inline(never)]
    fn make_of_token<V: WasmValue>(
        &self,
        alloc: Global,
        builder: ValueBuilder<'_, V>,
        src: &str,
    ) -> Result<V, ReadError>
        requires value { IsValueOf src.now self.now }
        requires form { IsOfOneToken self.now }
        ensures { IsReadSparing V.tree V.is_of V.is_full by_type by_type (denoted V.Type.tree builder.entry.expected) src.now self.now result }
    {
        builder.leaf(alloc, self.ty(), self.span(), self.slice(src))
    }

    /// What the builder makes of a node of flags. Their names are kept only where flags are expected.
    #[inline(never)]
    fn make_of_flags<V: WasmValue>(
        &self,
        alloc: Global,
        builder: ValueBuilder<'_, V>,
        src: &str,
    ) -> Result<Result<V, ReadError>, AllocError>
        requires value { IsValueOf src.now self.now }
        requires form { type_of self.now ≡ NodeType.Flags }
        ensures { IfOk result (IsReadSparing V.tree V.is_of V.is_full by_type by_type (denoted V.Type.tree builder.entry.expected) src.now self.now) }
    {
        if let Some(built) = builder.no_flags(alloc, self.span()) {
            return Ok(built);
        }
        let flags = self.places_by_name(alloc, src)?;
        builder.flags(alloc, self.span(), flags)
    }

    /// The places of the labels of a node of flags, by their names.
    fn places_by_name<'src>(
        &self,
        alloc: Global,
        src: &'src str,
    ) -> Result<BTreeMap<&'src str, Span>, AllocError>
        requires value { IsValueOf src.now self.now }
        requires form { type_of self.now ≡ NodeType.Flags }
        ensures named { IfOk result (AreFlagsOf src.now) }
        ensures nodes { IfOk result (λ flags. self.now ≡ node NodeType.Flags (place_of self.now) (flag_nodes flags)) }
    {
        let mut flags = BTreeMap::new(alloc);
        for label in self.nodes() {
            flags.insert(label_name(label.slice(src)), label.span())?;
        }
        Ok(flags)
    }

    /// What the builder makes of a node that has parts, from them. A tuple is refused for the number of its
    /// items before any of them is read. It is handed no record's entries.
    #[cycle(making)]
    #[inline(never)]
    fn make_of_parts<V: WasmValue>(
        &self,
        alloc: Global,
        builder: ValueBuilder<'_, V>,
        src: &str,
    ) -> Result<Result<V, ReadError>, AllocError>
        requires value { IsValueOf src.now self.now }
        requires form { IsOfParts (type_of self.now) }
        requires no_record { (T : TypeTree) → denoted V.Type.tree builder.expected ≡ Some T → ReadsNoRecord T (type_of self.now) }
        ensures { IfOk result (IsReadSparing V.tree V.is_of V.is_full by_type by_type (denoted V.Type.tree builder.entry.expected) src.now self.now) }
    {
        let ty = self.ty();
        let mut parts = builder.parts(alloc, ty);
        let nodes = self.nodes();
        if let Some(error) = self.refused_at_once(&parts) {
            return Ok(Err(error));
        }
        for i in 0..nodes.len() {
            let node = &nodes[i];
            if self.takes_key(i) {
                let key = node.leaf(src);
                builder.push_key(alloc, &mut parts, key.ty, key.span, key.text)?;
            } else {
                let built = node.make(alloc, builder.part(&parts), src)?;
                builder.push_part(alloc, &mut parts, built)?;
            }
        }
        Ok(builder.finish(alloc, ty, self.span(), parts))
    }

    /// The refusal of a node that has parts before any of them is read: where the type takes no such form,
    /// or tuples of another number of items.
    fn refused_at_once<V: WasmValue>(&self, parts: &Frame<'_, V::Type, V>) -> Option<ReadError>
        ensures refused { IfSome result (λ error. (w : Order) (expected : Option TypeTree) (source : List ℕ) → IsOfParts (type_of self.now)
            → AreKeptWhereExpected V.Type.tree V.tree V.is_of V.is_full w expected source (type_of self.now) [] parts.now
            → ((T : TypeTree) → expected ≡ Some T → AreRefusedAtOnce V.Type.tree V.tree V.is_of V.is_full T (type_of self.now) parts.now.parts)
            → IsReadSparing V.tree V.is_of V.is_full by_type w expected source self.now (Err error)) }
        ensures counted { IfNone result ((w : Order) (T : TypeTree) (source : List ℕ) → IsOfParts (type_of self.now)
            → AreKeptWhereExpected V.Type.tree V.tree V.is_of V.is_full w (Some T) source (type_of self.now) [] parts.now
            → AreRefusedAtOnce V.Type.tree V.tree V.is_of V.is_full T (type_of self.now) parts.now.parts
            → IsCounted T (type_of self.now) (length (children_of self.now))) }
    {
        parts.refused(self.span(), self.nodes().len())
    }

    /// A record: its keys, then each field of the type, in the type's order, read from the entry of its
    /// name; then whether an entry is left.
    #[cycle(making)]
    #[inline(never)]
    fn read_record<V: WasmValue>(
        &self,
        alloc: Global,
        ty: &V::Type,
        src: &str,
    ) -> Result<V, ReadError>
        requires node { IsValueOf src.now self.now }
        requires kind { kind_of (V.Type.tree ty.now) ≡ WasmTypeKind.Record }
        ensures { IsReadAs V.tree V.is_of V.is_full by_type by_type (V.Type.tree ty.now) src.now self.now result }
    {
        let types = match ty.record_fields(alloc) {
            Ok(types) => types,
            Err(_) => return Err(self.read_error(ParserErrorKind::OutOfMemory)),
        };
        let mut nodes = match self.fields(alloc, src) {
            Ok(nodes) => nodes,
            Err(error) => return Err(ReadError::of_error(alloc, error)),
        };
        let mut fields = Vec::new(alloc);
        for i in 0..types.len() {
            let (name, field) = types[i];
            let node = nodes.remove(name);
            let val = self.read_field(alloc, name, field, node, src)?;
            if fields.push((name, val)).is_err() {
                return Err(self.read_error(ParserErrorKind::OutOfMemory));
            }
        }
        if !nodes.is_empty() {
            return Err(self.read_error(ParserErrorKind::InvalidValue));
        }
        or_error_at(
            alloc,
            self.span(),
            V::make_record_unchecked(alloc, ty, &mut fields),
        )
    }

    /// The value of the record's field of this name: that of its node, or `none` where an option is
    /// left out.
    #[cycle(making)]
    fn read_field<V: WasmValue>(
        &self,
        alloc: Global,
        name: &str,
        ty: &V::Type,
        node: Option<&Node>,
        src: &str,
    ) -> Result<V, ReadError>
        requires { IsFieldNode src.now (denoted_node node) }
        ensures answer { AnswersField V.tree V.is_of V.is_full by_type (V.Type.tree ty.now) src.now name.now self.now (denoted_node node.entry) result }
        ensures within { IfErr result (RefusesInPart self.now (denoted_node node.entry)) }
    {
        match node {
            Some(node) => node.read(alloc, ty, src),
            None => left_out(alloc, name, ty, &self.span()),
        }
    }

    /// An error of this kind at the node, on its way to the caller.
    pub(crate) fn read_error(&self, kind: ParserErrorKind) -> ReadError
        ensures { RefusedAs kind self.now result }
    {
        ReadError::new(kind, self.span())
    }

    /// Whether the node, which isn't of flags, has parts; else it is of one token.
    fn has_parts(&self) -> bool
        ensures { (source : List ℕ) → IsValueOf source self.now → type_of self.now ≢ NodeType.Flags
            → MatchBool result (IsOfParts (type_of self.now)) (IsOfOneToken self.now) }
    {
        match self.ty() {
            NodeType::Tuple
            | NodeType::List
            | NodeType::TupleSet
            | NodeType::EmptySet
            | NodeType::VariantWithPayload
            | NodeType::OptionSome => true,
            NodeType::ResultOk | NodeType::ResultErr => !self.nodes().is_empty(),
            _ => false,
        }
    }

    /// Whether this child of a node that has parts is a key, or the label of a case; else it is a value.
    fn takes_key(&self, at: usize) -> bool
        ensures { (source : List ℕ) → IsValueOf source self.now → IsOfParts (type_of self.now) → at < length (children_of self.now)
            → MatchBool result (TakesKey (type_of self.now) (take at (children_of self.now))) (TakesPart (type_of self.now) (take at (children_of self.now))) }
    {
        match self.ty() {
            NodeType::TupleSet => at % 2 == 0,
            NodeType::VariantWithPayload => at == 0,
            _ => false,
        }
    }
}
