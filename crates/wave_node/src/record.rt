//! The fields of records.
ghost use Rattle.std.specs.Prelude.{◌≡◌, ◌⊎◌, Some, IfOk, IfErr, MatchResult};
ghost use Rattle.wave_wasm.specs.Lists.{AllOf};
ghost use Rattle.wave_lex.specs.Errors.{field_label_expected, repeated_name};
ghost use Rattle.wave_lex.specs.declared.error.ParserErrorKind.TheVariants.{InvalidType, DuplicateField, OutOfMemory};
ghost use Rattle.wave_grammar.specs.LeafTokens.{name_of};
ghost use Rattle.wave_grammar.specs.NodeTree.{type_of, place_of, children_of};
ghost use Rattle.wave_grammar.specs.Nodes.{IsParsedFrom};
ghost use Rattle.wave_grammar.specs.NodeAccessors.{node_text, node_pairs, IsEntryOf};
ghost use Rattle.wave_grammar.specs.TypedReading.{IsValueOf};
ghost use Rattle.wave_lex.specs.Errors.{Says};
ghost use Rattle.wave_grammar.specs.ErrorSpans.{StandsIn, RefusesIn};
ghost use Rattle.wave_grammar.specs.NodeFields.{IsFieldsOf, RefusesFields, GivesRecord, GivesName, HoldsFields, fields_at};

use crate::ast::{MapEntries, Node, NodeType};
use std::alloc::Global;
use std::collections::BTreeMap;
use std::iter::ExactSizeIterator;
use std::marker::Model;
use wave_grammar::label::label_name;
use wave_lex::error::{ParserError, ParserErrorKind};

impl Node {
    /// The names, without their `%`, and the values of a record, in the order of the source, at a
    /// node of entries and at `{:}`; else `InvalidType`. The first key that is no label is
    /// `InvalidType` at the key, and the first that has the name of an earlier one
    /// `DuplicateField` at the later key. The node was parsed from `src`, and so were the values of
    /// the fields, as values.
    pub fn as_record<'this, 'src>(
        &'this self,
        alloc: Global,
        src: &'src str,
    ) -> Result<RecordFields<'this, 'src>, ParserError>
        requires { IsParsedFrom src.now self.now }
        ensures given { GivesRecord src.now self.now result }
        ensures values { IfOk result (AllOf (λ f. IsValueOf src.now f.1)) }
        ensures within { IfErr result (StandsIn self.now) }
    {
        self.fields(alloc, src)?;
        Ok(RecordFields::new(self.nodes(), src))
    }

    /// The values of a record's fields by their names; refused as `as_record` says.
    pub(crate) fn fields<'this, 'src>(
        &'this self,
        alloc: Global,
        src: &'src str,
    ) -> Result<BTreeMap<&'src str, &'this Node>, ParserError>
        requires { IsParsedFrom src.now self.now }
        ensures given { IfOk result (λ _. IsFieldsOf src.now self.now (fields_at src.now (children_of self.now))) }
        ensures held { IfOk result (λ by_name. HoldsFields by_name (fields_at src.now (children_of self.now))) }
        ensures refused { IfErr result (RefusesFields src.now self.now) }
        ensures within { IfErr result (RefusesIn self.now) }
    {
        self.ensure_type(NodeType::TupleSet)?;
        let nodes = self.nodes();
        let mut by_name = BTreeMap::new(alloc);
        for i in 0..nodes.len() / 2 {
            let key = &nodes[2 * i];
            let val = &nodes[2 * i + 1];
            let name = key.field_name(src)?;
            match by_name.insert(name, val) {
                Ok(None) => {}
                Ok(Some(_)) => return Err(key.repeated(alloc, name)),
                Err(_) => return Err(self.out_of_memory()),
            }
        }
        Ok(by_name)
    }

    /// The name of a field, at its key.
    fn field_name<'src>(&self, src: &'src str) -> Result<&'src str, ParserError>
        requires { IsParsedFrom src.now self.now }
        ensures { GivesName src.now self.now result }
    {
        match self.as_enum(src) {
            Ok(name) => Ok(name),
            Err(_) => Err(ParserError::with_static(
                ParserErrorKind::InvalidType,
                self.span(),
                "expected a record field label",
            )),
        }
    }

    /// The refusal of a key whose name an earlier one has.
    fn repeated(&self, alloc: Global, name: &str) -> ParserError
        ensures refusal { (result.kind ≡ OutOfMemory) ⊎ Says result DuplicateField (place_of self.now) (Some (repeated_name name.now)) }
        ensures span { result.span ≡ place_of self.now }
    {
        match format!(in alloc; "\"{name}\"") {
            Ok(detail) => ParserError::with_detail(
                ParserErrorKind::DuplicateField,
                self.span(),
                detail,
            ),
            Err(_) => self.out_of_memory(),
        }
    }
}

/// The names and the values of a record's fields, in the order of the source.
#[derive(Drop)]
pub struct RecordFields<'this, 'src> {
    entries: MapEntries<'this>,
    src: &'src str,
}

impl<'this, 'src> Model for RecordFields<'this, 'src> {
    ghost use Rattle.std.specs.Prelude.{List, ℕ, map};
    ghost use Rattle.std.specs.Coded.{codes};
    ghost use Rattle.wave_wasm.specs.Lists.{AllOf};
    ghost use Rattle.wave_grammar.specs.NodeTree.{NodeTree};
    ghost use Rattle.wave_node.specs.NodeEncoding.{node_code};
    ghost use Rattle.wave_grammar.specs.NodeAccessors.{IsEntryOf};
    ghost use Rattle.wave_grammar.specs.NodeFields.{field_of};

    ghost Value = { List (List ℕ × NodeTree) };

    ghost coded = { Prim.hlevel (codes, node_code) };

    ghost view = { λ f. map (field_of f.src.now) f.entries };

    ghost invariant = { λ f. AllOf (IsEntryOf f.src.now) f.entries };
}

impl<'this, 'src> RecordFields<'this, 'src> {
    /// The fields at these nodes, which are keys and values in turn.
    fn new(nodes: &'this [Node], src: &'src str) -> RecordFields<'this, 'src>
        requires { AllOf (IsEntryOf src.now) (node_pairs nodes.now) }
        ensures { result ≡ fields_at src.now nodes.now }
    {
        RecordFields {
            entries: MapEntries::new(nodes),
            src,
        }
    }
}

impl<'this, 'src> Iterator for RecordFields<'this, 'src> {
    ghost use Rattle.std.specs.Prelude.{◌≡◌, Some, IfSome, length};
    ghost use Rattle.std.specs.Iterator.{YieldsFirstBy, UpTo, item_count};
    ghost use Rattle.std.specs.Iterator.SizeHint.{IsWithinCount};
    ghost use Rattle.wave_grammar.specs.NodeFields.{denoted_field};

    type Item = (&'src str, &'this Node);

    ghost next_gives = { YieldsFirstBy denoted_field (λ f. f) };

    ghost remaining = { item_count (λ f. f) };

    /// The next field's name and value.
    fn next(&mut self) -> Option<(&'src str, &'this Node)> {
        let (key, val) = self.entries.next()?;
        Some((label_name(key.slice(self.src)), val))
    }

    /// How many are left.
    fn size_hint(&self) -> (usize, Option<usize>)
        ensures lower { IsWithinCount result.0 (item_count (λ f. f) self.now) }
        ensures upper { IfSome result.1 (UpTo (item_count (λ f. f) self.now)) }
        ensures exact { (result.0 ≡ length self.now) × (result.1 ≡ Some result.0) }
    {
        let count = self.len();
        (count, Some(count))
    }
}

impl<'this, 'src> ExactSizeIterator for RecordFields<'this, 'src> {
    /// How many fields are left.
    fn len(&self) -> usize {
        self.entries.len()
    }
}
