//! The flags of nodes.
ghost use Rattle.std.specs.Prelude.{◌≡◌, IfOk};
ghost use Rattle.wave_grammar.specs.Nodes.{IsParsedFrom};
ghost use Rattle.wave_grammar.specs.NodeFlags.{AreInOrder, GivesFlags, names_at, AreAllParsed, GivesFlagNodes};

use crate::ast::{Node, NodeType};
use std::iter::ExactSizeIterator;
use std::marker::Model;
use wave_grammar::label::label_name;
use wave_lex::error::{ParserError, ParserErrorKind};

impl Node {
    /// The names of the flags, without their `%`, in byte order, at a node of flags and at `{}`;
    /// else `InvalidType`. The node was parsed from `src`.
    pub fn as_flags<'this, 'src>(
        &'this self,
        src: &'src str,
    ) -> Result<FlagLabels<'this, 'src>, ParserError>
        requires { IsParsedFrom src.now self.now }
        ensures given { GivesFlags src.now self.now result }
        ensures ordered { IfOk result AreInOrder }
    {
        let nodes = self.flag_nodes()?;
        Ok(FlagLabels::new(nodes, src))
    }

    /// The nodes of the flags.
    fn flag_nodes(&self) -> Result<&[Node], ParserError>
        ensures { GivesFlagNodes self.now result }
    {
        match self.ty() {
            NodeType::Flags | NodeType::EmptySet => Ok(self.nodes()),
            _ => Err(self.error(ParserErrorKind::InvalidType)),
        }
    }
}

/// The names of flags, without their `%`, in byte order.
#[derive(Drop)]
pub struct FlagLabels<'this, 'src> {
    nodes: &'this [Node],
    src: &'src str,
}

impl<'this, 'src> Model for FlagLabels<'this, 'src> {
    ghost use Rattle.std.specs.Prelude.{List, ℕ};
    ghost use Rattle.std.specs.Coded.{codes};
    ghost use Rattle.wave_grammar.specs.NodeFlags.{AreAllParsed, names_at};

    ghost Value = { List (List ℕ) };

    ghost coded = { Prim.hlevel codes };

    ghost view = { λ f. names_at f.src.now f.nodes.now };

    ghost invariant = { λ f. AreAllParsed f.src.now f.nodes.now };
}

impl<'this, 'src> FlagLabels<'this, 'src> {
    /// The labels of these nodes.
    fn new(nodes: &'this [Node], src: &'src str) -> FlagLabels<'this, 'src>
        requires { AreAllParsed src.now nodes.now }
        ensures { result ≡ names_at src.now nodes.now }
    {
        FlagLabels { nodes, src }
    }
}

impl<'this, 'src> Iterator for FlagLabels<'this, 'src> {
    ghost use Rattle.std.specs.Prelude.{◌≡◌, Some, IfSome, length};
    ghost use Rattle.std.specs.Iterator.{YieldsFirstRef, UpTo, item_count};
    ghost use Rattle.std.specs.Iterator.SizeHint.{IsWithinCount};

    type Item = &'src str;

    ghost next_gives = { YieldsFirstRef (λ f. f) };

    ghost remaining = { item_count (λ f. f) };

    /// The next name.
    fn next(&mut self) -> Option<&'src str> {
        let (node, rest) = self.nodes.split_first()?;
        self.nodes = rest;
        Some(label_name(node.slice(self.src)))
    }

    /// How many are left.
    fn size_hint(&self) -> (usize, Option<usize>)
        ensures lower { IsWithinCount result.0 (item_count (λ f. f) self.now) }
        ensures upper { IfSome result.1 (UpTo (item_count (λ f. f) self.now)) }
        ensures exact { (result.0 ≡ length self.now) × (result.1 ≡ Some result.0) }
    {
        let count = self.len();
        (count, Some(count))
    }
}

impl<'this, 'src> ExactSizeIterator for FlagLabels<'this, 'src> {
    /// How many names are left.
    fn len(&self) -> usize {
        self.nodes.len()
    }
}
