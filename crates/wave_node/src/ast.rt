//! Nodes of the untyped tree.
ghost use Rattle.std.specs.Prelude.{◌≡◌, ◌+◌, ◌<◌, ◌^◌, length, IfOk, IsTrue, ◌↔◌};
ghost use Rattle.wave_grammar.specs.NodeTree.{node, no_nodes, type_of, place_of, children_of};
ghost use Rattle.wave_grammar.specs.Nodes.{IsParsedFrom};
ghost use Rattle.wave_grammar.specs.NodeStrings.{GivesString};
ghost use Rattle.wave_grammar.specs.NodeAccessors.{node_text, RefusedAs, OfType};
ghost use Rattle.wave_grammar.specs.NodeAccessors.{GivesBool, GivesNumber, GivesChar, GivesParts, GivesNodes, GivesOption};
ghost use Rattle.wave_grammar.specs.NodeAccessors.{GivesResult, GivesLabel, GivesVariant, GivesEntries, node_pairs};
ghost use Rattle.wave_leaf.specs.Leaves.{leaf_node, HasQuotes, IsLeafIn};

pub use crate::flags::FlagLabels;
pub use crate::record::RecordFields;
use std::alloc::{AllocError, Global};
pub use std::borrow::CowStr;
use std::iter::ExactSizeIterator;
use std::marker::Model;
pub use wave_grammar::form::NodeType;
use wave_grammar::label::label_name;
use wave_grammar::number::WholeNumber;
use wave_leaf::error::or_error;
use wave_leaf::leaf::LeafToken;
use wave_lex::error::{ParserError, ParserErrorKind};
use wave_lex::lex::Span;
use wave_lex::strings::StringPartsIter;

pub mod make;

/// A part of a parsed text: its type, the bytes of the source where it stands, and the nodes
/// within it.
#[derive(Debug, Drop)]
pub struct Node {
    ty: NodeType,
    /// These three are zero. They fill the word that the type begins, since padding is copied by moves
    /// that overlap, and a processor waits for these.
    fill: u8,
    fill_of_two: u16,
    fill_of_four: u32,
    span: Span,
    children: Vec<Node>,
}

impl Model for Node {
    ghost use Rattle.wave_grammar.specs.NodeTree.{NodeTree, node, node_trees, depth};
    ghost use Rattle.wave_node.specs.NodeEncoding.{node_code};

    ghost Value = { NodeTree };

    ghost coded = { node_code };

    ghost view = { λ n. node n.ty n.span (node_trees n.children.items) };

    ghost size = { depth };

    ghost use Rattle.std.proofs.Common.{arith};
    ghost use Rattle.wave_node.specs.Private.NodeDepth.{most_le-nodes_depth};

    ghost size_decreases = { λ a h. omega (arith, most_le-nodes_depth a.children.items) };
}

impl Node {
    /// What the node spells.
    pub fn ty(&self) -> NodeType
        ensures { result ≡ type_of self.now }
    {
        self.ty
    }

    /// The bytes of the source where the node stands, from its first token to its last.
    pub fn span(&self) -> Span
        ensures { result ≡ place_of self.now }
    {
        self.span.start..self.span.end
    }

    /// An equal node.
    #[cycle(clone)]
    pub fn clone(&self, alloc: Global) -> Result<Node, AllocError>
        ensures { IfOk result (λ n. n ≡ self.now) }
    {
        let children = clone_nodes(alloc, &self.children)?;
        Ok(make::node(self.ty, self.span(), children))
    }

    /// The bool, at a node of one of the two types of bools; else `InvalidType`.
    pub fn as_bool(&self) -> Result<bool, ParserError>
        ensures { GivesBool self.now result }
    {
        or_error(self.with_text("").as_bool())
    }

    /// The number, at a number node; else `InvalidType`. A number with a fraction or an exponent,
    /// a word, a `-` at an unsigned type and a number that is too great are `InvalidValue`. The
    /// node was parsed from `src`.
    pub fn as_number<T: WholeNumber>(&self, src: &str) -> Result<T, ParserError>
        requires { IsParsedFrom src.now self.now }
        ensures { GivesNumber T.kind T.number src.now self.now result }
    {
        or_error(self.leaf(src).as_number())
    }

    /// The char, at a char node; else `InvalidType`. An escape of no scalar value is
    /// `InvalidEscape`. The node was parsed from `src`.
    pub fn as_char(&self, src: &str) -> Result<char, ParserError>
        requires { IsParsedFrom src.now self.now }
        ensures { GivesChar src.now self.now result }
    {
        or_error(self.leaf(src).as_char())
    }

    /// The parts of the text, at a string and at a multiline string; else `InvalidType`. What
    /// `StringPartsIter::new_multiline` refuses of a multiline string is refused here, as
    /// `InvalidMultilineString`; any other fault comes as an item. The node was parsed from `src`.
    pub fn iter_str<'src>(&self, src: &'src str) -> Result<StringPartsIter<'src>, ParserError>
        requires { IsParsedFrom src.now self.now }
        ensures { GivesParts src.now self.now result }
    {
        self.leaf(src).iter_str()
    }

    /// The text, at a string and at a multiline string; else `InvalidType`. It is borrowed where
    /// it is empty or one run of the source; else it is a copy. A bad escape is `InvalidEscape` at
    /// its backslash; a multiline string that opens, closes or indents badly is `InvalidMultilineString`. Out of memory is refused
    /// at the node. The node was parsed from `src`.
    pub fn as_str<'src>(&self, alloc: Global, src: &'src str) -> Result<CowStr<'src>, ParserError>
        requires { IsParsedFrom src.now self.now }
        ensures { GivesString src.now self.now result }
    {
        self.leaf(src).as_str(alloc)
    }

    /// The items, at a tuple node; else `InvalidType`. Where the node was parsed as a value from a
    /// source, so was each item.
    pub fn as_tuple(&self) -> Result<&[Node], ParserError>
        ensures { GivesNodes NodeType.Tuple self.now result }
    {
        self.ensure_type(NodeType::Tuple)?;
        Ok(self.nodes())
    }

    /// The items, at a list node; else `InvalidType`. Where the node was parsed as a value from a
    /// source, so was each item.
    pub fn as_list(&self) -> Result<&[Node], ParserError>
        ensures { GivesNodes NodeType.List self.now result }
    {
        self.ensure_type(NodeType::List)?;
        Ok(self.nodes())
    }

    /// The keys and the values, at a node of entries, of `{:}` and of `{}`; else `InvalidType`. Where
    /// the node was parsed as a value from a source, so was each value, and each key as a key.
    pub fn as_map(&self) -> Result<MapEntries<'_>, ParserError>
        ensures { GivesEntries self.now result }
    {
        match self.ty {
            NodeType::TupleSet | NodeType::EmptySet => Ok(MapEntries::new(self.nodes())),
            _ => Err(self.error(ParserErrorKind::InvalidType)),
        }
    }

    /// The name of the case, without its `%`, and its payload, at a label and at a case with a
    /// payload; else `InvalidType`. The node was parsed from `src`, and so was the payload, as a value.
    pub fn as_variant<'this, 'src>(
        &'this self,
        src: &'src str,
    ) -> Result<(&'src str, Option<&'this Node>), ParserError>
        requires { IsParsedFrom src.now self.now }
        ensures { GivesVariant src.now self.now result }
    {
        if self.is_of(NodeType::VariantWithPayload) {
            let nodes = self.nodes();
            let label = &nodes[0];
            let payload = &nodes[1];
            return Ok((label_name(label.slice(src)), Some(payload)));
        }
        let name = self.as_enum(src)?;
        Ok((name, None))
    }

    /// The name, without its `%`, at a label; else `InvalidType`. The node was parsed from `src`.
    pub fn as_enum<'src>(&self, src: &'src str) -> Result<&'src str, ParserError>
        requires { IsParsedFrom src.now self.now }
        ensures { GivesLabel src.now self.now result }
    {
        self.ensure_type(NodeType::Label)?;
        Ok(label_name(self.slice(src)))
    }

    /// The payload, at `some`, and None at `none`; else `InvalidType`. Where the node was parsed as a
    /// value from a source, so was the payload.
    pub fn as_option(&self) -> Result<Option<&Node>, ParserError>
        ensures { GivesOption self.now result }
    {
        match self.ty {
            NodeType::OptionSome => Ok(self.nodes().first()),
            NodeType::OptionNone => Ok(None),
            _ => Err(self.error(ParserErrorKind::InvalidType)),
        }
    }

    /// The payload, where there is one, at `ok` and at `err`; else `InvalidType`. Where the node was
    /// parsed as a value from a source, so was the payload.
    pub fn as_result(&self) -> Result<Result<Option<&Node>, Option<&Node>>, ParserError>
        ensures { GivesResult self.now result }
    {
        match self.ty {
            NodeType::ResultOk => Ok(Ok(self.nodes().first())),
            NodeType::ResultErr => Ok(Err(self.nodes().first())),
            _ => Err(self.error(ParserErrorKind::InvalidType)),
        }
    }

    /// The nodes within the node.
    pub fn nodes(&self) -> &[Node]
        ensures { result.now ≡ children_of self.now }
    {
        self.children.as_slice()
    }

    /// The source at the node.
    pub(crate) fn slice<'src>(&self, src: &'src str) -> &'src str
        requires { IsParsedFrom src.now self.now }
        ensures { result.now ≡ node_text src.now self.now }
    {
        &src[self.span()]
    }

    /// The node, read as one token.
    pub(crate) fn leaf<'src>(&self, src: &'src str) -> LeafToken<'src>
        requires { IsParsedFrom src.now self.now }
        ensures text { IsLeafIn src.now result }
        ensures node { leaf_node result ≡ node (type_of self.now) (place_of self.now) no_nodes }
        ensures quotes { HasQuotes result }
        ensures fits { result.span.start + length result.text.now + 3 < 2 ^ 64 }
    {
        self.with_text(self.slice(src))
    }

    /// The node, read as one token of this text.
    fn with_text<'src>(&self, text: &'src str) -> LeafToken<'src>
        ensures text { result.text.now ≡ text.now }
        ensures node { leaf_node result ≡ node (type_of self.now) (place_of self.now) no_nodes }
    {
        LeafToken {
            ty: self.ty(),
            span: self.span(),
            text,
        }
    }

    /// Refuses a node of another type.
    pub(crate) fn ensure_type(&self, ty: NodeType) -> Result<(), ParserError>
        ensures { OfType ty self.now result }
    {
        if self.is_of(ty) {
            Ok(())
        } else {
            Err(self.error(ParserErrorKind::InvalidType))
        }
    }

    /// Whether the node is of this type.
    pub(crate) fn is_of(&self, ty: NodeType) -> bool
        ensures { IsTrue result ↔ (type_of self.now ≡ ty) }
    {
        self.ty == ty
    }

    /// A refusal of this kind at the node.
    pub(crate) fn error(&self, kind: ParserErrorKind) -> ParserError
        ensures { RefusedAs kind self.now result }
    {
        ParserError::new(kind, self.span())
    }
}

/// The keys and the values of a map, in the order of the source.
#[derive(Drop)]
pub struct MapEntries<'this> {
    nodes: &'this [Node],
}

impl<'this> Model for MapEntries<'this> {
    ghost use Rattle.std.specs.Prelude.{List};
    ghost use Rattle.std.specs.Coded.{codes};
    ghost use Rattle.wave_grammar.specs.NodeTree.{NodeTree};
    ghost use Rattle.wave_node.specs.NodeEncoding.{node_code};
    ghost use Rattle.wave_grammar.specs.NodeAccessors.{node_pairs};

    ghost Value = { List (NodeTree × NodeTree) };

    ghost coded = { Prim.hlevel (codes, node_code) };

    ghost view = { λ e. node_pairs e.nodes.now };
}

impl<'this> MapEntries<'this> {
    /// The nodes two by two.
    pub(crate) fn new(nodes: &'this [Node]) -> MapEntries<'this>
        ensures { result ≡ node_pairs nodes.now }
    {
        MapEntries { nodes }
    }
}

impl<'this> Iterator for MapEntries<'this> {
    ghost use Rattle.std.specs.Prelude.{◌≡◌, Some, IfSome, length};
    ghost use Rattle.std.specs.Iterator.{YieldsFirstBy, UpTo, item_count};
    ghost use Rattle.std.specs.Iterator.SizeHint.{IsWithinCount};
    ghost use Rattle.wave_grammar.specs.NodeAccessors.{denoted_nodes};

    type Item = (&'this Node, &'this Node);

    ghost next_gives = { YieldsFirstBy denoted_nodes (λ e. e) };

    ghost remaining = { item_count (λ e. e) };

    /// The next key and its value.
    fn next(&mut self) -> Option<(&'this Node, &'this Node)> {
        let (key, behind) = self.nodes.split_first()?;
        let (value, rest) = behind.split_first()?;
        self.nodes = rest;
        Some((key, value))
    }

    /// How many are left.
    fn size_hint(&self) -> (usize, Option<usize>)
        ensures lower { IsWithinCount result.0 (item_count (λ e. e) self.now) }
        ensures upper { IfSome result.1 (UpTo (item_count (λ e. e) self.now)) }
        ensures exact { (result.0 ≡ length self.now) × (result.1 ≡ Some result.0) }
    {
        let count = self.len();
        (count, Some(count))
    }
}

impl<'this> ExactSizeIterator for MapEntries<'this> {
    /// How many entries are left.
    fn len(&self) -> usize {
        self.nodes.len() / 2
    }
}

/// Equal nodes, in the same order.
#[cycle(clone)]
fn clone_nodes(alloc: Global, nodes: &Vec<Node>) -> Result<Vec<Node>, AllocError>
    ensures { IfOk result (λ ns. ns.items ≡ nodes.now.items) }
{
    let mut copies = Vec::new(alloc);
    for node in nodes {
        copies.push(node.clone(alloc)?)?;
    }
    Ok(copies)
}
