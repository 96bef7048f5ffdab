//! Nodes as a parser makes them and a display takes them apart.
ghost use Rattle.std.specs.Prelude.{◌≡◌, []};
ghost use Rattle.wave_grammar.specs.NodeTree.{node, node_trees, children_of};
ghost use Rattle.wave_grammar.specs.Nodes.{IsParsedFrom};
ghost use Rattle.wave_grammar.specs.NodeAccessors.{node_text};

use super::{Node, NodeType};
use std::alloc::Global;
use wave_lex::lex::Span;

/// A node without children.
#[inline(always)]
pub fn leaf(alloc: Global, ty: NodeType, span: Span) -> Node
    ensures { result ≡ node ty span (node_trees []) }
{
    node(ty, span, Vec::new(alloc))
}

/// A node of these children.
#[inline(always)]
pub fn node(ty: NodeType, span: Span, children: Vec<Node>) -> Node
    ensures { result ≡ node ty span (node_trees children.items) }
{
    Node {
        ty,
        fill: 0,
        fill_of_two: 0,
        fill_of_four: 0,
        span,
        children,
    }
}

/// The nodes within the node.
pub fn nodes(node: &Node) -> &[Node]
    ensures { result.now ≡ children_of node.now }
{
    node.nodes()
}

/// The source at the node, which was parsed from it.
pub fn slice<'src>(node: &Node, src: &'src str) -> &'src str
    requires { IsParsedFrom src.now node.now }
    ensures { result.now ≡ node_text src.now node.now }
{
    node.slice(src)
}
