//! The builder that makes nodes.
ghost use Rattle.std.specs.Prelude.{◌≡◌, ◌++◌, [], ◌∷◌, OnOk};
ghost use Rattle.wave_grammar.specs.NodeTree.{node, no_nodes};

use std::alloc::{AllocError, Global};
use std::collections::BTreeMap;
use wave_grammar::builder::Builder;
use wave_lex::lex::Span;
use wave_node::ast::{Node, NodeType, make};

/// Adds the node of one token.
#[inline(always)]
fn push_token(
    alloc: Global,
    parts: &mut Vec<Node>,
    ty: NodeType,
    span: Span,
) -> Result<(), AllocError>
    ensures { OnOk result (parts.new.items ≡ parts.old.items ++ node ty span no_nodes ∷ []) }
{
    parts.reserve(1)?;
    parts.push_reserved(make::leaf(alloc, ty, span));
    Ok(())
}

/// The builder that makes of each value its node.
#[derive(Clone, Copy)]
pub struct NodeBuilder;

impl Builder for NodeBuilder {
    type Built = Node;

    type Parts = Vec<Node>;

    ghost use Rattle.std.specs.Prelude.{◌≡◌};

    ghost is_built = { λ builder source n built. built ≡ n };

    ghost are_parts = { λ builder source ty children parts. parts.items ≡ children };

    ghost next = { λ builder parts. builder };

    ghost takes_memory = { λ builder. Unit {0} };

    ghost next_takes = { λ builder source ty children parts are takes. takes };

    #[inline(always)]
    fn leaf(self, alloc: Global, ty: NodeType, span: Span, text: &str) -> Node {
        make::leaf(alloc, ty, span)
    }

    /// The parts of a case with its payload and of an option's or a result's payload are as many as the
    /// vector has room for at once, where there is memory.
    fn parts(self, alloc: Global, ty: NodeType) -> Vec<Node> {
        let count = match ty {
            NodeType::VariantWithPayload => 2,
            NodeType::OptionSome | NodeType::ResultOk | NodeType::ResultErr => 1,
            _ => 0,
        };
        Vec::with_capacity(alloc, count).unwrap_or(Vec::new(alloc))
    }

    #[inline(always)]
    fn part(self, parts: &Vec<Node>) -> NodeBuilder {
        self
    }

    #[inline(always)]
    fn push_key(
        self,
        alloc: Global,
        parts: &mut Vec<Node>,
        ty: NodeType,
        span: Span,
        text: &str,
    ) -> Result<(), AllocError> {
        push_token(alloc, parts, ty, span)
    }

    #[inline(always)]
    fn push_part(
        self,
        alloc: Global,
        parts: &mut Vec<Node>,
        built: Node,
    ) -> Result<(), AllocError> {
        parts.reserve(1)?;
        parts.push_reserved(built);
        Ok(())
    }

    #[inline(always)]
    fn push_leaf(
        self,
        alloc: Global,
        parts: &mut Vec<Node>,
        ty: NodeType,
        span: Span,
        text: &str,
    ) -> Result<(), AllocError> {
        push_token(alloc, parts, ty, span)
    }

    #[inline(always)]
    fn finish(self, alloc: Global, ty: NodeType, span: Span, parts: Vec<Node>) -> Node {
        make::node(ty, span, parts)
    }

    fn flags(
        self,
        alloc: Global,
        span: Span,
        flags: BTreeMap<&str, Span>,
    ) -> Result<Node, AllocError> {
        let mut nodes = Vec::with_capacity(alloc, flags.len())?;
        for at in flags.into_values() {
            nodes.push(make::leaf(alloc, NodeType::Label, at))?;
        }
        Ok(make::node(NodeType::Flags, span, nodes))
    }
}
