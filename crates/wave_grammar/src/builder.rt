//! Builders of what is made of a value while its tokens are taken.
use crate::form::NodeType;
use std::alloc::{AllocError, Global};
use std::collections::BTreeMap;
use wave_lex::lex::Span;

/// What is to be made of a value, from the parts of its node, one after the other.
pub trait Builder: Sized + Copy {
    /// What is made of a value.
    type Built: Drop;

    /// What is made of the parts of a value so far.
    type Parts: Drop;

    ghost use Rattle.std.specs.Prelude.{ℕ, ◌≡◌, ◌++◌, List, [], ◌∷◌, IfOk, IfErr};
    ghost use Rattle.wave_grammar.specs.FlagParts.{AreFlagsOf, flag_nodes};
    ghost use Rattle.wave_grammar.specs.NodeParts.{ArePartsOfSome, IsOfParts, IsOneToken, TakesKey, TakesPart};
    ghost use Rattle.wave_grammar.specs.SpannedTree.{slice};
    ghost use Rattle.wave_grammar.specs.NodeTree.{NodeTree, node, no_nodes, node_trees};
    ghost use Rattle.wave_grammar.specs.declared.form.NodeType.{NodeType};
    ghost use Rattle.wave_grammar.specs.declared.form.NodeType.TheVariants as node_type;

    /// This was made of the node, which was parsed from the source.
    ghost is_built: { Self → List ℕ → NodeTree → Self.Built → Type 0 };

    /// These parts were made of the first children of a node of the type.
    ghost are_parts: { Self → List ℕ → NodeType → List NodeTree → Self.Parts → Type 0 };

    /// The builder of the part that comes next.
    ghost next: { Self → Self.Parts → Self };

    /// Memory is taken for the parts of a value.
    ghost takes_memory: { Self → Type 0 };

    /// What is made of a node of one token, of this text. It asks for a text that stands there in some
    /// source.
    fn leaf(self, alloc: Global, ty: NodeType, span: Span, text: &str) -> Self::Built
        requires one { IsOneToken ty }
        requires text { (source : List ℕ) × (text.now ≡ slice source span) }
        ensures { (source : List ℕ) → IsOneToken ty → text.now ≡ slice source span → is_built self source (node ty span no_nodes) result };

    /// No parts, of a node of the type, which is one that has parts.
    fn parts(self, alloc: Global, ty: NodeType) -> Self::Parts
        ensures { (source : List ℕ) → IsOfParts ty → are_parts self source ty [] result };

    /// The builder of the part that comes next.
    fn part(self, parts: &Self::Parts) -> Self
        ensures { result ≡ next self parts.now };

    /// Adds a key or the label of a case to the parts.
    fn push_key(
        self,
        alloc: Global,
        parts: &mut Self::Parts,
        ty: NodeType,
        span: Span,
        text: &str,
    ) -> Result<(), AllocError>
        ensures kept { IfOk result (λ _. (source : List ℕ) (whole : NodeType) (children : List NodeTree)
            → text.now ≡ slice source span → TakesKey whole children → are_parts self source whole children parts.old
            → are_parts self source whole (children ++ node ty span no_nodes ∷ []) parts.new) }
        ensures memory { IfErr result (λ _. (source : List ℕ) (whole : NodeType) (children : List NodeTree)
            → are_parts self source whole children parts.old → takes_memory self) };

    /// Adds to the parts one that was made by the builder of the next part.
    fn push_part(
        self,
        alloc: Global,
        parts: &mut Self::Parts,
        built: Self::Built,
    ) -> Result<(), AllocError>
        ensures kept { IfOk result (λ _. (source : List ℕ) (whole : NodeType) (children : List NodeTree) (n : NodeTree)
            → TakesPart whole children → are_parts self source whole children parts.old
            → is_built (next self parts.old) source n built → are_parts self source whole (children ++ n ∷ []) parts.new) }
        ensures memory { IfErr result (λ _. (source : List ℕ) (whole : NodeType) (children : List NodeTree)
            → are_parts self source whole children parts.old → takes_memory self) };

    /// Adds to the parts what the builder of the next part makes of a node of one token, of this text. It
    /// asks for a text that stands there in some source.
    fn push_leaf(
        self,
        alloc: Global,
        parts: &mut Self::Parts,
        ty: NodeType,
        span: Span,
        text: &str,
    ) -> Result<(), AllocError>
        requires one { IsOneToken ty }
        requires text { (source : List ℕ) × (text.now ≡ slice source span) }
        ensures kept { IfOk result (λ _. (source : List ℕ) (whole : NodeType) (children : List NodeTree)
            → text.now ≡ slice source span → TakesPart whole children → are_parts self source whole children parts.old
            → are_parts self source whole (children ++ node ty span no_nodes ∷ []) parts.new) }
        ensures memory { IfErr result (λ _. (source : List ℕ) (whole : NodeType) (children : List NodeTree)
            → are_parts self source whole children parts.old → takes_memory self) };

    /// What is made of a node of the type with these parts. It asks for parts that were made of such a
    /// node's children.
    fn finish(self, alloc: Global, ty: NodeType, span: Span, parts: Self::Parts) -> Self::Built
        requires { ArePartsOfSome (are_parts self) ty parts }
        ensures { (source : List ℕ) (children : List NodeTree) → are_parts self source ty children parts
            → is_built self source (node ty span (node_trees children)) result };

    /// What is made of a node of these flags, which stand at these places.
    fn flags(
        self,
        alloc: Global,
        span: Span,
        flags: BTreeMap<&str, Span>,
    ) -> Result<Self::Built, AllocError>
        ensures { IfOk result (λ built. (source : List ℕ) → AreFlagsOf source flags.entry
            → is_built self source (node node_type.Flags span (flag_nodes flags.entry)) built) };

    /// Where memory is taken for the parts of the next part, it is taken for parts.
    ghost next_takes: { (builder : Self) (source : List ℕ) (ty : NodeType) (children : List NodeTree) (parts : Self.Parts)
        → are_parts builder source ty children parts → takes_memory (next builder parts) → takes_memory builder };
}
