//! Reading the parameters of a call.
ghost use Rattle.std.specs.Prelude.{◌≡◌, ◌≢◌, ◌⊎◌, ◌↔◌, ◌++◌, List, [], ◌∷◌, map, Some, length, IsTrue, OnOk, IfOk, IfErr, MatchBool};
ghost use Rattle.wave_wasm.specs.Lists.{AllOf, SomeOf};
ghost use Rattle.wave_lex.specs.Errors.{too_many_params, too_few_params, no_params};
ghost use Rattle.wave_lex.specs.declared.error.ParserErrorKind.TheVariants.{InvalidParams, InvalidType, OutOfMemory, WasmValueError};
ghost use Rattle.wave_grammar.specs.TypedGrammar.{IsOption};
ghost use Rattle.wave_grammar.specs.NodeTree.{type_of, place_of};
ghost use Rattle.wave_grammar.specs.NodeAccessors.{RefusedAs};
ghost use Rattle.wave_grammar.specs.declared.form.NodeType.TheVariants.{Tuple};
ghost use Rattle.std.specs.Result.{IsErrAnd};
ghost use Rattle.wave_lex.specs.Errors.{Says};
ghost use Rattle.wave_grammar.specs.ErrorSpans.{IsCausedIn, IsAtPlace, HasParamsKind};
ghost use Rattle.wave_lex.specs.Errors.{LiesInText};
ghost use Rattle.wave_grammar.specs.Nodes.{IsNodeOf, IsParsedFrom};
ghost use Rattle.wave_grammar.specs.SpannedTree.{SpannedTree};
ghost use Rattle.wave_grammar.specs.NodeParams.{AreOmitted, RefusesNone, RefusesOmitted};
ghost use Rattle.wave_grammar.specs.NodeParams.{GivesParams, RefusesParams, IsNoOption, close_of};

use crate::ast::Node;
use std::alloc::Global;
use wave_lex::error::{ParserError, ParserErrorKind};
use wave_lex::lex::Span;
use wave_wasm::wasm::{WasmType, WasmTypeKind, WasmValue};

/// The type of a parameter, as it is or by a reference.
pub trait ParamType<T: WasmType> {
    ghost use Rattle.std.specs.Prelude.{◌≡◌};
    ghost use Rattle.wave_wasm.specs.Types.{TypeTree};

    /// What the type means.
    ghost denoted: { Self → TypeTree };

    /// The type.
    fn as_type(&self) -> &T
        ensures { T.tree result.now ≡ denoted self.now };
}

impl<T: WasmType> ParamType<T> for T {
    ghost denoted = { λ ty. T.tree ty };

    fn as_type(&self) -> &T {
        self
    }
}

impl<T: WasmType> ParamType<T> for &T {
    ghost denoted = { λ ty. T.tree ty.now };

    fn as_type(&self) -> &T {
        *self
    }
}

impl Node {
    /// The values of the items of a tuple node, which was parsed from `src`, at the types in their
    /// places. Each type that is left has to be an option and reads as `none`, else the refusal is
    /// `InvalidParams` at the closing `)`; so it is at the first item that has no type. Another
    /// node is `InvalidType`; an item's fault is as that of `to_wasm_value`. A type that repeats
    /// names leaves open its own value alone: there are as many values as types.
    pub fn to_wasm_params<V: WasmValue>(
        &self,
        alloc: Global,
        types: &[V::Type],
        src: &str,
    ) -> Result<Vec<V>, ParserError>
        requires { IsParsedFrom src.now self.now }
        ensures count { IfOk result (λ vs. length vs.items ≡ length types.now) }
        ensures values { (t : SpannedTree) → IsNodeOf src.now self.now t
            → IfOk result (λ vs. GivesParams V.tree V.is_of (map V.Type.tree types.now) self.now t vs.items) }
        ensures refused { (t : SpannedTree) → IsNodeOf src.now self.now t
            → IfErr result (RefusesParams V.is_full (map V.Type.tree types.now) self.now t) }
        ensures form { type_of self.now ≢ Tuple → IsErrAnd result (RefusedAs InvalidType self.now) }
        ensures kind { IfErr result HasParamsKind }
        ensures within { IfErr result (λ e. LiesInText src.now e.span) }
        ensures caused { IfErr result (λ e. e.kind ≡ WasmValueError → IsCausedIn self.now e) }
    {
        self.read_params(alloc, types, src)
    }

    /// The same of types that are had as they are or by references.
    pub(crate) fn read_params<V: WasmValue, P: ParamType<V::Type>>(
        &self,
        alloc: Global,
        types: &[P],
        src: &str,
    ) -> Result<Vec<V>, ParserError>
        requires { IsParsedFrom src.now self.now }
        ensures count { IfOk result (λ vs. length vs.items ≡ length types.now) }
        ensures values { (t : SpannedTree) → IsNodeOf src.now self.now t
            → IfOk result (λ vs. GivesParams V.tree V.is_of (map P.denoted types.now) self.now t vs.items) }
        ensures refused { (t : SpannedTree) → IsNodeOf src.now self.now t
            → IfErr result (RefusesParams V.is_full (map P.denoted types.now) self.now t) }
        ensures form { type_of self.now ≢ Tuple → IsErrAnd result (RefusedAs InvalidType self.now) }
        ensures kind { IfErr result HasParamsKind }
        ensures within { IfErr result (λ e. LiesInText src.now e.span) }
        ensures caused { IfErr result (λ e. e.kind ≡ WasmValueError → IsCausedIn self.now e) }
    {
        let nodes = self.as_tuple()?;
        let mut vals = Vec::new(alloc);
        for i in 0..nodes.len() {
            if i >= types.len() {
                return Err(nodes[i].too_many());
            }
            let val = nodes[i].to_wasm_value(alloc, types[i].as_type(), src)?;
            self.push(&mut vals, val)?;
        }
        let left = &types[nodes.len()..];
        if !are_options::<V::Type, P>(left) {
            return Err(self.missing());
        }
        push_omitted(alloc, left, self.span(), &mut vals)?;
        Ok(vals)
    }

    /// The refusal of an item that has no type.
    fn too_many(&self) -> ParserError
        ensures { Says result InvalidParams (place_of self.now) (Some too_many_params) }
    {
        ParserError::with_static(
            ParserErrorKind::InvalidParams,
            self.span(),
            "more param(s) than expected",
        )
    }

    /// The refusal of a tuple that has too few items.
    fn missing(&self) -> ParserError
        ensures { Says result InvalidParams (close_of self.now) (Some too_few_params) }
    {
        let end = self.span().end;
        ParserError::with_static(
            ParserErrorKind::InvalidParams,
            end.saturating_sub(1)..end,
            "missing required param(s)",
        )
    }
}

/// Whether all types are options.
fn are_options<T: WasmType, P: ParamType<T>>(types: &[P]) -> bool
    ensures { MatchBool result (AllOf IsOption (map P.denoted types.now)) (SomeOf IsNoOption (map P.denoted types.now)) }
{
    for ty in types {
        if !is_option(ty.as_type().kind()) {
            return false;
        }
    }
    true
}

/// Whether it is the kind of options.
fn is_option(kind: WasmTypeKind) -> bool
    ensures { IsTrue result ↔ (kind ≡ WasmTypeKind.Option) }
{
    kind == WasmTypeKind::Option
}

/// Adds `none` for each of the types, which are options. A constructor's refusal stands at `at`.
fn push_omitted<V: WasmValue, P: ParamType<V::Type>>(
    alloc: Global,
    types: &[P],
    at: Span,
    vals: &mut Vec<V>,
) -> Result<(), ParserError>
    requires { AllOf IsOption (map P.denoted types.now) }
    ensures values { IfOk result (λ _. (others : List V) × (vals.new.items ≡ vals.old.items ++ others)
        × AreOmitted V.tree V.is_of (map P.denoted types.now) others) }
    ensures refused { IfErr result (RefusesOmitted V.is_full (map P.denoted types.now) at) }
    ensures within { IfErr result (IsAtPlace at) }
{
    for ty in types {
        let val = match V::make_option(alloc, ty.as_type(), None) {
            Ok(val) => val,
            Err(cause) => return Err(ParserError::with_cause(at.start..at.end, cause)),
        };
        push_at(vals, val, at.start..at.end)?;
    }
    Ok(())
}

/// `none` for each of the types, which have to be options, where a call of the name at `at` has
/// nothing between its parentheses.
pub fn omitted_params<V: WasmValue, P: ParamType<V::Type>>(
    alloc: Global,
    types: &[P],
    at: Span,
) -> Result<Vec<V>, ParserError>
    ensures count { IfOk result (λ vs. length vs.items ≡ length types.now) }
    ensures values { IfOk result (λ vs. AreOmitted V.tree V.is_of (map P.denoted types.now) vs.items) }
    ensures refused { IfErr result (RefusesNone V.is_full (map P.denoted types.now) at) }
    ensures within { IfErr result (IsAtPlace at) }
{
    if !are_options::<V::Type, P>(types) {
        return Err(none_given(alloc, types.len(), at));
    }
    let mut vals = Vec::new(alloc);
    push_omitted(alloc, types, at, &mut vals)?;
    Ok(vals)
}

/// The refusal of a call without parameters to a function that has some.
fn none_given(alloc: Global, count: usize, at: Span) -> ParserError
    ensures refusal { (result.kind ≡ OutOfMemory) ⊎ Says result InvalidParams at (Some (no_params count)) }
    ensures span { result.span ≡ at }
{
    match format!(in alloc; "no params provided, but {count} required") {
        Ok(detail) => ParserError::with_detail(ParserErrorKind::InvalidParams, at, detail),
        Err(_) => ParserError::new(ParserErrorKind::OutOfMemory, at),
    }
}

/// Pushes a value; out of memory is refused at `at`.
fn push_at<V: Drop>(vals: &mut Vec<V>, val: V, at: Span) -> Result<(), ParserError>
    ensures kept { OnOk result (vals.new.items ≡ vals.old.items ++ val ∷ []) }
    ensures refused { IfErr result (λ e. e.kind ≡ OutOfMemory) }
    ensures place { IfErr result (λ e. e.span ≡ at) }
{
    match vals.push(val) {
        Ok(()) => Ok(()),
        Err(_) => Err(ParserError::new(ParserErrorKind::OutOfMemory, at)),
    }
}

/// `Node::to_wasm_params` of types that are had as they are or by references.
pub fn read_params<V: WasmValue, P: ParamType<V::Type>>(
    node: &Node,
    alloc: Global,
    types: &[P],
    src: &str,
) -> Result<Vec<V>, ParserError>
    requires { IsParsedFrom src.now node.now }
    ensures count { IfOk result (λ vs. length vs.items ≡ length types.now) }
    ensures values { (t : SpannedTree) → IsNodeOf src.now node.now t
        → IfOk result (λ vs. GivesParams V.tree V.is_of (map P.denoted types.now) node.now t vs.items) }
    ensures refused { (t : SpannedTree) → IsNodeOf src.now node.now t
        → IfErr result (RefusesParams V.is_full (map P.denoted types.now) node.now t) }
    ensures form { type_of node.now ≢ Tuple → IsErrAnd result (RefusedAs InvalidType node.now) }
    ensures kind { IfErr result HasParamsKind }
    ensures within { IfErr result (λ e. LiesInText src.now e.span) }
    ensures caused { IfErr result (λ e. e.kind ≡ WasmValueError → IsCausedIn node.now e) }
{
    node.read_params(alloc, types, src)
}
