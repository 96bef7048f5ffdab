//! Values that were read without a type.
ghost use Rattle.std.specs.Prelude.{◌≡◌, IfOk, IfErr};
ghost use Rattle.wave_grammar.specs.TypedReading.{IsValueOf};
ghost use Rattle.wave_grammar.specs.TypedReading as typed;
ghost use Rattle.wave_tree.specs.Untyped.{IsUntypedOf, RefusesTree, MemoryAtStart};
ghost use Rattle.wave_grammar.specs.ErrorSpans.{HasTypeKind, StandsIn};
ghost use Rattle.wave_lex.specs.Errors.{LiesInText};

pub use self::call::{UntypedFuncCall, parse_raw_func_call};
use crate::parser::{Parser, ParserError};
use std::alloc::Global;
use std::borrow::CowStr;
use std::marker::Model;
use wave_node::ast::Node;
use wave_wasm::wasm::WasmValue;

pub mod call;
mod display;

/// A value that was parsed without a type: its source, and the node of its tree, whose spans are byte
/// places of the source.
#[derive(Debug, Drop)]
pub struct UntypedValue<'source> {
    source: CowStr<'source, Global>,
    node: Node,
}

impl<'source> Model for UntypedValue<'source> {
    ghost use Rattle.std.specs.Cow.{cow_str_bytes};
    ghost use Rattle.wave_grammar.specs.TypedReading.{IsValueOf};
    ghost use Rattle.wave_tree.specs.Untyped.{Untyped};
    ghost use Rattle.wave_tree.specs.Private.UntypedEncoding.{untyped_code};

    ghost Value = { Untyped };

    ghost coded = { untyped_code };

    ghost view = { λ u. record { source = cow_str_bytes u.source; node = u.node } };

    ghost invariant = { λ u. IsValueOf (cow_str_bytes u.source) u.node };
}

impl<'source> UntypedValue<'source> {
    /// The value of a node that was parsed from the source as a value.
    pub(crate) fn new(source: &'source str, node: Node) -> UntypedValue<'source>
        requires { IsValueOf source.now node }
        ensures { result ≡ record { source = source.now; node = node } }
    {
        UntypedValue {
            source: CowStr::Borrowed(source),
            node,
        }
    }

    /// The value of at most 100 levels that the whole text spells. What is no value is refused as by
    /// `Parser::parse_raw_value`, and what follows a value as `TrailingCharacters` at the span of the
    /// next token. Spans are byte places of the text; `OutOfMemory` stands at 0..0.
    pub fn parse(alloc: Global, source: &'source str) -> Result<UntypedValue<'source>, ParserError>
        ensures value { IfOk result (IsUntypedOf 100 source.now) }
        ensures refused { IfErr result (RefusesTree 100 source.now) }
        ensures memory { IfErr result MemoryAtStart }
        ensures within { IfErr result (λ e. LiesInText source.now e.span) }
    {
        let mut parser = Parser::new(source);
        let value = parser.parse_raw_value(alloc)?;
        parser.finish()?;
        Ok(value)
    }

    /// The same value with a copy of its source, where that is borrowed. Where there is no memory
    /// the value is handed back.
    pub fn into_owned(self, alloc: Global) -> Result<UntypedValue<'static>, UntypedValue<'source>>
        ensures owned { IfOk result (λ value. value ≡ self.entry) }
        ensures handed_back { IfErr result (λ value. value ≡ self.entry) }
    {
        let UntypedValue { source, node } = self;
        match source {
            CowStr::Owned(text) => Ok(UntypedValue {
                source: CowStr::Owned(text),
                node,
            }),
            CowStr::Borrowed(text) => match String::from_str(alloc, text) {
                Ok(copy) => Ok(UntypedValue {
                    source: CowStr::Owned(copy),
                    node,
                }),
                Err(_) => Err(UntypedValue {
                    source: CowStr::Borrowed(text),
                    node,
                }),
            },
        }
    }

    /// The text that the value was parsed from.
    pub fn source(&self) -> &str
        ensures { result.now ≡ self.now.source }
    {
        self.source.as_str()
    }

    /// The node of the value.
    pub fn node(&self) -> &Node
        ensures node { result.now ≡ self.now.node }
        ensures parsed { IsValueOf self.now.source result.now }
    {
        &self.node
    }

    /// The value that the type gives the untyped one, as by `Node::to_wasm_value`. Else the refusal
    /// stands at the node that has the fault, in byte places of the source.
    pub fn to_wasm_value<V: WasmValue>(&self, alloc: Global, ty: &V::Type) -> Result<V, ParserError>
        ensures answer { typed.ReadsAtType V.tree V.is_of V.is_full (V.Type.tree ty.now) self.now.source self.now.node result }
        ensures kind { IfErr result HasTypeKind }
        ensures within { IfErr result (StandsIn self.now.node) }
        ensures in_text { IfErr result (λ e. LiesInText self.now.source e.span) }
    {
        self.node.to_wasm_value(alloc, ty, self.source.as_str())
    }
}
