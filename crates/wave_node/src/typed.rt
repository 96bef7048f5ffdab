//! Reading nodes at types.
ghost use Rattle.std.specs.Prelude.{List, [], ◌∷◌, ◌++◌, ◌≡◌, ◌≢◌, OnOk, IfOk, IfErr, MatchBool};
ghost use Rattle.std.specs.Result.{IsErrAnd};
ghost use Rattle.wave_wasm.specs.Types as type;
ghost use Rattle.wave_wasm.specs.Types.{kind_of};
ghost use Rattle.wave_lex.specs.declared.error.ParserErrorKind.TheVariants.{OutOfMemory};
ghost use Rattle.wave_lex.specs.Errors.{LiesInText};
ghost use Rattle.wave_grammar.specs.NodeTree.{place_of};
ghost use Rattle.wave_grammar.specs.Nodes.{IsParsedFrom};
ghost use Rattle.wave_grammar.specs.ErrorSpans.{HasTypeKind, StandsIn, RefusesIn};
ghost use Rattle.wave_grammar.specs.TypedReading.{IsKeyOf, IsKeywordOf, AnswersKey, ReadsAtType, ReadsKey};
ghost use Rattle.wave_node.specs.KeywordNodes.{RefusesKeyword};

use crate::ast::{Node, NodeType};
use std::alloc::Global;
use wave_leaf::error::{ReadError, or_error};
use wave_lex::error::{ParserError, ParserErrorKind};
use wave_wasm::keyword::Keyword;
use wave_wasm::wasm::{WasmType, WasmTypeKind, WasmValue};

impl Node {
    /// The value that the type gives the node, which was parsed from `src`. Where the type gives it
    /// none the refusal is a fault of the node or of a part of it, at its span: of several the first,
    /// going down the tree (a tuple's count before its items; a record's keys, then its fields in the
    /// type's order, then fields that the type hasn't). Where a constructor of
    /// `V` refuses, that is the cause, at the node that was read; `Value` refuses so for lack of
    /// memory alone, where the names of the type are distinct. A key is read as a key of a map of
    /// such keys is, but a label is refused without a detail; one that is a keyword is `InvalidType`
    /// at each type but bool that has values.
    pub fn to_wasm_value<V: WasmValue>(
        &self,
        alloc: Global,
        ty: &V::Type,
        src: &str,
    ) -> Result<V, ParserError>
        requires { IsParsedFrom src.now self.now }
        ensures answer { ReadsAtType V.tree V.is_of V.is_full (V.Type.tree ty.now) src.now self.now result }
        ensures key { ReadsKey V.tree V.is_of V.is_full (V.Type.tree ty.now) src.now self.now result }
        ensures keyword { IsKeywordOf src.now self.now → V.Type.tree ty.now ≢ type.simple type.bool
            → IsErrAnd result (RefusesKeyword (kind_of (V.Type.tree ty.now)) self.now) }
        ensures kind { IfErr result HasTypeKind }
        ensures within { IfErr result (StandsIn self.now) }
        ensures in_text { IfErr result (λ e. LiesInText src.now e.span) }
    {
        if self.is_keyword(src) {
            return or_error(self.read_keyword(alloc, ty, src));
        }
        or_error(self.read(alloc, ty, src))
    }

    /// Whether the node is a key that is a keyword, as no value is.
    fn is_keyword(&self, src: &str) -> bool
        requires { IsParsedFrom src.now self.now }
        ensures { MatchBool result (IsKeywordOf src.now self.now) (IsKeywordOf src.now self.now → ⊥) }
    {
        if !self.is_of(NodeType::Label) {
            return false;
        }
        match Keyword::decode(self.slice(src)) {
            Some(_) => true,
            None => false,
        }
    }

    /// A key that is a keyword: `true` or `false`, or none of any type.
    fn read_keyword<V: WasmValue>(
        &self,
        alloc: Global,
        ty: &V::Type,
        src: &str,
    ) -> Result<V, ReadError>
        requires key { IsKeyOf src.now self.now }
        requires keyword { IsKeywordOf src.now self.now }
        ensures answer { AnswersKey V.tree V.is_of V.is_full (V.Type.tree ty.now) src.now self.now result }
        ensures other { V.Type.tree ty.now ≢ type.simple type.bool
            → IsErrAnd result (RefusesKeyword (kind_of (V.Type.tree ty.now)) self.now) }
        ensures within { IfErr result (RefusesIn self.now) }
    {
        let leaf = self.leaf(src);
        let kind = ty.kind();
        match kind {
            WasmTypeKind::Bool => leaf.read_plain_key(alloc, ty),
            WasmTypeKind::F32 | WasmTypeKind::F64 | WasmTypeKind::Unsupported => {
                Err(leaf.unsupported(alloc, kind))
            }
            _ => Err(self.read_error(ParserErrorKind::InvalidType)),
        }
    }

    /// Pushes a value; out of memory is refused at the node.
    pub(crate) fn push<V: Drop>(&self, items: &mut Vec<V>, item: V) -> Result<(), ParserError>
        ensures kept { OnOk result (items.new.items ≡ items.old.items ++ item ∷ []) }
        ensures refused { IfErr result (λ e. e.kind ≡ OutOfMemory) }
        ensures place { IfErr result (λ e. e.span ≡ place_of self.now) }
    {
        match items.push(item) {
            Ok(()) => Ok(()),
            Err(_) => Err(self.out_of_memory()),
        }
    }

    /// A refusal for lack of memory, at the node.
    pub(crate) fn out_of_memory(&self) -> ParserError
        ensures kind { result.kind ≡ OutOfMemory }
        ensures span { result.span ≡ place_of self.now }
    {
        ParserError::new(ParserErrorKind::OutOfMemory, self.span())
    }
}
