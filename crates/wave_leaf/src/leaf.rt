//! Values of one token, read at types.
ghost use Rattle.std.specs.Prelude.{ℕ, List, ◌≡◌, ◌≢◌, ◌++◌, IfOk, MatchOption};
ghost use Rattle.wave_wasm.specs.Types as type;
ghost use Rattle.wave_wasm.specs.TypeText.{kind_word};
ghost use Rattle.wave_wasm.specs.ValueErrors.{unsupported_type};
ghost use Rattle.wave_grammar.specs.NodeTree.{place_of};
ghost use Rattle.wave_grammar.specs.NodeAccessors.{RefusedAs, GivesBool, GivesNumber, GivesChar};
ghost use Rattle.wave_grammar.specs.PartReading.{IsCaused, AnswersWhole};
ghost use Rattle.wave_leaf.specs.Errors.{IsBuiltOrMemory, IsRefusedBy};
ghost use Rattle.wave_leaf.specs.Leaves.{leaf_node, IsLeafIn};
ghost use Rattle.wave_leaf.specs.Reading.{IsReadOfLeaf};

use crate::error::ReadError;
use std::alloc::Global;
use wave_grammar::form::NodeType;
use wave_grammar::number::WholeNumber;
use wave_grammar::text::char_in;
use wave_lex::error::ParserErrorKind;
use wave_lex::lex::Span;
use wave_wasm::wasm::{WasmTypeKind, WasmValue, WasmValueError};

/// What would be a node of one token: its type, where it stands, and its text.
#[derive(Drop)]
pub struct LeafToken<'src> {
    pub ty: NodeType,
    pub span: Span,
    pub text: &'src str,
}

impl<'src> LeafToken<'src> {
    /// A whole number, of a type of this kind. A type of another kind is refused as one that can't be
    /// read.
    #[inline(always)]
    pub fn read_whole<V: WasmValue>(
        &self,
        alloc: Global,
        kind: WasmTypeKind,
    ) -> Result<V, ReadError>
        ensures { (source : List ℕ) → IsLeafIn source self.now → AnswersWhole V.tree V.is_of V.is_full kind source (leaf_node self.now) result }
    {
        match kind {
            WasmTypeKind::S8 => self.or_error_here(alloc, V::make_s8(alloc, self.as_number()?)),
            WasmTypeKind::S16 => self.or_error_here(alloc, V::make_s16(alloc, self.as_number()?)),
            WasmTypeKind::S32 => self.or_error_here(alloc, V::make_s32(alloc, self.as_number()?)),
            WasmTypeKind::S64 => self.or_error_here(alloc, V::make_s64(alloc, self.as_number()?)),
            WasmTypeKind::U8 => self.or_error_here(alloc, V::make_u8(alloc, self.as_number()?)),
            WasmTypeKind::U16 => self.or_error_here(alloc, V::make_u16(alloc, self.as_number()?)),
            WasmTypeKind::U32 => self.or_error_here(alloc, V::make_u32(alloc, self.as_number()?)),
            WasmTypeKind::U64 => self.or_error_here(alloc, V::make_u64(alloc, self.as_number()?)),
            _ => Err(self.unsupported(alloc, kind)),
        }
    }

    /// A bool.
    pub fn read_bool<V: WasmValue>(&self, alloc: Global) -> Result<V, ReadError>
        ensures { IsReadOfLeaf V.tree V.is_of V.is_full (type.simple type.bool) self.now result }
    {
        let val = self.as_bool()?;
        self.or_error_here(alloc, V::make_bool(alloc, val))
    }

    /// A char.
    pub fn read_char<V: WasmValue>(&self, alloc: Global) -> Result<V, ReadError>
        ensures { IsReadOfLeaf V.tree V.is_of V.is_full (type.simple type.char) self.now result }
    {
        let val = self.as_char()?;
        self.or_error_here(alloc, V::make_char(alloc, val))
    }

    /// The bool, at one of the two types of bools; else `InvalidType`.
    pub fn as_bool(&self) -> Result<bool, ReadError>
        ensures { GivesBool (leaf_node self.now) result }
    {
        match self.ty {
            NodeType::BoolTrue => Ok(true),
            NodeType::BoolFalse => Ok(false),
            _ => Err(self.error(ParserErrorKind::InvalidType)),
        }
    }

    /// The number, at a number; else `InvalidType`. A number that is none of the type is
    /// `InvalidValue`.
    pub fn as_number<T: WholeNumber>(&self) -> Result<T, ReadError>
        ensures { (source : List ℕ) → IsLeafIn source self.now → GivesNumber T.kind T.number source (leaf_node self.now) result }
    {
        if self.ty != NodeType::Number {
            return Err(self.error(ParserErrorKind::InvalidType));
        }
        match T::from_text(self.text) {
            Some(number) => Ok(number),
            None => Err(self.error(ParserErrorKind::InvalidValue)),
        }
    }

    /// The char, at a char; else `InvalidType`. An escape of no scalar value is `InvalidEscape`.
    pub fn as_char(&self) -> Result<char, ReadError>
        ensures gives { (source : List ℕ) → IsLeafIn source self.now → GivesChar source (leaf_node self.now) result }
        ensures ty { IfOk result (λ c. self.now.ty ≡ NodeType.Char) }
    {
        if self.ty != NodeType::Char {
            return Err(self.error(ParserErrorKind::InvalidType));
        }
        let inside = match self.inside("'") {
            Some(inside) => inside,
            None => return Err(self.error(ParserErrorKind::InvalidEscape)),
        };
        match char_in(inside) {
            Some(c) => Ok(c),
            None => Err(self.error(ParserErrorKind::InvalidEscape)),
        }
    }

    /// The text between these quotes, where they stand at both ends.
    pub fn inside(&self, quotes: &str) -> Option<&'src str>
        ensures { MatchOption result ((inside : List ℕ) → self.now.text.now ≢ quotes.now ++ (inside ++ quotes.now))
            (λ inside. self.now.text.now ≡ quotes.now ++ (inside.now ++ quotes.now)) }
    {
        let behind = self.text.strip_prefix(quotes)?;
        behind.strip_suffix(quotes)
    }

    /// The value that was made, or its constructor's refusal as an error at the leaf.
    #[inline(always)]
    pub fn or_error_here<V>(
        &self,
        alloc: Global,
        built: Result<V, WasmValueError>,
    ) -> Result<V, ReadError>
        ensures { IsBuiltOrMemory (leaf_node self.now) built result }
    {
        match built {
            Ok(val) => Ok(val),
            Err(cause) => Err(self.refused(alloc, cause)),
        }
    }

    /// A refusal of this kind at the leaf.
    pub fn error(&self, kind: ParserErrorKind) -> ReadError
        ensures { RefusedAs kind (leaf_node self.now) result }
    {
        ReadError::new(kind, self.span.start..self.span.end)
    }

    /// The refusal of a value's constructor at the leaf.
    pub fn refused(&self, alloc: Global, cause: WasmValueError) -> ReadError
        ensures refusal { IsRefusedBy cause result }
        ensures span { result.span ≡ place_of (leaf_node self.now) }
    {
        ReadError::with_cause(alloc, self.span.start..self.span.end, cause)
    }

    /// A refusal because values of this kind can't be read.
    pub fn unsupported(&self, alloc: Global, kind: WasmTypeKind) -> ReadError
        ensures cause { IsCaused (unsupported_type (kind_word kind)) (leaf_node self.now) result }
        ensures span { result.span ≡ place_of (leaf_node self.now) }
    {
        ReadError::unsupported(alloc, self.span.start..self.span.end, kind)
    }
}
