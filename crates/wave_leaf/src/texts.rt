//! Strings of one token.
ghost use Rattle.std.specs.Prelude.{ℕ, List, ◌≡◌, ◌⊎◌, ◌+◌, ◌<◌, ◌≤◌, ◌^◌, ◌↔◌, length, IsTrue, IfOk};
ghost use Rattle.std.specs.Cow.{cow_str_bytes};
ghost use Rattle.std.specs.Result.{IsErrAnd};
ghost use Rattle.wave_wasm.specs.Types as type;
ghost use Rattle.wave_wasm.specs.Values as value;
ghost use Rattle.wave_grammar.specs.StringAssembly.{IsOutOfMemoryAt};
ghost use Rattle.wave_grammar.specs.NodeAccessors.{GivesParts, RefusedAs};
ghost use Rattle.wave_grammar.specs.NodeStrings.{GivesString};
ghost use Rattle.wave_grammar.specs.TypedReading.{IsLeafBuilt};
ghost use Rattle.wave_leaf.specs.Leaves.{leaf_node, HasQuotes, IsLeafIn};
ghost use Rattle.wave_leaf.specs.Reading.{IsReadOfLeaf};

use crate::error::ReadError;
use crate::leaf::LeafToken;
use std::alloc::Global;
use std::borrow::CowStr;
use wave_grammar::form::NodeType;
use wave_grammar::text::joined;
use wave_lex::error::{ParserError, ParserErrorKind};
use wave_lex::strings::StringPartsIter;
use wave_wasm::wasm::WasmValue;

impl<'src> LeafToken<'src> {
    /// A string.
    pub fn read_string<V: WasmValue>(&self, alloc: Global) -> Result<V, ReadError>
        ensures { IsReadOfLeaf V.tree V.is_of V.is_full (type.simple type.string) self.now result }
    {
        match self.as_str(alloc) {
            Ok(text) => self.built_string(alloc, text),
            Err(error) => Err(ReadError::of_error(alloc, error)),
        }
    }

    /// The text, at a string and at a multiline string; else `InvalidType`. It is borrowed where
    /// it is empty or one run of the leaf's text; else it is a copy. A bad escape is
    /// `InvalidEscape` at its backslash; a multiline string that opens, closes or indents badly is
    /// `InvalidMultilineString`. Out of memory is refused at the leaf; so is a leaf after the end
    /// of any source that memory can hold.
    pub fn as_str(&self, alloc: Global) -> Result<CowStr<'src>, ParserError>
        ensures gives { (source : List ℕ) → IsLeafIn source self.now → HasQuotes self.now
            → GivesString source (leaf_node self.now) result
            ⊎ IsErrAnd result (IsOutOfMemoryAt self.now.span) × (2 ^ 64 ≤ self.now.span.start + length self.now.text.now + 3) }
        ensures ty { IfOk result (λ c. (self.now.ty ≡ NodeType.String) ⊎ (self.now.ty ≡ NodeType.MultilineString)) }
    {
        match self.ty {
            NodeType::String | NodeType::MultilineString => {}
            _ => return Err(self.parser_error(ParserErrorKind::InvalidType)),
        }
        if !self.fits() {
            return Err(self.parser_error(ParserErrorKind::OutOfMemory));
        }
        let parts = self.iter_str()?;
        joined(alloc, parts, &self.span)
    }

    /// The parts of the text, at a string and at a multiline string; else `InvalidType`. What
    /// `StringPartsIter::new_multiline` refuses of a multiline string is refused here, as
    /// `InvalidMultilineString`; any other fault comes as an item.
    pub fn iter_str(&self) -> Result<StringPartsIter<'src>, ParserError>
        requires { self.now.span.start + length self.now.text.now + 3 < 2 ^ 64 }
        ensures { (source : List ℕ) → IsLeafIn source self.now → HasQuotes self.now → GivesParts source (leaf_node self.now) result }
    {
        match self.ty {
            NodeType::String => match self.inside("\"") {
                Some(inside) => Ok(StringPartsIter::new(inside, self.span.start + 1)),
                None => Err(self.parser_error(ParserErrorKind::InvalidType)),
            },
            NodeType::MultilineString => match self.inside("\"\"\"") {
                Some(inside) => StringPartsIter::new_multiline(inside, self.span.start + 3),
                None => Err(self.parser_error(ParserErrorKind::InvalidType)),
            },
            _ => Err(self.parser_error(ParserErrorKind::InvalidType)),
        }
    }

    /// An error of this kind at the leaf, as the parts of strings answer one.
    fn parser_error(&self, kind: ParserErrorKind) -> ParserError
        ensures { RefusedAs kind (leaf_node self.now) result }
    {
        ParserError::new(kind, self.span.start..self.span.end)
    }

    /// Whether a place after the text, three bytes further, is still a number of bytes.
    fn fits(&self) -> bool
        ensures { IsTrue result ↔ (self.now.span.start + length self.now.text.now + 3 < 2 ^ 64) }
    {
        self.span.start.checked_add(self.text.len() + 3).is_some()
    }

    /// The string of this text, which is not copied before the constructor is called.
    pub fn built_string<V: WasmValue>(&self, alloc: Global, val: CowStr<'_>) -> Result<V, ReadError>
        ensures { IsLeafBuilt V.tree V.is_of V.is_full (value.string (cow_str_bytes val.entry)) (leaf_node self.now) result }
    {
        match val {
            CowStr::Borrowed(text) => self.or_error_here(alloc, V::make_string(alloc, text)),
            CowStr::Owned(text) => self.or_error_here(alloc, V::make_string(alloc, text.as_str())),
        }
    }
}
