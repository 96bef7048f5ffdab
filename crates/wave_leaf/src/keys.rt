//! Keys of maps, each of one token.
ghost use Rattle.std.specs.Prelude.{ℕ, List, ◌≡◌, IfOk};
ghost use Rattle.std.specs.String.{string_bytes};
ghost use Rattle.wave_wasm.specs.Types as type;
ghost use Rattle.wave_grammar.specs.NodeAccessors.{GivesBoolKey};
ghost use Rattle.wave_grammar.specs.TypeErrors.{key_expected};
ghost use Rattle.wave_leaf.specs.Private.Keys.{IsDetailed};
ghost use Rattle.wave_leaf.specs.Keys.{IsKeyReadOf, IsMapKeyReadOf, RefusesInKey};
ghost use Rattle.wave_leaf.specs.Leaves.{leaf_node, IsLeafIn};
ghost use Rattle.wave_leaf.specs.Reading.{IsOfType};

use crate::error::ReadError;
use crate::leaf::LeafToken;
use std::alloc::{AllocError, Global};
use std::borrow::CowStr;
use std::boxed::Box;
use wave_grammar::form::NodeType;
use wave_lex::error::ParserErrorKind;
use wave_wasm::wasm::{DisplayType, WasmType, WasmTypeKind, WasmValue};

impl<'src> LeafToken<'src> {
    /// A key of a map. Of a label that spells none the refusal says what it should be.
    pub fn read_key<V: WasmValue>(&self, alloc: Global, ty: &V::Type) -> Result<V, ReadError>
        ensures answer { IsMapKeyReadOf V.tree V.is_of V.is_full (V.Type.tree ty.now) self.now result }
        ensures within { RefusesInKey self.now result }
        ensures typed { (source : List ℕ) → IsLeafIn source self.now → IsOfType V.is_of (V.Type.tree ty.now) result }
    {
        match self.read_plain_key(alloc, ty) {
            Ok(key) => Ok(key),
            Err(error) => Err(self.with_key_detail(alloc, ty, error)),
        }
    }

    /// The refusal of a key; where a label is none of the type, with a detail that says which key is
    /// expected.
    fn with_key_detail<T: WasmType>(&self, alloc: Global, ty: &T, error: ReadError) -> ReadError
        ensures { IsDetailed (T.tree ty.now) self.now error result }
    {
        if self.ty != NodeType::Label || !error.is_wrong_form() {
            return error;
        }
        match key_words(alloc, ty) {
            Ok(words) => ReadError::with_words(ParserErrorKind::InvalidType, error.span(), words),
            Err(_) => self.error(ParserErrorKind::OutOfMemory),
        }
    }

    /// A key that is read by itself: the refusal of a label has no detail.
    pub fn read_plain_key<V: WasmValue>(&self, alloc: Global, ty: &V::Type) -> Result<V, ReadError>
        ensures answer { IsKeyReadOf V.tree V.is_of V.is_full (V.Type.tree ty.now) self.now result }
        ensures within { RefusesInKey self.now result }
        ensures typed { (source : List ℕ) → IsLeafIn source self.now → IsOfType V.is_of (V.Type.tree ty.now) result }
    {
        let kind = ty.kind();
        match kind {
            WasmTypeKind::Bool => self.or_error_here(
                alloc,
                V::make_bool(alloc, self.as_bool_key()?),
            ),
            WasmTypeKind::Char => self.or_error_here(alloc, V::make_char(alloc, self.as_char()?)),
            WasmTypeKind::String => self.read_string_key(alloc),
            _ => self.read_whole(alloc, kind),
        }
    }

    /// A key of a map that is a string.
    fn read_string_key<V: WasmValue>(&self, alloc: Global) -> Result<V, ReadError>
        ensures answer { IsKeyReadOf V.tree V.is_of V.is_full (type.simple type.string) self.now result }
        ensures within { RefusesInKey self.now result }
        ensures typed { IsOfType V.is_of (type.simple type.string) result }
    {
        if let Some(text) = self.run() {
            return self.built_string(alloc, CowStr::Borrowed(text));
        }
        match self.as_str(alloc) {
            Ok(text) => self.built_string(alloc, text),
            Err(error) => Err(ReadError::of_error(alloc, error)),
        }
    }

    /// The bool, at a key whose label is `true` or `false`; else `InvalidType`.
    fn as_bool_key(&self) -> Result<bool, ReadError>
        ensures { (source : List ℕ) → IsLeafIn source self.now → GivesBoolKey source (leaf_node self.now) result }
    {
        if self.ty != NodeType::Label {
            return Err(self.error(ParserErrorKind::InvalidType));
        }
        match self.text {
            "true" => Ok(true),
            "false" => Ok(false),
            _ => Err(self.error(ParserErrorKind::InvalidType)),
        }
    }
}

/// Which key is expected, where a label is none of the type.
fn key_words<T: WasmType>(alloc: Global, ty: &T) -> Result<Box<String>, AllocError>
    ensures { IfOk result (λ words. string_bytes words.value ≡ key_expected (T.tree ty.now)) }
{
    let words = format!(in alloc;
        "expected a {} key, found a label",
        DisplayType::new(alloc, ty)
    )?;
    Ok(Box::new(alloc, words)?)
}
