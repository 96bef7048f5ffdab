//! Maps, whose keys and values are read in turn.
ghost use Rattle.std.specs.Prelude.{ℕ, List, [], ◌≡◌, Ok, None, IfOk};
ghost use Rattle.wave_wasm.specs.Types.{kind_of};
ghost use Rattle.wave_grammar.specs.FaultOrder.{Order};
ghost use Rattle.wave_read.specs.MapParts.{AreEntries, value_type_expected};
ghost use Rattle.wave_read.specs.Private.PartSteps.{AddsKey, AddsPart, FinishesAs, WereRead};

use std::alloc::{AllocError, Global};
use wave_grammar::form::NodeType;
use wave_grammar::typed::merged;
use wave_leaf::error::ReadError;
use wave_leaf::fault::{Fault, or_error_at};
use wave_leaf::leaf::LeafToken;
use wave_lex::error::ParserErrorKind;
use wave_lex::lex::Span;
use wave_wasm::wasm::{WasmType, WasmTypeKind, WasmValue};

/// The entries of a map so far, and the key of the next one where it was read.
#[derive(Drop)]
pub struct Entries<'ty, T, V> {
    ty: &'ty T,
    key_type: &'ty T,
    pub(crate) value_type: &'ty T,
    entries: Vec<(V, V)>,
    pub(crate) key: Option<V>,
}

impl<'ty, V: WasmValue> Entries<'ty, V::Type, V> {
    /// No entries of a map of the type.
    pub(crate) fn new(alloc: Global, ty: &'ty V::Type) -> Self
        requires { kind_of (V.Type.tree ty.now) ≡ WasmTypeKind.Map }
        ensures { (w : Order) (source : List ℕ) → AreEntries V.Type.tree V.tree V.is_of V.is_full w (V.Type.tree ty.now) source [] result }
    {
        let (key_type, value_type) = ty.map_key_value_types().unwrap();
        Entries {
            ty,
            key_type,
            value_type,
            entries: Vec::new(alloc),
            key: None,
        }
    }

    /// Adds a key, which is of this type and text; or what is wrong with the map.
    pub(crate) fn push_key(
        &mut self,
        alloc: Global,
        ty: NodeType,
        span: Span,
        text: &str,
    ) -> Result<Option<Fault>, AllocError>
        ensures { IfOk result (AddsKey AreEntries V.Type.tree V.tree V.is_of V.is_full NodeType.TupleSet self.old ty span text.now self.new) }
    {
        let leaf = LeafToken { ty, span, text };
        match leaf.read_key::<V>(alloc, self.key_type) {
            Ok(key) => {
                drop(self.key.replace(key));
                Ok(None)
            }
            Err(error) => Ok(Some(Fault::Part(error))),
        }
    }

    /// Adds the value after the last key, which was read at the type that is expected.
    pub(crate) fn push_part(&mut self, val: V) -> Result<(), AllocError>
        ensures { IfOk result (λ _. AddsPart AreEntries V.Type.tree V.tree V.is_of V.is_full NodeType.TupleSet value_type_expected self.old (Ok val) self.new None) }
    {
        if let Some(key) = self.key.take() {
            self.entries.reserve(1)?;
            self.entries.push_reserved((key, val));
        }
        Ok(())
    }

    /// The map of the entries, each key once; it stands here. Keys and values were read at their types.
    pub(crate) fn finish(self, alloc: Global, span: Span) -> Result<V, ReadError>
        requires { WereRead AreEntries V.Type.tree V.tree V.is_of V.is_full self }
        ensures { FinishesAs AreEntries V.Type.tree V.tree V.is_of V.is_full NodeType.TupleSet self.entry span result }
    {
        let Entries { ty, entries, .. } = self;
        let mut entries = match merged(alloc, entries) {
            Ok(entries) => entries,
            Err(_) => return Err(ReadError::new(ParserErrorKind::OutOfMemory, span)),
        };
        or_error_at(alloc, span, V::make_map_unchecked(alloc, ty, &mut entries))
    }
}
