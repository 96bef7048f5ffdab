//! A type of flags.
ghost use Rattle.std.specs.Prelude.{◌≡◌, IfOk};
ghost use Rattle.wave_wasm.specs.Borrowed.{texts};
ghost use Rattle.wave_wasm.specs.Names.{is_one_of};
ghost use Rattle.wave_wasm.specs.Types.{flags};

use crate::names;
use std::alloc::{AllocError, Global};
use std::marker::Model;
use wave_wasm::wasm::{WasmType, WasmTypeKind};

/// The type of flags of some names, or of none. Clauses see it as these names, in their order.
#[derive(Drop)]
pub struct NameSet {
    names: Vec<String>,
}

impl Model for NameSet {
    ghost use Rattle.std.specs.Prelude.{ℕ, List, map, string_bytes};

    ghost Value = { List (List ℕ) };

    ghost view = { λ set. map string_bytes set.names.items };
}

impl NameSet {
    /// The type of flags of these names, whatever they are. The only error is out of memory.
    pub fn new(alloc: Global, names: &[&str]) -> Result<NameSet, AllocError>
        ensures { IfOk result (λ set. set ≡ texts names.now) }
    {
        Ok(NameSet {
            names: names::owned(alloc, names)?,
        })
    }

    /// Whether the name is one of the type's.
    #[tactic(auto, using(crate::proofs::Handed::tested_map))]
    pub fn contains(&self, name: &str) -> bool
        ensures { result ≡ is_one_of self.now name.now }
    {
        names::contain(&self.names, name)
    }
}

impl WasmType for NameSet {
    ghost tree = { flags };

    fn kind(&self) -> WasmTypeKind {
        WasmTypeKind::Flags
    }

    fn list_element_type(&self) -> Option<&NameSet> {
        None
    }

    fn list_length(&self) -> Option<u32> {
        None
    }

    fn record_fields(&self, alloc: Global) -> Result<Vec<(&str, &NameSet)>, AllocError> {
        Ok(Vec::new(alloc))
    }

    fn tuple_element_types(&self, alloc: Global) -> Result<Vec<&NameSet>, AllocError> {
        Ok(Vec::new(alloc))
    }

    fn variant_cases(&self, alloc: Global) -> Result<Vec<(&str, Option<&NameSet>)>, AllocError> {
        Ok(Vec::new(alloc))
    }

    fn enum_cases(&self, alloc: Global) -> Result<Vec<&str>, AllocError> {
        Ok(Vec::new(alloc))
    }

    fn option_some_type(&self) -> Option<&NameSet> {
        None
    }

    fn result_types(&self) -> Option<(Option<&NameSet>, Option<&NameSet>)> {
        None
    }

    fn flags_names(&self, alloc: Global) -> Result<Vec<&str>, AllocError> {
        names::borrowed(alloc, &self.names)
    }

    fn map_key_value_types(&self) -> Option<(&NameSet, &NameSet)> {
        None
    }
}
