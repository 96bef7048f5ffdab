//! What a function answers about itself.
use crate::wasm::WasmType;
use std::alloc::{AllocError, Global};

/// What a function answers about itself: the types of its parameters and results, and their names.
/// There are as many names as types, or none.
pub trait WasmFunc {
    /// The type of parameters and results.
    type Type: WasmType;

    ghost use Rattle.std.specs.Prelude.{◌≡◌, IfOk};
    ghost use Rattle.wave_wasm.specs.Borrowed.{texts, denoted_all};
    ghost use Rattle.wave_wasm.specs.TypeText.{Func, AreNamesOf};

    /// The function: its types and its names.
    ghost func: { Self → Func };

    /// The types of the parameters.
    fn params(&self, alloc: Global) -> Result<Vec<&Self::Type>, AllocError>
        ensures { IfOk result (λ v. denoted_all Self.Type.tree v.items ≡ (func self.now).params) };

    /// The names of the parameters, or none where they have none.
    fn param_names(&self, alloc: Global) -> Result<Vec<&str>, AllocError>
        ensures names { IfOk result (λ v. texts v.items ≡ (func self.now).param_names) }
        ensures counted { IfOk result (λ v. AreNamesOf (func self.now).params (texts v.items)) };

    /// The types of the results.
    fn results(&self, alloc: Global) -> Result<Vec<&Self::Type>, AllocError>
        ensures { IfOk result (λ v. denoted_all Self.Type.tree v.items ≡ (func self.now).results) };

    /// The names of the results, or none where they have none.
    fn result_names(&self, alloc: Global) -> Result<Vec<&str>, AllocError>
        ensures names { IfOk result (λ v. texts v.items ≡ (func self.now).result_names) }
        ensures counted { IfOk result (λ v. AreNamesOf (func self.now).results (texts v.items)) };
}
