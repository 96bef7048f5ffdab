//! What the type of a function answers about itself.
ghost use Rattle.std.specs.Prelude.{◌≡◌, IfOk, map};
ghost use Rattle.wave_wasm.specs.Borrowed.{denoted_all};
ghost use Rattle.wave_type.specs.TypeModel.{by_bytes};
ghost use Rattle.wave_type.specs.FunctionType.{types_of};

use super::{FuncType, is_one_unnamed};
use crate::ty::Type;
use crate::ty::index::borrowed_names;
use std::alloc::{AllocError, Global};
use wave_wasm::wasm::WasmFunc;

#[tactic(auto, using(crate::proofs::TypeTexts::FunctionParts::kept))]
impl WasmFunc for FuncType {
    ghost use Rattle.wave_type.specs.FunctionType.{func_of};

    type Type = Type;

    ghost func = { func_of };

    fn params(&self, alloc: Global) -> Result<Vec<&Type>, AllocError> {
        borrowed_types(alloc, &self.params)
    }

    fn param_names(&self, alloc: Global) -> Result<Vec<&str>, AllocError> {
        borrowed_names(alloc, &self.params)
    }

    fn results(&self, alloc: Global) -> Result<Vec<&Type>, AllocError> {
        borrowed_types(alloc, &self.results)
    }

    fn result_names(&self, alloc: Global) -> Result<Vec<&str>, AllocError> {
        if is_one_unnamed(&self.results) {
            return Ok(Vec::new(alloc));
        }
        borrowed_names(alloc, &self.results)
    }
}

// The types, in their order.
fn borrowed_types(alloc: Global, parts: &Vec<(String, Type)>) -> Result<Vec<&Type>, AllocError>
    ensures { IfOk result (λ v. denoted_all (λ t. t) v.items ≡ types_of (map by_bytes parts.now.items)) }
{
    let mut types = Vec::new(alloc);
    for part in parts {
        types.push(&part.1)?;
    }
    Ok(types)
}
