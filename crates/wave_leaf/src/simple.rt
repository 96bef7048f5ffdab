//! Values of simple types, and of types that have none.
ghost use Rattle.std.specs.Prelude.{None, IfErr};
ghost use Rattle.wave_lex.specs.Errors.{Says};
ghost use Rattle.wave_lex.specs.declared.error.ParserErrorKind.TheVariants.{InvalidType};
ghost use Rattle.wave_leaf.specs.Leaves.{IsSimpleOrUnreadable};
ghost use Rattle.wave_leaf.specs.PlainReading.{IsPlain};
ghost use Rattle.wave_leaf.specs.Reading.{IsReadOfLeaf, IsReadOfForm};

use crate::error::ReadError;
use crate::leaf::LeafToken;
use std::alloc::Global;
use wave_grammar::form::NodeType;
use wave_lex::error::ParserErrorKind;
use wave_lex::lex::Span;
use wave_wasm::wasm::{WasmType, WasmTypeKind, WasmValue};

impl<'src> LeafToken<'src> {
    /// A bool, a whole number, a char or a string. A type that has no values is refused.
    #[inline(always)]
    pub fn read_simple<V: WasmValue>(&self, alloc: Global, ty: &V::Type) -> Result<V, ReadError>
        ensures { IsSimpleOrUnreadable (V.Type.tree ty.now) → IsReadOfLeaf V.tree V.is_of V.is_full (V.Type.tree ty.now) self.now result }
    {
        let kind = ty.kind();
        match kind {
            WasmTypeKind::Bool => self.read_bool(alloc),
            WasmTypeKind::Char => self.read_char(alloc),
            WasmTypeKind::String => self.read_string(alloc),
            _ => self.read_whole(alloc, kind),
        }
    }
}

/// The refusal of parts or flags that stand here: `InvalidType` at a simple type, and that of the type
/// where it has no values.
#[cold]
#[inline(never)]
pub fn refuse_form<V: WasmValue>(alloc: Global, ty: &V::Type, span: Span) -> Result<V, ReadError>
    ensures read { IsReadOfForm V.tree V.is_of V.is_full (V.Type.tree ty.now) span result }
    ensures plain { IsPlain (V.Type.tree ty.now) → IfErr result (λ e. Says e InvalidType span None) }
{
    let kind = ty.kind();
    match kind {
        WasmTypeKind::F32 | WasmTypeKind::F64 | WasmTypeKind::Unsupported => {
            Err(ReadError::unsupported(alloc, span, kind))
        }
        _ => Err(ReadError::new(ParserErrorKind::InvalidType, span)),
    }
}
