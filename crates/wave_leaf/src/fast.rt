//! Bools, whole numbers, chars, and strings without escapes that are read and made at once.
ghost use Rattle.std.specs.Prelude.{ℕ, List, ◌≡◌, Ok, IfSome};
ghost use Rattle.wave_wasm.specs.Types.{kind_of};
ghost use Rattle.wave_grammar.specs.NodeAccessors.{GivesBool, GivesNumber, GivesChar};
ghost use Rattle.wave_grammar.specs.NodeStrings.{StandsFor};
ghost use Rattle.wave_grammar.specs.FaultOrder.{Order};
ghost use Rattle.wave_leaf.specs.Leaves.{leaf_node, IsLeafIn};
ghost use Rattle.wave_leaf.specs.Reading.{IsReadAs};

use crate::leaf::LeafToken;
use std::alloc::Global;
use wave_grammar::form::NodeType;
use wave_grammar::number::WholeNumber;
use wave_grammar::text::char_in;
use wave_wasm::wasm::{WasmType, WasmTypeKind, WasmValue, WasmValueError};

impl<'src> LeafToken<'src> {
    /// The bool, whole number or char, or the string in one line without escapes, where a value of
    /// that type is expected, read and made. Nothing is said of why there is none.
    #[inline(always)]
    pub fn read_fast<V: WasmValue>(&self, alloc: Global, ty: &V::Type) -> Option<V>
        ensures { (o w : Order) (source : List ℕ) → IsLeafIn source self.now
            → IfSome result (λ val. IsReadAs V.tree V.is_of V.is_full o w (V.Type.tree ty.now) source (leaf_node self.now) (Ok val)) }
    {
        match ty.kind() {
            WasmTypeKind::S8 => if_built(V::make_s8(alloc, self.number()?)),
            WasmTypeKind::S16 => if_built(V::make_s16(alloc, self.number()?)),
            WasmTypeKind::S32 => if_built(V::make_s32(alloc, self.number()?)),
            WasmTypeKind::S64 => if_built(V::make_s64(alloc, self.number()?)),
            WasmTypeKind::U8 => if_built(V::make_u8(alloc, self.number()?)),
            WasmTypeKind::U16 => if_built(V::make_u16(alloc, self.number()?)),
            WasmTypeKind::U32 => if_built(V::make_u32(alloc, self.number()?)),
            WasmTypeKind::U64 => if_built(V::make_u64(alloc, self.number()?)),
            WasmTypeKind::Bool => if_built(V::make_bool(alloc, self.boolean()?)),
            WasmTypeKind::Char => if_built(V::make_char(alloc, self.scalar()?)),
            WasmTypeKind::String => self.read_run(alloc, ty),
            _ => None,
        }
    }

    /// The same where a string is expected. It stands apart since what it makes is zeroed where it begins, for
    /// which no other value need wait.
    #[inline(always)]
    fn read_run<V: WasmValue>(&self, alloc: Global, ty: &V::Type) -> Option<V>
        requires { kind_of (V.Type.tree ty.now) ≡ WasmTypeKind.String }
        ensures { (o w : Order) (source : List ℕ) → IsLeafIn source self.now
            → IfSome result (λ val. IsReadAs V.tree V.is_of V.is_full o w (V.Type.tree ty.now) source (leaf_node self.now) (Ok val)) }
    {
        if_built(V::make_string(alloc, self.run()?))
    }

    /// The number, at a number of the type.
    #[inline(always)]
    fn number<T: WholeNumber>(&self) -> Option<T>
        ensures { (source : List ℕ) → IsLeafIn source self.now → IfSome result (λ number. GivesNumber T.kind T.number source (leaf_node self.now) (Ok number)) }
    {
        if self.ty != NodeType::Number {
            return None;
        }
        T::from_text(self.text)
    }

    /// The bool, at one of the two types of bools.
    #[inline(always)]
    fn boolean(&self) -> Option<bool>
        ensures { IfSome result (λ val. GivesBool (leaf_node self.now) (Ok val)) }
    {
        match self.ty {
            NodeType::BoolTrue => Some(true),
            NodeType::BoolFalse => Some(false),
            _ => None,
        }
    }

    /// The scalar, at a char of one.
    fn scalar(&self) -> Option<char>
        ensures { (source : List ℕ) → IsLeafIn source self.now → IfSome result (λ c. GivesChar source (leaf_node self.now) (Ok c)) }
    {
        if self.ty != NodeType::Char {
            return None;
        }
        char_in(self.inside("'")?)
    }

    /// The text, at a string that has no backslash between its quotes: what stands there.
    pub fn run(&self) -> Option<&'src str>
        ensures { (source : List ℕ) → IsLeafIn source self.now → IfSome result (λ text. StandsFor source (leaf_node self.now) text.now) }
    {
        if self.ty != NodeType::String {
            return None;
        }
        let inside = self.inside("\"")?;
        if inside.as_bytes().contains(&b'\\') {
            return None;
        }
        Some(inside)
    }
}

/// The value that was made.
#[inline(always)]
fn if_built<V>(built: Result<V, WasmValueError>) -> Option<V>
    ensures { IfSome result (λ val. built ≡ Ok val) }
{
    match built {
        Ok(val) => Some(val),
        Err(_) => None,
    }
}
