//! A foreign type of values, proved lawful: lists of lists.
ghost use Rattle.std.specs.Prelude.{◌≡◌, ◌≢◌, IfOk, IsTrue, map};
ghost use Rattle.wave_wasm.specs.Lists.{AllOf};
ghost use Rattle.wave_wasm.specs.Values.{kind_of};
ghost use Rattle.wave_wasm.specs.HasType.{HasType};
ghost use Rattle.wave_wasm.specs.Borrowed.{denoted_all};
ghost use Rattle.wave_example_settings.specs.BareTree.{tree};
ghost use Rattle.wave_example_settings.specs.Refusals.{AreElements, MakesNone};

use std::alloc::{AllocError, Global};
use wave_type::ty::Type;
use wave_wasm::wasm::{WasmType, WasmTypeKind, WasmValue, WasmValueError};

/// A list, or a leaf that has no text.
#[derive(Debug, Drop)]
pub enum Bare {
    /// A list of these items.
    List(Vec<Bare>),
    /// A fixed-length list of these items.
    Fixed(Vec<Bare>),
    /// A value of a kind that has no text. No constructor makes one.
    Unsupported,
}

// The constructors of other kinds refuse. The views of other kinds can't be asked: each says that no value
// is of its kind, which is all that the trait's clause needs, and what it answers nobody reads.
impl WasmValue for Bare {
    ghost use Rattle.std.specs.Prelude.{ℕ, ◌≡◌, IfOk, IfErr, Some, length};
    ghost use Rattle.wave_wasm.specs.Types.{list_length};
    ghost use Rattle.wave_wasm.specs.HasType.{HasType};
    ghost use Rattle.wave_wasm.specs.ConstructorContracts.{MakesList, FullList};
    ghost use Rattle.wave_example_settings.specs.BareTree.{tree as tree_of};
    ghost use Rattle.wave_example_settings.specs.Refusals.{MakesNone, RefusesList};

    type Type = Type;

    ghost tree = { tree_of };

    // A value is of each type that its tree is a value of.
    ghost is_of = { λ v T. HasType T (tree_of v) };

    // At no type do the constructors make each value.
    ghost is_full = { λ T. ⊥ };

    ghost of_fits = { λ v T h. h };

    ghost full_parts = { λ T h. absurd h };

    fn kind(&self) -> WasmTypeKind {
        match self {
            Bare::List(_) => WasmTypeKind::List,
            Bare::Fixed(_) => WasmTypeKind::FixedLengthList,
            Bare::Unsupported => WasmTypeKind::Unsupported,
        }
    }

    fn make_bool(alloc: Global, _val: bool) -> Result<Bare, WasmValueError>
        ensures { MakesNone WasmTypeKind.Bool result }
    {
        unsupported(alloc, WasmTypeKind::Bool)
    }

    fn make_s8(alloc: Global, _val: i8) -> Result<Bare, WasmValueError>
        ensures { MakesNone WasmTypeKind.S8 result }
    {
        unsupported(alloc, WasmTypeKind::S8)
    }

    fn make_s16(alloc: Global, _val: i16) -> Result<Bare, WasmValueError>
        ensures { MakesNone WasmTypeKind.S16 result }
    {
        unsupported(alloc, WasmTypeKind::S16)
    }

    fn make_s32(alloc: Global, _val: i32) -> Result<Bare, WasmValueError>
        ensures { MakesNone WasmTypeKind.S32 result }
    {
        unsupported(alloc, WasmTypeKind::S32)
    }

    fn make_s64(alloc: Global, _val: i64) -> Result<Bare, WasmValueError>
        ensures { MakesNone WasmTypeKind.S64 result }
    {
        unsupported(alloc, WasmTypeKind::S64)
    }

    fn make_u8(alloc: Global, _val: u8) -> Result<Bare, WasmValueError>
        ensures { MakesNone WasmTypeKind.U8 result }
    {
        unsupported(alloc, WasmTypeKind::U8)
    }

    fn make_u16(alloc: Global, _val: u16) -> Result<Bare, WasmValueError>
        ensures { MakesNone WasmTypeKind.U16 result }
    {
        unsupported(alloc, WasmTypeKind::U16)
    }

    fn make_u32(alloc: Global, _val: u32) -> Result<Bare, WasmValueError>
        ensures { MakesNone WasmTypeKind.U32 result }
    {
        unsupported(alloc, WasmTypeKind::U32)
    }

    fn make_u64(alloc: Global, _val: u64) -> Result<Bare, WasmValueError>
        ensures { MakesNone WasmTypeKind.U64 result }
    {
        unsupported(alloc, WasmTypeKind::U64)
    }

    fn make_char(alloc: Global, _val: char) -> Result<Bare, WasmValueError>
        ensures { MakesNone WasmTypeKind.Char result }
    {
        unsupported(alloc, WasmTypeKind::Char)
    }

    fn make_string(alloc: Global, _val: &str) -> Result<Bare, WasmValueError>
        ensures { MakesNone WasmTypeKind.String result }
    {
        unsupported(alloc, WasmTypeKind::String)
    }

    fn make_list(alloc: Global, ty: &Type, vals: Vec<Bare>) -> Result<Bare, WasmValueError>
        ensures built { IfOk result (MakesList tree_of (λ v T. HasType T (tree_of v)) ty.now vals.items) }
        ensures full { IfErr result (FullList (λ v T. HasType T (tree_of v)) (λ T. ⊥) ty.now vals.items) }
        ensures refused { IfErr result (RefusesList ty.now (length vals.items)) }
        ensures counted { IfOk result (λ list. (want : ℕ) → list_length ty.now ≡ Some want → length vals.items ≡ want) }
    {
        if !are_elements(&vals, ty) {
            return unsupported(alloc, WasmTypeKind::List);
        }
        let Some(want) = ty.list_length() else {
            return Ok(Bare::List(vals));
        };
        let got = vals.len();
        if got != want as usize {
            return Err(WasmValueError::WrongNumberOfElements { want, got });
        }
        Ok(Bare::Fixed(vals))
    }

    fn make_tuple(alloc: Global, _ty: &Type, _vals: Vec<Bare>) -> Result<Bare, WasmValueError>
        ensures { MakesNone WasmTypeKind.Tuple result }
    {
        unsupported(alloc, WasmTypeKind::Tuple)
    }

    fn make_record(
        alloc: Global,
        _ty: &Type,
        _fields: Vec<(&str, Bare)>,
    ) -> Result<Bare, WasmValueError>
        ensures { MakesNone WasmTypeKind.Record result }
    {
        unsupported(alloc, WasmTypeKind::Record)
    }

    fn make_variant(
        alloc: Global,
        _ty: &Type,
        _case: &str,
        _val: Option<Bare>,
    ) -> Result<Bare, WasmValueError>
        ensures { MakesNone WasmTypeKind.Variant result }
    {
        unsupported(alloc, WasmTypeKind::Variant)
    }

    fn make_enum(alloc: Global, _ty: &Type, _case: &str) -> Result<Bare, WasmValueError>
        ensures { MakesNone WasmTypeKind.Enum result }
    {
        unsupported(alloc, WasmTypeKind::Enum)
    }

    fn make_option(alloc: Global, _ty: &Type, _val: Option<Bare>) -> Result<Bare, WasmValueError>
        ensures { MakesNone WasmTypeKind.Option result }
    {
        unsupported(alloc, WasmTypeKind::Option)
    }

    fn make_result(
        alloc: Global,
        _ty: &Type,
        _val: Result<Option<Bare>, Option<Bare>>,
    ) -> Result<Bare, WasmValueError>
        ensures { MakesNone WasmTypeKind.Result result }
    {
        unsupported(alloc, WasmTypeKind::Result)
    }

    fn make_flags(alloc: Global, _ty: &Type, _names: &[&str]) -> Result<Bare, WasmValueError>
        ensures { MakesNone WasmTypeKind.Flags result }
    {
        unsupported(alloc, WasmTypeKind::Flags)
    }

    fn make_map(
        alloc: Global,
        _ty: &Type,
        _entries: Vec<(Bare, Bare)>,
    ) -> Result<Bare, WasmValueError>
        ensures { MakesNone WasmTypeKind.Map result }
    {
        unsupported(alloc, WasmTypeKind::Map)
    }

    fn unwrap_bool(&self) -> bool
        ensures { kind_of (tree self.now) ≢ WasmTypeKind.Bool }
    {
        false
    }

    fn unwrap_s8(&self) -> i8
        ensures { kind_of (tree self.now) ≢ WasmTypeKind.S8 }
    {
        0
    }

    fn unwrap_s16(&self) -> i16
        ensures { kind_of (tree self.now) ≢ WasmTypeKind.S16 }
    {
        0
    }

    fn unwrap_s32(&self) -> i32
        ensures { kind_of (tree self.now) ≢ WasmTypeKind.S32 }
    {
        0
    }

    fn unwrap_s64(&self) -> i64
        ensures { kind_of (tree self.now) ≢ WasmTypeKind.S64 }
    {
        0
    }

    fn unwrap_u8(&self) -> u8
        ensures { kind_of (tree self.now) ≢ WasmTypeKind.U8 }
    {
        0
    }

    fn unwrap_u16(&self) -> u16
        ensures { kind_of (tree self.now) ≢ WasmTypeKind.U16 }
    {
        0
    }

    fn unwrap_u32(&self) -> u32
        ensures { kind_of (tree self.now) ≢ WasmTypeKind.U32 }
    {
        0
    }

    fn unwrap_u64(&self) -> u64
        ensures { kind_of (tree self.now) ≢ WasmTypeKind.U64 }
    {
        0
    }

    fn unwrap_char(&self) -> char
        ensures { kind_of (tree self.now) ≢ WasmTypeKind.Char }
    {
        '\0'
    }

    fn unwrap_string(&self) -> &str
        ensures { kind_of (tree self.now) ≢ WasmTypeKind.String }
    {
        ""
    }

    fn unwrap_list(&self, alloc: Global) -> Result<Vec<&Bare>, AllocError> {
        match self {
            Bare::List(items) => borrowed(alloc, items),
            Bare::Fixed(items) => borrowed(alloc, items),
            Bare::Unsupported => Ok(Vec::new(alloc)),
        }
    }

    fn unwrap_tuple(&self, alloc: Global) -> Result<Vec<&Bare>, AllocError>
        ensures { kind_of (tree self.now) ≢ WasmTypeKind.Tuple }
    {
        Ok(Vec::new(alloc))
    }

    fn unwrap_record(&self, alloc: Global) -> Result<Vec<(&str, &Bare)>, AllocError>
        ensures { kind_of (tree self.now) ≢ WasmTypeKind.Record }
    {
        Ok(Vec::new(alloc))
    }

    fn unwrap_variant(&self) -> (&str, Option<&Bare>)
        ensures { kind_of (tree self.now) ≢ WasmTypeKind.Variant }
    {
        ("", None)
    }

    fn unwrap_enum(&self) -> &str
        ensures { kind_of (tree self.now) ≢ WasmTypeKind.Enum }
    {
        ""
    }

    fn unwrap_option(&self) -> Option<&Bare>
        ensures { kind_of (tree self.now) ≢ WasmTypeKind.Option }
    {
        None
    }

    fn unwrap_result(&self) -> Result<Option<&Bare>, Option<&Bare>>
        ensures { kind_of (tree self.now) ≢ WasmTypeKind.Result }
    {
        Ok(None)
    }

    fn unwrap_flags(&self, alloc: Global) -> Result<Vec<&str>, AllocError>
        ensures { kind_of (tree self.now) ≢ WasmTypeKind.Flags }
    {
        Ok(Vec::new(alloc))
    }

    fn unwrap_map(&self, alloc: Global) -> Result<Vec<(&Bare, &Bare)>, AllocError>
        ensures { kind_of (tree self.now) ≢ WasmTypeKind.Map }
    {
        Ok(Vec::new(alloc))
    }
}

// Whether the value is a list or fixed-length list at the type, of items that are so at its element
// type.
#[cycle(at)]
fn is_at(value: &Bare, ty: &Type) -> bool
    ensures { IsTrue result → HasType ty.now (tree value.now) }
{
    match (value, ty.list_length()) {
        (Bare::List(items), None) => are_elements(items, ty),
        (Bare::Fixed(items), Some(count)) => {
            items.len() == count as usize && are_elements(items, ty)
        }
        _ => false,
    }
}

// Whether the type has an element type, and each of the items is at it.
#[cycle(at)]
fn are_elements(items: &Vec<Bare>, ty: &Type) -> bool
    ensures { IsTrue result → AreElements ty.now (map tree items.now.items) }
{
    match ty.list_element_type() {
        Some(element) => are_at(items, element),
        None => false,
    }
}

// Whether each of the items is so at the type.
#[cycle(at)]
fn are_at(items: &Vec<Bare>, ty: &Type) -> bool
    ensures { IsTrue result → AllOf (λ item. HasType ty.now (tree item)) items.now.items }
{
    for item in items {
        if !is_at(item, ty) {
            return false;
        }
    }
    true
}

// The items, in their order.
fn borrowed(alloc: Global, items: &Vec<Bare>) -> Result<Vec<&Bare>, AllocError>
    ensures { IfOk result (λ v. denoted_all tree v.items ≡ map tree items.now.items) }
{
    let mut answer = Vec::new(alloc);
    for item in items {
        answer.push(item)?;
    }
    Ok(answer)
}

// The refusal of a kind, by its word; `Memory` where there is none for that word.
fn unsupported(alloc: Global, kind: WasmTypeKind) -> Result<Bare, WasmValueError>
    ensures { MakesNone kind result }
{
    Err(WasmValueError::UnsupportedType(format!(in alloc; "{kind}")?))
}
