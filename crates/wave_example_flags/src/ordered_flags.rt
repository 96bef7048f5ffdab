//! Values of flags in the order of the names that they are made of.
ghost use Rattle.std.specs.Prelude.{◌≡◌, ◌≢◌, IfOk, IfErr, IsErrAnd};
ghost use Rattle.wave_wasm.specs.Borrowed.{texts};
ghost use Rattle.wave_wasm.specs.Values.{flags, kind_of};
ghost use Rattle.wave_example_flags.specs.OrderedFlags.{RefusesKind};

use crate::name_set::NameSet;
use crate::names;
use std::alloc::{AllocError, Global};
use std::marker::Model;
use wave_wasm::wasm::{WasmTypeKind, WasmValue, WasmValueError};

/// Flags that keep the order in which their names are handed in. They are made of names of the
/// `NameSet`, none of them twice: any other name is refused as `UnknownCase`, a repeated one as
/// `Other`. Clauses see them as these names.
#[derive(Drop)]
pub struct OrderedFlags {
    names: Vec<String>,
}

impl Model for OrderedFlags {
    ghost use Rattle.std.specs.Prelude.{ℕ, List, map, string_bytes};

    ghost Value = { List (List ℕ) };

    ghost view = { λ value. map string_bytes value.names.items };
}

// The refusal of a type of this kind.
fn unsupported(alloc: Global, kind: WasmTypeKind) -> WasmValueError
    ensures { RefusesKind kind result }
{
    match format!(in alloc; "{kind}") {
        Ok(word) => WasmValueError::UnsupportedType(word),
        Err(error) => WasmValueError::from(error),
    }
}

// The constructors of other kinds refuse. The views of other kinds can't be asked: each says that flags are
// not of its kind, which is all that the trait's clause needs, and what it answers nobody reads.
impl WasmValue for OrderedFlags {
    ghost use Rattle.wave_wasm.specs.Types as type;
    ghost use Rattle.wave_wasm.specs.ConstructorContracts.{MakesFlags, FullFlags};
    ghost use Rattle.wave_example_flags.specs.OrderedFlags.{AreFlagsOf, IsFull, full_parts, TakesNames, RefusesNames};

    type Type = NameSet;

    ghost tree = { flags };

    ghost is_of = { AreFlagsOf };

    ghost is_full = { IsFull };

    ghost of_fits = { λ names T fits. fits };

    ghost full_parts = { full_parts };

    fn kind(&self) -> WasmTypeKind {
        WasmTypeKind::Flags
    }

    fn make_bool(alloc: Global, _val: bool) -> Result<OrderedFlags, WasmValueError>
        ensures { IsErrAnd result (RefusesKind WasmTypeKind.Bool) }
    {
        Err(unsupported(alloc, WasmTypeKind::Bool))
    }

    fn make_s8(alloc: Global, _val: i8) -> Result<OrderedFlags, WasmValueError>
        ensures { IsErrAnd result (RefusesKind WasmTypeKind.S8) }
    {
        Err(unsupported(alloc, WasmTypeKind::S8))
    }

    fn make_s16(alloc: Global, _val: i16) -> Result<OrderedFlags, WasmValueError>
        ensures { IsErrAnd result (RefusesKind WasmTypeKind.S16) }
    {
        Err(unsupported(alloc, WasmTypeKind::S16))
    }

    fn make_s32(alloc: Global, _val: i32) -> Result<OrderedFlags, WasmValueError>
        ensures { IsErrAnd result (RefusesKind WasmTypeKind.S32) }
    {
        Err(unsupported(alloc, WasmTypeKind::S32))
    }

    fn make_s64(alloc: Global, _val: i64) -> Result<OrderedFlags, WasmValueError>
        ensures { IsErrAnd result (RefusesKind WasmTypeKind.S64) }
    {
        Err(unsupported(alloc, WasmTypeKind::S64))
    }

    fn make_u8(alloc: Global, _val: u8) -> Result<OrderedFlags, WasmValueError>
        ensures { IsErrAnd result (RefusesKind WasmTypeKind.U8) }
    {
        Err(unsupported(alloc, WasmTypeKind::U8))
    }

    fn make_u16(alloc: Global, _val: u16) -> Result<OrderedFlags, WasmValueError>
        ensures { IsErrAnd result (RefusesKind WasmTypeKind.U16) }
    {
        Err(unsupported(alloc, WasmTypeKind::U16))
    }

    fn make_u32(alloc: Global, _val: u32) -> Result<OrderedFlags, WasmValueError>
        ensures { IsErrAnd result (RefusesKind WasmTypeKind.U32) }
    {
        Err(unsupported(alloc, WasmTypeKind::U32))
    }

    fn make_u64(alloc: Global, _val: u64) -> Result<OrderedFlags, WasmValueError>
        ensures { IsErrAnd result (RefusesKind WasmTypeKind.U64) }
    {
        Err(unsupported(alloc, WasmTypeKind::U64))
    }

    fn make_char(alloc: Global, _val: char) -> Result<OrderedFlags, WasmValueError>
        ensures { IsErrAnd result (RefusesKind WasmTypeKind.Char) }
    {
        Err(unsupported(alloc, WasmTypeKind::Char))
    }

    fn make_string(alloc: Global, _val: &str) -> Result<OrderedFlags, WasmValueError>
        ensures { IsErrAnd result (RefusesKind WasmTypeKind.String) }
    {
        Err(unsupported(alloc, WasmTypeKind::String))
    }

    fn make_list(
        alloc: Global,
        _ty: &NameSet,
        _vals: Vec<OrderedFlags>,
    ) -> Result<OrderedFlags, WasmValueError>
        ensures { IsErrAnd result (RefusesKind WasmTypeKind.List) }
    {
        Err(unsupported(alloc, WasmTypeKind::List))
    }

    fn make_tuple(
        alloc: Global,
        _ty: &NameSet,
        _vals: Vec<OrderedFlags>,
    ) -> Result<OrderedFlags, WasmValueError>
        ensures { IsErrAnd result (RefusesKind WasmTypeKind.Tuple) }
    {
        Err(unsupported(alloc, WasmTypeKind::Tuple))
    }

    fn make_record(
        alloc: Global,
        _ty: &NameSet,
        _fields: Vec<(&str, OrderedFlags)>,
    ) -> Result<OrderedFlags, WasmValueError>
        ensures { IsErrAnd result (RefusesKind WasmTypeKind.Record) }
    {
        Err(unsupported(alloc, WasmTypeKind::Record))
    }

    fn make_variant(
        alloc: Global,
        _ty: &NameSet,
        _case: &str,
        _val: Option<OrderedFlags>,
    ) -> Result<OrderedFlags, WasmValueError>
        ensures { IsErrAnd result (RefusesKind WasmTypeKind.Variant) }
    {
        Err(unsupported(alloc, WasmTypeKind::Variant))
    }

    fn make_enum(alloc: Global, _ty: &NameSet, _case: &str) -> Result<OrderedFlags, WasmValueError>
        ensures { IsErrAnd result (RefusesKind WasmTypeKind.Enum) }
    {
        Err(unsupported(alloc, WasmTypeKind::Enum))
    }

    fn make_option(
        alloc: Global,
        _ty: &NameSet,
        _val: Option<OrderedFlags>,
    ) -> Result<OrderedFlags, WasmValueError>
        ensures { IsErrAnd result (RefusesKind WasmTypeKind.Option) }
    {
        Err(unsupported(alloc, WasmTypeKind::Option))
    }

    fn make_result(
        alloc: Global,
        _ty: &NameSet,
        _val: Result<Option<OrderedFlags>, Option<OrderedFlags>>,
    ) -> Result<OrderedFlags, WasmValueError>
        ensures { IsErrAnd result (RefusesKind WasmTypeKind.Result) }
    {
        Err(unsupported(alloc, WasmTypeKind::Result))
    }

    fn make_flags(
        alloc: Global,
        ty: &NameSet,
        names: &[&str],
    ) -> Result<OrderedFlags, WasmValueError>
        ensures built { IfOk result (MakesFlags flags AreFlagsOf (type.flags ty.now) names.now) }
        ensures full { IfErr result (FullFlags AreFlagsOf IsFull (type.flags ty.now) names.now) }
        ensures kept { IfOk result (λ value. value ≡ texts names.now) }
        ensures taken { IfOk result (TakesNames ty.now) }
        ensures refused { IfErr result (RefusesNames ty.now (texts names.now)) }
    {
        let mut kept = Vec::new(alloc);
        for name in names {
            if !ty.contains(*name) {
                return Err(WasmValueError::UnknownCase(String::from_str(alloc, *name)?));
            }
            if names::contain(&kept, *name) {
                let words = String::from_str(alloc, "a name stands twice")?;
                return Err(WasmValueError::Other(words));
            }
            kept.push(String::from_str(alloc, *name)?)?;
        }
        Ok(OrderedFlags { names: kept })
    }

    fn make_map(
        alloc: Global,
        _ty: &NameSet,
        _entries: Vec<(OrderedFlags, OrderedFlags)>,
    ) -> Result<OrderedFlags, WasmValueError>
        ensures { IsErrAnd result (RefusesKind WasmTypeKind.Map) }
    {
        Err(unsupported(alloc, WasmTypeKind::Map))
    }

    fn unwrap_bool(&self) -> bool
        ensures { kind_of (flags self.now) ≢ WasmTypeKind.Bool }
    {
        false
    }

    fn unwrap_s8(&self) -> i8
        ensures { kind_of (flags self.now) ≢ WasmTypeKind.S8 }
    {
        0
    }

    fn unwrap_s16(&self) -> i16
        ensures { kind_of (flags self.now) ≢ WasmTypeKind.S16 }
    {
        0
    }

    fn unwrap_s32(&self) -> i32
        ensures { kind_of (flags self.now) ≢ WasmTypeKind.S32 }
    {
        0
    }

    fn unwrap_s64(&self) -> i64
        ensures { kind_of (flags self.now) ≢ WasmTypeKind.S64 }
    {
        0
    }

    fn unwrap_u8(&self) -> u8
        ensures { kind_of (flags self.now) ≢ WasmTypeKind.U8 }
    {
        0
    }

    fn unwrap_u16(&self) -> u16
        ensures { kind_of (flags self.now) ≢ WasmTypeKind.U16 }
    {
        0
    }

    fn unwrap_u32(&self) -> u32
        ensures { kind_of (flags self.now) ≢ WasmTypeKind.U32 }
    {
        0
    }

    fn unwrap_u64(&self) -> u64
        ensures { kind_of (flags self.now) ≢ WasmTypeKind.U64 }
    {
        0
    }

    fn unwrap_char(&self) -> char
        ensures { kind_of (flags self.now) ≢ WasmTypeKind.Char }
    {
        ' '
    }

    fn unwrap_string(&self) -> &str
        ensures { kind_of (flags self.now) ≢ WasmTypeKind.String }
    {
        ""
    }

    fn unwrap_list(&self, alloc: Global) -> Result<Vec<&OrderedFlags>, AllocError>
        ensures { kind_of (flags self.now) ≢ WasmTypeKind.List }
    {
        Ok(Vec::new(alloc))
    }

    fn unwrap_tuple(&self, alloc: Global) -> Result<Vec<&OrderedFlags>, AllocError>
        ensures { kind_of (flags self.now) ≢ WasmTypeKind.Tuple }
    {
        Ok(Vec::new(alloc))
    }

    fn unwrap_record(&self, alloc: Global) -> Result<Vec<(&str, &OrderedFlags)>, AllocError>
        ensures { kind_of (flags self.now) ≢ WasmTypeKind.Record }
    {
        Ok(Vec::new(alloc))
    }

    fn unwrap_variant(&self) -> (&str, Option<&OrderedFlags>)
        ensures { kind_of (flags self.now) ≢ WasmTypeKind.Variant }
    {
        ("", None)
    }

    fn unwrap_enum(&self) -> &str
        ensures { kind_of (flags self.now) ≢ WasmTypeKind.Enum }
    {
        ""
    }

    fn unwrap_option(&self) -> Option<&OrderedFlags>
        ensures { kind_of (flags self.now) ≢ WasmTypeKind.Option }
    {
        None
    }

    fn unwrap_result(&self) -> Result<Option<&OrderedFlags>, Option<&OrderedFlags>>
        ensures { kind_of (flags self.now) ≢ WasmTypeKind.Result }
    {
        Ok(None)
    }

    fn unwrap_flags(&self, alloc: Global) -> Result<Vec<&str>, AllocError> {
        names::borrowed(alloc, &self.names)
    }

    fn unwrap_map(&self, alloc: Global) -> Result<Vec<(&OrderedFlags, &OrderedFlags)>, AllocError>
        ensures { kind_of (flags self.now) ≢ WasmTypeKind.Map }
    {
        Ok(Vec::new(alloc))
    }
}
