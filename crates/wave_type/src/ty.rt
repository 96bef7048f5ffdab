//! A type of component values, which shares its parts.
ghost use Rattle.std.specs.Prelude.{◌≡◌, IfOk, Some, map, string_bytes, ◌↔◌, IsTrue, true, ◌≢◌, None};
ghost use Rattle.wave_wasm.specs.Types as type;
ghost use Rattle.wave_wasm.specs.Names.{AreDistinct};
ghost use Rattle.wave_wasm.specs.Types.{maybe_type, every_maybe, can_be_built, EachNamesOfMaybe};
ghost use Rattle.wave_wasm.specs.Borrowed.{texts, named};
ghost use Rattle.wave_type.specs.TypeConstructors.{simple_type, record_type, tuple_type, variant_type, enum_type, flags_type, map_type};

use self::index::{are_distinct, first_places};
use self::places::{has_distinct_names, is_representable};
use std::alloc::{AllocError, Global};
use std::collections::BTreeMap;
use std::marker::Model;
use std::rc::Rc;
use wave_wasm::wasm::WasmTypeKind;

mod conversion;
pub(crate) mod display;
mod equality;
pub(crate) mod index;
pub(crate) mod labels;
pub(crate) mod parse;
mod parts;
pub mod places;

#[derive(Clone, Copy, PartialEq, Eq, Debug)]
enum SimpleType {
    Bool,
    S8,
    S16,
    S32,
    S64,
    U8,
    U16,
    U32,
    U64,
    Char,
    String,
}

// Beside names stands where each of them stands first, and beside parts whether no name stands
// twice within the type, the parts' own types included.
#[cycle(types)]
#[derive(Debug, Drop)]
enum Shape {
    Simple(SimpleType),
    F32,
    F64,
    List(Rc<(Type, bool)>),
    FixedLengthList(Rc<(Type, u32, bool)>),
    Record(Rc<(Vec<(String, Type)>, BTreeMap<String, usize>, bool)>),
    Tuple(Rc<(Vec<Type>, bool)>),
    Variant(Rc<(Vec<(String, Option<Type>)>, BTreeMap<String, usize>, bool)>),
    Enum(Rc<(Vec<String>, BTreeMap<String, usize>)>),
    Option(Rc<(Type, bool)>),
    Result(Rc<(Option<Type>, Option<Type>, bool)>),
    Flags(Rc<(Vec<String>, BTreeMap<String, usize>)>),
    Map(Rc<(Type, Type, bool)>),
}

/// A type of component values. Its parts are shared by its clones.
#[cycle(types)]
#[derive(Debug)]
pub struct Type {
    shape: Shape,
}

// One function, so that whoever drops a type has one call for it.
impl Drop for Type {
    #[cycle(types)]
    fn drop(self) {
        let Type { shape: _ } = self;
    }
}

impl Model for Type {
    ghost use Rattle.wave_wasm.specs.Types.{TypeTree, depth};
    ghost use Rattle.wave_wasm.specs.TypeTreeEncoding.{tree_code};

    ghost Value = { TypeTree };

    ghost coded = { tree_code };

    ghost use Rattle.wave_type.specs.Private.TypeModel.{shape_tree, IsSoundShape};

    ghost view = { λ t. shape_tree t.shape };

    ghost invariant = { λ t. IsSoundShape t.shape };

    ghost size = { depth };

    ghost use Rattle.wave_type.specs.Private.TypeDepth.{deep_le-depth};

    ghost size_decreases = { λ a h. deep_le-depth a.shape h };
}

impl Type {
    /// `bool`.
    pub const BOOL: Type = Type {
        shape: Shape::Simple(SimpleType::Bool),
    };

    /// `s8`.
    pub const S8: Type = Type {
        shape: Shape::Simple(SimpleType::S8),
    };

    /// `s16`.
    pub const S16: Type = Type {
        shape: Shape::Simple(SimpleType::S16),
    };

    /// `s32`.
    pub const S32: Type = Type {
        shape: Shape::Simple(SimpleType::S32),
    };

    /// `s64`.
    pub const S64: Type = Type {
        shape: Shape::Simple(SimpleType::S64),
    };

    /// `u8`.
    pub const U8: Type = Type {
        shape: Shape::Simple(SimpleType::U8),
    };

    /// `u16`.
    pub const U16: Type = Type {
        shape: Shape::Simple(SimpleType::U16),
    };

    /// `u32`.
    pub const U32: Type = Type {
        shape: Shape::Simple(SimpleType::U32),
    };

    /// `u64`.
    pub const U64: Type = Type {
        shape: Shape::Simple(SimpleType::U64),
    };

    /// `f32`, which has no value here.
    pub const F32: Type = Type { shape: Shape::F32 };

    /// `f64`, which has no value here.
    pub const F64: Type = Type { shape: Shape::F64 };

    /// `char`.
    pub const CHAR: Type = Type {
        shape: Shape::Simple(SimpleType::Char),
    };

    /// `string`.
    pub const STRING: Type = Type {
        shape: Shape::Simple(SimpleType::String),
    };

    /// The type without parts of this kind; none for a kind of types that have parts, and for
    /// the unsupported kind.
    pub fn simple(kind: WasmTypeKind) -> Option<Type>
        ensures { result ≡ simple_type kind }
    {
        match kind {
            WasmTypeKind::Bool => Some(Type::BOOL),
            WasmTypeKind::S8 => Some(Type::S8),
            WasmTypeKind::S16 => Some(Type::S16),
            WasmTypeKind::S32 => Some(Type::S32),
            WasmTypeKind::S64 => Some(Type::S64),
            WasmTypeKind::U8 => Some(Type::U8),
            WasmTypeKind::U16 => Some(Type::U16),
            WasmTypeKind::U32 => Some(Type::U32),
            WasmTypeKind::U64 => Some(Type::U64),
            WasmTypeKind::F32 => Some(Type::F32),
            WasmTypeKind::F64 => Some(Type::F64),
            WasmTypeKind::Char => Some(Type::CHAR),
            WasmTypeKind::String => Some(Type::STRING),
            _ => None,
        }
    }

    /// The type without parts of this kind. It asks for such a kind.
    pub fn must_simple(kind: WasmTypeKind) -> Type
        requires { simple_type kind ≢ None }
        ensures { Some result ≡ simple_type kind }
    {
        match Type::simple(kind) {
            Some(ty) => ty,
            None => unreachable!(),
        }
    }

    /// The list type of this element type. The only error is out of memory.
    pub fn list(alloc: Global, element: Type) -> Result<Type, AllocError>
        ensures { IfOk result (λ t. t ≡ type.list element) }
    {
        let _ = &element.shape;
        let distinct = has_distinct_names(&element);
        Ok(Type {
            shape: Shape::List(Rc::new(alloc, (element, distinct))?),
        })
    }

    /// The type of lists of `count` elements of this type; `count` may be zero. The only error is
    /// out of memory.
    pub fn fixed_length_list(alloc: Global, element: Type, count: u32) -> Result<Type, AllocError>
        ensures { IfOk result (λ t. t ≡ type.fixed element count) }
    {
        let _ = &element.shape;
        let distinct = has_distinct_names(&element);
        Ok(Type {
            shape: Shape::FixedLengthList(Rc::new(alloc, (element, count, distinct))?),
        })
    }

    /// The option type of this payload type. The only error is out of memory.
    pub fn option(alloc: Global, some: Type) -> Result<Type, AllocError>
        ensures { IfOk result (λ t. t ≡ type.option some) }
    {
        let _ = &some.shape;
        let distinct = has_distinct_names(&some);
        Ok(Type {
            shape: Shape::Option(Rc::new(alloc, (some, distinct))?),
        })
    }

    /// The result type of these payload types, where there are such. The only error is out of
    /// memory.
    pub fn result(alloc: Global, ok: Option<Type>, err: Option<Type>) -> Result<Type, AllocError>
        ensures { IfOk result (λ t. t ≡ type.result (maybe_type ok) (maybe_type err)) }
    {
        let distinct = payload_is_distinct(&ok) & payload_is_distinct(&err);
        Ok(Type {
            shape: Shape::Result(Rc::new(alloc, (ok, err, distinct))?),
        })
    }

    /// The tuple type of these types; none where there is no type. The only error is out of
    /// memory.
    pub fn tuple(alloc: Global, types: Vec<Type>) -> Result<Option<Type>, AllocError>
        ensures { IfOk result (λ r. r ≡ tuple_type types.items) }
    {
        if types.is_empty() {
            return Ok(None);
        }
        let mut distinct = true;
        for ty in &types {
            is_representable(ty);
            distinct &= has_distinct_names(ty);
        }
        Ok(Some(Type {
            shape: Shape::Tuple(Rc::new(alloc, (types, distinct))?),
        }))
    }

    /// The record type of these fields, by their names and types; none where there is no field.
    /// Any names are taken: `names_are_labels` tests them. The only error is out of memory.
    pub fn record(alloc: Global, fields: Vec<(&str, Type)>) -> Result<Option<Type>, AllocError>
        ensures { IfOk result (λ r. r ≡ record_type (named fields.entry.items)) }
    {
        if fields.is_empty() {
            return Ok(None);
        }
        let mut owned = Vec::new(alloc);
        let mut distinct = true;
        for (name, ty) in fields {
            let _ = &ty.shape;
            distinct &= has_distinct_names(&ty);
            let name = String::from_str(alloc, name)?;
            owned.push((name, ty))?;
        }
        let places = first_places(alloc, &owned)?;
        let distinct = are_distinct(&owned, &places) & distinct;
        Ok(Some(Type {
            shape: Shape::Record(Rc::new(alloc, (owned, places, distinct))?),
        }))
    }

    /// The variant type of these cases, by their names and payload types; none where there is
    /// no case. Any names are taken: `names_are_labels` tests them. The only error is out of
    /// memory.
    pub fn variant(
        alloc: Global,
        cases: Vec<(&str, Option<Type>)>,
    ) -> Result<Option<Type>, AllocError>
        ensures { IfOk result (λ r. r ≡ variant_type (named cases.entry.items)) }
    {
        if cases.is_empty() {
            return Ok(None);
        }
        let mut owned = Vec::new(alloc);
        let mut distinct = true;
        for (name, payload) in cases {
            distinct &= payload_is_distinct(&payload);
            let name = String::from_str(alloc, name)?;
            owned.push((name, payload))?;
        }
        let places = first_places(alloc, &owned)?;
        let distinct = are_distinct(&owned, &places) & distinct;
        Ok(Some(Type {
            shape: Shape::Variant(Rc::new(alloc, (owned, places, distinct))?),
        }))
    }

    /// The enum type of these cases; none where there is no case. Any names are taken:
    /// `names_are_labels` tests them. The only error is out of memory.
    pub fn enum_ty(alloc: Global, cases: &[&str]) -> Result<Option<Type>, AllocError>
        ensures { IfOk result (λ r. r ≡ enum_type (texts cases.now)) }
    {
        if cases.is_empty() {
            return Ok(None);
        }
        let owned = owned_names(alloc, cases)?;
        let places = first_places(alloc, &owned)?;
        Ok(Some(Type {
            shape: Shape::Enum(Rc::new(alloc, (owned, places))?),
        }))
    }

    /// The type of flags of these names; none where there is no name. Any names are taken:
    /// `names_are_labels` tests them. The only error is out of memory.
    pub fn flags(alloc: Global, names: &[&str]) -> Result<Option<Type>, AllocError>
        ensures { IfOk result (λ r. r ≡ flags_type (texts names.now)) }
    {
        if names.is_empty() {
            return Ok(None);
        }
        let owned = owned_names(alloc, names)?;
        let places = first_places(alloc, &owned)?;
        Ok(Some(Type {
            shape: Shape::Flags(Rc::new(alloc, (owned, places))?),
        }))
    }

    /// The map type of these key and value types; none where the key type isn't `bool`, a
    /// whole-number type, `char` or `string`. The only error is out of memory.
    pub fn map(alloc: Global, key: Type, value: Type) -> Result<Option<Type>, AllocError>
        ensures { IfOk result (λ r. r ≡ map_type key value) }
    {
        let Shape::Simple(_) = &key.shape else {
            return Ok(None);
        };
        let _ = &value.shape;
        let distinct = has_distinct_names(&value);
        Ok(Some(Type {
            shape: Shape::Map(Rc::new(alloc, (key, value, distinct))?),
        }))
    }
}

// Whether no name stands twice within a payload's type, where there is one. It has a tree of a type.
fn payload_is_distinct(payload: &Option<Type>) -> bool
    ensures distinct { IsTrue result ↔ EachNamesOfMaybe AreDistinct (maybe_type payload.now) }
    ensures representable { every_maybe can_be_built (maybe_type payload.now) ≡ true }
{
    match payload {
        Some(ty) => {
            is_representable(ty);
            has_distinct_names(ty)
        }
        None => true,
    }
}

// Copies of the names, in their order.
fn owned_names(alloc: Global, names: &[&str]) -> Result<Vec<String>, AllocError>
    ensures { IfOk result (λ v. map string_bytes v.items ≡ texts names.now) }
{
    let mut owned = Vec::new(alloc);
    for name in names {
        owned.push(String::from_str(alloc, *name)?)?;
    }
    Ok(owned)
}

impl Clone for Type {
    ghost is_clone = { λ t u. u ≡ t };

    fn clone(&self) -> Result<Type, AllocError> {
        let shape = match &self.shape {
            Shape::Simple(simple) => Shape::Simple(*simple),
            Shape::F32 => Shape::F32,
            Shape::F64 => Shape::F64,
            Shape::List(element) => Shape::List(element.clone()?),
            Shape::FixedLengthList(parts) => Shape::FixedLengthList(parts.clone()?),
            Shape::Record(fields) => Shape::Record(fields.clone()?),
            Shape::Tuple(types) => Shape::Tuple(types.clone()?),
            Shape::Variant(cases) => Shape::Variant(cases.clone()?),
            Shape::Enum(cases) => Shape::Enum(cases.clone()?),
            Shape::Option(some) => Shape::Option(some.clone()?),
            Shape::Result(payloads) => Shape::Result(payloads.clone()?),
            Shape::Flags(names) => Shape::Flags(names.clone()?),
            Shape::Map(types) => Shape::Map(types.clone()?),
        };
        Ok(Type { shape })
    }
}
