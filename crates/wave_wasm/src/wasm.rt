//! Kinds of types, what types and values answer about themselves, and why a value can't be made.
mod display;
mod func;

pub use display::{DisplayFunc, DisplayType};
pub use func::WasmFunc;
use std::alloc::{AllocError, AllocFailed, Global};
use std::fmt;
use std::mem::replace;
use thiserror::Error;

/// The kind of a type or value. `F32`, `F64` and `Unsupported` are the kinds that have no text.
#[derive(Clone, Copy, Debug, PartialEq, Eq)]
pub enum WasmTypeKind {
    /// `true` or `false`.
    Bool,
    /// A signed number of 8 bits.
    S8,
    /// A signed number of 16 bits.
    S16,
    /// A signed number of 32 bits.
    S32,
    /// A signed number of 64 bits.
    S64,
    /// An unsigned number of 8 bits.
    U8,
    /// An unsigned number of 16 bits.
    U16,
    /// An unsigned number of 32 bits.
    U32,
    /// An unsigned number of 64 bits.
    U64,
    /// A float of 32 bits.
    F32,
    /// A float of 64 bits.
    F64,
    /// A Unicode scalar.
    Char,
    /// A text.
    String,
    /// Items of one type.
    List,
    /// A fixed number of items of one type.
    FixedLengthList,
    /// A value for each of its named fields.
    Record,
    /// Items, each of a type of its own.
    Tuple,
    /// One of its named cases, with the payload that the case has.
    Variant,
    /// One of its names.
    Enum,
    /// A payload or `none`.
    Option,
    /// `ok` or `err`, each with the payload that it has.
    Result,
    /// Some of its names.
    Flags,
    /// Entries of keys and values.
    Map,
    /// A kind that has no text.
    Unsupported,
}

impl WasmTypeKind {
    ghost use Rattle.std.specs.Prelude.{◌≡◌};
    ghost use Rattle.wave_wasm.specs.TypeText.{kind_word};

    fn word(self) -> &'static str
        ensures { result.now ≡ kind_word self }
    {
        match self {
            WasmTypeKind::Bool => "bool",
            WasmTypeKind::S8 => "s8",
            WasmTypeKind::S16 => "s16",
            WasmTypeKind::S32 => "s32",
            WasmTypeKind::S64 => "s64",
            WasmTypeKind::U8 => "u8",
            WasmTypeKind::U16 => "u16",
            WasmTypeKind::U32 => "u32",
            WasmTypeKind::U64 => "u64",
            WasmTypeKind::F32 => "f32",
            WasmTypeKind::F64 => "f64",
            WasmTypeKind::Char => "char",
            WasmTypeKind::String => "string",
            WasmTypeKind::List => "list",
            WasmTypeKind::FixedLengthList => "list<_,N>",
            WasmTypeKind::Record => "record",
            WasmTypeKind::Tuple => "tuple",
            WasmTypeKind::Variant => "variant",
            WasmTypeKind::Enum => "enum",
            WasmTypeKind::Option => "option",
            WasmTypeKind::Result => "result",
            WasmTypeKind::Flags => "flags",
            WasmTypeKind::Map => "map",
            WasmTypeKind::Unsupported => "<<UNSUPPORTED>>",
        }
    }
}

impl fmt::Display for WasmTypeKind {
    ghost use Rattle.std.specs.Prelude.{Some};
    ghost use Rattle.wave_wasm.specs.TypeText.{kind_word};

    ghost output = { λ kind. Some (kind_word kind) };

    fn fmt<W: fmt::Write>(&self, f: &mut fmt::Formatter<W>) -> fmt::Result {
        f.write_str(self.word())
    }
}

/// Why a value can't be made. Names are those that were handed in; types and values are shown by
/// their texts.
#[derive(Debug, Drop, Error)]
pub enum WasmValueError {
    /// The field of this name is missing.
    MissingField(String),
    /// The case of this name has a payload, and none was given.
    MissingPayload(String),
    /// The case of this name has no payload, and one was given.
    UnexpectedPayload(String),
    /// The type has no case of this name.
    UnknownCase(String),
    /// The type has no field of this name.
    UnknownField(String),
    /// A type of this word has no values here.
    UnsupportedType(String),
    /// A fixed-length list of `want` elements was expected, and `got` were given.
    WrongNumberOfElements { want: u32, got: usize },
    /// `want` items were expected, and `got` were given.
    WrongNumberOfTupleValues { want: usize, got: usize },
    /// A type of this kind was expected; the type given has the text `ty`.
    WrongTypeKind { kind: WasmTypeKind, ty: String },
    /// A value of the type with the text `ty` was expected; the value given has the text `val`.
    WrongValueType { ty: String, val: String },
    /// Another cause, in these words.
    Other(String),
    /// There was no memory.
    Memory(AllocError),
}

impl fmt::Display for WasmValueError {
    ghost use Rattle.std.specs.Prelude.{Some};
    ghost use Rattle.wave_wasm.specs.ValueErrors.{cause_of, cause_text};

    ghost output = { λ error. Some (cause_text (cause_of error)) };

    fn fmt<W: fmt::Write>(&self, f: &mut fmt::Formatter<W>) -> fmt::Result {
        match self {
            WasmValueError::MissingField(name) => write!(f, "missing field \"{name}\""),
            WasmValueError::MissingPayload(name) => {
                write!(f, "missing payload for \"{name}\" case")
            }
            WasmValueError::UnexpectedPayload(name) => {
                write!(f, "unexpected payload for \"{name}\" case")
            }
            WasmValueError::UnknownCase(name) => write!(f, "unknown case \"{name}\""),
            WasmValueError::UnknownField(name) => write!(f, "unknown field \"{name}\""),
            WasmValueError::UnsupportedType(ty) => write!(f, "unsupported type {ty}"),
            WasmValueError::WrongNumberOfElements { want, got } => {
                write!(f, "expected {want} list elements; got {got}")
            }
            WasmValueError::WrongNumberOfTupleValues { want, got } => {
                write!(f, "expected {want} tuple elements; got {got}")
            }
            WasmValueError::WrongTypeKind { kind, ty } => {
                write!(f, "expected a {kind}; got {ty}")
            }
            WasmValueError::WrongValueType { ty, val } => write!(f, "expected a {ty}; got {val}"),
            WasmValueError::Other(message) => write!(f, "{message}"),
            WasmValueError::Memory(_) => f.write_str("out of memory"),
        }
    }
}

impl From<AllocError> for WasmValueError {
    ghost use Rattle.std.specs.Prelude.{◌≡◌};
    ghost use Rattle.wave_wasm.specs.declared.wasm.WasmValueError.TheVariants.{Memory};

    ghost from_gives = { λ e r. r ≡ Memory e };

    fn from(e: AllocError) -> WasmValueError {
        WasmValueError::Memory(e)
    }
}

impl<T: Drop> From<AllocFailed<T>> for WasmValueError {
    ghost use Rattle.std.specs.Prelude.{◌≡◌, alloc_error};
    ghost use Rattle.wave_wasm.specs.declared.wasm.WasmValueError.TheVariants.{Memory};

    ghost from_gives = { λ e r. r ≡ Memory alloc_error };

    fn from(e: AllocFailed<T>) -> WasmValueError {
        WasmValueError::Memory(AllocError::from(e))
    }
}

/// What a type answers about itself. A type means one finite tree; each call answers the parts of
/// that tree in their order, and none for a tree of another kind.
pub trait WasmType: Sized {
    ghost use Rattle.std.specs.Prelude.{◌≡◌, IfOk, IfSome, Some, option_map};
    ghost use Rattle.std.specs.List.{find, position};
    ghost use Rattle.std.specs.Str.{bytes_eq};
    ghost use Rattle.wave_wasm.specs.Names.{is_one_of};
    ghost use Rattle.wave_wasm.specs.Types.{TypeTree, kind_of, list_part, list_length, record_parts, tuple_parts, variant_parts};
    ghost use Rattle.wave_wasm.specs.Types.{enum_names, option_part, result_parts, flags_names, map_parts};
    ghost use Rattle.wave_wasm.specs.Borrowed.{texts, denoted, denoted_all, denoted_fields, denoted_case, denoted_cases, denoted_result, denoted_pair};

    /// The tree that the type means.
    ghost tree: { Self → TypeTree };

    /// The kind of the type.
    fn kind(&self) -> WasmTypeKind
        ensures { result ≡ kind_of (tree self.now) };

    /// The element type of a list or fixed-length list.
    fn list_element_type(&self) -> Option<&Self>
        ensures { denoted tree result ≡ list_part (tree self.now) };

    /// The number of elements of a fixed-length list.
    fn list_length(&self) -> Option<u32>
        ensures { result ≡ list_length (tree self.now) };

    /// The names and types of a record's fields.
    fn record_fields(&self, alloc: Global) -> Result<Vec<(&str, &Self)>, AllocError>
        ensures { IfOk result (λ v. denoted_fields tree v.items ≡ record_parts (tree self.now)) };

    /// The types of a tuple's items.
    fn tuple_element_types(&self, alloc: Global) -> Result<Vec<&Self>, AllocError>
        ensures { IfOk result (λ v. denoted_all tree v.items ≡ tuple_parts (tree self.now)) };

    /// The names and payload types of a variant's cases.
    fn variant_cases(&self, alloc: Global) -> Result<Vec<(&str, Option<&Self>)>, AllocError>
        ensures { IfOk result (λ v. denoted_cases tree v.items ≡ variant_parts (tree self.now)) };

    /// The names of an enum's cases.
    fn enum_cases(&self, alloc: Global) -> Result<Vec<&str>, AllocError>
        ensures { IfOk result (λ v. texts v.items ≡ enum_names (tree self.now)) };

    /// The payload type of an option.
    fn option_some_type(&self) -> Option<&Self>
        ensures { denoted tree result ≡ option_part (tree self.now) };

    /// The payload types of a result, for `ok` and for `err`.
    fn result_types(&self) -> Option<(Option<&Self>, Option<&Self>)>
        ensures { denoted_result tree result ≡ result_parts (tree self.now) };

    /// The names of flags.
    fn flags_names(&self, alloc: Global) -> Result<Vec<&str>, AllocError>
        ensures { IfOk result (λ v. texts v.items ≡ flags_names (tree self.now)) };

    /// The key type and the value type of a map.
    fn map_key_value_types(&self) -> Option<(&Self, &Self)>
        ensures { denoted_pair tree result ≡ map_parts (tree self.now) };

    /// The first case of this name of a variant, with the type of its payload; none where there is
    /// no such case. The provided body walks over `variant_cases`. A type that knows where its
    /// names stand may look the case up quicker.
    fn variant_case(
        &self,
        alloc: Global,
        name: &str,
    ) -> Result<Option<(&str, Option<&Self>)>, AllocError>
        ensures { IfOk result
            (λ case. option_map (denoted_case tree) case ≡ find (λ c. bytes_eq name.now c.0) (variant_parts (tree self.now))) }
    {
        let cases = self.variant_cases(alloc)?;
        Ok(cases.iter().find(|case| name == case.0).copied())
    }

    /// Whether an enum has a case of this name. The provided body walks over `enum_cases`. A type
    /// that knows where its names stand may look the name up quicker.
    fn has_enum_case(&self, alloc: Global, name: &str) -> Result<bool, AllocError>
        ensures { IfOk result (λ is_case. is_case ≡ is_one_of (enum_names (tree self.now)) name.now) }
    {
        let cases = self.enum_cases(alloc)?;
        Ok(cases.iter().any(|case| name == *case))
    }

    /// Where the name stands first among the names of flags, counted from zero; none where it is
    /// none of them. The provided body walks over `flags_names`. A type that knows where its names
    /// stand may look the name up quicker.
    fn flag_place(&self, alloc: Global, name: &str) -> Result<Option<usize>, AllocError>
        ensures { IfOk result (λ place. place ≡ position (bytes_eq name.now) (flags_names (tree self.now))) }
    {
        let names = self.flags_names(alloc)?;
        Ok(names.iter().position(|other| name == *other))
    }

    /// Where the name stands first among the names of a record's fields, counted from zero, where
    /// the type can tell that without a walk over them; the provided body never does. A reader asks
    /// for fields that stand in another order than the type's, and searches where it is told none.
    fn field_place(&self, name: &str) -> Option<usize>
        ensures { IfSome result (λ place. position (λ f. bytes_eq name.now f.0) (record_parts (tree self.now)) ≡ Some place) }
    {
        let _ = name;
        None
    }
}

/// Values that are made at types and give back their parts. A value means one finite tree, which
/// is well formed: its numbers, scalars and texts are sound, and the keys of a map of one kind.
pub trait WasmValue: Sized + Drop {
    /// The type that values are made at.
    type Type: WasmType;

    ghost use Rattle.std.specs.Prelude.{◌≡◌, IfOk, IfErr, pos};
    ghost use Rattle.wave_wasm.specs.Types as type;
    ghost use Rattle.wave_wasm.specs.Types.{TypeTree, HasDistinctNames};
    ghost use Rattle.wave_wasm.specs.Values as value;
    ghost use Rattle.wave_wasm.specs.Values.{Value, kind_of, maybe_value, list_items, tuple_items, record_fields, flags_names, map_entries, IsWellFormed};
    ghost use Rattle.wave_wasm.specs.HasType.{HasType};
    ghost use Rattle.wave_wasm.specs.Borrowed.{texts, denoted, denoted_all, denoted_fields, denoted_pairs, denoted_either};
    ghost use Rattle.wave_wasm.specs.ConstructorContracts.{IsOfListKind, result_value, leaf_entries, HasFullParts};
    ghost use Rattle.wave_wasm.specs.ConstructorContracts.{MakesLeaf, MakesList, MakesTuple, MakesRecord, MakesVariant};
    ghost use Rattle.wave_wasm.specs.ConstructorContracts.{MakesEnum, MakesOption, MakesResult, MakesFlags, MakesMap};
    ghost use Rattle.wave_wasm.specs.ConstructorContracts.{FullLeaf, FullList, FullTuple, FullRecord, FullVariant};
    ghost use Rattle.wave_wasm.specs.ConstructorContracts.{FullEnum, FullOption, FullResult, FullFlags, FullMap};
    ghost use Rattle.wave_wasm.specs.ConstructorContracts.{TypedList, TypedTuple, TypedRecord, TypedVariant, TypedOption, TypedResult, TypedMap};

    /// The tree that the value means.
    ghost tree: { Self → Value };

    /// The value is of the type.
    ghost is_of: { Self → TypeTree → Type 0 };

    /// Constructors at this type refuse what is a value there for lack of memory alone.
    ghost is_full: { TypeTree → Type 0 };

    /// The kind of the value.
    fn kind(&self) -> WasmTypeKind
        ensures kind { result ≡ kind_of (tree self.now) }
        ensures formed { IsWellFormed (tree self.now) };

    /// The value of `bool`.
    fn make_bool(alloc: Global, val: bool) -> Result<Self, WasmValueError>
        ensures built { IfOk result (MakesLeaf tree is_of (value.bool val)) }
        ensures full { IfErr result (FullLeaf is_full (value.bool val)) };

    /// The value of `s8`.
    fn make_s8(alloc: Global, val: i8) -> Result<Self, WasmValueError>
        ensures built { IfOk result (MakesLeaf tree is_of (value.whole type.s8 val)) }
        ensures full { IfErr result (FullLeaf is_full (value.whole type.s8 val)) };

    /// The value of `s16`.
    fn make_s16(alloc: Global, val: i16) -> Result<Self, WasmValueError>
        ensures built { IfOk result (MakesLeaf tree is_of (value.whole type.s16 val)) }
        ensures full { IfErr result (FullLeaf is_full (value.whole type.s16 val)) };

    /// The value of `s32`.
    fn make_s32(alloc: Global, val: i32) -> Result<Self, WasmValueError>
        ensures built { IfOk result (MakesLeaf tree is_of (value.whole type.s32 val)) }
        ensures full { IfErr result (FullLeaf is_full (value.whole type.s32 val)) };

    /// The value of `s64`.
    fn make_s64(alloc: Global, val: i64) -> Result<Self, WasmValueError>
        ensures built { IfOk result (MakesLeaf tree is_of (value.whole type.s64 val)) }
        ensures full { IfErr result (FullLeaf is_full (value.whole type.s64 val)) };

    /// The value of `u8`.
    fn make_u8(alloc: Global, val: u8) -> Result<Self, WasmValueError>
        ensures built { IfOk result (MakesLeaf tree is_of (value.whole type.u8 (pos val))) }
        ensures full { IfErr result (FullLeaf is_full (value.whole type.u8 (pos val))) };

    /// The value of `u16`.
    fn make_u16(alloc: Global, val: u16) -> Result<Self, WasmValueError>
        ensures built { IfOk result (MakesLeaf tree is_of (value.whole type.u16 (pos val))) }
        ensures full { IfErr result (FullLeaf is_full (value.whole type.u16 (pos val))) };

    /// The value of `u32`.
    fn make_u32(alloc: Global, val: u32) -> Result<Self, WasmValueError>
        ensures built { IfOk result (MakesLeaf tree is_of (value.whole type.u32 (pos val))) }
        ensures full { IfErr result (FullLeaf is_full (value.whole type.u32 (pos val))) };

    /// The value of `u64`.
    fn make_u64(alloc: Global, val: u64) -> Result<Self, WasmValueError>
        ensures built { IfOk result (MakesLeaf tree is_of (value.whole type.u64 (pos val))) }
        ensures full { IfErr result (FullLeaf is_full (value.whole type.u64 (pos val))) };

    /// The value of `char`.
    fn make_char(alloc: Global, val: char) -> Result<Self, WasmValueError>
        ensures built { IfOk result (MakesLeaf tree is_of (value.char val)) }
        ensures full { IfErr result (FullLeaf is_full (value.char val)) };

    /// The value of `string`.
    fn make_string(alloc: Global, val: &str) -> Result<Self, WasmValueError>
        ensures built { IfOk result (MakesLeaf tree is_of (value.string val.now)) }
        ensures full { IfErr result (FullLeaf is_full (value.string val.now)) };

    /// The list or fixed-length list of these items.
    fn make_list(alloc: Global, ty: &Self::Type, vals: Vec<Self>) -> Result<Self, WasmValueError>
        ensures built { IfOk result (MakesList tree is_of (Self.Type.tree ty.now) vals.items) }
        ensures full { IfErr result (FullList is_of is_full (Self.Type.tree ty.now) vals.items) };

    /// The tuple of these items.
    fn make_tuple(alloc: Global, ty: &Self::Type, vals: Vec<Self>) -> Result<Self, WasmValueError>
        ensures built { IfOk result (MakesTuple tree is_of (Self.Type.tree ty.now) vals.items) }
        ensures full { IfErr result (FullTuple is_of is_full (Self.Type.tree ty.now) vals.items) };

    /// The record of these fields, whose names are distinct, in whatever order.
    fn make_record(
        alloc: Global,
        ty: &Self::Type,
        fields: Vec<(&str, Self)>,
    ) -> Result<Self, WasmValueError>
        ensures built { IfOk result (MakesRecord tree is_of (Self.Type.tree ty.now) fields.entry.items) }
        ensures full { IfErr result (FullRecord is_of is_full (Self.Type.tree ty.now) fields.entry.items) };

    /// The case with its payload.
    fn make_variant(
        alloc: Global,
        ty: &Self::Type,
        case: &str,
        val: Option<Self>,
    ) -> Result<Self, WasmValueError>
        ensures built { IfOk result (MakesVariant tree is_of (Self.Type.tree ty.now) case.now val) }
        ensures full { IfErr result (FullVariant is_of is_full (Self.Type.tree ty.now) case.now val) };

    /// The case.
    fn make_enum(alloc: Global, ty: &Self::Type, case: &str) -> Result<Self, WasmValueError>
        ensures built { IfOk result (MakesEnum tree is_of (Self.Type.tree ty.now) case.now) }
        ensures full { IfErr result (FullEnum is_of is_full (Self.Type.tree ty.now) case.now) };

    /// `some` of the payload, or `none`.
    fn make_option(
        alloc: Global,
        ty: &Self::Type,
        val: Option<Self>,
    ) -> Result<Self, WasmValueError>
        ensures built { IfOk result (MakesOption tree is_of (Self.Type.tree ty.now) val) }
        ensures full { IfErr result (FullOption is_of is_full (Self.Type.tree ty.now) val) };

    /// `ok` or `err` with its payload.
    fn make_result(
        alloc: Global,
        ty: &Self::Type,
        val: Result<Option<Self>, Option<Self>>,
    ) -> Result<Self, WasmValueError>
        ensures built { IfOk result (MakesResult tree is_of (Self.Type.tree ty.now) val) }
        ensures full { IfErr result (FullResult is_of is_full (Self.Type.tree ty.now) val) };

    /// The flags of these names, distinct and in the type's order.
    fn make_flags(alloc: Global, ty: &Self::Type, names: &[&str]) -> Result<Self, WasmValueError>
        ensures built { IfOk result (MakesFlags tree is_of (Self.Type.tree ty.now) names.now) }
        ensures full { IfErr result (FullFlags is_of is_full (Self.Type.tree ty.now) names.now) };

    /// The map of these entries, as they are handed over.
    fn make_map(
        alloc: Global,
        ty: &Self::Type,
        entries: Vec<(Self, Self)>,
    ) -> Result<Self, WasmValueError>
        ensures built { IfOk result (MakesMap tree is_of (Self.Type.tree ty.now) entries.items) }
        ensures full { IfErr result (FullMap is_of is_full (Self.Type.tree ty.now) entries.items) };

    /// The same as `make_list`, of items that a list of the type has; they are taken out of `vals`.
    /// An implementation may leave out the comparison of each item's type. The provided body calls
    /// `make_list`.
    fn make_list_unchecked(
        alloc: Global,
        ty: &Self::Type,
        vals: &mut Vec<Self>,
    ) -> Result<Self, WasmValueError>
        requires { HasDistinctNames (Self.Type.tree ty.now) → TypedList is_of (Self.Type.tree ty.now) vals.now.items }
        ensures built { IfOk result (MakesList tree is_of (Self.Type.tree ty.now) vals.old.items) }
        ensures full { IfErr result (FullList is_of is_full (Self.Type.tree ty.now) vals.old.items) }
    {
        Self::make_list(alloc, ty, replace(vals, Vec::new(alloc)))
    }

    /// The same as `make_tuple`, of items that a tuple of the type has; they are taken out of
    /// `vals`. An implementation may leave out the comparison of each item's type. The provided
    /// body calls `make_tuple`.
    fn make_tuple_unchecked(
        alloc: Global,
        ty: &Self::Type,
        vals: &mut Vec<Self>,
    ) -> Result<Self, WasmValueError>
        requires { HasDistinctNames (Self.Type.tree ty.now) → TypedTuple is_of (Self.Type.tree ty.now) vals.now.items }
        ensures built { IfOk result (MakesTuple tree is_of (Self.Type.tree ty.now) vals.old.items) }
        ensures full { IfErr result (FullTuple is_of is_full (Self.Type.tree ty.now) vals.old.items) }
    {
        Self::make_tuple(alloc, ty, replace(vals, Vec::new(alloc)))
    }

    /// The same as `make_record`, of fields that a record of the type has; they are taken out of
    /// `fields`. An implementation may leave out the comparison of each field's type. The provided
    /// body calls `make_record`.
    fn make_record_unchecked(
        alloc: Global,
        ty: &Self::Type,
        fields: &mut Vec<(&str, Self)>,
    ) -> Result<Self, WasmValueError>
        requires { HasDistinctNames (Self.Type.tree ty.now) → TypedRecord is_of (Self.Type.tree ty.now) fields.now.items }
        ensures built { IfOk result (MakesRecord tree is_of (Self.Type.tree ty.now) fields.old.items) }
        ensures full { IfErr result (FullRecord is_of is_full (Self.Type.tree ty.now) fields.old.items) }
    {
        Self::make_record(alloc, ty, replace(fields, Vec::new(alloc)))
    }

    /// The same as `make_variant`, of a payload that this case of the type has; it is taken out of
    /// `val`. An implementation may leave out the comparison of the payload's type. The provided
    /// body calls `make_variant`.
    fn make_variant_unchecked(
        alloc: Global,
        ty: &Self::Type,
        case: &str,
        val: &mut Option<Self>,
    ) -> Result<Self, WasmValueError>
        requires { HasDistinctNames (Self.Type.tree ty.now) → TypedVariant is_of (Self.Type.tree ty.now) case.now val.now }
        ensures built { IfOk result (MakesVariant tree is_of (Self.Type.tree ty.now) case.now val.old) }
        ensures full { IfErr result (FullVariant is_of is_full (Self.Type.tree ty.now) case.now val.old) }
    {
        Self::make_variant(alloc, ty, case, val.take())
    }

    /// The same as `make_option`, of a payload that an option of the type has; it is taken out of
    /// `val`. An implementation may leave out the comparison of the payload's type. The provided
    /// body calls `make_option`.
    fn make_option_unchecked(
        alloc: Global,
        ty: &Self::Type,
        val: &mut Option<Self>,
    ) -> Result<Self, WasmValueError>
        requires { HasDistinctNames (Self.Type.tree ty.now) → TypedOption is_of (Self.Type.tree ty.now) val.now }
        ensures built { IfOk result (MakesOption tree is_of (Self.Type.tree ty.now) val.old) }
        ensures full { IfErr result (FullOption is_of is_full (Self.Type.tree ty.now) val.old) }
    {
        Self::make_option(alloc, ty, val.take())
    }

    /// The same as `make_result`, of a payload that a result of the type has; it is taken out of
    /// `val`, which keeps none. An implementation may leave out the comparison of the payload's
    /// type. The provided body calls `make_result`.
    fn make_result_unchecked(
        alloc: Global,
        ty: &Self::Type,
        val: &mut Result<Option<Self>, Option<Self>>,
    ) -> Result<Self, WasmValueError>
        requires { HasDistinctNames (Self.Type.tree ty.now) → TypedResult is_of (Self.Type.tree ty.now) val.now }
        ensures built { IfOk result (MakesResult tree is_of (Self.Type.tree ty.now) val.old) }
        ensures full { IfErr result (FullResult is_of is_full (Self.Type.tree ty.now) val.old) }
    {
        Self::make_result(alloc, ty, replace(val, Ok(None)))
    }

    /// The same as `make_map`, of entries that a map of the type has; they are taken out of
    /// `entries`. An implementation may leave out the comparison of each entry's types. The
    /// provided body calls `make_map`.
    fn make_map_unchecked(
        alloc: Global,
        ty: &Self::Type,
        entries: &mut Vec<(Self, Self)>,
    ) -> Result<Self, WasmValueError>
        requires { HasDistinctNames (Self.Type.tree ty.now) → TypedMap is_of (Self.Type.tree ty.now) entries.now.items }
        ensures built { IfOk result (MakesMap tree is_of (Self.Type.tree ty.now) entries.old.items) }
        ensures full { IfErr result (FullMap is_of is_full (Self.Type.tree ty.now) entries.old.items) }
    {
        Self::make_map(alloc, ty, replace(entries, Vec::new(alloc)))
    }

    /// The bool that the value is. It asks for a value of this kind.
    fn unwrap_bool(&self) -> bool
        requires { kind_of (tree self.now) ≡ WasmTypeKind.Bool }
        ensures { tree self.now ≡ value.leaf (value.bool result) };

    /// The s8 that the value is. It asks for a value of this kind.
    fn unwrap_s8(&self) -> i8
        requires { kind_of (tree self.now) ≡ WasmTypeKind.S8 }
        ensures { tree self.now ≡ value.leaf (value.whole type.s8 result) };

    /// The s16 that the value is. It asks for a value of this kind.
    fn unwrap_s16(&self) -> i16
        requires { kind_of (tree self.now) ≡ WasmTypeKind.S16 }
        ensures { tree self.now ≡ value.leaf (value.whole type.s16 result) };

    /// The s32 that the value is. It asks for a value of this kind.
    fn unwrap_s32(&self) -> i32
        requires { kind_of (tree self.now) ≡ WasmTypeKind.S32 }
        ensures { tree self.now ≡ value.leaf (value.whole type.s32 result) };

    /// The s64 that the value is. It asks for a value of this kind.
    fn unwrap_s64(&self) -> i64
        requires { kind_of (tree self.now) ≡ WasmTypeKind.S64 }
        ensures { tree self.now ≡ value.leaf (value.whole type.s64 result) };

    /// The u8 that the value is. It asks for a value of this kind.
    fn unwrap_u8(&self) -> u8
        requires { kind_of (tree self.now) ≡ WasmTypeKind.U8 }
        ensures { tree self.now ≡ value.leaf (value.whole type.u8 (pos result)) };

    /// The u16 that the value is. It asks for a value of this kind.
    fn unwrap_u16(&self) -> u16
        requires { kind_of (tree self.now) ≡ WasmTypeKind.U16 }
        ensures { tree self.now ≡ value.leaf (value.whole type.u16 (pos result)) };

    /// The u32 that the value is. It asks for a value of this kind.
    fn unwrap_u32(&self) -> u32
        requires { kind_of (tree self.now) ≡ WasmTypeKind.U32 }
        ensures { tree self.now ≡ value.leaf (value.whole type.u32 (pos result)) };

    /// The u64 that the value is. It asks for a value of this kind.
    fn unwrap_u64(&self) -> u64
        requires { kind_of (tree self.now) ≡ WasmTypeKind.U64 }
        ensures { tree self.now ≡ value.leaf (value.whole type.u64 (pos result)) };

    /// The char that the value is. It asks for a value of this kind.
    fn unwrap_char(&self) -> char
        requires { kind_of (tree self.now) ≡ WasmTypeKind.Char }
        ensures { tree self.now ≡ value.leaf (value.char result) };

    /// The string that the value is. It asks for a value of this kind.
    fn unwrap_string(&self) -> &str
        requires { kind_of (tree self.now) ≡ WasmTypeKind.String }
        ensures { tree self.now ≡ value.leaf (value.string result.now) };

    /// The items. It asks for a list or a fixed-length list.
    fn unwrap_list(&self, alloc: Global) -> Result<Vec<&Self>, AllocError>
        requires { IsOfListKind (kind_of (tree self.now)) }
        ensures { IfOk result (λ v. denoted_all tree v.items ≡ list_items (tree self.now)) };

    /// The items. It asks for a tuple.
    fn unwrap_tuple(&self, alloc: Global) -> Result<Vec<&Self>, AllocError>
        requires { kind_of (tree self.now) ≡ WasmTypeKind.Tuple }
        ensures { IfOk result (λ v. denoted_all tree v.items ≡ tuple_items (tree self.now)) };

    /// The names and values of the fields in their order. It asks for a record.
    fn unwrap_record(&self, alloc: Global) -> Result<Vec<(&str, &Self)>, AllocError>
        requires { kind_of (tree self.now) ≡ WasmTypeKind.Record }
        ensures { IfOk result (λ v. denoted_fields tree v.items ≡ record_fields (tree self.now)) };

    /// The case and its payload. It asks for a variant.
    fn unwrap_variant(&self) -> (&str, Option<&Self>)
        requires { kind_of (tree self.now) ≡ WasmTypeKind.Variant }
        ensures { tree self.now ≡ value.variant result.0.now (maybe_value (denoted tree result.1)) };

    /// The case. It asks for an enum.
    fn unwrap_enum(&self) -> &str
        requires { kind_of (tree self.now) ≡ WasmTypeKind.Enum }
        ensures { tree self.now ≡ value.enum result.now };

    /// The payload of `some`, or none. It asks for an option.
    fn unwrap_option(&self) -> Option<&Self>
        requires { kind_of (tree self.now) ≡ WasmTypeKind.Option }
        ensures { tree self.now ≡ value.option (maybe_value (denoted tree result)) };

    /// The payload of `ok` or of `err`. It asks for a result.
    fn unwrap_result(&self) -> Result<Option<&Self>, Option<&Self>>
        requires { kind_of (tree self.now) ≡ WasmTypeKind.Result }
        ensures { tree self.now ≡ result_value (denoted_either tree result) };

    /// The names of the flags in their order. It asks for flags.
    fn unwrap_flags(&self, alloc: Global) -> Result<Vec<&str>, AllocError>
        requires { kind_of (tree self.now) ≡ WasmTypeKind.Flags }
        ensures { IfOk result (λ v. texts v.items ≡ flags_names (tree self.now)) };

    /// The entries in their order. It asks for a map.
    fn unwrap_map(&self, alloc: Global) -> Result<Vec<(&Self, &Self)>, AllocError>
        requires { kind_of (tree self.now) ≡ WasmTypeKind.Map }
        ensures { IfOk result
            (λ v. denoted_pairs tree v.items ≡ leaf_entries (map_entries (tree self.now))) };

    ghost of_fits: { (v : Self) → (T : TypeTree) → is_of v T → HasType T (tree v) };

    ghost full_parts: { HasFullParts is_full };
}

ghost use Rattle.std.specs.Prelude.{◌≡◌, ◌≢◌, ◌⊎◌, OnOk, OnErr, IfErr};
ghost use Rattle.wave_wasm.specs.Types.{kind_of as kind_of_type};
ghost use Rattle.wave_wasm.specs.ConstructorContracts.{IsMemory};
ghost use Rattle.wave_wasm.specs.TypeText.{type_text};
ghost use Rattle.wave_wasm.specs.ValueErrors.{cause_of, wrong_kind};

/// Asks for a type of this kind. Another is refused as `WrongTypeKind` with the type's text, or as
/// `Memory` where there is none for that text.
pub fn ensure_type_kind<T: WasmType>(
    alloc: Global,
    ty: &T,
    kind: WasmTypeKind,
) -> Result<(), WasmValueError>
    ensures ok { OnOk result (kind_of_type (T.tree ty.now) ≡ kind) }
    ensures wrong { OnErr result (kind_of_type (T.tree ty.now) ≢ kind) }
    ensures err { IfErr result
        (λ e. IsMemory e ⊎ (cause_of e ≡ wrong_kind kind (type_text (T.tree ty.now)))) }
{
    if ty.kind() == kind {
        return Ok(());
    }
    let ty = display::type_to_string(alloc, ty)?;
    Err(WasmValueError::WrongTypeKind { kind, ty })
}
