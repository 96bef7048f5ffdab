//! Values of component types.
ghost use Rattle.std.specs.Prelude.{◌≡◌, IfOk, IfErr, pos};
ghost use Rattle.wave_wasm.specs.Types as type;
ghost use Rattle.wave_wasm.specs.Types.{IsRepresentable};
ghost use Rattle.wave_wasm.specs.Values as value;
ghost use Rattle.wave_wasm.specs.Values.{kind_of, IsSound};
ghost use Rattle.wave_wasm.specs.ConstructorContracts.{IsMemory};
ghost use Rattle.wave_value.specs.ValueModel.{scalar_leaf, boxed};
ghost use Rattle.wave_value.specs.Private.ValueModel.{ScalarFits, FitsAsWell};
ghost use Rattle.wave_value.specs.TypedValue.{MakesOnly, IsTyped, typed_leaf};

use std::alloc::{AllocError, Global};
use std::boxed::Box;
use std::marker::Model;
use wave_type::ty::Type;
use wave_type::ty::places::is_representable;
use wave_wasm::wasm::{WasmType, WasmTypeKind, WasmValueError};

mod checked;
mod constructors;
mod conversions;
mod equality;
mod refusals;
mod views;
mod wasm_value;

// A value of one token but a string.
#[derive(Clone, Copy, PartialEq, Debug)]
enum Scalar {
    Bool(bool),
    S8(i8),
    S16(i16),
    S32(i32),
    S64(i64),
    U8(u8),
    U16(u16),
    U32(u32),
    U64(u64),
    Char(char),
}

// What a value is made of, beside its type: cases and flags are places in the type.
#[cycle(values)]
#[derive(Debug, Drop)]
enum Content {
    Scalar(Scalar),
    String(String),
    List(Vec<Value>),
    Record(Vec<Value>),
    Tuple(Vec<Value>),
    Variant(usize, Option<Box<Value>>),
    Enum(usize),
    Option(Option<Box<Value>>),
    Ok(Option<Box<Value>>),
    Err(Option<Box<Value>>),
    Flags(Vec<usize>),
    Map(Vec<(Value, Value)>),
}

/// A value of a component type. It has a type as its own, whose parts it shares.
#[cycle(values)]
#[derive(Debug)]
pub struct Value {
    own: Type,
    content: Content,
}

// One function, so that whoever drops a value has one call for it.
impl Drop for Value {
    #[cycle(values)]
    fn drop(self) {
        let Value { own: _, content: _ } = self;
    }
}

impl Model for Value {
    ghost use Rattle.wave_wasm.specs.Values.{depth};
    ghost use Rattle.wave_value.specs.TypedValue.{TypedValue};
    ghost use Rattle.wave_value.specs.Private.ValueEncoding.{typed_code};

    ghost Value = { TypedValue };

    ghost coded = { typed_code };

    ghost use Rattle.wave_value.specs.Private.ValueModel.{content_tree, Fits};

    ghost view = { λ v. record { own = v.own; tree = content_tree v.own v.content } };

    ghost invariant = { λ v. Fits v.own v.content };

    ghost size = { λ v. depth v.tree };

    ghost use Rattle.wave_value.specs.Private.ValueDepth.{deep_le-depth};

    ghost size_decreases = { λ a h. deep_le-depth a.own a.content h };
}

impl Value {
    /// The kind of the value.
    pub fn kind(&self) -> WasmTypeKind
        ensures { result ≡ kind_of self.now.tree }
    {
        self.own.kind()
    }

    /// The value's own type. The value is one of it, and it has a tree of a type. The only error
    /// is out of memory.
    pub fn ty(&self) -> Result<Type, AllocError>
        ensures own { IfOk result (λ t. t ≡ self.now.own) }
        ensures typed { IsTyped self.now }
        ensures tree { IsRepresentable self.now.own }
    {
        is_representable(&self.own);
        self.own.clone()
    }

    /// An equal value, whose own type is the same. The only error is out of memory.
    #[cycle(clone)]
    pub fn clone(&self, alloc: Global) -> Result<Value, AllocError>
        ensures { IfOk result (λ v. v ≡ self.now) }
    {
        let content = clone_content(alloc, &self.content)?;
        Ok(Value {
            own: self.own.clone()?,
            content,
        })
    }

    /// The value of `bool`. It is never refused.
    pub fn make_bool(_alloc: Global, val: bool) -> Result<Value, WasmValueError>
        ensures { MakesOnly (value.bool val) result }
    {
        Ok(scalar_value(Type::BOOL, Scalar::Bool(val)))
    }

    /// The value of `s8`. It is never refused.
    pub fn make_s8(_alloc: Global, val: i8) -> Result<Value, WasmValueError>
        ensures { MakesOnly (value.whole type.s8 val) result }
    {
        Ok(scalar_value(Type::S8, Scalar::S8(val)))
    }

    /// The value of `s16`. It is never refused.
    pub fn make_s16(_alloc: Global, val: i16) -> Result<Value, WasmValueError>
        ensures { MakesOnly (value.whole type.s16 val) result }
    {
        Ok(scalar_value(Type::S16, Scalar::S16(val)))
    }

    /// The value of `s32`. It is never refused.
    pub fn make_s32(_alloc: Global, val: i32) -> Result<Value, WasmValueError>
        ensures { MakesOnly (value.whole type.s32 val) result }
    {
        Ok(scalar_value(Type::S32, Scalar::S32(val)))
    }

    /// The value of `s64`. It is never refused.
    pub fn make_s64(_alloc: Global, val: i64) -> Result<Value, WasmValueError>
        ensures { MakesOnly (value.whole type.s64 val) result }
    {
        Ok(scalar_value(Type::S64, Scalar::S64(val)))
    }

    /// The value of `u8`. It is never refused.
    pub fn make_u8(_alloc: Global, val: u8) -> Result<Value, WasmValueError>
        ensures { MakesOnly (value.whole type.u8 (pos val)) result }
    {
        Ok(scalar_value(Type::U8, Scalar::U8(val)))
    }

    /// The value of `u16`. It is never refused.
    pub fn make_u16(_alloc: Global, val: u16) -> Result<Value, WasmValueError>
        ensures { MakesOnly (value.whole type.u16 (pos val)) result }
    {
        Ok(scalar_value(Type::U16, Scalar::U16(val)))
    }

    /// The value of `u32`. It is never refused.
    pub fn make_u32(_alloc: Global, val: u32) -> Result<Value, WasmValueError>
        ensures { MakesOnly (value.whole type.u32 (pos val)) result }
    {
        Ok(scalar_value(Type::U32, Scalar::U32(val)))
    }

    /// The value of `u64`. It is never refused.
    pub fn make_u64(_alloc: Global, val: u64) -> Result<Value, WasmValueError>
        ensures { MakesOnly (value.whole type.u64 (pos val)) result }
    {
        Ok(scalar_value(Type::U64, Scalar::U64(val)))
    }

    /// The value of `char`. It is never refused.
    pub fn make_char(_alloc: Global, val: char) -> Result<Value, WasmValueError>
        ensures { MakesOnly (value.char val) result }
    {
        Ok(scalar_value(Type::CHAR, Scalar::Char(val)))
    }

    /// The value of `string`, a copy of this text. It is refused only for lack of memory.
    pub fn make_string(alloc: Global, val: &str) -> Result<Value, WasmValueError>
        ensures built { IfOk result (λ v. (v ≡ typed_leaf (value.string val.now)) × IsSound (value.string val.now)) }
        ensures refused { IfErr result IsMemory }
    {
        Ok(Value::from(String::from_str(alloc, val)?))
    }

    /// The bool that the value is. It asks for a value of `bool`.
    pub fn unwrap_bool(&self) -> bool
        requires { kind_of self.now.tree ≡ WasmTypeKind.Bool }
        ensures { self.now.tree ≡ value.leaf (value.bool result) }
    {
        match &self.content {
            Content::Scalar(Scalar::Bool(val)) => *val,
            _ => unreachable!(),
        }
    }

    /// The number that the value is. It asks for a value of `s8`.
    pub fn unwrap_s8(&self) -> i8
        requires { kind_of self.now.tree ≡ WasmTypeKind.S8 }
        ensures { self.now.tree ≡ value.leaf (value.whole type.s8 result) }
    {
        match &self.content {
            Content::Scalar(Scalar::S8(val)) => *val,
            _ => unreachable!(),
        }
    }

    /// The number that the value is. It asks for a value of `s16`.
    pub fn unwrap_s16(&self) -> i16
        requires { kind_of self.now.tree ≡ WasmTypeKind.S16 }
        ensures { self.now.tree ≡ value.leaf (value.whole type.s16 result) }
    {
        match &self.content {
            Content::Scalar(Scalar::S16(val)) => *val,
            _ => unreachable!(),
        }
    }

    /// The number that the value is. It asks for a value of `s32`.
    pub fn unwrap_s32(&self) -> i32
        requires { kind_of self.now.tree ≡ WasmTypeKind.S32 }
        ensures { self.now.tree ≡ value.leaf (value.whole type.s32 result) }
    {
        match &self.content {
            Content::Scalar(Scalar::S32(val)) => *val,
            _ => unreachable!(),
        }
    }

    /// The number that the value is. It asks for a value of `s64`.
    pub fn unwrap_s64(&self) -> i64
        requires { kind_of self.now.tree ≡ WasmTypeKind.S64 }
        ensures { self.now.tree ≡ value.leaf (value.whole type.s64 result) }
    {
        match &self.content {
            Content::Scalar(Scalar::S64(val)) => *val,
            _ => unreachable!(),
        }
    }

    /// The number that the value is. It asks for a value of `u8`.
    pub fn unwrap_u8(&self) -> u8
        requires { kind_of self.now.tree ≡ WasmTypeKind.U8 }
        ensures { self.now.tree ≡ value.leaf (value.whole type.u8 (pos result)) }
    {
        match &self.content {
            Content::Scalar(Scalar::U8(val)) => *val,
            _ => unreachable!(),
        }
    }

    /// The number that the value is. It asks for a value of `u16`.
    pub fn unwrap_u16(&self) -> u16
        requires { kind_of self.now.tree ≡ WasmTypeKind.U16 }
        ensures { self.now.tree ≡ value.leaf (value.whole type.u16 (pos result)) }
    {
        match &self.content {
            Content::Scalar(Scalar::U16(val)) => *val,
            _ => unreachable!(),
        }
    }

    /// The number that the value is. It asks for a value of `u32`.
    pub fn unwrap_u32(&self) -> u32
        requires { kind_of self.now.tree ≡ WasmTypeKind.U32 }
        ensures { self.now.tree ≡ value.leaf (value.whole type.u32 (pos result)) }
    {
        match &self.content {
            Content::Scalar(Scalar::U32(val)) => *val,
            _ => unreachable!(),
        }
    }

    /// The number that the value is. It asks for a value of `u64`.
    pub fn unwrap_u64(&self) -> u64
        requires { kind_of self.now.tree ≡ WasmTypeKind.U64 }
        ensures { self.now.tree ≡ value.leaf (value.whole type.u64 (pos result)) }
    {
        match &self.content {
            Content::Scalar(Scalar::U64(val)) => *val,
            _ => unreachable!(),
        }
    }

    /// The character that the value is. It asks for a value of `char`.
    pub fn unwrap_char(&self) -> char
        requires { kind_of self.now.tree ≡ WasmTypeKind.Char }
        ensures { self.now.tree ≡ value.leaf (value.char result) }
    {
        match &self.content {
            Content::Scalar(Scalar::Char(val)) => *val,
            _ => unreachable!(),
        }
    }

    /// The text that the value is. It asks for a value of `string`.
    pub fn unwrap_string(&self) -> &str
        requires { kind_of self.now.tree ≡ WasmTypeKind.String }
        ensures { self.now.tree ≡ value.leaf (value.string result.now) }
    {
        match &self.content {
            Content::String(val) => val.as_str(),
            _ => unreachable!(),
        }
    }
}

// The value of one token but a string, of its simple type.
fn scalar_value(own: Type, one: Scalar) -> Value
    requires { ScalarFits own (scalar_leaf one) }
    ensures { result ≡ typed_leaf (scalar_leaf one) }
{
    Value {
        own,
        content: Content::Scalar(one),
    }
}

// A copy of the content.
#[cycle(clone)]
fn clone_content(alloc: Global, content: &Content) -> Result<Content, AllocError>
    ensures { IfOk result (λ c. FitsAsWell c content.now) }
{
    match content {
        Content::Scalar(one) => Ok(Content::Scalar(*one)),
        Content::String(text) => Ok(Content::String(text.clone()?)),
        Content::List(vals) => Ok(Content::List(clone_values(alloc, vals)?)),
        Content::Record(vals) => Ok(Content::Record(clone_values(alloc, vals)?)),
        Content::Tuple(vals) => Ok(Content::Tuple(clone_values(alloc, vals)?)),
        Content::Variant(place, val) => Ok(Content::Variant(*place, clone_payload(alloc, val)?)),
        Content::Enum(place) => Ok(Content::Enum(*place)),
        Content::Option(val) => Ok(Content::Option(clone_payload(alloc, val)?)),
        Content::Ok(val) => Ok(Content::Ok(clone_payload(alloc, val)?)),
        Content::Err(val) => Ok(Content::Err(clone_payload(alloc, val)?)),
        Content::Flags(places) => Ok(Content::Flags(places.clone()?)),
        Content::Map(entries) => Ok(Content::Map(clone_entries(alloc, entries)?)),
    }
}

// Copies of the values.
#[cycle(clone)]
fn clone_values(alloc: Global, values: &Vec<Value>) -> Result<Vec<Value>, AllocError>
    ensures { IfOk result (λ vs. vs.items ≡ values.now.items) }
{
    let mut answer = Vec::new(alloc);
    for value in values {
        answer.push(value.clone(alloc)?)?;
    }
    Ok(answer)
}

// A copy of the payload, where there is one.
#[cycle(clone)]
fn clone_payload(
    alloc: Global,
    value: &Option<Box<Value>>,
) -> Result<Option<Box<Value>>, AllocError>
    ensures { IfOk result (λ p. boxed p ≡ boxed value.now) }
{
    match value {
        None => Ok(None),
        Some(value) => Ok(Some(Box::new(alloc, (**value).clone(alloc)?)?)),
    }
}

// Copies of the entries.
#[cycle(clone)]
fn clone_entries(
    alloc: Global,
    entries: &Vec<(Value, Value)>,
) -> Result<Vec<(Value, Value)>, AllocError>
    ensures { IfOk result (λ es. es.items ≡ entries.now.items) }
{
    let mut answer = Vec::new(alloc);
    for entry in entries {
        let key = entry.0.clone(alloc)?;
        answer.push((key, entry.1.clone(alloc)?))?;
    }
    Ok(answer)
}
