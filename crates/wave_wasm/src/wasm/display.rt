//! Types and functions as text.
ghost use Rattle.std.specs.Prelude.{◌≡◌, ◌++◌, IfOk, OnOk, Some};
ghost use Rattle.std.specs.String.{string_bytes};
ghost use Rattle.wave_wasm.specs.Types.{kind_of, maybe_type};
ghost use Rattle.wave_wasm.specs.CommaParts.{comma_if};
ghost use Rattle.wave_wasm.specs.Commas.{joined, in_parens};
ghost use Rattle.wave_wasm.specs.Borrowed.{texts, denoted, denoted_all};
ghost use Rattle.wave_wasm.specs.TypeText.{type_text, payload_text, braced, function_results_text, typed_names, function_text};
ghost use Rattle.wave_wasm.specs.Private.TypeText.{name_part};

use crate::wasm::{WasmFunc, WasmType, WasmTypeKind};
use itoa::Buffer;
use std::alloc::{AllocError, Global};
use std::fmt;
use std::marker::Model;

/// Shows a type as its text. It fails where the formatter fails or memory is refused.
#[derive(Clone, Drop)]
pub struct DisplayType<'a, T: WasmType> {
    alloc: Global,
    ty: &'a T,
}

impl<'a, T: WasmType> Model for DisplayType<'a, T> {
    ghost Value = { T };

    ghost view = { λ d. d.ty.now };
}

impl<'a, T: WasmType> DisplayType<'a, T> {
    /// Shows `ty`.
    pub fn new(alloc: Global, ty: &'a T) -> DisplayType<'a, T>
        ensures { result ≡ ty.entry.now }
    {
        DisplayType { alloc, ty }
    }
}

impl<T: WasmType> fmt::Display for DisplayType<'_, T> {
    ghost output = { λ d. Some (type_text (T.tree d)) };

    fn fmt<W: fmt::Write>(&self, f: &mut fmt::Formatter<W>) -> fmt::Result {
        match type_to_string(self.alloc, self.ty) {
            Ok(text) => f.write_str(text.as_str()),
            Err(_) => Err(fmt::Error),
        }
    }
}

/// Shows a function as its type's text. It fails where the formatter fails or memory is refused.
#[derive(Drop)]
pub struct DisplayFunc<F: WasmFunc> {
    alloc: Global,
    func: F,
}

impl<F: WasmFunc> Model for DisplayFunc<F> {
    ghost Value = { F };

    ghost view = { λ d. d.func };
}

impl<F: WasmFunc> DisplayFunc<F> {
    /// Shows `func`.
    pub fn new(alloc: Global, func: F) -> DisplayFunc<F>
        ensures { result ≡ func }
    {
        DisplayFunc { alloc, func }
    }
}

impl<F: WasmFunc> fmt::Display for DisplayFunc<F> {
    ghost output = { λ d. Some (function_text (F.func d)) };

    fn fmt<W: fmt::Write>(&self, f: &mut fmt::Formatter<W>) -> fmt::Result {
        match func_to_string(self.alloc, &self.func) {
            Ok(text) => f.write_str(text.as_str()),
            Err(_) => Err(fmt::Error),
        }
    }
}

/// The text of a function's type.
fn func_to_string<F: WasmFunc>(alloc: Global, func: &F) -> Result<String, AllocError>
    ensures { IfOk result (λ s. string_bytes s ≡ function_text (F.func func.now)) }
{
    let params = func.params(alloc)?;
    let param_names = func.param_names(alloc)?;
    let results = func.results(alloc)?;
    let result_names = func.result_names(alloc)?;
    let mut text = String::new(alloc);
    text.push_str("func")?;
    push_typed_names(alloc, &param_names, &params, &mut text)?;
    push_results(alloc, &result_names, &results, &mut text)?;
    Ok(text)
}

/// Adds nothing for no result, ` -> T` for an unnamed one, else ` -> ` and all in parentheses.
fn push_results<T: WasmType>(
    alloc: Global,
    names: &Vec<&str>,
    types: &Vec<&T>,
    text: &mut String,
) -> Result<(), AllocError>
    ensures { OnOk result
        (string_bytes text.new ≡ string_bytes text.old ++ function_results_text (texts names.now.items) (denoted_all T.tree types.now.items)) }
{
    if types.is_empty() {
        return Ok(());
    }
    text.push_str(" -> ")?;
    if types.len() == 1 && names.is_empty() {
        return push_type(alloc, types[0], text);
    }
    push_typed_names(alloc, names, types, text)
}

/// Adds the types in parentheses, each after its name where it has one.
fn push_typed_names<T: WasmType>(
    alloc: Global,
    names: &Vec<&str>,
    types: &Vec<&T>,
    text: &mut String,
) -> Result<(), AllocError>
    ensures { OnOk result
        (string_bytes text.new ≡ string_bytes text.old ++ in_parens (joined (typed_names (texts names.now.items) (denoted_all T.tree types.now.items)))) }
{
    text.push_str("(")?;
    let mut later = false;
    for i in 0..types.len() {
        push_separator(later, text)?;
        later = true;
        push_name(names, i, text)?;
        push_type(alloc, types[i], text)?;
    }
    text.push_str(")")
}

/// Adds the name at this place and `: `, or nothing where there is none.
fn push_name(names: &Vec<&str>, i: usize, text: &mut String) -> Result<(), AllocError>
    ensures { OnOk result
        (string_bytes text.new ≡ string_bytes text.old ++ name_part (texts names.now.items) i) }
{
    if i < names.len() {
        text.push_str(names[i])?;
        text.push_str(": ")
    } else {
        Ok(())
    }
}

/// The text of a type.
pub(crate) fn type_to_string<T: WasmType>(alloc: Global, ty: &T) -> Result<String, AllocError>
    ensures { IfOk result (λ s. string_bytes s ≡ type_text (T.tree ty.now)) }
{
    let mut text = String::new(alloc);
    push_type(alloc, ty, &mut text)?;
    Ok(text)
}

#[cycle(types)]
fn push_type<T: WasmType>(alloc: Global, ty: &T, text: &mut String) -> Result<(), AllocError>
    ensures { OnOk result (string_bytes text.new ≡ string_bytes text.old ++ type_text (T.tree ty.now)) }
{
    let kind = ty.kind();
    match kind {
        WasmTypeKind::List => push_list(alloc, ty, text),
        WasmTypeKind::FixedLengthList => push_fixed_length_list(alloc, ty, text),
        WasmTypeKind::Record => push_record(alloc, ty, text),
        WasmTypeKind::Tuple => push_tuple(alloc, ty, text),
        WasmTypeKind::Variant => push_variant(alloc, ty, text),
        WasmTypeKind::Enum => push_names("enum", &ty.enum_cases(alloc)?, text),
        WasmTypeKind::Option => push_option(alloc, ty, text),
        WasmTypeKind::Result => push_result(alloc, ty, text),
        WasmTypeKind::Flags => push_names("flags", &ty.flags_names(alloc)?, text),
        WasmTypeKind::Map => push_map(alloc, ty, text),
        _ => text.push_str(kind.word()),
    }
}

#[cycle(types)]
fn push_list<T: WasmType>(alloc: Global, ty: &T, text: &mut String) -> Result<(), AllocError>
    requires { kind_of (T.tree ty.now) ≡ WasmTypeKind.List }
    ensures { OnOk result (string_bytes text.new ≡ string_bytes text.old ++ type_text (T.tree ty.now)) }
{
    match ty.list_element_type() {
        Some(element) => {
            text.push_str("list<")?;
            push_type(alloc, element, text)?;
            text.push_str(">")
        }
        None => unreachable!(),
    }
}

#[cycle(types)]
fn push_fixed_length_list<T: WasmType>(
    alloc: Global,
    ty: &T,
    text: &mut String,
) -> Result<(), AllocError>
    requires { kind_of (T.tree ty.now) ≡ WasmTypeKind.FixedLengthList }
    ensures { OnOk result (string_bytes text.new ≡ string_bytes text.old ++ type_text (T.tree ty.now)) }
{
    match (ty.list_element_type(), ty.list_length()) {
        (Some(element), Some(length)) => {
            text.push_str("list<")?;
            push_type(alloc, element, text)?;
            text.push_str(", ")?;
            text.push_str(Buffer::new().format(length))?;
            text.push_str(">")
        }
        _ => unreachable!(),
    }
}

#[cycle(types)]
fn push_option<T: WasmType>(alloc: Global, ty: &T, text: &mut String) -> Result<(), AllocError>
    requires { kind_of (T.tree ty.now) ≡ WasmTypeKind.Option }
    ensures { OnOk result (string_bytes text.new ≡ string_bytes text.old ++ type_text (T.tree ty.now)) }
{
    match ty.option_some_type() {
        Some(payload) => {
            text.push_str("option<")?;
            push_type(alloc, payload, text)?;
            text.push_str(">")
        }
        None => unreachable!(),
    }
}

#[cycle(types)]
fn push_map<T: WasmType>(alloc: Global, ty: &T, text: &mut String) -> Result<(), AllocError>
    requires { kind_of (T.tree ty.now) ≡ WasmTypeKind.Map }
    ensures { OnOk result (string_bytes text.new ≡ string_bytes text.old ++ type_text (T.tree ty.now)) }
{
    match ty.map_key_value_types() {
        Some((key, value)) => {
            text.push_str("map<")?;
            push_type(alloc, key, text)?;
            text.push_str(", ")?;
            push_type(alloc, value, text)?;
            text.push_str(">")
        }
        None => unreachable!(),
    }
}

#[cycle(types)]
fn push_result<T: WasmType>(alloc: Global, ty: &T, text: &mut String) -> Result<(), AllocError>
    requires { kind_of (T.tree ty.now) ≡ WasmTypeKind.Result }
    ensures { OnOk result (string_bytes text.new ≡ string_bytes text.old ++ type_text (T.tree ty.now)) }
{
    match ty.result_types() {
        Some((None, None)) => text.push_str("result"),
        Some((Some(ok), None)) => {
            text.push_str("result<")?;
            push_type(alloc, ok, text)?;
            text.push_str(">")
        }
        Some((None, Some(err))) => {
            text.push_str("result<_, ")?;
            push_type(alloc, err, text)?;
            text.push_str(">")
        }
        Some((Some(ok), Some(err))) => {
            text.push_str("result<")?;
            push_type(alloc, ok, text)?;
            text.push_str(", ")?;
            push_type(alloc, err, text)?;
            text.push_str(">")
        }
        None => unreachable!(),
    }
}

#[cycle(types)]
fn push_record<T: WasmType>(alloc: Global, ty: &T, text: &mut String) -> Result<(), AllocError>
    requires { kind_of (T.tree ty.now) ≡ WasmTypeKind.Record }
    ensures { OnOk result (string_bytes text.new ≡ string_bytes text.old ++ type_text (T.tree ty.now)) }
{
    let fields = ty.record_fields(alloc)?;
    text.push_str("record { ")?;
    let mut later = false;
    for field in &fields {
        let (name, field_type) = *field;
        push_separator(later, text)?;
        later = true;
        text.push_str(name)?;
        text.push_str(": ")?;
        push_type(alloc, field_type, text)?;
    }
    text.push_str(" }")
}

#[cycle(types)]
fn push_tuple<T: WasmType>(alloc: Global, ty: &T, text: &mut String) -> Result<(), AllocError>
    requires { kind_of (T.tree ty.now) ≡ WasmTypeKind.Tuple }
    ensures { OnOk result (string_bytes text.new ≡ string_bytes text.old ++ type_text (T.tree ty.now)) }
{
    let items = ty.tuple_element_types(alloc)?;
    text.push_str("tuple<")?;
    let mut later = false;
    for item in &items {
        push_separator(later, text)?;
        later = true;
        push_type(alloc, *item, text)?;
    }
    text.push_str(">")
}

#[cycle(types)]
fn push_variant<T: WasmType>(alloc: Global, ty: &T, text: &mut String) -> Result<(), AllocError>
    requires { kind_of (T.tree ty.now) ≡ WasmTypeKind.Variant }
    ensures { OnOk result (string_bytes text.new ≡ string_bytes text.old ++ type_text (T.tree ty.now)) }
{
    let cases = ty.variant_cases(alloc)?;
    text.push_str("variant { ")?;
    let mut later = false;
    for case in &cases {
        let (name, payload) = *case;
        push_separator(later, text)?;
        later = true;
        text.push_str(name)?;
        push_payload(alloc, payload, text)?;
    }
    text.push_str(" }")
}

/// Adds the payload's type in parentheses, or nothing where there is none.
#[cycle(types)]
fn push_payload<T: WasmType>(
    alloc: Global,
    payload: Option<&T>,
    text: &mut String,
) -> Result<(), AllocError>
    ensures { OnOk result
        (string_bytes text.new ≡ string_bytes text.old ++ payload_text (maybe_type (denoted T.tree payload.entry))) }
{
    match payload {
        None => Ok(()),
        Some(ty) => {
            text.push_str("(")?;
            push_type(alloc, ty, text)?;
            text.push_str(")")
        }
    }
}

/// Adds names in braces, after the word of their kind.
fn push_names(word: &str, names: &Vec<&str>, text: &mut String) -> Result<(), AllocError>
    ensures { OnOk result
        (string_bytes text.new ≡ string_bytes text.old ++ braced word.now (texts names.now.items)) }
{
    text.push_str(word)?;
    text.push_str(" { ")?;
    let mut later = false;
    for name in names {
        push_separator(later, text)?;
        later = true;
        text.push_str(*name)?;
    }
    text.push_str(" }")
}

fn push_separator(later: bool, text: &mut String) -> Result<(), AllocError>
    ensures { OnOk result (string_bytes text.new ≡ string_bytes text.old ++ comma_if later) }
{
    if later { text.push_str(", ") } else { Ok(()) }
}
