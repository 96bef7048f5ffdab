//! The text of a type.
ghost use Rattle.std.specs.Prelude.{map, string_bytes, ◌++◌, Some};
ghost use Rattle.std.specs.Fmt.{WritesOnOk, DisplaysOnOk};
ghost use Rattle.wave_wasm.specs.Types.{types_of, fields_of, cases_of, maybe_type};
ghost use Rattle.wave_wasm.specs.Commas.{joined};
ghost use Rattle.wave_wasm.specs.TypeText.{type_text, type_texts, field_texts, case_texts, payload_text, maybe_text, result_text, typed_names};
ghost use Rattle.wave_type.specs.FunctionType as function;
ghost use Rattle.wave_type.specs.FunctionType.{names_of};
ghost use Rattle.wave_type.specs.TypeModel.{by_bytes};
ghost use Rattle.wave_lex.specs.Labels.{HasLabels};
ghost use Rattle.wave_type.specs.TypeTexts.{TypeTextTells};

use super::{Shape, Type};
use std::fmt::{self, Display};
use wave_wasm::wasm::WasmType;

impl fmt::Display for Type {
    ghost use Rattle.std.specs.Prelude.{Some};
    ghost use Rattle.wave_wasm.specs.TypeText.{type_text};

    ghost output = { λ t. Some (type_text t) };

    fn fmt<W: fmt::Write>(&self, f: &mut fmt::Formatter<W>) -> fmt::Result
        ensures writes { DisplaysOnOk W.write_str_gives f.old result (Some (type_text self.now)) f.new }
        ensures apart { HasLabels self.now → TypeTextTells self.now }
    {
        let _ = &self.shape;
        write_type(f, self)
    }
}

// The type.
#[cycle(text)]
fn write_type<W: fmt::Write>(f: &mut fmt::Formatter<W>, ty: &Type) -> fmt::Result
    ensures { WritesOnOk W.write_str_gives f.old result (type_text ty.now) f.new }
{
    match &ty.shape {
        Shape::Simple(_) | Shape::F32 | Shape::F64 => write!(f, "{}", ty.kind()),
        Shape::List(element) => {
            write!(f, "list<")?;
            write_type(f, &element.0)?;
            write!(f, ">")
        }
        Shape::FixedLengthList(parts) => {
            write!(f, "list<")?;
            write_type(f, &parts.0)?;
            write!(f, ", {}>", parts.1)
        }
        Shape::Record(fields) => {
            write!(f, "record {{ ")?;
            write_fields(f, &fields.0)?;
            write!(f, " }}")
        }
        Shape::Tuple(types) => {
            write!(f, "tuple<")?;
            write_types(f, &types.0)?;
            write!(f, ">")
        }
        Shape::Variant(cases) => {
            write!(f, "variant {{ ")?;
            write_cases(f, &cases.0)?;
            write!(f, " }}")
        }
        Shape::Enum(names) => {
            write!(f, "enum {{ ")?;
            write_names(f, &names.0)?;
            write!(f, " }}")
        }
        Shape::Option(some) => {
            write!(f, "option<")?;
            write_type(f, &some.0)?;
            write!(f, ">")
        }
        Shape::Result(payloads) => write_result(f, &payloads.0, &payloads.1),
        Shape::Flags(names) => {
            write!(f, "flags {{ ")?;
            write_names(f, &names.0)?;
            write!(f, " }}")
        }
        Shape::Map(types) => {
            write!(f, "map<")?;
            write_type(f, &types.0)?;
            write!(f, ", ")?;
            write_type(f, &types.1)?;
            write!(f, ">")
        }
    }
}

// The types, with commas between.
#[cycle(text)]
fn write_types<W: fmt::Write>(f: &mut fmt::Formatter<W>, types: &Vec<Type>) -> fmt::Result
    ensures { WritesOnOk W.write_str_gives f.old result (joined (type_texts (types_of types.now.items))) f.new }
{
    let mut separator = "";
    for ty in types.iter() {
        write!(f, "{separator}")?;
        write_type(f, ty)?;
        separator = ", ";
    }
    Ok(())
}

// The fields, or parameters or results that have names, with commas between: `name: type`.
#[cycle(text)]
pub(crate) fn write_fields<W: fmt::Write>(
    f: &mut fmt::Formatter<W>,
    fields: &Vec<(String, Type)>,
) -> fmt::Result
    ensures fields { WritesOnOk W.write_str_gives f.old result (joined (field_texts (fields_of (map by_bytes fields.now.items)))) f.new }
    ensures parts { let ps = map by_bytes fields.now.items in
        WritesOnOk W.write_str_gives f.old result (joined (typed_names (names_of ps) (function.types_of ps))) f.new }
{
    let mut separator = "";
    for field in fields.iter() {
        write!(f, "{separator}")?;
        write!(f, "{}: ", field.0.as_str())?;
        write_type(f, &field.1)?;
        separator = ", ";
    }
    Ok(())
}

// The cases, with commas between.
#[cycle(text)]
fn write_cases<W: fmt::Write>(
    f: &mut fmt::Formatter<W>,
    cases: &Vec<(String, Option<Type>)>,
) -> fmt::Result
    ensures { WritesOnOk W.write_str_gives f.old result (joined (case_texts (cases_of (map by_bytes cases.now.items)))) f.new }
{
    let mut separator = "";
    for case in cases.iter() {
        write!(f, "{separator}")?;
        write_case(f, case)?;
        separator = ", ";
    }
    Ok(())
}

// A case: `name`, or `name(type)`.
#[cycle(text)]
fn write_case<W: fmt::Write>(
    f: &mut fmt::Formatter<W>,
    case: &(String, Option<Type>),
) -> fmt::Result
    ensures { WritesOnOk W.write_str_gives f.old result (string_bytes case.now.0 ++ payload_text (maybe_type case.now.1)) f.new }
{
    write!(f, "{}", case.0.as_str())?;
    match &case.1 {
        None => Ok(()),
        Some(payload) => {
            write!(f, "(")?;
            write_type(f, payload)?;
            write!(f, ")")
        }
    }
}

// A result type with these payload types: `_` stands for a missing first one.
#[cycle(text)]
fn write_result<W: fmt::Write>(
    f: &mut fmt::Formatter<W>,
    ok: &Option<Type>,
    err: &Option<Type>,
) -> fmt::Result
    ensures { WritesOnOk W.write_str_gives f.old result (result_text (maybe_text (maybe_type ok.now)) (maybe_text (maybe_type err.now))) f.new }
{
    match (ok, err) {
        (None, None) => write!(f, "result"),
        (Some(ok), None) => {
            write!(f, "result<")?;
            write_type(f, ok)?;
            write!(f, ">")
        }
        (None, Some(err)) => {
            write!(f, "result<_, ")?;
            write_type(f, err)?;
            write!(f, ">")
        }
        (Some(ok), Some(err)) => {
            write!(f, "result<")?;
            write_type(f, ok)?;
            write!(f, ", ")?;
            write_type(f, err)?;
            write!(f, ">")
        }
    }
}

// The names, with commas between.
fn write_names<W: fmt::Write>(f: &mut fmt::Formatter<W>, names: &Vec<String>) -> fmt::Result
    ensures { WritesOnOk W.write_str_gives f.old result (joined (map string_bytes names.now.items)) f.new }
{
    let mut separator = "";
    for name in names.iter() {
        write!(f, "{separator}")?;
        write!(f, "{}", name.as_str())?;
        separator = ", ";
    }
    Ok(())
}
