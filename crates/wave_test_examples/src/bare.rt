//! Lists of lists as a foreign type: what is written and read, and where constructors refuse.
use std::test::Fail;
use wasm_wave::parser::ParserError;
use wasm_wave::untyped::{UntypedFuncCall, UntypedValue};
use wasm_wave::value::Type;
use wasm_wave::wasm::DisplayValue;
use wasm_wave::writer::{Writer, WriterError};
use wasm_wave::{from_str, to_string};
use wave_example_settings::bare::Bare;

/// The text that the writer, `to_string` and the display give of the value; none where the first two refuse
/// it as one that has no text, and its display fails.
fn written(rt: HostRuntime, val: &Bare) -> Result<Option<String>, Fail> {
    let mut writer = Writer::new(String::new(rt.alloc()));
    let answer = writer.write_value(rt.alloc(), val);
    let out = writer.into_inner();
    let shown = format!(in rt.alloc(); "{}", DisplayValue::new(rt.alloc(), val));
    let text = to_string(rt.alloc(), val);
    match answer {
        Ok(()) => {
            let (text, shown) = (text?, shown?);
            if text.as_str() == shown.as_str() && text.as_str() == out.as_str() {
                return Ok(Some(out));
            }
        }
        Err(WriterError::UnsupportedType) => {
            if let (Err(WriterError::UnsupportedType), Err(_)) = (text, shown) {
                return Ok(None);
            }
        }
        Err(_) => {}
    }
    Err(Fail::new("written in several ways"))
}

#[test]
fn values_are_written(rt: HostRuntime) -> Result<(), Fail> {
    let mut val = Bare::Unsupported;
    for depth in 0..6 {
        if written(rt, &val)?.is_some() {
            return Err(Fail::new(depth));
        }
        val = Bare::List(Vec::from_array(rt.alloc(), [val])?);
    }
    let (first, second) = (Vec::new(rt.alloc()), Vec::new(rt.alloc()));
    let items = Vec::from_array(rt.alloc(), [Bare::List(first), Bare::List(second)])?;
    let within = Bare::List(Vec::from_array(rt.alloc(), [Bare::Fixed(items)])?);
    match written(rt, &within)? {
        Some(text) => assert_eq!(rt; text.as_str(), "[[[], []]]"),
        None => return Err(Fail::new("no text")),
    }
    let unwritable = Bare::Fixed(Vec::from_array(rt.alloc(), [within, Bare::Unsupported])?);
    assert!(rt; written(rt, &unwritable)?.is_none());
    Ok(())
}

/// What the answer is: the text of the value, or the refusal's words and place.
fn reported(rt: HostRuntime, answer: Result<Bare, ParserError>) -> Result<String, Fail> {
    match answer {
        Ok(val) => Ok(to_string(rt.alloc(), &val)?),
        Err(error) => Ok(format!(in rt.alloc(); "{error}")?),
    }
}

/// A type, a text and its answer.
const ROWS: [(&str, &str, &str); 9] = [
    // Lists of lists.
    ("list<list<u8>>", "[[], []]", "[[], []]"),
    ("list<u8>", "[]", "[]"),
    ("list<list<list<u8>>>", "[[[], ], []]", "[[[]], []]"),
    // Lists of fixed length.
    ("list<list<u8>, 2>", "[[], []]", "[[], []]"),
    (
        "list<list<u8>, 2>",
        "[[]]",
        "error converting Wasm value: expected 2 list elements; got 1 at 0..4",
    ),
    // Refused by constructors.
    (
        "u8",
        "1",
        "error converting Wasm value: unsupported type u8 at 0..1",
    ),
    (
        "list<list<u8>>",
        "[[], [1]]",
        "error converting Wasm value: unsupported type u8 at 6..7",
    ),
    (
        "list<tuple<list<u8>>>",
        "[ ([])]",
        "error converting Wasm value: unsupported type tuple at 2..6",
    ),
    (
        "option<list<u8>>",
        "none",
        "error converting Wasm value: unsupported type option at 0..4",
    ),
];

#[test]
fn texts(rt: HostRuntime) -> Result<(), Fail> {
    for row in &ROWS {
        let (ty, text, expected) = *row;
        let ty = Type::parse(rt.alloc(), ty)?;
        let found = reported(rt, from_str(rt.alloc(), &ty, text))?;
        let value = UntypedValue::parse(rt.alloc(), text)?;
        let late = reported(rt, value.to_wasm_value(rt.alloc(), &ty))?;
        if found.as_str() != expected || late.as_str() != expected {
            return Err(Fail::new(format_args!("{text} gives {found} and {late}")));
        }
    }
    Ok(())
}

/// The types of parameters, a call, and how many parameters it has or its refusal.
const CALLS: [(&[&str], &str, &str); 4] = [
    (
        &["option<u8>"],
        "go()",
        "error converting Wasm value: unsupported type option at 0..2",
    ),
    (
        &["u8"],
        "f(1)",
        "error converting Wasm value: unsupported type u8 at 2..3",
    ),
    (&["list<u8>"], "f([])", "1"),
    (
        &["list<u8>", "option<u8>"],
        "go( [])",
        "error converting Wasm value: unsupported type option at 2..7",
    ),
];

#[test]
fn calls(rt: HostRuntime) -> Result<(), Fail> {
    for row in &CALLS {
        let (names, text, expected) = *row;
        let mut types = Vec::new(rt.alloc());
        for name in names {
            types.push(Type::parse(rt.alloc(), name)?)?;
        }
        let call = UntypedFuncCall::parse(rt.alloc(), text)?;
        let found = match call.to_wasm_params::<Bare>(rt.alloc(), types.as_slice()) {
            Ok(vals) => format!(in rt.alloc(); "{}", vals.len())?,
            Err(error) => format!(in rt.alloc(); "{error}")?,
        };
        assert_eq!(rt; found.as_str(), expected);
    }
    Ok(())
}
