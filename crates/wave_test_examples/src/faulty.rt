//! All faults of a text at a type.
use std::test::Fail;
use wasm_wave::faults::faults;
use wasm_wave::from_str;
use wasm_wave::untyped::UntypedValue;
use wasm_wave::value::{Type, Value};

/// The faults of the text at the type, one on a line.
fn told(rt: HostRuntime, ty: &Type, text: &str) -> Result<String, Fail> {
    let alloc = rt.alloc();
    let value = UntypedValue::parse(alloc, text)?;
    let mut lines = String::new(alloc);
    for error in faults(alloc, value.source(), value.node(), ty)? {
        lines.push_str(error.to_string(alloc)?.as_str())?;
        lines.push_str("\n")?;
    }
    Ok(lines)
}

#[test]
fn every_fault_is_told(rt: HostRuntime) -> Result<(), Fail> {
    let alloc = rt.alloc();
    for (ty, text, expected) in [
        (
            "list<u8>",
            "[1, 300, true, 2]",
            "invalid value at 4..7\ninvalid value type at 9..13\n",
        ),
        ("list<u8>", "[1, 2]", ""),
        ("u8", "[true]", "invalid value type at 0..6\n"),
        (
            "record { port: u16, name: string, on: bool }",
            "{port: 80800, nme: 1, 2: 3, port: true, nam: 4}",
            "invalid value at 7..12\ninvalid value at 0..47\ninvalid value type: expected a record field label at 22..23\nduplicate field: \"port\" at 28..32\ninvalid value type at 34..38\nerror converting Wasm value: missing field \"name\" at 0..47\nerror converting Wasm value: missing field \"on\" at 0..47\n",
        ),
        (
            "tuple<u8, string, bool>",
            "(-1, \"a\\u{d800}\")",
            "invalid value at 1..3\ninvalid character escape at 7..8\nerror converting Wasm value: expected 3 tuple elements; got 2 at 0..17\n",
        ),
        ("variant { a(u8), b }", "a(300)", "invalid value at 2..5\n"),
        (
            "variant { a(u8), b }",
            "c(1)",
            "error converting Wasm value: unknown case \"c\" at 0..4\n",
        ),
        (
            "option<list<bool>>",
            "[1, true, 2]",
            "invalid value type at 1..2\ninvalid value type at 10..11\n",
        ),
        (
            "result<u8>",
            "ok",
            "error converting Wasm value: missing payload for \"ok\" case at 0..2\n",
        ),
        (
            "flags { a, b }",
            "{c, a, d}",
            "error converting Wasm value: unknown case \"c\" at 0..9\nerror converting Wasm value: unknown case \"d\" at 0..9\n",
        ),
        (
            "map<u8, bool>",
            "{300: 1, x: true}",
            "invalid value at 1..4\ninvalid value type at 6..7\ninvalid value type: expected a u8 key, found a label at 9..10\n",
        ),
        (
            "list<u8, 2>",
            "[true]",
            "error converting Wasm value: expected 2 list elements; got 1 at 0..6\n",
        ),
    ] {
        let ty = match Type::parse(alloc, ty) {
            Ok(ty) => ty,
            Err(_) => return Err(Fail::new("no type")),
        };
        assert_eq!(rt; told(rt, &ty, text)?.as_str(), expected);
        match from_str::<Value>(alloc, &ty, text) {
            Ok(_) => assert_eq!(rt; expected, ""),
            Err(error) => assert!(rt; expected.starts_with(error.to_string(alloc)?.as_str())),
        }
    }
    Ok(())
}
