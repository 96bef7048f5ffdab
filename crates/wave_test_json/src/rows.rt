//! Rows of types, values and their JSON.
use std::test::Fail;
use wave_json::decode::from_json;
use wave_json::encode::to_json;
use wave_tree::from_str;
use wave_type::ty::Type;
use wave_value::value::Value;
use wave_writer::writer::to_string;

/// A type, a value's text, and its JSON.
const VALUES: [(&str, &str, &str); 40] = [
    ("bool", "true", "true"),
    ("bool", "false", "false"),
    ("u8", "255", "255"),
    ("s8", "-128", "-128"),
    ("u64", "18446744073709551615", "18446744073709551615"),
    ("s64", "-9223372036854775808", "-9223372036854775808"),
    ("char", "'x'", "\"x\""),
    ("char", "'\\u{1f600}'", "\"\u{1f600}\""),
    ("string", "\"a\\\"b\\n\"", "\"a\\\"b\\n\""),
    ("list<u8>", "[]", "[]"),
    ("list<u8>", "[1, 2]", "[1,2]"),
    ("list<bool, 2>", "[true, false]", "[true,false]"),
    ("tuple<u8, string>", "(1, \"a\")", "[1,\"a\"]"),
    ("tuple<list<list<u8>>>", "([[], [3]])", "[[[],[3]]]"),
    ("record { a: u8 }", "{a: 1}", "{\"a\":1}"),
    ("record { a: option<u8>, b: u8 }", "{b: 1}", "{\"b\":1}"),
    (
        "record { a: option<u8>, b: list<enum { x, y }> }",
        "{a: some(1), b: [x]}",
        "{\"a\":1,\"b\":[\"x\"]}",
    ),
    ("record { a: option<option<u8>> }", "{:}", "{}"),
    (
        "record { a: option<option<u8>> }",
        "{a: some(none)}",
        "{\"a\":{\"some\":null}}",
    ),
    ("enum { x, y }", "y", "\"y\""),
    ("variant { n, c(u8) }", "n", "\"n\""),
    ("variant { n, c(u8) }", "c(7)", "{\"c\":7}"),
    (
        "variant { some(option<u8>) }",
        "%some(none)",
        "{\"some\":null}",
    ),
    ("option<u8>", "none", "null"),
    ("option<u8>", "some(1)", "1"),
    ("option<option<u8>>", "none", "null"),
    ("option<option<u8>>", "some(none)", "{\"some\":null}"),
    ("option<option<u8>>", "some(some(1))", "{\"some\":1}"),
    (
        "option<option<option<u8>>>",
        "some(some(none))",
        "{\"some\":{\"some\":null}}",
    ),
    ("option<list<u8>>", "some([])", "[]"),
    ("result<u8>", "ok(1)", "{\"ok\":1}"),
    ("result<u8>", "err", "\"err\""),
    ("result<_, string>", "err(\"no\")", "{\"err\":\"no\"}"),
    ("result", "ok", "\"ok\""),
    ("flags { r, w, x }", "{w, r}", "[\"r\",\"w\"]"),
    ("flags { r, w, x }", "{}", "[]"),
    ("map<s8, bool>", "{-1: true}", "[[-1,true]]"),
    (
        "map<string, u8>",
        "{\"b\": 1, \"a\": 2, \"b\": 3}",
        "{\"b\":3,\"a\":2}",
    ),
    ("map<string, u8>", "{:}", "{}"),
    (
        "map<char, u8>",
        "{'x': 1, 'y': 2, 'x': 3}",
        "[[\"x\",3],[\"y\",2]]",
    ),
];

/// Each value has its JSON, and is read of it again.
#[test]
fn values(rt: HostRuntime) -> Result<(), Fail> {
    for row in &VALUES {
        let (ty, text, expected) = *row;
        let ty = Type::parse(rt.alloc(), ty)?;
        let val: Value = from_str(rt.alloc(), &ty, text)?;
        let found = to_json(rt.alloc(), &val)?;
        if found.as_str() != expected {
            return Err(Fail::new(format_args!("{text} has {found}")));
        }
        let canonical = to_string(rt.alloc(), &val)?;
        let again: Value = match from_json(rt.alloc(), &ty, found.as_str()) {
            Ok(val) => val,
            Err(error) => return Err(Fail::new(format_args!("{found}: {error}"))),
        };
        let again = to_string(rt.alloc(), &again)?;
        if again.as_str() != canonical.as_str() {
            return Err(Fail::new(format_args!("{found} is read as {again}")));
        }
    }
    Ok(())
}

/// A type, JSON, and the canonical text of what it is read as, or the refusal.
const TEXTS: [(&str, &str, &str); 62] = [
    // Space, escapes, order, what is left out.
    ("list<u8>", " [ 1 ,\n2 ] ", "[1, 2]"),
    ("string", "\"\\u0041\\ud83d\\ude00\"", "\"A\u{1f600}\""),
    (
        "record { a: u8, b: u8 }",
        "{\"b\":2,\"a\":1}",
        "{a: 1, b: 2}",
    ),
    ("record { a: option<u8> }", "{\"a\":null}", "{:}"),
    ("record { a: option<u8> }", "{}", "{:}"),
    ("record { a: option<option<u8>> }", "{\"a\":null}", "{:}"),
    ("flags { r, w, x }", "[\"x\",\"r\"]", "{r, x}"),
    ("map<u8, u8>", "{}", "{}"),
    ("map<u8, u8>", "[]", "{}"),
    ("s8", "-0", "0"),
    // No JSON.
    ("u8", "", "invalid JSON at 0: "),
    ("u8", "1 2", "invalid JSON at 2: "),
    ("u8", "01", "invalid JSON at 0: "),
    ("list<u8>", "[1,]", "invalid JSON at 3: "),
    ("list<u8>", "[1", "invalid JSON at 2: "),
    // Kinds.
    ("u8", "\"1\"", "unexpected kind of JSON at 0: "),
    ("bool", "1", "unexpected kind of JSON at 0: "),
    ("string", "null", "unexpected kind of JSON at 0: "),
    ("list<u8>", "[1,\"2\"]", "unexpected kind of JSON at 3: [1]"),
    ("list<u8>", "{}", "unexpected kind of JSON at 0: "),
    ("record { a: u8 }", "[1]", "unexpected kind of JSON at 0: "),
    ("map<string, u8>", "[]", "unexpected kind of JSON at 0: "),
    ("map<u8, u8>", "{\"a\":1}", "unexpected kind of JSON at 0: "),
    ("option<option<u8>>", "1", "unexpected kind of JSON at 0: "),
    ("variant { a }", "{}", "unexpected kind of JSON at 0: "),
    (
        "variant { a, b }",
        "{\"a\":1,\"b\":2}",
        "unexpected kind of JSON at 0: ",
    ),
    (
        "record { a: u8 }",
        "{\"a\":null}",
        "unexpected kind of JSON at 5: .a",
    ),
    // Numbers and chars.
    ("u8", "256", "no whole number in range at 0: "),
    ("u8", "-1", "no whole number in range at 0: "),
    ("u8", "-0", "no whole number in range at 0: "),
    ("s8", "128", "no whole number in range at 0: "),
    ("s8", "-129", "no whole number in range at 0: "),
    (
        "s64",
        "9223372036854775808",
        "no whole number in range at 0: ",
    ),
    (
        "u64",
        "18446744073709551616",
        "no whole number in range at 0: ",
    ),
    ("u8", "1.0", "no whole number in range at 0: "),
    ("u8", "1e0", "no whole number in range at 0: "),
    ("char", "\"\"", "not one character at 0: "),
    ("char", "\"ab\"", "not one character at 0: "),
    // Numbers of items.
    ("tuple<u8, u8>", "[1]", "wrong number of items at 0: "),
    ("tuple<u8, u8>", "[1,2,3]", "wrong number of items at 0: "),
    ("list<u8, 2>", "[1,2,3]", "wrong number of items at 0: "),
    ("map<u8, u8>", "[[1]]", "wrong number of items at 1: [0]"),
    // Names.
    ("enum { x }", "\"y\"", "unknown name at 0: "),
    ("variant { x }", "\"y\"", "unknown name at 0: "),
    ("result", "\"oh\"", "unknown name at 0: "),
    ("flags { r }", "[\"r\", \"w\"]", "unknown name at 6: [1]"),
    (
        "flags { r }",
        "[\"r\", \"r\"]",
        "repeated name or key at 6: [1]",
    ),
    (
        "record { a: u8 }",
        "{\"a\":1, \"b\":2}",
        "unknown name at 8: .b",
    ),
    (
        "record { a: u8 }",
        "{\"a\":1, \"a\":2}",
        "repeated name or key at 8: .a",
    ),
    (
        "map<string, u8>",
        "{\"a\":1, \"b\":2, \"a\":2}",
        "repeated name or key at 15: .a",
    ),
    (
        "map<u8, u8>",
        "[[1,2],[1,3]]",
        "repeated name or key at 7: [1]",
    ),
    (
        "record { a: u8, b: u8 }",
        "{\"b\":1}",
        "missing field at 0: .a",
    ),
    // Payloads.
    (
        "variant { a(u8) }",
        "\"a\"",
        "missing or unexpected payload at 0: ",
    ),
    (
        "variant { a }",
        "{\"a\":1}",
        "missing or unexpected payload at 0: ",
    ),
    (
        "result<u8>",
        "\"ok\"",
        "missing or unexpected payload at 0: ",
    ),
    (
        "result",
        "{\"ok\":null}",
        "missing or unexpected payload at 0: ",
    ),
    // Paths.
    (
        "record { servers: list<record { port: u16 }> }",
        "{\"servers\": [{\"port\": 1}, {\"port\": 2}, {\"port\": 65536}]}",
        "no whole number in range at 48: .servers[2].port",
    ),
    (
        "record { servers: list<record { port: u16 }> }",
        "{\"servers\": [{\"port\": 1}, {}]}",
        "missing field at 26: .servers[1].port",
    ),
    (
        "option<option<tuple<u8>>>",
        "{\"some\":[true]}",
        "unexpected kind of JSON at 9: .some[0]",
    ),
    (
        "map<u8, list<u8>>",
        "[[1,[]], [2,[3,false]]]",
        "unexpected kind of JSON at 15: [1][1][1]",
    ),
    (
        "variant { c(result<u8>) }",
        "{\"c\":{\"ok\":\"\"}}",
        "unexpected kind of JSON at 11: .c.ok",
    ),
    (
        "map<string, u8>",
        "{\"a b\":-1}",
        "no whole number in range at 7: .a b",
    ),
];

#[test]
fn texts(rt: HostRuntime) -> Result<(), Fail> {
    for row in &TEXTS {
        let (name, text, expected) = *row;
        let ty = Type::parse(rt.alloc(), name)?;
        let found = match from_json::<Value>(rt.alloc(), &ty, text) {
            Ok(val) => to_string(rt.alloc(), &val)?,
            Err(error) => format!(in rt.alloc(); "{error}")?,
        };
        if found.as_str() != expected {
            return Err(Fail::new(format_args!("{text} at {name} is {found}")));
        }
    }
    Ok(())
}
