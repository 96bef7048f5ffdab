//! Flags that keep the order of their names, calls over them, and settings: read, made, changed and written.
use std::fmt::Display;
use std::test::Fail;
use wasm_wave::to_string;
use wasm_wave::untyped::UntypedValue;
use wasm_wave::value::Type;
use wasm_wave::wasm::{DisplayType, WasmTypeKind, WasmValue, ensure_type_kind};
use wave_example_flags::name_set::NameSet;
use wave_example_flags::ordered_flags::OrderedFlags;
use wave_example_settings::calls::answer;
use wave_example_settings::flags::read_flags;
use wave_example_settings::settings::{read, resized, settings_type, width};

/// The names, each with a blank after it, and the text; or the refusal.
fn reported<E: Display + Drop>(
    rt: HostRuntime,
    answer: Result<OrderedFlags, E>,
) -> Result<String, Fail> {
    let value = match answer {
        Ok(value) => value,
        Err(error) => return Ok(format!(in rt.alloc(); "{error}")?),
    };
    let mut shown = String::new(rt.alloc());
    for name in value.unwrap_flags(rt.alloc())? {
        shown.push_str(name)?;
        shown.push_str(" ")?;
    }
    shown.push_str(to_string(rt.alloc(), &value)?.as_str())?;
    Ok(shown)
}

#[test]
fn read_in_the_order_of_the_type(rt: HostRuntime) -> Result<(), Fail> {
    let ty = NameSet::new(rt.alloc(), &["read", "write", "exec"])?;
    for (text, expected) in [
        ("{write, exec}", "write exec {write, exec}"),
        ("{exec, write}", "write exec {write, exec}"),
        ("{%exec, write}", "write exec {write, exec}"),
        ("{}", "{}"),
        (
            "{nope}",
            "error converting Wasm value: unknown case \"nope\" at 0..6",
        ),
        ("{exec, exec}", "duplicate flag: \"exec\" at 7..11"),
        ("[]", "invalid value type at 0..2"),
    ] {
        let early = reported(rt, read_flags(rt.alloc(), &ty, text))?;
        let late = match UntypedValue::parse(rt.alloc(), text) {
            Ok(value) => reported(rt, value.to_wasm_value::<OrderedFlags>(rt.alloc(), &ty))?,
            Err(error) => format!(in rt.alloc(); "{error}")?,
        };
        assert_eq!(rt; early.as_str(), expected);
        assert_eq!(rt; late.as_str(), expected);
    }
    Ok(())
}

#[test]
fn built_in_the_order_of_the_names(rt: HostRuntime) -> Result<(), Fail> {
    let ty = NameSet::new(rt.alloc(), &["read", "write", "exec"])?;
    let rows: [(&[&str], &str); 4] = [
        (&["exec", "write"], "exec write {exec, write}"),
        (&["exec", "exec"], "a name stands twice"),
        (&["exec", "nope"], "unknown case \"nope\""),
        (&[], "{}"),
    ];
    for (names, expected) in rows {
        let found = reported(rt, OrderedFlags::make_flags(rt.alloc(), &ty, names))?;
        assert_eq!(rt; found.as_str(), expected);
    }
    let number = reported(rt, OrderedFlags::make_u8(rt.alloc(), 1))?;
    assert_eq!(rt; number.as_str(), "unsupported type u8");
    Ok(())
}

#[test]
fn types_of_names(rt: HostRuntime) -> Result<(), Fail> {
    let alloc = rt.alloc();
    let names = NameSet::new(alloc, &["read", "write", "exec"])?;
    let Some(ty) = Type::from_wasm_type(alloc, &names)? else {
        return Err(Fail::new("no type"));
    };
    assert_eq!(rt;
        ty.to_string(alloc)?.as_str(),
        "flags { read, write, exec }"
    );
    let shown = DisplayType::new(alloc, &names).to_string(alloc)?;
    assert_eq!(rt; shown.as_str(), "flags { read, write, exec }");
    assert!(rt; ensure_type_kind(alloc, &names, WasmTypeKind::Flags).is_ok());
    match ensure_type_kind(alloc, &names, WasmTypeKind::FixedLengthList) {
        Ok(()) => return Err(Fail::new("another kind")),
        Err(error) => assert_eq!(rt;
            error.to_string(alloc)?.as_str(),
            "expected a list<_,N>; got flags { read, write, exec }"
        ),
    }
    let names = NameSet::new(alloc, &[])?;
    assert!(rt; Type::from_wasm_type(alloc, &names)?.is_none());
    Ok(())
}

#[test]
fn calls_are_answered(rt: HostRuntime) -> Result<(), Fail> {
    let alloc = rt.alloc();
    let names = ["read", "write", "exec"];
    let first = NameSet::new(alloc, &names)?;
    let types = Vec::from_array(alloc, [first, NameSet::new(alloc, &names)?])?;
    let result = NameSet::new(alloc, &names)?;
    for (text, expected) in [
        ("join({exec, read}, {write, exec})", "{read, exec, write}"),
        ("meet({}, {})", "no such function"),
        (
            "join({exec}, {run})",
            "error converting Wasm value: unknown case \"run\" at 13..18",
        ),
    ] {
        let found = match answer(alloc, types.as_slice(), &result, text) {
            Ok(text) => text,
            Err(refusal) => refusal.to_string(alloc)?,
        };
        assert_eq!(rt; found.as_str(), expected);
    }
    Ok(())
}

#[test]
fn settings_are_viewed(rt: HostRuntime) -> Result<(), Fail> {
    let ty = settings_type(rt.alloc())?;
    let settings = read(rt.alloc(), &ty, "{width: 80, title: \"log\", shown: true}")?;
    match settings.kind() {
        WasmTypeKind::Record => assert_eq!(rt; width(rt.alloc(), &settings)?, Some(80)),
        _ => return Err(Fail::new("no record")),
    }
    Ok(())
}

#[test]
fn settings_are_changed(rt: HostRuntime) -> Result<(), Fail> {
    let alloc = rt.alloc();
    let ty = settings_type(alloc)?;
    for (text, expected) in [
        (
            "{shown: true, title: \"log\", width: 80}",
            "{title: \"log\", width: 132, shown: true}",
        ),
        (
            "{title: \"log\", width: wide, shown: true}",
            "invalid value type at 22..26",
        ),
    ] {
        let found = match resized(alloc, &ty, text, 132) {
            Ok(changed) => changed.text,
            Err(refusal) => refusal.to_string(alloc)?,
        };
        assert_eq!(rt; found.as_str(), expected);
    }
    Ok(())
}
