//! The calls from code that the README and the calls' docs show.
use std::test::Fail;
use wasm_wave::value::{Type, Value};
use wasm_wave::{from_str, to_string};

#[test]
fn a_list_from_code(rt: HostRuntime) -> Result<(), Fail> {
    let alloc = rt.alloc();
    let ty = Type::list(alloc, Type::U8)?;
    let value = from_str::<Value>(alloc, &ty, "[1, 2, // two\n 3,]")?;
    assert_eq!(rt; to_string(alloc, &value)?.as_str(), "[1, 2, 3]");
    Ok(())
}

#[test]
fn a_char_and_a_refusal_from_code(rt: HostRuntime) -> Result<(), Fail> {
    let alloc = rt.alloc();
    let val = from_str::<Value>(alloc, &Type::CHAR, "'\\u{1F44B}'")?;
    assert!(rt; val == Value::from('👋'));
    assert_eq!(rt;
        to_string(alloc, &Value::from('\u{1F44B}'))?.as_str(),
        "'👋'"
    );
    let ty = Type::list(alloc, Type::U8)?;
    match from_str::<Value>(alloc, &ty, "[1, 300]") {
        Ok(_) => Err(Fail::new("taken")),
        Err(error) => {
            assert_eq!(rt; error.span().start, 4);
            assert_eq!(rt; error.to_string(alloc)?.as_str(), "invalid value at 4..7");
            Ok(())
        }
    }
}
