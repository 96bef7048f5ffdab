//! Names as they are owned and as they are lent.
ghost use Rattle.std.specs.Prelude.{◌≡◌, IfOk, map, string_bytes};
ghost use Rattle.std.specs.List.{list_any};
ghost use Rattle.std.specs.Str.{bytes_eq};
ghost use Rattle.wave_wasm.specs.Borrowed.{texts};

use std::alloc::{AllocError, Global};

// Copies of the names, in their order.
pub fn owned(alloc: Global, names: &[&str]) -> Result<Vec<String>, AllocError>
    ensures { IfOk result (λ v. map string_bytes v.items ≡ texts names.now) }
{
    let mut answer = Vec::new(alloc);
    for name in names {
        answer.push(String::from_str(alloc, *name)?)?;
    }
    Ok(answer)
}

// The names as texts, in their order.
pub fn borrowed(alloc: Global, names: &Vec<String>) -> Result<Vec<&str>, AllocError>
    ensures { IfOk result (λ v. texts v.items ≡ map string_bytes names.now.items) }
{
    let mut answer = Vec::new(alloc);
    for name in names {
        answer.push(name.as_str())?;
    }
    Ok(answer)
}

// Whether the name is one of the names.
pub fn contain(names: &Vec<String>, name: &str) -> bool
    ensures { result ≡ list_any (λ other. bytes_eq name.now (string_bytes other)) names.now.items }
{
    names.iter().any(|other| name == other.as_str())
}
