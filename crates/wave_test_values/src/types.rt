//! Types by their texts, and calls on them.
use crate::answer::{Stopped, refused, shown, word};
use std::alloc::{AllocError, Global};
use wave_type::error::TypeErrorKind;
use wave_type::func::FuncType;
use wave_type::ty::Type;
use wave_wasm::wasm::{DisplayType, WasmType, WasmTypeKind, ensure_type_kind};

/// The type of the text, as it is displayed.
pub fn type_of(alloc: Global, text: &str) -> Result<Type, TypeErrorKind> {
    if let Some(ty) = unspelled(alloc, text)? {
        return Ok(ty);
    }
    match Type::parse(alloc, text) {
        Ok(ty) => Ok(ty),
        Err(error) => Err(error.kind()),
    }
}

/// The type that is displayed so, where it is one of those of the rows that no text spells: a name
/// stands twice in it, or is no label. One of more levels than a text of a type may have is named in words.
fn unspelled(alloc: Global, text: &str) -> Result<Option<Type>, AllocError> {
    match text {
        "enum { A b }" => Type::enum_ty(alloc, &["A b"]),
        "option<enum { A b, c  d, _, 1, %e }>" => {
            match Type::enum_ty(alloc, &["A b", "c  d", "_", "1", "%e"])? {
                Some(ty) => Ok(Some(Type::option(alloc, ty)?)),
                None => Ok(None),
            }
        }
        "flags { a, a }" => Type::flags(alloc, &["a", "a"]),
        "flags { aB, c }" => Type::flags(alloc, &["aB", "c"]),
        "flags { read, read }" => Type::flags(alloc, &["read", "read"]),
        "record { a: u8, a: u8 }" => {
            let fields = [("a", Type::U8), ("a", Type::U8)];
            Type::record(alloc, Vec::from_array(alloc, fields)?)
        }
        "record { a: u8, a: u8, b: u8 }" => {
            let fields = [("a", Type::U8), ("a", Type::U8), ("b", Type::U8)];
            Type::record(alloc, Vec::from_array(alloc, fields)?)
        }
        "59 lists of options" => Ok(Some(lists_of_options(alloc)?)),
        _ => variant(alloc, text),
    }
}

/// The variant that is displayed so, where it is one of those of the rows.
fn variant(alloc: Global, text: &str) -> Result<Option<Type>, AllocError> {
    let byte = Some(Type::U8);
    let cases = match text {
        "variant { a, a(u8) }" => Vec::from_array(alloc, [("a", None), ("a", byte)])?,
        "variant { on, on(u8) }" => Vec::from_array(alloc, [("on", None), ("on", byte)])?,
        "variant { off, on(enum { A b }) }" => {
            let payload = Type::enum_ty(alloc, &["A b"])?;
            Vec::from_array(alloc, [("off", None), ("on", payload)])?
        }
        "variant { result(result), u8, map(map<u8, tuple<u8>>), _ }" => {
            let result = Type::result(alloc, None, None)?;
            let map = match Type::tuple(alloc, Vec::from_array(alloc, [Type::U8])?)? {
                Some(ty) => Type::map(alloc, Type::U8, ty)?,
                None => None,
            };
            let payloads = [
                ("result", Some(result)),
                ("u8", None),
                ("map", map),
                ("_", None),
            ];
            Vec::from_array(alloc, payloads)?
        }
        _ => return Ok(None),
    };
    Type::variant(alloc, cases)
}

/// Lists of options of such lists, 59 of them around a list of bytes.
fn lists_of_options(alloc: Global) -> Result<Type, AllocError> {
    let mut ty = Type::list(alloc, Type::U8)?;
    for _ in 0..59 {
        ty = Type::list(alloc, Type::option(alloc, ty)?)?;
    }
    Ok(ty)
}

/// A call on a text that spells a type or no type, or that names a kind without parts.
pub fn of_text(rt: HostRuntime, name: &str, text: &str) -> Result<(), Stopped> {
    match name {
        "Type::parse" => shown(rt, Type::parse(rt.alloc(), text)),
        "FuncType::parse" => shown(rt, FuncType::parse(rt.alloc(), text)),
        "parsed again" => {
            let ty = type_of(rt.alloc(), text)?;
            let printed = ty.to_string(rt.alloc())?;
            let again = type_of(rt.alloc(), printed.as_str())?;
            print!(rt; "{printed} {} {}", again == ty, ty.names_are_labels())?;
            Ok(())
        }
        "empty" => match empty(rt.alloc(), text)? {
            Some(ty) => Ok(print!(rt; "{ty}")?),
            None => Ok(print!(rt; "none")?),
        },
        _ => {
            let item = Type::must_simple(WasmTypeKind::U8);
            let ty = Type::fixed_length_list(rt.alloc(), item, 4)?;
            let is_right = ty.list_element_type() == Some(&Type::U8) && ty.list_length() == Some(4);
            print!(rt; "{ty} {is_right}")?;
            Ok(())
        }
    }
}

/// The type, or the type of a function, of the first word, within as many levels as the second says.
pub fn within(rt: HostRuntime, name: &str, words: &[String]) -> Result<(), Stopped> {
    let text = word(words, 0);
    match word(words, 1).parse::<u32>() {
        Ok(levels) if name == "Type::parse_within" => {
            shown(rt, Type::parse_within(rt.alloc(), text, levels))
        }
        Ok(levels) => shown(rt, FuncType::parse_within(rt.alloc(), text, levels)),
        Err(_) => Err(Stopped::NoCall),
    }
}

/// The type of this kind that has no parts, where there is one; or of a map whose keys can't be.
fn empty(alloc: Global, kind: &str) -> Result<Option<Type>, AllocError> {
    match kind {
        "record" => Type::record(alloc, Vec::new(alloc)),
        "tuple" => Type::tuple(alloc, Vec::new(alloc)),
        "variant" => Type::variant(alloc, Vec::new(alloc)),
        "enum" => Type::enum_ty(alloc, &[]),
        "flags" => Type::flags(alloc, &[]),
        _ => Type::map(alloc, Type::F32, Type::U8),
    }
}

/// A call on the type that is the first word.
pub fn on_type(rt: HostRuntime, name: &str, words: &[String]) -> Result<(), Stopped> {
    let ty = type_of(rt.alloc(), word(words, 0))?;
    match name {
        "Type::clone" => {
            let copy = ty.clone()?;
            print!(rt; "{copy} {}", copy == ty)?;
        }
        "from_wasm_type" => match Type::from_wasm_type(rt.alloc(), &ty)? {
            Some(built) => print!(rt; "{built}")?,
            None => print!(rt; "none")?,
        },
        "DisplayType" => print!(rt; "{}", DisplayType::new(rt.alloc(), &ty))?,
        "ensure_type_kind" => {
            match ensure_type_kind(rt.alloc(), &ty, kind_of_word(word(words, 1))) {
                Ok(()) => print!(rt; "ok")?,
                Err(error) => refused(rt, &error)?,
            }
        }
        "Type::kind" => {
            let kind = ty.kind();
            let is_simple = Type::simple(kind) == Some(ty.clone()?);
            print!(rt; "{kind} {} {is_simple}", ty.names_are_labels())?;
        }
        _ => {
            let other = type_of(rt.alloc(), word(words, 1))?;
            print!(rt; "{}", ty == other)?;
        }
    }
    Ok(())
}

/// The kind of this word, one of those of the rows.
fn kind_of_word(word: &str) -> WasmTypeKind {
    match word {
        "list" => WasmTypeKind::List,
        "char" => WasmTypeKind::Char,
        _ => WasmTypeKind::FixedLengthList,
    }
}
