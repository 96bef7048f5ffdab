//! How a fault of the parameters of a call may be mended.
use crate::names::{missing_line, push_quoted};
use crate::rows::line;
use std::alloc::{AllocError, Global};
use wave_lex::error::{ParserError, ParserErrorKind};
use wave_place::path::push_first;
use wave_tree::untyped::UntypedFuncCall;
use wave_wasm::wasm::{DisplayType, WasmType, WasmTypeKind};

/// How many scalars of the parameters are shown.
const PARAMS_SHOWN: usize = 60;

/// The lines beside a refusal that no value of a parameter has: which parameter is missing, or that there
/// are too many values, and which parameters there are.
pub fn params_lines<T: WasmType>(
    alloc: Global,
    error: &ParserError,
    call: &UntypedFuncCall<'_>,
    types: &Vec<&T>,
    names: &Vec<&str>,
) -> Result<String, AllocError> {
    let mut lines = match (error.kind(), call.params_node()) {
        (ParserErrorKind::InvalidParams, Some(params)) => match params.as_tuple() {
            Ok(values) => count_line(alloc, values.len(), types, names)?,
            Err(_) => String::new(alloc),
        },
        (ParserErrorKind::InvalidParams, None) => count_line(alloc, 0, types, names)?,
        _ => String::new(alloc),
    };
    if !types.is_empty() {
        let text = params_text(alloc, types, names)?;
        lines.push_str("  = the parameters are ")?;
        push_first(&mut lines, text.as_str(), PARAMS_SHOWN)?;
        lines.push_str("\n")?;
    }
    Ok(lines)
}

/// The line that says how many parameters there are, where so many values are too many; or the first that
/// is missing, which is no option.
fn count_line<T: WasmType>(
    alloc: Global,
    given: usize,
    types: &Vec<&T>,
    names: &Vec<&str>,
) -> Result<String, AllocError> {
    if given > types.len() {
        let count = format!(in alloc; "{}", types.len())?;
        return match types.len() {
            0 => line(alloc, "the function has no parameters", None),
            1 => line(alloc, "the function has one parameter", None),
            _ => line(alloc, "the function has @ parameters", Some(count.as_str())),
        };
    }
    for i in given..types.len() {
        if types[i].kind() != WasmTypeKind::Option {
            let mut what = String::from_str(alloc, "parameter")?;
            match names.get(i) {
                Some(name) => push_quoted(&mut what, " ", name)?,
                None => what.push_str(format!(in alloc; " {}", i + 1)?.as_str())?,
            }
            return missing_line(alloc, what.as_str(), types[i]);
        }
    }
    Ok(String::new(alloc))
}

/// The parameters in parentheses, each after its name where it has one.
fn params_text<T: WasmType>(
    alloc: Global,
    types: &Vec<&T>,
    names: &Vec<&str>,
) -> Result<String, AllocError> {
    let mut text = String::from_str(alloc, "(")?;
    for (i, ty) in types.iter().enumerate() {
        if i > 0 {
            text.push_str(", ")?;
        }
        if let Some(name) = names.get(i) {
            text.push_str(name)?;
            text.push_str(": ")?;
        }
        let shown = DisplayType::new(alloc, *ty).to_string(alloc)?;
        text.push_str(shown.as_str())?;
    }
    text.push_str(")")?;
    Ok(text)
}
