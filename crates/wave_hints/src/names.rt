//! The names that there are, and the one that is nearest to a name that isn't among them.
use crate::author::SHOWN;
use std::alloc::{AllocError, Global};
use strsim::levenshtein;
use wave_place::path::push_first;
use wave_wasm::wasm::{DisplayType, WasmType};

/// How many names are listed.
const LISTED: usize = 10;

/// How many edits lead at most from a name to one that may be meant.
const MOST_EDITS: usize = 2;

/// Adds two lines: that there is no `what` of this name and which one may be meant, and the names that
/// there are.
pub(crate) fn push_names(
    alloc: Global,
    lines: &mut String,
    what: &str,
    name: &str,
    names: &Vec<&str>,
) -> Result<(), AllocError> {
    lines.push_str("  = unknown ")?;
    lines.push_str(what)?;
    push_quoted(lines, " ", name)?;
    if let Some(near) = nearest(alloc, name, names)? {
        push_quoted(lines, "; did you mean ", near)?;
        lines.push('?')?;
    }
    if !names.is_empty() {
        lines.push_str("\n  = ")?;
        lines.push_str(what)?;
        lines.push_str("s: ")?;
        for (i, name) in names.iter().take(LISTED).enumerate() {
            if i > 0 {
                lines.push_str(", ")?;
            }
            push_first(lines, name, SHOWN)?;
        }
        if names.len() > LISTED {
            lines.push_str(", …")?;
        }
    }
    lines.push_str("\n")
}

/// Adds the name in quotes behind this.
pub(crate) fn push_quoted(lines: &mut String, before: &str, name: &str) -> Result<(), AllocError> {
    lines.push_str(before)?;
    lines.push_str("\"")?;
    push_first(lines, name, SHOWN)?;
    lines.push_str("\"")
}

/// A line that says that this is missing, and its type.
pub(crate) fn missing_line<T: WasmType>(
    alloc: Global,
    what: &str,
    ty: &T,
) -> Result<String, AllocError> {
    let text = DisplayType::new(alloc, ty).to_string(alloc)?;
    let mut line = String::from_str(alloc, "  = ")?;
    line.push_str(what)?;
    line.push_str(" of type ")?;
    push_first(&mut line, text.as_str(), SHOWN)?;
    line.push_str(" is missing\n")?;
    Ok(line)
}

/// The first of those names that differs only in capitals; else the first of those that the fewest edits lead
/// to, at most two, and fewer than the name has bytes.
fn nearest<'a>(
    alloc: Global,
    name: &str,
    names: &Vec<&'a str>,
) -> Result<Option<&'a str>, AllocError> {
    let mut best = None;
    let mut most = MOST_EDITS.min(name.len().saturating_sub(1));
    for other in names {
        if name.eq_ignore_ascii_case(*other) {
            return Ok(Some(*other));
        }
        if name.len().abs_diff(other.len()) <= MOST_EDITS {
            let edits = levenshtein(alloc, name, other)?;
            if 0 < edits && edits <= most {
                best = Some(*other);
                most = edits - 1;
            }
        }
    }
    Ok(best)
}
