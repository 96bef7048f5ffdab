//! Texts that are read in each way and truncated: each prefix of a text is a value, or refused within itself.
//! That a span lies in the text is proved; here a built program fails that reads past the end of a prefix, that
//! answers a place there, or that is out of memory on a text.
use crate::reading::read_late;
use std::alloc::Global;
use wasm_wave::from_str;
use wasm_wave::parser::{ParserError, ParserErrorKind};
use wasm_wave::untyped::{UntypedFuncCall, UntypedValue};
use wasm_wave::value::{Type, Value};

/// Whether the text means the same value where it is read without the type at first, or is refused
/// both times, though not for memory.
pub fn is_read_alike(alloc: Global, ty: &Type, text: &str) -> bool {
    let end = text.len();
    match (
        from_str::<Value>(alloc, ty, text),
        read_late(alloc, ty, text),
    ) {
        (Ok(one), Ok(other)) => one == other,
        (Err(one), Err(other)) => lies_within(Some(one), end) && lies_within(Some(other), end),
        _ => false,
    }
}

/// Whether each prefix of the text is answered as it should be at the type, without a type, and as a call:
/// each refusal is one of the prefix, with its span within it.
pub fn is_reported_at_each_cut(alloc: Global, ty: &Type, text: &str) -> bool {
    for end in 0..text.len() {
        if text.is_char_boundary(end) {
            let text = &text[..end];
            if !lies_within(from_str::<Value>(alloc, ty, text).err(), end)
                || !lies_within(UntypedValue::parse(alloc, text).err(), end)
                || !lies_within(UntypedFuncCall::parse(alloc, text).err(), end)
            {
                return false;
            }
        }
    }
    true
}

/// Whether there is no refusal, or it is not for memory and its span ends by this place.
fn lies_within(error: Option<ParserError>, end: usize) -> bool {
    match error {
        Some(error) => {
            let span = error.span();
            error.kind() != ParserErrorKind::OutOfMemory
                && span.start <= span.end
                && span.end <= end
        }
        None => true,
    }
}
