//! Where a part of a text of JSON stands.
use crate::error::JsonErrorKind;
use json::{MAX_DEPTH, Reader, Scratch, Token};
use std::alloc::Global;

/// How many bytes of the text stand before the part to which these places lead, the outermost last; before the
/// name of a member that is unknown or repeated; before what is no JSON. 0 where memory is refused.
pub(crate) fn place_of(alloc: Global, text: &str, places: &[usize], kind: JsonErrorKind) -> usize {
    let mut scratch = Scratch::new(alloc);
    let Ok(mut reader) = Reader::new(text, &mut scratch) else {
        return 0;
    };
    if kind == JsonErrorKind::Syntax {
        let _ = reader.skip_value(MAX_DEPTH);
        return reader.offset();
    }
    let last = if kind == JsonErrorKind::Missing { 1 } else { 0 };
    let at_name = kind == JsonErrorKind::Unknown || kind == JsonErrorKind::Repeated;
    let mut left = places.len();
    while left > last {
        left -= 1;
        if !step_in(&mut reader, places[left], at_name && left == 0) {
            break;
        }
    }
    reader.offset()
}

/// Goes on to the part at this place of an array or an object, or to its name; false where there is none.
fn step_in(reader: &mut Reader<'_>, place: usize, at_name: bool) -> bool {
    match reader.next() {
        Some(Token::BeginArray) => skip_items(reader, place),
        Some(Token::BeginObject) => skip_members(reader, place, at_name),
        _ => false,
    }
}

/// Passes so many items.
fn skip_items(reader: &mut Reader<'_>, count: usize) -> bool {
    for _ in 0..count {
        if reader.skip_value(MAX_DEPTH).is_err() {
            return false;
        }
    }
    true
}

/// Passes so many members, and the name of the next one unless that is sought.
fn skip_members(reader: &mut Reader<'_>, count: usize, at_name: bool) -> bool {
    for _ in 0..count {
        if reader.next_key().is_err() || reader.skip_value(MAX_DEPTH).is_err() {
            return false;
        }
    }
    at_name || reader.next_key().is_ok()
}
