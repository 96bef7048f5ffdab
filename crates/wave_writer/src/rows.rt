//! The texts of short values that stand in turn, many at once.
ghost use Rattle.std.specs.Prelude.{◌≡◌, ◌-◌, ◌≤◌, ◌++◌, IfSome, codes, drop, map, true};
ghost use Rattle.std.specs.Fmt.{signed_decimal};
ghost use Rattle.std.specs.Str.{IsUtf8};
ghost use Rattle.wave_wasm.specs.Keywords.{case_label};
ghost use Rattle.wave_wasm.specs.Lists.{AllOf};
ghost use Rattle.wave_wasm.specs.CommaParts.{with_commas};
ghost use Rattle.wave_wasm.specs.TextParts.{whole_text};
ghost use Rattle.wave_wasm.specs.Text.{bool_text, has_text, text};

use crate::room::{ROOM, put_bytes};
use itoa::write_digits;
use wave_wasm::keyword::Keyword;
use wave_wasm::wasm::{WasmTypeKind, WasmValue};

/// How many values at least are put in a row.
pub const FEW: usize = 8;

/// How many at most.
pub const AT_ONCE: usize = 16;

/// How many bytes a whole number takes at most: a sign, 20 digits, a comma and a space.
const NUMBER: usize = 23;

/// Puts the texts of the items, each before a comma, at the end of the room, and returns where they start,
/// where all of them are bools, whole numbers and enums for which there is room.
pub fn fill_row<V: WasmValue>(items: &[&V], room: &mut [u8; ROOM]) -> Option<usize>
    ensures within { IfSome result (λ start. start ≤ 368) }
    ensures row { IfSome result (λ start. drop start room.new ≡ with_commas (map (λ v. text (V.tree v.now)) items.now)) }
    ensures utf8 { IfSome result (λ start. IsUtf8 (drop start room.new)) }
    ensures writable { IfSome result (λ start. AllOf (λ v. has_text (V.tree v.now) ≡ true) items.now) }
{
    let mut start = ROOM;
    for i in 0..items.len() {
        start = put_item(items[items.len() - 1 - i], room, start)?;
    }
    Some(start)
}

/// Puts the text of the item and a comma into the room so that they end at `end`, and returns where they
/// start.
#[inline(always)]
fn put_item<V: WasmValue>(item: &V, room: &mut [u8; ROOM], end: usize) -> Option<usize>
    requires { end ≤ 368 }
    ensures within { IfSome result (λ start. start ≤ end) }
    ensures put { IfSome result (λ start. drop start room.new ≡ text (V.tree item.now) ++ (codes ", " ++ drop end room.old)) }
    ensures utf8 { IfSome result (λ start. IsUtf8 (text (V.tree item.now))) }
    ensures writable { IfSome result (λ start. has_text (V.tree item.now) ≡ true) }
{
    match item.kind() {
        WasmTypeKind::Bool => put_bool(item.unwrap_bool(), room, end),
        WasmTypeKind::Enum => put_case(item.unwrap_enum(), room, end),
        WasmTypeKind::U8 => put_number(false, item.unwrap_u8() as u64, room, end),
        WasmTypeKind::U16 => put_number(false, item.unwrap_u16() as u64, room, end),
        WasmTypeKind::U32 => put_number(false, item.unwrap_u32() as u64, room, end),
        WasmTypeKind::U64 => put_number(false, item.unwrap_u64(), room, end),
        WasmTypeKind::S8 => put_signed(item.unwrap_s8() as i64, room, end),
        WasmTypeKind::S16 => put_signed(item.unwrap_s16() as i64, room, end),
        WasmTypeKind::S32 => put_signed(item.unwrap_s32() as i64, room, end),
        WasmTypeKind::S64 => put_signed(item.unwrap_s64(), room, end),
        _ => None,
    }
}

fn put_bool(val: bool, room: &mut [u8; ROOM], end: usize) -> Option<usize>
    requires { end ≤ 368 }
    ensures within { IfSome result (λ start. start ≤ end) }
    ensures put { IfSome result (λ start. drop start room.new ≡ bool_text val ++ (codes ", " ++ drop end room.old)) }
    ensures utf8 { IsUtf8 (bool_text val) }
{
    if val {
        put_text("true", room, end)
    } else {
        put_text("false", room, end)
    }
}

/// So the name of a case, after a `%` where it is a keyword. It stands apart, so that the loop over numbers
/// keeps its registers.
#[inline(never)]
fn put_case(case: &str, room: &mut [u8; ROOM], end: usize) -> Option<usize>
    requires { end ≤ 368 }
    ensures within { IfSome result (λ start. start ≤ end) }
    ensures put { IfSome result (λ start. drop start room.new ≡ case_label case.now ++ (codes ", " ++ drop end room.old)) }
    ensures utf8 { IsUtf8 (case_label case.now) }
{
    let start = put_text(case, room, end)?;
    match Keyword::decode(case) {
        Some(_) => {
            if start == 0 {
                return None;
            }
            room[start - 1] = b'%';
            Some(start - 1)
        }
        None => Some(start),
    }
}

/// So a text.
fn put_text(text: &str, room: &mut [u8; ROOM], end: usize) -> Option<usize>
    requires { end ≤ 368 }
    ensures within { IfSome result (λ start. start ≤ end) }
    ensures put { IfSome result (λ start. drop start room.new ≡ text.now ++ (codes ", " ++ drop end room.old)) }
{
    if end < 2 || end - 2 < text.len() {
        return None;
    }
    put_comma(room, end);
    let start = end - 2 - text.len();
    put_bytes(text.as_bytes(), room, start);
    Some(start)
}

/// So a whole number.
#[inline(always)]
fn put_signed(number: i64, room: &mut [u8; ROOM], end: usize) -> Option<usize>
    requires { end ≤ 368 }
    ensures within { IfSome result (λ start. start ≤ end) }
    ensures put { IfSome result (λ start. drop start room.new ≡ signed_decimal number ++ (codes ", " ++ drop end room.old)) }
    ensures utf8 { IsUtf8 (signed_decimal number) }
{
    put_number(number < 0, number.unsigned_abs(), room, end)
}

/// So a whole number, by its sign and its distance from zero.
#[inline(always)]
fn put_number(is_negative: bool, distance: u64, room: &mut [u8; ROOM], end: usize) -> Option<usize>
    requires { end ≤ 368 }
    ensures within { IfSome result (λ start. start ≤ end) }
    ensures put { IfSome result (λ start. drop start room.new ≡ whole_text is_negative distance ++ (codes ", " ++ drop end room.old)) }
    ensures utf8 { IsUtf8 (whole_text is_negative distance) }
{
    if end < NUMBER {
        return None;
    }
    put_comma(room, end);
    let start = write_digits(distance, room, end - 2);
    if !is_negative {
        return Some(start);
    }
    room[start - 1] = b'-';
    Some(start - 1)
}

/// Puts a comma and a space before `end`.
#[inline(always)]
fn put_comma(room: &mut [u8; ROOM], end: usize)
    requires { (2 ≤ end) × (end ≤ 368) }
    ensures { drop (end - 2) room.new ≡ codes ", " ++ drop end room.old }
{
    room[end - 1] = b' ';
    room[end - 2] = b',';
}
