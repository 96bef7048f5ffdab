//! Texts that need no escape.
ghost use Rattle.std.specs.Prelude.{◌≡◌, ◌++◌, codes, true};
ghost use Rattle.wave_wasm.specs.Text.{quoted};

use std::simd::prelude::*;
use wave_wasm::byte_runs::{ByteSet, run_of};

/// The bytes of ASCII that stand for themselves between quotes.
struct Plain;

impl ByteSet for Plain {
    ghost use Rattle.wave_wasm.specs.TextParts.{is_plain_byte};

    ghost holds = { is_plain_byte };

    #[inline(always)]
    fn others(bytes: u8x16) -> u64 {
        let quotes = bytes.simd_eq(u8x16::splat(b'"')) | bytes.simd_eq(u8x16::splat(b'\''));
        let marks = quotes | bytes.simd_eq(u8x16::splat(b'\\'));
        let outside = bytes.simd_lt(u8x16::splat(b' ')) | bytes.simd_gt(u8x16::splat(b'~'));
        (marks | outside).to_bitmask()
    }

    #[inline(always)]
    fn has(byte: u8) -> bool {
        PLAINS[byte as usize] == b'.'
    }
}

/// A point at the place of each byte of ASCII that stands for itself between quotes, and a comma at every
/// other.
static PLAINS: [u8; 256] = *b"\
    ,,,,,,,,,,,,,,,,,,,,,,,,,,,,,,,,\
    ..,....,........................\
    ............................,...\
    ...............................,\
    ,,,,,,,,,,,,,,,,,,,,,,,,,,,,,,,,\
    ,,,,,,,,,,,,,,,,,,,,,,,,,,,,,,,,\
    ,,,,,,,,,,,,,,,,,,,,,,,,,,,,,,,,\
    ,,,,,,,,,,,,,,,,,,,,,,,,,,,,,,,,";

/// Whether each byte of the text stands for itself between quotes.
#[inline(always)]
pub(crate) fn is_plain(text: &str) -> bool
    ensures { result ≡ true → quoted text.now ≡ codes "\"" ++ (text.now ++ codes "\"") }
{
    let bytes = text.as_bytes();
    let run = run_of::<Plain>(bytes);
    run == bytes.len()
}
