//! Runs of bytes that stand for themselves between quotes.
ghost use Rattle.std.specs.Prelude.{◌≡◌, ℕ, ◌≤◌, ◌<◌, true, false, length, slice_index};
ghost use Rattle.wave_wasm.specs.TextParts.{is_plain_byte};

use std::simd::prelude::*;
use wave_wasm::byte_runs::{ByteSet, run_of};

/// The bytes of ASCII that stand for themselves between quotes.
struct Plain;

impl ByteSet for Plain {
    ghost use Rattle.wave_wasm.specs.TextParts.{is_plain_byte};

    ghost holds = { is_plain_byte };

    #[inline(always)]
    fn others(bytes: u8x16) -> u64 {
        let quotes = bytes.simd_eq(u8x16::splat(b'"')) | bytes.simd_eq(u8x16::splat(b'\''));
        let marks = quotes | bytes.simd_eq(u8x16::splat(b'\\'));
        let outside = bytes.simd_lt(u8x16::splat(b' ')) | bytes.simd_gt(u8x16::splat(b'~'));
        (marks | outside).to_bitmask()
    }

    #[inline(always)]
    fn has(byte: u8) -> bool {
        PLAINS[byte as usize] == b'.'
    }
}

/// A point at the place of each byte of ASCII that stands for itself between quotes, and a comma at every
/// other.
static PLAINS: [u8; 256] = *b"\
    ,,,,,,,,,,,,,,,,,,,,,,,,,,,,,,,,\
    ..,....,........................\
    ............................,...\
    ...............................,\
    ,,,,,,,,,,,,,,,,,,,,,,,,,,,,,,,,\
    ,,,,,,,,,,,,,,,,,,,,,,,,,,,,,,,,\
    ,,,,,,,,,,,,,,,,,,,,,,,,,,,,,,,,\
    ,,,,,,,,,,,,,,,,,,,,,,,,,,,,,,,,";

/// Where the bytes of ASCII from a place on that stand for themselves between quotes end: the place of
/// the first other byte, or of the end.
pub fn plain_end(bytes: &[u8], from: usize) -> usize
    requires { from ≤ length bytes.now }
    ensures within { (from ≤ result) × (result ≤ length bytes.now) }
    ensures plain { (i : ℕ) → from ≤ i → i < result → is_plain_byte (slice_index bytes.now i) ≡ true }
    ensures longest { result < length bytes.now → is_plain_byte (slice_index bytes.now result) ≡ false }
{
    if from < bytes.len() && !Plain::has(bytes[from]) {
        return from;
    }
    from + run_of::<Plain>(&bytes[from..])
}
