//! How far a text goes on in bytes of a set, sixteen bytes at a time.
ghost use Rattle.std.specs.Prelude.{◌≡◌, ℕ, ◌<◌, ◌≤◌, true, length, slice_index};
ghost use Rattle.wave_wasm.specs.ByteRuns.{IsRunOf};

use std::simd::prelude::*;

/// How many bytes are looked at at once.
const LANES: usize = 16;

/// A set of bytes.
pub trait ByteSet {
    ghost use Rattle.std.specs.Prelude.{◌≡◌, ℕ, Bool, not, map};
    ghost use Rattle.std.specs.Simd.Lanes.{mask_l};

    /// Whether a byte is in the set.
    ghost holds: { ℕ → Bool };

    /// A bit for each byte, the lowest for the first; set where the byte is not in the set.
    fn others(bytes: u8x16) -> u64
        ensures { result ≡ mask_l (map (λ b. not (holds b)) bytes) };

    /// Whether the byte is in the set.
    fn has(byte: u8) -> bool
        ensures { result ≡ holds byte };
}

/// How many bytes at the start are in the set.
#[inline(always)]
pub fn run_of<S: ByteSet>(bytes: &[u8]) -> usize
    ensures { IsRunOf S.holds bytes.now result }
{
    if bytes.len() < LANES {
        return short_run::<S>(bytes);
    }
    let mut at = 0;
    while at < bytes.len() {
        // the last sixteen may be some that were looked at
        let start = at.min(bytes.len() - LANES);
        let others = S::others(u8x16::from_slice(&bytes[start..]));
        if others != 0 {
            return start + others.trailing_zeros() as usize;
        }
        at = start + LANES;
    }
    bytes.len()
}

/// The same of a text that is looked at byte by byte.
fn short_run<S: ByteSet>(bytes: &[u8]) -> usize
    ensures { IsRunOf S.holds bytes.now result }
{
    for at in 0..bytes.len() {
        if !S::has(bytes[at]) {
            return at;
        }
    }
    bytes.len()
}
