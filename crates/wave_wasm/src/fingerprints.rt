//! Numbers that are made of texts, by which many texts are seen at once to be distinct.
ghost use Rattle.std.specs.Prelude.{◌≡◌, ◌≢◌, ◌↔◌, IsTrue};
ghost use Rattle.std.specs.List.{AllPairs};
ghost use Rattle.std.specs.List.Sorted.{IsStrictlyIncreasing};
ghost use Rattle.wave_wasm.specs.Fingerprints.{fingerprint};

use std::hash::{FoldHasher, Hasher};

/// A number that is made of the text: different texts have different ones, but for a rare case.
pub fn fingerprint(text: &str) -> u64
    ensures { result ≡ fingerprint text.now }
{
    let mut hasher = FoldHasher::default();
    hasher.write(text.as_bytes());
    hasher.finish()
}

/// Whether no number stands twice.
pub fn all_differ(mut numbers: Vec<u64>) -> bool
    ensures { IsTrue result ↔ AllPairs (λ x y. x ≢ y) numbers.items }
{
    numbers.sort_unstable();
    rise(&numbers)
}

/// Whether each number is below the next.
fn rise(numbers: &Vec<u64>) -> bool
    ensures { IsTrue result ↔ IsStrictlyIncreasing numbers.now.items }
{
    for i in 1..numbers.len() {
        if numbers[i - 1] >= numbers[i] {
            return false;
        }
    }
    true
}
