//! Whole numbers, by the texts of their tokens.
ghost use Rattle.std.specs.Prelude.{ℕ, ◌≡◌, ◌≤◌, ◌^◌, length, Some, None};
ghost use Rattle.wave_wasm.specs.Types.{s64, u64};
ghost use Rattle.wave_grammar.specs.NumberText.{IsNumberOf};
ghost use Rattle.wave_grammar.specs.Private.NumberText.{IsMagnitude};

/// The types of whole numbers that a value may have: i8, i16, i32, i64, u8, u16, u32 and u64.
pub trait WholeNumber: Sized {
    ghost use Rattle.std.specs.Prelude.{ℤ, option_map};
    ghost use Rattle.wave_wasm.specs.Types.{Whole};
    ghost use Rattle.wave_grammar.specs.NumberText.{IsNumberOf};

    /// Which of the types it is.
    ghost kind: { Whole };

    /// The number.
    ghost number: { Self → ℤ };

    /// The number of this text: decimal digits, at a signed type perhaps after a `-`.
    fn from_text(text: &str) -> Option<Self>
        ensures { IsNumberOf kind text.now (option_map number result) };
}

/// How many digits are few: a `u64` holds each number of so many, and not each of one digit more.
const FEW: usize = 19;

/// The number of decimal digits, where a `u64` holds it.
fn magnitude(digits: &[u8]) -> Option<u64>
    ensures { IsMagnitude digits.now result }
{
    if digits.len() <= FEW {
        return few_digits(digits);
    }
    let mut number: u64 = 0;
    for &digit in digits {
        if !digit.is_ascii_digit() {
            return None;
        }
        number = number
            .checked_mul(10)?
            .checked_add(u64::from(digit - b'0'))?;
    }
    Some(number)
}

/// The same of few digits, where no step has to be checked.
fn few_digits(digits: &[u8]) -> Option<u64>
    requires { length digits.now ≤ FEW }
    ensures { IsMagnitude digits.now result }
{
    if digits.is_empty() {
        return None;
    }
    let mut number = 0;
    for &digit in digits {
        match digit {
            b'0'..=b'9' => number = number * 10 + u64::from(digit - b'0'),
            _ => return None,
        }
    }
    Some(number)
}

/// The number of decimal digits, perhaps after a `-`.
fn signed(text: &str) -> Option<i64>
    ensures { IsNumberOf s64 text.now result }
{
    match text.as_bytes() {
        [b'-', digits @ ..] => 0i64.checked_sub_unsigned(magnitude(digits)?),
        digits => i64::try_from(magnitude(digits)?).ok(),
    }
}

impl WholeNumber for i8 {
    ghost use Rattle.wave_wasm.specs.Types.{s8};

    ghost kind = { s8 };

    ghost number = { λ n. n };

    fn from_text(text: &str) -> Option<i8> {
        i8::try_from(signed(text)?).ok()
    }
}

impl WholeNumber for i16 {
    ghost use Rattle.wave_wasm.specs.Types.{s16};

    ghost kind = { s16 };

    ghost number = { λ n. n };

    fn from_text(text: &str) -> Option<i16> {
        i16::try_from(signed(text)?).ok()
    }
}

impl WholeNumber for i32 {
    ghost use Rattle.wave_wasm.specs.Types.{s32};

    ghost kind = { s32 };

    ghost number = { λ n. n };

    fn from_text(text: &str) -> Option<i32> {
        i32::try_from(signed(text)?).ok()
    }
}

impl WholeNumber for i64 {
    ghost use Rattle.wave_wasm.specs.Types.{s64};

    ghost kind = { s64 };

    ghost number = { λ n. n };

    fn from_text(text: &str) -> Option<i64> {
        signed(text)
    }
}

impl WholeNumber for u8 {
    ghost use Rattle.std.specs.Prelude.{pos};
    ghost use Rattle.wave_wasm.specs.Types as type;

    ghost kind = { type.u8 };

    ghost number = { pos };

    fn from_text(text: &str) -> Option<u8> {
        u8::try_from(magnitude(text.as_bytes())?).ok()
    }
}

impl WholeNumber for u16 {
    ghost use Rattle.std.specs.Prelude.{pos};
    ghost use Rattle.wave_wasm.specs.Types as type;

    ghost kind = { type.u16 };

    ghost number = { pos };

    fn from_text(text: &str) -> Option<u16> {
        u16::try_from(magnitude(text.as_bytes())?).ok()
    }
}

impl WholeNumber for u32 {
    ghost use Rattle.std.specs.Prelude.{pos};
    ghost use Rattle.wave_wasm.specs.Types as type;

    ghost kind = { type.u32 };

    ghost number = { pos };

    fn from_text(text: &str) -> Option<u32> {
        u32::try_from(magnitude(text.as_bytes())?).ok()
    }
}

impl WholeNumber for u64 {
    ghost use Rattle.std.specs.Prelude.{pos};
    ghost use Rattle.wave_wasm.specs.Types as type;

    ghost kind = { type.u64 };

    ghost number = { pos };

    fn from_text(text: &str) -> Option<u64> {
        magnitude(text.as_bytes())
    }
}
