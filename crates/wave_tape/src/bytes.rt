//! The parts of a tape that have no parts, read from the front of the bytes.
ghost use Rattle.std.specs.Int.{w8, w16, w32, w64};
ghost use Rattle.wave_tape.specs.Reading.{number_at, choice_at, zero_at, name_at, text_at, char_at};
ghost use Rattle.wave_tape.specs.Private.Readers.{Gives};

use crate::error::{Stop, TapeErrorKind};

/// A number of one byte, and the bytes behind it.
#[tactic(auto, unfolding(crate::specs::Reading::number_at))]
pub(crate) fn u8_at(bytes: &[u8]) -> Result<(u8, &[u8]), Stop>
    ensures { Gives (λ x. (x.0, x.1.now)) result (number_at w8 bytes.now) }
{
    if bytes.len() < 1 {
        return Err(Stop::Fault(TapeErrorKind::End, bytes.len()));
    }
    let (front, rest) = bytes.split_at(1);
    Ok((front[0], rest))
}

/// So of two bytes, the lowest first.
#[tactic(auto, unfolding(crate::specs::Reading::number_at))]
pub(crate) fn u16_at(bytes: &[u8]) -> Result<(u16, &[u8]), Stop>
    ensures { Gives (λ x. (x.0, x.1.now)) result (number_at w16 bytes.now) }
{
    if bytes.len() < 2 {
        return Err(Stop::Fault(TapeErrorKind::End, bytes.len()));
    }
    let (front, rest) = bytes.split_at(2);
    Ok((u16::from_le_bytes([front[0], front[1]]), rest))
}

/// So of four bytes.
#[tactic(auto, unfolding(crate::specs::Reading::number_at))]
pub(crate) fn u32_at(bytes: &[u8]) -> Result<(u32, &[u8]), Stop>
    ensures { Gives (λ x. (x.0, x.1.now)) result (number_at w32 bytes.now) }
{
    if bytes.len() < 4 {
        return Err(Stop::Fault(TapeErrorKind::End, bytes.len()));
    }
    let (front, rest) = bytes.split_at(4);
    let number = u32::from_le_bytes([front[0], front[1], front[2], front[3]]);
    Ok((number, rest))
}

/// So of eight bytes.
#[tactic(auto, unfolding(crate::specs::Reading::number_at))]
pub(crate) fn u64_at(bytes: &[u8]) -> Result<(u64, &[u8]), Stop>
    ensures { Gives (λ x. (x.0, x.1.now)) result (number_at w64 bytes.now) }
{
    if bytes.len() < 8 {
        return Err(Stop::Fault(TapeErrorKind::End, bytes.len()));
    }
    let (front, rest) = bytes.split_at(8);
    let number = u64::from_le_bytes([
        front[0], front[1], front[2], front[3], front[4], front[5], front[6], front[7],
    ]);
    Ok((number, rest))
}

/// Whether the first byte is 1; it is 0 else.
#[tactic(auto, unfolding(crate::specs::Reading::choice_at))]
pub(crate) fn choice_at(bytes: &[u8]) -> Result<(bool, &[u8]), Stop>
    ensures { Gives (λ x. (x.0, x.1.now)) result (choice_at bytes.now) }
{
    match bytes {
        [] => Err(Stop::Fault(TapeErrorKind::End, 0)),
        [0, rest @ ..] => Ok((false, rest)),
        [1, rest @ ..] => Ok((true, rest)),
        [_, ..] => Err(Stop::Fault(TapeErrorKind::Byte, bytes.len())),
    }
}

/// The bytes behind the first, which is 0 and stands for no parts.
#[tactic(auto, unfolding(crate::specs::Reading::zero_at))]
pub(crate) fn zero_at(bytes: &[u8]) -> Result<&[u8], Stop>
    ensures { Gives (λ x. x.now) result (zero_at bytes.now) }
{
    match bytes {
        [] => Err(Stop::Fault(TapeErrorKind::End, 0)),
        [0, rest @ ..] => Ok(rest),
        [_, ..] => Err(Stop::Fault(TapeErrorKind::Byte, bytes.len())),
    }
}

/// A name: the count of its bytes, and these.
#[tactic(auto, unfolding(crate::specs::Reading::name_at))]
pub(crate) fn name_at(bytes: &[u8]) -> Result<(&[u8], &[u8]), Stop>
    ensures { Gives (λ x. (x.0.now, x.1.now)) result (name_at bytes.now) }
{
    let (count, rest) = u64_at(bytes)?;
    let count = count as usize;
    if rest.len() < count {
        return Err(Stop::Fault(TapeErrorKind::End, rest.len()));
    }
    Ok(rest.split_at(count))
}

/// A text.
#[tactic(auto, unfolding(crate::specs::Reading::text_at))]
pub(crate) fn text_at(bytes: &[u8]) -> Result<(&str, &[u8]), Stop>
    ensures { Gives (λ x. (x.0.now, x.1.now)) result (text_at bytes.now) }
{
    let (text, rest) = name_at(bytes)?;
    match str::from_utf8(text) {
        Ok(text) => Ok((text, rest)),
        Err(_) => Err(Stop::Fault(TapeErrorKind::Utf8, bytes.len())),
    }
}

/// A scalar.
#[tactic(auto, unfolding(crate::specs::Reading::char_at))]
pub(crate) fn char_at(bytes: &[u8]) -> Result<(char, &[u8]), Stop>
    ensures { Gives (λ x. (x.0, x.1.now)) result (char_at bytes.now) }
{
    let (number, rest) = u32_at(bytes)?;
    match char::from_u32(number) {
        Some(scalar) => Ok((scalar, rest)),
        None => Err(Stop::Fault(TapeErrorKind::Char, bytes.len())),
    }
}
