//! Laws of tapes.
ghost use Rattle.wave_tape.specs.Laws.{OneCallTapeEach, OneTapeEach, OneTypeTapeEach, TakesAByte};

/// No two values of a type whose names are distinct have one tape, whatever follows it: of tapes
/// that begin bytes of fewer than 2^64.
pub fn one_tape_each()
    ensures { OneTapeEach }
{}

/// No two calls with arguments of the same types, whose names are distinct, have one tape, whatever
/// follows it: of tapes that begin bytes of fewer than 2^64.
pub fn one_call_tape_each()
    ensures { OneCallTapeEach }
{}

/// No two types that have tapes have one, whatever follows it: of tapes that begin bytes of fewer than
/// 2^64.
pub fn one_type_tape_each()
    ensures { OneTypeTapeEach }
{}

/// Each value of a type takes a byte of a tape at least, so a count is never more than the bytes
/// behind it.
pub fn takes_a_byte()
    ensures { TakesAByte }
{}
