//! Why a value has no tape, or bytes are the tape of no value.
ghost use Rattle.std.specs.Prelude.{◌≡◌, Some};
ghost use Rattle.wave_tape.specs.Errors.{kind_words, error_text, kind_of, place_of};

use std::alloc::{AllocError, AllocFailed};
use std::fmt;
use std::marker::Model;
use thiserror::Error;

/// What is wrong.
#[derive(Clone, Copy, Debug, PartialEq, Eq, Drop)]
pub enum TapeErrorKind {
    /// A version other than 1.
    Version,
    /// The end of the bytes where more are due.
    End,
    /// Bytes behind the value.
    Trailing,
    /// A byte that is neither 0 nor 1 where one of these is due, or not 0 where that is due.
    Byte,
    /// A number that is no Unicode scalar.
    Char,
    /// A name or text that is not UTF-8.
    Utf8,
    /// No case of this name, or no flag of this name behind the one before it.
    Name,
    /// A value or type of a kind that has no tape: `f32`, `f64`, or one that is unsupported.
    Unsupported,
    /// A value that its constructor refuses.
    Value,
    /// No memory was left.
    OutOfMemory,
}

impl TapeErrorKind {
    /// What is printed of the kind.
    fn words(self) -> &'static str
        ensures { result.now ≡ kind_words self }
    {
        match self {
            TapeErrorKind::Version => "unknown version",
            TapeErrorKind::End => "unexpected end",
            TapeErrorKind::Trailing => "trailing bytes",
            TapeErrorKind::Byte => "invalid byte",
            TapeErrorKind::Char => "invalid character",
            TapeErrorKind::Utf8 => "invalid UTF-8",
            TapeErrorKind::Name => "unknown name",
            TapeErrorKind::Unsupported => "unsupported type",
            TapeErrorKind::Value => "value refused",
            TapeErrorKind::OutOfMemory => "out of memory",
        }
    }
}

impl fmt::Display for TapeErrorKind {
    ghost output = { λ kind. Some (kind_words kind) };

    fn fmt<W: fmt::Write>(&self, f: &mut fmt::Formatter<W>) -> fmt::Result {
        f.write_str(self.words())
    }
}

/// A refusal: its kind, and the place where it arose, which are all that a clause sees of it.
#[derive(Debug, Drop, Error)]
pub struct TapeError {
    kind: TapeErrorKind,
    place: usize,
}

impl Model for TapeError {
    ghost use Rattle.wave_tape.specs.Errors.{Refusal};

    ghost Value = { Refusal };

    ghost view = { λ e. record { kind = e.kind; place = e.place } };
}

impl TapeError {
    /// The kind of the refusal.
    pub fn kind(&self) -> TapeErrorKind
        ensures { result ≡ self.now.kind }
    {
        self.kind
    }

    /// How many bytes stand before the part that is refused, or before the end of a value that its
    /// constructor refuses; 0 where memory was refused, or a tape was not written.
    pub fn place(&self) -> usize
        ensures { result ≡ self.now.place }
    {
        self.place
    }

    /// The refusal of this tape, of which there are so many bytes.
    pub(crate) fn new(stop: Stop, len: usize) -> TapeError
        ensures kind { result.kind ≡ kind_of stop }
        ensures place { result.place ≡ place_of len stop }
    {
        match stop {
            Stop::Memory => TapeError {
                kind: TapeErrorKind::OutOfMemory,
                place: 0,
            },
            Stop::Refused(left) => TapeError {
                kind: TapeErrorKind::Value,
                place: len.saturating_sub(left),
            },
            Stop::Fault(kind, left) => TapeError {
                kind,
                place: len.saturating_sub(left),
            },
        }
    }
}

impl fmt::Display for TapeError {
    ghost output = { λ error. Some (error_text error) };

    fn fmt<W: fmt::Write>(&self, f: &mut fmt::Formatter<W>) -> fmt::Result {
        let kind = self.kind;
        let place = self.place;
        write!(f, "{kind} at {place}")
    }
}

/// Why reading or writing stopped.
#[derive(Debug, Drop)]
pub(crate) enum Stop {
    /// There was no memory.
    Memory,
    /// A constructor refused the value behind which this many bytes are left.
    Refused(usize),
    /// A fault of this kind in a part at which this many bytes are left.
    Fault(TapeErrorKind, usize),
}

impl From<AllocError> for Stop {
    ghost use Rattle.wave_tape.specs.declared.error.Stop.TheVariants.{Memory};

    ghost from_gives = { λ _ stop. stop ≡ Memory };

    fn from(_error: AllocError) -> Stop {
        Stop::Memory
    }
}

impl<T: Drop> From<AllocFailed<T>> for Stop {
    ghost use Rattle.wave_tape.specs.declared.error.Stop.TheVariants.{Memory};

    ghost from_gives = { λ _ stop. stop ≡ Memory };

    fn from(_error: AllocFailed<T>) -> Stop {
        Stop::Memory
    }
}
