// How a call ends, and what C is told of it.
ghost use Rattle.std.specs.Prelude.{◌≡◌};
ghost use Rattle.wave_c.specs.Ends.{ArePlaced, IsPlaced, IsTold, status_of, report_of, report_of_failure, refusal_report};
ghost use Rattle.wave_c.specs.Failures.{IsOfRefusal, IsOfTypeRefusal, IsOfTapeRefusal};
ghost use Rattle.wave_c.specs.declared.ended.Failure.TheVariants as failure;

use crate::Report;
use crate::kinds::{argument_number, kind_number, tape_kind_number, type_kind_number};
use std::alloc::AllocError;
use wave_lex::error::{ParserError, ParserErrorKind};
use wave_tape::error::{TapeError, TapeErrorKind};
use wave_type::error::{TypeError, TypeErrorKind};

/// An argument that has to be UTF-8.
#[derive(Clone, Copy)]
pub(crate) enum Argument {
    /// The text of a type.
    TypeText,
    /// The text of a value or of a call.
    ValueText,
}

/// Why a call has no answer.
#[derive(Drop)]
pub(crate) enum Failure {
    /// Out of memory.
    Memory,
    /// The argument is UTF-8 up to this byte.
    NotUtf8(Argument, usize),
    /// The text of the type spells none.
    NoType(TypeError),
    /// The text is refused.
    Refused(ParserError),
    /// The bytes are the tape of no value of the type.
    NoTape(TapeError),
    /// The handle is closed.
    Closed,
}

impl From<AllocError> for Failure {
    ghost from_gives = { λ _ f. f ≡ failure.Memory };

    fn from(_error: AllocError) -> Failure {
        Failure::Memory
    }
}

impl From<TypeError> for Failure {
    ghost from_gives = { λ e f. IsOfTypeRefusal e f };

    fn from(error: TypeError) -> Failure {
        if error.kind() == TypeErrorKind::OutOfMemory {
            Failure::Memory
        } else {
            Failure::NoType(error)
        }
    }
}

impl From<ParserError> for Failure {
    ghost from_gives = { λ e f. IsOfRefusal e f };

    fn from(error: ParserError) -> Failure {
        if error.kind() == ParserErrorKind::OutOfMemory {
            Failure::Memory
        } else {
            Failure::Refused(error)
        }
    }
}

impl From<TapeError> for Failure {
    ghost from_gives = { λ e f. IsOfTapeRefusal e f };

    fn from(error: TapeError) -> Failure {
        if error.kind() == TapeErrorKind::OutOfMemory {
            Failure::Memory
        } else {
            Failure::NoTape(error)
        }
    }
}

/// How a call ends.
#[derive(Drop)]
pub(crate) enum Ended {
    /// The answer, of so many bytes, is in the buffer.
    Done(usize),
    /// The answer has so many bytes, more than the buffer.
    TooSmall(usize),
    /// There is no answer.
    Failed(Failure),
}

/// Writes the answer to the start of the buffer, where it fits, and fills the report in; the status.
pub(crate) fn answer(out: &mut [u8], said: Result<Vec<u8>, Failure>, report: &mut Report) -> u32
    ensures { IsTold said out.old out.new result report.new }
{
    let ended = place(out, said);
    tell(&ended, report)
}

/// Writes the answer to the start of the buffer, where it fits.
fn place(out: &mut [u8], said: Result<Vec<u8>, Failure>) -> Ended
    ensures { IsPlaced said out.old out.new result }
{
    match said {
        Ok(bytes) => place_bytes(out, bytes.as_slice()),
        Err(failure) => Ended::Failed(failure),
    }
}

/// Writes the bytes to the start of the buffer, where they fit.
fn place_bytes(out: &mut [u8], bytes: &[u8]) -> Ended
    ensures { ArePlaced bytes.now out.old out.new result }
{
    let n = bytes.len();
    if out.len() < n {
        return Ended::TooSmall(n);
    }
    out[..n].copy_from_slice(bytes);
    Ended::Done(n)
}

/// Fills the report in; the status.
pub(crate) fn tell(ended: &Ended, report: &mut Report) -> u32
    ensures status { result ≡ status_of ended.now }
    ensures told { report.new ≡ report_of ended.now }
{
    *report = report_at(ended);
    status_at(ended)
}

/// The number of the status.
fn status_at(ended: &Ended) -> u32
    ensures { result ≡ status_of ended.now }
{
    match ended {
        Ended::Done(_) => 0,
        Ended::TooSmall(_) => 1,
        Ended::Failed(Failure::Memory) => 2,
        Ended::Failed(Failure::NotUtf8(..)) => 3,
        Ended::Failed(Failure::NoType(_)) => 4,
        Ended::Failed(Failure::Refused(_)) => 5,
        Ended::Failed(Failure::NoTape(_)) => 6,
        Ended::Failed(Failure::Closed) => 7,
    }
}

/// The report.
fn report_at(ended: &Ended) -> Report
    ensures { result ≡ report_of ended.now }
{
    match ended {
        Ended::Done(length) | Ended::TooSmall(length) => Report {
            length: *length,
            start: 0,
            end: 0,
            kind: 0,
        },
        Ended::Failed(failure) => report_failure(failure),
    }
}

/// The report of a call that has no answer.
fn report_failure(failure: &Failure) -> Report
    ensures { result ≡ report_of_failure failure.now }
{
    match failure {
        Failure::Memory | Failure::Closed => refusal_report(0, 0, 0),
        Failure::NotUtf8(argument, at) => refusal_report(argument_number(*argument), *at, *at),
        Failure::NoType(error) => {
            let span = error.span();
            refusal_report(type_kind_number(error.kind()), span.start, span.end)
        }
        Failure::Refused(error) => {
            let span = error.span();
            refusal_report(kind_number(error.kind()), span.start, span.end)
        }
        Failure::NoTape(error) => {
            let at = error.place();
            refusal_report(tape_kind_number(error.kind()), at, at)
        }
    }
}

/// A report of this kind at these bytes.
fn refusal_report(kind: u32, start: usize, end: usize) -> Report
    ensures { result ≡ refusal_report kind start end }
{
    Report {
        length: 0,
        start,
        end,
        kind,
    }
}
