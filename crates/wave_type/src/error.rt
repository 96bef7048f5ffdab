//! Why a text spells no type.
ghost use Rattle.std.specs.Prelude.{◌≡◌};
ghost use Rattle.wave_type.specs.TypeErrors.{type_error_words, type_error_text};

use std::alloc::{AllocError, AllocFailed};
use std::fmt;
use std::marker::Model;
use thiserror::Error;
use wave_lex::lex::Span;

/// What kind of refusal it is.
#[derive(Clone, Copy, Debug, PartialEq, Eq, Drop)]
pub enum TypeErrorKind {
    /// A token that can't stand here.
    UnexpectedToken,
    /// The end of the text where more is expected.
    UnexpectedEnd,
    /// A place where no token of a type begins.
    InvalidToken,
    /// A name that stood before in the same record, variant, enum, flags, parameters or results.
    DuplicateName,
    /// A type that the keys of a map can't have.
    InvalidKeyType,
    /// A count that is no decimal number from 0 to 4294967295.
    InvalidCount,
    /// A type inside too many others.
    NestingTooDeep,
    /// No memory was left.
    OutOfMemory,
}

impl fmt::Display for TypeErrorKind {
    ghost use Rattle.std.specs.Prelude.{Some};

    ghost output = { λ kind. Some (type_error_words kind) };

    fn fmt<W: fmt::Write>(&self, f: &mut fmt::Formatter<W>) -> fmt::Result {
        let words = match self {
            TypeErrorKind::UnexpectedToken => "unexpected token in a type",
            TypeErrorKind::UnexpectedEnd => "unexpected end of a type",
            TypeErrorKind::InvalidToken => "invalid token in a type",
            TypeErrorKind::DuplicateName => "duplicate name in a type",
            TypeErrorKind::InvalidKeyType => "invalid type of a map's keys",
            TypeErrorKind::InvalidCount => "invalid length of a list",
            TypeErrorKind::NestingTooDeep => "type nesting too deep",
            TypeErrorKind::OutOfMemory => "out of memory",
        };
        f.write_str(words)
    }
}

impl From<AllocError> for TypeErrorKind {
    ghost use Rattle.std.specs.Prelude.{◌≡◌};
    ghost use Rattle.wave_type.specs.declared.error.TypeErrorKind.TheVariants.{OutOfMemory};

    ghost from_gives = { λ e r. r ≡ OutOfMemory };

    fn from(_: AllocError) -> TypeErrorKind {
        TypeErrorKind::OutOfMemory
    }
}

impl<T: Drop> From<AllocFailed<T>> for TypeErrorKind {
    ghost use Rattle.std.specs.Prelude.{◌≡◌};
    ghost use Rattle.wave_type.specs.declared.error.TypeErrorKind.TheVariants.{OutOfMemory};

    ghost from_gives = { λ e r. r ≡ OutOfMemory };

    fn from(_: AllocFailed<T>) -> TypeErrorKind {
        TypeErrorKind::OutOfMemory
    }
}

/// A refusal of a text that spells no type: its kind, and the bytes of the text where it arose.
#[derive(Debug, Error)]
pub struct TypeError {
    kind: TypeErrorKind,
    span: Span,
}

impl Drop for TypeError {
    fn drop(self) {
        let TypeError { kind: _, span: _ } = self;
    }
}

impl Model for TypeError {
    ghost use Rattle.wave_type.specs.TypeErrors.{TypeRefusal};

    ghost Value = { TypeRefusal };

    ghost view = { λ e. record { kind = e.kind; span = e.span } };
}

impl TypeError {
    /// A refusal of this kind at these bytes.
    pub(crate) fn new(kind: TypeErrorKind, span: Span) -> TypeError
        ensures kind { result.kind ≡ kind }
        ensures span { result.span ≡ span }
    {
        TypeError { kind, span }
    }

    /// The kind of the refusal.
    pub fn kind(&self) -> TypeErrorKind
        ensures { result ≡ self.now.kind }
    {
        self.kind
    }

    /// The bytes of the text where it arose.
    pub fn span(&self) -> Span
        ensures { result ≡ self.now.span }
    {
        self.span.start..self.span.end
    }
}

impl fmt::Display for TypeError {
    ghost use Rattle.std.specs.Prelude.{Some};

    ghost output = { λ error. Some (type_error_text error) };

    fn fmt<W: fmt::Write>(&self, f: &mut fmt::Formatter<W>) -> fmt::Result {
        write!(f, "{} at {}..{}", self.kind, self.span.start, self.span.end)
    }
}
