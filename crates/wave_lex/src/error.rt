//! Why a text is refused.
ghost use Rattle.std.specs.Prelude.{◌≡◌, Some, option_map};
ghost use Rattle.std.specs.String.{string_bytes};
ghost use Rattle.wave_wasm.specs.ValueErrors.{cause_of};
ghost use Rattle.wave_lex.specs.Errors.{plainly, with_detail, refused_by, kept, refusal_of, kind_words, error_text, IsNoMemory};
ghost use Rattle.wave_lex.specs.ErrorDetails.{detail_cause, detail_text, error_with};

use crate::lex::Span;
use std::alloc::AllocError;
use std::fmt;
use std::marker::Model;
use thiserror::Error;
use wave_wasm::wasm::WasmValueError;

/// What kind of refusal it is.
#[derive(Clone, Copy, Debug, PartialEq, Eq, Drop)]
pub enum ParserErrorKind {
    /// `()` where a value is expected.
    EmptyTuple,
    /// Never answered.
    MultipleChars,
    /// An escape that stands for no scalar.
    InvalidEscape,
    /// A multiline string whose first, last or other line is not right.
    InvalidMultilineString,
    /// Too many or too few values for a function's parameters.
    InvalidParams,
    /// A place where no token begins.
    InvalidToken,
    /// A value of another form than the type takes.
    InvalidType,
    /// A number out of range, or a record with an unknown field.
    InvalidValue,
    /// Something after the value.
    TrailingCharacters,
    /// The end of the text where more is expected.
    UnexpectedEnd,
    /// A token that can not stand here.
    UnexpectedToken,
    /// A field that was named before.
    DuplicateField,
    /// A flag that was named before.
    DuplicateFlag,
    /// A value that could not be made; the error has the cause.
    WasmValueError,
    /// A value inside too many others.
    NestingTooDeep,
    /// No memory was left.
    OutOfMemory,
}

impl ParserErrorKind {
    /// What is printed of the kind.
    fn words(self) -> &'static str
        ensures { result.now ≡ kind_words self }
    {
        match self {
            ParserErrorKind::EmptyTuple => "empty tuple",
            ParserErrorKind::MultipleChars => "multiple characters in char value",
            ParserErrorKind::InvalidEscape => "invalid character escape",
            ParserErrorKind::InvalidMultilineString => "invalid multiline string",
            ParserErrorKind::InvalidParams => "invalid params",
            ParserErrorKind::InvalidToken => "invalid token",
            ParserErrorKind::InvalidType => "invalid value type",
            ParserErrorKind::InvalidValue => "invalid value",
            ParserErrorKind::TrailingCharacters => "trailing characters after value",
            ParserErrorKind::UnexpectedEnd => "unexpected end of input",
            ParserErrorKind::UnexpectedToken => "unexpected token",
            ParserErrorKind::DuplicateField => "duplicate field",
            ParserErrorKind::DuplicateFlag => "duplicate flag",
            ParserErrorKind::WasmValueError => "error converting Wasm value",
            ParserErrorKind::NestingTooDeep => "value nesting too deep",
            ParserErrorKind::OutOfMemory => "out of memory",
        }
    }
}

impl fmt::Display for ParserErrorKind {
    ghost output = { λ kind. Some (kind_words kind) };

    fn fmt<W: fmt::Write>(&self, f: &mut fmt::Formatter<W>) -> fmt::Result {
        f.write_str(self.words())
    }
}

/// A word more on a refusal. Users don't name it.
#[derive(Debug, Drop)]
pub enum Detail {
    /// No word more.
    None,
    /// Words that are written in the program.
    Static(&'static str),
    /// Words that were made for this refusal.
    Owned(String),
    /// The error of the value that could not be made.
    Cause(WasmValueError),
}

/// A refusal of a text: its kind, the bytes of the source where it arose, and perhaps a detail or
/// the error of the value that could not be made. A clause sees these four, the detail as a text.
/// The error is never `Memory`: for lack of memory the kind is `OutOfMemory`.
#[derive(Debug, Error)]
pub struct ParserError {
    kind: ParserErrorKind,
    span: Span,
    detail: Detail,
}

impl Drop for ParserError {
    fn drop(self) {
        let ParserError {
            kind: _,
            span: _,
            detail: _,
        } = self;
    }
}

impl Model for ParserError {
    ghost use Rattle.wave_lex.specs.Errors.{Diagnostic};

    ghost Value = { Diagnostic };

    ghost use Rattle.wave_lex.specs.Errors.{IsNoMemory};
    ghost use Rattle.wave_lex.specs.ErrorDetails.{detail_cause, detail_text};

    ghost view = { λ e.
        record { kind = e.kind; span = e.span; detail = detail_text e.detail; cause = detail_cause e.detail } };

    ghost invariant = { λ e. IsNoMemory (detail_cause e.detail) };
}

impl ParserError {
    /// A refusal without detail and cause.
    pub fn new(kind: ParserErrorKind, span: Span) -> ParserError
        ensures refusal { refusal_of result ≡ plainly kind }
        ensures span { result.span ≡ span }
    {
        error_of_parts(kind, span, Detail::None)
    }

    /// A refusal with a detail that is written in the program.
    pub fn with_static(kind: ParserErrorKind, span: Span, detail: &'static str) -> ParserError
        ensures refusal { refusal_of result ≡ with_detail kind (Some detail.now) }
        ensures span { result.span ≡ span }
    {
        error_of_parts(kind, span, Detail::Static(detail))
    }

    /// A refusal with a detail that was made for it.
    pub fn with_detail(kind: ParserErrorKind, span: Span, detail: String) -> ParserError
        ensures refusal { refusal_of result ≡ with_detail kind (Some (string_bytes detail)) }
        ensures span { result.span ≡ span }
    {
        error_of_parts(kind, span, Detail::Owned(detail))
    }

    /// A refusal because a value could not be made: `OutOfMemory` without a cause where memory
    /// failed, else `WasmValueError` with the cause.
    pub fn with_cause(span: Span, cause: WasmValueError) -> ParserError
        ensures refusal { refusal_of result ≡ refused_by (cause_of cause) }
        ensures span { result.span ≡ span }
        ensures cause { result.cause ≡ kept cause }
    {
        error_of_parts(ParserErrorKind::WasmValueError, span, Detail::Cause(cause))
    }

    fn into_parts(self) -> (ParserErrorKind, Span, Detail)
        ensures kind { result.0 ≡ self.kind }
        ensures span { result.1 ≡ self.span }
        ensures detail { detail_text result.2 ≡ self.detail }
        ensures cause { detail_cause result.2 ≡ self.cause }
        ensures memory { IsNoMemory (detail_cause result.2) }
    {
        let ParserError { kind, span, detail } = self;
        (kind, span, detail)
    }

    /// The kind of the refusal.
    pub fn kind(&self) -> ParserErrorKind
        ensures { result ≡ self.now.kind }
    {
        self.kind
    }

    /// The bytes of the source where it arose.
    pub fn span(&self) -> Span
        ensures { result ≡ self.now.span }
    {
        self.span.start..self.span.end
    }

    /// The detail, where there is one.
    pub fn detail(&self) -> Option<&str>
        ensures { option_map (λ text. text.now) result ≡ self.now.detail }
    {
        match &self.detail {
            Detail::None => None,
            Detail::Static(text) => Some(text),
            Detail::Owned(text) => Some(text.as_str()),
            Detail::Cause(_) => None,
        }
    }

    /// The error of the value that could not be made, where there is one. It is never `Memory`.
    pub fn cause(&self) -> Option<&WasmValueError>
        ensures cause { option_map (λ cause. cause.now) result ≡ self.now.cause }
        ensures memory { IsNoMemory self.now.cause }
    {
        match &self.detail {
            Detail::Cause(cause) => Some(cause),
            _ => None,
        }
    }
}

/// A refusal of these parts. Where the cause is `Memory`, it is refused as `OutOfMemory`, without a
/// cause.
pub fn error_of_parts(kind: ParserErrorKind, span: Span, detail: Detail) -> ParserError
    ensures { result ≡ error_with kind span detail }
{
    match detail {
        Detail::Cause(WasmValueError::Memory(_)) => ParserError {
            kind: ParserErrorKind::OutOfMemory,
            span,
            detail: Detail::None,
        },
        detail => ParserError { kind, span, detail },
    }
}

/// The parts of the refusal.
pub fn parts_of_error(error: ParserError) -> (ParserErrorKind, Span, Detail)
    ensures kind { result.0 ≡ error.kind }
    ensures span { result.1 ≡ error.span }
    ensures detail { detail_text result.2 ≡ error.detail }
    ensures cause { detail_cause result.2 ≡ error.cause }
    ensures memory { IsNoMemory (detail_cause result.2) }
{
    error.into_parts()
}

impl fmt::Display for ParserError {
    ghost output = { λ error. Some (error_text error) };

    fn fmt<W: fmt::Write>(&self, f: &mut fmt::Formatter<W>) -> fmt::Result {
        let kind = self.kind;
        let start = self.span.start;
        let end = self.span.end;
        match self.cause() {
            Some(cause) => write!(f, "{kind}: {cause} at {start}..{end}"),
            None => match self.detail() {
                Some(detail) => write!(f, "{kind}: {detail} at {start}..{end}"),
                None => write!(f, "{kind} at {start}..{end}"),
            },
        }
    }
}

/// Out of memory, at 0..0, so that `?` takes what allocates beside what reads.
impl From<AllocError> for ParserError {
    ghost use Rattle.std.specs.Prelude.{None};
    ghost use Rattle.wave_lex.specs.Errors.{Says};
    ghost use Rattle.wave_lex.specs.declared.error.ParserErrorKind.TheVariants.{OutOfMemory};

    ghost from_gives = { λ _ r. Says r OutOfMemory (record { start = 0; end = 0 }) None };

    fn from(_: AllocError) -> ParserError {
        ParserError::new(ParserErrorKind::OutOfMemory, 0..0)
    }
}

impl From<ParserError> for fmt::Error {
    ghost use Rattle.std.specs.Prelude.{◌≡◌};
    ghost use Rattle.std.specs.Fmt.{fmt_error};

    ghost from_gives = { λ _ r. r ≡ fmt_error };

    fn from(_error: ParserError) -> fmt::Error {
        fmt::Error
    }
}
