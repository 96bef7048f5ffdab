//! Errors on their way to the caller, in few bytes.
ghost use Rattle.std.specs.Prelude.{ℕ, ◌≡◌, ◌↔◌, Some, None, IfOk, IsTrue, MatchOption};
ghost use Rattle.std.specs.String.{string_bytes};
ghost use Rattle.std.specs.declared.ops.Range.{Range};
ghost use Rattle.wave_wasm.specs.TypeText.{kind_word};
ghost use Rattle.wave_wasm.specs.ValueErrors.{unsupported_type};
ghost use Rattle.wave_grammar.specs.NodeTree.{NodeTree, place_of};
ghost use Rattle.wave_grammar.specs.PartReading.{IsCaused};
ghost use Rattle.wave_lex.specs.Errors.{Says, class_name, plainly, refusal_of, repeated_name};
ghost use Rattle.wave_lex.specs.ErrorDetails.{error_with};
ghost use Rattle.wave_lex.specs.declared.error.Detail.TheVariants as detail_as;
ghost use Rattle.wave_lex.specs.declared.error.ParserErrorKind.TheVariants as kind_as;
ghost use Rattle.wave_leaf.specs.Errors.{AreNoStaticWords, IsRefusedBy, IsSameOrMemory, error_at, static_words};
ghost use Rattle.wave_leaf.specs.Private.Errors.{IsErrorOf};
ghost use Rattle.wave_leaf.specs.declared.error.StaticDetail.{StaticDetail};

use std::alloc::{AllocError, Global};
use std::boxed::Box;
use std::marker::Model;
use wave_lex::error::{Detail, ParserError, ParserErrorKind, error_of_parts, parts_of_error};
use wave_lex::lex::{Span, Token};
use wave_wasm::wasm::{WasmTypeKind, WasmValueError};

/// Why tokens or a value are refused, and where. It is small, since each answer on the way has room for
/// one. A clause sees the error that it is to become.
#[derive(Drop)]
pub struct ReadError {
    span: Span,
    reason: Reason,
}

/// Why, without the place. Each has its kind, since that takes no room beside the tag. What has a text of
/// its own stands on the heap.
#[derive(Drop)]
pub enum Reason {
    /// Nothing more.
    Plain(ParserErrorKind),
    /// With the name of a class of tokens as the detail.
    Class(ParserErrorKind, Token),
    /// With a detail that is written in the program.
    Static(ParserErrorKind, StaticDetail),
    /// With a detail that was made for it.
    Words(ParserErrorKind, Box<String>),
    /// With `WrongNumberOfElements`: how many are expected, and how many there are.
    Elements(ParserErrorKind, u32, usize),
    /// With `WrongNumberOfTupleValues`, likewise.
    TupleValues(ParserErrorKind, usize, usize),
    /// With another cause.
    Cause(ParserErrorKind, Box<WasmValueError>),
}

/// A detail of a refused value that is written in the program.
#[derive(Clone, Copy)]
pub enum StaticDetail {
    /// Of a key of a record that is no label.
    FieldLabel,
    /// Of the line that closes a multiline string.
    Closing,
    /// Of what follows the quotes that open one.
    Opening,
    /// Of a line of one that has too few spaces.
    Indentation,
}

impl StaticDetail {
    /// The words of the detail.
    fn words(self) -> &'static str
        ensures { result.now ≡ static_words self }
    {
        match self {
            StaticDetail::FieldLabel => "expected a record field label",
            StaticDetail::Closing => "closing \"\"\" must be on a line preceded only by spaces",
            StaticDetail::Opening => "opening \"\"\" must be followed immediately by newline",
            StaticDetail::Indentation => {
                "lines must be indented at least as much as closing \"\"\""
            }
        }
    }

    /// The detail of these words.
    fn of_words(words: &str) -> Option<StaticDetail>
        ensures { MatchOption result ((d : StaticDetail) → words.now ≡ static_words d → ⊥) (λ d. words.now ≡ static_words d) }
    {
        match words {
            "expected a record field label" => Some(StaticDetail::FieldLabel),
            "closing \"\"\" must be on a line preceded only by spaces" => Some(
                StaticDetail::Closing,
            ),
            "opening \"\"\" must be followed immediately by newline" => Some(StaticDetail::Opening),
            "lines must be indented at least as much as closing \"\"\"" => {
                Some(StaticDetail::Indentation)
            }
            _ => None,
        }
    }
}

impl Reason {
    /// This kind with this detail; where there is no memory for a text of its own, out of memory.
    #[cold]
    #[inline(never)]
    pub fn new(alloc: Global, kind: ParserErrorKind, detail: Detail) -> Reason
        ensures { (p : Range ℕ) → IsErrorOf kind p detail (error_at p result) }
    {
        match detail {
            Detail::None => Reason::Plain(kind),
            Detail::Static(words) => match StaticDetail::of_words(words) {
                Some(detail) => Reason::Static(kind, detail),
                None => match String::from_str(alloc, words) {
                    Ok(words) => Reason::with_words(alloc, kind, words),
                    Err(_) => Reason::Plain(ParserErrorKind::OutOfMemory),
                },
            },
            Detail::Owned(words) => match StaticDetail::of_words(&words) {
                None => Reason::with_words(alloc, kind, words),
                Some(known) => Reason::Static(kind, known),
            },
            Detail::Cause(cause) => Reason::caused(alloc, kind, cause),
        }
    }

    /// This kind with these words, of no `StaticDetail`; where there is no memory for them, out of memory.
    fn with_words(alloc: Global, kind: ParserErrorKind, words: String) -> Reason
        ensures { AreNoStaticWords (string_bytes words) → (p : Range ℕ) → IsErrorOf kind p (detail_as.Owned words) (error_at p result) }
    {
        match Box::new(alloc, words) {
            Ok(words) => Reason::Words(kind, words),
            Err(_) => Reason::Plain(ParserErrorKind::OutOfMemory),
        }
    }

    /// This kind with this cause; where that is `Memory`, or there is no memory for it, out of memory.
    fn caused(alloc: Global, kind: ParserErrorKind, cause: WasmValueError) -> Reason
        ensures { (p : Range ℕ) → IsErrorOf kind p (detail_as.Cause cause) (error_at p result) }
    {
        match cause {
            WasmValueError::Memory(_) => Reason::Plain(ParserErrorKind::OutOfMemory),
            WasmValueError::WrongNumberOfElements { want, got } => Reason::Elements(
                kind, want, got,
            ),
            WasmValueError::WrongNumberOfTupleValues { want, got } => {
                Reason::TupleValues(kind, want, got)
            }
            cause => match Box::new(alloc, cause) {
                Ok(cause) => Reason::Cause(kind, cause),
                Err(_) => Reason::Plain(ParserErrorKind::OutOfMemory),
            },
        }
    }

    /// The kind and the detail.
    fn into_parts(self) -> (ParserErrorKind, Detail)
        ensures { (p : Range ℕ) → error_at p self ≡ error_with result.0 p result.1 }
    {
        let (kind, cause) = match self {
            Reason::Plain(kind) => return (kind, Detail::None),
            Reason::Class(kind, class) => return (kind, Detail::Static(class.name())),
            Reason::Static(kind, detail) => return (kind, Detail::Static(detail.words())),
            Reason::Words(kind, words) => return (kind, Detail::Owned(Box::into_inner(words))),
            Reason::Elements(kind, want, got) => {
                (kind, WasmValueError::WrongNumberOfElements { want, got })
            }
            Reason::TupleValues(kind, want, got) => {
                (kind, WasmValueError::WrongNumberOfTupleValues { want, got })
            }
            Reason::Cause(kind, cause) => (kind, Box::into_inner(cause)),
        };
        (kind, Detail::Cause(cause))
    }
}

impl Model for ReadError {
    ghost use Rattle.wave_lex.specs.Errors.{Diagnostic};
    ghost use Rattle.wave_leaf.specs.Errors.{error_at};

    ghost Value = { Diagnostic };

    ghost view = { λ e. error_at e.span e.reason };
}

impl ReadError {
    /// The error for this reason, here.
    pub fn at(span: Span, reason: Reason) -> ReadError
        ensures { result ≡ error_at span reason }
    {
        ReadError { span, reason }
    }

    /// An error of this kind, here.
    pub fn new(kind: ParserErrorKind, span: Span) -> ReadError
        ensures { Says result kind span None }
    {
        ReadError {
            span,
            reason: Reason::Plain(kind),
        }
    }

    /// An error whose detail is the class of a token.
    pub fn with_class(kind: ParserErrorKind, span: Span, class: Token) -> ReadError
        ensures { Says result kind span (Some (class_name class)) }
    {
        ReadError {
            span,
            reason: Reason::Class(kind, class),
        }
    }

    /// An error whose detail is these words.
    pub fn with_words(kind: ParserErrorKind, span: Span, words: Box<String>) -> ReadError
        ensures { Says result kind span (Some (string_bytes words.value)) }
    {
        ReadError {
            span,
            reason: Reason::Words(kind, words),
        }
    }

    /// The error that a value could not be made, for this cause; where there is no memory for a cause that
    /// has a text, or the cause is `Memory`, out of memory.
    pub fn with_cause(alloc: Global, span: Span, cause: WasmValueError) -> ReadError
        ensures refusal { IsRefusedBy cause result }
        ensures span { result.span ≡ span }
    {
        ReadError {
            span,
            reason: Reason::caused(alloc, ParserErrorKind::WasmValueError, cause),
        }
    }

    /// The error that values of a type of this kind can't be read; where there is no memory for its word,
    /// out of memory.
    pub fn unsupported(alloc: Global, span: Span, kind: WasmTypeKind) -> ReadError
        ensures cause { (n : NodeTree) → place_of n ≡ span → IsCaused (unsupported_type (kind_word kind)) n result }
        ensures span { result.span ≡ span }
    {
        match kind.to_string(alloc) {
            Ok(word) => ReadError::with_cause(alloc, span, WasmValueError::UnsupportedType(word)),
            Err(error) => ReadError::with_cause(alloc, span, WasmValueError::Memory(error)),
        }
    }

    /// The error in few bytes. Where there is no memory for its detail or its cause, that is the error, at
    /// the same place.
    #[cold]
    #[inline(never)]
    pub fn of_error(alloc: Global, error: ParserError) -> ReadError
        ensures { IsSameOrMemory error result }
    {
        let (kind, span, detail) = parts_of_error(error);
        ReadError {
            span,
            reason: Reason::new(alloc, kind, detail),
        }
    }

    /// The error that it stands for.
    #[cold]
    #[inline(never)]
    pub fn into_error(self) -> ParserError
        ensures { result ≡ self }
    {
        let ReadError { span, reason } = self;
        let (kind, detail) = reason.into_parts();
        error_of_parts(kind, span, detail)
    }

    /// Whether a value of another form than its type's is refused, without a word more.
    pub fn is_wrong_form(&self) -> bool
        ensures { IsTrue result ↔ (refusal_of self.now ≡ plainly kind_as.InvalidType) }
    {
        match self.reason {
            Reason::Plain(kind) => kind == ParserErrorKind::InvalidType,
            _ => false,
        }
    }

    /// The bytes of the source where it arose.
    pub fn span(&self) -> Span
        ensures { result ≡ self.now.span }
    {
        self.span.start..self.span.end
    }
}

/// What was read, its error as the caller gets it.
pub fn or_error<V>(read: Result<V, ReadError>) -> Result<V, ParserError>
    ensures { result ≡ read }
{
    match read {
        Ok(val) => Ok(val),
        Err(error) => Err(error.into_error()),
    }
}

/// The words on a name that stands twice.
pub fn repeated_words(alloc: Global, name: &str) -> Result<Box<String>, AllocError>
    ensures { IfOk result (λ words. string_bytes words.value ≡ repeated_name name.now) }
{
    let words = format!(in alloc; "\"{name}\"")?;
    Ok(Box::new(alloc, words)?)
}
