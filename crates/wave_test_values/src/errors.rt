//! The words of kinds, of refusals and of their causes.
use crate::answer::{Stopped, shown};
use std::alloc::{AllocError, AllocFailed, Global};
use std::fmt;
use std::fmt::Display;
use wave_lex::error::{ParserError, ParserErrorKind};
use wave_wasm::wasm::{WasmTypeKind, WasmValueError};
use wave_writer::writer::WriterError;

/// All kinds of types.
const KINDS: &[WasmTypeKind] = &[
    WasmTypeKind::Bool,
    WasmTypeKind::S8,
    WasmTypeKind::S16,
    WasmTypeKind::S32,
    WasmTypeKind::S64,
    WasmTypeKind::U8,
    WasmTypeKind::U16,
    WasmTypeKind::U32,
    WasmTypeKind::U64,
    WasmTypeKind::F32,
    WasmTypeKind::F64,
    WasmTypeKind::Char,
    WasmTypeKind::String,
    WasmTypeKind::List,
    WasmTypeKind::FixedLengthList,
    WasmTypeKind::Record,
    WasmTypeKind::Tuple,
    WasmTypeKind::Variant,
    WasmTypeKind::Enum,
    WasmTypeKind::Option,
    WasmTypeKind::Result,
    WasmTypeKind::Flags,
    WasmTypeKind::Map,
    WasmTypeKind::Unsupported,
];

/// All kinds of refusals of texts.
const REFUSALS: &[ParserErrorKind] = &[
    ParserErrorKind::EmptyTuple,
    ParserErrorKind::MultipleChars,
    ParserErrorKind::InvalidEscape,
    ParserErrorKind::InvalidMultilineString,
    ParserErrorKind::InvalidParams,
    ParserErrorKind::InvalidToken,
    ParserErrorKind::InvalidType,
    ParserErrorKind::InvalidValue,
    ParserErrorKind::TrailingCharacters,
    ParserErrorKind::UnexpectedEnd,
    ParserErrorKind::UnexpectedToken,
    ParserErrorKind::DuplicateField,
    ParserErrorKind::DuplicateFlag,
    ParserErrorKind::WasmValueError,
    ParserErrorKind::NestingTooDeep,
    ParserErrorKind::OutOfMemory,
];

/// Prints the words of each, with a semicolon behind.
fn listed<T: Display>(rt: HostRuntime, items: &[T]) -> Result<(), Stopped> {
    for item in items {
        print!(rt; "{item};")?;
    }
    Ok(())
}

/// A call for the words that the text asks for.
pub fn call(rt: HostRuntime, name: &str, text: &str) -> Result<(), Stopped> {
    match name {
        "words" => match text {
            "kinds" => listed(rt, KINDS),
            "refusals" => listed(rt, REFUSALS),
            _ => listed(rt, &writer_errors()),
        },
        "cause" => {
            print!(rt; "{}", cause(rt.alloc(), text)?)?;
            Ok(())
        }
        _ => answers(rt, refusal(rt.alloc(), text)?),
    }
}

/// The refusals of writers.
fn writer_errors() -> [WriterError; 4] {
    [
        WriterError::from(fmt::Error),
        WriterError::UnsupportedType,
        WriterError::from(AllocError),
        WriterError::from(AllocFailed { value: 1 }),
    ]
}

/// The cause of this word.
fn cause(alloc: Global, word: &str) -> Result<WasmValueError, AllocError> {
    let name = String::from_str(alloc, "a")?;
    let val = String::from_str(alloc, "a")?;
    Ok(match word {
        "missing field" => WasmValueError::MissingField(name),
        "missing payload" => WasmValueError::MissingPayload(name),
        "payload" => WasmValueError::UnexpectedPayload(name),
        "case" => WasmValueError::UnknownCase(name),
        "field" => WasmValueError::UnknownField(name),
        "type" => WasmValueError::UnsupportedType(name),
        "other" => WasmValueError::Other(name),
        "memory" => WasmValueError::from(AllocError),
        "memory for a value" => WasmValueError::from(AllocFailed { value: 1 }),
        "tuple" => WasmValueError::WrongNumberOfTupleValues { want: 2, got: 3 },
        "length" => WasmValueError::WrongNumberOfElements { want: 4, got: 3 },
        "kind" => WasmValueError::WrongTypeKind {
            kind: WasmTypeKind::List,
            ty: name,
        },
        _ => WasmValueError::WrongValueType { ty: name, val },
    })
}

/// The refusal with this detail or cause.
fn refusal(alloc: Global, word: &str) -> Result<ParserError, AllocError> {
    Ok(match word {
        "name" => ParserError::with_detail(
            ParserErrorKind::DuplicateField,
            7..9,
            String::from_str(alloc, "\"a\"")?,
        ),
        "cause" => ParserError::with_cause(
            0..1,
            WasmValueError::UnsupportedType(String::from_str(alloc, "f64")?),
        ),
        "memory" => ParserError::with_cause(0..1, WasmValueError::Memory(AllocError)),
        "from memory" => ParserError::from(AllocError),
        "token" => ParserError::with_static(ParserErrorKind::UnexpectedToken, 4..7, "String"),
        _ => ParserError::new(ParserErrorKind::TrailingCharacters, 2..3),
    })
}

/// Prints the words of the refusal, then all that it answers, and what it is where it is formatted.
fn answers(rt: HostRuntime, error: ParserError) -> Result<(), Stopped> {
    let (kind, span) = (error.kind(), error.span());
    let detail = error.detail().unwrap_or("no detail");
    print!(rt; "{error}: {kind}, {}..{}, {detail}, ", span.start, span.end)?;
    match error.cause() {
        Some(cause) => print!(rt; "{cause}, ")?,
        None => print!(rt; "no cause, ")?,
    }
    let formatted: fmt::Error = error.into();
    shown(rt, Ok::<bool, ParserError>(formatted == fmt::Error))
}
