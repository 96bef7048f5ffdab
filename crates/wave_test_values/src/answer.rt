//! What becomes of a call, and the printing of its answer.
use std::alloc::{AllocError, AllocFailed};
use std::fmt::Display;
use std::{fmt, io};
use wave_lex::error::{ParserError, ParserErrorKind};
use wave_type::error::{TypeError, TypeErrorKind};
use wave_value::value::Value;
use wave_wasm::wasm::WasmValueError;
use wave_writer::display::DisplayValue;
use wave_writer::writer::WriterError;

/// Why a call has no answer.
#[derive(Clone, Copy)]
pub enum Stopped {
    /// It is out of memory.
    OutOfMemory,
    /// There was no memory for what it is made on.
    NotCalled,
    /// There is no such call, or it can't be made on these words.
    NoCall,
}

impl fmt::Display for Stopped {
    fn fmt<W: fmt::Write>(&self, f: &mut fmt::Formatter<W>) -> fmt::Result {
        f.write_str(match self {
            Stopped::OutOfMemory => "ran out of memory",
            Stopped::NotCalled => "not called",
            Stopped::NoCall => "no such call",
        })
    }
}

// A call is out of memory.
impl From<AllocError> for Stopped {
    fn from(_error: AllocError) -> Stopped {
        Stopped::OutOfMemory
    }
}

impl<T: Drop> From<AllocFailed<T>> for Stopped {
    fn from(_error: AllocFailed<T>) -> Stopped {
        Stopped::OutOfMemory
    }
}

// A display is out of memory.
impl From<io::Error> for Stopped {
    fn from(_error: io::Error) -> Stopped {
        Stopped::OutOfMemory
    }
}

// There is no type to make the call on.
impl From<TypeErrorKind> for Stopped {
    fn from(kind: TypeErrorKind) -> Stopped {
        match kind {
            TypeErrorKind::OutOfMemory => Stopped::NotCalled,
            _ => Stopped::NoCall,
        }
    }
}

// There is no value to make the call on.
impl From<ParserError> for Stopped {
    fn from(error: ParserError) -> Stopped {
        match error.kind() {
            ParserErrorKind::OutOfMemory => Stopped::NotCalled,
            _ => Stopped::NoCall,
        }
    }
}

/// A refusal, which may be one of memory.
pub trait Refusal: Display + Drop {
    /// Whether it is one of memory.
    fn is_for_memory(&self) -> bool;
}

impl Refusal for ParserError {
    fn is_for_memory(&self) -> bool {
        self.kind() == ParserErrorKind::OutOfMemory
    }
}

impl Refusal for TypeError {
    fn is_for_memory(&self) -> bool {
        self.kind() == TypeErrorKind::OutOfMemory
    }
}

impl Refusal for WasmValueError {
    fn is_for_memory(&self) -> bool {
        matches!(self, WasmValueError::Memory(_))
    }
}

impl Refusal for WriterError {
    fn is_for_memory(&self) -> bool {
        matches!(self, WriterError::Memory(_))
    }
}

/// Prints the words of the refusal.
pub fn refused<E: Refusal>(rt: HostRuntime, error: &E) -> Result<(), Stopped> {
    if error.is_for_memory() {
        return Err(Stopped::OutOfMemory);
    }
    print!(rt; "{error}")?;
    Ok(())
}

/// Prints what is answered, or the words of the refusal.
pub fn shown<T: Display + Drop, E: Refusal>(
    rt: HostRuntime,
    answer: Result<T, E>,
) -> Result<(), Stopped> {
    match answer {
        Ok(read) => print!(rt; "{read}")?,
        Err(error) => refused(rt, &error)?,
    }
    Ok(())
}

/// Prints the text of the value that is answered, or the words of the refusal.
pub fn valued<E: Refusal>(rt: HostRuntime, answer: Result<Value, E>) -> Result<(), Stopped> {
    match answer {
        Ok(val) => print!(rt; "{}", DisplayValue::new(rt.alloc(), &val))?,
        Err(error) => refused(rt, &error)?,
    }
    Ok(())
}

/// The word at this place; nothing where there is none.
pub fn word(words: &[String], at: usize) -> &str {
    match words.get(at) {
        Some(word) => word.as_str(),
        None => "",
    }
}
