//! What is wrong with a value, before its end is seen.
ghost use Rattle.std.specs.Prelude.{MatchOption};
ghost use Rattle.wave_leaf.specs.Faults.{IsOfKind, Reports, IsBuiltAt};
ghost use Rattle.wave_leaf.specs.FaultCauses.{IsFaultOf};

use crate::error::{ReadError, Reason};
use std::alloc::Global;
use wave_lex::error::{Detail, ParserErrorKind};
use wave_lex::lex::Span;
use wave_wasm::wasm::WasmValueError;

/// What is wrong with a value that has parts.
#[derive(Drop)]
pub enum Fault {
    /// The error of a part.
    Part(ReadError),
    /// Why the whole value is refused. Where it stands is reported at the end.
    Whole(Reason),
}

impl Fault {
    /// The error of the whole value, which stands here, where the fault says its kind alone.
    pub fn of_kind(&self, span: Span) -> Option<ReadError>
        ensures { MatchOption result (IsOfKind self.now → ⊥) (Reports self.now span) }
    {
        match self {
            Fault::Whole(Reason::Plain(kind)) => Some(ReadError::at(span, Reason::Plain(*kind))),
            _ => None,
        }
    }

    /// The error, where the whole value stands here.
    #[cold]
    #[inline(never)]
    pub fn report(self, span: Span) -> ReadError
        ensures { Reports self span result }
    {
        match self {
            Fault::Part(error) => error,
            Fault::Whole(reason) => ReadError::at(span, reason),
        }
    }
}

/// The fault with this cause; where there is no memory for one that has a text, out of memory.
pub fn caused(alloc: Global, cause: WasmValueError) -> Fault
    ensures { IsFaultOf cause result }
{
    Fault::Whole(Reason::new(alloc, ParserErrorKind::WasmValueError, Detail::Cause(cause)))
}

/// The value that was made, or its constructor's refusal as an error that stands there.
pub fn or_error_at<V>(
    alloc: Global,
    span: Span,
    built: Result<V, WasmValueError>,
) -> Result<V, ReadError>
    ensures { IsBuiltAt span built result }
{
    match built {
        Ok(val) => Ok(val),
        Err(cause) => Err(ReadError::with_cause(alloc, span, cause)),
    }
}
