//! Why a text is no JSON of a value of a type.
ghost use Rattle.std.specs.Prelude.{◌≡◌, [], ◌++◌, Some, IfOk, string_bytes};
ghost use Rattle.wave_json.specs.Errors.{kind_words, error_text};
ghost use Rattle.wave_json.specs.Private.Stops.{IsAt, IsHere, IsRefusal, IsUnder, step_text};

use itoa::Buffer;
use std::alloc::{AllocError, AllocFailed, Global};
use std::fmt;
use std::marker::Model;
use thiserror::Error;
use wave_wasm::wasm::WasmValueError;

/// What is wrong.
#[derive(Clone, Copy, Debug, PartialEq, Eq, Drop)]
pub enum JsonErrorKind {
    /// The text is no JSON, or nests deeper than 128 arrays and objects.
    Syntax,
    /// A kind of JSON that no value of the type has.
    Mismatch,
    /// A number with a point or an exponent, or out of the type's range.
    Number,
    /// A string that is not one scalar.
    Char,
    /// More or fewer items than the type has.
    Length,
    /// A member, a case or a flag of a name that the type doesn't have.
    Unknown,
    /// A member, a flag or a key that stood before.
    Repeated,
    /// No member for a field that is no option.
    Missing,
    /// A case without its payload, or with one that it doesn't have.
    Payload,
    /// A type that has no values: `f32`, `f64`, or one that is unsupported.
    Unsupported,
    /// A value that its constructor refuses.
    Value,
    /// No memory was left.
    OutOfMemory,
}

impl JsonErrorKind {
    /// What is printed of the kind.
    fn words(self) -> &'static str
        ensures { result.now ≡ kind_words self }
    {
        match self {
            JsonErrorKind::Syntax => "invalid JSON",
            JsonErrorKind::Mismatch => "unexpected kind of JSON",
            JsonErrorKind::Number => "no whole number in range",
            JsonErrorKind::Char => "not one character",
            JsonErrorKind::Length => "wrong number of items",
            JsonErrorKind::Unknown => "unknown name",
            JsonErrorKind::Repeated => "repeated name or key",
            JsonErrorKind::Missing => "missing field",
            JsonErrorKind::Payload => "missing or unexpected payload",
            JsonErrorKind::Unsupported => "unsupported type",
            JsonErrorKind::Value => "value refused",
            JsonErrorKind::OutOfMemory => "out of memory",
        }
    }
}

impl fmt::Display for JsonErrorKind {
    ghost output = { λ kind. Some (kind_words kind) };

    fn fmt<W: fmt::Write>(&self, f: &mut fmt::Formatter<W>) -> fmt::Result {
        f.write_str(self.words())
    }
}

/// A refusal: its kind, the path to the part that is refused, and its place in the text, which are all
/// that a clause sees of it.
#[derive(Debug, Drop, Error)]
pub struct JsonError {
    kind: JsonErrorKind,
    path: String,
    place: usize,
}

impl Model for JsonError {
    ghost use Rattle.std.specs.Prelude.{string_bytes};
    ghost use Rattle.wave_json.specs.Errors.{Refusal};

    ghost Value = { Refusal };

    ghost view = { λ e. record { kind = e.kind; path = string_bytes e.path; place = e.place } };
}

impl JsonError {
    /// The kind of the refusal.
    pub fn kind(&self) -> JsonErrorKind
        ensures { result ≡ self.now.kind }
    {
        self.kind
    }

    /// The steps from the whole value to the part that is refused: `.name` to a member of an object, to
    /// the payload of a case and to a field that is missing, `[n]` to an item of an array, counted from
    /// zero. It is empty where the whole value is refused, or memory.
    pub fn path(&self) -> &str
        ensures { result.now ≡ self.now.path }
    {
        self.path.as_str()
    }

    /// How many bytes of the text stand before the part that is refused, before the name of a member that is
    /// unknown or repeated, or before what is no JSON; 0 where memory is refused.
    pub fn place(&self) -> usize
        ensures { result ≡ self.now.place }
    {
        self.place
    }

    /// The refusal of this kind.
    pub(crate) fn new(kind: JsonErrorKind, path: String, place: usize) -> JsonError
        ensures kind { result.kind ≡ kind }
        ensures path { result.path ≡ string_bytes path }
        ensures place { result.place ≡ place }
    {
        JsonError { kind, path, place }
    }
}

impl fmt::Display for JsonError {
    ghost output = { λ error. Some (error_text error) };

    fn fmt<W: fmt::Write>(&self, f: &mut fmt::Formatter<W>) -> fmt::Result {
        let kind = self.kind;
        let place = self.place;
        let path = self.path.as_str();
        write!(f, "{kind} at {place}: {path}")
    }
}

/// The steps to a part: as text, and where each part stands in the one around it, the innermost first.
#[derive(Debug, Drop)]
pub(crate) struct Trail {
    pub(crate) path: String,
    pub(crate) places: Vec<usize>,
}

impl Trail {
    /// No step.
    fn new(alloc: Global) -> Trail
        ensures { string_bytes result.path ≡ [] }
    {
        Trail {
            path: String::new(alloc),
            places: Vec::new(alloc),
        }
    }

    /// The step to the item at this place, or to the member of this name there, and behind it the trail.
    fn under(self, alloc: Global, place: usize, name: Option<&str>) -> Result<Trail, AllocError>
        ensures { IfOk result (λ trail. string_bytes trail.path ≡ step_text place name.entry ++ string_bytes self.path) }
    {
        let Trail { path, mut places } = self;
        let mut longer = String::new(alloc);
        match name {
            None => {
                longer.push_str("[")?;
                longer.push_str(Buffer::new().format(place))?;
                longer.push_str("]")?;
            }
            Some(name) => {
                longer.push_str(".")?;
                longer.push_str(name)?;
            }
        }
        longer.push_str(path.as_str())?;
        places.push(place)?;
        Ok(Trail {
            path: longer,
            places,
        })
    }
}

/// Why reading stopped.
#[derive(Debug, Drop)]
pub(crate) enum Stop {
    /// There was no memory.
    Memory,
    /// A constructor refused the value to which the trail leads.
    Refused(Trail),
    /// A fault of this kind in the part to which the trail leads.
    Fault(JsonErrorKind, Trail),
}

impl Stop {
    /// A fault of this kind in the part itself.
    pub(crate) fn here(alloc: Global, kind: JsonErrorKind) -> Stop
        ensures { IsHere kind result }
    {
        Stop::Fault(kind, Trail::new(alloc))
    }

    /// A fault of this kind in the part to which the step leads.
    pub(crate) fn at(alloc: Global, kind: JsonErrorKind, place: usize, name: Option<&str>) -> Stop
        ensures { IsAt (step_text place name.entry) kind result }
    {
        Stop::here(alloc, kind).under(alloc, place, name)
    }

    /// The same, seen from where the step begins.
    pub(crate) fn under(self, alloc: Global, place: usize, name: Option<&str>) -> Stop
        ensures { IsUnder (step_text place name.entry) self result }
    {
        match self {
            Stop::Memory => Stop::Memory,
            Stop::Refused(trail) => match trail.under(alloc, place, name) {
                Ok(trail) => Stop::Refused(trail),
                Err(_) => Stop::Memory,
            },
            Stop::Fault(kind, trail) => match trail.under(alloc, place, name) {
                Ok(trail) => Stop::Fault(kind, trail),
                Err(_) => Stop::Memory,
            },
        }
    }

    /// Why a constructor refused.
    pub(crate) fn refused(alloc: Global, cause: WasmValueError) -> Stop
        ensures { IsRefusal cause result }
    {
        match cause {
            WasmValueError::Memory(_) => Stop::Memory,
            _ => Stop::Refused(Trail::new(alloc)),
        }
    }
}

impl From<AllocError> for Stop {
    ghost use Rattle.wave_json.specs.declared.error.Stop.TheVariants.{Memory};

    ghost from_gives = { λ _ stop. stop ≡ Memory };

    fn from(_error: AllocError) -> Stop {
        Stop::Memory
    }
}

impl<T: Drop> From<AllocFailed<T>> for Stop {
    ghost use Rattle.wave_json.specs.declared.error.Stop.TheVariants.{Memory};

    ghost from_gives = { λ _ stop. stop ≡ Memory };

    fn from(_error: AllocFailed<T>) -> Stop {
        Stop::Memory
    }
}
