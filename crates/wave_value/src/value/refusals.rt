//! Refusals of the constructors: their texts, or out of memory where a text can't be made.
ghost use Rattle.wave_value.specs.Private.ConstructorRules.{SaysKind, SaysType};
ghost use Rattle.wave_value.specs.Private.RecordConstructor.{SaysName};

use super::{Type, Value};
use std::alloc::{AllocError, Global};
use wave_wasm::wasm::{WasmTypeKind, WasmValueError};
use wave_writer::writer;
use wave_writer::writer::WriterError;

// What shows a value in a refusal.
pub(super) trait ShowsValue {
    ghost use Rattle.std.specs.Prelude.{◌≡◌, ℕ, List, IfOk, string_bytes};
    ghost use Rattle.wave_value.specs.TypedValue.{TypedValue};

    ghost words: { TypedValue → List ℕ };

    fn show(alloc: Global, val: &Value) -> Result<String, AllocError>
        ensures { IfOk result (λ s. string_bytes s ≡ words val.now) };
}

// The value's canonical text.
pub(super) struct ByText;

impl ShowsValue for ByText {
    ghost use Rattle.wave_value.specs.ConstructorRules.{value_text};

    ghost words = { value_text };

    fn show(alloc: Global, val: &Value) -> Result<String, AllocError> {
        let _ = &val.content;
        match writer::to_string(alloc, val) {
            Ok(text) => Ok(text),
            Err(WriterError::Memory(e)) => Err(e),
            Err(_) => unreachable!(),
        }
    }
}

// The text of the value's own type: the constructors that the writer stands on can't call the writer.
pub(super) struct ByType;

impl ShowsValue for ByType {
    ghost use Rattle.wave_value.specs.ConstructorRules.{own_text};

    ghost words = { own_text };

    fn show(alloc: Global, val: &Value) -> Result<String, AllocError> {
        let own = val.ty()?;
        own.to_string(alloc)
    }
}

// The type is of another kind than this one.
pub(super) fn wrong_kind(alloc: Global, kind: WasmTypeKind, ty: &Type) -> WasmValueError
    ensures { SaysKind kind ty.now result }
{
    match ty.to_string(alloc) {
        Ok(ty) => WasmValueError::WrongTypeKind { kind, ty },
        Err(e) => WasmValueError::Memory(e),
    }
}

// The value is of another type than this one.
pub(super) fn wrong_type<S: ShowsValue>(alloc: Global, ty: &Type, val: &Value) -> WasmValueError
    ensures { SaysType S.words ty.now val.now result }
{
    match ty.to_string(alloc) {
        Ok(ty) => match S::show(alloc, val) {
            Ok(val) => WasmValueError::WrongValueType { ty, val },
            Err(e) => WasmValueError::Memory(e),
        },
        Err(e) => WasmValueError::Memory(e),
    }
}

// What is amiss with the case or the field that a refusal names.
#[derive(Clone, Copy)]
pub(super) enum NameErrorKind {
    // The type has no case or flag of this name.
    UnknownCase,
    // The payload of this case is missing.
    MissingPayload,
    // The case of this name has no payload.
    UnexpectedPayload,
    // No value is handed in for the field of this name, or the type has it twice.
    MissingField,
    // The type has no field of this name.
    UnknownField,
}

// This is amiss with the case or the field of this name.
#[tactic(auto, using(crate::proofs::ConstructorAnswers::OutOfMemory::memory_said))]
pub(super) fn named(alloc: Global, amiss: NameErrorKind, name: &str) -> WasmValueError
    ensures { SaysName amiss name.now result }
{
    match String::from_str(alloc, name) {
        Ok(name) => match amiss {
            NameErrorKind::UnknownCase => WasmValueError::UnknownCase(name),
            NameErrorKind::MissingPayload => WasmValueError::MissingPayload(name),
            NameErrorKind::UnexpectedPayload => WasmValueError::UnexpectedPayload(name),
            NameErrorKind::MissingField => WasmValueError::MissingField(name),
            NameErrorKind::UnknownField => WasmValueError::UnknownField(name),
        },
        Err(e) => WasmValueError::Memory(e),
    }
}
