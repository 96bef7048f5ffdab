//! The library for C: each export calls the library, and writes and reports what the library answers.
//! `include/wave.h` declares them.
#![tactic(auto)]

ghost use Rattle.std.specs.Prelude.{◌≡◌, Some, None, []};
ghost use Rattle.wave_handle.specs.TypeHandle.{held_type};
ghost use Rattle.wave_handle.specs.FuncTypeHandle.{held_function_type};
ghost use Rattle.wave_c.specs.Answers.{IsSpelledBy, IsFunctionSpelledBy, IsHeldBy, SaysAt, FailsAt, IsCanonicalAt, IsTapeAt, IsWrittenAt, IsExplanationAt, IsExplanationBy, FailsToExplainBy, IsFunctionExplained, IsTypeTextAt, IsTypeTapeAt, IsFunctionTextAt, IsFunctionTapeAt, IsCallTapeAt, IsCallExplanationAt, IsDisplayOf, IsUntypedExplanationOf};
ghost use Rattle.wave_c.specs.Ends.{Tells, TellsOpening};
ghost use Rattle.wave_c.specs.Failures.{limit_of, IsRefusedAt, IsRefusedUntyped, IsRefusedCall, FailsAsType, FailsAsFunction, FailsAsHandle, FailsToRead, FailsToWrite, FailsToExplain, FailsToExplainType, FailsForMemory};

mod answer;
mod ended;
mod kinds;
mod types;
mod untyped;

use crate::answer::{canonical, explained, taped, written};
use crate::ended::{Ended, Failure, answer, tell};
use crate::types::{
    explained_by, func_explained, func_opened, func_tape, func_text, opened, type_tape, type_text,
};
use crate::untyped::{call_explained, called, untyped, untyped_explained};
use std::alloc::Global;
use wave_handle::func::FuncTypeHandle;
use wave_handle::ty::TypeHandle;

/// What is told beside the status and what stands in the buffer.
#[repr(C)]
#[derive(Drop)]
pub struct Report {
    /// How many bytes the answer has, also where the buffer has fewer.
    pub length: usize,
    /// The bytes where the refusal arose.
    pub start: usize,
    pub end: usize,
    /// The kind of the refusal; 0 for none.
    pub kind: u32,
}

/// The version of the library, 0.1.0: a byte each for its three numbers.
#[unsafe(no_mangle)]
pub extern "C" fn wave_version() -> u32
    ensures { result ≡ 0x00_01_00 }
{
    0x00_01_00
}

// ---- without a type

/// The display of the text, which is read without a type.
#[unsafe(no_mangle)]
pub extern "C" fn wave_untyped(
    alloc: Global,
    text: &[u8],
    levels: u32,
    out: &mut [u8],
    report: &mut Report,
) -> u32
    ensures told { let n = limit_of levels in
        Tells (IsDisplayOf n text.now) (FailsToRead (IsRefusedUntyped n text.now) text.now) out.old out.new result report.new }
{
    let said = untyped(alloc, text, levels);
    answer(out, said, report)
}

/// What explains its refusal; nothing where it isn't refused.
#[unsafe(no_mangle)]
pub extern "C" fn wave_untyped_explain(
    alloc: Global,
    text: &[u8],
    levels: u32,
    out: &mut [u8],
    report: &mut Report,
) -> u32
    ensures told { let n = limit_of levels in
        Tells (IsUntypedExplanationOf n text.now) (FailsToExplain text.now) out.old out.new result report.new }
{
    let said = untyped_explained(alloc, text, levels);
    answer(out, said, report)
}

// ---- handles of types

/// Opens the handle with the type that the text spells; where that fails it stays as it is.
#[unsafe(no_mangle)]
pub extern "C" fn wave_type_open(
    alloc: Global,
    ty: &[u8],
    levels: u32,
    handle: &mut TypeHandle,
    report: &mut Report,
) -> u32
    ensures told { let n = limit_of levels in
        TellsOpening (SaysAt (IsSpelledBy ty.now) (λ T _. held_type handle.new ≡ Some T) []) (handle.new ≡ handle.old) (FailsAsType n ty.now) result report.new }
{
    let ended = match opened(alloc, ty, levels) {
        Ok(ty) => match handle.open(alloc, ty) {
            Ok(()) => Ended::Done(0),
            Err(_) => Ended::Failed(Failure::Memory),
        },
        Err(failure) => Ended::Failed(failure),
    };
    tell(&ended, report)
}

/// Closes the handle.
#[unsafe(no_mangle)]
pub extern "C" fn wave_type_close(handle: &mut TypeHandle)
    ensures { held_type handle.new ≡ None }
{
    handle.close();
}

/// The canonical text of the type.
#[unsafe(no_mangle)]
pub extern "C" fn wave_type_text(
    alloc: Global,
    handle: &mut TypeHandle,
    out: &mut [u8],
    report: &mut Report,
) -> u32
    ensures told { Tells (SaysAt (IsHeldBy (held_type handle.old)) (IsTypeTextAt)) (FailsAt (IsHeldBy (held_type handle.old)) (FailsAsHandle (held_type handle.old)) (λ T. FailsForMemory)) out.old out.new result report.new }
    ensures kept { held_type handle.new ≡ held_type handle.old }
{
    let said = match handle.get() {
        Some(ty) => type_text(alloc, ty),
        None => Err(Failure::Closed),
    };
    answer(out, said, report)
}

/// The tape of the type.
#[unsafe(no_mangle)]
pub extern "C" fn wave_type_tape(
    alloc: Global,
    handle: &mut TypeHandle,
    out: &mut [u8],
    report: &mut Report,
) -> u32
    ensures told { Tells (SaysAt (IsHeldBy (held_type handle.old)) (IsTypeTapeAt)) (FailsAt (IsHeldBy (held_type handle.old)) (FailsAsHandle (held_type handle.old)) (λ T. FailsForMemory)) out.old out.new result report.new }
    ensures kept { held_type handle.new ≡ held_type handle.old }
{
    let said = match handle.get() {
        Some(ty) => type_tape(alloc, ty),
        None => Err(Failure::Closed),
    };
    answer(out, said, report)
}

// ---- values at a type that a handle holds

/// The canonical text of the value that the text means at the type.
#[unsafe(no_mangle)]
pub extern "C" fn wave_canonical(
    alloc: Global,
    handle: &mut TypeHandle,
    text: &[u8],
    levels: u32,
    out: &mut [u8],
    report: &mut Report,
) -> u32
    ensures told { let n = limit_of levels in
        Tells (SaysAt (IsHeldBy (held_type handle.old)) (IsCanonicalAt n text.now)) (FailsAt (IsHeldBy (held_type handle.old)) (FailsAsHandle (held_type handle.old)) (λ T. FailsToRead (IsRefusedAt n text.now T) text.now)) out.old out.new result report.new }
    ensures kept { held_type handle.new ≡ held_type handle.old }
{
    let said = match handle.get() {
        Some(ty) => canonical(alloc, ty, text, levels),
        None => Err(Failure::Closed),
    };
    answer(out, said, report)
}

/// Its tape.
#[unsafe(no_mangle)]
pub extern "C" fn wave_read(
    alloc: Global,
    handle: &mut TypeHandle,
    text: &[u8],
    levels: u32,
    out: &mut [u8],
    report: &mut Report,
) -> u32
    ensures told { let n = limit_of levels in
        Tells (SaysAt (IsHeldBy (held_type handle.old)) (IsTapeAt n text.now)) (FailsAt (IsHeldBy (held_type handle.old)) (FailsAsHandle (held_type handle.old)) (λ T. FailsToRead (IsRefusedAt n text.now T) text.now)) out.old out.new result report.new }
    ensures kept { held_type handle.new ≡ held_type handle.old }
{
    let said = match handle.get() {
        Some(ty) => taped(alloc, ty, text, levels),
        None => Err(Failure::Closed),
    };
    answer(out, said, report)
}

/// The canonical text of the value of the type of which the bytes are the tape.
#[unsafe(no_mangle)]
pub extern "C" fn wave_write(
    alloc: Global,
    handle: &mut TypeHandle,
    tape: &[u8],
    out: &mut [u8],
    report: &mut Report,
) -> u32
    ensures told { Tells (SaysAt (IsHeldBy (held_type handle.old)) (IsWrittenAt tape.now)) (FailsAt (IsHeldBy (held_type handle.old)) (FailsAsHandle (held_type handle.old)) (FailsToWrite tape.now)) out.old out.new result report.new }
    ensures kept { held_type handle.new ≡ held_type handle.old }
{
    let said = match handle.get() {
        Some(ty) => written(alloc, ty, tape),
        None => Err(Failure::Closed),
    };
    answer(out, said, report)
}

/// What explains the refusal of the text at the type; nothing where it isn't refused.
#[unsafe(no_mangle)]
pub extern "C" fn wave_explain(
    alloc: Global,
    handle: &mut TypeHandle,
    text: &[u8],
    levels: u32,
    out: &mut [u8],
    report: &mut Report,
) -> u32
    ensures told { let n = limit_of levels in
        Tells (SaysAt (IsHeldBy (held_type handle.old)) (IsExplanationAt n text.now)) (FailsAt (IsHeldBy (held_type handle.old)) (FailsAsHandle (held_type handle.old)) (λ T. FailsToExplain text.now)) out.old out.new result report.new }
    ensures kept { held_type handle.new ≡ held_type handle.old }
{
    let said = match handle.get() {
        Some(ty) => explained(alloc, ty, text, levels),
        None => Err(Failure::Closed),
    };
    answer(out, said, report)
}

// ---- the same at a type's text

/// The canonical text of the type that the text spells.
#[unsafe(no_mangle)]
pub extern "C" fn wave_type_text_at(
    alloc: Global,
    ty: &[u8],
    levels: u32,
    out: &mut [u8],
    report: &mut Report,
) -> u32
    ensures told { let n = limit_of levels in
        Tells (SaysAt (IsSpelledBy ty.now) (IsTypeTextAt)) (FailsAt (IsSpelledBy ty.now) (FailsAsType n ty.now) (λ T. FailsForMemory)) out.old out.new result report.new }
{
    let said = match opened(alloc, ty, levels) {
        Ok(ty) => type_text(alloc, &ty),
        Err(failure) => Err(failure),
    };
    answer(out, said, report)
}

/// The canonical text of the value that the text means at the type.
#[unsafe(no_mangle)]
pub extern "C" fn wave_canonical_at(
    alloc: Global,
    ty: &[u8],
    text: &[u8],
    levels: u32,
    out: &mut [u8],
    report: &mut Report,
) -> u32
    ensures told { let n = limit_of levels in
        Tells (SaysAt (IsSpelledBy ty.now) (IsCanonicalAt n text.now)) (FailsAt (IsSpelledBy ty.now) (FailsAsType n ty.now) (λ T. FailsToRead (IsRefusedAt n text.now T) text.now)) out.old out.new result report.new }
{
    let said = match opened(alloc, ty, levels) {
        Ok(ty) => canonical(alloc, &ty, text, levels),
        Err(failure) => Err(failure),
    };
    answer(out, said, report)
}

/// Its tape.
#[unsafe(no_mangle)]
pub extern "C" fn wave_read_at(
    alloc: Global,
    ty: &[u8],
    text: &[u8],
    levels: u32,
    out: &mut [u8],
    report: &mut Report,
) -> u32
    ensures told { let n = limit_of levels in
        Tells (SaysAt (IsSpelledBy ty.now) (IsTapeAt n text.now)) (FailsAt (IsSpelledBy ty.now) (FailsAsType n ty.now) (λ T. FailsToRead (IsRefusedAt n text.now T) text.now)) out.old out.new result report.new }
{
    let said = match opened(alloc, ty, levels) {
        Ok(ty) => taped(alloc, &ty, text, levels),
        Err(failure) => Err(failure),
    };
    answer(out, said, report)
}

/// The canonical text of the value of the type of which the bytes are the tape.
#[unsafe(no_mangle)]
pub extern "C" fn wave_write_at(
    alloc: Global,
    ty: &[u8],
    tape: &[u8],
    levels: u32,
    out: &mut [u8],
    report: &mut Report,
) -> u32
    ensures told { let n = limit_of levels in
        Tells (SaysAt (IsSpelledBy ty.now) (IsWrittenAt tape.now)) (FailsAt (IsSpelledBy ty.now) (FailsAsType n ty.now) (FailsToWrite tape.now)) out.old out.new result report.new }
{
    let said = match opened(alloc, ty, levels) {
        Ok(ty) => written(alloc, &ty, tape),
        Err(failure) => Err(failure),
    };
    answer(out, said, report)
}

/// What explains the refusal of the type's text, or of the text at the type; nothing where neither is
/// refused.
#[unsafe(no_mangle)]
pub extern "C" fn wave_explain_at(
    alloc: Global,
    ty: &[u8],
    text: &[u8],
    levels: u32,
    out: &mut [u8],
    report: &mut Report,
) -> u32
    ensures told { let n = limit_of levels in
        Tells (IsExplanationBy n ty.now text.now) (FailsToExplainBy ty.now text.now) out.old out.new result report.new }
{
    let said = explained_by(alloc, ty, text, levels);
    answer(out, said, report)
}

// ---- calls of a function

/// Opens the handle with the function's type that the text spells; where that fails it stays as it is.
#[unsafe(no_mangle)]
pub extern "C" fn wave_func_open(
    alloc: Global,
    func: &[u8],
    levels: u32,
    handle: &mut FuncTypeHandle,
    report: &mut Report,
) -> u32
    ensures told { let n = limit_of levels in
        TellsOpening (SaysAt (IsFunctionSpelledBy func.now) (λ f _. held_function_type handle.new ≡ Some f) []) (handle.new ≡ handle.old) (FailsAsFunction n func.now) result report.new }
{
    let ended = match func_opened(alloc, func, levels) {
        Ok(func) => match handle.open(alloc, func) {
            Ok(()) => Ended::Done(0),
            Err(_) => Ended::Failed(Failure::Memory),
        },
        Err(failure) => Ended::Failed(failure),
    };
    tell(&ended, report)
}

/// Closes the handle.
#[unsafe(no_mangle)]
pub extern "C" fn wave_func_close(handle: &mut FuncTypeHandle)
    ensures { held_function_type handle.new ≡ None }
{
    handle.close();
}

/// The canonical text of the function's type.
#[unsafe(no_mangle)]
pub extern "C" fn wave_func_text(
    alloc: Global,
    handle: &mut FuncTypeHandle,
    out: &mut [u8],
    report: &mut Report,
) -> u32
    ensures told { Tells (SaysAt (IsHeldBy (held_function_type handle.old)) (IsFunctionTextAt)) (FailsAt (IsHeldBy (held_function_type handle.old)) (FailsAsHandle (held_function_type handle.old)) (λ f. FailsForMemory)) out.old out.new result report.new }
    ensures kept { held_function_type handle.new ≡ held_function_type handle.old }
{
    let said = match handle.get() {
        Some(func) => func_text(alloc, func),
        None => Err(Failure::Closed),
    };
    answer(out, said, report)
}

/// Its tape.
#[unsafe(no_mangle)]
pub extern "C" fn wave_func_tape(
    alloc: Global,
    handle: &mut FuncTypeHandle,
    out: &mut [u8],
    report: &mut Report,
) -> u32
    ensures told { Tells (SaysAt (IsHeldBy (held_function_type handle.old)) (IsFunctionTapeAt)) (FailsAt (IsHeldBy (held_function_type handle.old)) (FailsAsHandle (held_function_type handle.old)) (λ f. FailsForMemory)) out.old out.new result report.new }
    ensures kept { held_function_type handle.new ≡ held_function_type handle.old }
{
    let said = match handle.get() {
        Some(func) => func_tape(alloc, func),
        None => Err(Failure::Closed),
    };
    answer(out, said, report)
}

/// The tape of the call that the text is.
#[unsafe(no_mangle)]
pub extern "C" fn wave_call(
    alloc: Global,
    handle: &mut FuncTypeHandle,
    text: &[u8],
    levels: u32,
    out: &mut [u8],
    report: &mut Report,
) -> u32
    ensures told { let n = limit_of levels in
        Tells (SaysAt (IsHeldBy (held_function_type handle.old)) (IsCallTapeAt n text.now)) (FailsAt (IsHeldBy (held_function_type handle.old)) (FailsAsHandle (held_function_type handle.old)) (λ f. FailsToRead (IsRefusedCall n text.now f) text.now)) out.old out.new result report.new }
    ensures kept { held_function_type handle.new ≡ held_function_type handle.old }
{
    let said = match handle.get() {
        Some(func) => called(alloc, func, text, levels),
        None => Err(Failure::Closed),
    };
    answer(out, said, report)
}

/// What explains the refusal of the call; nothing where it isn't refused.
#[unsafe(no_mangle)]
pub extern "C" fn wave_call_explain(
    alloc: Global,
    handle: &mut FuncTypeHandle,
    text: &[u8],
    levels: u32,
    out: &mut [u8],
    report: &mut Report,
) -> u32
    ensures told { let n = limit_of levels in
        Tells (SaysAt (IsHeldBy (held_function_type handle.old)) (IsCallExplanationAt n text.now)) (FailsAt (IsHeldBy (held_function_type handle.old)) (FailsAsHandle (held_function_type handle.old)) (λ f. FailsToExplain text.now)) out.old out.new result report.new }
    ensures kept { held_function_type handle.new ≡ held_function_type handle.old }
{
    let said = match handle.get() {
        Some(func) => call_explained(alloc, func, text, levels),
        None => Err(Failure::Closed),
    };
    answer(out, said, report)
}

/// What explains the refusal of the text of a function's type; nothing where it isn't refused.
#[unsafe(no_mangle)]
pub extern "C" fn wave_func_explain_at(
    alloc: Global,
    func: &[u8],
    levels: u32,
    out: &mut [u8],
    report: &mut Report,
) -> u32
    ensures told { let n = limit_of levels in
        Tells (IsFunctionExplained n func.now) (FailsToExplainType func.now) out.old out.new result report.new }
{
    let said = func_explained(alloc, func, levels);
    answer(out, said, report)
}
