//! Flags, read at their types.
ghost use Rattle.std.specs.Prelude.{ℕ, List, ◌≡◌, IfOk, IfErr};
ghost use Rattle.wave_wasm.specs.Types.{HasDistinctNames, kind_of, flags_names};
ghost use Rattle.wave_wasm.specs.Names.{AreAllOf, AreDistinct, found_in};
ghost use Rattle.wave_wasm.specs.Borrowed.{texts};
ghost use Rattle.wave_wasm.specs.ValueErrors.{unknown_case};
ghost use Rattle.wave_grammar.specs.FaultOrder.{Order};
ghost use Rattle.wave_grammar.specs.NodeTree.{NodeTree, place_of, children_of};
ghost use Rattle.wave_grammar.specs.NodeFlags.{AreFlags, names_at};
ghost use Rattle.wave_leaf.specs.Reading.{IsReadAs, IsOfType};
ghost use Rattle.wave_read.specs.Private.NamedFlags.{flag_names, IsReadOrReported, ReportsCause, ReportsUnknown};

use std::alloc::Global;
use std::collections::BTreeMap;
use wave_leaf::error::{ReadError, Reason};
use wave_leaf::fault::{Fault, caused};
use wave_lex::error::ParserErrorKind;
use wave_lex::lex::Span;
use wave_wasm::wasm::{WasmType, WasmTypeKind, WasmValue, WasmValueError};

/// The value of these flags, whose node stands here, or of none, where `{}` does. A flag that the type doesn't
/// name is `UnknownCase`.
pub(crate) fn read_flags<V: WasmValue>(
    alloc: Global,
    ty: &V::Type,
    span: Span,
    flags: BTreeMap<&str, Span>,
) -> Result<V, ReadError>
    requires { kind_of (V.Type.tree ty.now) ≡ WasmTypeKind.Flags }
    ensures read { (o w : Order) (source : List ℕ) (n : NodeTree) → AreFlags n → place_of n ≡ span
        → names_at source (children_of n) ≡ flag_names flags.entry → IsReadAs V.tree V.is_of V.is_full o w (V.Type.tree ty.now) source n result }
    ensures typed { IsOfType V.is_of (V.Type.tree ty.now) result }
{
    match read_names(alloc, ty, flags) {
        Ok(val) => Ok(val),
        Err(fault) => Err(fault.report(span)),
    }
}

/// The value of the flags of these names.
fn read_names<V: WasmValue>(
    alloc: Global,
    ty: &V::Type,
    flags: BTreeMap<&str, Span>,
) -> Result<V, Fault>
    requires { kind_of (V.Type.tree ty.now) ≡ WasmTypeKind.Flags }
    ensures read { (source : List ℕ) (n : NodeTree) → AreFlags n → names_at source (children_of n) ≡ flag_names flags.entry
        → IsReadOrReported V.tree V.is_of V.is_full (V.Type.tree ty.now) source n result }
    ensures typed { IfOk result (λ val. HasDistinctNames (V.Type.tree ty.now) → V.is_of val (V.Type.tree ty.now)) }
{
    let picked = picked(alloc, ty, &flags)?;
    match V::make_flags(alloc, ty, picked.as_slice()) {
        Ok(val) => Ok(val),
        Err(cause) => Err(caused(alloc, cause)),
    }
}

/// Those of the type's names that flags have, in the type's order; each flag has one of the names.
fn picked<'name, T: WasmType>(
    alloc: Global,
    ty: &T,
    flags: &BTreeMap<&'name str, Span>,
) -> Result<Vec<&'name str>, Fault>
    ensures known { IfOk result (λ _. AreAllOf (flags_names (T.tree ty.now)) (flag_names flags.now)) }
    ensures picked { IfOk result (λ picked. AreDistinct (flags_names (T.tree ty.now))
        → texts picked.items ≡ found_in (flag_names flags.now) (flags_names (T.tree ty.now))) }
    ensures refused { IfErr result (ReportsUnknown (flags_names (T.tree ty.now)) (flag_names flags.now)) }
{
    let mut placed = BTreeMap::new(alloc);
    for name in flags.keys() {
        let place = match ty.flag_place(alloc, *name) {
            Ok(Some(place)) => place,
            Ok(None) => return Err(unknown(alloc, *name)),
            Err(_) => return Err(Fault::Whole(Reason::Plain(ParserErrorKind::OutOfMemory))),
        };
        if placed.insert(place, *name).is_err() {
            return Err(Fault::Whole(Reason::Plain(ParserErrorKind::OutOfMemory)));
        }
    }
    match placed.into_values().collect(alloc) {
        Ok(picked) => Ok(picked),
        Err(_) => Err(Fault::Whole(Reason::Plain(ParserErrorKind::OutOfMemory))),
    }
}

/// The fault of a flag that the type doesn't name.
fn unknown(alloc: Global, name: &str) -> Fault
    ensures { ReportsCause (unknown_case name.now) result }
{
    match String::from_str(alloc, name) {
        Ok(name) => caused(alloc, WasmValueError::UnknownCase(name)),
        Err(_) => Fault::Whole(Reason::Plain(ParserErrorKind::OutOfMemory)),
    }
}
