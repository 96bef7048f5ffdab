//! The keys and the fields of records.
ghost use Rattle.std.specs.Prelude.{ℕ, ◌≡◌, List, [], IfOk, Some};
ghost use Rattle.wave_wasm.specs.Borrowed.{denoted_fields};
ghost use Rattle.wave_wasm.specs.Types.{fields_of};
ghost use Rattle.wave_lex.specs.Errors.{Says, field_label_expected, repeated_name};
ghost use Rattle.wave_lex.specs.declared.error.ParserErrorKind.TheVariants.{DuplicateField, InvalidType};
ghost use Rattle.wave_grammar.specs.Nodes.{IsParsedFrom, IsTokenOf};
ghost use Rattle.wave_grammar.specs.NodeTree.{place_of};
ghost use Rattle.wave_grammar.specs.SpannedTree.{PlacedEntry};
ghost use Rattle.wave_grammar.specs.FaultOrder.{LeftOut};
ghost use Rattle.wave_faults.specs.AllFaults.{Alone, EachLeftOut};
ghost use Rattle.wave_faults.specs.Private.Told.{Adds};
ghost use Rattle.wave_faults.specs.Private.RecordFaults.{HasNames, KeyTold, LooksUp, names_behind};

use crate::told::{tell_cause, tell_error};
use std::alloc::{AllocError, Global};
use std::collections::BTreeMap;
use wave_lex::error::{ParserError, ParserErrorKind};
use wave_node::ast::Node;
use wave_wasm::wasm::{WasmType, WasmTypeKind, WasmValueError};

/// The type of the first field of each name.
pub(crate) fn types_by_name<'a, T: WasmType>(
    alloc: Global,
    fields: &[(&'a str, &'a T)],
) -> Result<BTreeMap<&'a str, &'a T>, AllocError>
    ensures { IfOk result (λ types. LooksUp T.tree types (denoted_fields T.tree fields.now)) }
{
    let mut types = BTreeMap::new(alloc);
    let mut i = fields.len();
    while i > 0 {
        i -= 1;
        let (name, ty) = fields[i];
        types.insert(name, ty)?;
    }
    Ok(types)
}

/// Tells that the key is no label, or has the name of an earlier one. Its name is then seen, and answered.
pub(crate) fn tell_key<'source>(
    alloc: Global,
    source: &'source str,
    key: &Node,
    seen: &mut BTreeMap<&'source str, ()>,
    told: &mut Vec<ParserError>,
) -> Result<Option<&'source str>, AllocError>
    requires { IsParsedFrom source.now key.now }
    ensures { IfOk result (λ name. (earlier : List (List ℕ)) (e : PlacedEntry) → HasNames seen.old earlier → IsTokenOf source.now key.now e.place e.key
        → KeyTold earlier e name seen.new told.old.items told.new.items) }
{
    let name = match key.as_enum(source) {
        Ok(name) => name,
        Err(_) => {
            tell_error(no_label(key), told)?;
            return Ok(None);
        }
    };
    match seen.insert(name, ())? {
        None => Ok(Some(name)),
        Some(_) => {
            tell_error(repeated(alloc, key, name)?, told)?;
            Ok(Some(name))
        }
    }
}

/// The refusal of a key that is no label.
fn no_label(key: &Node) -> ParserError
    ensures { Says result InvalidType (place_of key.now) (Some field_label_expected) }
{
    ParserError::with_static(
        ParserErrorKind::InvalidType,
        key.span(),
        "expected a record field label",
    )
}

/// The refusal of a key whose name an earlier one has.
fn repeated(alloc: Global, key: &Node, name: &str) -> Result<ParserError, AllocError>
    ensures { IfOk result (λ e. Says e DuplicateField (place_of key.now) (Some (repeated_name name.now))) }
{
    let detail = format!(in alloc; "\"{name}\"")?;
    Ok(ParserError::with_detail(ParserErrorKind::DuplicateField, key.span(), detail))
}

/// Tells which fields are left out: those whose names weren't seen, but for options.
pub(crate) fn tell_left_out<T: WasmType>(
    alloc: Global,
    node: &Node,
    fields: &[(&str, &T)],
    seen: &BTreeMap<&str, ()>,
    told: &mut Vec<ParserError>,
) -> Result<(), AllocError>
    ensures { IfOk result (λ _. (es : List PlacedEntry) → HasNames seen.now (names_behind [] es)
        → Adds (EachLeftOut (fields_of (denoted_fields T.tree fields.now)) es (place_of node.now)) told.old.items told.new.items) }
{
    for i in 0..fields.len() {
        let (name, ty) = fields[i];
        tell_missing(alloc, node, name, ty, seen, told)?;
    }
    Ok(())
}

/// Tells that the field of this name and type is left out, where its name wasn't seen, but for an
/// option.
fn tell_missing<T: WasmType>(
    alloc: Global,
    node: &Node,
    name: &str,
    ty: &T,
    seen: &BTreeMap<&str, ()>,
    told: &mut Vec<ParserError>,
) -> Result<(), AllocError>
    ensures { IfOk result (λ _. (es : List PlacedEntry) → HasNames seen.now (names_behind [] es)
        → Adds (Alone (LeftOut name.now (T.tree ty.now) es (place_of node.now))) told.old.items told.new.items) }
{
    if ty.kind() == WasmTypeKind::Option {
        return Ok(());
    }
    if seen.contains_key(name) {
        return Ok(());
    }
    let name = String::from_str(alloc, name)?;
    tell_cause(node, WasmValueError::MissingField(name), told)
}
