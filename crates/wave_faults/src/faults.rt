//! All faults of a value at a type, and not only the first.
ghost use Rattle.std.specs.Prelude.{ℕ, ◌≡◌, ◌≢◌, [], Some, IfOk, IfSome, IfNone};
ghost use Rattle.wave_wasm.specs.Borrowed.{denoted};
ghost use Rattle.wave_wasm.specs.Types as type;
ghost use Rattle.wave_wasm.specs.Types.{Fields, flags_names, kind_of, maybe_type, record_parts};
ghost use Rattle.wave_wasm.specs.ValueErrors.{cause_of, wrong_length};
ghost use Rattle.wave_grammar.specs.NodeAccessors.{denoted_node};
ghost use Rattle.wave_grammar.specs.Nodes.{IsNodeOf};
ghost use Rattle.wave_grammar.specs.NodeTree.{place_of, type_of};
ghost use Rattle.wave_grammar.specs.PartReading.{IsPayloadNodeOf};
ghost use Rattle.wave_grammar.specs.SpannedTree.{MaybePlaced, SpannedTree};
ghost use Rattle.wave_grammar.specs.TypedReading.{IsValueOf};
ghost use Rattle.wave_faults.specs.AllFaults.{Alone, AreFaultsOfPayload};
ghost use Rattle.wave_faults.specs.FaultsOfText.{AreFaultsOf};
ghost use Rattle.wave_faults.specs.Private.Told.{Adds, AddsFaults, list_of};
ghost use Rattle.wave_faults.specs.Private.FlagFaults.{UnknownFlag};
ghost use Rattle.wave_faults.specs.Private.RecordFaults.{EntriesTold, HasNames, LooksUp};

use crate::leaves::{leaf_error, tell_map_key};
use crate::records::{tell_key, tell_left_out, types_by_name};
use crate::told::{tell_cause, tell_error};
use std::alloc::{AllocError, Global};
use std::collections::BTreeMap;
use wave_grammar::typed::flat_type;
use wave_lex::error::{ParserError, ParserErrorKind};
use wave_node::ast::{Node, NodeType};
use wave_wasm::wasm::{WasmType, WasmTypeKind, WasmValueError};

/// All faults of the node at the type, each as reading the text at the type refuses it: its kind, its
/// span and its detail or cause. They come as the tokens stand in the text, those of a part before what
/// is wrong with the whole that ends behind it (a field that is left out, a tuple's number of items); of
/// flags in the byte order of their names. The first is the error of `from_str`, and there is none where
/// the text means a value. A part of another form than its type's is one fault, and nothing within it is
/// read; a record is refused once for all its unknown fields. The node was parsed from `source`, as a
/// value.
pub fn faults<T: WasmType>(
    alloc: Global,
    source: &str,
    node: &Node,
    ty: &T,
) -> Result<Vec<ParserError>, AllocError>
    requires { IsValueOf source.now node.now }
    ensures { IfOk result (λ errors. AreFaultsOf (T.tree ty.now) source.now node.now errors.items) }
{
    let mut told = Vec::new(alloc);
    tell(alloc, source, node, ty, &mut told)?;
    Ok(told)
}

/// Tells the faults of the node at the type. Each level of the value takes such a call.
#[cycle(telling)]
fn tell<T: WasmType>(
    alloc: Global,
    source: &str,
    node: &Node,
    ty: &T,
    told: &mut Vec<ParserError>,
) -> Result<(), AllocError>
    requires { IsValueOf source.now node.now }
    ensures { IfOk result (λ _. AddsFaults (T.tree ty.now) source.now node.now told.old.items told.new.items) }
{
    if let Some(element) = ty.list_element_type() {
        return tell_list(alloc, source, node, element, ty.list_length(), told);
    }
    if let Some(payload) = ty.option_some_type() {
        return tell_option(alloc, source, node, payload, told);
    }
    if let Some((ok, err)) = ty.result_types() {
        return tell_result(alloc, source, node, ok, err, told);
    }
    if let Some((key, value)) = ty.map_key_value_types() {
        return tell_map(alloc, source, node, key, value, told);
    }
    let kind = ty.kind();
    match kind {
        WasmTypeKind::Record => tell_record(alloc, source, node, ty, told),
        WasmTypeKind::Tuple => tell_tuple(alloc, source, node, ty, told),
        WasmTypeKind::Variant => tell_variant(alloc, source, node, ty, told),
        WasmTypeKind::Enum => tell_enum(alloc, source, node, ty, told),
        WasmTypeKind::Flags => tell_flags(alloc, source, node, ty, told),
        WasmTypeKind::F32 | WasmTypeKind::F64 | WasmTypeKind::Unsupported => {
            let word = kind.to_string(alloc)?;
            tell_cause(node, WasmValueError::UnsupportedType(word), told)
        }
        _ => match leaf_error(alloc, source, node, kind)? {
            Some(error) => tell_error(error, told),
            None => Ok(()),
        },
    }
}

/// Tells the faults at a list of elements of this type, of this length where it is fixed.
#[cycle(telling)]
fn tell_list<T: WasmType>(
    alloc: Global,
    source: &str,
    node: &Node,
    element: &T,
    length: Option<u32>,
    told: &mut Vec<ParserError>,
) -> Result<(), AllocError>
    requires { IsValueOf source.now node.now }
    ensures { IfOk result (λ _. AddsFaults (list_of (T.tree element.now) length) source.now node.now told.old.items told.new.items) }
{
    let nodes = match node.as_list() {
        Ok(nodes) => nodes,
        Err(error) => return tell_error(error, told),
    };
    if let Some(cause) = other_length(length, nodes.len()) {
        return tell_cause(node, cause, told);
    }
    for i in 0..nodes.len() {
        tell(alloc, source, &nodes[i], element, told)?;
    }
    Ok(())
}

/// That a list of this length, where it is fixed, has another number of elements.
fn other_length(length: Option<u32>, got: usize) -> Option<WasmValueError>
    ensures none { IfNone result ((want : ℕ) → length ≡ Some want → got ≡ want) }
    ensures some { IfSome result (λ cause. (want : ℕ) × (length ≡ Some want) × (got ≢ want) × (cause_of cause ≡ wrong_length want got)) }
{
    match length {
        Some(want) if got != want as usize => {
            Some(WasmValueError::WrongNumberOfElements { want, got })
        }
        _ => None,
    }
}

/// Tells the faults at a tuple type.
#[cycle(telling)]
fn tell_tuple<T: WasmType>(
    alloc: Global,
    source: &str,
    node: &Node,
    ty: &T,
    told: &mut Vec<ParserError>,
) -> Result<(), AllocError>
    requires value { IsValueOf source.now node.now }
    requires kind { kind_of (T.tree ty.now) ≡ WasmTypeKind.Tuple }
    ensures { IfOk result (λ _. AddsFaults (T.tree ty.now) source.now node.now told.old.items told.new.items) }
{
    let nodes = match node.as_tuple() {
        Ok(nodes) => nodes,
        Err(error) => return tell_error(error, told),
    };
    let types = ty.tuple_element_types(alloc)?;
    let want = types.len();
    let got = nodes.len();
    for i in 0..got.min(want) {
        tell(alloc, source, &nodes[i], types[i], told)?;
    }
    if got == want {
        return Ok(());
    }
    tell_cause(
        node,
        WasmValueError::WrongNumberOfTupleValues { want, got },
        told,
    )
}

/// Tells the faults at a variant type.
#[cycle(telling)]
fn tell_variant<T: WasmType>(
    alloc: Global,
    source: &str,
    node: &Node,
    ty: &T,
    told: &mut Vec<ParserError>,
) -> Result<(), AllocError>
    requires value { IsValueOf source.now node.now }
    requires kind { kind_of (T.tree ty.now) ≡ WasmTypeKind.Variant }
    ensures { IfOk result (λ _. AddsFaults (T.tree ty.now) source.now node.now told.old.items told.new.items) }
{
    let (name, payload) = match node.as_variant(source) {
        Ok(case) => case,
        Err(error) => return tell_error(error, told),
    };
    match ty.variant_case(alloc, name)? {
        Some((_, expected)) => tell_payload(alloc, source, node, name, payload, expected, told),
        None => {
            let name = String::from_str(alloc, name)?;
            tell_cause(node, WasmValueError::UnknownCase(name), told)
        }
    }
}

/// Tells the faults at an enum type.
fn tell_enum<T: WasmType>(
    alloc: Global,
    source: &str,
    node: &Node,
    ty: &T,
    told: &mut Vec<ParserError>,
) -> Result<(), AllocError>
    requires value { IsValueOf source.now node.now }
    requires kind { kind_of (T.tree ty.now) ≡ WasmTypeKind.Enum }
    ensures { IfOk result (λ _. AddsFaults (T.tree ty.now) source.now node.now told.old.items told.new.items) }
{
    let name = match node.as_enum(source) {
        Ok(name) => name,
        Err(error) => return tell_error(error, told),
    };
    if ty.has_enum_case(alloc, name)? {
        return Ok(());
    }
    let name = String::from_str(alloc, name)?;
    tell_cause(node, WasmValueError::UnknownCase(name), told)
}

/// Tells the faults at an option of this type. A node of another form stands for `some` of itself.
#[cycle(telling)]
fn tell_option<T: WasmType>(
    alloc: Global,
    source: &str,
    node: &Node,
    payload: &T,
    told: &mut Vec<ParserError>,
) -> Result<(), AllocError>
    requires { IsValueOf source.now node.now }
    ensures { IfOk result (λ _. AddsFaults (type.option (T.tree payload.now)) source.now node.now told.old.items told.new.items) }
{
    match node.as_option() {
        Ok(Some(inner)) => tell(alloc, source, inner, payload, told),
        Ok(None) => Ok(()),
        Err(error) => match flat_type(Some(payload)) {
            Some(payload) => tell(alloc, source, node, payload, told),
            None => tell_error(error, told),
        },
    }
}

/// Tells the faults at a result of payloads of these types. A node of another form stands for `ok` of itself.
#[cycle(telling)]
fn tell_result<T: WasmType>(
    alloc: Global,
    source: &str,
    node: &Node,
    ok: Option<&T>,
    err: Option<&T>,
    told: &mut Vec<ParserError>,
) -> Result<(), AllocError>
    requires { IsValueOf source.now node.now }
    ensures { IfOk result (λ _. AddsFaults (type.result (maybe_type (denoted T.tree ok.entry)) (maybe_type (denoted T.tree err.entry))) source.now node.now
        told.old.items told.new.items) }
{
    match node.as_result() {
        Ok(Ok(payload)) => tell_payload(alloc, source, node, "ok", payload, ok, told),
        Ok(Err(payload)) => tell_payload(alloc, source, node, "err", payload, err, told),
        Err(error) => match flat_type(ok) {
            Some(payload) => tell(alloc, source, node, payload, told),
            None => tell_error(error, told),
        },
    }
}

/// Tells what is wrong with the payload of the case of this name, which stands here.
#[cycle(telling)]
fn tell_payload<T: WasmType>(
    alloc: Global,
    source: &str,
    node: &Node,
    name: &str,
    payload: Option<&Node>,
    expected: Option<&T>,
    told: &mut Vec<ParserError>,
) -> Result<(), AllocError>
    requires { (m : MaybePlaced) × IsPayloadNodeOf source.now (denoted_node payload) m }
    ensures { IfOk result (λ _. (m : MaybePlaced) → IsPayloadNodeOf source.now (denoted_node payload.entry) m
        → Adds (AreFaultsOfPayload name.now (maybe_type (denoted T.tree expected.entry)) m (place_of node.now)) told.old.items told.new.items) }
{
    match payload {
        Some(inner) => match expected {
            Some(ty) => tell(alloc, source, inner, ty, told),
            None => {
                let name = String::from_str(alloc, name)?;
                tell_cause(node, WasmValueError::UnexpectedPayload(name), told)
            }
        },
        None => match expected {
            Some(_) => {
                let name = String::from_str(alloc, name)?;
                tell_cause(node, WasmValueError::MissingPayload(name), told)
            }
            None => Ok(()),
        },
    }
}

/// Tells the faults at a flags type: of each flag that the type doesn't name, at the node.
fn tell_flags<T: WasmType>(
    alloc: Global,
    source: &str,
    node: &Node,
    ty: &T,
    told: &mut Vec<ParserError>,
) -> Result<(), AllocError>
    requires value { IsValueOf source.now node.now }
    requires kind { kind_of (T.tree ty.now) ≡ WasmTypeKind.Flags }
    ensures { IfOk result (λ _. AddsFaults (T.tree ty.now) source.now node.now told.old.items told.new.items) }
{
    let mut labels = match node.as_flags(source) {
        Ok(labels) => labels,
        Err(error) => return tell_error(error, told),
    };
    while let Some(name) = labels.next() {
        tell_flag(alloc, node, ty, name, told)?;
    }
    Ok(())
}

/// Tells at the node that the flags type doesn't name this flag, where it doesn't.
fn tell_flag<T: WasmType>(
    alloc: Global,
    node: &Node,
    ty: &T,
    name: &str,
    told: &mut Vec<ParserError>,
) -> Result<(), AllocError>
    ensures { IfOk result (λ _. Adds (Alone (UnknownFlag (flags_names (T.tree ty.now)) name.now (place_of node.now))) told.old.items told.new.items) }
{
    match ty.flag_place(alloc, name)? {
        Some(_) => Ok(()),
        None => {
            let name = String::from_str(alloc, name)?;
            tell_cause(node, WasmValueError::UnknownCase(name), told)
        }
    }
}

/// Tells the faults at a map of keys and values of these types.
#[cycle(telling)]
fn tell_map<T: WasmType>(
    alloc: Global,
    source: &str,
    node: &Node,
    key_type: &T,
    value_type: &T,
    told: &mut Vec<ParserError>,
) -> Result<(), AllocError>
    requires { IsValueOf source.now node.now }
    ensures { IfOk result (λ _. (K : type.Simple) → T.tree key_type.now ≡ type.simple K
        → AddsFaults (type.map K (T.tree value_type.now)) source.now node.now told.old.items told.new.items) }
{
    let mut entries = match node.as_map() {
        Ok(entries) => entries,
        Err(error) => return tell_error(error, told),
    };
    while let Some((key, value)) = entries.next() {
        tell_map_key(alloc, source, key, key_type, told)?;
        tell(alloc, source, value, value_type, told)?;
    }
    Ok(())
}

/// Tells the faults at a record type.
#[cycle(telling)]
fn tell_record<'source, T: WasmType>(
    alloc: Global,
    source: &'source str,
    node: &Node,
    ty: &T,
    told: &mut Vec<ParserError>,
) -> Result<(), AllocError>
    requires value { IsValueOf source.now node.now }
    requires kind { kind_of (T.tree ty.now) ≡ WasmTypeKind.Record }
    ensures { IfOk result (λ _. AddsFaults (T.tree ty.now) source.now node.now told.old.items told.new.items) }
{
    if node.ty() != NodeType::TupleSet {
        return tell_error(
            ParserError::new(ParserErrorKind::InvalidType, node.span()),
            told,
        );
    }
    let fields = ty.record_fields(alloc)?;
    let types = types_by_name(alloc, &fields)?;
    let mut seen: BTreeMap<&'source str, ()> = BTreeMap::new(alloc);
    tell_entries(alloc, source, node, ty, &types, &mut seen, told)?;
    tell_left_out(alloc, node, &fields, &seen, told)
}

/// Tells the faults of the entries of the node at the record type, whose fields have these types. The
/// names are then seen. The record is refused once for all that are for no field.
#[cycle(telling)]
fn tell_entries<'source, T: WasmType>(
    alloc: Global,
    source: &'source str,
    node: &Node,
    ty: &T,
    types: &BTreeMap<&str, &T>,
    seen: &mut BTreeMap<&'source str, ()>,
    told: &mut Vec<ParserError>,
) -> Result<(), AllocError>
    requires node { IsValueOf source.now node.now }
    requires form { type_of node.now ≡ NodeType.TupleSet }
    requires types { LooksUp T.tree types.now (record_parts (T.tree ty.now)) }
    requires seen { HasNames seen.old [] }
    ensures { IfOk result (λ _. (t : SpannedTree) (fs : Fields) → IsNodeOf source.now node.now t → T.tree ty.now ≡ type.record_type fs
        → EntriesTold fs t seen.new told.old.items told.new.items) }
{
    let Ok(mut entries) = node.as_map() else {
        return Ok(());
    };
    let mut unknown = false;
    while let Some((key, value)) = entries.next() {
        if let Some(name) = tell_key(alloc, source, key, seen, told)? {
            match types.get(name) {
                Some(field) => tell(alloc, source, value, &**field, told)?,
                None => {
                    if !unknown {
                        tell_error(
                            ParserError::new(ParserErrorKind::InvalidValue, node.span()),
                            told,
                        )?;
                        unknown = true;
                    }
                }
            }
        }
    }
    Ok(())
}
