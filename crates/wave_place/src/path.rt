//! The part of a value where a span lies, the type that is expected there, and the path to it.
ghost use Rattle.std.specs.Prelude.{ℕ, ◌≡◌, ◌≢◌, ◌<◌, ◌++◌, List, Some, codes, option_map, slice_get, IfOk, IfSome, IfNone, IsTrue, ◌↔◌};
ghost use Rattle.std.specs.String.{string_bytes};
ghost use Rattle.std.specs.Fmt.{decimal};
ghost use Rattle.wave_wasm.specs.Lists.{AllOf, SomeOf};
ghost use Rattle.wave_wasm.specs.Types.{TypeTree};
ghost use Rattle.wave_wasm.specs.Borrowed.{denoted};
ghost use Rattle.wave_grammar.specs.Nodes.{IsParsedFrom};
ghost use Rattle.wave_grammar.specs.NodeTree.{NodeTree, type_of};
ghost use Rattle.wave_grammar.specs.NodeAccessors.{node_text, IsEntryOf};
ghost use Rattle.wave_grammar.specs.TypedReading.{IsValueOf};
ghost use Rattle.wave_grammar.specs.ErrorSpans.{LiesInNode};
ghost use Rattle.wave_grammar.specs.declared.form.NodeType.TheVariants as form;
ghost use Rattle.wave_place.specs.Paths as step;
ghost use Rattle.wave_place.specs.Paths.{Step, field_type, case_type, HasEntry, StandsAlone, HoldsAlone, IsPartAt, path_text, shown_first};
ghost use Rattle.wave_place.specs.Private.Steps.{LeadsNowhere, IsTaken, NoneHolds, IsNamed};

use crate::explain::{push_ellipsis, push_shown};
use crate::place::scalars;
use std::alloc::{AllocError, Global};
use std::fmt::Write;
use wave_grammar::typed::is_flat;
use wave_lex::lex::Span;
use wave_node::ast::{Node, NodeType};
use wave_wasm::wasm::WasmType;

/// How many scalars of a key are shown in a path.
const KEY_SHOWN: usize = 24;

/// The deepest part of the value that holds the span, and the type that is expected there; the path to it
/// is added. The node was parsed from `source`, as a value.
pub fn part_at<'a, T: WasmType>(
    alloc: Global,
    source: &str,
    node: &'a Node,
    ty: &'a T,
    span: &Span,
    path: &mut String,
) -> Result<(&'a Node, &'a T), AllocError>
    requires { IsValueOf source.now node.now }
    ensures { IfOk result (λ part. (steps : List Step) × (string_bytes path.new ≡ string_bytes path.old ++ path_text steps)
        × IsPartAt source.now span.now node.now (T.tree ty.now) steps part.0.now (T.tree part.1.now)) }
{
    match step_to_value(alloc, source, node, ty, span, path)? {
        Some((child, child_type)) => part_at(alloc, source, child, child_type, span, path),
        None => match step_to_key(source, node, ty, span, path)? {
            Some(key) => Ok(key),
            None => Ok((node, ty)),
        },
    }
}

/// A step to a value that holds the span.
fn step_to_value<'a, T: WasmType>(
    alloc: Global,
    source: &str,
    node: &'a Node,
    ty: &'a T,
    span: &Span,
    path: &mut String,
) -> Result<Option<(&'a Node, &'a T)>, AllocError>
    requires { IsValueOf source.now node.now }
    ensures same { IfOk result (λ r. IfNone r (string_bytes path.new ≡ string_bytes path.old)) }
    ensures none { IfOk result (λ r. IfNone r ((s : Step) → ((text : List ℕ) → s ≢ step.key text) → LeadsNowhere source.now span.now node.now (T.tree ty.now) s)) }
    ensures taken { IfOk result (λ r. IfSome r
        (λ p. IsTaken source.now span.now node.now (T.tree ty.now) (string_bytes path.old) (string_bytes path.new) p.0.now (T.tree p.1.now))) }
    ensures value { IfOk result (λ r. IfSome r (λ p. IsValueOf source.now p.0.now)) }
{
    if let Some(found) = step_to_item(alloc, node, ty, span, path)? {
        return Ok(Some(found));
    }
    if let Some(found) = step_to_field(alloc, source, node, ty, span, path)? {
        return Ok(Some(found));
    }
    if let Some(found) = step_to_entry(source, node, ty, span, path)? {
        return Ok(Some(found));
    }
    if let Some(found) = step_to_case(alloc, source, node, ty, span, path)? {
        return Ok(Some(found));
    }
    if let Some(found) = step_to_some(node, ty, span, path)? {
        return Ok(Some(found));
    }
    if let Some(found) = step_to_ok(node, ty, span, path)? {
        return Ok(Some(found));
    }
    if let Some(found) = step_to_err(node, ty, span, path)? {
        return Ok(Some(found));
    }
    Ok(payload_alone(node, ty, span))
}

/// A step to an item of a list or a tuple.
fn step_to_item<'a, T: WasmType>(
    alloc: Global,
    node: &'a Node,
    ty: &'a T,
    span: &Span,
    path: &mut String,
) -> Result<Option<(&'a Node, &'a T)>, AllocError>
    ensures same { IfOk result (λ r. IfNone r (string_bytes path.new ≡ string_bytes path.old)) }
    ensures list { IfOk result (λ r. IfNone r ((source : List ℕ) (i : ℕ) → type_of node.now ≡ form.List → LeadsNowhere source span.now node.now (T.tree ty.now) (step.item i))) }
    ensures tuple { IfOk result (λ r. IfNone r ((source : List ℕ) (i : ℕ) → type_of node.now ≡ form.Tuple → LeadsNowhere source span.now node.now (T.tree ty.now) (step.item i))) }
    ensures taken { IfOk result (λ r. IfSome r
        (λ p. (source : List ℕ) → IsTaken source span.now node.now (T.tree ty.now) (string_bytes path.old) (string_bytes path.new) p.0.now (T.tree p.1.now))) }
    ensures value { IfOk result (λ r. IfSome r (λ p. (source : List ℕ) → IsValueOf source node.now → IsValueOf source p.0.now)) }
{
    if let Ok(items) = node.as_list() {
        let Some(element_type) = ty.list_element_type() else {
            return Ok(None);
        };
        let Some((i, item)) = item_at(items, items.len(), span) else {
            return Ok(None);
        };
        push_item(path, i)?;
        return Ok(Some((item, element_type)));
    }
    let Ok(items) = node.as_tuple() else {
        return Ok(None);
    };
    let types = ty.tuple_element_types(alloc)?;
    match item_at(items, types.len(), span) {
        Some((i, item)) => {
            push_item(path, i)?;
            Ok(Some((item, types[i])))
        }
        None => Ok(None),
    }
}

/// A step to the value of a record's field.
fn step_to_field<'a, T: WasmType>(
    alloc: Global,
    source: &str,
    node: &'a Node,
    ty: &'a T,
    span: &Span,
    path: &mut String,
) -> Result<Option<(&'a Node, &'a T)>, AllocError>
    requires { IsValueOf source.now node.now }
    ensures same { IfOk result (λ r. IfNone r (string_bytes path.new ≡ string_bytes path.old)) }
    ensures none { IfOk result (λ r. IfNone r ((name : List ℕ) → LeadsNowhere source.now span.now node.now (T.tree ty.now) (step.field name))) }
    ensures taken { IfOk result (λ r. IfSome r
        (λ p. IsTaken source.now span.now node.now (T.tree ty.now) (string_bytes path.old) (string_bytes path.new) p.0.now (T.tree p.1.now))) }
    ensures value { IfOk result (λ r. IfSome r (λ p. IsValueOf source.now p.0.now)) }
{
    let Ok(mut entries) = node.as_map() else {
        return Ok(None);
    };
    while let Some((key, value)) = entries.next() {
        if holds(value, span) {
            if let Some((name, value_type)) = field_of(alloc, source, key, ty)? {
                push_name(path, name)?;
                return Ok(Some((value, value_type)));
            }
        }
    }
    Ok(None)
}

/// The name of the key and the type of the field of this name.
fn field_of<'source, 'a, T: WasmType>(
    alloc: Global,
    source: &'source str,
    key: &Node,
    ty: &'a T,
) -> Result<Option<(&'source str, &'a T)>, AllocError>
    requires { IsParsedFrom source.now key.now }
    ensures none { IfOk result (λ r. IfNone r ((name : List ℕ) (U : TypeTree) → IsNamed source.now key.now name → field_type name (T.tree ty.now) ≡ Some U → ⊥)) }
    ensures some { IfOk result (λ r. IfSome r (λ f. IsNamed source.now key.now f.0.now × (field_type f.0.now (T.tree ty.now) ≡ Some (T.tree f.1.now)))) }
{
    let Ok(name) = key.as_enum(source) else {
        return Ok(None);
    };
    match type_of_field(alloc, ty, name)? {
        Some(field_type) => Ok(Some((name, field_type))),
        None => Ok(None),
    }
}

/// The type of the first field of this name.
pub fn type_of_field<'a, T: WasmType>(
    alloc: Global,
    ty: &'a T,
    name: &str,
) -> Result<Option<&'a T>, AllocError>
    ensures { IfOk result (λ r. denoted T.tree r ≡ field_type name.now (T.tree ty.now)) }
{
    let fields = ty.record_fields(alloc)?;
    match fields.iter().find(|field| name == field.0).copied() {
        Some((_, field_type)) => Ok(Some(field_type)),
        None => Ok(None),
    }
}

/// A step to the value of a map's entry.
fn step_to_entry<'a, T: WasmType>(
    source: &str,
    node: &'a Node,
    ty: &'a T,
    span: &Span,
    path: &mut String,
) -> Result<Option<(&'a Node, &'a T)>, AllocError>
    requires { IsValueOf source.now node.now }
    ensures same { IfOk result (λ r. IfNone r (string_bytes path.new ≡ string_bytes path.old)) }
    ensures none { IfOk result (λ r. IfNone r ((text : List ℕ) → LeadsNowhere source.now span.now node.now (T.tree ty.now) (step.entry text))) }
    ensures taken { IfOk result (λ r. IfSome r
        (λ p. IsTaken source.now span.now node.now (T.tree ty.now) (string_bytes path.old) (string_bytes path.new) p.0.now (T.tree p.1.now))) }
    ensures value { IfOk result (λ r. IfSome r (λ p. IsValueOf source.now p.0.now)) }
{
    let Some((_, value_type)) = ty.map_key_value_types() else {
        return Ok(None);
    };
    match entry_at(node, span) {
        Some((key, value)) => {
            push_key(path, text_of(source, key))?;
            Ok(Some((value, value_type)))
        }
        None => Ok(None),
    }
}

/// A step to the key of a map's entry.
fn step_to_key<'a, T: WasmType>(
    source: &str,
    node: &'a Node,
    ty: &'a T,
    span: &Span,
    path: &mut String,
) -> Result<Option<(&'a Node, &'a T)>, AllocError>
    requires { IsValueOf source.now node.now }
    ensures same { IfOk result (λ r. IfNone r (string_bytes path.new ≡ string_bytes path.old)) }
    ensures none { IfOk result (λ r. IfNone r ((text : List ℕ) → LeadsNowhere source.now span.now node.now (T.tree ty.now) (step.key text))) }
    ensures taken { IfOk result (λ r. IfSome r
        (λ p. IsTaken source.now span.now node.now (T.tree ty.now) (string_bytes path.old) (string_bytes path.new) p.0.now (T.tree p.1.now)
        × ((s : Step) → LeadsNowhere source.now span.now p.0.now (T.tree p.1.now) s))) }
{
    let Some((key_type, _)) = ty.map_key_value_types() else {
        return Ok(None);
    };
    match key_at(node, span) {
        Some(key) => {
            push_key(path, text_of(source, key))?;
            Ok(Some((key, key_type)))
        }
        None => Ok(None),
    }
}

/// A step to the payload of a variant's case.
fn step_to_case<'a, T: WasmType>(
    alloc: Global,
    source: &str,
    node: &'a Node,
    ty: &'a T,
    span: &Span,
    path: &mut String,
) -> Result<Option<(&'a Node, &'a T)>, AllocError>
    requires { IsValueOf source.now node.now }
    ensures same { IfOk result (λ r. IfNone r (string_bytes path.new ≡ string_bytes path.old)) }
    ensures none { IfOk result (λ r. IfNone r ((name : List ℕ) → LeadsNowhere source.now span.now node.now (T.tree ty.now) (step.case name))) }
    ensures taken { IfOk result (λ r. IfSome r
        (λ p. IsTaken source.now span.now node.now (T.tree ty.now) (string_bytes path.old) (string_bytes path.new) p.0.now (T.tree p.1.now))) }
    ensures value { IfOk result (λ r. IfSome r (λ p. IsValueOf source.now p.0.now)) }
{
    let Ok((name, Some(payload))) = node.as_variant(source) else {
        return Ok(None);
    };
    if !holds(payload, span) {
        return Ok(None);
    }
    match type_of_case(alloc, ty, name)? {
        Some(payload_type) => {
            push_name(path, name)?;
            Ok(Some((payload, payload_type)))
        }
        None => Ok(None),
    }
}

/// The payload's type of the first case of this name.
pub fn type_of_case<'a, T: WasmType>(
    alloc: Global,
    ty: &'a T,
    name: &str,
) -> Result<Option<&'a T>, AllocError>
    ensures none { IfOk result (λ r. IfNone r ((U : TypeTree) → case_type name.now (T.tree ty.now) ≡ Some (Some U) → ⊥)) }
    ensures some { IfOk result (λ r. IfSome r (λ t. case_type name.now (T.tree ty.now) ≡ Some (Some (T.tree t.now)))) }
{
    match ty.variant_case(alloc, name)? {
        Some((_, payload_type)) => Ok(payload_type),
        None => Ok(None),
    }
}

/// A step to the payload of `some`.
fn step_to_some<'a, T: WasmType>(
    node: &'a Node,
    ty: &'a T,
    span: &Span,
    path: &mut String,
) -> Result<Option<(&'a Node, &'a T)>, AllocError>
    ensures same { IfOk result (λ r. IfNone r (string_bytes path.new ≡ string_bytes path.old)) }
    ensures none { IfOk result (λ r. IfNone r ((source : List ℕ) → LeadsNowhere source span.now node.now (T.tree ty.now) step.some)) }
    ensures taken { IfOk result (λ r. IfSome r
        (λ p. (source : List ℕ) → IsTaken source span.now node.now (T.tree ty.now) (string_bytes path.old) (string_bytes path.new) p.0.now (T.tree p.1.now))) }
    ensures value { IfOk result (λ r. IfSome r (λ p. (source : List ℕ) → IsValueOf source node.now → IsValueOf source p.0.now)) }
{
    let Ok(Some(payload)) = node.as_option() else {
        return Ok(None);
    };
    match ty.option_some_type() {
        Some(payload_type) if holds(payload, span) => {
            path.push_str(".some")?;
            Ok(Some((payload, payload_type)))
        }
        _ => Ok(None),
    }
}

/// A step to the payload of `ok`.
fn step_to_ok<'a, T: WasmType>(
    node: &'a Node,
    ty: &'a T,
    span: &Span,
    path: &mut String,
) -> Result<Option<(&'a Node, &'a T)>, AllocError>
    ensures same { IfOk result (λ r. IfNone r (string_bytes path.new ≡ string_bytes path.old)) }
    ensures none { IfOk result (λ r. IfNone r ((source : List ℕ) → LeadsNowhere source span.now node.now (T.tree ty.now) step.ok)) }
    ensures taken { IfOk result (λ r. IfSome r
        (λ p. (source : List ℕ) → IsTaken source span.now node.now (T.tree ty.now) (string_bytes path.old) (string_bytes path.new) p.0.now (T.tree p.1.now))) }
    ensures value { IfOk result (λ r. IfSome r (λ p. (source : List ℕ) → IsValueOf source node.now → IsValueOf source p.0.now)) }
{
    let Ok(Ok(Some(payload))) = node.as_result() else {
        return Ok(None);
    };
    let Some((Some(payload_type), _)) = ty.result_types() else {
        return Ok(None);
    };
    if !holds(payload, span) {
        return Ok(None);
    }
    path.push_str(".ok")?;
    Ok(Some((payload, payload_type)))
}

/// A step to the payload of `err`.
fn step_to_err<'a, T: WasmType>(
    node: &'a Node,
    ty: &'a T,
    span: &Span,
    path: &mut String,
) -> Result<Option<(&'a Node, &'a T)>, AllocError>
    ensures same { IfOk result (λ r. IfNone r (string_bytes path.new ≡ string_bytes path.old)) }
    ensures none { IfOk result (λ r. IfNone r ((source : List ℕ) → LeadsNowhere source span.now node.now (T.tree ty.now) step.err)) }
    ensures taken { IfOk result (λ r. IfSome r
        (λ p. (source : List ℕ) → IsTaken source span.now node.now (T.tree ty.now) (string_bytes path.old) (string_bytes path.new) p.0.now (T.tree p.1.now))) }
    ensures value { IfOk result (λ r. IfSome r (λ p. (source : List ℕ) → IsValueOf source node.now → IsValueOf source p.0.now)) }
{
    let Ok(Err(Some(payload))) = node.as_result() else {
        return Ok(None);
    };
    let Some((_, Some(payload_type))) = ty.result_types() else {
        return Ok(None);
    };
    if !holds(payload, span) {
        return Ok(None);
    }
    path.push_str(".err")?;
    Ok(Some((payload, payload_type)))
}

/// The node itself, where it stands for `some` or `ok` of itself, and holds the span.
fn payload_alone<'a, T: WasmType>(
    node: &'a Node,
    ty: &'a T,
    span: &Span,
) -> Option<(&'a Node, &'a T)>
    ensures none { IfNone result ((source : List ℕ) → LeadsNowhere source span.now node.now (T.tree ty.now) step.alone) }
    ensures some { IfSome result (λ p. (p.0.now ≡ node.now) × LiesInNode node.now span.now × StandsAlone node.now × HoldsAlone (T.tree ty.now) (T.tree p.1.now)) }
{
    if !stands_alone(node) || !holds(node, span) {
        return None;
    }
    match type_alone(ty) {
        Some(payload_type) => Some((node, payload_type)),
        None => None,
    }
}

/// Whether none of the words `some`, `none`, `ok` and `err` stands around the node's value.
fn stands_alone(node: &Node) -> bool
    ensures { IsTrue result ↔ StandsAlone node.now }
{
    !matches!(
        node.ty(),
        NodeType::OptionSome | NodeType::OptionNone | NodeType::ResultOk | NodeType::ResultErr
    )
}

/// The type of a payload that may stand alone.
pub fn type_alone<T: WasmType>(ty: &T) -> Option<&T>
    ensures none { IfNone result ((U : TypeTree) → HoldsAlone (T.tree ty.now) U → ⊥) }
    ensures some { IfSome result (λ t. HoldsAlone (T.tree ty.now) (T.tree t.now)) }
{
    let payload = match ty.option_some_type() {
        Some(payload) => payload,
        None => ty.result_types()?.0?,
    };
    if is_flat(payload.kind()) {
        Some(payload)
    } else {
        None
    }
}

/// The first of the first `count` nodes that holds the span.
pub fn item_at<'a>(nodes: &'a [Node], count: usize, span: &Span) -> Option<(usize, &'a Node)>
    ensures none { IfNone result (NoneHolds nodes.now count span.now) }
    ensures some { IfSome result (λ found. (found.0 < count) × (slice_get nodes.now found.0 ≡ Some found.1.now) × LiesInNode found.1.now span.now) }
{
    for i in 0..nodes.len().min(count) {
        let node = &nodes[i];
        if holds(node, span) {
            return Some((i, node));
        }
    }
    None
}

/// The first entry whose value holds the span.
fn entry_at<'a>(node: &'a Node, span: &Span) -> Option<(&'a Node, &'a Node)>
    ensures none { IfNone result ((k : NodeTree) (v : NodeTree) → HasEntry node.now k v → LiesInNode v span.now → ⊥) }
    ensures some { IfSome result (λ e. HasEntry node.now e.0.now e.1.now × LiesInNode e.1.now span.now) }
    ensures parsed { IfSome result (λ e. (source : List ℕ) → IsValueOf source node.now → IsEntryOf source (e.0.now, e.1.now)) }
{
    let Ok(mut entries) = node.as_map() else {
        return None;
    };
    while let Some((key, value)) = entries.next() {
        if holds(value, span) {
            return Some((key, value));
        }
    }
    None
}

/// The first key that holds the span.
fn key_at<'a>(node: &'a Node, span: &Span) -> Option<&'a Node>
    ensures none { IfNone result ((k : NodeTree) (v : NodeTree) → HasEntry node.now k v → LiesInNode k span.now → ⊥) }
    ensures some { IfSome result (λ k. ((v : NodeTree) × HasEntry node.now k.now v) × LiesInNode k.now span.now) }
    ensures parsed { IfSome result (λ k. (source : List ℕ) → IsValueOf source node.now → IsParsedFrom source k.now) }
{
    let Ok(mut entries) = node.as_map() else {
        return None;
    };
    while let Some((key, _)) = entries.next() {
        if holds(key, span) {
            return Some(key);
        }
    }
    None
}

/// The source at the node.
fn text_of<'source>(source: &'source str, node: &Node) -> &'source str
    requires { IsParsedFrom source.now node.now }
    ensures { result.now ≡ node_text source.now node.now }
{
    &source[node.span()]
}

/// Whether the span lies in that of the node.
fn holds(node: &Node, span: &Span) -> bool
    ensures { IsTrue result ↔ LiesInNode node.now span.now }
{
    let place = node.span();
    place.start <= span.start && span.start <= span.end && span.end <= place.end
}

/// Adds the step to an item.
pub fn push_item(path: &mut String, i: usize) -> Result<(), AllocError>
    ensures { IfOk result (λ _. string_bytes path.new ≡ string_bytes path.old ++ step.step_text (step.item i)) }
{
    match write!(path, "[{i}]") {
        Ok(()) => Ok(()),
        Err(_) => Err(AllocError),
    }
}

/// Adds the step to the value or the payload of this name.
pub fn push_name(path: &mut String, name: &str) -> Result<(), AllocError>
    ensures { IfOk result (λ _. string_bytes path.new ≡ string_bytes path.old ++ step.step_text (step.field name.now)) }
{
    path.push_str(".")?;
    path.push_str(name)
}

/// Adds the step to an entry whose key has this text.
pub fn push_key(path: &mut String, text: &str) -> Result<(), AllocError>
    ensures { IfOk result (λ _. string_bytes path.new ≡ string_bytes path.old ++ step.step_text (step.entry text.now)) }
{
    path.push_str("[")?;
    push_first(path, text, KEY_SHOWN)?;
    path.push_str("]")
}

/// Adds the text's first `most` scalars, as they are shown, and `…` where there are more.
pub fn push_first(to: &mut String, text: &str, most: usize) -> Result<(), AllocError>
    ensures { IfOk result (λ _. string_bytes to.new ≡ string_bytes to.old ++ shown_first most text.now) }
{
    push_shown(to, text, 0, most)?;
    push_ellipsis(to, scalars(text).saturating_sub(most))
}
