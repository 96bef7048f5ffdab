//! Records, whose fields are read in whatever order they stand.
ghost use Rattle.std.specs.Prelude.{ℕ, List, [], ◌≡◌, Ok, None, IfOk, IfErr, IfSome, map, MatchOption, MatchResult, Some, set, slice_get};
ghost use Rattle.wave_wasm.specs.Names.{IsNoneOf};
ghost use Rattle.wave_wasm.specs.Types.{HasDistinctNames, kind_of};
ghost use Rattle.wave_grammar.specs.FaultOrder.{Order};
ghost use Rattle.wave_grammar.specs.NodeTree.{NodeTree, place_of};
ghost use Rattle.wave_grammar.specs.ErrorSpans.{RefusesAt};
ghost use Rattle.wave_grammar.specs.NodeFields.{IsLeftOut, IsMissing};
ghost use Rattle.wave_lex.specs.Errors.{field_label_expected, repeated_name};
ghost use Rattle.wave_lex.specs.declared.error.ParserErrorKind.TheVariants.{InvalidType, DuplicateField, OutOfMemory};
ghost use Rattle.wave_read.specs.RecordParts.{AreFields, type_expected, field_name};
ghost use Rattle.wave_read.specs.Private.RecordParts.{IsFieldKey, IsKeyFault, IsNamedAt, AreFull, IsLeftUnfilled, IsMissingOrMemory, IsReportedAs, with_value};
ghost use Rattle.wave_read.specs.declared.records.Field.{Field};
ghost use Rattle.wave_read.specs.Private.PartSteps.{AddsKey, AddsPart, FinishesAs, WereRead};

use std::alloc::{AllocError, Global};
use std::boxed::Box;
use wave_grammar::form::NodeType;
use wave_grammar::label::label_name;
use wave_leaf::error::{ReadError, Reason, StaticDetail, repeated_words};
use wave_leaf::fault::{Fault, or_error_at};
use wave_lex::error::ParserErrorKind;
use wave_lex::lex::Span;
use wave_wasm::wasm::{WasmType, WasmTypeKind, WasmValue, WasmValueError};

/// A field of a record type, and its value where it was read.
#[derive(Drop)]
pub struct Field<'ty, T, V> {
    name: &'ty str,
    ty: &'ty T,
    value: Option<V>,
}

/// The fields of a record so far, in the order of its type.
#[derive(Drop)]
pub struct Fields<'ty, T, V> {
    /// The type of the record.
    ty: &'ty T,
    /// Its fields.
    fields: Vec<Field<'ty, T, V>>,
    /// The place after the field that was read last.
    behind: usize,
    /// The place and the type of the field whose key was taken.
    pub(crate) expected: Option<(usize, &'ty T)>,
    /// A field of more than a few stood elsewhere than after the last one, and the type told its place.
    is_told: bool,
    /// The names of the fields with their places, sorted, once such a field stood where the type tells
    /// none. Any place that is told or taken from here is looked at.
    index: Option<Box<Vec<(&'ty str, usize)>>>,
}

/// Up to this many fields are searched by their names without an index.
const FEW: usize = 16;

impl<'ty, T: WasmType, V> Fields<'ty, T, V> {
    /// The place of the field of this name: as a rule it stands after the last one.
    fn place(&self, name: &str) -> Option<usize>
        ensures { MatchOption result (IsNoneOf (map field_name self.now.fields.items) name.now) (IsNamedAt self.now.fields.items name.now) }
    {
        if let Some(i) = self.here(self.behind, name) {
            return Some(i);
        }
        match self.indexed(name) {
            Some(i) => Some(i),
            None => self.search(name),
        }
    }

    /// This place, where the field of this name stands there.
    fn here(&self, i: usize, name: &str) -> Option<usize>
        ensures { IfSome result (IsNamedAt self.now.fields.items name.now) }
    {
        if i < self.fields.len() && self.fields[i].name == name {
            return Some(i);
        }
        None
    }

    /// The place that the type or the index has for this name, where the field of this name stands
    /// there.
    fn indexed(&self, name: &str) -> Option<usize>
        ensures { IfSome result (IsNamedAt self.now.fields.items name.now) }
    {
        if self.is_told {
            return self.here(self.ty.field_place(name)?, name);
        }
        let index = self.index.as_ref()?;
        let at = index.partition_point(|entry| entry.0 < name);
        self.here(index.get(at)?.1, name)
    }

    /// Asks the type further on, or else keeps an index, where the field at the place stands elsewhere
    /// than after the last one and the fields are more than a few. Without memory for an index their
    /// names are searched.
    fn keep_index(&mut self, alloc: Global, place: usize)
        ensures ty { self.new.ty ≡ self.old.ty }
        ensures fields { self.new.fields ≡ self.old.fields }
        ensures expected { self.new.expected ≡ self.old.expected }
    {
        let is_known = self.is_told || self.index.is_some();
        if place == self.behind || self.fields.len() <= FEW || is_known {
            return;
        }
        if let Some(field) = self.fields.get(place) {
            self.is_told = self.ty.field_place(field.name).is_some();
        }
        if !self.is_told {
            self.index = index_of(alloc, &self.fields);
        }
    }

    /// The place of the first field of this name.
    #[inline(never)]
    fn search(&self, name: &str) -> Option<usize>
        ensures { MatchOption result (IsNoneOf (map field_name self.now.fields.items) name.now) (IsNamedAt self.now.fields.items name.now) }
    {
        for i in 0..self.fields.len() {
            if self.fields[i].name == name {
                return Some(i);
            }
        }
        None
    }

    /// The place and the type of the field that a key of this type and text names; or what is wrong
    /// with the key.
    fn named(
        &self,
        alloc: Global,
        ty: NodeType,
        span: Span,
        text: &str,
    ) -> Result<Result<(usize, &'ty T), Fault>, AllocError>
        ensures { IfOk result (λ found. MatchResult found (IsFieldKey self.now.fields.items ty text.now) (IsKeyFault self.now.fields.items ty span text.now)) }
    {
        if ty != NodeType::Label {
            return Ok(Err(no_label(span)));
        }
        let name = label_name(text);
        let Some(i) = self.place(name) else {
            return Ok(Err(Fault::Whole(Reason::Plain(ParserErrorKind::InvalidValue))));
        };
        let field = &self.fields[i];
        if field.value.is_some() {
            return Ok(Err(repeated(alloc, span, name)?));
        }
        Ok(Ok((i, field.ty)))
    }
}

impl<'ty, V: WasmValue> Fields<'ty, V::Type, V> {
    /// No values, for the fields of a record of the type.
    pub(crate) fn new(alloc: Global, ty: &'ty V::Type) -> Result<Self, AllocError>
        requires { kind_of (V.Type.tree ty.now) ≡ WasmTypeKind.Record }
        ensures { IfOk result (λ new. (w : Order) (source : List ℕ) → AreFields V.Type.tree V.tree V.is_of V.is_full w (V.Type.tree ty.now) source [] new) }
    {
        let types = ty.record_fields(alloc)?;
        let mut fields = Vec::with_capacity(alloc, types.len())?;
        for (name, field) in types {
            fields.push(Field {
                name,
                ty: field,
                value: None,
            })?;
        }
        Ok(Fields {
            ty,
            fields,
            behind: 0,
            expected: None,
            is_told: false,
            index: None,
        })
    }

    /// Adds a key, which is of this type and text; or what is wrong with the record.
    pub(crate) fn push_key(
        &mut self,
        alloc: Global,
        ty: NodeType,
        span: Span,
        text: &str,
    ) -> Result<Option<Fault>, AllocError>
        ensures { IfOk result (AddsKey AreFields V.Type.tree V.tree V.is_of V.is_full NodeType.TupleSet self.old ty span text.now self.new) }
    {
        match self.named(alloc, ty, span, text)? {
            Ok(expected) => {
                self.keep_index(alloc, expected.0);
                self.expected = Some(expected);
                Ok(None)
            }
            Err(fault) => Ok(Some(fault)),
        }
    }

    /// Adds the value after the last key, which was read at the type that is expected.
    pub(crate) fn push_part(&mut self, val: V)
        ensures { AddsPart AreFields V.Type.tree V.tree V.is_of V.is_full NodeType.TupleSet type_expected self.old (Ok val) self.new None }
    {
        if let Some((i, _)) = self.expected.take() {
            keep(&mut self.fields, i, val);
            self.behind = i.saturating_add(1);
        }
    }

    /// The record of the fields, each of which was read at its type; it stands here.
    pub(crate) fn finish(self, alloc: Global, span: Span) -> Result<V, ReadError>
        requires { WereRead AreFields V.Type.tree V.tree V.is_of V.is_full self }
        ensures { FinishesAs AreFields V.Type.tree V.tree V.is_of V.is_full NodeType.TupleSet self.entry span result }
    {
        let Fields { ty, fields, .. } = self;
        let mut fields = filled(alloc, fields, &span)?;
        or_error_at(
            alloc,
            span,
            V::make_record_unchecked(alloc, ty, &mut fields),
        )
    }
}

/// The names of the fields with their places, sorted, where there is memory for them.
#[cold]
#[inline(never)]
fn index_of<'ty, T, V>(
    alloc: Global,
    fields: &Vec<Field<'ty, T, V>>,
) -> Option<Box<Vec<(&'ty str, usize)>>> {
    let mut index = Vec::with_capacity(alloc, fields.len()).ok()?;
    for i in 0..fields.len() {
        if index.push((fields[i].name, i)).is_err() {
            return None;
        }
    }
    index.sort_unstable();
    Box::new(alloc, index).ok()
}

/// Keeps the value of the field at the place.
fn keep<T, V: Drop>(fields: &mut Vec<Field<'_, T, V>>, place: usize, val: V)
    ensures { (f : Field T V) → slice_get fields.old.items place ≡ Some f → fields.new.items ≡ set fields.old.items place (with_value f val) }
{
    if let Some(field) = fields.get_mut(place) {
        drop(field.value.replace(val));
    }
}

/// The names and the values of all fields of a record that stands here: `none` for an option that
/// was left out.
fn filled<'ty, V: WasmValue>(
    alloc: Global,
    fields: Vec<Field<'ty, V::Type, V>>,
    span: &Span,
) -> Result<Vec<(&'ty str, V)>, ReadError>
    ensures full { IfOk result (λ all. AreFull V.tree V.is_of V.Type.tree fields.entry.items all.items) }
    ensures refused { IfErr result (λ e. (n : NodeTree) → place_of n ≡ span.now → IsLeftUnfilled V.is_full V.Type.tree fields.entry.items n e) }
    ensures within { IfErr result (λ e. (n : NodeTree) → place_of n ≡ span.now → RefusesAt n e) }
{
    let mut all = match Vec::with_capacity(alloc, fields.len()) {
        Ok(all) => all,
        Err(_) => return Err(out_of_memory(span)),
    };
    for field in fields {
        let Field { name, ty, value } = field;
        let val = match value {
            Some(val) => val,
            None => left_out(alloc, name, ty, span)?,
        };
        if all.push((name, val)).is_err() {
            return Err(out_of_memory(span));
        }
    }
    Ok(all)
}

/// That there was no memory for a record that stands here.
#[cold]
#[inline(never)]
fn out_of_memory(span: &Span) -> ReadError
    ensures kind { result.kind ≡ OutOfMemory }
    ensures span { result.span ≡ span.now }
{
    ReadError::new(ParserErrorKind::OutOfMemory, span.start..span.end)
}

/// `none`, for a field that is left out of a record that stands here, where its type is an option.
#[cold]
#[inline(never)]
pub fn left_out<V: WasmValue>(
    alloc: Global,
    name: &str,
    ty: &V::Type,
    span: &Span,
) -> Result<V, ReadError>
    ensures answer { (n : NodeTree) → place_of n ≡ span.now → HasDistinctNames (V.Type.tree ty.now)
        → MatchResult result (IsLeftOut V.tree V.is_of (V.Type.tree ty.now)) (IsMissing V.is_full (V.Type.tree ty.now) name.now n) }
    ensures within { IfErr result (λ e. (n : NodeTree) → place_of n ≡ span.now → RefusesAt n e) }
{
    let refusal = match ty.kind() {
        WasmTypeKind::Option => match V::make_option(alloc, ty, None) {
            Ok(val) => return Ok(val),
            Err(cause) => cause,
        },
        _ => missing(alloc, name),
    };
    Err(ReadError::with_cause(alloc, span.start..span.end, refusal))
}

/// That the field of this name is missing, or out of memory.
#[cold]
#[inline(never)]
fn missing(alloc: Global, name: &str) -> WasmValueError
    ensures { IsMissingOrMemory name.now result }
{
    match String::from_str(alloc, name) {
        Ok(name) => WasmValueError::MissingField(name),
        Err(error) => WasmValueError::Memory(error),
    }
}

/// What is wrong with a key that is no label, which stands here.
#[cold]
#[inline(never)]
fn no_label(span: Span) -> Fault
    ensures { IsReportedAs InvalidType span field_label_expected result }
{
    let reason = Reason::Static(ParserErrorKind::InvalidType, StaticDetail::FieldLabel);
    Fault::Part(ReadError::at(span, reason))
}

/// What is wrong with a key that stands here, whose name an earlier one has.
#[cold]
#[inline(never)]
fn repeated(alloc: Global, span: Span, name: &str) -> Result<Fault, AllocError>
    ensures { IfOk result (IsReportedAs DuplicateField span (repeated_name name.now)) }
{
    let words = repeated_words(alloc, name)?;
    Ok(Fault::Part(ReadError::with_words(ParserErrorKind::DuplicateField, span, words)))
}
