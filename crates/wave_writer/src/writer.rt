//! The canonical text of values.
use crate::plain::plain_end;
use crate::room::{Gathered, ROOM, text_in};
use crate::rows::{AT_ONCE, FEW, fill_row};
use itoa::{Buffer, Integer};
use std::alloc::{AllocError, AllocFailed, Global};
use std::collections::BTreeMap;
use std::fmt;
use std::marker::Model;
use thiserror::Error;
use ucd_category::GeneralCategory;
use wave_wasm::fingerprints::{all_differ, fingerprint};
use wave_wasm::keyword::Keyword;
use wave_wasm::wasm::{WasmTypeKind, WasmValue};

/// Why a value isn't written.
#[derive(Debug, Drop, Error)]
pub enum WriterError {
    /// The text wasn't taken.
    Io(fmt::Error),
    /// The value has a part without a text.
    UnsupportedType,
    /// There was no memory.
    Memory(AllocError),
}

impl fmt::Display for WriterError {
    ghost use Rattle.wave_writer.specs.WriterErrors.{refusal_text};

    ghost output = { refusal_text };

    fn fmt<W: fmt::Write>(&self, f: &mut fmt::Formatter<W>) -> fmt::Result {
        match self {
            WriterError::Io(error) => write!(f, "write failed: {error}"),
            WriterError::UnsupportedType => f.write_str("unsupported value type"),
            WriterError::Memory(_) => f.write_str("out of memory"),
        }
    }
}

impl From<fmt::Error> for WriterError {
    ghost use Rattle.std.specs.Prelude.{◌≡◌};
    ghost use Rattle.wave_writer.specs.declared.writer.WriterError.TheVariants.{Io};

    ghost from_gives = { λ e r. r ≡ Io e };

    fn from(e: fmt::Error) -> WriterError {
        WriterError::Io(e)
    }
}

impl From<AllocError> for WriterError {
    ghost use Rattle.std.specs.Prelude.{◌≡◌};
    ghost use Rattle.wave_writer.specs.declared.writer.WriterError.TheVariants.{Memory};

    ghost from_gives = { λ e r. r ≡ Memory e };

    fn from(e: AllocError) -> WriterError {
        WriterError::Memory(e)
    }
}

impl<T: Drop> From<AllocFailed<T>> for WriterError {
    ghost use Rattle.std.specs.Prelude.{◌≡◌, alloc_error};
    ghost use Rattle.wave_writer.specs.declared.writer.WriterError.TheVariants.{Memory};

    ghost from_gives = { λ e r. r ≡ Memory alloc_error };

    fn from(e: AllocFailed<T>) -> WriterError {
        WriterError::Memory(AllocError::from(e))
    }
}

/// What takes text. A value means the text taken so far and how often a write failed.
pub trait TextWrite {
    ghost use Rattle.std.specs.Prelude.{OnOk, IfErr};
    ghost use Rattle.wave_writer.specs.WriterState.{Output, Appended, TextRefused};

    /// The text taken so far and the count of failures.
    ghost output: { Self → Output };

    /// Takes the text, or a beginning of it where the write fails.
    fn write_str(&mut self, s: &str) -> Result<(), WriterError>
        ensures ok { OnOk result (Appended s.now (output self.old) (output self.new)) }
        ensures err { IfErr result (λ e. TextRefused s.now e (output self.old) (output self.new)) };
}

impl TextWrite for String {
    ghost use Rattle.std.specs.String.{string_bytes};

    ghost output = { λ s. record { written = string_bytes s; failures = 0 } };

    #[inline(always)]
    fn write_str(&mut self, s: &str) -> Result<(), WriterError> {
        self.push_str(s)?;
        Ok(())
    }
}

/// Writes the canonical text of values. A clause sees what the text goes into.
#[derive(Drop)]
pub struct Writer<W: TextWrite> {
    out: W,
}

impl<W: TextWrite> Model for Writer<W> {
    ghost Value = { W };

    ghost view = { λ w. w.out };
}

impl<W: TextWrite> Writer<W> {
    ghost use Rattle.std.specs.Prelude.{◌≡◌, ◌≤◌, ◌++◌, OnOk, IfOk, IfErr, true, [], length, map, take, if◌then◌else◌};
    ghost use Rattle.std.specs.List.{flat_map, list_all};
    ghost use Rattle.std.specs.Str.{chars};
    ghost use Rattle.std.specs.Borrow.{Lends, sem};
    ghost use Rattle.wave_writer.specs.contracts.writer.Writer.{the_row};
    ghost use Rattle.wave_writer.specs.WriterState.{Appended, Refused};
    ghost use Rattle.wave_writer.specs.Private.WriterState.{Writes};
    ghost use Rattle.wave_wasm.specs.Values.{kind_of, IsWellFormed, flags_names};
    ghost use Rattle.wave_writer.specs.Private.Values.{IsLeaf};
    ghost use Rattle.wave_wasm.specs.Keywords.{case_label};
    ghost use Rattle.wave_wasm.specs.CommaParts.{comma_if, with_commas};
    ghost use Rattle.wave_wasm.specs.Commas.{enclosed};
    ghost use Rattle.wave_wasm.specs.Lists.{AllOf};
    ghost use Rattle.wave_wasm.specs.ConstructorContracts.{IsOfListKind};
    ghost use Rattle.wave_wasm.specs.Borrowed.{texts, denoted, denoted_all};
    ghost use Rattle.wave_wasm.specs.Text.{bool_text, escaped, quoted, quoted_char, text, has_text};
    ghost use Rattle.wave_wasm.specs.TextParts.{number_escape, payload_text, has_payload_text};

    /// A writer into `out`.
    pub fn new(out: W) -> Writer<W>
        ensures { result ≡ out }
    {
        Writer { out }
    }

    /// What the text goes into, as it is now; what is done to it is done to the writer's.
    pub fn as_mut(&mut self) -> &mut W
        ensures now { result.now ≡ self.old }
        ensures* lends { sem 𝓛 (Lends (the_row W.row W.TextWrite) W.row self.entry result (λ w. w)) }
    {
        &mut self.out
    }

    /// What the text went into.
    pub fn into_inner(self) -> W
        ensures { result ≡ self }
    {
        self.out
    }

    /// Appends the canonical text of the value. `UnsupportedType` is answered only where it has
    /// none, `Io` only where a write failed; a beginning of the text may stand then.
    #[cycle(write)]
    #[inline(always)]
    pub fn write_value<V: WasmValue>(&mut self, alloc: Global, val: &V) -> Result<(), WriterError>
        ensures ok { OnOk result
            (Appended (text (V.tree val.now)) (W.output self.old) (W.output self.new)) }
        ensures writable { OnOk result (has_text (V.tree val.now) ≡ true) }
        ensures err { IfErr result
            (λ e. Refused (text (V.tree val.now)) (has_text (V.tree val.now)) e (W.output self.old) (W.output self.new)) }
    {
        match val.kind() {
            WasmTypeKind::List | WasmTypeKind::FixedLengthList => self.write_list(alloc, val),
            WasmTypeKind::Record => self.write_record(alloc, val),
            WasmTypeKind::Tuple => self.write_tuple(alloc, val),
            WasmTypeKind::Variant => self.write_variant(alloc, val),
            WasmTypeKind::Enum => self.write_case(val.unwrap_enum()),
            WasmTypeKind::Option => self.write_option(alloc, val),
            WasmTypeKind::Result => self.write_result(alloc, val),
            WasmTypeKind::Flags => self.write_flags(alloc, val),
            WasmTypeKind::Map => self.write_map(alloc, val),
            WasmTypeKind::F32 | WasmTypeKind::F64 | WasmTypeKind::Unsupported => {
                Err(WriterError::UnsupportedType)
            }
            _ => self.write_leaf(val),
        }
    }

    #[cycle(write)]
    #[inline(never)]
    fn write_list<V: WasmValue>(&mut self, alloc: Global, val: &V) -> Result<(), WriterError>
        requires { IsOfListKind (kind_of (V.tree val.now)) }
        ensures { Writes (text (V.tree val.now)) (has_text (V.tree val.now)) result (W.output self.old) (W.output self.new) }
    {
        let items = val.unwrap_list(alloc)?;
        self.write_items(alloc, "[", items, "]")
    }

    #[cycle(write)]
    #[inline(never)]
    fn write_tuple<V: WasmValue>(&mut self, alloc: Global, val: &V) -> Result<(), WriterError>
        requires { kind_of (V.tree val.now) ≡ WasmTypeKind.Tuple }
        ensures { Writes (text (V.tree val.now)) (has_text (V.tree val.now)) result (W.output self.old) (W.output self.new) }
    {
        let items = val.unwrap_tuple(alloc)?;
        self.write_items(alloc, "(", items, ")")
    }

    /// Writes values with commas between, after an opening and before a close. The list of them is
    /// let go before the last one is written, so that of values within values few lists stand at once.
    #[cycle(write)]
    #[inline(always)]
    fn write_items<V: WasmValue>(
        &mut self,
        alloc: Global,
        opening: &str,
        mut items: Vec<&V>,
        closing: &str,
    ) -> Result<(), WriterError>
        ensures { Writes
            (enclosed opening.now (map text (denoted_all V.tree items.entry.items)) closing.now)
            (list_all has_text (denoted_all V.tree items.entry.items))
            result (W.output self.old) (W.output self.new) }
    {
        self.write_text(opening)?;
        let Some(last) = items.pop() else {
            return self.write_text(closing);
        };
        let others = items.as_slice();
        let written = self.write_rows(others)?;
        for item in &others[written..] {
            self.write_value(alloc, *item)?;
            self.write_text(", ")?;
        }
        drop(items);
        self.write_value(alloc, last)?;
        self.write_text(closing)
    }

    #[cycle(write)]
    #[inline(never)]
    fn write_record<V: WasmValue>(&mut self, alloc: Global, val: &V) -> Result<(), WriterError>
        requires { kind_of (V.tree val.now) ≡ WasmTypeKind.Record }
        ensures { Writes (text (V.tree val.now)) (has_text (V.tree val.now)) result (W.output self.old) (W.output self.new) }
    {
        let fields = val.unwrap_record(alloc)?;
        let mut later = false;
        for field in &fields {
            let (name, value) = *field;
            if is_none(value) {
                continue;
            }
            self.write_either(later, ", ", "{")?;
            later = true;
            self.write_text(name)?;
            self.write_text(": ")?;
            self.write_value(alloc, value)?;
        }
        self.write_either(later, "}", "{:}")
    }

    #[cycle(write)]
    #[inline(never)]
    fn write_variant<V: WasmValue>(&mut self, alloc: Global, val: &V) -> Result<(), WriterError>
        requires { kind_of (V.tree val.now) ≡ WasmTypeKind.Variant }
        ensures { Writes (text (V.tree val.now)) (has_text (V.tree val.now)) result (W.output self.old) (W.output self.new) }
    {
        let (case, payload) = val.unwrap_variant();
        self.write_case(case)?;
        self.write_payload(alloc, payload)
    }

    #[cycle(write)]
    #[inline(never)]
    fn write_option<V: WasmValue>(&mut self, alloc: Global, val: &V) -> Result<(), WriterError>
        requires { kind_of (V.tree val.now) ≡ WasmTypeKind.Option }
        ensures { Writes (text (V.tree val.now)) (has_text (V.tree val.now)) result (W.output self.old) (W.output self.new) }
    {
        match val.unwrap_option() {
            None => self.write_text("none"),
            Some(payload) => {
                self.write_text("some")?;
                self.write_payload(alloc, Some(payload))
            }
        }
    }

    #[cycle(write)]
    #[inline(never)]
    fn write_result<V: WasmValue>(&mut self, alloc: Global, val: &V) -> Result<(), WriterError>
        requires { kind_of (V.tree val.now) ≡ WasmTypeKind.Result }
        ensures { Writes (text (V.tree val.now)) (has_text (V.tree val.now)) result (W.output self.old) (W.output self.new) }
    {
        match val.unwrap_result() {
            Ok(payload) => {
                self.write_text("ok")?;
                self.write_payload(alloc, payload)
            }
            Err(payload) => {
                self.write_text("err")?;
                self.write_payload(alloc, payload)
            }
        }
    }

    /// Writes the payload in parentheses, or nothing where there is none.
    #[cycle(write)]
    fn write_payload<V: WasmValue>(
        &mut self,
        alloc: Global,
        payload: Option<&V>,
    ) -> Result<(), WriterError>
        ensures { Writes
            (payload_text (denoted V.tree payload.entry))
            (has_payload_text (denoted V.tree payload.entry))
            result (W.output self.old) (W.output self.new) }
    {
        match payload {
            None => Ok(()),
            Some(val) => {
                self.write_text("(")?;
                self.write_value(alloc, val)?;
                self.write_text(")")
            }
        }
    }

    #[cycle(write)]
    #[inline(never)]
    fn write_map<V: WasmValue>(&mut self, alloc: Global, val: &V) -> Result<(), WriterError>
        requires kind { kind_of (V.tree val.now) ≡ WasmTypeKind.Map }
        requires formed { IsWellFormed (V.tree val.now) }
        ensures { Writes (text (V.tree val.now)) (has_text (V.tree val.now)) result (W.output self.old) (W.output self.new) }
    {
        let entries = val.unwrap_map(alloc)?;
        let merged = merge_entries(alloc, entries)?;
        self.write_text("{")?;
        let mut later = false;
        for entry in &merged {
            self.write_separator(later)?;
            later = true;
            self.write_leaf(entry.0)?;
            self.write_text(": ")?;
            self.write_value(alloc, entry.1)?;
        }
        self.write_text("}")
    }

    #[inline(never)]
    fn write_flags<V: WasmValue>(&mut self, alloc: Global, val: &V) -> Result<(), WriterError>
        requires { kind_of (V.tree val.now) ≡ WasmTypeKind.Flags }
        ensures { Writes (text (V.tree val.now)) (has_text (V.tree val.now)) result (W.output self.old) (W.output self.new) }
    {
        let mut gathered = Gathered::new();
        let names = val.unwrap_flags(alloc)?;
        gathered.gather(&mut self.out, "{")?;
        let mut later = false;
        for name in &names {
            gathered.gather_item(&mut self.out, later, *name)?;
            later = true;
        }
        gathered.gather(&mut self.out, "}")?;
        self.write_text(gathered.as_str())
    }

    /// Writes the name of a case, after a `%` where it is a keyword.
    #[inline(never)]
    fn write_case(&mut self, case: &str) -> Result<(), WriterError>
        ensures { Writes (case_label case.now) true result (W.output self.old) (W.output self.new) }
    {
        match Keyword::decode(case) {
            Some(_) => {
                self.write_text("%")?;
                self.write_text(case)
            }
            None => self.write_text(case),
        }
    }

    /// Writes a value of one token.
    #[inline(always)]
    fn write_leaf<V: WasmValue>(&mut self, val: &V) -> Result<(), WriterError>
        requires { IsLeaf (V.tree val.now) }
        ensures { Writes (text (V.tree val.now)) true result (W.output self.old) (W.output self.new) }
    {
        match val.kind() {
            WasmTypeKind::Bool => self.write_bool(val.unwrap_bool()),
            WasmTypeKind::S8 => self.write_number(val.unwrap_s8()),
            WasmTypeKind::S16 => self.write_number(val.unwrap_s16()),
            WasmTypeKind::S32 => self.write_number(val.unwrap_s32()),
            WasmTypeKind::S64 => self.write_number(val.unwrap_s64()),
            WasmTypeKind::U8 => self.write_number(val.unwrap_u8()),
            WasmTypeKind::U16 => self.write_number(val.unwrap_u16()),
            WasmTypeKind::U32 => self.write_number(val.unwrap_u32()),
            WasmTypeKind::U64 => self.write_number(val.unwrap_u64()),
            WasmTypeKind::Char => self.write_char(val.unwrap_char()),
            WasmTypeKind::String => self.write_string(val.unwrap_string()),
            _ => unreachable!(),
        }
    }

    #[inline(never)]
    fn write_bool(&mut self, val: bool) -> Result<(), WriterError>
        ensures { Writes (bool_text val) true result (W.output self.old) (W.output self.new) }
    {
        self.write_either(val, "true", "false")
    }

    /// Writes short values at the beginning of the items, each before a comma, many at once, and returns how
    /// many these are. It may leave some.
    fn write_rows<V: WasmValue>(&mut self, items: &[&V]) -> Result<usize, WriterError>
        ensures within { IfOk result (λ n. n ≤ length items.now) }
        ensures ok { IfOk result
            (λ n. Appended (with_commas (map (λ v. text (V.tree v.now)) (take n items.now))) (W.output self.old) (W.output self.new)) }
        ensures writable { IfOk result (λ n. AllOf (λ v. has_text (V.tree v.now) ≡ true) (take n items.now)) }
        ensures err { IfErr result
            (λ e. Refused (with_commas (map (λ v. text (V.tree v.now)) items.now)) true e (W.output self.old) (W.output self.new)) }
    {
        let mut at = 0;
        while items.len() - at >= FEW {
            let count = AT_ONCE.min(items.len() - at);
            if !self.write_row(&items[at..at + count])? {
                return Ok(at);
            }
            at += count;
        }
        Ok(at)
    }

    /// Writes the items, each before a comma, where all are short, and returns whether they are. It may
    /// leave them.
    #[inline(never)]
    fn write_row<V: WasmValue>(&mut self, items: &[&V]) -> Result<bool, WriterError>
        ensures ok { IfOk result
            (λ b. Appended (if b then with_commas (map (λ v. text (V.tree v.now)) items.now) else []) (W.output self.old) (W.output self.new)) }
        ensures writable { IfOk result (λ b. b ≡ true → AllOf (λ v. has_text (V.tree v.now) ≡ true) items.now) }
        ensures err { IfErr result
            (λ e. Refused (with_commas (map (λ v. text (V.tree v.now)) items.now)) true e (W.output self.old) (W.output self.new)) }
    {
        let mut room = [0; ROOM];
        let Some(start) = fill_row(items, &mut room) else {
            return Ok(false);
        };
        self.write_text(text_in(&room, start, ROOM))?;
        Ok(true)
    }

    #[inline(never)]
    fn write_number<N: Integer>(&mut self, number: N) -> Result<(), WriterError>
        ensures { Writes (N.text number) true result (W.output self.old) (W.output self.new) }
    {
        let mut buffer = Buffer::new();
        self.write_text(buffer.format(number))
    }

    /// Writes a scalar between single quotes.
    #[inline(never)]
    fn write_char(&mut self, c: char) -> Result<(), WriterError>
        ensures { Writes (quoted_char c) true result (W.output self.old) (W.output self.new) }
    {
        self.write_text("'")?;
        self.write_scalar(c)?;
        self.write_text("'")
    }

    /// Writes a text between double quotes. The scalars between two escapes are written as one run.
    #[inline(never)]
    fn write_string(&mut self, s: &str) -> Result<(), WriterError>
        ensures { Writes (quoted s.now) true result (W.output self.old) (W.output self.new) }
    {
        self.write_text("\"")?;
        let mut start = 0;
        let mut at = plain_end(s.as_bytes(), 0);
        while let Some(c) = s[at..].chars().next() {
            let next = at + c.len_utf8();
            if !is_plain(c) {
                self.write_run(&s[start..at])?;
                self.write_scalar(c)?;
                start = next;
            }
            at = plain_end(s.as_bytes(), next);
        }
        self.write_run(&s[start..])?;
        self.write_text("\"")
    }

    /// Writes a run, which may be empty.
    fn write_run(&mut self, run: &str) -> Result<(), WriterError>
        ensures { Writes run.now true result (W.output self.old) (W.output self.new) }
    {
        if run.is_empty() {
            Ok(())
        } else {
            self.write_text(run)
        }
    }

    /// Writes a scalar as it stands between quotes.
    fn write_scalar(&mut self, c: char) -> Result<(), WriterError>
        ensures { Writes (escaped c) true result (W.output self.old) (W.output self.new) }
    {
        match named_escape(c) {
            Some(escape) => self.write_text(escape),
            None if is_escaped(c) => self.write_number_escape(c),
            None => {
                let mut bytes = [0u8; 4];
                self.write_text(c.encode_utf8(&mut bytes))
            }
        }
    }

    /// Writes a scalar by its number, as `\u{h}`.
    fn write_number_escape(&mut self, c: char) -> Result<(), WriterError>
        ensures { Writes (number_escape c) true result (W.output self.old) (W.output self.new) }
    {
        for part in c.escape_unicode() {
            let mut bytes = [0u8; 4];
            self.write_text(part.encode_utf8(&mut bytes))?;
        }
        Ok(())
    }

    #[inline(always)]
    fn write_separator(&mut self, later: bool) -> Result<(), WriterError>
        ensures { Writes (comma_if later) true result (W.output self.old) (W.output self.new) }
    {
        if later { self.write_text(", ") } else { Ok(()) }
    }

    #[inline(always)]
    fn write_either(&mut self, first: bool, a: &str, b: &str) -> Result<(), WriterError>
        ensures { Writes (if first then a.now else b.now) true result (W.output self.old) (W.output self.new) }
    {
        if first {
            self.write_text(a)
        } else {
            self.write_text(b)
        }
    }

    #[inline(always)]
    fn write_text(&mut self, s: &str) -> Result<(), WriterError>
        ensures { Writes s.now true result (W.output self.old) (W.output self.new) }
    {
        self.out.write_str(s)
    }
}

ghost use Rattle.std.specs.Prelude.{◌≡◌, OnOk, IfOk, IfErr, IfSome, IsNone, true, map, if◌then◌else◌};
ghost use Rattle.std.specs.Bool.{OnTrue};
ghost use Rattle.std.specs.List.{list_all};
ghost use Rattle.std.specs.Str.{bytes_eq};
ghost use Rattle.std.specs.String.{string_bytes};
ghost use Rattle.wave_wasm.specs.Lists.{AllOf};
ghost use Rattle.wave_writer.specs.Private.Values.{IsLeaf};
ghost use Rattle.std.specs.Char.{encode_utf8};
ghost use Rattle.wave_wasm.specs.Text.{text, has_text, is_no_option, escaped, is_escaped, arguments_text, results_text};
ghost use Rattle.wave_wasm.specs.TextParts.{number_escape};
ghost use Rattle.wave_wasm.specs.Merge.{merge, merge_by_text};
ghost use Rattle.wave_wasm.specs.Names.{AreDistinct};
ghost use Rattle.wave_wasm.specs.Fingerprints.{fingerprint};
ghost use Rattle.wave_writer.specs.WriterState.{IsGrounded};

/// The canonical text of the value. `UnsupportedType` is answered only where it has none, and
/// `Io` never.
pub fn to_string<V: WasmValue>(alloc: Global, val: &V) -> Result<String, WriterError>
    ensures ok { IfOk result (λ s. string_bytes s ≡ text (V.tree val.now)) }
    ensures writable { OnOk result (has_text (V.tree val.now) ≡ true) }
    ensures err { IfErr result (λ e. IsGrounded e (has_text (V.tree val.now)) 0 0) }
{
    let mut out = Writer::new(String::new(alloc));
    out.write_value(alloc, val)?;
    Ok(out.into_inner())
}

/// The canonical texts of arguments, in parentheses.
pub(crate) fn arguments_to_string<V: WasmValue>(
    alloc: Global,
    vals: &[V],
) -> Result<String, WriterError>
    ensures ok { IfOk result (λ s. string_bytes s ≡ arguments_text (map V.tree vals.now)) }
    ensures writable { OnOk result (list_all has_text (map V.tree vals.now) ≡ true) }
{
    let mut writer = Writer::new(String::new(alloc));
    writer.write_text("(")?;
    let mut later = false;
    for val in vals {
        writer.write_separator(later)?;
        later = true;
        writer.write_value(alloc, val)?;
    }
    writer.write_text(")")?;
    Ok(writer.into_inner())
}

/// The canonical texts of results: of one as it is, else in parentheses.
pub(crate) fn results_to_string<V: WasmValue>(
    alloc: Global,
    vals: &[V],
) -> Result<String, WriterError>
    ensures ok { IfOk result (λ s. string_bytes s ≡ results_text (map V.tree vals.now)) }
    ensures writable { OnOk result (list_all has_text (map V.tree vals.now) ≡ true) }
{
    if vals.len() == 1 {
        to_string(alloc, &vals[0])
    } else {
        arguments_to_string(alloc, vals)
    }
}

/// The canonical text of a value of one token.
fn leaf_text<V: WasmValue>(alloc: Global, val: &V) -> Result<String, WriterError>
    requires { IsLeaf (V.tree val.now) }
    ensures ok { IfOk result (λ s. string_bytes s ≡ text (V.tree val.now)) }
    ensures err { IfErr result (λ e. IsGrounded e true 0 0) }
{
    let mut writer = Writer::new(String::new(alloc));
    writer.write_leaf(val)?;
    Ok(writer.into_inner())
}

/// The entries merged by the texts of their keys.
fn merge_entries<'a, V: WasmValue>(
    alloc: Global,
    entries: Vec<(&'a V, &'a V)>,
) -> Result<Vec<(&'a V, &'a V)>, WriterError>
    requires { AllOf (λ e. IsLeaf (V.tree e.0.now)) entries.items }
    ensures ok { IfOk result (λ m. m.items ≡ merge (λ a b. bytes_eq (text (V.tree a.now)) (text (V.tree b.now))) entries.entry.items) }
    ensures err { IfErr result (λ e. IsGrounded e true 0 0) }
{
    if have_distinct_keys(alloc, &entries) {
        return Ok(entries);
    }
    let mut with_texts = Vec::with_capacity(alloc, entries.len())?;
    for entry in &entries {
        let (key, value) = *entry;
        with_texts.push((leaf_text(alloc, key)?, key, value))?;
    }
    Ok(merge_map_entries(alloc, with_texts)?)
}

/// Whether no text of a key stands twice. The answer is no as well where that isn't seen at once:
/// where two of them have one fingerprint, and where there is no memory.
fn have_distinct_keys<V: WasmValue>(alloc: Global, entries: &Vec<(&V, &V)>) -> bool
    requires { AllOf (λ e. IsLeaf (V.tree e.0.now)) entries.now.items }
    ensures { OnTrue result (AreDistinct (map (λ e. text (V.tree e.0.now)) entries.now.items)) }
{
    match key_fingerprints(alloc, entries) {
        Ok(numbers) => all_differ(numbers),
        Err(_) => false,
    }
}

/// The fingerprints of the texts of the keys, each of which is written over the one before it.
fn key_fingerprints<V: WasmValue>(
    alloc: Global,
    entries: &Vec<(&V, &V)>,
) -> Result<Vec<u64>, WriterError>
    requires { AllOf (λ e. IsLeaf (V.tree e.0.now)) entries.now.items }
    ensures { IfOk result (λ v. v.items ≡ map (λ e. fingerprint (text (V.tree e.0.now))) entries.now.items) }
{
    let mut numbers = Vec::with_capacity(alloc, entries.len())?;
    let mut writer = Writer::new(String::new(alloc));
    for entry in entries {
        writer.out.clear();
        writer.write_leaf(entry.0)?;
        numbers.push(fingerprint(writer.out.as_str()))?;
    }
    Ok(numbers)
}

fn is_none<V: WasmValue>(val: &V) -> bool
    ensures { result ≡ is_no_option (V.tree val.now) }
{
    val.kind() == WasmTypeKind::Option && val.unwrap_option().is_none()
}

/// Whether the scalar stands for itself in a char or string.
fn is_plain(c: char) -> bool
    ensures { result ≡ true → escaped c ≡ encode_utf8 c }
{
    named_escape(c).is_none() && !is_escaped(c)
}

/// The escape by a `\` and a letter or the scalar itself, for the scalars that have one.
#[tactic(auto, unfolding(wave_wasm::specs::Text::escaped))]
fn named_escape(c: char) -> Option<&'static str>
    ensures short { IfSome result (λ s. s.now ≡ escaped c) }
    ensures long { IsNone result → escaped c ≡ (if is_escaped c then number_escape c else encode_utf8 c) }
{
    match c {
        '\\' => Some("\\\\"),
        '"' => Some("\\\""),
        '\'' => Some("\\'"),
        '\t' => Some("\\t"),
        '\r' => Some("\\r"),
        '\n' => Some("\\n"),
        _ => None,
    }
}

/// Whether the scalar is written by its number. One of ASCII needs no table of categories.
#[tactic(auto, using(crate::proofs::Escapes::PlainBytes::controls_escaped))]
fn is_escaped(c: char) -> bool
    ensures { result ≡ is_escaped c }
{
    use GeneralCategory::*;
    if c.is_ascii() {
        return c.is_ascii_control();
    }
    match GeneralCategory::for_char(c) {
        Control
        | Format
        | PrivateUse
        | Unassigned
        | LineSeparator
        | ParagraphSeparator
        | NonspacingMark
        | EnclosingMark
        | SpaceSeparator => c != ' ',
        _ => false,
    }
}

/// The entries merged by their texts: the distinct texts in the order of their first places, each
/// with its first key and its last value.
pub fn merge_map_entries<K: Drop, V: Drop>(
    alloc: Global,
    entries: Vec<(String, K, V)>,
) -> Result<Vec<(K, V)>, AllocError>
    ensures { IfOk result
        (λ m. m.items ≡ merge_by_text (map (λ e. ((string_bytes e.0, e.1), e.2)) entries.items)) }
{
    if have_distinct_texts(alloc, &entries) {
        without_texts(alloc, entries)
    } else {
        merge_by_places(alloc, entries)
    }
}

/// Whether no text stands twice. The answer is no as well where that isn't seen at once: where two
/// texts have one fingerprint, and where there is no memory.
fn have_distinct_texts<K, V>(alloc: Global, entries: &Vec<(String, K, V)>) -> bool
    ensures { OnTrue result (AreDistinct (map (λ e. string_bytes e.0) entries.now.items)) }
{
    match text_fingerprints(alloc, entries) {
        Ok(numbers) => all_differ(numbers),
        Err(_) => false,
    }
}

/// The fingerprints of the texts.
fn text_fingerprints<K, V>(
    alloc: Global,
    entries: &Vec<(String, K, V)>,
) -> Result<Vec<u64>, AllocError>
    ensures { IfOk result (λ v. v.items ≡ map (λ e. fingerprint (string_bytes e.0)) entries.now.items) }
{
    let mut numbers = Vec::with_capacity(alloc, entries.len())?;
    for entry in entries {
        numbers.push(fingerprint(entry.0.as_str()))?;
    }
    Ok(numbers)
}

/// The keys with their values.
fn without_texts<K: Drop, V: Drop>(
    alloc: Global,
    entries: Vec<(String, K, V)>,
) -> Result<Vec<(K, V)>, AllocError>
    ensures { IfOk result (λ m. m.items ≡ map (λ e. (e.1, e.2)) entries.items) }
{
    let mut pairs = Vec::with_capacity(alloc, entries.len())?;
    for (_, key, value) in entries {
        pairs.push((key, value))?;
    }
    Ok(pairs)
}

/// The entries merged by their texts, each of which is looked up in a map of those before it.
fn merge_by_places<K: Drop, V: Drop>(
    alloc: Global,
    entries: Vec<(String, K, V)>,
) -> Result<Vec<(K, V)>, AllocError>
    ensures { IfOk result
        (λ m. m.items ≡ merge_by_text (map (λ e. ((string_bytes e.0, e.1), e.2)) entries.items)) }
{
    let mut places: BTreeMap<String, usize> = BTreeMap::new(alloc);
    let mut merged: Vec<(K, V)> = Vec::new(alloc);
    for (text, key, value) in entries {
        match places.get(text.as_str()) {
            Some(place) => {
                let place = *place;
                merged[place].1 = value;
            }
            None => {
                places.insert(text, merged.len())?;
                merged.push((key, value))?;
            }
        }
    }
    Ok(merged)
}
