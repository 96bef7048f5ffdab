//! Values as JSON.
ghost use Rattle.std.specs.Prelude.{◌≡◌, [], ◌∷◌, decimal, true, IfErr, IfOk, OnOk, string_bytes};
ghost use Rattle.std.specs.Bool.{MatchBool};
ghost use Rattle.std.specs.Fmt.{signed_decimal};
ghost use Rattle.std.specs.List.{flat_map, list_all};
ghost use Rattle.std.specs.Str.{bytes_eq};
ghost use Rattle.json.specs.Token as token;
ghost use Rattle.json.specs.Print.{IsPrintable};
ghost use Rattle.json.specs.Reads.{token_of};
ghost use Rattle.json.specs.Tree.{json_tokens};
ghost use Rattle.wave_wasm.specs.Borrowed.{denoted, denoted_all, denoted_pairs};
ghost use Rattle.wave_wasm.specs.ConstructorContracts.{IsOfListKind};
ghost use Rattle.wave_wasm.specs.Lists.{AllOf};
ghost use Rattle.wave_wasm.specs.Merge.{merge, merged_maybe};
ghost use Rattle.wave_wasm.specs.Text.{text, has_text, is_no_option, is_writable_maybe};
ghost use Rattle.wave_wasm.specs.Values.{kind_of, maybe_value, IsWellFormed};
ghost use Rattle.wave_writer.specs.WriterState.{IsGrounded};
ghost use Rattle.wave_json.specs.Mapping.{case_json, json_of, json_text, one_member};
ghost use Rattle.wave_json.specs.Private.Writers.{BeginsNamed, BeginsUnnamed, IsLeaf, Puts, array_tokens, entry_tokens, field_tokens, has_entry, member_tokens, object_tokens, value_tokens};

use json::{Token, Writer};
use std::alloc::Global;
use wave_wasm::wasm::{WasmTypeKind, WasmValue};
use wave_writer::writer::{WriterError, merge_map_entries, to_string};

/// The JSON of the value, as docs/FORMATS.md lays it out, without spaces. `UnsupportedType` is answered
/// only where a part of the value is an `f32`, an `f64` or unsupported, `Io` never.
pub fn to_json<V: WasmValue>(alloc: Global, val: &V) -> Result<String, WriterError>
    ensures ok { IfOk result (λ s. string_bytes s ≡ json_text (V.tree val.now)) }
    ensures writable { OnOk result (has_text (V.tree val.now) ≡ true) }
    ensures err { IfErr result (λ e. IsGrounded e (has_text (V.tree val.now)) 0 0) }
{
    let mut out = Writer::new(Vec::new(alloc));
    put_value(alloc, val, &mut out)?;
    Ok(unsafe { String::from_utf8_unchecked(out.into_inner()) })
}

/// Writes the value.
#[cycle(put)]
fn put_value<V: WasmValue>(alloc: Global, val: &V, out: &mut Writer) -> Result<(), WriterError>
    ensures { Puts (value_tokens (V.tree val.now)) (has_text (V.tree val.now)) result out.old out.new }
{
    match val.kind() {
        WasmTypeKind::List | WasmTypeKind::FixedLengthList => put_list(alloc, val, out),
        WasmTypeKind::Tuple => put_tuple(alloc, val, out),
        WasmTypeKind::Record => put_record(alloc, val, out),
        WasmTypeKind::Variant => {
            let (case, payload) = val.unwrap_variant();
            put_case(alloc, case, payload, out)
        }
        WasmTypeKind::Enum => put_token(Token::String(val.unwrap_enum()), out),
        WasmTypeKind::Option => put_option(alloc, val, out),
        WasmTypeKind::Result => match val.unwrap_result() {
            Ok(payload) => put_case(alloc, "ok", payload, out),
            Err(payload) => put_case(alloc, "err", payload, out),
        },
        WasmTypeKind::Flags => put_flags(alloc, val, out),
        WasmTypeKind::Map => put_map(alloc, val, out),
        WasmTypeKind::F32 | WasmTypeKind::F64 | WasmTypeKind::Unsupported => {
            Err(WriterError::UnsupportedType)
        }
        _ => put_leaf(val, out),
    }
}

/// Writes a value of one token.
fn put_leaf<V: WasmValue>(val: &V, out: &mut Writer) -> Result<(), WriterError>
    requires { IsLeaf (V.tree val.now) }
    ensures { Puts (value_tokens (V.tree val.now)) true result out.old out.new }
{
    match val.kind() {
        WasmTypeKind::Bool => put_token(Token::Bool(val.unwrap_bool()), out),
        WasmTypeKind::S8 => put_signed(i64::from(val.unwrap_s8()), out),
        WasmTypeKind::S16 => put_signed(i64::from(val.unwrap_s16()), out),
        WasmTypeKind::S32 => put_signed(i64::from(val.unwrap_s32()), out),
        WasmTypeKind::S64 => put_signed(val.unwrap_s64(), out),
        WasmTypeKind::U8 => put_unsigned(u64::from(val.unwrap_u8()), out),
        WasmTypeKind::U16 => put_unsigned(u64::from(val.unwrap_u16()), out),
        WasmTypeKind::U32 => put_unsigned(u64::from(val.unwrap_u32()), out),
        WasmTypeKind::U64 => put_unsigned(val.unwrap_u64(), out),
        WasmTypeKind::Char => {
            let mut room = [0; 4];
            put_token(Token::String(val.unwrap_char().encode_utf8(&mut room)), out)
        }
        WasmTypeKind::String => put_token(Token::String(val.unwrap_string()), out),
        _ => Err(WriterError::UnsupportedType),
    }
}

/// Writes the items of a list.
#[cycle(put)]
fn put_list<V: WasmValue>(alloc: Global, val: &V, out: &mut Writer) -> Result<(), WriterError>
    requires { IsOfListKind (kind_of (V.tree val.now)) }
    ensures { Puts (value_tokens (V.tree val.now)) (has_text (V.tree val.now)) result out.old out.new }
{
    let items = val.unwrap_list(alloc)?;
    put_items(alloc, &items, out)
}

/// Writes the items of a tuple.
#[cycle(put)]
fn put_tuple<V: WasmValue>(alloc: Global, val: &V, out: &mut Writer) -> Result<(), WriterError>
    requires { kind_of (V.tree val.now) ≡ WasmTypeKind.Tuple }
    ensures { Puts (value_tokens (V.tree val.now)) (has_text (V.tree val.now)) result out.old out.new }
{
    let items = val.unwrap_tuple(alloc)?;
    put_items(alloc, &items, out)
}

/// Writes an array of the items.
#[cycle(put)]
fn put_items<V: WasmValue>(alloc: Global, items: &[&V], out: &mut Writer) -> Result<(), WriterError>
    ensures { Puts (array_tokens (flat_map value_tokens (denoted_all V.tree items.now))) (list_all has_text (denoted_all V.tree items.now)) result out.old out.new }
{
    put_token(Token::BeginArray, out)?;
    for item in items {
        put_value(alloc, *item, out)?;
    }
    put_token(Token::EndArray, out)
}

/// Writes an object of the fields that are not `none`.
#[cycle(put)]
fn put_record<V: WasmValue>(alloc: Global, val: &V, out: &mut Writer) -> Result<(), WriterError>
    requires { kind_of (V.tree val.now) ≡ WasmTypeKind.Record }
    ensures { Puts (value_tokens (V.tree val.now)) (has_text (V.tree val.now)) result out.old out.new }
{
    let fields = val.unwrap_record(alloc)?;
    put_token(Token::BeginObject, out)?;
    for field in &fields {
        put_field(alloc, field.0, field.1, out)?;
    }
    put_token(Token::EndObject, out)
}

/// Writes a field, or nothing where it is `none`.
#[cycle(put)]
fn put_field<V: WasmValue>(
    alloc: Global,
    name: &str,
    val: &V,
    out: &mut Writer,
) -> Result<(), WriterError>
    ensures { Puts (field_tokens (name.now, V.tree val.now)) (has_text (V.tree val.now)) result out.old out.new }
{
    if is_none(val) {
        return Ok(());
    }
    put_token(Token::Key(name), out)?;
    put_value(alloc, val, out)
}

/// Writes the name of a case; with a payload an object of that one member.
#[cycle(put)]
fn put_case<V: WasmValue>(
    alloc: Global,
    case: &str,
    payload: Option<&V>,
    out: &mut Writer,
) -> Result<(), WriterError>
    ensures { Puts (json_tokens (case_json case.now (merged_maybe (maybe_value (denoted V.tree payload.entry)))))
        (is_writable_maybe (merged_maybe (maybe_value (denoted V.tree payload.entry)))) result out.old out.new }
{
    match payload {
        None => put_token(Token::String(case), out),
        Some(val) => put_member(alloc, case, val, out),
    }
}

/// Writes an object of one member.
#[cycle(put)]
fn put_member<V: WasmValue>(
    alloc: Global,
    name: &str,
    val: &V,
    out: &mut Writer,
) -> Result<(), WriterError>
    ensures { Puts (json_tokens (one_member name.now (json_of (V.tree val.now)))) (has_text (V.tree val.now)) result out.old out.new }
{
    put_token(Token::BeginObject, out)?;
    put_token(Token::Key(name), out)?;
    put_value(alloc, val, out)?;
    put_token(Token::EndObject, out)
}

/// Writes `null`, or the payload, in an object where it is an option too.
#[cycle(put)]
fn put_option<V: WasmValue>(alloc: Global, val: &V, out: &mut Writer) -> Result<(), WriterError>
    requires { kind_of (V.tree val.now) ≡ WasmTypeKind.Option }
    ensures { Puts (value_tokens (V.tree val.now)) (has_text (V.tree val.now)) result out.old out.new }
{
    match val.unwrap_option() {
        None => put_token(Token::Null, out),
        Some(payload) => {
            if payload.kind() == WasmTypeKind::Option {
                put_member(alloc, "some", payload, out)
            } else {
                put_value(alloc, payload, out)
            }
        }
    }
}

/// Writes an array of the names of flags.
fn put_flags<V: WasmValue>(alloc: Global, val: &V, out: &mut Writer) -> Result<(), WriterError>
    requires { kind_of (V.tree val.now) ≡ WasmTypeKind.Flags }
    ensures { Puts (value_tokens (V.tree val.now)) (has_text (V.tree val.now)) result out.old out.new }
{
    let names = val.unwrap_flags(alloc)?;
    put_token(Token::BeginArray, out)?;
    for name in &names {
        put_token(Token::String(*name), out)?;
    }
    put_token(Token::EndArray, out)
}

/// Writes the merged entries of a map: an object where the first key is a string or there is none, else
/// an array of pairs.
#[cycle(put)]
fn put_map<V: WasmValue>(alloc: Global, val: &V, out: &mut Writer) -> Result<(), WriterError>
    requires kind { kind_of (V.tree val.now) ≡ WasmTypeKind.Map }
    requires formed { IsWellFormed (V.tree val.now) }
    ensures { Puts (value_tokens (V.tree val.now)) (has_text (V.tree val.now)) result out.old out.new }
{
    let entries = val.unwrap_map(alloc)?;
    let merged = merge_entries(alloc, entries)?;
    if has_names(&merged) {
        put_members(alloc, &merged, out)
    } else {
        put_pairs(alloc, &merged, out)
    }
}

/// Writes an object of the entries, whose keys are strings.
#[cycle(put)]
fn put_members<V: WasmValue>(
    alloc: Global,
    entries: &[(&V, &V)],
    out: &mut Writer,
) -> Result<(), WriterError>
    requires { AllOf (λ e. kind_of e.0 ≡ WasmTypeKind.String) (denoted_pairs V.tree entries.now) }
    ensures { Puts (object_tokens (flat_map member_tokens (denoted_pairs V.tree entries.now))) (list_all has_entry (denoted_pairs V.tree entries.now)) result out.old out.new }
{
    put_token(Token::BeginObject, out)?;
    for entry in entries {
        put_token(Token::Key(entry.0.unwrap_string()), out)?;
        put_value(alloc, entry.1, out)?;
    }
    put_token(Token::EndObject, out)
}

/// Writes an array of the entries, each an array of a key and its value.
#[cycle(put)]
fn put_pairs<V: WasmValue>(
    alloc: Global,
    entries: &[(&V, &V)],
    out: &mut Writer,
) -> Result<(), WriterError>
    requires { AllOf (λ e. IsLeaf e.0) (denoted_pairs V.tree entries.now) }
    ensures { Puts (array_tokens (flat_map entry_tokens (denoted_pairs V.tree entries.now))) (list_all has_entry (denoted_pairs V.tree entries.now)) result out.old out.new }
{
    put_token(Token::BeginArray, out)?;
    for entry in entries {
        put_pair(alloc, entry.0, entry.1, out)?;
    }
    put_token(Token::EndArray, out)
}

/// Writes an array of a key and its value.
#[cycle(put)]
fn put_pair<V: WasmValue>(
    alloc: Global,
    key: &V,
    val: &V,
    out: &mut Writer,
) -> Result<(), WriterError>
    requires { IsLeaf (V.tree key.now) }
    ensures { Puts (entry_tokens (V.tree key.now, V.tree val.now)) (has_text (V.tree val.now)) result out.old out.new }
{
    put_token(Token::BeginArray, out)?;
    put_leaf(key, out)?;
    put_value(alloc, val, out)?;
    put_token(Token::EndArray, out)
}

/// Whether the first key is a string, or there is none.
fn has_names<V: WasmValue>(entries: &[(&V, &V)]) -> bool
    ensures { MatchBool result (BeginsNamed (denoted_pairs V.tree entries.now)) (BeginsUnnamed (denoted_pairs V.tree entries.now)) }
{
    match entries.first() {
        None => true,
        Some(entry) => entry.0.kind() == WasmTypeKind::String,
    }
}

/// The entries merged by the texts of their keys.
fn merge_entries<'a, V: WasmValue>(
    alloc: Global,
    entries: Vec<(&'a V, &'a V)>,
) -> Result<Vec<(&'a V, &'a V)>, WriterError>
    requires { AllOf (λ e. IsLeaf (V.tree e.0.now)) entries.items }
    ensures ok { IfOk result (λ m. m.items ≡ merge (λ a b. bytes_eq (text (V.tree a.now)) (text (V.tree b.now))) entries.entry.items) }
    ensures err { IfErr result (λ e. IsGrounded e true 0 0) }
{
    let mut with_texts = Vec::with_capacity(alloc, entries.len())?;
    for entry in &entries {
        let (key, val) = *entry;
        with_texts.push((to_string(alloc, key)?, key, val))?;
    }
    Ok(merge_map_entries(alloc, with_texts)?)
}

/// Whether the value is `none`.
fn is_none<V: WasmValue>(val: &V) -> bool
    ensures { result ≡ is_no_option (V.tree val.now) }
{
    val.kind() == WasmTypeKind::Option && val.unwrap_option().is_none()
}

/// Writes a whole number.
fn put_signed(number: i64, out: &mut Writer) -> Result<(), WriterError>
    ensures { Puts (token.number (signed_decimal number) ∷ []) true result out.old out.new }
{
    out.i64(number)?;
    Ok(())
}

/// Writes a whole number.
fn put_unsigned(number: u64, out: &mut Writer) -> Result<(), WriterError>
    ensures { Puts (token.number (decimal number) ∷ []) true result out.old out.new }
{
    out.u64(number)?;
    Ok(())
}

/// Writes the token.
fn put_token(token: Token<'_>, out: &mut Writer) -> Result<(), WriterError>
    requires { IsPrintable (token_of token) }
    ensures { Puts (token_of token.entry ∷ []) true result out.old out.new }
{
    out.token(token)?;
    Ok(())
}
