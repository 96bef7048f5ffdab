//! Calls that readers at types share.
ghost use Rattle.std.specs.Prelude.{◌≡◌, ◌≢◌, ◌↔◌, map, IsTrue, IfOk};
ghost use Rattle.std.specs.Bool.{OnTrue};
ghost use Rattle.std.specs.Str.{bytes_eq};
ghost use Rattle.wave_wasm.specs.Borrowed.{denoted};
ghost use Rattle.wave_wasm.specs.Merge.{merge};
ghost use Rattle.wave_wasm.specs.Names.{AreDistinct};
ghost use Rattle.wave_wasm.specs.Fingerprints.{fingerprint};
ghost use Rattle.wave_wasm.specs.Text.{text};
ghost use Rattle.wave_grammar.specs.Private.FlatPayloads.{GivesFlat};

use std::alloc::{AllocError, Global};
use wave_wasm::fingerprints::{all_differ, fingerprint};
use wave_wasm::wasm::{WasmType, WasmTypeKind, WasmValue};
use wave_writer::writer::{Writer, WriterError, merge_map_entries, to_string};

/// The entries with each key once, merged by the texts of their keys. The only error is out of
/// memory, which also stands for a key that has no text.
pub fn merged<V: WasmValue>(alloc: Global, entries: Vec<(V, V)>) -> Result<Vec<(V, V)>, AllocError>
    ensures { IfOk result (λ m. m.items ≡ merge (λ a b. bytes_eq (text (V.tree a)) (text (V.tree b))) entries.items) }
{
    if have_distinct_keys(alloc, &entries) {
        Ok(entries)
    } else {
        merge_by_texts(alloc, entries)
    }
}

/// Whether no text of a key stands twice. The answer is no as well where that isn't seen at once:
/// where two of them have one fingerprint, where a key has no text, and where there is no memory.
fn have_distinct_keys<V: WasmValue>(alloc: Global, entries: &Vec<(V, V)>) -> bool
    ensures { OnTrue result (AreDistinct (map (λ e. text (V.tree e.0)) entries.now.items)) }
{
    match key_fingerprints(alloc, entries) {
        Ok(numbers) => all_differ(numbers),
        Err(_) => false,
    }
}

/// The fingerprints of the texts of the keys, each of which is written over the one before it.
fn key_fingerprints<V: WasmValue>(
    alloc: Global,
    entries: &Vec<(V, V)>,
) -> Result<Vec<u64>, WriterError>
    ensures { IfOk result (λ v. v.items ≡ map (λ e. fingerprint (text (V.tree e.0))) entries.now.items) }
{
    let mut numbers = Vec::with_capacity(alloc, entries.len())?;
    let mut writer = Writer::new(String::new(alloc));
    for entry in entries {
        writer.as_mut().clear();
        writer.write_value(alloc, &entry.0)?;
        numbers.push(fingerprint(writer.as_mut().as_str()))?;
    }
    Ok(numbers)
}

/// The entries merged by the texts of their keys, which are made for each of them.
fn merge_by_texts<V: WasmValue>(
    alloc: Global,
    entries: Vec<(V, V)>,
) -> Result<Vec<(V, V)>, AllocError>
    ensures { IfOk result (λ m. m.items ≡ merge (λ a b. bytes_eq (text (V.tree a)) (text (V.tree b))) entries.items) }
{
    let mut with_texts = Vec::with_capacity(alloc, entries.len())?;
    for (key, val) in entries {
        let Ok(text) = to_string(alloc, &key) else {
            return Err(AllocError);
        };
        with_texts.push((text, key, val))?;
    }
    merge_map_entries(alloc, with_texts)
}

/// Whether an option or a result may be left out around a value of this kind.
pub fn is_flat(kind: WasmTypeKind) -> bool
    ensures { IsTrue result ↔ ((kind ≢ WasmTypeKind.Option) × (kind ≢ WasmTypeKind.Result)) }
{
    match kind {
        WasmTypeKind::Option | WasmTypeKind::Result => false,
        _ => true,
    }
}

/// The type of a payload that may stand alone for `ok` of itself.
pub fn flat_type<T: WasmType>(payload: Option<&T>) -> Option<&T>
    ensures { GivesFlat (denoted T.tree payload.entry) (denoted T.tree result) }
{
    match payload {
        Some(ty) if is_flat(ty.kind()) => Some(ty),
        _ => None,
    }
}
