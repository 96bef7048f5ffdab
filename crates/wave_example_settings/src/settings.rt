//! The settings of a window: a record that is read from a text, viewed, changed and written again.
ghost use Rattle.std.specs.Prelude.{ℕ, ◌≡◌, IfOk, IfErr, OnOk, MatchOption, string_bytes};
ghost use Rattle.wave_wasm.specs.Values.{kind_of};
ghost use Rattle.wave_wasm.specs.HasType.{HasType};
ghost use Rattle.wave_wasm.specs.Text.{text};
ghost use Rattle.wave_lex.specs.Labels.{HasDistinctLabels};
ghost use Rattle.wave_wasm.specs.Types.{HasDistinctNames, IsRepresentable};
ghost use Rattle.wave_grammar.specs.RoundTripLaws.{ReadBack};
ghost use Rattle.wave_value.specs.TypedValue.{IsAt};
ghost use Rattle.wasm_wave.specs.MainTheorem.{RefusesWriting};
ghost use Rattle.wave_example_settings.specs.Settings.{settings, HasWidth, TakesWidth, with_width, AreResized, MeansSettings};
ghost use Rattle.wave_example_settings.specs.Settings.{RefusesWidth, RefusesSettings, RefusesResizing};

use std::alloc::{AllocError, Global};
use wasm_wave::parser::ParserError;
use wasm_wave::value::{Type, Value};
use wasm_wave::wasm::{WasmTypeKind, WasmValueError};
use wasm_wave::writer::WriterError;
use wasm_wave::{from_str, to_string};

/// Why settings were not written again.
#[derive(Debug, Drop, thiserror::Error)]
pub enum Refusal {
    /// The text means no settings. The error has the place.
    #[error("{0}")]
    Text(ParserError),
    /// The text means a value that is no record.
    #[error("no record")]
    NoRecord,
    /// The settings can not have this width, or there was no memory.
    #[error("{0}")]
    Value(WasmValueError),
    /// There was no memory to write the settings.
    #[error("{0}")]
    Write(WriterError),
}

/// The type of settings: a title, a width and whether the window is shown.
pub fn settings_type(alloc: Global) -> Result<Type, AllocError>
    ensures { IfOk result (λ ty. ty ≡ settings) }
{
    let mut fields = Vec::new(alloc);
    fields.push(("title", Type::STRING))?;
    fields.push(("width", Type::U32))?;
    fields.push(("shown", Type::BOOL))?;
    match Type::record(alloc, fields)? {
        Some(ty) => Ok(ty),
        None => unreachable!(),
    }
}

/// The settings that the text means. Where the names of their type are distinct, they are of the type, and
/// but for lack of memory only a text is refused that means none: the refusal is that of `from_str`.
pub fn read(alloc: Global, ty: &Type, source: &str) -> Result<Value, ParserError>
    ensures read { IfOk result (λ v. MeansSettings ty.now source.now v.tree) }
    ensures of_type { IfOk result (λ v. HasDistinctNames ty.now → IsAt ty.now v) }
    ensures refused { IfErr result (RefusesSettings ty.now source.now) }
{
    from_str::<Value>(alloc, ty, source)
}

/// The width that the settings have, where they have one.
pub fn width(alloc: Global, settings: &Value) -> Result<Option<u32>, AllocError>
    requires { kind_of settings.now.tree ≡ WasmTypeKind.Record }
    ensures { IfOk result (λ found. MatchOption found
        ((n : ℕ) → HasWidth settings.now.tree n → ⊥)
        (HasWidth settings.now.tree)) }
{
    for (name, val) in settings.unwrap_record(alloc)? {
        if name == "width" && val.kind() == WasmTypeKind::U32 {
            return Ok(Some(val.unwrap_u32()));
        }
    }
    Ok(None)
}

/// The settings with this width, of the type that they had; refused where that has no width. A record has
/// the last value that is handed in under each name.
pub fn with_width(alloc: Global, settings: &Value, width: u32) -> Result<Value, WasmValueError>
    requires { kind_of settings.now.tree ≡ WasmTypeKind.Record }
    ensures changed { IfOk result (λ v. v.tree ≡ with_width width settings.now.tree) }
    ensures of_type { IfOk result (IsAt settings.now.own) }
    ensures taken { OnOk result (TakesWidth settings.now.own) }
    ensures refused { IfErr result (RefusesWidth settings.now.own) }
{
    let ty = settings.ty()?;
    let mut fields = Vec::new(alloc);
    for (name, val) in settings.unwrap_record(alloc)? {
        fields.push((name, val.clone(alloc)?))?;
    }
    fields.push(("width", Value::from(width)))?;
    Value::make_record(alloc, &ty, fields)
}

/// The text of the settings. Where the names of their type are distinct labels, the text reads back
/// as the settings.
pub fn written(alloc: Global, settings: &Value) -> Result<String, WriterError>
    ensures text { IfOk result (λ s. string_bytes s ≡ text settings.now.tree) }
    ensures refused { IfErr result (RefusesWriting settings.now.tree) }
    ensures back { let T = settings.now.own in
        HasDistinctLabels T → IsRepresentable T → HasType T settings.now.tree → ReadBack T settings.now.tree }
{
    to_string(alloc, settings)
}

/// Settings that were changed, and their text.
#[derive(Drop)]
pub struct Rewritten {
    pub settings: Value,
    pub text: String,
}

/// The settings of the text with another width, beside the text that is written of them.
pub fn resized(alloc: Global, ty: &Type, source: &str, width: u32) -> Result<Rewritten, Refusal>
    ensures changed { IfOk result (λ r. AreResized ty.now source.now width r.settings.tree) }
    ensures text { IfOk result (λ r. string_bytes r.text ≡ text r.settings.tree) }
    ensures refused { IfErr result (RefusesResizing ty.now source.now) }
{
    let found = read(alloc, ty, source).map_err(Refusal::Text)?;
    if found.kind() != WasmTypeKind::Record {
        return Err(Refusal::NoRecord);
    }
    let settings = with_width(alloc, &found, width).map_err(Refusal::Value)?;
    let text = written(alloc, &settings).map_err(Refusal::Write)?;
    Ok(Rewritten { settings, text })
}
