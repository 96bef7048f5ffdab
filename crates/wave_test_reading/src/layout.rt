//! Texts, calls and values, laid out over lines: the words are the width, the indentation, and what is laid out.
use crate::reading::value_at;
use wasm_wave::format::{FormatOptions, format_call, format_text, to_string_pretty};
use wave_test_values::answer::{Stopped, shown, word};

/// What the first two words say.
fn options(words: &[String]) -> Result<FormatOptions, Stopped> {
    match (word(words, 0).parse::<u32>(), word(words, 1).parse::<u32>()) {
        (Ok(width), Ok(indent)) => Ok(FormatOptions { width, indent }),
        _ => Err(Stopped::NoCall),
    }
}

/// Prints the texts, laid out, with U+0001 between them.
fn each(rt: HostRuntime, texts: &[String], options: &FormatOptions) -> Result<(), Stopped> {
    let mut separator = "";
    for text in texts {
        print!(rt; "{separator}")?;
        shown(rt, format_text(rt.alloc(), text.as_str(), options))?;
        separator = "\u{1}";
    }
    Ok(())
}

/// Prints each text of a value, a call, or the value of a text at a type, laid out.
pub fn laid_out(rt: HostRuntime, name: &str, words: &[String]) -> Result<(), Stopped> {
    let options = options(words)?;
    match name {
        "format_call" => shown(rt, format_call(rt.alloc(), word(words, 2), &options)),
        "to_string_pretty" => {
            let value = value_at(rt, words, 2)?;
            shown(rt, to_string_pretty(rt.alloc(), &value, &options))
        }
        _ => match words.get(2..) {
            Some(texts) => each(rt, texts, &options),
            None => Err(Stopped::NoCall),
        },
    }
}
