//! Calls that write, also to writers that fail.
use crate::answer::{Stopped, refused, shown, word};
use std::alloc::Global;
use std::fmt;
use wave_convert::convert::IntoValue;
use wave_value::value::Value;
use wave_writer::writer::{TextWrite, Writer, WriterError, merge_map_entries, to_string};

/// A call that writes the value.
pub fn on_value(rt: HostRuntime, name: &str, val: &Value) -> Result<(), Stopped> {
    match name {
        "to_string" => shown(rt, to_string(rt.alloc(), val)),
        "write_value" => behind(rt, val),
        _ => {
            let text = match to_string(rt.alloc(), val) {
                Ok(text) => text,
                Err(error) => return refused(rt, &error),
            };
            let alloc = rt.alloc();
            let is_right = is_reported(alloc, val, text.as_str(), false)
                && is_reported(alloc, val, text.as_str(), true);
            print!(rt; "{text} {is_right}")?;
            Ok(())
        }
    }
}

/// Prints what a writer holds that held an earlier text and wrote the value, whether it wrote all or a beginning.
fn behind(rt: HostRuntime, val: &Value) -> Result<(), Stopped> {
    let Ok(earlier) = String::from_str(rt.alloc(), "earlier ") else {
        return Err(Stopped::NotCalled);
    };
    let mut writer = Writer::new(earlier);
    let answer = writer.write_value(rt.alloc(), val);
    print!(rt; "{}", writer.into_inner())?;
    match answer {
        Ok(()) => Ok(()),
        Err(error) => refused(rt, &error),
    }
}

/// A writer that passes a number of texts and then fails, once or for good.
#[derive(Drop)]
struct ShortWriter {
    taken: String,
    left: usize,
    once: bool,
    failures: u64,
}

impl TextWrite for ShortWriter {
    ghost use Rattle.std.specs.String.{string_bytes};

    ghost output = { λ s. record { written = string_bytes s.taken; failures = s.failures } };

    fn write_str(&mut self, s: &str) -> Result<(), WriterError> {
        if self.left == 0 && !(self.once && self.failures > 0) {
            self.failures = self.failures.saturating_add(1);
            return Err(WriterError::Io(fmt::Error));
        }
        self.left = self.left.saturating_sub(1);
        self.taken.push_str(s)?;
        Ok(())
    }
}

/// A writer to a writer that passes this number of texts.
fn short(alloc: Global, left: usize, once: bool) -> Writer<ShortWriter> {
    Writer::new(ShortWriter {
        taken: String::new(alloc),
        left,
        once,
        failures: 0,
    })
}

/// Whether the value was written to a writer that passes this number of texts: all of it and no failure, or a
/// beginning of it and one failure. None where it was neither.
fn passes(alloc: Global, val: &Value, text: &str, left: usize, once: bool) -> Option<bool> {
    let mut writer = short(alloc, left, once);
    let answer = writer.write_value(alloc, val);
    let out = writer.into_inner();
    let taken = out.taken.as_str();
    match answer {
        Ok(_) if taken == text && out.failures == 0 => Some(true),
        Err(WriterError::Io(_))
            if text.starts_with(taken) && taken.len() < text.len() && out.failures == 1 => Some(
            false,
        ),
        _ => None,
    }
}

/// Whether the value is written right to writers of each number of texts, and written from one number
/// on.
fn is_reported(alloc: Global, val: &Value, text: &str, once: bool) -> bool {
    let mut was_passed = false;
    for left in 0..text.len().saturating_add(2) {
        match passes(alloc, val, text, left, once) {
            Some(false) if !was_passed => {}
            Some(true) if left > 0 => was_passed = true,
            _ => return false,
        }
    }
    was_passed
}

/// Writes a char, and a tuple behind it, to a writer that passes three texts. Prints the refusal, how often the
/// writer failed, and what it took.
pub fn failed(rt: HostRuntime) -> Result<(), Stopped> {
    let val = (1u8, "a").into_value(rt.alloc())?;
    let mut writer = short(rt.alloc(), 3, false);
    if let Err(error) = writer.write_value(rt.alloc(), &Value::from('x')) {
        return refused(rt, &error);
    }
    if let Err(error) = writer.write_value(rt.alloc(), &val) {
        refused(rt, &error)?;
    }
    let failures = writer.as_mut().failures;
    print!(rt; ", {failures}, {}", writer.into_inner().taken)?;
    Ok(())
}

/// Prints the keys and values that `merge_map_entries` leaves of the words: each is its text, and has its place from
/// 1 on and how many are left from it on.
pub fn merged(rt: HostRuntime, words: &[String]) -> Result<(), Stopped> {
    let mut entries = Vec::new(rt.alloc());
    for at in 0..words.len() {
        let text = match String::from_str(rt.alloc(), word(words, at)) {
            Ok(text) => text,
            Err(_) => return Err(Stopped::NotCalled),
        };
        if entries.push((text, at + 1, words.len() - at)).is_err() {
            return Err(Stopped::NotCalled);
        }
    }
    for (key, value) in merge_map_entries(rt.alloc(), entries)?.iter() {
        print!(rt; "{key} {value};")?;
    }
    Ok(())
}
