//! Files' texts, laid out.
ghost use Rattle.std.specs.Prelude.{[], ◌∷◌, ◌++◌, ◌≡◌, ◌≢◌, None, IfOk, OnOk, string_bytes};
ghost use Rattle.wave_lex.specs.declared.error.ParserErrorKind.TheVariants.{OutOfMemory};
ghost use Rattle.wave_commands.specs.Formatted.{IsUsed, TellsRefusal, Answers};

use crate::report::{Style, report};
use std::alloc::{AllocError, Global};
use wave_explain::value::untyped_explanation;
use wave_files::answers::{Answer, FileName, Job};
use wave_format::{FormatOptions, format_text};
use wave_lex::error::{ParserError, ParserErrorKind};

/// What is done with a text that is laid out.
#[derive(Clone, Copy, Debug, PartialEq, Eq)]
pub enum Purpose {
    /// It is printed.
    Print,
    /// The file is named where its text would change.
    Compare,
    /// It is put in place of the file's text.
    Write,
}

/// Each file's text is laid out, for this purpose.
#[derive(Clone, Copy, Debug)]
pub struct Format {
    /// What is done with the text.
    pub purpose: Purpose,
    /// How it is laid out.
    pub options: FormatOptions,
}

impl Job for Format {
    ghost use Rattle.wave_commands.specs.Formatted.{IsFormatted};

    ghost is_ready = { λ _. Unit {0} };

    ghost answers = { λ job name text answer. IsFormatted job.purpose name text answer };

    fn answer(&self, alloc: Global, name: &FileName, text: &str) -> Result<Answer, AllocError> {
        match format_text(alloc, text, &self.options) {
            Ok(laid) => used(alloc, self.purpose, name, text, with_end(laid)?),
            Err(error) => refused(alloc, name, text, &error),
        }
    }
}

/// The text and a line feed.
fn with_end(text: String) -> Result<String, AllocError>
    ensures { IfOk result (λ whole. string_bytes whole ≡ string_bytes text ++ 10 ∷ []) }
{
    let mut whole = text;
    whole.push('\n')?;
    Ok(whole)
}

/// What is done with the text that is laid out.
fn used(
    alloc: Global,
    purpose: Purpose,
    name: &FileName,
    text: &str,
    laid: String,
) -> Result<Answer, AllocError>
    ensures used { IfOk result (IsUsed purpose name.now text.now (string_bytes laid)) }
    ensures quiet { IfOk result (λ answer. string_bytes answer.shown ≡ []) }
{
    match purpose {
        Purpose::Print => Ok(silent(alloc, laid, None, 0)),
        Purpose::Compare if laid.as_str() == text => Ok(silent(alloc, String::new(alloc), None, 0)),
        Purpose::Compare => {
            let path = String::from_str(alloc, name.path.as_str())?;
            Ok(silent(alloc, with_end(path)?, None, 1))
        }
        Purpose::Write if laid.as_str() == text => Ok(silent(alloc, String::new(alloc), None, 0)),
        Purpose::Write => Ok(silent(alloc, String::new(alloc), Some(laid), 0)),
    }
}

/// An answer of which nothing is shown.
fn silent(alloc: Global, printed: String, replacement: Option<String>, faults: u64) -> Answer
    ensures printed { result.printed ≡ printed }
    ensures replacement { result.replacement ≡ replacement }
    ensures faults { result.faults ≡ faults }
    ensures shown { string_bytes result.shown ≡ [] }
{
    Answer {
        printed,
        shown: String::new(alloc),
        replacement,
        faults,
    }
}

/// What is answered on a text that has no layout; out of memory, for that or as the error itself.
fn refused(
    alloc: Global,
    name: &FileName,
    text: &str,
    error: &ParserError,
) -> Result<Answer, AllocError>
    ensures told { IfOk result (λ answer. TellsRefusal name.now text.now error.now (string_bytes answer.shown)) }
    ensures left { IfOk result (λ answer. Answers answer [] None 1) }
    ensures reported { OnOk result (error.now.kind ≢ OutOfMemory) }
{
    if error.kind() == ParserErrorKind::OutOfMemory {
        return Err(AllocError);
    }
    let parts = untyped_explanation(alloc, error, text)?;
    Ok(Answer {
        printed: String::new(alloc),
        shown: report(alloc, Style::Blocks, name, text, error, &parts)?,
        replacement: None,
        faults: 1,
    })
}
