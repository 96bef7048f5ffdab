// A request on the text of each of some files.
ghost use Rattle.std.specs.Prelude.{ℕ, List, [], ◌≡◌, ◌≢◌, None, IfOk, OnOk, string_bytes};
ghost use Rattle.wave_lex.specs.declared.error.ParserErrorKind.TheVariants.{OutOfMemory};
ghost use Rattle.wave_commands.specs.Formatted.{Answers};
ghost use Rattle.wave.specs.Lines.{line};
ghost use Rattle.wave.specs.Readings.{IsShownAs, IsLaidOutAs, IsValueLaidOut, IsCallLaidOut, TellsRefusal, ExplainsIn};

use crate::answer::{Unanswered, answer};
use crate::program::line_of;
use crate::request::Request;
use std::alloc::{AllocError, Global};
use wasm_wave::parser::{ParserError, ParserErrorKind};
use wave_commands::report::{Style, report};
use wave_explain::call::{call_explanation, untyped_call_explanation};
use wave_explain::value::{Explanation, untyped_explanation, value_explanation};
use wave_files::answers::{Answer, FileName, Job};
use wave_format::{FormatOptions, format_call, format_text};

/// A request on the text of each file.
#[derive(Drop)]
pub struct Reading {
    /// The request.
    pub request: Request,
    /// Whether its answer is laid out over lines.
    pub is_pretty: bool,
}

impl Job for Reading {
    ghost use Rattle.wave.specs.Private.Requests.{IsFit};
    ghost use Rattle.wave.specs.Readings.{IsReadFile};

    ghost is_ready = { λ job. IsFit job.request };

    ghost answers = { λ job name text answer. IsReadFile job.request job.is_pretty name text answer };

    fn answer(&self, alloc: Global, name: &FileName, text: &str) -> Result<Answer, AllocError> {
        match answer(alloc, &self.request, text) {
            Ok(answer) => printed(alloc, &self.request, self.is_pretty, answer),
            Err(Unanswered::Refused(error)) => refused(alloc, &self.request, name, text, &error),
            Err(Unanswered::OutOfMemory) => Err(AllocError),
        }
    }
}

/// What is answered on a file whose text the request has this answer on.
fn printed(
    alloc: Global,
    request: &Request,
    is_pretty: bool,
    answer: String,
) -> Result<Answer, AllocError>
    ensures printed { IfOk result (λ a. (text : List ℕ) × IsShownAs request.now is_pretty (string_bytes answer) text × Answers a (line text) None 0) }
    ensures quiet { IfOk result (λ a. string_bytes a.shown ≡ []) }
{
    let text = if is_pretty {
        laid_out(alloc, request, answer)?
    } else {
        answer
    };
    Ok(Answer {
        printed: line_of(text)?,
        shown: String::new(alloc),
        replacement: None,
        faults: 0,
    })
}

/// The answer of the request, laid out over lines; as it is where it has more than 100 levels.
fn laid_out(alloc: Global, request: &Request, answer: String) -> Result<String, AllocError>
    ensures { IfOk result (λ text. IsLaidOutAs request.now (string_bytes answer) (string_bytes text)) }
{
    match request {
        Request::Value(_) => value_laid_out(alloc, answer),
        Request::Call => call_laid_out(alloc, answer),
        Request::CallAt(_) => call_laid_out(alloc, answer),
        Request::Read(_, _) => value_laid_out(alloc, answer),
    }
}

/// The text of a value, laid out over lines; as it is where it has more than 100 levels.
fn value_laid_out(alloc: Global, answer: String) -> Result<String, AllocError>
    ensures { IfOk result (λ text. IsValueLaidOut (string_bytes answer) (string_bytes text)) }
{
    match format_text(alloc, answer.as_str(), &FormatOptions::new()) {
        Ok(text) => Ok(text),
        Err(error) => unless_memory(&error, answer),
    }
}

/// The text of a call, so.
fn call_laid_out(alloc: Global, answer: String) -> Result<String, AllocError>
    ensures { IfOk result (λ text. IsCallLaidOut (string_bytes answer) (string_bytes text)) }
{
    match format_call(alloc, answer.as_str(), &FormatOptions::new()) {
        Ok(text) => Ok(text),
        Err(error) => unless_memory(&error, answer),
    }
}

/// The answer as it is, where it has too many levels to be laid out; out of memory, where that is the error.
fn unless_memory(error: &ParserError, answer: String) -> Result<String, AllocError>
    ensures kept { IfOk result (λ text. text ≡ answer) }
    ensures reported { OnOk result (error.now.kind ≢ OutOfMemory) }
{
    if error.kind() == ParserErrorKind::OutOfMemory {
        return Err(AllocError);
    }
    Ok(answer)
}

/// What is answered on a file whose text is refused; out of memory, for that or as the refusal itself.
fn refused(
    alloc: Global,
    request: &Request,
    name: &FileName,
    text: &str,
    error: &ParserError,
) -> Result<Answer, AllocError>
    ensures told { IfOk result (λ a. TellsRefusal request.now name.now text.now error.now (string_bytes a.shown)) }
    ensures left { IfOk result (λ a. Answers a [] None 1) }
    ensures reported { OnOk result (error.now.kind ≢ OutOfMemory) }
{
    if error.kind() == ParserErrorKind::OutOfMemory {
        return Err(AllocError);
    }
    let parts = explanation(alloc, request, error, text)?;
    Ok(Answer {
        printed: String::new(alloc),
        shown: report(alloc, Style::Blocks, name, text, error, &parts)?,
        replacement: None,
        faults: 1,
    })
}

/// What explains the refusal of the text that the request was made on.
fn explanation(
    alloc: Global,
    request: &Request,
    error: &ParserError,
    text: &str,
) -> Result<Explanation, AllocError>
    ensures { IfOk result (λ x. ExplainsIn request.now text.now error.now x.mark (string_bytes x.path) (string_bytes x.lines)) }
{
    match request {
        Request::Value(_) => untyped_explanation(alloc, error, text),
        Request::Call => untyped_call_explanation(alloc, error, text),
        Request::CallAt(function) => call_explanation(alloc, error, text, function),
        Request::Read(ty, _) => value_explanation(alloc, error, text, ty),
    }
}
