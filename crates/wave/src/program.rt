// The program between a reader and a writer.
ghost use Rattle.std.specs.Prelude.{ℕ, List, ◌≡◌, ◌≢◌, ◌≤◌, ◌⊎◌, true, false, map, IfOk, IfErr, OnOk, IfSome, IsUtf8, string_bytes};
ghost use Rattle.std.specs.Str.{IsValidUpTo};
ghost use Rattle.wave_lex.specs.Errors.{error_text};
ghost use Rattle.wave_lex.specs.declared.error.ParserErrorKind.TheVariants as kind;
ghost use Rattle.wave.specs.ReadFaults.{IsReadToEnd};
ghost use Rattle.wave_files.specs.Written.{WritesWhole, WritesLess, Prints};
ghost use Rattle.wave.specs.Options.{is_quiet, plain, unless_quiet};
ghost use Rattle.wave.specs.Requests.{AreUnknown};
ghost use Rattle.wave.specs.Answers.{words_of_fault, usage};
ghost use Rattle.wave.specs.Lines.{line};
ghost use Rattle.wave.specs.ByLines.{RunsByLines};
ghost use Rattle.wave.specs.Explained.{IsShown, ShowsWhy, ShowsRefusal, IsFailure};
ghost use Rattle.wave.specs.Private.Answers.{IsReadFault, IsOutcome, IsNoOutcome, ReportsRefusal, ShowsText, ShowsFault};
ghost use Rattle.wave.specs.Misuse.{ShowsMisuse};
ghost use Rattle.wave.specs.Private.Requests.{IsFit, MakeNone};
ghost use Rattle.wave.specs.Statuses.{IsLineOfRun, IsLineOfRequest};

use crate::answer::{Unanswered, answer, explain_refusal};
use crate::by_lines::answer_lines;
use crate::help::notice_of;
use crate::input::{Input, RunError};
use crate::lines::CHUNK;
use crate::misuse::explain_misuse;
use crate::request::{Request, request_of};
use std::alloc::{AllocError, Global};
use std::io::{Read, Write};
use wasm_wave::parser::{ParserError, ParserErrorKind};
use wave_files::options::take_option;
use wave_files::output::{Output, print, write_whole};

pub const USAGE: &str = "usage: wave value [N] | wave call | wave read NAME [N]\n";

/// How a run ended.
#[derive(Clone, Copy, Debug)]
pub struct Ended {
    /// The status to end with.
    pub status: u8,
    /// Out of memory, where there was none to show a person a refusal, where an input is no text, or what
    /// is wrong with the arguments.
    pub shown: Result<(), AllocError>,
}

impl Ended {
    /// With the status, where nothing was to be shown that there was no memory for.
    pub fn at(status: u8) -> Ended
        ensures status { result.status ≡ status }
        ensures shown { result.shown ≡ Ok tt }
    {
        Ended {
            status,
            shown: Ok(()),
        }
    }
}

/// Answers the arguments on the input, and gives the status to end with: 0 where the request has an
/// answer, or the arguments ask for the help, a page of it, the version or a script, for which nothing is
/// read; 1 where it has none, 2 where the arguments make no request, and 3 where the input or the output failed, the
/// input is no text, or memory ran out, also for the type that the arguments name, before anything is
/// read. An input whose reader had reported its end before the call counts as one that failed. Where a
/// refusal was printed, it is shown to a person too: what explains it is written to `errors`, unless
/// there is no memory for that, which is answered; and so is what is wrong with the arguments where the
/// usage was printed. A request on each line of the input is answered by
/// a line for each: empty for one that is blank or refused, and a refused one is shown with its number;
/// the status is 1 where any was, and 3 where a fault or a failed write ended it. With `--quiet` the
/// lines of refusals, of faults and of the usage are left out, as if they were printed.
pub fn run<R: Read, W: Write, E: Write>(
    alloc: Global,
    words: Vec<String>,
    input: &mut Input<R>,
    output: &mut Output<W>,
    errors: &mut Output<E>,
) -> Ended
    // One line goes with the arguments, and a status with it; it was written, or a write failed. Or a request on each
    // line was answered.
    ensures printed { ((status : ℕ) × (said : List ℕ)
        × IsLineOfRun (map string_bytes words.items) (R.remaining input.old.reader)
        input.old input.new status said
        × Prints W.contents output.old output.new said status result.status)
        ⊎ RunsByLines W.contents E.contents (map string_bytes words.items)
        (R.remaining input.old.reader) (R.remaining input.new.reader) input.old input.new output.old output.new errors.old errors.new result }
    // A refusal is shown where it was printed, or there was no memory for it.
    ensures shown { result.status ≡ 1 → IsShown (map string_bytes words.items) (R.remaining input.old.reader)
        W.contents output.old output.new E.contents errors.old errors.new result.shown
        ⊎ RunsByLines W.contents E.contents (map string_bytes words.items)
        (R.remaining input.old.reader) (R.remaining input.new.reader) input.old input.new output.old output.new errors.old errors.new result }
    ensures quiet { result.status ≡ 0 → (errors.new ≡ errors.old) × (result.shown ≡ Ok tt)
        ⊎ RunsByLines W.contents E.contents (map string_bytes words.items)
        (R.remaining input.old.reader) (R.remaining input.new.reader) input.old input.new output.old output.new errors.old errors.new result }
    // At status 3 it is shown where an input is no text, where that was printed, or there was no memory for it.
    ensures failed { result.status ≡ 3 → IsFailure (is_quiet (map string_bytes words.items)) (R.remaining input.old.reader) input.old input.new
        W.contents output.old output.new E.contents errors.old errors.new result.shown
        ⊎ RunsByLines W.contents E.contents (map string_bytes words.items)
        (R.remaining input.old.reader) (R.remaining input.new.reader) input.old input.new output.old output.new errors.old errors.new result }
    // Where the usage was printed, what is wrong with the arguments is said, or there was no memory for it.
    ensures misused { result.status ≡ 2 →
        ShowsMisuse E.contents (plain (map string_bytes words.items)) errors.old errors.new result.shown }
    // The arguments are tested before anything is read.
    ensures tested_first { AreUnknown (map string_bytes words.items) → input.new ≡ input.old }
    ensures counted { input.new.reads_left ≤ input.old.reads_left }
{
    if let Some(notice) = notice_of(words.as_slice()) {
        return Ended::at(print(output, notice, 0));
    }
    let mut words = words;
    let by_lines = take_option(&mut words, "--lines");
    let is_quiet = take_option(&mut words, "--quiet");
    let request = match request_of(alloc, words.as_slice()) {
        Ok(Some(request)) => request,
        Ok(None) => return misused(alloc, words.as_slice(), is_quiet, output, errors),
        Err(_) => return fail(alloc, output, errors, RunError::OutOfMemory, is_quiet),
    };
    if by_lines {
        answer_lines(alloc, &request, is_quiet, input, output, errors)
    } else {
        answer_whole(alloc, &request, is_quiet, input, output, errors)
    }
}

/// Prints the usage, unless quiet, and says to a person what is wrong with the arguments where that was printed.
fn misused<W: Write, E: Write>(
    alloc: Global,
    words: &[String],
    is_quiet: bool,
    output: &mut Output<W>,
    errors: &mut Output<E>,
) -> Ended
    requires { MakeNone (map string_bytes words.now) }
    ensures reported { Prints W.contents output.old output.new (unless_quiet is_quiet usage) 2 result.status }
    ensures shown { result.status ≡ 2 →
        ShowsMisuse E.contents (map string_bytes words.now) errors.old errors.new result.shown }
    ensures quiet { result.status ≢ 2 → (errors.new ≡ errors.old) × (result.shown ≡ Ok tt) }
{
    let status = print(output, unless_quiet(is_quiet, USAGE), 2);
    if status != 2 {
        return Ended::at(status);
    }
    Ended {
        status,
        shown: show(errors, explain_misuse(alloc, words)),
    }
}

/// The text, or nothing where that is not to be printed.
pub fn unless_quiet(is_quiet: bool, text: &str) -> &str
    ensures { result.now ≡ unless_quiet is_quiet text.now }
{
    if is_quiet { "" } else { text }
}

/// Writes the text for a person, or a beginning of it where a write fails; nothing where there was no
/// memory for the text, which is answered.
fn show<E: Write>(
    errors: &mut Output<E>,
    text: Result<String, AllocError>,
) -> Result<(), AllocError>
    ensures { ShowsText E.contents errors.old errors.new text result }
{
    match text {
        Ok(text) => {
            write_whole(errors, text.as_bytes());
            Ok(())
        }
        Err(error) => Err(error),
    }
}

/// Answers the request on all of the input.
fn answer_whole<R: Read, W: Write, E: Write>(
    alloc: Global,
    request: &Request,
    is_quiet: bool,
    input: &mut Input<R>,
    output: &mut Output<W>,
    errors: &mut Output<E>,
) -> Ended
    requires { IsFit request.now }
    ensures printed { (status : ℕ) × (said : List ℕ)
        × IsLineOfRequest is_quiet request.now (R.remaining input.old.reader) input.old input.new status said
        × Prints W.contents output.old output.new said status result.status }
    ensures shown { result.status ≡ 1 → ShowsWhy is_quiet request.now (R.remaining input.old.reader)
        W.contents output.old output.new E.contents errors.old errors.new result.shown }
    ensures quiet { result.status ≡ 0 → (errors.new ≡ errors.old) × (result.shown ≡ Ok tt) }
    ensures failed { result.status ≡ 3 → IsFailure is_quiet (R.remaining input.old.reader) input.old input.new
        W.contents output.old output.new E.contents errors.old errors.new result.shown }
    ensures counted { input.new.reads_left ≤ input.old.reads_left }
{
    match respond(alloc, request, input) {
        Ok(Outcome::Answered(line)) => Ended::at(print(output, line.as_str(), 0)),
        Ok(Outcome::Refused(refusal, text)) => {
            refuse(
                alloc,
                output,
                errors,
                request,
                &refusal,
                text.as_str(),
                is_quiet,
            )
        }
        Err(fault) => fail(alloc, output, errors, fault, is_quiet),
    }
}

/// Says why there is no answer, unless quiet, and shows it to a person where that was printed at status 1.
fn refuse<W: Write, E: Write>(
    alloc: Global,
    output: &mut Output<W>,
    errors: &mut Output<E>,
    request: &Request,
    refusal: &ParserError,
    text: &str,
    is_quiet: bool,
) -> Ended
    ensures reported { ReportsRefusal W.contents is_quiet output.old output.new refusal.now result.status }
    ensures shown { result.status ≡ 1 →
        ShowsRefusal E.contents request.now errors.old errors.new text.now refusal.now result.shown }
    ensures quiet { result.status ≢ 1 → (errors.new ≡ errors.old) × (result.shown ≡ Ok tt) }
{
    let Ok(line) = refusal_line(alloc, refusal) else {
        let line = fault_line(RunError::OutOfMemory);
        return Ended::at(print(output, unless_quiet(is_quiet, line), 3));
    };
    let status = print(output, unless_quiet(is_quiet, line.as_str()), 1);
    if status != 1 {
        return Ended::at(status);
    }
    Ended {
        status,
        shown: show(errors, explain_refusal(alloc, request, refusal, text)),
    }
}

/// The text of the refusal and a line feed; else out of memory, for that text or as the refusal itself.
fn refusal_line(alloc: Global, refusal: &ParserError) -> Result<String, AllocError>
    ensures line { IfOk result (λ whole. string_bytes whole ≡ line (error_text refusal.now)) }
    ensures reported { OnOk result (refusal.now.kind ≢ kind.OutOfMemory) }
{
    if refusal.kind() == ParserErrorKind::OutOfMemory {
        return Err(AllocError);
    }
    line_of(refusal.to_string(alloc)?)
}

/// Says why there is no answer and no refusal, unless quiet, and shows a person where an input is no
/// text, where that was printed.
fn fail<W: Write, E: Write>(
    alloc: Global,
    output: &mut Output<W>,
    errors: &mut Output<E>,
    fault: RunError,
    is_quiet: bool,
) -> Ended
    ensures reported { Prints W.contents output.old output.new (unless_quiet is_quiet (line (words_of_fault fault))) 3 result.status }
    ensures shown { ShowsFault is_quiet W.contents output.old output.new E.contents errors.old errors.new fault result.shown }
{
    if !write_whole(output, unless_quiet(is_quiet, fault_line(fault)).as_bytes()) {
        return Ended::at(3);
    }
    match fault {
        RunError::NotUtf8(place) => Ended {
            status: 3,
            shown: show(
                errors,
                format!(in alloc; "input is not UTF-8\n --> byte {place}\n"),
            ),
        },
        RunError::InputFailed | RunError::OutOfMemory => Ended::at(3),
    }
}

/// The words of a fault, and a line feed.
pub fn fault_line(fault: RunError) -> &'static str
    ensures { result.now ≡ line (words_of_fault fault) }
{
    match fault {
        RunError::NotUtf8(_) => "input is not UTF-8\n",
        RunError::InputFailed => "input failed\n",
        RunError::OutOfMemory => "out of memory\n",
    }
}

/// What a request comes to on the whole input.
#[derive(Drop)]
enum Outcome {
    /// Its answer, with a line feed.
    Answered(String),
    /// A refusal of the text, or out of memory while it was read; and the text.
    Refused(ParserError, String),
}

/// The outcome of the request on all of the input.
fn respond<R: Read>(
    alloc: Global,
    request: &Request,
    input: &mut Input<R>,
) -> Result<Outcome, RunError>
    requires { IsFit request.now }
    ensures outcome { IfOk result (λ outcome.
        IsOutcome request.now (R.remaining input.old.reader) outcome × IsReadToEnd input.old input.new) }
    ensures fault { IfErr result (IsNoOutcome request.now (R.remaining input.old.reader) input.old input.new) }
    ensures counted { input.new.reads_left ≤ input.old.reads_left }
{
    let bytes = read_whole(alloc, input)?;
    let text = match String::from_utf8(bytes) {
        Ok(text) => text,
        Err(error) => return Err(RunError::NotUtf8(text_end(error.as_bytes()))),
    };
    match answer(alloc, request, text.as_str()) {
        Ok(answer) => Ok(Outcome::Answered(line_of(answer)?)),
        Err(Unanswered::Refused(refusal)) => Ok(Outcome::Refused(refusal, text)),
        Err(Unanswered::OutOfMemory) => Err(RunError::OutOfMemory),
    }
}

/// How many bytes the longest beginning has that is UTF-8, of bytes that are not.
fn text_end(bytes: &[u8]) -> usize
    requires { IsUtf8 bytes.now → ⊥ }
    ensures { IsValidUpTo bytes.now result }
{
    match str::from_utf8(bytes) {
        Ok(_) => unreachable!(),
        Err(error) => error.valid_up_to(),
    }
}

/// The bytes up to the end of the input, which is read once.
fn read_whole<R: Read>(alloc: Global, input: &mut Input<R>) -> Result<Vec<u8>, RunError>
    ensures whole { IfOk result (λ bytes.
        IfSome (R.remaining input.old.reader) (λ left. bytes.items ≡ left)) }
    ensures ended { IfOk result (λ bytes. IsReadToEnd input.old input.new) }
    ensures fault { IfErr result (IsReadFault input.old input.new) }
    ensures counted { input.new.reads_left ≤ input.old.reads_left }
{
    if input.has_ended() {
        return Err(RunError::InputFailed);
    }
    let mut bytes = Vec::new(alloc);
    let mut chunk = [0; CHUNK];
    while input.reads_left() > 0 {
        match input.read(&mut chunk) {
            Ok(0) => return Ok(bytes),
            Ok(count) => bytes.extend_from_slice(&chunk[..count])?,
            Err(fault) => return Err(fault),
        }
    }
    Err(RunError::InputFailed)
}

/// The text and a line feed.
pub fn line_of(text: String) -> Result<String, AllocError>
    ensures { IfOk result (λ whole. string_bytes whole ≡ line (string_bytes text)) }
{
    let mut whole = text;
    whole.push('\n')?;
    Ok(whole)
}
