// What a request answers on each line of an input.
ghost use Rattle.std.specs.Prelude.{ℕ, List, [], ◌≡◌, ◌≢◌, ◌++◌, ◌+◌, ◌≤◌, ◌<◌, ◌^◌, ◌⊎◌, true, false, IfOk, IfErr, OnOk, MatchOption, MatchBool, string_bytes};
ghost use Rattle.std.specs.Io.KnownBytes.{IsAtEnd};
ghost use Rattle.wave_lex.specs.declared.error.ParserErrorKind.TheVariants as kind;
ghost use Rattle.wave.specs.declared.input.RunError.TheVariants.{InputFailed};
ghost use Rattle.wave.specs.ByLines.{IsBlank, HasItem, IsLineExplained, IsLineAnswer, EndsAtFault, AnswersLines};
ghost use Rattle.wave.specs.Lines.{line};
ghost use Rattle.wave.specs.Private.ByLines.{IsUnansweredLine, IsNoNextAnswer, ShowsLast, Releases};
ghost use Rattle.wave.specs.Private.InputLines.{left, IsEndKnown, LosesPart, TakesLine, most_lines};
ghost use Rattle.wave.specs.Private.Requests.{IsFit};
ghost use Rattle.wave_files.specs.Written.{WritesWhole, WritesLess};

use crate::answer::{Unanswered, answer, explain_refusal};
use crate::input::{Input, RunError};
use crate::lines::Unread;
use crate::program::{Ended, fault_line, line_of, unless_quiet};
use crate::request::Request;
use std::alloc::{AllocError, Global};
use std::io::{Read, Write};
use wasm_wave::parser::{Parser, ParserError, ParserErrorKind};
use wave_files::output::{Output, print, write_whole};

/// So many bytes of answers are written at the latest.
const MOST_HELD: usize = 65_536;

/// What is written of a line.
#[derive(Drop)]
struct LineAnswer {
    /// Its answer, or nothing, and a line feed.
    printed: String,
    /// What explains its refusal, or nothing.
    shown: String,
}

/// Answers the request on each line of the input: prints the answer and a line feed, or a line feed
/// for a line that is blank or refused, and shows a refusal. Gives the status to end with: 1 where a
/// line was refused, else 0; 3 behind a fault, which, unless quiet, is said in place of the lines that
/// are left, and where a write failed. Of a line that is no text it is shown where what is none begins,
/// unless there is no memory for that. After a failed write to `errors` no more is written there. Answers
/// are written before more of the input is read, and before a refusal of a line behind theirs is shown.
pub fn answer_lines<R: Read, W: Write, E: Write>(
    alloc: Global,
    request: &Request,
    is_quiet: bool,
    input: &mut Input<R>,
    output: &mut Output<W>,
    errors: &mut Output<E>,
) -> Ended
    requires { IsFit request.now }
    ensures answered { AnswersLines W.contents E.contents is_quiet request.now
        (R.remaining input.old.reader) (R.remaining input.new.reader) input.old input.new output.old output.new errors.old errors.new result }
    ensures counted { input.new.reads_left ≤ input.old.reads_left }
{
    if input.has_ended() {
        return fail_at(
            alloc,
            output,
            "",
            errors,
            RunError::InputFailed,
            1,
            true,
            is_quiet,
        );
    }
    let mut unread = Unread::new();
    let mut held = String::new(alloc);
    let mut number = 1;
    let mut is_refused = false;
    let mut is_shown = true;
    'lines: loop {
        if !write_if_needed(output, &mut held, unread.line_end().is_none()) {
            return Ended::at(3);
        }
        let answer = match next_answer(alloc, request, number, input, &mut unread) {
            Ok(Some(answer)) => answer,
            Ok(None) => return Ended::at(print(output, &held, u8::from(is_refused))),
            Err(fault) => {
                return fail_at(
                    alloc, output, &held, errors, fault, number, is_shown, is_quiet,
                );
            }
        };
        number += 1;
        let shown = answer.shown.as_str();
        if !write_if_needed(output, &mut held, !shown.is_empty()) {
            return Ended::at(3);
        }
        is_refused |= !shown.is_empty();
        is_shown = show(errors, shown, is_shown);
        if !hold(output, &mut held, answer.printed.as_str()) {
            return Ended::at(3);
        }
    }
}

/// Writes the answers that are held, where that is needed; false where a write failed.
fn write_if_needed<W: Write>(output: &mut Output<W>, held: &mut String, is_needed: bool) -> bool
    ensures whole { result ≡ true → Releases W.contents output.old output.new (string_bytes held.old) (string_bytes held.new) }
    ensures cut { result ≡ false → WritesLess W.contents output.old output.new (string_bytes held.old) }
    ensures emptied { result ≡ true → is_needed ≡ true → string_bytes held.new ≡ [] }
{
    if !is_needed {
        return true;
    }
    if !write_whole(output, held.as_bytes()) {
        return false;
    }
    held.clear();
    true
}

/// Holds one answer more, or writes it and those held before, where they are many or there is no memory to
/// hold it. Whether no write failed.
fn hold<W: Write>(output: &mut Output<W>, held: &mut String, printed: &str) -> bool
    ensures whole { result ≡ true → Releases W.contents output.old output.new (string_bytes held.old ++ printed.now) (string_bytes held.new) }
    ensures cut { result ≡ false → WritesLess W.contents output.old output.new (string_bytes held.old ++ printed.now) }
{
    if held.push_str(printed).is_ok() {
        let is_needed = held.len() >= MOST_HELD;
        return write_if_needed(output, held, is_needed);
    }
    write_if_needed(output, held, true) && write_whole(output, printed.as_bytes())
}

/// Writes what explains a refusal, unless a write there failed before. Whether none failed.
fn show<E: Write>(errors: &mut Output<E>, shown: &str, is_shown: bool) -> bool
    ensures whole { is_shown ≡ true → result ≡ true → WritesWhole E.contents errors.old errors.new shown.now }
    ensures cut { is_shown ≡ true → result ≡ false → WritesLess E.contents errors.old errors.new shown.now }
    ensures none { is_shown ≡ false → (errors.new ≡ errors.old) × (result ≡ false) }
{
    is_shown && write_whole(errors, shown.as_bytes())
}

/// Writes the answers that are held, says the fault, unless quiet, in place of the line of this number and those after it,
/// and shows where the line is no text, where that was printed.
fn fail_at<W: Write, E: Write>(
    alloc: Global,
    output: &mut Output<W>,
    held: &str,
    errors: &mut Output<E>,
    fault: RunError,
    number: u64,
    is_shown: bool,
    is_quiet: bool,
) -> Ended
    ensures { (last : List ℕ) × EndsAtFault W.contents is_quiet output.old output.new fault number held.now last result
        × ShowsLast E.contents errors.old errors.new is_shown last }
{
    if !write_whole(output, held.as_bytes()) {
        return Ended::at(3);
    }
    if !write_whole(output, unless_quiet(is_quiet, fault_line(fault)).as_bytes()) {
        return Ended::at(3);
    }
    let place = match fault {
        RunError::NotUtf8(place) => place,
        RunError::InputFailed => return Ended::at(3),
        RunError::OutOfMemory => return Ended::at(3),
    };
    match format!(in alloc; "input line {number}:\ninput is not UTF-8\n --> byte {place}\n") {
        Ok(shown) => {
            show(errors, shown.as_str(), is_shown);
            Ended::at(3)
        }
        Err(error) => Ended {
            status: 3,
            shown: Err(error),
        },
    }
}

/// What is written of the next line, which has this number; nothing where the input has no more.
fn next_answer<R: Read>(
    alloc: Global,
    request: &Request,
    number: u64,
    input: &mut Input<R>,
    unread: &mut Unread,
) -> Result<Option<LineAnswer>, RunError>
    requires fit { IsFit request.now }
    requires known { IsEndKnown R.remaining input.old }
    ensures answer { IfOk result (λ found. MatchOption found
        (IsAtEnd (left R.remaining input.old unread.old) × (input.new.has_ended ≡ true))
        (λ answer. (text : List ℕ) × (said : List ℕ)
        × TakesLine (left R.remaining input.old unread.old) (left R.remaining input.new unread.new) text
        × IsLineAnswer request.now number text said (string_bytes answer.shown)
        × (string_bytes answer.printed ≡ line said)
        × (most_lines input.new unread.new + 1 ≤ most_lines input.old unread.old))) }
    ensures known { IsEndKnown R.remaining input.new }
    ensures went_well { OnOk result (input.new.failures ≡ input.old.failures) }
    ensures fault { IfErr result (IsNoNextAnswer
        (left R.remaining input.old unread.old) (left R.remaining input.new unread.new) input.old input.new) }
    ensures read { LosesPart (left R.remaining input.old unread.old) (R.remaining input.new.reader) 65536 }
    ensures cut { IfErr result (λ fault. fault ≡ InputFailed →
        LosesPart (left R.remaining input.old unread.old) (R.remaining input.new.reader) 0) }
    ensures counted { input.new.reads_left ≤ input.old.reads_left }
{
    if let Some(end) = unread.line_end() {
        let answer = line_answer(alloc, request, number, unread.line_before(end));
        unread.skip(end + 1);
        return Ok(Some(answer?));
    }
    match unread.next_line(alloc, input)? {
        Some(line) => Ok(Some(line_answer(alloc, request, number, line.as_slice())?)),
        None => Ok(None),
    }
}

/// What is written of the line of this number.
fn line_answer(
    alloc: Global,
    request: &Request,
    number: u64,
    bytes: &[u8],
) -> Result<LineAnswer, RunError>
    requires { IsFit request.now }
    ensures answer { IfOk result (λ answer. (said : List ℕ)
        × IsLineAnswer request.now number bytes.now said (string_bytes answer.shown)
        × (string_bytes answer.printed ≡ line said)) }
    ensures fault { IfErr result (IsUnansweredLine bytes.now) }
{
    let text = match str::from_utf8(bytes) {
        Ok(text) => text,
        Err(error) => return Err(RunError::NotUtf8(error.valid_up_to())),
    };
    match answer(alloc, request, text) {
        Ok(answer) => Ok(LineAnswer {
            printed: line_of(answer)?,
            shown: String::new(alloc),
        }),
        Err(Unanswered::Refused(refusal)) => {
            if is_blank(text) {
                return Ok(LineAnswer {
                    printed: line_of(String::new(alloc))?,
                    shown: String::new(alloc),
                });
            }
            Ok(refused_line(alloc, request, number, &refusal, text)?)
        }
        Err(Unanswered::OutOfMemory) => Err(RunError::OutOfMemory),
    }
}

/// What is written of the line of this number, which was refused; else out of memory, for that or as
/// the refusal itself.
fn refused_line(
    alloc: Global,
    request: &Request,
    number: u64,
    refusal: &ParserError,
    text: &str,
) -> Result<LineAnswer, AllocError>
    ensures shown { IfOk result (λ answer. IsLineExplained request.now number text.now refusal.now (string_bytes answer.shown)) }
    ensures printed { IfOk result (λ answer. string_bytes answer.printed ≡ line []) }
    ensures reported { OnOk result (refusal.now.kind ≢ kind.OutOfMemory) }
{
    if refusal.kind() == ParserErrorKind::OutOfMemory {
        return Err(AllocError);
    }
    let explained = explain_refusal(alloc, request, refusal, text)?;
    Ok(LineAnswer {
        printed: line_of(String::new(alloc))?,
        shown: format!(in alloc; "input line {number}:\n{explained}")?,
    })
}

/// Whether nothing stands in the text but whitespace and comments.
fn is_blank(text: &str) -> bool
    ensures { MatchBool result (IsBlank text.now) (HasItem text.now) }
{
    let mut parser = Parser::new(text);
    parser.finish().is_ok()
}
