//! What is answered on each of some files.
ghost use Rattle.std.specs.Prelude.{ℕ, List, [], ◌≡◌, IfOk, OnErr, string_bytes};
ghost use Rattle.wave_files.specs.Folders.{Keeps};
ghost use Rattle.wave_files.specs.Answers.{entry_of, add, IsEntry, IsNoEntry, AnswersFiles, failed_entry, utf8_reason};

use crate::folder::{FileError, Folder};
use crate::output::{Output, write_unless_failed, write_whole};
use std::alloc::{AllocError, Global};
use std::io::Write;

/// A file by the name that it is opened by, and its name as it is shown.
#[derive(Debug, Drop)]
pub struct FileName {
    /// The name that it is opened by.
    pub path: String,
    /// The name as it is shown.
    pub shown: String,
}

/// What is answered on the text of a file.
#[derive(Debug, Drop)]
pub struct Answer {
    /// What is printed.
    pub printed: String,
    /// What is shown of its faults.
    pub shown: String,
    /// The text that is put in place of the file's own, where there is one.
    pub replacement: Option<String>,
    /// How many faults it has.
    pub faults: u64,
}

/// What is done with the text of each file.
pub trait Job {
    ghost use Rattle.wave_files.specs.declared.answers.FileName.{FileName};
    ghost use Rattle.wave_files.specs.declared.answers.Answer.{Answer};

    // what the job has to be
    ghost is_ready: { Self → Type 0 };
    // what is answered on this text of the file
    ghost answers: { Self → FileName → List ℕ → Answer → Type 0 };

    /// What is answered on this text of the file. The only error is out of memory.
    fn answer(&self, alloc: Global, name: &FileName, text: &str) -> Result<Answer, AllocError>
        requires { is_ready self.now }
        ensures { IfOk result (answers self.now name.now text.now) };
}

/// How many faults were found in how many files, up to the greatest `u64` of each, and the status that they
/// make.
#[derive(Clone, Copy, Debug, PartialEq, Eq)]
pub struct Tally {
    /// How many faults there are.
    pub faults: u64,
    /// How many files have any.
    pub faulty: u64,
    /// 3 where a file has no answer, 1 where one has a fault, else 0.
    pub status: u8,
}

impl Tally {
    ghost use Rattle.wave_files.specs.Answers.{none_counted};

    /// Of no file.
    pub fn new() -> Tally
        ensures { result ≡ none_counted }
    {
        Tally {
            faults: 0,
            faulty: 0,
            status: 0,
        }
    }

    /// Of one file more, which has so many faults and this status.
    fn with(self, faults: u64, status: u8) -> Tally
        ensures { result ≡ add self faults status }
    {
        Tally {
            faults: self.faults.saturating_add(faults),
            faulty: self.faulty.saturating_add(u64::from(faults > 0)),
            status: self.status.max(status),
        }
    }
}

/// What is written of a file.
#[derive(Drop)]
struct FileAnswer {
    /// What is printed.
    printed: String,
    /// What is shown.
    shown: String,
    /// How many faults it has.
    faults: u64,
    /// The status that it makes.
    status: u8,
}

/// Answers on each of the files in turn: prints and shows what the job answers on its text, and puts the text
/// in its place that the job has for it. A file that can't be read, is no UTF-8, or can't be replaced is shown
/// with the reason, and makes the status 3, as does want of memory. After a failed write of what is printed,
/// which makes the status 3 too, no file is answered; after one to `errors` no more is written there.
pub fn answer_files<F: Folder, J: Job, W: Write, E: Write>(
    alloc: Global,
    folder: &mut F,
    job: &J,
    names: &[FileName],
    output: &mut Output<W>,
    errors: &mut Output<E>,
) -> Tally
    requires { J.is_ready job.now }
    ensures { AnswersFiles F.holds J.answers W.contents E.contents job.now names.now folder.old folder.new output.old output.new errors.old errors.new result }
{
    let mut tally = Tally::new();
    let mut is_shown = true;
    let mut place = 0;
    while place < names.len() {
        let answer = file_answer(alloc, folder, job, &names[place]);
        place += 1;
        match answer {
            Ok(answer) => {
                is_shown = write_unless_failed(errors, answer.shown.as_str(), is_shown);
                tally = tally.with(answer.faults, answer.status);
                if !write_whole(output, answer.printed.as_bytes()) {
                    tally.status = 3;
                    return tally;
                }
            }
            Err(_) => {
                is_shown = write_unless_failed(errors, "out of memory\n", is_shown);
                tally = tally.with(0, 3);
            }
        }
    }
    tally
}

/// What is written of the file. The only error is out of memory, after which each file is as it was.
fn file_answer<F: Folder, J: Job>(
    alloc: Global,
    folder: &mut F,
    job: &J,
    name: &FileName,
) -> Result<FileAnswer, AllocError>
    requires { J.is_ready job.now }
    ensures answer { IfOk result (λ a. IsEntry F.holds J.answers job.now folder.old folder.new name.now (entry_of a)) }
    ensures memory { OnErr result (Keeps (F.holds folder.old) (F.holds folder.new)) }
{
    let bytes = match folder.read(alloc, name.path.as_str()) {
        Ok(bytes) => bytes,
        Err(error) => return failed(alloc, name, "", error),
    };
    let text = match str::from_utf8(&bytes) {
        Ok(text) => text,
        Err(error) => return no_text(alloc, name, error.valid_up_to()),
    };
    let answer = job.answer(alloc, name, text)?;
    if let Some(text) = &answer.replacement {
        match folder.replace(alloc, name.path.as_str(), text.as_bytes()) {
            Ok(()) => {}
            Err(error) => return failed(alloc, name, "not written: ", error),
        }
    }
    Ok(FileAnswer {
        printed: answer.printed,
        shown: answer.shown,
        faults: answer.faults,
        status: u8::from(answer.faults > 0),
    })
}

/// What is written of a file that isn't read or replaced; out of memory, where that is why.
fn failed(
    alloc: Global,
    name: &FileName,
    what: &str,
    error: FileError,
) -> Result<FileAnswer, AllocError>
    ensures { IfOk result (λ a. IsNoEntry name.now what.now error (entry_of a)) }
{
    match error {
        FileError::OutOfMemory => Err(AllocError),
        FileError::Failed(reason) => with_reason(alloc, name, what, reason.as_str()),
    }
}

/// What is written of a file that is no UTF-8.
fn no_text(alloc: Global, name: &FileName, place: usize) -> Result<FileAnswer, AllocError>
    ensures { IfOk result (λ a. entry_of a ≡ failed_entry name.now [] (utf8_reason place)) }
{
    let reason = format!(in alloc; "no UTF-8 after byte {place}")?;
    with_reason(alloc, name, "", reason.as_str())
}

/// What is written of a file that has no answer, for this reason.
fn with_reason(
    alloc: Global,
    name: &FileName,
    what: &str,
    reason: &str,
) -> Result<FileAnswer, AllocError>
    ensures { IfOk result (λ a. entry_of a ≡ failed_entry name.now what.now reason.now) }
{
    let shown = &name.shown;
    Ok(FileAnswer {
        printed: String::new(alloc),
        shown: format!(in alloc; "{shown}: {what}{reason}\n")?,
        faults: 0,
        status: 3,
    })
}
