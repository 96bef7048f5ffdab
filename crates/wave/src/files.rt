// The commands over files: `format`, `check`, and `value`, `call` and `read` where they name files.
ghost use Rattle.std.specs.Prelude.{◌≡◌};

use crate::file_arguments::{Command, Wrong, command_of};
use crate::program::USAGE;
use std::alloc::{AllocError, Global};
use std::io::Write;
use wave_commands::check::Check;
use wave_commands::report::Style;
use wave_files::answers::{FileName, Tally, answer_files};
use wave_files::folder::Folder;
use wave_files::output::{Output, print, write_whole};

/// Does what the arguments ask for over files, and gives the status to end with: that of the files; 2 where
/// the arguments are wrong, and 3 where the file of a type is not read or memory ran out. What is refused is
/// told on `errors` alone.
pub fn run_over_files<F: Folder, W: Write, E: Write>(
    alloc: Global,
    words: Vec<String>,
    folder: &mut F,
    output: &mut Output<W>,
    errors: &mut Output<E>,
) -> u8 {
    match command_of(alloc, words, folder) {
        Ok(Command::Format(format, names)) => {
            answer_files(alloc, folder, &format, names.as_slice(), output, errors).status
        }
        Ok(Command::Check(check, names)) => {
            check_files(alloc, folder, &check, names.as_slice(), output, errors)
        }
        Ok(Command::Read(reading, names)) => {
            answer_files(alloc, folder, &reading, names.as_slice(), output, errors).status
        }
        Err(Wrong::Words(why)) => {
            let status = print(output, USAGE, 2);
            write_whole(errors, why.as_bytes());
            status
        }
        Err(Wrong::Unread(why)) => {
            write_whole(errors, why.as_bytes());
            3
        }
        Err(Wrong::OutOfMemory) => {
            write_whole(errors, b"out of memory\n");
            3
        }
    }
}

/// Checks the files, and says last how many faults there are, where there are any and each is told in a block.
fn check_files<F: Folder, W: Write, E: Write>(
    alloc: Global,
    folder: &mut F,
    check: &Check,
    names: &[FileName],
    output: &mut Output<W>,
    errors: &mut Output<E>,
) -> u8 {
    let tally = answer_files(alloc, folder, check, names, output, errors);
    if tally.faults > 0 && check.style == Style::Blocks {
        match summary(alloc, tally, names.len()) {
            Ok(summary) => write_whole(errors, summary.as_bytes()),
            Err(_) => return 3,
        };
    }
    tally.status
}

/// How many faults there are in how many of the files.
fn summary(alloc: Global, tally: Tally, files: usize) -> Result<String, AllocError> {
    let faults = tally.faults;
    let faulty = tally.faulty;
    let plural = if faults == 1 { "" } else { "s" };
    let of_files = if files == 1 { "" } else { "s" };
    format!(in alloc; "{faults} fault{plural} in {faulty} of {files} file{of_files}\n")
}
