// What the arguments of a command over files ask for.
ghost use Rattle.std.specs.Prelude.{ℕ, List, [], ◌∷◌, ◌++◌, ◌≡◌, ◌≤◌, ◌≢◌, Some, true, false, IfOk, drop, length, map, option_map, codes, string_bytes};
ghost use Rattle.wave_grammar.specs.NumberText.{all_digits};
ghost use Rattle.wave_files.specs.Folders.{Holds};
ghost use Rattle.wave_files.specs.Options.{is_given, without, value_of, without_value};
ghost use Rattle.wave.specs.FileArguments.{put_second, AreNamed, AreTyped, AskToFormat, AskToCheck, AskToRead, IsFileWord, IsNumberOf, IsPurpose, IsStyleOf, IsTypeFile, MakeCommand};
ghost use Rattle.wave_commands.specs.Names.{IsNameOf};
ghost use Rattle.wave.specs.Requests.{AreWordsOf};
ghost use Rattle.wave.specs.Types.{NamesType};
ghost use Rattle.wave.specs.declared.file_arguments.Wrong.TheVariants.{OutOfMemory};

use crate::help::notice_of;
use crate::misuse::{bad_type, explain_misuse, quoting};
use crate::reading::Reading;
use crate::request::{Request, request_of};
use crate::types::type_at;
use std::alloc::{AllocError, Global};
use wasm_wave::WholeNumber;
use wasm_wave::value::Type;
use wave_commands::check::Check;
use wave_commands::format::{Format, Purpose};
use wave_commands::name::file_name;
use wave_commands::report::Style;
use wave_files::answers::FileName;
use wave_files::folder::{FileError, Folder};
use wave_files::options::{take_option, take_value};
use wave_format::FormatOptions;

/// The least width that a layout may be asked for.
const LEAST_WIDTH: u32 = 20;

/// The greatest width.
const MOST_WIDTH: u32 = 1000;

/// The width without `--width`.
const USUAL_WIDTH: u32 = 80;

/// By how many blanks a level is indented at most.
const MOST_INDENT: u32 = 16;

/// By how many it is indented without `--indent`.
const USUAL_INDENT: u32 = 2;

/// What is said of `--lines` where there are files.
const NO_LINES: &str =
    "--lines is for standard input, without --pretty: wave call --lines FUNC < FILE\n";

/// What a command over files is to do.
#[derive(Drop)]
pub enum Command {
    /// The files are laid out.
    Format(Format, Vec<FileName>),
    /// The files are checked.
    Check(Check, Vec<FileName>),
    /// A request is answered on each file.
    Read(Reading, Vec<FileName>),
}

/// Why arguments make no command over files.
#[derive(Drop)]
pub enum Wrong {
    /// They are wrong, and this says how.
    Words(String),
    /// The file of the type isn't read, and this says why.
    Unread(String),
    /// There was no memory.
    OutOfMemory,
}

impl From<AllocError> for Wrong {
    ghost from_gives = { λ _ wrong. wrong ≡ OutOfMemory };

    fn from(_error: AllocError) -> Wrong {
        Wrong::OutOfMemory
    }
}

/// Whether the arguments make a command over files: `format` or `check`; or `value`, `call` or `read` with a
/// file, `--pretty` or, but for `value`, the file of a type. They ask for no help.
pub fn is_over_files(words: &[String]) -> bool {
    if notice_of(words).is_some() {
        return false;
    }
    let Some((command, rest)) = words.split_first() else {
        return false;
    };
    match command.as_str() {
        "format" | "check" => true,
        "value" => names_file(rest, Before::Nothing),
        "call" => names_file(rest, Before::Function),
        "read" => names_file(rest, Before::Type),
        _ => false,
    }
}

/// What may stand before the files.
#[derive(Clone, Copy, PartialEq, Eq)]
enum Before {
    /// Only a number of levels.
    Nothing,
    /// A type.
    Type,
    /// The type of a function, or none.
    Function,
}

/// Whether a word behind the command is a file's name, `--pretty`, or an option that names the file of a type.
fn names_file(words: &[String], before: Before) -> bool {
    let takes_type = before != Before::Nothing;
    let mut before = before;
    let mut place = 0;
    while place < words.len() {
        let word = words[place].as_str();
        match word {
            "--pretty" => return true,
            "--type" | "-t" if takes_type => return true,
            "-" if before != Before::Type => return true,
            word if word.starts_with('-') => {}
            word if before == Before::Function && is_function(word) => before = Before::Nothing,
            _ if before == Before::Type => before = Before::Nothing,
            word if !is_number(word) => return true,
            _ => {}
        }
        place += 1;
    }
    false
}

/// Whether the word is meant as the type of a function: `func` begins it, and neither a label nor a path goes on
/// behind that.
fn is_function(word: &str) -> bool {
    match word.strip_prefix("func") {
        Some(rest) => !matches!(
            rest.as_bytes().first(),
            Some(b'a'..=b'z' | b'A'..=b'Z' | b'0'..=b'9' | b'-' | b'_' | b'.' | b'/')
        ),
        None => false,
    }
}

/// Whether the word is empty, or of digits alone.
fn is_number(word: &str) -> bool {
    word.bytes().all(|byte| byte.is_ascii_digit())
}

/// The command that the arguments make, the first of which is its name.
pub fn command_of<F: Folder>(
    alloc: Global,
    words: Vec<String>,
    folder: &mut F,
) -> Result<Command, Wrong>
    ensures { IfOk result (MakeCommand (F.holds folder.old) (map string_bytes words.items)) }
{
    let mut words = words;
    if begins_with(words.as_slice(), "format") {
        let (format, names) = format_of(alloc, &mut words)?;
        return Ok(Command::Format(format, names));
    }
    if begins_with(words.as_slice(), "check") {
        let (check, names) = check_of(alloc, &mut words, folder)?;
        return Ok(Command::Check(check, names));
    }
    let (reading, names) = reading_of(alloc, &mut words, folder)?;
    Ok(Command::Read(reading, names))
}

/// Whether this command is the first word.
fn begins_with(words: &[String], command: &str) -> bool
    ensures { result ≡ true → (more : List (List ℕ)) × (map string_bytes words.now ≡ command.now ∷ more) }
{
    match words {
        [first, ..] => first.as_str() == command,
        [] => false,
    }
}

/// The layout that the arguments ask for, and the files.
fn format_of(alloc: Global, words: &mut Vec<String>) -> Result<(Format, Vec<FileName>), Wrong>
    ensures { IfOk result (λ found. AskToFormat (map string_bytes words.old.items) found.0 found.1.items) }
{
    let width = number_option(
        alloc,
        words,
        "--width",
        LEAST_WIDTH,
        MOST_WIDTH,
        USUAL_WIDTH,
    )?;
    let indent = number_option(alloc, words, "--indent", 0, MOST_INDENT, USUAL_INDENT)?;
    let purpose = purpose_of(alloc, words)?;
    let names = names_of(alloc, behind(words, 1))?;
    if is_without_file(purpose, names.as_slice()) {
        return Err(misuse(alloc, "--write has no file to write\n"));
    }
    let names = or_input(alloc, names)?;
    let options = FormatOptions { width, indent };
    Ok((Format { purpose, options }, names))
}

/// Whether a file is to be written, and none is named.
fn is_without_file(purpose: Purpose, names: &[FileName]) -> bool {
    purpose == Purpose::Write && names.is_empty()
}

/// Takes the option out of the arguments, and gives the number that it says, or the usual one without it.
fn number_option(
    alloc: Global,
    words: &mut Vec<String>,
    option: &str,
    least: u32,
    most: u32,
    usual: u32,
) -> Result<u32, Wrong>
    ensures number { IfOk result (IsNumberOf (value_of option.now (map string_bytes words.old.items)) usual least most) }
    ensures left { map string_bytes words.new.items ≡ without_value option.now (map string_bytes words.old.items) }
{
    match take_value(words, option) {
        Some(word) => number_in(alloc, word.as_str(), least, most),
        None => Ok(usual),
    }
}

/// The words from this place on.
#[tactic(auto, using(crate::proofs::FileWords::from_there, crate::proofs::FileWords::none_behind))]
fn behind(words: &[String], place: usize) -> &[String]
    ensures { map string_bytes result.now ≡ drop place (map string_bytes words.now) }
{
    if place < words.len() {
        words.split_at(place).1
    } else {
        &[]
    }
}

/// What is to be done with what is laid out, by the options of it.
fn purpose_of(alloc: Global, words: &mut Vec<String>) -> Result<Purpose, Wrong>
    ensures purpose { IfOk result (λ purpose. IsPurpose (is_given (codes "--check") (map string_bytes words.old.items))
        (is_given (codes "--write") (without (codes "--check") (map string_bytes words.old.items))) purpose) }
    ensures left { IfOk result (λ _. map string_bytes words.new.items ≡ without (codes "--write") (without (codes "--check") (map string_bytes words.old.items))) }
{
    let compares = take_option(words, "--check");
    let writes = take_option(words, "--write");
    match (compares, writes) {
        (false, false) => Ok(Purpose::Print),
        (true, false) => Ok(Purpose::Compare),
        (false, true) => Ok(Purpose::Write),
        (true, true) => Err(misuse(alloc, "--check and --write exclude each other\n")),
    }
}

/// The check that the arguments ask for, and the files.
fn check_of<F: Folder>(
    alloc: Global,
    words: &mut Vec<String>,
    folder: &mut F,
) -> Result<(Check, Vec<FileName>), Wrong>
    ensures { IfOk result (λ found. AskToCheck (F.holds folder.old) (map string_bytes words.old.items) found.0 found.1.items) }
{
    let style = style_option(alloc, words)?;
    let file = take_type(alloc, words, folder)?;
    let Some(word) = words.get(1) else {
        return Err(misuse(alloc, "check needs a type and files\n"));
    };
    let ty = type_named(alloc, word.as_str(), &file)?;
    let names = names_of(alloc, behind(words, 2))?;
    if names.is_empty() {
        return Err(misuse(alloc, "check needs a file\n"));
    }
    Ok((Check { ty, style }, names))
}

/// Takes `--format` out of the arguments, and gives the style that it names, or blocks without it.
fn style_option(alloc: Global, words: &mut Vec<String>) -> Result<Style, Wrong>
    ensures style { IfOk result (IsStyleOf (value_of (codes "--format") (map string_bytes words.old.items))) }
    ensures left { map string_bytes words.new.items ≡ without_value (codes "--format") (map string_bytes words.old.items) }
{
    match take_value(words, "--format") {
        Some(word) => style_of(alloc, word.as_str()),
        None => Ok(Style::Blocks),
    }
}

/// The request that the arguments make, and the files.
fn reading_of<F: Folder>(
    alloc: Global,
    words: &mut Vec<String>,
    folder: &mut F,
) -> Result<(Reading, Vec<FileName>), Wrong>
    ensures { IfOk result (λ found. AskToRead (F.holds folder.old) (map string_bytes words.old.items) found.0 found.1.items) }
{
    let is_pretty = take_option(words, "--pretty");
    take_option(words, "--quiet");
    if take_option(words, "--lines") {
        return Err(misuse(alloc, NO_LINES));
    }
    let file = take_type(alloc, words, folder)?;
    let end = request_end(words, file.is_some());
    let names = or_input(alloc, names_of(alloc, behind(words, end))?)?;
    words.truncate(end);
    let request = request_named(alloc, words, &file)?;
    Ok((Reading { request, is_pretty }, names))
}

/// The request that the words make, in which the text of this file may be the type.
fn request_named(alloc: Global, words: &[String], file: &Option<FileName>) -> Result<Request, Wrong>
    ensures { IfOk result (λ request. AreWordsOf request (map string_bytes words.now)) }
{
    match request_of(alloc, words)? {
        Some(request) => Ok(request),
        None => {
            let why = explain_misuse(alloc, words)?;
            Err(Wrong::Words(of_file(alloc, file, why.as_str())?))
        }
    }
}

/// How many of the arguments, without options, make the request; behind them stand files. A type from a file is
/// one of them.
fn request_end(words: &[String], has_type: bool) -> usize
    ensures { result ≤ length words.now }
{
    let (command, second) = match words {
        [] => return 0,
        [command] => (command.as_str(), ""),
        [command, second, ..] => (command.as_str(), second.as_str()),
    };
    let has_type = has_type || command == "read" || (command == "call" && is_function(second));
    let place = if has_type { 2 } else { 1 };
    let behind = match words.get(place) {
        Some(word) if command != "call" && is_number(word.as_str()) => place + 1,
        _ => place,
    };
    behind.min(words.len())
}

/// Reads the file of a type that `--type` or `-t` names, puts its text behind the command, and answers the file.
fn take_type<F: Folder>(
    alloc: Global,
    words: &mut Vec<String>,
    folder: &mut F,
) -> Result<Option<FileName>, Wrong>
    ensures { IfOk result (λ _. AreTyped (F.holds folder.old) (map string_bytes words.old.items) (map string_bytes words.new.items)) }
{
    let Some(path) = take_path(words) else {
        return Ok(None);
    };
    let name = file_name(alloc, path.as_str())?;
    let text = text_in(alloc, folder, &name)?;
    put_second(words, text)?;
    Ok(Some(name))
}

/// Takes the path of the file of a type out of the arguments.
fn take_path(words: &mut Vec<String>) -> Option<String>
    ensures { IsTypeFile (map string_bytes words.old.items) (option_map string_bytes result) (map string_bytes words.new.items) }
{
    match take_value(words, "--type") {
        Some(path) => Some(path),
        None => take_value(words, "-t"),
    }
}

/// Puts the word behind the first.
fn put_second(words: &mut Vec<String>, word: String) -> Result<(), AllocError>
    ensures { IfOk result (λ _. map string_bytes words.new.items ≡ put_second (string_bytes word) (map string_bytes words.old.items)) }
{
    let place = words.len().min(1);
    match words.insert(place, word) {
        Ok(()) => Ok(()),
        Err(_) => Err(AllocError),
    }
}

/// What is wrong with argument 2 or behind it, and before that, where argument 2 is the text of a file, which.
fn of_file(alloc: Global, file: &Option<FileName>, why: &str) -> Result<String, AllocError> {
    match file {
        Some(name) => {
            let shown = &name.shown;
            format!(in alloc; "argument 2 is the text of {shown}\n{why}")
        }
        None => String::from_str(alloc, why),
    }
}

/// What is said of wrong arguments.
fn misuse(alloc: Global, why: &str) -> Wrong {
    match with_help(alloc, why) {
        Ok(why) => Wrong::Words(why),
        Err(_) => Wrong::OutOfMemory,
    }
}

/// What is wrong with the arguments, and where help is.
fn with_help(alloc: Global, why: &str) -> Result<String, AllocError> {
    format!(in alloc; "{why}wave --help has the arguments\n")
}

/// What is said of this argument.
fn wrong_word(alloc: Global, word: &str, behind: &str) -> Wrong {
    match quoting(alloc, "", word, behind) {
        Ok(why) => misuse(alloc, why.as_str()),
        Err(_) => Wrong::OutOfMemory,
    }
}

/// The number that the word writes, from the least to the most.
fn number_in(alloc: Global, word: &str, least: u32, most: u32) -> Result<u32, Wrong>
    ensures { IfOk result (λ number. (all_digits word.now ≡ Some number) × (least ≤ number) × (number ≤ most)) }
{
    match u32::from_text(word) {
        Some(number) if least <= number && number <= most => Ok(number),
        _ => {
            let behind = format!(in alloc; " is not a number from {least} to {most}")?;
            Err(wrong_word(alloc, word, behind.as_str()))
        }
    }
}

/// How faults are told, by its name.
fn style_of(alloc: Global, word: &str) -> Result<Style, Wrong>
    ensures { IfOk result (λ style. IsStyleOf (Some word.now) style) }
{
    match word {
        "short" => Ok(Style::Short),
        "json" => Ok(Style::Json),
        _ => Err(wrong_word(alloc, word, " is not a format: it may be short or json")),
    }
}

/// The files that the words name; `-` is the input, another that begins so none.
fn names_of(alloc: Global, words: &[String]) -> Result<Vec<FileName>, Wrong>
    ensures { IfOk result (λ names. AreNamed (map string_bytes words.now) names.items) }
{
    let mut names = Vec::new(alloc);
    let mut place = 0;
    while place < words.len() {
        let name = name_of(alloc, words[place].as_str())?;
        add_name(&mut names, name)?;
        place += 1;
    }
    Ok(names)
}

/// Adds the name.
fn add_name(names: &mut Vec<FileName>, name: FileName) -> Result<(), AllocError>
    ensures { IfOk result (λ _. names.new.items ≡ names.old.items ++ name ∷ []) }
{
    names.push(name)?;
    Ok(())
}

/// The file that the word names.
fn name_of(alloc: Global, word: &str) -> Result<FileName, Wrong>
    ensures { IfOk result (λ name. IsFileWord word.now × IsNameOf word.now name) }
{
    if is_option(word) {
        return Err(wrong_word(
            alloc,
            word,
            " is not an option here, is given twice, or lacks its value",
        ));
    }
    Ok(file_name(alloc, word)?)
}

/// Whether the word begins with a hyphen, and has more.
fn is_option(word: &str) -> bool
    ensures { result ≡ false → IsFileWord word.now }
{
    matches!(word.as_bytes(), [b'-', _, ..])
}

/// The files, or the input where there are none.
fn or_input(alloc: Global, names: Vec<FileName>) -> Result<Vec<FileName>, Wrong>
    ensures some { names.items ≢ [] → IfOk result (λ all. all.items ≡ names.items) }
    ensures none { names.items ≡ [] → IfOk result (λ all. AreNamed (codes "-" ∷ []) all.items) }
{
    if !names.is_empty() {
        return Ok(names);
    }
    let mut names = names;
    add_name(&mut names, file_name(alloc, "-")?)?;
    Ok(names)
}

/// The type of this name or text, which is argument 2, and may be the text of a file.
fn type_named(alloc: Global, word: &str, file: &Option<FileName>) -> Result<Type, Wrong>
    ensures { IfOk result (λ ty. NamesType word.now ty) }
{
    match type_at(alloc, word)? {
        Some(ty) => Ok(ty),
        None => {
            let why = bad_type(alloc, word)?;
            let why = of_file(alloc, file, why.as_str())?;
            Err(misuse(alloc, why.as_str()))
        }
    }
}

/// The text of the file.
fn text_in<F: Folder>(alloc: Global, folder: &mut F, name: &FileName) -> Result<String, Wrong>
    ensures { IfOk result (λ text. Holds (F.holds folder.old (string_bytes name.now.path)) (string_bytes text)) }
{
    let shown = &name.shown;
    let bytes = match folder.read(alloc, name.path.as_str()) {
        Ok(bytes) => bytes,
        Err(FileError::OutOfMemory) => return Err(Wrong::OutOfMemory),
        Err(FileError::Failed(reason)) => {
            return Err(Wrong::Unread(format!(in alloc; "{shown}: {reason}\n")?));
        }
    };
    match String::from_utf8(bytes) {
        Ok(text) => Ok(text),
        Err(_) => Err(Wrong::Unread(format!(in alloc; "{shown}: not UTF-8\n")?)),
    }
}
