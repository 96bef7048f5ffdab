// What is said of arguments that ask for nothing.
ghost use Rattle.std.specs.Prelude.{ℕ, List, [], ◌∷◌, ◌≡◌, ◌≢◌, ◌≤◌, ◌<◌, ◌++◌, IfOk, OnOk, MatchOption, codes, map, string_bytes};
ghost use Rattle.wave_wasm.specs.Lists.{AllOf};
ghost use Rattle.wave_wasm.specs.Types.{TypeTree};
ghost use Rattle.wave_type.specs.FunctionType.{FunctionType};
ghost use Rattle.wave_type.specs.declared.error.TypeErrorKind.TheVariants as kind;
ghost use Rattle.wave.specs.Commands.{command_names, paged_names};
ghost use Rattle.wave_type_explain.specs.TypeExplained.{IsExplainedAs};
ghost use Rattle.wave.specs.Lines.{line};
ghost use Rattle.wave.specs.Misuse.{edits, IsNearest, IsHint, IsQuoted, IsBadType, IsBadFunc, IsMisuse, IsExplainedMisuse};
ghost use Rattle.wave.specs.Private.Requests.{IsOtherWord, MakeNone};
ghost use Rattle.wave.specs.Types.{NamesType, NamesFunction};

use crate::completions::script_of;
use crate::help::page_of;
use crate::request::limit_of;
use crate::types::text_of;
use std::alloc::{AllocError, Global};
use strsim::levenshtein;
use wasm_wave::value::{FuncType, Type, TypeError, TypeErrorKind};
use wave_type_explain::expected::Reading;
use wave_type_explain::explain::explain_as;

/// What is said before an argument that stands behind all that its command takes.
const TOO_MANY: &str = "an argument too many: ";

/// What is said behind an argument that is no limit.
const NO_LIMIT: &str = " is no number of levels: N is a whole number from 1 to 1000";

/// What is said behind a word that is no shell.
const NO_SHELL: &str = ": SHELL is bash, zsh or fish";

/// What is said of options behind a command that takes none.
const NO_OPTIONS: &str = "--lines and --quiet stand behind value, call or read\n";

/// What is wrong with the arguments, which make no request and have no options, and where help is.
pub fn explain_misuse(alloc: Global, words: &[String]) -> Result<String, AllocError>
    requires { MakeNone (map string_bytes words.now) }
    ensures { IfOk result (λ text. IsExplainedMisuse (map string_bytes words.now) (string_bytes text)) }
{
    let mut why = misuse(alloc, words)?;
    why.push_str("wave --help has the arguments\n")?;
    Ok(why)
}

/// What is wrong with the arguments, which make no request.
fn misuse(alloc: Global, words: &[String]) -> Result<String, AllocError>
    requires { MakeNone (map string_bytes words.now) }
    ensures { IfOk result (λ why. IsMisuse (map string_bytes words.now) (string_bytes why)) }
{
    let Some((first, rest)) = words.split_first() else {
        return String::from_str(alloc, "no command\n");
    };
    match first.as_str() {
        "value" => value_misuse(alloc, rest),
        "call" => call_misuse(alloc, rest),
        "read" => read_misuse(alloc, rest),
        "help" => help_misuse(alloc, rest),
        "completions" => completions_misuse(alloc, rest),
        command => other_misuse(alloc, command, rest),
    }
}

/// What is wrong behind `value`.
fn value_misuse(alloc: Global, rest: &[String]) -> Result<String, AllocError>
    requires { MakeNone (codes "value" ∷ map string_bytes rest.now) }
    ensures { IfOk result (λ why. IsMisuse (codes "value" ∷ map string_bytes rest.now) (string_bytes why)) }
{
    match rest {
        [] => unreachable!(),
        [limit] => quoting(alloc, "", limit.as_str(), NO_LIMIT),
        [_, extra, ..] => quoting(alloc, TOO_MANY, extra.as_str(), ""),
    }
}

/// What is wrong behind `call`.
fn call_misuse(alloc: Global, rest: &[String]) -> Result<String, AllocError>
    requires { MakeNone (codes "call" ∷ map string_bytes rest.now) }
    ensures { IfOk result (λ why. IsMisuse (codes "call" ∷ map string_bytes rest.now) (string_bytes why)) }
{
    match rest {
        [] => unreachable!(),
        [func] => bad_func(alloc, func.as_str()),
        [_, extra, ..] => quoting(alloc, TOO_MANY, extra.as_str(), ""),
    }
}

/// What is wrong behind `read`.
fn read_misuse(alloc: Global, rest: &[String]) -> Result<String, AllocError>
    requires { MakeNone (codes "read" ∷ map string_bytes rest.now) }
    ensures { IfOk result (λ why. IsMisuse (codes "read" ∷ map string_bytes rest.now) (string_bytes why)) }
{
    match rest {
        [] => String::from_str(
            alloc,
            "no type: read takes the text of one, or the name of a sample\n",
        ),
        [ty] => bad_type(alloc, ty.as_str()),
        [ty, limit] => match limit_of(limit.as_str()) {
            Some(_) => bad_type(alloc, ty.as_str()),
            None => quoting(alloc, "", limit.as_str(), NO_LIMIT),
        },
        [_, _, extra, ..] => quoting(alloc, TOO_MANY, extra.as_str(), ""),
    }
}

/// What is wrong behind `help`.
fn help_misuse(alloc: Global, rest: &[String]) -> Result<String, AllocError>
    ensures { IfOk result (λ why. IsMisuse (codes "help" ∷ map string_bytes rest.now) (string_bytes why)) }
{
    match rest {
        [] => String::from_str(alloc, NO_OPTIONS),
        [command] => {
            let word = command.as_str();
            match page_of(word) {
                Some(_) => String::from_str(alloc, NO_OPTIONS),
                None => {
                    let (near, least) = nearest_page(alloc, word)?;
                    let hint = hint(alloc, near, least)?;
                    quoting(alloc, "no page for ", word, hint.as_str())
                }
            }
        }
        [_, extra, ..] => quoting(alloc, TOO_MANY, extra.as_str(), ""),
    }
}

/// What is wrong behind `completions`.
fn completions_misuse(alloc: Global, rest: &[String]) -> Result<String, AllocError>
    ensures { IfOk result (λ why. IsMisuse (codes "completions" ∷ map string_bytes rest.now) (string_bytes why)) }
{
    match rest {
        [] => String::from_str(alloc, "no shell: completions takes bash, zsh or fish\n"),
        [shell] => {
            let word = shell.as_str();
            match script_of(word) {
                Some(_) => String::from_str(alloc, NO_OPTIONS),
                None => quoting(alloc, "no completions for ", word, NO_SHELL),
            }
        }
        [_, extra, ..] => quoting(alloc, TOO_MANY, extra.as_str(), ""),
    }
}

/// What is wrong with another command, or behind it.
fn other_misuse(alloc: Global, command: &str, rest: &[String]) -> Result<String, AllocError>
    requires { IsOtherWord command.now }
    ensures { IfOk result (λ why. IsMisuse (command.now ∷ map string_bytes rest.now) (string_bytes why)) }
{
    match command {
        "--help" | "-h" | "version" | "--version" | "-V" => match rest {
            [] => String::from_str(alloc, NO_OPTIONS),
            [extra, ..] => quoting(alloc, TOO_MANY, extra.as_str(), ""),
        },
        _ => {
            let hint = command_hint(alloc, command)?;
            quoting(alloc, "unknown command ", command, hint.as_str())
        }
    }
}

/// What is said of the nearest command to a misspelled one, at most two edits away; nothing where none is
/// that near.
fn command_hint(alloc: Global, word: &str) -> Result<String, AllocError>
    ensures { IfOk result (λ hint. IsHint word.now command_names (string_bytes hint)) }
{
    let (near, least) = nearest_page(alloc, word)?;
    let (near, least) = nearer(alloc, word, near, least, "help")?;
    let (near, least) = nearer(alloc, word, near, least, "version")?;
    hint(alloc, near, least)
}

/// The nearest command that has a page, with its edits.
fn nearest_page(alloc: Global, word: &str) -> Result<(&'static str, usize), AllocError>
    ensures { IfOk result (λ found. IsNearest word.now paged_names found.0.now × (found.1 ≡ edits word.now found.0.now)) }
{
    let least = edits(alloc, word, "value")?;
    let (near, least) = nearer(alloc, word, "value", least, "call")?;
    let (near, least) = nearer(alloc, word, near, least, "read")?;
    let (near, least) = nearer(alloc, word, near, least, "format")?;
    let (near, least) = nearer(alloc, word, near, least, "check")?;
    nearer(alloc, word, near, least, "completions")
}

/// The words that name what is near, at most two edits away; else none.
fn hint(alloc: Global, near: &str, count: usize) -> Result<String, AllocError>
    ensures near { count ≤ 2 → IfOk result (λ hint. string_bytes hint ≡ codes "; did you mean \"" ++ (near.now ++ codes "\"?")) }
    ensures far { 2 < count → IfOk result (λ hint. string_bytes hint ≡ []) }
{
    if count > 2 {
        return Ok(String::new(alloc));
    }
    format!(in alloc; "; did you mean \"{near}\"?")
}

/// The nearer of the two, the first where both are as near, with its edits.
fn nearer(
    alloc: Global,
    word: &str,
    near: &'static str,
    least: usize,
    other: &'static str,
) -> Result<(&'static str, usize), AllocError>
    requires { least ≡ edits word.now near.now }
    ensures counted { IfOk result (λ found. found.1 ≡ edits word.now found.0.now) }
    ensures nearer { IfOk result (λ found. (found.1 ≤ least) × (found.1 ≤ edits word.now other.now)) }
    ensures first { IfOk result (λ found. (words : List (List ℕ)) →
        IsNearest word.now words near.now → IsNearest word.now (words ++ other.now ∷ []) found.0.now) }
{
    let count = edits(alloc, word, other)?;
    if count < least {
        Ok((other, count))
    } else {
        Ok((near, least))
    }
}

/// How many edits lead from one to the other.
fn edits(alloc: Global, word: &str, other: &str) -> Result<usize, AllocError>
    ensures { IfOk result (λ count. count ≡ edits word.now other.now) }
{
    levenshtein(alloc, word, other)
}

/// A line with the word in quotes, between these texts.
pub fn quoting(alloc: Global, before: &str, word: &str, behind: &str) -> Result<String, AllocError>
    ensures { IfOk result (λ said. (quoted : List ℕ) × IsQuoted word.now quoted
        × (string_bytes said ≡ before.now ++ (quoted ++ line behind.now))) }
{
    let quoted = format!(in alloc; "{word:?}")?;
    format!(in alloc; "{before}{quoted}{behind}\n")
}

/// Why the word names no type, or none that has a value.
pub fn bad_type(alloc: Global, word: &str) -> Result<String, AllocError>
    requires { (T : TypeTree) → NamesType word.now T → ⊥ }
    ensures { IfOk result (λ why. IsBadType word.now (string_bytes why)) }
{
    let text = text_of(word);
    match Type::parse(alloc, text) {
        Ok(_) => String::from_str(
            alloc,
            "argument 2 is a type without a value: f32 and f64 have none here, nor has what needs one of them\n",
        ),
        Err(error) => {
            let shown = refused(alloc, &error, text, Reading::ValueType)?;
            format!(in alloc; "argument 2 is no type:\n{shown}")
        }
    }
}

/// Why the word is no type of a function, or one with a parameter whose type has no value.
fn bad_func(alloc: Global, word: &str) -> Result<String, AllocError>
    requires { (f : FunctionType) → NamesFunction word.now f → ⊥ }
    ensures { IfOk result (λ why. IsBadFunc word.now (string_bytes why)) }
{
    match FuncType::parse(alloc, word) {
        Ok(_) => String::from_str(
            alloc,
            "argument 2 has a parameter of a type without a value: f32 and f64 have none here, nor has what needs one of them\n",
        ),
        Err(error) => {
            let shown = refused(alloc, &error, word, Reading::FunctionType)?;
            format!(in alloc; "argument 2 is no type of a function:\n{shown}")
        }
    }
}

/// The refusal of the text that is to spell this, shown in it; out of memory, for that or as the refusal itself.
fn refused(
    alloc: Global,
    error: &TypeError,
    text: &str,
    reading: Reading,
) -> Result<String, AllocError>
    ensures shown { IfOk result (λ shown. IsExplainedAs reading text.now error.now (string_bytes shown)) }
    ensures reported { OnOk result (error.now.kind ≢ kind.OutOfMemory) }
{
    if error.kind() == TypeErrorKind::OutOfMemory {
        return Err(AllocError);
    }
    explain_as(alloc, error, text, reading)
}
