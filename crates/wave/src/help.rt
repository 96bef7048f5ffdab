// What the program prints of itself.
ghost use Rattle.std.specs.Prelude.{[], ◌∷◌, MatchOption, map, string_bytes};
ghost use Rattle.wave.specs.Help.{IsNotice, IsNoNotice, IsPage, HasNoPage};

use crate::completions::script_of;

const VERSION: &str =
    "wave 0.1.0, a port of wasm-wave 0.263.0, proved with Rattle, logic dac8208d650f15bf\n";

const HELP: &str =
    "wave reads a component value in its text form, WAVE, from standard input, and prints it.

  wave value [N]           a value without a type, printed with its flags sorted
  wave call                a call, as f(1, [2]), printed with the flags in it sorted
  wave call FUNC           a call of a function of this type, printed with its canonical parameters
  wave read NAME [N]       a value at a type, printed as its canonical text
  wave format [FILE..]     texts laid out over lines, with their comments
  wave check NAME FILE..   all that is wrong in files at a type, told on standard error
  wave help COMMAND        the page of a command, as `wave COMMAND --help` prints it too
  wave completions SHELL   a script by which bash, zsh or fish completes the arguments
  wave --help              this text, as `wave help` and `wave -h` print it too
  wave --version           the version, as `wave version` and `wave -V` print it too

value, and call without FUNC, print one line, except that a multiline string keeps its lines.

NAME is the text of a type, or the name of a sample:
  bytes      list<u8>
  perms      flags { read, write, exec }
  status     enum { ok, not-found }
  response   variant { empty, body(list<u8>), err(string) }
  example    record { must-have: u8, optional: option<u8> }
  counts     map<string, u32>
  quad       list<u8, 4>

A type is written as in WIT:
  bool  s8  s16  s32  s64  u8  u16  u32  u64  char  string
  list<T>  list<T, 4>  option<T>  tuple<T, U>  map<string, T>
  result  result<T>  result<_, E>  result<T, E>
  record { a: T, b: U }  variant { a, b(T) }  enum { a, b }  flags { a, b }
It has at most 100 levels, and must have a value: f32 and f64 have none here.

FUNC is the text of a function's type. Its results, if it has any, are not used:
  func(a: T, b: option<U>)
Parameters at its end that are options may be left out of the call, and are printed as none.

N is the number of levels that the value may have, from 1 to 1000. Without N it is 100.

value, call and read take files too, after these: the answer on each is printed, in their order, and
what is refused is told on standard error alone, by file, line and column. - is standard input.

Anywhere after value, call or read, each at most once:
--lines    each line of the input is a text of its own, and one line is printed for it: an empty one
           where it is blank or refused
--pretty   what is printed is laid out over lines, and nothing is printed of what is refused
--quiet    standard output has values only, without what is printed there at status 1, 2 and 3; the
           empty lines of --lines stay
--type FILE, -t FILE   the type's text is read from a file, in place of NAME or FUNC

status 0   what was asked for is printed
status 1   the text is refused: the reason is printed, and standard error shows it in its line
status 2   the arguments are wrong: a usage line is printed, and standard error says what is wrong
status 3   the input failed or is not UTF-8, the output failed, or memory ran out

examples:
  echo '[(1, \"a\"),]' | wave read 'list<tuple<u8, string>>'   # [(1, \"a\")]
  echo '{must-have: 1}' | wave read example                  # {must-have: 1}
  echo '{a:1,b:[2,3]}' | wave format                         # {a: 1, b: [2, 3]}
  echo 'f(1, [2])' | wave call                               # f(1, [2])
  echo 'f(1)' | wave call 'func(a: u32, b: option<string>)'  # f(1, none)
";

const VALUE_PAGE: &str = "usage: wave value [N] [FILE..] [--lines] [--pretty] [--quiet]

Reads a value without a type from standard input, or from each file, and prints it with its flags
sorted, and without comments and extra whitespace. Numbers, characters and strings stay as they are
written. It is one line, except that a multiline string keeps its lines.

N          the number of levels that the value may have, from 1 to 1000. Without N it is 100
FILE       a file to read, in place of standard input, which is -. The values of several files are
           printed in their order, and what is refused is told on standard error alone. A file whose
           name is a number is written as ./3
--lines    each line of the input is a text of its own, and one line is printed for it: an empty one
           where it is blank or refused. Not with FILE
--pretty   the value is laid out over lines, as by `wave format`, and nothing is printed of what is
           refused. A value of more than 100 levels stays as it is
--quiet    standard output has values only, without what is printed there at status 1, 2 and 3; the
           empty lines of --lines stay

status 0   the value is printed
status 1   the text is refused: the reason is printed, and standard error shows it in its line
status 2   the arguments are wrong: a usage line is printed, and standard error says what is wrong
status 3   the input failed or is not UTF-8, the output failed, or memory ran out

examples:
  echo '{write, read,} // flags' | wave value   # {read, write}
  echo '[1, [2]]' | wave value 3                # [1, [2]]
";

const CALL_PAGE: &str = "usage: wave call [FUNC] [FILE..] [--lines] [--pretty] [--quiet]
       wave call --type TYPEFILE [FILE..]

Reads a call, as f(1, [2]), from standard input, or from each file, and prints it. Without FUNC its
parameters are read and printed as `wave value` reads and prints a value. With FUNC they are read at
the types of the function's parameters, and printed as canonical texts.

FUNC       the text of a function's type, as 'func(a: u8, b: option<string>)'. Its results, if any,
           are not used. Parameters at its end that are options may be left out of the call, and
           are printed as none. `wave help read` says how types are written. The first word is FUNC
           where it begins with func, and is the name of a file otherwise
FILE       a file to read, in place of standard input, which is -. The calls of several files are
           printed in their order, and what is refused is told on standard error alone
--lines    each line of the input is a text of its own, and one line is printed for it: an empty one
           where it is blank or refused. Not with FILE
--pretty   the call is laid out over lines, as by `wave format`, and nothing is printed of what is
           refused
--type     read the text of FUNC from this file; -t is the same
--quiet    standard output has calls only, without what is printed there at status 1, 2 and 3; the
           empty lines of --lines stay

status 0   the call is printed
status 1   the text is refused: the reason is printed, and standard error shows it in its line
status 2   the arguments are wrong: a usage line is printed, and standard error says what is wrong
status 3   the input failed or is not UTF-8, the output failed, or memory ran out

examples:
  echo 'f(1, [2,])' | wave call                              # f(1, [2])
  echo 'f(1)' | wave call 'func(a: u8, b: option<string>)'   # f(1, none)
";

const READ_PAGE: &str = "usage: wave read NAME [N] [FILE..] [--lines] [--pretty] [--quiet]
       wave read --type TYPEFILE [N] [FILE..]

Reads a value at a type from standard input, or from each file, and prints its canonical text, which
is one line.

NAME       the text of a type, as 'list<u8>', or the name of a sample, as bytes
N          the number of levels that the value may have, from 1 to 1000. Without N it is 100
FILE       a file to read, in place of standard input, which is -. The values of several files are
           printed in their order, and what is refused is told on standard error alone. A file whose
           name is a number is written as ./3
--lines    each line of the input is a text of its own, and one line is printed for it: an empty one
           where it is blank or refused. Not with FILE
--pretty   the value is laid out over lines, as by `wave format`, and nothing is printed of what is
           refused. A value of more than 100 levels stays on its line
--type     read the type's text from this file, in place of NAME; -t is the same
--quiet    standard output has values only, without what is printed there at status 1, 2 and 3; the
           empty lines of --lines stay

The samples, and their types:
  bytes      list<u8>
  perms      flags { read, write, exec }
  status     enum { ok, not-found }
  response   variant { empty, body(list<u8>), err(string) }
  example    record { must-have: u8, optional: option<u8> }
  counts     map<string, u32>
  quad       list<u8, 4>

A type is written as in WIT:
  bool  s8  s16  s32  s64  u8  u16  u32  u64  char  string
  list<T>  list<T, 4>  option<T>  tuple<T, U>  map<string, T>
  result  result<T>  result<_, E>  result<T, E>
  record { a: T, b: U }  variant { a, b(T) }  enum { a, b }  flags { a, b }
It has at most 100 levels, and must have a value: f32 and f64 have none here.

status 0   the value is printed
status 1   the text is refused: the reason is printed, and standard error shows it in its line
status 2   the arguments are wrong: a usage line is printed, and standard error says what is wrong
status 3   the input failed or is not UTF-8, the output failed, or memory ran out

examples:
  echo '[(1, \"a\"),]' | wave read 'list<tuple<u8, string>>'   # [(1, \"a\")]
  echo '{must-have: 1}' | wave read --lines example          # {must-have: 1}
";

const FORMAT_PAGE: &str = "usage: wave format [FILE..] [--check | --write] [--width N] [--indent N]

Lays a value out over lines, and keeps its comments. It needs no type. Without FILE it reads the
value from standard input. It prints what it lays out, of several files in their order.

FILE       a file to lay out; - is standard input
--check    print only the name of each file that is laid out otherwise, each on a line
--write    put the layout in place of each such file, and print nothing
--width    how many characters a line has at most, where that is possible: 20 to 1000. Without it 80
--indent   by how many blanks a level is indented: 0 to 16. Without it 2

status 0   each value is laid out; with --check each file already was
status 1   the syntax of a value is wrong, as standard error shows, and its file is left as it is;
           or with --check a file is laid out otherwise
status 2   the arguments are wrong: a usage line is printed, and standard error says what is wrong
status 3   a file can't be read or written, or is not UTF-8, the output failed, or memory ran out

examples:
  echo '{a:1,b:[2,3]}' | wave format   # {a: 1, b: [2, 3]}
";

const CHECK_PAGE: &str = "usage: wave check NAME FILE.. [--format FORMAT]
       wave check --type TYPEFILE FILE.. [--format FORMAT]

Reads each file at a type, and tells all that is wrong in it on standard error, with line, column
and path. Standard output stays empty. Where the syntax of a file is wrong, that alone is told.

NAME       the text of a type, as 'list<u8>', or the name of a sample, as bytes
FILE       a file to read; - is standard input
--type     read the type's text from this file, in place of NAME; -t is the same
--format   short: one line for each fault, as FILE:LINE:COLUMN: message
           json: one object of JSON for each fault, each on a line

status 0   nothing is wrong in any file
status 1   something is: the last line on standard error says how many faults are in how many files
status 2   the arguments are wrong: a usage line is printed, and standard error says what is wrong
status 3   a file can't be read or is not UTF-8, or memory ran out

`wave help read` has the samples, and says how types are written.

examples:
  echo '[1, 300, -1]' | wave check bytes --format short - 2>&1 | wc -l   # 2
";

const COMPLETIONS_PAGE: &str = "usage: wave completions SHELL

Prints a script by which the shell completes the commands, the options and the names of the samples.

SHELL is one of these, and the script is used so:
bash       in ~/.bashrc: eval \"$(wave completions bash)\"
zsh        in ~/.zshrc, after compinit: source <(wave completions zsh)
fish       wave completions fish > ~/.config/fish/completions/wave.fish

status 0   the script is printed
status 2   the arguments are wrong: a usage line is printed, and standard error says what is wrong
status 3   the output failed, or memory ran out
";

/// The help, the version, a command's page or a shell's script, where the arguments ask for it.
pub fn notice_of(words: &[String]) -> Option<&'static str>
    ensures { MatchOption result
        (IsNoNotice (map string_bytes words.now))
        (λ said. IsNotice (map string_bytes words.now) said.now) }
{
    match words {
        [word] => notice(word.as_str()),
        [first, second] => notice_of_two(first.as_str(), second.as_str()),
        _ => None,
    }
}

/// The help or the version, where the word asks for it.
#[tactic(auto, using(crate::proofs::HelpText::help_is))]
fn notice(word: &str) -> Option<&'static str>
    ensures { MatchOption result
        (IsNoNotice (word.now ∷ []))
        (λ said. IsNotice (word.now ∷ []) said.now) }
{
    match word {
        "--help" | "help" | "-h" => Some(HELP),
        "--version" | "version" | "-V" => Some(VERSION),
        _ => None,
    }
}

/// A command's page or a shell's script, where the two words ask for it.
fn notice_of_two(first: &str, second: &str) -> Option<&'static str>
    ensures { MatchOption result
        (IsNoNotice (first.now ∷ second.now ∷ []))
        (λ said. IsNotice (first.now ∷ second.now ∷ []) said.now) }
{
    match second {
        "--help" | "-h" => page_of(first),
        word => match first {
            "help" => page_of(word),
            "completions" => script_of(word),
            _ => None,
        },
    }
}

/// The page of the command.
#[tactic(auto, using(crate::proofs::HelpText::value_page_is, crate::proofs::HelpText::call_page_is, crate::proofs::HelpText::read_page_is, crate::proofs::HelpText::format_page_is, crate::proofs::HelpText::check_page_is, crate::proofs::HelpText::completions_page_is))]
pub fn page_of(command: &str) -> Option<&'static str>
    ensures { MatchOption result
        (HasNoPage command.now)
        (λ said. IsPage command.now said.now) }
{
    match command {
        "value" => Some(VALUE_PAGE),
        "call" => Some(CALL_PAGE),
        "read" => Some(READ_PAGE),
        "format" => Some(FORMAT_PAGE),
        "check" => Some(CHECK_PAGE),
        "completions" => Some(COMPLETIONS_PAGE),
        _ => None,
    }
}
