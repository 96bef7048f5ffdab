//! Makes the call of the library that its first argument names, on what the others say, and prints what
//! it answers. Where the call was out of memory, or there was none for what it is made on, it says so in
//! the next line and makes the call once more. A test calls it while memory is refused to it.
//!
//! `?` keeps two refusals of memory apart: an `AllocError` and an `io::Error` are of the call, or of a display, while
//! a `TypeErrorKind` and a `ParserError` come of making ready what it is called on. A refusal that a
//! call answers is printed, and never passed on.
#![tactic(auto)]

mod calls;
mod cuts;
mod explained;
mod layout;
mod nodes;
mod parsers;
mod reading;

use std::process::ExitCode;
use std::{env, io};
use wave_test_values::answer::{Stopped, word};
use wave_test_values::values;

fn main(rt: HostRuntime) -> ExitCode {
    let said = match attempt(rt) {
        Ok(()) => println!(rt; ""),
        Err(Stopped::NoCall) => println!(rt; "{}", Stopped::NoCall),
        Err(first) => again(rt, first),
    };
    match said {
        Ok(()) => ExitCode::SUCCESS,
        Err(_) => ExitCode::FAILURE,
    }
}

/// Says why the call had no answer, and makes it once more.
fn again(rt: HostRuntime, first: Stopped) -> io::Result<()> {
    println!(rt; "\n{first}")?;
    match attempt(rt) {
        Ok(()) => println!(rt; ""),
        Err(second) => println!(rt; "\n{second}"),
    }
}

/// Prints what the call that the arguments name answers.
fn attempt(rt: HostRuntime) -> Result<(), Stopped> {
    let words = arguments(rt)?;
    match words.as_slice() {
        [_, name, words @ ..] => call(rt, name.as_str(), words),
        _ => Err(Stopped::NoCall),
    }
}

/// The program's name and the arguments after it.
fn arguments(rt: HostRuntime) -> Result<Vec<String>, Stopped> {
    match env::args(&rt) {
        Ok(arguments) => match arguments.collect(rt.alloc()) {
            Ok(words) => Ok(words),
            Err(_) => Err(Stopped::NotCalled),
        },
        Err(error) if error.kind() == io::ErrorKind::OutOfMemory => Err(Stopped::NotCalled),
        Err(_) => Err(Stopped::NoCall),
    }
}

/// Makes the call of this name on the words, and prints its answer.
fn call(rt: HostRuntime, name: &str, words: &[String]) -> Result<(), Stopped> {
    match name {
        "from_str" | "text" | "to_wasm_value" | "Node::to_wasm_value" | "each way" => {
            reading::at_type(rt, name, words)
        }
        "Parser::new" | "Parser::with_lexer" => parsers::in_turn(rt, name, words),
        "to_string"
        | "write_value"
        | "failing writers"
        | "DisplayValue"
        | "make"
        | "make_list"
        | "Value::clone"
        | "Value::ty"
        | "view" => values::on_value(rt, name, &reading::value_at(rt, words, 0)?, words),
        "equality" => reading::equality(rt, words),
        "as_str" | "as_record" | "accessor" | "iter_str" | "lengths" => {
            nodes::on_untyped(rt, name, word(words, 0))
        }
        "expected_at" | "expected_in_call_at" | "expected_in_call_within" => {
            explained::may_stand(rt, name, words)
        }
        "explain" | "explain_value" | "explain_at" | "explain_call" => {
            explained::block(rt, name, words)
        }
        "format_text" | "format_call" | "to_string_pretty" => layout::laid_out(rt, name, words),
        _ => calls::call(rt, name, words),
    }
}
