// Reads, writes and parses the texts of its input as often as is said, and prints how long that took.
#![tactic(auto)]

mod cases;
mod checks;
mod times;

use cases::{Case, case_of};
use std::{env, io};

/// The arguments are a call (`read`, `nodes`, `write`, `untyped` or `call`) and how often it is made on
/// each case of the input. With the argument `check` each call is made once, and no time is printed.
fn main(rt: HostRuntime) -> anyhow::Result<()> {
    let mut words = env::args(&rt)?;
    let Some(call) = words.nth(1) else {
        return Ok(());
    };
    let loops = words.next();
    let input = io::read_to_string(rt.alloc(), rt.stdin())?;
    for block in input.as_str().split('#') {
        if let Some(case) = case_of(block) {
            run(rt, call.as_str(), loops_of(&loops), &case)?;
        }
    }
    Ok(())
}

/// How often the call is to be made: once where no number is said.
fn loops_of(word: &Option<String>) -> usize {
    let Some(word) = word else { return 1 };
    match word.as_str().parse::<usize>() {
        Ok(loops) => loops,
        Err(_) => 1,
    }
}

/// Makes the call on the case so often.
fn run(rt: HostRuntime, call: &str, loops: usize, case: &Case) -> anyhow::Result<()> {
    if call == "check" {
        return checks::check(rt, case);
    }
    let spent = if call == "call" {
        let types = cases::types_of(rt.alloc(), case.types)?;
        times::calling(rt, types.as_slice(), case.text, loops)?
    } else {
        times::spent(rt, call, loops, case)?
    };
    println!(rt;
        "{} in {} loops {loops} {call} {spent}",
        case.name,
        case.text.len()
    )?;
    Ok(())
}
