//! Single calls of the crates that read no value, by their names and on words: each prints what it
//! answers. The program of `wave_test_reading` makes them.
#![tactic(auto)]

pub mod answer;
pub mod errors;
pub mod functions;
pub mod lexing;
pub mod making;
pub mod types;
pub mod values;
pub mod writing;

use answer::{Stopped, word};
use wave_wasm::wasm::DisplayFunc;

/// Makes the call of this name on the words, and prints its answer.
pub fn call(rt: HostRuntime, name: &str, words: &[String]) -> Result<(), Stopped> {
    let text = word(words, 0);
    match name {
        "Type::parse" | "FuncType::parse" | "parsed again" | "empty" | "fixed_length_list" => {
            types::of_text(rt, name, text)
        }
        "Type::parse_within" | "FuncType::parse_within" => types::within(rt, name, words),
        "Type::clone"
        | "from_wasm_type"
        | "DisplayType"
        | "ensure_type_kind"
        | "Type::kind"
        | "equality of types" => types::on_type(rt, name, words),
        "equality of functions" => functions::equality(rt, words),
        "FuncType::new" | "FuncType::clone" | "DisplayFunc" | "WasmFunc" => {
            functions::on_words(rt, name, words)
        }
        "unnamed" => {
            let func = functions::without_names(rt.alloc(), text)?;
            print!(rt; "{}", DisplayFunc::new(rt.alloc(), func))?;
            Ok(())
        }
        "merge_map_entries" => writing::merged(rt, words),
        "writer that fails" => writing::failed(rt),
        "into_value" => making::of_rust(rt, text),
        "parts" => making::of_pairs(rt, text),
        "scalar" | "From<String>" | "text of" | "make_string" => making::of_name(rt, name, text),
        "words" | "cause" | "refusal" => errors::call(rt, name, text),
        _ => lexing::call(rt, name, text),
    }
}
