//! Calls over values of one's own: the parameters are read at the function's types, the function runs,
//! and its result is written. The values are flags that keep the order of their names.
ghost use Rattle.std.specs.Prelude.{[], ◌∷◌, ◌≡◌, IfOk, IfErr, string_bytes};
ghost use Rattle.wave_wasm.specs.Names.{AreAllOf};
ghost use Rattle.wave_wasm.specs.Text.{results_text};
ghost use Rattle.wave_wasm.specs.Values as value;
ghost use Rattle.wave_example_flags.specs.OrderedFlags.{RefusesNames};
ghost use Rattle.wave_example_settings.specs.Joins.{all_names, GivesFlags, RefusesFlags, IsAnswer, RefusesAnswer};

use std::alloc::{AllocError, Global};
use wasm_wave::parser::ParserError;
use wasm_wave::untyped::UntypedFuncCall;
use wasm_wave::wasm::{DisplayFuncResults, WasmValue, WasmValueError};
use wave_example_flags::name_set::NameSet;
use wave_example_flags::ordered_flags::OrderedFlags;

/// Why a call has no answer.
#[derive(Debug, Drop, thiserror::Error)]
pub enum CallRefusal {
    /// The text is no call, or a parameter is refused. The error has the place.
    #[error("{0}")]
    Text(ParserError),
    /// There is no function of this name.
    #[error("no such function")]
    UnknownFunction,
    /// The function has no value for its result.
    #[error("{0}")]
    Result(WasmValueError),
    /// There was no memory.
    #[error("{0}")]
    Memory(AllocError),
}

/// The parameters of the call, each at its type. A refusal's span lies in the call's text.
pub fn parameters(
    alloc: Global,
    call: &UntypedFuncCall,
    types: &[NameSet],
) -> Result<Vec<OrderedFlags>, ParserError>
    ensures given { IfOk result (λ values. GivesFlags types.now call.now values.items) }
    ensures refused { IfErr result (RefusesFlags types.now call.now) }
{
    call.to_wasm_params::<OrderedFlags>(alloc, types)
}

/// The function `join`: all names of the flags, each where it comes first. A name that the type hasn't is
/// refused.
pub fn join(
    alloc: Global,
    ty: &NameSet,
    values: &[OrderedFlags],
) -> Result<OrderedFlags, WasmValueError>
    ensures joined { IfOk result (λ names. names ≡ all_names values.now) }
    ensures taken { IfOk result (λ names. AreAllOf ty.now names) }
    ensures refused { IfErr result (RefusesNames ty.now (all_names values.now)) }
{
    let mut names: Vec<&str> = Vec::new(alloc);
    for value in values {
        for name in value.unwrap_flags(alloc)? {
            if !names.contains(&name) {
                names.push(name)?;
            }
        }
    }
    OrderedFlags::make_flags(alloc, ty, names.as_slice())
}

/// The results of a function, as they are written.
fn results_text(alloc: Global, joined: OrderedFlags) -> Result<String, AllocError>
    ensures { IfOk result (λ text. string_bytes text ≡ results_text (value.flags joined ∷ [])) }
{
    let mut results = Vec::new(alloc);
    results.push(joined)?;
    format!(in alloc; "{}", DisplayFuncResults::new(alloc, results.as_slice()))
}

/// What the call answers, where it is one of `join`.
pub fn answer(
    alloc: Global,
    types: &[NameSet],
    joined_type: &NameSet,
    text: &str,
) -> Result<String, CallRefusal>
    ensures answered { IfOk result (λ said. IsAnswer types.now joined_type.now text.now (string_bytes said)) }
    ensures refused { IfErr result (RefusesAnswer types.now joined_type.now text.now) }
{
    let call = UntypedFuncCall::parse(alloc, text).map_err(CallRefusal::Text)?;
    if call.name() != "join" {
        return Err(CallRefusal::UnknownFunction);
    }
    let values = parameters(alloc, &call, types).map_err(CallRefusal::Text)?;
    let joined = join(alloc, joined_type, values.as_slice()).map_err(CallRefusal::Result)?;
    results_text(alloc, joined).map_err(CallRefusal::Memory)
}
