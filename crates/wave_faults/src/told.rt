//! Telling one error.
ghost use Rattle.std.specs.Prelude.{◌≡◌, ◌++◌, [], ◌∷◌, IfOk, OnOk};
ghost use Rattle.wave_wasm.specs.ValueErrors.{cause_of};
ghost use Rattle.wave_grammar.specs.NodeTree.{place_of};
ghost use Rattle.wave_faults.specs.Private.Told.{AddsCause};

use std::alloc::AllocError;
use wave_lex::error::ParserError;
use wave_node::ast::Node;
use wave_wasm::wasm::WasmValueError;

/// Tells that the node's value can't be made, for this cause.
pub(crate) fn tell_cause(
    node: &Node,
    cause: WasmValueError,
    told: &mut Vec<ParserError>,
) -> Result<(), AllocError>
    ensures { IfOk result (λ _. AddsCause (cause_of cause) (place_of node.now) told.old.items told.new.items) }
{
    tell_error(ParserError::with_cause(node.span(), cause), told)
}

/// Tells the error.
pub(crate) fn tell_error(error: ParserError, told: &mut Vec<ParserError>) -> Result<(), AllocError>
    ensures { OnOk result (told.new.items ≡ told.old.items ++ error ∷ []) }
{
    told.push(error)?;
    Ok(())
}
