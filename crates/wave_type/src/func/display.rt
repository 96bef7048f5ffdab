//! The text of the type of a function.
ghost use Rattle.std.specs.Prelude.{map};
ghost use Rattle.std.specs.Fmt.{WritesOnOk};
ghost use Rattle.wave_wasm.specs.TypeText.{function_results_text};
ghost use Rattle.wave_type.specs.TypeModel.{by_bytes};
ghost use Rattle.wave_type.specs.FunctionType.{types_of, result_names};

use super::{FuncType, is_one_unnamed};
use crate::ty::Type;
use crate::ty::display::write_fields;
use std::fmt;

impl fmt::Display for FuncType {
    ghost use Rattle.std.specs.Prelude.{Some};
    ghost use Rattle.wave_wasm.specs.TypeText.{function_text};
    ghost use Rattle.wave_type.specs.FunctionType.{func_of};

    ghost output = { λ f. Some (function_text (func_of f)) };

    fn fmt<W: fmt::Write>(&self, f: &mut fmt::Formatter<W>) -> fmt::Result {
        write!(f, "func(")?;
        write_fields(f, &self.params)?;
        write!(f, ")")?;
        write_results(f, &self.results)
    }
}

// Nothing for no result, ` -> T` for an unnamed one, else ` -> ` and all in parentheses.
fn write_results<W: fmt::Write>(
    f: &mut fmt::Formatter<W>,
    results: &Vec<(String, Type)>,
) -> fmt::Result
    ensures { let rs = map by_bytes results.now.items in
        WritesOnOk W.write_str_gives f.old result (function_results_text (result_names rs) (types_of rs)) f.new }
{
    if results.is_empty() {
        return Ok(());
    }
    write!(f, " -> ")?;
    if is_one_unnamed(results) {
        return write!(f, "{}", results[0].1);
    }
    write!(f, "(")?;
    write_fields(f, results)?;
    write!(f, ")")
}
