//! Reading flags that keep the order of their names: a generic call's contract at an embedder's type.
ghost use Rattle.std.specs.Prelude.{IfOk, IfErr};
ghost use Rattle.wave_wasm.specs.Names.{AreDistinct};
ghost use Rattle.wave_wasm.specs.Types as type;
ghost use Rattle.wave_wasm.specs.Values as value;
ghost use Rattle.wave_grammar.specs.Denotes.{Means};
ghost use Rattle.wave_tree.specs.FromStr.{RefusesText};
ghost use Rattle.wave_example_flags.specs.OrderedFlags.{AreFlagsOf, IsFull};

use std::alloc::Global;
use wasm_wave::from_str;
use wasm_wave::parser::ParserError;
use wave_example_flags::name_set::NameSet;
use wave_example_flags::ordered_flags::OrderedFlags;

/// The flags that the text means. Where no name of the type stands twice they are of the type, and
/// but for lack of memory only a text is refused that means no flags of it: the refusal is that of `from_str`.
pub fn read_flags(alloc: Global, ty: &NameSet, text: &str) -> Result<OrderedFlags, ParserError>
    ensures read { IfOk result
        (λ names. AreDistinct ty.now → Means (type.flags ty.now) 100 text.now (value.flags names)) }
    ensures of_type { IfOk result
        (λ names. AreDistinct ty.now → AreFlagsOf names (type.flags ty.now)) }
    ensures refused { IfErr result (RefusesText IsFull (type.flags ty.now) 100 text.now) }
{
    from_str::<OrderedFlags>(alloc, ty, text)
}
