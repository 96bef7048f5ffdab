//! Laws of what a parser answers; those of the grammar and of nodes under the same names.
ghost use Rattle.std.specs.Prelude.{ℕ, List};
ghost use Rattle.wave_wasm.specs.Types.{TypeTree};
ghost use Rattle.wave_grammar.specs.EquivalenceLaws.{MeansByTree};
ghost use Rattle.wave_tree.specs.UntypedLaws.{ReadAlike, RefusedAlike};
ghost use Rattle.wave_tree.specs.ParserLaws.{ReadHaveATree, RefusedHaveNone, LexerCallsBounded, RefusalsLieInText};
ghost use Rattle.wave_tree.specs.WholeTextLaws.{ReadsWholeText, ReadsWholeTree};
ghost use Rattle.wave_grammar.specs.NodeLaws.{FaultsLieInText};

pub use wave_grammar::laws::{
    a_fault_alone_is_answered, accepted_tokens_have_a_tree, answered_faults_are_faults,
    keys_are_values, last_commas_mean_nothing, levels_are_exact, nodes_read_as_their_tokens,
    one_fault, one_reading, one_tree, order_means_nothing, orders_agree, params_are_by_tree,
    prefixes_are_viable, reading_is_by_tree, refusal_kinds_sound, refused_tokens_begin_none,
    same_tokens_mean_the_same, shown_call_keeps_meaning, shown_keeps_meaning, trees_are_accepted,
    unexpected_tokens_begin_none, viable_tokens_begin_a_tree,
};
use wave_wasm::wasm::WasmValue;

/// Where a parser has read a value stands a tree, and its tokens are taken.
pub fn read_values_have_a_tree()
    ensures { ReadHaveATree }
{}

/// Where a parser has refused a value, memory apart, no tree stands.
pub fn refused_values_have_none()
    ensures { RefusedHaveNone }
{}

/// A text means at a type what the type gives the tree that the text spells. So a value is read from
/// a text at a type exactly where it is read from the text's untyped value, and a text that is
/// refused by one of them, memory apart, is refused by the other.
pub fn untyped_reading_agrees<V: WasmValue>()
    ensures tree { MeansByTree }
    ensures read { ReadAlike V.tree V.is_of }
    ensures refused { RefusedAlike }
{}

/// On a new parser with any limit, `parse_value` and then `finish` give a value exactly where the text
/// means it within that many levels, as `from_str` does within its hundred; `parse_raw_value` and then
/// `finish` give exactly the tree that the text spells within them.
pub fn whole_texts_are_read<V: WasmValue>()
    ensures typed { (T : TypeTree) (n : ℕ) (s : List ℕ) → ReadsWholeText V.tree V.is_of V.is_full T n s }
    ensures untyped { (n : ℕ) (s : List ℕ) → ReadsWholeTree n s }
{}

/// A new parser before n tokens, which end or go on with what is no token, asks its lexer n + 1 times
/// at most for `parse_value` and, where that has read a value, for `finish` after it.
pub fn lexer_calls_bounded()
    ensures { LexerCallsBounded }
{}

/// The span of a syntax refusal lies in the text, and so does that of what follows a value and that of a
/// fault of type.
pub fn refusals_lie_in_the_text()
    ensures syntax { RefusalsLieInText }
    ensures faults { FaultsLieInText }
{}
