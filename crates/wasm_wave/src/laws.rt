//! Laws of reading and writing, over the definitions alone: those of this crate, and those of the
//! crates below under the same names.
ghost use Rattle.std.specs.Prelude.{ℕ, List, ◌≡◌};
ghost use Rattle.std.specs.declared.ops.Range.{Range};
ghost use Rattle.wave_wasm.specs.Types.{TypeTree, HasDistinctNames, IsRepresentable};
ghost use Rattle.wave_lex.specs.Labels.{HasDistinctLabels};
ghost use Rattle.wave_grammar.specs.UnambiguityLaws.{OneReading};
ghost use Rattle.wave_grammar.specs.RoundTripLaws.{ReadsBack, EqualTexts, ReadsMerged, ReadsBackWithinTwice};
ghost use Rattle.wasm_wave.specs.MainTheorem.{OneValue};
ghost use Rattle.wave_place.specs.Places.{IsExplained};

pub use wave_expected::laws::{open_brackets_are_forms, unexpected_may_not_follow};
pub use wave_faults::laws::{faults_are_told, first_is_answered, no_fault_is_a_value};
pub use wave_lex::laws::{
    decoding_functional, faults_refuse, labels_are_words, lines_join, no_longer_label, one_cut,
    one_line_joins, parts_join, through_first_quotes, tokens_cut,
};
pub use wave_tree::laws::{
    a_fault_alone_is_answered, accepted_tokens_have_a_tree, answered_faults_are_faults,
    keys_are_values, last_commas_mean_nothing, levels_are_exact, lexer_calls_bounded,
    nodes_read_as_their_tokens, one_fault, one_reading, one_tree, order_means_nothing,
    orders_agree, params_are_by_tree, prefixes_are_viable, read_values_have_a_tree,
    reading_is_by_tree, refusal_kinds_sound, refusals_lie_in_the_text, refused_tokens_begin_none,
    refused_values_have_none, same_tokens_mean_the_same, shown_call_keeps_meaning,
    shown_keeps_meaning, trees_are_accepted, unexpected_tokens_begin_none, untyped_reading_agrees,
    viable_tokens_begin_a_tree, whole_texts_are_read,
};
pub use wave_type::laws::{
    end_alone_is_unexpected_end, equal_functions, equal_types, function_text_spells,
    one_type_of_text, refused_token_begins_no_type, spelled_names_are_labels,
    taken_tokens_begin_a_type, type_text_injective, type_text_spells, types_convert_to_themselves,
};
pub use wave_value::laws::equal_values;
pub use wave_wasm::laws::{key_text_injective, merging_keeps_last_values};

/// The grammar gives no text two values: where one spelling begins another, both are one and spell
/// one value; so a text means one value at most, whatever the levels.
pub fn one_value()
    ensures reading { (T : TypeTree) → HasDistinctNames T → OneReading T }
    ensures value { (T : TypeTree) → HasDistinctNames T → OneValue T }
{}

/// Two values of a type whose names are distinct labels have one canonical text exactly where they
/// are equal, merged, however deep they nest.
pub fn text_injective()
    ensures { (T : TypeTree) → HasDistinctLabels T → EqualTexts T }
{}

/// The canonical text of a value of such a type has the tokens that spell the value, merged, and
/// no more levels than they hold are needed.
pub fn text_reads_back()
    ensures { (T : TypeTree) → HasDistinctLabels T → IsRepresentable T → ReadsBack T }
{}

/// What tokens spell at a type is merged: in each map of it, inner ones too, each key stands once.
pub fn read_values_are_merged()
    ensures { (T : TypeTree) → ReadsMerged T }
{}

/// Where the tokens of a text spell a value of such a type within some levels, the value's
/// canonical text reads back, and holds at most twice as many.
pub fn levels_at_most_double()
    ensures { (T : TypeTree) → HasDistinctLabels T → IsRepresentable T → ReadsBackWithinTwice T }
{}

/// One text explains a refusal: the source, the message and the span determine it, byte for byte.
pub fn one_explanation()
    ensures { (source message : List ℕ) (span : Range ℕ) (text other : List ℕ)
        → IsExplained source message span text → IsExplained source message span other → text ≡ other }
{}
