//! Laws of types and types of functions, over the definitions alone.
ghost use Rattle.std.specs.Prelude.{◌≡◌, ◌↔◌, ℕ, List, Some, true};
ghost use Rattle.wave_wasm.specs.Types.{TypeTree, IsRepresentable};
ghost use Rattle.wave_wasm.specs.TypeText.{type_text, function_text};
ghost use Rattle.wave_wasm.specs.Lists.{AllOf};
ghost use Rattle.wave_lex.specs.Labels.{HasLabels, HasDistinctLabels};
ghost use Rattle.wave_type.specs.FunctionEquality.{same_function};
ghost use Rattle.wave_type.specs.FunctionSpelling.{IsFunctionOf};
ghost use Rattle.wave_type.specs.FunctionType.{FunctionType, types_of, func_of};
ghost use Rattle.wave_type.specs.DistinctLabels.{FunctionHasDistinctLabels};
ghost use Rattle.wave_type.specs.TypeConversion.{converted_type};
ghost use Rattle.wave_type.specs.TypeEquality.{same_tree};
ghost use Rattle.wave_type.specs.TypeFaultLaws.{TakenBegins, NoneBeginsWithRefused, EndsAtEnd};
ghost use Rattle.wave_type.specs.TypeSpelling.{IsTypeOf};
ghost use Rattle.wave_type.specs.TypeTexts.{TypeTextTells};

/// The text of a type determines the type: two types that `Type` has, with labels for names, have one
/// text only where they are one.
pub fn type_text_injective()
    ensures { (T : TypeTree) → IsRepresentable T → HasLabels T → TypeTextTells T }
{}

/// What `==` answers of two types is true exactly where their trees are one.
pub fn equal_types()
    ensures { (T U : TypeTree) → (same_tree T U ≡ true) ↔ (T ≡ U) }
{}

/// `from_wasm_type` answers a type that `Type` has as itself.
pub fn types_convert_to_themselves()
    ensures { (T : TypeTree) → IsRepresentable T → converted_type T ≡ Some T }
{}

/// What `==` answers of two types of functions is true exactly where their names and types are one.
pub fn equal_functions()
    ensures { (f g : FunctionType) → (same_function f g ≡ true) ↔ (f ≡ g) }
{}

/// No text spells two types.
pub fn one_type_of_text()
    ensures { (text : List ℕ) (T U : TypeTree) → IsTypeOf text T → IsTypeOf text U → T ≡ U }
{}

/// The names of what a text spells are labels, and distinct: within a type, in each record, variant,
/// enum and flags; of a function also its parameters and its named results.
pub fn spelled_names_are_labels()
    ensures types { (text : List ℕ) (T : TypeTree) → IsTypeOf text T → HasDistinctLabels T }
    ensures functions { (text : List ℕ) (f : FunctionType) → IsFunctionOf text f → FunctionHasDistinctLabels f }
{}

/// The text of a type spells the type, where `Type` can hold it and its names are distinct labels.
/// As no text spells two types (`one_type_of_text`), what `Type::parse` answers of that text is the
/// type itself, and it answers one where the type has at most a hundred levels and memory is there.
pub fn type_text_spells()
    ensures { (T : TypeTree) → IsRepresentable T → HasDistinctLabels T → IsTypeOf (type_text T) T }
{}

/// So does the text of the type of a function whose types `Type` can hold, and where the names within
/// them, the names of parameters and those of named results are distinct labels.
pub fn function_text_spells()
    ensures { (f : FunctionType) → AllOf IsRepresentable (types_of f.params) → AllOf IsRepresentable (types_of f.results) → FunctionHasDistinctLabels f
        → IsFunctionOf (function_text (func_of f)) f }
{}

/// The tokens before the one where a text is refused as no type begin a type, of whatever levels; so do
/// all its tokens where the end is refused. Likewise of types of functions.
pub fn taken_tokens_begin_a_type()
    ensures { TakenBegins }
{}

/// With the refused token as well they begin no type within the levels; nor do those of a text that is
/// refused as no type of a function begin one.
pub fn refused_token_begins_no_type()
    ensures { NoneBeginsWithRefused }
{}

/// The kind is `UnexpectedEnd` exactly where all tokens were taken.
pub fn end_alone_is_unexpected_end()
    ensures { EndsAtEnd }
{}
