//! Laws of the definitions.
ghost use Rattle.wave_wasm.specs.Laws.{KeyTextInjective, ComparesKeys, MergesToLastValues};

/// Keys of one type that have one text are equal.
pub fn key_text_injective()
    ensures { KeyTextInjective }
{}

/// Merging leaves the distinct keys in the order of their first places, each with the value of its
/// last place; keys are compared by what they are.
pub fn merging_keeps_last_values()
    ensures keys { ComparesKeys }
    ensures merged { MergesToLastValues }
{}
