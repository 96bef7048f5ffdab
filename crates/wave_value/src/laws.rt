//! Laws of values, over the definitions alone.
ghost use Rattle.std.specs.Prelude.{◌≡◌, ◌↔◌, true};
ghost use Rattle.wave_value.specs.ValueEquality.{same_typed};
ghost use Rattle.wave_value.specs.TypedValue.{TypedValue};

/// What `==` answers of two values is true exactly where their own types are one and their trees
/// are: two values of one tree and two types aren't equal.
pub fn equal_values()
    ensures { (v w : TypedValue) → (same_typed v w ≡ true) ↔ (v ≡ w) }
{}
