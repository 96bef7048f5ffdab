//! Equality of the types of functions: equality of their names and types.
use super::FuncType;

impl PartialEq for FuncType {
    ghost use Rattle.wave_type.specs.FunctionEquality.{same_function};
    ghost use Rattle.wave_type.specs.FunctionEqualityLaws.{same_per};

    ghost eq = { same_function };

    ghost laws = { same_per };

    fn eq(&self, other: &FuncType) -> bool {
        self.params == other.params && self.results == other.results
    }
}

impl Eq for FuncType {
    ghost use Rattle.wave_type.specs.FunctionEqualityLaws.{same_equiv};

    ghost laws = { same_equiv };
}
