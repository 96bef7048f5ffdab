//! Equality of types: equality of their trees.
ghost use Rattle.wave_type.specs.TypeEquality.{same_tree};
ghost use Rattle.wave_type.specs.TypeEqualityLaws.{same_per, same_equiv};

use super::{Shape, Type};

impl PartialEq for Type {
    ghost eq = { same_tree };

    ghost laws = { same_per };

    fn eq(&self, other: &Type) -> bool {
        match (&self.shape, &other.shape) {
            (Shape::Simple(a), Shape::Simple(b)) => *a == *b,
            (Shape::F32, Shape::F32) => true,
            (Shape::F64, Shape::F64) => true,
            (Shape::List(a), Shape::List(b)) => a.0 == b.0,
            (Shape::FixedLengthList(a), Shape::FixedLengthList(b)) => a.1 == b.1 && a.0 == b.0,
            (Shape::Record(a), Shape::Record(b)) => a.0 == b.0,
            (Shape::Tuple(a), Shape::Tuple(b)) => a.0 == b.0,
            (Shape::Variant(a), Shape::Variant(b)) => a.0 == b.0,
            (Shape::Result(a), Shape::Result(b)) => a.0 == b.0 && a.1 == b.1,
            (Shape::Enum(a), Shape::Enum(b)) => a.0 == b.0,
            (Shape::Option(a), Shape::Option(b)) => a.0 == b.0,
            (Shape::Flags(a), Shape::Flags(b)) => a.0 == b.0,
            (Shape::Map(a), Shape::Map(b)) => a.0 == b.0 && a.1 == b.1,
            (Shape::Simple(_), _)
            | (Shape::F32, _)
            | (Shape::F64, _)
            | (Shape::List(_), _)
            | (Shape::FixedLengthList(_), _)
            | (Shape::Record(_), _)
            | (Shape::Tuple(_), _)
            | (Shape::Variant(_), _)
            | (Shape::Enum(_), _)
            | (Shape::Option(_), _)
            | (Shape::Result(_), _)
            | (Shape::Flags(_), _)
            | (Shape::Map(_), _) => false,
        }
    }
}

impl Eq for Type {
    ghost laws = { same_equiv };
}
