//! Rust tuples of one to six items, which stand for tuples.
ghost use Rattle.std.specs.Prelude.{◌≡◌, ◌∷◌, IfOk, map};
ghost use Rattle.wave_wasm.specs.Types as type;
ghost use Rattle.wave_wasm.specs.Types.{types_of};
ghost use Rattle.wave_value.specs.ConstructorRules.{Built};
ghost use Rattle.wave_convert.specs.RustValues.{tuple_value};

use crate::convert::IntoValue;
use crate::convert::built::{tuple_of, tuple_type};
use std::alloc::{AllocError, Global};
use wave_type::ty::Type;
use wave_value::value::Value;

// The parts of a tuple: no part, or the first and the others.
trait Parts: Sized + Drop {
    ghost use Rattle.std.specs.Prelude.{◌≡◌, List, ◌++◌, OnOk};
    ghost use Rattle.wave_wasm.specs.Types.{TypeTree};
    ghost use Rattle.wave_value.specs.TypedValue.{TypedValue};
    ghost use Rattle.wave_value.specs.ConstructorRules.{EachOwn};

    // The types of the parts.
    ghost owns: { List TypeTree };

    // The values that the parts stand for.
    ghost typed: { Self → List TypedValue };

    // Adds the types of the parts.
    fn push_types(alloc: Global, types: &mut Vec<Type>) -> Result<(), AllocError>
        ensures { OnOk result (types.new.items ≡ types.old.items ++ owns) };

    // Adds the values that the parts stand for.
    fn push_values(self, alloc: Global, vals: &mut Vec<Value>) -> Result<(), AllocError>
        ensures { OnOk result (vals.new.items ≡ vals.old.items ++ typed self) };

    // Each value is of the type at its place.
    ghost each_own: { (parts : Self) → EachOwn owns (typed parts) };
}

impl Parts for () {
    ghost use Rattle.std.specs.Prelude.{[]};

    ghost owns = { [] };

    ghost typed = { λ _. [] };

    ghost each_own = { λ _. tt };

    fn push_types(_alloc: Global, _types: &mut Vec<Type>) -> Result<(), AllocError> {
        Ok(())
    }

    fn push_values(self, _alloc: Global, _vals: &mut Vec<Value>) -> Result<(), AllocError> {
        Ok(())
    }
}

#[tactic(auto, using(crate::proofs::IntoValue::TupleParts::parts_more))]
impl<A: IntoValue, P: Parts> Parts for (A, P) {
    ghost use Rattle.std.specs.Prelude.{◌∷◌, refl};
    ghost use Rattle.wave_convert.specs.Private.TupleParts.{typed_as};

    ghost owns = { A.own ∷ P.owns };

    ghost typed = { λ parts. typed_as A.own (A.tree parts.0) ∷ P.typed parts.1 };

    ghost each_own = { λ parts. (refl, P.each_own parts.1) };

    fn push_types(alloc: Global, types: &mut Vec<Type>) -> Result<(), AllocError> {
        types.push(A::value_type(alloc)?)?;
        P::push_types(alloc, types)
    }

    fn push_values(self, alloc: Global, vals: &mut Vec<Value>) -> Result<(), AllocError> {
        let (first, others) = self;
        vals.push(first.into_value(alloc)?)?;
        others.push_values(alloc, vals)
    }
}

// The tuple type of the parts' types.
fn type_of<A: IntoValue, P: Parts>(alloc: Global) -> Result<Type, AllocError>
    ensures { IfOk result (λ t. t ≡ type.tuple (types_of (A.own ∷ P.owns))) }
{
    let mut types = Vec::new(alloc);
    <(A, P)>::push_types(alloc, &mut types)?;
    tuple_type(alloc, types)
}

// The tuple of what the parts stand for.
fn value_of<A: IntoValue, P: Parts>(alloc: Global, parts: (A, P)) -> Result<Value, AllocError>
    ensures { IfOk result (Built
        (tuple_value (A.tree parts.0 ∷ map (λ v. v.tree) (P.typed parts.1)))
        (type.tuple (types_of (A.own ∷ P.owns)))) }
{
    let ty = type_of::<A, P>(alloc)?;
    let mut vals = Vec::new(alloc);
    parts.push_values(alloc, &mut vals)?;
    tuple_of(alloc, &ty, vals)
}

impl<A: IntoValue> IntoValue for (A,) {
    ghost use Rattle.std.specs.Prelude.{[], ◌∷◌};
    ghost use Rattle.wave_wasm.specs.Types as type;
    ghost use Rattle.wave_wasm.specs.Types.{types_of};
    ghost use Rattle.wave_convert.specs.RustValues.{tuple_value};
    ghost use Rattle.wave_convert.specs.Private.RepresentableTypes.{tuple_is_representable};

    ghost own = { type.tuple (types_of (A.own ∷ [])) };

    ghost tree = { λ parts. tuple_value (A.tree parts.0 ∷ []) };

    ghost is_representable = { tuple_is_representable A.own [] (A.is_representable, tt) };

    fn value_type(alloc: Global) -> Result<Type, AllocError> {
        type_of::<A, ()>(alloc)
    }

    fn into_value(self, alloc: Global) -> Result<Value, AllocError> {
        let (a,) = self;
        value_of(alloc, (a, ()))
    }
}

impl<A: IntoValue, B: IntoValue> IntoValue for (A, B) {
    ghost use Rattle.std.specs.Prelude.{[], ◌∷◌};
    ghost use Rattle.wave_wasm.specs.Types as type;
    ghost use Rattle.wave_wasm.specs.Types.{types_of};
    ghost use Rattle.wave_convert.specs.RustValues.{tuple_value};
    ghost use Rattle.wave_convert.specs.Private.RepresentableTypes.{tuple_is_representable};

    ghost own = { type.tuple (types_of (A.own ∷ B.own ∷ [])) };

    ghost tree = { λ parts. tuple_value (A.tree parts.0 ∷ B.tree parts.1 ∷ []) };

    ghost is_representable = { tuple_is_representable A.own (B.own ∷ []) (A.is_representable, (B.is_representable, tt)) };

    fn value_type(alloc: Global) -> Result<Type, AllocError> {
        type_of::<A, (B, ())>(alloc)
    }

    fn into_value(self, alloc: Global) -> Result<Value, AllocError> {
        let (a, b) = self;
        value_of(alloc, (a, (b, ())))
    }
}

impl<A: IntoValue, B: IntoValue, C: IntoValue> IntoValue for (A, B, C) {
    ghost use Rattle.std.specs.Prelude.{[], ◌∷◌};
    ghost use Rattle.wave_wasm.specs.Types as type;
    ghost use Rattle.wave_wasm.specs.Types.{types_of};
    ghost use Rattle.wave_convert.specs.RustValues.{tuple_value};
    ghost use Rattle.wave_convert.specs.Private.RepresentableTypes.{tuple_is_representable};

    ghost own = { type.tuple (types_of (A.own ∷ B.own ∷ C.own ∷ [])) };

    ghost tree = { λ parts. tuple_value (A.tree parts.0 ∷ B.tree parts.1 ∷ C.tree parts.2 ∷ []) };

    ghost is_representable = { tuple_is_representable A.own (B.own ∷ C.own ∷ []) (A.is_representable, (B.is_representable, (C.is_representable, tt))) };

    fn value_type(alloc: Global) -> Result<Type, AllocError> {
        type_of::<A, (B, (C, ()))>(alloc)
    }

    fn into_value(self, alloc: Global) -> Result<Value, AllocError> {
        let (a, b, c) = self;
        value_of(alloc, (a, (b, (c, ()))))
    }
}

impl<A: IntoValue, B: IntoValue, C: IntoValue, D: IntoValue> IntoValue for (A, B, C, D) {
    ghost use Rattle.std.specs.Prelude.{[], ◌∷◌};
    ghost use Rattle.wave_wasm.specs.Types as type;
    ghost use Rattle.wave_wasm.specs.Types.{types_of};
    ghost use Rattle.wave_convert.specs.RustValues.{tuple_value};
    ghost use Rattle.wave_convert.specs.Private.RepresentableTypes.{tuple_is_representable};

    ghost own = { type.tuple (types_of (A.own ∷ B.own ∷ C.own ∷ D.own ∷ [])) };

    ghost tree = { λ parts. tuple_value (A.tree parts.0 ∷ B.tree parts.1 ∷ C.tree parts.2 ∷ D.tree parts.3 ∷ []) };

    ghost is_representable = { tuple_is_representable A.own (B.own ∷ C.own ∷ D.own ∷ []) (A.is_representable, (B.is_representable, (C.is_representable, (D.is_representable, tt)))) };

    fn value_type(alloc: Global) -> Result<Type, AllocError> {
        type_of::<A, (B, (C, (D, ())))>(alloc)
    }

    fn into_value(self, alloc: Global) -> Result<Value, AllocError> {
        let (a, b, c, d) = self;
        value_of(alloc, (a, (b, (c, (d, ())))))
    }
}

impl<A: IntoValue, B: IntoValue, C: IntoValue, D: IntoValue, E: IntoValue> IntoValue
    for (A, B, C, D, E) {
    ghost use Rattle.std.specs.Prelude.{[], ◌∷◌};
    ghost use Rattle.wave_wasm.specs.Types as type;
    ghost use Rattle.wave_wasm.specs.Types.{types_of};
    ghost use Rattle.wave_convert.specs.RustValues.{tuple_value};
    ghost use Rattle.wave_convert.specs.Private.RepresentableTypes.{tuple_is_representable};

    ghost own = { type.tuple (types_of (A.own ∷ B.own ∷ C.own ∷ D.own ∷ E.own ∷ [])) };

    ghost tree = { λ parts. tuple_value (A.tree parts.0 ∷ B.tree parts.1 ∷ C.tree parts.2 ∷ D.tree parts.3 ∷ E.tree parts.4 ∷ []) };

    ghost is_representable = { tuple_is_representable A.own (B.own ∷ C.own ∷ D.own ∷ E.own ∷ []) (A.is_representable, (B.is_representable, (C.is_representable, (D.is_representable, (E.is_representable, tt))))) };

    fn value_type(alloc: Global) -> Result<Type, AllocError> {
        type_of::<A, (B, (C, (D, (E, ()))))>(alloc)
    }

    fn into_value(self, alloc: Global) -> Result<Value, AllocError> {
        let (a, b, c, d, e) = self;
        value_of(alloc, (a, (b, (c, (d, (e, ()))))))
    }
}

impl<A: IntoValue, B: IntoValue, C: IntoValue, D: IntoValue, E: IntoValue, F: IntoValue> IntoValue
    for (A, B, C, D, E, F) {
    ghost use Rattle.std.specs.Prelude.{[], ◌∷◌};
    ghost use Rattle.wave_wasm.specs.Types as type;
    ghost use Rattle.wave_wasm.specs.Types.{types_of};
    ghost use Rattle.wave_convert.specs.RustValues.{tuple_value};
    ghost use Rattle.wave_convert.specs.Private.RepresentableTypes.{tuple_is_representable};

    ghost own = { type.tuple (types_of (A.own ∷ B.own ∷ C.own ∷ D.own ∷ E.own ∷ F.own ∷ [])) };

    ghost tree = { λ parts. tuple_value (A.tree parts.0 ∷ B.tree parts.1 ∷ C.tree parts.2 ∷ D.tree parts.3 ∷ E.tree parts.4 ∷ F.tree parts.5 ∷ []) };

    ghost is_representable = { tuple_is_representable A.own (B.own ∷ C.own ∷ D.own ∷ E.own ∷ F.own ∷ [])
        (A.is_representable, (B.is_representable, (C.is_representable, (D.is_representable, (E.is_representable, (F.is_representable, tt)))))) };

    fn value_type(alloc: Global) -> Result<Type, AllocError> {
        type_of::<A, (B, (C, (D, (E, (F, ())))))>(alloc)
    }

    fn into_value(self, alloc: Global) -> Result<Value, AllocError> {
        let (a, b, c, d, e, f) = self;
        value_of(alloc, (a, (b, (c, (d, (e, (f, ())))))))
    }
}
