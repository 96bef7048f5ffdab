//! Rust values that stand for lists, options and results.
use crate::convert::IntoValue;
use crate::convert::built::{list_of, option_of, result_of, values_of};
use std::alloc::{AllocError, Global};
use wave_type::ty::Type;
use wave_value::value::Value;

impl<T: IntoValue> IntoValue for Vec<T> {
    ghost use Rattle.wave_wasm.specs.Types as type;
    ghost use Rattle.wave_convert.specs.RustValues.{list_value};

    ghost own = { type.list T.own };

    ghost tree = { λ items. list_value T.tree items.items };

    ghost is_representable = { T.is_representable };

    fn value_type(alloc: Global) -> Result<Type, AllocError> {
        Type::list(alloc, T::value_type(alloc)?)
    }

    fn into_value(self, alloc: Global) -> Result<Value, AllocError> {
        let ty = Self::value_type(alloc)?;
        list_of(alloc, &ty, values_of(alloc, self)?)
    }
}

impl<T: IntoValue + Copy, const N: usize> IntoValue for [T; N] {
    ghost use Rattle.wave_wasm.specs.Types as type;
    ghost use Rattle.wave_convert.specs.RustValues.{list_value};

    ghost own = { type.list T.own };

    ghost tree = { list_value T.tree };

    ghost is_representable = { T.is_representable };

    fn value_type(alloc: Global) -> Result<Type, AllocError> {
        Vec::<T>::value_type(alloc)
    }

    fn into_value(self, alloc: Global) -> Result<Value, AllocError> {
        Vec::from_array(alloc, self)?.into_value(alloc)
    }
}

impl<T: IntoValue> IntoValue for Option<T> {
    ghost use Rattle.wave_wasm.specs.Types as type;
    ghost use Rattle.wave_convert.specs.RustValues.{option_value};

    ghost own = { type.option T.own };

    ghost tree = { option_value T.tree };

    ghost is_representable = { T.is_representable };

    fn value_type(alloc: Global) -> Result<Type, AllocError> {
        Type::option(alloc, T::value_type(alloc)?)
    }

    fn into_value(self, alloc: Global) -> Result<Value, AllocError> {
        let ty = Self::value_type(alloc)?;
        match self {
            Some(payload) => option_of(alloc, &ty, Some(payload.into_value(alloc)?)),
            None => option_of(alloc, &ty, None),
        }
    }
}

impl<T: IntoValue, U: IntoValue> IntoValue for Result<T, U> {
    ghost use Rattle.wave_wasm.specs.Types as type;
    ghost use Rattle.wave_wasm.specs.Types.{a_type};
    ghost use Rattle.wave_convert.specs.RustValues.{outcome_value};
    ghost use Rattle.wave_convert.specs.Private.RepresentableTypes.{result_is_representable};

    ghost own = { type.result (a_type T.own) (a_type U.own) };

    ghost tree = { outcome_value T.tree U.tree };

    ghost is_representable = { result_is_representable T.own U.own T.is_representable U.is_representable };

    fn value_type(alloc: Global) -> Result<Type, AllocError> {
        let ok = T::value_type(alloc)?;
        let err = U::value_type(alloc)?;
        Type::result(alloc, Some(ok), Some(err))
    }

    fn into_value(self, alloc: Global) -> Result<Value, AllocError> {
        let ty = Self::value_type(alloc)?;
        match self {
            Ok(payload) => result_of(alloc, &ty, Ok(Some(payload.into_value(alloc)?))),
            Err(payload) => result_of(alloc, &ty, Err(Some(payload.into_value(alloc)?))),
        }
    }
}
