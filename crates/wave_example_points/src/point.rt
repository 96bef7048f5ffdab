//! A struct whose fields are of several types, as values of a record.
ghost use Rattle.std.specs.Prelude.{◌≡◌, ◌≢◌, IfOk, IfSome, IfNone};
ghost use Rattle.wave_example_points.specs.Point.{point_value};

use std::alloc::{AllocError, Global};
use wasm_wave::value::{IntoValue, Type, Value};
use wasm_wave::wasm::{WasmTypeKind, WasmValueError};

/// A place with a name.
#[derive(Debug, Drop)]
pub struct Point {
    pub x: i32,
    pub y: i32,
    pub label: String,
}

impl Point {
    /// The point that the value stands for, where it is one.
    pub fn from_value(alloc: Global, value: &Value) -> Result<Option<Point>, AllocError>
        ensures is { IfOk result (λ found. IfSome found (λ point. value.now.tree ≡ point_value point)) }
        ensures none { IfOk result (λ found. IfNone found ((point : Point) → value.now.tree ≢ point_value point)) }
    {
        if value.kind() != WasmTypeKind::Record {
            return Ok(None);
        }
        let fields = value.unwrap_record(alloc)?;
        let [("x", x), ("y", y), ("label", label)] = fields.as_slice() else {
            return Ok(None);
        };
        if x.kind() != WasmTypeKind::S32
            || y.kind() != WasmTypeKind::S32
            || label.kind() != WasmTypeKind::String
        {
            return Ok(None);
        }
        Ok(Some(Point {
            x: x.unwrap_s32(),
            y: y.unwrap_s32(),
            label: String::from_str(alloc, label.unwrap_string())?,
        }))
    }
}

impl IntoValue for Point {
    ghost use Rattle.std.specs.Prelude.{refl};
    ghost use Rattle.wave_example_points.specs.Point.{point_type, point_value};

    ghost own = { point_type };

    ghost tree = { point_value };

    ghost is_representable = { refl };

    fn value_type(alloc: Global) -> Result<Type, AllocError> {
        let mut fields = Vec::new(alloc);
        fields.push(("x", Type::S32))?;
        fields.push(("y", Type::S32))?;
        fields.push(("label", Type::STRING))?;
        match Type::record(alloc, fields)? {
            Some(ty) => Ok(ty),
            None => unreachable!(),
        }
    }

    fn into_value(self, alloc: Global) -> Result<Value, AllocError> {
        let ty = Point::value_type(alloc)?;
        let mut fields = Vec::new(alloc);
        fields.push(("x", Value::from(self.x)))?;
        fields.push(("y", Value::from(self.y)))?;
        fields.push(("label", Value::from(self.label)))?;
        match Value::make_record(alloc, &ty, fields) {
            Ok(value) => Ok(value),
            Err(WasmValueError::Memory(error)) => Err(error),
            Err(_) => unreachable!(),
        }
    }
}
