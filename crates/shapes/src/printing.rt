//! The tree that spells a shape (HDF5/JSON, "Shape").

ghost use Rattle.std.specs.Prelude.{◌≡◌, IfOk, Some, None, Ok};
ghost use Rattle.serde_json.specs.View.{view};
ghost use Rattle.shapes.specs.Shapes.{IsSound, shape_of};
ghost use Rattle.shapes.specs.Printed.{shape_tree, limit_tree, numbers_tree};

use crate::Shape;
use serde_json::{Value, json};
use std::alloc::{AllocError, Global};

/// How a limit of 0 is written.
#[derive(Clone, Copy, Debug, PartialEq, Eq)]
pub enum Form {
    /// As 0, as the REST API has it.
    Rest,
    /// As `"H5S_UNLIMITED"`, as a HDF5/JSON document has it.
    Document,
}

/// The tree that spells a shape, always an object with `class`, and with `dims` and `maxdims`
/// where the shape has dims.
///
/// # Errors
///
/// Only where memory runs out.
pub fn shape_json(alloc: Global, shape: &Shape, form: Form) -> Result<Value, AllocError>
    ensures tree { IfOk result (λ v. view v ≡ shape_tree shape.now form) }
    ensures reads_back { IsSound shape.now
        → IfOk result (λ v. shape_of (Some (view v)) None ≡ Ok shape.now) }
{
    printed(alloc, shape, form)
}

fn printed(alloc: Global, shape: &Shape, form: Form) -> Result<Value, AllocError>
    ensures { IfOk result (λ v. view v ≡ shape_tree shape.now form) }
{
    match shape {
        Shape::Null => json!(in alloc; {"class": "H5S_NULL"}),
        Shape::Scalar => json!(in alloc; {"class": "H5S_SCALAR"}),
        Shape::Simple { dims, maxdims } => {
            let dims = numbers_json(alloc, dims.as_slice(), Form::Rest)?;
            let maxdims = numbers_json(alloc, maxdims.as_slice(), form)?;
            json!(in alloc; {"class": "H5S_SIMPLE", "dims": dims, "maxdims": maxdims})
        }
    }
}

fn numbers_json(alloc: Global, numbers: &[u64], form: Form) -> Result<Value, AllocError>
    ensures { IfOk result (λ v. view v ≡ numbers_tree form numbers.now) }
{
    let mut list = Vec::new(alloc);
    for n in numbers {
        list.push(limit_json(alloc, *n, form)?)?;
    }
    Ok(Value::Array(list))
}

fn limit_json(alloc: Global, n: u64, form: Form) -> Result<Value, AllocError>
    ensures { IfOk result (λ v. view v ≡ limit_tree form n) }
{
    match form {
        Form::Document if n == 0 => json!(in alloc; "H5S_UNLIMITED"),
        _ => json!(in alloc; n),
    }
}
