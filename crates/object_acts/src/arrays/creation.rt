//! The tree of an array's creation properties (HDF5/JSON, "creationProperties").

ghost use Rattle.std.specs.Prelude.{◌≡◌, IfOk, codes};
ghost use Rattle.serde_json.specs.Data.{object, number, unsigned, member, no_members};
ghost use Rattle.serde_json.specs.View.{view};
ghost use Rattle.shapes.specs.Printed.{numbers_tree};
ghost use Rattle.shapes.specs.declared.printing.Form.TheVariants.{Rest};
ghost use Rattle.object_acts.specs.Arrays.Creation.{creation_tree, layout_tree, layout_members};
ghost use Rattle.object_acts.specs.Arrays.Creation.{with_fill_members};

use chunk_store::Array;
use hdf_values::decode;
use serde_json::{Value, json};
use shapes::{Dims, Shape};
use std::alloc::{AllocError, Global};
use std::collections::BTreeMap;

/// The creation properties of an array: `fillValue` where a fill was given, and `layout` where the array has axes.
///
/// # Errors
///
/// Only where memory runs out.
pub fn creation_json(alloc: Global, array: &Array) -> Result<Value, AllocError>
    ensures { IfOk result (λ v. view v ≡ creation_tree array.now.grid) }
{
    array.is_whole();
    match array.fill() {
        None => without_fill(alloc, array),
        Some(fill) => {
            let tree = decode(alloc, array.elem(), fill)?;
            with_fill(alloc, array, tree)
        }
    }
}

fn without_fill(alloc: Global, array: &Array) -> Result<Value, AllocError>
    ensures { IfOk result (λ v. view v
        ≡ object (layout_members array.now.grid.shape array.now.grid.chunk)) }
{
    match array.shape() {
        Shape::Null => Ok(no_key(alloc)),
        Shape::Scalar => Ok(no_key(alloc)),
        Shape::Simple { .. } => {
            let layout = layout_json(alloc, &array.layout().chunk)?;
            layout_alone(alloc, layout)
        }
    }
}

fn with_fill(alloc: Global, array: &Array, fill: Value) -> Result<Value, AllocError>
    ensures { IfOk result (λ v. view v
        ≡ object (with_fill_members (view fill)
        (layout_members array.now.grid.shape array.now.grid.chunk))) }
{
    match array.shape() {
        Shape::Null => fill_alone(alloc, fill),
        Shape::Scalar => fill_alone(alloc, fill),
        Shape::Simple { .. } => {
            let layout = layout_json(alloc, &array.layout().chunk)?;
            fill_and_layout(alloc, fill, layout)
        }
    }
}

fn no_key(alloc: Global) -> Value
    ensures { view result ≡ object no_members }
{
    Value::Object(BTreeMap::new(alloc))
}

fn layout_alone(alloc: Global, layout: Value) -> Result<Value, AllocError>
    ensures { IfOk result (λ v. view v ≡ object (member (codes "layout") (view layout) no_members)) }
{
    json!(in alloc; {"layout": layout})
}

fn fill_alone(alloc: Global, fill: Value) -> Result<Value, AllocError>
    ensures { IfOk result (λ v. view v ≡ object (with_fill_members (view fill) no_members)) }
{
    json!(in alloc; {"fillValue": fill})
}

fn fill_and_layout(alloc: Global, fill: Value, layout: Value) -> Result<Value, AllocError>
    ensures { IfOk result (λ v. view v ≡ object (with_fill_members (view fill)
        (member (codes "layout") (view layout) no_members))) }
{
    json!(in alloc; {"fillValue": fill, "layout": layout})
}

fn layout_json(alloc: Global, chunk: &Dims) -> Result<Value, AllocError>
    ensures { IfOk result (λ v. view v ≡ layout_tree chunk.now) }
{
    let dims = numbers_json(alloc, chunk.as_slice())?;
    json!(in alloc; {"class": "H5D_CHUNKED", "dims": dims})
}

fn numbers_json(alloc: Global, numbers: &[u64]) -> Result<Value, AllocError>
    ensures { IfOk result (λ v. view v ≡ numbers_tree Rest numbers.now) }
{
    let mut list = Vec::new(alloc);
    for n in numbers {
        list.push(number_json(alloc, *n)?)?;
    }
    Ok(Value::Array(list))
}

fn number_json(alloc: Global, n: u64) -> Result<Value, AllocError>
    ensures { IfOk result (λ v. view v ≡ number (unsigned n)) }
{
    json!(in alloc; n)
}
