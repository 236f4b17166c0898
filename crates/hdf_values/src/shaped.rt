//! Values of a type and a shape: null, one element, or nested lists.

ghost use Rattle.std.specs.Prelude.{◌≡◌, ℕ, List, [], Ok, IfOk};
ghost use Rattle.serde_json.specs.Data.{Data, null};
ghost use Rattle.serde_json.specs.View.{view};
ghost use Rattle.hdf_types.specs.Types.{IsSoundType};
ghost use Rattle.hdf_types.specs.Views.{elem};
ghost use Rattle.shapes.specs.Shapes.{count_of};
ghost use Rattle.json_trees.specs.Faults.{Fails, Gives};
ghost use Rattle.hdf_values.specs.Nested.{AreEncoded};
ghost use Rattle.hdf_values.specs.Shaped.{IsValue, value_from, null_from, value_tree, value_normal};

use crate::ValueFault;
use crate::nested::{read_nested, write_nested};
use hdf_types::ElemType;
use serde_json::Value;
use shapes::{Dims, Shape};
use std::alloc::{AllocError, Global};

/// The bytes of a tree that is a value of the type and the shape: null without a cell, one element
/// without an axis, else lists nested by the dims.
///
/// # Errors
///
/// The first fault, as of [`read_nested`]. A tree other than null is of another kind at place 0
/// where the shape has no cell.
pub fn read_value(
    alloc: Global,
    kind: &ElemType,
    shape: &Shape,
    tree: &Value,
) -> Result<Vec<u8>, ValueFault>
    requires sound { IsSoundType (elem kind.now) }
    ensures spelled { IfOk result (λ v. IsValue (elem kind.now) shape.now (view tree.now) v.items) }
    ensures only { (bs : List ℕ) → IsValue (elem kind.now) shape.now (view tree.now) bs
        → Gives (Fails ValueFault.NoMemory) (λ v. v.items) result (Ok bs) }
    ensures first { Gives (Fails ValueFault.NoMemory) (λ v. v.items) result
        (value_from (elem kind.now) shape.now (view tree.now)) }
    ensures encoded { IfOk result (λ v. AreEncoded (elem kind.now) (count_of shape.now) v.items) }
{
    value_bytes(alloc, kind, shape, tree)
}

fn value_bytes(
    alloc: Global,
    kind: &ElemType,
    shape: &Shape,
    tree: &Value,
) -> Result<Vec<u8>, ValueFault>
    requires sound { IsSoundType (elem kind.now) }
    ensures gives { Gives (Fails ValueFault.NoMemory) (λ v. v.items) result
        (value_from (elem kind.now) shape.now (view tree.now)) }
    ensures spelled { IfOk result (λ v. IsValue (elem kind.now) shape.now (view tree.now) v.items) }
    ensures encoded { IfOk result (λ v. AreEncoded (elem kind.now) (count_of shape.now) v.items) }
{
    match shape {
        Shape::Null => null_bytes(alloc, tree),
        Shape::Scalar => read_nested(alloc, kind, &Dims::new(), tree),
        Shape::Simple { dims, .. } => read_nested(alloc, kind, dims, tree),
    }
}

/// The value of a shape without a cell.
fn null_bytes(alloc: Global, tree: &Value) -> Result<Vec<u8>, ValueFault>
    ensures gives { Gives (Fails ValueFault.NoMemory) (λ v. v.items) result
        (null_from (view tree.now)) }
    ensures spelled { IfOk result (λ v. (view tree.now ≡ null) × (v.items ≡ [])) }
{
    if tree.is_null() {
        Ok(Vec::new(alloc))
    } else {
        Err(ValueFault::NotOfType { place: 0 })
    }
}

/// The tree whose elements have these bytes, as the shape has it: the inverse of [`read_value`].
///
/// # Errors
///
/// Only where memory runs out.
pub fn write_value(
    alloc: Global,
    kind: &ElemType,
    shape: &Shape,
    bytes: &[u8],
) -> Result<Value, AllocError>
    requires sound { IsSoundType (elem kind.now) }
    requires encoded { AreEncoded (elem kind.now) (count_of shape.now) bytes.now }
    ensures tree { IfOk result (λ v. view v ≡ value_tree (elem kind.now) shape.now bytes.now) }
    ensures reads_back { IfOk result
        (λ v. value_from (elem kind.now) shape.now (view v) ≡ Ok bytes.now) }
    ensures inverse { (d : Data) → IsValue (elem kind.now) shape.now d bytes.now
        → IfOk result (λ v. view v ≡ value_normal (elem kind.now) shape.now d) }
{
    bytes_tree(alloc, kind, shape, bytes)
}

fn bytes_tree(
    alloc: Global,
    kind: &ElemType,
    shape: &Shape,
    bytes: &[u8],
) -> Result<Value, AllocError>
    requires sound { IsSoundType (elem kind.now) }
    requires encoded { AreEncoded (elem kind.now) (count_of shape.now) bytes.now }
    ensures { IfOk result (λ v. view v ≡ value_tree (elem kind.now) shape.now bytes.now) }
{
    match shape {
        Shape::Null => Ok(Value::Null),
        Shape::Scalar => write_nested(alloc, kind, &Dims::new(), bytes),
        Shape::Simple { dims, .. } => write_nested(alloc, kind, dims, bytes),
    }
}
