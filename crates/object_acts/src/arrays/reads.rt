//! What requests read of an array.

ghost use Rattle.std.specs.Prelude.{◌≡◌, All, Ok, IfOk, codes, option_map};
ghost use Rattle.shapes.specs.Shapes.{IsSound, LiesIn};
ghost use Rattle.hyperslab.specs.Selected.{IsSlab, SlabIn, extents, slab_cells};
ghost use Rattle.hdf_values.specs.Nested.{nested_decoded};
ghost use Rattle.chunk_store.specs.Grids.{reads};
ghost use Rattle.object_ops.specs.Replies.{only};
ghost use Rattle.object_ops.specs.declared.replies.Reply.TheVariants.{Done};
ghost use Rattle.object_acts.specs.Arrays.Stops.{settled};
ghost use Rattle.object_acts.specs.Arrays.Arrays.{part_read, selected_by, value_read};
ghost use Rattle.object_acts.specs.Arrays.Arrays.{points_tree, points_read_in, points_read, shape_read, type_read};

use crate::arrays::MAX_BYTES;
use crate::arrays::bytes::{bytes_of, too_many_bytes};
use crate::arrays::faults::{Stop, refused_slab, settle};
use chunk_store::Array;
use hdf_types::type_json;
use hyperslab::{Slab, SlabFault, read_select, whole};
use json_trees::KeptList;
use object_ops::{Reply, SelectText};
use point_select::Points;
use serde_json::Value;
use shapes::{Dims, Form, Shape, shape_json};
use std::alloc::{AllocError, Global};

/// The selected elements of an array, nested by how many numbers are selected on each axis; all elements where no
/// selection is given, and null where the shape is null. The reply is refused where the text is no selection of the
/// array's shape, or selects more than [`hyperslab::MAX_SELECTED`] elements or [`MAX_BYTES`] bytes.
///
/// # Errors
///
/// Only where memory runs out.
pub fn read_value(
    alloc: Global,
    array: &Array,
    select: Option<&SelectText>,
) -> Result<Reply, AllocError>
    ensures { IfOk result
        (λ r. r ≡ value_read (option_map (λ t. t.now) select.entry) array.now.grid) }
{
    array.is_whole();
    match selection(array.shape(), select) {
        Ok(slab) => part_reply(alloc, array, &slab),
        Err(fault) => Ok(Reply::Refused(refused_slab(fault))),
    }
}

/// The elements of an array at points, a list with one for each point. The reply is refused where the tree spells no
/// points of the array, or more than [`point_select::MAX_POINTS`], or where the elements have more than [`MAX_BYTES`]
/// bytes.
///
/// # Errors
///
/// Only where memory runs out.
pub fn read_points(alloc: Global, array: &Array, points: &KeptList) -> Result<Reply, AllocError>
    ensures { IfOk result (λ r. r ≡ points_read points.now array.now.grid) }
{
    Ok(settle(points_reply(alloc, array, points))?)
}

/// The shape of an array.
///
/// # Errors
///
/// Only where memory runs out.
pub fn read_shape(alloc: Global, array: &Array) -> Result<Reply, AllocError>
    ensures { IfOk result (λ r. r ≡ shape_read array.now.grid) }
{
    let tree = shape_json(alloc, array.shape(), Form::Rest)?;
    Reply::keyed(alloc, 200, "shape", tree)
}

/// The type of an array's elements.
///
/// # Errors
///
/// Only where memory runs out.
pub fn read_type(alloc: Global, array: &Array) -> Result<Reply, AllocError>
    ensures { IfOk result (λ r. r ≡ type_read array.now.grid) }
{
    let tree = type_json(alloc, array.elem())?;
    Reply::keyed(alloc, 200, "type", tree)
}

/// What a text selects of a shape; no text selects all cells.
fn selection(shape: &Shape, select: Option<&SelectText>) -> Result<Slab, SlabFault>
    requires { IsSound shape.now }
    ensures first { result ≡ selected_by (option_map (λ t. t.now) select.entry) shape.now }
    ensures within { IfOk result (λ s. SlabIn s shape.now) }
    ensures sound { IfOk result IsSlab }
{
    match select {
        None => whole(shape),
        Some(select) => read_select(select.text(), shape),
    }
}

fn part_reply(alloc: Global, array: &Array, slab: &Slab) -> Result<Reply, AllocError>
    requires slab { IsSlab slab.now }
    requires inside { SlabIn slab.now array.now.grid.shape }
    ensures { IfOk result (λ r. r ≡ part_read array.now.grid (Ok slab.now)) }
{
    let bytes = bytes_of(array, slab.count());
    if bytes > MAX_BYTES {
        return Ok(Reply::Refused(too_many_bytes(bytes)));
    }
    match array.shape() {
        Shape::Null => Reply::keyed(alloc, 200, "value", Value::Null),
        Shape::Scalar => cells_reply(alloc, array, slab),
        Shape::Simple { .. } => cells_reply(alloc, array, slab),
    }
}

fn cells_reply(alloc: Global, array: &Array, slab: &Slab) -> Result<Reply, AllocError>
    requires slab { IsSlab slab.now }
    requires inside { SlabIn slab.now array.now.grid.shape }
    ensures { IfOk result (λ r. r ≡ Done 200 (only (codes "value")
        (nested_decoded array.now.grid.kind (extents slab.now)
        (reads array.now.grid (slab_cells slab.now array.now.grid.shape))))) }
{
    array.is_whole();
    let kind = array.elem().copy(alloc)?;
    let bytes = array.read_slab(alloc, slab)?;
    Ok(Reply::cells(kind, slab.extents(), bytes))
}

fn points_reply(alloc: Global, array: &Array, points: &KeptList) -> Result<Reply, Stop>
    ensures { IfOk (settled result) (λ r. r ≡ points_read points.now array.now.grid) }
{
    let points = point_select::read_points(alloc, points, array.shape())?;
    Ok(elements_reply(alloc, array, &points)?)
}

fn elements_reply(alloc: Global, array: &Array, points: &Points) -> Result<Reply, AllocError>
    requires { All (λ at. LiesIn at array.now.grid.shape) points.now }
    ensures { IfOk result (λ r. r ≡ points_read_in array.now.grid (Ok points.now)) }
{
    let bytes = bytes_of(array, points.len() as u64);
    if bytes > MAX_BYTES {
        return Ok(Reply::Refused(too_many_bytes(bytes)));
    }
    cells_at(alloc, array, points)
}

fn cells_at(alloc: Global, array: &Array, points: &Points) -> Result<Reply, AllocError>
    requires { All (λ at. LiesIn at array.now.grid.shape) points.now }
    ensures { IfOk result (λ r. r
        ≡ Done 200 (only (codes "value") (points_tree array.now.grid points.now))) }
{
    array.is_whole();
    let extents = Dims::repeated(points.len() as u64, 1);
    let kind = array.elem().copy(alloc)?;
    let bytes = array.read_points(alloc, points)?;
    Ok(Reply::cells(kind, extents, bytes))
}
