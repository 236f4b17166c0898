//! What requests write to an array.

ghost use Rattle.std.specs.Prelude.{◌≡◌, ◌≤◌, ℕ, List, All, IfOk, nat_le, true};
ghost use Rattle.json_trees.specs.Faults.{Gives};
ghost use Rattle.shapes.specs.RowMajor.{cell_count};
ghost use Rattle.shapes.specs.declared.TheConstants.{MAX_EXTENT};
ghost use Rattle.hyperslab.specs.declared.TheConstants.{MAX_SELECTED};
ghost use Rattle.hyperslab.specs.Judged.{lists_slab};
ghost use Rattle.hyperslab.specs.Selected.{IsSlab, SlabIn, extents as extents_of, slab_cells};
ghost use Rattle.hdf_values.specs.Nested.{AreEncoded};
ghost use Rattle.point_select.specs.Faults.{points_of};
ghost use Rattle.chunk_store.specs.Marks.{IsTracked, touches};
ghost use Rattle.object_ops.specs.Replies.{Follows, was_done};
ghost use Rattle.object_acts.specs.Arrays.Stops.{IfTooMany, Tells, settled};
ghost use Rattle.object_acts.specs.Arrays.Arrays.{bytes_read, tree_written, slab_written, points_written};
ghost use Rattle.object_acts.specs.Arrays.Arrays.{value_written, shape_changed};
ghost use Rattle.object_acts.specs.Arrays.Marked.{AddsFew, AddsMany, IsDone, MarksAlone, cells_in};
ghost use Rattle.object_acts.specs.Arrays.Marked.{chunk_bytes, is_truncated, is_written, selected};
ghost use Rattle.object_acts.specs.Arrays.Faults.{most_new_bytes};
ghost use Rattle.object_acts.specs.Arrays.Writes.{points_region, slab_region};

use crate::arrays::bytes::{bytes_of, too_many_bytes};
use crate::arrays::faults::{Stop, refused_dims, refused_slab, settle};
use crate::arrays::{MAX_BYTES, MAX_NEW_BYTES};
use crate::fault::ChangeFault;
use chunk_store::Array;
use hdf_values::KeptValue;
use hyperslab::{Slab, from_lists};
use json_trees::KeptList;
use object_ops::{Part, Reply};
use point_select::read_points;
use shapes::{Dims, KeptDims, resized};
use std::alloc::Global;

/// Other elements in a part of an array: a tree nested by how many numbers are selected on each axis, or a list with
/// one element for each point, of which the last of a repeated point counts. The reply is refused, and nothing is
/// written, where the part is none of the array, where its elements have more than [`MAX_BYTES`] bytes, and where the
/// tree isn't a value for it.
///
/// # Errors
///
/// `TooManyNew` exactly where the write is refused for nothing and the chunks that it adds have more than
/// [`MAX_NEW_BYTES`] bytes, or `NoMemory`; then the array is as it was.
pub fn write_value(
    alloc: Global,
    array: &mut Array,
    part: &Part,
    value: &KeptValue,
) -> Result<Reply, ChangeFault>
    ensures acts { Follows (value_written part.now value.now array.old.grid) array.old.grid
        result array.new.grid }
    ensures tracked { (held : List ℕ → List ℕ) → IsTracked held array.old
        → IsTracked held array.new }
    ensures alone { MarksAlone (λ i. IsDone result
        × (is_written part.now array.old.grid i ≡ true)) array.old array.new }
    ensures few { IsDone result → AddsFew array.old (selected part.now array.old.grid.shape) }
    ensures many { IfTooMany result (AddsMany array.old (selected part.now array.old.grid.shape)) }
    ensures judged { IfTooMany result
        (was_done (value_written part.now value.now array.old.grid).0 ≡ true) }
{
    match part {
        Part::Slab { start, stop, step } => write_lists(alloc, array, start, stop, step, value),
        Part::Points { points } => settle(write_points(alloc, array, points, value)),
    }
}

/// Other dims for an array, under its own limits: a cell that both have keeps its element. The reply is refused, and
/// the array stays, where the array has no axis, where they are more or fewer than its axes, where one is over its
/// limit, and where there would be too many cells. It takes no memory.
pub fn change_shape(array: &mut Array, alloc: Global, dims: &Dims) -> Reply
    requires { All (λ n. n ≤ MAX_EXTENT) dims.now }
    ensures acts { (result, array.new.grid) ≡ shape_changed dims.now array.old.grid }
    ensures tracked { (held : List ℕ → List ℕ) → IsTracked held array.old
        → IsTracked held array.new }
    ensures alone { MarksAlone (λ i. (was_done result ≡ true)
        × (is_truncated dims.now array.old.grid i ≡ true)) array.old array.new }
{
    match resized(array.shape(), dims) {
        Ok(_) => {
            array.resize(dims);
            Reply::done(alloc, 201)
        }
        Err(fault) => Reply::Refused(refused_dims(fault)),
    }
}

fn write_lists(
    alloc: Global,
    array: &mut Array,
    start: &Option<KeptDims>,
    stop: &Option<KeptDims>,
    step: &Option<KeptDims>,
    value: &KeptValue,
) -> Result<Reply, ChangeFault>
    ensures acts { Follows (slab_written array.old.grid value.now
        (lists_slab array.old.grid.shape start.now stop.now step.now))
        array.old.grid result array.new.grid }
    ensures tracked { (held : List ℕ → List ℕ) → IsTracked held array.old
        → IsTracked held array.new }
    ensures alone { MarksAlone (λ i. IsDone result × (touches array.old.grid.chunk
        (cells_in (slab_region array.old.grid.shape (lists_slab array.old.grid.shape
        start.now stop.now step.now))) i ≡ true)) array.old array.new }
    ensures few { IsDone result → AddsFew array.old (cells_in (slab_region array.old.grid.shape
        (lists_slab array.old.grid.shape start.now stop.now step.now))) }
    ensures many { IfTooMany result (AddsMany array.old (cells_in (slab_region array.old.grid.shape
        (lists_slab array.old.grid.shape start.now stop.now step.now)))) }
    ensures judged { IfTooMany result (was_done (slab_written array.old.grid value.now
        (lists_slab array.old.grid.shape start.now stop.now step.now)).0 ≡ true) }
{
    array.is_whole();
    match from_lists(start, stop, step, array.shape()) {
        Ok(slab) => settle(write_slab(alloc, array, &slab, value)),
        Err(fault) => Ok(Reply::Refused(refused_slab(fault))),
    }
}

fn write_slab(
    alloc: Global,
    array: &mut Array,
    slab: &Slab,
    value: &KeptValue,
) -> Result<Reply, Stop>
    requires slab { IsSlab slab.now }
    requires inside { SlabIn slab.now array.old.grid.shape }
    ensures acts { Follows (tree_written array.old.grid
        (slab_cells slab.now array.old.grid.shape) (extents_of slab.now) value.now)
        array.old.grid (settled result) array.new.grid }
    ensures tracked { (held : List ℕ → List ℕ) → IsTracked held array.old
        → IsTracked held array.new }
    ensures alone { MarksAlone (λ i. IsDone (settled result) × (touches array.old.grid.chunk
        (slab_cells slab.now array.old.grid.shape) i ≡ true)) array.old array.new }
    ensures few { IsDone (settled result) → AddsFew array.old
        (slab_cells slab.now array.old.grid.shape) }
    ensures many { IfTooMany (settled result) (AddsMany array.old
        (slab_cells slab.now array.old.grid.shape)) }
    ensures judged { IfTooMany (settled result) (was_done (tree_written array.old.grid
        (slab_cells slab.now array.old.grid.shape) (extents_of slab.now) value.now).0
        ≡ true) }
{
    let bytes = elements(alloc, array, slab.count(), &slab.extents(), value)?;
    let new = array.slab_adds(alloc, slab)?;
    if !are_few(array, new) {
        return Err(Stop::TooManyNew);
    }
    array.write_slab(alloc, slab, bytes.as_slice())?;
    Ok(Reply::done(alloc, 200))
}

fn write_points(
    alloc: Global,
    array: &mut Array,
    points: &KeptList,
    value: &KeptValue,
) -> Result<Reply, Stop>
    ensures acts { Follows (points_written array.old.grid value.now
        (points_of points.now array.old.grid.shape))
        array.old.grid (settled result) array.new.grid }
    ensures tracked { (held : List ℕ → List ℕ) → IsTracked held array.old
        → IsTracked held array.new }
    ensures alone { MarksAlone (λ i. IsDone (settled result) × (touches array.old.grid.chunk
        (cells_in (points_region (points_of points.now array.old.grid.shape))) i ≡ true))
        array.old array.new }
    ensures few { IsDone (settled result) → AddsFew array.old
        (cells_in (points_region (points_of points.now array.old.grid.shape))) }
    ensures many { IfTooMany (settled result) (AddsMany array.old
        (cells_in (points_region (points_of points.now array.old.grid.shape)))) }
    ensures judged { IfTooMany (settled result) (was_done (points_written array.old.grid
        value.now (points_of points.now array.old.grid.shape)).0 ≡ true) }
{
    let points = read_points(alloc, points, array.shape())?;
    let many = points.len() as u64;
    let bytes = elements(alloc, array, many, &Dims::repeated(many, 1), value)?;
    let new = array.points_add(alloc, &points)?;
    if !are_few(array, new) {
        return Err(Stop::TooManyNew);
    }
    array.write_points(alloc, &points, bytes.as_slice())?;
    Ok(Reply::done(alloc, 200))
}

/// Whether so many chunks of an array have at most [`MAX_NEW_BYTES`] bytes.
fn are_few(array: &Array, many: u64) -> bool
    ensures { result ≡ nat_le (chunk_bytes array.now.grid many) most_new_bytes }
{
    many.saturating_mul(array.chunk_size()) <= MAX_NEW_BYTES
}

/// The bytes of the elements of a tree for so many cells of an array.
fn elements(
    alloc: Global,
    array: &Array,
    many: u64,
    extents: &Dims,
    value: &KeptValue,
) -> Result<Vec<u8>, Stop>
    requires few { many ≤ MAX_SELECTED }
    ensures read { Gives Tells (λ v. v.items) result
        (bytes_read array.now.grid many extents.now value.now) }
    ensures encoded { IfOk result
        (λ v. AreEncoded array.now.grid.kind (cell_count extents.now) v.items) }
{
    array.is_whole();
    let bytes = bytes_of(array, many);
    if bytes > MAX_BYTES {
        return Err(Stop::Refused(too_many_bytes(bytes)));
    }
    Ok(value.elements(alloc, array.elem(), extents)?)
}
