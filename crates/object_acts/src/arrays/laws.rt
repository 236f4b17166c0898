//! What holds of reads and writes, in other words than the definitions.

ghost use Rattle.std.specs.Prelude.{◌≡◌, ◌↔◌, ◌<◌, ◌≤◌, ℕ, List, [], ◌∷◌, length};
ghost use Rattle.std.specs.Prelude.{Option, Ok, Err, codes};
ghost use Rattle.serde_json.specs.Data.{Data};
ghost use Rattle.hdf_values.specs.declared.faults.ValueFault.{ValueFault};
ghost use Rattle.hdf_values.specs.Lowest.{IsFirstFault};
ghost use Rattle.hdf_values.specs.Nested.{FitsNested, nested_bytes, nested_normal};
ghost use Rattle.json_trees.specs.Trees.{AreTexts};
ghost use Rattle.hyperslab.specs.declared.Slab.{Slab};
ghost use Rattle.hyperslab.specs.Judged.{lists_slab};
ghost use Rattle.hyperslab.specs.Selected.{IsSlab, SlabIn, extents};
ghost use Rattle.point_select.specs.Points.{SpellsPoints};
ghost use Rattle.chunk_store.specs.Grids.{Grid, IsWhole, writes};
ghost use Rattle.chunk_store.specs.Listed.{IsOnce};
ghost use Rattle.object_ops.specs.declared.ops.Part.{Part};
ghost use Rattle.object_ops.specs.declared.ops.Part.TheVariants as part;
ghost use Rattle.object_ops.specs.declared.refusals.Refusal.{Refusal};
ghost use Rattle.object_ops.specs.declared.refusals.Refusal.TheVariants.{TooMany};
ghost use Rattle.object_ops.specs.declared.replies.Reply.TheVariants.{Done, Refused};
ghost use Rattle.object_ops.specs.Replies.{nothing, only};
ghost use Rattle.point_select.specs.declared.TheConstants.{MAX_POINTS};
ghost use Rattle.hyperslab.specs.declared.TheConstants.{MAX_SELECTED};
ghost use Rattle.object_acts.specs.declared.arrays.TheConstants.{MAX_BYTES, MAX_NEW_BYTES};
ghost use Rattle.object_acts.specs.Arrays.Faults.{most_points, most_elements, most_bytes, value_refusal};
ghost use Rattle.object_acts.specs.Arrays.Faults.{most_new_bytes};
ghost use Rattle.object_acts.specs.Arrays.Arrays.{bytes_for, points_read, selected_by, value_read};
ghost use Rattle.object_acts.specs.Arrays.Arrays.{value_written, shape_changed};
ghost use Rattle.object_acts.specs.Arrays.Writes.{CanWrite, Region, region_of};

use hdf_values::{first_fault_is_told, nested_or_fault};
use point_select::points_or_fault;

/// A value that was written by lists, and is read by a text that selects the same, comes back without the filling of
/// its texts.
pub fn written_reads_back()
    ensures { (g : Grid) (s : Slab) (start stop step : Option Data) (select : Option (List ℕ))
        (d : Data) → IsWhole g → IsSlab s → SlabIn s g.shape
        → lists_slab g.shape start stop step ≡ Ok s → selected_by select g.shape ≡ Ok s
        → FitsNested g.kind (extents s) d
        → (value_written (part.Slab start stop step) d g).0 ≡ Done 200 nothing
        → value_read select (value_written (part.Slab start stop step) d g).1
        ≡ Done 200 (only (codes "value") (nested_normal g.kind (extents s) d)) }
{}

/// A value that was written at points, of which no two are the same, comes back at these points without the filling of its
/// texts.
pub fn points_read_back()
    ensures { (g : Grid) (points d : Data) (ps : List (List ℕ)) → IsWhole g
        → SpellsPoints points g.shape ps → IsOnce ps
        → FitsNested g.kind (length ps ∷ []) d
        → (value_written (part.Points points) d g).0 ≡ Done 200 nothing
        → points_read points (value_written (part.Points points) d g).1
        ≡ Done 200 (only (codes "value") (nested_normal g.kind (length ps ∷ []) d)) }
{
    points_or_fault();
}

/// When a value is written, and why not. What is wrong with the part comes first, then too many bytes, and then the first
/// fault of the value, whose texts are UTF-8, as those of each [`serde_json::Value`] are.
pub fn writes_done_or_refused()
    ensures done { (g : Grid) (part : Part) (d : Data) → AreTexts d
        → (((value_written part d g).0 ≡ Done 200 nothing) ↔ CanWrite g part d) }
    ensures left { (g : Grid) (part : Part) (d : Data) (can : CanWrite g part d)
        → (value_written part d g).1
        ≡ writes g can.region.cells (nested_bytes g.kind can.region.extents d) }
    ensures select { (g : Grid) (part : Part) (d : Data) (refusal : Refusal)
        → region_of part g.shape ≡ Err refusal → (value_written part d g).0 ≡ Refused refusal }
    ensures bytes { (g : Grid) (part : Part) (d : Data) (region : Region)
        → region_of part g.shape ≡ Ok region → most_bytes < bytes_for g (length region.cells)
        → (value_written part d g).0
        ≡ Refused (TooMany (bytes_for g (length region.cells)) most_bytes) }
    ensures value { (g : Grid) (part : Part) (d : Data) (region : Region) (fault : ValueFault)
        → region_of part g.shape ≡ Ok region → bytes_for g (length region.cells) ≤ most_bytes
        → IsFirstFault g.kind region.extents 0 d fault
        → (value_written part d g).0 ≡ Refused (value_refusal fault) }
{
    nested_or_fault();
    first_fault_is_told();
}

/// A refused request leaves the array.
pub fn refusals_leave_the_array()
    ensures value { (g : Grid) (part : Part) (d : Data) (refusal : Refusal)
        → (value_written part d g).0 ≡ Refused refusal → (value_written part d g).1 ≡ g }
    ensures dims { (g : Grid) (dims : List ℕ) (refusal : Refusal)
        → (shape_changed dims g).0 ≡ Refused refusal → (shape_changed dims g).1 ≡ g }
{}

/// The limits of one request as numbers.
pub fn limits()
    ensures points { (most_points ≡ 65536) × (MAX_POINTS ≡ 65536) }
    ensures elements { (most_elements ≡ 1048576) × (MAX_SELECTED ≡ 1048576) }
    ensures bytes { (most_bytes ≡ 8388608) × (MAX_BYTES ≡ 8388608) }
    ensures new { (most_new_bytes ≡ 268435456) × (MAX_NEW_BYTES ≡ 268435456) }
{}
