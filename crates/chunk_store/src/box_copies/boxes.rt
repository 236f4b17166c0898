//! What stands in a box is read, filled in or written for the selected cells that lie there.

ghost use Rattle.std.specs.Prelude.{◌≡◌, ◌≤◌, ◌*◌, length};
ghost use Rattle.shapes.specs.RowMajor.{cell_count};
ghost use Rattle.hyperslab.specs.Selected.{extents};
ghost use Rattle.chunk_store.specs.BoxCopies.Boxes.{AreFilled, AreRead, AreWritten, IsBox};

use crate::box_copies::moves::{Way, copy_runs};
use hyperslab::Slab;
use shapes::Dims;

/// Copies the elements of the selected cells in a box from the box's bytes to the selection's.
pub fn read_box(
    out: &mut [u8],
    buffer: &[u8],
    slab: &Slab,
    origin: &Dims,
    chunk: &Dims,
    size: usize,
)
    requires size { 1 ≤ size }
    requires inside { IsBox slab.now origin.now chunk.now }
    requires out { length out.old ≡ cell_count (extents slab.now) * size }
    requires buffer { length buffer.now ≡ cell_count chunk.now * size }
    ensures read { AreRead slab.now origin.now chunk.now size buffer.now out.old out.new }
    ensures len { length out.new ≡ length out.old }
{
    copy_runs(out, buffer, slab.runs_in(origin, chunk), size, Way::Read);
}

/// Puts one element in the selection's bytes for each selected cell in a box.
pub fn fill_box(out: &mut [u8], blank: &[u8], slab: &Slab, origin: &Dims, chunk: &Dims, size: usize)
    requires size { 1 ≤ size }
    requires inside { IsBox slab.now origin.now chunk.now }
    requires out { length out.old ≡ cell_count (extents slab.now) * size }
    requires blank { length blank.now ≡ size }
    ensures filled { AreFilled slab.now origin.now chunk.now size blank.now out.old out.new }
    ensures len { length out.new ≡ length out.old }
{
    copy_runs(out, blank, slab.runs_in(origin, chunk), size, Way::Fill);
}

/// Copies the elements of the selected cells in a box from the selection's bytes to the box's.
pub fn write_box(
    buffer: &mut [u8],
    bytes: &[u8],
    slab: &Slab,
    origin: &Dims,
    chunk: &Dims,
    size: usize,
)
    requires size { 1 ≤ size }
    requires inside { IsBox slab.now origin.now chunk.now }
    requires bytes { length bytes.now ≡ cell_count (extents slab.now) * size }
    requires buffer { length buffer.old ≡ cell_count chunk.now * size }
    ensures written { AreWritten slab.now origin.now chunk.now size bytes.now buffer.old buffer.new }
    ensures len { length buffer.new ≡ length buffer.old }
{
    copy_runs(buffer, bytes, slab.runs_in(origin, chunk), size, Way::Write);
}
