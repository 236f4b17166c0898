//! Reads and writes of cells with consecutive linear indices, stretch by stretch.

ghost use Rattle.std.specs.Prelude.{◌≡◌, ◌≤◌, ◌<◌, ◌+◌, ◌*◌, ◌-◌, ◌%◌, ℕ, List, length, min, IfOk, OnOk};
ghost use Rattle.std.specs.List.{flat_map};
ghost use Rattle.shapes.specs.RowMajor.{IsInside, cell_count};
ghost use Rattle.shapes.specs.Shapes.{IsSound, count_of, dims_of};
ghost use Rattle.chunk_layout.specs.Chunks.{IsChunk};
ghost use Rattle.chunk_store.specs.Buffers.{AreFull, AreThere, ChunkMap, IsFrame, IsGrown, IsUndoneBy, IsWritten, bytes_at};
ghost use Rattle.chunk_store.specs.Changes.{KeepsListed};
ghost use Rattle.chunk_store.specs.Picked.{cells_from};
ghost use Rattle.chunk_store.specs.Stretches.{IsStretch, row_left};

use crate::buffers::{Chunks, Frame, add_chunk};
use crate::changes::Changes;
use crate::stretches::{Stretch, read_stretch, write_stretch};
use chunk_layout::{Layout, chunk_of, offset_in};
use shapes::{Dims, Shape, coords_at};
use std::alloc::{AllocError, Global};

/// The elements of `many` cells from a linear index on, one after another.
pub(crate) fn read_places(
    alloc: Global,
    chunks: &Chunks,
    frame: &Frame,
    shape: &Shape,
    from: u64,
    many: u64,
) -> Result<Vec<u8>, AllocError>
    requires frame { IsFrame frame.now }
    requires full { AreFull chunks.now frame.now }
    requires sound { IsSound shape.now }
    requires rank { length frame.now.layout.chunk ≡ length (dims_of shape.now) }
    requires inside { from + many ≤ count_of shape.now }
    ensures { IfOk result (λ v. v.items
        ≡ flat_map (bytes_at chunks.now frame.now) (cells_from from many shape.now)) }
{
    let mut out = Vec::with_capacity(alloc, many.saturating_mul(frame.size as u64) as usize)?;
    let mut done = 0;
    while done < many {
        let stretch = stretch_at(&frame.layout, shape, from + done, many - done);
        read_stretch(&mut out, chunks, frame, &stretch)?;
        done += stretch.len;
    }
    Ok(out)
}

/// Holds each chunk of `many` cells from a linear index on.
pub(crate) fn grow_places(
    alloc: Global,
    chunks: &mut Chunks,
    changes: &mut Changes,
    frame: &Frame,
    shape: &Shape,
    from: u64,
    many: u64,
) -> Result<(), AllocError>
    requires frame { IsFrame frame.now }
    requires full { AreFull chunks.old frame.now }
    requires sound { IsSound shape.now }
    requires rank { length frame.now.layout.chunk ≡ length (dims_of shape.now) }
    requires inside { from + many ≤ count_of shape.now }
    ensures grown { OnOk result (IsGrown chunks.old chunks.new frame.now (cells_from from many shape.now)) }
    ensures undone { (before : ChunkMap)
        → IsUndoneBy changes.old.added.items before chunks.old
        → IsUndoneBy changes.new.added.items before chunks.new }
    ensures keeps { KeepsListed changes.old changes.new }
    ensures listed { OnOk result (AreThere changes.new.listed frame.now
        (cells_from from many shape.now)) }
    ensures there { OnOk result (AreThere chunks.new frame.now (cells_from from many shape.now)) }
{
    let mut done = 0;
    while done < many {
        let stretch = stretch_at(&frame.layout, shape, from + done, many - done);
        add_chunk(alloc, chunks, changes, frame, &stretch.index)?;
        done += stretch.len;
    }
    Ok(())
}

/// Writes elements into `many` cells from a linear index on, whose chunks are all held, and takes
/// these as dirty.
pub(crate) fn write_places(
    chunks: &mut Chunks,
    frame: &Frame,
    shape: &Shape,
    from: u64,
    many: u64,
    bytes: &[u8],
)
    requires frame { IsFrame frame.now }
    requires full { AreFull chunks.old frame.now }
    requires sound { IsSound shape.now }
    requires rank { length frame.now.layout.chunk ≡ length (dims_of shape.now) }
    requires inside { from + many ≤ count_of shape.now }
    requires bytes { length bytes.now ≡ many * frame.now.size }
    requires there { AreThere chunks.old frame.now (cells_from from many shape.now) }
    ensures { IsWritten chunks.old chunks.new frame.now (cells_from from many shape.now) bytes.now }
{
    let mut rest = bytes;
    let mut done = 0;
    while done < many {
        let stretch = stretch_at(&frame.layout, shape, from + done, many - done);
        let (front, back) = rest.split_at(stretch.len as usize * frame.size);
        write_stretch(chunks, frame, &stretch, front);
        rest = back;
        done += stretch.len;
    }
}

/// Of the cells from a linear index on, at most `left`, those that stay in one row of the shape and
/// of a chunk.
fn stretch_at(layout: &Layout, shape: &Shape, linear_index: u64, left: u64) -> Stretch
    requires chunk { IsChunk layout.now.chunk }
    requires sound { IsSound shape.now }
    requires rank { length layout.now.chunk ≡ length (dims_of shape.now) }
    requires some { 1 ≤ left }
    requires inside { linear_index + left ≤ count_of shape.now }
    ensures few { result.len ≤ left }
    ensures room { result.offset + result.len ≤ cell_count layout.now.chunk }
    ensures cells { IsStretch layout.now.chunk result
        (cells_from linear_index result.len shape.now) }
{
    let at = coords_at(shape, linear_index);
    Stretch {
        index: chunk_of(layout, &at),
        offset: offset_in(layout, &at),
        len: in_row(&at, &shape.dims(), &layout.chunk).min(left),
    }
}

/// How many cells from this one on stay in one row of the shape and of a chunk.
fn in_row(at: &Dims, dims: &Dims, chunk: &Dims) -> u64
    requires inside { IsInside at.now dims.now }
    requires rank { length chunk.now ≡ length dims.now }
    requires chunk { IsChunk chunk.now }
    ensures { result ≡ row_left at.now dims.now chunk.now }
{
    if at.is_empty() {
        return 1;
    }
    let last = at.len() - 1;
    let x = at.get(last);
    let n = chunk.get(last);
    (dims.get(last) - x).min(n - x % n)
}
