//! Reads and writes of points, one after another.

ghost use Rattle.std.specs.Prelude.{◌≡◌, ◌≤◌, ◌+◌, ◌*◌, [], ◌∷◌, All, ℕ, List, length, IfOk, OnOk};
ghost use Rattle.std.specs.List.{flat_map};
ghost use Rattle.shapes.specs.RowMajor.{cell_count};
ghost use Rattle.chunk_layout.specs.Chunks.{IsChunk};
ghost use Rattle.chunk_store.specs.Buffers.{AreFull, AreThere, ChunkMap, IsFrame, IsGrown, IsUndoneBy, IsWritten, bytes_at};
ghost use Rattle.chunk_store.specs.Changes.{KeepsListed};
ghost use Rattle.chunk_store.specs.Stretches.{IsStretch};

use crate::buffers::{Chunks, Frame, add_chunk, cell};
use crate::changes::Changes;
use crate::stretches::{Stretch, write_stretch};
use chunk_layout::{Layout, chunk_of, offset_in};
use shapes::Dims;
use std::alloc::{AllocError, Global};

/// The elements of cells, one after another.
pub(crate) fn read_points(
    alloc: Global,
    chunks: &Chunks,
    frame: &Frame,
    points: &[Dims],
) -> Result<Vec<u8>, AllocError>
    requires frame { IsFrame frame.now }
    requires full { AreFull chunks.now frame.now }
    requires ranks { All (λ at. length at ≡ length frame.now.layout.chunk) points.now }
    ensures { IfOk result (λ v. v.items ≡ flat_map (bytes_at chunks.now frame.now) points.now) }
{
    let mut out = Vec::new(alloc);
    for at in points {
        out.extend_from_slice(cell(chunks, frame, at))?;
    }
    Ok(out)
}

/// Holds the chunk of each cell.
pub(crate) fn grow_points(
    alloc: Global,
    chunks: &mut Chunks,
    changes: &mut Changes,
    frame: &Frame,
    points: &[Dims],
) -> Result<(), AllocError>
    requires frame { IsFrame frame.now }
    requires full { AreFull chunks.old frame.now }
    requires ranks { All (λ at. length at ≡ length frame.now.layout.chunk) points.now }
    ensures grown { OnOk result (IsGrown chunks.old chunks.new frame.now points.now) }
    ensures undone { (before : ChunkMap)
        → IsUndoneBy changes.old.added.items before chunks.old
        → IsUndoneBy changes.new.added.items before chunks.new }
    ensures keeps { KeepsListed changes.old changes.new }
    ensures listed { OnOk result (AreThere changes.new.listed frame.now points.now) }
    ensures there { OnOk result (AreThere chunks.new frame.now points.now) }
{
    for at in points {
        add_chunk(alloc, chunks, changes, frame, &chunk_of(&frame.layout, at))?;
    }
    Ok(())
}

/// Writes elements into cells, whose chunks are all held, and takes these as dirty. Where a cell
/// is repeated the last element counts.
pub(crate) fn write_points(chunks: &mut Chunks, frame: &Frame, points: &[Dims], bytes: &[u8])
    requires frame { IsFrame frame.now }
    requires full { AreFull chunks.old frame.now }
    requires ranks { All (λ at. length at ≡ length frame.now.layout.chunk) points.now }
    requires bytes { length bytes.now ≡ length points.now * frame.now.size }
    requires there { AreThere chunks.old frame.now points.now }
    ensures { IsWritten chunks.old chunks.new frame.now points.now bytes.now }
{
    let mut rest = bytes;
    for at in points {
        let (front, back) = rest.split_at(frame.size);
        write_stretch(chunks, frame, &stretch_of(&frame.layout, at), front);
        rest = back;
    }
}

/// The stretch of one cell.
fn stretch_of(layout: &Layout, at: &Dims) -> Stretch
    requires chunk { IsChunk layout.now.chunk }
    requires rank { length at.now ≡ length layout.now.chunk }
    ensures one { result.len ≡ 1 }
    ensures room { result.offset + result.len ≤ cell_count layout.now.chunk }
    ensures cell { IsStretch layout.now.chunk result (at.now ∷ []) }
{
    Stretch {
        index: chunk_of(layout, at),
        offset: offset_in(layout, at),
        len: 1,
    }
}
