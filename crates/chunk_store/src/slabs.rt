//! Reads and writes of a selection's cells, chunk by chunk and run by run.

ghost use Rattle.std.specs.Prelude.{◌≡◌, ◌*◌, ℕ, List, length, true, IfOk, IsTrue, OnOk};
ghost use Rattle.std.specs.List.{flat_map};
ghost use Rattle.shapes.specs.RowMajor.{cell_count};
ghost use Rattle.chunk_layout.specs.Chunks.{IsChunk, corner};
ghost use Rattle.hyperslab.specs.Selected.{IsSlab, FitsIn, extents, selected};
ghost use Rattle.chunk_store.specs.BoxCopies.Boxes.{AreWritten, IsBox};
ghost use Rattle.chunk_store.specs.Buffers.{AreFull, AreThere, ChunkMap, IsFrame, IsGrown, IsUndoneBy, IsWritten, bytes_at, chunk_bytes};
ghost use Rattle.chunk_store.specs.Changes.{KeepsListed};
ghost use Rattle.chunk_store.specs.Cells.{has};
ghost use Rattle.chunk_store.specs.Indexes.{IsIndex};
ghost use Rattle.chunk_store.specs.Slabs.{AreReady, IsChunkRead, IsChunkWritten};

use crate::box_copies::{fill_box, read_box, write_box};
use crate::buffers::{Chunks, Frame, Held, add_chunk, are_zero};
use crate::changes::Changes;
use crate::touched::Touched;
use hyperslab::Slab;
use shapes::Dims;
use std::alloc::{AllocError, Global};

/// The elements of selected cells, one after another.
pub(crate) fn read_slab(
    alloc: Global,
    chunks: &Chunks,
    frame: &Frame,
    slab: &Slab,
) -> Result<Vec<u8>, AllocError>
    requires frame { IsFrame frame.now }
    requires full { AreFull chunks.now frame.now }
    requires slab { IsSlab slab.now }
    requires rank { length frame.now.layout.chunk ≡ length slab.now.start }
    ensures { IfOk result (λ v. (dims : List ℕ) → FitsIn slab.now dims
        → v.items ≡ flat_map (bytes_at chunks.now frame.now) (selected slab.now dims)) }
{
    let mut out = vec![in alloc; 0; slab.count() as usize * frame.size]?;
    let ready = are_zero(frame.blank.as_slice());
    let touched = Touched::new(slab, &frame.layout.chunk);
    for number in 0..touched.many() {
        let index = touched.index(number);
        read_chunk(out.as_mut_slice(), chunks, frame, slab, &index, ready);
    }
    Ok(out)
}

/// Puts the elements of the selected cells of a chunk in their places. Where these are ready, the
/// cells of a chunk that isn't held stand there already.
fn read_chunk(
    out: &mut [u8],
    chunks: &Chunks,
    frame: &Frame,
    slab: &Slab,
    index: &Dims,
    ready: bool,
)
    requires frame { IsFrame frame.now }
    requires full { AreFull chunks.now frame.now }
    requires slab { IsSlab slab.now }
    requires rank { length frame.now.layout.chunk ≡ length slab.now.start }
    requires index { IsIndex frame.now.layout.chunk index.now }
    requires out { length out.old ≡ cell_count (extents slab.now) * frame.now.size }
    requires ready { IsTrue ready → AreReady chunks.now frame.now slab.now out.old }
    ensures read { IsChunkRead chunks.now frame.now slab.now index.now out.old out.new }
    ensures len { length out.new ≡ length out.old }
{
    let chunk = &frame.layout.chunk;
    let origin = first_cell(chunk, index);
    match chunks.get(index) {
        Some(held) => read_box(out, held.bytes.as_slice(), slab, &origin, chunk, frame.size),
        None => {
            if !ready {
                let blank = frame.blank.as_slice();
                fill_box(out, blank, slab, &origin, chunk, frame.size);
            }
        }
    }
}

/// The first cell of a chunk.
fn first_cell(chunk: &Dims, index: &Dims) -> Dims
    requires chunk { IsChunk chunk.now }
    requires index { IsIndex chunk.now index.now }
    ensures { result ≡ corner index.now chunk.now }
{
    let mut at = Dims::new();
    for axis in 0..index.len() {
        at.push(index.get(axis) * chunk.get(axis));
    }
    at
}

/// Holds each chunk that has a selected cell.
pub(crate) fn grow_slab(
    alloc: Global,
    chunks: &mut Chunks,
    changes: &mut Changes,
    frame: &Frame,
    slab: &Slab,
) -> Result<(), AllocError>
    requires frame { IsFrame frame.now }
    requires full { AreFull chunks.old frame.now }
    requires slab { IsSlab slab.now }
    requires rank { length frame.now.layout.chunk ≡ length slab.now.start }
    ensures grown { OnOk result ((dims : List ℕ) → FitsIn slab.now dims
        → IsGrown chunks.old chunks.new frame.now (selected slab.now dims)) }
    ensures undone { (before : ChunkMap)
        → IsUndoneBy changes.old.added.items before chunks.old
        → IsUndoneBy changes.new.added.items before chunks.new }
    ensures keeps { KeepsListed changes.old changes.new }
    ensures listed { OnOk result ((dims : List ℕ) → FitsIn slab.now dims
        → AreThere changes.new.listed frame.now (selected slab.now dims)) }
    ensures there { OnOk result ((dims : List ℕ) → FitsIn slab.now dims
        → AreThere chunks.new frame.now (selected slab.now dims)) }
{
    let touched = Touched::new(slab, &frame.layout.chunk);
    for number in 0..touched.many() {
        let index = touched.index(number);
        add_chunk(alloc, chunks, changes, frame, &index)?;
    }
    Ok(())
}

/// Writes elements into selected cells, whose chunks are all held, and takes these as dirty.
pub(crate) fn write_slab(chunks: &mut Chunks, frame: &Frame, slab: &Slab, bytes: &[u8])
    requires frame { IsFrame frame.now }
    requires full { AreFull chunks.old frame.now }
    requires slab { IsSlab slab.now }
    requires rank { length frame.now.layout.chunk ≡ length slab.now.start }
    requires bytes { length bytes.now ≡ cell_count (extents slab.now) * frame.now.size }
    requires there { (dims : List ℕ) → FitsIn slab.now dims
        → AreThere chunks.old frame.now (selected slab.now dims) }
    ensures { (dims : List ℕ) → FitsIn slab.now dims
        → IsWritten chunks.old chunks.new frame.now (selected slab.now dims) bytes.now }
{
    let touched = Touched::new(slab, &frame.layout.chunk);
    for number in 0..touched.many() {
        let index = touched.index(number);
        write_chunk(chunks, frame, slab, &index, bytes);
    }
}

/// Writes the selected cells of a chunk that is held, and takes it as dirty.
fn write_chunk(chunks: &mut Chunks, frame: &Frame, slab: &Slab, index: &Dims, bytes: &[u8])
    requires frame { IsFrame frame.now }
    requires full { AreFull chunks.old frame.now }
    requires slab { IsSlab slab.now }
    requires rank { length frame.now.layout.chunk ≡ length slab.now.start }
    requires index { IsIndex frame.now.layout.chunk index.now }
    requires bytes { length bytes.now ≡ cell_count (extents slab.now) * frame.now.size }
    requires there { has chunks.old index.now ≡ true }
    ensures { IsChunkWritten chunks.old chunks.new frame.now slab.now index.now bytes.now }
{
    let origin = first_cell(&frame.layout.chunk, index);
    let Some(held) = chunks.get_mut(index) else {
        unreachable!();
    };
    write_held(held, frame, slab, &origin, bytes);
}

fn write_held(held: &mut Held, frame: &Frame, slab: &Slab, origin: &Dims, bytes: &[u8])
    requires frame { IsFrame frame.now }
    requires inside { IsBox slab.now origin.now frame.now.layout.chunk }
    requires full { length held.old.bytes.items ≡ chunk_bytes frame.now }
    requires bytes { length bytes.now ≡ cell_count (extents slab.now) * frame.now.size }
    ensures written { AreWritten slab.now origin.now frame.now.layout.chunk frame.now.size
        bytes.now held.old.bytes.items held.new.bytes.items }
    ensures len { length held.new.bytes.items ≡ length held.old.bytes.items }
    ensures dirty { held.new.dirty ≡ true }
{
    let chunk = &frame.layout.chunk;
    write_box(
        held.bytes.as_mut_slice(),
        bytes,
        slab,
        origin,
        chunk,
        frame.size,
    );
    held.dirty = true;
}
