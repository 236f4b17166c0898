//! Reads and writes of cells that follow one another in a chunk.

ghost use Rattle.std.specs.Prelude.{◌≡◌, ◌≤◌, ◌<◌, ◌+◌, ◌*◌, ◌⊎◌, ◌++◌, ℕ, List, true, length, OnOk};
ghost use Rattle.std.specs.List.{flat_map};
ghost use Rattle.hdf_values.specs.Nested.{piece_at, pieces_at};
ghost use Rattle.shapes.specs.RowMajor.{cell_count};
ghost use Rattle.chunk_store.specs.Buffers.{AreFull, IsFrame, IsWritten, bytes_at, chunk_bytes};
ghost use Rattle.chunk_store.specs.Cells.{has};
ghost use Rattle.chunk_store.specs.Stretches.{IsStretch};

use crate::buffers::{Chunks, Frame, Held};
use crate::strided_copies::{Strided, copy_strided};
use shapes::Dims;
use std::alloc::AllocError;

/// Cells of one chunk, of which each lies behind the one before.
#[derive(Clone, Copy)]
pub(crate) struct Stretch {
    /// The chunk.
    pub(crate) index: Dims,
    /// Where the first cell lies in it.
    pub(crate) offset: u64,
    /// How many cells there are.
    pub(crate) len: u64,
}

/// Adds the elements of the cells behind other bytes.
pub(crate) fn read_stretch(
    out: &mut Vec<u8>,
    chunks: &Chunks,
    frame: &Frame,
    stretch: &Stretch,
) -> Result<(), AllocError>
    requires frame { IsFrame frame.now }
    requires full { AreFull chunks.now frame.now }
    requires room { stretch.now.offset + stretch.now.len ≤ cell_count frame.now.layout.chunk }
    ensures { OnOk result ((ats : List (List ℕ))
        → IsStretch frame.now.layout.chunk stretch.now ats
        → out.new.items ≡ out.old.items ++ flat_map (bytes_at chunks.now frame.now) ats) }
{
    match chunks.get(&stretch.index) {
        Some(held) => out.extend_from_slice(elements(held, frame, stretch)),
        None => add_blanks(out, frame, stretch.len),
    }
}

/// The elements of the cells of a chunk that is held.
fn elements<'a>(held: &'a Held, frame: &Frame, stretch: &Stretch) -> &'a [u8]
    requires frame { IsFrame frame.now }
    requires full { length held.now.bytes.items ≡ chunk_bytes frame.now }
    requires room { stretch.now.offset + stretch.now.len ≤ cell_count frame.now.layout.chunk }
    ensures { result.now
        ≡ pieces_at frame.now.size stretch.now.offset stretch.now.len held.now.bytes.items }
{
    let start = stretch.offset as usize * frame.size;
    &held.bytes.as_slice()[start..start + stretch.len as usize * frame.size]
}

/// Adds so many elements, each the blank, behind other bytes.
fn add_blanks(out: &mut Vec<u8>, frame: &Frame, many: u64) -> Result<(), AllocError>
    ensures { OnOk result ((ats : List (List ℕ)) → length ats ≡ many
        → out.new.items ≡ out.old.items ++ flat_map (λ at. frame.now.blank.items) ats) }
{
    for _ in 0..many {
        out.extend_from_slice(frame.blank.as_slice())?;
    }
    Ok(())
}

/// Writes elements into the cells, whose chunk is held, and takes it as dirty.
pub(crate) fn write_stretch(chunks: &mut Chunks, frame: &Frame, stretch: &Stretch, bytes: &[u8])
    requires frame { IsFrame frame.now }
    requires full { AreFull chunks.old frame.now }
    requires room { stretch.now.offset + stretch.now.len ≤ cell_count frame.now.layout.chunk }
    requires bytes { length bytes.now ≡ stretch.now.len * frame.now.size }
    requires there { has chunks.old stretch.now.index ≡ true }
    ensures { (ats : List (List ℕ)) → IsStretch frame.now.layout.chunk stretch.now ats
        → IsWritten chunks.old chunks.new frame.now ats bytes.now }
{
    let Some(held) = chunks.get_mut(&stretch.index) else {
        unreachable!();
    };
    overwrite(held, frame, stretch, bytes);
}

/// Writes elements into the cells of a chunk that is held.
fn overwrite(held: &mut Held, frame: &Frame, stretch: &Stretch, bytes: &[u8])
    requires frame { IsFrame frame.now }
    requires full { length held.old.bytes.items ≡ chunk_bytes frame.now }
    requires room { stretch.now.offset + stretch.now.len ≤ cell_count frame.now.layout.chunk }
    requires bytes { length bytes.now ≡ stretch.now.len * frame.now.size }
    ensures dirty { held.new.dirty ≡ true }
    ensures full { length held.new.bytes.items ≡ chunk_bytes frame.now }
    ensures put { (j : ℕ) → j < stretch.now.len
        → piece_at frame.now.size (stretch.now.offset + j) held.new.bytes.items
        ≡ piece_at frame.now.size j bytes.now }
    ensures kept { (j : ℕ)
        → (j < stretch.now.offset) ⊎ (stretch.now.offset + stretch.now.len ≤ j)
        → piece_at frame.now.size j held.new.bytes.items
        ≡ piece_at frame.now.size j held.old.bytes.items }
{
    held.dirty = true;
    put(&mut held.bytes, frame.size, stretch, bytes);
}

fn put(held: &mut Vec<u8>, size: usize, stretch: &Stretch, bytes: &[u8])
    requires some { 1 ≤ size }
    requires room { (stretch.now.offset + stretch.now.len) * size ≤ length held.old.items }
    requires bytes { length bytes.now ≡ stretch.now.len * size }
    ensures len { length held.new.items ≡ length held.old.items }
    ensures put { (j : ℕ) → j < stretch.now.len
        → piece_at size (stretch.now.offset + j) held.new.items ≡ piece_at size j bytes.now }
    ensures kept { (j : ℕ)
        → (j < stretch.now.offset) ⊎ (stretch.now.offset + stretch.now.len ≤ j)
        → piece_at size j held.new.items ≡ piece_at size j held.old.items }
{
    let to = Strided {
        first: stretch.offset as usize,
        stride: 1,
    };
    let from = Strided {
        first: 0,
        stride: 1,
    };
    copy_strided(
        held.as_mut_slice(),
        to,
        bytes,
        from,
        stretch.len as usize,
        size,
    );
}
