//! The rows of a chunk: cells that follow one another on its last axis.

ghost use Rattle.std.specs.Prelude.{◌≡◌, ◌<◌, length};
ghost use Rattle.shapes.specs.RowMajor.{IsInside, cell_count};
ghost use Rattle.chunk_layout.specs.Chunks.{IsChunk};
ghost use Rattle.chunk_store.specs.Indexes.{IsIndex};
ghost use Rattle.chunk_store.specs.Rows.{IsRow, left_below, left_in};

use chunk_layout::{Layout, coords_in_chunk};
use shapes::{Dims, Shape};

/// Cells of a chunk that follow one another to the end of their row.
#[derive(Clone, Copy)]
pub(crate) struct Row {
    /// How many they are.
    pub(crate) len: u64,
    /// How many lie in the shape: the first ones.
    pub(crate) inside: u64,
}

/// The cells of a chunk from an offset on, to the end of their row.
pub(crate) fn row_from(layout: &Layout, shape: &Shape, index: &Dims, offset: u64) -> Row
    requires chunk { IsChunk layout.now.chunk }
    requires index { IsIndex layout.now.chunk index.now }
    requires below { offset < cell_count layout.now.chunk }
    ensures { IsRow layout.now.chunk shape.now index.now offset result }
{
    let at = coords_in_chunk(layout, index, offset);
    let len = left_in_chunk(&at, &layout.chunk);
    if !shape.contains(&at) {
        return Row { len, inside: 0 };
    }
    let inside = left_in_shape(&at, &shape.dims()).min(len);
    Row { len, inside }
}

/// How many cells from this one on stay in its row of a chunk.
fn left_in_chunk(at: &Dims, chunk: &Dims) -> u64
    requires chunk { IsChunk chunk.now }
    requires rank { length at.now ≡ length chunk.now }
    ensures { result ≡ left_in at.now chunk.now }
{
    if at.is_empty() {
        return 1;
    }
    let last = at.len() - 1;
    let n = chunk.get(last);
    n - at.get(last) % n
}

/// How many cells from this one on stay in its row of a grid.
fn left_in_shape(at: &Dims, dims: &Dims) -> u64
    requires inside { IsInside at.now dims.now }
    ensures { result ≡ left_below at.now dims.now }
{
    if at.is_empty() {
        return 1;
    }
    let last = at.len() - 1;
    dims.get(last) - at.get(last)
}
