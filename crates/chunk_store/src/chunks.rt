//! The cells of one chunk: walks over them in row-major order, those outside the shape too.

ghost use Rattle.std.specs.Prelude.{◌≡◌, ◌≤◌, ◌<◌, ◌+◌, ◌*◌, ◌^◌, ◌-◌, ◌↔◌, ℕ, [], true, false};
ghost use Rattle.std.specs.Prelude.{min, length, slice_index_or, IsTrue};
ghost use Rattle.hdf_values.specs.Nested.{piece_at};
ghost use Rattle.shapes.specs.RowMajor.{cell_count};
ghost use Rattle.shapes.specs.Shapes.{dims_of, lies_in};
ghost use Rattle.chunk_layout.specs.Chunks.{IsChunk, quotients, offset_of, chunk_cells};
ghost use Rattle.chunk_store.specs.Buffers.{has_cell};
ghost use Rattle.chunk_store.specs.Indexes.{IsIndex};

use crate::buffers::element;
use crate::rows::row_from;
use chunk_layout::{Layout, coords_in_chunk, is_in_grid};
use shapes::{Dims, Shape};

/// How many cells a chunk has.
pub(crate) fn cell_number(layout: &Layout) -> u64
    requires { IsChunk layout.now.chunk }
    ensures { result ≡ cell_count layout.now.chunk }
{
    capped_product(layout.chunk.as_slice())
}

fn capped_product(dims: &[u64]) -> u64
    ensures { result ≡ min (cell_count dims.now) (2 ^ 64 - 1) }
{
    let mut total = 1u64;
    for n in dims {
        total = total.saturating_mul(*n);
    }
    total
}

/// Whether a chunk has a cell of a shape.
pub(crate) fn has_cell(layout: &Layout, shape: &Shape, index: &Dims) -> bool
    requires chunk { IsChunk layout.now.chunk }
    requires rank { length layout.now.chunk ≡ length (dims_of shape.now) }
    ensures { result ≡ has_cell layout.now.chunk shape.now index.now }
{
    is_in_grid(layout, shape, index)
}

/// The cell at an offset of a chunk.
pub(crate) fn cell(layout: &Layout, index: &Dims, k: u64) -> Dims
    requires chunk { IsChunk layout.now.chunk }
    requires index { IsIndex layout.now.chunk index.now }
    requires below { k < cell_count layout.now.chunk }
    ensures at { slice_index_or (chunk_cells index.now layout.now.chunk) k [] ≡ result }
    ensures rank { length result ≡ length layout.now.chunk }
    ensures chunk { quotients result layout.now.chunk ≡ index.now }
    ensures offset { offset_of result layout.now.chunk ≡ k }
{
    coords_in_chunk(layout, index, k)
}

/// Whether each cell of a chunk lies in a shape, as its last one does.
fn is_within(layout: &Layout, shape: &Shape, index: &Dims) -> bool
    requires chunk { IsChunk layout.now.chunk }
    requires index { IsIndex layout.now.chunk index.now }
    ensures { IsTrue result → (k : ℕ) → k < cell_count layout.now.chunk
        → lies_in (slice_index_or (chunk_cells index.now layout.now.chunk) k []) shape.now ≡ true }
{
    let last = cell_number(layout) - 1;
    shape.contains(&cell(layout, index, last))
}

/// Whether each cell of a chunk that lies outside a shape has the blank.
pub(crate) fn is_blank_outside(
    blank: &[u8],
    layout: &Layout,
    shape: &Shape,
    index: &Dims,
    bytes: &[u8],
) -> bool
    requires chunk { IsChunk layout.now.chunk }
    requires index { IsIndex layout.now.chunk index.now }
    requires whole { length bytes.now ≡ cell_count layout.now.chunk * length blank.now }
    ensures { IsTrue result ↔ ((k : ℕ) → k < cell_count layout.now.chunk
        → lies_in (slice_index_or (chunk_cells index.now layout.now.chunk) k []) shape.now ≡ false
        → piece_at (length blank.now) k bytes.now ≡ blank.now) }
{
    if is_within(layout, shape, index) {
        return true;
    }
    let many = cell_number(layout);
    let mut done = 0;
    while done < many {
        let row = row_from(layout, shape, index, done);
        let first = done + row.inside;
        if !are_blanks(
            bytes,
            blank,
            first as usize,
            (row.len - row.inside) as usize,
        ) {
            return false;
        }
        done += row.len;
    }
    true
}

/// Whether elements that follow one another each are the blank.
fn are_blanks(bytes: &[u8], blank: &[u8], first: usize, many: usize) -> bool
    requires room { (first + many) * length blank.now ≤ length bytes.now }
    requires few { first + many < 2 ^ 64 }
    ensures { IsTrue result ↔ ((j : ℕ) → j < many
        → piece_at (length blank.now) (first + j) bytes.now ≡ blank.now) }
{
    for j in 0..many {
        if element(bytes, first + j, blank.len()) != blank {
            return false;
        }
    }
    true
}
