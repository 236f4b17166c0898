//! The chunk of a cell, and its offset there; and the cell at an offset of a chunk.

ghost use Rattle.std.specs.Prelude.{◌≡◌, ◌+◌, ◌*◌, ◌^◌, ◌<◌, ◌≤◌, ℕ};
ghost use Rattle.std.specs.Prelude.{List, [], All, length, slice_index_or};
ghost use Rattle.shapes.specs.RowMajor.{cell_count};
ghost use Rattle.chunk_layout.specs.Chunks.{IsChunk, quotients, offset_of, cell_at, chunk_cells};

use crate::Layout;
use crate::sizes::cells;
use shapes::{Dims, MAX_EXTENT};

/// The chunk in which a cell lies: for each axis, how many chunks lie before it.
pub fn chunk_of(layout: &Layout, at: &Dims) -> Dims
    requires chunk { IsChunk layout.now.chunk }
    requires ranks { length at.now ≡ length layout.now.chunk }
    ensures { result ≡ quotients at.now layout.now.chunk }
{
    let mut chunk = Dims::new();
    for axis in 0..at.len() {
        chunk.push(at.get(axis) / layout.chunk.get(axis));
    }
    chunk
}

/// The linear index of a cell inside its chunk (row-major).
pub fn offset_in(layout: &Layout, at: &Dims) -> u64
    requires chunk { IsChunk layout.now.chunk }
    requires ranks { length at.now ≡ length layout.now.chunk }
    ensures offset { result ≡ offset_of at.now layout.now.chunk }
    ensures below { result < cell_count layout.now.chunk }
{
    let mut total = 0;
    for axis in 0..at.len() {
        let n = layout.chunk.get(axis);
        total = total * n + at.get(axis) % n;
    }
    total
}

/// The cell at an offset of a chunk: the inverse of [`chunk_of`] and [`offset_in`].
pub fn coords_in_chunk(layout: &Layout, index: &Dims, offset: u64) -> Dims
    requires chunk { IsChunk layout.now.chunk }
    requires ranks { length index.now ≡ length layout.now.chunk }
    requires small { All (λ q. q < 2 ^ 32) index.now }
    requires below { offset < cell_count layout.now.chunk }
    ensures cell { result ≡ cell_at index.now offset layout.now.chunk }
    ensures rank { length result ≡ length layout.now.chunk }
    ensures chunk { quotients result layout.now.chunk ≡ index.now }
    ensures offset { offset_of result layout.now.chunk ≡ offset }
{
    stepped(layout, index, offset)
}

fn stepped(layout: &Layout, index: &Dims, offset: u64) -> Dims
    requires chunk { IsChunk layout.now.chunk }
    requires ranks { length index.now ≡ length layout.now.chunk }
    requires small { All (λ q. q < 2 ^ 32) index.now }
    requires below { offset < cell_count layout.now.chunk }
    ensures { result ≡ cell_at index.now offset layout.now.chunk }
{
    let mut coords = Dims::new();
    let mut rest = offset;
    let mut step = cells(layout);
    for axis in 0..index.len() {
        let n = layout.chunk.get(axis);
        step /= n;
        coords.push(number(index.get(axis), n, rest / step));
        rest %= step;
    }
    coords
}

fn number(before: u64, n: u64, digit: u64) -> u64
    requires before { before < 2 ^ 32 }
    requires dim { n ≤ MAX_EXTENT }
    requires digit { digit < n }
    ensures { result ≡ before * n + digit }
{
    before * n + digit
}

/// Each cell has one chunk and one offset in it, and each chunk and offset in it one cell: the
/// cells of a chunk in row-major order have the offsets from 0 on.
pub fn chunk_and_offset()
    ensures below { (chunk at : List ℕ) → IsChunk chunk → length at ≡ length chunk
        → offset_of at chunk < cell_count chunk }
    ensures one { (chunk xs ys : List ℕ) → IsChunk chunk
        → length xs ≡ length chunk → length ys ≡ length chunk
        → quotients xs chunk ≡ quotients ys chunk → offset_of xs chunk ≡ offset_of ys chunk
        → xs ≡ ys }
    ensures rank { (chunk index : List ℕ) (offset : ℕ) → length index ≡ length chunk
        → length (cell_at index offset chunk) ≡ length chunk }
    ensures chunk { (chunk index : List ℕ) (offset : ℕ) → IsChunk chunk
        → length index ≡ length chunk → offset < cell_count chunk
        → quotients (cell_at index offset chunk) chunk ≡ index }
    ensures offset { (chunk index : List ℕ) (offset : ℕ) → IsChunk chunk
        → length index ≡ length chunk → offset < cell_count chunk
        → offset_of (cell_at index offset chunk) chunk ≡ offset }
    ensures back { (chunk at : List ℕ) → IsChunk chunk → length at ≡ length chunk
        → cell_at (quotients at chunk) (offset_of at chunk) chunk ≡ at }
    ensures count { (chunk index : List ℕ) → length (chunk_cells index chunk) ≡ cell_count chunk }
    ensures listed { (chunk index : List ℕ) (k : ℕ) → IsChunk chunk → k < cell_count chunk
        → slice_index_or (chunk_cells index chunk) k [] ≡ cell_at index k chunk }
{}
