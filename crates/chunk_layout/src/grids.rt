//! Which chunks an array has.

ghost use Rattle.std.specs.Prelude.{◌≡◌, ◌<◌, ◌≤◌, ◌^◌, ◌↔◌, ℕ, List, All, length, IsTrue};
ghost use Rattle.shapes.specs.RowMajor.{IsInside};
ghost use Rattle.shapes.specs.declared.Shape.{Shape};
ghost use Rattle.shapes.specs.Shapes.{IsSound, dims_of, LiesIn};
ghost use Rattle.chunk_layout.specs.Chunks.{IsChunkDim, IsChunk, quotients, corner};
ghost use Rattle.chunk_layout.specs.Grids.{grid_dims, LiesInGrid};

use crate::Layout;
use shapes::{Dims, Shape};

/// Whether a chunk has a cell of the array: its index is one number an axis, each below the dim
/// over the chunk's, rounded up.
pub fn is_in_grid(layout: &Layout, shape: &Shape, index: &Dims) -> bool
    requires chunk { IsChunk layout.now.chunk }
    requires ranks { length layout.now.chunk ≡ length (dims_of shape.now) }
    ensures { IsTrue result ↔ LiesInGrid index.now layout.now.chunk shape.now }
{
    match shape {
        Shape::Null => false,
        Shape::Scalar => index.is_empty(),
        Shape::Simple { dims, .. } => is_below(index, dims, &layout.chunk),
    }
}

fn is_below(index: &Dims, dims: &Dims, chunk: &Dims) -> bool
    requires dims { All IsChunkDim chunk.now }
    requires ranks { length chunk.now ≡ length dims.now }
    ensures { IsTrue result ↔ IsInside index.now (grid_dims dims.now chunk.now) }
{
    if index.len() != dims.len() {
        return false;
    }
    for axis in 0..index.len() {
        if dims.get(axis).div_ceil(chunk.get(axis)) <= index.get(axis) {
            return false;
        }
    }
    true
}

/// The grid of a shape's chunks covers the shape's cells, and no chunk of it is without a cell.
pub fn grid_of_chunks()
    ensures covers { (shape : Shape) (chunk at : List ℕ) → All IsChunkDim chunk
        → length chunk ≡ length (dims_of shape) → LiesIn at shape
        → LiesInGrid (quotients at chunk) chunk shape }
    ensures begun { (shape : Shape) (chunk index : List ℕ) → All IsChunkDim chunk
        → length chunk ≡ length (dims_of shape) → length index ≡ length chunk
        → (LiesInGrid index chunk shape ↔ LiesIn (corner index chunk) shape) }
    ensures corner { (chunk index : List ℕ) → All IsChunkDim chunk → length index ≡ length chunk
        → quotients (corner index chunk) chunk ≡ index }
    ensures rank { (shape : Shape) (chunk index : List ℕ)
        → length chunk ≡ length (dims_of shape) → LiesInGrid index chunk shape
        → length index ≡ length chunk }
    ensures small { (shape : Shape) (chunk index : List ℕ) → All IsChunkDim chunk → IsSound shape
        → LiesInGrid index chunk shape → All (λ q. q < 2 ^ 32) index }
{}
