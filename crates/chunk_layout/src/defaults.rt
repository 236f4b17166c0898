//! The layout of an array for which none is asked.

ghost use Rattle.std.specs.Prelude.{◌≡◌, ◌*◌, ◌≤◌, ◌<◌, ◌↔◌, ◌⊎◌, ℕ, List, All, length, IsTrue, IsSome};
ghost use Rattle.shapes.specs.RowMajor.{cell_count};
ghost use Rattle.shapes.specs.Shapes.{IsSound, dims_of};
ghost use Rattle.chunk_layout.specs.Chunks.{IsChunk};
ghost use Rattle.chunk_layout.specs.Defaults.{at_least_one, largest, halve_first, halved, IsLarge, IsHalvedDown, IsDefault};
ghost use Rattle.chunk_layout.specs.Layouts.{Fits};
ghost use Rattle.chunk_layout.specs.declared.TheConstants.{DEFAULT_CHUNK_BYTES};

use crate::sizes::bytes;
use crate::{DEFAULT_CHUNK_BYTES, Layout};
use shapes::{Dims, Shape};

/// The layout of an array for which none is asked, with elements of `size` bytes.
///
/// It begins with the array's dims, 0 taken as 1. While a chunk has more than
/// [`DEFAULT_CHUNK_BYTES`] bytes and a dim above 1, its largest dim, the first among ties, is
/// halved and rounded up.
pub fn default_layout(shape: &Shape, size: u32) -> Layout
    requires { IsSound shape.now }
    ensures rule { IsDefault size (dims_of shape.now) result.chunk }
    ensures only { (chunk : List ℕ) → IsDefault size (dims_of shape.now) chunk
        → result.chunk ≡ chunk }
    ensures small { (size * cell_count result.chunk ≤ DEFAULT_CHUNK_BYTES)
        ⊎ (cell_count result.chunk ≡ 1) }
    ensures fits { Fits size (dims_of shape.now) result.chunk }
    ensures chunk { 1 ≤ size → IsChunk result.chunk }
{
    Layout {
        chunk: halved_down(first_chunk(shape), size),
    }
}

fn halved_down(start: Dims, size: u32) -> Dims
    ensures { IsHalvedDown size start result }
{
    let mut chunk = start;
    while is_large(&chunk, size) {
        chunk = halve(&chunk);
    }
    chunk
}

fn is_large(chunk: &Dims, size: u32) -> bool
    ensures { IsTrue result ↔ IsLarge size chunk.now }
{
    DEFAULT_CHUNK_BYTES < bytes(chunk.as_slice(), size) && 1 < largest_dim(chunk)
}

fn largest_dim(chunk: &Dims) -> u64
    ensures { result ≡ largest chunk.now }
{
    let mut most = 0u64;
    for n in chunk.as_slice() {
        most = most.max(*n);
    }
    most
}

fn halve(chunk: &Dims) -> Dims
    ensures { result ≡ halved chunk.now }
{
    let most = largest_dim(chunk);
    let mut next = Dims::new();
    let mut found = false;
    for axis in 0..chunk.len() {
        let n = chunk.get(axis);
        if !found && n == most {
            next.push(n.div_ceil(2));
            found = true;
        } else {
            next.push(n);
        }
    }
    next
}

fn first_chunk(shape: &Shape) -> Dims
    ensures { result ≡ at_least_one (dims_of shape.now) }
{
    without_zeros(&shape.dims())
}

fn without_zeros(dims: &Dims) -> Dims
    ensures { result ≡ at_least_one dims.now }
{
    let mut chunk = Dims::new();
    for axis in 0..dims.len() {
        chunk.push(dims.get(axis).max(1));
    }
    chunk
}
