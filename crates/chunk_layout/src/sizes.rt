//! How many bytes and how many cells a chunk has.

ghost use Rattle.std.specs.Prelude.{◌≡◌, ◌*◌, ◌-◌, ◌^◌, min};
ghost use Rattle.shapes.specs.RowMajor.{cell_count};
ghost use Rattle.chunk_layout.specs.Chunks.{IsChunk};

use crate::Layout;

/// The bytes of a chunk, or the largest number where they are above that.
pub fn bytes(chunk: &[u64], size: u32) -> u64
    ensures { result ≡ min (size * cell_count chunk.now) (2 ^ 64 - 1) }
{
    let mut total = size as u64;
    for n in chunk {
        total = total.saturating_mul(*n);
    }
    total
}

/// The cells of a chunk.
pub fn cells(layout: &Layout) -> u64
    requires { IsChunk layout.now.chunk }
    ensures { result ≡ cell_count layout.now.chunk }
{
    bytes(layout.chunk.as_slice(), 1)
}
