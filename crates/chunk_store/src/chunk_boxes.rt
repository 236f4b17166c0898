//! The boxes of chunks.

ghost use Rattle.std.specs.Prelude.{◌≡◌, ◌+◌, ◌<◌, ◌^◌, ◌↔◌, ℕ, List, All, length};
ghost use Rattle.std.specs.List.{AllZip};
ghost use Rattle.chunk_layout.specs.Chunks.{IsChunkDim, corner, offset_of, quotients};
ghost use Rattle.hyperslab.specs.Runs.{InBox, offset_from};

/// The box of a chunk's dims at its first cell has the cells whose chunk it is, at their offsets in
/// the chunk, and ends below 2^64.
pub fn boxes_of_chunks()
    ensures there { (chunk index at : List ℕ) → All IsChunkDim chunk
        → length index ≡ length chunk → length at ≡ length chunk
        → (InBox at (corner index chunk) chunk ↔ (quotients at chunk ≡ index)) }
    ensures offset { (chunk at : List ℕ) → All IsChunkDim chunk → length at ≡ length chunk
        → offset_from at (corner (quotients at chunk) chunk) chunk ≡ offset_of at chunk }
    ensures rank { (chunk index : List ℕ) → length index ≡ length chunk
        → length (corner index chunk) ≡ length chunk }
    ensures ends { (chunk index : List ℕ) → All IsChunkDim chunk → length index ≡ length chunk
        → All (λ q. q < 2 ^ 32) index → AllZip (λ o n. o + n < 2 ^ 64) (corner index chunk) chunk }
{}
