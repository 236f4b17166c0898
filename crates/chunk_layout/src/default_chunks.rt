//! The chunk that an array has where none is asked for (HDF5 user guide, "Chunked storage layout"), as a function of its
//! dims.

ghost use Rattle.std.specs.Prelude.{◌≡◌, ℕ, List};
ghost use Rattle.chunk_layout.specs.Defaults.{IsDefault};
ghost use Rattle.chunk_layout.specs.DefaultChunks.Halving.{default_chunk};

/// The function gives the one chunk that [`chunk_layout::default_layout`] may give: the dims, 0 taken as 1, after the
/// fewest halvings after which they aren't large.
pub fn default_chunk_is_the_default()
    ensures holds { (size : ℕ) (dims : List ℕ) → IsDefault size dims (default_chunk size dims) }
    ensures only { (size : ℕ) (dims chunk : List ℕ) → IsDefault size dims chunk
        → default_chunk size dims ≡ chunk }
{}
