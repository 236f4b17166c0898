//! What holds of arrays, their records and their marks, in other words than the definitions.

ghost use Rattle.std.specs.Prelude.{◌≡◌, ◌≢◌, ◌*◌, ◌<◌, ℕ, List, [], ◌∷◌, ◌++◌, All, length};
ghost use Rattle.std.specs.Prelude.{Bool, true, false, Option, Some, None, slice_index_or};
ghost use Rattle.std.specs.List.{list_any};
ghost use Rattle.std.specs.Str.{bytes_eq};
ghost use Rattle.hdf_types.specs.Elems.{Elem};
ghost use Rattle.hdf_types.specs.Reading.{size_of};
ghost use Rattle.hdf_values.specs.Nested.{piece_at};
ghost use Rattle.shapes.specs.declared.Shape.{Shape};
ghost use Rattle.shapes.specs.Shapes.{LiesIn, count_of};
ghost use Rattle.chunk_layout.specs.Chunks.{quotients};
ghost use Rattle.chunk_store.specs.Grids.{Grid, IsWhole, all_fill, blank_of, resized_to, reads, value_at, with_dims, writes};
ghost use Rattle.chunk_store.specs.Listed.{IsLast, IsNowhere, IsOnce};
ghost use Rattle.chunk_store.specs.Marks.{Stored, IsTracked, is_dirty, ReadsAs, Covers, IsNext, recorded, cut};
ghost use Rattle.chunk_store.specs.Marks.{IsChunkOf, body_of, body_value, in_grid, with_chunk};

/// Two arrays are equal where their parts are, and each cell has the same bytes.
pub fn arrays_same()
    ensures same { (h k : Grid) → k.kind ≡ h.kind → k.shape ≡ h.shape → k.chunk ≡ h.chunk
        → k.fill ≡ h.fill → length h.values ≡ count_of h.shape → length k.values ≡ count_of h.shape
        → ((at : List ℕ) → LiesIn at h.shape → value_at k at ≡ value_at h at) → k ≡ h }
{}

/// What a cell has: the fill at first; after a write the element that was written there last, or,
/// where none was, what it had; after other dims what it had, or the fill where it is new, also
/// where it is one that was there before and was lost between.
pub fn cells_after_calls()
    ensures made { (e : Elem) (shape : Shape) (chunk : List ℕ) (fill : Option (List ℕ))
        (at : List ℕ) → LiesIn at shape → value_at (all_fill e shape chunk fill) at
        ≡ blank_of e fill }
    ensures last { (h : Grid) (ats : List (List ℕ)) (bytes : List ℕ) (k : ℕ) (at : List ℕ)
        → LiesIn at h.shape → IsLast ats k at
        → value_at (writes h ats bytes) at ≡ piece_at (size_of h.kind) k bytes }
    ensures others { (h : Grid) (ats : List (List ℕ)) (bytes at : List ℕ) → LiesIn at h.shape
        → IsNowhere ats at → value_at (writes h ats bytes) at ≡ value_at h at }
    ensures stays { (h : Grid) (dims at : List ℕ) → LiesIn at h.shape
        → LiesIn at (with_dims h.shape dims) → value_at (resized_to h dims) at ≡ value_at h at }
    ensures comes { (h : Grid) (dims at : List ℕ) → (LiesIn at h.shape → ⊥)
        → LiesIn at (with_dims h.shape dims)
        → value_at (resized_to h dims) at ≡ blank_of h.kind h.fill }
    ensures again { (h : Grid) (small large at : List ℕ)
        → (LiesIn at (with_dims h.shape small) → ⊥) → LiesIn at (with_dims h.shape large)
        → value_at (resized_to (resized_to h small) large) at ≡ blank_of h.kind h.fill }
{}

/// What a read gives: for each cell of the list, in order, its element. Cells of which each stands
/// once in a list read as what was written to them.
pub fn reads_of_cells()
    ensures each { (h : Grid) (ats : List (List ℕ)) (k : ℕ) → IsWhole h
        → All (λ at. LiesIn at h.shape) ats → k < length ats
        → piece_at (size_of h.kind) k (reads h ats) ≡ value_at h (slice_index_or ats k []) }
    ensures back { (h : Grid) (ats : List (List ℕ)) (bytes : List ℕ)
        → All (λ at. LiesIn at h.shape) ats → IsOnce ats
        → length bytes ≡ length ats * size_of h.kind → reads (writes h ats bytes) ats ≡ bytes }
{}

/// A write of some cells and then of others is one write of them all.
pub fn writes_joined()
    ensures { (h : Grid) (first later : List (List ℕ)) (front behind : List ℕ)
        → length front ≡ length first * size_of h.kind → writes (writes h first front) later behind
        ≡ writes h (first ++ later) (front ++ behind) }
{}

/// The records that stand for an array give each cell its bytes, once those of the dirty chunks
/// are written, as [`crate::Array::clear_dirty`] takes them; or at once, where nothing is marked
/// as dirty. Records give cells to one array alone.
pub fn records_stand()
    ensures reads { (held : List ℕ → List ℕ) (s : Stored) → IsWhole s.grid → IsTracked held s
        → ((i : List ℕ) → is_dirty s i ≡ false) → ReadsAs held s.grid }
    ensures taken { (held : List ℕ → List ℕ) (s : Stored) → IsWhole s.grid → IsTracked held s
        → ReadsAs (cut held s) s.grid }
    ensures one { (held : List ℕ → List ℕ) (h k : Grid) → IsWhole h → IsWhole k
        → k.kind ≡ h.kind → k.shape ≡ h.shape → k.chunk ≡ h.chunk → k.fill ≡ h.fill
        → ReadsAs held h → ReadsAs held k → k ≡ h }
{}

/// What can be installed, and what it does: a chunk's copy, which changes nothing, and each record
/// that stands for a chunk and isn't empty. The cells of the chunk then are those of the bytes, and
/// all others stay.
pub fn chunks_installed()
    ensures copy { (h : Grid) (i : List ℕ) → IsWhole h → in_grid h i ≡ true
        → IsChunkOf h i (body_of h i) }
    ensures same { (h : Grid) (i : List ℕ) → IsWhole h → in_grid h i ≡ true
        → with_chunk h i (body_of h i) ≡ h }
    ensures standing { (held : List ℕ → List ℕ) (s : Stored) (i : List ℕ) → IsWhole s.grid
        → IsTracked held s → is_dirty s i ≡ false → held i ≢ []
        → IsChunkOf s.grid i (held i) }
    ensures inside { (h : Grid) (i bytes at : List ℕ) → LiesIn at h.shape
        → quotients at h.chunk ≡ i → value_at (with_chunk h i bytes) at ≡ body_value h bytes at }
    ensures others { (h : Grid) (i bytes at : List ℕ) → LiesIn at h.shape
        → quotients at h.chunk ≢ i → value_at (with_chunk h i bytes) at ≡ value_at h at }
{}

/// Chunks that are meant, as the dirty ones or all that are known, one after another until there
/// is no next one, are all of them. Where these are the dirty ones, their records written in turn
/// are those that stand after [`crate::Array::clear_dirty`].
pub fn chunks_in_turn()
    ensures first { (is_meant : List ℕ → Bool) → Covers is_meant [] None }
    ensures next { (is_meant : List ℕ → Bool) (done : List (List ℕ)) (after : Option (List ℕ))
        (i : List ℕ) → Covers is_meant done after → IsNext is_meant after (Some i)
        → Covers is_meant (i ∷ done) (Some i) }
    ensures all { (is_meant : List ℕ → Bool) (done : List (List ℕ)) (after : Option (List ℕ))
        (i : List ℕ) → Covers is_meant done after → IsNext is_meant after None
        → is_meant i ≡ true → list_any (bytes_eq i) done ≡ true }
    ensures recorded { (held : List ℕ → List ℕ) (s : Stored) (done : List (List ℕ))
        → ((i : List ℕ) → list_any (bytes_eq i) done ≡ is_dirty s i)
        → (q : List ℕ) → recorded held s.grid done q ≡ cut held s q }
{}
