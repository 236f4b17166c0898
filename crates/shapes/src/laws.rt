//! What holds of shapes, their cells and the order of these, in other words than the definitions.

ghost use Rattle.std.specs.Prelude.{◌≡◌, ◌≤◌, ◌<◌, ◌-◌, ◌^◌, ◌↔◌, ℕ, List, All, length, true};
ghost use Rattle.std.specs.Ordering.{nat_cmp};
ghost use Rattle.containers.specs.ShortLists.Order.{list_order};
ghost use Rattle.shapes.specs.RowMajor.{IsInside, is_inside, cell_count, coords_of, digits_by};
ghost use Rattle.shapes.specs.RowMajor.{linear_index};
ghost use Rattle.shapes.specs.Shapes.{IsSound, LiesIn, lies_in, cells_of, cell_of, count_of, dims_of};
ghost use Rattle.shapes.specs.declared.Shape.{Shape};
ghost use Rattle.shapes.specs.declared.TheConstants.{MAX_RANK, MAX_EXTENT, MAX_CELLS};
ghost use Rattle.shapes.specs.declared.TheConstants.{MAX_CHUNK_BYTES};

/// The limits of shapes: 32 axes, extents below 2^31, and 2^48 cells; and the bytes of a chunk.
pub fn limits_of_shapes()
    ensures rank { MAX_RANK ≡ 32 }
    ensures extent { MAX_EXTENT ≡ 2 ^ 31 - 1 }
    ensures cells { MAX_CELLS ≡ 2 ^ 48 }
    ensures chunk { MAX_CHUNK_BYTES ≡ 2 ^ 20 }
{}

/// The cells of a shape are the coordinates inside it, each listed once, and as many as the shape
/// counts.
pub fn cells_are_inside()
    ensures tested { (at dims : List ℕ) → ((is_inside at dims ≡ true) ↔ IsInside at dims) }
    ensures lies { (at : List ℕ) (s : Shape) → ((lies_in at s ≡ true) ↔ LiesIn at s) }
    ensures inside { (s : Shape) → All (λ at. LiesIn at s) (cells_of s) }
    ensures counted { (s : Shape) → length (cells_of s) ≡ count_of s }
    ensures few { (s : Shape) → IsSound s → count_of s ≤ 2 ^ 48 }
    ensures once { (s : Shape) (j k : ℕ) → j < count_of s → k < count_of s
        → cell_of s j ≡ cell_of s k → j ≡ k }
{}

/// Linear indices and cells of a shape are each other's inverse, and the order of cells is that of
/// their linear indices. The coordinates of a linear index are its digits.
pub fn indices_number_the_cells()
    ensures index { (s : Shape) (k : ℕ) → k < count_of s
        → linear_index (cell_of s k) (dims_of s) ≡ k }
    ensures cell { (s : Shape) (at : List ℕ) → LiesIn at s
        → cell_of s (linear_index at (dims_of s)) ≡ at }
    ensures below { (s : Shape) (at : List ℕ) → LiesIn at s
        → linear_index at (dims_of s) < count_of s }
    ensures digits { (dims : List ℕ) (k : ℕ) → k < cell_count dims
        → digits_by dims k ≡ coords_of dims k }
    ensures ordered { (s : Shape) (a b : List ℕ) → LiesIn a s → LiesIn b s
        → nat_cmp (linear_index a (dims_of s)) (linear_index b (dims_of s)) ≡ list_order a b }
{}
