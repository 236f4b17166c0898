//! The selection of every cell of a shape.

ghost use Rattle.std.specs.Prelude.{◌≡◌, ◌<◌, ◌^◌, ℕ, List, [], ◌∷◌, All, IfOk};
ghost use Rattle.shapes.specs.Shapes.{IsSound, cells_of};
ghost use Rattle.shapes.specs.declared.Shape.TheVariants.{Simple};
ghost use Rattle.hyperslab.specs.Selected.{IsSlab, SlabIn, extents, slab_cells};
ghost use Rattle.hyperslab.specs.Judged.{whole_of, all_of};

use crate::judging::bounded;
use crate::{Slab, SlabFault};
use shapes::{Dims, Shape};

/// The selection of every cell of a shape. A shape without a cell has one axis of which no number
/// is selected.
///
/// # Errors
///
/// [`SlabFault::TooMany`], where the shape has too many cells.
pub fn whole(shape: &Shape) -> Result<Slab, SlabFault>
    requires { IsSound shape.now }
    ensures all { IfOk result (λ s. slab_cells s shape.now ≡ cells_of shape.now) }
    ensures extents { (dims limits : List ℕ) → shape.now ≡ Simple dims limits
        → IfOk result (λ s. extents s ≡ dims) }
    ensures first { result ≡ whole_of shape.now }
    ensures within { IfOk result (λ s. SlabIn s shape.now) }
    ensures steps { IfOk result (λ s. All (λ c. c < 10 ^ 10) s.step) }
    ensures sound { IfOk result IsSlab }
{
    match shape {
        Shape::Simple { dims, .. } => bounded(all_of_dims(dims)),
        Shape::Null => Ok(no_cell()),
        Shape::Scalar => Ok(no_axis()),
    }
}

fn all_of_dims(dims: &Dims) -> Slab
    ensures { result ≡ all_of dims.now }
{
    Slab {
        start: Dims::repeated(0, dims.len()),
        stop: *dims,
        step: Dims::repeated(1, dims.len()),
    }
}

fn no_axis() -> Slab
    ensures { result ≡ all_of [] }
{
    all_of_dims(&Dims::new())
}

fn no_cell() -> Slab
    ensures { result ≡ all_of (0 ∷ []) }
{
    let mut dims = Dims::new();
    dims.push(0);
    all_of_dims(&dims)
}
