//! The dims of a shape, and which coordinates are those of a cell.

ghost use Rattle.std.specs.Prelude.{◌≡◌, ◌↔◌, IsTrue};
ghost use Rattle.shapes.specs.RowMajor.{is_inside};
ghost use Rattle.shapes.specs.Shapes.{dims_of, LiesIn, lies_in};

use crate::{Dims, Shape};

impl Shape {
    /// The dims; a shape without an axis has none.
    pub fn dims(&self) -> Dims
        ensures { result ≡ dims_of self.now }
    {
        match self {
            Shape::Simple { dims, .. } => *dims,
            Shape::Null => Dims::new(),
            Shape::Scalar => Dims::new(),
        }
    }

    /// Whether these are the coordinates of a cell.
    pub fn contains(&self, at: &Dims) -> bool
        ensures inside { IsTrue result ↔ LiesIn at.now self.now }
        ensures tested { result ≡ lies_in at.now self.now }
    {
        match self {
            Shape::Simple { dims, .. } => is_below(at, dims),
            Shape::Scalar => at.is_empty(),
            Shape::Null => false,
        }
    }
}

fn is_below(at: &Dims, dims: &Dims) -> bool
    ensures { result ≡ is_inside at.now dims.now }
{
    if at.len() != dims.len() {
        return false;
    }
    for axis in 0..at.len() {
        if at.get(axis) >= dims.get(axis) {
            return false;
        }
    }
    true
}
