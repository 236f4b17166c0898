//! How many cells a shape has, and which cell has which linear index.

ghost use Rattle.std.specs.Prelude.{◌≡◌, ◌≤◌, ◌<◌, ℕ, List, length};
ghost use Rattle.shapes.specs.RowMajor.{cell_count, room_of, IsInside, linear_index};
ghost use Rattle.shapes.specs.Shapes.{IsSound, count_of, dims_of, LiesIn, cells_of, cell_of};
ghost use Rattle.shapes.specs.declared.TheConstants.{MAX_CELLS, MAX_RANK};

use crate::{Dims, Shape};

/// How many cells a shape has: none, one, or the product of its dims.
pub fn count(shape: &Shape) -> u64
    requires { IsSound shape.now }
    ensures product { result ≡ count_of shape.now }
    ensures listed { result ≡ length (cells_of shape.now) }
    ensures bounded { result ≤ MAX_CELLS }
{
    match shape {
        Shape::Null => 0,
        Shape::Scalar => 1,
        Shape::Simple { dims, .. } => cells(dims.as_slice()),
    }
}

fn cells(dims: &[u64]) -> u64
    requires { room_of dims.now ≤ MAX_CELLS }
    ensures { result ≡ cell_count dims.now }
{
    let mut total = 1;
    for n in dims {
        total *= *n;
    }
    total
}

/// The linear index of a cell: its number in row-major order, the last axis being the fastest.
pub fn place_of(shape: &Shape, at: &Dims) -> u64
    requires sound { IsSound shape.now }
    requires inside { LiesIn at.now shape.now }
    ensures index { result ≡ linear_index at.now (dims_of shape.now) }
    ensures below { result < count_of shape.now }
    ensures listed { cell_of shape.now result ≡ at.now }
{
    match shape {
        Shape::Null => unreachable!(),
        Shape::Scalar => 0,
        Shape::Simple { dims, .. } => linear_index_in(dims.as_slice(), at.as_slice()),
    }
}

fn linear_index_in(dims: &[u64], at: &[u64]) -> u64
    requires room { cell_count dims.now ≤ MAX_CELLS }
    requires inside { IsInside at.now dims.now }
    ensures { result ≡ linear_index at.now dims.now }
{
    let mut total = 0;
    for (axis, n) in dims.iter().enumerate() {
        total = total * *n + at[axis];
    }
    total
}

/// The coordinates of the cell with a linear index: the inverse of [`place_of`].
pub fn coords_at(shape: &Shape, number: u64) -> Dims
    requires sound { IsSound shape.now }
    requires below { number < count_of shape.now }
    ensures inside { LiesIn result shape.now }
    ensures index { linear_index result (dims_of shape.now) ≡ number }
    ensures once { (at : List ℕ) → LiesIn at shape.now
        → linear_index at (dims_of shape.now) ≡ number → result ≡ at }
    ensures listed { cell_of shape.now number ≡ result }
{
    match shape {
        Shape::Simple { dims, .. } => coords_in(dims, number),
        Shape::Null => Dims::new(),
        Shape::Scalar => Dims::new(),
    }
}

fn coords_in(dims: &Dims, number: u64) -> Dims
    requires rank { length dims.now ≤ MAX_RANK }
    requires room { room_of dims.now ≤ MAX_CELLS }
    requires below { number < cell_count dims.now }
    ensures inside { IsInside result dims.now }
    ensures index { linear_index result dims.now ≡ number }
{
    let mut coords = Dims::new();
    let mut rest = number;
    let mut step = cells(dims.as_slice());
    for n in dims.as_slice() {
        step /= *n;
        coords.push(rest / step);
        rest %= step;
    }
    coords
}
