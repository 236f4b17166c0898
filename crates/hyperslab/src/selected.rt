//! How many cells a selection has, and which one comes where in row-major order.

ghost use Rattle.std.specs.Prelude.{◌≡◌, ◌≤◌, ◌<◌, ℕ, List, [], All, true, map, length, slice_index_or};
ghost use Rattle.std.specs.List.{AllZip};
ghost use Rattle.shapes.specs.RowMajor.{cell_count, room_of, IsInside, linear_index};
ghost use Rattle.shapes.specs.Shapes.{IsSound, dims_of, count_of, LiesIn};
ghost use Rattle.shapes.specs.declared.Shape.{Shape};
ghost use Rattle.shapes.specs.declared.TheConstants.{MAX_RANK};
ghost use Rattle.hyperslab.specs.Selected.{AreApart, AreAxes, IsAlike, IsRanked, IsSlab, SlabIn, axes_of};
ghost use Rattle.hyperslab.specs.Selected.{cell_at, extents, extent as extent_of, is_at, on_count, point};
ghost use Rattle.hyperslab.specs.Selected.{selected, slab_cells, FitsIn};
ghost use Rattle.hyperslab.specs.declared.Slab.{Slab};
ghost use Rattle.hyperslab.specs.declared.TheConstants.{MAX_SELECTED};

use crate::Slab;
use shapes::{Dims, Shape, coords_at, count};

impl Slab {
    /// How many numbers of each axis are selected.
    pub fn extents(&self) -> Dims
        requires { IsSlab self.now }
        ensures counted { result ≡ map on_count (axes_of self.now) }
        ensures divided { result ≡ extents self.now }
    {
        extents_of(self)
    }

    /// How many cells are selected: one for each choice of a selected number on each axis.
    pub fn count(&self) -> u64
        requires { IsSlab self.now }
        ensures listed { (dims : List ℕ) → FitsIn self.now dims
            → result ≡ length (selected self.now dims) }
        ensures cells { (shape : Shape) → SlabIn self.now shape
            → result ≡ length (slab_cells self.now shape) }
        ensures product { result ≡ cell_count (extents self.now) }
        ensures bounded { result ≤ MAX_SELECTED }
    {
        count(&grid(self.extents()))
    }

    /// The selected cell of a number, from 0 in row-major order.
    pub fn coords(&self, k: u64) -> Dims
        requires slab { IsSlab self.now }
        requires below { k < cell_count (extents self.now) }
        ensures stepped { result ≡ cell_at self.now k }
        ensures selected { is_at (axes_of self.now) result ≡ true }
        ensures listed { (dims : List ℕ) → FitsIn self.now dims
            → slice_index_or (selected self.now dims) k [] ≡ result }
        ensures cell { (shape : Shape) → SlabIn self.now shape
            → slice_index_or (slab_cells self.now shape) k [] ≡ result }
        ensures inside { (shape : Shape) → SlabIn self.now shape → LiesIn result shape }
    {
        stepped(self, &coords_at(&grid(self.extents()), k))
    }
}

/// A selection's cells are those of the numbers below its count, each once.
pub fn each_cell_once()
    ensures counted { (s : Slab) (shape : Shape) → IsSlab s → SlabIn s shape
        → length (slab_cells s shape) ≡ cell_count (extents s) }
    ensures listed { (s : Slab) (shape : Shape) (k : ℕ) → IsSlab s → SlabIn s shape
        → k < cell_count (extents s) → slice_index_or (slab_cells s shape) k [] ≡ cell_at s k }
    ensures within { (s : Slab) (shape : Shape) → All (λ at. LiesIn at shape) (slab_cells s shape) }
    ensures inside { (s : Slab) (shape : Shape) (k : ℕ) → IsSlab s → SlabIn s shape
        → k < cell_count (extents s) → LiesIn (cell_at s k) shape }
    ensures first { (s : Slab) → IsSlab s → s.start ≡ cell_at s 0 }
    ensures selected { (s : Slab) (k : ℕ) → IsSlab s → k < cell_count (extents s)
        → is_at (axes_of s) (cell_at s k) ≡ true }
    ensures each { (s : Slab) (at : List ℕ) → IsSlab s → is_at (axes_of s) at ≡ true
        → (k : ℕ) × (k < cell_count (extents s)) × (cell_at s k ≡ at) }
    ensures indexed { (s : Slab) (ks : List ℕ) → IsSlab s → IsInside ks (extents s)
        → cell_at s (linear_index ks (extents s)) ≡ point ks (axes_of s) }
    ensures once { (s : Slab) (k l : ℕ) → IsSlab s → k < cell_count (extents s)
        → l < cell_count (extents s) → cell_at s k ≡ cell_at s l → k ≡ l }
    ensures apart { (s : Slab) (shape : Shape) → IsSlab s → SlabIn s shape
        → AreApart (slab_cells s shape) }
{}

/// On each axis a step that is at least the distance from start to stop selects what any other such
/// step does.
pub fn one_step_past_the_end()
    ensures { (s t : Slab) (shape : Shape) → AllZip IsAlike (axes_of s) (axes_of t)
        → slab_cells s shape ≡ slab_cells t shape }
{}

/// A shape whose cells are the choices of a number below each extent.
fn grid(extents: Dims) -> Shape
    requires rank { length extents ≤ MAX_RANK }
    requires room { room_of extents ≤ MAX_SELECTED }
    ensures sound { IsSound result }
    ensures dims { dims_of result ≡ extents }
    ensures cells { count_of result ≡ cell_count extents }
{
    let rank = extents.len();
    if rank == 0 {
        Shape::Scalar
    } else {
        Shape::Simple {
            dims: extents,
            maxdims: extents,
        }
    }
}

/// As many steps from each start as `at` says.
fn stepped(slab: &Slab, at: &Dims) -> Dims
    requires ranked { IsRanked slab.now }
    requires axes { AreAxes (axes_of slab.now) }
    requires inside { IsInside at.now (extents slab.now) }
    ensures { result ≡ point at.now (axes_of slab.now) }
{
    let mut coords = Dims::new();
    for axis in 0..slab.start.len() {
        let x = slab.start.get(axis) + at.get(axis) * slab.step.get(axis);
        coords.push(x);
    }
    coords
}

/// How many numbers each axis of a selection has.
pub(crate) fn extents_of(slab: &Slab) -> Dims
    requires ranked { IsRanked slab.now }
    requires axes { AreAxes (axes_of slab.now) }
    ensures { result ≡ extents slab.now }
{
    let mut found = Dims::new();
    for axis in 0..slab.start.len() {
        let n = extent(
            slab.start.get(axis),
            slab.stop.get(axis),
            slab.step.get(axis),
        );
        found.push(n);
    }
    found
}

fn extent(start: u64, stop: u64, step: u64) -> u64
    requires { 1 ≤ step }
    ensures { result ≡ extent_of (record { lo = start; hi = stop; by = step }) }
{
    if start < stop {
        (stop - start - 1) / step + 1
    } else {
        0
    }
}
