//! The tests of a selection in their order.

ghost use Rattle.std.specs.Prelude.{◌≡◌, ◌↔◌, ◌≤◌, ℕ, List, All, Option, Some, None, Result, Ok, Err, IfOk, length, map};
ghost use Rattle.shapes.specs.RowMajor.{room_of};
ghost use Rattle.shapes.specs.Shapes.{IsSound};
ghost use Rattle.shapes.specs.declared.TheConstants.{MAX_CELLS, MAX_EXTENT};
ghost use Rattle.shapes.specs.declared.Shape.{Shape};
ghost use Rattle.hyperslab.specs.declared.Slab.{Slab};
ghost use Rattle.hyperslab.specs.declared.SlabFault.{SlabFault};
ghost use Rattle.hyperslab.specs.Outcomes.{IsOutcome};
ghost use Rattle.hyperslab.specs.Selected.{AreAxes, IsRanked, IsSlab, axes_of, extents};
ghost use Rattle.hyperslab.specs.Judged.{fault_on, first_fault as fault_from, bounded as bounded_of};
ghost use Rattle.hyperslab.specs.Judged.{judged_in as judged_of, judged as judged_by};

use crate::selected::extents_of;
use crate::{MAX_SELECTED, Slab, SlabFault};
use shapes::{Dims, Shape};

/// A selection of a shape, or its first fault.
pub(crate) fn judged(shape: &Shape, slab: &Slab) -> Result<Slab, SlabFault>
    requires { IsSound shape.now }
    ensures first { result ≡ judged_by shape.now slab.now }
    ensures sound { IfOk result IsSlab }
{
    match shape {
        Shape::Simple { dims, .. } => judged_in(dims, slab),
        Shape::Null => Err(SlabFault::Rank),
        Shape::Scalar => Err(SlabFault::Rank),
    }
}

/// What the tests in their order tell of a selection and a shape is the one outcome that holds.
pub fn one_outcome()
    ensures { (shape : Shape) (s : Slab) (r : Result Slab SlabFault)
        → ((judged_by shape s ≡ r) ↔ IsOutcome shape s r) }
{}

#[tactic(auto, unfolding(crate::specs::Judged::judged_in))]
fn judged_in(dims: &Dims, slab: &Slab) -> Result<Slab, SlabFault>
    requires room { room_of dims.now ≤ MAX_CELLS }
    requires small { All (λ n. n ≤ MAX_EXTENT) dims.now }
    ensures first { result ≡ judged_of dims.now slab.now }
    ensures sound { IfOk result IsSlab }
{
    if slab.start.len() != dims.len()
        || slab.stop.len() != dims.len()
        || slab.step.len() != dims.len()
    {
        return Err(SlabFault::Rank);
    }
    if let Some(fault) = first_fault(dims, slab) {
        return Err(fault);
    }
    bounded(*slab)
}

fn first_fault(dims: &Dims, slab: &Slab) -> Option<SlabFault>
    requires ranked { IsRanked slab.now }
    requires dims { length slab.now.start ≡ length dims.now }
    ensures { result ≡ fault_from 0 dims.now (axes_of slab.now) }
{
    for axis in 0..dims.len() {
        let fault = axis_fault(
            axis as u8,
            dims.get(axis),
            slab.start.get(axis),
            slab.stop.get(axis),
            slab.step.get(axis),
        );
        if fault.is_some() {
            return fault;
        }
    }
    None
}

fn axis_fault(axis: u8, dim: u64, start: u64, stop: u64, step: u64) -> Option<SlabFault>
    ensures { result ≡ fault_on axis dim (record { lo = start; hi = stop; by = step }) }
{
    if step == 0 {
        return Some(SlabFault::Step { axis });
    }
    if stop < start {
        return Some(SlabFault::Order { axis });
    }
    if dim < stop {
        return Some(SlabFault::Past { axis });
    }
    None
}

pub(crate) fn bounded(slab: Slab) -> Result<Slab, SlabFault>
    requires ranked { IsRanked slab }
    requires axes { AreAxes (axes_of slab) }
    requires room { room_of (extents slab) ≤ MAX_CELLS }
    ensures first { result ≡ bounded_of slab }
    ensures sound { IfOk result IsSlab }
{
    let count = room(extents_of(&slab).as_slice());
    if count <= MAX_SELECTED {
        Ok(slab)
    } else {
        Err(SlabFault::TooMany { count })
    }
}

fn room(extents: &[u64]) -> u64
    requires { room_of extents.now ≤ MAX_CELLS }
    ensures { result ≡ room_of extents.now }
{
    let mut total = 1;
    for n in extents {
        total *= (*n).max(1);
    }
    total
}
