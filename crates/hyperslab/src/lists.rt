//! Selections by lists of numbers.

ghost use Rattle.std.specs.Prelude.{◌≡◌, ◌<◌, ◌^◌, ◌⊎◌, ℕ, List, [], All, Option, None, Ok, Err, IfOk};
ghost use Rattle.shapes.specs.Shapes.{IsSound, dims_of};
ghost use Rattle.serde_json.specs.Data.{Data};
ghost use Rattle.shapes.specs.declared.Shape.{Shape};
ghost use Rattle.shapes.specs.declared.Shape.TheVariants.{Scalar};
ghost use Rattle.hyperslab.specs.declared.Slab.{Slab};
ghost use Rattle.hyperslab.specs.declared.SlabFault.TheVariants.{Syntax};
ghost use Rattle.hyperslab.specs.Outcomes.{AreLists, IsGiven};
ghost use Rattle.hyperslab.specs.Selected.{IsSlab, SlabIn};
ghost use Rattle.hyperslab.specs.Judged.{list_or as list_from, lists_in, is_absent as absent};
ghost use Rattle.hyperslab.specs.Judged.{is_scalar as scalar, judged as judged_by, lists_slab};

use crate::all_cells::whole;
use crate::judging::judged;
use crate::{Slab, SlabFault};
use shapes::{Dims, KeptDims, Shape};

/// The selection by lists of starts, stops and steps. An absent list is a 0 for each axis, the dims
/// or a 1 for each axis. A scalar's one cell is selected where all three are absent.
///
/// # Errors
///
/// The first fault in the order of [`SlabFault`], as its text says.
pub fn from_lists(
    start: &Option<KeptDims>,
    stop: &Option<KeptDims>,
    step: &Option<KeptDims>,
    shape: &Shape,
) -> Result<Slab, SlabFault>
    requires { IsSound shape.now }
    ensures first { result ≡ lists_slab shape.now start.now stop.now step.now }
    ensures within { IfOk result (λ s. SlabIn s shape.now) }
    ensures steps { IfOk result (λ s. All (λ c. c < 10 ^ 10) s.step) }
    ensures sound { IfOk result IsSlab }
{
    if is_scalar(shape) && is_absent(start) && is_absent(stop) && is_absent(step) {
        return whole(shape);
    }
    match lists(&shape.dims(), start, stop, step) {
        None => Err(SlabFault::Syntax { byte: 0 }),
        Some(slab) => judged(shape, &slab),
    }
}

/// What lists select, in other words: a scalar's one cell where none is given; else what is judged
/// of the numbers that stand for the lists, or a fault of syntax where none do.
pub fn lists_or_fault()
    ensures scalar { lists_slab Scalar None None None
        ≡ Ok (record { start = []; stop = []; step = [] }) }
    ensures spelled { (shape : Shape) (start stop step : Option Data) (s : Slab)
        → IsGiven shape start stop step → AreLists (dims_of shape) start stop step s
        → lists_slab shape start stop step ≡ judged_by shape s }
    ensures syntax { (shape : Shape) (start stop step : Option Data)
        → IsGiven shape start stop step
        → ((s : Slab) → AreLists (dims_of shape) start stop step s → ⊥)
        → lists_slab shape start stop step ≡ Err (Syntax 0) }
    ensures one_of { (dims : List ℕ) (start stop step : Option Data)
        → ((s : Slab) × AreLists dims start stop step s)
        ⊎ ((s : Slab) → AreLists dims start stop step s → ⊥) }
{}

fn is_scalar(shape: &Shape) -> bool
    ensures { result ≡ scalar shape.now }
{
    match shape {
        Shape::Null => false,
        Shape::Scalar => true,
        Shape::Simple { .. } => false,
    }
}

fn is_absent(list: &Option<KeptDims>) -> bool
    ensures { result ≡ absent list.now }
{
    match list {
        None => true,
        Some(_) => false,
    }
}

fn lists(
    dims: &Dims,
    start: &Option<KeptDims>,
    stop: &Option<KeptDims>,
    step: &Option<KeptDims>,
) -> Option<Slab>
    ensures { result ≡ lists_in dims.now start.now stop.now step.now }
{
    let start = list_or(Dims::repeated(0, dims.len()), start)?;
    let stop = list_or(*dims, stop)?;
    let step = list_or(Dims::repeated(1, dims.len()), step)?;
    Some(Slab { start, stop, step })
}

fn list_or(absent: Dims, list: &Option<KeptDims>) -> Option<Dims>
    ensures { result ≡ list_from absent list.now }
{
    match list {
        None => Some(absent),
        Some(list) => list.dims(),
    }
}
