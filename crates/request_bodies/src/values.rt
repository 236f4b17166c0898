//! What is written to a dataset, and at which cells.

ghost use Rattle.std.specs.Prelude.{◌≡◌, IsErrOf};
ghost use Rattle.request_bodies.specs.Values.{part_by, points_by, write_by};
ghost use Rattle.request_bodies.specs.Refusing.{Answers};
ghost use Rattle.request_bodies.specs.declared.faults.BodyFault.TheVariants.{NoMemory};

use crate::faults::BodyFault;
use crate::keys::bad_field;
use crate::value_bodies::ValueBody;
use hdf_values::KeptValue;
use json_trees::KeptList;
use object_ops::{FieldWord, Part};
use shapes::KeptDims;

/// The part of a dataset that is written, and the value (PUT of a value). Both are taken out of the body
/// as they are, which takes no memory.
///
/// # Errors
///
/// `BadField` with `value` where there is none; then with `points` where points stand beside `start`,
/// `stop` or `step`.
pub fn write_of(body: ValueBody) -> Result<(Part, KeptValue), BodyFault>
    ensures exact { Answers result (write_by body) }
    ensures memory { IsErrOf result NoMemory → ⊥ }
{
    let ValueBody {
        value,
        points,
        start,
        stop,
        step,
    } = body;
    let value = value.ok_or(bad_field(FieldWord::Value))?;
    let part = part_of(points, start, stop, step)?;
    Ok((part, value))
}

/// The points that are read (POST of a value), taken out of the body as they are, which takes no memory.
///
/// # Errors
///
/// `BadField` with `points` where there are none.
pub fn points_of(body: ValueBody) -> Result<KeptList, BodyFault>
    ensures exact { Answers result (points_by body) }
    ensures memory { IsErrOf result NoMemory → ⊥ }
{
    Ok(body.points.ok_or(bad_field(FieldWord::Points))?)
}

fn part_of(
    points: Option<KeptList>,
    start: Option<KeptDims>,
    stop: Option<KeptDims>,
    step: Option<KeptDims>,
) -> Result<Part, BodyFault>
    ensures exact { Answers result (part_by points start stop step) }
    ensures memory { IsErrOf result NoMemory → ⊥ }
{
    let Some(points) = points else {
        return Ok(Part::Slab { start, stop, step });
    };
    if start.is_some() || stop.is_some() || step.is_some() {
        return Err(BodyFault::Refused(bad_field(FieldWord::Points)));
    }
    Ok(Part::Points { points })
}
