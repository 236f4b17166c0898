//! Bodies that spell an attribute.

ghost use Rattle.std.specs.Prelude.{◌≡◌, ◌-◌, ◌^◌, ◌≤◌, min, nat_le, IfOk};
ghost use Rattle.hdf_values.specs.Attributes.{IsSoundAttribute, content};
ghost use Rattle.request_bodies.specs.Bodies.{attribute_in, attribute_refusal, shape_fault_word};
ghost use Rattle.request_bodies.specs.Bodies.{shape_refusal, type_refusal};
ghost use Rattle.request_bodies.specs.Refusing.{Answers};
ghost use Rattle.request_bodies.specs.declared.faults.BodyFault.TheVariants.{NoMemory, Refused};
ghost use Rattle.request_bodies.specs.Bodies.{GivesAttribute, attribute_fault, room, most_cells};
ghost use Rattle.shapes.specs.RowMajor.{room_of};

use crate::faults::{AttributeBodyFault, BodyFault};
use crate::keys::bad_field;
use hdf_types::{Cause, TypeFault};
use hdf_values::{Attribute, AttributeFault, read_attribute};
use json_trees::Tree;
use object_ops::{FieldWord, Refusal, ShapeWord};
use shapes::{Shape, ShapeFault};
use std::alloc::Global;

/// The most cells of an attribute, with an extent of 0 counted as 1: as many lists may be in its value.
pub const MAX_ATTRIBUTE_CELLS: u64 = 65_536;

/// The attribute that a body spells (PUT of an attribute): its `type`, its `value`, and maybe its `shape`.
///
/// # Errors
///
/// The first of `BadField` with `type`, `UnsupportedType` and `BadShape`; where the type and the shape are
/// accepted, `BadField` with `value` for a fault of the value or of its size. `TooManyCells` exactly where it is refused
/// for nothing and has more than [`MAX_ATTRIBUTE_CELLS`] cells.
pub fn attribute_of(alloc: Global, body: &Tree) -> Result<Attribute, AttributeBodyFault>
    ensures exact { GivesAttribute result (attribute_in body.now) }
    ensures sound { IfOk result (λ a. IsSoundAttribute (content a)) }
    ensures few { IfOk result (λ a. room a.shape ≤ most_cells) }
{
    let attribute = spelled(alloc, body)?;
    if has_few_cells(&attribute.shape) {
        Ok(attribute)
    } else {
        Err(AttributeBodyFault::TooManyCells)
    }
}

// The attribute, however many cells it has.
fn spelled(alloc: Global, body: &Tree) -> Result<Attribute, BodyFault>
    ensures exact { Answers result (attribute_in body.now) }
    ensures sound { IfOk result (λ a. IsSoundAttribute (content a)) }
{
    Ok(read_attribute(alloc, body.value())?)
}

fn has_few_cells(shape: &Shape) -> bool
    ensures { result ≡ nat_le (room shape.now) most_cells }
{
    let dims = shape.dims();
    room(dims.as_slice()) <= MAX_ATTRIBUTE_CELLS
}

// The product of the dims, each at least 1, or the largest number where it is above that.
fn room(dims: &[u64]) -> u64
    ensures { result ≡ min (room_of dims.now) (2 ^ 64 - 1) }
{
    let mut total = 1u64;
    for n in dims {
        total = total.saturating_mul((*n).max(1));
    }
    total
}

impl From<AttributeFault> for BodyFault {
    ghost from_gives = { λ fault e. e ≡ attribute_fault fault };

    fn from(fault: AttributeFault) -> BodyFault {
        match &fault {
            AttributeFault::NoMemory => BodyFault::NoMemory,
            AttributeFault::BadType(TypeFault::NoMemory) => BodyFault::NoMemory,
            AttributeFault::BadType(TypeFault::Refused { cause, .. }) => {
                BodyFault::Refused(type_refusal(*cause))
            }
            AttributeFault::BadShape(fault) => BodyFault::Refused(shape_refusal(*fault)),
            AttributeFault::TooLarge | AttributeFault::BadValue(_) => {
                BodyFault::Refused(bad_field(FieldWord::Value))
            }
        }
    }
}

/// The refusal of a type.
pub(crate) fn type_refusal(cause: Cause) -> Refusal
    ensures { result ≡ type_refusal cause }
{
    match cause {
        Cause::Unsupported { class } => Refusal::UnsupportedType { class },
        _ => bad_field(FieldWord::Type),
    }
}

/// The refusal of a shape.
pub(crate) fn shape_refusal(fault: ShapeFault) -> Refusal
    ensures { result ≡ shape_refusal fault }
{
    Refusal::BadShape {
        fault: shape_word(fault),
    }
}

fn shape_word(fault: ShapeFault) -> ShapeWord
    ensures { result ≡ shape_fault_word fault }
{
    match fault {
        ShapeFault::NotAShape => ShapeWord::NotAShape,
        ShapeFault::Rank => ShapeWord::Rank,
        ShapeFault::DimOverMax { .. } => ShapeWord::DimOverMax,
        ShapeFault::TooLarge => ShapeWord::TooLarge,
    }
}
