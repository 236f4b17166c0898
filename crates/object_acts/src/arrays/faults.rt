//! The refusals for faults of selections, points, dims and values, and how an act ends early.

ghost use Rattle.std.specs.Prelude.{◌≡◌, Some, None};
ghost use Rattle.object_acts.specs.Arrays.Faults.{slab_refusal, dims_refusal};
ghost use Rattle.object_ops.specs.declared.refusals.Refusal.TheVariants.{BadSelect, BadValue};
ghost use Rattle.object_acts.specs.Arrays.Stops.{point_stop, value_stop, settled};
ghost use Rattle.object_acts.specs.declared.arrays.faults.Stop.TheVariants.{NoMemory};

use crate::fault::ChangeFault;
use hdf_values::ValueFault;
use hyperslab::{MAX_SELECTED, SlabFault};
use object_ops::{Refusal, Reply, SelectWord, ValueWord};
use point_select::{MAX_POINTS, PointFault};
use shapes::ShapeFault;
use std::alloc::AllocError;

/// Why an act ends early.
#[derive(Drop)]
pub(crate) enum Stop {
    /// Memory ran out.
    NoMemory,
    /// The chunks that a write adds would have more bytes than they may.
    TooManyNew,
    /// The request is refused.
    Refused(Refusal),
}

impl From<AllocError> for Stop {
    ghost from_gives = { λ _ stop. stop ≡ NoMemory };

    fn from(_error: AllocError) -> Stop {
        Stop::NoMemory
    }
}

impl From<PointFault> for Stop {
    ghost from_gives = { λ fault stop. stop ≡ point_stop fault };

    fn from(fault: PointFault) -> Stop {
        match fault {
            PointFault::NoMemory => Stop::NoMemory,
            PointFault::Syntax { index } => Stop::Refused(bad_point(SelectWord::Syntax, index)),
            PointFault::Rank { index } => Stop::Refused(bad_point(SelectWord::Rank, index)),
            PointFault::Past { index } => Stop::Refused(bad_point(SelectWord::Past, index)),
            PointFault::TooMany { count } => Stop::Refused(Refusal::TooMany {
                count,
                limit: MAX_POINTS as u64,
            }),
        }
    }
}

impl From<ValueFault> for Stop {
    ghost from_gives = { λ fault stop. stop ≡ value_stop fault };

    fn from(fault: ValueFault) -> Stop {
        match fault {
            ValueFault::NoMemory => Stop::NoMemory,
            ValueFault::NotOfType { place } => Stop::Refused(bad_element(
                ValueWord::NotOfType,
                place,
            )),
            ValueFault::OutOfRange { place } => Stop::Refused(bad_element(
                ValueWord::OutOfRange,
                place,
            )),
            ValueFault::TooLong { place } => Stop::Refused(bad_element(ValueWord::TooLong, place)),
            ValueFault::NotAscii { place } => Stop::Refused(bad_element(
                ValueWord::NotAscii,
                place,
            )),
            ValueFault::Nul { place } => Stop::Refused(bad_element(ValueWord::Nul, place)),
            ValueFault::WrongCount { want, got } => Stop::Refused(Refusal::BadValue {
                fault: ValueWord::WrongCount,
                place: None,
                got: Some(got),
                want: Some(want),
            }),
        }
    }
}

/// What is answered in the end.
pub(crate) fn settle(outcome: Result<Reply, Stop>) -> Result<Reply, ChangeFault>
    ensures { result ≡ settled outcome }
{
    match outcome {
        Ok(reply) => Ok(reply),
        Err(Stop::NoMemory) => Err(ChangeFault::NoMemory),
        Err(Stop::TooManyNew) => Err(ChangeFault::TooManyNew),
        Err(Stop::Refused(refusal)) => Ok(Reply::Refused(refusal)),
    }
}

pub(crate) fn refused_slab(fault: SlabFault) -> Refusal
    ensures { result ≡ slab_refusal fault }
{
    match fault {
        SlabFault::Syntax { byte } => Refusal::BadSelect {
            fault: SelectWord::Syntax,
            axis: None,
            byte: Some(byte),
            index: None,
        },
        SlabFault::Rank => bad_axis(SelectWord::Rank, None),
        SlabFault::Step { axis } => bad_axis(SelectWord::Step, Some(axis)),
        SlabFault::Order { axis } => bad_axis(SelectWord::Order, Some(axis)),
        SlabFault::Past { axis } => bad_axis(SelectWord::Past, Some(axis)),
        SlabFault::TooMany { count } => Refusal::TooMany {
            count,
            limit: MAX_SELECTED,
        },
    }
}

pub(crate) fn refused_dims(fault: ShapeFault) -> Refusal
    ensures { result ≡ dims_refusal fault }
{
    match fault {
        ShapeFault::NotAShape => bad_axis(SelectWord::Syntax, None),
        ShapeFault::Rank => bad_axis(SelectWord::Rank, None),
        ShapeFault::DimOverMax { axis } => bad_axis(SelectWord::Past, Some(axis)),
        ShapeFault::TooLarge => bad_axis(SelectWord::TooLarge, None),
    }
}

fn bad_axis(fault: SelectWord, axis: Option<u8>) -> Refusal
    ensures { result ≡ BadSelect fault axis None None }
{
    Refusal::BadSelect {
        fault,
        axis,
        byte: None,
        index: None,
    }
}

fn bad_point(fault: SelectWord, index: u64) -> Refusal
    ensures { result ≡ BadSelect fault None None (Some index) }
{
    Refusal::BadSelect {
        fault,
        axis: None,
        byte: None,
        index: Some(index),
    }
}

fn bad_element(fault: ValueWord, place: u64) -> Refusal
    ensures { result ≡ BadValue fault (Some place) None None }
{
    Refusal::BadValue {
        fault,
        place: Some(place),
        got: None,
        want: None,
    }
}
