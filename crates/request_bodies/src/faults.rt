//! Why a body is refused.

ghost use Rattle.std.specs.Prelude.{◌≡◌};
ghost use Rattle.request_bodies.specs.declared.faults.BodyFault.TheVariants.{NoMemory, Refused};
ghost use Rattle.request_bodies.specs.declared.faults.AttributeBodyFault.TheVariants.{Body};

use json_trees::ReadFault;
use object_ops::Refusal;
use std::alloc::AllocError;

/// Why a body gives no part of an operation.
#[derive(Drop)]
pub enum BodyFault {
    /// It is refused.
    Refused(Refusal),
    /// Memory ran out.
    NoMemory,
}

/// Why a body gives no attribute.
#[derive(Drop)]
pub enum AttributeBodyFault {
    /// The attribute has more than [`MAX_ATTRIBUTE_CELLS`](crate::MAX_ATTRIBUTE_CELLS) cells.
    TooManyCells,
    /// The body is refused, or memory ran out.
    Body(BodyFault),
}

impl From<BodyFault> for AttributeBodyFault {
    ghost from_gives = { λ fault e. e ≡ Body fault };

    fn from(fault: BodyFault) -> AttributeBodyFault {
        AttributeBodyFault::Body(fault)
    }
}

impl From<Refusal> for BodyFault {
    ghost from_gives = { λ refusal e. e ≡ Refused refusal };

    fn from(refusal: Refusal) -> BodyFault {
        BodyFault::Refused(refusal)
    }
}

impl From<AllocError> for BodyFault {
    ghost from_gives = { λ _ e. e ≡ NoMemory };

    fn from(_error: AllocError) -> BodyFault {
        BodyFault::NoMemory
    }
}

impl From<ReadFault> for BodyFault {
    ghost use Rattle.request_bodies.specs.Refusing.{read_fault};

    ghost from_gives = { λ fault e. e ≡ read_fault fault };

    fn from(fault: ReadFault) -> BodyFault {
        match fault {
            ReadFault::NoMemory => BodyFault::NoMemory,
            ReadFault::NotJson => BodyFault::Refused(Refusal::BadJson),
        }
    }
}
