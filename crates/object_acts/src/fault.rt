//! Why a change is neither done nor refused.

ghost use Rattle.std.specs.Prelude.{◌≡◌};
ghost use Rattle.object_acts.specs.declared.fault.ChangeFault.TheVariants.{NoMemory};

use std::alloc::AllocError;

/// Why a change is neither done nor refused; then all is as it was.
#[derive(Clone, Copy, Debug, PartialEq, Eq)]
pub enum ChangeFault {
    /// The chunks that a write adds to an array would have more than
    /// [`MAX_NEW_BYTES`](crate::arrays::MAX_NEW_BYTES) bytes.
    TooManyNew,
    /// Memory ran out.
    NoMemory,
}

impl From<AllocError> for ChangeFault {
    ghost from_gives = { λ _ fault. fault ≡ NoMemory };

    fn from(_error: AllocError) -> ChangeFault {
        ChangeFault::NoMemory
    }
}

// What answers tell alike: that there was no room.
impl From<ChangeFault> for AllocError {
    fn from(_fault: ChangeFault) -> AllocError {
        AllocError
    }
}
