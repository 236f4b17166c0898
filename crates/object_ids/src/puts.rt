// Why a value was not put at a name, or not taken from it.
ghost use Rattle.std.specs.Prelude.{◌≡◌};
ghost use Rattle.object_ids.specs.declared.puts.PutFault.TheVariants.{NoMemory};

use std::alloc::AllocError;

/// Why a value was not put at a name that was to be new.
#[derive(Clone, Copy, Debug, PartialEq, Eq)]
pub enum PutFault {
    /// The name has a value already.
    Taken,
    /// There are as many names as there may be.
    Limit,
    /// Memory ran out.
    NoMemory,
}

impl From<AllocError> for PutFault {
    ghost from_gives = { λ _ e. e ≡ NoMemory };

    fn from(_error: AllocError) -> PutFault {
        PutFault::NoMemory
    }
}

/// No value stands at the name.
#[derive(Clone, Copy, Debug, PartialEq, Eq)]
pub struct NoName;
