//! Why a document is not adopted.

ghost use Rattle.std.specs.Prelude.{◌≡◌};
ghost use Rattle.json_import.specs.Adoption.Faults.{told};
ghost use Rattle.json_import.specs.declared.adoption.faults.AdoptFault.TheVariants.{NoMemory};

use domains::CatFault;
use object_ids::LimitKind;
use std::alloc::AllocError;

/// Why a document was not adopted.
#[derive(Clone, Copy, Debug, PartialEq, Eq)]
pub enum AdoptFault {
    /// No folder stands at the parent of the path.
    NoFolder,
    /// A node stands at the path already.
    Taken,
    /// There can be no more of something.
    Limit { what: LimitKind },
    /// Memory ran out.
    NoMemory,
}

impl From<CatFault> for AdoptFault {
    ghost from_gives = { λ fault e. e ≡ told fault };

    fn from(fault: CatFault) -> AdoptFault {
        match fault {
            CatFault::NoFolder | CatFault::NoDomain => AdoptFault::NoFolder,
            CatFault::Taken | CatFault::NotEmpty | CatFault::Root => AdoptFault::Taken,
            CatFault::Limit { what } => AdoptFault::Limit { what },
            CatFault::NoMemory => AdoptFault::NoMemory,
        }
    }
}

impl From<AllocError> for AdoptFault {
    ghost from_gives = { λ _ e. e ≡ NoMemory };

    fn from(_error: AllocError) -> AdoptFault {
        AdoptFault::NoMemory
    }
}
