ghost use Rattle.std.specs.Prelude.{◌≡◌};
ghost use Rattle.configuration.specs.declared.fault.Refusal.TheVariants.{NoMemory};

use object_ids::NameFault;
use std::alloc::{AllocError, AllocFailed};

/// Why a text was not read as a configuration.
#[derive(Clone, Copy, Debug, PartialEq, Eq)]
pub enum ConfigFault {
    /// The text is no TOML document.
    BadToml,
    /// The document breaks a rule of configurations.
    BadKey,
    /// There was no memory for the configuration.
    NoMemory,
}

/// Why a part of a document was not read.
#[derive(Clone, Copy, Debug, PartialEq, Eq)]
pub enum Refusal {
    /// It breaks a rule.
    BadKey,
    /// There was no memory for it.
    NoMemory,
}

impl From<AllocError> for Refusal {
    ghost from_gives = { λ _ e. e ≡ NoMemory };

    fn from(_error: AllocError) -> Refusal {
        Refusal::NoMemory
    }
}

impl<T: Drop> From<AllocFailed<T>> for Refusal {
    ghost from_gives = { λ _ e. e ≡ NoMemory };

    fn from(_error: AllocFailed<T>) -> Refusal {
        Refusal::NoMemory
    }
}

impl From<NameFault> for Refusal {
    ghost use Rattle.configuration.specs.Refusals.{from_name_fault};

    ghost from_gives = { λ f e. e ≡ from_name_fault f };

    fn from(fault: NameFault) -> Refusal {
        match fault {
            NameFault::BadName => Refusal::BadKey,
            NameFault::NoMemory => Refusal::NoMemory,
        }
    }
}
