ghost use Rattle.std.specs.Prelude.{◌≡◌};
ghost use Rattle.flush_journal.specs.declared.why.Why.TheVariants.{DiskFault, NoMemory};

use edge_traits::Failed;
use std::alloc::{AllocError, AllocFailed};

/// Why a journal refuses a call.
#[derive(Clone, Copy, Debug, PartialEq, Eq)]
pub enum Why {
    /// The disk had a fault.
    DiskFault,
    /// The bytes on the disk are no journal. `at` is the place of the first byte that differs from the header, of the
    /// length of an open batch whose payload isn't whole or is no list of records, or the disk's length where a marker
    /// is missing.
    NotAJournal { at: u64 },
    /// The batch doesn't fit: `end + need` is above `room`.
    JournalFull { end: u64, need: u64, room: u64 },
    /// A journal stands on the disk.
    Exists,
    /// No memory.
    NoMemory,
}

impl From<AllocError> for Why {
    ghost from_gives = { λ _ e. e ≡ NoMemory };

    fn from(_: AllocError) -> Self {
        Why::NoMemory
    }
}

impl<T: Drop> From<AllocFailed<T>> for Why {
    ghost from_gives = { λ _ e. e ≡ NoMemory };

    fn from(_: AllocFailed<T>) -> Self {
        Why::NoMemory
    }
}

impl From<Failed> for Why {
    ghost from_gives = { λ _ e. e ≡ DiskFault };

    fn from(_: Failed) -> Self {
        Why::DiskFault
    }
}

/// A refusal that hands the disk back.
#[derive(Drop)]
pub struct JournalRefused<D> {
    pub disk: D,
    pub why: Why,
}
