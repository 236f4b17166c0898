//! Why no journal is opened or made.

ghost use Rattle.std.specs.Prelude.{◌≡◌};
ghost use Rattle.service_core.specs.Journals.Opening.{of_install};

use flush_journal::{JournalRefused, Why};
use register::InstallFault;

/// Why no world is opened.
#[derive(Drop)]
pub enum OpenFault {
    /// The disk had a fault.
    DiskFault,
    /// The bytes on the disk are no journal, and this is the place of what is wrong.
    NotAJournal { at: u64 },
    /// The record of this key is missing, or can't stand.
    BadRecord { key: Vec<u8> },
    /// The last run is kept, so that none is left.
    RunsUsed,
    /// Memory ran out.
    NoMemory,
}

/// A refusal to open a world, which hands the disk back.
#[derive(Drop)]
pub struct OpenRefused<D> {
    /// The disk.
    pub disk: D,
    /// Why it is refused.
    pub why: OpenFault,
}

/// A refusal to make a journal, which hands the disk back.
pub type MakeRefused<D> = JournalRefused<D>;

impl From<InstallFault> for OpenFault {
    ghost from_gives = { λ fault e. e ≡ of_install fault };

    fn from(fault: InstallFault) -> OpenFault {
        match fault {
            InstallFault::BadRecord { key } => OpenFault::BadRecord { key },
            InstallFault::RunsUsed => OpenFault::RunsUsed,
            InstallFault::NoMemory => OpenFault::NoMemory,
        }
    }
}
