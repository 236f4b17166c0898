//! Why no register is made from records.

ghost use Rattle.std.specs.Prelude.{◌≡◌};
ghost use Rattle.register.specs.Kept.{of_records};

use object_records::InstallFault as RecordFault;

/// Why no register is made from what a journal holds.
#[derive(Drop)]
pub enum InstallFault {
    /// The least key of the register whose record is missing or can't stand.
    BadRecord { key: Vec<u8> },
    /// The last run is kept, so that none is left.
    RunsUsed,
    /// Memory ran out.
    NoMemory,
}

impl From<RecordFault> for InstallFault {
    ghost from_gives = { λ fault e. e ≡ of_records fault };

    fn from(fault: RecordFault) -> InstallFault {
        match fault {
            RecordFault::BadRecord { key } => InstallFault::BadRecord { key },
            RecordFault::NoMemory => InstallFault::NoMemory,
        }
    }
}
