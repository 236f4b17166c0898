//! Why a record is not installed.

ghost use Rattle.std.specs.Prelude.{◌≡◌};
ghost use Rattle.object_records.specs.declared.faults.BodyFault.{BodyFault};
ghost use Rattle.chunk_owner.specs.declared.installs.faults.RecordFault.TheVariants.{NoMemory};
ghost use Rattle.chunk_owner.specs.Installs.Walks.{of_body, of_chunk};

use chunk_store::InstallFault as ChunkFault;
use object_records::BodyFault;
use std::alloc::AllocError;

/// Why a record was not installed.
#[derive(Clone, Copy, Debug, PartialEq, Eq)]
pub(crate) enum RecordFault {
    /// It can't stand.
    BadRecord,
    /// Memory ran out.
    NoMemory,
}

impl From<AllocError> for RecordFault {
    ghost from_gives = { λ _ e. e ≡ NoMemory };

    fn from(_error: AllocError) -> RecordFault {
        RecordFault::NoMemory
    }
}

impl From<BodyFault> for RecordFault {
    ghost from_gives = { λ fault e. e ≡ of_body fault };

    fn from(fault: BodyFault) -> RecordFault {
        match fault {
            BodyFault::NoObject => RecordFault::BadRecord,
            BodyFault::NoMemory => RecordFault::NoMemory,
        }
    }
}

impl From<ChunkFault> for RecordFault {
    ghost from_gives = { λ fault e. e ≡ of_chunk fault };

    fn from(fault: ChunkFault) -> RecordFault {
        match fault {
            ChunkFault::BadChunk => RecordFault::BadRecord,
            ChunkFault::NoMemory => RecordFault::NoMemory,
        }
    }
}
