//! Why there is no document.

ghost use Rattle.std.specs.Prelude.{◌≡◌};
ghost use Rattle.json_export.specs.Faults.{of_print};

use documents::domains::PrintFault;
use std::alloc::AllocError;

/// Why a document is not given.
#[derive(Clone, Copy, Debug, PartialEq, Eq)]
pub enum ExportFault {
    /// No domain is at the path.
    NoDomain,
    /// The compact text of the document has more than [`crate::MAX_TEXT`] bytes.
    TooLarge,
    /// There was no memory.
    NoMemory,
}

impl From<PrintFault> for ExportFault {
    ghost from_gives = { λ fault e. e ≡ of_print fault };

    fn from(fault: PrintFault) -> ExportFault {
        match fault {
            PrintFault::TooLarge => ExportFault::TooLarge,
            PrintFault::NoMemory => ExportFault::NoMemory,
        }
    }
}

impl From<AllocError> for ExportFault {
    ghost use Rattle.json_export.specs.declared.faults.ExportFault.TheVariants.{NoMemory};

    ghost from_gives = { λ _ e. e ≡ NoMemory };

    fn from(_error: AllocError) -> ExportFault {
        ExportFault::NoMemory
    }
}
