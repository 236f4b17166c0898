//! Why trees are no creation properties.

ghost use Rattle.std.specs.Prelude.{◌≡◌};
ghost use Rattle.object_ops.specs.Creation.Creations.{fill_fault};
ghost use Rattle.object_ops.specs.declared.creation.faults.CreationFault.TheVariants.{NoMemory, BadLayout};

use chunk_layout::LayoutFault;
use hdf_values::ValueFault;
use std::alloc::AllocError;

/// Why a tree was not read as creation properties. Of several faults the one that stands first here
/// is told.
#[derive(Clone, Copy, Debug, PartialEq, Eq)]
pub enum CreationFault {
    /// Memory ran out.
    NoMemory,
    /// The properties are no object.
    NotAnObject,
    /// The `layout` is none of the dataset.
    BadLayout,
    /// The `filters` are no list, or not an empty one.
    HasFilters,
    /// The `fillValue` is no element of the type.
    BadFill,
}

impl From<AllocError> for CreationFault {
    ghost from_gives = { λ _ e. e ≡ NoMemory };

    fn from(_error: AllocError) -> CreationFault {
        CreationFault::NoMemory
    }
}

impl From<LayoutFault> for CreationFault {
    ghost from_gives = { λ _ e. e ≡ BadLayout };

    fn from(_fault: LayoutFault) -> CreationFault {
        CreationFault::BadLayout
    }
}

impl From<ValueFault> for CreationFault {
    ghost from_gives = { λ fault e. e ≡ fill_fault fault };

    fn from(fault: ValueFault) -> CreationFault {
        match fault {
            ValueFault::NoMemory => CreationFault::NoMemory,
            _ => CreationFault::BadFill,
        }
    }
}
