//! Why a body was not read.

ghost use Rattle.std.specs.Prelude.{◌≡◌};
ghost use Rattle.object_records.specs.declared.faults.BodyFault.TheVariants.{NoObject, NoMemory};
ghost use Rattle.object_records.specs.FaultsOf.{of_type, of_attribute, of_link, of_name, of_put};
ghost use Rattle.object_records.specs.FaultsOf.{of_value};

use chunk_layout::LayoutFault;
use groups_links::LinkFault;
use hdf_types::TypeFault;
use hdf_values::{AttributeFault, ValueFault};
use object_ids::{NameFault, PutFault};
use shapes::ShapeFault;
use std::alloc::AllocError;

/// Why a body was not read.
#[derive(Clone, Copy, Debug, PartialEq, Eq)]
pub enum BodyFault {
    /// The body is that of no object of the kind.
    NoObject,
    /// Memory ran out.
    NoMemory,
}

impl From<AllocError> for BodyFault {
    ghost from_gives = { λ _ e. e ≡ NoMemory };

    fn from(_error: AllocError) -> BodyFault {
        BodyFault::NoMemory
    }
}

impl From<TypeFault> for BodyFault {
    ghost from_gives = { λ fault e. e ≡ of_type fault };

    fn from(fault: TypeFault) -> BodyFault {
        match fault {
            TypeFault::NoMemory => BodyFault::NoMemory,
            TypeFault::Refused { .. } => BodyFault::NoObject,
        }
    }
}

impl From<AttributeFault> for BodyFault {
    ghost from_gives = { λ fault e. e ≡ of_attribute fault };

    fn from(fault: AttributeFault) -> BodyFault {
        match fault {
            AttributeFault::NoMemory => BodyFault::NoMemory,
            _ => BodyFault::NoObject,
        }
    }
}

impl From<LinkFault> for BodyFault {
    ghost from_gives = { λ fault e. e ≡ of_link fault };

    fn from(fault: LinkFault) -> BodyFault {
        match fault {
            LinkFault::NotALink => BodyFault::NoObject,
            LinkFault::NoMemory => BodyFault::NoMemory,
        }
    }
}

impl From<NameFault> for BodyFault {
    ghost from_gives = { λ fault e. e ≡ of_name fault };

    fn from(fault: NameFault) -> BodyFault {
        match fault {
            NameFault::BadName => BodyFault::NoObject,
            NameFault::NoMemory => BodyFault::NoMemory,
        }
    }
}

impl From<PutFault> for BodyFault {
    ghost from_gives = { λ fault e. e ≡ of_put fault };

    fn from(fault: PutFault) -> BodyFault {
        match fault {
            PutFault::NoMemory => BodyFault::NoMemory,
            _ => BodyFault::NoObject,
        }
    }
}

impl From<ValueFault> for BodyFault {
    ghost from_gives = { λ fault e. e ≡ of_value fault };

    fn from(fault: ValueFault) -> BodyFault {
        match fault {
            ValueFault::NoMemory => BodyFault::NoMemory,
            _ => BodyFault::NoObject,
        }
    }
}

impl From<ShapeFault> for BodyFault {
    ghost from_gives = { λ _ e. e ≡ NoObject };

    fn from(_fault: ShapeFault) -> BodyFault {
        BodyFault::NoObject
    }
}

impl From<LayoutFault> for BodyFault {
    ghost from_gives = { λ _ e. e ≡ NoObject };

    fn from(_fault: LayoutFault) -> BodyFault {
        BodyFault::NoObject
    }
}
