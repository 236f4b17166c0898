//! Why a body is no node's.

ghost use Rattle.std.specs.Prelude.{◌≡◌};
ghost use Rattle.domains.specs.Records.Faults.{of_list, of_name};
ghost use Rattle.domains.specs.declared.records.faults.NodeFault.TheVariants.{NoMemory};

use access_lists::ListFault;
use object_ids::NameFault;
use std::alloc::AllocError;

/// Why a body was not read.
#[derive(Clone, Copy, Debug, PartialEq, Eq)]
pub enum NodeFault {
    /// The body is that of no folder and no domain.
    BadNode,
    /// Memory ran out.
    NoMemory,
}

impl From<AllocError> for NodeFault {
    ghost from_gives = { λ _ e. e ≡ NoMemory };

    fn from(_error: AllocError) -> NodeFault {
        NodeFault::NoMemory
    }
}

impl From<NameFault> for NodeFault {
    ghost from_gives = { λ fault e. e ≡ of_name fault };

    fn from(fault: NameFault) -> NodeFault {
        match fault {
            NameFault::BadName => NodeFault::BadNode,
            NameFault::NoMemory => NodeFault::NoMemory,
        }
    }
}

impl From<ListFault> for NodeFault {
    ghost from_gives = { λ fault e. e ≡ of_list fault };

    fn from(fault: ListFault) -> NodeFault {
        match fault {
            ListFault::Limit => NodeFault::BadNode,
            ListFault::NoMemory => NodeFault::NoMemory,
        }
    }
}
