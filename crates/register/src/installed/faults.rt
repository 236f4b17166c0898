//! Faults that name a key.

ghost use Rattle.register.specs.Installed.Walks.{Names};

use domains::records::NodeFault;
use object_records::InstallFault;
use std::alloc::{AllocError, Global};

// The fault of a record that has this key.
pub(crate) fn fault_at(alloc: Global, key: &[u8], fault: NodeFault) -> InstallFault
    ensures { Names key.now fault result }
{
    match fault {
        NodeFault::BadNode => match key.to_vec(alloc) {
            Ok(key) => InstallFault::BadRecord { key },
            Err(AllocError) => InstallFault::NoMemory,
        },
        NodeFault::NoMemory => InstallFault::NoMemory,
    }
}
