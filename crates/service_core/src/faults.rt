//! Faults that name a key.

ghost use Rattle.service_core.specs.Records.{Names};

use register::InstallFault;
use std::alloc::Global;

/// The fault of a record that has this key.
pub(crate) fn bad_record(alloc: Global, key: &[u8]) -> InstallFault
    ensures { Names key.now result }
{
    match key.to_vec(alloc) {
        Ok(key) => InstallFault::BadRecord { key },
        Err(_) => InstallFault::NoMemory,
    }
}
