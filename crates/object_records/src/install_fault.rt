//! Why records describe no objects.

/// Why records describe no objects.
#[derive(Drop)]
pub enum InstallFault {
    /// The least key at fault.
    BadRecord { key: Vec<u8> },
    /// Memory ran out.
    NoMemory,
}
