//! Why bytes are not read.

ghost use Rattle.std.specs.Prelude.{◌≡◌};

use json::Invalid;
use std::alloc::AllocError;

/// Why bytes are not read as a tree.
#[derive(Clone, Copy, Debug, Drop, PartialEq, Eq)]
pub enum ReadFault {
    /// Memory ran out.
    NoMemory,
    /// `serde_json` reads no tree from them.
    NotJson,
}

impl From<AllocError> for ReadFault {
    ghost use Rattle.json_trees.specs.declared.kept.fault.ReadFault.TheVariants.{NoMemory};

    ghost from_gives = { λ _ e. e ≡ NoMemory };

    fn from(_: AllocError) -> ReadFault {
        ReadFault::NoMemory
    }
}

impl From<Invalid> for ReadFault {
    ghost use Rattle.json_trees.specs.declared.kept.fault.ReadFault.TheVariants.{NotJson};

    ghost from_gives = { λ _ e. e ≡ NotJson };

    fn from(_: Invalid) -> ReadFault {
        ReadFault::NotJson
    }
}
