ghost use Rattle.std.specs.Prelude.{◌≡◌};
ghost use Rattle.domains.specs.declared.faults.CatFault.TheVariants.{NoMemory};

use object_ids::LimitKind;
use std::alloc::AllocError;

/// Why the catalogue was not changed, or a folder's children were not given.
#[derive(Clone, Copy, Debug, PartialEq, Eq)]
pub enum CatFault {
    /// No folder stands at the path, or at the parent of the path of a new node.
    NoFolder,
    /// A node stands at the path already.
    Taken,
    /// There can be no more of something.
    Limit { what: LimitKind },
    /// No node stands at the path.
    NoDomain,
    /// The folder has children.
    NotEmpty,
    /// The path is `/`.
    Root,
    /// There was no memory.
    NoMemory,
}

impl From<AllocError> for CatFault {
    ghost from_gives = { λ _ e. e ≡ NoMemory };

    fn from(_error: AllocError) -> CatFault {
        CatFault::NoMemory
    }
}
