//! Where links lead.

ghost use Rattle.std.specs.Prelude.{◌≡◌, IfOk};

use object_ids::{Name, ObjectId};
use std::alloc::AllocError;

/// Where a link leads.
#[derive(Drop)]
pub enum LinkTo {
    /// To an object (`H5L_TYPE_HARD`).
    Hard(ObjectId),
    /// To a path in the same domain (`H5L_TYPE_SOFT`).
    Soft(Name),
    /// To a path in another file (`H5L_TYPE_EXTERNAL`).
    External {
        /// The path in that file.
        path: Name,
        /// The file, or the domain that stands for it.
        file: Name,
    },
}

impl LinkTo {
    /// The same link once more.
    pub fn copy(&self) -> Result<LinkTo, AllocError>
        ensures { IfOk result (λ link. link ≡ self.now) }
    {
        match self {
            LinkTo::Hard(id) => Ok(LinkTo::Hard(*id)),
            LinkTo::Soft(path) => Ok(LinkTo::Soft(path.copy()?)),
            LinkTo::External { path, file } => Ok(LinkTo::External {
                path: path.copy()?,
                file: file.copy()?,
            }),
        }
    }
}
