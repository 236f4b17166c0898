//! Where a link of a document leads.

use crate::parts::ids::IdText;
use object_ids::Name;

/// Where a link of a document leads.
#[derive(Drop)]
pub enum Target {
    /// To an object of the document (`H5L_TYPE_HARD`).
    Hard(IdText),
    /// To a path in the same domain (`H5L_TYPE_SOFT`).
    Soft(Name),
    /// To a path in another file (`H5L_TYPE_EXTERNAL`).
    External {
        /// The path in that file.
        path: Name,
        /// The file, or the domain that stands for it.
        file: Name,
    },
}
