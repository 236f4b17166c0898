//! Which domain a document is of.

use object_ids::ObjectId;

/// A domain: its number, and the id of its root group.
#[derive(Clone, Copy, Debug, PartialEq, Eq)]
pub struct Home {
    /// Its number, which the ids of its objects have.
    pub number: u64,
    /// The id of its root, which may be held nowhere; the root then is an empty group.
    pub root: ObjectId,
}
