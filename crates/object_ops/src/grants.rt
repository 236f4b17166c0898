//! What is fixed once a request is granted.

use object_ids::ObjectId;

/// What was fixed when a request was granted.
#[derive(Clone, Copy, Debug, PartialEq, Eq)]
pub struct Grant {
    /// The number of the domain.
    pub number: u64,
    /// The domain's root group.
    pub root: ObjectId,
    /// The id of the object that is to be made, where one is.
    pub fresh: Option<ObjectId>,
    /// The run in which the request stands.
    pub run: u32,
    /// The serial that comes next behind the request.
    pub serial: u64,
}

/// The part of a request that touches one object.
#[derive(Clone, Copy, Debug, PartialEq, Eq)]
pub enum Step {
    /// The whole request.
    Only,
    /// The link to an object that is to be made.
    Link,
    /// The making of an object to which a link leads.
    Make,
}
