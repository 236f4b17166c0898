//! What requests are answered.

use access_lists::Right;
use object_ops::Reply;

/// What a request is answered.
#[derive(Drop)]
pub enum What {
    /// It is done, or refused.
    Replied(Reply),
    /// The access list in force doesn't give the caller the right.
    Denied {
        /// The right that the request needs.
        right: Right,
    },
    /// Memory ran out. The place was taken, and the steps before the one that found none stand.
    NoMemory,
}

/// What a request is answered, and its place among all requests.
#[derive(Drop)]
pub struct Answer {
    /// The place.
    pub place: u64,
    /// What is answered.
    pub what: What,
}
