//! What is decided of a request.

use crate::tickets::Tickets;
use access_lists::Right;
use object_ops::{Refusal, Reply};

/// What is decided of a request at its place.
pub enum Verdict {
    /// It is granted, and these turns of lanes do it.
    Granted(Tickets),
    /// It is done: it was about folders, domains and access lists alone.
    Answered(Reply),
    /// The access list in force doesn't give the caller the right.
    Denied {
        /// The right that the request needs.
        right: Right,
    },
    /// It is refused.
    Refused(Refusal),
    /// Memory ran out, and nothing but the place was taken.
    NoMemory,
}
