//! An object, and what the next cut writes of it.

use object_acts::Object;

/// What the next cut writes of an object, beside the chunks of its array that changed.
#[derive(Clone, Copy, Debug, PartialEq, Eq)]
pub enum Mark {
    /// Nothing: its record stands.
    Kept,
    /// Its record.
    Changed,
    /// That its records are gone. It was removed.
    Dropped,
}

/// An object of a lane, and what the next cut writes of it.
#[derive(Drop)]
pub struct Slot {
    pub object: Object,
    pub mark: Mark,
}
