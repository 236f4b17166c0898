// A journal's numbers.

/// A journal's numbers.
#[derive(Clone, Copy, Debug, PartialEq, Eq)]
pub struct Report {
    /// The version of the format.
    pub version: u32,
    /// How many lanes the journal is for.
    pub lanes: u32,
    /// How many batches are held.
    pub batches: u64,
    /// The place of the first closed marker.
    pub end: u64,
}
