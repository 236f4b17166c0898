//! What the notebook is asked, and what it answers.

/// To look at the notes, to write one, or that none may be written from now on.
#[derive(Clone, Copy)]
pub enum Request {
    Looks,
    Writes(u64),
    Revokes,
}

/// Answered at once, denied, or granted: then the note is written in a turn of its lane.
#[derive(Clone, Copy)]
pub enum Verdict {
    Answered,
    Denied,
    Granted(u64),
}
