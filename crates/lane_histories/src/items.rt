//! The items of the lists: those of the register, those of each lane, and those of the journal's
//! desk.

/// A request: its place, the number of the pass that asked, what it asked, and the verdict.
#[derive(Drop)]
pub struct Entry<Q, V> {
    pub place: u64,
    pub by: u32,
    pub asked: Q,
    pub verdict: V,
}

/// An item of the register's list. A cut has no place, and tells how many places were given before
/// it. A drawn cut has a number of its own, and a register cut says whether it found memory.
#[derive(Drop)]
pub enum RegisterItem<Q, V> {
    Entered(Entry<Q, V>),
    DrawnCut { number: u64, places: u64 },
    RegisterCut { places: u64, found: bool },
}

/// Which turn of its request: the only one, or one in each lane; the first of two; or the second of
/// two, with the lane of the first.
#[derive(Clone, Copy)]
pub enum Part {
    Only,
    First,
    Second { lane: u32 },
}

/// What came of a turn: done, with a reply; memory was wanting, and nothing was done; or it was
/// passed over.
#[derive(Drop)]
pub enum Outcome<R> {
    Done(R),
    Short,
    Skipped,
}

/// An item of a lane's list: a turn of the request at a place, or the lane's part of a drawn cut.
#[derive(Drop)]
pub enum LaneItem<T, R> {
    Passed {
        place: u64,
        part: Part,
        task: T,
        outcome: Outcome<R>,
    },
    WasCut {
        number: u64,
        places: u64,
        found: bool,
    },
}

/// How far a journal reaches: all before place `c` is kept, under the catalogue of place `p`.
#[derive(Clone, Copy, Debug, PartialEq, Eq)]
pub struct Reach {
    pub c: u64,
    pub p: u64,
}

/// What a turn of the journal was answered.
#[derive(Clone, Copy)]
pub enum Answer {
    Kept,
    Refused,
    Looked,
}

/// A turn of the journal: how far its batch was cut, how far the desk reaches at its end, what it
/// was answered, the disk's counts of faults before and after it, the disk's moment at its end, and
/// where the journal ends then, with how many bytes a batch needs that is pending, 0 where none is.
#[derive(Clone, Copy)]
pub struct Keeping {
    pub cut: Reach,
    pub own: Reach,
    pub answer: Answer,
    pub faults_before: u64,
    pub faults_after: u64,
    pub moment: u64,
    pub end: u64,
    pub owed: u64,
}
