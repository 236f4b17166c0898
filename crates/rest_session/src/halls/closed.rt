//! What is left of a hall that was served.

use crate::halls::hiring::Report;
use edge_traits::Disk;
use flush_journal::{Journal, Why};
use hall::JournalDesk;
use service_core::World;

/// What is left of a hall that was closed.
#[derive(Drop)]
pub struct ClosedHall<D: Disk> {
    /// The world.
    pub world: World,
    /// How many requests were decided.
    pub front: u64,
    /// How many of them are kept.
    pub kept: u64,
    /// What the last flush was answered, once all workers had ended.
    pub last: Result<u64, Why>,
    /// What the worker at each door tells, in order.
    pub reports: Vec<Report>,
    /// The desk.
    pub desk: JournalDesk<D>,
}

/// What came of a hall that was to be served.
#[derive(Drop)]
pub enum HallOutcome<D: Disk> {
    /// There was no memory for the workers. The world is dropped.
    NoWorkers(Journal<D>),
    /// There was none for the hall. The world is dropped, and the journal with its disk.
    NoHall,
    /// The hall was served, and closed.
    Closed(ClosedHall<D>),
}

/// The doors, in order, and what came of the hall.
#[derive(Drop)]
pub struct ServedHall<F, D: Disk> {
    pub doors: Vec<F>,
    pub outcome: HallOutcome<D>,
}
