ghost use Rattle.std.specs.Prelude.{◌≡◌};
ghost use Rattle.rest_session.specs.Kept.Doors.{outcome_of};
ghost use Rattle.rest_session.specs.Kept.Sessions.{of_begin};

use crate::halls::Report;
use crate::links::LinkEnd;
use flush_journal::Why;
use service_core::journals::{BeginFault, OpenFault};

/// How a link that was served over a world left it.
#[derive(Clone, Copy, Debug, PartialEq, Eq)]
pub struct Closed {
    /// How many requests the world had decided at the link's end.
    pub front: u64,
    /// How many it had decided when it was last kept.
    pub kept: u64,
    /// How the link ended.
    pub end: LinkEnd,
}

/// What a session came to.
#[derive(Drop)]
pub enum Outcome {
    /// No world was opened. Nothing was read from the link or written to it.
    Unopened(OpenFault),
    /// The record of the run was refused. Nothing was read from the link or written to it.
    Unbegun(Why),
    /// The link was served.
    Served {
        /// How that ended.
        closed: Closed,
        /// What the keeping after its end was answered.
        last: Result<u64, Why>,
    },
}

/// What a session came to, and the disk.
#[derive(Drop)]
pub struct Ended<D> {
    /// The disk.
    pub disk: D,
    /// What it came to.
    pub outcome: Outcome,
}

impl From<BeginFault> for Outcome {
    ghost from_gives = { λ fault outcome. outcome ≡ of_begin fault };

    fn from(fault: BeginFault) -> Outcome {
        match fault {
            BeginFault::Unopened(why) => Outcome::Unopened(why),
            BeginFault::Unbegun(why) => Outcome::Unbegun(why),
        }
    }
}

/// How the doors that were served over a hall left its world.
#[derive(Drop)]
pub struct ClosedDoors {
    /// How many requests the world had decided when the hall was closed.
    pub front: u64,
    /// How many of these are kept.
    pub kept: u64,
    /// What the worker at each door tells, in order.
    pub reports: Vec<Report>,
}

/// What doors came to that were to be served over a disk.
#[derive(Drop)]
pub enum DoorsOutcome {
    /// No world was opened. Nothing was asked of a door.
    Unopened(OpenFault),
    /// The record of the run was refused. Nothing was asked of a door.
    Unbegun(Why),
    /// There was no memory for the hall or its workers. Nothing was asked of a door, and nothing was written but the record of
    /// the run. Where there was none for the hall the disk is dropped.
    Unserved,
    /// The doors were served.
    Served {
        /// How they left the world.
        closed: ClosedDoors,
        /// What the flush after the last worker's end was answered.
        last: Result<u64, Why>,
    },
}

/// What the doors came to, with the doors, in order, and the disk, which is missing only where there was no memory for the hall.
#[derive(Drop)]
pub struct DoorsEnded<F, D> {
    /// The doors.
    pub doors: Vec<F>,
    /// The disk.
    pub disk: Option<D>,
    /// What they came to.
    pub outcome: DoorsOutcome,
}

impl From<BeginFault> for DoorsOutcome {
    ghost from_gives = { λ fault outcome. outcome ≡ outcome_of fault };

    fn from(fault: BeginFault) -> DoorsOutcome {
        match fault {
            BeginFault::Unopened(why) => DoorsOutcome::Unopened(why),
            BeginFault::Unbegun(why) => DoorsOutcome::Unbegun(why),
        }
    }
}
