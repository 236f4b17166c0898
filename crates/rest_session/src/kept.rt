//! Sessions over a disk: the journal is opened, a run begins, one link or the links of many doors are served, and what changed
//! is kept.

mod doors;
mod outcome;
mod session;

pub use doors::serve_doors;
pub use outcome::{Closed, ClosedDoors, DoorsEnded, DoorsOutcome, Ended, Outcome};
pub use session::serve_disk;
