ghost use Rattle.std.specs.Prelude.{◌≡◌};
ghost use Rattle.json_import.specs.Kept.Parts.{of_begin};

use crate::adoption::Counts;
use flush_journal::Why;
use service_core::journals::{BeginFault, OpenFault};

/// What an import came to.
#[derive(Drop)]
pub enum Outcome {
    /// No world was opened. Nothing was read from the source.
    Unopened(OpenFault),
    /// The record of the run was refused. Nothing was read from the source.
    Unbegun(Why),
    /// The source had a fault.
    Unread,
    /// The text is longer than 2^27 bytes or is no document, or the document can't be adopted at the path.
    Refused,
    /// Memory ran out before anything was kept beside the run's record.
    NoMemory,
    /// The document was adopted, and keeping it was refused.
    Unkept(Why),
    /// The document was adopted, with so many objects, and is kept.
    Adopted(Counts),
}

/// What an import came to, and the disk.
#[derive(Drop)]
pub struct Imported<D> {
    /// The disk.
    pub disk: D,
    /// What it came to.
    pub outcome: Outcome,
}

impl From<BeginFault> for Outcome {
    ghost from_gives = { λ fault outcome. outcome ≡ of_begin fault };

    fn from(fault: BeginFault) -> Outcome {
        match fault {
            BeginFault::Unopened(why) => Outcome::Unopened(why),
            BeginFault::Unbegun(why) => Outcome::Unbegun(why),
        }
    }
}
