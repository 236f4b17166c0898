//! What holds of every desk. No program calls these functions; the contract of each is the law.
ghost use Rattle.std.specs.Prelude.{ℕ};
ghost use Rattle.journal_desk.specs.Laws.{CutsCanCome, KeepingsFollow, MarkedCutsWrite};
ghost use Rattle.journal_desk.specs.Notes.{at_lanes};

use crate::note::Note;
use edge_traits::Disk;

/// The item that a turn adds to the keepings' list is one that the desk's next turn takes up: where
/// it says Ok, its numbers are what the desk keeps, and its moment is from when on.
pub fn keepings_follow<D: Disk, N: Note>()
    ensures { (lanes : ℕ) → KeepingsFollow D.Disk (at_lanes N.Note lanes) }
{}

/// What `Turns` says can be met: from each legal history a cut may be drawn; a lane whose next
/// ticket is that of a cut may be cut, with or without memory; and so may the register.
pub fn cuts_can_come<N: Note>()
    ensures { (lanes : ℕ) → CutsCanCome (N.kept lanes) }
{}

/// What `Turns` says of a lane's cut, from the lane's marks alone: with the records of the cut,
/// what said the lane as it was at its last cut says it as it stands.
pub fn marked_cuts_write<N: Note>()
    ensures { (lanes : ℕ) → MarkedCutsWrite (N.kept lanes) }
{}
