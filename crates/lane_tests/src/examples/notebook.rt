//! Notes in two lanes, and one right to write them.

ghost use Rattle.std.specs.Prelude.{◌≡◌, ℕ};
ghost use Rattle.lane_tests.specs.Examples.Marks.{MarkedNotes, marking};
ghost use Rattle.lane_tests.specs.Examples.Notes.{Held};
ghost use Rattle.lane_histories.specs.Since.{CutsMarked, IsSince};

use lane_histories::{Lanes, MarkedLanes, cuts_tell_the_lane};

/// The notes of each lane, and whether more may be written.
pub struct Notebook;

impl Lanes for Notebook {
    ghost use Rattle.lane_tests.specs.Examples.Notes.{contents, notes};

    ghost service = { λ lanes. notes };

    ghost contents = { λ lanes. contents };
}

/// The same, whose lanes know whether they changed since their last cut.
pub struct MarkedNotebook;

impl MarkedLanes for MarkedNotebook {
    ghost use Rattle.lane_tests.specs.Examples.Marks.{marking};
    ghost use Rattle.lane_tests.specs.Examples.Notes.{contents, notes};

    ghost service = { λ lanes. notes };

    ghost contents = { λ lanes. contents };

    ghost marking = { λ lanes. marking };
}

/// A lane each of whose changes since its last cut is marked is told by its next cut as it stands.
pub fn marked_lane_is_cut()
    ensures { (l : ℕ) (last old new : MarkedNotes) (before after : Held)
        → IsSince marking l last old → marking.Says before l last
        → CutsMarked marking l old new before after → after.written l ≡ old.written }
{
    cuts_tell_the_lane::<MarkedNotebook>();
}
