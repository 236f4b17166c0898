//! A verdict at a place where the right is gone.

ghost use Rattle.lane_tests.specs.Examples.Cuts.{start};
ghost use Rattle.lane_tests.specs.Examples.Notes.{notes};
ghost use Rattle.lane_tests.specs.Examples.Revoked.{revoked_first};
ghost use Rattle.lane_histories.specs.Legal.{IsLegal};

use crate::examples::requests::Verdict;

/// The verdict on a note that is to be written at place 1, where the right went at place 0.
pub fn verdict_behind_the_revocation() -> Verdict
    ensures { IsLegal notes start (revoked_first result) }
{
    Verdict::Denied
}
