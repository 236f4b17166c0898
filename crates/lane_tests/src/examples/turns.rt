//! The two turns of a request: an object is linked from a group in the one, and made in the other.

ghost use Rattle.std.specs.Prelude.{◌≡◌, ℕ, false, true, None, Some, slice_get};
ghost use Rattle.lane_tests.specs.Examples.Links.{AreGiven, IsWithout, Objects, Task, links, make_at};
ghost use Rattle.lane_tests.specs.Examples.Made.{asked_alone, link_short, linked_alone, made_in_one_lane};
ghost use Rattle.lane_tests.specs.Examples.Made.{made_with, with_group};
ghost use Rattle.lane_histories.specs.Histories.{History, issued, objects_after, objects_left};
ghost use Rattle.lane_histories.specs.Histories.{part_of};
ghost use Rattle.lane_histories.specs.Legal.{IsLegal, IsNext};
ghost use Rattle.lane_histories.specs.Replies.{by_turn, no_memory, reply};
ghost use Rattle.lane_histories.specs.Services.{World};
ghost use Rattle.lane_histories.specs.declared.items.Outcome.TheVariants.{Done, Short, Skipped};
ghost use Rattle.lane_histories.specs.declared.items.Part.{Part};
ghost use Rattle.lane_histories.specs.declared.items.Part.TheVariants.{Second};

use crate::examples::linked::LinkedObjects;
use lane_histories::{Outcome, turns_are_ready};

/// Whenever the turn comes in which an object is made, its lane has no object of that id.
pub fn made_objects_are_fresh()
    ensures { (start : World links) (h : History links) → IsLegal links start h
        → ((l : ℕ) → AreGiven start.register (start.objects l)) → (l place : ℕ) (part : Part)
        (fresh : ℕ) → IsNext links h l (part_of place part (make_at fresh))
        → IsWithout fresh (objects_after links (start.objects l) (h.lane l)) }
{
    turns_are_ready::<LinkedObjects>();
}

/// What comes of the turn in which the object is made: it is passed over exactly where the group to
/// link it from isn't there.
pub fn outcome_of_the_make(linked: bool) -> Outcome<bool>
    ensures { IsLegal links (with_group linked) (made_with linked result) }
{
    if linked {
        Outcome::Done(true)
    } else {
        Outcome::Skipped
    }
}

/// The number of the ticket for the turn in which the object is made, where both turns are in one
/// lane.
pub fn ticket_of_the_make() -> u64
    ensures { slice_get (issued links 0 made_in_one_lane) result
        ≡ Some (part_of 0 (Second 0) (make_at 2)) }
{
    1
}

/// A request of two turns has one answer: that of the last turn that was reached, or that memory
/// was wanting, and none before that turn was taken.
pub fn two_turns_have_one_answer()
    ensures made { reply links (made_with true (Done true)) 0 ≡ Some (by_turn true) }
    ensures refused { reply links (made_with false Skipped) 0 ≡ Some (by_turn false) }
    ensures short { reply links (made_with true Short) 0 ≡ Some no_memory }
    ensures link { reply links link_short 0 ≡ Some no_memory }
    ensures half { reply links linked_alone 0 ≡ None }
    ensures waiting { reply links asked_alone 0 ≡ None }
{}

/// A turn that found no memory, or that was passed over, leaves the objects of its lane as they
/// were.
pub fn undone_turns_leave_the_objects()
    ensures short { (task : Task) (os : Objects) → objects_left links task Short os ≡ os }
    ensures skipped { (task : Task) (os : Objects) → objects_left links task Skipped os ≡ os }
{}
