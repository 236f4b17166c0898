//! What no service with lanes can do.

ghost use Rattle.std.specs.Prelude.{◌≡◌, ℕ, ◌<◌, Bool, [], ◌∷◌, ◌++◌, false, true};
ghost use Rattle.lane_tests.specs.Examples.Cuts.{after_early, after_late, ahead_of_its_list, start};
ghost use Rattle.lane_tests.specs.Examples.Cuts.{to_its_append, to_its_cut, under_the_old_list};
ghost use Rattle.lane_tests.specs.Examples.Cuts.{written_later};
ghost use Rattle.lane_tests.specs.Examples.Links.{Task, forget, links};
ghost use Rattle.lane_tests.specs.Examples.Notes.{Held, contents, notes};
ghost use Rattle.lane_tests.specs.Examples.Refuted.{HasPair, IsReplayed};
ghost use Rattle.lane_tests.specs.declared.examples.requests.Request.{Request};
ghost use Rattle.lane_tests.specs.declared.examples.requests.Request.TheVariants.{Revokes};
ghost use Rattle.lane_tests.specs.declared.examples.requests.Verdict.{Verdict};
ghost use Rattle.lane_tests.specs.declared.examples.requests.Verdict.TheVariants.{Granted};
ghost use Rattle.lane_histories.specs.Core.{history};
ghost use Rattle.lane_histories.specs.Desks.{IsImage};
ghost use Rattle.lane_histories.specs.Histories.{History, IsIn, LaneList};
ghost use Rattle.lane_histories.specs.JournalContents.{TellsAll};
ghost use Rattle.lane_histories.specs.Kept.{IsKept, IsKeptWith, ToldWorld};
ghost use Rattle.lane_histories.specs.KeptContents.{TellsKept};
ghost use Rattle.lane_histories.specs.Legal.{IsLegal};
ghost use Rattle.lane_histories.specs.Services.{World};
ghost use Rattle.lane_histories.specs.declared.items.Entry.{Entry};
ghost use Rattle.lane_histories.specs.declared.items.LaneItem.TheVariants.{Passed};
ghost use Rattle.lane_histories.specs.declared.items.Outcome.{Outcome};
ghost use Rattle.lane_histories.specs.declared.items.Outcome.TheVariants.{Done, Short, Skipped};
ghost use Rattle.lane_histories.specs.declared.items.Part.{Part};
ghost use Rattle.lane_histories.specs.declared.items.Part.TheVariants.{Only};
ghost use Rattle.lane_histories.specs.declared.items.RegisterItem.TheVariants.{Entered};

use crate::examples::linked::LinkedObjects;
use crate::examples::notebook::Notebook;
use lane_histories::{
    events_keep, replays_are_products, turns_come_in_order, verdicts_are_of_their_places,
    what_is_kept_stays_kept,
};

/// No verdict is by an older list: behind the place at which the right went no note is granted.
pub fn older_lists_decide_nothing()
    ensures { (before : World notes) (h : History notes) (e f : Entry Request Verdict) (note : ℕ)
        → IsLegal notes before h → IsIn h.register (Entered e) → e.asked ≡ Revokes
        → IsIn h.register (Entered f) → e.place < f.place → f.verdict ≡ Granted note → ⊥ }
{
    verdicts_are_of_their_places::<Notebook>();
}

/// No lane takes a turn behind one of a later place, in whatever order the requests came to it.
pub fn turns_come_in_no_other_order()
    ensures { (before : World notes) (h : History notes) (l p q : ℕ) (part other : Part)
        (note task : ℕ) (x y : Outcome ℕ) (front back : LaneList notes) → IsLegal notes before h
        → h.lane l ≡ front ++ Passed q part task x ∷ back → IsIn back (Passed p other note y)
        → p < q → ⊥ }
{
    turns_come_in_order::<Notebook>();
}

/// No turn is passed over that the replay reaches, and none is done that it doesn't reach: the
/// second turn of a request is done only where the first went well, and only a second one is passed
/// over. One that takes no memory is done.
pub fn reached_turns_are_not_skipped()
    ensures skipped { (before : World links) (h : History links) → IsReplayed before h
        → HasPair h (Done true) Skipped → ⊥ }
    ensures refused { (before : World links) (h : History links) (made : Bool)
        → IsReplayed before h → HasPair h (Done false) (Done made) → ⊥ }
    ensures short { (before : World links) (h : History links) (made : Bool)
        → IsReplayed before h → HasPair h Short (Done made) → ⊥ }
    ensures only { (before : World links) (h : History links) (l place : ℕ) (task : Task)
        → IsReplayed before h → IsIn (h.lane l) (Passed place Only task Skipped) → ⊥ }
    ensures dropped { (before : World links) (h : History links) (l place : ℕ) (part : Part)
        → IsReplayed before h → IsIn (h.lane l) (Passed place part forget Short) → ⊥ }
{
    replays_are_products::<LinkedObjects>();
}

/// A batch doesn't reach to the places at its append: as soon as the turn comes that was granted
/// before them, what it told is kept so far in no way. To the places at its drawn cut it still is.
pub fn batches_reach_no_farther_than_their_cut()
    ensures now { (w : ToldWorld notes) → TellsAll contents after_early.desk.held w
        → IsKept notes start (history after_early) w to_its_append → ⊥ }
    ensures legal { IsLegal notes start (history written_later) }
    ensures later { (w : ToldWorld notes) (k : ℕ → ℕ) → TellsAll contents after_early.desk.held w
        → IsKeptWith notes start (history written_later) w to_its_append k → ⊥ }
    ensures stays { (x : Held) → IsImage x after_early.desk
        → TellsKept notes contents start (history written_later) x to_its_cut }
{
    events_keep::<Notebook>();
    what_is_kept_stays_kept::<Notebook>();
}

/// What is kept is kept under one list: where the right is held to be gone, it isn't there; and a
/// note of place 7 isn't kept under the list of the first 7 places. Nothing is kept further than
/// its list.
pub fn worlds_are_kept_under_one_list()
    ensures older { (w : ToldWorld notes) (k : ℕ → ℕ) → w.catalogue ≡ true
        → IsKeptWith notes start (history (after_late true)) w to_its_append k → ⊥ }
    ensures order { (h : History notes) (w : ToldWorld notes) (k : ℕ → ℕ)
        → IsKeptWith notes start h w ahead_of_its_list k → ⊥ }
    ensures newer { (w : ToldWorld notes) (k : ℕ → ℕ) → w.objects 0 ≡ 5 ∷ []
        → IsKeptWith notes start (history (after_late true)) w under_the_old_list k → ⊥ }
{}
