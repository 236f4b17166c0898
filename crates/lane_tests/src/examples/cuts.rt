//! A note that is granted at place 7, where the right goes at place 8, with a cut before its turn
//! and behind it.

ghost use Rattle.std.specs.Prelude.{◌≡◌, ◌<◌, ℕ, [], ◌∷◌, false, true, length, Some};
ghost use Rattle.std.specs.Prelude.{slice_get};
ghost use Rattle.lane_tests.specs.Examples.Cuts.{after_early, after_late, cut_early, cut_late, opened};
ghost use Rattle.lane_tests.specs.Examples.Cuts.{drawn_late, start};
ghost use Rattle.lane_tests.specs.Examples.Notes.{Held, notes};
ghost use Rattle.lane_histories.specs.Core.{Runs, history};
ghost use Rattle.lane_histories.specs.Desks.{IsImage, IsKeptImage};
ghost use Rattle.lane_histories.specs.Histories.{own};
ghost use Rattle.lane_histories.specs.Laws.{IsProduct, IsWhole};
ghost use Rattle.lane_histories.specs.Legal.{IsLegal};
ghost use Rattle.lane_histories.specs.PlainReplays.{plain_answers, plainly};
ghost use Rattle.lane_histories.specs.Replies.{by_register, by_turn, reply};
ghost use Rattle.lane_tests.specs.declared.examples.requests.Verdict.TheVariants.{Answered};

use crate::examples::notebook::Notebook;
use lane_histories::{
    events_keep, prefixes_are_legal, replays_are_products, whole_histories_are_plain,
};

/// The cut is drawn at 9 places, before the note's turn, whose ticket comes first: each image has
/// the note, under the catalogue without the right.
pub fn part_before_the_cut_is_kept()
    ensures run { Runs (cut_late true) opened (after_late true) }
    ensures reach { (after_late true).desk.own ≡ record { c = 9; p = 9 } }
    ensures images { (x : Held) → IsImage x (after_late true).desk
        → (x.right ≡ false) × (x.written 0 ≡ 5 ∷ []) }
    ensures kept { (x : Held) → IsImage x (after_late true).desk
        → IsKeptImage start (history (after_late true)) (after_late true).desk x }
{
    events_keep::<Notebook>();
}

/// The cut is drawn at 7 places, and the note's ticket is behind it: no image has the note, and
/// still the right is gone.
pub fn part_behind_the_cut_is_missing()
    ensures run { Runs cut_early opened after_early }
    ensures reach { after_early.desk.own ≡ record { c = 7; p = 9 } }
    ensures images { (x : Held) → IsImage x after_early.desk
        → (x.right ≡ false) × (x.written 0 ≡ []) }
    ensures kept { (x : Held) → IsImage x after_early.desk
        → IsKeptImage start (history after_early) after_early.desk x }
{
    events_keep::<Notebook>();
}

/// Before the note's turn the lists are legal, and once it was taken the replay of one world comes
/// to the same as requests done one after another, and so do the answers.
pub fn notes_are_answered()
    ensures earlier { IsLegal notes start (history drawn_late) }
    ensures product { IsProduct notes start (history (after_late true)) }
    ensures whole { IsWhole notes (history (after_late true)) }
    ensures answers { (place : ℕ) → place < 9 → reply notes (history (after_late true)) place
        ≡ slice_get (plain_answers notes (after_late true).list start) place }
    ensures plain { (plainly notes (after_late true).list start).objects 0 ≡ 5 ∷ [] }
    ensures written { reply notes (history (after_late true)) 7 ≡ Some (by_turn 0) }
    ensures own { length (own 0 (after_late true).list) ≡ 9 }
    ensures others { own 1 (after_late true).list ≡ [] }
    ensures revoked { reply notes (history (after_late true)) 8 ≡ Some (by_register Answered) }
{
    events_keep::<Notebook>();
    prefixes_are_legal::<Notebook>();
    replays_are_products::<Notebook>();
    whole_histories_are_plain::<Notebook>();
}
