//! How far the desk's batches reach, and what stands after one was refused.

ghost use Rattle.std.specs.Prelude.{◌≡◌, ◌⊎◌, ℕ, [], ◌∷◌, false, true};
ghost use Rattle.lane_tests.specs.Examples.Cuts.{Notes, after_early, after_late, after_settled};
ghost use Rattle.lane_tests.specs.Examples.Cuts.{built_late, cut_late, nothing_held, opened, settling};
ghost use Rattle.lane_tests.specs.Examples.Cuts.{start, to_its_cut, written_later};
ghost use Rattle.lane_tests.specs.Examples.Notes.{Held, contents, notes};
ghost use Rattle.lane_histories.specs.Core.{Event, Happens, Runs, history};
ghost use Rattle.lane_histories.specs.Desks.{IsImage, IsKeptImage, nowhere, own_by};
ghost use Rattle.lane_histories.specs.JournalContents.{TellsCuts};
ghost use Rattle.lane_histories.specs.KeptContents.{TellsKept};
ghost use Rattle.lane_histories.specs.declared.items.Answer.TheVariants.{Looked, Refused};
ghost use Rattle.lane_histories.specs.declared.items.Reach.{Reach};

use crate::examples::notebook::Notebook;
use lane_histories::{Reach, cut_pairs_are_kept, events_keep};

/// How far the batch of the early cut reaches: to the places at its drawn cut, under the catalogue
/// of the places at its register cut.
pub fn early_reach() -> Reach
    ensures { (x : Held) → IsImage x after_early.desk
        → TellsKept notes contents start (history after_early) x result }
{
    events_keep::<Notebook>();
    Reach { c: 7, p: 9 }
}

/// What the early cut wrote tells both lanes and the catalogue as they were at their cuts, and
/// still does when the note's turn has come; and it tells a world that is kept.
pub fn what_was_cut_is_kept()
    ensures told { TellsCuts notes contents start (history after_early) after_early.desk.built }
    ensures stays { TellsCuts notes contents start (history written_later) after_early.desk.built }
    ensures kept { TellsKept notes contents start (history after_early) after_early.desk.built
        to_its_cut }
{
    events_keep::<Notebook>();
    cut_pairs_are_kept::<Notebook>();
}

/// The append of the late cut is refused: an image has its batch or nothing, and both are kept.
/// Then the batch is settled, and each image has it. After the crash nothing happens.
pub fn refused_batch_may_be_held()
    ensures run { Runs (cut_late false) opened (after_late false) }
    ensures own { (after_late false).desk.own ≡ nowhere }
    ensures images { (x : Held) → IsImage x (after_late false).desk
        → (x ≡ nothing_held) ⊎ ((x.right ≡ false) × (x.written 0 ≡ 5 ∷ [])) }
    ensures both { IsImage nothing_held (after_late false).desk
        × IsImage built_late.desk.built (after_late false).desk }
    ensures kept { (x : Held) → IsImage x (after_late false).desk
        → IsKeptImage start (history (after_late false)) (after_late false).desk x }
    ensures settles { Runs settling (after_late false) after_settled }
    ensures reach { after_settled.desk.own ≡ record { c = 9; p = 9 } }
    ensures held { (x : Held) → IsImage x after_settled.desk
        → TellsKept notes contents start (history after_settled) x after_settled.desk.own }
    ensures crashed { (e : Event notes) (new : Notes) → Happens e after_settled new → ⊥ }
{
    events_keep::<Notebook>();
}

/// A keeping that only looked, or that was refused, leaves how far the desk reaches.
pub fn the_desk_reaches_as_far_as_it_did()
    ensures looked { (cut own : Reach) → own_by Looked cut own ≡ own }
    ensures refused { (cut own : Reach) → own_by Refused cut own ≡ own }
{}
