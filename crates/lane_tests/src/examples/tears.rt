//! A cut that found no memory half way, and one that left all as it was.

ghost use Rattle.std.specs.Prelude.{◌≡◌, None, Some, [], false};
ghost use Rattle.lane_tests.specs.Examples.Cuts.{opened, start};
ghost use Rattle.lane_tests.specs.Examples.Notes.{Held, contents, notes};
ghost use Rattle.lane_tests.specs.Examples.ShortCuts.{after_short, short_events};
ghost use Rattle.lane_tests.specs.Examples.Tears.{torn_core, torn_events};
ghost use Rattle.lane_histories.specs.Core.{IsIdle, Runs, history};
ghost use Rattle.lane_histories.specs.Cuts.{last_cut};
ghost use Rattle.lane_histories.specs.Desks.{IsImage, IsKeptImage};
ghost use Rattle.lane_histories.specs.JournalContents.{TellsAll};
ghost use Rattle.lane_histories.specs.Kept.{IsKept, ToldWorld};
ghost use Rattle.lane_histories.specs.declared.items.Reach.{Reach};

use crate::examples::notebook::Notebook;
use lane_histories::events_keep;

/// A cut of the lane 0 finds no memory half way, and then the register is cut. Nothing is pending,
/// no cut is out, and the last of the cuts found memory; yet what was cut tells a world that is
/// kept in no way. So a torn lane must not be appended.
pub fn torn_lane_is_kept_in_no_way()
    ensures run { Runs torn_events opened torn_core }
    ensures idle { IsIdle torn_core }
    ensures last { last_cut None torn_core.list ≡ Some 2 }
    ensures unkept { (w : ToldWorld notes) (reach : Reach)
        → TellsAll contents torn_core.desk.built w
        → IsKept notes start (history torn_core) w reach → ⊥ }
{}

/// A cut of the lane 0 finds no memory and leaves what was cut as it was; then the register is cut
/// and all is appended. Each image has the catalogue of both places, under which the right is gone,
/// and nothing of the note, since no cut was done in both lanes; and it is kept so far.
pub fn short_cut_keeps_the_register_alone()
    ensures run { Runs short_events opened after_short }
    ensures reach { after_short.desk.own ≡ record { c = 0; p = 2 } }
    ensures images { (x : Held) → IsImage x after_short.desk
        → (x.right ≡ false) × (x.written 0 ≡ []) }
    ensures kept { (x : Held) → IsImage x after_short.desk
        → IsKeptImage start (history after_short) after_short.desk x }
{
    events_keep::<Notebook>();
}
