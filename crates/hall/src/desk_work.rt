//! What a journal's desk does in its turn.
ghost use Rattle.std.specs.Prelude.{◌≡◌, Some};
ghost use Rattle.journal_desk.specs.Keepings.{Continues, IsUpTo};
ghost use Rattle.journal_desk.specs.Notes.{AreAlike, at_lanes};
ghost use Rattle.hall.specs.DeskTurns.{HasDone, HasDonePast, IsBehind, OwesItsCuts};
ghost use Rattle.hall.specs.Notes.{hall_notes};
ghost use Rattle.hall.specs.declared.journal.DeskNews.{DeskNews};

use crate::journal::{DeskNews, DeskWork, JournalDesk};
use crate::note::HallNote;
use edge_traits::Disk;
use flush_journal::{Journal, Why};
use journal_desk::{Desk, Note, Turns};
use std::snapshot::Snapshot;

// Flushes, unless the place is kept already.
fn flush_past<D: Disk, N: Note, T: Turns<N>>(
    desk: &mut Desk<D, N>,
    turns: &mut T,
    place: u64,
) -> Result<u64, Why>
    requires here { IsUpTo N.Note desk.old (T.lanes turns.old) (T.seen turns.old) }
    requires lanes { T.next_lane turns.old ≡ (N.kept (T.lanes turns.old)).service.lanes }
    requires ready { T.ready turns.old }
    ensures continues { Continues D.Disk (at_lanes N.Note desk.old.lanes) desk.old desk.new }
    ensures here { IsUpTo N.Note desk.new (T.lanes turns.new) (T.seen turns.new) }
    ensures lanes { T.next_lane turns.new ≡ (N.kept (T.lanes turns.new)).service.lanes }
    ensures ready { T.ready turns.new }
    ensures fixed { T.fixed turns.new ≡ T.fixed turns.old }
    ensures done { HasDonePast D.Disk (at_lanes N.Note desk.old.lanes) place desk.old desk.new
        result }
{
    let kept = desk.kept().c;
    if place < kept {
        return Ok(kept);
    }
    desk.flush(turns)
}

// Does what is asked of a desk. In a look nothing is asked of the disk.
fn do_work<D: Disk, N: Note, T: Turns<N>>(
    desk: &mut Desk<D, N>,
    turns: &mut T,
    work: DeskWork,
) -> Result<u64, Why>
    requires here { IsUpTo N.Note desk.old (T.lanes turns.old) (T.seen turns.old) }
    requires lanes { T.next_lane turns.old ≡ (N.kept (T.lanes turns.old)).service.lanes }
    requires ready { T.ready turns.old }
    ensures continues { Continues D.Disk (at_lanes N.Note desk.old.lanes) desk.old desk.new }
    ensures here { IsUpTo N.Note desk.new (T.lanes turns.new) (T.seen turns.new) }
    ensures lanes { T.next_lane turns.new ≡ (N.kept (T.lanes turns.new)).service.lanes }
    ensures ready { T.ready turns.new }
    ensures fixed { T.fixed turns.new ≡ T.fixed turns.old }
    ensures done { HasDone D.Disk (at_lanes N.Note desk.old.lanes) work desk.old desk.new result }
{
    match work {
        DeskWork::Flush => desk.flush(turns),
        DeskWork::FlushPast { place } => flush_past(desk, turns, place),
        DeskWork::KeepRegister => desk.keep_register(turns),
        DeskWork::Look => Ok(desk.kept().c),
    }
}

// Brings a desk's note up to what was seen, and does what is asked of it. Gives the desk as it was
// before that too.
pub(crate) fn take_turn<D: Disk, N: Note, T: Turns<N>>(
    desk: &mut Desk<D, N>,
    turns: &mut T,
    work: DeskWork,
) -> (Snapshot<Desk<D, N>>, Result<u64, Why>)
    requires behind { IsBehind D.Disk (at_lanes N.Note desk.old.lanes) desk.old
        (T.lanes turns.old) (T.seen turns.old) }
    requires lanes { T.next_lane turns.old ≡ (N.kept (T.lanes turns.old)).service.lanes }
    requires ready { T.ready turns.old }
    ensures before { result.0.value ≡ record desk.old { note = result.0.value.note } }
    ensures noted { AreAlike (at_lanes N.Note desk.old.lanes) result.0.value.note
        (T.seen turns.old) }
    ensures resumed { Continues D.Disk (at_lanes N.Note desk.old.lanes) desk.old result.0.value }
    ensures continues { Continues D.Disk (at_lanes N.Note desk.old.lanes) result.0.value desk.new }
    ensures here { IsUpTo N.Note desk.new (T.lanes turns.new) (T.seen turns.new) }
    ensures lanes { T.next_lane turns.new ≡ (N.kept (T.lanes turns.new)).service.lanes }
    ensures ready { T.ready turns.new }
    ensures fixed { T.fixed turns.new ≡ T.fixed turns.old }
    ensures owing { OwesItsCuts (at_lanes N.Note desk.old.lanes) result.0.value }
    ensures done { HasDone D.Disk (at_lanes N.Note desk.old.lanes) work result.0.value desk.new
        result.1 }
{
    let note = turns.note();
    desk.resume(note);
    desk.owed_is_of_cuts();
    let before = Snapshot::of(desk);
    let result = do_work(desk, turns, work);
    (before, result)
}
