//! Turns of a journal's desk.
ghost use Rattle.std.specs.Prelude.{◌≡◌, None, Some, [], Ok};
ghost use Rattle.atomic_table.specs.Table.{Me};
ghost use Rattle.hall_rule.specs.Claims.{claim};
ghost use Rattle.hall_rule.specs.WholeTurns.{IsPass};
ghost use Rattle.hall_rule.specs.declared.queue.Queue.TheVariants.{OfDesk};
ghost use Rattle.journal_desk.specs.Keepings.{Continues};
ghost use Rattle.journal_desk.specs.Notes.{AreAlike};
ghost use Rattle.hall.specs.ArrayMachines.{IsOpened, lanes_in};
ghost use Rattle.hall.specs.DeskTurns.{HasDone, HasFlushed, HasFlushedPast, HasKeptRegister};
ghost use Rattle.hall.specs.DeskTurns.{HasLooked};
ghost use Rattle.hall.specs.DeskTurns.{IsBehind, IsInTurn, IsTurnOf, OwesItsCuts, note_seen};
ghost use Rattle.hall.specs.Notes.{hall_notes};
ghost use Rattle.hall.specs.Passes.{IsPassOf, opening, view_of, who};

use crate::desk_turn::{DeskTurn, none_left};
use crate::desk_work::take_turn;
use crate::hall::Hall;
use crate::journal::{DeskNews, DeskWork, JournalDesk};
use crate::pass::Pass;
use crate::plays::{ArrayHall, Chair, DeskHall};
use edge_traits::Disk;
use flush_journal::Why;
use hall_rule::{
    Queue, Slot, hands_hold_what_was_taken, lists_are_histories, machines_stand_for_their_lists,
    the_desk_takes_turns,
};
use service_histories::what_is_kept_stays_kept;
use std::snapshot::Snapshot;
use std::sync::Wait;

impl<'a, D: Disk + Drop, W: Wait> DeskTurn<'a, D, W, Snapshot<Chair<JournalDesk<D>>>> {
    // Does what is asked of the desk.
    fn run(&mut self, desk: &mut JournalDesk<D>, work: DeskWork) -> Result<u64, Why>
        requires table { self.old.seat.now.table_id ≡ self.old.hall.now.table.shared.table_id }
        requires first { self.old.first.value ≡ self.old.seat.now }
        requires taken { IsInTurn (opening self.old.hall.now) self.old.seat.now.me.0
            self.old.seat.now.me.0 self.old.lanes self.old.lane self.old.tickets.now }
        requires whole { self.old.lane ≡ lanes_in (opening self.old.hall.now) }
        requires behind { IsBehind D.Disk (hall_notes desk.old.desk.lanes) desk.old.desk
            (lanes_in (opening self.old.hall.now)) (note_seen self.old.seat.now.me.0) }
        ensures seat { self.new.seat.ghost_name ≡ self.old.seat.ghost_name }
        ensures tickets { self.new.tickets.ghost_name ≡ self.old.tickets.ghost_name }
        ensures none { self.new.tickets.now ≡ None }
        ensures table { (self.new.seat.now.table_id ≡ self.old.seat.now.table_id)
            × (self.new.seat.now.id ≡ self.old.seat.now.id) }
        ensures slots { self.new.seat.now.me.1 ≡ self.old.seat.now.me.1 }
        ensures turn { IsInTurn (opening self.old.hall.now) self.old.seat.now.me.0
            self.new.seat.now.me.0 (lanes_in (opening self.old.hall.now))
            (lanes_in (opening self.old.hall.now)) None }
        ensures begun { (desk.new.first ≡ desk.old.first) × (desk.new.lanes ≡ desk.old.lanes) }
        ensures before { desk.new.before.value
            ≡ record desk.old.desk { note = desk.new.before.value.note } }
        ensures noted { AreAlike (hall_notes desk.old.desk.lanes) desk.new.before.value.note
            (note_seen self.old.seat.now.me.0) }
        ensures resumed { Continues D.Disk (hall_notes desk.old.desk.lanes) desk.old.desk
            desk.new.before.value }
        ensures continues { Continues D.Disk (hall_notes desk.old.desk.lanes)
            desk.new.before.value desk.new.desk }
        ensures up_to { AreAlike (hall_notes desk.new.desk.lanes) desk.new.desk.note
            (note_seen self.new.seat.now.me.0) }
        ensures news { (news : _) × (desk.new.turn ≡ Some news) × (news.work ≡ work)
            × (news.result.value ≡ result) }
        ensures owing { OwesItsCuts (hall_notes desk.old.desk.lanes) desk.new.before.value }
        ensures done { HasDone D.Disk (hall_notes desk.old.desk.lanes) work
            desk.new.before.value desk.new.desk result }
    {
        let (before, result) = take_turn(&mut desk.desk, self, work);
        desk.before = before;
        desk.turn = Some(DeskNews {
            work,
            result: Snapshot::of(&result),
        });
        result
    }
}

impl<D: Disk + Drop> Hall<JournalDesk<D>> {
    // Does what is asked of the desk, whose turn the seat holds.
    fn work<W: Wait>(
        &self,
        rt: &W,
        seat: &mut Chair<JournalDesk<D>>,
        desk: &mut JournalDesk<D>,
        work: DeskWork,
    ) -> Result<u64, Why>
        requires table { seat.old.table_id ≡ self.now.table.shared.table_id }
        requires taken { IsInTurn (opening self.now) seat.old.me.0 seat.old.me.0 desk.old.lanes
            desk.old.lanes None }
        requires behind { IsBehind D.Disk (hall_notes desk.old.desk.lanes) desk.old.desk
            (lanes_in (opening self.now)) (note_seen seat.old.me.0) }
        ensures table { (seat.new.table_id ≡ seat.old.table_id) × (seat.new.id ≡ seat.old.id) }
        ensures slots { seat.new.me.1 ≡ seat.old.me.1 }
        ensures turn { IsInTurn (opening self.now) seat.old.me.0 seat.new.me.0
            (lanes_in (opening self.now)) (lanes_in (opening self.now)) None }
        ensures begun { (desk.new.first ≡ desk.old.first) × (desk.new.lanes ≡ desk.old.lanes) }
        ensures before { desk.new.before.value
            ≡ record desk.old.desk { note = desk.new.before.value.note } }
        ensures noted { AreAlike (hall_notes desk.old.desk.lanes) desk.new.before.value.note
            (note_seen seat.old.me.0) }
        ensures resumed { Continues D.Disk (hall_notes desk.old.desk.lanes) desk.old.desk
            desk.new.before.value }
        ensures continues { Continues D.Disk (hall_notes desk.old.desk.lanes)
            desk.new.before.value desk.new.desk }
        ensures up_to { AreAlike (hall_notes desk.new.desk.lanes) desk.new.desk.note
            (note_seen seat.new.me.0) }
        ensures news { (news : _) × (desk.new.turn ≡ Some news) × (news.work ≡ work)
            × (news.result.value ≡ result) }
        ensures owing { OwesItsCuts (hall_notes desk.old.desk.lanes) desk.new.before.value }
        ensures done { HasDone D.Disk (hall_notes desk.old.desk.lanes) work
            desk.new.before.value desk.new.desk result }
    {
        let first = Snapshot::of(&*seat);
        let mut tickets = None;
        let result = {
            let mut turn = DeskTurn {
                hall: self,
                rt,
                seat,
                first,
                lanes: desk.lanes,
                lane: desk.lanes,
                tickets: &mut tickets,
            };
            turn.run(desk, work)
        };
        none_left(tickets);
        result
    }

    // Takes the desk's turn, and does in it what is asked.
    fn take_desk<W: Wait>(
        &self,
        rt: &W,
        seat: &mut Chair<JournalDesk<D>>,
        work: DeskWork,
    ) -> Result<u64, Why>
        requires table { seat.old.table_id ≡ self.now.table.shared.table_id }
        requires opened { IsOpened (opening self.now) }
        requires pass { IsPass (opening self.now) seat.old.me.0 }
        requires idle { seat.old.me.0.claims ≡ [] }
        ensures table { (seat.new.table_id ≡ seat.old.table_id) × (seat.new.id ≡ seat.old.id) }
        ensures slots { seat.new.me.1 ≡ seat.old.me.1 }
        ensures turn { IsTurnOf D.Disk work (opening self.now) result seat.old.me.0 seat.new.me.0 }
    {
        hands_hold_what_was_taken::<DeskHall<JournalDesk<D>>>();
        machines_stand_for_their_lists::<DeskHall<JournalDesk<D>>>();
        lists_are_histories::<ArrayHall<JournalDesk<D>>>();
        the_desk_takes_turns::<DeskHall<JournalDesk<D>>>();
        what_is_kept_stays_kept();
        let mine = self.draw_desk(seat);
        self.wait(rt, seat, Queue::OfDesk, mine);
        let mut noted = self.table.shared.exchange(seat, 1, Slot::Away).into_desk();
        let result = self.work(rt, seat, &mut noted.desk, work);
        noted.desk.images_are_kept();
        noted.desk.keepings_are_kept();
        noted.desk.desk.reach_is_of_cuts();
        noted.desk.desk.owed_is_of_cuts();
        self.table.shared.exchange(seat, 1, Slot::AtDesk(noted));
        self.leave(seat, Queue::OfDesk);
        result
    }

    /// Keeps all that was done: in a turn of the desk each lane and then the register are cut, and
    /// what was cut is appended. Answers how many places are kept; all that the pass had seen are
    /// among them. Waits for turns.
    ///
    /// # Errors
    ///
    /// `DiskFault` only where the disk had a fault in this turn, `JournalFull` exactly where the
    /// batch that is then pending doesn't fit behind the journal's end, or `NoMemory`. What was cut
    /// stays to be appended.
    pub fn flush<W: Wait>(&self, rt: &W, pass: &mut Pass<JournalDesk<D>>) -> Result<u64, Why>
        requires of_this_hall { IsPassOf self.now pass.old }
        ensures of_this_hall { IsPassOf self.now pass.new }
        ensures same { (who pass.new ≡ who pass.old) × (pass.new.front ≡ pass.old.front) }
        ensures flushed { HasFlushed D.Disk (opening self.now) result (view_of pass.old)
            (view_of pass.new) }
    {
        self.take_desk(rt, &mut pass.seat, DeskWork::Flush)
    }

    // Keeps all that was done, unless the desk finds in its turn that the place is kept already. Then
    // nothing is asked of the disk, and so many places as it keeps are answered. So callers who wait
    // for the desk at the same time share one flush.
    pub(crate) fn flush_past<W: Wait>(
        &self,
        rt: &W,
        pass: &mut Pass<JournalDesk<D>>,
        place: u64,
    ) -> Result<u64, Why>
        requires of_this_hall { IsPassOf self.now pass.old }
        ensures of_this_hall { IsPassOf self.now pass.new }
        ensures same { (who pass.new ≡ who pass.old) × (pass.new.front ≡ pass.old.front) }
        ensures flushed { HasFlushedPast D.Disk (opening self.now) place result (view_of pass.old)
            (view_of pass.new) }
    {
        self.take_desk(rt, &mut pass.seat, DeskWork::FlushPast { place })
    }

    /// Keeps the catalogue, with what earlier cuts of lanes left to be appended: as `flush`, without
    /// the lanes' cuts. Answers the places of the catalogue that are kept; all that the pass had
    /// seen are among them. Waits for turns.
    ///
    /// # Errors
    ///
    /// Those of `flush`.
    pub fn keep_register<W: Wait>(
        &self,
        rt: &W,
        pass: &mut Pass<JournalDesk<D>>,
    ) -> Result<u64, Why>
        requires of_this_hall { IsPassOf self.now pass.old }
        ensures of_this_hall { IsPassOf self.now pass.new }
        ensures same { (who pass.new ≡ who pass.old) × (pass.new.front ≡ pass.old.front) }
        ensures kept { HasKeptRegister D.Disk (opening self.now) result (view_of pass.old)
            (view_of pass.new) }
    {
        self.take_desk(rt, &mut pass.seat, DeskWork::KeepRegister)
    }

    /// How many places are kept: the desk's own number, in a turn of it in which nothing is asked of
    /// the disk. Waits for that turn.
    pub fn kept<W: Wait>(&self, rt: &W, pass: &mut Pass<JournalDesk<D>>) -> u64
        requires of_this_hall { IsPassOf self.now pass.old }
        ensures of_this_hall { IsPassOf self.now pass.new }
        ensures same { (who pass.new ≡ who pass.old) × (pass.new.front ≡ pass.old.front) }
        ensures looked { HasLooked D.Disk (opening self.now) result (view_of pass.old)
            (view_of pass.new) }
    {
        match self.take_desk(rt, &mut pass.seat, DeskWork::Look) {
            Ok(places) => places,
            Err(_) => unreachable!(),
        }
    }
}
