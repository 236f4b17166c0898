//! The turns that the register and the lanes take in a turn of a journal's desk.
ghost use Rattle.std.specs.Prelude.{◌≡◌, ◌+◌, ◌<◌, ℕ, [], None, Some};

use crate::hall::Hall;
use crate::journal::JournalDesk;
use crate::note::{HallNote, Noting};
use crate::plays::{ArrayHall, Chair, DeskHall};
use edge_traits::Disk;
use flush_journal::{Batch, Journal};
use hall_rule::{each_lane_is_served, lists_are_histories, steps_keep_the_rule};
use journal_desk::Turns;
use register::CutTickets;
use service_histories::{cuts_tell_the_lane, cuts_tell_the_register};
use std::alloc::AllocError;
use std::mem;
use std::snapshot::Snapshot;
use std::sync::Wait;

/// A turn of a journal's desk: the hall, the seat with which the turn was taken, and the tickets of
/// the cut that was drawn last.
pub(crate) struct DeskTurn<'a, D: Disk + Drop, W, F> {
    pub seat: &'a mut Chair<JournalDesk<D>>,
    pub tickets: &'a mut Option<CutTickets>,
    pub hall: &'a Hall<JournalDesk<D>>,
    pub rt: &'a W,

    // The seat as the turn found it, in a `Snapshot`.
    pub first: F,
    pub lanes: u32,

    // The lanes from this one on haven't had their turns.
    pub lane: u32,
}

impl<'a, D: Disk + Drop, W, F: Drop> Drop for DeskTurn<'a, D, W, F> {
    fn drop(self)
        ensures seat { self.exit.0.now ≡ self.entry.seat.now }
        ensures tickets { self.exit.1.0.now ≡ self.entry.tickets.now }
    {
        let DeskTurn {
            seat: _,
            tickets: _,
            hall: _,
            rt: _,
            first: _,
            lanes: _lanes,
            lane: _lane,
        } = self;
    }
}

// The tickets, where one is left.
fn some_left(tickets: CutTickets, lane: u32, lanes: u32) -> Option<CutTickets>
    requires none { lane ≡ lanes → tickets ≡ [] }
    requires few { lane < lanes + 1 }
    ensures some { lane < lanes → result ≡ Some tickets }
    ensures none { lane ≡ lanes → result ≡ None }
{
    if lane < lanes {
        return Some(tickets);
    }
    tickets.finish();
    None
}

// No ticket is left.
pub(crate) fn none_left(tickets: Option<CutTickets>)
    requires { tickets ≡ None }
{
    match tickets {
        None => {}
        Some(_) => unreachable!(),
    }
}

impl<'a, D: Disk + Drop, W: Wait> Turns<HallNote<Snapshot<Journal<D>>>>
    for DeskTurn<'a, D, W, Snapshot<Chair<JournalDesk<D>>>> {
    ghost use base.Fml.{GName};
    ghost use Rattle.atomic_table.specs.Seated.{TableId};
    ghost use Rattle.chunk_owner.specs.Lanes.{Lane};
    ghost use Rattle.flush_journal.specs.declared.journal.Journal.{Journal};
    ghost use Rattle.hall_rule.specs.Rule.{HallHand};
    ghost use Rattle.register.specs.Decided.{RegisterState};
    ghost use Rattle.service_histories.specs.ArrayServices.{array_service};
    ghost use Rattle.std.specs.declared.snapshot.Snapshot.{Snapshot};
    ghost use Rattle.hall.specs.Answers.{ArrayStart};
    ghost use Rattle.hall.specs.ArrayMachines.{lanes_in};
    ghost use Rattle.hall.specs.DeskTurns.{IsInTurn, last_drawn, note_seen};
    ghost use Rattle.hall.specs.Passes.{opening};
    ghost use Rattle.hall.specs.declared.desk.NotedDesk.{NotedDesk};
    ghost use Rattle.hall.specs.declared.journal.JournalDesk.{JournalDesk};

    ghost ready = { λ t. (t.seat.now.table_id ≡ t.hall.now.table.shared.table_id)
        × (t.seat.now.me.1 ≡ t.first.value.me.1)
        × IsInTurn (opening t.hall.now) t.first.value.me.0 t.seat.now.me.0 t.lanes t.lane t.tickets.now };

    ghost Fixed = { GName × GName × TableId × ℕ × ArrayStart (Snapshot (Journal D D.Disk))
        × HallHand (array_service 0) RegisterState Lane (NotedDesk (JournalDesk D D.Disk))
        (Snapshot (Journal D D.Disk)) };

    ghost fixed = { λ t. (
      t.seat.ghost_name,
      t.tickets.ghost_name,
      t.hall.now.table.shared.table_id,
      t.seat.now.id,
      opening t.hall.now,
      t.first.value.me,
    ) };

    ghost lanes = { λ t. lanes_in (opening t.hall.now) };

    ghost seen = { λ t. note_seen t.seat.now.me.0 };

    ghost drawn = { λ t. last_drawn t.seat.now.me.0.seen.register };

    ghost next_lane = { λ t. t.lane };

    fn lane_count(&self) -> u32 {
        self.lanes
    }

    fn note(&mut self) -> HallNote<Snapshot<Journal<D>>> {
        steps_keep_the_rule::<DeskHall<JournalDesk<D>>>();
        let seat = self.hall.table.shared.split_seat::<Noting>(self.seat);
        HallNote {
            badge: seat.into_badge(),
            world: None,
        }
    }

    fn draw_cut(&mut self) -> u64 {
        lists_are_histories::<ArrayHall<JournalDesk<D>>>();
        each_lane_is_served::<ArrayHall<JournalDesk<D>>>();
        let (places, tickets) = self.hall.draw_cut(self.rt, self.seat);
        none_left(mem::replace(self.tickets, Some(tickets)));
        self.lane = 0;
        places
    }

    fn cut_lane(&mut self, into: &mut Batch) -> Result<(), AllocError> {
        lists_are_histories::<ArrayHall<JournalDesk<D>>>();
        each_lane_is_served::<ArrayHall<JournalDesk<D>>>();
        cuts_tell_the_lane();
        let Some(mut tickets) = self.tickets.take() else {
            unreachable!()
        };
        let Some(turn) = tickets.next() else {
            unreachable!()
        };
        let cut = self.hall.cut_owner(self.rt, self.seat, turn, into);
        self.lane += 1;
        let left = some_left(tickets, self.lane, self.lanes);
        none_left(mem::replace(self.tickets, left));
        cut
    }

    fn cut_register(&mut self, into: &mut Batch) -> Result<u64, AllocError> {
        lists_are_histories::<ArrayHall<JournalDesk<D>>>();
        cuts_tell_the_register();
        let (places, cut) = self.hall.cut_catalogue(self.rt, self.seat, into);
        match cut {
            Ok(()) => Ok(places),
            Err(err) => Err(err),
        }
    }
}
