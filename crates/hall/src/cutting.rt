//! Turns of who holds the desk's turn: a cut is drawn at the register, each lane is cut with its
//! ticket, and the register is cut.
ghost use Rattle.std.specs.Prelude.{◌≡◌, ◌<◌, ◌∷◌, true, false};
ghost use Rattle.std.specs.Result.{is_ok};
ghost use Rattle.flush_journal.specs.Batches.{records};
ghost use Rattle.hall_rule.specs.declared.queue.Queue.TheVariants.{OfDesk};
ghost use Rattle.hall_rule.specs.Claims.{claim, holds, numbers};
ghost use Rattle.hall_rule.specs.Sums.{total};
ghost use Rattle.hall_rule.specs.WholeTurns.{MayCutLane, MayDraw};
ghost use Rattle.service_histories.specs.ArrayServices.{array_service};
ghost use Rattle.hall.specs.ArrayMachines.{IsOpened, lanes_in, start_of};
ghost use Rattle.hall.specs.Cutting.{HasCutCatalogue, HasCutOwner, HasDrawnTickets};

use crate::desk::AtDesk;
use crate::hall::Hall;
use crate::plays::{Chair, DeskHall, DrawDesk};
use flush_journal::Batch;
use hall_rule::{
    LaneNews, Queue, RegisterNews, Slot, hands_hold_what_was_taken, lanes_take_turns,
    machines_stand_for_their_lists, steps_keep_the_rule, the_register_takes_turns,
};
use register::{CutTickets, Turn};
use service_histories::{
    calls_are_events, cuts_tell_the_lane, cuts_tell_the_register, the_register_counts, worlds_open,
};
use std::alloc::AllocError;
use std::sync::Wait;

impl<D: AtDesk> Hall<D> {
    // Draws the next number of the desk.
    pub(crate) fn draw_desk(&self, seat: &mut Chair<D>) -> u64
        requires table { seat.old.table_id ≡ self.now.table.shared.table_id }
        requires idle { (seat.old.me.0.live ≡ true)
            × (total (numbers OfDesk) seat.old.me.0.claims ≡ 0) }
        ensures table { (seat.new.table_id ≡ seat.old.table_id) × (seat.new.id ≡ seat.old.id) }
        ensures slots { seat.new.me.1 ≡ seat.old.me.1 }
        ensures drawn { seat.new.me.0 ≡ record seat.old.me.0 {
          claims = claim OfDesk result false ∷ seat.old.me.0.claims;
        } }
    {
        steps_keep_the_rule::<DeskHall<D>>();
        self.table.shared.fetch_add::<DrawDesk>(seat, 1, 1)
    }

    // A cut is drawn. Answers how many places had been given, and the cut's tickets.
    pub(crate) fn draw_cut<W: Wait>(&self, rt: &W, seat: &mut Chair<D>) -> (u64, CutTickets)
        requires table { seat.old.table_id ≡ self.now.table.shared.table_id }
        requires opened { IsOpened (start_of self.now.table.shared.key) }
        requires may { MayDraw (start_of self.now.table.shared.key) seat.old.me.0 }
        requires desk { 0 < total (holds OfDesk) seat.old.me.0.claims }
        ensures table { (seat.new.table_id ≡ seat.old.table_id) × (seat.new.id ≡ seat.old.id) }
        ensures slots { seat.new.me.1 ≡ seat.old.me.1 }
        ensures drawn { HasDrawnTickets (start_of self.now.table.shared.key) result.0 result.1
            seat.old.me.0 seat.new.me.0 }
    {
        hands_hold_what_was_taken::<DeskHall<D>>();
        machines_stand_for_their_lists::<DeskHall<D>>();
        the_register_takes_turns::<DeskHall<D>>();
        the_register_counts();
        calls_are_events();
        let mine = self.draw_register(seat);
        self.wait(rt, seat, Queue::OfRegister, mine);
        let mut slot = self
            .table
            .shared
            .exchange(seat, 0, Slot::Away)
            .into_register_slot();
        let place = slot.register.places();
        let tickets = slot.register.draw_cut();
        slot.news = Some(RegisterNews::Draws);
        self.table.shared.exchange(seat, 0, Slot::AtRegister(slot));
        self.leave(seat, Queue::OfRegister);
        (place, tickets)
    }

    // The register is cut. Answers how many places had been given.
    pub(crate) fn cut_catalogue<W: Wait>(
        &self,
        rt: &W,
        seat: &mut Chair<D>,
        into: &mut Batch,
    ) -> (u64, Result<(), AllocError>)
        requires table { seat.old.table_id ≡ self.now.table.shared.table_id }
        requires opened { IsOpened (start_of self.now.table.shared.key) }
        requires may { MayDraw (start_of self.now.table.shared.key) seat.old.me.0 }
        requires desk { 0 < total (holds OfDesk) seat.old.me.0.claims }
        ensures table { (seat.new.table_id ≡ seat.old.table_id) × (seat.new.id ≡ seat.old.id) }
        ensures slots { seat.new.me.1 ≡ seat.old.me.1 }
        ensures cut { HasCutCatalogue (start_of self.now.table.shared.key) result.0
            (is_ok result.1) (records into.old) (records into.new) seat.old.me.0 seat.new.me.0 }
    {
        hands_hold_what_was_taken::<DeskHall<D>>();
        machines_stand_for_their_lists::<DeskHall<D>>();
        the_register_takes_turns::<DeskHall<D>>();
        the_register_counts();
        calls_are_events();
        worlds_open();
        cuts_tell_the_register();
        let mine = self.draw_register(seat);
        self.wait(rt, seat, Queue::OfRegister, mine);
        let mut slot = self
            .table
            .shared
            .exchange(seat, 0, Slot::Away)
            .into_register_slot();
        let place = slot.register.places();
        let cut = slot.register.cut(into);
        slot.register.is_described();
        slot.news = Some(RegisterNews::Cuts(cut.is_ok()));
        self.table.shared.exchange(seat, 0, Slot::AtRegister(slot));
        self.leave(seat, Queue::OfRegister);
        (place, cut)
    }

    // A lane is cut with its ticket of a drawn cut.
    pub(crate) fn cut_owner<W: Wait>(
        &self,
        rt: &W,
        seat: &mut Chair<D>,
        turn: Turn,
        into: &mut Batch,
    ) -> Result<(), AllocError>
        requires table { seat.old.table_id ≡ self.now.table.shared.table_id }
        requires opened { IsOpened (start_of self.now.table.shared.key) }
        requires may { (cut : _) × (place : _)
            × MayCutLane (array_service (lanes_in (start_of self.now.table.shared.key)))
            (start_of self.now.table.shared.key) turn.lane turn.ticket cut place seat.old.me.0 }
        ensures table { (seat.new.table_id ≡ seat.old.table_id) × (seat.new.id ≡ seat.old.id) }
        ensures slots { seat.new.me.1 ≡ seat.old.me.1 }
        ensures cut { (cut : _) (place : _)
            → MayCutLane (array_service (lanes_in (start_of self.now.table.shared.key)))
            (start_of self.now.table.shared.key) turn.lane turn.ticket cut place seat.old.me.0
            → HasCutOwner (start_of self.now.table.shared.key) turn.lane cut place (is_ok result)
            (records into.old) (records into.new) seat.old.me.0 seat.new.me.0 }
    {
        hands_hold_what_was_taken::<DeskHall<D>>();
        machines_stand_for_their_lists::<DeskHall<D>>();
        lanes_take_turns::<DeskHall<D>>();
        cuts_tell_the_lane();
        let queue = Queue::OfLane(turn.lane);
        let home = queue.slot();
        self.wait(rt, seat, queue, turn.ticket);
        let mut slot = self
            .table
            .shared
            .exchange(seat, home, Slot::Away)
            .into_lane_slot();
        slot.owner.is_whole();
        slot.owner.is_described();
        let cut = slot.owner.cut(into);
        slot.owner.is_whole();
        slot.owner.is_described();
        slot.news = Some(LaneNews::Cuts(cut.is_ok()));
        self.table.shared.exchange(seat, home, Slot::AtLane(slot));
        self.leave(seat, queue);
        cut
    }
}
