//! A turn of the register, in which a request is decided at the next place.
ghost use Rattle.std.specs.Prelude.{◌≡◌};
ghost use Rattle.hall_rule.specs.WholeTurns.{HasDecided, MayDraw};
ghost use Rattle.hall.specs.ArrayMachines.{IsOpened, lanes_in, machines, start_of};
ghost use Rattle.hall.specs.Answers.{asked_by};

use crate::desk::AtDesk;
use crate::hall::Hall;
use crate::plays::{Chair, DeskHall};
use access_lists::Caller;
use hall_rule::{
    Queue, RegisterNews, Slot, hands_hold_what_was_taken, machines_stand_for_their_lists,
    the_register_takes_turns,
};
use object_ops::Request;
use register::{Verdict, decisions_continue, decisions_keep};
use service_histories::{calls_are_events, the_register_counts};
use std::snapshot::Snapshot;
use std::sync::Wait;

impl<D: AtDesk> Hall<D> {
    // The register decides, at the next place.
    pub(crate) fn decide<W: Wait>(
        &self,
        rt: &W,
        seat: &mut Chair<D>,
        caller: &Caller,
        request: &Request,
    ) -> (u64, Verdict)
        requires table { seat.old.table_id ≡ self.now.table.shared.table_id }
        requires opened { IsOpened (start_of self.now.table.shared.key) }
        requires may { MayDraw (start_of self.now.table.shared.key) seat.old.me.0 }
        ensures table { (seat.new.table_id ≡ seat.old.table_id) × (seat.new.id ≡ seat.old.id) }
        ensures slots { seat.new.me.1 ≡ seat.old.me.1 }
        ensures decided { HasDecided (machines (lanes_in (start_of self.now.table.shared.key)))
            (start_of self.now.table.shared.key) result.0 (asked_by caller.now request.now)
            result.1 seat.old.me.0 seat.new.me.0 }
    {
        hands_hold_what_was_taken::<DeskHall<D>>();
        machines_stand_for_their_lists::<DeskHall<D>>();
        the_register_takes_turns::<DeskHall<D>>();
        the_register_counts();
        calls_are_events();
        let mine = self.draw_register(seat);
        self.wait(rt, seat, Queue::OfRegister, mine);
        let mut slot = self
            .table
            .shared
            .exchange(seat, 0, Slot::Away)
            .into_register_slot();
        let place = slot.register.places();
        let verdict = slot.register.decide(caller, request);
        let asked = (Snapshot::of(caller), Snapshot::of(request));
        slot.news = Some(RegisterNews::Asks {
            asked: Snapshot::of(&asked),
            verdict: Snapshot::of(&verdict),
        });
        self.table.shared.exchange(seat, 0, Slot::AtRegister(slot));
        self.leave(seat, Queue::OfRegister);
        (place, verdict)
    }
}
