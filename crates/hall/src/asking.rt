//! A whole request: its place, its turns and its answer.
ghost use Rattle.std.specs.Prelude.{◌≡◌, ◌<◌, ◌≤◌, ◌+◌, ◌^◌, []};
ghost use Rattle.hall_rule.specs.WholeTurns.{IsPass};
ghost use Rattle.object_ops.specs.Conditions.{IsSoundOp};
ghost use Rattle.register.specs.Grants.{turns_of};
ghost use Rattle.hall.specs.Answers.{GoesThrough, HasAnswered, HasGoneThrough, IsDeniedWhere};
ghost use Rattle.hall.specs.Answers.{IsServed, IsServingVerdict, IsWantingWhere};
ghost use Rattle.hall.specs.ArrayMachines.{IsOpened, start_of};
ghost use Rattle.hall.specs.Passes.{IsPassOf, opening, view_of, who};

use crate::acting::Job;
use crate::desk::AtDesk;
use crate::gate::Gate;
use crate::hall::Hall;
use crate::pass::Pass;
use crate::plays::{ArrayHall, Chair};
use access_lists::Caller;
use hall_rule::asks_are_answered;
use object_ops::{Op, Reply, Request};
use register::{Verdict, verdicts_come_exactly};
use service_core::{Answer, What};
use service_histories::{histories_are_legal, replies_are_replays};
use std::sync::Wait;

impl<D: AtDesk> Hall<D> {
    // What is behind the register's turn.
    fn serve<W: Wait, G: Gate>(
        &self,
        rt: &W,
        seat: &mut Chair<D>,
        gate: &mut G,
        place: u64,
        op: &Op,
        verdict: Verdict,
    ) -> What
        requires table { seat.old.table_id ≡ self.now.table.shared.table_id }
        requires opened { IsOpened (start_of self.now.table.shared.key) }
        requires sound { IsSoundOp op.now }
        requires serving { (before : _) × (e : _)
            × IsServingVerdict (start_of self.now.table.shared.key) before e place op.now verdict
            seat.old.me.0 }
        ensures table { (seat.new.table_id ≡ seat.old.table_id) × (seat.new.id ≡ seat.old.id) }
        ensures slots { seat.new.me.1 ≡ seat.old.me.1 }
        ensures served { (before : _) (e : _)
            → IsServingVerdict (start_of self.now.table.shared.key) before e place op.now verdict
            seat.old.me.0
            → IsServed (start_of self.now.table.shared.key) e result seat.old.me.0
            seat.new.me.0 }
        ensures gates { GoesThrough G.goes place (turns_of verdict) gate.old gate.new }
    {
        asks_are_answered::<ArrayHall<D>>();
        match verdict {
            Verdict::Granted(mut tickets) => {
                let job = Job {
                    op,
                    grant: tickets.grant(),
                    place,
                };
                let what = self.take_turns(rt, seat, gate, &job, &mut tickets);
                tickets.finish();
                what
            }
            Verdict::Answered(reply) => What::Replied(reply),
            Verdict::Denied { right } => What::Denied { right },
            Verdict::Refused(refusal) => What::Replied(Reply::Refused(refusal)),
            Verdict::NoMemory => What::NoMemory,
        }
    }

    fn ask_seat<W: Wait, G: Gate>(
        &self,
        rt: &W,
        seat: &mut Chair<D>,
        gate: &mut G,
        caller: &Caller,
        request: &Request,
    ) -> Answer
        requires table { seat.old.table_id ≡ self.now.table.shared.table_id }
        requires opened { IsOpened (start_of self.now.table.shared.key) }
        requires sound { IsSoundOp request.now.op }
        requires pass { IsPass (start_of self.now.table.shared.key) seat.old.me.0 }
        requires idle { seat.old.me.0.claims ≡ [] }
        ensures table { (seat.new.table_id ≡ seat.old.table_id) × (seat.new.id ≡ seat.old.id) }
        ensures slots { seat.new.me.1 ≡ seat.old.me.1 }
        ensures answered { HasAnswered (start_of self.now.table.shared.key) caller.now
            request.now result seat.old.me.0 seat.new.me.0 }
        ensures early { result.place < 2 ^ 61 }
        ensures gates { HasGoneThrough G.goes seat.new.me.0 result.place gate.old gate.new }
    {
        asks_are_answered::<ArrayHall<D>>();
        let (place, verdict) = self.decide(rt, seat, caller, request);
        let what = self.serve(rt, seat, gate, place, &request.op, verdict);
        Answer { place, what }
    }

    /// Answers one request, at the next place. Waits for the turn of the register, and for those of
    /// the lanes that the verdict names, one after another; in each of these it goes through the
    /// gate first. It keeps nothing: over a journal's desk `ask_kept` does.
    pub fn ask<W: Wait, G: Gate>(
        &self,
        rt: &W,
        pass: &mut Pass<D>,
        gate: &mut G,
        caller: &Caller,
        request: &Request,
    ) -> Answer
        requires of_this_hall { IsPassOf self.now pass.old }
        requires op { IsSoundOp request.now.op }
        ensures of_this_hall { IsPassOf self.now pass.new }
        ensures same { who pass.new ≡ who pass.old }

        // One more entry is the pass's own, and the answer is the reply of its place.
        ensures answered { HasAnswered (opening self.now) caller.now request.now result
            (view_of pass.old) (view_of pass.new) }

        // Denied exactly where the list in force at the place doesn't give the caller the right.
        ensures denied { IsDeniedWhere (opening self.now) (view_of pass.new) caller.now request.now
            result }

        // Want of memory exactly where the verdict is that, or one of the place's turns found none.
        ensures wanting { IsWantingWhere (view_of pass.new) result }
        ensures above { pass.old.front ≤ result.place }
        ensures front { pass.new.front ≡ result.place + 1 }

        // Each turn of a lane went through the gate.
        ensures gates { HasGoneThrough G.goes (view_of pass.new) result.place gate.old gate.new }
    {
        asks_are_answered::<ArrayHall<D>>();
        histories_are_legal();
        replies_are_replays();
        verdicts_come_exactly();
        let answer = self.ask_seat(rt, &mut pass.seat, gate, caller, request);
        pass.front = answer.place + 1;
        answer
    }
}
