//! Turns of lanes: each does a part of a granted request.
ghost use Rattle.std.specs.Prelude.{◌≡◌, ◌≢◌, [], Some};
ghost use Rattle.lane_histories.specs.Legal.{is_skipped, is_well};
ghost use Rattle.lane_histories.specs.Replies.{two_what, what_of};
ghost use Rattle.hall_rule.specs.Asks.{HasServed};
ghost use Rattle.hall_rule.specs.Steps.{plain_outcome};
ghost use Rattle.hall_rule.specs.WholeTurns.{HasActed, MayAct};
ghost use Rattle.object_ops.specs.Conditions.{IsSoundOp};
ghost use Rattle.object_ops.specs.declared.ops.Op.TheVariants.{DropNode};
ghost use Rattle.chunk_owner.specs.Lanes.{IsSameLane};
ghost use Rattle.chunk_owner.specs.Slots.Slots.{StillSays};
ghost use Rattle.service_histories.specs.ArrayServices.{array_service, task_of};
ghost use Rattle.service_histories.specs.Cuttings.{MarksOnly};
ghost use Rattle.service_histories.specs.PlainSteps.{answer_of};
ghost use Rattle.hall.specs.Answers.{GoesThrough, IsServed, IsServingJob};
ghost use Rattle.hall.specs.ArrayMachines.{IsOpened, lanes_in, machines, start_of};
ghost use Rattle.hall.specs.Turns.{IsReadyFor, Performs};

use crate::desk::AtDesk;
use crate::gate::Gate;
use crate::hall::Hall;
use crate::plays::{ArrayHall, Chair, DeskHall};
use chunk_owner::Owner;
use hall_rule::{
    LaneNews, Queue, Slot, asks_are_answered, each_lane_is_served, hands_hold_what_was_taken,
    lanes_take_turns, machines_stand_for_their_lists,
};
use lane_histories::Outcome;
use object_ops::{Grant, Op, Reply, Step};
use register::{Tickets, Turn, decisions_continue, decisions_keep};
use service_core::What;
use service_histories::{
    calls_are_events, cuts_tell_the_lane, the_register_counts, turns_are_ready,
};
use std::alloc::Global;
use std::snapshot::Snapshot;
use std::sync::Wait;

/// What the turns of a granted request do.
#[derive(Drop)]
pub(crate) struct Job<'a> {
    pub op: &'a Op,
    pub grant: Grant,
    pub place: u64,
}

// What the owner does in a turn, if anything.
fn perform(
    alloc: Global,
    owner: &mut Owner,
    job: &Job,
    step: Option<Step>,
    skip: bool,
) -> Outcome<Reply>
    requires sound { IsSoundOp job.now.op.now }
    requires ready { IsReadyFor owner.old job.now.grant job.now.op.now step }
    ensures did { Performs (task_of job.now.grant job.now.op.now step) owner.old.objects result
        owner.new.objects }
    ensures skips { is_skipped result ≡ skip }
    ensures says { StillSays owner.old.slots owner.new.slots }
    ensures alone { MarksOnly (task_of job.now.grant job.now.op.now step) result owner.old owner.new }
    ensures same { IsSameLane owner.old owner.new }
{
    calls_are_events();
    if skip {
        return Outcome::Skipped;
    }
    let Some(step) = step else {
        owner.forget(job.grant.number);
        return Outcome::Done(Reply::done(alloc, 200));
    };
    match owner.act(job.op, step, &job.grant) {
        Ok(reply) => Outcome::Done(reply),
        Err(_) => Outcome::Short,
    }
}

// The outcome, as the history has it.
fn noted(outcome: &Outcome<Reply>) -> Outcome<Snapshot<Reply>>
    ensures { plain_outcome result ≡ outcome.now }
{
    match outcome {
        Outcome::Done(reply) => Outcome::Done(Snapshot::of(reply)),
        Outcome::Short => Outcome::Short,
        Outcome::Skipped => Outcome::Skipped,
    }
}

// Whether a second turn follows on it.
fn went_well(outcome: &Outcome<Reply>) -> bool
    ensures { result ≡ is_well (array_service 1) outcome.now }
{
    match outcome {
        Outcome::Done(Reply::Done { .. }) => true,
        _ => false,
    }
}

// What the one turn of a request came to.
fn told(outcome: Outcome<Reply>) -> What
    ensures { result ≡ answer_of (what_of outcome) }
{
    match outcome {
        Outcome::Done(reply) => What::Replied(reply),
        Outcome::Short => What::NoMemory,
        Outcome::Skipped => What::NoMemory,
    }
}

// What two turns came to: the last one that was reached tells.
fn told_by(first: Outcome<Reply>, second: Outcome<Reply>) -> What
    ensures { (what : _) → two_what first (Some second) ≡ Some what → result ≡ answer_of what }
{
    match second {
        Outcome::Done(reply) => What::Replied(reply),
        Outcome::Short => What::NoMemory,
        Outcome::Skipped => told(first),
    }
}

impl<D: AtDesk> Hall<D> {
    // A turn of a lane with a ticket: the owner does its part, unless it is skipped.
    fn act<W: Wait, G: Gate>(
        &self,
        rt: &W,
        seat: &mut Chair<D>,
        gate: &mut G,
        job: &Job,
        turn: Turn,
        skip: bool,
    ) -> Outcome<Reply>
        requires table { seat.old.table_id ≡ self.now.table.shared.table_id }
        requires opened { IsOpened (start_of self.now.table.shared.key) }
        requires sound { IsSoundOp job.now.op.now }
        requires may { (part : _)
            × MayAct (array_service (lanes_in (start_of self.now.table.shared.key)))
            (start_of self.now.table.shared.key) turn.lane turn.ticket job.now.place part
            (task_of job.now.grant job.now.op.now turn.step) skip seat.old.me.0 }
        ensures table { (seat.new.table_id ≡ seat.old.table_id) × (seat.new.id ≡ seat.old.id) }
        ensures slots { seat.new.me.1 ≡ seat.old.me.1 }
        ensures acted { (part : _)
            → MayAct (array_service (lanes_in (start_of self.now.table.shared.key)))
            (start_of self.now.table.shared.key) turn.lane turn.ticket job.now.place part
            (task_of job.now.grant job.now.op.now turn.step) skip seat.old.me.0
            → HasActed (machines (lanes_in (start_of self.now.table.shared.key)))
            (start_of self.now.table.shared.key) turn.lane job.now.place part
            (task_of job.now.grant job.now.op.now turn.step) result seat.old.me.0 seat.new.me.0 }
        ensures gone { G.goes gate.old turn.lane job.now.place gate.new }
    {
        hands_hold_what_was_taken::<DeskHall<D>>();
        machines_stand_for_their_lists::<DeskHall<D>>();
        lanes_take_turns::<DeskHall<D>>();
        turns_are_ready();
        cuts_tell_the_lane();
        let queue = Queue::OfLane(turn.lane);
        let home = queue.slot();
        self.wait(rt, seat, queue, turn.ticket);
        let mut slot = self
            .table
            .shared
            .exchange(seat, home, Slot::Away)
            .into_lane_slot();
        gate.before(turn.lane, job.place);
        let outcome = perform(self.alloc, &mut slot.owner, job, turn.step, skip);
        slot.news = Some(LaneNews::Acts(noted(&outcome)));
        self.table.shared.exchange(seat, home, Slot::AtLane(slot));
        self.leave(seat, queue);
        outcome
    }

    // The one or two turns of a request on objects.
    fn take_steps<W: Wait, G: Gate>(
        &self,
        rt: &W,
        seat: &mut Chair<D>,
        gate: &mut G,
        job: &Job,
        tickets: &mut Tickets,
    ) -> What
        requires table { seat.old.table_id ≡ self.now.table.shared.table_id }
        requires opened { IsOpened (start_of self.now.table.shared.key) }
        requires sound { IsSoundOp job.now.op.now }
        requires of_objects { job.now.op.now ≢ DropNode }
        requires serving { (before : _) × (e : _)
            × IsServingJob (start_of self.now.table.shared.key) before e job.now.place
            job.now.op.now job.now.grant tickets.old seat.old.me.0 }
        ensures spent { tickets.new.left ≡ [] }
        ensures table { (seat.new.table_id ≡ seat.old.table_id) × (seat.new.id ≡ seat.old.id) }
        ensures slots { seat.new.me.1 ≡ seat.old.me.1 }
        ensures served { (before : _) (e : _)
            → IsServingJob (start_of self.now.table.shared.key) before e job.now.place
            job.now.op.now job.now.grant tickets.old seat.old.me.0
            → IsServed (start_of self.now.table.shared.key) e result seat.old.me.0
            seat.new.me.0 }
        ensures gates { GoesThrough G.goes job.now.place tickets.old.left gate.old gate.new }
    {
        asks_are_answered::<ArrayHall<D>>();
        decisions_keep();
        decisions_continue();
        the_register_counts();
        let Some(first) = tickets.next() else {
            return What::Replied(Reply::done(self.alloc, 200));
        };
        let one = self.act(rt, seat, gate, job, first, false);
        let Some(second) = tickets.next() else {
            return told(one);
        };
        let follows = went_well(&one);
        let two = self.act(rt, seat, gate, job, second, !follows);
        told_by(one, two)
    }

    // A turn of each lane, in which it drops the objects of a domain.
    fn take_lanes<W: Wait, G: Gate>(
        &self,
        rt: &W,
        seat: &mut Chair<D>,
        gate: &mut G,
        job: &Job,
        tickets: &mut Tickets,
    ) -> What
        requires table { seat.old.table_id ≡ self.now.table.shared.table_id }
        requires opened { IsOpened (start_of self.now.table.shared.key) }
        requires sound { IsSoundOp job.now.op.now }
        requires of_a_node { job.now.op.now ≡ DropNode }
        requires serving { (before : _) × (e : _)
            × IsServingJob (start_of self.now.table.shared.key) before e job.now.place
            job.now.op.now job.now.grant tickets.old seat.old.me.0 }
        ensures spent { tickets.new.left ≡ [] }
        ensures table { (seat.new.table_id ≡ seat.old.table_id) × (seat.new.id ≡ seat.old.id) }
        ensures slots { seat.new.me.1 ≡ seat.old.me.1 }
        ensures served { (before : _) (e : _)
            → IsServingJob (start_of self.now.table.shared.key) before e job.now.place
            job.now.op.now job.now.grant tickets.old seat.old.me.0
            → IsServed (start_of self.now.table.shared.key) e result seat.old.me.0
            seat.new.me.0 }
        ensures gates { GoesThrough G.goes job.now.place tickets.old.left gate.old gate.new }
    {
        each_lane_is_served::<ArrayHall<D>>();
        decisions_keep();
        decisions_continue();
        the_register_counts();
        'lanes: while let Some(turn) = tickets.next() {
            drop(self.act(rt, seat, gate, job, turn, false));
        }
        What::Replied(Reply::done(self.alloc, 200))
    }

    // The turns that a verdict asks for.
    pub(crate) fn take_turns<W: Wait, G: Gate>(
        &self,
        rt: &W,
        seat: &mut Chair<D>,
        gate: &mut G,
        job: &Job,
        tickets: &mut Tickets,
    ) -> What
        requires table { seat.old.table_id ≡ self.now.table.shared.table_id }
        requires opened { IsOpened (start_of self.now.table.shared.key) }
        requires sound { IsSoundOp job.now.op.now }
        requires serving { (before : _) × (e : _)
            × IsServingJob (start_of self.now.table.shared.key) before e job.now.place
            job.now.op.now job.now.grant tickets.old seat.old.me.0 }
        ensures spent { tickets.new.left ≡ [] }
        ensures table { (seat.new.table_id ≡ seat.old.table_id) × (seat.new.id ≡ seat.old.id) }
        ensures slots { seat.new.me.1 ≡ seat.old.me.1 }
        ensures served { (before : _) (e : _)
            → IsServingJob (start_of self.now.table.shared.key) before e job.now.place
            job.now.op.now job.now.grant tickets.old seat.old.me.0
            → IsServed (start_of self.now.table.shared.key) e result seat.old.me.0
            seat.new.me.0 }
        ensures gates { GoesThrough G.goes job.now.place tickets.old.left gate.old gate.new }
    {
        match job.op {
            Op::DropNode => self.take_lanes(rt, seat, gate, job, tickets),
            _ => self.take_steps(rt, seat, gate, job, tickets),
        }
    }
}
