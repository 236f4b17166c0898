//! The turns of a request, one after another.

ghost use Rattle.std.specs.Prelude.{◌≡◌, ◌<◌, [], List, length, Some, true};
ghost use Rattle.object_ids.specs.declared.ids.Kind.TheVariants.{Group};
ghost use Rattle.object_ops.specs.Replies.{Follows, was_done};
ghost use Rattle.object_ops.specs.Conditions.{IsSoundOp};
ghost use Rattle.object_acts.specs.Arrays.Marked.{IsDone};
ghost use Rattle.chunk_owner.specs.Acts.{acted};
ghost use Rattle.register.specs.Tickets.{AreEach};
ghost use Rattle.chunk_owner.specs.Owners.Joined.{AreLanes, whole};
ghost use Rattle.chunk_owner.specs.Owners.Records.{LanesStillSay};
ghost use Rattle.service_core.specs.Marking.{AddsLaneMarks, IsForgetMark, IsStepMark, IsTakenMark};
ghost use Rattle.service_core.specs.Marking.{MarksService, MarksTurns};
ghost use Rattle.service_core.specs.Steps.{Runs, Serves, Takes, without_domain};
ghost use Rattle.service_core.specs.Turns.{AreReady, AreServable, IsReadyAt};

use chunk_owner::Owner;
use object_ops::{Grant, Op, Reply, Step};
use register::{Tickets, Turn};
use std::alloc::{AllocError, Global};

fn is_done(reply: &Reply) -> bool
    ensures { result ≡ was_done reply.now }
{
    match reply {
        Reply::Done { .. } => true,
        Reply::Refused(_) => false,
    }
}

// One step, in its lane.
fn act_in(
    owners: &mut [Owner],
    lane: u32,
    step: Step,
    op: &Op,
    grant: &Grant,
) -> Result<Reply, AllocError>
    requires lane { lane < length owners.old }
    requires lanes { AreLanes (length owners.old) 0 owners.old }
    requires op { IsSoundOp op.now }
    requires ready { IsReadyAt (length owners.old) lane grant.now op.now (Some step) (whole owners.old) }
    requires root { grant.now.root.kind ≡ Group }
    ensures acts { Follows (acted grant.now op.now step (whole owners.old)) (whole owners.old)
        result (whole owners.new) }
    ensures lanes { AreLanes (length owners.old) 0 owners.new }
    ensures says { LanesStillSay owners.old owners.new }
    ensures alone { AddsLaneMarks (λ key. IsDone result
        × IsStepMark grant.now op.now step (whole owners.old) key) owners.old owners.new }
{
    let owner = &mut owners[lane as usize];
    owner.is_whole();
    owner.act(op, step, grant)
}

// What is done in one turn.
fn take_turn(
    alloc: Global,
    owners: &mut [Owner],
    turn: &Turn,
    op: &Op,
    grant: &Grant,
) -> Result<Reply, AllocError>
    requires lane { turn.now.lane < length owners.old }
    requires lanes { AreLanes (length owners.old) 0 owners.old }
    requires op { IsSoundOp op.now }
    requires ready { IsReadyAt (length owners.old) turn.now.lane grant.now op.now turn.now.step
        (whole owners.old) }
    requires root { grant.now.root.kind ≡ Group }
    ensures acts { Takes grant.now op.now turn.now.step (whole owners.old) result (whole owners.new) }
    ensures lanes { AreLanes (length owners.old) 0 owners.new }
    ensures says { LanesStillSay owners.old owners.new }
    ensures alone { AddsLaneMarks (λ key. IsDone result
        × IsTakenMark grant.now op.now turn.now.step (whole owners.old) key) owners.old owners.new }
{
    match turn.step {
        Some(step) => act_in(owners, turn.lane, step, op, grant),
        None => Ok(Reply::done(alloc, 200)),
    }
}

// The steps of some tickets, in order, up to the first that is refused.
fn run_turns(
    alloc: Global,
    owners: &mut [Owner],
    tickets: &mut Tickets,
    op: &Op,
) -> Result<Reply, AllocError>
    requires lanes { AreLanes (length owners.old) 0 owners.old }
    requires op { IsSoundOp op.now }
    requires ready { AreReady (length owners.old) tickets.old.grant op.now (whole owners.old)
        tickets.old.left }
    requires root { tickets.old.grant.root.kind ≡ Group }
    ensures runs { Runs tickets.old.grant op.now tickets.old.left (whole owners.old) result
        (whole owners.new) }
    ensures lanes { AreLanes (length owners.old) 0 owners.new }
    ensures says { LanesStillSay owners.old owners.new }
    ensures alone { MarksTurns tickets.old.grant op.now tickets.old.left owners.old result owners.new }
{
    let grant = tickets.grant();
    let mut reply = Reply::done(alloc, 200);
    'turns: while is_done(&reply) {
        let Some(turn) = tickets.next() else {
            return Ok(reply);
        };
        reply = take_turn(alloc, owners, &turn, op, &grant)?;
    }
    Ok(reply)
}

// Drops the objects of a domain in each lane, in the lane's turn.
fn forget_turns(owners: &mut [Owner], tickets: &mut Tickets, number: u64)
    requires lanes { AreLanes (length owners.old) 0 owners.old }
    requires each { AreEach (length owners.old) 0 tickets.old.left }
    ensures rest { whole owners.new ≡ without_domain number (whole owners.old) }
    ensures lanes { AreLanes (length owners.old) 0 owners.new }
    ensures says { LanesStillSay owners.old owners.new }
    ensures alone { AddsLaneMarks (IsForgetMark number (whole owners.old))
        owners.old owners.new }
{
    'lanes: while let Some(turn) = tickets.next() {
        let owner = &mut owners[turn.lane as usize];
        owner.is_whole();
        owner.forget(number);
    }
}

// Takes the tickets that are left.
fn drain(tickets: &mut Tickets)
    ensures { tickets.new.left ≡ [] }
{
    'rest: while let Some(_) = tickets.next() {}
}

// The turns of a granted request.
fn take_turns(
    alloc: Global,
    owners: &mut [Owner],
    tickets: &mut Tickets,
    op: &Op,
) -> Result<Reply, AllocError>
    requires lanes { AreLanes (length owners.old) 0 owners.old }
    requires op { IsSoundOp op.now }
    requires ready { AreServable (length owners.old) op.now tickets.old (whole owners.old) }
    ensures serves { Serves op.now tickets.old (whole owners.old) result (whole owners.new) }
    ensures lanes { AreLanes (length owners.old) 0 owners.new }
    ensures says { LanesStillSay owners.old owners.new }
    ensures alone { MarksService op.now tickets.old owners.old result owners.new }
{
    match op {
        Op::DropNode => {
            let grant = tickets.grant();
            forget_turns(owners, tickets, grant.number);
            Ok(Reply::done(alloc, 200))
        }
        _ => run_turns(alloc, owners, tickets, op),
    }
}

/// Serves a granted request: all its turns at once.
pub(crate) fn serve(
    alloc: Global,
    owners: &mut [Owner],
    mut tickets: Tickets,
    op: &Op,
) -> Result<Reply, AllocError>
    requires lanes { AreLanes (length owners.old) 0 owners.old }
    requires op { IsSoundOp op.now }
    requires ready { AreServable (length owners.old) op.now tickets (whole owners.old) }
    ensures serves { Serves op.now tickets (whole owners.old) result (whole owners.new) }
    ensures lanes { AreLanes (length owners.old) 0 owners.new }
    ensures says { LanesStillSay owners.old owners.new }
    ensures alone { MarksService op.now tickets owners.old result owners.new }
{
    let done = take_turns(alloc, owners, &mut tickets, op);
    drain(&mut tickets);
    tickets.finish();
    done
}
