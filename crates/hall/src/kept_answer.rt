//! A request that is kept before its answer acknowledges it.
ghost use Rattle.std.specs.Prelude.{◌≡◌, ◌+◌, ◌≤◌};
ghost use Rattle.object_ops.specs.Conditions.{IsSoundOp};
ghost use Rattle.hall.specs.Answers.{HasAnswered, HasGoneThrough, IsDeniedWhere, IsWantingWhere};
ghost use Rattle.hall.specs.DeskTurns.{IsTurnOf};
ghost use Rattle.hall.specs.KeptAnswers.{HasKeptBehind, HasKeptFor, IsKeptPast, work_for, work_of};
ghost use Rattle.hall.specs.Passes.{IsPassOf, opening, view_of, who};

use crate::gate::Gate;
use crate::hall::Hall;
use crate::journal::{DeskWork, JournalDesk};
use crate::pass::Pass;
use access_lists::Caller;
use edge_traits::Disk;
use flush_journal::Why;
use object_ops::{Op, Reply, Request};
use register::verdicts_come_exactly;
use service_core::{Answer, What};
use service_histories::{histories_are_legal, replies_are_replays};
use std::sync::Wait;

/// What a request is answered, and whether that is kept. Where it isn't, what was done stands, and
/// the answer acknowledges nothing.
#[derive(Drop)]
pub struct KeptAnswer {
    /// The place, and its reply.
    pub answer: Answer,
    /// Why the reply couldn't be kept; `Ok` where it was, and where it says nothing that is kept.
    pub kept: Result<(), Why>,
}

/// What is asked of the desk before this is answered, if anything: where a flush is done, a flush that
/// keeps its place, and where a change of a folder, a domain or an access list is, a keeping of the
/// catalogue.
pub fn work_for(op: &Op, place: u64, what: &What) -> Option<DeskWork>
    ensures { result ≡ work_for op.now place what.now }
{
    match what {
        What::Replied(Reply::Done { .. }) => work_of(op, place),
        What::Replied(Reply::Refused(_)) | What::Denied { .. } | What::NoMemory => None,
    }
}

// So where it is done.
fn work_of(op: &Op, place: u64) -> Option<DeskWork>
    ensures { result ≡ work_of op.now place }
{
    match op {
        Op::Flush => Some(DeskWork::FlushPast { place }),
        Op::PutNode { .. } | Op::DropNode | Op::PutAcl { .. } => Some(DeskWork::KeepRegister),
        Op::GetNode
        | Op::ListNodes
        | Op::GetAcls
        | Op::GetAcl { .. }
        | Op::MakeObject { .. }
        | Op::GetObject { .. }
        | Op::DropObject { .. }
        | Op::ListLinks { .. }
        | Op::GetLink { .. }
        | Op::PutLink { .. }
        | Op::DropLink { .. }
        | Op::ListAttributes { .. }
        | Op::GetAttribute { .. }
        | Op::PutAttribute { .. }
        | Op::DropAttribute { .. }
        | Op::GetShape { .. }
        | Op::PutShape { .. }
        | Op::GetElem { .. }
        | Op::GetValue { .. }
        | Op::PutValue { .. }
        | Op::GetPoints { .. } => None,
    }
}

impl<D: Disk + Drop> Hall<JournalDesk<D>> {
    // One turn of the desk, in which this is asked of it.
    fn one_turn<W: Wait>(
        &self,
        rt: &W,
        pass: &mut Pass<JournalDesk<D>>,
        work: DeskWork,
    ) -> Result<u64, Why>
        requires of_this_hall { IsPassOf self.now pass.old }
        ensures of_this_hall { IsPassOf self.now pass.new }
        ensures same { (who pass.new ≡ who pass.old) × (pass.new.front ≡ pass.old.front) }
        ensures turn { IsTurnOf D.Disk work (opening self.now) result (view_of pass.old)
            (view_of pass.new) }
    {
        match work {
            DeskWork::Flush => self.flush(rt, pass),
            DeskWork::FlushPast { place } => self.flush_past(rt, pass, place),
            DeskWork::KeepRegister => self.keep_register(rt, pass),
            DeskWork::Look => Ok(self.kept(rt, pass)),
        }
    }

    // Keeps what is to be kept first, if anything.
    fn keep_first<W: Wait>(
        &self,
        rt: &W,
        pass: &mut Pass<JournalDesk<D>>,
        work: Option<DeskWork>,
    ) -> Result<(), Why>
        requires of_this_hall { IsPassOf self.now pass.old }
        ensures of_this_hall { IsPassOf self.now pass.new }
        ensures same { (who pass.new ≡ who pass.old) × (pass.new.front ≡ pass.old.front) }
        ensures kept { HasKeptFor D.Disk work (opening self.now) result (view_of pass.old)
            (view_of pass.new) }
    {
        if let Some(work) = work {
            self.one_turn(rt, pass, work)?;
        }
        Ok(())
    }

    /// Answers one request as `ask` does. A flush that is done, and a change of a folder, a domain or
    /// an access list that is done, is kept before it is answered, in a turn of the desk. A flush whose
    /// place is kept by then asks nothing of the disk. Waits for turns.
    ///
    /// `kept` has the errors of `flush`: the change then stands, and isn't acknowledged.
    pub fn ask_kept<W: Wait, G: Gate>(
        &self,
        rt: &W,
        pass: &mut Pass<JournalDesk<D>>,
        gate: &mut G,
        caller: &Caller,
        request: &Request,
    ) -> KeptAnswer
        requires of_this_hall { IsPassOf self.now pass.old }
        requires op { IsSoundOp request.now.op }
        ensures of_this_hall { IsPassOf self.now pass.new }
        ensures same { who pass.new ≡ who pass.old }

        // The answer is one of `ask`.
        ensures answered { HasAnswered (opening self.now) caller.now request.now result.answer
            (view_of pass.old) (view_of pass.new) }
        ensures denied { IsDeniedWhere (opening self.now) (view_of pass.new) caller.now request.now
            result.answer }
        ensures wanting { IsWantingWhere (view_of pass.new) result.answer }
        ensures above { pass.old.front ≤ result.answer.place }
        ensures front { pass.new.front ≡ result.answer.place + 1 }
        ensures gates { HasGoneThrough G.goes (view_of pass.new) result.answer.place gate.old
            gate.new }

        // Behind it stands one turn of the desk where something is to be kept, and else none.
        ensures kept { HasKeptBehind D.Disk (opening self.now) caller.now request.now result
            (view_of pass.old) (view_of pass.new) }

        // Where a flush is acknowledged, a keeping that the pass has seen, which was answered Ok, has
        // its place and all before it.
        ensures flushed { work_for request.now.op result.answer.place result.answer.what
            ≡ Some (DeskWork.FlushPast result.answer.place)
            → result.kept ≡ Ok tt → IsKeptPast (λ r. r.c) (view_of pass.new) result.answer.place }

        // Where a change of the catalogue is, one has the catalogue with it.
        ensures changed { work_for request.now.op result.answer.place result.answer.what
            ≡ Some DeskWork.KeepRegister
            → result.kept ≡ Ok tt → IsKeptPast (λ r. r.p) (view_of pass.new) result.answer.place }
    {
        histories_are_legal();
        replies_are_replays();
        verdicts_come_exactly();
        let answer = self.ask(rt, pass, gate, caller, request);
        let work = work_for(&request.op, answer.place, &answer.what);
        let kept = self.keep_first(rt, pass, work);
        KeptAnswer { answer, kept }
    }
}
