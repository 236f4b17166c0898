//! A lane: its owner, the tickets that are out, and what was passed.

ghost use Rattle.std.specs.Prelude.{◌≡◌, IsTrue};
ghost use Rattle.object_ops.specs.Conditions.{IsSoundOp};

use crate::requests::request_of;
use crate::services::Entry;
use crate::steps::{has_fresh, is_step_of};
use chunk_owner::{Owner, touched};
use flush_journal::Batch;
use object_ids::{Kind, ObjectId, lane};
use object_ops::{Grant, Op, Reply, Request, Step, on_text};
use register::Turn;
use rest_requests::Tokens;
use std::alloc::Global;
use std::test::Fail;

/// What a ticket is for: a step of the request at a place, or the drop of a domain's objects; or a cut that was drawn at
/// so many places.
#[derive(Clone, Copy)]
pub(crate) struct Task {
    pub(crate) place: usize,
    pub(crate) step: Option<Step>,
    pub(crate) is_cut: bool,
}

/// What a lane has passed: a turn of a request, and the id that is still to be made behind a link; or a cut.
#[derive(Clone, Copy)]
pub(crate) enum Item {
    Turn {
        place: usize,
        unmade: Option<ObjectId>,
    },
    Cut {
        places: usize,
    },
}

/// One of two lanes.
#[derive(Drop)]
pub(crate) struct Lane {
    alloc: Global,
    number: u32,
    owner: Owner,
    tasks: Vec<Task>,
    passed: Vec<Item>,
    ghost own: { owner.lane ≡ number },
    ghost two: { owner.lanes ≡ 2 },
}

fn is_done(reply: &Reply) -> bool {
    match reply {
        Reply::Done { .. } => true,
        Reply::Refused(_) => false,
    }
}

/// The id that is still to be made behind a turn.
fn unmade_behind(step: Option<Step>, grant: &Grant) -> Option<ObjectId> {
    match step {
        Some(Step::Link) => grant.fresh,
        _ => None,
    }
}

fn item_of(task: Task, unmade: Option<ObjectId>) -> Item {
    let place = task.place;
    if task.is_cut {
        Item::Cut { places: place }
    } else {
        Item::Turn { place, unmade }
    }
}

impl Lane {
    pub(crate) fn new(alloc: Global, number: u32, owner: Owner) -> Lane
        requires own { owner.lane ≡ number }
        requires two { owner.lanes ≡ 2 }
    {
        Lane {
            alloc,
            number,
            owner,
            tasks: Vec::new(alloc),
            passed: Vec::new(alloc),
        }
    }

    /// A ticket, which must be the next.
    pub(crate) fn give(&mut self, turn: Turn, place: usize, is_cut: bool) -> Result<(), Fail> {
        if self.tasks.len() as u64 != turn.ticket {
            return Err(Fail::from("a ticket isn't the next"));
        }
        let step = turn.step;
        self.tasks.push(Task {
            place,
            step,
            is_cut,
        })?;
        Ok(())
    }

    /// What the next ticket is for.
    pub(crate) fn next_task(&self) -> Result<Task, Fail> {
        match self.tasks.as_slice().get(self.passed.len()) {
            Some(task) => Ok(*task),
            None => Err(Fail::from("no ticket is out")),
        }
    }

    pub(crate) fn into_passed(self) -> Vec<Item> {
        self.passed
    }

    /// What the next ticket is for is done.
    fn pass(&mut self, task: Task, unmade: Option<ObjectId>) -> Result<(), Fail> {
        self.passed.push(item_of(task, unmade))?;
        Ok(())
    }

    /// The turn of a drawn cut.
    pub(crate) fn cut(&mut self, task: Task, into: &mut Batch) -> Result<(), Fail> {
        self.owner.cut(into)?;
        self.pass(task, None)
    }

    /// The turn of a request.
    pub(crate) fn take(
        &mut self,
        tokens: &Tokens,
        entry: &mut Entry,
        task: Task,
        grant: Grant,
    ) -> Result<(), Fail> {
        self.turn(tokens, entry, task.step, grant)?;
        entry.left = entry.left.saturating_sub(1);
        self.pass(task, unmade_behind(task.step, &grant))
    }

    fn turn(
        &mut self,
        tokens: &Tokens,
        entry: &mut Entry,
        step: Option<Step>,
        grant: Grant,
    ) -> Result<(), Fail> {
        match step {
            None => self.forget(entry, grant),
            Some(Step::Make) => self.make(tokens, entry, grant),
            Some(Step::Link) => self.link(tokens, entry, grant),
            Some(Step::Only) => self.only(tokens, entry, grant),
        }
    }

    fn forget(&mut self, entry: &mut Entry, grant: Grant) -> Result<(), Fail> {
        self.owner.forget(grant.number);
        entry.tell(self.alloc, "", &Reply::done(self.alloc, 200))
    }

    fn link(&mut self, tokens: &Tokens, entry: &mut Entry, grant: Grant) -> Result<(), Fail> {
        let done = self.step(tokens, entry, Step::Link, grant)?;
        entry.linked = Some(done);
        Ok(())
    }

    fn only(&mut self, tokens: &Tokens, entry: &mut Entry, grant: Grant) -> Result<(), Fail> {
        self.step(tokens, entry, Step::Only, grant)?;
        Ok(())
    }

    /// Its turn comes behind that of the link, and is passed over where the link was refused.
    fn make(&mut self, tokens: &Tokens, entry: &mut Entry, grant: Grant) -> Result<(), Fail> {
        match entry.linked {
            Some(true) => {
                self.step(tokens, entry, Step::Make, grant)?;
                Ok(())
            }
            Some(false) => Ok(()),
            None => Err(Fail::from("a turn before that of its link")),
        }
    }

    /// Whether the step was done.
    fn step(
        &mut self,
        tokens: &Tokens,
        entry: &mut Entry,
        step: Step,
        grant: Grant,
    ) -> Result<bool, Fail> {
        let request = request_of(self.alloc, tokens, entry.row)?;
        self.step_of(&request, entry, step, &grant)
    }

    fn step_of(
        &mut self,
        request: &Request,
        entry: &mut Entry,
        step: Step,
        grant: &Grant,
    ) -> Result<bool, Fail>
        requires { IsSoundOp request.now.op }
    {
        let reply = self.act(&request.op, step, grant)?;
        entry.tell(self.alloc, on_text(request), &reply)?;
        Ok(is_done(&reply))
    }

    fn act(&mut self, op: &Op, step: Step, grant: &Grant) -> Result<Reply, Fail>
        requires { IsSoundOp op.now }
    {
        let Some(id) = touched(op, step, grant) else {
            return Err(Fail::from("a step on no object"));
        };
        if lane(&id, 2) != self.number {
            return Err(Fail::from("a step in another lane"));
        }
        if !is_step_of(op, step) || grant.root.kind != Kind::Group {
            return Err(Fail::from("a step of another request"));
        }
        if !has_fresh(op, grant, &self.owner) {
            return Err(Fail::from("an object has the fresh id"));
        }
        Ok(self.owner.act(op, step, grant)?)
    }
}
