//! A hall that is asked over one link.
ghost use Rattle.std.specs.Prelude.{◌≡◌, Bool};
ghost use Rattle.access_lists.specs.Tokens.Bearer.{TokenTable};
ghost use Rattle.hall.specs.Passes.{who};
ghost use Rattle.object_ops.specs.Conditions.{IsSoundOp};
ghost use Rattle.rest_session.specs.Halls.Accounts.{IsReady, account};
ghost use Rattle.rest_session.specs.Halls.Asking.{Asks};
ghost use Rattle.rest_session.specs.Halls.Gates.{HasGoneThroughAll};
ghost use Rattle.rest_session.specs.Links.Replies.{reply_bytes};

use crate::answers::{kept_reply, no_memory, refuse};
use crate::links::{Response, Service};
use crate::world_session::parts_of;
use access_lists::Caller;
use edge_traits::Disk;
use hall::{AtDesk, Gate, Hall, JournalDesk, KeptAnswer, Pass};
use http_wire::Message;
use object_ops::{Request, on_text};
use rest_requests::{RequestFault, Tokens, lent_request};
use service_core::answer_trees::replies_have_no_floats;
use service_histories::{histories_are_legal, replies_are_replays};
use std::alloc::Global;
use std::convert::Infallible;
use std::sync::Wait;

/// A hall that is asked with a pass over one link, through a gate, and the tokens by which callers are known.
#[derive(Drop)]
pub struct HallSession<'a, D: AtDesk, G, R> {
    pub rt: &'a R,
    pub alloc: Global,
    pub hall: &'a Hall<D>,
    pub pass: &'a mut Pass<D>,
    pub gate: &'a mut G,
    pub tokens: &'a Tokens,
}

impl<'a, D: Disk + Drop, G: Gate, R: Wait> Service for HallSession<'a, JournalDesk<D>, G, R> {
    ghost use base.Fml.{GName};
    ghost use Rattle.std.specs.Prelude.{ℕ, Bool, List, Option};
    ghost use Rattle.atomic_table.specs.Seated.{TableId};
    ghost use Rattle.access_lists.specs.Tokens.Bearer.{TokenTable};
    ghost use Rattle.flush_journal.specs.declared.journal.Journal.{Journal};
    ghost use Rattle.hall.specs.Answers.{ArrayStart};
    ghost use Rattle.hall.specs.Passes.{who};
    ghost use Rattle.hall.specs.declared.hall.Hall.{Hall};
    ghost use Rattle.hall.specs.declared.journal.JournalDesk.{JournalDesk};
    ghost use Rattle.rest_session.specs.Halls.Accounts.{IsReady, account};
    ghost use Rattle.rest_session.specs.Halls.Gates.{Gated, IsAskedThrough};
    ghost use Rattle.std.specs.declared.snapshot.Snapshot.{Snapshot};

    type End = Infallible;

    ghost World = { Gated G };

    ghost world = { λ s. record {
      account = account s.tokens.now s.hall.now s.pass.now;
      gate = s.gate.now;
    } };

    ghost step = { IsAskedThrough G.goes };

    ghost stop = { λ _ _ _ _. ⊥ };

    ghost ready = { λ s. IsReady s.hall.now s.pass.now };

    ghost Fixed = { GName × GName × TokenTable
        × Hall (JournalDesk D D.Disk) (Snapshot (Journal D D.Disk))
        × (TableId × Bool × ℕ × List ℕ × List ℕ × Option (ArrayStart (Snapshot (Journal D D.Disk)))) };

    ghost fixed = { λ s. (s.pass.ghost_name, s.gate.ghost_name, s.tokens.now, s.hall.now, who s.pass.now) };

    #[tactic(auto, using(crate::proofs::OfHalls::Gates::gone_none))]
    fn answer(&mut self, message: &Message<'_>) -> Result<Response, Infallible> {
        match lent_request(self.alloc, &parts_of(message), self.tokens) {
            Ok((caller, request)) => {
                Ok(ask(
                    self.rt, self.alloc, self.hall, self.pass, self.gate, caller, &request,
                ))
            }
            Err(RequestFault::Refused { refusal, allow }) => {
                Ok(refuse(self.alloc, &refusal, allow))
            }
            Err(RequestFault::NoMemory) => Ok(no_memory()),
        }
    }
}

/// Asks the hall, and says its answer once it is kept.
fn ask<D: Disk + Drop, G: Gate, R: Wait>(
    rt: &R,
    alloc: Global,
    hall: &Hall<JournalDesk<D>>,
    pass: &mut Pass<JournalDesk<D>>,
    gate: &mut G,
    caller: &Caller,
    request: &Request,
) -> Response
    requires ready { IsReady hall.now pass.old }
    requires op { IsSoundOp request.now.op }
    ensures ready { IsReady hall.now pass.new }
    ensures same { who pass.new ≡ who pass.old }
    ensures asked { (tokens : TokenTable) (close : Bool) → Asks (account tokens hall.now pass.old)
        caller.now request.now close (reply_bytes result close) (account tokens hall.now pass.new) }
    ensures gates { (tokens : TokenTable) → HasGoneThroughAll G.goes
        (account tokens hall.now pass.old) (account tokens hall.now pass.new) gate.old gate.new }
{
    replies_have_no_floats();
    histories_are_legal();
    replies_are_replays();
    let KeptAnswer { answer, kept } = hall.ask_kept(rt, pass, gate, caller, request);
    kept_reply(alloc, on_text(request), &answer, kept)
}
