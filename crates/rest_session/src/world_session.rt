//! A world and its keeping, lent to a link.

ghost use Rattle.std.specs.Prelude.{◌≡◌, ◌⊎◌, Bool};
ghost use Rattle.http_wire.specs.Messages.{RequestMessage, IsSpelled};
ghost use Rattle.http_wire.specs.Heard.{IsMessage};
ghost use Rattle.http_wire.specs.Replies.{no_memory_reply};
ghost use Rattle.rest_session.specs.Links.Replies.{reply_bytes};
ghost use Rattle.object_ops.specs.Conditions.{IsSoundOp};
ghost use Rattle.object_ops.specs.Needs.{decided_at};
ghost use Rattle.access_lists.specs.Tokens.Bearer.{TokenTable};
ghost use Rattle.rest_requests.specs.Requests.{said};
ghost use Rattle.rest_session.specs.Sessions.{IsStepped, Served, acknowledges, is_to_keep};
ghost use Rattle.rest_session.specs.Sessions.{said_by};

use crate::answers::{answer_reply, no_memory, refuse, unkept_reply};
use crate::links::{Response, Service};
use access_lists::Caller;
use edge_traits::Disk;
use flush_journal::keepings::Keeping;
use http_wire::Message;
use object_ops::{Op, Reply, Request, on_text};
use rest_requests::{RequestFault, RequestParts, Tokens, lent_request};
use service_core::answer_trees::bodies_have_no_floats;
use service_core::{What, World};
use std::alloc::Global;
use std::convert::Infallible;

/// A world and its keeping that are lent for one link, and the tokens by which callers are known.
#[derive(Drop)]
pub struct WorldSession<'a, D: Disk> {
    pub alloc: Global,
    pub tokens: &'a Tokens,
    pub world: &'a mut World,
    pub keeping: &'a mut Keeping<D>,
}

impl<'a, D: Disk> Service for WorldSession<'a, D> {
    ghost use base.Fml.{GName};
    ghost use Rattle.access_lists.specs.Tokens.Bearer.{TokenTable};
    ghost use Rattle.rest_session.specs.Sessions.{IsServed, Served};

    type End = Infallible;

    ghost World = { Served D.Disk };

    ghost world = { λ s. record { tokens = s.tokens.now; world = s.world.now; keeping = s.keeping.now } };

    ghost step = { IsServed };

    ghost stop = { λ _ _ _ _. ⊥ };

    ghost Fixed = { GName × GName × TokenTable };

    ghost fixed = { λ s. (s.world.ghost_name, s.keeping.ghost_name, s.tokens.now) };

    fn answer(&mut self, message: &Message<'_>) -> Result<Response, Infallible> {
        match lent_request(self.alloc, &parts_of(message), self.tokens) {
            Ok((caller, request)) => {
                Ok(step(
                    self.alloc,
                    self.tokens,
                    self.world,
                    self.keeping,
                    caller,
                    &request,
                ))
            }
            Err(RequestFault::Refused { refusal, allow }) => {
                Ok(refuse(self.alloc, &refusal, allow))
            }
            Err(RequestFault::NoMemory) => Ok(no_memory()),
        }
    }
}

/// What a message says of its request.
pub(crate) fn parts_of<'m>(message: &Message<'m>) -> RequestParts<'m>
    ensures { (m : RequestMessage) → IsMessage message.now m → IsSpelled m
        → said result ≡ said_by m }
{
    RequestParts {
        method: message.method(),
        target: message.target(),
        authorization: message.header("Authorization"),
        domain: message.header("X-Hdf-domain"),
        body: message.body(),
    }
}

/// Answers a request by one step of the world, which is kept before its answer acknowledges a change. Where no place is
/// left, it says that memory is wanting.
fn step<D: Disk>(
    alloc: Global,
    tokens: &Tokens,
    world: &mut World,
    keeping: &mut Keeping<D>,
    caller: &Caller,
    request: &Request,
) -> Response
    requires { IsSoundOp request.now.op }
    ensures { (close : Bool) → IsStepped
        (record { tokens = tokens.now; world = world.old; keeping = keeping.old })
        caller.now request.now close (reply_bytes result close)
        (record { tokens = tokens.now; world = world.new; keeping = keeping.new })
        ⊎ ((reply_bytes result close ≡ no_memory_reply close)
        × (world.new ≡ world.old) × (keeping.new ≡ keeping.old)) }
{
    if !world.has_room() {
        return no_memory();
    }
    bodies_have_no_floats();
    let answer = world.step(caller, request);
    if !acknowledges(&request.op, &answer.what) {
        return answer_reply(alloc, on_text(request), &answer);
    }
    match keeping.keep(world) {
        Ok(_places) => answer_reply(alloc, on_text(request), &answer),
        Err(why) => unkept_reply(alloc, why),
    }
}

// Whether an answer says that a change of folders, domains or lists was done, or that all is kept.
fn acknowledges(op: &Op, what: &What) -> bool
    ensures { result ≡ acknowledges op.now what.now }
{
    match what {
        What::Replied(Reply::Done { .. }) => is_to_keep(op),
        _ => false,
    }
}

fn is_to_keep(op: &Op) -> bool
    ensures { result ≡ is_to_keep op.now }
{
    match op {
        Op::Flush | Op::PutNode { .. } | Op::DropNode | Op::PutAcl { .. } => true,
        Op::GetNode
        | Op::ListNodes
        | Op::GetAcls
        | Op::GetAcl { .. }
        | Op::MakeObject { .. }
        | Op::GetObject { .. }
        | Op::DropObject { .. }
        | Op::ListLinks { .. }
        | Op::GetLink { .. }
        | Op::PutLink { .. }
        | Op::DropLink { .. }
        | Op::ListAttributes { .. }
        | Op::GetAttribute { .. }
        | Op::PutAttribute { .. }
        | Op::DropAttribute { .. }
        | Op::GetShape { .. }
        | Op::PutShape { .. }
        | Op::GetElem { .. }
        | Op::GetValue { .. }
        | Op::PutValue { .. }
        | Op::GetPoints { .. } => false,
    }
}
