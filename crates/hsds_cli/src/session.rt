//! The command `session`: one link over the standard streams, and a journal.

ghost use Rattle.std.specs.Prelude.{◌≡◌, ◌≤◌, None};
ghost use Rattle.flush_journal.specs.Unchanged.{SameDisk};
ghost use Rattle.edge_traits.specs.Causes.{Rose};
ghost use Rattle.rest_session.specs.Kept.Sessions.{HasCausesOf, IsEnded, IsSessionDiskFault};
ghost use Rattle.hsds_cli.specs.Sides.{sides_of};
ghost use Rattle.hsds_cli.specs.Openings.{IsSession, closed_by, refusal_status};
ghost use Rattle.hsds_cli.specs.Openings.{status_by, status_of};

use crate::closed::{Closed, Ends};
use crate::command_end::CommandEnd;
use crate::configured::configured;
use crate::operate::opening_status;
use crate::status::Status;
use crate::two_ends::TwoEnds;
use edge_traits::{Disk, Sink, Source};
use flush_journal::Why;
use rest_requests::Tokens;
use rest_session::kept::{Ended, Outcome, serve_disk};
use rest_session::links::LinkEnd;
use std::alloc::Global;

/// Serves the world that a disk keeps to two streams as one link, by the configuration.
pub fn session<C: Source, S: Source, K: Sink, D: Disk>(
    alloc: Global,
    config: &mut C,
    input: &mut S,
    out: &mut K,
    disk: D,
) -> CommandEnd<D>
    ensures session { IsSession D.Disk (sides_of C.Source S.Source K.Sink
        config.old config.new input.old input.new out.old out.new)
        disk result.disk result.closed result.status }
    ensures same { SameDisk D.Disk disk result.disk }
    ensures config_later { C.faults config.old ≤ C.faults config.new }
    ensures input_later { S.faults input.old ≤ S.faults input.new }
    ensures out_later { K.faults out.old ≤ K.faults out.new }
{
    let config = match configured(alloc, config) {
        Ok(config) => config,
        Err(status) => return CommandEnd {
            status,
            disk,
            closed: None,
        },
    };
    let Ok(tokens) = Tokens::of_table(alloc, config.tokens) else {
        return CommandEnd {
            status: Status::NoMemory,
            disk,
            closed: None,
        };
    };
    let Ended { disk, outcome } = serve_ends(alloc, &tokens, input, out, disk);
    CommandEnd {
        status: status_by(&outcome),
        disk,
        closed: closed_by(&outcome),
    }
}

// Serves two streams as one link.
fn serve_ends<S: Source, K: Sink, D: Disk>(
    alloc: Global,
    tokens: &Tokens,
    input: &mut S,
    out: &mut K,
    disk: D,
) -> Ended<D>
    ensures ended { IsEnded D.Disk disk result.disk tokens.now (S.left input.old) (S.left input.new)
        (K.held out.old) (K.held out.new) result.outcome }
    ensures causes { HasCausesOf (S.Source.faults input.old) (S.Source.faults input.new)
        (K.Sink.faults out.old) (K.Sink.faults out.new) result.outcome }
    ensures same { SameDisk D.Disk disk result.disk }
    ensures disk_fault { IsSessionDiskFault result.outcome
        → Rose (D.faults disk) (D.faults result.disk) }
{
    let mut link = TwoEnds { input, out };
    serve_disk(alloc, tokens, &mut link, disk)
}

// The status of what a session came to.
fn status_by(outcome: &Outcome) -> Status
    ensures { result ≡ status_by outcome.now }
{
    match outcome {
        Outcome::Unopened(why) => opening_status(why),
        Outcome::Unbegun(why) => refusal_status(*why),
        Outcome::Served { closed, last } => match last {
            Ok(_) => end_status(closed.end),
            Err(why) => refusal_status(*why),
        },
    }
}

// How the link left the world, where it was served.
fn closed_by(outcome: &Outcome) -> Option<Closed>
    ensures { result ≡ closed_by outcome.now }
{
    match outcome {
        Outcome::Unopened(_) | Outcome::Unbegun(_) => None,
        Outcome::Served { closed, .. } => Some(Closed {
            front: closed.front,
            kept: closed.kept,
            ends: Ends::Link(closed.end),
        }),
    }
}

/// The status where the journal refused a batch.
pub fn refusal_status(why: Why) -> Status
    ensures { result ≡ refusal_status why }
{
    match why {
        Why::DiskFault => Status::DiskFault,
        Why::JournalFull { .. } => Status::UsedUp,
        Why::NotAJournal { .. } | Why::Exists | Why::NoMemory => Status::NoMemory,
    }
}

// The status of a session whose link ended so, and all of which was kept.
fn end_status(end: LinkEnd) -> Status
    ensures { result ≡ status_of end }
{
    match end {
        LinkEnd::Closed => Status::Done,
        LinkEnd::Cut { .. } | LinkEnd::Ended(_) => Status::InputCut,
        LinkEnd::ReadFault => Status::ReadFault,
        LinkEnd::WriteFault => Status::WriteFault,
        LinkEnd::Budget => Status::Budget,
        LinkEnd::NoMemory => Status::NoMemory,
    }
}
