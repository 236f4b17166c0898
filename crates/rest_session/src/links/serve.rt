ghost use Rattle.std.specs.Prelude.{◌≡◌, ℕ, ◌≤◌, List, [], length, Option, Some, Ok, IsErr};
ghost use Rattle.std.specs.Io.KnownBytes.{Consumes, Appends, prepend_known};
ghost use Rattle.edge_traits.specs.Causes.{Rose};
ghost use Rattle.http_wire.specs.Messages.{RequestMessage, IsSpelled, closes};
ghost use Rattle.http_wire.specs.Heard.{IsMessage};
ghost use Rattle.http_wire.specs.Replies.{no_memory_reply};
ghost use Rattle.http_wire.specs.Taken.{waiting, Takes};
ghost use Rattle.http_wire.specs.declared.limits.TheConstants.{HEAD_LIMIT};
ghost use Rattle.http_wire.specs.declared.taken.Taken.TheVariants as taken;
ghost use Rattle.rest_session.specs.Links.Links.{IsLinkServed, HasLinkCauses};
ghost use Rattle.rest_session.specs.Links.Replies.{reply_bytes};
ghost use Rattle.rest_session.specs.Links.Steps.{IsAnswered, IsServedStep};
ghost use Rattle.rest_session.specs.Links.Steps.{IsAnswerEnd, IsRefusalEnd, IsWritten};
ghost use Rattle.rest_session.specs.declared.links.end.LinkEnd.TheVariants as end;

use crate::links::end::{BUDGET, LinkEnd};
use crate::links::response::Response;
use crate::links::service::Service;
use crate::links::writing::{send_reply, send_text};
use edge_traits::{Failed, Link};
use http_wire::{Inbox, Message, MessageFault, Taken, no_memory_reply};
use std::alloc::Global;

/// Serves one message after another until the link ends.
///
/// # Errors
///
/// Why the service ended the link. The message at which it did has no answer.
pub fn serve_link<V: Service, L: Link>(
    alloc: Global,
    service: &mut V,
    link: &mut L,
) -> Result<LinkEnd, V::End>
    requires ready { V.ready service.old }
    ensures transcript { (taken : List ℕ) × (sent : List ℕ)
        × Consumes (L.left link.old) (L.left link.new) taken
        × Appends (L.held link.old) (L.held link.new) sent
        × IsLinkServed V.step V.stop (V.world service.old) taken sent
        (L.left link.new) (V.world service.new) result }
    ensures ready { V.ready service.new }
    ensures fixed { V.fixed service.new ≡ V.fixed service.old }
    ensures names { L.Source.names link.new ≡ L.Source.names link.old }
    ensures causes { HasLinkCauses (L.Source.faults link.old) (L.Source.faults link.new)
        (L.Sink.faults link.old) (L.Sink.faults link.new) result }

    // Without memory for its inbox it has touched nothing.
    ensures unread { result ≡ Ok end.NoMemory → link.new ≡ link.old }
    ensures unserved { result ≡ Ok end.NoMemory → service.new ≡ service.old }
{
    match Inbox::new(alloc) {
        Ok(mut inbox) => serve_messages(alloc, service, &mut inbox, link),
        Err(_) => Ok(LinkEnd::NoMemory),
    }
}

/// Serves what the link has left, through an inbox with nothing waiting.
fn serve_messages<V: Service, L: Link>(
    alloc: Global,
    service: &mut V,
    inbox: &mut Inbox,
    link: &mut L,
) -> Result<LinkEnd, V::End>
    requires empty { waiting inbox.old ≡ [] }
    requires ready { V.ready service.old }
    ensures transcript { (taken : List ℕ) × (sent : List ℕ)
        × Consumes (L.left link.old) (L.left link.new) taken
        × Appends (L.held link.old) (L.held link.new) sent
        × IsLinkServed V.step V.stop (V.world service.old) taken sent
        (L.left link.new) (V.world service.new) result }
    ensures ready { V.ready service.new }
    ensures fixed { V.fixed service.new ≡ V.fixed service.old }
    ensures names { L.Source.names link.new ≡ L.Source.names link.old }
    ensures causes { HasLinkCauses (L.Source.faults link.old) (L.Source.faults link.new)
        (L.Sink.faults link.old) (L.Sink.faults link.new) result }
    ensures read_on { result ≡ Ok end.NoMemory → ⊥ }
{
    'messages: for _answered in 0..BUDGET {
        match serve_next(alloc, service, inbox, link) {
            Ok(None) => {}
            Ok(Some(end)) => return Ok(end),
            Err(end) => return Err(end),
        }
    }
    Ok(LinkEnd::Budget)
}

/// Serves the message at the front of the input, if there is one, and answers how the link ended,
/// if it ended; or why the service ended it.
fn serve_next<V: Service, L: Link>(
    alloc: Global,
    service: &mut V,
    inbox: &mut Inbox,
    link: &mut L,
) -> Result<Option<LinkEnd>, V::End>
    requires ready { V.ready service.old }
    ensures step { IsServedStep V.step V.stop (V.world service.old)
        (prepend_known (waiting inbox.old) (L.left link.old))
        (prepend_known (waiting inbox.new) (L.left link.new))
        (L.left link.new) (L.held link.old) (L.held link.new) (V.world service.new) result }
    ensures room { length (waiting inbox.new) ≤ HEAD_LIMIT }
    ensures ready { V.ready service.new }
    ensures fixed { V.fixed service.new ≡ V.fixed service.old }
    ensures names { L.Source.names link.new ≡ L.Source.names link.old }
    ensures read_later { L.Source.faults link.old ≤ L.Source.faults link.new }
    ensures write_later { L.Sink.faults link.old ≤ L.Sink.faults link.new }
    ensures read_fault { result ≡ Ok (Some end.ReadFault)
        → Rose (L.Source.faults link.old) (L.Source.faults link.new) }
    ensures write_fault { result ≡ Ok (Some end.WriteFault)
        → Rose (L.Sink.faults link.old) (L.Sink.faults link.new) }
{
    match take_from(alloc, inbox, link) {
        Taken::Message { spans, body } => {
            let message = Message {
                inbox,
                spans,
                body: body.as_slice(),
            };
            answer_message(service, &message, link)
        }
        Taken::Skipped { close } => Ok(answer_skipped(close, link)),
        Taken::End => Ok(Some(LinkEnd::Closed)),
        Taken::Cut { rest } => Ok(Some(LinkEnd::Cut { rest })),
        Taken::Refused(fault) => Ok(Some(refuse(fault, link))),
        Taken::Fault => Ok(Some(LinkEnd::ReadFault)),
    }
}

/// Takes the message at the front of the input. What the link's sink holds stays.
fn take_from<L: Link>(alloc: Global, inbox: &mut Inbox, link: &mut L) -> Taken
    ensures taken { Takes (waiting inbox.old) (L.left link.old) inbox.new (L.left link.new) result }
    ensures room { length (waiting inbox.new) ≤ HEAD_LIMIT }
    ensures held { L.held link.new ≡ L.held link.old }
    ensures write_faults { L.Sink.faults link.new ≡ L.Sink.faults link.old }
    ensures names { L.Source.names link.new ≡ L.Source.names link.old }
    ensures later { L.Source.faults link.old ≤ L.Source.faults link.new }
    ensures fault { result ≡ taken.Fault
        → Rose (L.Source.faults link.old) (L.Source.faults link.new) }
{
    inbox.take(alloc, link)
}

/// Answers a message, or says why the service ended the link with it.
fn answer_message<V: Service, L: Link>(
    service: &mut V,
    message: &Message<'_>,
    link: &mut L,
) -> Result<Option<LinkEnd>, V::End>
    requires ready { V.ready service.old }
    ensures answered { (m : RequestMessage) → IsMessage message.now m → IsSpelled m
        → IsAnswered V.step V.stop (V.world service.old) m (L.held link.old) (L.held link.new)
        (V.world service.new) result }
    ensures ready { V.ready service.new }
    ensures fixed { V.fixed service.new ≡ V.fixed service.old }
    ensures left { L.left link.new ≡ L.left link.old }
    ensures names { L.Source.names link.new ≡ L.Source.names link.old }
    ensures read_faults { L.Source.faults link.new ≡ L.Source.faults link.old }
    ensures write_later { L.Sink.faults link.old ≤ L.Sink.faults link.new }
    ensures no_read_fault { result ≡ Ok (Some end.ReadFault) → ⊥ }
    ensures write_fault { result ≡ Ok (Some end.WriteFault)
        → Rose (L.Sink.faults link.old) (L.Sink.faults link.new) }
{
    match service.answer(message) {
        Ok(reply) => Ok(send_answer(&reply, message.closes(), link)),
        Err(end) => Err(end),
    }
}

/// Sends an answer, and says how the link ended with it, if it ended.
fn send_answer<L: Link>(reply: &Response, close: bool, link: &mut L) -> Option<LinkEnd>
    ensures answered { (sent : List ℕ) × Appends (L.held link.old) (L.held link.new) sent
        × IsAnswerEnd close (reply_bytes reply.now close) sent result }
    ensures left { L.left link.new ≡ L.left link.old }
    ensures names { L.Source.names link.new ≡ L.Source.names link.old }
    ensures read_faults { L.Source.faults link.new ≡ L.Source.faults link.old }
    ensures write_later { L.Sink.faults link.old ≤ L.Sink.faults link.new }
    ensures no_read_fault { result ≡ Some end.ReadFault → ⊥ }
    ensures write_fault { result ≡ Some end.WriteFault
        → Rose (L.Sink.faults link.old) (L.Sink.faults link.new) }
{
    let sent = send_reply(reply, close, link);
    end_after(sent, close)
}

/// Answers a message whose body found no memory. The service doesn't see it.
fn answer_skipped<L: Link>(close: bool, link: &mut L) -> Option<LinkEnd>
    ensures answered { (sent : List ℕ) × Appends (L.held link.old) (L.held link.new) sent
        × IsAnswerEnd close (no_memory_reply close) sent result }
    ensures left { L.left link.new ≡ L.left link.old }
    ensures names { L.Source.names link.new ≡ L.Source.names link.old }
    ensures read_faults { L.Source.faults link.new ≡ L.Source.faults link.old }
    ensures write_later { L.Sink.faults link.old ≤ L.Sink.faults link.new }
    ensures no_read_fault { result ≡ Some end.ReadFault → ⊥ }
    ensures write_fault { result ≡ Some end.WriteFault
        → Rose (L.Sink.faults link.old) (L.Sink.faults link.new) }
{
    let sent = send_text(no_memory_reply(close), link);
    end_after(sent, close)
}

/// How the link ended with an answer, if it ended.
fn end_after(written: Result<(), Failed>, close: bool) -> Option<LinkEnd>
    ensures end { (answer sent : List ℕ) → IsWritten answer sent written
        → IsAnswerEnd close answer sent result }
    ensures no_read_fault { result ≡ Some end.ReadFault → ⊥ }
    ensures write_fault { result ≡ Some end.WriteFault → IsErr written }
{
    match written {
        Ok(()) if close => Some(LinkEnd::Closed),
        Ok(()) => None,
        Err(Failed) => Some(LinkEnd::WriteFault),
    }
}

/// Answers that bytes are refused. That ends the link.
fn refuse<L: Link>(fault: MessageFault, link: &mut L) -> LinkEnd
    ensures refused { (sent : List ℕ) × Appends (L.held link.old) (L.held link.new) sent
        × IsRefusalEnd fault sent result }
    ensures left { L.left link.new ≡ L.left link.old }
    ensures names { L.Source.names link.new ≡ L.Source.names link.old }
    ensures read_faults { L.Source.faults link.new ≡ L.Source.faults link.old }
    ensures write_later { L.Sink.faults link.old ≤ L.Sink.faults link.new }
    ensures no_read_fault { result ≡ end.ReadFault → ⊥ }
    ensures write_fault { result ≡ end.WriteFault
        → Rose (L.Sink.faults link.old) (L.Sink.faults link.new) }
{
    match send_text(fault.reply(), link) {
        Ok(()) => LinkEnd::Ended(fault),
        Err(Failed) => LinkEnd::WriteFault,
    }
}
