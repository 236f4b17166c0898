ghost use Rattle.std.specs.Prelude.{◌≡◌, ℕ, List};
ghost use Rattle.std.specs.Io.KnownBytes.{Appends};
ghost use Rattle.edge_traits.specs.Causes.{HasCause};
ghost use Rattle.rest_session.specs.Links.Replies.{reply_bytes};
ghost use Rattle.rest_session.specs.Links.Steps.{IsWritten};

use crate::links::response::Response;
use edge_traits::{Failed, Link, write_all};
use http_wire::write_reply;

/// Writes a service's answer. What the link's source has left stays.
pub fn send_reply<L: Link>(reply: &Response, close: bool, link: &mut L) -> Result<(), Failed>
    ensures sent { (sent : List ℕ) × Appends (L.held link.old) (L.held link.new) sent
        × IsWritten (reply_bytes reply.now close) sent result }
    ensures left { L.left link.new ≡ L.left link.old }
    ensures names { L.Source.names link.new ≡ L.Source.names link.old }
    ensures read_faults { L.Source.faults link.new ≡ L.Source.faults link.old }
    ensures cause { HasCause (L.Sink.faults link.old) (L.Sink.faults link.new) result }
{
    write_reply(
        link,
        reply.status,
        reply.extra,
        reply.body.as_bytes(),
        close,
    )
}

/// Writes a whole answer. What the link's source has left stays.
pub fn send_text<L: Link>(text: &str, link: &mut L) -> Result<(), Failed>
    ensures sent { (sent : List ℕ) × Appends (L.held link.old) (L.held link.new) sent
        × IsWritten text.now sent result }
    ensures left { L.left link.new ≡ L.left link.old }
    ensures names { L.Source.names link.new ≡ L.Source.names link.old }
    ensures read_faults { L.Source.faults link.new ≡ L.Source.faults link.old }
    ensures cause { HasCause (L.Sink.faults link.old) (L.Sink.faults link.new) result }
{
    write_all(link, text.as_bytes())
}
