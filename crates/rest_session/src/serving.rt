//! A world that is kept, and served over one link.

ghost use Rattle.std.specs.Prelude.{◌≡◌, ℕ, List};
ghost use Rattle.std.specs.Io.KnownBytes.{Consumes, Appends};
ghost use Rattle.rest_session.specs.Links.Links.{HasCauses, IsTranscript};
ghost use Rattle.rest_session.specs.declared.links.end.LinkEnd.TheVariants.{NoMemory};
ghost use Rattle.rest_session.specs.Sessions.{IsServed};

use crate::links::{LinkEnd, serve_link};
use crate::world_session::WorldSession;
use edge_traits::{Disk, Link};
use flush_journal::keepings::Keeping;
use rest_requests::Tokens;
use service_core::World;
use std::alloc::Global;

/// Serves a world over one link, one message after another, until the link ends. A change of folders, domains or lists, and
/// a flush, is acknowledged only once it is kept.
pub fn serve_world<D: Disk, L: Link>(
    alloc: Global,
    world: &mut World,
    keeping: &mut Keeping<D>,
    tokens: &Tokens,
    link: &mut L,
) -> LinkEnd
    ensures transcript { (taken : List ℕ) × (sent : List ℕ)
        × Consumes (L.left link.old) (L.left link.new) taken
        × Appends (L.held link.old) (L.held link.new) sent
        × IsTranscript IsServed
        (record { tokens = tokens.now; world = world.old; keeping = keeping.old })
        taken sent (L.left link.new)
        (record { tokens = tokens.now; world = world.new; keeping = keeping.new }) result }
    ensures names { L.Source.names link.new ≡ L.Source.names link.old }
    ensures causes { HasCauses (L.Source.faults link.old) (L.Source.faults link.new)
        (L.Sink.faults link.old) (L.Sink.faults link.new) result }

    // Without memory for its inbox it has touched nothing.
    ensures unread { result ≡ NoMemory → link.new ≡ link.old }
    ensures unserved { result ≡ NoMemory → world.new ≡ world.old }
    ensures unkept { result ≡ NoMemory → keeping.new ≡ keeping.old }
{
    let mut session = WorldSession {
        alloc,
        tokens,
        world,
        keeping,
    };
    match serve_link(alloc, &mut session, link) {
        Ok(end) => end,
    }
}
