ghost use Rattle.std.specs.Prelude.{◌≡◌, ◌≤◌, ◌∷◌, [], ℕ, Result};
ghost use Rattle.flush_journal.specs.Standing.{disk_of};
ghost use Rattle.flush_journal.specs.Unchanged.{SameDisk};
ghost use Rattle.rest_session.specs.Sessions.{Served};
ghost use Rattle.rest_session.specs.Stood.{IsBackedBy};
ghost use Rattle.service_core.specs.Records.{as_kept};
ghost use Rattle.flush_journal.specs.declared.why.Why.{Why};
ghost use Rattle.rest_session.specs.Links.Links.{HasCauses};
ghost use Rattle.edge_traits.specs.Causes.{Rose};
ghost use Rattle.rest_session.specs.Kept.Sessions.{HasCausesOf, IsEnded, IsLinkKept};
ghost use Rattle.rest_session.specs.Kept.Sessions.{IsSessionDiskFault};
ghost use Rattle.flush_journal.specs.Keepings.Keepings.{IsNewKeeping};
ghost use Rattle.rest_session.specs.declared.kept.outcome.Closed.{Closed};

use crate::kept::outcome::{Closed, Ended, Outcome};
use crate::links::LinkEnd;
use crate::{serve_world, what_is_kept_stood, what_waits_stood};
use edge_traits::{Disk, Link};
use flush_journal::Why;
use flush_journal::keepings::{Keeping, images_are_kept};
use rest_requests::Tokens;
use service_core::World;
use service_core::journals::{BeginRefused, Begun, begin_world};
use std::alloc::Global;

/// Opens the world that a disk keeps, begins a run of it, serves it over one link, and keeps what changed.
///
/// Where no world is opened, or no run is begun, the link is as it was.
pub fn serve_disk<D: Disk, L: Link>(
    alloc: Global,
    tokens: &Tokens,
    link: &mut L,
    disk: D,
) -> Ended<D>
    ensures ended { IsEnded D.Disk disk result.disk tokens.now (L.left link.old) (L.left link.new)
        (L.held link.old) (L.held link.new) result.outcome }
    ensures causes { HasCausesOf (L.Source.faults link.old) (L.Source.faults link.new)
        (L.Sink.faults link.old) (L.Sink.faults link.new) result.outcome }
    ensures names { L.Source.names link.new ≡ L.Source.names link.old }
    ensures same { SameDisk D.Disk disk result.disk }

    // The disk had a fault only where its count rose.
    ensures disk_fault { IsSessionDiskFault result.outcome
        → Rose (D.faults disk) (D.faults result.disk) }
{
    match begin_world(alloc, disk) {
        Ok(Begun { journal, world }) => {
            let keeping = Keeping::new(alloc, journal);
            serve_begun(alloc, tokens, link, keeping, world)
        }
        Err(BeginRefused { disk, why }) => Ended {
            disk,
            outcome: Outcome::from(why),
        },
    }
}

// Serves a world in its run, and keeps it.
fn serve_begun<D: Disk, L: Link>(
    alloc: Global,
    tokens: &Tokens,
    link: &mut L,
    mut keeping: Keeping<D>,
    mut world: World,
) -> Ended<D>
    requires backed { D.honest
        → IsBackedBy (record { tokens = tokens.now; world = world; keeping = keeping })
        (as_kept world ∷ []) }
    requires kept { keeping.kept ≤ world.register.places }
    requires new { IsNewKeeping keeping }
    ensures served { (closed : Closed) × (last : Result ℕ Why)
        × (result.outcome ≡ Outcome.Served closed last)
        × IsLinkKept (record { tokens = tokens.now; world = world; keeping = keeping }) result.disk
        (L.left link.old) (L.left link.new) (L.held link.old) (L.held link.new) closed last
        × HasCauses (L.Source.faults link.old) (L.Source.faults link.new)
        (L.Sink.faults link.old) (L.Sink.faults link.new) closed.end }
    ensures names { L.Source.names link.new ≡ L.Source.names link.old }
    ensures same { SameDisk D.Disk (disk_of keeping.journal) result.disk }
    ensures disk_fault { IsSessionDiskFault result.outcome
        → Rose (D.faults (disk_of keeping.journal)) (D.faults result.disk) }
{
    what_is_kept_stood::<D>();
    what_waits_stood::<D>();
    images_are_kept::<D, World>();
    let end = serve_world(alloc, &mut world, &mut keeping, tokens, link);
    let last = keeping.keep(&mut world);
    let closed = Closed {
        front: world.places(),
        kept: keeping.kept,
        end,
    };
    Ended {
        disk: keeping.journal.into_disk(),
        outcome: Outcome::Served { closed, last },
    }
}
