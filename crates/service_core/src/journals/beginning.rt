//! A run of the world that a journal keeps.

ghost use Rattle.std.specs.Prelude.{◌≡◌, None, MatchResult, IfErr, IfOk};
ghost use Rattle.edge_traits.specs.Causes.{Rose};
ghost use Rattle.flush_journal.specs.Files.{Content};
ghost use Rattle.flush_journal.specs.Moments.{CrashLeaves};
ghost use Rattle.flush_journal.specs.Records.{put_record};
ghost use Rattle.flush_journal.specs.Standing.{HoldsEither, disk_of, pending_of};
ghost use Rattle.flush_journal.specs.Unchanged.{SameDisk};
ghost use Rattle.service_core.specs.Journals.Begun.{IsBegun, IsBegunSince, IsBegunWorld, IsOfDisk};
ghost use Rattle.service_core.specs.Journals.Begun.{IsOpened, IsRunRefusal, IsUnstarted, begun};
ghost use Rattle.service_core.specs.Journals.Opening.{IsOf};
ghost use Rattle.service_core.specs.Records.{run_record};

use crate::World;
use crate::described::objects_are_whole;
use crate::journals::faults::{OpenFault, OpenRefused};
use crate::journals::opening::{Opened, open_world};
use edge_traits::Disk;
use flush_journal::{Journal, Why};
use std::alloc::Global;

/// A journal and the world that it keeps, in a run of which the journal has the record.
#[derive(Drop)]
pub struct Begun<D: Disk> {
    /// The journal, which owes nothing.
    pub journal: Journal<D>,
    /// Its world, of which nothing is to be written.
    pub world: World,
}

/// Why no run is begun.
#[derive(Drop)]
pub enum BeginFault {
    /// No world is opened.
    Unopened(OpenFault),
    /// The record of the run is refused.
    Unbegun(Why),
}

/// A refusal to begin a run, which hands the disk back.
#[derive(Drop)]
pub struct BeginRefused<D> {
    /// The disk.
    pub disk: D,
    /// Why it is refused.
    pub why: BeginFault,
}

/// Opens the world that a disk keeps, and begins a run of it.
///
/// # Errors
///
/// `Unopened` where [`open_world`] refuses, and then no byte was changed; `Unbegun` where [`World::begin_run`] does, and then
/// whatever a crash leaves holds what was held, with the record of the run or without it.
pub fn begin_world<D: Disk>(alloc: Global, disk: D) -> Result<Begun<D>, BeginRefused<D>>
    ensures begun { D.honest → IfOk result (λ b.
        IsOf (D.reads disk) (IsBegunSince D.Disk disk b.journal b.world)) }
    ensures world { IfOk result (λ b. IsBegunWorld b.world) }
    ensures idle { IfOk result (λ b. pending_of b.journal ≡ None) }
    ensures err { IfErr result (λ r. IsUnstarted D.Disk disk r.disk r.why) }
    ensures same { MatchResult result (λ b. SameDisk D.Disk disk (disk_of b.journal))
        (λ r. SameDisk D.Disk disk r.disk) }

    // The disk had a fault only where its count rose.
    ensures disk_fault { IfErr result (λ r. IsOfDisk r.why
        → Rose (D.faults disk) (D.faults r.disk)) }
{
    match open_world(alloc, disk) {
        Ok(Opened { journal, world }) => {
            objects_are_whole(&world);
            begin_opened(journal, world)
        }
        Err(OpenRefused { disk, why }) => Err(BeginRefused {
            disk,
            why: BeginFault::Unopened(why),
        }),
    }
}

// Begins a run of an opened world.
fn begin_opened<D: Disk>(
    mut journal: Journal<D>,
    mut world: World,
) -> Result<Begun<D>, BeginRefused<D>>
    requires idle { pending_of journal ≡ None }
    ensures begun { D.honest → IfOk result (λ b. (c : Content) → IsOpened journal world c
        → IsBegun b.journal b.world c × CrashLeaves D.Disk (disk_of journal) (disk_of b.journal)
        (HoldsEither c.held (put_record (run_record b.world.register) c.held))) }
    ensures world { IfOk result (λ b. b.world ≡ begun world) }
    ensures idle { IfOk result (λ b. pending_of b.journal ≡ None) }
    ensures err { IfErr result (λ r. IsRunRefusal journal world r.disk r.why) }
    ensures same { MatchResult result (λ b. SameDisk D.Disk (disk_of journal) (disk_of b.journal))
        (λ r. SameDisk D.Disk (disk_of journal) r.disk) }
    ensures disk_fault { IfErr result (λ r. IsOfDisk r.why
        → Rose (D.faults (disk_of journal)) (D.faults r.disk)) }
{
    match world.begin_run(&mut journal) {
        Ok(()) => {
            world.is_described();
            Ok(Begun { journal, world })
        }
        Err(why) => Err(BeginRefused {
            disk: journal.into_disk(),
            why: BeginFault::Unbegun(why),
        }),
    }
}
