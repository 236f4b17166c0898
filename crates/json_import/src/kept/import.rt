ghost use Rattle.std.specs.Prelude.{◌≡◌, ℕ, Result};
ghost use Rattle.edge_traits.specs.Causes.{Rose};
ghost use Rattle.flush_journal.specs.Standing.{disk_of};
ghost use Rattle.flush_journal.specs.Unchanged.{SameDisk};
ghost use Rattle.flush_journal.specs.declared.why.Why.{Why};
ghost use Rattle.json_import.specs.Kept.Imports.{HasCauseOf, IsImportDiskFault, CameTo};
ghost use Rattle.json_import.specs.Kept.Parts.{CameToFrom, IsKeptFrom, kept_outcome};

use crate::adoption::Counts;
use crate::kept::outcome::{Imported, Outcome};
use crate::kept::reading::adopt_input;
use edge_traits::{Disk, Source};
use flush_journal::keepings::{Keeping, images_are_kept};
use flush_journal::{Journal, Why};
use object_ids::{DomainPath, Name};
use service_core::World;
use service_core::described::objects_are_whole;
use service_core::journals::{BeginRefused, Begun, begin_world};
use std::alloc::Global;

/// Opens the world that a disk keeps, begins a run of it, makes the document that a source has a new domain of an owner at a
/// path, and keeps that.
///
/// Where no world is opened, or no run is begun, the source is as it was. Unless the document is adopted, nothing is kept but
/// the record of the run.
pub fn import_domain<S: Source, D: Disk>(
    alloc: Global,
    path: &DomainPath,
    owner: &Name,
    input: &mut S,
    disk: D,
) -> Imported<D>
    ensures came_to { CameTo D.Disk disk result.disk path.now owner.now
        (S.left input.old) (S.left input.new) result.outcome }
    ensures causes { HasCauseOf (S.faults input.old) (S.faults input.new) result.outcome }
    ensures same { SameDisk D.Disk disk result.disk }

    // The disk had a fault only where its count rose.
    ensures disk_fault { IsImportDiskFault result.outcome
        → Rose (D.faults disk) (D.faults result.disk) }
{
    images_are_kept::<D, World>();
    match begin_world(alloc, disk) {
        Ok(Begun { journal, world }) => import_begun(alloc, path, owner, input, journal, world),
        Err(BeginRefused { disk, why }) => Imported {
            disk,
            outcome: Outcome::from(why),
        },
    }
}

// Adopts the document of a source in a world that is in its run, and keeps it.
fn import_begun<S: Source, D: Disk>(
    alloc: Global,
    path: &DomainPath,
    owner: &Name,
    input: &mut S,
    journal: Journal<D>,
    mut world: World,
) -> Imported<D>
    ensures from { CameToFrom journal world result.disk path.now owner.now
        (S.left input.old) (S.left input.new) result.outcome }
    ensures causes { HasCauseOf (S.faults input.old) (S.faults input.new) result.outcome }
    ensures same { SameDisk D.Disk (disk_of journal) result.disk }
    ensures disk_fault { IsImportDiskFault result.outcome
        → Rose (D.faults (disk_of journal)) (D.faults result.disk) }
{
    match adopt_input(alloc, path, owner, input, &mut world) {
        Ok(counts) => keep_adopted(alloc, journal, world, counts),
        Err(why) => Imported {
            disk: journal.into_disk(),
            outcome: Outcome::from(why),
        },
    }
}

// Keeps a world with the domain that was adopted.
fn keep_adopted<D: Disk>(
    alloc: Global,
    journal: Journal<D>,
    mut world: World,
    counts: Counts,
) -> Imported<D>
    ensures kept { (last : Result ℕ Why) × (result.outcome ≡ kept_outcome last counts)
        × IsKeptFrom journal world result.disk last }
    ensures same { SameDisk D.Disk (disk_of journal) result.disk }
    ensures disk_fault { IsImportDiskFault result.outcome
        → Rose (D.faults (disk_of journal)) (D.faults result.disk) }
{
    objects_are_whole(&world);
    let mut keeping = Keeping::new(alloc, journal);
    let last = keeping.keep(&mut world);
    Imported {
        disk: keeping.journal.into_disk(),
        outcome: kept_outcome(last, counts),
    }
}

// What a keeping of an adopted document comes to.
fn kept_outcome(last: Result<u64, Why>, counts: Counts) -> Outcome
    ensures { result ≡ kept_outcome last counts }
{
    match last {
        Ok(_) => Outcome::Adopted(counts),
        Err(why) => Outcome::Unkept(why),
    }
}
