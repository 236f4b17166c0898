//! The world that a journal keeps.

ghost use Rattle.std.specs.Prelude.{◌≡◌, ◌≢◌, ℕ, List, None, Ok, Err, IfErr, IfOk, MatchResult};
ghost use Rattle.edge_traits.specs.Disks.{Only};
ghost use Rattle.flush_journal.specs.Files.{Content, content};
ghost use Rattle.flush_journal.specs.Standing.{IsSettled, disk_of, pending_of};
ghost use Rattle.flush_journal.specs.Unchanged.{SameBytes, SameDisk};
ghost use Rattle.chunk_owner.specs.Owners.Records.{AreStillIn};
ghost use Rattle.register.specs.Kept.{IsUsedUp};
ghost use Rattle.flush_journal.specs.Records.{IsRecordMap};
ghost use Rattle.service_core.specs.Records.{IsWorldFault, IsWorldOf, WorldSays};
ghost use Rattle.service_core.specs.Journals.Begun.{IsInstalledWorld};
ghost use Rattle.service_core.specs.Journals.Opening.{IsOfReading, MayRefuseOpening, TellsBadKey};
ghost use Rattle.service_core.specs.Journals.Opening.{TellsNoRun, TellsPlace, of_reading};

use crate::World;
use crate::journals::faults::{OpenFault, OpenRefused};
use edge_traits::Disk;
use flush_journal::{Journal, Why};
use std::alloc::Global;

/// A journal, and the world that it keeps.
#[derive(Drop)]
pub struct Opened<D: Disk> {
    /// The journal, which owes nothing.
    pub journal: Journal<D>,
    /// Its world, at the begin of the run after the kept one.
    pub world: World,
}

/// Opens the journal that stands on a disk, with the world that it keeps. It changes no byte, and no image is new. After
/// `Ok`, and after a refusal that is no fault of the disk, whatever a crash leaves is what reads give.
///
/// # Errors
///
/// `NotAJournal` with the place of what is wrong, exactly where no journal stands there; else `RunsUsed` exactly where no
/// record of the register is at fault and the kept run is the last; else `BadRecord` exactly where a record is missing or
/// can't stand, with the least key of the register, else of the first lane, else of no part. But for `DiskFault`, where the
/// disk had a fault, and `NoMemory`.
pub fn open_world<D: Disk>(alloc: Global, disk: D) -> Result<Opened<D>, OpenRefused<D>>
    ensures opened { D.honest → IfOk result (λ o. (c : Content)
        × (content (D.reads disk) ≡ Ok c) × IsSettled o.journal c
        × IsWorldOf c.held c.lanes o.world × WorldSays o.world c.held) }
    ensures idle { IfOk result (λ o. pending_of o.journal ≡ None) }
    ensures still { IfOk result (λ o. AreStillIn o.world.lanes) }
    ensures installed { IfOk result (λ o. IsInstalledWorld o.world) }
    ensures sizes { D.honest → IfOk result (λ _. (c : Content) → content (D.reads disk) ≡ Ok c
        → IsRecordMap c.held) }

    // What is refused, and why.
    ensures why { IfErr result (λ r. MayRefuseOpening D.honest (D.reads disk)
        (D.faults disk) (D.faults r.disk) r.why) }
    ensures no_journal { D.honest → (at : ℕ) → content (D.reads disk) ≡ Err at
        → TellsPlace at result }
    ensures used_up { D.honest → (c : Content) → content (D.reads disk) ≡ Ok c
        → IsUsedUp c.held → TellsNoRun result }
    ensures bad_key { D.honest → (c : Content) → content (D.reads disk) ≡ Ok c
        → (key : List ℕ) → IsWorldFault c.lanes c.held key → (IsUsedUp c.held → ⊥)
        → TellsBadKey key result }

    // The disk is as it was.
    ensures same { MatchResult result (λ o. SameDisk D.Disk disk (disk_of o.journal))
        (λ r. SameDisk D.Disk disk r.disk) }
    ensures bytes { D.honest → MatchResult result (λ o. SameBytes D.Disk disk (disk_of o.journal))
        (λ r. SameBytes D.Disk disk r.disk) }
    ensures synced { D.honest → IfErr result (λ r. r.why ≢ OpenFault.DiskFault
        → Only (D.reads disk) (D.images r.disk)) }
{
    let (journal, kept) = match Journal::recover(alloc, disk) {
        Ok(found) => found,
        Err(refused) => {
            return Err(OpenRefused {
                disk: refused.disk,
                why: of_reading(refused.why),
            });
        }
    };
    kept.sizes();
    match World::install(alloc, journal.report().lanes, kept) {
        Ok(world) => Ok(Opened { journal, world }),
        Err(fault) => Err(OpenRefused {
            disk: journal.into_disk(),
            why: OpenFault::from(fault),
        }),
    }
}

// Why the journal can't be read.
fn of_reading(why: Why) -> OpenFault
    requires { IsOfReading why }
    ensures { result ≡ of_reading why }
{
    match why {
        Why::DiskFault => OpenFault::DiskFault,
        Why::NotAJournal { at } => OpenFault::NotAJournal { at },
        Why::NoMemory => OpenFault::NoMemory,
        Why::JournalFull { .. } | Why::Exists => unreachable!(),
    }
}
