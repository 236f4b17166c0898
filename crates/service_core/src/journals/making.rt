//! The journal of a catalogue.

ghost use Rattle.std.specs.Prelude.{◌≡◌, ◌≢◌, ◌≤◌, ℕ, List, [], None, take, IfErr, IfOk, MatchResult, OnOk};
ghost use Rattle.flush_journal.specs.Batches.{records};
ghost use Rattle.flush_journal.specs.Files.{fresh, magic};
ghost use Rattle.flush_journal.specs.Records.{Record};
ghost use Rattle.flush_journal.specs.Firsts.{MakesFirst};
ghost use Rattle.flush_journal.specs.Refusals.{NoMagic, MayRefuseFirst};
ghost use Rattle.flush_journal.specs.Standing.{IsSettled, disk_of, numbers_of, pending_of, with_batch};
ghost use Rattle.flush_journal.specs.Unchanged.{SameBytes, SameDisk};
ghost use Rattle.service_core.specs.Journals.Groups.{AreFirstRoots};
ghost use Rattle.service_core.specs.Journals.FirstJournals.{AreFirstRecords, IsFirstJournal};
ghost use Rattle.service_core.specs.Journals.FirstJournals.{MayRefuseMaking};

use crate::journals::faults::MakeRefused;
use crate::journals::first_world::first_world;
use domains::Catalogue;
use edge_traits::Disk;
use flush_journal::{Batch, Journal, Why};
use std::alloc::{AllocError, Global};

/// Makes the journal of a catalogue for so many lanes: one batch, which holds the catalogue's world in run 0, with an empty
/// group at the root of each domain. After `Ok` whatever a crash leaves is it.
///
/// The roots of the domains are the first serials of run 0.
///
/// # Errors
///
/// `NoMemory`, for which the disk isn't called; then `Exists` where the disk begins with a journal's first bytes, which
/// stays as it was; else `JournalFull` where there is no room for the header and the whole batch behind it, and the
/// disk stays as it was too. `DiskFault` where the disk had a fault: then its first 17 bytes may be torn, or a journal
/// stands there, without a batch or with this one.
pub fn make_journal<D: Disk>(
    alloc: Global,
    disk: D,
    catalogue: Catalogue,
    lanes: u32,
) -> Result<Journal<D>, MakeRefused<D>>
    requires some_lane { 1 ≤ lanes }
    requires few_lanes { lanes ≤ 16 }
    requires roots { AreFirstRoots catalogue }

    // What a crash leaves after `Ok`, and what is read.
    ensures images { D.honest → IfOk result (λ j. (image : List ℕ)
        → D.images (disk_of j) image → IsFirstJournal catalogue lanes image) }
    ensures settled { D.honest → IfOk result (λ j. (rs : List Record)
        × AreFirstRecords catalogue rs × IsSettled j (with_batch (fresh lanes) rs)) }

    // The journal's numbers, on every disk.
    ensures idle { IfOk result (λ j. pending_of j ≡ None) }
    ensures lanes { IfOk result (λ j. (numbers_of j).lanes ≡ lanes) }
    ensures batches { IfOk result (λ j. (numbers_of j).batches ≡ 1) }

    // A journal that stands there is never written over.
    ensures none { OnOk result (NoMagic D.honest (D.reads disk)) }
    ensures found { D.honest → take 8 (D.reads disk) ≡ magic
        → IfErr result (λ r. SameBytes D.Disk disk r.disk) }

    // What stands behind a refusal, and behind a fault at each moment.
    ensures refused { D.honest → IfErr result (λ r. r.why ≢ Why.DiskFault
        → SameBytes D.Disk disk r.disk) }
    ensures stands { D.honest → IfErr result (λ r. r.why ≡ Why.DiskFault → (rs : List Record)
        × AreFirstRecords catalogue rs × MakesFirst D.Disk lanes rs disk r.disk) }

    // What is refused, and why.
    ensures why { IfErr result (λ r. MayRefuseMaking catalogue D.honest (D.reads disk)
        (D.most disk) (D.faults disk) (D.faults r.disk) r.why) }
    ensures memory { IfErr result (λ r. r.why ≡ Why.NoMemory → r.disk ≡ disk) }
    ensures same { MatchResult result (λ j. SameDisk D.Disk disk (disk_of j))
        (λ r. SameDisk D.Disk disk r.disk) }
{
    match first_batch(alloc, catalogue, lanes) {
        Ok(batch) => write_first(disk, lanes, batch),
        Err(_) => Err(MakeRefused {
            disk,
            why: Why::NoMemory,
        }),
    }
}

// The records of a catalogue's world.
fn first_batch(alloc: Global, catalogue: Catalogue, lanes: u32) -> Result<Batch, AllocError>
    requires some_lane { 1 ≤ lanes }
    requires few_lanes { lanes ≤ 16 }
    requires roots { AreFirstRoots catalogue }
    ensures { IfOk result (λ batch. AreFirstRecords catalogue (records batch)) }
{
    let _next = catalogue.next_number();
    let mut world = first_world(alloc, catalogue, lanes)?;
    let mut batch = Batch::new(alloc);
    world.cut(&mut batch)?;
    world.is_described();
    Ok(batch)
}

// Makes a journal of one batch.
fn write_first<D: Disk>(disk: D, lanes: u32, batch: Batch) -> Result<Journal<D>, MakeRefused<D>>
    requires some_lane { 1 ≤ lanes }
    requires few_lanes { lanes ≤ 16 }
    requires some { records batch ≢ [] }
    ensures settled { D.honest → IfOk result (λ j.
        IsSettled j (with_batch (fresh lanes) (records batch))) }
    ensures idle { IfOk result (λ j. pending_of j ≡ None) }
    ensures lanes { IfOk result (λ j. (numbers_of j).lanes ≡ lanes) }
    ensures batches { IfOk result (λ j. (numbers_of j).batches ≡ 1) }
    ensures none { OnOk result (NoMagic D.honest (D.reads disk)) }
    ensures found { D.honest → take 8 (D.reads disk) ≡ magic
        → IfErr result (λ r. SameBytes D.Disk disk r.disk) }
    ensures refused { D.honest → IfErr result (λ r. r.why ≢ Why.DiskFault
        → SameBytes D.Disk disk r.disk) }
    ensures moments { D.honest → MatchResult result
        (λ j. MakesFirst D.Disk lanes (records batch) disk (disk_of j))
        (λ r. MakesFirst D.Disk lanes (records batch) disk r.disk) }
    ensures why { IfErr result (λ r. MayRefuseFirst (records batch) D.honest (D.reads disk)
        (D.most disk) (D.faults disk) (D.faults r.disk) r.why) }
    ensures same { MatchResult result (λ j. SameDisk D.Disk disk (disk_of j))
        (λ r. SameDisk D.Disk disk r.disk) }
{
    Journal::create_with(disk, lanes, batch)
}
