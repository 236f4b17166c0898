// A journal over a disk.
ghost use Rattle.std.specs.Prelude.{◌≡◌, ◌≢◌, ◌+◌, ◌^◌, ◌<◌, ◌≤◌, ◌↔◌, [], take, IsTrue, OnOk, OnErr, IfOk};
ghost use Rattle.std.specs.Prelude.{IfErr, IsErr, MatchResult, None, Some, Ok, Err, Result, List, option_map};
ghost use Rattle.flush_journal.specs.Batches.{records, owed_size};
ghost use Rattle.edge_traits.specs.Disks.{Only};
ghost use Rattle.flush_journal.specs.Files.{Content, content, fresh, magic};
ghost use Rattle.flush_journal.specs.Markers.{MarkerStands};
ghost use Rattle.flush_journal.specs.Reports.{IsVersion1};
ghost use Rattle.flush_journal.specs.Unchanged.{SameBytes, SameDisk, TornFront};
ghost use Rattle.flush_journal.specs.Records.{Record};
ghost use Rattle.flush_journal.specs.Reading.{MayRefuseReading};
ghost use Rattle.flush_journal.specs.Refusals.{NoMagic, MayRefuseCreate, MayRefuseFirst, MayRefuseNew};
ghost use Rattle.flush_journal.specs.Frames.{frame_size};

use crate::create::{NEW_SIZE, write_new};
use crate::header::{HEADER_SIZE, VERSION};
use crate::markers::{write_again, write_frame};
use crate::read::read_journal;
use crate::reader::Reader;
use crate::{Batch, JournalRefused, Recovered, Report, Why};
use edge_traits::{Disk, Failed};
use std::alloc::Global;

/// A journal on a disk, and the batch that it still owes.
#[derive(Drop)]
pub struct Journal<D: Disk> {
    disk: D,
    numbers: Report,
    pending: Option<Batch>,
    ghost version1: { IsVersion1 numbers },
    ghost marker: { D.honest → MarkerStands numbers.end (owed_size pending) (D.reads disk) },
    ghost some: { option_map records pending ≢ Some [] },
}

// Why a frame doesn't fit behind the end, where it doesn't.
fn check_room(end: u64, size: u64, room: u64) -> Result<(), Why>
    requires { size < 2 ^ 63 }
    ensures ok { OnOk result (end + (size + 1) ≤ room) }
    ensures err { OnErr result (room < end + (size + 1)) }
    ensures full { IfErr result (λ why. why ≡ Why.JournalFull end (size + 1) room) }
{
    let need = size + 1;
    if room < end || room - end < need {
        return Err(Why::JournalFull { end, need, room });
    }
    Ok(())
}

impl<D: Disk> Journal<D> {
    ghost use Rattle.flush_journal.specs.Standing.{disk_of, numbers_of, pending_of, with_batch, Numbers, IsSettled, IsOwed};
    ghost use Rattle.flush_journal.specs.Firsts.{MakesFirst};
    ghost use Rattle.flush_journal.specs.Tries.{Tries, Writes};

    /// Makes a journal for so many lanes, without a batch, on a disk. After `Ok` whatever a crash leaves is it; a crash
    /// before leaves any bytes.
    ///
    /// # Errors
    ///
    /// `Exists` where the disk begins with a journal's first bytes, else `JournalFull` where there is no room for a
    /// header and a marker; `DiskFault` where the disk had a fault. All but the last leave the disk as it was, and where
    /// it begins with a journal's first bytes each does. Never more than the first 17 bytes are touched.
    pub fn create(disk: D, lanes: u32) -> Result<Journal<D>, JournalRefused<D>>
        requires some { 1 ≤ lanes }
        requires few { lanes ≤ 16 }
        ensures settled { D.honest → IfOk result (λ j. IsSettled j (fresh lanes)) }
        ensures numbers { IfOk result (λ j. Numbers j (fresh lanes)) }
        ensures idle { IfOk result (λ j. pending_of j ≡ None) }
        ensures room { OnOk result (17 ≤ D.most disk) }
        ensures none { OnOk result (NoMagic D.honest (D.reads disk)) }
        ensures same { MatchResult result (λ j. SameDisk D.Disk disk (disk_of j))
            (λ r. SameDisk D.Disk disk r.disk) }
        ensures refused { D.honest → IfErr result (λ r. r.why ≢ Why.DiskFault
            → SameBytes D.Disk disk r.disk) }
        ensures found { D.honest → take 8 (D.reads disk) ≡ magic
            → IfErr result (λ r. SameBytes D.Disk disk r.disk) }
        ensures front { D.honest → MatchResult result (λ j. TornFront D.Disk 17 disk (disk_of j))
            (λ r. TornFront D.Disk 17 disk r.disk) }
        ensures why { IfErr result (λ r. MayRefuseCreate D.honest (D.reads disk) (D.most disk)
            (D.faults disk) (D.faults r.disk) r.why) }
    {
        Journal::create_for(disk, lanes, 0, NEW_SIZE)
    }

    /// Makes a journal for so many lanes with a first batch, on a disk. After `Ok` whatever a crash leaves is it.
    ///
    /// # Errors
    ///
    /// Those of `create`, but `JournalFull` where there is no room for the header and the whole batch with its markers,
    /// told as for an append behind the header. All but `DiskFault` leave the disk as it was, and where it begins with a
    /// journal's first bytes each does. Behind a fault the first 17 bytes may be torn, or a journal stands without a
    /// batch or with this one; a crash leaves no more.
    pub fn create_with(disk: D, lanes: u32, batch: Batch) -> Result<Journal<D>, JournalRefused<D>>
        requires some { 1 ≤ lanes }
        requires few { lanes ≤ 16 }
        ensures settled { D.honest → IfOk result (λ j.
            IsSettled j (with_batch (fresh lanes) (records batch))) }
        ensures numbers { IfOk result (λ j. Numbers j (with_batch (fresh lanes) (records batch))) }
        ensures idle { IfOk result (λ j. pending_of j ≡ None) }
        ensures room { OnOk result (17 + frame_size (records batch) ≤ D.most disk) }
        ensures none { OnOk result (NoMagic D.honest (D.reads disk)) }
        ensures same { MatchResult result (λ j. SameDisk D.Disk disk (disk_of j))
            (λ r. SameDisk D.Disk disk r.disk) }
        ensures refused { D.honest → IfErr result (λ r. r.why ≢ Why.DiskFault
            → SameBytes D.Disk disk r.disk) }
        ensures found { D.honest → take 8 (D.reads disk) ≡ magic
            → IfErr result (λ r. SameBytes D.Disk disk r.disk) }
        ensures moments { D.honest → MatchResult result
            (λ j. MakesFirst D.Disk lanes (records batch) disk (disk_of j))
            (λ r. MakesFirst D.Disk lanes (records batch) disk r.disk) }
        ensures why { IfErr result (λ r. MayRefuseFirst (records batch) D.honest (D.reads disk)
            (D.most disk) (D.faults disk) (D.faults r.disk) r.why) }
    {
        let need = batch.frame().len() as u64 + 1;
        let mut journal = Journal::create_for(disk, lanes, HEADER_SIZE, need)?;
        match journal.append(batch) {
            Ok(()) => Ok(journal),
            Err(why) => Err(JournalRefused {
                disk: journal.into_disk(),
                why,
            }),
        }
    }

    // Makes a journal without a batch, where so many bytes fit behind a place.
    fn create_for(
        mut disk: D,
        lanes: u32,
        end: u64,
        need: u64,
    ) -> Result<Journal<D>, JournalRefused<D>>
        requires some { 1 ≤ lanes }
        requires few { lanes ≤ 16 }
        requires header { 17 ≤ end + need }
        requires small { end + need < 2 ^ 64 }
        ensures settled { D.honest → IfOk result (λ j. IsSettled j (fresh lanes)) }
        ensures numbers { IfOk result (λ j. Numbers j (fresh lanes)) }
        ensures idle { IfOk result (λ j. pending_of j ≡ None) }
        ensures room { OnOk result (end + need ≤ D.most disk) }
        ensures none { OnOk result (NoMagic D.honest (D.reads disk)) }
        ensures same { MatchResult result (λ j. SameDisk D.Disk disk (disk_of j))
            (λ r. SameDisk D.Disk disk r.disk) }
        ensures refused { D.honest → IfErr result (λ r. r.why ≢ Why.DiskFault
            → SameBytes D.Disk disk r.disk) }
        ensures found { D.honest → take 8 (D.reads disk) ≡ magic
            → IfErr result (λ r. SameBytes D.Disk disk r.disk) }
        ensures front { D.honest → MatchResult result (λ j. TornFront D.Disk 17 disk (disk_of j))
            (λ r. TornFront D.Disk 17 disk r.disk) }
        ensures why { IfErr result (λ r. MayRefuseNew end need D.honest (D.reads disk)
            (D.most disk) (D.faults disk) (D.faults r.disk) r.why) }
    {
        match write_new(&mut disk, lanes, end, need) {
            Ok(()) => Ok(Journal {
                disk,
                numbers: Report {
                    version: VERSION,
                    lanes,
                    batches: 0,
                    end: HEADER_SIZE,
                },
                pending: None,
            }),
            Err(why) => Err(JournalRefused { disk, why }),
        }
    }

    /// Opens the journal that stands on a disk, and gives what it holds. It changes no byte, and no image is new. After
    /// `Ok`, and after a refusal that is no fault, whatever a crash leaves is what reads give.
    ///
    /// # Errors
    ///
    /// `NotAJournal` with the place of what is wrong, where no journal stands there; `DiskFault` where the disk had a
    /// fault; `NoMemory`.
    pub fn recover(alloc: Global, disk: D) -> Result<(Journal<D>, Recovered), JournalRefused<D>>
        ensures recovered { D.honest → IfOk result (λ p. (c : Content)
            × (content (D.reads disk) ≡ Ok c) × IsSettled p.0 c × (p.1 ≡ c.held)) }
        ensures idle { IfOk result (λ p. pending_of p.0 ≡ None) }
        ensures same { MatchResult result (λ p. SameDisk D.Disk disk (disk_of p.0))
            (λ r. SameDisk D.Disk disk r.disk) }
        ensures bytes { D.honest → MatchResult result (λ p. SameBytes D.Disk disk (disk_of p.0))
            (λ r. SameBytes D.Disk disk r.disk) }
        ensures synced { D.honest → IfErr result (λ r. r.why ≢ Why.DiskFault
            → Only (D.reads disk) (D.images r.disk)) }
        ensures why { IfErr result (λ r. MayRefuseReading D.honest (D.reads disk)
            (D.faults disk) (D.faults r.disk) r.why) }
    {
        let mut reader = Reader::open(alloc, disk)?;
        let mut recovered = Recovered::new(alloc);
        match read_journal(&mut reader, &mut recovered) {
            Ok(numbers) => {
                let journal = Journal {
                    disk: reader.into_disk(),
                    numbers,
                    pending: None,
                };
                Ok((journal, recovered))
            }
            Err(why) => Err(JournalRefused {
                disk: reader.into_disk(),
                why,
            }),
        }
    }

    /// The journal's numbers.
    pub fn report(&self) -> Report
        ensures numbers { result ≡ numbers_of self.now }
        ensures version { result.version ≡ 1 }
        ensures some_lane { 1 ≤ result.lanes }
        ensures few_lanes { result.lanes ≤ 16 }
    {
        self.numbers
    }

    /// Whether a batch is pending.
    pub fn pending(&self) -> bool
        ensures { IsTrue result ↔ (pending_of self.now ≢ None) }
    {
        self.pending.is_some()
    }

    /// The disk.
    pub fn into_disk(self) -> D
        ensures { result ≡ disk_of self }
    {
        self.disk
    }

    /// Writes a batch behind the journal's end. After `Ok` whatever a crash leaves holds it. An empty batch is `Ok`
    /// without a call of the disk.
    ///
    /// # Errors
    ///
    /// `DiskFault` where the disk had a fault, and `JournalFull` where the batch doesn't fit, which is found without a
    /// call of the disk. After either the batch is pending: `settle` writes it. On a disk that has stopped each batch is
    /// refused.
    pub fn append(&mut self, batch: Batch) -> Result<(), Why>
        requires idle { pending_of self.old ≡ None }
        ensures writes { D.honest → (c : Content) → IsSettled self.old c
            → Writes self.old self.new c (records batch) result }
        ensures tries { records batch ≢ [] → Tries self.old self.new (records batch) result }
        ensures stopped { records batch ≢ [] → D.stopped (disk_of self.old) → IsErr result }
        ensures empty { records batch ≡ [] → result ≡ Ok tt }
        ensures untouched { records batch ≡ [] → self.new ≡ self.old }
        ensures same { SameDisk D.Disk (disk_of self.old) (disk_of self.new) }
    {
        if batch.is_empty() {
            return Ok(());
        }
        let size = batch.frame().len() as u64;
        if let Err(full) = check_room(self.numbers.end, size, self.disk.room()) {
            self.pending = Some(batch);
            return Err(full);
        }
        if let Err(Failed) = write_frame(&mut self.disk, self.numbers.end, batch.frame()) {
            self.pending = Some(batch);
            return Err(Why::DiskFault);
        }
        self.numbers.end += size;
        self.numbers.batches += 1;
        Ok(())
    }

    /// Writes the batch that is pending, where there is one. After `Ok` whatever a crash leaves holds it. Where none is
    /// pending it is `Ok` without a call of the disk.
    ///
    /// # Errors
    ///
    /// Those of `append`. After either the batch stays pending.
    pub fn settle(&mut self) -> Result<(), Why>
        ensures writes { D.honest → (c : Content) → (rs : List Record) → IsOwed self.old c rs
            → Writes self.old self.new c rs result }
        ensures tries { (rs : List Record) → pending_of self.old ≡ Some rs
            → Tries self.old self.new rs result }
        ensures stopped { pending_of self.old ≢ None → D.stopped (disk_of self.old) → IsErr result }
        ensures idle { pending_of self.old ≡ None → result ≡ Ok tt }
        ensures untouched { pending_of self.old ≡ None → self.new ≡ self.old }
        ensures settled { OnOk result (pending_of self.new ≡ None) }
        ensures stays { OnErr result (pending_of self.new ≡ pending_of self.old) }
        ensures same { SameDisk D.Disk (disk_of self.old) (disk_of self.new) }
    {
        let Some(batch) = &self.pending else {
            return Ok(());
        };
        let size = batch.frame().len() as u64;
        if let Err(full) = check_room(self.numbers.end, size, self.disk.room()) {
            return Err(full);
        }
        if let Err(Failed) = write_again(&mut self.disk, self.numbers.end, batch.frame()) {
            return Err(Why::DiskFault);
        }
        self.numbers.end += size;
        self.numbers.batches += 1;
        self.pending = None;
        Ok(())
    }
}
