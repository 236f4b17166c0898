ghost use Rattle.std.specs.Prelude.{◌≡◌, [], IfOk, OnErr, OnOk, None};
ghost use Rattle.flush_journal.specs.Batches.{records};
ghost use Rattle.flush_journal.specs.Records.{Record};
ghost use Rattle.flush_journal.specs.Standing.{numbers_of, pending_of};
ghost use Rattle.flush_journal.specs.Keepings.Keepings.{Builds, Keeps};

use crate::keepings::kept::Kept;
use crate::{Batch, Journal, Why};
use edge_traits::Disk;
use std::alloc::Global;
use std::mem;

/// A journal beside a world, with the records that the next batch has.
#[derive(Drop)]
pub struct Keeping<D: Disk> {
    alloc: Global,
    pub journal: Journal<D>,
    /// What was cut and not appended yet.
    pub building: Batch,
    /// How many requests the world had decided when it was last kept.
    pub kept: u64,
}

impl<D: Disk> Keeping<D> {
    /// A keeping with a journal, at its begin.
    pub fn new(alloc: Global, journal: Journal<D>) -> Keeping<D>
        ensures journal { result.journal ≡ journal }
        ensures building { records result.building ≡ [] }
        ensures kept { result.kept ≡ 0 }
    {
        Keeping {
            alloc,
            journal,
            building: Batch::new(alloc),
            kept: 0,
        }
    }

    /// Keeps the world as it stands: writes what is pending, cuts what changed, and appends it. Answers how many requests
    /// the world had decided.
    ///
    /// # Errors
    ///
    /// `DiskFault` where the disk had a fault, and `JournalFull` exactly where the batch that is pending doesn't fit behind the
    /// journal's end; or `NoMemory`. After each, what was cut is pending or stays in `building`, and a later keeping goes on from there.
    pub fn keep<W: Kept>(&mut self, world: &mut W) -> Result<u64, Why>
        ensures keeps { Keeps W.tells self.old.journal self.new.journal
            (records self.old.building) (records self.new.building)
            (W.says world.old) (W.says world.new) (W.world world.new) result }
        ensures batch { Builds (W.is_cut world.old)
            (numbers_of self.old.journal) (pending_of self.old.journal) (records self.old.building)
            (numbers_of self.new.journal) (pending_of self.new.journal) (records self.new.building) }
        ensures done { OnOk result (records self.new.building ≡ []) }
        ensures none { OnOk result ((r : Record) → W.is_cut world.new r → ⊥) }
        ensures world { W.world world.new ≡ W.world world.old }
        ensures number { IfOk result (λ n. n ≡ W.places (W.world world.new)) }
        ensures kept { IfOk result (λ n. self.new.kept ≡ n) }
        ensures refused { OnErr result (self.new.kept ≡ self.old.kept) }
    {
        self.journal.settle()?;
        append_changes(self.alloc, &mut self.journal, &mut self.building, world)?;
        self.kept = world.places();
        Ok(self.kept)
    }
}

// Cuts what changed and appends it, where nothing is pending.
fn append_changes<D: Disk, W: Kept>(
    alloc: Global,
    journal: &mut Journal<D>,
    building: &mut Batch,
    world: &mut W,
) -> Result<(), Why>
    requires idle { pending_of journal.old ≡ None }
    ensures keeps { Keeps W.tells journal.old journal.new
        (records building.old) (records building.new)
        (W.says world.old) (W.says world.new) (W.world world.new) result }
    ensures batch { Builds (W.is_cut world.old) (numbers_of journal.old) None (records building.old)
        (numbers_of journal.new) (pending_of journal.new) (records building.new) }
    ensures done { OnOk result (records building.new ≡ []) }
    ensures none { OnOk result ((r : Record) → W.is_cut world.new r → ⊥) }
    ensures world { W.world world.new ≡ W.world world.old }
{
    world.cut(building)?;
    let batch = mem::replace(building, Batch::new(alloc));
    journal.append(batch)
}
