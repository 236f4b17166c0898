// A disk in memory, which keeps a record of its writes and syncs.
ghost use Rattle.std.specs.Prelude.{◌≡◌, ℕ, ◌+◌, ◌^◌, ◌<◌, ◌≤◌, ◌↔◌, max, List, [], ◌∷◌, ◌++◌, length, drop};
ghost use Rattle.std.specs.Prelude.{OnOk, OnErr, IfOk, IsErr, vec_len, true};
ghost use Rattle.std.specs.Io.{ReadsAtMost};
ghost use Rattle.edge_traits.specs.Causes.{HasCause};
ghost use Rattle.edge_traits.specs.Disks.{Written, Torn, Fills, LeavesNoMore, LeavesAll, After, Follows, Only};
ghost use Rattle.edge_traits.specs.Disks.{Elapses, ElapsesBy, overwritten};
ghost use Rattle.edge_traits.specs.MemDisks.{begun, written, synced, torn_write, torn_writes, crashed};
ghost use Rattle.edge_traits.specs.DiskCalls.{after, holding, writes_of, all_done, Unsynced, writes_fit, size_after};
ghost use Rattle.edge_traits.specs.declared.mem_disk.Call.TheVariants.{Wrote, Synced};

use crate::schedule::Schedule;
use crate::{Disk, Failed};
use std::alloc::{AllocError, Global};

// A call that changed what a crash may leave.
#[derive(Drop)]
pub enum Call {
    Wrote { at: u64, bytes: Vec<u8> },
    Synced,
}

/// A disk over bytes in memory, which tells what it holds and what a crash may leave. It keeps a record of its writes
/// and syncs, and so answers for each moment since it was made. A call that finds no memory for that is a fault. A
/// call that fails changes nothing.
#[derive(Drop)]
pub struct MemDisk {
    alloc: Global,
    room: u64,
    first: Vec<u8>,
    bytes: Vec<u8>,
    base: Vec<u8>,
    calls: Vec<Call>,
    synced: usize,
    schedule: Schedule,
    ghost within: { length bytes.items ≤ room },
    ghost place: { synced ≤ length calls.items },
    ghost replays: { after (begun first.items) calls.items
        ≡ holding bytes.items base.items (drop synced calls.items) },
    ghost done: { all_done (writes_of (drop synced calls.items)) base.items ≡ bytes.items },
    ghost unsynced: { Unsynced (length base.items) (length bytes.items) (drop synced calls.items) },
}

// Puts bytes in the place of others.
fn set_range(image: &mut [u8], at: usize, bytes: &[u8])
    requires { at + length bytes.now ≤ length image.old }
    ensures { image.new ≡ overwritten at bytes.now image.old }
{
    image[at..at + bytes.len()].copy_from_slice(bytes);
}

// Writes the first `keep` of some bytes. The others stand as they were before, or 0 past the old end.
fn put(image: &mut Vec<u8>, at: usize, bytes: &[u8], keep: usize) -> Result<(), AllocError>
    requires inside { at ≤ vec_len image.old }
    requires some { keep ≤ length bytes.now }
    requires fits { at + length bytes.now < 2 ^ 64 }
    ensures kept { OnOk result (image.new.items
        ≡ torn_write keep (record { at = at; bytes = bytes.now }) image.old.items) }
    ensures err { OnErr result (image.new.items ≡ image.old.items) }
    ensures len { OnOk result (length image.new.items
        ≡ max (length image.old.items) (at + length bytes.now)) }
{
    let end = at + bytes.len();
    if end > image.len() {
        image.resize(end, 0)?;
    }
    set_range(image.as_mut_slice(), at, &bytes[..keep]);
    Ok(())
}

// Writes bytes, and puts the call into the record.
fn record_write(
    alloc: Global,
    calls: &mut Vec<Call>,
    image: &mut Vec<u8>,
    at: u64,
    bytes: &[u8],
) -> Result<(), AllocError>
    requires inside { at ≤ vec_len image.old }
    requires fits { at + length bytes.now < 2 ^ 64 }
    ensures calls { OnOk result ((copy : _) × (copy.items ≡ bytes.now)
        × (calls.new.items ≡ calls.old.items ++ Wrote at copy ∷ [])) }
    ensures bytes { OnOk result (Written at bytes.now image.old.items image.new.items) }
    ensures len { OnOk result (length image.new.items
        ≡ max (length image.old.items) (at + length bytes.now)) }
    ensures err { OnErr result (calls.new.items ≡ calls.old.items) }
    ensures unwritten { OnErr result (image.new.items ≡ image.old.items) }
{
    let copy = bytes.to_vec(alloc)?;
    calls.reserve(1)?;
    put(image, at as usize, bytes, bytes.len())?;
    calls.push_reserved(Call::Wrote { at, bytes: copy });
    Ok(())
}

// Keeps what stands there, and puts the call into the record.
fn record_sync(
    alloc: Global,
    calls: &mut Vec<Call>,
    base: &mut Vec<u8>,
    bytes: &[u8],
) -> Result<(), AllocError>
    ensures calls { OnOk result (calls.new.items ≡ calls.old.items ++ Synced ∷ []) }
    ensures base { OnOk result (base.new.items ≡ bytes.now) }
    ensures err { OnErr result (calls.new.items ≡ calls.old.items) }
    ensures unsynced { OnErr result (base.new.items ≡ base.old.items) }
{
    let copy = bytes.to_vec(alloc)?;
    calls.reserve(1)?;
    calls.push_reserved(Call::Synced);
    *base = copy;
    Ok(())
}

// Tears the writes since the last sync: the first `kept` of their bytes, in order of writing, stand.
fn tear(image: &mut Vec<u8>, calls: &[Call], kept: u64) -> Result<(), AllocError>
    requires fit { writes_fit (length image.old.items) calls.now ≡ true }
    requires short { size_after (length image.old.items) calls.now < 2 ^ 64 }
    ensures torn { OnOk result (image.new.items
        ≡ torn_writes kept (writes_of calls.now) image.old.items) }
    ensures len { OnOk result (length image.new.items
        ≡ size_after (length image.old.items) calls.now) }
{
    let mut left = kept;
    for call in calls {
        if let Call::Wrote { at, bytes } = call {
            let keep = left.min(bytes.len() as u64);
            left -= keep;
            put(image, *at as usize, bytes, keep as usize)?;
        }
    }
    Ok(())
}

impl MemDisk {
    ghost use Rattle.edge_traits.specs.DiskMemory.{memory_of};
    ghost use Rattle.edge_traits.specs.Plans.{first_plan, disk_plan};

    /// A disk that reads these bytes, and holds at most `room` of them. The calls whose numbers, from 0 on, `failing`
    /// lists are faults; each call counts but that of `room`.
    pub fn new(
        alloc: Global,
        image: Vec<u8>,
        room: u64,
        failing: Vec<u64>,
    ) -> Result<MemDisk, AllocError>
        requires { length image.items ≤ room }
        ensures memory { IfOk result (λ d. memory_of d ≡ begun image.items) }
        ensures reads { IfOk result (λ d. ⟦<MemDisk as Disk>⟧.reads d ≡ image.items) }
        ensures images { IfOk result (λ d. Only image.items (⟦<MemDisk as Disk>⟧.images d)) }
        ensures room { IfOk result (λ d. ⟦<MemDisk as Disk>⟧.most d ≡ room) }
        ensures faults { IfOk result (λ d. ⟦<MemDisk as Disk>⟧.faults d ≡ 0) }
        ensures plan { IfOk result (λ d. disk_plan d ≡ first_plan failing.items) }
    {
        let first = image.as_slice().to_vec(alloc)?;
        let base = image.as_slice().to_vec(alloc)?;
        Ok(MemDisk {
            alloc,
            room,
            first,
            bytes: image,
            base,
            calls: Vec::new(alloc),
            synced: 0,
            schedule: Schedule::new(failing),
        })
    }

    /// The bytes that reads give.
    pub fn bytes(&self) -> &[u8]
        ensures { result.now ≡ ⟦<MemDisk as Disk>⟧.reads self.now }
    {
        self.bytes.as_slice()
    }

    /// One disk that a crash now may leave, with no failing calls. Of the bytes written since the last sync that
    /// answered Ok the first `kept`, in order of writing, stand; the others are as they were before, or 0 past the old
    /// end.
    pub fn crash(&self, kept: u64) -> Result<MemDisk, AllocError>
        ensures memory { IfOk result (λ d. memory_of d
            ≡ begun (crashed kept (memory_of self.now))) }
        ensures image { IfOk result (λ d. ⟦<MemDisk as Disk>⟧.images self.now
            (⟦<MemDisk as Disk>⟧.reads d)) }
        ensures only { IfOk result (λ d. Only
            (⟦<MemDisk as Disk>⟧.reads d) (⟦<MemDisk as Disk>⟧.images d)) }
        ensures room { IfOk result (λ d.
            ⟦<MemDisk as Disk>⟧.most d ≡ ⟦<MemDisk as Disk>⟧.most self.now) }
        ensures faults { IfOk result (λ d. ⟦<MemDisk as Disk>⟧.faults d ≡ 0) }
        ensures plan { IfOk result (λ d. disk_plan d ≡ first_plan []) }
    {
        let mut image = self.base.as_slice().to_vec(self.alloc)?;
        tear(&mut image, &self.calls[self.synced..], kept)?;
        MemDisk::new(self.alloc, image, self.room, Vec::new(self.alloc))
    }
}

impl Disk for MemDisk {
    ghost use Rattle.edge_traits.specs.MemDisks.{IsImage};
    ghost use Rattle.edge_traits.specs.DiskCalls.{LeftSince};
    ghost use Rattle.edge_traits.specs.DiskLaws.{done_is_torn, counts_now as was_now, only_now as is_now};
    ghost use Rattle.edge_traits.specs.DiskMemory.{memory_of};
    ghost use Rattle.edge_traits.specs.Plans.{FailsNext, later_plan, disk_plan};

    ghost honest = { Unit {0} };

    ghost reads = { λ d. (memory_of d).reads };

    ghost images = { λ d. IsImage (memory_of d) };

    ghost moment = { λ d. length d.calls.items };

    ghost left_since = { λ d. LeftSince d.first.items d.calls.items };

    ghost faults = { λ d. d.schedule.faults };

    ghost most = { λ d. d.room };

    ghost Others = { Unit {0} };

    ghost beside = { λ _. tt };

    ghost beside_since = { λ _ _ _. Unit {0} };

    fn length(&mut self) -> Result<u64, Failed>
        ensures length { IfOk result (λ n. n ≡ length (⟦<MemDisk as Disk>⟧.reads self.old)) }
        ensures within { IfOk result (λ n. n ≤ ⟦<MemDisk as Disk>⟧.most self.old) }
        ensures reads { ⟦<MemDisk as Disk>⟧.reads self.new ≡ ⟦<MemDisk as Disk>⟧.reads self.old }
        ensures images { LeavesNoMore
            (⟦<MemDisk as Disk>⟧.images self.old) (⟦<MemDisk as Disk>⟧.images self.new) }
        ensures time { Elapses
            (⟦<MemDisk as Disk>⟧.moment self.old) (⟦<MemDisk as Disk>⟧.moment self.new)
            (⟦<MemDisk as Disk>⟧.left_since self.old) (⟦<MemDisk as Disk>⟧.left_since self.new)
            (⟦<MemDisk as Disk>⟧.images self.new) }
        ensures most { ⟦<MemDisk as Disk>⟧.most self.new ≡ ⟦<MemDisk as Disk>⟧.most self.old }
        ensures memory { memory_of self.new ≡ memory_of self.old }
        ensures cause { HasCause
            (⟦<MemDisk as Disk>⟧.faults self.old) (⟦<MemDisk as Disk>⟧.faults self.new) result }

        // It fails at the numbers that are planned.
        ensures planned { IsErr result ↔ FailsNext (disk_plan self.old) }
        ensures plan { disk_plan self.new ≡ later_plan (disk_plan self.old) }
    {
        if self.schedule.call_fails() {
            return Err(Failed);
        }
        Ok(self.bytes.len() as u64)
    }

    fn room(&self) -> u64 {
        self.room
    }

    fn read_at(&mut self, at: u64, buf: &mut [u8]) -> Result<usize, Failed>
        ensures bound { ReadsAtMost result buf.old }
        ensures bytes { IfOk result (λ n. Fills at (⟦<MemDisk as Disk>⟧.reads self.old) n buf.new) }
        ensures reads { ⟦<MemDisk as Disk>⟧.reads self.new ≡ ⟦<MemDisk as Disk>⟧.reads self.old }
        ensures images { LeavesNoMore
            (⟦<MemDisk as Disk>⟧.images self.old) (⟦<MemDisk as Disk>⟧.images self.new) }
        ensures time { Elapses
            (⟦<MemDisk as Disk>⟧.moment self.old) (⟦<MemDisk as Disk>⟧.moment self.new)
            (⟦<MemDisk as Disk>⟧.left_since self.old) (⟦<MemDisk as Disk>⟧.left_since self.new)
            (⟦<MemDisk as Disk>⟧.images self.new) }
        ensures most { ⟦<MemDisk as Disk>⟧.most self.new ≡ ⟦<MemDisk as Disk>⟧.most self.old }
        ensures memory { memory_of self.new ≡ memory_of self.old }
        ensures cause { HasCause
            (⟦<MemDisk as Disk>⟧.faults self.old) (⟦<MemDisk as Disk>⟧.faults self.new) result }

        // It fails at the numbers that are planned.
        ensures planned { IsErr result ↔ FailsNext (disk_plan self.old) }
        ensures plan { disk_plan self.new ≡ later_plan (disk_plan self.old) }
    {
        if self.schedule.call_fails() {
            return Err(Failed);
        }
        Ok(copy_from(self.bytes.as_slice(), at, buf))
    }

    fn write_at(&mut self, at: u64, bytes: &[u8]) -> Result<(), Failed>
        requires room { at + length bytes.now ≤ ⟦<MemDisk as Disk>⟧.most self.old }
        requires inside { at ≤ length (⟦<MemDisk as Disk>⟧.reads self.old) }
        ensures ok { OnOk result (Written at bytes.now
            (⟦<MemDisk as Disk>⟧.reads self.old) (⟦<MemDisk as Disk>⟧.reads self.new)) }
        ensures err { OnErr result (Torn at (length bytes.now)
            (⟦<MemDisk as Disk>⟧.reads self.old) (⟦<MemDisk as Disk>⟧.reads self.new)) }
        ensures images { Follows (Torn at (length bytes.now))
            (⟦<MemDisk as Disk>⟧.images self.old) (⟦<MemDisk as Disk>⟧.images self.new) }
        ensures time { ElapsesBy (Torn at (length bytes.now))
            (⟦<MemDisk as Disk>⟧.moment self.old) (⟦<MemDisk as Disk>⟧.moment self.new)
            (⟦<MemDisk as Disk>⟧.left_since self.old) (⟦<MemDisk as Disk>⟧.left_since self.new)
            (⟦<MemDisk as Disk>⟧.images self.old) }
        ensures most { ⟦<MemDisk as Disk>⟧.most self.new ≡ ⟦<MemDisk as Disk>⟧.most self.old }
        ensures cause { HasCause
            (⟦<MemDisk as Disk>⟧.faults self.old) (⟦<MemDisk as Disk>⟧.faults self.new) result }

        // It fails at the numbers that are planned, else writes all, or finds no memory. Where it fails, all is as
        // before, at each moment.
        ensures planned { FailsNext (disk_plan self.old) → IsErr result }
        ensures plan { disk_plan self.new ≡ later_plan (disk_plan self.old) }
        ensures wrote { OnOk result (memory_of self.new
            ≡ written (record { at = at; bytes = bytes.now }) (memory_of self.old)) }
        ensures unwritten { OnErr result (memory_of self.new ≡ memory_of self.old) }
        ensures quiet { OnErr result (Elapses
            (⟦<MemDisk as Disk>⟧.moment self.old) (⟦<MemDisk as Disk>⟧.moment self.new)
            (⟦<MemDisk as Disk>⟧.left_since self.old) (⟦<MemDisk as Disk>⟧.left_since self.new)
            (⟦<MemDisk as Disk>⟧.images self.new)) }

        // However the write may be torn, a crash may leave it so.
        ensures torn { OnOk result (LeavesAll
            (After (Torn at (length bytes.now)) (⟦<MemDisk as Disk>⟧.images self.old))
            (⟦<MemDisk as Disk>⟧.images self.new)) }
        ensures stays { LeavesAll
            (⟦<MemDisk as Disk>⟧.images self.old) (⟦<MemDisk as Disk>⟧.images self.new) }
    {
        if self.schedule.call_fails() {
            return Err(Failed);
        }
        if let Err(AllocError) = record_write(
            self.alloc,
            &mut self.calls,
            &mut self.bytes,
            at,
            bytes,
        ) {
            self.schedule.faults.rise();
            return Err(Failed);
        }
        Ok(())
    }

    fn sync(&mut self) -> Result<(), Failed>
        ensures ok { OnOk result (Only
            (⟦<MemDisk as Disk>⟧.reads self.old) (⟦<MemDisk as Disk>⟧.images self.new)) }
        ensures reads { ⟦<MemDisk as Disk>⟧.reads self.new ≡ ⟦<MemDisk as Disk>⟧.reads self.old }
        ensures images { LeavesNoMore
            (⟦<MemDisk as Disk>⟧.images self.old) (⟦<MemDisk as Disk>⟧.images self.new) }
        ensures time { Elapses
            (⟦<MemDisk as Disk>⟧.moment self.old) (⟦<MemDisk as Disk>⟧.moment self.new)
            (⟦<MemDisk as Disk>⟧.left_since self.old) (⟦<MemDisk as Disk>⟧.left_since self.new)
            (⟦<MemDisk as Disk>⟧.images self.new) }
        ensures most { ⟦<MemDisk as Disk>⟧.most self.new ≡ ⟦<MemDisk as Disk>⟧.most self.old }
        ensures cause { HasCause
            (⟦<MemDisk as Disk>⟧.faults self.old) (⟦<MemDisk as Disk>⟧.faults self.new) result }

        // It fails at the numbers that are planned, else syncs, or finds no memory. Where it fails, all is as before.
        ensures planned { FailsNext (disk_plan self.old) → IsErr result }
        ensures plan { disk_plan self.new ≡ later_plan (disk_plan self.old) }
        ensures synced { OnOk result (memory_of self.new ≡ synced (memory_of self.old)) }
        ensures unsynced { OnErr result (memory_of self.new ≡ memory_of self.old) }
    {
        if self.schedule.call_fails() {
            return Err(Failed);
        }
        if let Err(AllocError) = record_sync(
            self.alloc,
            &mut self.calls,
            &mut self.base,
            self.bytes.as_slice(),
        ) {
            self.schedule.faults.rise();
            return Err(Failed);
        }
        self.synced = self.calls.len();
        Ok(())
    }

    ghost fits = { λ d _. d.within };

    ghost reads_left = { λ d _. done_is_torn (length d.bytes.items) (drop d.synced d.calls.items)
        d.base.items d.bytes.items d.done d.unsynced };

    ghost counts_now = { λ d t c _ le image. was_now d.first.items d.bytes.items d.base.items d.calls.items
        (drop d.synced d.calls.items) t c d.replays le image };

    ghost only_now = { λ d c _ left. is_now d.first.items d.bytes.items d.base.items d.calls.items
        (drop d.synced d.calls.items) c d.replays left };
}

// Fills as much of `buf` as stands from a place to the end.
fn copy_from(bytes: &[u8], at: u64, buf: &mut [u8]) -> usize
    ensures bound { result ≤ length buf.old }
    ensures bytes { Fills at bytes.now result buf.new }
{
    let rest = bytes.len().saturating_sub(at as usize);
    let count = buf.len().min(rest);
    if count > 0 {
        let from = at as usize;
        buf[..count].copy_from_slice(&bytes[from..from + count]);
    }
    count
}
