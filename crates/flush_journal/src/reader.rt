// A disk that is read.
ghost use Rattle.std.specs.Prelude.{◌≡◌, ◌+◌, ◌<◌, ◌≤◌, length, take, drop, IfOk, IfErr, OnOk, IsTrue, MatchResult, true, false};
ghost use Rattle.edge_traits.specs.Causes.{HasCause, Rose};
ghost use Rattle.edge_traits.specs.Disks.{Only};
ghost use Rattle.flush_journal.specs.Reading.{Shows};
ghost use Rattle.flush_journal.specs.Unchanged.{SameBytes, SameDisk};

use crate::{JournalRefused, Why};
use edge_traits::{Disk, Failed};
use std::alloc::Global;

// How many bytes are read at once, where there are so many.
const PIECE: u64 = 1 << 18;

// A disk that is only read, its length, and the bytes that were read last and the place that they are from.
#[derive(Drop)]
pub struct Reader<D: Disk> {
    disk: D,
    end: u64,
    from: u64,
    bytes: Vec<u8>,
    ghost whole: { D.honest → end ≡ length (D.reads disk) },
    ghost shown: { D.honest → Shows (D.reads disk) from bytes.items },
}

impl<D: Disk> Reader<D> {
    ghost use Rattle.flush_journal.specs.Readers.{disk_in, file_of, end_of_file, Has, GoesOn, MayFail};

    // Syncs a disk, to read it.
    pub fn open(alloc: Global, mut disk: D) -> Result<Reader<D>, JournalRefused<D>>
        ensures same { MatchResult result (λ r. SameDisk D.Disk disk (disk_in r))
            (λ r. SameDisk D.Disk disk r.disk) }
        ensures bytes { D.honest → MatchResult result (λ r. SameBytes D.Disk disk (disk_in r))
            (λ r. SameBytes D.Disk disk r.disk) }
        ensures synced { D.honest → IfOk result (λ r. Only (D.reads disk) (D.images (disk_in r))) }
        ensures fault { IfErr result (λ r. r.why ≡ Why.DiskFault) }
        ensures cause { IfErr result (λ r. Rose (D.faults disk) (D.faults r.disk)) }
    {
        match synced_length(&mut disk) {
            Ok(end) => Ok(Reader {
                disk,
                end,
                from: 0,
                bytes: Vec::new(alloc),
            }),
            Err(Failed) => Err(JournalRefused {
                disk,
                why: Why::DiskFault,
            }),
        }
    }

    // The file's length.
    pub fn end(&self) -> u64
        ensures { result ≡ end_of_file self.now }
    {
        self.end
    }

    // The disk.
    pub fn into_disk(self) -> D
        ensures { result ≡ disk_in self }
    {
        self.disk
    }

    // Whether the file has so many bytes at this place.
    pub fn reaches(&self, at: u64, size: u64) -> bool
        ensures inside { IsTrue result → at + size ≤ end_of_file self.now }
        ensures beyond { D.honest → result ≡ false → length (file_of self.now) < at + size }
    {
        at <= self.end && size <= self.end - at
    }

    // Has so many bytes at this place, or says that the file ends before.
    pub fn fill(&mut self, at: u64, size: u64) -> Result<bool, Why>
        ensures on { GoesOn self.old self.new }
        ensures has { IfOk result (λ b. b ≡ true → Has self.new at size) }
        ensures inside { IfOk result (λ b. b ≡ true → at + size ≤ end_of_file self.new) }
        ensures beyond { D.honest → IfOk result (λ b. b ≡ false
            → length (file_of self.old) < at + size) }
        ensures why { IfErr result (MayFail self.old self.new) }
    {
        if !self.reaches(at, size) {
            return Ok(false);
        }
        if self.from <= at {
            let skip = at - self.from;
            let have = self.bytes.len() as u64;
            if skip <= have && size <= have - skip {
                return Ok(true);
            }
        }
        let want = size.max(PIECE).min(self.end - at);
        let count = self.load(at, want as usize)?;
        Ok(size <= count as u64)
    }

    // Reads so many bytes from a place on, or as many as there are.
    fn load(&mut self, at: u64, want: usize) -> Result<usize, Why>
        ensures on { GoesOn self.old self.new }
        ensures has { IfOk result (λ n. Has self.new at n) }
        ensures count { D.honest → IfOk result
            (λ n. n ≡ length (take want (drop at (file_of self.old)))) }
        ensures why { IfErr result (MayFail self.old self.new) }
    {
        self.bytes.clear();
        self.from = at;
        self.bytes.resize(want, 0)?;
        match self.disk.read_at(at, self.bytes.as_mut_slice()) {
            Ok(count) => {
                self.bytes.truncate(count);
                Ok(self.bytes.len())
            }
            Err(Failed) => {
                self.bytes.clear();
                Err(Why::DiskFault)
            }
        }
    }

    // So many bytes at this place.
    pub fn slice(&self, at: u64, size: usize) -> &[u8]
        requires { Has self.now at size }
        ensures length { length result.now ≡ size }
        ensures bytes { D.honest → result.now ≡ take size (drop at (file_of self.now)) }
    {
        let start = (at - self.from) as usize;
        &self.bytes[start..start + size]
    }
}

// Syncs a disk, and asks for its length.
fn synced_length<D: Disk>(disk: &mut D) -> Result<u64, Failed>
    ensures same { SameDisk D.Disk disk.old disk.new }
    ensures bytes { D.honest → SameBytes D.Disk disk.old disk.new }
    ensures synced { D.honest → OnOk result (Only (D.reads disk.old) (D.images disk.new)) }
    ensures length { D.honest → IfOk result (λ n. n ≡ length (D.reads disk.old)) }
    ensures cause { HasCause (D.faults disk.old) (D.faults disk.new) result }
{
    disk.sync()?;
    disk.length()
}
