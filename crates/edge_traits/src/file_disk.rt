ghost use Rattle.std.specs.Prelude.{◌≡◌, ◌≤◌, ◌+◌, ◌^◌, ℕ, List, [], length, OnOk, OnErr, IsErr, true, false};
ghost use Rattle.std.specs.Io.{ReadsAtMost};
ghost use Rattle.edge_traits.specs.Causes.{HasCause};

use crate::faults::FaultCount;
use crate::{Disk, FailStop, Failed};
use std::fs::File;
use std::io::ErrorKind;
use std::os::unix::fs::FileExt;

const ROOM: u64 = 1 << 40;

// A file of the system as a disk, which asks for each sync anew.
#[derive(Drop)]
struct SystemFile {
    file: File,
    count: FaultCount,
}

impl SystemFile {
    // Fills as much of `buf` as the system gives.
    fn fill(&mut self, at: u64, buf: &mut [u8]) -> Result<usize, Failed>
        ensures bound { ReadsAtMost result buf.old }
        ensures cause { HasCause self.old.count self.new.count result }
    {
        let mut count = 0;
        for _ in 0..u64::MAX {
            if count >= buf.len() {
                break;
            }
            match self
                .file
                .read_at(&mut buf[count..], at.wrapping_add(count as u64))
            {
                Ok(0) => break,
                Ok(more) => count += more,
                Err(e) if e.kind() == ErrorKind::Interrupted => {}
                Err(_) => {
                    self.count.rise();
                    return Err(Failed);
                }
            }
        }
        Ok(count)
    }
}

impl Disk for SystemFile {
    ghost honest = { ⊥ };

    ghost reads = { λ _. [] };

    ghost images = { λ _ _. Unit {0} };

    ghost moment = { λ _. 0 };

    ghost left_since = { λ _ _ _. Unit {0} };

    ghost faults = { λ d. d.count };

    ghost most = { λ _. 2 ^ 40 };

    ghost Others = { Unit {0} };

    ghost beside = { λ _. tt };

    ghost beside_since = { λ _ _ _. Unit {0} };

    fn length(&mut self) -> Result<u64, Failed> {
        match self.file.metadata() {
            Ok(metadata) => Ok(metadata.len()),
            Err(_) => {
                self.count.rise();
                Err(Failed)
            }
        }
    }

    fn room(&self) -> u64 {
        ROOM
    }

    // Where the system gives less than stands by the file's length, that is a fault.
    fn read_at(&mut self, at: u64, buf: &mut [u8]) -> Result<usize, Failed> {
        let count = self.fill(at, buf)?;
        if count < buf.len() && at.saturating_add(count as u64) < self.length()? {
            self.count.rise();
            return Err(Failed);
        }
        Ok(count)
    }

    fn write_at(&mut self, at: u64, bytes: &[u8]) -> Result<(), Failed> {
        if self.file.write_all_at(bytes, at).is_err() {
            self.count.rise();
            return Err(Failed);
        }
        Ok(())
    }

    fn sync(&mut self) -> Result<(), Failed> {
        if self.file.sync_all().is_err() {
            self.count.rise();
            return Err(Failed);
        }
        Ok(())
    }

    ghost fits = { λ _ told. absurd told };

    ghost reads_left = { λ _ told. absurd told };

    ghost counts_now = { λ _ _ _ told _ _. absurd told };

    ghost only_now = { λ _ _ told _. absurd told };
}

/// A disk over a file of the system, with room for 2^40 bytes. It tells nothing of what it holds, and counts its
/// faults. A read that brings less than stands by the file's length is a fault, and once a sync failed each later one
/// is.
#[derive(Drop)]
pub struct FileDisk {
    disk: FailStop<SystemFile>,
}

impl FileDisk {
    ghost use Rattle.edge_traits.specs.FileDisks.{file_has_stopped};

    /// A disk over a file that is open for reading and writing, with no fault yet.
    pub fn new(file: File) -> FileDisk
        ensures faults { ⟦<FileDisk as Disk>⟧.faults result ≡ 0 }
        ensures running { file_has_stopped result ≡ false }
    {
        let count = FaultCount::new();
        FileDisk {
            disk: FailStop::new(SystemFile { file, count }),
        }
    }
}

impl Disk for FileDisk {
    ghost use Rattle.edge_traits.specs.FileDisks.{file_has_stopped};

    ghost honest = { ⊥ };

    ghost reads = { λ _. [] };

    ghost images = { λ _ _. Unit {0} };

    ghost moment = { λ _. 0 };

    ghost left_since = { λ _ _ _. Unit {0} };

    ghost faults = { λ d. ⟦<FailStop<SystemFile> as Disk>⟧.faults d.disk };

    ghost most = { λ _. 2 ^ 40 };

    ghost stopped = { λ d. file_has_stopped d ≡ true };

    ghost Others = { Unit {0} };

    ghost beside = { λ _. tt };

    ghost beside_since = { λ _ _ _. Unit {0} };

    fn length(&mut self) -> Result<u64, Failed>
        ensures cause { HasCause
            (⟦<FileDisk as Disk>⟧.faults self.old) (⟦<FileDisk as Disk>⟧.faults self.new) result }
        ensures stopped { file_has_stopped self.new ≡ file_has_stopped self.old }
    {
        self.disk.length()
    }

    fn room(&self) -> u64 {
        self.disk.room()
    }

    fn read_at(&mut self, at: u64, buf: &mut [u8]) -> Result<usize, Failed>
        ensures bound { ReadsAtMost result buf.old }
        ensures cause { HasCause
            (⟦<FileDisk as Disk>⟧.faults self.old) (⟦<FileDisk as Disk>⟧.faults self.new) result }
        ensures stopped { file_has_stopped self.new ≡ file_has_stopped self.old }
    {
        self.disk.read_at(at, buf)
    }

    fn write_at(&mut self, at: u64, bytes: &[u8]) -> Result<(), Failed>
        requires { at + length bytes.now ≤ 2 ^ 40 }
        ensures cause { HasCause
            (⟦<FileDisk as Disk>⟧.faults self.old) (⟦<FileDisk as Disk>⟧.faults self.new) result }
        ensures stopped { file_has_stopped self.new ≡ file_has_stopped self.old }
    {
        self.disk.write_at(at, bytes)
    }

    fn sync(&mut self) -> Result<(), Failed>
        ensures cause { HasCause
            (⟦<FileDisk as Disk>⟧.faults self.old) (⟦<FileDisk as Disk>⟧.faults self.new) result }
        ensures running { OnOk result (file_has_stopped self.new ≡ false) }
        ensures stops { OnErr result (file_has_stopped self.new ≡ true) }
        ensures stopped { file_has_stopped self.old ≡ true → file_has_stopped self.new ≡ true }
        ensures refuses { file_has_stopped self.old ≡ true → IsErr result }
    {
        self.disk.sync()
    }

    ghost fits = { λ _ told. absurd told };

    ghost reads_left = { λ _ told. absurd told };

    ghost counts_now = { λ _ _ _ told _ _. absurd told };

    ghost only_now = { λ _ _ told _. absurd told };
}
