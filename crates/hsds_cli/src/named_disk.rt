//! A disk over a file whose name may be new.

ghost use Rattle.std.specs.Prelude.{◌≡◌, ◌⊎◌, ◌+◌, ◌≤◌, ℕ, IsErr, OnOk};
ghost use Rattle.edge_traits.specs.Causes.{HasCause};
ghost use Rattle.edge_traits.specs.Disks.{Elapses, LeavesNoMore, Only};
ghost use Rattle.hsds_cli.specs.NamedDisks.{IsFolderKept, IsFolderStopped, file_of, folder_faults};
ghost use Rattle.hsds_cli.specs.NamedDisks.{folder_of};

use edge_traits::{Disk, Failed};

/// A disk over a file, and the folder that has its name where the name is new. A file that was just made is gone after a
/// crash where its folder wasn't synced; so each sync is one of the folder too, and all else is as the disk over the file
/// does it.
#[derive(Drop)]
pub struct NamedDisk<D, F> {
    file: D,
    folder: Option<F>,
}

impl<D: Disk, F: Disk> NamedDisk<D, F> {
    /// This file, in this folder where its name may be new.
    pub fn new(file: D, folder: Option<F>) -> NamedDisk<D, F>
        ensures file { file_of result ≡ file }
        ensures folder { folder_of result ≡ folder }
    {
        NamedDisk { file, folder }
    }
}

// Syncs a folder, where there is one.
fn sync_folder<F: Disk>(folder: &mut Option<F>) -> Result<(), Failed>
    ensures kept { F.honest → OnOk result (IsFolderKept F.Disk folder.old folder.new) }
    ensures refuses { IsFolderStopped F.Disk folder.old → IsErr result }
    ensures stopped { IsFolderStopped F.Disk folder.old → IsFolderStopped F.Disk folder.new }
    ensures cause { HasCause (folder_faults F.Disk folder.old) (folder_faults F.Disk folder.new) result }
{
    match folder {
        Some(folder) => folder.sync(),
        None => Ok(()),
    }
}

impl<D: Disk, F: Disk> Disk for NamedDisk<D, F> {
    ghost honest = { D.honest };

    ghost reads = { λ d. D.reads (file_of d) };

    ghost images = { λ d. D.images (file_of d) };

    ghost moment = { λ d. D.moment (file_of d) };

    ghost left_since = { λ d. D.left_since (file_of d) };

    ghost faults = { λ d. D.faults (file_of d) + folder_faults F.Disk (folder_of d) };

    ghost most = { λ d. D.most (file_of d) };

    ghost Others = { D.Others };

    ghost beside = { λ d. D.beside (file_of d) };

    ghost beside_since = { λ d. D.beside_since (file_of d) };

    ghost stopped = { λ d. D.stopped (file_of d) ⊎ IsFolderStopped F.Disk (folder_of d) };

    fn length(&mut self) -> Result<u64, Failed> {
        self.file.length()
    }

    fn room(&self) -> u64 {
        self.file.room()
    }

    fn read_at(&mut self, at: u64, buf: &mut [u8]) -> Result<usize, Failed> {
        self.file.read_at(at, buf)
    }

    fn write_at(&mut self, at: u64, bytes: &[u8]) -> Result<(), Failed> {
        self.file.write_at(at, bytes)
    }

    fn sync(&mut self) -> Result<(), Failed>
        ensures ok { D.honest → OnOk result
            (Only (D.reads (file_of self.old)) (D.images (file_of self.new))) }
        ensures reads { D.honest → D.reads (file_of self.new) ≡ D.reads (file_of self.old) }
        ensures images { D.honest → LeavesNoMore
            (D.images (file_of self.old)) (D.images (file_of self.new)) }
        ensures time { D.honest → Elapses
            (D.moment (file_of self.old)) (D.moment (file_of self.new))
            (D.left_since (file_of self.old)) (D.left_since (file_of self.new))
            (D.images (file_of self.new)) }
        ensures most { D.most (file_of self.new) ≡ D.most (file_of self.old) }
        ensures beside { D.beside (file_of self.new) ≡ D.beside (file_of self.old) }
        ensures around { D.honest → (t : ℕ) (o : D.Others) → t ≤ D.moment (file_of self.old)
            → D.beside_since (file_of self.new) t o → D.beside_since (file_of self.old) t o }
        ensures refuses { ⟦<NamedDisk<D, F> as Disk>⟧.stopped self.old → IsErr result }
        ensures stopped { ⟦<NamedDisk<D, F> as Disk>⟧.stopped self.old
            → ⟦<NamedDisk<D, F> as Disk>⟧.stopped self.new }
        ensures cause { HasCause (⟦<NamedDisk<D, F> as Disk>⟧.faults self.old)
            (⟦<NamedDisk<D, F> as Disk>⟧.faults self.new) result }

        // After `Ok` a crash leaves the folder as it reads, and so the file's name in it.
        ensures folder { F.honest → OnOk result
            (IsFolderKept F.Disk (folder_of self.old) (folder_of self.new)) }
    {
        self.file.sync()?;
        sync_folder(&mut self.folder)
    }

    ghost fits = { λ d told. D.fits (file_of d) told };

    ghost reads_left = { λ d told. D.reads_left (file_of d) told };

    ghost counts_now = { λ d t c told le image. D.counts_now (file_of d) t c told le image };

    ghost only_now = { λ d c told left. D.only_now (file_of d) c told left };
}
