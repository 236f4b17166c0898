// A disk of which a failed sync is never forgotten.
ghost use Rattle.std.specs.Prelude.{◌≡◌, ℕ, ◌+◌, ◌≤◌, List, length, true, false};
ghost use Rattle.std.specs.Prelude.{IfOk, OnOk, OnErr, IsErr};
ghost use Rattle.std.specs.Io.{ReadsAtMost};
ghost use Rattle.edge_traits.specs.Causes.{HasCause};
ghost use Rattle.edge_traits.specs.Disks.{Written, Torn, Fills, LeavesNoMore, Follows, Only, Elapses, ElapsesBy};

use crate::faults::FaultCount;
use crate::{Disk, Failed};

/// A disk that remembers that a sync failed: from then on each sync is a fault, whatever the disk inside would answer,
/// so that nothing that was written since is taken as kept. Some systems drop what a failed sync could not write, and
/// answer the next one with success. All else is as the disk inside does it.
#[derive(Drop)]
pub struct FailStop<D> {
    disk: D,
    stopped: bool,
    refused: FaultCount,
}

impl<D: Disk> FailStop<D> {
    ghost use Rattle.edge_traits.specs.FailStops.{inside, has_stopped};

    /// This disk, of which no sync has failed.
    pub fn new(disk: D) -> FailStop<D>
        ensures inside { inside result ≡ disk }
        ensures faults { ⟦<FailStop<D> as Disk>⟧.faults result ≡ D.faults disk }
        ensures running { has_stopped result ≡ false }
    {
        FailStop {
            disk,
            stopped: false,
            refused: FaultCount::new(),
        }
    }

    /// The disk inside.
    pub fn disk(&self) -> &D
        ensures { result.now ≡ inside self.now }
    {
        &self.disk
    }
}

impl<D: Disk> Disk for FailStop<D> {
    ghost use Rattle.edge_traits.specs.FailStops.{inside, has_stopped};

    ghost honest = { D.honest };

    ghost reads = { λ d. D.reads (inside d) };

    ghost images = { λ d. D.images (inside d) };

    ghost moment = { λ d. D.moment (inside d) };

    ghost left_since = { λ d. D.left_since (inside d) };

    ghost faults = { λ d. D.faults (inside d) + d.refused };

    ghost most = { λ d. D.most (inside d) };

    ghost Others = { D.Others };

    ghost beside = { λ d. D.beside (inside d) };

    ghost beside_since = { λ d. D.beside_since (inside d) };

    ghost stopped = { λ d. has_stopped d ≡ true };

    fn length(&mut self) -> Result<u64, Failed>
        ensures length { D.honest → IfOk result (λ n. n ≡ length (D.reads (inside self.old))) }
        ensures within { D.honest → IfOk result (λ n. n ≤ D.most (inside self.old)) }
        ensures reads { D.honest → D.reads (inside self.new) ≡ D.reads (inside self.old) }
        ensures images { D.honest → LeavesNoMore
            (D.images (inside self.old)) (D.images (inside self.new)) }
        ensures time { D.honest → Elapses
            (D.moment (inside self.old)) (D.moment (inside self.new))
            (D.left_since (inside self.old)) (D.left_since (inside self.new))
            (D.images (inside self.new)) }
        ensures most { D.most (inside self.new) ≡ D.most (inside self.old) }
        ensures beside { D.beside (inside self.new) ≡ D.beside (inside self.old) }
        ensures around { D.honest → (t : ℕ) (o : D.Others) → t ≤ D.moment (inside self.old)
            → D.beside_since (inside self.new) t o → D.beside_since (inside self.old) t o }
        ensures cause { HasCause (⟦<FailStop<D> as Disk>⟧.faults self.old)
            (⟦<FailStop<D> as Disk>⟧.faults self.new) result }
        ensures asked { HasCause (D.faults (inside self.old)) (D.faults (inside self.new)) result }
        ensures stopped { has_stopped self.new ≡ has_stopped self.old }
    {
        self.disk.length()
    }

    fn room(&self) -> u64 {
        self.disk.room()
    }

    fn read_at(&mut self, at: u64, buf: &mut [u8]) -> Result<usize, Failed>
        ensures bound { ReadsAtMost result buf.old }
        ensures bytes { D.honest → IfOk result (λ n.
            Fills at (D.reads (inside self.old)) n buf.new) }
        ensures reads { D.honest → D.reads (inside self.new) ≡ D.reads (inside self.old) }
        ensures images { D.honest → LeavesNoMore
            (D.images (inside self.old)) (D.images (inside self.new)) }
        ensures time { D.honest → Elapses
            (D.moment (inside self.old)) (D.moment (inside self.new))
            (D.left_since (inside self.old)) (D.left_since (inside self.new))
            (D.images (inside self.new)) }
        ensures most { D.most (inside self.new) ≡ D.most (inside self.old) }
        ensures beside { D.beside (inside self.new) ≡ D.beside (inside self.old) }
        ensures around { D.honest → (t : ℕ) (o : D.Others) → t ≤ D.moment (inside self.old)
            → D.beside_since (inside self.new) t o → D.beside_since (inside self.old) t o }
        ensures cause { HasCause (⟦<FailStop<D> as Disk>⟧.faults self.old)
            (⟦<FailStop<D> as Disk>⟧.faults self.new) result }
        ensures asked { HasCause (D.faults (inside self.old)) (D.faults (inside self.new)) result }
        ensures stopped { has_stopped self.new ≡ has_stopped self.old }
    {
        self.disk.read_at(at, buf)
    }

    fn write_at(&mut self, at: u64, bytes: &[u8]) -> Result<(), Failed>
        requires room { at + length bytes.now ≤ D.most (inside self.old) }
        requires inside { D.honest → at ≤ length (D.reads (inside self.old)) }
        ensures ok { D.honest → OnOk result (Written at bytes.now
            (D.reads (inside self.old)) (D.reads (inside self.new))) }
        ensures err { D.honest → OnErr result (Torn at (length bytes.now)
            (D.reads (inside self.old)) (D.reads (inside self.new))) }
        ensures images { D.honest → Follows (Torn at (length bytes.now))
            (D.images (inside self.old)) (D.images (inside self.new)) }
        ensures time { D.honest → ElapsesBy (Torn at (length bytes.now))
            (D.moment (inside self.old)) (D.moment (inside self.new))
            (D.left_since (inside self.old)) (D.left_since (inside self.new))
            (D.images (inside self.old)) }
        ensures most { D.most (inside self.new) ≡ D.most (inside self.old) }
        ensures beside { D.beside (inside self.new) ≡ D.beside (inside self.old) }
        ensures around { D.honest → (t : ℕ) (o : D.Others) → t ≤ D.moment (inside self.old)
            → D.beside_since (inside self.new) t o → D.beside_since (inside self.old) t o }
        ensures cause { HasCause (⟦<FailStop<D> as Disk>⟧.faults self.old)
            (⟦<FailStop<D> as Disk>⟧.faults self.new) result }
        ensures asked { HasCause (D.faults (inside self.old)) (D.faults (inside self.new)) result }
        ensures stopped { has_stopped self.new ≡ has_stopped self.old }
    {
        self.disk.write_at(at, bytes)
    }

    fn sync(&mut self) -> Result<(), Failed>
        ensures ok { D.honest → OnOk result
            (Only (D.reads (inside self.old)) (D.images (inside self.new))) }
        ensures reads { D.honest → D.reads (inside self.new) ≡ D.reads (inside self.old) }
        ensures images { D.honest → LeavesNoMore
            (D.images (inside self.old)) (D.images (inside self.new)) }
        ensures time { D.honest → Elapses
            (D.moment (inside self.old)) (D.moment (inside self.new))
            (D.left_since (inside self.old)) (D.left_since (inside self.new))
            (D.images (inside self.new)) }
        ensures most { D.most (inside self.new) ≡ D.most (inside self.old) }
        ensures beside { D.beside (inside self.new) ≡ D.beside (inside self.old) }
        ensures around { D.honest → (t : ℕ) (o : D.Others) → t ≤ D.moment (inside self.old)
            → D.beside_since (inside self.new) t o → D.beside_since (inside self.old) t o }
        ensures cause { HasCause (⟦<FailStop<D> as Disk>⟧.faults self.old)
            (⟦<FailStop<D> as Disk>⟧.faults self.new) result }

        // Once it failed it always fails, and the disk inside isn't asked; until then that disk answers.
        ensures asked { has_stopped self.old ≡ false
            → HasCause (D.faults (inside self.old)) (D.faults (inside self.new)) result }
        ensures running { OnOk result (has_stopped self.new ≡ false) }
        ensures stops { OnErr result (has_stopped self.new ≡ true) }
        ensures stopped { has_stopped self.old ≡ true → has_stopped self.new ≡ true }
        ensures refuses { has_stopped self.old ≡ true → IsErr result }
        ensures unasked { has_stopped self.old ≡ true → inside self.new ≡ inside self.old }
    {
        if self.stopped {
            self.refused.rise();
            return Err(Failed);
        }
        if let Err(Failed) = self.disk.sync() {
            self.stopped = true;
            return Err(Failed);
        }
        Ok(())
    }

    ghost fits = { λ d told. D.fits (inside d) told };

    ghost reads_left = { λ d told. D.reads_left (inside d) told };

    ghost counts_now = { λ d t c told le image. D.counts_now (inside d) t c told le image };

    ghost only_now = { λ d c told left. D.only_now (inside d) c told left };
}
