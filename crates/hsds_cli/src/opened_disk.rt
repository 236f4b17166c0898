//! A disk that may not have been opened.

ghost use Rattle.std.specs.Prelude.{◌≡◌, ◌+◌, ◌≤◌, ℕ, Option, IfOk, IsErr, OnErr, OnOk, length};
ghost use Rattle.std.specs.Io.{ReadsAtMost};
ghost use Rattle.edge_traits.specs.Causes.{HasCause, Rose};
ghost use Rattle.edge_traits.specs.Disks.{Elapses, ElapsesBy, Fills, Follows, LeavesNoMore, Torn};
ghost use Rattle.edge_traits.specs.Disks.{Written};
ghost use Rattle.hsds_cli.specs.OpenedDisks.{IsMissing, around_of, beside_of, faults_of, has_stopped};
ghost use Rattle.hsds_cli.specs.OpenedDisks.{image_of};
ghost use Rattle.hsds_cli.specs.OpenedDisks.{it_fits, left_of, moment_of, most_of, now_counts};
ghost use Rattle.hsds_cli.specs.OpenedDisks.{now_is_all, opened, reads_are_left, reads_of};

use edge_traits::{Disk, Failed, FaultCount};

/// A disk, where it was opened: then all is as that disk does it. Else it holds nothing and has no room, and each call that
/// can fail does so, and is a fault.
#[derive(Drop)]
pub enum OpenedDisk<D> {
    /// The disk that was opened.
    Opened(D),
    /// None was. The faults are the calls so far.
    Missing(FaultCount),
}

impl<D: Disk> OpenedDisk<D> {
    /// The disk, where one was opened.
    pub fn new(disk: Option<D>) -> OpenedDisk<D>
        ensures { result ≡ opened disk }
    {
        match disk {
            Some(disk) => OpenedDisk::Opened(disk),
            None => OpenedDisk::Missing(FaultCount::new()),
        }
    }
}

// A call of a disk that was not opened.
fn missed<T>(count: &mut FaultCount) -> Result<T, Failed>
    ensures fails { IsErr result }
    ensures counts { Rose count.old count.new }
{
    count.rise();
    Err(Failed)
}

impl<D: Disk> Disk for OpenedDisk<D> {
    ghost honest = { D.honest };

    ghost reads = { λ d. reads_of D.reads d };

    ghost images = { λ d c. image_of D.images d c };

    ghost moment = { λ d. moment_of D.moment d };

    ghost left_since = { λ d t c. left_of D.left_since d t c };

    ghost faults = { λ d. faults_of D.faults d };

    ghost most = { λ d. most_of D.most d };

    ghost Others = { Option D.Others };

    ghost beside = { λ d. beside_of D.beside d };

    ghost beside_since = { λ d t o. around_of D.beside_since d t o };

    ghost stopped = { λ d. has_stopped D.stopped d };

    fn length(&mut self) -> Result<u64, Failed>
        ensures length { D.honest → IfOk result (λ n. n ≡ length (reads_of D.reads self.old)) }
        ensures within { D.honest → IfOk result (λ n. n ≤ most_of D.most self.old) }
        ensures reads { D.honest → reads_of D.reads self.new ≡ reads_of D.reads self.old }
        ensures images { D.honest → LeavesNoMore (⟦<OpenedDisk<D> as Disk>⟧.images self.old)
            (⟦<OpenedDisk<D> as Disk>⟧.images self.new) }
        ensures time { D.honest → Elapses
            (⟦<OpenedDisk<D> as Disk>⟧.moment self.old) (⟦<OpenedDisk<D> as Disk>⟧.moment self.new)
            (⟦<OpenedDisk<D> as Disk>⟧.left_since self.old)
            (⟦<OpenedDisk<D> as Disk>⟧.left_since self.new)
            (⟦<OpenedDisk<D> as Disk>⟧.images self.new) }
        ensures most { most_of D.most self.new ≡ most_of D.most self.old }
        ensures beside { beside_of D.beside self.new ≡ beside_of D.beside self.old }
        ensures around { D.honest → (t : ℕ) (o : Option D.Others)
            → t ≤ ⟦<OpenedDisk<D> as Disk>⟧.moment self.old
            → ⟦<OpenedDisk<D> as Disk>⟧.beside_since self.new t o
            → ⟦<OpenedDisk<D> as Disk>⟧.beside_since self.old t o }
        ensures stopped { ⟦<OpenedDisk<D> as Disk>⟧.stopped self.old
            → ⟦<OpenedDisk<D> as Disk>⟧.stopped self.new }
        ensures cause { HasCause (⟦<OpenedDisk<D> as Disk>⟧.faults self.old)
            (⟦<OpenedDisk<D> as Disk>⟧.faults self.new) result }

        // One that was not opened has no length, so no journal is found there.
        ensures missing { IsMissing self.old → IsErr result }
    {
        match self {
            OpenedDisk::Opened(disk) => disk.length(),
            OpenedDisk::Missing(count) => missed(count),
        }
    }

    fn room(&self) -> u64 {
        match self {
            OpenedDisk::Opened(disk) => disk.room(),
            OpenedDisk::Missing(_) => 0,
        }
    }

    fn read_at(&mut self, at: u64, buf: &mut [u8]) -> Result<usize, Failed>
        ensures bound { ReadsAtMost result buf.old }
        ensures bytes { D.honest → IfOk result (λ n. Fills at (reads_of D.reads self.old) n buf.new) }
        ensures reads { D.honest → reads_of D.reads self.new ≡ reads_of D.reads self.old }
        ensures images { D.honest → LeavesNoMore (⟦<OpenedDisk<D> as Disk>⟧.images self.old)
            (⟦<OpenedDisk<D> as Disk>⟧.images self.new) }
        ensures time { D.honest → Elapses
            (⟦<OpenedDisk<D> as Disk>⟧.moment self.old) (⟦<OpenedDisk<D> as Disk>⟧.moment self.new)
            (⟦<OpenedDisk<D> as Disk>⟧.left_since self.old)
            (⟦<OpenedDisk<D> as Disk>⟧.left_since self.new)
            (⟦<OpenedDisk<D> as Disk>⟧.images self.new) }
        ensures most { most_of D.most self.new ≡ most_of D.most self.old }
        ensures beside { beside_of D.beside self.new ≡ beside_of D.beside self.old }
        ensures around { D.honest → (t : ℕ) (o : Option D.Others)
            → t ≤ ⟦<OpenedDisk<D> as Disk>⟧.moment self.old
            → ⟦<OpenedDisk<D> as Disk>⟧.beside_since self.new t o
            → ⟦<OpenedDisk<D> as Disk>⟧.beside_since self.old t o }
        ensures stopped { ⟦<OpenedDisk<D> as Disk>⟧.stopped self.old
            → ⟦<OpenedDisk<D> as Disk>⟧.stopped self.new }
        ensures cause { HasCause (⟦<OpenedDisk<D> as Disk>⟧.faults self.old)
            (⟦<OpenedDisk<D> as Disk>⟧.faults self.new) result }

        // Of one that was not opened nothing is read.
        ensures missing { IsMissing self.old → IsErr result }
    {
        match self {
            OpenedDisk::Opened(disk) => disk.read_at(at, buf),
            OpenedDisk::Missing(count) => missed(count),
        }
    }

    fn write_at(&mut self, at: u64, bytes: &[u8]) -> Result<(), Failed>
        requires room { at + length bytes.now ≤ most_of D.most self.old }
        requires inside { D.honest → at ≤ length (reads_of D.reads self.old) }
        ensures ok { D.honest → OnOk result (Written at bytes.now (reads_of D.reads self.old)
            (reads_of D.reads self.new)) }
        ensures err { D.honest → OnErr result (Torn at (length bytes.now)
            (reads_of D.reads self.old) (reads_of D.reads self.new)) }
        ensures images { D.honest → Follows (Torn at (length bytes.now))
            (⟦<OpenedDisk<D> as Disk>⟧.images self.old)
            (⟦<OpenedDisk<D> as Disk>⟧.images self.new) }
        ensures time { D.honest → ElapsesBy (Torn at (length bytes.now))
            (⟦<OpenedDisk<D> as Disk>⟧.moment self.old) (⟦<OpenedDisk<D> as Disk>⟧.moment self.new)
            (⟦<OpenedDisk<D> as Disk>⟧.left_since self.old)
            (⟦<OpenedDisk<D> as Disk>⟧.left_since self.new)
            (⟦<OpenedDisk<D> as Disk>⟧.images self.old) }
        ensures most { most_of D.most self.new ≡ most_of D.most self.old }
        ensures beside { beside_of D.beside self.new ≡ beside_of D.beside self.old }
        ensures around { D.honest → (t : ℕ) (o : Option D.Others)
            → t ≤ ⟦<OpenedDisk<D> as Disk>⟧.moment self.old
            → ⟦<OpenedDisk<D> as Disk>⟧.beside_since self.new t o
            → ⟦<OpenedDisk<D> as Disk>⟧.beside_since self.old t o }
        ensures stopped { ⟦<OpenedDisk<D> as Disk>⟧.stopped self.old
            → ⟦<OpenedDisk<D> as Disk>⟧.stopped self.new }
        ensures cause { HasCause (⟦<OpenedDisk<D> as Disk>⟧.faults self.old)
            (⟦<OpenedDisk<D> as Disk>⟧.faults self.new) result }

        // Of one that was not opened nothing is written.
        ensures missing { IsMissing self.old → IsErr result }
    {
        match self {
            OpenedDisk::Opened(disk) => disk.write_at(at, bytes),
            OpenedDisk::Missing(count) => missed(count),
        }
    }

    fn sync(&mut self) -> Result<(), Failed> {
        match self {
            OpenedDisk::Opened(disk) => disk.sync(),
            OpenedDisk::Missing(count) => missed(count),
        }
    }

    ghost fits = { λ d told. it_fits D.reads D.most (λ disk. D.fits disk told) d };

    ghost reads_left = { λ d told. reads_are_left D.reads D.images (λ disk. D.reads_left disk told) d };

    ghost counts_now = { λ d t c told le image. now_counts D.moment D.images D.left_since
        (λ disk t c le image. D.counts_now disk t c told le image) d t c le image };

    ghost only_now = { λ d c told past. now_is_all D.moment D.images D.left_since
        (λ disk c past. D.only_now disk c told past) d c past };
}
