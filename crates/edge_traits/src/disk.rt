ghost use Rattle.std.specs.Prelude.{◌≡◌, ℕ, ◌+◌, ◌≤◌, List, length, IfOk, IsErr, OnOk, OnErr};
ghost use Rattle.std.specs.Io.{ReadsAtMost};
ghost use Rattle.edge_traits.specs.Causes.{HasCause};
ghost use Rattle.edge_traits.specs.Disks.{Written, Torn, Fills, LeavesNoMore, Follows, Only, Elapses, ElapsesBy};

use crate::Failed;

/// A row of bytes that outlasts the program. What was written since the last sync may be torn by a crash: each range
/// that was written, and the part past the old end, may then hold any bytes, and all others stay.
///
/// What a disk holds is told only where `honest` holds, so each clause on it stands under that premise. Its faults, its
/// room and what stands beside it are told by each disk.
pub trait Disk {
    /// That the disk tells what it holds, and obeys the rule of crashes.
    ghost honest: { Type 0 };

    /// The bytes that reads give.
    ghost reads: { Self → List ℕ };

    /// The images that a crash now may leave.
    ghost images: { Self → List ℕ → Type 0 };

    /// This moment, as a number that never falls.
    ghost moment: { Self → ℕ };

    /// The images that a crash at that moment or later, inside a call or between two, might have left.
    ghost left_since: { Self → ℕ → List ℕ → Type 0 };

    /// How many faults the disk has had.
    ghost faults: { Self → ℕ };

    /// The greatest length.
    ghost most: { Self → ℕ };

    /// The type of what stands beside the disk in the same object.
    ghost Others: { Type 0 };

    /// What stands beside the disk in the same object, as what reads give of another area of the same file. No call of
    /// the disk changes it.
    ghost beside: { Self → Others };

    /// What a crash at that moment or later might have left beside the disk.
    ghost beside_since: { Self → ℕ → Others → Type 0 };

    /// The disk has stopped: each later sync fails. A disk that never stops needs no meaning here.
    ghost stopped: { Self → Type 0 } = { λ _. ⊥ };

    /// The length of what reads give.
    ///
    /// # Errors
    ///
    /// `Failed` where the disk had a fault.
    fn length(&mut self) -> Result<u64, Failed>
        ensures length { honest → IfOk result (λ n. n ≡ length (reads self.old)) }
        ensures within { honest → IfOk result (λ n. n ≤ most self.old) }
        ensures reads { honest → reads self.new ≡ reads self.old }
        ensures images { honest → LeavesNoMore (images self.old) (images self.new) }
        ensures time { honest → Elapses (moment self.old) (moment self.new)
            (left_since self.old) (left_since self.new) (images self.new) }
        ensures most { most self.new ≡ most self.old }
        ensures beside { beside self.new ≡ beside self.old }
        ensures around { honest → (t : ℕ) (o : Others) → t ≤ moment self.old
            → beside_since self.new t o → beside_since self.old t o }
        ensures stopped { stopped self.old → stopped self.new }
        ensures cause { HasCause (faults self.old) (faults self.new) result };

    /// The greatest length, which never changes.
    fn room(&self) -> u64
        ensures { result ≡ most self.now };

    /// Fills as much of `buf` as stands from `at` to the end, and answers how many bytes that is.
    ///
    /// # Errors
    ///
    /// `Failed` where the disk had a fault. Then `buf` may hold any bytes.
    fn read_at(&mut self, at: u64, buf: &mut [u8]) -> Result<usize, Failed>
        ensures bound { ReadsAtMost result buf.old }
        ensures bytes { honest → IfOk result (λ n. Fills at (reads self.old) n buf.new) }
        ensures reads { honest → reads self.new ≡ reads self.old }
        ensures images { honest → LeavesNoMore (images self.old) (images self.new) }
        ensures time { honest → Elapses (moment self.old) (moment self.new)
            (left_since self.old) (left_since self.new) (images self.new) }
        ensures most { most self.new ≡ most self.old }
        ensures beside { beside self.new ≡ beside self.old }
        ensures around { honest → (t : ℕ) (o : Others) → t ≤ moment self.old
            → beside_since self.new t o → beside_since self.old t o }
        ensures stopped { stopped self.old → stopped self.new }
        ensures cause { HasCause (faults self.old) (faults self.new) result };

    /// Writes over what stands there, and past the end.
    ///
    /// # Errors
    ///
    /// `Failed` where the disk had a fault. Then the range may read as any bytes.
    fn write_at(&mut self, at: u64, bytes: &[u8]) -> Result<(), Failed>
        requires room { at + length bytes.now ≤ most self.old }
        requires inside { honest → at ≤ length (reads self.old) }
        ensures ok { honest → OnOk result (Written at bytes.now (reads self.old) (reads self.new)) }
        ensures err { honest → OnErr result (Torn at (length bytes.now) (reads self.old) (reads self.new)) }
        ensures images { honest → Follows (Torn at (length bytes.now)) (images self.old) (images self.new) }
        ensures time { honest → ElapsesBy (Torn at (length bytes.now)) (moment self.old) (moment self.new)
            (left_since self.old) (left_since self.new) (images self.old) }
        ensures most { most self.new ≡ most self.old }
        ensures beside { beside self.new ≡ beside self.old }
        ensures around { honest → (t : ℕ) (o : Others) → t ≤ moment self.old
            → beside_since self.new t o → beside_since self.old t o }
        ensures stopped { stopped self.old → stopped self.new }
        ensures cause { HasCause (faults self.old) (faults self.new) result };

    /// After `Ok` a crash leaves what reads give.
    ///
    /// # Errors
    ///
    /// `Failed` where the disk had a fault. Then a crash may leave what it could leave before.
    fn sync(&mut self) -> Result<(), Failed>
        ensures ok { honest → OnOk result (Only (reads self.old) (images self.new)) }
        ensures reads { honest → reads self.new ≡ reads self.old }
        ensures images { honest → LeavesNoMore (images self.old) (images self.new) }
        ensures time { honest → Elapses (moment self.old) (moment self.new)
            (left_since self.old) (left_since self.new) (images self.new) }
        ensures most { most self.new ≡ most self.old }
        ensures beside { beside self.new ≡ beside self.old }
        ensures around { honest → (t : ℕ) (o : Others) → t ≤ moment self.old
            → beside_since self.new t o → beside_since self.old t o }
        ensures refuses { stopped self.old → IsErr result }
        ensures stopped { stopped self.old → stopped self.new }
        ensures cause { HasCause (faults self.old) (faults self.new) result };

    /// What reads give is no longer than the greatest length.
    ghost fits: { (disk : Self) → honest → length (reads disk) ≤ most disk };

    /// A crash may leave what reads give.
    ghost reads_left: { (disk : Self) → honest → images disk (reads disk) };

    /// This moment is one of those since an earlier one.
    ghost counts_now: { (disk : Self) (t : ℕ) (c : List ℕ) → honest → t ≤ moment disk → images disk c
        → left_since disk t c };

    /// Since this moment there is no other.
    ghost only_now: { (disk : Self) (c : List ℕ) → honest → left_since disk (moment disk) c → images disk c };
}
