// The two writes of a batch: the frame behind the closed marker, and then the marker.
ghost use Rattle.std.specs.Prelude.{◌≡◌, ◌==◌, ℕ, ◌+◌, ◌^◌, ◌≤◌, ◌<◌, List, length, slice_index, IfOk, IsErr, OnOk};
ghost use Rattle.edge_traits.specs.Causes.{HasCause};
ghost use Rattle.edge_traits.specs.Disks.{Elapses, LeavesNoMore};
ghost use Rattle.flush_journal.specs.Markers.{HasClosedMarker, IsLaid, HasOpenMarker, Either};
ghost use Rattle.flush_journal.specs.Markers.{AllHave, OnlyHas, MarkerStands, EndsInClosedMarker};
ghost use Rattle.flush_journal.specs.Moments.{CrashLeaves};
ghost use Rattle.flush_journal.specs.Unchanged.{SameDisk};

use edge_traits::{Disk, Failed};

// A marker is open exactly where it is this byte.
pub const OPEN: u8 = 1;

// Writes a frame behind the closed marker, and syncs.
fn lay<D: Disk>(disk: &mut D, end: u64, frame: &[u8]) -> Result<(), Failed>
    requires fits { end + 1 < 2 ^ 64 }
    requires room { end + 1 + length frame.now ≤ D.most disk.old }
    requires inside { D.honest → end < length (D.reads disk.old) }
    ensures kept { D.honest → (front : List ℕ) → length front ≡ end
        → OnlyHas (HasClosedMarker front) (D.reads disk.old) (D.images disk.old)
        → AllHave (HasClosedMarker front) (D.reads disk.new) (D.images disk.new) }
    ensures moments { D.honest → (front : List ℕ) → length front ≡ end
        → OnlyHas (HasClosedMarker front) (D.reads disk.old) (D.images disk.old)
        → CrashLeaves D.Disk disk.old disk.new (HasClosedMarker front) }
    ensures ok { D.honest → (front : List ℕ) → length front ≡ end
        → OnlyHas (HasClosedMarker front) (D.reads disk.old) (D.images disk.old)
        → OnOk result (OnlyHas (IsLaid front frame.now) (D.reads disk.new) (D.images disk.new)) }
    ensures reads { D.honest → (front : List ℕ) → length front ≡ end
        → HasClosedMarker front (D.reads disk.old)
        → HasClosedMarker front (D.reads disk.new) }
    ensures laid { D.honest → (front : List ℕ) → length front ≡ end
        → HasClosedMarker front (D.reads disk.old)
        → OnOk result (IsLaid front frame.now (D.reads disk.new)) }
    ensures stopped { D.stopped disk.old → IsErr result }
    ensures same { SameDisk D.Disk disk.old disk.new }
    ensures cause { HasCause (D.faults disk.old) (D.faults disk.new) result }
{
    disk.write_at(end + 1, frame)?;
    disk.sync()
}

// Opens the marker, and syncs.
fn open_marker<D: Disk>(disk: &mut D, end: u64) -> Result<(), Failed>
    requires room { end + 1 ≤ D.most disk.old }
    requires inside { D.honest → end < length (D.reads disk.old) }
    ensures kept { D.honest → (front frame : List ℕ) → length front ≡ end
        → OnlyHas (IsLaid front frame) (D.reads disk.old) (D.images disk.old)
        → AllHave (Either front frame) (D.reads disk.new) (D.images disk.new) }
    ensures moments { D.honest → (front frame : List ℕ) → length front ≡ end
        → OnlyHas (IsLaid front frame) (D.reads disk.old) (D.images disk.old)
        → CrashLeaves D.Disk disk.old disk.new (Either front frame) }
    ensures ok { D.honest → (front frame : List ℕ) → length front ≡ end
        → OnlyHas (IsLaid front frame) (D.reads disk.old) (D.images disk.old)
        → OnOk result (OnlyHas (HasOpenMarker front frame) (D.reads disk.new) (D.images disk.new)) }
    ensures reads { D.honest → (front frame : List ℕ) → length front ≡ end
        → IsLaid front frame (D.reads disk.old) → Either front frame (D.reads disk.new) }
    ensures opened { D.honest → (front frame : List ℕ) → length front ≡ end
        → IsLaid front frame (D.reads disk.old)
        → OnOk result (HasOpenMarker front frame (D.reads disk.new)) }
    ensures stopped { D.stopped disk.old → IsErr result }
    ensures same { SameDisk D.Disk disk.old disk.new }
    ensures cause { HasCause (D.faults disk.old) (D.faults disk.new) result }
{
    disk.write_at(end, &[OPEN])?;
    disk.sync()
}

// Writes a frame behind the closed marker, and then opens the marker.
pub fn write_frame<D: Disk>(disk: &mut D, end: u64, frame: &[u8]) -> Result<(), Failed>
    requires fits { end + 1 < 2 ^ 64 }
    requires room { end + 1 + length frame.now ≤ D.most disk.old }
    requires stands { D.honest → MarkerStands end 0 (D.reads disk.old) }
    ensures kept { D.honest → (front : List ℕ) → length front ≡ end
        → OnlyHas (HasClosedMarker front) (D.reads disk.old) (D.images disk.old)
        → AllHave (Either front frame.now) (D.reads disk.new) (D.images disk.new) }
    ensures moments { D.honest → (front : List ℕ) → length front ≡ end
        → OnlyHas (HasClosedMarker front) (D.reads disk.old) (D.images disk.old)
        → CrashLeaves D.Disk disk.old disk.new (Either front frame.now) }
    ensures ok { D.honest → (front : List ℕ) → length front ≡ end
        → OnlyHas (HasClosedMarker front) (D.reads disk.old) (D.images disk.old)
        → OnOk result
        (OnlyHas (HasOpenMarker front frame.now) (D.reads disk.new) (D.images disk.new)) }
    ensures stands { D.honest → EndsInClosedMarker frame.now
        → MarkerStands end (length frame.now) (D.reads disk.new) }
    ensures moved { D.honest → EndsInClosedMarker frame.now
        → OnOk result (MarkerStands (end + length frame.now) 0 (D.reads disk.new)) }
    ensures stopped { D.stopped disk.old → IsErr result }
    ensures same { SameDisk D.Disk disk.old disk.new }
    ensures cause { HasCause (D.faults disk.old) (D.faults disk.new) result }
{
    lay(disk, end, frame)?;
    open_marker(disk, end)
}

// Whether the marker is open.
fn marker_is_open<D: Disk>(disk: &mut D, end: u64) -> Result<bool, Failed>
    requires inside { D.honest → end < length (D.reads disk.old) }
    ensures open { D.honest → IfOk result (λ b. b ≡ (slice_index (D.reads disk.old) end == 1)) }
    ensures reads { D.honest → D.reads disk.new ≡ D.reads disk.old }
    ensures images { D.honest → LeavesNoMore (D.images disk.old) (D.images disk.new) }
    ensures time { D.honest → Elapses (D.moment disk.old) (D.moment disk.new)
        (D.left_since disk.old) (D.left_since disk.new) (D.images disk.new) }
    ensures same { SameDisk D.Disk disk.old disk.new }
    ensures cause { HasCause (D.faults disk.old) (D.faults disk.new) result }
{
    let mut marker = [0];
    disk.read_at(end, &mut marker)?;
    Ok(marker[0] == OPEN)
}

// Syncs, and writes a frame again where its marker is closed.
pub fn write_again<D: Disk>(disk: &mut D, end: u64, frame: &[u8]) -> Result<(), Failed>
    requires fits { end + 1 < 2 ^ 64 }
    requires room { end + 1 + length frame.now ≤ D.most disk.old }
    requires stands { D.honest → MarkerStands end (length frame.now) (D.reads disk.old) }
    ensures kept { D.honest → (front : List ℕ) → length front ≡ end
        → AllHave (Either front frame.now) (D.reads disk.old) (D.images disk.old)
        → AllHave (Either front frame.now) (D.reads disk.new) (D.images disk.new) }
    ensures moments { D.honest → (front : List ℕ) → length front ≡ end
        → AllHave (Either front frame.now) (D.reads disk.old) (D.images disk.old)
        → CrashLeaves D.Disk disk.old disk.new (Either front frame.now) }
    ensures ok { D.honest → (front : List ℕ) → length front ≡ end
        → AllHave (Either front frame.now) (D.reads disk.old) (D.images disk.old)
        → OnOk result
        (OnlyHas (HasOpenMarker front frame.now) (D.reads disk.new) (D.images disk.new)) }
    ensures stands { D.honest → EndsInClosedMarker frame.now
        → MarkerStands end (length frame.now) (D.reads disk.new) }
    ensures moved { D.honest → EndsInClosedMarker frame.now
        → OnOk result (MarkerStands (end + length frame.now) 0 (D.reads disk.new)) }
    ensures stopped { D.stopped disk.old → IsErr result }
    ensures same { SameDisk D.Disk disk.old disk.new }
    ensures cause { HasCause (D.faults disk.old) (D.faults disk.new) result }
{
    disk.sync()?;
    if marker_is_open(disk, end)? {
        return Ok(());
    }
    write_frame(disk, end, frame)
}
