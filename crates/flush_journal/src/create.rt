// A journal's first bytes, written.
ghost use Rattle.std.specs.Prelude.{◌≡◌, ◌≢◌, ◌+◌, ◌^◌, ◌<◌, ◌≤◌, ◌↔◌, ◌++◌, take, drop, IfOk, IfErr, OnOk, OnErr, Ok, IsTrue};
ghost use Rattle.edge_traits.specs.Causes.{HasCause};
ghost use Rattle.edge_traits.specs.Disks.{Only};
ghost use Rattle.flush_journal.specs.Files.{magic, content, fresh};
ghost use Rattle.flush_journal.specs.Markers.{MarkerStands};
ghost use Rattle.flush_journal.specs.Unchanged.{SameBytes, SameDisk, TornFront};
ghost use Rattle.flush_journal.specs.Refusals.{new_file, NoMagic, MayRefuseNew};

use crate::Why;
use crate::header::{HEADER_SIZE, MAGIC};
use edge_traits::{Disk, Failed};

// How many bytes a new journal has: the header and a closed marker.
pub const NEW_SIZE: u64 = HEADER_SIZE + 1;

// Whether a disk begins with a journal's first bytes.
fn has_magic<D: Disk>(disk: &mut D) -> Result<bool, Failed>
    ensures yes { D.honest → IfOk result (λ b. IsTrue b ↔ (take 8 (D.reads disk.old) ≡ magic)) }
    ensures same { SameDisk D.Disk disk.old disk.new }
    ensures bytes { D.honest → SameBytes D.Disk disk.old disk.new }
    ensures cause { HasCause (D.faults disk.old) (D.faults disk.new) result }
{
    let mut first = [0; 8];
    let count = disk.read_at(0, &mut first)?;
    Ok(count == 8 && first == MAGIC)
}

// Writes the header and a closed marker, where no journal stands and so many bytes fit behind a place, and syncs.
pub fn write_new<D: Disk>(disk: &mut D, lanes: u32, end: u64, need: u64) -> Result<(), Why>
    requires few { lanes ≤ 16 }
    requires some { 17 ≤ end + need }
    requires small { end + need < 2 ^ 64 }
    ensures file { D.honest → OnOk result
        (D.reads disk.new ≡ new_file lanes ++ drop 17 (D.reads disk.old)) }
    ensures only { D.honest → OnOk result (Only (D.reads disk.new) (D.images disk.new)) }
    ensures same { SameDisk D.Disk disk.old disk.new }
    ensures refused { D.honest → IfErr result (λ why. why ≢ Why.DiskFault
        → SameBytes D.Disk disk.old disk.new) }
    ensures found { D.honest → take 8 (D.reads disk.old) ≡ magic
        → OnErr result (SameBytes D.Disk disk.old disk.new) }
    ensures front { D.honest → TornFront D.Disk 17 disk.old disk.new }
    ensures room { OnOk result (end + need ≤ D.most disk.old) }
    ensures none { OnOk result (NoMagic D.honest (D.reads disk.old)) }
    ensures why { IfErr result (MayRefuseNew end need D.honest
        (D.reads disk.old) (D.most disk.old) (D.faults disk.old) (D.faults disk.new)) }
{
    if has_magic(disk)? {
        return Err(Why::Exists);
    }
    let room = disk.room();
    if room < end + need {
        return Err(Why::JournalFull { end, need, room });
    }
    let [a, b, c, d, e, f, g, h] = MAGIC;
    let bytes = [a, b, c, d, e, f, g, h, 0, 0, 0, lanes as u8, 0, 0, 0, 0, 0];
    disk.write_at(0, &bytes)?;
    disk.sync()?;
    Ok(())
}
