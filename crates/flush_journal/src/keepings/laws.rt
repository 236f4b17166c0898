//! Laws over what a journal keeps. No program calls these functions; the contract of each is the law.

ghost use Rattle.std.specs.Prelude.{ℕ, List};
ghost use Rattle.flush_journal.specs.Records.{Record};
ghost use Rattle.flush_journal.specs.Standing.{disk_of};
ghost use Rattle.flush_journal.specs.declared.journal.Journal.{Journal};
ghost use Rattle.flush_journal.specs.Keepings.Keepings.{HoldsOne, IsBacked};

use crate::keepings::kept::Kept;
use edge_traits::Disk;

/// Whatever a crash leaves of the disk is a journal that holds one of the worlds which the journal is said to keep.
pub fn images_are_kept<D: Disk, W: Kept>()
    ensures { (journal : Journal D D.Disk) (building : List Record) (world : W) (worlds : List W.World)
        → IsBacked W.tells journal building (W.says world) worlds
        → (image : List ℕ) → D.images (disk_of journal) image → HoldsOne W.tells worlds image }
{}
