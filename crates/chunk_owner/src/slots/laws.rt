//! What holds of slots and records.

ghost use Rattle.std.specs.Prelude.{◌≡◌, Some};
ghost use Rattle.flush_journal.specs.Records.{Held};
ghost use Rattle.object_acts.specs.Objects.{IsOfKind};
ghost use Rattle.object_ids.specs.IdValues.{Id};
ghost use Rattle.object_records.specs.Objects.{IsKeptBody};
ghost use Rattle.chunk_owner.specs.Slots.Slots.{Describes, IsStill, Says, object_of};
ghost use Rattle.chunk_owner.specs.declared.slots.slot.Slot.{Slot};

use chunk_store::{chunks_installed, records_stand};

/// Where nothing changed since the last cut, what is held describes the object that stands.
pub fn records_describe()
    ensures { (s : Slot) (id : Id) (held : Held) → IsOfKind id.kind s.object
        → IsKeptBody s.object.body → IsStill s → Says (Some s) id held
        → Describes held id (object_of (Some s)) }
{
    records_stand();
    chunks_installed();
}
