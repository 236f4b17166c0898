//! The records of objects.

ghost use Rattle.std.specs.Prelude.{◌≡◌, ◌<◌, length, OnOk, OnErr};
ghost use Rattle.flush_journal.specs.Batches.{records};
ghost use Rattle.object_acts.specs.Objects.{IsSoundBody};
ghost use Rattle.chunk_owner.specs.Slots.Cutting.{AddsObject};

use crate::slots::slot::{Mark, Slot};
use flush_journal::Batch;
use flush_journal::cuts::add_record;
use object_records::object_text;
use std::alloc::{AllocError, Global};

/// Appends the record of an object whose key this is, where it changed or was removed.
pub(crate) fn cut_object(
    alloc: Global,
    key: &[u8],
    slot: &Slot,
    into: &mut Batch,
) -> Result<(), AllocError>
    requires sound { IsSoundBody slot.now.object.body }
    requires some_key { 0 < length key.now }
    requires short_key { length key.now < 65536 }
    ensures ok { OnOk result (AddsObject key.now slot.now (records into.old) (records into.new)) }
    ensures err { OnErr result (records into.new ≡ records into.old) }
{
    match slot.mark {
        Mark::Kept => Ok(()),
        Mark::Changed => {
            let text = object_text(alloc, &slot.object)?;
            add_record(into, key, text.as_bytes())
        }
        Mark::Dropped => add_record(into, key, &[]),
    }
}
