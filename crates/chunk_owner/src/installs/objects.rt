//! The objects that records tell.

ghost use Rattle.std.specs.Prelude.{◌≡◌, OnOk, OnErr, IfErr, IfOk};
ghost use Rattle.chunk_owner.specs.Installs.Records.{IsBadObject};
ghost use Rattle.chunk_owner.specs.Installs.Walks.{Blames, InstallsObject, IsNew};

use crate::installs::faults::RecordFault;
use crate::slots::{Mark, Slot};
use object_ids::{IdMap, ObjectId};
use object_records::{is_whole, read_object};
use std::alloc::Global;

/// Installs the object that a body tells, where its run and its domain's number were given.
///
/// # Errors
///
/// `BadRecord` where there is none; else `NoMemory`.
pub(crate) fn install_object(
    alloc: Global,
    run: u32,
    next: u64,
    slots: &mut IdMap<Slot>,
    id: ObjectId,
    body: &[u8],
) -> Result<(), RecordFault>
    ensures done { OnOk result (InstallsObject run next id body.now slots.old slots.new) }
    ensures bad { IfErr result (λ e. Blames e (IsBadObject run next id body.now)) }
    ensures err { OnErr result (slots.new ≡ slots.old) }
{
    let slot = read_slot(alloc, run, next, &id, body)?;
    slots.put(id, slot)?;
    Ok(())
}

// The slot of an object that a body tells.
fn read_slot(
    alloc: Global,
    run: u32,
    next: u64,
    id: &ObjectId,
    body: &[u8],
) -> Result<Slot, RecordFault>
    ensures new { IfOk result (IsNew run next id.now body.now) }
    ensures bad { IfErr result (λ e. Blames e (IsBadObject run next id.now body.now)) }
{
    if id.run > run {
        return Err(RecordFault::BadRecord);
    }
    if id.domain >= next {
        return Err(RecordFault::BadRecord);
    }
    let object = read_object(alloc, id.kind, body)?;
    is_whole(&object.body);
    Ok(Slot {
        object,
        mark: Mark::Kept,
    })
}
