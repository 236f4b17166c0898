//! Cuts of all objects of a lane.

ghost use Rattle.std.specs.Prelude.{◌≡◌, ◌⊎◌, ℕ, List, true, false, OnOk, OnErr};
ghost use Rattle.std.specs.FinMap.{get};
ghost use Rattle.flush_journal.specs.Batches.{records};
ghost use Rattle.flush_journal.specs.Records.{Held};
ghost use Rattle.object_acts.specs.Objects.{IsOfKind, kind_of_body};
ghost use Rattle.object_ids.specs.IdValues.{Id};
ghost use Rattle.object_ids.specs.Ids.{InRange};
ghost use Rattle.flush_journal.specs.Cuts.Cuts.{AppendsEach, IsCut};
ghost use Rattle.object_records.specs.Keys.Keys.{object_key};
ghost use Rattle.chunk_owner.specs.Slots.Slots.{AreOfKind, AreStill, IsMarked, Says, object_of};
ghost use Rattle.chunk_owner.specs.Slots.Bodies.{IsSlotRecord};
ghost use Rattle.chunk_owner.specs.Slots.Listed.{AreListed, is_listed};
ghost use Rattle.chunk_owner.specs.Slots.Cutting.{AddsAll, AddsAt, AddsChunksIn, AddsFront, AddsFrontAt, AddsSlot};
ghost use Rattle.chunk_owner.specs.Slots.Settled.{Settles};

use crate::slots::changes::Changes;
use crate::slots::chunks::cut_chunks;
use crate::slots::objects::cut_object;
use crate::slots::settling::settle_all;
use crate::slots::slot::{Mark, Slot};
use flush_journal::Batch;
use object_acts::Body;
use object_ids::{IdMap, ObjectId};
use object_records::keys::object_key;
use std::alloc::{AllocError, Global};

/// Appends the records of what changed since the last cut, and takes it as kept: what is held then says of each id what
/// stands there. It looks at what is listed alone, and nothing is listed then.
///
/// # Errors
///
/// Only where memory runs out; then the objects with their marks and the batch are as they were.
pub fn cut(
    alloc: Global,
    slots: &mut IdMap<Slot>,
    changes: &mut Changes,
    into: &mut Batch,
) -> Result<(), AllocError>
    requires kinds { AreOfKind slots.old }
    requires listed { AreListed changes.old slots.old }
    ensures cut { (base : Held) → IsCut (IsMarked slots.old) base
        (records into.old) (records into.new)
        (λ held. (id : Id) → InRange id → Says (get slots.old id) id base
        → Says (get slots.new id) id held) }
    ensures bodies { AppendsEach (IsSlotRecord slots.old) (records into.old) (records into.new) }
    ensures still { OnOk result (AreStill slots.new) }
    ensures each { (id : Id) → (get slots.new id ≡ get slots.old id)
        ⊎ Settles (get slots.old id) (get slots.new id) }
    ensures marks { (key : List ℕ) → IsMarked slots.new key → IsMarked slots.old key }
    ensures same { (id : Id) → object_of (get slots.new id) ≡ object_of (get slots.old id) }
    ensures kinds { AreOfKind slots.new }
    ensures listed { AreListed changes.new slots.new }
    ensures none { OnOk result ((id : Id) → is_listed changes.new id ≡ false) }
    ensures err { OnErr result (slots.new ≡ slots.old) }
    ensures back { OnErr result (records into.new ≡ records into.old) }
{
    append_whole(alloc, slots, changes, into)?;
    settle_all(slots, changes);
    changes.clear(alloc);
    Ok(())
}

// Appends the records of all objects, or none.
fn append_whole(
    alloc: Global,
    slots: &IdMap<Slot>,
    changes: &Changes,
    into: &mut Batch,
) -> Result<(), AllocError>
    requires kinds { AreOfKind slots.now }
    requires listed { AreListed changes.now slots.now }
    ensures cut { OnOk result (AddsAll slots.now (records into.old) (records into.new)) }
    ensures bodies { AppendsEach (IsSlotRecord slots.now) (records into.old) (records into.new) }
    ensures back { OnErr result (records into.new ≡ records into.old) }
{
    let size = into.size();
    if let Err(error) = append_all(alloc, slots, changes, into) {
        into.truncate(size);
        return Err(error);
    }
    Ok(())
}

// Appends the records of the objects, one after another. It looks at no others than those that are listed.
fn append_all(
    alloc: Global,
    slots: &IdMap<Slot>,
    changes: &Changes,
    into: &mut Batch,
) -> Result<(), AllocError>
    requires kinds { AreOfKind slots.now }
    requires listed { AreListed changes.now slots.now }
    ensures cut { OnOk result (AddsAll slots.now (records into.old) (records into.new)) }
    ensures bodies { AppendsEach (IsSlotRecord slots.now) (records into.old) (records into.new) }
{
    let mut last = None;
    while let Some(id) = changes.next_listed(slots, last.as_ref()) {
        append_id(alloc, slots, &id, into)?;
        last = Some(id);
    }
    Ok(())
}

// Appends the records of the object of an id.
fn append_id(
    alloc: Global,
    slots: &IdMap<Slot>,
    id: &ObjectId,
    into: &mut Batch,
) -> Result<(), AllocError>
    requires { AreOfKind slots.now }
    ensures range { InRange id.now }
    ensures added { OnOk result (AddsAt id.now (get slots.now id.now)
        (records into.old) (records into.new)) }
    ensures front { OnErr result (AddsFrontAt id.now (get slots.now id.now)
        (records into.old) (records into.new)) }
{
    let key = object_key(id);
    append_at(alloc, slots, id, key.as_slice(), into)
}

// Appends the records of the object of an id, whose key this is.
fn append_at(
    alloc: Global,
    slots: &IdMap<Slot>,
    id: &ObjectId,
    key: &[u8],
    into: &mut Batch,
) -> Result<(), AllocError>
    requires kinds { AreOfKind slots.now }
    requires key { key.now ≡ object_key id.now }
    ensures added { OnOk result (AddsAt id.now (get slots.now id.now)
        (records into.old) (records into.new)) }
    ensures front { OnErr result (AddsFrontAt id.now (get slots.now id.now)
        (records into.old) (records into.new)) }
{
    match slots.get(id) {
        Some(slot) => append_slot(alloc, id, key, slot, into),
        None => Ok(()),
    }
}

// Appends the records of an object.
fn append_slot(
    alloc: Global,
    id: &ObjectId,
    key: &[u8],
    slot: &Slot,
    into: &mut Batch,
) -> Result<(), AllocError>
    requires kind { IsOfKind id.now.kind slot.now.object }
    requires key { key.now ≡ object_key id.now }
    ensures added { OnOk result (AddsSlot id.now slot.now (records into.old) (records into.new)) }
    ensures front { OnErr result (AddsFront id.now slot.now (records into.old) (records into.new)) }
{
    cut_object(alloc, key, slot, into)?;
    append_chunks(alloc, id, slot.mark, &slot.object.body, into)
}

// Appends the records of a body's chunks, where it has any.
fn append_chunks(
    alloc: Global,
    id: &ObjectId,
    mark: Mark,
    body: &Body,
    into: &mut Batch,
) -> Result<(), AllocError>
    requires { kind_of_body body.now ≡ id.now.kind }
    ensures added { OnOk result (AddsChunksIn id.now mark body.now true
        (records into.old) (records into.new)) }
    ensures front { OnErr result (AddsChunksIn id.now mark body.now false
        (records into.old) (records into.new)) }
{
    match body {
        Body::Dataset(array) => cut_chunks(alloc, id, mark, array, into),
        Body::Group(_) | Body::Datatype(_) => Ok(()),
    }
}
