//! What stands once records are written.

ghost use Rattle.std.specs.Prelude.{◌≡◌, ◌≢◌, false};
ghost use Rattle.std.specs.FinMap.{get};
ghost use Rattle.object_ids.specs.IdValues.{Id};
ghost use Rattle.chunk_owner.specs.Slots.Listed.{AreListed};
ghost use Rattle.chunk_owner.specs.Slots.Settled.{AreSettled, BodySettles, Settles, SlotSettles, is_dropped_slot};

use crate::slots::changes::Changes;
use crate::slots::slot::{Mark, Slot};
use object_acts::Body;
use object_ids::{IdMap, ObjectId};

/// Takes each object as kept, or lets it go where it was removed. It looks at those that are listed, and takes no memory.
pub(crate) fn settle_all(slots: &mut IdMap<Slot>, changes: &Changes)
    requires { AreListed changes.now slots.old }
    ensures { AreSettled slots.old slots.new }
{
    let mut last = None;
    while let Some(id) = changes.next_listed(slots, last.as_ref()) {
        settle_at(slots, &id);
        last = Some(id);
    }
}

// Takes the object of an id as kept, or lets it go where it was removed.
fn settle_at(slots: &mut IdMap<Slot>, id: &ObjectId)
    ensures here { Settles (get slots.old id.now) (get slots.new id.now) }
    ensures others { (other : Id) → other ≢ id.now → get slots.new other ≡ get slots.old other }
{
    if is_dropped(slots, id) {
        slots.remove(id);
        return;
    }
    keep_at(slots, id);
}

fn is_dropped(slots: &IdMap<Slot>, id: &ObjectId) -> bool
    ensures { result ≡ is_dropped_slot (get slots.now id.now) }
{
    match slots.get(id) {
        Some(slot) => slot.mark == Mark::Dropped,
        None => false,
    }
}

fn keep_at(slots: &mut IdMap<Slot>, id: &ObjectId)
    requires { is_dropped_slot (get slots.old id.now) ≡ false }
    ensures here { Settles (get slots.old id.now) (get slots.new id.now) }
    ensures others { (other : Id) → other ≢ id.now → get slots.new other ≡ get slots.old other }
{
    if let Some(slot) = slots.get_mut(id) {
        settle(slot);
    }
}

// Takes an object as kept, and each chunk of its array as unchanged.
fn settle(slot: &mut Slot)
    ensures { SlotSettles slot.old slot.new }
{
    slot.mark = Mark::Kept;
    settle_body(&mut slot.object.body);
}

fn settle_body(body: &mut Body)
    ensures { BodySettles body.old body.new }
{
    if let Body::Dataset(array) = body {
        array.clear_dirty();
    }
}
