//! Objects that come and go.

ghost use Rattle.std.specs.Prelude.{◌≡◌, ◌≢◌, [], false, IsTrue, Some, None, OnOk, OnErr};
ghost use Rattle.std.specs.FinMap.{get};
ghost use Rattle.object_acts.specs.Objects.{IsOfKind, IsTrackedBody, unmarked};
ghost use Rattle.object_ids.specs.IdValues.{Id};
ghost use Rattle.object_ids.specs.declared.ids.Kind.TheVariants.{Dataset};
ghost use Rattle.chunk_owner.specs.Slots.Marking.{AddsMarks, IsToDrop};
ghost use Rattle.chunk_owner.specs.Slots.Slots.{AreOfKind, HasSameIds, IsMarkedIn, StillSays, object_of};
ghost use Rattle.chunk_owner.specs.declared.slots.slot.Mark.TheVariants.{Changed};

use crate::slots::slot::{Mark, Slot};
use object_acts::Object;
use object_ids::{IdMap, Kind, ObjectId};
use std::alloc::AllocError;

/// Puts an object, of whose chunks nothing is known, at an id that has none. The next cut writes it. It takes the place of
/// a group or a datatype that was removed since the last cut.
///
/// # Errors
///
/// Only where memory runs out, or where a dataset of this id was removed since the last cut, of whose chunks records may
/// stand. All stays then.
pub fn put(slots: &mut IdMap<Slot>, id: ObjectId, object: Object) -> Result<(), AllocError>
    requires new { object_of (get slots.old id) ≡ None }
    requires kind { IsOfKind id.kind object }
    requires fresh { IsTrackedBody (λ _. []) object.body }
    requires kinds { AreOfKind slots.old }
    ensures there { OnOk result (object_of (get slots.new id) ≡ Some (unmarked object)) }
    ensures others { (other : Id) → other ≢ id → get slots.new other ≡ get slots.old other }
    ensures err { OnErr result (slots.new ≡ slots.old) }
    ensures free { OnErr result (id.kind ≢ Dataset → get slots.old id ≡ None) }
    ensures says { StillSays slots.old slots.new }
    ensures alone { AddsMarks (IsMarkedIn id Changed object.body) slots.old slots.new }
    ensures kinds { AreOfKind slots.new }
{
    if has_chunks(slots, &id) {
        return Err(AllocError);
    }
    let slot = Slot {
        object,
        mark: Mark::Changed,
    };
    slots.put(id, slot)
}

// Whether an id has the slot of a dataset, be it that of a removed one.
fn has_chunks(slots: &IdMap<Slot>, id: &ObjectId) -> bool
    ensures dataset { IsTrue result → id.now.kind ≡ Dataset }
    ensures free { result ≡ false → id.now.kind ≡ Dataset → get slots.now id.now ≡ None }
{
    match id.kind {
        Kind::Dataset => slots.get(id).is_some(),
        Kind::Group | Kind::Datatype => false,
    }
}

/// Removes the object of an id, where it has one. The next cut says that its records are gone. It takes no memory.
pub fn remove(slots: &mut IdMap<Slot>, id: &ObjectId)
    requires kinds { AreOfKind slots.old }
    ensures gone { object_of (get slots.new id.now) ≡ None }
    ensures others { (other : Id) → other ≢ id.now → get slots.new other ≡ get slots.old other }
    ensures says { StillSays slots.old slots.new }
    ensures alone { AddsMarks (IsToDrop id.now (get slots.old id.now)) slots.old slots.new }
    ensures kinds { AreOfKind slots.new }
    ensures same_ids { HasSameIds slots.old slots.new }
{
    if let Some(slot) = slots.get_mut(id) {
        slot.mark = Mark::Dropped;
    }
}
