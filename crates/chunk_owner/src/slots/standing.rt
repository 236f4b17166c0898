//! The objects that stand, as requests see them.

ghost use Rattle.std.specs.Prelude.{◌≡◌, is_some, IfSome, option_map};
ghost use Rattle.std.specs.FinMap.{get};
ghost use Rattle.std.specs.Option.{option_copied};
ghost use Rattle.object_acts.specs.Objects.{IsOfKind, unmarked};
ghost use Rattle.chunk_owner.specs.Slots.Slots.{AreOfKind, IsNextObject, object_of};

use crate::slots::slot::{Mark, Slot};
use object_acts::Object;
use object_ids::{IdMap, ObjectId};

/// The object of an id, where it has one that wasn't removed.
pub fn object<'a>(slots: &'a IdMap<Slot>, id: &ObjectId) -> Option<&'a Object>
    ensures value { option_map unmarked (option_copied result) ≡ object_of (get slots.now id.now) }
    ensures kind { AreOfKind slots.now → IfSome (option_copied result) (IsOfKind id.now.kind) }
{
    let slot = slots.get(id)?;
    if slot.mark == Mark::Dropped {
        return None;
    }
    Some(&slot.object)
}

/// The least id behind another, or of all, that has an object.
pub fn next_id(slots: &IdMap<Slot>, after: Option<&ObjectId>) -> Option<ObjectId>
    ensures { IsNextObject slots.now (option_copied after.entry) result }
{
    let mut at = after.copied();
    while let Some(id) = slots.next_id(at.as_ref()) {
        if has_object(slots, &id) {
            return Some(id);
        }
        at = Some(id);
    }
    None
}

/// Whether an id has an object.
pub fn has_object(slots: &IdMap<Slot>, id: &ObjectId) -> bool
    ensures { result ≡ is_some (object_of (get slots.now id.now)) }
{
    object(slots, id).is_some()
}
