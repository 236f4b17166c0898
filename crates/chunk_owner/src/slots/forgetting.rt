//! The removal of the objects of one domain.

ghost use Rattle.std.specs.Prelude.{◌≡◌, ◌≢◌, ◌==◌, ◌≤◌, None, if◌then◌else◌};
ghost use Rattle.std.specs.FinMap.{get};
ghost use Rattle.object_ids.specs.IdValues.{Id};
ghost use Rattle.chunk_owner.specs.Slots.Forgetting.{ForgetsKind, IsNextIn, IsToForgetIn};
ghost use Rattle.chunk_owner.specs.Slots.Listed.{IsNoted, KeepsListed};
ghost use Rattle.chunk_owner.specs.Slots.Marking.{AddsMarks, IsToDrop, IsToForget};
ghost use Rattle.chunk_owner.specs.Slots.Slots.{AreOfKind, HasSameIds, StillSays, object_of};

use crate::slots::changes::Changes;
use crate::slots::placing::remove;
use crate::slots::slot::Slot;
use object_ids::{IdMap, Kind, ObjectId};

// The greatest number of a domain that an id can have.
const MAX_DOMAIN: u64 = 0xffff_ffff_ffff;

/// Removes the objects of the domain of a number. The next cut says that their records are gone. It looks at the ids of
/// that domain alone, and takes no memory.
pub fn forget(slots: &mut IdMap<Slot>, number: u64)
    requires { AreOfKind slots.old }
    ensures rest { (id : Id) → object_of (get slots.new id)
        ≡ (if id.domain == number then None else object_of (get slots.old id)) }
    ensures says { StillSays slots.old slots.new }
    ensures alone { AddsMarks (IsToForget number (get slots.old)) slots.old slots.new }
    ensures kinds { AreOfKind slots.new }
    ensures same_ids { HasSameIds slots.old slots.new }
    ensures others { (other : Id) → other.domain ≢ number
        → get slots.new other ≡ get slots.old other }
{
    forget_kind(slots, Kind::Group, number);
    forget_kind(slots, Kind::Dataset, number);
    forget_kind(slots, Kind::Datatype, number);
}

// Removes those of a kind, whose ids stand one behind another.
fn forget_kind(slots: &mut IdMap<Slot>, kind: Kind, number: u64)
    requires { AreOfKind slots.old }
    ensures rest { ForgetsKind kind number slots.old slots.new }
    ensures says { StillSays slots.old slots.new }
    ensures alone { AddsMarks (IsToForgetIn kind number (get slots.old)) slots.old slots.new }
    ensures kinds { AreOfKind slots.new }
    ensures same_ids { HasSameIds slots.old slots.new }
{
    let mut last = first_id(kind, number);
    forget_at(slots, &last, number);
    while let Some(id) = next_of(slots, &last, number) {
        forget_at(slots, &id, number);
        last = id;
    }
}

/// Lists the objects of the domain of a number that changed or were removed. It looks at the ids of that domain alone.
pub fn note_domain(changes: &mut Changes, slots: &IdMap<Slot>, number: u64)
    requires { AreOfKind slots.now }
    ensures noted { (id : Id) → id.domain ≡ number → IsNoted changes.new id (get slots.now id) }
    ensures more { KeepsListed changes.old changes.new }
{
    note_kind(changes, slots, Kind::Group, number);
    note_kind(changes, slots, Kind::Dataset, number);
    note_kind(changes, slots, Kind::Datatype, number);
}

// Lists those of a kind.
fn note_kind(changes: &mut Changes, slots: &IdMap<Slot>, kind: Kind, number: u64)
    requires { AreOfKind slots.now }
    ensures noted { (id : Id) → id.kind ≡ kind → id.domain ≡ number
        → IsNoted changes.new id (get slots.now id) }
    ensures more { KeepsListed changes.old changes.new }
{
    let mut last = first_id(kind, number);
    changes.note(slots, &last);
    while let Some(id) = next_of(slots, &last, number) {
        changes.note(slots, &id);
        last = id;
    }
}

// An id that no id of a kind and a domain comes before.
fn first_id(kind: Kind, number: u64) -> ObjectId
    ensures kind { result.kind ≡ kind }
    ensures domain { result.domain ≤ number }
    ensures run { result.run ≡ 0 }
    ensures serial { result.serial ≡ 0 }
{
    ObjectId {
        kind,
        domain: number.min(MAX_DOMAIN),
        run: 0,
        serial: 0,
    }
}

// The least id behind another, where it is of that one's kind and its domain isn't behind that of a number.
fn next_of(slots: &IdMap<Slot>, after: &ObjectId, number: u64) -> Option<ObjectId>
    ensures { IsNextIn number slots.now after.now result }
{
    let id = slots.next_id(Some(after))?;
    if id.kind != after.kind || id.domain > number {
        return None;
    }
    Some(id)
}

// Removes the object of an id, where it is of the domain.
fn forget_at(slots: &mut IdMap<Slot>, id: &ObjectId, number: u64)
    requires { AreOfKind slots.old }
    ensures here { id.now.domain ≡ number → object_of (get slots.new id.now) ≡ None }
    ensures stays { id.now.domain ≢ number → slots.new ≡ slots.old }
    ensures others { (other : Id) → other ≢ id.now
        → get slots.new other ≡ get slots.old other }
    ensures says { StillSays slots.old slots.new }
    ensures alone { AddsMarks (λ key. (id.now.domain ≡ number)
        × IsToDrop id.now (get slots.old id.now) key) slots.old slots.new }
    ensures kinds { AreOfKind slots.new }
    ensures same_ids { HasSameIds slots.old slots.new }
{
    if is_of(id, number) {
        remove(slots, id);
    }
}

fn is_of(id: &ObjectId, number: u64) -> bool
    ensures { result ≡ (id.now.domain == number) }
{
    id.domain == number
}
