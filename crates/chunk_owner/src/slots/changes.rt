//! Which objects the next cut looks at.

ghost use Rattle.std.specs.Prelude.{◌≡◌, true, false, IsTrue, IfSome};
ghost use Rattle.std.specs.FinMap.{get};
ghost use Rattle.std.specs.Option.{option_copied};
ghost use Rattle.object_ids.specs.IdValues.{Id};
ghost use Rattle.object_ids.specs.Ids.{InRange};
ghost use Rattle.chunk_owner.specs.Slots.Listed.{AreListed, IsNextLook, KeepsListed, is_listed, is_looked_at};
ghost use Rattle.chunk_owner.specs.Slots.Slots.{AreOfKind, IsSpelledSlot, IsStill, IsStillBody, IsStillSlot};

use crate::slots::slot::{Mark, Slot};
use object_acts::Body;
use object_ids::{IdMap, ObjectId};
use object_records::is_whole;
use std::alloc::Global;

/// The objects that the next cut looks at: each of which anything changed since the last one, and maybe others.
#[derive(Drop)]
pub struct Changes {
    /// These, unless all are looked at.
    pub listed: IdMap<()>,
    /// Whether all are: no memory was found to list one.
    pub all: bool,
}

impl Changes {
    /// Nothing changed. It takes no memory.
    pub fn new(alloc: Global) -> Changes
        ensures none { (id : Id) → is_listed result id ≡ false }
    {
        Changes {
            listed: IdMap::new(alloc),
            all: false,
        }
    }

    /// Lists the object of an id where anything of it changed, or it was removed. Where no memory is found for that, the next
    /// cut looks at all.
    pub fn note(&mut self, slots: &IdMap<Slot>, id: &ObjectId)
        requires { AreOfKind slots.now }
        ensures range { InRange id.now }
        ensures still { is_listed self.new id.now ≡ false → IsStillSlot (get slots.now id.now) }
        ensures spelled { IsSpelledSlot (get slots.now id.now) }
        ensures more { KeepsListed self.old self.new }
    {
        is_in_range(id);
        is_spelled(slots, id);
        if self.is_listed(id) {
            return;
        }
        if is_still(slots, id) {
            return;
        }
        self.list(id);
    }

    fn is_listed(&self, id: &ObjectId) -> bool
        ensures { result ≡ is_listed self.now id.now }
    {
        self.all || self.listed.get(id).is_some()
    }

    // Lists an id.
    fn list(&mut self, id: &ObjectId)
        ensures here { is_listed self.new id.now ≡ true }
        ensures more { KeepsListed self.old self.new }
    {
        let Err(_) = self.listed.put(*id, ()) else {
            return;
        };
        self.all = true;
    }

    /// The least id behind another, or of all, at which the cut looks.
    pub fn next_listed(&self, slots: &IdMap<Slot>, after: Option<&ObjectId>) -> Option<ObjectId>
        ensures look { AreListed self.now slots.now
            → IsNextLook slots.now (option_copied after.entry) result }
        ensures looked { IfSome result (λ id. is_looked_at self.now slots.now id ≡ true) }
    {
        if self.all {
            slots.next_id(after)
        } else {
            self.listed.next_id(after)
        }
    }

    /// Takes all as unchanged. It takes no memory.
    pub fn clear(&mut self, alloc: Global)
        ensures none { (id : Id) → is_listed self.new id ≡ false }
    {
        self.listed = IdMap::new(alloc);
        self.all = false;
    }
}

// What is true of every id: a key may have it.
fn is_in_range(id: &ObjectId)
    ensures { InRange id.now }
{
    let _domain = id.domain;
}

// What is true of the body at an id: each part of it can be spelled.
fn is_spelled(slots: &IdMap<Slot>, id: &ObjectId)
    requires { AreOfKind slots.now }
    ensures { IsSpelledSlot (get slots.now id.now) }
{
    match slots.get(id) {
        Some(slot) => is_whole(&slot.object.body),
        None => {}
    }
}

// Whether nothing of what stands at an id changed.
fn is_still(slots: &IdMap<Slot>, id: &ObjectId) -> bool
    ensures { IsTrue result → IsStillSlot (get slots.now id.now) }
{
    match slots.get(id) {
        Some(slot) => is_still_slot(slot),
        None => true,
    }
}

fn is_still_slot(slot: &Slot) -> bool
    ensures { IsTrue result → IsStill slot.now }
{
    slot.mark == Mark::Kept && is_still_body(&slot.object.body)
}

// Whether no chunk of a body changed.
fn is_still_body(body: &Body) -> bool
    ensures { IsTrue result → IsStillBody body.now }
{
    match body {
        Body::Dataset(array) => array.next_dirty(None).is_none(),
        Body::Group(_) | Body::Datatype(_) => true,
    }
}
