//! What one step answers and leaves of one object among others.

ghost use Rattle.std.specs.Prelude.{◌≡◌, ◌==◌, true, None, IsTrue};
ghost use Rattle.std.specs.FinMap.{get};
ghost use Rattle.groups_links.specs.Titles.{IsGoodTitle};
ghost use Rattle.object_ids.specs.declared.ids.Kind.TheVariants.{Group};
ghost use Rattle.object_ops.specs.Replies.{Follows, was_done};
ghost use Rattle.object_ops.specs.Conditions.{IsSoundOp};
ghost use Rattle.object_acts.specs.Arrays.Marked.{IsDone};
ghost use Rattle.object_acts.specs.Acts.{reads_object, reply_of, changes_object, change_of};
ghost use Rattle.object_records.specs.Keys.Keys.{object_key};
ghost use Rattle.chunk_owner.specs.Slots.Marking.{AddsMarks, IsToDrop};
ghost use Rattle.chunk_owner.specs.Slots.Slots.{AreOfKind, StillSays, object_of, objects_of};
ghost use Rattle.chunk_owner.specs.Lanes.{at_id, LeavesOthers};
ghost use Rattle.chunk_owner.specs.Acts.{reading, changing, removing, link_to};
ghost use Rattle.chunk_owner.specs.Marks.{IsChangeMark};

use crate::absent::{is_own, is_root, missing, read_absent};
use crate::placing::put_done;
use crate::slots::{Slot, change_at, has_object, link_at, object, remove};
use object_acts::{Object, change, link_made, reply};
use object_ids::{IdMap, ObjectId};
use object_ops::{Grant, LinkPlace, Op, Refusal, Reply};
use std::alloc::{AllocError, Global};

/// Reads the object of an id.
pub(crate) fn read_in(
    alloc: Global,
    slots: &IdMap<Slot>,
    op: &Op,
    id: &ObjectId,
    grant: &Grant,
) -> Result<Reply, AllocError>
    requires reads { reads_object op.now ≡ true }
    requires kinds { AreOfKind slots.now }
    ensures { Follows
        (at_id id.now (reading grant.now id.now (reply_of grant.now.root op.now)) (objects_of slots.now))
        (objects_of slots.now) result (objects_of slots.now) }
{
    if !is_own(grant, id) {
        return Ok(Reply::Refused(missing(grant, id)));
    }
    match object(slots, id) {
        Some(object) => reply(alloc, object, op, &grant.root),
        None => read_absent(alloc, op, id, grant),
    }
}

/// Changes the object of an id.
pub(crate) fn change_in(
    alloc: Global,
    slots: &mut IdMap<Slot>,
    op: &Op,
    id: &ObjectId,
    grant: &Grant,
) -> Result<Reply, AllocError>
    requires changes { changes_object op.now ≡ true }
    requires op { IsSoundOp op.now }
    requires root { grant.now.root.kind ≡ Group }
    requires kinds { AreOfKind slots.old }
    ensures acts { Follows
        (at_id id.now (changing grant.now id.now (change_of op.now)) (objects_of slots.old))
        (objects_of slots.old) result (objects_of slots.new) }
    ensures kinds { AreOfKind slots.new }
    ensures others { LeavesOthers id.now slots.old slots.new }
    ensures says { StillSays slots.old slots.new }
    ensures alone { AddsMarks (λ key. IsDone result
        × IsChangeMark id.now op.now (object_of (get slots.old id.now)) key) slots.old slots.new }
{
    if !is_own(grant, id) {
        return Ok(Reply::Refused(missing(grant, id)));
    }
    if !has_object(slots, id) {
        return change_absent(alloc, slots, op, id, grant);
    }
    change_at(alloc, slots, id, op)
}

// Changes an object of the domain that isn't held.
fn change_absent(
    alloc: Global,
    slots: &mut IdMap<Slot>,
    op: &Op,
    id: &ObjectId,
    grant: &Grant,
) -> Result<Reply, AllocError>
    requires changes { changes_object op.now ≡ true }
    requires op { IsSoundOp op.now }
    requires own { IsTrue (id.now.domain == grant.now.number) }
    requires root { grant.now.root.kind ≡ Group }
    requires absent { get (objects_of slots.old) id.now ≡ None }
    requires kinds { AreOfKind slots.old }
    ensures acts { Follows
        (at_id id.now (changing grant.now id.now (change_of op.now)) (objects_of slots.old))
        (objects_of slots.old) result (objects_of slots.new) }
    ensures kinds { AreOfKind slots.new }
    ensures others { LeavesOthers id.now slots.old slots.new }
    ensures says { StillSays slots.old slots.new }
    ensures alone { AddsMarks (λ key. IsDone result × (key ≡ object_key id.now))
        slots.old slots.new }
{
    if !is_root(grant, id) {
        return Ok(Reply::Refused(missing(grant, id)));
    }
    let mut root = Object::new_group(alloc);
    let reply = change(alloc, &mut root, op)?;
    put_done(slots, *id, root, reply)
}

/// Links a group to an object that is to be made.
pub(crate) fn link_in(
    alloc: Global,
    slots: &mut IdMap<Slot>,
    place: &LinkPlace,
    fresh: ObjectId,
    grant: &Grant,
) -> Result<Reply, AllocError>
    requires title { IsGoodTitle place.now.title }
    requires root { grant.now.root.kind ≡ Group }
    requires kinds { AreOfKind slots.old }
    ensures acts { Follows
        (at_id place.now.group (changing grant.now place.now.group (link_to place.now fresh))
        (objects_of slots.old))
        (objects_of slots.old) result (objects_of slots.new) }
    ensures kinds { AreOfKind slots.new }
    ensures others { LeavesOthers place.now.group slots.old slots.new }
    ensures says { StillSays slots.old slots.new }
    ensures alone { AddsMarks (λ key. IsDone result × (key ≡ object_key place.now.group))
        slots.old slots.new }
{
    let id = &place.group;
    if !is_own(grant, id) {
        return Ok(Reply::Refused(missing(grant, id)));
    }
    if !has_object(slots, id) {
        return link_absent(alloc, slots, place, fresh, grant);
    }
    link_at(alloc, slots, id, &place.title, fresh)
}

// Links a group of the domain that isn't held.
fn link_absent(
    alloc: Global,
    slots: &mut IdMap<Slot>,
    place: &LinkPlace,
    fresh: ObjectId,
    grant: &Grant,
) -> Result<Reply, AllocError>
    requires title { IsGoodTitle place.now.title }
    requires own { IsTrue (place.now.group.domain == grant.now.number) }
    requires root { grant.now.root.kind ≡ Group }
    requires absent { get (objects_of slots.old) place.now.group ≡ None }
    requires kinds { AreOfKind slots.old }
    ensures acts { Follows
        (at_id place.now.group (changing grant.now place.now.group (link_to place.now fresh))
        (objects_of slots.old))
        (objects_of slots.old) result (objects_of slots.new) }
    ensures kinds { AreOfKind slots.new }
    ensures others { LeavesOthers place.now.group slots.old slots.new }
    ensures says { StillSays slots.old slots.new }
    ensures alone { AddsMarks (λ key. IsDone result × (key ≡ object_key place.now.group))
        slots.old slots.new }
{
    let id = &place.group;
    if !is_root(grant, id) {
        return Ok(Reply::Refused(missing(grant, id)));
    }
    let mut root = Object::new_group(alloc);
    let reply = link_made(alloc, &mut root, id, &place.title, fresh)?;
    put_done(slots, *id, root, reply)
}

/// Removes the object of an id.
pub(crate) fn drop_in(alloc: Global, slots: &mut IdMap<Slot>, id: &ObjectId, grant: &Grant) -> Reply
    requires { AreOfKind slots.old }
    ensures reply { result ≡ (at_id id.now (removing grant.now id.now) (objects_of slots.old)).0 }
    ensures rest { objects_of slots.new
        ≡ (at_id id.now (removing grant.now id.now) (objects_of slots.old)).1 }
    ensures kinds { AreOfKind slots.new }
    ensures others { LeavesOthers id.now slots.old slots.new }
    ensures says { StillSays slots.old slots.new }
    ensures alone { AddsMarks (λ key. (was_done result ≡ true)
        × IsToDrop id.now (get slots.old id.now) key) slots.old slots.new }
{
    if !is_own(grant, id) {
        return Reply::Refused(missing(grant, id));
    }
    if is_root(grant, id) {
        return Reply::Refused(Refusal::Root);
    }
    if !has_object(slots, id) {
        return Reply::Refused(missing(grant, id));
    }
    remove(slots, id);
    Reply::done(alloc, 200)
}
