//! Objects that are put among others.

ghost use Rattle.std.specs.Prelude.{◌≡◌, [], None};
ghost use Rattle.std.specs.FinMap.{get};
ghost use Rattle.object_ops.specs.Replies.{Follows, was_done};
ghost use Rattle.object_ops.specs.Conditions.{IsSoundMake};
ghost use Rattle.object_acts.specs.Arrays.Marked.{IsDone};
ghost use Rattle.object_acts.specs.Objects.{made, unmarked, IsOfKind, IsTrackedBody};
ghost use Rattle.object_ops.specs.Parts.{kind_made};
ghost use Rattle.object_records.specs.Keys.Keys.{object_key};
ghost use Rattle.chunk_owner.specs.Slots.Marking.{AddsMarks};
ghost use Rattle.chunk_owner.specs.Slots.Slots.{AreOfKind, IsMarkedIn, StillSays, objects_of};
ghost use Rattle.chunk_owner.specs.declared.slots.slot.Mark.TheVariants.{Changed};
ghost use Rattle.chunk_owner.specs.Lanes.{at_id, set_at, LeavesOthers};
ghost use Rattle.chunk_owner.specs.Acts.{left, placing};

use crate::slots::{Slot, put};
use object_acts::{Object, object_json};
use object_ids::{IdMap, ObjectId};
use object_ops::{Make, Reply};
use std::alloc::{AllocError, Global};

fn is_done(reply: &Reply) -> bool
    ensures { result ≡ was_done reply.now }
{
    match reply {
        Reply::Done { .. } => true,
        Reply::Refused(_) => false,
    }
}

/// Puts an object at an id that has none, where the answer is that it was done.
pub(crate) fn put_done(
    slots: &mut IdMap<Slot>,
    id: ObjectId,
    object: Object,
    reply: Reply,
) -> Result<Reply, AllocError>
    requires absent { get (objects_of slots.old) id ≡ None }
    requires kind { IsOfKind id.kind object }
    requires fresh { IsTrackedBody (λ _. []) object.body }
    requires kinds { AreOfKind slots.old }
    ensures acts { Follows
        (reply, set_at (objects_of slots.old) id (left None (reply, unmarked object)).1)
        (objects_of slots.old) result (objects_of slots.new) }
    ensures kinds { AreOfKind slots.new }
    ensures others { LeavesOthers id slots.old slots.new }
    ensures says { StillSays slots.old slots.new }
    ensures alone { AddsMarks (λ key. IsDone result × IsMarkedIn id Changed object.body key)
        slots.old slots.new }
{
    if !is_done(&reply) {
        return Ok(reply);
    }
    put(slots, id, object)?;
    Ok(reply)
}

/// Makes an object at an id.
pub(crate) fn make_in(
    alloc: Global,
    slots: &mut IdMap<Slot>,
    make: &Make,
    id: ObjectId,
    root: &ObjectId,
) -> Result<Reply, AllocError>
    requires make { IsSoundMake make.now }
    requires kind { id.kind ≡ kind_made make.now }
    requires new { get (objects_of slots.old) id ≡ None }
    requires kinds { AreOfKind slots.old }
    ensures acts { Follows
        (at_id id (placing id root.now (made make.now)) (objects_of slots.old))
        (objects_of slots.old) result (objects_of slots.new) }
    ensures kinds { AreOfKind slots.new }
    ensures others { LeavesOthers id slots.old slots.new }
    ensures says { StillSays slots.old slots.new }
    ensures alone { AddsMarks (λ key. IsDone result × (key ≡ object_key id))
        slots.old slots.new }
{
    let object = Object::new(alloc, make)?;
    let tree = object_json(alloc, &id, root, &object)?;
    put(slots, id, object)?;
    Ok(Reply::with(201, tree))
}
