//! Changes of one object.

ghost use Rattle.std.specs.Prelude.{◌≡◌, ◌≢◌, ℕ, List, true, is_some, Some, IfOk, OnErr};
ghost use Rattle.std.specs.FinMap.{get};
ghost use Rattle.groups_links.specs.Titles.{IsGoodTitle};
ghost use Rattle.groups_links.specs.declared.target.LinkTo.TheVariants.{Hard};
ghost use Rattle.flush_journal.specs.Records.{Held};
ghost use Rattle.object_ids.specs.IdValues.{Id};
ghost use Rattle.object_ids.specs.declared.ids.Kind.{Kind};
ghost use Rattle.object_ops.specs.Replies.{Follows, was_done};
ghost use Rattle.object_ops.specs.Conditions.{IsSoundOp};
ghost use Rattle.object_acts.specs.Arrays.Marked.{IsDone};
ghost use Rattle.object_acts.specs.Acts.{change_of, changes_object, link_put, on_links};
ghost use Rattle.object_acts.specs.Marked.{MarksAloneIn, is_changed_by, is_dirty_in};
ghost use Rattle.object_acts.specs.Objects.{IsOfKind, unmarked};
ghost use Rattle.object_records.specs.Keys.Keys.{object_key};
ghost use Rattle.chunk_owner.specs.Slots.Changed.{ChangesAt, is_outdated, mark_after, writes_cells};
ghost use Rattle.chunk_owner.specs.Slots.Marking.{AddsMarks, IsOutdatedAt};
ghost use Rattle.chunk_owner.specs.Slots.Slots.{AreOfKind, Says, StillSays, object_of, objects_of};
ghost use Rattle.chunk_owner.specs.Lanes.{LeavesOthers};
ghost use Rattle.chunk_owner.specs.declared.slots.slot.Mark.TheVariants.{Dropped};

use crate::slots::slot::{Mark, Slot};
use object_acts::{change as change_object, link_made as link_object, refusals_leave_the_object};
use object_ids::{IdMap, Name, ObjectId};
use object_ops::{Op, Reply};
use std::alloc::{AllocError, Global};

/// The answer to an operation that changes an object, and the object that follows. The next cut writes what changed of it:
/// of a write the chunks alone. An error leaves the object as requests see it.
///
/// # Errors
///
/// Only where memory runs out; a write that would add too many bytes of chunks is told so too.
pub fn change(alloc: Global, slot: &mut Slot, op: &Op) -> Result<Reply, AllocError>
    requires changes { changes_object op.now ≡ true }
    requires sound { IsSoundOp op.now }
    requires live { slot.old.mark ≢ Dropped }
    ensures acts { Follows (change_of op.now (unmarked slot.old.object))
        (unmarked slot.old.object) result (unmarked slot.new.object) }
    ensures live { slot.new.mark ≢ Dropped }
    ensures mark { IfOk result (λ reply. slot.new.mark
        ≡ mark_after slot.old.mark (is_outdated op.now reply)) }
    ensures unmarked { OnErr result (slot.new.mark ≡ slot.old.mark) }
    ensures kind { (k : Kind) → IsOfKind k slot.old.object → IsOfKind k slot.new.object }
    ensures says { (id : Id) (held : Held) → Says (Some slot.old) id held
        → Says (Some slot.new) id held }
    ensures alone { MarksAloneIn (λ i. IsDone result
        × (is_changed_by op.now slot.old.object.body i ≡ true))
        slot.old.object.body slot.new.object.body }
{
    refusals_leave_the_object();
    let reply = change_object(alloc, &mut slot.object, op)?;
    slot.mark = mark_after(slot.mark, is_outdated(op, &reply));
    Ok(reply)
}

/// The link of a group to an object that is to be made.
///
/// # Errors
///
/// Only where memory runs out.
pub fn link_made(
    alloc: Global,
    slot: &mut Slot,
    id: &ObjectId,
    title: &Name,
    fresh: ObjectId,
) -> Result<Reply, AllocError>
    requires title { IsGoodTitle title.now }
    requires live { slot.old.mark ≢ Dropped }
    ensures acts { Follows (on_links id.now (link_put title.now (Hard fresh))
        (unmarked slot.old.object).attributes (unmarked slot.old.object).body)
        (unmarked slot.old.object) result (unmarked slot.new.object) }
    ensures live { slot.new.mark ≢ Dropped }
    ensures mark { IfOk result (λ reply. slot.new.mark
        ≡ mark_after slot.old.mark (was_done reply)) }
    ensures unmarked { OnErr result (slot.new.mark ≡ slot.old.mark) }
    ensures kind { (k : Kind) → IsOfKind k slot.old.object → IsOfKind k slot.new.object }
    ensures says { (id : Id) (held : Held) → Says (Some slot.old) id held
        → Says (Some slot.new) id held }
    ensures alone { (i : List ℕ)
        → is_dirty_in slot.new.object.body i ≡ is_dirty_in slot.old.object.body i }
{
    refusals_leave_the_object();
    let reply = link_object(alloc, &mut slot.object, id, title, fresh)?;
    slot.mark = mark_after(slot.mark, was_done(&reply));
    Ok(reply)
}

/// The same of the object of an id: all others stay.
///
/// # Errors
///
/// Only where memory runs out; a write that would add too many bytes of chunks is told so too.
pub fn change_at(
    alloc: Global,
    slots: &mut IdMap<Slot>,
    id: &ObjectId,
    op: &Op,
) -> Result<Reply, AllocError>
    requires changes { changes_object op.now ≡ true }
    requires sound { IsSoundOp op.now }
    requires there { is_some (object_of (get slots.old id.now)) ≡ true }
    requires kinds { AreOfKind slots.old }
    ensures acts { ChangesAt id.now (change_of op.now) (objects_of slots.old) result
        (objects_of slots.new) }
    ensures says { StillSays slots.old slots.new }
    ensures alone { AddsMarks (λ key. IsDone result
        × IsOutdatedAt id.now op.now (object_of (get slots.old id.now)) key)
        slots.old slots.new }
    ensures kinds { AreOfKind slots.new }
    ensures others { LeavesOthers id.now slots.old slots.new }
{
    match slots.get_mut(id) {
        Some(slot) => change(alloc, slot, op),
        None => unreachable!(),
    }
}

/// The link of the group of an id to an object that is to be made.
///
/// # Errors
///
/// Only where memory runs out.
pub fn link_at(
    alloc: Global,
    slots: &mut IdMap<Slot>,
    id: &ObjectId,
    title: &Name,
    fresh: ObjectId,
) -> Result<Reply, AllocError>
    requires title { IsGoodTitle title.now }
    requires there { is_some (object_of (get slots.old id.now)) ≡ true }
    requires kinds { AreOfKind slots.old }
    ensures acts { ChangesAt id.now
        (λ o. on_links id.now (link_put title.now (Hard fresh)) o.attributes o.body)
        (objects_of slots.old) result (objects_of slots.new) }
    ensures says { StillSays slots.old slots.new }
    ensures alone { AddsMarks (λ key. IsDone result × (key ≡ object_key id.now))
        slots.old slots.new }
    ensures kinds { AreOfKind slots.new }
    ensures others { LeavesOthers id.now slots.old slots.new }
{
    match slots.get_mut(id) {
        Some(slot) => link_made(alloc, slot, id, title, fresh),
        None => unreachable!(),
    }
}

fn mark_after(mark: Mark, is_outdated: bool) -> Mark
    ensures { result ≡ mark_after mark is_outdated }
{
    if is_outdated { Mark::Changed } else { mark }
}

// Whether an object's record no longer tells it: what is refused leaves it, and a write changes its cells alone.
fn is_outdated(op: &Op, reply: &Reply) -> bool
    ensures { result ≡ is_outdated op.now reply.now }
{
    was_done(reply) && !writes_cells(op)
}

fn was_done(reply: &Reply) -> bool
    ensures { result ≡ was_done reply.now }
{
    match reply {
        Reply::Done { .. } => true,
        Reply::Refused(_) => false,
    }
}

fn writes_cells(op: &Op) -> bool
    ensures { result ≡ writes_cells op.now }
{
    matches!(op, Op::PutValue { .. })
}
