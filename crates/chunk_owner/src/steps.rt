//! What one step of a request does among the objects of a lane.

ghost use Rattle.std.specs.Prelude.{◌≡◌, IsSomeAnd, Some};
ghost use Rattle.object_ids.specs.declared.ids.Kind.TheVariants.{Group};
ghost use Rattle.object_ops.specs.Replies.{Follows};
ghost use Rattle.object_ops.specs.Conditions.{IsSoundOp, IsSoundMake, IsSoundPlace};
ghost use Rattle.object_acts.specs.Arrays.Marked.{IsDone};
ghost use Rattle.chunk_owner.specs.Slots.Listed.{NotesTouched};
ghost use Rattle.chunk_owner.specs.Slots.Marking.{AddsMarks};
ghost use Rattle.chunk_owner.specs.Slots.Slots.{AreOfKind, StillSays, objects_of};
ghost use Rattle.chunk_owner.specs.Lanes.{LeavesUntouched};
ghost use Rattle.chunk_owner.specs.Acts.{acted, group_of, linking, make_act, making, on_touched, touched, touched_by_make, HasFresh, IsFreshFor};
ghost use Rattle.chunk_owner.specs.Marks.{IsKeyOf, IsStepMark};

use crate::placing::make_in;
use crate::slots::{Changes, Slot};
use crate::touching::{change_in, drop_in, link_in, read_in};
use object_ids::{IdMap, ObjectId};
use object_ops::{Grant, LinkPlace, Make, Op, Refusal, Reply, Step};
use std::alloc::{AllocError, Global};

/// The id of the object that a step touches, where it touches one.
pub fn touched(op: &Op, step: Step, grant: &Grant) -> Option<ObjectId>
    ensures { result ≡ touched grant.now op.now step }
{
    match (op, step) {
        (Op::MakeObject { link, .. }, Step::Link) => group_of(link),
        (Op::MakeObject { .. }, _) => grant.fresh,
        _ => op.id().copied(),
    }
}

fn group_of(link: &Option<LinkPlace>) -> Option<ObjectId>
    ensures { result ≡ group_of link.now }
{
    match link {
        Some(place) => Some(place.group),
        None => None,
    }
}

/// Lists the object that a step touched, where anything of it changed.
pub(crate) fn note_step(
    changes: &mut Changes,
    slots: &IdMap<Slot>,
    op: &Op,
    step: Step,
    grant: &Grant,
)
    requires { AreOfKind slots.now }
    ensures { NotesTouched (touched grant.now op.now step) slots.now changes.old changes.new }
{
    match touched(op, step, grant) {
        Some(id) => changes.note(slots, &id),
        None => {}
    }
}

/// What one step answers and leaves.
pub(crate) fn act_in(
    alloc: Global,
    slots: &mut IdMap<Slot>,
    op: &Op,
    step: Step,
    grant: &Grant,
) -> Result<Reply, AllocError>
    requires op { IsSoundOp op.now }
    requires fresh { HasFresh grant.now op.now (objects_of slots.old) }
    requires root { grant.now.root.kind ≡ Group }
    requires kinds { AreOfKind slots.old }
    ensures acts { Follows (acted grant.now op.now step (objects_of slots.old)) (objects_of slots.old)
        result (objects_of slots.new) }
    ensures kinds { AreOfKind slots.new }
    ensures others { LeavesUntouched (touched grant.now op.now step) slots.old slots.new }
    ensures says { StillSays slots.old slots.new }
    ensures alone { AddsMarks (λ key. IsDone result
        × IsStepMark grant.now op.now step slots.old key) slots.old slots.new }
{
    match op {
        Op::MakeObject { make, link } => make_or_link(alloc, slots, make, link, step, grant),
        Op::DropObject { id } => Ok(drop_in(alloc, slots, id, grant)),
        Op::GetObject { id }
        | Op::ListLinks { id }
        | Op::GetLink { id, .. }
        | Op::ListAttributes { id }
        | Op::GetAttribute { id, .. }
        | Op::GetShape { id }
        | Op::GetElem { id }
        | Op::GetValue { id, .. }
        | Op::GetPoints { id, .. } => read_in(alloc, slots, op, id, grant),
        Op::PutLink { id, .. }
        | Op::DropLink { id, .. }
        | Op::PutAttribute { id, .. }
        | Op::DropAttribute { id, .. }
        | Op::PutShape { id, .. }
        | Op::PutValue { id, .. } => change_in(alloc, slots, op, id, grant),
        _ => Ok(Reply::Refused(Refusal::Root)),
    }
}

fn make_or_link(
    alloc: Global,
    slots: &mut IdMap<Slot>,
    make: &Make,
    place: &Option<LinkPlace>,
    step: Step,
    grant: &Grant,
) -> Result<Reply, AllocError>
    requires make { IsSoundMake make.now }
    requires place { IsSoundPlace place.now }
    requires fresh { IsSomeAnd grant.now.fresh (IsFreshFor make.now (objects_of slots.old)) }
    requires root { grant.now.root.kind ≡ Group }
    requires kinds { AreOfKind slots.old }
    ensures acts { Follows
        (on_touched (touched_by_make grant.now place.now step)
        (λ id. make_act grant.now make.now place.now step) (objects_of slots.old))
        (objects_of slots.old) result (objects_of slots.new) }
    ensures kinds { AreOfKind slots.new }
    ensures others { LeavesUntouched (touched_by_make grant.now place.now step) slots.old slots.new }
    ensures says { StillSays slots.old slots.new }
    ensures alone { AddsMarks (λ key. IsDone result × IsKeyOf (touched_by_make grant.now place.now step) key)
        slots.old slots.new }
{
    match step {
        Step::Link => link_fresh(alloc, slots, place, grant.fresh.unwrap(), grant),
        Step::Only => make_fresh(alloc, slots, make, grant),
        Step::Make => make_fresh(alloc, slots, make, grant),
    }
}

fn link_fresh(
    alloc: Global,
    slots: &mut IdMap<Slot>,
    place: &Option<LinkPlace>,
    fresh: ObjectId,
    grant: &Grant,
) -> Result<Reply, AllocError>
    requires place { IsSoundPlace place.now }
    requires root { grant.now.root.kind ≡ Group }
    requires kinds { AreOfKind slots.old }
    ensures acts { Follows
        (on_touched (group_of place.now) (λ id. linking grant.now place.now (Some fresh))
        (objects_of slots.old))
        (objects_of slots.old) result (objects_of slots.new) }
    ensures kinds { AreOfKind slots.new }
    ensures others { LeavesUntouched (group_of place.now) slots.old slots.new }
    ensures says { StillSays slots.old slots.new }
    ensures alone { AddsMarks (λ key. IsDone result × IsKeyOf (group_of place.now) key)
        slots.old slots.new }
{
    match place {
        Some(place) => link_in(alloc, slots, place, fresh, grant),
        None => Ok(Reply::Refused(Refusal::Root)),
    }
}

fn make_fresh(
    alloc: Global,
    slots: &mut IdMap<Slot>,
    make: &Make,
    grant: &Grant,
) -> Result<Reply, AllocError>
    requires make { IsSoundMake make.now }
    requires fresh { IsSomeAnd grant.now.fresh (IsFreshFor make.now (objects_of slots.old)) }
    requires kinds { AreOfKind slots.old }
    ensures acts { Follows
        (on_touched grant.now.fresh (λ id. making grant.now make.now grant.now.fresh)
        (objects_of slots.old))
        (objects_of slots.old) result (objects_of slots.new) }
    ensures kinds { AreOfKind slots.new }
    ensures others { LeavesUntouched grant.now.fresh slots.old slots.new }
    ensures says { StillSays slots.old slots.new }
    ensures alone { AddsMarks (λ key. IsDone result × IsKeyOf grant.now.fresh key)
        slots.old slots.new }
{
    match grant.fresh {
        Some(fresh) => make_in(alloc, slots, make, fresh, &grant.root),
        None => Ok(Reply::Refused(Refusal::Root)),
    }
}
