//! What is answered to operations that change one object, and what they leave.

ghost use Rattle.std.specs.Prelude.{◌≡◌, ℕ, List, true};
ghost use Rattle.groups_links.specs.Titles.{IsGoodTitle};
ghost use Rattle.groups_links.specs.Targets.{IsSoundLink};
ghost use Rattle.groups_links.specs.declared.target.LinkTo.TheVariants.{Hard};
ghost use Rattle.object_ids.specs.declared.ids.Kind.{Kind};
ghost use Rattle.object_ops.specs.Replies.{Follows, was_done};
ghost use Rattle.object_ops.specs.Conditions.{IsSoundOp, AreDims};
ghost use Rattle.object_acts.specs.Arrays.Arrays.{shape_changed, value_written};
ghost use Rattle.object_acts.specs.Arrays.Marked.{AddsFew, AddsMany, IsDone};
ghost use Rattle.object_acts.specs.Arrays.Marked.{is_truncated, is_written, selected};
ghost use Rattle.object_acts.specs.Arrays.Stops.{IfTooMany};
ghost use Rattle.object_acts.specs.Objects.{unmarked, IsOfKind, KeepsTrack};
ghost use Rattle.object_acts.specs.Acts.{change_of, changes_object, drop_from, link_put};
ghost use Rattle.object_acts.specs.Acts.{on_array, on_links};
ghost use Rattle.object_acts.specs.Marked.{AddsFewTo, AddsManyTo, IsArrayAnd, MarksAloneIn};
ghost use Rattle.object_acts.specs.Marked.{in_array, is_changed_by, is_dirty_in};

use crate::arrays::{change_shape, write_value};
use crate::attribute_acts::{drop_attribute, put_attribute};
use crate::fault::ChangeFault;
use crate::link_acts::{drop_link, put_link};
use crate::objects::{Body, Object};
use groups_links::LinkTo;
use hdf_values::KeptValue;
use object_ids::{Name, ObjectId};
use object_ops::{Op, Part, Refusal, Reply};
use shapes::Dims;
use std::alloc::{AllocError, Global};

/// The answer to an operation that changes an object, and the object that follows. No other operation is given. An error
/// leaves the object as it was.
///
/// # Errors
///
/// `TooManyNew` exactly where a write that nothing refuses would add chunks of more than
/// [`MAX_NEW_BYTES`](crate::arrays::MAX_NEW_BYTES) bytes, or `NoMemory`.
pub fn change(alloc: Global, object: &mut Object, op: &Op) -> Result<Reply, ChangeFault>
    requires changes { changes_object op.now ≡ true }
    requires sound { IsSoundOp op.now }
    ensures acts { Follows (change_of op.now (unmarked object.old)) (unmarked object.old)
        result (unmarked object.new) }
    ensures kind { (k : Kind) → IsOfKind k object.old → IsOfKind k object.new }
    ensures tracked { KeepsTrack object.old.body object.new.body }
    ensures alone { MarksAloneIn (λ i. IsDone result
        × (is_changed_by op.now object.old.body i ≡ true)) object.old.body object.new.body }
    ensures few { IsDone result → AddsFewTo op.now object.old.body }
    ensures many { IfTooMany result (AddsManyTo op.now object.old.body) }
    ensures judged { IfTooMany result
        (was_done (change_of op.now (unmarked object.old)).0 ≡ true) }
{
    match op {
        Op::PutLink { id, title, link } => Ok(link_put(alloc, object, id, title, link)?),
        Op::DropLink { id, title } => Ok(link_dropped(alloc, object, id, title)?),
        Op::PutAttribute {
            name,
            attribute,
            ..
        } => Ok(put_attribute(alloc, &mut object.attributes, name, attribute)?),
        Op::DropAttribute { name, .. } => {
            Ok(drop_attribute(alloc, &mut object.attributes, name)?)
        }
        Op::PutShape { id, dims } => Ok(shape_put(alloc, object, id, dims)),
        Op::PutValue { id, part, value } => value_put(alloc, object, id, part, value),
        _ => Ok(Reply::done(alloc, 200)),
    }
}

/// The link of a group to an object that is to be made.
///
/// # Errors
///
/// Only where memory runs out.
pub fn link_made(
    alloc: Global,
    object: &mut Object,
    id: &ObjectId,
    title: &Name,
    fresh: ObjectId,
) -> Result<Reply, AllocError>
    requires { IsGoodTitle title.now }
    ensures acts { Follows (on_links id.now (link_put title.now (Hard fresh))
        (unmarked object.old).attributes (unmarked object.old).body) (unmarked object.old)
        result (unmarked object.new) }
    ensures kind { (k : Kind) → IsOfKind k object.old → IsOfKind k object.new }
    ensures tracked { KeepsTrack object.old.body object.new.body }
    ensures alone { (i : List ℕ) → is_dirty_in object.new.body i ≡ is_dirty_in object.old.body i }
{
    link_put(alloc, object, id, title, &LinkTo::Hard(fresh))
}

fn link_put(
    alloc: Global,
    object: &mut Object,
    id: &ObjectId,
    title: &Name,
    link: &LinkTo,
) -> Result<Reply, AllocError>
    requires title { IsGoodTitle title.now }
    requires link { IsSoundLink link.now }
    ensures acts { Follows (on_links id.now (link_put title.now link.now)
        (unmarked object.old).attributes (unmarked object.old).body) (unmarked object.old)
        result (unmarked object.new) }
    ensures kind { (k : Kind) → IsOfKind k object.old → IsOfKind k object.new }
    ensures tracked { KeepsTrack object.old.body object.new.body }
    ensures alone { (i : List ℕ) → is_dirty_in object.new.body i ≡ is_dirty_in object.old.body i }
{
    match &mut object.body {
        Body::Group(links) => put_link(alloc, links, title, link),
        _ => Ok(Reply::Refused(Refusal::NoObject { id: *id })),
    }
}

fn link_dropped(
    alloc: Global,
    object: &mut Object,
    id: &ObjectId,
    title: &Name,
) -> Result<Reply, AllocError>
    ensures acts { Follows (on_links id.now (drop_from title.now)
        (unmarked object.old).attributes (unmarked object.old).body) (unmarked object.old)
        result (unmarked object.new) }
    ensures kind { (k : Kind) → IsOfKind k object.old → IsOfKind k object.new }
    ensures tracked { KeepsTrack object.old.body object.new.body }
    ensures alone { (i : List ℕ) → is_dirty_in object.new.body i ≡ is_dirty_in object.old.body i }
{
    match &mut object.body {
        Body::Group(links) => drop_link(alloc, links, title),
        _ => Ok(Reply::Refused(Refusal::NoObject { id: *id })),
    }
}

fn shape_put(alloc: Global, object: &mut Object, id: &ObjectId, dims: &Dims) -> Reply
    requires { AreDims dims.now }
    ensures reply { result ≡ (on_array id.now (shape_changed dims.now)
        (unmarked object.old).attributes (unmarked object.old).body).0 }
    ensures rest { unmarked object.new ≡ (on_array id.now (shape_changed dims.now)
        (unmarked object.old).attributes (unmarked object.old).body).1 }
    ensures kind { (k : Kind) → IsOfKind k object.old → IsOfKind k object.new }
    ensures tracked { KeepsTrack object.old.body object.new.body }
    ensures alone { MarksAloneIn (λ i. (was_done result ≡ true)
        × (in_array (λ g. is_truncated dims.now g i) object.old.body ≡ true))
        object.old.body object.new.body }
{
    match &mut object.body {
        Body::Dataset(array) => change_shape(array, alloc, dims),
        _ => Reply::Refused(Refusal::NoObject { id: *id }),
    }
}

fn value_put(
    alloc: Global,
    object: &mut Object,
    id: &ObjectId,
    part: &Part,
    value: &KeptValue,
) -> Result<Reply, ChangeFault>
    ensures acts { Follows (on_array id.now (value_written part.now value.now)
        (unmarked object.old).attributes (unmarked object.old).body) (unmarked object.old)
        result (unmarked object.new) }
    ensures kind { (k : Kind) → IsOfKind k object.old → IsOfKind k object.new }
    ensures tracked { KeepsTrack object.old.body object.new.body }
    ensures alone { MarksAloneIn (λ i. IsDone result
        × (in_array (λ g. is_written part.now g i) object.old.body ≡ true))
        object.old.body object.new.body }
    ensures few { IsDone result
        → IsArrayAnd (λ s. AddsFew s (selected part.now s.grid.shape)) object.old.body }
    ensures many { IfTooMany result
        (IsArrayAnd (λ s. AddsMany s (selected part.now s.grid.shape)) object.old.body) }
    ensures judged { IfTooMany result (was_done (on_array id.now (value_written part.now value.now)
        (unmarked object.old).attributes (unmarked object.old).body).0 ≡ true) }
{
    match &mut object.body {
        Body::Dataset(array) => write_value(alloc, array, part, value),
        _ => Ok(Reply::Refused(Refusal::NoObject { id: *id })),
    }
}
