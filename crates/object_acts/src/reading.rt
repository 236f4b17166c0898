//! What is answered to operations that read one object.

ghost use Rattle.std.specs.Prelude.{◌≡◌, true, IfOk, codes};
ghost use Rattle.shapes.specs.declared.printing.Form.TheVariants.{Rest};
ghost use Rattle.groups_links.specs.Printed.{links_list};
ghost use Rattle.object_ops.specs.Replies.{only};
ghost use Rattle.object_ops.specs.declared.replies.Reply.TheVariants.{Done};
ghost use Rattle.object_acts.specs.Arrays.Arrays.{value_read, points_read, shape_read, type_read};
ghost use Rattle.object_acts.specs.Objects.{unmarked, IsSoundBody};
ghost use Rattle.object_acts.specs.Acts.{of_array, of_links, link_read, reads_object, reply_of};

use crate::arrays::{read_points, read_shape, read_type, read_value};
use crate::attribute_acts::{get_attribute, list_attributes};
use crate::link_acts::{get_link, list_links};
use crate::objects::{Body, Object};
use crate::trees::object_json;
use json_trees::KeptList;
use object_ids::{Name, ObjectId};
use object_ops::{Op, Refusal, Reply, SelectText};
use std::alloc::{AllocError, Global};

/// The answer to an operation that reads an object, in a domain with this root. No other operation is given.
///
/// # Errors
///
/// Only where memory runs out.
pub fn reply(alloc: Global, object: &Object, op: &Op, root: &ObjectId) -> Result<Reply, AllocError>
    requires reads { reads_object op.now ≡ true }
    requires sound { IsSoundBody object.now.body }
    ensures { IfOk result (λ r. r ≡ reply_of root.now op.now (unmarked object.now)) }
{
    match op {
        Op::GetObject { id } => Ok(Reply::with(200, object_json(alloc, id, root, object)?)),
        Op::ListLinks { id } => links_of(alloc, &object.body, id),
        Op::GetLink { id, title } => link_of(alloc, &object.body, id, title),
        Op::ListAttributes { .. } => list_attributes(alloc, &object.attributes),
        Op::GetAttribute { name, .. } => get_attribute(alloc, &object.attributes, name),
        Op::GetShape { id } => shape_of(alloc, &object.body, id),
        Op::GetElem { id } => type_of(alloc, &object.body, id),
        Op::GetValue { id, select } => value_of(alloc, &object.body, id, select),
        Op::GetPoints { id, points } => points_of(alloc, &object.body, id, points),
        _ => Ok(Reply::done(alloc, 200)),
    }
}

fn links_of(alloc: Global, body: &Body, id: &ObjectId) -> Result<Reply, AllocError>
    ensures { IfOk result (λ r. r ≡ of_links id.now
        (λ links. Done 200 (only (codes "links") (links_list links Rest))) body.now) }
{
    match body {
        Body::Group(links) => list_links(alloc, links),
        _ => Ok(Reply::Refused(Refusal::NoObject { id: *id })),
    }
}

fn link_of(alloc: Global, body: &Body, id: &ObjectId, title: &Name) -> Result<Reply, AllocError>
    ensures { IfOk result (λ r. r ≡ of_links id.now (link_read title.now) body.now) }
{
    match body {
        Body::Group(links) => get_link(alloc, links, title),
        _ => Ok(Reply::Refused(Refusal::NoObject { id: *id })),
    }
}

fn shape_of(alloc: Global, body: &Body, id: &ObjectId) -> Result<Reply, AllocError>
    ensures { IfOk result (λ r. r ≡ of_array id.now shape_read body.now) }
{
    match body {
        Body::Dataset(array) => read_shape(alloc, array),
        _ => Ok(Reply::Refused(Refusal::NoObject { id: *id })),
    }
}

fn type_of(alloc: Global, body: &Body, id: &ObjectId) -> Result<Reply, AllocError>
    ensures { IfOk result (λ r. r ≡ of_array id.now type_read body.now) }
{
    match body {
        Body::Dataset(array) => read_type(alloc, array),
        _ => Ok(Reply::Refused(Refusal::NoObject { id: *id })),
    }
}

fn value_of(
    alloc: Global,
    body: &Body,
    id: &ObjectId,
    select: &Option<SelectText>,
) -> Result<Reply, AllocError>
    ensures { IfOk result (λ r. r ≡ of_array id.now (value_read select.now) body.now) }
{
    match body {
        Body::Dataset(array) => read_value(alloc, array, select.as_ref()),
        _ => Ok(Reply::Refused(Refusal::NoObject { id: *id })),
    }
}

fn points_of(
    alloc: Global,
    body: &Body,
    id: &ObjectId,
    points: &KeptList,
) -> Result<Reply, AllocError>
    ensures { IfOk result (λ r. r ≡ of_array id.now (points_read points.now) body.now) }
{
    match body {
        Body::Dataset(array) => read_points(alloc, array, points),
        _ => Ok(Reply::Refused(Refusal::NoObject { id: *id })),
    }
}
