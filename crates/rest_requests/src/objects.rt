//! What is asked of objects, their links and their attributes.

ghost use Rattle.std.specs.Prelude.{◌≡◌, IfOk};
ghost use Rattle.hdf_values.specs.Attributes.{IsSoundAttribute, content};
ghost use Rattle.object_ops.specs.Conditions.{IsSoundOp};
ghost use Rattle.request_bodies.specs.Bodies.{attribute_in};
ghost use Rattle.request_bodies.specs.Refusing.{Answers};
ghost use Rattle.rest_requests.specs.Operations.{drop_attribute, drop_link, drop_object, get_attribute};
ghost use Rattle.rest_requests.specs.Operations.{get_link, get_object, list_attributes, list_links};
ghost use Rattle.rest_requests.specs.Operations.{make_object, put_attribute, put_link};

use crate::parameters::{SECOND, id_at, name_at, title_at};
use hdf_values::Attribute;
use json_trees::Tree;
use object_ids::Kind;
use object_ops::Op;
use request_bodies::{AttributeBodyFault, BodyFault, attribute_of, body_of, make_of, target_of};
use std::alloc::Global;

pub(crate) fn make_object(alloc: Global, kind: Kind, body: &[u8]) -> Result<Op, BodyFault>
    ensures exact { Answers result (make_object kind body.now) }
    ensures sound { IfOk result IsSoundOp }
{
    let tree = body_of(alloc, body)?;
    let (make, link) = make_of(alloc, kind, &tree)?;
    Ok(Op::MakeObject { make, link })
}

pub(crate) fn get_object(alloc: Global, kind: Kind, path: &str) -> Result<Op, BodyFault>
    ensures exact { Answers result (get_object kind path.now) }
    ensures sound { IfOk result IsSoundOp }
{
    let id = id_at(alloc, kind, path)?;
    Ok(Op::GetObject { id })
}

pub(crate) fn drop_object(alloc: Global, kind: Kind, path: &str) -> Result<Op, BodyFault>
    ensures exact { Answers result (drop_object kind path.now) }
    ensures sound { IfOk result IsSoundOp }
{
    let id = id_at(alloc, kind, path)?;
    Ok(Op::DropObject { id })
}

pub(crate) fn list_links(alloc: Global, path: &str) -> Result<Op, BodyFault>
    ensures exact { Answers result (list_links path.now) }
    ensures sound { IfOk result IsSoundOp }
{
    let id = id_at(alloc, Kind::Group, path)?;
    Ok(Op::ListLinks { id })
}

pub(crate) fn get_link(alloc: Global, path: &str) -> Result<Op, BodyFault>
    ensures exact { Answers result (get_link path.now) }
    ensures sound { IfOk result IsSoundOp }
{
    let id = id_at(alloc, Kind::Group, path)?;
    let title = title_at(alloc, path)?;
    Ok(Op::GetLink { id, title })
}

pub(crate) fn put_link(alloc: Global, path: &str, body: &[u8]) -> Result<Op, BodyFault>
    ensures exact { Answers result (put_link path.now body.now) }
    ensures sound { IfOk result IsSoundOp }
{
    let tree = body_of(alloc, body)?;
    let id = id_at(alloc, Kind::Group, path)?;
    let link = target_of(alloc, &tree)?;
    let title = title_at(alloc, path)?;
    Ok(Op::PutLink { id, title, link })
}

pub(crate) fn drop_link(alloc: Global, path: &str) -> Result<Op, BodyFault>
    ensures exact { Answers result (drop_link path.now) }
    ensures sound { IfOk result IsSoundOp }
{
    let id = id_at(alloc, Kind::Group, path)?;
    let title = title_at(alloc, path)?;
    Ok(Op::DropLink { id, title })
}

pub(crate) fn list_attributes(alloc: Global, kind: Kind, path: &str) -> Result<Op, BodyFault>
    ensures exact { Answers result (list_attributes kind path.now) }
    ensures sound { IfOk result IsSoundOp }
{
    let id = id_at(alloc, kind, path)?;
    Ok(Op::ListAttributes { id })
}

pub(crate) fn get_attribute(alloc: Global, kind: Kind, path: &str) -> Result<Op, BodyFault>
    ensures exact { Answers result (get_attribute kind path.now) }
    ensures sound { IfOk result IsSoundOp }
{
    let id = id_at(alloc, kind, path)?;
    let name = name_at(alloc, path, SECOND)?;
    Ok(Op::GetAttribute { id, name })
}

pub(crate) fn put_attribute(
    alloc: Global,
    kind: Kind,
    path: &str,
    body: &[u8],
) -> Result<Op, BodyFault>
    ensures exact { Answers result (put_attribute kind path.now body.now) }
    ensures sound { IfOk result IsSoundOp }
{
    let tree = body_of(alloc, body)?;
    let id = id_at(alloc, kind, path)?;
    let attribute = attribute_in(alloc, &tree)?;
    let name = name_at(alloc, path, SECOND)?;
    Ok(Op::PutAttribute {
        id,
        name,
        attribute,
    })
}

// The attribute of a body. One of too many cells is answered as want of memory is.
fn attribute_in(alloc: Global, body: &Tree) -> Result<Attribute, BodyFault>
    ensures exact { Answers result (attribute_in body.now) }
    ensures sound { IfOk result (λ a. IsSoundAttribute (content a)) }
{
    match attribute_of(alloc, body) {
        Ok(attribute) => Ok(attribute),
        Err(AttributeBodyFault::TooManyCells) => Err(BodyFault::NoMemory),
        Err(AttributeBodyFault::Body(fault)) => Err(fault),
    }
}

pub(crate) fn drop_attribute(alloc: Global, kind: Kind, path: &str) -> Result<Op, BodyFault>
    ensures exact { Answers result (drop_attribute kind path.now) }
    ensures sound { IfOk result IsSoundOp }
{
    let id = id_at(alloc, kind, path)?;
    let name = name_at(alloc, path, SECOND)?;
    Ok(Op::DropAttribute { id, name })
}
