//! The operation of each form.

ghost use Rattle.std.specs.Prelude.{◌≡◌, IfOk};
ghost use Rattle.object_ops.specs.Conditions.{IsSoundOp};
ghost use Rattle.request_bodies.specs.Refusing.{Answers};
ghost use Rattle.rest_requests.specs.Operations.{op_of};

use crate::datasets::{get_elem, get_points, get_shape, get_value, put_shape, put_value};
use crate::forms::Form;
use crate::nodes::{get_acl, put_acl, put_node};
use crate::objects::{
    drop_attribute, drop_link, drop_object, get_attribute, get_link, get_object, list_attributes,
    list_links, make_object, put_attribute, put_link,
};
use object_ops::Op;
use request_bodies::BodyFault;
use std::alloc::Global;

/// The operation of a form: its parts by the path, the query and the body.
pub(crate) fn op_of(
    alloc: Global,
    form: Form,
    path: &str,
    query: &str,
    body: &[u8],
) -> Result<Op, BodyFault>
    ensures exact { Answers result (op_of form path.now query.now body.now) }
    ensures sound { IfOk result IsSoundOp }
{
    match form {
        Form::GetNode => Ok(Op::GetNode),
        Form::PutNode => put_node(alloc, body),
        Form::Flush => Ok(Op::Flush),
        Form::DropNode => Ok(Op::DropNode),
        Form::ListNodes => Ok(Op::ListNodes),
        Form::GetAcls => Ok(Op::GetAcls),
        Form::GetAcl => get_acl(alloc, path),
        Form::PutAcl => put_acl(alloc, path, body),
        Form::MakeObject(kind) => make_object(alloc, kind, body),
        Form::GetObject(kind) => get_object(alloc, kind, path),
        Form::DropObject(kind) => drop_object(alloc, kind, path),
        Form::ListLinks => list_links(alloc, path),
        Form::GetLink => get_link(alloc, path),
        Form::PutLink => put_link(alloc, path, body),
        Form::DropLink => drop_link(alloc, path),
        Form::ListAttributes(kind) => list_attributes(alloc, kind, path),
        Form::GetAttribute(kind) => get_attribute(alloc, kind, path),
        Form::PutAttribute(kind) => put_attribute(alloc, kind, path, body),
        Form::DropAttribute(kind) => drop_attribute(alloc, kind, path),
        Form::GetShape => get_shape(alloc, path),
        Form::PutShape => put_shape(alloc, path, body),
        Form::GetElem => get_elem(alloc, path),
        Form::GetValue => get_value(alloc, path, query),
        Form::PutValue => put_value(alloc, path, body),
        Form::GetPoints => get_points(alloc, path, body),
    }
}
