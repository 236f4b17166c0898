//! What is asked of folders, domains and access lists.

ghost use Rattle.std.specs.Prelude.{◌≡◌, IfOk};
ghost use Rattle.object_ops.specs.Conditions.{IsSoundOp};
ghost use Rattle.request_bodies.specs.Refusing.{Answers};
ghost use Rattle.rest_requests.specs.Operations.{get_acl, put_acl, put_node};

use crate::parameters::{FIRST, name_at};
use object_ops::Op;
use request_bodies::{BodyFault, body_of, folder_of, rights_of};
use std::alloc::Global;

pub(crate) fn put_node(alloc: Global, body: &[u8]) -> Result<Op, BodyFault>
    ensures exact { Answers result (put_node body.now) }
    ensures sound { IfOk result IsSoundOp }
{
    let tree = body_of(alloc, body)?;
    let folder = folder_of(&tree)?;
    Ok(Op::PutNode { folder })
}

pub(crate) fn get_acl(alloc: Global, path: &str) -> Result<Op, BodyFault>
    ensures exact { Answers result (get_acl path.now) }
    ensures sound { IfOk result IsSoundOp }
{
    let name = name_at(alloc, path, FIRST)?;
    Ok(Op::GetAcl { name })
}

pub(crate) fn put_acl(alloc: Global, path: &str, body: &[u8]) -> Result<Op, BodyFault>
    ensures exact { Answers result (put_acl path.now body.now) }
    ensures sound { IfOk result IsSoundOp }
{
    let tree = body_of(alloc, body)?;
    let rights = rights_of(&tree)?;
    let name = name_at(alloc, path, FIRST)?;
    Ok(Op::PutAcl { name, rights })
}
