//! Who asks for the slabs of a sample, and how.

ghost use Rattle.std.specs.Prelude.{◌≡◌, ◌+◌, ◌≤◌, Some, IfOk};
ghost use Rattle.object_ops.specs.Conditions.{IsSoundOp};
ghost use Rattle.samples.specs.Requests.{IsSlabRequest, sample_path as text_of_path, sample_user as text_of_user};

use crate::selection::selection_text;
use access_lists::{Caller, Names};
use object_ids::{DomainPath, Kind, Name, ObjectId, read_path};
use object_ops::{Op, Request, SelectText};
use std::alloc::{AllocError, Global};

/// The path of the sample's domain.
pub(crate) fn sample_path(alloc: Global) -> Result<DomainPath, AllocError>
    ensures { IfOk result (λ path. path ≡ text_of_path) }
{
    match read_path(alloc, "/sample") {
        Ok(path) => Ok(path),
        Err(_) => Err(AllocError),
    }
}

/// The user who owns it.
pub(crate) fn sample_user(alloc: Global) -> Result<Name, AllocError>
    ensures { IfOk result (λ name. name ≡ text_of_user) }
{
    match Name::read(alloc, "sample", 255) {
        Ok(name) => Ok(name),
        Err(_) => Err(AllocError),
    }
}

/// This user as the one who asks.
pub(crate) fn sample_caller(alloc: Global) -> Result<Caller, AllocError>
    ensures { IfOk result (λ caller. caller.user ≡ Some text_of_user) }
{
    Ok(Caller {
        user: Some(sample_user(alloc)?),
        groups: Names::new(alloc),
    })
}

/// The read of the slab whose rows begin at one.
pub(crate) fn slab_request(alloc: Global, start: u32) -> Result<Request, AllocError>
    requires { start + 100 ≤ 1000 }
    ensures request { IfOk result (IsSlabRequest start) }
    ensures sound { IfOk result (λ request. IsSoundOp request.op) }
{
    let select = SelectText::from_string(selection_text(alloc, start)?);
    let id = ObjectId {
        kind: Kind::Dataset,
        domain: 1,
        run: 1,
        serial: 1,
    };
    Ok(Request {
        path: sample_path(alloc)?,
        op: Op::GetValue {
            id,
            select: Some(select),
        },
    })
}
