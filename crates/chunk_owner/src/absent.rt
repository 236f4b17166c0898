//! Ids without an object.

ghost use Rattle.std.specs.Prelude.{◌≡◌, ◌==◌, true, None, IfOk};
ghost use Rattle.object_ids.specs.IdOrder.{id_eq};
ghost use Rattle.object_acts.specs.Acts.{reads_object, reply_of};
ghost use Rattle.chunk_owner.specs.Acts.{is_used, missing, object_or_root, read_by};

use object_acts::{Object, reply};
use object_ids::ObjectId;
use object_ops::{Grant, Op, Refusal, Reply};
use std::alloc::{AllocError, Global};

// Whether the id was given before.
fn is_used(grant: &Grant, id: &ObjectId) -> bool
    ensures { result ≡ is_used grant.now id.now }
{
    if id.run < grant.run {
        return true;
    }
    id.run == grant.run && id.serial < grant.serial
}

/// Whether an object of the id is one of the domain.
pub(crate) fn is_own(grant: &Grant, id: &ObjectId) -> bool
    ensures { result ≡ (id.now.domain == grant.now.number) }
{
    id.domain == grant.number
}

/// Whether the id is the root's.
pub(crate) fn is_root(grant: &Grant, id: &ObjectId) -> bool
    ensures { result ≡ id_eq id.now grant.now.root }
{
    *id == grant.root
}

/// Why an id has no object.
pub(crate) fn missing(grant: &Grant, id: &ObjectId) -> Refusal
    ensures { result ≡ missing grant.now id.now }
{
    if is_own(grant, id) && is_used(grant, id) {
        return Refusal::Gone { id: *id };
    }
    Refusal::NoObject { id: *id }
}

/// The answer to an operation that reads an object which isn't there.
pub(crate) fn read_absent(
    alloc: Global,
    op: &Op,
    id: &ObjectId,
    grant: &Grant,
) -> Result<Reply, AllocError>
    requires { reads_object op.now ≡ true }
    ensures { IfOk result (λ r. r ≡ read_by (reply_of grant.now.root op.now)
        (missing grant.now id.now) (object_or_root grant.now id.now None)) }
{
    if !is_root(grant, id) {
        return Ok(Reply::Refused(missing(grant, id)));
    }
    reply(alloc, &Object::new_group(alloc), op, &grant.root)
}
