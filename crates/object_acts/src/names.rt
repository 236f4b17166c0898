//! Refusals over names.

ghost use Rattle.std.specs.Prelude.{◌≡◌, IfOk};
ghost use Rattle.object_ops.specs.declared.replies.Reply.TheVariants.{Refused};
ghost use Rattle.object_ops.specs.declared.refusals.Refusal.TheVariants.{Taken, NoName};

use object_ids::Name;
use object_ops::{Refusal, Reply};
use std::alloc::AllocError;

/// That the name is there already.
pub(crate) fn taken(name: &Name) -> Result<Reply, AllocError>
    ensures { IfOk result (λ r. r ≡ Refused (Taken name.now)) }
{
    Ok(Reply::Refused(Refusal::Taken { name: name.copy()? }))
}

/// That the name isn't there.
pub(crate) fn no_name(name: &Name) -> Result<Reply, AllocError>
    ensures { IfOk result (λ r. r ≡ Refused (NoName name.now)) }
{
    Ok(Reply::Refused(Refusal::NoName { name: name.copy()? }))
}
