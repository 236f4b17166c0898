//! Whether a step can be taken.

ghost use Rattle.std.specs.Prelude.{IsTrue};
ghost use Rattle.chunk_owner.specs.Acts.{HasFresh, IsMakeStep, IsStepOf};

use chunk_owner::Owner;
use object_ops::{Grant, LinkPlace, Op, Step};

fn is_make_step(link: &Option<LinkPlace>, step: Step) -> bool
    ensures { IsTrue result → IsMakeStep link.now step }
{
    match (link, step) {
        (None, Step::Only) => true,
        (Some(_), Step::Link | Step::Make) => true,
        _ => false,
    }
}

/// Whether the step is one of the operation's.
pub(crate) fn is_step_of(op: &Op, step: Step) -> bool
    ensures { IsTrue result → IsStepOf op.now step }
{
    match op {
        Op::MakeObject { link, .. } => is_make_step(link, step),
        _ => step == Step::Only,
    }
}

/// Whether the id of an object that is to be made is of its kind and free.
pub(crate) fn has_fresh(op: &Op, grant: &Grant, owner: &Owner) -> bool
    ensures { IsTrue result → HasFresh grant.now op.now owner.now.objects }
{
    let Op::MakeObject { make, .. } = op else {
        return true;
    };
    let Some(fresh) = grant.fresh else {
        return false;
    };
    fresh.kind == make.kind() && owner.object(&fresh).is_none()
}
