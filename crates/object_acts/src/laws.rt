//! What holds of every change of an object, in other words than the definitions.

ghost use Rattle.std.specs.Prelude.{◌≡◌, ℕ, List};
ghost use Rattle.object_ids.specs.IdValues.{Id};
ghost use Rattle.groups_links.specs.declared.target.LinkTo.{LinkTo};
ghost use Rattle.object_ops.specs.declared.ops.Op.{Op};
ghost use Rattle.object_ops.specs.declared.refusals.Refusal.{Refusal};
ghost use Rattle.object_ops.specs.declared.replies.Reply.TheVariants.{Refused};
ghost use Rattle.object_acts.specs.declared.objects.Object.{Object};
ghost use Rattle.object_acts.specs.Objects.{unmarked};
ghost use Rattle.object_acts.specs.Acts.{change_of, link_put, on_links};

use crate::arrays::refusals_leave_the_array;

/// A refused change leaves the object as requests see it, and so does a refused link to an object that is to be made.
pub fn refusals_leave_the_object()
    ensures change { (op : Op) (o : Object) (refusal : Refusal)
        → (change_of op (unmarked o)).0 ≡ Refused refusal
        → (change_of op (unmarked o)).1 ≡ unmarked o }
    ensures link { (id : Id) (title : List ℕ) (link : LinkTo) (o : Object) (refusal : Refusal)
        → (on_links id (link_put title link) o.attributes o.body).0 ≡ Refused refusal
        → (on_links id (link_put title link) o.attributes o.body).1 ≡ o }
{
    refusals_leave_the_array();
}
