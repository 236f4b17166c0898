//! Reads of the slabs of a sample.

ghost use Rattle.std.specs.Prelude.{◌≡◌, ◌+◌, ◌^◌, ◌<◌, ◌≤◌, ℕ, Some};
ghost use Rattle.object_ops.specs.Conditions.{IsSoundOp};
ghost use Rattle.service_core.specs.Worlds.{seen};
ghost use Rattle.samples.specs.Requests.{IsSlabRequest, sample_user as text_of_user};
ghost use Rattle.samples.specs.Worlds.{HoldsSample, IsSumOf, IsSummed};

use crate::requests::slab_request;
use crate::sums::sum_of_body;
use access_lists::Caller;
use object_ops::{Reply, Request};
use service_core::{What, World};
use std::alloc::{AllocError, Global};

/// The sum of the slab whose rows begin at one, as a caller reads it.
pub(crate) fn read_slab(
    alloc: Global,
    world: &mut World,
    caller: &Caller,
    start: u32,
) -> Result<u64, AllocError>
    requires low { start + 100 ≤ 1000 }
    requires user { caller.now.user ≡ Some text_of_user }
    ensures { (n : ℕ) → n < 2 ^ 64 → HoldsSample n (seen world.old)
        → IsSummed n start result (seen world.new) }
{
    let request = slab_request(alloc, start)?;
    sum_of_request(alloc, world, caller, &request, start)
}

// The same by its request.
fn sum_of_request(
    alloc: Global,
    world: &mut World,
    caller: &Caller,
    request: &Request,
    start: u32,
) -> Result<u64, AllocError>
    requires low { start + 100 ≤ 1000 }
    requires user { caller.now.user ≡ Some text_of_user }
    requires request { IsSlabRequest start request.now }
    requires sound { IsSoundOp request.now.op }
    ensures { (n : ℕ) → n < 2 ^ 64 → HoldsSample n (seen world.old)
        → IsSummed n start result (seen world.new) }
{
    if !world.has_room() {
        return Err(AllocError);
    }
    let answer = world.step(caller, request);
    sum_of_answer(alloc, &answer.what)
}

// The sum of what was read, where something was.
fn sum_of_answer(alloc: Global, what: &What) -> Result<u64, AllocError>
    ensures { IsSumOf what.now result }
{
    match what {
        What::Replied(Reply::Done { body, .. }) => {
            let tree = body.tree(alloc)?;
            Ok(sum_of_body(&tree))
        }
        _ => Err(AllocError),
    }
}
