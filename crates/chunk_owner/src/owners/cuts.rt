//! A cut of all lanes.

ghost use Rattle.std.specs.Prelude.{◌≡◌, ◌<◌, ℕ, length, OnOk, OnErr};
ghost use Rattle.std.specs.List.{AllByRecursion};
ghost use Rattle.flush_journal.specs.Batches.{records};
ghost use Rattle.flush_journal.specs.Records.{Held};
ghost use Rattle.flush_journal.specs.Cuts.Cuts.{AppendsEach, IsCut};
ghost use Rattle.chunk_owner.specs.Slots.Bodies.{IsObjectRecord};
ghost use Rattle.chunk_owner.specs.Lanes.{IsWhole};
ghost use Rattle.chunk_owner.specs.Owners.Cutting.{CutsFront, CutsLane, IsStillAt};
ghost use Rattle.chunk_owner.specs.Owners.Joined.{AreLanes, whole};
ghost use Rattle.chunk_owner.specs.Owners.Records.{AreStillIn, IsMarkedIn, IsStandingIn, LanesSay};

use crate::Owner;
use flush_journal::Batch;
use std::alloc::AllocError;

/// Appends the records of what changed in the lanes since the last cut, lane after lane, and takes it as kept: what is held
/// then says of each id what stands there. All objects stay.
///
/// # Errors
///
/// Only where memory runs out. Then some first lanes are cut whole; all others are as they were, and the batch has the
/// records of those first ones alone.
pub fn cut_lanes(owners: &mut [Owner], into: &mut Batch) -> Result<(), AllocError>
    requires lanes { AreLanes (length owners.old) 0 owners.old }
    ensures cut { (base : Held) → IsCut (IsMarkedIn owners.old) base
        (records into.old) (records into.new)
        (λ held. LanesSay owners.old base → LanesSay owners.new held) }
    ensures bodies { AppendsEach (IsObjectRecord (whole owners.old))
        (records into.old) (records into.new) }
    ensures standing { AppendsEach (IsStandingIn owners.old) (records into.old) (records into.new) }
    ensures still { OnOk result (AreStillIn owners.new) }
    ensures front { OnErr result
        (CutsFront owners.old owners.new (records into.old) (records into.new)) }
    ensures objects { whole owners.new ≡ whole owners.old }
    ensures lanes { AreLanes (length owners.old) 0 owners.new }
{
    are_whole(owners);
    for lane in 0..owners.len() {
        cut_lane(owners, lane, into)?;
    }
    Ok(())
}

// Cuts one lane.
fn cut_lane(owners: &mut [Owner], lane: usize, into: &mut Batch) -> Result<(), AllocError>
    requires { lane < length owners.old }
    ensures cuts { CutsLane lane owners.old owners.new (records into.old) (records into.new) }
    ensures still { OnOk result (IsStillAt lane owners.new) }
    ensures err { OnErr result (owners.new ≡ owners.old) }
    ensures back { OnErr result (records into.new ≡ records into.old) }
{
    let owner = &mut owners[lane];
    let done = owner.cut(into);
    owner.is_whole();
    done
}

/// What holds of each lane.
pub fn are_whole(owners: &[Owner])
    ensures { AllByRecursion IsWhole owners.now }
{
    for owner in owners {
        owner.is_whole();
    }
}
