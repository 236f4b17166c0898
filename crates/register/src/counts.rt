//! How many tickets each lane gave.

ghost use Rattle.std.specs.Prelude.{◌≡◌, ◌<◌, ◌≤◌, ◌^◌, All, length, slice_index};
ghost use Rattle.object_ids.specs.Ids.{lane_of};
ghost use Rattle.register.specs.Tickets.{all_counted, counted, turn_at};

use crate::tickets::Turn;
use containers::short_lists::ShortList;
use object_ids::{ObjectId, lane};
use object_ops::Step;

/// The most lanes.
pub(crate) const MAX_LANES: usize = 16;

/// How many tickets each lane gave, from lane 0 on.
pub(crate) type Counts = ShortList<MAX_LANES>;

// Gives out the next ticket of the lane of an object.
pub(crate) fn issue(counts: &mut Counts, id: &ObjectId, step: Step) -> Turn
    requires some { 0 < length counts.old }
    requires room { slice_index counts.old (lane_of (length counts.old) id.now) < 2 ^ 63 }
    ensures turn { result ≡ turn_at counts.old id.now step }
    ensures counted { counts.new ≡ counted counts.old id.now }
    ensures lanes { length counts.new ≡ length counts.old }
{
    let lane = lane(id, counts.len() as u32);
    let ticket = counts.get(lane as usize);
    counts.set(lane as usize, ticket + 1);
    Turn {
        lane,
        ticket,
        step: Some(step),
    }
}

// The counts once each lane has given one ticket more.
pub(crate) fn all_counted(counts: &Counts) -> Counts
    requires room { All (λ n. n < 2 ^ 63) counts.now }
    requires few { length counts.now ≤ 16 }
    ensures counted { result ≡ all_counted counts.now }
    ensures lanes { length result ≡ length counts.now }
{
    let mut after = Counts::new();
    for count in counts.as_slice() {
        after.push(*count + 1);
    }
    after
}
