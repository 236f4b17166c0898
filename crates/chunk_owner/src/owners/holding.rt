//! What is held of lanes of which nothing changed.

ghost use Rattle.std.specs.Prelude.{◌<◌, length};
ghost use Rattle.flush_journal.specs.Records.{Held};
ghost use Rattle.chunk_owner.specs.Lanes.{AreWholeObjects};
ghost use Rattle.chunk_owner.specs.Owners.Joined.{AreLanes, whole};
ghost use Rattle.chunk_owner.specs.Owners.Records.{AreStillIn, DescribesObjects, LanesSay};

use crate::Owner;

/// That each object of all lanes stands at an id that may have a record, and that each of its parts can be spelled; and that
/// what is held describes the objects, where nothing changed since the last cut. It looks at no object.
pub fn are_described(owners: &[Owner])
    requires some { 0 < length owners.now }
    requires lanes { AreLanes (length owners.now) 0 owners.now }
    ensures described { AreStillIn owners.now → (held : Held) → LanesSay owners.now held
        → DescribesObjects held (whole owners.now) }
    ensures whole { AreWholeObjects (whole owners.now) }
{
    for owner in owners {
        owner.is_described();
    }
}
