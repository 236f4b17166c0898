//! The keys of lanes' records.

ghost use Rattle.std.specs.Prelude.{◌≡◌, ◌≤◌, ◌<◌, MatchOption};
ghost use Rattle.object_records.specs.Keys.Keys.{IsSubject, key_of};
ghost use Rattle.chunk_owner.specs.Installs.Records.{IsOfLane, IsOther};
ghost use Rattle.chunk_owner.specs.Installs.Walks.{subject_of};

use object_ids::{ObjectId, lane as lane_of};
use object_records::keys::{ChunkId, chunk_at, object_at};

/// What a lane's record is of.
#[derive(Clone, Copy, Debug)]
pub(crate) enum LaneKey {
    /// An object.
    Object(ObjectId),
    /// A chunk of a dataset.
    Chunk(ChunkId),
}

/// What the record of this key is of, where it is one of a lane.
pub(crate) fn lane_key_at(key: &[u8]) -> Option<LaneKey>
    ensures { MatchOption result (IsOther key.now)
        (λ of. IsSubject (subject_of of) × (key_of (subject_of of) ≡ key.now)) }
{
    if let Some(id) = object_at(key) {
        return Some(LaneKey::Object(id));
    }
    match chunk_at(key) {
        Some(chunk) => Some(LaneKey::Chunk(chunk)),
        None => None,
    }
}

/// The lane of a record, of so many lanes.
pub(crate) fn lane_of_key(of: &LaneKey, lanes: u32) -> u32
    requires { 1 ≤ lanes }
    ensures lane { IsOfLane lanes result (subject_of of.now) }
    ensures below { result < lanes }
{
    match of {
        LaneKey::Object(id) => lane_of(id, lanes),
        LaneKey::Chunk(chunk) => lane_of(&chunk.dataset, lanes),
    }
}
