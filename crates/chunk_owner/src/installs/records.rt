//! The records of a lane, one at a time.

ghost use Rattle.std.specs.Prelude.{ℕ, OnOk, IfErr};
ghost use Rattle.object_records.specs.Keys.Keys.{IsSubject};
ghost use Rattle.chunk_owner.specs.Installs.Records.{IsOfLane};
ghost use Rattle.chunk_owner.specs.Installs.Walks.{Blames, Installs, IsRefused, KeepsStill, subject_of};
ghost use Rattle.chunk_owner.specs.Lanes.{AreSlotsOf};

use crate::installs::chunks::install_chunk;
use crate::installs::faults::RecordFault;
use crate::installs::keys::LaneKey;
use crate::installs::objects::install_object;
use crate::slots::Slot;
use object_ids::IdMap;
use std::alloc::Global;

/// Installs what a record of a lane tells, beside the kept run and the number that the next domain takes. The bytes of a
/// chunk are taken as they are.
///
/// # Errors
///
/// `BadRecord` where it can't stand; else `NoMemory`.
pub(crate) fn install_record(
    alloc: Global,
    run: u32,
    next: u64,
    slots: &mut IdMap<Slot>,
    of: &LaneKey,
    body: Vec<u8>,
) -> Result<(), RecordFault>
    requires { IsSubject (subject_of of.now) }
    ensures done { OnOk result
        (Installs run next (subject_of of.now) body.items slots.old slots.new) }
    ensures bad { IfErr result (λ e.
        Blames e (IsRefused run next (subject_of of.now) body.items slots.old)) }
    ensures own { (lane lanes : ℕ) → IsOfLane lanes lane (subject_of of.now)
        → AreSlotsOf lane lanes slots.old → AreSlotsOf lane lanes slots.new }
    ensures still { KeepsStill slots.old slots.new }
{
    match of {
        LaneKey::Object(id) => install_object(alloc, run, next, slots, *id, body.as_slice()),
        LaneKey::Chunk(chunk) => install_chunk(slots, &chunk.dataset, &chunk.index, body),
    }
}
