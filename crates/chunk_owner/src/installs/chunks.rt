//! The chunks that records tell.

ghost use Rattle.std.specs.Prelude.{ℕ, OnOk, IfErr};
ghost use Rattle.std.specs.FinMap.{get};
ghost use Rattle.object_acts.specs.declared.objects.Body.TheVariants.{Dataset};
ghost use Rattle.chunk_owner.specs.Installs.Walks.{ArrayTakes, Blames, BodyTakes, InstallsChunk};
ghost use Rattle.chunk_owner.specs.Installs.Walks.{KeepsBody, KeepsSlot, KeepsStill, NotChunkOf, NotTaken};
ghost use Rattle.chunk_owner.specs.Installs.Walks.{NotTakenAt, SlotTakes};
ghost use Rattle.chunk_owner.specs.Lanes.{AreSlotsOf};

use crate::installs::faults::RecordFault;
use crate::slots::Slot;
use chunk_store::Array;
use object_acts::Body;
use object_ids::{IdMap, ObjectId};
use shapes::Dims;

/// Installs a chunk that a body tells into the array of its dataset, which takes the body's bytes as they are.
///
/// # Errors
///
/// `BadRecord` where there is no such dataset, or the body tells no chunk of it; else `NoMemory`.
pub(crate) fn install_chunk(
    slots: &mut IdMap<Slot>,
    dataset: &ObjectId,
    index: &Dims,
    body: Vec<u8>,
) -> Result<(), RecordFault>
    ensures done { OnOk result (InstallsChunk dataset.now index.now body.items slots.old slots.new) }
    ensures bad { IfErr result (λ e.
        Blames e (NotTakenAt index.now body.items (get slots.old dataset.now))) }
    ensures own { (lane lanes : ℕ) → AreSlotsOf lane lanes slots.old
        → AreSlotsOf lane lanes slots.new }
    ensures still { KeepsStill slots.old slots.new }
{
    match slots.get_mut(dataset) {
        Some(slot) => install_slot(slot, index, body),
        None => Err(RecordFault::BadRecord),
    }
}

fn install_slot(slot: &mut Slot, index: &Dims, body: Vec<u8>) -> Result<(), RecordFault>
    ensures done { OnOk result (SlotTakes index.now body.items slot.old slot.new) }
    ensures bad { IfErr result (λ e. Blames e (NotTaken index.now body.items slot.old.object.body)) }
    ensures keeps { KeepsSlot slot.old slot.new }
{
    install_body(&mut slot.object.body, index, body)
}

fn install_body(object: &mut Body, index: &Dims, body: Vec<u8>) -> Result<(), RecordFault>
    ensures done { OnOk result (BodyTakes index.now body.items object.old object.new) }
    ensures bad { IfErr result (λ e. Blames e (NotTaken index.now body.items object.old)) }
    ensures keeps { KeepsBody object.old object.new }
{
    match object {
        Body::Dataset(array) => install_array(array, index, body),
        Body::Group(_) | Body::Datatype(_) => Err(RecordFault::BadRecord),
    }
}

fn install_array(array: &mut Array, index: &Dims, body: Vec<u8>) -> Result<(), RecordFault>
    ensures done { OnOk result (ArrayTakes index.now body.items array.old array.new) }
    ensures bad { IfErr result (λ e. Blames e (NotChunkOf array.old.grid index.now body.items)) }
    ensures keeps { KeepsBody (Dataset array.old) (Dataset array.new) }
{
    let done = array.install(index, body);
    array.is_whole();
    let _layout = array.layout();
    done?;
    Ok(())
}
