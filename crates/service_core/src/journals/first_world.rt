//! The world of a catalogue before the first request.

ghost use Rattle.std.specs.Prelude.{◌≡◌, ◌≤◌, IfOk, OnOk};
ghost use Rattle.std.specs.FinMap.{empty};
ghost use Rattle.object_acts.specs.Objects.{empty_group};
ghost use Rattle.chunk_owner.specs.Owners.Records.{AreUndropped};
ghost use Rattle.register.specs.Decided.{opened};
ghost use Rattle.service_core.specs.Records.{WorldSays, WorldStillSays};
ghost use Rattle.service_core.specs.Worlds.{seen, with_object};
ghost use Rattle.service_core.specs.Journals.Groups.{AreFirstRoots, MayHaveGroup, MayHaveGroups, groups_on};
ghost use Rattle.service_core.specs.Journals.Groups.{roots_of, with_groups};

use crate::World;
use crate::journals::roots::roots_of;
use domains::Catalogue;
use object_acts::Object;
use object_ids::ObjectId;
use register::Register;
use std::alloc::{AllocError, Global};

/// The world of a catalogue in run 0, with an empty group at the root of each domain. Nothing of it is kept yet.
pub(crate) fn first_world(
    alloc: Global,
    catalogue: Catalogue,
    lanes: u32,
) -> Result<World, AllocError>
    requires some_lane { 1 ≤ lanes }
    requires few_lanes { lanes ≤ 16 }
    requires roots { AreFirstRoots catalogue }
    ensures world { IfOk result (λ world. seen world ≡ record {
      register = opened catalogue lanes 0;
      objects = groups_on empty (roots_of catalogue);
    }) }
    ensures says { IfOk result (λ world. WorldSays world empty) }
    ensures undropped { IfOk result (λ world. AreUndropped world.lanes) }
{
    let _next = catalogue.next_number();
    let roots = roots_of(alloc, &catalogue)?;
    let mut world = World::new(alloc, Register::new(alloc, catalogue, lanes, 0))?;
    put_groups(alloc, &mut world, roots.as_slice())?;
    Ok(world)
}

// Puts an empty group at each id.
fn put_groups(alloc: Global, world: &mut World, ids: &[ObjectId]) -> Result<(), AllocError>
    requires { MayHaveGroups (seen world.old) ids.now }
    ensures ok { OnOk result (seen world.new ≡ with_groups (seen world.old) ids.now) }
    ensures says { WorldStillSays world.old world.new }
    ensures undropped { AreUndropped world.old.lanes → AreUndropped world.new.lanes }
{
    for id in ids {
        put_group(alloc, world, *id)?;
    }
    Ok(())
}

fn put_group(alloc: Global, world: &mut World, id: ObjectId) -> Result<(), AllocError>
    requires { MayHaveGroup (seen world.old) id }
    ensures ok { OnOk result (seen world.new ≡ with_object (seen world.old) id empty_group) }
    ensures says { WorldStillSays world.old world.new }
    ensures undropped { AreUndropped world.old.lanes → AreUndropped world.new.lanes }
{
    world.put_object(id, Object::new_group(alloc))
}
