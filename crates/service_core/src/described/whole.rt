//! That each object of a world is whole.

ghost use Rattle.service_core.specs.Worlds.{seen};
ghost use Rattle.service_core.specs.Described.Told.{AreWhole};

use crate::World;

/// That each object stands at an id that may have a record, and that each of its parts can be spelled. Takes no memory, and
/// looks at no object.
pub fn objects_are_whole(world: &World)
    ensures { AreWhole (seen world.now).objects }
{
    world.is_described();
}
