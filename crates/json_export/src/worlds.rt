//! A world as a store of objects.

use documents::domains::ObjectStore;
use object_acts::Object;
use object_ids::ObjectId;
use service_core::World;

/// The objects of a world, as requests see them.
#[derive(Clone, Copy)]
pub(crate) struct WorldObjects<'a> {
    pub world: &'a World,
}

impl ObjectStore for WorldObjects<'_> {
    ghost use Rattle.service_core.specs.Worlds.{seen};

    ghost objects = { λ store. (seen store.world.now).objects };

    fn object(&self, id: &ObjectId) -> Option<&Object> {
        self.world.object(id)
    }

    fn next_id(&self, after: Option<&ObjectId>) -> Option<ObjectId> {
        self.world.next_id(after)
    }
}
