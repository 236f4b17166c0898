//! Where objects are looked up.

use object_acts::Object;
use object_ids::ObjectId;

/// Objects by their ids, to be looked up and walked over.
pub trait ObjectStore {
    ghost use Rattle.std.specs.Prelude.{◌≡◌, IfSome, option_map};
    ghost use Rattle.std.specs.FinMap.{get};
    ghost use Rattle.std.specs.Option.{option_copied};
    ghost use Rattle.containers.specs.TextMaps.Nexts.{IsKeyStep};
    ghost use Rattle.object_acts.specs.Objects.{IsSoundBody, Objects, unmarked};

    /// The objects that stand, as those who look see them: which chunks of an array changed doesn't matter.
    ghost objects: { Self → Objects };

    /// The object of an id.
    fn object(&self, id: &ObjectId) -> Option<&Object>
        ensures value { option_map unmarked (option_copied result) ≡ get (objects self.now) id.now }
        ensures sound { IfSome (option_copied result) (λ o. IsSoundBody o.body) };

    /// The least id behind another that an object has, or the least of all.
    fn next_id(&self, after: Option<&ObjectId>) -> Option<ObjectId>
        ensures { IsKeyStep (objects self.now) (option_copied after.entry) result };
}
