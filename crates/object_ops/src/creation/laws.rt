//! What creation properties are, in other words than the tests in order.

ghost use Rattle.std.specs.Prelude.{◌≡◌, ◌↔◌, ℕ, List, Option, Ok};
ghost use Rattle.serde_json.specs.Data.{Data};
ghost use Rattle.hdf_types.specs.Elems.{Elem};
ghost use Rattle.shapes.specs.declared.Shape.{Shape};
ghost use Rattle.object_ops.specs.Creation.Creations.{creation_of};
ghost use Rattle.object_ops.specs.Creation.Spelled.{IsCreation};

/// The tests in order find no fault exactly where the tree spells the chunk and the fill.
pub fn creation_or_fault()
    ensures { (e : Elem) (s : Shape) (tree : Option Data) (p : List ℕ × Option (List ℕ))
        → ((creation_of e s tree ≡ Ok p) ↔ IsCreation e s tree p) }
{}
