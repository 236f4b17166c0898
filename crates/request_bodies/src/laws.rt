//! What holds of bodies, in other words than the definitions.

ghost use Rattle.std.specs.Prelude.{◌≡◌};
ghost use Rattle.serde_json.specs.Data.{Data};
ghost use Rattle.object_ids.specs.declared.ids.Kind.{Kind};
ghost use Rattle.request_bodies.specs.Bodies.{attribute_in};
ghost use Rattle.request_bodies.specs.Makes.{make_in};
ghost use Rattle.request_bodies.specs.Order.{attribute_tests, fault, first_of, make_tests};
ghost use Rattle.request_bodies.specs.declared.attributes.TheConstants.{MAX_ATTRIBUTE_CELLS};
ghost use Rattle.request_bodies.specs.declared.links.TheConstants.{MAX_NAME};

/// The limits, as numbers.
pub fn limits_of_bodies()
    ensures name { MAX_NAME ≡ 255 }
    ensures cells { MAX_ATTRIBUTE_CELLS ≡ 65536 }
{}

/// The order in which new objects are refused. Of six tests, each on the body alone, the first that finds a refusal
/// decides: the type, the creation properties, the form of the link, the class, the shape, the title. Creation
/// properties are judged only where the type and the shape are accepted.
pub fn makes_in_order()
    ensures { (kind : Kind) (d : Data) → fault (make_in kind d) ≡ first_of (make_tests kind d) }
{}

/// The order in which attributes are refused: the type, the value, the class, the shape. The value is judged only where
/// the type and the shape are accepted.
pub fn attributes_in_order()
    ensures { (d : Data) → fault (attribute_in d) ≡ first_of (attribute_tests d) }
{}
