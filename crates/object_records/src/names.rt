//! The attributes that a list of trees spells.

ghost use Rattle.std.specs.Prelude.{map};
ghost use Rattle.std.specs.FinMap as finite;
ghost use Rattle.serde_json.specs.View.{view};
ghost use Rattle.json_trees.specs.Shown.{shown};
ghost use Rattle.containers.specs.TextMaps.Keyed.{with_values};
ghost use Rattle.hdf_values.specs.Attributes.{content};
ghost use Rattle.attributes.specs.AttributeMaps.{most_attributes};
ghost use Rattle.object_records.specs.Readings.{Reads};
ghost use Rattle.object_records.specs.Lists.{attribute_in, attributes_in, listed, name_at, put_in};

use crate::BodyFault;
use attributes::{Attributes, MAX_ATTRIBUTE_NAME};
use hdf_values::read_attribute;
use json_trees::{list_items, member_text};
use object_ids::Name;
use serde_json::Value;
use std::alloc::Global;

/// The text at a key, where it is a name of at most so many bytes.
pub(crate) fn name_at(
    alloc: Global,
    tree: &Value,
    key: &str,
    most: usize,
) -> Result<Name, BodyFault>
    ensures { Reads (λ name. name) result (name_at key.now most (view tree.now)) }
{
    let Some(text) = member_text(tree, key) else {
        return Err(BodyFault::NoObject);
    };
    Ok(Name::read(alloc, text, most)?)
}

/// The attributes of a list, of which an absent one has none.
pub(crate) fn attributes_in(alloc: Global, tree: Option<&Value>) -> Result<Attributes, BodyFault>
    ensures { Reads (with_values content) result (attributes_in (shown tree.entry)) }
{
    let Some(tree) = tree else {
        return Ok(Attributes::new(alloc));
    };
    let Some(items) = list_items(tree) else {
        return Err(BodyFault::NoObject);
    };
    listed(alloc, items)
}

fn listed(alloc: Global, items: &[Value]) -> Result<Attributes, BodyFault>
    ensures { Reads (with_values content) result
        (listed most_attributes attribute_in finite.empty (map view items.now)) }
{
    let mut attributes = Attributes::new(alloc);
    for item in items {
        put_attribute(alloc, &mut attributes, item)?;
    }
    Ok(attributes)
}

// Puts the attribute that a tree spells.
fn put_attribute(alloc: Global, attributes: &mut Attributes, tree: &Value) -> Result<(), BodyFault>
    ensures { Reads (λ _. with_values content attributes.new) result
        (put_in most_attributes attribute_in (with_values content attributes.old) (view tree.now)) }
{
    let name = name_at(alloc, tree, "name", MAX_ATTRIBUTE_NAME)?;
    let attribute = read_attribute(alloc, tree)?;
    attributes.put(name, attribute)?;
    Ok(())
}
