//! The attributes of an object of a document.

ghost use Rattle.std.specs.Prelude.{◌≡◌, ◌+◌, ◌-◌, ◌^◌, ◌<◌, ◌≤◌, length, min, nat_le, IfOk, map};
ghost use Rattle.std.specs.FinMap as finite;
ghost use Rattle.serde_json.specs.View.{view};
ghost use Rattle.json_trees.specs.Shown.{shown};
ghost use Rattle.attributes.specs.AttributeMaps.{most_attributes};
ghost use Rattle.hdf_values.specs.Attributes.{IsSoundAttribute, content};
ghost use Rattle.documents.specs.Parts.AttributeLists.{IsToldOf, attribute_at, attributes_at};
ghost use Rattle.documents.specs.Parts.AttributeLists.{attribute_step, content_at};
ghost use Rattle.documents.specs.Parts.AttributeLists.{AnswersOr, HasManyCells, HaveFewCells};
ghost use Rattle.documents.specs.Parts.AttributeLists.{LeavesOr, OneAtHasManyCells};
ghost use Rattle.documents.specs.Parts.AttributeLists.{OneHasManyCells, most_cells, room};
ghost use Rattle.documents.specs.Parts.Items.{each_item};
ghost use Rattle.shapes.specs.RowMajor.{room_of};

use crate::parts::faults::{AttributesFault, DocCause, DocFault, refused_at};
use crate::parts::items::{items, members, numbered};
use crate::parts::names::new_name;
use crate::parts::paths::DocPath;
use attributes::{Attributes, MAX_ATTRIBUTES, PutFault};
use hdf_values::{Attribute, AttributeFault, read_attribute};
use json_trees::member_text;
use serde_json::Value;
use shapes::Shape;
use std::alloc::Global;

/// The most cells of an attribute, with an extent of 0 counted as 1: as many lists may be in its value.
pub const MAX_ATTRIBUTE_CELLS: u64 = 65_536;

/// The attributes that a list at a path spells, of which an absent one has none.
///
/// # Errors
///
/// The first fault: of the list that it is none, that it has more than
/// [`MAX_ATTRIBUTES`](attributes::MAX_ATTRIBUTES) members, and then of each member that it is no
/// object, of its name, its type, its shape, its size and its value. `TooManyCells` only where one
/// has no fault and more than [`MAX_ATTRIBUTE_CELLS`] cells; then nothing is read.
#[tactic(auto, unfolding(crate::specs::Parts::AttributeLists::attributes_at))]
pub fn read_attributes(
    alloc: Global,
    path: &str,
    tree: Option<&Value>,
) -> Result<Attributes, AttributesFault>
    ensures exact { AnswersOr (OneAtHasManyCells (shown tree.entry)) result
        (attributes_at path.now (shown tree.entry)) }
    ensures few { IfOk result HaveFewCells }
{
    let Some(tree) = tree else {
        return Ok(Attributes::new(alloc));
    };
    let items = items(alloc, path, MAX_ATTRIBUTES, tree)?;
    listed(alloc, path, items)
}

fn listed(alloc: Global, path: &str, items: &[Value]) -> Result<Attributes, AttributesFault>
    requires { length items.now ≤ most_attributes }
    ensures exact { AnswersOr (OneHasManyCells (map view items.now)) result
        (each_item (attribute_step path.now) finite.empty 0 (map view items.now)) }
    ensures few { IfOk result HaveFewCells }
{
    let mut attributes = Attributes::new(alloc);
    for (index, item) in items.iter().enumerate() {
        put_item(alloc, path, index, item, &mut attributes)?;
    }
    Ok(attributes)
}

fn put_item(
    alloc: Global,
    path: &str,
    index: usize,
    item: &Value,
    attributes: &mut Attributes,
) -> Result<(), AttributesFault>
    requires few { HaveFewCells attributes.old }
    requires room { finite.len attributes.old < most_attributes }
    ensures exact { LeavesOr (HasManyCells (view item.now)) result attributes.new
        (attribute_step path.now index attributes.old (view item.now)) }
    ensures many { finite.len attributes.new ≤ finite.len attributes.old + 1 }
    ensures few { HaveFewCells attributes.new }
{
    let path = numbered(alloc, path, index)?;
    put_attribute(alloc, path.text(), item, attributes)
}

#[tactic(auto, unfolding(crate::specs::Parts::AttributeLists::attribute_at))]
fn put_attribute(
    alloc: Global,
    path: &str,
    item: &Value,
    attributes: &mut Attributes,
) -> Result<(), AttributesFault>
    requires few { HaveFewCells attributes.old }
    requires room { finite.len attributes.old < most_attributes }
    ensures exact { LeavesOr (HasManyCells (view item.now)) result attributes.new
        (attribute_at path.now attributes.old (view item.now)) }
    ensures many { finite.len attributes.new ≤ finite.len attributes.old + 1 }
    ensures few { HaveFewCells attributes.new }
{
    members(alloc, path, item)?;
    let key = DocPath::under(alloc, path, "name")?;
    let name = new_name(alloc, key.text(), attributes, member_text(item, "name"))?;
    let attribute = content_at(alloc, path, item)?;
    match attributes.put(name, attribute) {
        Ok(()) => Ok(()),
        Err(PutFault::NoMemory) => Err(AttributesFault::Doc(DocFault::NoMemory)),
        // The name is new, and there is room.
        Err(PutFault::Taken | PutFault::Limit) => unreachable!(),
    }
}

fn content_at(alloc: Global, path: &str, item: &Value) -> Result<Attribute, AttributesFault>
    ensures exact { AnswersOr (HasManyCells (view item.now)) result
        (content_at path.now (view item.now)) }
    ensures sound { IfOk result (λ a. IsSoundAttribute (content a)) }
    ensures few { IfOk result (λ a. room a.shape ≤ most_cells) }
{
    let attribute = match read_attribute(alloc, item) {
        Ok(attribute) => attribute,
        Err(fault) => return Err(AttributesFault::Doc(told(alloc, path, fault))),
    };
    if has_few_cells(&attribute.shape) {
        Ok(attribute)
    } else {
        Err(AttributesFault::TooManyCells)
    }
}

fn has_few_cells(shape: &Shape) -> bool
    ensures { result ≡ nat_le (room shape.now) most_cells }
{
    let dims = shape.dims();
    room(dims.as_slice()) <= MAX_ATTRIBUTE_CELLS
}

// The product of the dims, each at least 1, or the largest number where it is above that.
fn room(dims: &[u64]) -> u64
    ensures { result ≡ min (room_of dims.now) (2 ^ 64 - 1) }
{
    let mut total = 1u64;
    for n in dims {
        total = total.saturating_mul((*n).max(1));
    }
    total
}

// The fault of an attribute as one of the document.
fn told(alloc: Global, path: &str, fault: AttributeFault) -> DocFault
    ensures { IsToldOf path.now fault result }
{
    match fault {
        AttributeFault::NoMemory => DocFault::NoMemory,
        AttributeFault::BadType(_) => refused_at(alloc, path, "type", DocCause::BadType),
        AttributeFault::BadShape(_) => refused_at(alloc, path, "shape", DocCause::BadShape),
        AttributeFault::TooLarge => refused_at(alloc, path, "value", DocCause::Limit),
        AttributeFault::BadValue(_) => refused_at(alloc, path, "value", DocCause::BadValue),
    }
}
