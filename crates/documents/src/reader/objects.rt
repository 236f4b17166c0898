//! The objects of a document, one at a time.

ghost use Rattle.std.specs.Prelude.{◌≡◌};
ghost use Rattle.std.specs.Option.{option_copied};
ghost use Rattle.serde_json.specs.View.{view};
ghost use Rattle.documents.specs.Parts.Faults.{Answers, Leaves};
ghost use Rattle.documents.specs.Reader.Objects.{attributes_of, datatype_at, group_at};
ghost use Rattle.documents.specs.Reader.Kept.{dataset_with};
ghost use Rattle.documents.specs.Reader.Objects.{is_length, is_new_group, is_new_type, links_of};

use crate::parts::{
    AttributesFault, DocCause, DocFault, DocPath, Targets, array_of, has_id, members,
    read_attributes, read_kind, read_links, refused,
};
use crate::reader::MAX_ID;
use crate::reader::loaded::{Dataset, Datatype, Group};
use attributes::Attributes;
use containers::text_maps::TextMap;
use json_trees::KeptTree;
use serde_json::Value;
use std::alloc::Global;

// Puts the dataset that a tree spells, whose value may be kept apart.
#[tactic(auto, unfolding(crate::specs::Reader::Kept::dataset_with))]
pub(crate) fn put_dataset(
    alloc: Global,
    path: &str,
    id: &str,
    value: Option<&KeptTree>,
    tree: &Value,
    datasets: &mut TextMap<Dataset>,
) -> Result<(), DocFault>
    ensures { Leaves result datasets.new
        (dataset_with (option_copied value.entry) path.now id.now datasets.old (view tree.now)) }
{
    if !is_length(id) {
        return Err(refused(alloc, path, DocCause::NotADocument));
    }
    members(alloc, path, tree)?;
    let attributes = attributes_of(alloc, path, tree)?;
    let array = array_of(alloc, path, value, tree)?;
    datasets.put_copy(id, Dataset { attributes, array })?;
    Ok(())
}

// Puts the committed datatype that a tree spells.
#[tactic(auto, unfolding(crate::specs::Reader::Objects::datatype_at))]
pub(crate) fn put_datatype(
    alloc: Global,
    document: &Value,
    path: &str,
    id: &str,
    tree: &Value,
    datatypes: &mut TextMap<Datatype>,
) -> Result<(), DocFault>
    ensures { Leaves result datatypes.new
        (datatype_at (view document.now) path.now id.now datatypes.old (view tree.now)) }
{
    if !is_new_type(document, id) {
        return Err(refused(alloc, path, DocCause::NotADocument));
    }
    members(alloc, path, tree)?;
    let attributes = attributes_of(alloc, path, tree)?;
    let kind = read_kind(alloc, path, tree.get("type"))?;
    datatypes.put_copy(id, Datatype { attributes, kind })?;
    Ok(())
}

// Puts the group that a tree spells.
#[tactic(auto, unfolding(crate::specs::Reader::Objects::group_at))]
pub(crate) fn put_group(
    alloc: Global,
    document: &Value,
    path: &str,
    id: &str,
    tree: &Value,
    groups: &mut TextMap<Group>,
) -> Result<(), DocFault>
    ensures { Leaves result groups.new
        (group_at (view document.now) path.now id.now groups.old (view tree.now)) }
{
    if !is_new_group(document, id) {
        return Err(refused(alloc, path, DocCause::NotADocument));
    }
    members(alloc, path, tree)?;
    let attributes = attributes_of(alloc, path, tree)?;
    let links = links_of(alloc, document, path, tree)?;
    groups.put_copy(id, Group { attributes, links })?;
    Ok(())
}

// Too many cells of one are told as want of memory is.
fn attributes_of(alloc: Global, path: &str, tree: &Value) -> Result<Attributes, DocFault>
    ensures { Answers result (attributes_of path.now (view tree.now)) }
{
    let list = DocPath::under(alloc, path, "attributes")?;
    match read_attributes(alloc, list.text(), tree.get("attributes")) {
        Ok(attributes) => Ok(attributes),
        Err(AttributesFault::TooManyCells) => Err(DocFault::NoMemory),
        Err(AttributesFault::Doc(fault)) => Err(fault),
    }
}

fn links_of(alloc: Global, document: &Value, path: &str, tree: &Value) -> Result<Targets, DocFault>
    ensures { Answers result (links_of (view document.now) path.now (view tree.now)) }
{
    let list = DocPath::under(alloc, path, "links")?;
    read_links(alloc, document, list.text(), tree.get("links"))
}

// Whether an id has as many bytes as one may have.
fn is_length(id: &str) -> bool
    ensures { result ≡ is_length id.now }
{
    !id.is_empty() && id.len() <= MAX_ID
}

// Whether a datatype may have an id: no dataset has it.
fn is_new_type(document: &Value, id: &str) -> bool
    ensures { result ≡ is_new_type id.now (view document.now) }
{
    is_length(id) && !has_id(document, "datasets", id)
}

// Whether a group may have an id: no dataset and no datatype has it.
fn is_new_group(document: &Value, id: &str) -> bool
    ensures { result ≡ is_new_group id.now (view document.now) }
{
    is_new_type(document, id) && !has_id(document, "datatypes", id)
}
