//! The trees of objects.

ghost use Rattle.std.specs.Prelude.{◌≡◌, IfOk};
ghost use Rattle.serde_json.specs.View.{view};
ghost use Rattle.hdf_types.specs.Types.{IsSoundType};
ghost use Rattle.hdf_types.specs.Views.{elem as elem_of};
ghost use Rattle.object_acts.specs.Objects.{IsSoundBody};
ghost use Rattle.object_acts.specs.Trees.{object_tree, group_tree, dataset_tree, datatype_tree};

use crate::arrays::creation_json;
use crate::objects::{Body, Object};
use chunk_store::Array;
use hdf_types::{ElemType, type_json};
use object_ids::{ObjectId, id_text};
use serde_json::{Value, json};
use shapes::{Form, shape_json};
use std::alloc::{AllocError, Global};

/// An object at an id, in a domain with this root: how many attributes it has; of a group how many links; of a dataset
/// its creation properties, its shape and its type; of a committed datatype its type.
///
/// # Errors
///
/// Only where memory runs out.
pub fn object_json(
    alloc: Global,
    id: &ObjectId,
    root: &ObjectId,
    object: &Object,
) -> Result<Value, AllocError>
    requires { IsSoundBody object.now.body }
    ensures { IfOk result (λ tree. view tree ≡ object_tree id.now root.now object.now) }
{
    let attributes = object.attributes.len();
    match &object.body {
        Body::Group(links) => group_json(alloc, id, root, attributes, links.len()),
        Body::Dataset(array) => dataset_json(alloc, id, root, attributes, array),
        Body::Datatype(elem) => datatype_json(alloc, id, root, attributes, elem),
    }
}

fn group_json(
    alloc: Global,
    id: &ObjectId,
    root: &ObjectId,
    attributes: u64,
    links: u64,
) -> Result<Value, AllocError>
    ensures { IfOk result (λ tree. view tree ≡ group_tree id.now root.now attributes links) }
{
    let id = id_text(alloc, id)?;
    let root = id_text(alloc, root)?;
    json!(in alloc; {
        "attributeCount": attributes,
        "id": id.as_str(),
        "linkCount": links,
        "root": root.as_str()
    })
}

fn dataset_json(
    alloc: Global,
    id: &ObjectId,
    root: &ObjectId,
    attributes: u64,
    array: &Array,
) -> Result<Value, AllocError>
    ensures { IfOk result
        (λ tree. view tree ≡ dataset_tree id.now root.now attributes array.now.grid) }
{
    array.is_whole();
    let id = id_text(alloc, id)?;
    let root = id_text(alloc, root)?;
    let properties = creation_json(alloc, array)?;
    let shape = shape_json(alloc, array.shape(), Form::Rest)?;
    let kind = type_json(alloc, array.elem())?;
    json!(in alloc; {
        "attributeCount": attributes,
        "creationProperties": properties,
        "id": id.as_str(),
        "root": root.as_str(),
        "shape": shape,
        "type": kind
    })
}

fn datatype_json(
    alloc: Global,
    id: &ObjectId,
    root: &ObjectId,
    attributes: u64,
    elem: &ElemType,
) -> Result<Value, AllocError>
    requires { IsSoundType (elem_of elem.now) }
    ensures { IfOk result
        (λ tree. view tree ≡ datatype_tree id.now root.now attributes (elem_of elem.now)) }
{
    let id = id_text(alloc, id)?;
    let root = id_text(alloc, root)?;
    let kind = type_json(alloc, elem)?;
    json!(in alloc; {
        "attributeCount": attributes,
        "id": id.as_str(),
        "root": root.as_str(),
        "type": kind
    })
}
