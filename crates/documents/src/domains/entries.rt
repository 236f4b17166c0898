//! The entry of one object.

ghost use Rattle.std.specs.Prelude.{◌≡◌, IfOk};
ghost use Rattle.serde_json.specs.View.{view};
ghost use Rattle.hdf_types.specs.Printed.{type_tree};
ghost use Rattle.hdf_types.specs.Types.{IsSoundType};
ghost use Rattle.hdf_types.specs.Views.{elem as elem_of};
ghost use Rattle.shapes.specs.Printed.{shape_tree};
ghost use Rattle.shapes.specs.declared.printing.Form.TheVariants.{Document};
ghost use Rattle.object_acts.specs.Arrays.Creation.{creation_tree};
ghost use Rattle.object_acts.specs.Objects.{IsSoundBody};
ghost use Rattle.object_records.specs.Objects.{datatype_tree, group_tree};
ghost use Rattle.documents.specs.Domains.Entries.{cells_tree, dataset_tree, entry_tree, links_tree};

use crate::domains::home::Home;
use crate::domains::links::links_json;
use crate::domains::store::ObjectStore;
use chunk_store::Array;
use groups_links::Links;
use hdf_types::{ElemType, type_json};
use hdf_values::write_value;
use object_acts::arrays::creation_json;
use object_acts::{Body, Object};
use serde_json::{Value, json};
use shapes::{Form, count, shape_json};
use std::alloc::{AllocError, Global};

/// The entry of an object in the document of a domain: its attributes with their values, and of a group its links, of a
/// dataset its creation properties, shape, type and value, and of a committed datatype its type.
///
/// # Errors
///
/// Only where memory runs out.
pub fn entry_json<S: ObjectStore>(
    alloc: Global,
    store: &S,
    home: &Home,
    object: &Object,
) -> Result<Value, AllocError>
    requires { IsSoundBody object.now.body }
    ensures { IfOk result
        (λ tree. view tree ≡ entry_tree (S.objects store.now) home.now object.now) }
{
    let attributes = object.attributes.list(alloc, Form::Document, true)?;
    match &object.body {
        Body::Group(links) => group_json(alloc, store, home, attributes, links),
        Body::Dataset(array) => dataset_json(alloc, attributes, array),
        Body::Datatype(elem) => datatype_json(alloc, attributes, elem),
    }
}

fn group_json<S: ObjectStore>(
    alloc: Global,
    store: &S,
    home: &Home,
    attributes: Value,
    links: &Links,
) -> Result<Value, AllocError>
    ensures { IfOk result (λ tree. view tree ≡ group_tree (view attributes)
        (links_tree (S.objects store.now) home.now links.now)) }
{
    let links = links_json(alloc, store, home, links)?;
    json!(in alloc; {"attributes": attributes, "links": links})
}

fn dataset_json(alloc: Global, attributes: Value, array: &Array) -> Result<Value, AllocError>
    ensures { IfOk result (λ tree. view tree
        ≡ dataset_tree (view attributes) (creation_tree array.now.grid)
        (shape_tree array.now.grid.shape Document) (type_tree array.now.grid.kind)
        (cells_tree array.now.grid)) }
{
    array.is_whole();
    let properties = creation_json(alloc, array)?;
    let shape = shape_json(alloc, array.shape(), Form::Document)?;
    let kind = type_json(alloc, array.elem())?;
    let value = cells_json(alloc, array)?;
    json!(in alloc; {
        "attributes": attributes,
        "creationProperties": properties,
        "shape": shape,
        "type": kind,
        "value": value
    })
}

// All cells, with consecutive linear indices.
fn cells_json(alloc: Global, array: &Array) -> Result<Value, AllocError>
    ensures { IfOk result (λ tree. view tree ≡ cells_tree array.now.grid) }
{
    array.is_whole();
    let many = count(array.shape());
    let bytes = array.read_places(alloc, 0, many)?;
    write_value(alloc, array.elem(), array.shape(), bytes.as_slice())
}

fn datatype_json(alloc: Global, attributes: Value, elem: &ElemType) -> Result<Value, AllocError>
    requires { IsSoundType (elem_of elem.now) }
    ensures { IfOk result (λ tree. view tree
        ≡ datatype_tree (view attributes) (type_tree (elem_of elem.now))) }
{
    let kind = type_json(alloc, elem)?;
    json!(in alloc; {"attributes": attributes, "type": kind})
}
