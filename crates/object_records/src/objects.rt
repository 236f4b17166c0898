//! An object as text.

ghost use Rattle.std.specs.Prelude.{◌≡◌, ◌≢◌, [], Some, IfOk, string_bytes};
ghost use Rattle.serde_json.specs.View.{view};
ghost use Rattle.hdf_types.specs.Types.{IsSoundType};
ghost use Rattle.hdf_types.specs.Views.{elem as elem_of};
ghost use Rattle.hdf_types.specs.Printed.{type_tree};
ghost use Rattle.shapes.specs.Printed.{shape_tree};
ghost use Rattle.shapes.specs.declared.printing.Form.TheVariants.{Document};
ghost use Rattle.groups_links.specs.Printed.{links_list};
ghost use Rattle.object_acts.specs.Arrays.Creation.{creation_tree};
ghost use Rattle.object_acts.specs.Objects.{IsSoundBody, kind_of_body};
ghost use Rattle.object_records.specs.Entries.{entry_of};
ghost use Rattle.object_records.specs.Objects.{body_tree, dataset_tree, datatype_tree, group_tree};
ghost use Rattle.object_records.specs.Objects.{IsKeptBody, object_body, object_of_body, object_tree};

use chunk_store::Array;
use groups_links::Links;
use hdf_types::{ElemType, type_json};
use object_acts::arrays::creation_json;
use object_acts::{Body, Object};
use serde_json::{Value, json};
use shapes::{Form, shape_json};
use std::alloc::{AllocError, Global};

/// The text of an object's record, which reads as what is kept of the object: that of its tree, without a space.
///
/// # Errors
///
/// Only where memory runs out.
#[tactic(auto, using(crate::proofs::BodyLemmas::object_exact), unfolding(crate::specs::Objects::object_body))]
pub fn object_text(alloc: Global, object: &Object) -> Result<String, AllocError>
    requires { IsSoundBody object.now.body }
    ensures reads { IfOk result (λ text. object_of_body (kind_of_body object.now.body)
        (string_bytes text) ≡ Some (entry_of object.now)) }
    ensures some { IfOk result (λ text. string_bytes text ≢ []) }
    ensures exact { IfOk result (λ text. string_bytes text ≡ object_body object.now) }
{
    object.attributes.is_whole();
    is_whole(&object.body);
    let tree = object_json(alloc, object)?;
    let text = tree.to_string(alloc)?;
    let _ = text.as_str();
    Ok(text)
}

/// What is true of every body: each part of it can be spelled.
pub fn is_whole(body: &Body)
    requires { IsSoundBody body.now }
    ensures { IsKeptBody body.now }
{
    match body {
        Body::Group(links) => {
            let _count = links.len();
        }
        Body::Dataset(array) => {
            array.is_whole();
            let _layout = array.layout();
        }
        Body::Datatype(_) => {}
    }
}

/// The tree of an object: its attributes with their values, and of a group its links, of a dataset
/// its creation properties, its shape and its type, and of a committed datatype its type.
///
/// # Errors
///
/// Only where memory runs out.
pub fn object_json(alloc: Global, object: &Object) -> Result<Value, AllocError>
    requires { IsSoundBody object.now.body }
    ensures { IfOk result (λ tree. view tree ≡ object_tree object.now) }
{
    let attributes = object.attributes.list(alloc, Form::Document, true)?;
    match &object.body {
        Body::Group(links) => group_json(alloc, attributes, links),
        Body::Dataset(array) => dataset_json(alloc, attributes, array),
        Body::Datatype(elem) => datatype_json(alloc, attributes, elem),
    }
}

fn group_json(alloc: Global, attributes: Value, links: &Links) -> Result<Value, AllocError>
    ensures { IfOk result (λ tree. view tree
        ≡ group_tree (view attributes) (links_list links.now Document)) }
{
    let links = links.list(alloc, Form::Document)?;
    json!(in alloc; {"attributes": attributes, "links": links})
}

fn dataset_json(alloc: Global, attributes: Value, array: &Array) -> Result<Value, AllocError>
    ensures { IfOk result (λ tree. view tree
        ≡ dataset_tree (view attributes) (creation_tree array.now.grid)
        (shape_tree array.now.grid.shape Document) (type_tree array.now.grid.kind)) }
{
    array.is_whole();
    let properties = creation_json(alloc, array)?;
    let shape = shape_json(alloc, array.shape(), Form::Document)?;
    let kind = type_json(alloc, array.elem())?;
    json!(in alloc; {
        "attributes": attributes,
        "creationProperties": properties,
        "shape": shape,
        "type": kind
    })
}

fn datatype_json(alloc: Global, attributes: Value, elem: &ElemType) -> Result<Value, AllocError>
    requires { IsSoundType (elem_of elem.now) }
    ensures { IfOk result (λ tree. view tree
        ≡ datatype_tree (view attributes) (type_tree (elem_of elem.now))) }
{
    let kind = type_json(alloc, elem)?;
    json!(in alloc; {"attributes": attributes, "type": kind})
}
