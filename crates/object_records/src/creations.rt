//! The creation properties that a tree spells.

ghost use Rattle.std.specs.Prelude.{◌≡◌, Some, IfOk, IfSome, option_map};
ghost use Rattle.serde_json.specs.View.{view};
ghost use Rattle.json_trees.specs.Shown.{shown};
ghost use Rattle.hdf_types.specs.Reading.{size_of};
ghost use Rattle.hdf_types.specs.Types.{IsSoundType};
ghost use Rattle.hdf_types.specs.Views.{elem as elem_of};
ghost use Rattle.shapes.specs.Shapes.{IsSound, dims_of};
ghost use Rattle.hdf_values.specs.Elements.{IsEncoded, encoded};
ghost use Rattle.chunk_layout.specs.Asked.{asked_of};
ghost use Rattle.chunk_layout.specs.Layouts.{Fits};
ghost use Rattle.object_records.specs.Readings.{Reads};
ghost use Rattle.chunk_layout.specs.DefaultChunks.Halving.{default_chunk};
ghost use Rattle.object_records.specs.Creations.{chunk_or, creation_in, fill_in};
ghost use Rattle.object_records.specs.Creations.{has_no_filter, shown_creation};
ghost use Rattle.object_records.specs.Lists.{no_fault};

use crate::BodyFault;
use chunk_layout::{Layout, default_layout, read_layout};
use hdf_types::ElemType;
use hdf_values::encode;
use json_trees::list_items;
use serde_json::Value;
use shapes::Shape;
use std::alloc::Global;

/// A layout, and a fill where one is given.
#[derive(Drop)]
pub(crate) struct Creation {
    pub layout: Layout,
    pub fill: Option<Vec<u8>>,
}

/// The layout and the fill of creation properties, of which absent ones ask for nothing.
pub(crate) fn creation_in(
    alloc: Global,
    elem: &ElemType,
    shape: &Shape,
    tree: Option<&Value>,
) -> Result<Creation, BodyFault>
    requires kind { IsSoundType (elem_of elem.now) }
    requires shape { IsSound shape.now }
    ensures reads { Reads shown_creation result
        (creation_in (elem_of elem.now) shape.now (shown tree.entry)) }
    ensures fits { IfOk result (λ c. Fits (size_of (elem_of elem.now)) (dims_of shape.now)
        c.layout.chunk) }
    ensures fill { IfOk result (λ c. IfSome c.fill (λ v. IsEncoded (elem_of elem.now) v.items)) }
{
    match tree {
        None => Ok(Creation {
            layout: plain_layout(elem, shape),
            fill: None,
        }),
        Some(tree) => spelled(alloc, elem, shape, tree),
    }
}

// The layout where none is asked for.
fn plain_layout(elem: &ElemType, shape: &Shape) -> Layout
    requires kind { IsSoundType (elem_of elem.now) }
    requires shape { IsSound shape.now }
    ensures chunk { result.chunk
        ≡ default_chunk (size_of (elem_of elem.now)) (dims_of shape.now) }
    ensures fits { Fits (size_of (elem_of elem.now)) (dims_of shape.now) result.chunk }
{
    default_layout(shape, elem.size())
}

fn spelled(
    alloc: Global,
    elem: &ElemType,
    shape: &Shape,
    tree: &Value,
) -> Result<Creation, BodyFault>
    requires kind { IsSoundType (elem_of elem.now) }
    requires shape { IsSound shape.now }
    ensures reads { Reads shown_creation result
        (creation_in (elem_of elem.now) shape.now (Some (view tree.now))) }
    ensures fits { IfOk result (λ c. Fits (size_of (elem_of elem.now)) (dims_of shape.now)
        c.layout.chunk) }
    ensures fill { IfOk result (λ c. IfSome c.fill (λ v. IsEncoded (elem_of elem.now) v.items)) }
{
    if !has_no_filter(tree.get("filters")) {
        return Err(BodyFault::NoObject);
    }
    let layout = layout_in(elem, shape, tree)?;
    let fill = fill_in(alloc, elem, tree.get("fillValue"))?;
    Ok(Creation { layout, fill })
}

fn has_no_filter(tree: Option<&Value>) -> bool
    ensures { result ≡ has_no_filter (shown tree.entry) }
{
    let Some(tree) = tree else {
        return true;
    };
    match list_items(tree) {
        Some(items) => items.is_empty(),
        None => false,
    }
}

fn layout_in(elem: &ElemType, shape: &Shape, tree: &Value) -> Result<Layout, BodyFault>
    requires kind { IsSoundType (elem_of elem.now) }
    requires shape { IsSound shape.now }
    ensures reads { Reads (λ layout. layout.chunk) result
        (chunk_or (size_of (elem_of elem.now)) (dims_of shape.now)
        (asked_of (view tree.now) (dims_of shape.now) (size_of (elem_of elem.now)))) }
    ensures fits { IfOk result (λ layout. Fits (size_of (elem_of elem.now)) (dims_of shape.now)
        layout.chunk) }
{
    Ok(read_layout(tree, shape, elem.size())?)
}

fn fill_in(
    alloc: Global,
    elem: &ElemType,
    tree: Option<&Value>,
) -> Result<Option<Vec<u8>>, BodyFault>
    requires { IsSoundType (elem_of elem.now) }
    ensures reads { Reads (option_map (λ v. v.items)) result
        (fill_in (elem_of elem.now) (shown tree.entry)) }
    ensures encoded { IfOk result (λ o. IfSome o (λ v. IsEncoded (elem_of elem.now) v.items)) }
{
    match tree {
        Some(tree) => Ok(Some(element(alloc, elem, tree)?)),
        None => Ok(None),
    }
}

// The bytes of a tree that is an element.
fn element(alloc: Global, elem: &ElemType, tree: &Value) -> Result<Vec<u8>, BodyFault>
    requires { IsSoundType (elem_of elem.now) }
    ensures reads { Reads (λ v. v.items) result
        (no_fault (encoded (elem_of elem.now) (view tree.now))) }
    ensures encoded { IfOk result (λ v. IsEncoded (elem_of elem.now) v.items) }
{
    let mut bytes = vec![in alloc; 0; elem.size() as usize]?;
    encode(elem, tree, bytes.as_mut_slice())?;
    Ok(bytes)
}
