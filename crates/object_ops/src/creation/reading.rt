//! The chunks and the fill that a tree asks for.

ghost use Rattle.std.specs.Prelude.{◌≡◌, IfOk, IfSome, option_map};
ghost use Rattle.serde_json.specs.View.{view};
ghost use Rattle.json_trees.specs.Faults.{Fails, Gives};
ghost use Rattle.json_trees.specs.Shown.{shown};
ghost use Rattle.hdf_types.specs.Reading.{size_of};
ghost use Rattle.hdf_types.specs.Types.{IsSoundType};
ghost use Rattle.hdf_types.specs.Views.{elem as elem_of};
ghost use Rattle.shapes.specs.Shapes.{IsSound, dims_of};
ghost use Rattle.hdf_values.specs.Elements.{IsEncoded, encoded};
ghost use Rattle.chunk_layout.specs.Asked.{asked_of};
ghost use Rattle.chunk_layout.specs.Layouts.{Fits};
ghost use Rattle.chunk_layout.specs.DefaultChunks.Halving.{default_chunk};
ghost use Rattle.object_ops.specs.Creation.Creations.{chunk_or, creation_of, fill_of};
ghost use Rattle.object_ops.specs.Creation.Creations.{element_or, filters_of, shown_creation};

use crate::creation::faults::CreationFault;
use chunk_layout::{Layout, default_layout, read_layout};
use hdf_types::ElemType;
use hdf_values::encode;
use json_trees::list_items;
use serde_json::Value;
use shapes::Shape;
use std::alloc::Global;

/// A layout, and a fill where one is given.
#[derive(Drop)]
pub struct Creation {
    /// How the cells are split into chunks.
    pub layout: Layout,
    /// The bytes of an element, for cells that were never written.
    pub fill: Option<Vec<u8>>,
}

/// The creation properties that a tree spells for a dataset of this type and shape: an object with
/// maybe a `layout`, a `fillValue`, and `filters` of which there may be none. Other keys are
/// ignored. Absent properties ask for the default chunk and no fill.
///
/// # Errors
///
/// The first fault in the order of [`CreationFault`].
#[tactic(auto, unfolding(crate::specs::Creation::Creations::creation_of))]
pub fn read_creation(
    alloc: Global,
    elem: &ElemType,
    shape: &Shape,
    tree: Option<&Value>,
) -> Result<Creation, CreationFault>
    requires kind { IsSoundType (elem_of elem.now) }
    requires shape { IsSound shape.now }
    ensures first { Gives (Fails CreationFault.NoMemory) shown_creation result
        (creation_of (elem_of elem.now) shape.now (shown tree.entry)) }
    ensures fits { IfOk result (λ c. Fits (size_of (elem_of elem.now)) (dims_of shape.now)
        c.layout.chunk) }
    ensures fill { IfOk result (λ c. IfSome c.fill (λ v. IsEncoded (elem_of elem.now) v.items)) }
{
    let Some(tree) = tree else {
        return Ok(Creation {
            layout: plain_layout(elem, shape),
            fill: None,
        });
    };
    if !tree.is_object() {
        return Err(CreationFault::NotAnObject);
    }
    let layout = layout_in(elem, shape, tree)?;
    no_filters(tree.get("filters"))?;
    let fill = fill_in(alloc, elem, tree.get("fillValue"))?;
    Ok(Creation { layout, fill })
}

// The layout where none is asked for.
fn plain_layout(elem: &ElemType, shape: &Shape) -> Layout
    requires kind { IsSoundType (elem_of elem.now) }
    requires shape { IsSound shape.now }
    ensures chunk { result.chunk
        ≡ default_chunk (size_of (elem_of elem.now)) (dims_of shape.now) }
    ensures fits { Fits (size_of (elem_of elem.now)) (dims_of shape.now) result.chunk }
{
    default_layout(shape, elem.size())
}

fn layout_in(elem: &ElemType, shape: &Shape, tree: &Value) -> Result<Layout, CreationFault>
    requires kind { IsSoundType (elem_of elem.now) }
    requires shape { IsSound shape.now }
    ensures first { Gives (Fails CreationFault.NoMemory) (λ layout. layout.chunk) result
        (chunk_or (size_of (elem_of elem.now)) (dims_of shape.now)
        (asked_of (view tree.now) (dims_of shape.now) (size_of (elem_of elem.now)))) }
    ensures fits { IfOk result (λ layout. Fits (size_of (elem_of elem.now)) (dims_of shape.now)
        layout.chunk) }
{
    Ok(read_layout(tree, shape, elem.size())?)
}

fn no_filters(tree: Option<&Value>) -> Result<(), CreationFault>
    ensures { result ≡ filters_of (shown tree.entry) }
{
    let Some(tree) = tree else {
        return Ok(());
    };
    match list_items(tree) {
        Some([]) => Ok(()),
        _ => Err(CreationFault::HasFilters),
    }
}

fn fill_in(
    alloc: Global,
    elem: &ElemType,
    tree: Option<&Value>,
) -> Result<Option<Vec<u8>>, CreationFault>
    requires { IsSoundType (elem_of elem.now) }
    ensures first { Gives (Fails CreationFault.NoMemory) (option_map (λ v. v.items)) result
        (fill_of (elem_of elem.now) (shown tree.entry)) }
    ensures encoded { IfOk result (λ o. IfSome o (λ v. IsEncoded (elem_of elem.now) v.items)) }
{
    match tree {
        Some(tree) => Ok(Some(element(alloc, elem, tree)?)),
        None => Ok(None),
    }
}

// The bytes of a tree that is an element.
fn element(alloc: Global, elem: &ElemType, tree: &Value) -> Result<Vec<u8>, CreationFault>
    requires { IsSoundType (elem_of elem.now) }
    ensures first { Gives (Fails CreationFault.NoMemory) (λ v. v.items) result
        (element_or (encoded (elem_of elem.now) (view tree.now))) }
    ensures encoded { IfOk result (λ v. IsEncoded (elem_of elem.now) v.items) }
{
    let mut bytes = vec![in alloc; 0; elem.size() as usize]?;
    encode(elem, tree, bytes.as_mut_slice())?;
    Ok(bytes)
}
