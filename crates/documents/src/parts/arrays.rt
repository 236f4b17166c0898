//! The arrays of datasets of a document.

ghost use Rattle.std.specs.Prelude.{◌≡◌, [], IfOk, IfSome, Some};
ghost use Rattle.std.specs.Option.{option_copied};
ghost use Rattle.serde_json.specs.View.{view};
ghost use Rattle.json_trees.specs.Shown.{shown};
ghost use Rattle.hdf_types.specs.Reading.{size_of};
ghost use Rattle.hdf_types.specs.Types.{IsSoundType};
ghost use Rattle.hdf_types.specs.Views.{elem as elem_of};
ghost use Rattle.shapes.specs.Shapes.{IsSound, count_of, dims_of};
ghost use Rattle.hdf_values.specs.Elements.{IsEncoded};
ghost use Rattle.hdf_values.specs.Nested.{AreEncoded};
ghost use Rattle.chunk_layout.specs.Layouts.{Fits};
ghost use Rattle.object_ops.specs.Creation.Creations.{shown_creation};
ghost use Rattle.documents.specs.Parts.Arrays.{array_at, array_with, creation_at, filled_at, shape_at};
ghost use Rattle.documents.specs.Parts.Arrays.{IsCreationTold, IsValueTold, value_at, with_bytes};
ghost use Rattle.chunk_store.specs.Marks.{IsTracked};
ghost use Rattle.documents.specs.Parts.Faults.{Answers, Gives, Tells, fault};
ghost use Rattle.documents.specs.Parts.Paths.{under};
ghost use Rattle.documents.specs.declared.parts.faults.DocCause.TheVariants.{BadLayout};

use crate::parts::faults::{DocCause, DocFault, refused_at};
use crate::parts::fresh_arrays::FreshArray;
use crate::parts::kept_values::read_kept_value;
use crate::parts::types::read_kind;
use chunk_store::Array;
use hdf_types::ElemType;
use hdf_values::{ValueFault, read_value};
use json_trees::KeptTree;
use object_ops::creation::{Creation, CreationFault, read_creation};
use serde_json::Value;
use shapes::{Shape, ShapeFault, read_shape};
use std::alloc::{AllocError, Global};

/// The array of a dataset: its `type`, its `shape`, its `creationProperties` and its `value`. An
/// absent value is all fill, and that of a shape without cells is null.
///
/// # Errors
///
/// The first fault, in this order, of the type, the shape, the creation properties and the value.
#[tactic(auto, unfolding(crate::specs::Parts::Arrays::array_at, crate::specs::Parts::Arrays::array_with))]
pub fn read_array(alloc: Global, path: &str, tree: &Value) -> Result<FreshArray, DocFault>
    ensures { Answers result (array_at path.now (view tree.now)) }
{
    array_of(alloc, path, None, tree)
}

// The same, where the value may be kept apart from the tree of the dataset.
#[tactic(auto, unfolding(crate::specs::Parts::Arrays::array_with))]
pub(crate) fn array_of(
    alloc: Global,
    path: &str,
    value: Option<&KeptTree>,
    tree: &Value,
) -> Result<FreshArray, DocFault>
    ensures { Answers result (array_with path.now (option_copied value.entry) (view tree.now)) }
{
    let kind = read_kind(alloc, path, tree.get("type"))?.into_kind();
    let shape = shape_in(alloc, path, tree.get("shape"))?;
    let creation = creation_in(alloc, path, &kind, &shape, tree.get("creationProperties"))?;
    match value {
        None => filled(alloc, path, kind, &shape, creation, tree.get("value")),
        Some(value) => filled_with(alloc, path, kind, &shape, creation, value),
    }
}

fn shape_in(alloc: Global, path: &str, tree: Option<&Value>) -> Result<Shape, DocFault>
    ensures exact { Answers result (shape_at path.now (shown tree.entry)) }
    ensures sound { IfOk result IsSound }
{
    match read_shape(tree, None) {
        Ok(shape) => Ok(shape),
        Err(
            ShapeFault::NotAShape
            | ShapeFault::Rank
            | ShapeFault::DimOverMax { .. }
            | ShapeFault::TooLarge,
        ) => Err(refused_at(alloc, path, "shape", DocCause::BadShape)),
    }
}

fn creation_in(
    alloc: Global,
    path: &str,
    kind: &ElemType,
    shape: &Shape,
    tree: Option<&Value>,
) -> Result<Creation, DocFault>
    requires kind { IsSoundType (elem_of kind.now) }
    requires shape { IsSound shape.now }
    ensures exact { Gives shown_creation result
        (creation_at path.now (elem_of kind.now) shape.now (shown tree.entry)) }
    ensures fits { IfOk result
        (λ c. Fits (size_of (elem_of kind.now)) (dims_of shape.now) c.layout.chunk) }
    ensures fill { IfOk result (λ c. IfSome c.fill (λ v. IsEncoded (elem_of kind.now) v.items)) }
{
    match read_creation(alloc, kind, shape, tree) {
        Ok(creation) => Ok(creation),
        Err(fault) => Err(creation_told(alloc, path, fault)),
    }
}

// The fault of creation properties as one of the document.
fn creation_told(alloc: Global, path: &str, fault: CreationFault) -> DocFault
    ensures { IsCreationTold path.now fault result }
{
    match fault {
        CreationFault::NoMemory => DocFault::NoMemory,
        CreationFault::NotAnObject => wrong_at(alloc, path, "creationProperties"),
        CreationFault::BadLayout => wrong_at(alloc, path, "creationProperties/layout"),
        CreationFault::HasFilters => wrong_at(alloc, path, "creationProperties/filters"),
        CreationFault::BadFill => wrong_at(alloc, path, "creationProperties/fillValue"),
    }
}

fn wrong_at(alloc: Global, path: &str, key: &str) -> DocFault
    ensures { Tells result (fault (under path.now key.now) BadLayout) }
{
    refused_at(alloc, path, key, DocCause::BadLayout)
}

// The array with its cells, where a value for them is given.
fn filled(
    alloc: Global,
    path: &str,
    kind: ElemType,
    shape: &Shape,
    creation: Creation,
    tree: Option<&Value>,
) -> Result<FreshArray, DocFault>
    requires kind { IsSoundType (elem_of kind) }
    requires shape { IsSound shape.now }
    requires fits { Fits (size_of (elem_of kind)) (dims_of shape.now) creation.layout.chunk }
    requires fill { IfSome creation.fill (λ v. IsEncoded (elem_of kind) v.items) }
    ensures { Answers result
        (filled_at path.now (elem_of kind) shape.now (shown_creation creation) (shown tree.entry)) }
{
    let Creation { layout, fill } = creation;
    let Some(tree) = tree else {
        return Ok(FreshArray::new(Array::new(alloc, kind, *shape, layout, fill)?));
    };
    let bytes = value_in(alloc, path, &kind, shape, tree)?;
    let array = Array::new(alloc, kind, *shape, layout, fill)?;
    Ok(FreshArray::new(with_cells(alloc, array, bytes.as_slice())?))
}

// The array with its cells, whose value is kept as its text.
fn filled_with(
    alloc: Global,
    path: &str,
    kind: ElemType,
    shape: &Shape,
    creation: Creation,
    value: &KeptTree,
) -> Result<FreshArray, DocFault>
    requires kind { IsSoundType (elem_of kind) }
    requires shape { IsSound shape.now }
    requires fits { Fits (size_of (elem_of kind)) (dims_of shape.now) creation.layout.chunk }
    requires fill { IfSome creation.fill (λ v. IsEncoded (elem_of kind) v.items) }
    ensures { Answers result
        (filled_at path.now (elem_of kind) shape.now (shown_creation creation) (Some value.now)) }
{
    let Creation { layout, fill } = creation;
    let bytes = kept_value_in(alloc, path, &kind, shape, value)?;
    let array = Array::new(alloc, kind, *shape, layout, fill)?;
    Ok(FreshArray::new(with_cells(alloc, array, bytes.as_slice())?))
}

// The array with these elements in its cells.
fn with_cells(alloc: Global, array: Array, bytes: &[u8]) -> Result<Array, AllocError>
    requires encoded { AreEncoded array.grid.kind (count_of array.grid.shape) bytes.now }
    requires tracked { IsTracked (λ _. []) array }
    ensures written { IfOk result (λ a. a.grid ≡ with_bytes array.grid bytes.now) }
    ensures tracked { IfOk result (IsTracked (λ _. [])) }
{
    let mut array = array;
    array.write_places(alloc, 0, bytes)?;
    Ok(array)
}

fn value_in(
    alloc: Global,
    path: &str,
    kind: &ElemType,
    shape: &Shape,
    tree: &Value,
) -> Result<Vec<u8>, DocFault>
    requires { IsSoundType (elem_of kind.now) }
    ensures exact { Gives (λ v. v.items) result
        (value_at path.now (elem_of kind.now) shape.now (view tree.now)) }
    ensures encoded { IfOk result
        (λ v. AreEncoded (elem_of kind.now) (count_of shape.now) v.items) }
{
    match read_value(alloc, kind, shape, tree) {
        Ok(bytes) => Ok(bytes),
        Err(fault) => Err(value_told(alloc, path, fault)),
    }
}

fn kept_value_in(
    alloc: Global,
    path: &str,
    kind: &ElemType,
    shape: &Shape,
    value: &KeptTree,
) -> Result<Vec<u8>, DocFault>
    requires { IsSoundType (elem_of kind.now) }
    ensures exact { Gives (λ v. v.items) result
        (value_at path.now (elem_of kind.now) shape.now value.now) }
    ensures encoded { IfOk result
        (λ v. AreEncoded (elem_of kind.now) (count_of shape.now) v.items) }
{
    match read_kept_value(alloc, kind, shape, value) {
        Ok(bytes) => Ok(bytes),
        Err(fault) => Err(value_told(alloc, path, fault)),
    }
}

// The fault of a value as one of the document.
fn value_told(alloc: Global, path: &str, fault: ValueFault) -> DocFault
    ensures { IsValueTold path.now fault result }
{
    if matches!(fault, ValueFault::NoMemory) {
        return DocFault::NoMemory;
    }
    refused_at(alloc, path, "value", DocCause::BadValue)
}
