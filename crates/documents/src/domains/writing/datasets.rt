//! The entry of one object; that of a dataset with its value straight from bytes.

ghost use Rattle.std.specs.Prelude.{◌≡◌, OnOk, codes, false};
ghost use Rattle.serde_json.specs.View.{view};
ghost use Rattle.serde_json.specs.Written.{has_float};
ghost use Rattle.hdf_types.specs.Printed.{type_tree};
ghost use Rattle.hdf_types.specs.Types.{IsSoundType};
ghost use Rattle.hdf_types.specs.Views.{elem as elem_of};
ghost use Rattle.shapes.specs.Printed.{shape_tree};
ghost use Rattle.shapes.specs.Shapes.{count_of};
ghost use Rattle.shapes.specs.declared.printing.Form.TheVariants.{Document};
ghost use Rattle.hdf_values.specs.Nested.{AreEncoded};
ghost use Rattle.hdf_values.specs.Shaped.{value_tree};
ghost use Rattle.object_acts.specs.Arrays.Creation.{creation_tree};
ghost use Rattle.object_acts.specs.Objects.{IsSoundBody};
ghost use Rattle.documents.specs.Domains.Entries.{cells_tree, dataset_tree, entry_tree};
ghost use Rattle.documents.specs.Domains.Writing.{Prints, PrintsMember};

use crate::domains::entries::entry_json;
use crate::domains::home::Home;
use crate::domains::store::ObjectStore;
use crate::domains::writing::trees::{write_member, write_tree};
use chunk_store::Array;
use hdf_types::{ElemType, type_json};
use hdf_values::push_nested;
use json::Writer;
use object_acts::arrays::creation_json;
use object_acts::{Body, Object};
use serde_json::Value;
use shapes::{Dims, Form, Shape, count, shape_json};
use std::alloc::{AllocError, Global};

/// Writes the entry of an object: that of a dataset with its value straight from bytes, and any other as its small tree.
pub(crate) fn write_entry<S: ObjectStore>(
    alloc: Global,
    store: &S,
    home: &Home,
    object: &Object,
    writer: &mut Writer,
) -> Result<(), AllocError>
    requires { IsSoundBody object.now.body }
    ensures { OnOk result (Prints (entry_tree (S.objects store.now) home.now object.now)
        writer.old writer.new) }
{
    match &object.body {
        Body::Group(_) => write_small(alloc, store, home, object, writer),
        Body::Dataset(array) => {
            let attributes = object.attributes.list(alloc, Form::Document, true)?;
            write_dataset(alloc, &attributes, array, writer)
        }
        Body::Datatype(_) => write_small(alloc, store, home, object, writer),
    }
}

fn write_small<S: ObjectStore>(
    alloc: Global,
    store: &S,
    home: &Home,
    object: &Object,
    writer: &mut Writer,
) -> Result<(), AllocError>
    requires { IsSoundBody object.now.body }
    ensures { OnOk result (Prints (entry_tree (S.objects store.now) home.now object.now)
        writer.old writer.new) }
{
    let tree = entry_json(alloc, store, home, object)?;
    write_tree(&tree, writer)
}

fn write_dataset(
    alloc: Global,
    attributes: &Value,
    array: &Array,
    writer: &mut Writer,
) -> Result<(), AllocError>
    requires { has_float (view attributes.now) ≡ false }
    ensures { OnOk result (Prints (dataset_tree (view attributes.now)
        (creation_tree array.now.grid) (shape_tree array.now.grid.shape Document)
        (type_tree array.now.grid.kind) (cells_tree array.now.grid)) writer.old writer.new) }
{
    array.is_whole();
    let properties = creation_json(alloc, array)?;
    let shape = shape_json(alloc, array.shape(), Form::Document)?;
    let kind = type_json(alloc, array.elem())?;
    writer.begin_object()?;
    write_member("attributes", attributes, writer)?;
    write_member("creationProperties", &properties, writer)?;
    write_member("shape", &shape, writer)?;
    write_member("type", &kind, writer)?;
    write_cells(alloc, array, writer)?;
    writer.end_object()
}

// The key of the value, and all cells, with consecutive linear indices.
fn write_cells(alloc: Global, array: &Array, writer: &mut Writer) -> Result<(), AllocError>
    ensures { OnOk result (PrintsMember (codes "value") (cells_tree array.now.grid)
        writer.old writer.new) }
{
    array.is_whole();
    let many = count(array.shape());
    let bytes = array.read_places(alloc, 0, many)?;
    writer.key("value")?;
    write_shaped(array.elem(), array.shape(), bytes.as_slice(), writer)
}

// The elements that bytes are, nested as a shape has it: null without a cell.
fn write_shaped(
    kind: &ElemType,
    shape: &Shape,
    bytes: &[u8],
    writer: &mut Writer,
) -> Result<(), AllocError>
    requires sound { IsSoundType (elem_of kind.now) }
    requires encoded { AreEncoded (elem_of kind.now) (count_of shape.now) bytes.now }
    ensures { OnOk result
        (Prints (value_tree (elem_of kind.now) shape.now bytes.now) writer.old writer.new) }
{
    match shape {
        Shape::Null => writer.null(),
        Shape::Scalar => push_nested(writer, kind, &Dims::new(), bytes),
        Shape::Simple { dims, .. } => push_nested(writer, kind, dims, bytes),
    }
}
