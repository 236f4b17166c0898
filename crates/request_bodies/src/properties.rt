//! Creation properties of a new dataset.

ghost use Rattle.std.specs.Prelude.{◌≡◌, IfOk};
ghost use Rattle.json_trees.specs.Shown.{shown};
ghost use Rattle.serde_json.specs.View.{view};
ghost use Rattle.hdf_types.specs.Reading.{size_of};
ghost use Rattle.hdf_types.specs.Types.{IsSoundType};
ghost use Rattle.hdf_types.specs.Views.{elem};
ghost use Rattle.shapes.specs.Shapes.{IsSound, dims_of};
ghost use Rattle.chunk_layout.specs.Asked.{asked_of};
ghost use Rattle.chunk_layout.specs.Layouts.{Fits};
ghost use Rattle.object_ops.specs.Conditions.{IsSoundFill};
ghost use Rattle.chunk_layout.specs.DefaultChunks.Halving.{default_chunk};
ghost use Rattle.request_bodies.specs.Properties.{bad_properties, chunk_or, fill_in, filters_in};
ghost use Rattle.request_bodies.specs.Properties.{properties_in};
ghost use Rattle.request_bodies.specs.Refusing.{Answers};
ghost use Rattle.request_bodies.specs.declared.faults.BodyFault.TheVariants.{Refused};

use crate::faults::BodyFault;
use crate::keys::bad_field;
use chunk_layout::{Layout, LayoutFault, default_layout, read_layout};
use hdf_types::ElemType;
use hdf_values::{Bytes, encode};
use json_trees::list_items;
use object_ops::{FieldWord, Refusal};
use serde_json::Value;
use shapes::Shape;
use std::alloc::Global;

/// What creation properties say.
#[derive(Drop)]
pub(crate) struct Properties {
    pub(crate) layout: Layout,
    pub(crate) fill: Option<Bytes>,
}

/// The chunks and the fill of a dataset of this type and shape.
pub(crate) fn properties_of(
    alloc: Global,
    kind: &ElemType,
    shape: &Shape,
    tree: Option<&Value>,
) -> Result<Properties, BodyFault>
    requires kind { IsSoundType (elem kind.now) }
    requires shape { IsSound shape.now }
    ensures exact { Answers result (properties_in (elem kind.now) shape.now (shown tree.entry)) }
    ensures fits { IfOk result
        (λ p. Fits (size_of (elem kind.now)) (dims_of shape.now) p.layout.chunk) }
    ensures fill { IfOk result (λ p. IsSoundFill (elem kind.now) p.fill) }
{
    match tree {
        None => Ok(Properties {
            layout: open_layout(shape, kind.size()),
            fill: None,
        }),
        Some(tree) => {
            let layout = layout_of(tree, shape, kind.size())?;
            no_filters(tree.get("filters"))?;
            let fill = fill_of(alloc, kind, tree.get("fillValue"))?;
            Ok(Properties { layout, fill })
        }
    }
}

fn open_layout(shape: &Shape, size: u32) -> Layout
    requires { IsSound shape.now }
    ensures chunk { result.chunk ≡ default_chunk size (dims_of shape.now) }
    ensures fits { Fits size (dims_of shape.now) result.chunk }
{
    default_layout(shape, size)
}

fn layout_of(tree: &Value, shape: &Shape, size: u32) -> Result<Layout, BodyFault>
    requires { IsSound shape.now }
    ensures exact { Answers result
        (chunk_or size (dims_of shape.now) (asked_of (view tree.now) (dims_of shape.now) size)) }
    ensures fits { IfOk result (λ layout. Fits size (dims_of shape.now) layout.chunk) }
{
    Ok(read_layout(tree, shape, size)?)
}

impl From<LayoutFault> for BodyFault {
    ghost from_gives = { λ _ e. e ≡ Refused bad_properties };

    fn from(_fault: LayoutFault) -> BodyFault {
        bad_properties()
    }
}

fn no_filters(tree: Option<&Value>) -> Result<(), BodyFault>
    ensures { Answers result (filters_in (shown tree.entry)) }
{
    let Some(tree) = tree else {
        return Ok(());
    };
    match list_items(tree) {
        Some([]) => Ok(()),
        _ => Err(bad_properties()),
    }
}

fn fill_of(alloc: Global, kind: &ElemType, tree: Option<&Value>) -> Result<Option<Bytes>, BodyFault>
    requires { IsSoundType (elem kind.now) }
    ensures exact { Answers result (fill_in (elem kind.now) (shown tree.entry)) }
    ensures sound { IfOk result (IsSoundFill (elem kind.now)) }
{
    let Some(tree) = tree else {
        return Ok(None);
    };
    let mut bytes = vec![in alloc; 0u8; kind.size() as usize]?;
    match encode(kind, tree, bytes.as_mut_slice()) {
        Ok(()) => Ok(Some(Bytes::from_vec(bytes))),
        Err(_) => Err(bad_properties()),
    }
}

fn bad_properties() -> BodyFault
    ensures { result ≡ Refused bad_properties }
{
    BodyFault::Refused(bad_field(FieldWord::CreationProperties))
}
