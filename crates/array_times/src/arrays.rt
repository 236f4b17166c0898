//! Arrays and selections, made from their texts.

ghost use Rattle.std.specs.Prelude.{IfOk};
ghost use Rattle.hyperslab.specs.Selected.{IsSlab, SlabIn};

use anyhow::bail;
use chunk_layout::read_layout;
use chunk_store::Array;
use hdf_types::read_type;
use hyperslab::{Slab, read_select};
use serde_json::Value;
use shapes::read_shape;
use std::alloc::Global;

fn tree(alloc: Global, text: &str) -> anyhow::Result<Value> {
    let Ok(tree) = Value::from_str(alloc, text) else {
        bail!("{text} is no JSON");
    };
    Ok(tree)
}

/// An array of 32-bit numbers with these dims, in chunks of those.
pub fn made(alloc: Global, dims: &str, chunk: &str) -> anyhow::Result<Array> {
    let Ok(kind) = read_type(alloc, &tree(alloc, r#""H5T_STD_I32LE""#)?) else {
        bail!("no type");
    };
    let Ok(shape) = read_shape(Some(&tree(alloc, dims)?), None) else {
        bail!("{dims} are no dims");
    };
    let text = format!(in alloc; "{{\"layout\":{{\"class\":\"H5D_CHUNKED\",\"dims\":{chunk}}}}}")?;
    let Ok(layout) = read_layout(&tree(alloc, text.as_str())?, &shape, kind.size()) else {
        bail!("{chunk} is no chunk");
    };
    Ok(Array::new(alloc, kind, shape, layout, None)?)
}

/// The selection of an array that a text spells.
pub fn selected(array: &Array, text: &str) -> anyhow::Result<Slab>
    ensures slab { IfOk result IsSlab }
    ensures inside { IfOk result (λ slab. SlabIn slab array.now.grid.shape) }
{
    array.is_whole();
    let Ok(slab) = read_select(text, array.shape()) else {
        bail!("{text} is no selection");
    };
    Ok(slab)
}
