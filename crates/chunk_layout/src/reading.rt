//! How creation properties give a layout.

ghost use Rattle.std.specs.Prelude.{◌≡◌, ◌≤◌, ◌↔◌, ◌⊎◌, ℕ, List, Some, None, Ok, Err, IfOk, map, take, option_map, option_and_then, codes};
ghost use Rattle.serde_json.specs.Data.{Data};
ghost use Rattle.serde_json.specs.View.{view};
ghost use Rattle.serde_json.specs.Find.{get};
ghost use Rattle.json_trees.specs.Trees.{all_in, whole_in, text_at};
ghost use Rattle.json_trees.specs.Shown.{shown};
ghost use Rattle.shapes.specs.Shapes.{IsSound, dims_of};
ghost use Rattle.shapes.specs.declared.Shape.{Shape};
ghost use Rattle.shapes.specs.declared.TheConstants.{MAX_RANK};
ghost use Rattle.chunk_layout.specs.Chunks.{IsChunk};
ghost use Rattle.chunk_layout.specs.Defaults.{IsDefault};
ghost use Rattle.chunk_layout.specs.Layouts.{SpellsChunk, AsksNone, AsksChunk, IsObject, Fits};
ghost use Rattle.chunk_layout.specs.Asked.{IsAnswer, asked_of, classed, wholes_in, first_bad, is_chunk_dim};
ghost use Rattle.chunk_layout.specs.Asked.{is_too_big, chunked_of, sized_of};
ghost use Rattle.chunk_layout.specs.declared.LayoutFault.{LayoutFault};

use crate::sizes::bytes;
use crate::{Layout, LayoutFault, MAX_CHUNK_BYTES, default_layout};
use json_trees::{list_items, member_text, whole_number};
use serde_json::Value;
use shapes::{Dims, MAX_EXTENT, Shape};

/// The layout that creation properties give to an array with elements of `size` bytes.
///
/// Of the properties only the key `layout` is read. Without it, or with a `layout` of class
/// `H5D_CONTIGUOUS` or `H5D_COMPACT`, the layout is [`default_layout`]'s. A `layout` of class
/// `H5D_CHUNKED` has the chunk's `dims`, a list of whole numbers.
///
/// # Errors
///
/// The first fault in the order of [`LayoutFault`].
pub fn read_layout(properties: &Value, shape: &Shape, size: u32) -> Result<Layout, LayoutFault>
    requires { IsSound shape.now }
    ensures spelled { IfOk result
        (λ layout. SpellsChunk (view properties.now) (dims_of shape.now) size layout.chunk) }
    ensures only { (chunk : List ℕ)
        → SpellsChunk (view properties.now) (dims_of shape.now) size chunk
        → result ≡ Ok (record { chunk = chunk }) }
    ensures first { IsAnswer (dims_of shape.now) size
        (asked_of (view properties.now) (dims_of shape.now) size) result }
    ensures fits { IfOk result (λ layout. Fits size (dims_of shape.now) layout.chunk) }
    ensures chunk { 1 ≤ size → IfOk result (λ layout. IsChunk layout.chunk) }
{
    first_of(properties, shape, size)
}

/// Properties ask for one chunk, or leave it open, or have a fault, and never two of these. What
/// fits an array is a chunk.
pub fn layout_or_fault()
    ensures chunk { (d : Data) (dims chunk : List ℕ) (size : ℕ)
        → ((IsObject d × AsksChunk d chunk × Fits size dims chunk)
        ↔ (asked_of d dims size ≡ Ok (Some chunk))) }
    ensures open { (d : Data) (dims : List ℕ) (size : ℕ)
        → ((IsObject d × AsksNone d) ↔ (asked_of d dims size ≡ Ok None)) }
    ensures one { (dims xs ys : List ℕ) (size : ℕ)
        → IsDefault size dims xs → IsDefault size dims ys → xs ≡ ys }
    ensures fault { (d : Data) (dims chunk : List ℕ) (size : ℕ) (fault : LayoutFault)
        → asked_of d dims size ≡ Err fault → SpellsChunk d dims size chunk → ⊥ }
    ensures fits { (s : Shape) (size : ℕ) (chunk : List ℕ) → IsSound s → 1 ≤ size
        → Fits size (dims_of s) chunk → IsChunk chunk }
{}

fn first_of(properties: &Value, shape: &Shape, size: u32) -> Result<Layout, LayoutFault>
    requires { IsSound shape.now }
    ensures { IsAnswer (dims_of shape.now) size
        (asked_of (view properties.now) (dims_of shape.now) size) result }
{
    match asked(properties, &shape.dims(), size)? {
        Some(chunk) => Ok(Layout { chunk }),
        None => Ok(default_layout(shape, size)),
    }
}

#[tactic(auto, unfolding(crate::specs::Asked::asked_of))]
fn asked(properties: &Value, dims: &Dims, size: u32) -> Result<Option<Dims>, LayoutFault>
    ensures { result ≡ asked_of (view properties.now) dims.now size }
{
    if !properties.is_object() {
        return Err(LayoutFault::NotALayout);
    }
    match properties.get("layout") {
        None => Ok(None),
        Some(layout) => by_class(layout, dims, size),
    }
}

#[tactic(auto, unfolding(crate::specs::Asked::classed))]
fn by_class(layout: &Value, dims: &Dims, size: u32) -> Result<Option<Dims>, LayoutFault>
    ensures { result
        ≡ classed dims.now size (text_at (codes "class") (view layout.now)) (view layout.now) }
{
    match member_text(layout, "class") {
        Some("H5D_CONTIGUOUS") => Ok(None),
        Some("H5D_COMPACT") => Ok(None),
        Some("H5D_CHUNKED") => chunked(layout.get("dims"), dims, size),
        _ => Err(LayoutFault::NotALayout),
    }
}

fn chunked(tree: Option<&Value>, dims: &Dims, size: u32) -> Result<Option<Dims>, LayoutFault>
    ensures { result ≡ chunked_of dims.now size
        (option_and_then wholes_in (shown tree.entry)) }
{
    match tree {
        None => Err(LayoutFault::NotALayout),
        Some(tree) => listed(tree, dims, size),
    }
}

fn listed(tree: &Value, dims: &Dims, size: u32) -> Result<Option<Dims>, LayoutFault>
    ensures { result ≡ chunked_of dims.now size (wholes_in (view tree.now)) }
{
    match list_items(tree) {
        None => Err(LayoutFault::NotALayout),
        Some(items) => counted(items, dims, size),
    }
}

fn counted(items: &[Value], dims: &Dims, size: u32) -> Result<Option<Dims>, LayoutFault>
    ensures { result ≡ chunked_of dims.now size (all_in whole_in (map view items.now)) }
{
    let Some(kept) = numbers(items) else {
        return Err(LayoutFault::NotALayout);
    };
    if items.len() == dims.len() {
        sized(&kept, size)
    } else {
        Err(LayoutFault::Rank)
    }
}

/// The first whole numbers of a list, none where a tree in it is no whole number.
fn numbers(items: &[Value]) -> Option<Dims>
    ensures { result ≡ option_map (take MAX_RANK) (all_in whole_in (map view items.now)) }
{
    let mut kept = Dims::new();
    for item in items {
        kept.keep(whole_number(item)?);
    }
    Some(kept)
}

fn sized(chunk: &Dims, size: u32) -> Result<Option<Dims>, LayoutFault>
    ensures { result ≡ sized_of (first_bad 0 chunk.now) size chunk.now }
{
    if let Some(axis) = bad_axis(chunk) {
        return Err(LayoutFault::Dim { axis });
    }
    if is_large(chunk, size) {
        return Err(LayoutFault::TooBig);
    }
    Ok(Some(*chunk))
}

fn bad_axis(chunk: &Dims) -> Option<u8>
    ensures { result ≡ first_bad 0 chunk.now }
{
    for axis in 0..chunk.len() {
        if !is_dim(chunk.get(axis)) {
            return Some(axis as u8);
        }
    }
    None
}

fn is_dim(n: u64) -> bool
    ensures { result ≡ is_chunk_dim n }
{
    1 <= n && n <= MAX_EXTENT
}

fn is_large(chunk: &Dims, size: u32) -> bool
    ensures { result ≡ is_too_big size chunk.now }
{
    MAX_CHUNK_BYTES < bytes(chunk.as_slice(), size) && 1 < bytes(chunk.as_slice(), 1)
}
