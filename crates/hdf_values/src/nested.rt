//! Lists of elements, nested by the extents of an array in row-major order.

ghost use Rattle.std.specs.Prelude.{◌≡◌, ◌*◌, min, [], Ok, IfOk, length, map};
ghost use Rattle.std.specs.List.{AllByRecursion};
ghost use Rattle.serde_json.specs.Data.{Data};
ghost use Rattle.serde_json.specs.View.{view};
ghost use Rattle.hdf_types.specs.Reading.{size_of};
ghost use Rattle.hdf_types.specs.Types.{IsSoundType};
ghost use Rattle.hdf_types.specs.Views.{elem};
ghost use Rattle.shapes.specs.RowMajor.{cell_count};
ghost use Rattle.hdf_values.specs.declared.TheConstants.{MAX_AHEAD};
ghost use Rattle.hdf_values.specs.Elements.{Fits};
ghost use Rattle.json_trees.specs.Faults.{Fails, Gives};
ghost use Rattle.hdf_values.specs.Nested.{FitsNested, nested_bytes, nested_normal, nested_from};
ghost use Rattle.hdf_values.specs.Nested.{nested_decoded, Appends, AppendsEach, AreEncoded, pieces};

use crate::elements::{decode, encode_part};
use crate::integers::{ints_list, read_ints};
use crate::texts::{read_texts, texts_list};
use crate::{MAX_AHEAD, ValueFault};
use hdf_types::ElemType;
use json_trees::list_items;
use serde_json::Value;
use shapes::Dims;
use std::alloc::{AllocError, Global};

/// The bytes of the elements of a tree that nests by the extents, in row-major order. Without an
/// extent the tree is one element.
///
/// # Errors
///
/// The first fault in row-major order: a list that is missing, or has another length than its
/// extent, comes before the faults of its members.
pub fn read_nested(
    alloc: Global,
    kind: &ElemType,
    extents: &Dims,
    tree: &Value,
) -> Result<Vec<u8>, ValueFault>
    requires sound { IsSoundType (elem kind.now) }
    ensures fits { IfOk result
        (λ v. FitsNested (elem kind.now) extents.now (view tree.now)
        × (v.items ≡ nested_bytes (elem kind.now) extents.now (view tree.now))) }
    ensures only { FitsNested (elem kind.now) extents.now (view tree.now)
        → Gives (Fails ValueFault.NoMemory) (λ v. v.items) result
        (Ok (nested_bytes (elem kind.now) extents.now (view tree.now))) }
    ensures first { Gives (Fails ValueFault.NoMemory) (λ v. v.items) result
        (nested_from (elem kind.now) extents.now 0 (view tree.now)) }
    ensures encoded { IfOk result
        (λ v. AreEncoded (elem kind.now) (cell_count extents.now) v.items) }
{
    let size = kind.size() as usize;
    let mut out = Vec::with_capacity(alloc, room_ahead(extents.as_slice(), size))?;
    read_axes(kind, size, extents.as_slice(), tree, 0, &mut out)?;
    Ok(out)
}

/// The bytes of so many elements, or the most that is taken ahead.
fn room_ahead(extents: &[u64], size: usize) -> usize
    ensures { result ≡ min (size * cell_count extents.now) MAX_AHEAD }
{
    let mut room = size as u64;
    for extent in extents {
        room = room.saturating_mul(*extent);
    }
    room.min(MAX_AHEAD) as usize
}

/// Appends the bytes of a tree whose first element has a place; the answer is the place behind its
/// last one.
#[cycle(reads)]
fn read_axes(
    kind: &ElemType,
    size: usize,
    extents: &[u64],
    tree: &Value,
    place: u64,
    out: &mut Vec<u8>,
) -> Result<u64, ValueFault>
    requires sound { IsSoundType (elem kind.now) }
    requires size { size ≡ size_of (elem kind.now) }
    requires place { place * size ≡ length out.old.items }
    ensures reads { Appends (elem kind.now) extents.now
        (view tree.now) place out.old.items out.new.items result }
    ensures fits { IfOk result (λ _. FitsNested (elem kind.now) extents.now (view tree.now)) }
    ensures place { IfOk result (λ next. next * size ≡ length out.new.items) }
{
    if extents.is_empty() {
        return read_one(kind, size, tree, place, out);
    }
    let Some(items) = list_items(tree) else {
        return Err(ValueFault::NotOfType { place });
    };
    let want = extents[0];
    let got = items.len() as u64;
    if got != want {
        return Err(ValueFault::WrongCount { want, got });
    }
    read_members(kind, size, &extents[1..], items, place, out)
}

/// [`read_axes`], for the members of a list, one after another.
#[cycle(reads)]
fn read_members(
    kind: &ElemType,
    size: usize,
    extents: &[u64],
    items: &[Value],
    place: u64,
    out: &mut Vec<u8>,
) -> Result<u64, ValueFault>
    requires sound { IsSoundType (elem kind.now) }
    requires size { size ≡ size_of (elem kind.now) }
    requires place { place * size ≡ length out.old.items }
    ensures reads { AppendsEach (elem kind.now) extents.now
        (map view items.now) place out.old.items out.new.items result }
    ensures fits { IfOk result
        (λ _. AllByRecursion (FitsNested (elem kind.now) extents.now) (map view items.now)) }
    ensures place { IfOk result (λ next. next * size ≡ length out.new.items) }
{
    match (kind, extents.is_empty()) {
        (ElemType::Int(int), true) => return read_ints(int, items, place, out),
        (ElemType::Text(text), true) => return read_texts(text, items, place, out),
        _ => {}
    }
    let mut next = place;
    for item in items {
        next = read_axes(kind, size, extents, item, next, out)?;
    }
    Ok(next)
}

/// [`read_axes`], for one element.
fn read_one(
    kind: &ElemType,
    size: usize,
    tree: &Value,
    place: u64,
    out: &mut Vec<u8>,
) -> Result<u64, ValueFault>
    requires sound { IsSoundType (elem kind.now) }
    requires size { size ≡ size_of (elem kind.now) }
    requires place { place * size ≡ length out.old.items }
    ensures reads { Appends (elem kind.now) []
        (view tree.now) place out.old.items out.new.items result }
    ensures fits { IfOk result (λ _. Fits (elem kind.now) (view tree.now)) }
    ensures place { IfOk result (λ next. next * size ≡ length out.new.items) }
{
    let from = out.len();
    out.resize(from + size, 0)?;
    let (_, room) = out.as_mut_slice().split_at_mut(from);
    match encode_part(kind, tree, room) {
        Ok(()) => Ok(place + 1),
        Err(misfit) => Err(misfit.at(place)),
    }
}

/// The tree whose elements have these bytes, nested by the extents: the inverse of [`read_nested`].
///
/// # Errors
///
/// Only where memory runs out.
pub fn write_nested(
    alloc: Global,
    kind: &ElemType,
    extents: &Dims,
    bytes: &[u8],
) -> Result<Value, AllocError>
    requires sound { IsSoundType (elem kind.now) }
    requires encoded { AreEncoded (elem kind.now) (cell_count extents.now) bytes.now }
    ensures tree { IfOk result
        (λ v. view v ≡ nested_decoded (elem kind.now) extents.now bytes.now) }
    ensures reads_back { IfOk result
        (λ v. nested_from (elem kind.now) extents.now 0 (view v) ≡ Ok bytes.now) }
    ensures inverse { (d : Data) → FitsNested (elem kind.now) extents.now d
        → nested_bytes (elem kind.now) extents.now d ≡ bytes.now
        → IfOk result (λ v. view v ≡ nested_normal (elem kind.now) extents.now d) }
{
    axes_tree(alloc, kind, extents.as_slice(), bytes)
}

#[cycle(writes)]
fn axes_tree(
    alloc: Global,
    kind: &ElemType,
    extents: &[u64],
    bytes: &[u8],
) -> Result<Value, AllocError>
    requires sound { IsSoundType (elem kind.now) }
    requires encoded { AreEncoded (elem kind.now) (cell_count extents.now) bytes.now }
    ensures { IfOk result (λ v. view v ≡ nested_decoded (elem kind.now) extents.now bytes.now) }
{
    if extents.is_empty() {
        return decode(alloc, kind, bytes);
    }
    let list = members_list(alloc, kind, extents[0], &extents[1..], bytes)?;
    Ok(Value::Array(list))
}

/// The trees of so many pieces of the bytes, each nested by the extents.
#[cycle(writes)]
fn members_list(
    alloc: Global,
    kind: &ElemType,
    count: u64,
    extents: &[u64],
    bytes: &[u8],
) -> Result<Vec<Value>, AllocError>
    requires sound { IsSoundType (elem kind.now) }
    requires encoded { AreEncoded (elem kind.now) (count * cell_count extents.now) bytes.now }
    ensures { IfOk result
        (λ list. map view list.items
        ≡ map (nested_decoded (elem kind.now) extents.now)
        (pieces count (cell_count extents.now * size_of (elem kind.now)) bytes.now)) }
{
    match (kind, extents.is_empty()) {
        (ElemType::Int(int), true) => return ints_list(alloc, int, count, bytes),
        (ElemType::Text(text), true) => return texts_list(alloc, text, count, bytes),
        _ => {}
    }
    let mut list = Vec::with_capacity(alloc, count as usize)?;
    let step = bytes.len() / (count as usize).max(1);
    let mut left = bytes;
    for _ in 0..count {
        let (front, back) = left.split_at(step);
        list.push(axes_tree(alloc, kind, extents, front)?)?;
        left = back;
    }
    Ok(list)
}
