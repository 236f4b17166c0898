//! Which of the chunks that are held are dirty.

ghost use Rattle.std.specs.Prelude.{◌≡◌, ℕ, Bool, List, Option, is_some, length, option_map};
ghost use Rattle.std.specs.BTreeMap.{IsOrdered};
ghost use Rattle.std.specs.BTreeMap.Range.{entries_between};
ghost use Rattle.std.specs.Range.Bound.{bound_map};
ghost use Rattle.std.specs.declared.ops.Bound.TheVariants.{Unbounded};
ghost use Rattle.std.specs.List.{filter};
ghost use Rattle.std.specs.List.Sorted.{IsStrictlySortedBy};
ghost use Rattle.std.specs.Map.{keys_of};
ghost use Rattle.std.specs.Str.{bytes_eq};
ghost use Rattle.containers.specs.ShortLists.Order.{list_order};
ghost use Rattle.shapes.specs.Shapes.{dims_of};
ghost use Rattle.chunk_layout.specs.Chunks.{IsChunk};
ghost use Rattle.chunk_store.specs.Buffers.{flag_at, has_cell, flags_of, when_cleared};
ghost use Rattle.chunk_store.specs.Cells.{find_in, has};
ghost use Rattle.chunk_store.specs.Changes.{AreListed, cleaned, is_dirty_in, marked};
ghost use Rattle.chunk_store.specs.Marks.{flagged, is_after, is_later, first_key};

use crate::buffers::{Chunks, Frame};
use crate::changes::{Changes, Listed};
use crate::chunks::has_cell;
use chunk_layout::Layout;
use shapes::{Dims, Shape};
use std::collections::BTreeMap;
use std::collections::btree_map::Range;
use std::ops::Bound;

/// Takes each chunk as clean, and drops dirty ones that have no cell of a shape. Then none is listed.
pub(crate) fn clear_flags(chunks: &mut Chunks, changes: &mut Changes, frame: &Frame, shape: &Shape)
    requires chunk { IsChunk frame.now.layout.chunk }
    requires rank { length frame.now.layout.chunk ≡ length (dims_of shape.now) }
    requires listed { AreListed shape.now frame.now chunks.old changes.old }
    ensures { (i : List ℕ) → find_in chunks.new i
        ≡ when_cleared (has_cell frame.now.layout.chunk shape.now i) (find_in chunks.old i) }
{
    clear_chunks(chunks, changes, frame, shape);
    changes.listed.clear();
    changes.all = false;
}

fn clear_chunks(chunks: &mut Chunks, changes: &Changes, frame: &Frame, shape: &Shape)
    requires chunk { IsChunk frame.now.layout.chunk }
    requires rank { length frame.now.layout.chunk ≡ length (dims_of shape.now) }
    requires listed { AreListed shape.now frame.now chunks.old changes.now }
    ensures { (i : List ℕ) → find_in chunks.new i
        ≡ when_cleared (has_cell frame.now.layout.chunk shape.now i) (find_in chunks.old i) }
{
    if changes.all {
        clear_all(chunks, &frame.layout, shape);
    } else {
        clear_listed(chunks, &changes.listed);
    }
}

fn clear_all(chunks: &mut Chunks, layout: &Layout, shape: &Shape)
    requires chunk { IsChunk layout.now.chunk }
    requires rank { length layout.now.chunk ≡ length (dims_of shape.now) }
    ensures { (i : List ℕ) → find_in chunks.new i
        ≡ when_cleared (has_cell layout.now.chunk shape.now i) (find_in chunks.old i) }
{
    chunks.retain(|index, held| {
        let stays = !held.dirty || has_cell(layout, shape, index);
        held.dirty = false;
        stays
    });
}

fn clear_listed(chunks: &mut Chunks, listed: &Listed)
    ensures { (i : List ℕ) → find_in chunks.new i
        ≡ cleaned (has listed.now i) (find_in chunks.old i) }
{
    for (index, _) in listed {
        take_as_clean(chunks, index);
    }
}

fn take_as_clean(chunks: &mut Chunks, index: &Dims)
    ensures { (i : List ℕ) → find_in chunks.new i
        ≡ cleaned (bytes_eq i index.now) (find_in chunks.old i) }
{
    if let Some(held) = chunks.get_mut(index) {
        held.dirty = false;
    }
}

/// The first dirty chunk that comes after one, or of all, of those that are listed.
pub(crate) fn first_listed(chunks: &Chunks, listed: &Listed, after: Option<&Dims>) -> Option<Dims>
    ensures first { result
        ≡ first_key (filter (is_later flagged (option_map (λ d. d.now) after.entry))
        (marked (is_dirty_in chunks.now) listed.now.entries)) }
    ensures ordered { IsStrictlySortedBy list_order (keys_of listed.now.entries) }
{
    for (index, _) in rest_after(listed, after) {
        if is_dirty(chunks, index) && comes_after(after, index) {
            return Some(*index);
        }
    }
    None
}

fn is_dirty(chunks: &Chunks, index: &Dims) -> bool
    ensures { result ≡ flagged (flag_at chunks.now index.now) }
{
    match chunks.get(index) {
        Some(held) => held.dirty,
        None => false,
    }
}

/// The first dirty chunk that comes after one, or of all.
pub(crate) fn first_dirty(chunks: &Chunks, after: Option<&Dims>) -> Option<Dims>
    ensures first { result
        ≡ first_key (filter (is_later flagged (option_map (λ d. d.now) after.entry))
        (flags_of chunks.now.entries)) }
    ensures ordered { IsStrictlySortedBy list_order (keys_of chunks.now.entries) }
{
    for (index, held) in rest_after(chunks, after) {
        if held.dirty && comes_after(after, index) {
            return Some(*index);
        }
    }
    None
}

/// The first known chunk that comes after one, or of all.
pub(crate) fn first_known(chunks: &Chunks, after: Option<&Dims>) -> Option<Dims>
    ensures first { result
        ≡ first_key (filter (is_later is_some (option_map (λ d. d.now) after.entry))
        (flags_of chunks.now.entries)) }
    ensures ordered { IsStrictlySortedBy list_order (keys_of chunks.now.entries) }
{
    for (index, _) in rest_after(chunks, after) {
        if comes_after(after, index) {
            return Some(*index);
        }
    }
    None
}

/// The chunks among which are all that come after one: those behind it in the map's order, or all
/// where a chunk has fewer axes, since these stand first there.
fn rest_after<'a, V>(chunks: &'a BTreeMap<Dims, V>, after: Option<&Dims>) -> Range<'a, Dims, V>
    ensures same { (test : Option Bool → Bool) (flag : List ℕ × V → Bool)
        → filter (is_later test (option_map (λ d. d.now) after.entry)) (marked flag result)
        ≡ filter (is_later test (option_map (λ d. d.now) after.entry))
        (marked flag chunks.now.entries) }
    ensures ordered { IsStrictlySortedBy list_order (keys_of chunks.now.entries) }
{
    if let Some(after) = after {
        if let Some((least, _)) = chunks.first_key_value() {
            if after.len() <= least.len() {
                return entries_from(chunks, Bound::Excluded(after));
            }
        }
    }
    entries_from(chunks, Bound::Unbounded)
}

fn entries_from<'a, K: Ord, V>(entries: &'a BTreeMap<K, V>, start: Bound<&K>) -> Range<'a, K, V>
    ensures from { result
        ≡ entries_between K.cmp (bound_map (λ k. k.now) start.entry) Unbounded entries.now.entries }
    ensures ordered { IsOrdered K.cmp entries.now }
{
    entries.range((start, Bound::Unbounded))
}

fn comes_after(after: Option<&Dims>, index: &Dims) -> bool
    ensures { result ≡ is_after (option_map (λ d. d.now) after.entry) index.now }
{
    match after {
        Some(after) => after.as_slice().cmp(index.as_slice()).is_lt(),
        None => true,
    }
}
