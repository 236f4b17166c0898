//! Reads and writes of picked cells.

ghost use Rattle.std.specs.Prelude.{◌≡◌, ◌*◌, ℕ, List, [], length, IfOk, OnErr, OnOk};
ghost use Rattle.std.specs.List.{flat_map};
ghost use Rattle.shapes.specs.Shapes.{IsSound, dims_of};
ghost use Rattle.hyperslab.specs.Selected.{IsSlab, SlabIn, slab_cells};
ghost use Rattle.chunk_store.specs.Additions.{AreNew};
ghost use Rattle.chunk_store.specs.Changes.{KeepsListed};
ghost use Rattle.chunk_store.specs.Cells.{find_in};
ghost use Rattle.chunk_store.specs.Buffers.{AreFull, AreThere, ChunkMap, IsFrame, IsGrown, IsUndoneBy, IsWritten, bytes_at};
ghost use Rattle.chunk_store.specs.Picked.{picked, PicksIn};

use crate::additions::new_in_slab;
use crate::buffers::{Chunks, Frame, remove_chunks};
use crate::changes::{Changes, Listed};
use crate::picks::Picks;
use crate::places::{grow_places, read_places, write_places};
use crate::points::{grow_points, read_points, write_points};
use crate::slabs::{grow_slab, read_slab, write_slab};
use hyperslab::Slab;
use shapes::Shape;
use std::alloc::{AllocError, Global};
use std::collections::BTreeMap;

/// The elements of picked cells, one after another.
pub(crate) fn read(
    alloc: Global,
    chunks: &Chunks,
    frame: &Frame,
    shape: &Shape,
    picks: &Picks,
) -> Result<Vec<u8>, AllocError>
    requires frame { IsFrame frame.now }
    requires full { AreFull chunks.now frame.now }
    requires sound { IsSound shape.now }
    requires rank { length frame.now.layout.chunk ≡ length (dims_of shape.now) }
    requires picks { PicksIn picks.now shape.now }
    ensures { IfOk result (λ v. v.items
        ≡ flat_map (bytes_at chunks.now frame.now) (picked picks.now shape.now)) }
{
    match picks {
        Picks::Slab(slab) => read_selected(alloc, chunks, frame, shape, slab),
        Picks::Points(points) => read_points(alloc, chunks, frame, points),
        Picks::Places { from, many } => read_places(alloc, chunks, frame, shape, *from, *many),
    }
}

fn read_selected(
    alloc: Global,
    chunks: &Chunks,
    frame: &Frame,
    shape: &Shape,
    slab: &Slab,
) -> Result<Vec<u8>, AllocError>
    requires frame { IsFrame frame.now }
    requires full { AreFull chunks.now frame.now }
    requires rank { length frame.now.layout.chunk ≡ length (dims_of shape.now) }
    requires slab { IsSlab slab.now }
    requires inside { SlabIn slab.now shape.now }
    ensures { IfOk result (λ v. v.items
        ≡ flat_map (bytes_at chunks.now frame.now) (slab_cells slab.now shape.now)) }
{
    if slab.count() == 0 {
        return Ok(Vec::new(alloc));
    }
    read_slab(alloc, chunks, frame, slab)
}

/// Holds each chunk that has a picked cell, and lists it, or holds none that was not held.
pub(crate) fn hold(
    alloc: Global,
    chunks: &mut Chunks,
    changes: &mut Changes,
    frame: &Frame,
    shape: &Shape,
    picks: &Picks,
) -> Result<(), AllocError>
    requires frame { IsFrame frame.now }
    requires full { AreFull chunks.old frame.now }
    requires sound { IsSound shape.now }
    requires rank { length frame.now.layout.chunk ≡ length (dims_of shape.now) }
    requires picks { PicksIn picks.now shape.now }
    ensures grown { OnOk result (IsGrown chunks.old chunks.new frame.now
        (picked picks.now shape.now)) }
    ensures there { OnOk result (AreThere chunks.new frame.now (picked picks.now shape.now)) }
    ensures kept { OnErr result ((i : List ℕ) → find_in chunks.new i ≡ find_in chunks.old i) }
    ensures keeps { KeepsListed changes.old changes.new }
    ensures listed { OnOk result (AreThere changes.new.listed frame.now
        (picked picks.now shape.now)) }
{
    changes.added = Vec::new(alloc);
    let held = grow_or_undo(alloc, chunks, changes, frame, shape, picks);
    changes.added = Vec::new(alloc);
    held
}

fn grow_or_undo(
    alloc: Global,
    chunks: &mut Chunks,
    changes: &mut Changes,
    frame: &Frame,
    shape: &Shape,
    picks: &Picks,
) -> Result<(), AllocError>
    requires frame { IsFrame frame.now }
    requires full { AreFull chunks.old frame.now }
    requires sound { IsSound shape.now }
    requires rank { length frame.now.layout.chunk ≡ length (dims_of shape.now) }
    requires picks { PicksIn picks.now shape.now }
    requires none { changes.old.added.items ≡ [] }
    ensures grown { OnOk result (IsGrown chunks.old chunks.new frame.now
        (picked picks.now shape.now)) }
    ensures there { OnOk result (AreThere chunks.new frame.now (picked picks.now shape.now)) }
    ensures kept { OnErr result ((i : List ℕ) → find_in chunks.new i ≡ find_in chunks.old i) }
    ensures keeps { KeepsListed changes.old changes.new }
    ensures listed { OnOk result (AreThere changes.new.listed frame.now
        (picked picks.now shape.now)) }
{
    if let Err(error) = grow(alloc, chunks, changes, frame, shape, picks) {
        remove_chunks(chunks, changes.added.as_slice());
        return Err(error);
    }
    Ok(())
}

/// Holds each chunk that has a picked cell, lists it, and tells which were added.
fn grow(
    alloc: Global,
    chunks: &mut Chunks,
    changes: &mut Changes,
    frame: &Frame,
    shape: &Shape,
    picks: &Picks,
) -> Result<(), AllocError>
    requires frame { IsFrame frame.now }
    requires full { AreFull chunks.old frame.now }
    requires sound { IsSound shape.now }
    requires rank { length frame.now.layout.chunk ≡ length (dims_of shape.now) }
    requires picks { PicksIn picks.now shape.now }
    ensures grown { OnOk result (IsGrown chunks.old chunks.new frame.now
        (picked picks.now shape.now)) }
    ensures undone { (before : ChunkMap)
        → IsUndoneBy changes.old.added.items before chunks.old
        → IsUndoneBy changes.new.added.items before chunks.new }
    ensures keeps { KeepsListed changes.old changes.new }
    ensures listed { OnOk result (AreThere changes.new.listed frame.now
        (picked picks.now shape.now)) }
    ensures there { OnOk result (AreThere chunks.new frame.now (picked picks.now shape.now)) }
{
    match picks {
        Picks::Slab(slab) => grow_selected(alloc, chunks, changes, frame, shape, slab),
        Picks::Points(points) => grow_points(alloc, chunks, changes, frame, points),
        Picks::Places { from, many } => {
            grow_places(alloc, chunks, changes, frame, shape, *from, *many)
        }
    }
}

fn grow_selected(
    alloc: Global,
    chunks: &mut Chunks,
    changes: &mut Changes,
    frame: &Frame,
    shape: &Shape,
    slab: &Slab,
) -> Result<(), AllocError>
    requires frame { IsFrame frame.now }
    requires full { AreFull chunks.old frame.now }
    requires rank { length frame.now.layout.chunk ≡ length (dims_of shape.now) }
    requires slab { IsSlab slab.now }
    requires inside { SlabIn slab.now shape.now }
    ensures grown { OnOk result (IsGrown chunks.old chunks.new frame.now
        (slab_cells slab.now shape.now)) }
    ensures undone { (before : ChunkMap)
        → IsUndoneBy changes.old.added.items before chunks.old
        → IsUndoneBy changes.new.added.items before chunks.new }
    ensures keeps { KeepsListed changes.old changes.new }
    ensures listed { OnOk result (AreThere changes.new.listed frame.now
        (slab_cells slab.now shape.now)) }
    ensures there { OnOk result (AreThere chunks.new frame.now (slab_cells slab.now shape.now)) }
{
    if slab.count() == 0 {
        return Ok(());
    }
    grow_slab(alloc, chunks, changes, frame, slab)
}

/// Writes elements into picked cells, whose chunks are all held, and takes these as dirty.
pub(crate) fn write(chunks: &mut Chunks, frame: &Frame, shape: &Shape, picks: &Picks, bytes: &[u8])
    requires frame { IsFrame frame.now }
    requires full { AreFull chunks.old frame.now }
    requires sound { IsSound shape.now }
    requires rank { length frame.now.layout.chunk ≡ length (dims_of shape.now) }
    requires picks { PicksIn picks.now shape.now }
    requires bytes { length bytes.now ≡ length (picked picks.now shape.now) * frame.now.size }
    requires there { AreThere chunks.old frame.now (picked picks.now shape.now) }
    ensures { IsWritten chunks.old chunks.new frame.now (picked picks.now shape.now) bytes.now }
{
    match picks {
        Picks::Slab(slab) => write_selected(chunks, frame, shape, slab, bytes),
        Picks::Points(points) => write_points(chunks, frame, points, bytes),
        Picks::Places { from, many } => write_places(chunks, frame, shape, *from, *many, bytes),
    }
}

fn write_selected(chunks: &mut Chunks, frame: &Frame, shape: &Shape, slab: &Slab, bytes: &[u8])
    requires frame { IsFrame frame.now }
    requires full { AreFull chunks.old frame.now }
    requires rank { length frame.now.layout.chunk ≡ length (dims_of shape.now) }
    requires slab { IsSlab slab.now }
    requires inside { SlabIn slab.now shape.now }
    requires bytes { length bytes.now
        ≡ length (slab_cells slab.now shape.now) * frame.now.size }
    requires there { AreThere chunks.old frame.now (slab_cells slab.now shape.now) }
    ensures { IsWritten chunks.old chunks.new frame.now (slab_cells slab.now shape.now) bytes.now }
{
    if slab.count() == 0 {
        return;
    }
    write_slab(chunks, frame, slab, bytes);
}

/// The chunks of a selection's cells that are not held.
pub(crate) fn new_selected(
    alloc: Global,
    chunks: &Chunks,
    frame: &Frame,
    shape: &Shape,
    slab: &Slab,
) -> Result<Listed, AllocError>
    requires frame { IsFrame frame.now }
    requires rank { length frame.now.layout.chunk ≡ length (dims_of shape.now) }
    requires slab { IsSlab slab.now }
    requires inside { SlabIn slab.now shape.now }
    ensures { IfOk result (AreNew chunks.now frame.now.layout.chunk
        (slab_cells slab.now shape.now)) }
{
    if slab.count() == 0 {
        return Ok(BTreeMap::new(alloc));
    }
    new_in_slab(alloc, chunks, frame, slab)
}
