//! How many chunks a write adds.

ghost use Rattle.std.specs.Prelude.{◌≡◌, ◌||◌, ◌&&◌, ℕ, List, All, IfOk, OnOk, length, not};
ghost use Rattle.std.specs.Str.{bytes_eq};
ghost use Rattle.hyperslab.specs.Selected.{IsSlab, FitsIn, selected};
ghost use Rattle.chunk_store.specs.Additions.{AreNew};
ghost use Rattle.chunk_store.specs.Buffers.{IsFrame};
ghost use Rattle.chunk_store.specs.Cells.{has};

use crate::buffers::{Chunks, Frame};
use crate::changes::Listed;
use crate::touched::Touched;
use chunk_layout::chunk_of;
use hyperslab::Slab;
use shapes::Dims;
use std::alloc::{AllocError, Global};
use std::collections::BTreeMap;

/// The chunks of a selection's cells that are not held.
pub(crate) fn new_in_slab(
    alloc: Global,
    chunks: &Chunks,
    frame: &Frame,
    slab: &Slab,
) -> Result<Listed, AllocError>
    requires frame { IsFrame frame.now }
    requires slab { IsSlab slab.now }
    requires rank { length frame.now.layout.chunk ≡ length slab.now.start }
    ensures { IfOk result (λ new. (dims : List ℕ) → FitsIn slab.now dims
        → AreNew chunks.now frame.now.layout.chunk (selected slab.now dims) new) }
{
    let mut new = BTreeMap::new(alloc);
    let touched = Touched::new(slab, &frame.layout.chunk);
    for number in 0..touched.many() {
        let index = touched.index(number);
        note_new(chunks, &mut new, &index)?;
    }
    Ok(new)
}

/// The chunks of cells that are not held.
pub(crate) fn new_in_points(
    alloc: Global,
    chunks: &Chunks,
    frame: &Frame,
    points: &[Dims],
) -> Result<Listed, AllocError>
    requires frame { IsFrame frame.now }
    requires ranks { All (λ at. length at ≡ length frame.now.layout.chunk) points.now }
    ensures { IfOk result (AreNew chunks.now frame.now.layout.chunk points.now) }
{
    let mut new = BTreeMap::new(alloc);
    for at in points {
        let index = chunk_of(&frame.layout, at);
        note_new(chunks, &mut new, &index)?;
    }
    Ok(new)
}

fn note_new(chunks: &Chunks, new: &mut Listed, index: &Dims) -> Result<(), AllocError>
    ensures { OnOk result ((i : List ℕ) → has new.new i
        ≡ (has new.old i || (bytes_eq index.now i && not (has chunks.now i)))) }
{
    if chunks.contains_key(index) {
        return Ok(());
    }
    match new.insert(*index, ()) {
        Ok(_) => Ok(()),
        Err(_) => Err(AllocError),
    }
}
