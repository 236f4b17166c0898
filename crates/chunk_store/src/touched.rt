//! The chunks in which a selection has cells, by their numbers.

ghost use Rattle.std.specs.Prelude.{◌≡◌, ◌≤◌, ◌<◌, ◌+◌, length};
ghost use Rattle.hyperslab.specs.Selected.{IsSlab, IsAxis, extent as extent_of};
ghost use Rattle.chunk_layout.specs.Chunks.{IsChunk};
ghost use Rattle.chunk_store.specs.Indexes.{IsIndex};
ghost use Rattle.chunk_store.specs.Touched.{AreSlots, AreTouched, chunk_at, side_at, slots_of};
ghost use Rattle.chunk_store.specs.Touched.{touched_at, touched_count};

use hyperslab::Slab;
use shapes::Dims;

/// The chunks in which a selection has cells.
#[derive(Clone, Copy, Debug)]
pub(crate) struct Touched {
    slab: Slab,
    chunk: Dims,
    /// How many chunks of each axis have a selected number.
    slots: Dims,
    many: u64,
}

impl Touched {
    /// The chunks, of these dims, in which a selection has cells.
    pub(crate) fn new(slab: &Slab, chunk: &Dims) -> Touched
        requires slab { IsSlab slab.now }
        requires chunk { IsChunk chunk.now }
        requires rank { length chunk.now ≡ length slab.now.start }
        ensures slab { result.slab ≡ slab.now }
        ensures chunk { result.chunk ≡ chunk.now }
        ensures slots { AreSlots result }
        ensures touched { AreTouched slab.now chunk.now }
    {
        let extents = slab.extents();
        let mut slots = Dims::new();
        let mut many = 1;
        for axis in 0..slab.start.len() {
            let start = slab.start.get(axis);
            let stop = slab.stop.get(axis);
            let step = slab.step.get(axis);
            let wide = chunk.get(axis);
            let found = slots_on(start, stop, step, wide, extents.get(axis));
            slots.push(found);
            many *= found;
        }
        Touched {
            slab: *slab,
            chunk: *chunk,
            slots,
            many,
        }
    }

    /// How many chunks there are.
    pub(crate) fn many(&self) -> u64
        requires { AreSlots self.now }
        ensures { result ≡ touched_count self.now.slab self.now.chunk }
    {
        self.many
    }

    /// The index of the chunk with a number, from 0.
    pub(crate) fn index(&self, number: u64) -> Dims
        requires slots { AreSlots self.now }
        requires below { number < touched_count self.now.slab self.now.chunk }
        ensures same { result ≡ touched_at self.now.slab self.now.chunk number }
        ensures index { IsIndex self.now.chunk result }
    {
        let mut index = Dims::new();
        let mut left = self.many;
        let mut rest = number;
        for axis in 0..self.slab.start.len() {
            let start = self.slab.start.get(axis);
            let stop = self.slab.stop.get(axis);
            let step = self.slab.step.get(axis);
            let wide = self.chunk.get(axis);
            let slots = self.slots.get(axis);
            left /= slots;
            let found = chunk_on(start, stop, step, wide, rest / left);
            index.push(found);
            rest %= left;
        }
        index
    }
}

/// How many chunks of an axis have a selected number.
fn slots_on(start: u64, stop: u64, step: u64, wide: u64, extent: u64) -> u64
    requires axis { IsAxis (side_at start stop step wide).axis }
    requires wide { 1 ≤ wide }
    requires extent { extent ≡ extent_of (side_at start stop step wide).axis }
    ensures { result ≡ slots_of (side_at start stop step wide) }
{
    if extent == 0 {
        0
    } else if step <= wide {
        (start + (extent - 1) * step) / wide - start / wide + 1
    } else {
        extent
    }
}

/// The chunk of an axis at a slot.
fn chunk_on(start: u64, stop: u64, step: u64, wide: u64, slot: u64) -> u64
    requires axis { IsAxis (side_at start stop step wide).axis }
    requires wide { 1 ≤ wide }
    requires slot { slot < slots_of (side_at start stop step wide) }
    ensures { result ≡ chunk_at (side_at start stop step wide) slot }
{
    let _stop = stop;
    if step <= wide {
        start / wide + slot
    } else {
        (start + slot * step) / wide
    }
}
