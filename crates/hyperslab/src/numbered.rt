//! The runs of a selection in a box by their numbers, along the last axis.
//!
//! The cells of the box that are selected are numbered in row-major order, and a run is as many of
//! them as the last axis has.

ghost use Rattle.std.specs.Prelude.{◌≡◌, ◌≤◌, ◌<◌, ◌+◌, ◌-◌, ◌/◌, ◌^◌, length, slice_index_or};
ghost use Rattle.std.specs.List.{AllZip};
ghost use Rattle.shapes.specs.ChunkDims.{IsChunk};
ghost use Rattle.hyperslab.specs.Selected.{IsSlab, extent};
ghost use Rattle.hyperslab.specs.Numbered.{AreNumbered, IsLast, IsRow, run_of};

use crate::Slab;
use crate::runs::Run;
use shapes::Dims;

/// A selection and a box, with what its runs are computed from.
#[derive(Clone, Copy, Debug)]
pub(crate) struct Numbered {
    slab: Slab,
    origin: Dims,
    chunk: Dims,
    /// How many numbers of each axis are selected.
    extents: Dims,
    /// How many of them lie before the box.
    firsts: Dims,
    /// How many of them lie in the box.
    counts: Dims,
    /// How many selected cells lie in the box.
    cells: u64,
    many: u64,
    stride: u64,
    len: u64,
}

/// Runs that follow one another along one axis: the last with several numbers in the box, but for
/// the axis that a run is along.
#[derive(Clone, Copy, Debug)]
pub(crate) struct Row {
    /// How many they are.
    many: u64,
    /// How far each is from the one before it among the selected.
    index_step: u64,
    /// How far it is from it in the box.
    offset_step: u64,
}

/// The run that came last.
#[derive(Clone, Copy, Debug)]
pub(crate) struct Last {
    /// The run, where some of its row are left.
    pub(crate) run: Run,
    /// How many of its row are left.
    left: u64,
}

impl Numbered {
    /// The runs of a selection in the box of these dims at an origin.
    pub(crate) fn new(slab: &Slab, origin: &Dims, chunk: &Dims) -> Numbered
        requires slab { IsSlab slab.now }
        requires chunk { IsChunk chunk.now }
        requires origin_rank { length origin.now ≡ length slab.now.start }
        requires chunk_rank { length chunk.now ≡ length slab.now.start }
        requires ends { AllZip (λ o n. o + n < 2 ^ 64) origin.now chunk.now }
        ensures slab { result.slab ≡ slab.now }
        ensures origin { result.origin ≡ origin.now }
        ensures chunk { result.chunk ≡ chunk.now }
        ensures runs { AreNumbered result }
    {
        let extents = slab.extents();
        let mut firsts = Dims::new();
        let mut counts = Dims::new();
        let mut cells = 1;
        for axis in 0..slab.start.len() {
            let start = slab.start.get(axis);
            let stop = slab.stop.get(axis);
            let step = slab.step.get(axis);
            let low = origin.get(axis);
            let wide = chunk.get(axis);
            let first = steps_below(start, stop.min(low), step);
            let past = steps_below(start, stop.min(low + wide), step);
            let count = past - first;
            firsts.push(first);
            counts.push(count);
            cells *= count;
        }
        let len = last_or_one(&counts);
        let stride = last_or_one(&slab.step);
        let many = parts_of(cells, len);
        Numbered {
            slab: *slab,
            origin: *origin,
            chunk: *chunk,
            extents,
            firsts,
            counts,
            cells,
            many,
            stride,
            len,
        }
    }

    /// How many runs there are.
    pub(crate) fn many(&self) -> u64
        ensures { result ≡ self.now.many }
    {
        self.many
    }

    /// The run with a number, from 0.
    pub(crate) fn run(&self, number: u64) -> Run
        requires runs { AreNumbered self.now }
        requires below { number < self.now.many }
        ensures { result ≡ run_of self.now number }
    {
        let mut step = self.cells;
        let mut rest = number * self.len;
        let mut place = 0;
        let mut offset = 0;
        for axis in 0..self.counts.len() {
            let count = self.counts.get(axis);
            let first = self.firsts.get(axis);
            let extent = self.extents.get(axis);
            let wide = self.chunk.get(axis);
            let start = self.slab.start.get(axis);
            let apart = self.slab.step.get(axis);
            let low = self.origin.get(axis);
            step /= count;
            let k = first + rest / step;
            rest %= step;
            place = place * extent + k;
            offset = offset * wide + (start + k * apart - low);
        }
        Run {
            place,
            offset,
            stride: self.stride,
            len: self.len,
        }
    }

    /// The row in which the runs lie.
    pub(crate) fn row(&self) -> Row
        requires runs { AreNumbered self.now }
        ensures { IsRow self.now result }
    {
        let rank = self.counts.len();
        if rank == 0 || self.many < 2 {
            return Row::single();
        }
        let mut index_step = self.extents.get(rank - 1);
        let mut offset_step = self.chunk.get(rank - 1);
        for behind in 1..rank {
            let axis = rank - 1 - behind;
            let many = self.counts.get(axis);
            let apart = self.slab.step.get(axis);
            let extent = self.extents.get(axis);
            let wide = self.chunk.get(axis);
            if many > 1 {
                return Row {
                    many,
                    index_step,
                    offset_step: apart * offset_step,
                };
            }
            index_step *= extent;
            offset_step *= wide;
        }
        Row::single()
    }

    /// The run with a number, after the one before it: by two sums inside a row.
    pub(crate) fn run_after(&self, row: &Row, number: u64, last: &Last) -> Last
        requires runs { AreNumbered self.now }
        requires row { IsRow self.now row.now }
        requires below { number < self.now.many }
        requires last { IsLast self.now row.now number last.now }
        ensures run { result.run ≡ run_of self.now number }
        ensures last { IsLast self.now row.now (number + 1) result }
    {
        if last.left == 0 {
            return Last {
                run: self.run(number),
                left: row.many - 1,
            };
        }
        let run = Run {
            place: last.run.place + row.index_step,
            offset: last.run.offset + row.offset_step,
            stride: last.run.stride,
            len: last.run.len,
        };
        Last {
            run,
            left: last.left - 1,
        }
    }
}

impl Row {
    /// A row of one run.
    fn single() -> Row
        ensures { result.many ≡ 1 }
    {
        Row {
            many: 1,
            index_step: 0,
            offset_step: 0,
        }
    }
}

impl Last {
    /// Where no run has come.
    pub(crate) fn none() -> Last
        ensures { result.left ≡ 0 }
    {
        let run = Run {
            place: 0,
            offset: 0,
            stride: 0,
            len: 0,
        };
        Last { run, left: 0 }
    }
}

/// How many numbers from a start on, a step apart, are below an end.
fn steps_below(start: u64, end: u64, step: u64) -> u64
    requires { 1 ≤ step }
    ensures { result ≡ extent (record { lo = start; hi = end; by = step }) }
{
    if start < end {
        (end - start - 1) / step + 1
    } else {
        0
    }
}

/// The last number, or 1 where there is none.
fn last_or_one(numbers: &Dims) -> u64
    ensures { result ≡ slice_index_or numbers.now (length numbers.now - 1) 1 }
{
    let many = numbers.len();
    if many == 0 { 1 } else { numbers.get(many - 1) }
}

/// How many times a length goes into a number, and 0 where the length is 0.
fn parts_of(whole: u64, len: u64) -> u64
    ensures none { len ≡ 0 → result ≡ 0 }
    ensures some { 0 < len → result ≡ whole / len }
{
    if len == 0 { 0 } else { whole / len }
}
