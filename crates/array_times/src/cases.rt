//! The cases that are measured.

use crate::arrays::{made, selected};
use crate::times::Times;
use chunk_store::Array;
use shapes::Dims;
use std::time::{Clock, Duration, Instant};

/// A case: an array, and selections of it that are read and written one behind the other.
pub struct Case {
    /// What the case is called.
    pub name: &'static str,
    /// The dims of the array.
    pub dims: &'static str,
    /// Those of its chunks.
    pub chunk: &'static str,
    /// Selections that have all cells, with `;` between them. They are written first.
    pub whole: &'static str,
    /// The selections that are read and written.
    pub parts: &'static str,
    /// Whether each round has a new array, so that its write makes the chunks.
    pub is_first: bool,
}

/// The bytes of a cell.
const WIDTH: usize = 4;

/// More chunks than an array of a case has.
const MOST_CHUNKS: usize = 10_000;

/// All cells.
const WHOLE: &str = "[:,:]";

/// All cells of 10,000 rows, 1,000 rows a selection.
const TEN_PARTS: &str =
    "[:1000,:];[1000:2000,:];[2000:3000,:];[3000:4000,:];[4000:5000,:];[5000:6000,:];[6000:7000,:];[7000:8000,:];[8000:9000,:];[9000:,:]";

/// The cases, in the order in which they are measured.
pub static CASES: [Case; 9] = [
    Case {
        name: "first write of the whole, chunks 125x125",
        dims: "[1000,1000]",
        chunk: "[125,125]",
        whole: WHOLE,
        parts: WHOLE,
        is_first: true,
    },
    Case {
        name: "whole, chunks 125x125",
        dims: "[1000,1000]",
        chunk: "[125,125]",
        whole: WHOLE,
        parts: WHOLE,
        is_first: false,
    },
    Case {
        name: "step 7 on the last axis, chunks 125x125",
        dims: "[1000,1000]",
        chunk: "[125,125]",
        whole: WHOLE,
        parts: "[0:1000,0:1000:7]",
        is_first: false,
    },
    Case {
        name: "step 7 on both axes, chunks 125x125",
        dims: "[1000,1000]",
        chunk: "[125,125]",
        whole: WHOLE,
        parts: "[0:1000:7,0:1000:7]",
        is_first: false,
    },
    Case {
        name: "one column, chunks 125x125",
        dims: "[1000,1000]",
        chunk: "[125,125]",
        whole: WHOLE,
        parts: "[0:1000,5]",
        is_first: false,
    },
    Case {
        name: "whole, chunks 1000x1",
        dims: "[1000,1000]",
        chunk: "[1000,1]",
        whole: WHOLE,
        parts: WHOLE,
        is_first: false,
    },
    Case {
        name: "whole, chunks 1000x10",
        dims: "[1000,1000]",
        chunk: "[1000,10]",
        whole: WHOLE,
        parts: WHOLE,
        is_first: false,
    },
    Case {
        name: "whole, chunks 10x1000",
        dims: "[1000,1000]",
        chunk: "[10,1000]",
        whole: WHOLE,
        parts: WHOLE,
        is_first: false,
    },
    Case {
        name: "ten times the cells, in ten parts, chunks 125x125",
        dims: "[10000,1000]",
        chunk: "[125,125]",
        whole: TEN_PARTS,
        parts: TEN_PARTS,
        is_first: false,
    },
];

/// How many chunks an array has, or else the most that are counted.
fn chunks_of(array: &Array) -> usize {
    let mut last: Option<Dims> = None;
    for count in 0..MOST_CHUNKS {
        last = array.next_chunk(last.as_ref());
        if last.is_none() {
            return count;
        }
    }
    MOST_CHUNKS
}

/// Reads a part of the array, writes the same bytes there, and takes both times.
fn part_times<R: Clock + AllocGlobal>(
    rt: &R,
    array: &mut Array,
    part: &str,
) -> anyhow::Result<Times> {
    let slab = selected(array, part)?;
    let chunks = chunks_of(array);
    let start = Instant::now(rt)?;
    let bytes = array.read_slab(rt.alloc(), &slab)?;
    let read = start.elapsed(rt)?;
    let start = Instant::now(rt)?;
    array.write_slab(rt.alloc(), &slab, bytes.as_slice())?;
    let write = start.elapsed(rt)?;
    let cells = bytes.len() / WIDTH;
    Ok(Times {
        read,
        write,
        cells,
        chunks,
    })
}

/// The times of all parts together.
fn round<R: Clock + AllocGlobal>(rt: &R, array: &mut Array, parts: &str) -> anyhow::Result<Times> {
    let mut sum = Times::both(Duration::ZERO);
    for part in parts.split(';') {
        sum = sum.plus(part_times(rt, array, part)?);
    }
    Ok(sum)
}

/// The least times of a case, after all cells were written once.
pub fn measured<R: Clock + AllocGlobal>(rt: &R, case: &Case, rounds: u32) -> anyhow::Result<Times> {
    let mut array = made(rt.alloc(), case.dims, case.chunk)?;
    round(rt, &mut array, case.whole)?;
    let mut least = Times::both(Duration::MAX);
    for _ in 0..rounds {
        if case.is_first {
            array = made(rt.alloc(), case.dims, case.chunk)?;
        }
        least = least.or_less(round(rt, &mut array, case.parts)?);
    }
    Ok(least)
}
