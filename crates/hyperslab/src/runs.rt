//! The runs of a selection in a box, one after another.

ghost use Rattle.std.specs.Prelude.{◌≡◌, ◌+◌, ◌<◌, ◌^◌, length};
ghost use Rattle.std.specs.Iterator.{YieldsFirst, item_count};
ghost use Rattle.std.specs.List.{AllZip};
ghost use Rattle.shapes.specs.ChunkDims.{IsChunk};
ghost use Rattle.hyperslab.specs.Selected.{IsSlab};
ghost use Rattle.hyperslab.specs.Runs.{AreAll, AreBoxed, AreOnce, AreRuns};

use crate::Slab;
use crate::numbered::{Last, Numbered, Row};
use shapes::Dims;
use std::marker::Model;

/// Selected cells of a box that follow one another among the selected, a stride apart in the box.
#[derive(Clone, Copy, Debug, PartialEq, Eq)]
pub struct Run {
    /// The linear index of the first among the selected.
    pub place: u64,
    /// Its linear index in the box (row-major).
    pub offset: u64,
    /// How far apart they are in the box.
    pub stride: u64,
    /// How many they are.
    pub len: u64,
}

/// The runs of a selection in a box, seen as the list of those that are left.
#[derive(Drop)]
pub struct Runs {
    runs: Numbered,
    row: Row,
    next: u64,
    last: Last,
}

impl Model for Runs {
    ghost use Rattle.std.specs.Prelude.{◌≤◌, List};
    ghost use Rattle.hyperslab.specs.declared.runs.Run.{Run};

    ghost Value = { List Run };

    ghost use Rattle.hyperslab.specs.Numbered.{AreLeft, runs_from};

    ghost view = { λ a. runs_from a.runs a.next };

    ghost invariant = { λ a. AreLeft a.runs a.row a.next a.last };
}

impl Iterator for Runs {
    type Item = Run;

    ghost next_gives = { YieldsFirst (λ runs. runs) };

    ghost remaining = { item_count (λ runs. runs) };

    fn next(&mut self) -> Option<Run> {
        let number = self.next;
        if number == self.runs.many() {
            return None;
        }
        let last = self.runs.run_after(&self.row, number, &self.last);
        self.next = number + 1;
        self.last = last;
        Some(last.run)
    }
}

impl Slab {
    /// The runs of the selection in the box of these dims at an origin. They cover each selected cell
    /// in the box once, and no other.
    pub fn runs_in(&self, origin: &Dims, chunk: &Dims) -> Runs
        requires slab { IsSlab self.now }
        requires chunk { IsChunk chunk.now }
        requires origin_rank { length origin.now ≡ length self.now.start }
        requires chunk_rank { length chunk.now ≡ length self.now.start }
        requires ends { AllZip (λ o n. o + n < 2 ^ 64) origin.now chunk.now }
        ensures runs { AreRuns result }
        ensures boxed { AreBoxed self.now origin.now chunk.now result }
        ensures all { AreAll self.now origin.now chunk.now result }
        ensures once { AreOnce result }
    {
        let runs = Numbered::new(self, origin, chunk);
        let row = runs.row();
        Runs {
            runs,
            row,
            next: 0,
            last: Last::none(),
        }
    }
}
