//! Copies run by run.

ghost use Rattle.std.specs.Prelude.{◌≡◌, ◌≤◌, length};
ghost use Rattle.chunk_store.specs.BoxCopies.Moves.{AreDistinct, AreFit, AreMoved, source_of, target_of};

use crate::strided_copies::{Strided, copy_strided};
use hyperslab::{Run, Runs};

/// What is copied to what.
#[derive(Clone, Copy, Debug, PartialEq, Eq)]
pub(crate) enum Way {
    /// The box to the selection.
    Read,
    /// One element to the selection.
    Fill,
    /// The selection to the box.
    Write,
}

/// Copies each run. The common sizes are literals, so that an element is moved at once.
pub(crate) fn copy_runs(out: &mut [u8], from: &[u8], runs: Runs, size: usize, way: Way)
    requires size { 1 ≤ size }
    requires distinct { AreDistinct (target_of way) runs }
    requires out { AreFit (target_of way) runs size (length out.old) }
    requires from { AreFit (source_of way) runs size (length from.now) }
    ensures moved { AreMoved (target_of way) (source_of way) runs size from.now out.old out.new }
    ensures len { length out.new ≡ length out.old }
{
    if size == 4 {
        copy_each_run(out, from, runs, 4, way);
    } else if size == 8 {
        copy_each_run(out, from, runs, 8, way);
    } else {
        copy_each_run(out, from, runs, size, way);
    }
}

#[inline(always)]
fn copy_each_run(out: &mut [u8], from: &[u8], runs: Runs, size: usize, way: Way)
    requires size { 1 ≤ size }
    requires distinct { AreDistinct (target_of way) runs }
    requires out { AreFit (target_of way) runs size (length out.old) }
    requires from { AreFit (source_of way) runs size (length from.now) }
    ensures moved { AreMoved (target_of way) (source_of way) runs size from.now out.old out.new }
    ensures len { length out.new ≡ length out.old }
{
    for run in runs {
        let to = target(way, &run);
        let at = source(way, &run);
        copy_strided(out, to, from, at, run.len as usize, size);
    }
}

fn target(way: Way, run: &Run) -> Strided
    ensures { result ≡ target_of way run.now }
{
    match way {
        Way::Read | Way::Fill => in_selection(run),
        Way::Write => in_box(run),
    }
}

fn source(way: Way, run: &Run) -> Strided
    ensures { result ≡ source_of way run.now }
{
    match way {
        Way::Read => in_box(run),
        Way::Fill => Strided {
            first: 0,
            stride: 0,
        },
        Way::Write => in_selection(run),
    }
}

fn in_selection(run: &Run) -> Strided
    ensures { result ≡ record { first = run.now.place; stride = 1 } }
{
    Strided {
        first: run.place as usize,
        stride: 1,
    }
}

fn in_box(run: &Run) -> Strided
    ensures { result ≡ record { first = run.now.offset; stride = run.now.stride } }
{
    Strided {
        first: run.offset as usize,
        stride: run.stride as usize,
    }
}
