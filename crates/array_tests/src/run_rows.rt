//! Runs of selections in boxes of a grid.

ghost use Rattle.std.specs.Prelude.{◌≡◌, ◌<◌, ◌+◌, ◌^◌, [], ◌∷◌, length};
ghost use Rattle.std.specs.List.{AllZip};
ghost use Rattle.chunk_layout.specs.Chunks.{IsChunk};
ghost use Rattle.hyperslab.specs.Selected.{IsSlab};
ghost use Rattle.shapes.specs.Shapes.{IsSound};

use crate::tables::{column, had, tree};
use hyperslab::{Run, Slab, read_select, whole};
use shapes::{Dims, Shape, read_shape};
use std::process::Abort;

fn run_text(rt: &(impl Abort + AllocGlobal), run: &Run) -> String {
    let (place, offset, stride, len) = (run.place, run.offset, run.stride, run.len);
    had(
        rt,
        format!(in rt.alloc(); "{place}:{offset}:{stride}:{len}"),
    )
}

/// Each run as `place:offset:stride:len`.
fn told(rt: &(impl Abort + AllocGlobal), slab: &Slab, origin: &Dims, chunk: &Dims) -> String
    requires slab { IsSlab slab.now }
    requires chunk { IsChunk chunk.now }
    requires origin_rank { length origin.now ≡ length slab.now.start }
    requires chunk_rank { length chunk.now ≡ length slab.now.start }
    requires ends { AllZip (λ o n. o + n < 2 ^ 64) origin.now chunk.now }
{
    let mut text = String::new(rt.alloc());
    for run in slab.runs_in(origin, chunk) {
        if !text.is_empty() {
            text.push(' ').expect(rt, "memory");
        }
        text.push_str(run_text(rt, &run).as_str())
            .expect(rt, "memory");
    }
    text
}

/// The shape that a text spells.
fn shape_of(rt: &(impl Abort + AllocGlobal), text: &str) -> Shape
    ensures { IsSound result }
{
    read_shape(Some(&tree(rt, text)), None).expect(rt, "a shape")
}

/// Whether a row's selection has these runs in a box.
fn has_runs(
    rt: &(impl Abort + AllocGlobal),
    row: &str,
    grid: &str,
    origin: &Dims,
    chunk: &Dims,
    runs: &str,
) -> bool
    requires chunk { IsChunk chunk.now }
    requires ranks { length origin.now ≡ length chunk.now }
    requires ends { AllZip (λ o n. o + n < 2 ^ 64) origin.now chunk.now }
{
    let slab = read_select(column(row, 0), &shape_of(rt, grid)).expect(rt, "a selection");
    assert!(rt; slab.start.len() == chunk.len());
    told(rt, &slab, origin, chunk).as_str() == runs
}

/// A number below 16 in a row.
fn digit(rt: &(impl Abort + AllocGlobal), row: &str, place: u8) -> u64
    ensures { result < 16 }
{
    tree(rt, column(row, place)).as_u64().expect(rt, "a number") % 16
}

fn pair(first: u64, second: u64) -> Dims
    ensures { result ≡ first ∷ second ∷ [] }
{
    let mut dims = Dims::new();
    dims.push(first);
    dims.push(second);
    dims
}

fn triple(first: u64, second: u64, third: u64) -> Dims
    ensures { result ≡ first ∷ second ∷ third ∷ [] }
{
    let mut dims = pair(first, second);
    dims.push(third);
    dims
}

/// A row a line: a selection of a grid of 10 by 8, a box's origin, and the runs there.
static IN_BOXES_OF_4_BY_3: &str = "[0:10,0:8]|4|0|32:0:1:3 40:3:1:3 48:6:1:3 56:9:1:3
[0:10,0:8]|8|6|70:0:1:2 78:3:1:2
[1:10:4,0:7:3]|0|0|0:3:3:1
[1:10:4,0:7:3]|4|3|4:3:3:1
[2:9:2,1:8:2]|4|1|4:0:2:2 8:6:2:2
[8:10,4:8]|4|3|
[3:3,0:8]|0|0|";

#[test]
fn runs_in_boxes_of_4_by_3(rt: HostRuntime) {
    for row in IN_BOXES_OF_4_BY_3.lines() {
        let origin = pair(digit(&rt, row, 1), digit(&rt, row, 2));
        let told = has_runs(&rt, row, "[10,8]", &origin, &pair(4, 3), column(row, 3));
        assert!(rt; told, "{row}");
    }
}

/// A row a line: a selection of a grid of 10 by 8, a box's origin, and the runs there.
static IN_BOXES_OF_4_BY_1: &str = "[0:10,0:8]|4|2|34:0:1:1 42:1:1:1 50:2:1:1 58:3:1:1
[0:10,0:8]|8|2|66:0:1:1 74:1:1:1
[1:10:3,0:8:2]|4|2|5:0:2:1 9:3:2:1
[1:10:3,0:8:2]|4|3|";

#[test]
fn runs_in_boxes_of_4_by_1(rt: HostRuntime) {
    for row in IN_BOXES_OF_4_BY_1.lines() {
        let origin = pair(digit(&rt, row, 1), digit(&rt, row, 2));
        let told = has_runs(&rt, row, "[10,8]", &origin, &pair(4, 1), column(row, 3));
        assert!(rt; told, "{row}");
    }
}

/// A row a line: a selection of a grid of 4 by 3 by 5, a box's origin, and the runs there.
static IN_BOXES_OF_2_BY_2_BY_3: &str = "[0:4,0:3,0:5]|0|0|3|3:0:1:2 8:3:1:2 18:6:1:2 23:9:1:2
[0:4,0:3,0:5]|0|2|3|13:0:1:2 28:6:1:2
[0:4,1:2,0:5:2]|2|0|0|6:3:2:2 9:9:2:2
[0:4:3,0:3:2,1:5:3]|2|0|3|5:7:3:1";

#[test]
fn runs_in_boxes_of_2_by_2_by_3(rt: HostRuntime) {
    for row in IN_BOXES_OF_2_BY_2_BY_3.lines() {
        let origin = triple(digit(&rt, row, 1), digit(&rt, row, 2), digit(&rt, row, 3));
        let told = has_runs(
            &rt,
            row,
            "[4,3,5]",
            &origin,
            &triple(2, 2, 3),
            column(row, 4),
        );
        assert!(rt; told, "{row}");
    }
}

#[test]
fn the_one_cell_without_an_axis_is_a_run(rt: HostRuntime) {
    let slab = whole(&Shape::Scalar).expect(&rt, "a selection");
    assert_eq!(rt; slab.start.len(), 0);
    let got = told(&rt, &slab, &Dims::new(), &Dims::new());
    assert!(rt; got.as_str() == "0:0:1:1");
}
