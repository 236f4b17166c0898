//! Other dims: the cells outside them have the fill.

ghost use Rattle.std.specs.Prelude.{◌≡◌, ◌≤◌, ◌<◌, ◌+◌, ◌*◌, ◌⊎◌, ℕ, List, false, true, cond, length};
ghost use Rattle.hdf_values.specs.Nested.{piece_at};
ghost use Rattle.shapes.specs.Shapes.{IsResized, IsSound, lies_in, dims_of};
ghost use Rattle.chunk_store.specs.Buffers.{AreFull, IsFrame, bytes_at, chunk_bytes, flag_at};
ghost use Rattle.chunk_store.specs.Cells.{has};
ghost use Rattle.chunk_store.specs.Truncation.{AreTruncated, IsTruncated};
ghost use Rattle.chunk_store.specs.Indexes.{IsIndex};
ghost use Rattle.chunk_store.specs.Marks.{after_resize, keeps, keeps_axis};

use crate::buffers::{Chunks, Frame, Held};
use crate::chunks::cell_number;
use crate::rows::row_from;
use crate::strided_copies::{Strided, copy_strided};
use chunk_layout::is_in_grid;
use shapes::{Dims, Shape};

/// Puts the fill into each cell of the chunks that lies outside a shape's other dims, and takes the
/// chunks that these truncate as dirty.
pub(crate) fn truncate(chunks: &mut Chunks, frame: &Frame, old: &Shape, new: &Shape)
    requires frame { IsFrame frame.now }
    requires full { AreFull chunks.old frame.now }
    requires indexes { (i : List ℕ) → has chunks.old i ≡ true
        → IsIndex frame.now.layout.chunk i }
    requires sound { IsSound old.now }
    requires ranks { length frame.now.layout.chunk ≡ length (dims_of old.now) }
    requires resized { IsResized old.now (dims_of new.now) new.now }
    requires outside { (q : List ℕ) → length q ≡ length frame.now.layout.chunk
        → lies_in q old.now ≡ false → bytes_at chunks.old frame.now q ≡ frame.now.blank.items }
    ensures cells { (q : List ℕ) → length q ≡ length frame.now.layout.chunk
        → bytes_at chunks.new frame.now q
        ≡ cond (lies_in q new.now) (bytes_at chunks.old frame.now q) frame.now.blank.items }
    ensures full { AreFull chunks.new frame.now }
    ensures flags { (i : List ℕ) → flag_at chunks.new i
        ≡ after_resize (keeps i frame.now.layout.chunk (dims_of old.now) (dims_of new.now))
        (flag_at chunks.old i) }
{
    let _many = chunks.len();
    chunks.retain(|index, held| {
        truncate_chunk(held, frame, index, old, new);
        true
    });
}

/// The same in one chunk.
fn truncate_chunk(held: &mut Held, frame: &Frame, index: &Dims, old: &Shape, new: &Shape)
    requires frame { IsFrame frame.now }
    requires index { IsIndex frame.now.layout.chunk index.now }
    requires full { length held.old.bytes.items ≡ chunk_bytes frame.now }
    requires ranks { length frame.now.layout.chunk ≡ length (dims_of new.now) }
    ensures { IsTruncated frame.now (dims_of old.now) new.now index.now held.old held.new }
{
    if is_kept(index, &frame.layout.chunk, &old.dims(), &new.dims()) {
        return;
    }
    held.dirty = true;
    truncate_bytes(&mut held.bytes, frame, index, new);
}

fn truncate_bytes(bytes: &mut Vec<u8>, frame: &Frame, index: &Dims, new: &Shape)
    requires frame { IsFrame frame.now }
    requires index { IsIndex frame.now.layout.chunk index.now }
    requires full { length bytes.old.items ≡ chunk_bytes frame.now }
    requires ranks { length frame.now.layout.chunk ≡ length (dims_of new.now) }
    ensures full { length bytes.new.items ≡ chunk_bytes frame.now }
    ensures cells { AreTruncated frame.now new.now index.now bytes.old.items bytes.new.items }
{
    if is_in_grid(&frame.layout, new, index) {
        truncate_cells(bytes.as_mut_slice(), frame, index, new);
    } else {
        fill_blanks(
            bytes.as_mut_slice(),
            frame,
            0,
            cell_number(&frame.layout) as usize,
        );
    }
}

fn truncate_cells(bytes: &mut [u8], frame: &Frame, index: &Dims, new: &Shape)
    requires frame { IsFrame frame.now }
    requires index { IsIndex frame.now.layout.chunk index.now }
    requires full { length bytes.old ≡ chunk_bytes frame.now }
    ensures full { length bytes.new ≡ chunk_bytes frame.now }
    ensures cells { AreTruncated frame.now new.now index.now bytes.old bytes.new }
{
    let many = cell_number(&frame.layout);
    let mut done = 0;
    while done < many {
        let row = row_from(&frame.layout, new, index, done);
        let first = done + row.inside;
        fill_blanks(
            bytes,
            frame,
            first as usize,
            (row.len - row.inside) as usize,
        );
        done += row.len;
    }
}

/// Puts the blank into cells that follow one another.
fn fill_blanks(bytes: &mut [u8], frame: &Frame, first: usize, many: usize)
    requires frame { IsFrame frame.now }
    requires room { (first + many) * frame.now.size ≤ length bytes.old }
    ensures len { length bytes.new ≡ length bytes.old }
    ensures here { (j : ℕ) → j < many
        → piece_at frame.now.size (first + j) bytes.new ≡ frame.now.blank.items }
    ensures others { (j : ℕ) → (j < first) ⊎ (first + many ≤ j)
        → piece_at frame.now.size j bytes.new ≡ piece_at frame.now.size j bytes.old }
{
    let to = Strided { first, stride: 1 };
    let blank = Strided {
        first: 0,
        stride: 0,
    };
    copy_strided(bytes, to, frame.blank.as_slice(), blank, many, frame.size);
}

/// Whether a chunk has a cell within other dims, and none that these take away.
fn is_kept(index: &Dims, chunk: &Dims, old: &Dims, new: &Dims) -> bool
    ensures { result ≡ keeps index.now chunk.now old.now new.now }
{
    let axes = index.len().min(chunk.len()).min(old.len()).min(new.len());
    for axis in 0..axes {
        if !is_kept_on(
            index.get(axis),
            chunk.get(axis),
            old.get(axis),
            new.get(axis),
        ) {
            return false;
        }
    }
    true
}

fn is_kept_on(i: u64, n: u64, old: u64, new: u64) -> bool
    ensures { result ≡ keeps_axis i n old new }
{
    let start = i.saturating_mul(n);
    start < new && start.saturating_add(n).min(old) <= new
}
