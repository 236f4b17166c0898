//! The buffers of chunks: one for each chunk that was written or installed, with the bytes of all
//! its cells in row-major order.

ghost use Rattle.std.specs.Prelude.{◌≡◌, ◌≤◌, ◌<◌, ◌+◌, ◌*◌, ◌⊎◌, ◌↔◌, ℕ, List, All, IsTrue, true, false, length, Some, None, IfOk, OnOk, OnErr};
ghost use Rattle.hdf_values.specs.Nested.{piece_at};
ghost use Rattle.shapes.specs.RowMajor.{cell_count};
ghost use Rattle.chunk_store.specs.Changes.{KeepsListed};
ghost use Rattle.chunk_store.specs.Cells.{put, find_in, has};
ghost use Rattle.chunk_store.specs.Buffers.{AreFull, ChunkMap, IsFrame, IsUndoneBy, bytes_at, chunk_bytes, flag_at, held_but};

use crate::changes::Changes;
use crate::chunks::cell_number;
use crate::strided_copies::{Strided, copy_strided};
use chunk_layout::Layout;
use shapes::Dims;
use std::alloc::{AllocError, Global};
use std::collections::BTreeMap;

/// What the chunks of an array have in common.
#[derive(Drop)]
pub(crate) struct Frame {
    /// The dims of a chunk.
    pub(crate) layout: Layout,
    /// How many bytes an element has.
    pub(crate) size: usize,
    /// The element of a cell that was never written.
    pub(crate) blank: Vec<u8>,
}

/// A chunk that was written or installed.
#[derive(Drop)]
pub(crate) struct Held {
    /// The elements of its cells in row-major order.
    pub(crate) bytes: Vec<u8>,
    /// Whether it is dirty: it changed since it was last taken as clean.
    pub(crate) dirty: bool,
}

/// The chunks that were written or installed.
pub(crate) type Chunks = BTreeMap<Dims, Held>;

/// The element of a cell.
pub(crate) fn cell<'a>(chunks: &'a Chunks, frame: &'a Frame, at: &Dims) -> &'a [u8]
    requires frame { IsFrame frame.now }
    requires full { AreFull chunks.now frame.now }
    requires rank { length at.now ≡ length frame.now.layout.chunk }
    ensures { result.now ≡ bytes_at chunks.now frame.now at.now }
{
    let index = chunk_layout::chunk_of(&frame.layout, at);
    match chunks.get(&index) {
        Some(held) => {
            let number = chunk_layout::offset_in(&frame.layout, at);
            element(held.bytes.as_slice(), number as usize, frame.size)
        }
        None => frame.blank.as_slice(),
    }
}

/// The bytes of an element.
pub(crate) fn element(bytes: &[u8], number: usize, size: usize) -> &[u8]
    requires { (number + 1) * size ≤ length bytes.now }
    ensures { result.now ≡ piece_at size number bytes.now }
{
    let start = number * size;
    &bytes[start..start + size]
}

/// How many bytes a chunk has.
pub(crate) fn chunk_size(frame: &Frame) -> u64
    requires { IsFrame frame.now }
    ensures { result ≡ chunk_bytes frame.now }
{
    cell_number(&frame.layout) * frame.size as u64
}

/// So many elements, each the blank.
fn blanks(alloc: Global, frame: &Frame) -> Result<Vec<u8>, AllocError>
    requires { IsFrame frame.now }
    ensures len { IfOk result (λ v. length v.items ≡ chunk_bytes frame.now) }
    ensures each { IfOk result (λ v. (k : ℕ) → k < cell_count frame.now.layout.chunk
        → piece_at frame.now.size k v.items ≡ frame.now.blank.items) }
{
    let many = cell_number(&frame.layout) as usize;
    let mut bytes = vec![in alloc; 0; many * frame.size]?;
    let blank = frame.blank.as_slice();
    if are_zero(blank) {
        return Ok(bytes);
    }
    let each = Strided {
        first: 0,
        stride: 1,
    };
    let one = Strided {
        first: 0,
        stride: 0,
    };
    copy_strided(bytes.as_mut_slice(), each, blank, one, many, frame.size);
    Ok(bytes)
}

/// Whether each byte is zero.
pub(crate) fn are_zero(bytes: &[u8]) -> bool
    ensures { IsTrue result ↔ All (λ b. b ≡ 0) bytes.now }
{
    bytes.iter().all(|byte| *byte == 0)
}

/// Holds a chunk with blanks alone, where it is not held, and lists it.
pub(crate) fn add_chunk(
    alloc: Global,
    chunks: &mut Chunks,
    changes: &mut Changes,
    frame: &Frame,
    index: &Dims,
) -> Result<(), AllocError>
    requires frame { IsFrame frame.now }
    requires full { AreFull chunks.old frame.now }
    ensures same { (q : List ℕ) → length q ≡ length frame.now.layout.chunk
        → bytes_at chunks.new frame.now q ≡ bytes_at chunks.old frame.now q }
    ensures full { AreFull chunks.new frame.now }
    ensures noted { (i : List ℕ) → (flag_at chunks.new i ≡ flag_at chunks.old i)
        ⊎ ((index.now ≡ i) × (flag_at chunks.old i ≡ None) × (flag_at chunks.new i ≡ Some false)) }
    ensures more { (i : List ℕ) → has chunks.old i ≡ true → has chunks.new i ≡ true }
    ensures there { OnOk result (has chunks.new index.now ≡ true) }
    ensures undone { (before : ChunkMap)
        → IsUndoneBy changes.old.added.items before chunks.old
        → IsUndoneBy changes.new.added.items before chunks.new }
    ensures keeps { KeepsListed changes.old changes.new }
    ensures listed { OnOk result (has changes.new.listed index.now ≡ true) }
{
    changes.list(index)?;
    if chunks.contains_key(index) {
        return Ok(());
    }
    changes.added.push(*index)?;
    let bytes = blanks(alloc, frame)?;
    put_chunk(chunks, index, bytes)
}

/// Takes out chunks.
pub(crate) fn remove_chunks(chunks: &mut Chunks, indexes: &[Dims])
    ensures { (i : List ℕ) → find_in chunks.new i ≡ held_but indexes.now chunks.old i }
{
    for index in indexes {
        chunks.remove(index);
    }
}

/// Holds a chunk with these bytes, as a clean one.
pub(crate) fn put_chunk(chunks: &mut Chunks, index: &Dims, bytes: Vec<u8>) -> Result<(), AllocError>
    ensures done { OnOk result ((i : List ℕ) → find_in chunks.new i ≡ put (find_in chunks.old)
        index.now (Some (record { bytes = bytes; dirty = false })) i) }
    ensures kept { OnErr result ((i : List ℕ) → find_in chunks.new i ≡ find_in chunks.old i) }
{
    let held = Held {
        bytes,
        dirty: false,
    };
    match chunks.insert(*index, held) {
        Ok(_) => Ok(()),
        Err(_) => Err(AllocError),
    }
}
