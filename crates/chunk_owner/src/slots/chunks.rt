//! The records of chunks.

ghost use Rattle.std.specs.Prelude.{◌≡◌, true, false, IfSome, IsSome, OnOk, OnErr, option_map};
ghost use Rattle.chunk_store.specs.Indexes.{IsIndex};
ghost use Rattle.chunk_store.specs.Marks.{IsNext, state};
ghost use Rattle.flush_journal.specs.Batches.{records};
ghost use Rattle.object_ids.specs.declared.ids.Kind.TheVariants.{Dataset};
ghost use Rattle.flush_journal.specs.Cuts.Cuts.{AddsRecord};
ghost use Rattle.chunk_owner.specs.Slots.Cutting.{AddsChunks, chunk_body, chunk_record};
ghost use Rattle.chunk_owner.specs.Slots.Slots.{is_meant};

use crate::slots::slot::Mark;
use chunk_store::Array;
use flush_journal::Batch;
use flush_journal::cuts::add_record;
use object_ids::ObjectId;
use object_records::keys::chunk_key;
use shapes::Dims;
use std::alloc::{AllocError, Global};

/// Appends the records of a dataset's chunks: of those that changed, or of all known ones where it was removed.
pub(crate) fn cut_chunks(
    alloc: Global,
    id: &ObjectId,
    mark: Mark,
    array: &Array,
    into: &mut Batch,
) -> Result<(), AllocError>
    requires { id.now.kind ≡ Dataset }
    ensures ok { OnOk result (AddsChunks id.now mark array.now true
        (records into.old) (records into.new)) }
    ensures err { OnErr result (AddsChunks id.now mark array.now false
        (records into.old) (records into.new)) }
{
    array.is_whole();
    let mut last = None;
    while let Some(index) = next_meant(mark, array, last.as_ref()) {
        cut_chunk(alloc, id, mark, array, &index, into)?;
        last = Some(index);
    }
    Ok(())
}

// The first chunk behind one, or of all, whose record is to be written.
fn next_meant(mark: Mark, array: &Array, after: Option<&Dims>) -> Option<Dims>
    ensures next { IsNext (is_meant mark array.now) (option_map (λ d. d.now) after.entry) result }
    ensures known { IfSome result (λ i. IsSome (state array.now i)) }
    ensures index { IfSome result (λ i. IsIndex array.now.grid.chunk i) }
{
    match mark {
        Mark::Kept | Mark::Changed => array.next_dirty(after),
        Mark::Dropped => array.next_chunk(after),
    }
}

// Appends the record of a chunk.
fn cut_chunk(
    alloc: Global,
    id: &ObjectId,
    mark: Mark,
    array: &Array,
    index: &Dims,
    into: &mut Batch,
) -> Result<(), AllocError>
    requires kind { id.now.kind ≡ Dataset }
    requires known { IsSome (state array.now index.now) }
    requires index { IsIndex array.now.grid.chunk index.now }
    ensures ok { OnOk result (AddsRecord (chunk_record id.now mark array.now.grid index.now)
        (records into.old) (records into.new)) }
    ensures err { OnErr result (records into.new ≡ records into.old) }
{
    let key = chunk_key(alloc, id, index)?;
    add_record(into, key.as_slice(), chunk_body(mark, array, index))
}

// The body of a chunk's record: its bytes, or none where the dataset was removed.
fn chunk_body<'a>(mark: Mark, array: &'a Array, index: &Dims) -> &'a [u8]
    requires { IsSome (state array.now index.now) }
    ensures { result.now ≡ chunk_body mark array.now.grid index.now }
{
    match mark {
        Mark::Kept | Mark::Changed => array.chunk_bytes(index),
        Mark::Dropped => &[],
    }
}
