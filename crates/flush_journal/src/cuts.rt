//! What a cut adds to a batch: records that turn what a journal held at the last cut into what stands now.

ghost use Rattle.std.specs.Prelude.{◌≡◌, ◌<◌, ◌≤◌, ◌^◌, length, IsOk, OnOk, OnErr};
ghost use Rattle.flush_journal.specs.Batches.{records, spare};
ghost use Rattle.flush_journal.specs.Frames.{record_size};
ghost use Rattle.flush_journal.specs.Cuts.Cuts.{AddsRecord};

use crate::Batch;
use std::alloc::AllocError;

// The most bytes of a record's body.
const MAX_BODY: usize = 0xffff_ffff;

/// Adds a record to a batch. Where its body is too long for one, there is no memory.
///
/// # Errors
///
/// Where memory runs out, or the body has 2^32 bytes or more. The batch then has the records that it had. An error doesn't
/// come where room was taken before.
pub fn add_record(into: &mut Batch, key: &[u8], body: &[u8]) -> Result<(), AllocError>
    requires some_key { 0 < length key.now }
    requires short_key { length key.now < 65536 }
    ensures ok { OnOk result (AddsRecord (key.now, body.now) (records into.old) (records into.new)) }
    ensures err { OnErr result (records into.new ≡ records into.old) }
    ensures reserved { length body.now < 2 ^ 32
        → record_size (key.now, body.now) ≤ spare into.old → IsOk result }
{
    if body.len() > MAX_BODY {
        return Err(AllocError);
    }
    into.push(key, body)
}
