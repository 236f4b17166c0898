// Records that are to be written in one piece.
ghost use Rattle.std.specs.Prelude.{◌≡◌, ℕ, ◌+◌, ◌-◌, ◌^◌, ◌<◌, ◌≤◌, ◌↔◌, List, [], ◌∷◌, ◌++◌, length, take, drop, max};
ghost use Rattle.std.specs.Prelude.{vec_len, vec_capacity, IsTrue, IsOk, OnOk, OnErr, Some, All};
ghost use Rattle.flush_journal.specs.Frames.{frame_of, frame_size, framed, framed_records, payload_of, record_size, HasFront};
ghost use Rattle.flush_journal.specs.Records.{Record, IsRecord, encoded, encoded_all, records_of};

use std::alloc::{AllocError, Global};

// How many bytes stand in front of a payload: its length.
const FRONT: usize = 8;

// How many bytes a frame has beside its payload: the length, and a closed marker.
const BESIDE: usize = FRONT + 1;

/// Records in the order in which they were put in. Its bytes stand as `Journal::append` writes them: no byte, or the
/// payload with its length in front and a closed marker behind.
#[derive(Drop)]
pub struct Batch {
    frame: Vec<u8>,
    ghost whole: { frame.items ≡ frame_of (framed_records frame.items) },
    ghost sound: { All IsRecord (framed_records frame.items) },
}

impl Batch {
    ghost use Rattle.flush_journal.specs.Batches.{records, spare};

    /// A batch with no record. It takes no memory.
    pub fn new(alloc: Global) -> Batch
        ensures { records result ≡ [] }
    {
        Batch {
            frame: Vec::new(alloc),
        }
    }

    /// Whether the batch has no record.
    pub fn is_empty(&self) -> bool
        ensures { IsTrue result ↔ (records self.now ≡ []) }
    {
        self.frame.as_slice().is_empty()
    }

    /// Takes room for this many more bytes of records, of which each takes its `record_size`. An error doesn't come
    /// where there is that room, and no room is lost.
    pub fn reserve(&mut self, bytes: usize) -> Result<(), AllocError>
        ensures ok { OnOk result (bytes ≤ spare self.new) }
        ensures records { records self.new ≡ records self.old }
        ensures keeps { spare self.old ≤ spare self.new }
        ensures reserved { bytes ≤ spare self.old → IsOk result }
    {
        if bytes == 0 {
            return Ok(());
        }
        reserve_frame(&mut self.frame, bytes)
    }

    /// Adds a record. An error leaves the records and the room as they were, and doesn't come where room was taken
    /// before.
    pub fn push(&mut self, key: &[u8], body: &[u8]) -> Result<(), AllocError>
        requires some_key { 0 < length key.now }
        requires short_key { length key.now < 65536 }
        requires short_body { length body.now < 2 ^ 32 }
        ensures ok { OnOk result (records self.new ≡ records self.old ++ (key.now, body.now) ∷ []) }
        ensures err { OnErr result (records self.new ≡ records self.old) }
        ensures reserved { record_size (key.now, body.now) ≤ spare self.old → IsOk result }
        ensures spare { OnOk result
            (spare self.old ≤ spare self.new + record_size (key.now, body.now)) }
        ensures keeps { OnErr result (spare self.new ≡ spare self.old) }
    {
        reserve_frame(&mut self.frame, record_size(key.len(), body.len()))?;
        add_record(&mut self.frame, key, body);
        Ok(())
    }

    /// How many bytes the batch takes, with its length in front and its marker behind; 0 where it has no record. It
    /// takes no memory.
    pub fn size(&self) -> usize
        ensures { result ≡ frame_size (records self.now) }
    {
        self.frame.len()
    }

    /// Takes the last records off again, so that the batch has the size that it had before they were pushed. It takes
    /// no memory, and no room is lost.
    pub fn truncate(&mut self, size: usize)
        requires { HasFront (records self.old) size }
        ensures front { (front back : List Record) → records self.old ≡ front ++ back
            → size ≡ frame_size front → records self.new ≡ front }
        ensures keeps { spare self.old ≤ spare self.new }
    {
        if size < BESIDE {
            self.frame.clear();
        } else {
            cut_frame(&mut self.frame, size);
        }
    }

    /// The bytes as they are written.
    pub(crate) fn frame(&self) -> &[u8]
        ensures bytes { result.now ≡ frame_of (records self.now) }
        ensures read { records_of (encoded_all (records self.now)) ≡ Some (records self.now) }
        ensures length { length result.now < 2 ^ 63 }
    {
        self.frame.as_slice()
    }
}

/// How many bytes of a batch a record takes, by the lengths of its key and its body.
pub fn record_size(key_length: usize, body_length: usize) -> usize
    requires { 8 + key_length + body_length < 2 ^ 64 }
    ensures number { result ≡ 8 + key_length + body_length }
    ensures record { (r : Record) → length r.0 ≡ key_length → length r.1 ≡ body_length
        → result ≡ record_size r }
{
    8 + key_length + body_length
}

/// A batch may be handed to another thread.
pub fn batch_is_sent(batch: &Batch) {
    is_sent(batch);
}

fn is_sent<T: Send>(_value: &T) {}

// Takes room in a frame for so many more bytes of payload.
fn reserve_frame(frame: &mut Vec<u8>, bytes: usize) -> Result<(), AllocError>
    ensures items { frame.new.items ≡ frame.old.items }
    ensures ok { OnOk result (max 9 (vec_len frame.new) + bytes ≤ vec_capacity frame.new) }
    ensures capacity { vec_capacity frame.old ≤ vec_capacity frame.new }
    ensures err { OnErr result (vec_capacity frame.new ≡ vec_capacity frame.old) }
    ensures succeeds { bytes < 2 ^ 63 → max 9 (vec_len frame.old) + bytes ≤ vec_capacity frame.old
        → IsOk result }
{
    let beside = BESIDE.saturating_sub(frame.len());
    if bytes > usize::MAX - beside {
        return Err(AllocError);
    }
    frame.reserve(beside + bytes)
}

// Adds bytes where there is room.
fn extend_reserved(frame: &mut Vec<u8>, bytes: &[u8])
    requires room { vec_len frame.old + length bytes.now ≤ vec_capacity frame.old }
    ensures items { frame.new.items ≡ frame.old.items ++ bytes.now }
    ensures len { vec_len frame.new ≡ vec_len frame.old + length bytes.now }
    ensures capacity { vec_capacity frame.old ≤ vec_capacity frame.new }
{
    let _ = frame.extend_from_slice(bytes);
}

// Takes the closed marker off a frame; no frame becomes the room for a length.
fn open_frame(frame: &mut Vec<u8>)
    requires room { 8 ≤ vec_capacity frame.old }
    ensures payload { drop 8 frame.new.items ≡ payload_of frame.old.items }
    ensures len { vec_len frame.new ≡ max 9 (vec_len frame.old) - 1 }
    ensures capacity { vec_capacity frame.old ≤ vec_capacity frame.new }
{
    if frame.len() < BESIDE {
        frame.clear();
        extend_reserved(frame, &[0; FRONT]);
    } else {
        frame.pop();
    }
}

// Puts the closed marker behind a payload, and its length in front.
fn close_frame(frame: &mut Vec<u8>)
    requires room { vec_len frame.old < vec_capacity frame.old }
    requires front { 8 ≤ vec_len frame.old }
    ensures items { frame.new.items ≡ framed (drop 8 frame.old.items) }
    ensures len { vec_len frame.new ≡ vec_len frame.old + 1 }
    ensures capacity { vec_capacity frame.new ≡ vec_capacity frame.old }
{
    let size = frame.len() - FRONT;
    frame.push_reserved(0);
    set_front(frame.as_mut_slice(), (size as u64).to_be_bytes());
}

// Puts eight bytes in the place of the first eight.
fn set_front(bytes: &mut [u8], front: [u8; 8])
    requires { 8 ≤ length bytes.old }
    ensures { bytes.new ≡ front ++ drop 8 bytes.old }
{
    bytes[..FRONT].copy_from_slice(&front);
}

// Keeps the front of a payload, so that the frame has this size.
fn cut_frame(frame: &mut Vec<u8>, size: usize)
    requires some { 9 ≤ size }
    requires inside { size ≤ length frame.old.items }
    ensures items { frame.new.items ≡ framed (take (size - 9) (drop 8 frame.old.items)) }
    ensures len { vec_len frame.new ≡ size }
    ensures capacity { vec_capacity frame.new ≡ vec_capacity frame.old }
{
    frame.truncate(size - 1);
    close_frame(frame);
}

// Adds a record to a frame where there is room.
fn add_record(frame: &mut Vec<u8>, key: &[u8], body: &[u8])
    requires room { max 9 (vec_len frame.old) + record_size (key.now, body.now)
        ≤ vec_capacity frame.old }
    requires short_key { length key.now < 65536 }
    requires short_body { length body.now < 2 ^ 32 }
    ensures items { frame.new.items
        ≡ framed (payload_of frame.old.items ++ encoded (key.now, body.now)) }
    ensures len { vec_len frame.new ≡ max 9 (vec_len frame.old) + record_size (key.now, body.now) }
    ensures capacity { vec_capacity frame.old ≤ vec_capacity frame.new }
{
    open_frame(frame);
    extend_reserved(frame, &(key.len() as u32).to_be_bytes());
    extend_reserved(frame, key);
    extend_reserved(frame, &(body.len() as u32).to_be_bytes());
    extend_reserved(frame, body);
    close_frame(frame);
}
