// What bytes mean, in other words than the reading of them.
ghost use Rattle.std.specs.Prelude.{◌≡◌, ◌≢◌, ◌↔◌, ◌⊎◌, ◌<◌, ℕ, List, ◌∷◌, ◌++◌, length, take, Some, Ok, Err, All};
ghost use Rattle.std.specs.FinMap as map;
ghost use Rattle.flush_journal.specs.Records.{Record, IsRecord, AreBytes, Held, kept_body, records_of, encoded_all, put_all};
ghost use Rattle.flush_journal.specs.Files.{Content, content, magic};
ghost use Rattle.flush_journal.specs.Moments.{CrashLeaves};
ghost use Rattle.flush_journal.specs.Standing.{with_batch, HasEither, HoldsEither};
ghost use Rattle.flush_journal.specs.Blocks.{IsJournal, IsFault, blocks, header_bytes};

use edge_traits::Disk;

/// A payload is some records exactly where it is their encoding, and a payload can have each of them.
pub fn payload_is_encoding()
    ensures { (bytes : List ℕ) (records : List Record) → AreBytes bytes
        → ((records_of bytes ≡ Some records)
        ↔ ((bytes ≡ encoded_all records) × All IsRecord records)) }
{}

/// A file has a content exactly where it is a header, whole blocks, a marker that isn't open and anything behind
/// it, which make this content; and it is no journal exactly where one of these is missing, at the place of the
/// first that is. What is so laid out is read so, whatever numbers stand for its bytes.
pub fn journal_or_fault()
    ensures journal { (bytes : List ℕ) (c : Content) → AreBytes bytes
        → ((content bytes ≡ Ok c) ↔ IsJournal bytes c) }
    ensures read { (bytes : List ℕ) (c : Content) → IsJournal bytes c → content bytes ≡ Ok c }
    ensures fault { (bytes : List ℕ) (at : ℕ) → AreBytes bytes
        → ((content bytes ≡ Err at) ↔ IsFault bytes at) }
{}

/// A journal's file begins with the magic, its end lies inside, and where the file is bytes each key and body that it
/// holds is.
pub fn content_lies_inside()
    ensures magic { (bytes : List ℕ) (c : Content) → content bytes ≡ Ok c → take 8 bytes ≡ magic }
    ensures end { (bytes : List ℕ) (c : Content) → content bytes ≡ Ok c → c.end < length bytes }
    ensures bytes { (bytes : List ℕ) (c : Content) (key body : List ℕ) → AreBytes bytes
        → content bytes ≡ Ok c → map.get c.held key ≡ Some body
        → AreBytes key × AreBytes body }
{}

/// The bytes of a journal before its end are those of its lanes and its batches, in order; so where a batch comes behind
/// them, they stay.
pub fn earlier_bytes_stay()
    ensures written { (bytes : List ℕ) (c : Content) → AreBytes bytes → content bytes ≡ Ok c
        → take c.end bytes ≡ header_bytes c.lanes ++ blocks c.written }
    ensures stays { (before after : List ℕ) (c : Content) (rs : List Record)
        → AreBytes before → AreBytes after
        → content before ≡ Ok c → content after ≡ Ok (with_batch c rs)
        → take c.end after ≡ take c.end before }
{}

/// Where each moment of a run of calls leaves the one content or the other, and each of a run that goes on from there
/// the other or a third, each moment of both leaves one of the three.
pub fn runs_join<D: Disk>()
    ensures { (before between after : D) (a b c : Content)
        → CrashLeaves D.Disk before between (HasEither a b)
        → CrashLeaves D.Disk between after (HasEither b c)
        → CrashLeaves D.Disk before after (λ file. HasEither a b file ⊎ HasEither b c file) }
{}

/// Of records that are put into a map, in order, the last of a key says what stands there: its body, or nothing
/// where that is empty. At a key of none of them the map is as it was.
pub fn last_record_wins()
    ensures last { (m : Held) (front back : List Record) (key body : List ℕ)
        → All (λ r. r.0 ≢ key) back
        → map.get (put_all (front ++ (key, body) ∷ back) m) key ≡ kept_body body }
    ensures none { (m : Held) (records : List Record) (key : List ℕ)
        → All (λ r. r.0 ≢ key) records → map.get (put_all records m) key ≡ map.get m key }
{}

/// A file that has the content of before, or that with a batch, holds the map of before, or that with the batch's
/// records put in.
pub fn content_tells_map()
    ensures { (c : Content) (rs : List Record) (bytes : List ℕ) → HasEither c (with_batch c rs) bytes
        → HoldsEither c.held (put_all rs c.held) bytes }
{}
