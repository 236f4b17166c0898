// A batch's payload, read record after record.
ghost use Rattle.std.specs.Prelude.{◌≡◌, ◌+◌, ◌<◌, ◌≤◌, drop, IfOk, IfErr, IfSome, option_map};
ghost use Rattle.flush_journal.specs.Readers.{file_of, end_of_file, GoesOn, MayFail};
ghost use Rattle.flush_journal.specs.Reading.{window, LengthsAre, RecordIs, RecordsAre};
ghost use Rattle.flush_journal.specs.Records.{split_number_4};

use crate::reader::Reader;
use crate::records::number_4;
use crate::{Recovered, Why};
use edge_traits::Disk;

const MAX_KEY: u32 = 65_535;

// The number behind so many of the bytes that are left at a place; none where they end before.
fn read_number<D: Disk>(
    reader: &mut Reader<D>,
    at: u64,
    left: u64,
    skip: u32,
) -> Result<Option<u32>, Why>
    requires { at + left ≤ end_of_file reader.old }
    ensures on { GoesOn reader.old reader.new }
    ensures number { D.honest → IfOk result (λ o. o ≡ option_map (λ p. p.0)
        (split_number_4 (drop skip (window (file_of reader.old) at left)))) }
    ensures why { IfErr result (MayFail reader.old reader.new) }
{
    let end = skip as u64 + 4;
    if left < end {
        return Ok(None);
    }
    if !reader.fill(at, end)? {
        return Ok(None);
    }
    Ok(number_4(reader.slice(at + skip as u64, 4)))
}

// The lengths of the key and the body of the record at a place, where so many bytes of its payload are left; none where
// no record stands there.
fn read_lengths<D: Disk>(
    reader: &mut Reader<D>,
    at: u64,
    left: u64,
) -> Result<Option<(u32, u32)>, Why>
    requires { at + left ≤ end_of_file reader.old }
    ensures on { GoesOn reader.old reader.new }
    ensures lengths { D.honest → IfOk result (LengthsAre (window (file_of reader.old) at left)) }
    ensures some { IfOk result (λ o. IfSome o (λ n. 0 < n.0)) }
    ensures short { IfOk result (λ o. IfSome o (λ n. n.0 < 65536)) }
    ensures fits { IfOk result (λ o. IfSome o (λ n. 8 + n.0 + n.1 ≤ left)) }
    ensures why { IfErr result (MayFail reader.old reader.new) }
{
    let Some(key) = read_number(reader, at, left, 0)? else {
        return Ok(None);
    };
    if key < 1 || key > MAX_KEY {
        return Ok(None);
    }
    let Some(body) = read_number(reader, at, left, 4 + key)? else {
        return Ok(None);
    };
    let size = 8 + key as u64 + body as u64;
    if left < size {
        return Ok(None);
    }
    Ok(Some((key, body)))
}

// Puts in the record at a place, where so many bytes of its payload are left, and gives its size; none where no record
// stands there.
fn read_record<D: Disk>(
    reader: &mut Reader<D>,
    at: u64,
    left: u64,
    recovered: &mut Recovered,
) -> Result<Option<u64>, Why>
    requires { at + left ≤ end_of_file reader.old }
    ensures on { GoesOn reader.old reader.new }
    ensures record { D.honest → IfOk result
        (RecordIs (file_of reader.old) at left recovered.old recovered.new) }
    ensures some { IfOk result (λ o. IfSome o (λ size. 0 < size)) }
    ensures fits { IfOk result (λ o. IfSome o (λ size. size ≤ left)) }
    ensures why { IfErr result (MayFail reader.old reader.new) }
{
    let Some(lengths) = read_lengths(reader, at, left)? else {
        return Ok(None);
    };
    let (key, body) = lengths;
    let behind = 8 + key as u64;
    let size = behind + body as u64;
    if !reader.fill(at, size)? {
        return Ok(None);
    }
    recovered.put_record(
        reader.slice(at + 4, key as usize),
        reader.slice(at + behind, body as usize),
    )?;
    Ok(Some(size))
}

// Puts in the records of a payload of so many bytes at a place, or says that it is no list of records. No more than one
// record, or one piece, is in memory beside them.
pub fn read_records<D: Disk>(
    reader: &mut Reader<D>,
    from: u64,
    size: u64,
    recovered: &mut Recovered,
) -> Result<bool, Why>
    requires { from + size ≤ end_of_file reader.old }
    ensures on { GoesOn reader.old reader.new }
    ensures records { D.honest → IfOk result
        (RecordsAre (window (file_of reader.old) from size) recovered.old recovered.new) }
    ensures why { IfErr result (MayFail reader.old reader.new) }
{
    let mut at = from;
    let mut left = size;
    'records: while left > 0 {
        let Some(size) = read_record(reader, at, left, recovered)? else {
            return Ok(false);
        };
        at += size;
        left -= size;
    }
    Ok(true)
}
