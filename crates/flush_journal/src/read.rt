// A journal's file, read from the front.
ghost use Rattle.std.specs.Prelude.{◌≡◌, ◌+◌, ◌<◌, ◌≤◌, length, IfOk, IfErr, OnOk, slice_index, MatchOption, None};
ghost use Rattle.std.specs.FinMap as map;
ghost use Rattle.flush_journal.specs.Files.{first_outside, header_ranges};
ghost use Rattle.flush_journal.specs.Markers.{MarkerStands};
ghost use Rattle.flush_journal.specs.Reports.{IsVersion1};
ghost use Rattle.flush_journal.specs.Readers.{file_of, end_of_file, GoesOn, MayFail};
ghost use Rattle.flush_journal.specs.Reading.{MarkerIs, PayloadIs, IsRead};

use crate::header::{HEADER_SIZE, VERSION, outside};
use crate::markers::OPEN;
use crate::payload::read_records;
use crate::reader::Reader;
use crate::records::number_8;
use crate::{Recovered, Report, Why};
use edge_traits::Disk;

// A file's lanes, where it has a header.
fn read_header<D: Disk>(reader: &mut Reader<D>) -> Result<u32, Why>
    ensures on { GoesOn reader.old reader.new }
    ensures header { D.honest → OnOk result
        (first_outside 0 header_ranges (file_of reader.old) ≡ None) }
    ensures lanes { D.honest → IfOk result (λ n. n ≡ slice_index (file_of reader.old) 11) }
    ensures some_lane { IfOk result (λ n. 1 ≤ n) }
    ensures few_lanes { IfOk result (λ n. n ≤ 16) }
    ensures long { IfOk result (λ _. 16 ≤ end_of_file reader.new) }
    ensures why { IfErr result (MayFail reader.old reader.new) }
{
    let size = reader.end().min(HEADER_SIZE);
    if !reader.fill(0, size)? {
        return Err(Why::NotAJournal { at: 0 });
    }
    let header = reader.slice(0, size as usize);
    if let Some(at) = outside(header) {
        return Err(Why::NotAJournal { at });
    }
    Ok(u32::from(header[11]))
}

// What stands at a marker's place.
#[derive(Clone, Copy)]
pub enum Marker {
    Missing,
    Closed,
    Open,
}

// The marker at a place.
fn read_marker<D: Disk>(reader: &mut Reader<D>, at: u64) -> Result<Marker, Why>
    ensures on { GoesOn reader.old reader.new }
    ensures marker { D.honest → IfOk result (MarkerIs (file_of reader.old) at) }
    ensures inside { IfOk result (λ marker. marker ≡ Marker.Open → at + 1 ≤ end_of_file reader.new) }
    ensures why { IfErr result (MayFail reader.old reader.new) }
{
    if !reader.fill(at, 1)? {
        return Ok(Marker::Missing);
    }
    if reader.slice(at, 1)[0] != OPEN {
        return Ok(Marker::Closed);
    }
    Ok(Marker::Open)
}

// Puts in the records of the batch behind the open marker at a place, and gives its payload's length; none where its
// payload isn't whole or is no list of records.
fn read_payload<D: Disk>(
    reader: &mut Reader<D>,
    at: u64,
    recovered: &mut Recovered,
) -> Result<Option<u64>, Why>
    requires marker { at + 1 ≤ end_of_file reader.old }
    ensures on { GoesOn reader.old reader.new }
    ensures payload { D.honest → IfOk result
        (PayloadIs (file_of reader.old) at recovered.old recovered.new) }
    ensures inside { IfOk result (λ o. MatchOption o (Unit {0})
        (λ n. at + 9 + n ≤ end_of_file reader.new)) }
    ensures why { IfErr result (MayFail reader.old reader.new) }
{
    if !reader.fill(at + 1, 8)? {
        return Ok(None);
    }
    let Some((size, _)) = number_8(reader.slice(at + 1, 8)) else {
        return Ok(None);
    };
    if !reader.reaches(at + 9, size) {
        return Ok(None);
    }
    let whole = read_records(reader, at + 9, size, recovered)?;
    Ok(whole.then_some(size))
}

// Puts in the records of a file's batches, and counts them.
fn read_batches<D: Disk>(
    reader: &mut Reader<D>,
    lanes: u32,
    recovered: &mut Recovered,
) -> Result<Report, Why>
    requires header { D.honest → first_outside 0 header_ranges (file_of reader.old) ≡ None }
    requires lanes { D.honest → lanes ≡ slice_index (file_of reader.old) 11 }
    requires some_lane { 1 ≤ lanes }
    requires few_lanes { lanes ≤ 16 }
    requires long { 16 ≤ end_of_file reader.old }
    requires empty { recovered.old ≡ map.empty }
    ensures on { GoesOn reader.old reader.new }
    ensures found { D.honest → IfOk result (λ r. IsRead (file_of reader.old) r recovered.new) }
    ensures numbers { IfOk result IsVersion1 }
    ensures marker { D.honest → IfOk result (λ r. MarkerStands r.end 0 (file_of reader.old)) }
    ensures why { IfErr result (MayFail reader.old reader.new) }
{
    let mut at = HEADER_SIZE;
    let mut batches = 0;
    'markers: loop {
        match read_marker(reader, at)? {
            Marker::Missing => return Err(Why::NotAJournal { at }),
            Marker::Closed => {
                return Ok(Report {
                    version: VERSION,
                    lanes,
                    batches,
                    end: at,
                });
            }
            Marker::Open => {}
        }
        let Some(size) = read_payload(reader, at, recovered)? else {
            return Err(Why::NotAJournal { at: at + 1 });
        };
        at += 9 + size;
        batches += 1;
    }
}

// Reads what a disk holds, and its numbers.
pub fn read_journal<D: Disk>(
    reader: &mut Reader<D>,
    recovered: &mut Recovered,
) -> Result<Report, Why>
    requires empty { recovered.old ≡ map.empty }
    ensures on { GoesOn reader.old reader.new }
    ensures found { D.honest → IfOk result (λ r. IsRead (file_of reader.old) r recovered.new) }
    ensures numbers { IfOk result IsVersion1 }
    ensures marker { D.honest → IfOk result (λ r. MarkerStands r.end 0 (file_of reader.old)) }
    ensures why { IfErr result (MayFail reader.old reader.new) }
{
    let lanes = read_header(reader)?;
    read_batches(reader, lanes, recovered)
}
