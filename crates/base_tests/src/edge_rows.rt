//! Ends over readers, writers and files of std, ends in memory with faults, and what a crash leaves of the disk there.

use edge_traits::source_texts::{TextFault, read_text};
use edge_traits::{
    Disk, FailStop, Failed, FileDisk, Link, MemDisk, MemLink, MemSink, MemSource, Sink, Source,
    StdSink, StdSource, write_all,
};
use std::fs;
use std::fs::File;
use std::process::Abort;
use std::test::Fail;

/// Whether a read into a buffer of four bytes gives these, or has a fault where they are `-`.
fn reads<S: Source>(source: &mut S, wanted: &str) -> bool {
    let mut buf = [0; 4];
    match source.read(&mut buf) {
        Ok(count) => buf.get(..count) == Some(wanted.as_bytes()),
        Err(_) => wanted == "-",
    }
}

/// Each read of a source gives a piece of a row, or has a fault.
fn try_reads<S: Source>(rt: &impl Abort, source: &mut S, row: &str) {
    for wanted in row.split('|') {
        assert!(rt; reads(source, wanted), "{wanted} of {row}");
    }
}

/// Each write of a sink is done, but for one behind a `-`.
fn try_writes<S: Sink>(rt: &impl Abort, sink: &mut S, row: &str) {
    for bytes in row.split('|') {
        let (bytes, done) = match bytes.strip_prefix("-") {
            Some(bytes) => (bytes, false),
            None => (bytes, true),
        };
        let written = write_all(sink, bytes.as_bytes());
        assert!(rt; written.is_ok() == done, "{bytes} of {row}");
    }
}

#[test]
fn readers_and_writers_of_std_serve_as_ends(rt: HostRuntime) {
    let mut source = StdSource::new(b"abcdef".as_slice());
    try_reads(&rt, &mut source, "abcd|ef|");
    let mut sink = StdSink::new(Vec::<u8>::new(rt.alloc()));
    try_writes(&rt, &mut sink, "abc");
    let mut full = StdSink::new(Full);
    try_writes(&rt, &mut full, "-abc|");
}

/// A writer that takes nothing.
#[derive(Drop)]
struct Full;

impl std::io::Write for Full {
    fn write(&mut self, _buf: &[u8]) -> std::io::Result<usize> {
        Ok(0)
    }

    fn flush(&mut self) -> std::io::Result<()> {
        Ok(())
    }
}

/// A source in memory that gives at most so many bytes at once, and fails at these reads.
fn source_of(
    rt: &(impl Abort + AllocGlobal),
    bytes: &[u8],
    piece: usize,
    failing: &[u64],
) -> MemSource {
    let bytes = bytes.to_vec(rt.alloc()).expect(rt, "memory");
    let failing = failing.to_vec(rt.alloc()).expect(rt, "memory");
    MemSource::new(bytes, piece.max(1), failing)
}

#[test]
fn a_source_in_memory_gives_whole_pieces_and_fails_at_its_numbers(rt: HostRuntime) {
    let mut source = source_of(&rt, b"abcdefg", 3, &[1, 4]);
    try_reads(&rt, &mut source, "abc|-|def|g|-||");
}

#[test]
fn a_link_in_memory_fails_at_its_numbers(rt: HostRuntime) {
    let source = source_of(&rt, b"abcde", 4, &[1]);
    let failing = [1u64].to_vec(rt.alloc()).expect(&rt, "memory");
    let mut link = MemLink::new(source, MemSink::new(rt.alloc(), failing));
    try_reads(&rt, &mut link, "abcd|-|e|");
    try_writes(&rt, &mut link, "ab|-cd||ef");
    assert!(rt; link.bytes() == b"abef".as_slice());
}

/// How many bytes a text has, how many it may have, the read that fails, and how long what is read is.
static TEXTS: [(usize, usize, u64, Result<usize, TextFault>); 6] = [
    (12, 100, 9, Ok(12)),
    (12, 100, 3, Err(TextFault::ReadFault)),
    (12, 100, 4, Ok(12)),
    (12, 12, 9, Ok(12)),
    (13, 12, 2, Err(TextFault::ReadFault)),
    (13, 12, 3, Err(TextFault::TooLong)),
];

#[test]
fn a_text_is_read_to_its_end_or_its_limit_and_no_further(rt: HostRuntime) {
    for (bytes, most, failing, wanted) in TEXTS.iter() {
        let text = "a".repeat(rt.alloc(), *bytes).expect(&rt, "memory");
        let mut source = source_of(&rt, text.as_bytes(), 5, &[*failing]);
        let read = read_text(rt.alloc(), &mut source, *most);
        let got = read.map(|text| text.len());
        assert!(rt; got == *wanted, "{bytes} {most} {failing}");
    }
}

// ---- disks

/// How a call ends that may have a fault: it is done where it does what it is to do.
fn ended(done: Result<bool, Failed>) -> &'static str {
    match done {
        Ok(true) => "done",
        Ok(false) => "otherwise",
        Err(Failed) => "fault",
    }
}

/// Whether a read of a disk into a buffer of four bytes gives these.
fn reads_at<D: Disk>(disk: &mut D, at: u64, wanted: &[u8]) -> Result<bool, Failed> {
    let mut buf = [0; 4];
    match disk.read_at(at, &mut buf) {
        Ok(count) => Ok(buf.get(..count) == Some(wanted)),
        Err(fault) => Err(fault),
    }
}

/// Whether there is room for a write at a place that is no farther than the end of a disk, which it tells first.
fn writes_at<D: Disk>(disk: &mut D, at: u64, bytes: &[u8]) -> Result<bool, Failed> {
    let Ok(length) = disk.length() else {
        return Ok(false);
    };
    let room = disk.room();
    if at > length || at > room || bytes.len() as u64 > room - at {
        return Ok(false);
    }
    match disk.write_at(at, bytes) {
        Ok(()) => Ok(true),
        Err(fault) => Err(fault),
    }
}

fn has_length<D: Disk>(disk: &mut D, wanted: u64) -> Result<bool, Failed> {
    match disk.length() {
        Ok(length) => Ok(length == wanted),
        Err(fault) => Err(fault),
    }
}

fn syncs<D: Disk>(disk: &mut D) -> Result<bool, Failed> {
    match disk.sync() {
        Ok(()) => Ok(true),
        Err(fault) => Err(fault),
    }
}

/// Makes a call: a word for it, a place or a length, and bytes.
fn called<D: Disk>(disk: &mut D, call: &str, at: u64, bytes: &[u8]) -> Result<bool, Failed> {
    match call {
        "length" => has_length(disk, at),
        "sync" => syncs(disk),
        "read" => reads_at(disk, at, bytes),
        _ => writes_at(disk, at, bytes),
    }
}

/// Leads a disk through calls, each with how it ends.
fn lead<D: Disk>(rt: &impl Abort, disk: &mut D, rows: &[(&str, u64, &str, &str)]) {
    for (call, at, bytes, wanted) in rows {
        let got = ended(called(disk, *call, *at, bytes.as_bytes()));
        assert!(rt; got == *wanted, "{call} {at} {bytes}");
    }
}

/// A disk in memory of four bytes, of which some calls fail.
fn disk_of(rt: &(impl Abort + AllocGlobal), failing: &[u64]) -> MemDisk {
    let bytes = vec![in rt.alloc(); b'a', b'b', b'c', b'd'].expect(rt, "memory");
    let failing = failing.to_vec(rt.alloc()).expect(rt, "memory");
    MemDisk::new(rt.alloc(), bytes, 16, failing).expect(rt, "memory")
}

/// Calls of a disk of four bytes whose calls 1 and 4 fail. A write asks for the length first. Those behind the sync are unsynced.
static IN_MEMORY: [(&str, u64, &str, &str); 10] = [
    ("length", 4, "", "done"),
    ("read", 1, "bcd", "fault"),
    ("read", 1, "bcd", "done"),
    ("write", 4, "e", "fault"),
    ("read", 0, "abcd", "done"),
    ("length", 4, "", "done"),
    ("write", 0, "A", "done"),
    ("sync", 0, "", "done"),
    ("write", 1, "BC", "done"),
    ("write", 4, "EF", "done"),
];

/// How many of the bytes that were written last a crash keeps, and what it leaves.
static CRASHES: [(u64, &str); 5] = [
    (0, "Abcd\0\0"),
    (1, "ABcd\0\0"),
    (2, "ABCd\0\0"),
    (3, "ABCdE\0"),
    (9, "ABCdEF"),
];

/// Whether a crash that keeps so many bytes leaves these.
fn leaves(rt: &impl Abort, disk: &MemDisk, kept: u64, wanted: &str) -> bool {
    let left = disk.crash(kept).expect(rt, "memory");
    left.bytes() == wanted.as_bytes()
}

#[test]
fn a_disk_in_memory_fails_at_its_numbers_and_a_crash_keeps_the_first_bytes(rt: HostRuntime) {
    let mut disk = disk_of(&rt, &[1, 4]);
    lead(&rt, &mut disk, &IN_MEMORY);
    assert!(rt; disk.bytes() == b"ABCdEF".as_slice());
    for (kept, wanted) in CRASHES.iter() {
        assert!(rt; leaves(&rt, &disk, *kept, *wanted), "{kept}");
    }
}

/// Calls of a disk whose third call fails, where a failed sync is kept in mind.
static STOPPED: [(&str, u64, &str, &str); 5] = [
    ("sync", 0, "", "done"),
    ("length", 4, "", "done"),
    ("sync", 0, "", "fault"),
    ("sync", 0, "", "fault"),
    ("read", 0, "abcd", "done"),
];

/// Calls of a disk whose first call fails.
static WRITTEN: [(&str, u64, &str, &str); 4] = [
    ("sync", 0, "", "fault"),
    ("write", 4, "e", "done"),
    ("sync", 0, "", "fault"),
    ("read", 2, "cde", "done"),
];

#[test]
fn a_disk_whose_sync_failed_is_read_and_written_and_syncs_no_more(rt: HostRuntime) {
    let mut stopped = FailStop::new(disk_of(&rt, &[2]));
    lead(&rt, &mut stopped, &STOPPED);
    let mut written = FailStop::new(disk_of(&rt, &[0]));
    lead(&rt, &mut written, &WRITTEN);
    assert!(rt; written.disk().bytes() == b"abcde".as_slice());
}

/// Calls of a disk over a new file.
static IN_A_FILE: [(&str, u64, &str, &str); 9] = [
    ("write", 0, "abcdef", "done"),
    ("write", 3, "D", "done"),
    ("sync", 0, "", "done"),
    ("length", 6, "", "done"),
    ("read", 0, "abcD", "done"),
    ("read", 1, "bcDe", "done"),
    ("read", 3, "Def", "done"),
    ("read", 6, "", "done"),
    ("read", 9, "", "done"),
];

#[test]
fn a_disk_over_a_file_reads_and_writes_at_each_place(rt: HostRuntime) -> Result<(), Fail> {
    fs::create_dir(&rt, "edge_traits_test")?;
    let path = "edge_traits_test/disk";
    let mut disk = FileDisk::new(File::create_new(&rt, path)?);
    lead(&rt, &mut disk, &IN_A_FILE);
    fs::remove_file(&rt, path)?;
    fs::remove_dir(&rt, "edge_traits_test")?;
    Ok(())
}
