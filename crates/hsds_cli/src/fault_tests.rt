//! Single calls of the input, the output and the disk that fail, and disks without room.
//!
//! A row is the bytes of the disk, a line, an input, what fails, the status and what is printed. What fails is a call of the input
//! (`r`), the output (`w`) or the disk (`d`), by its number, or the disk has so much room (`R`), or so much behind its bytes (`+`).

ghost use Rattle.std.specs.Prelude.{◌<◌};

use crate::exchanges::column;
use crate::run::run;
use crate::trials::{
    LAB, ROOM, Ran, Streams, disk_of, made, plain, printed, run_line, small, words_of, written,
};
use edge_traits::{MemDisk, MemDoor, MemSource, StdSink};
use std::alloc::Global;
use std::sync::Wait;
use std::test::Fail;
use std::thread::Threads;

// The request comes in seven pieces of ten bytes, and the eighth read finds the end. An opening syncs, asks for the length and
// reads once; the record of a run is two writes and two syncs, and so is a keeping. An `init` reads once, writes the header and
// syncs, and then keeps.
static FAULTS: &str = "lab|session|bob|r 0|3|
lab|session|bob|r 1|3|
lab|session|bob|r 2|3|
lab|session|bob|r 3|3|
lab|session|bob|r 4|3|
lab|session|bob|r 5|3|
lab|session|bob|r 6|3|
lab|session|bob|r 7|3|node
lab|session|bob|w 0|4|
written|export /home/lab||d 0|5|
written|export /home/lab||d 1|5|
written|export /home/lab||d 2|5|
written|export /home/lab||d 3|0|more
written|export /home/lab||w 0|4|
written|export /home||w 0|7|
lab|import /home/y27|small|r 0|3|
lab|import /home/y27|small|r 2|3|
lab|import /home/y27|small|w 0|4|
lab|import /home/y27|small|d 0|5|
lab|import /home/y27|small|d 1|5|
lab|import /home/y27|small|d 2|5|
lab|import /home/y27|small|d 3|5|
lab|import /home/y27|small|d 4|5|
lab|import /home/y27|small|d 5|5|
lab|import /home/y27|small|d 6|5|
lab|import /home/y27|small|d 7|5|
lab|import /home/y27|small|d 8|5|
lab|import /home/y27|small|d 9|5|
lab|import /home/y27|small|d 10|5|
lab|import /home/y27|small|d 11|0|more
none|init||d 0|5|
none|init||d 1|5|
none|init||d 2|5|
none|init||d 3|5|
none|init||d 4|5|
none|init||d 5|5|
none|init||d 6|5|
none|init||d 7|0|more
lab|verify||d 0|5|
lab|verify||d 1|5|
lab|verify||d 2|5|
lab|verify||d 3|0|more
lab|session|asked|d 0|5|
lab|session|asked|d 1|5|
lab|session|asked|d 2|5|
lab|session|asked|d 3|5|
lab|session|asked|d 4|5|
lab|session|asked|d 5|5|
lab|session|asked|d 6|5|
lab|session|asked|d 7|0|more";

static ROOMS: &str = "bare|init --lanes 1||R 16|11|
bare|init --lanes 1||R 17|11|
bare|init --lanes 1||R 111|11|
bare|init --lanes 1||R 112|0|more
small|session||R 112|11|
small|session||R 120|11|
small|session||R 133|11|
small|session||R 134|0|
lab|import /home/y27|small|+ 0|11|
lab|import /home/y27|small|+ 21|11|
lab|import /home/y27|small|+ 22|11|
lab|import /home/y27|small|+ 23|11|
lab|import /home/y27|small|+ 60|11|
lab|import /home/y27|small|+ 10000|0|more";

const BOB_READS: &str = "GET /?domain=/home/lab HTTP/1.1\r\nAuthorization: Bearer tb\r\n\r\n";

const LAB_NODE: &str =
    "HTTP/1.1 200 OK\r\nContent-Type: application/json\r\nContent-Length: 82\r\n\r\n\
     {\"class\":\"domain\",\"owner\":\"alice\",\"root\":\"g-00000000-0001-8000-8000-000000000000\"}";

/// The bytes of a disk before a run.
fn start(rt: &(impl Threads + Wait + Sync + AllocGlobal), word: &str) -> Result<Vec<u8>, Fail> {
    let alloc = rt.alloc();
    match word {
        "lab" => Ok(made(rt, LAB)?.bytes().to_vec(alloc)?),
        "written" => Ok(written(rt)?.bytes().to_vec(alloc)?),
        "small" => small(rt),
        _ => Ok(Vec::new(alloc)),
    }
}

fn input_of(word: &str) -> &'static str {
    match word {
        "bob" => BOB_READS,
        "small" => "{\"groups\":{\"g\":{}},\"root\":\"g\"}",
        "asked" => "GET / HTTP/1.1\r\n\r\n",
        _ => "",
    }
}

/// The configuration of a run, which is empty where the journal is that of an empty one.
fn config_of(word: &str) -> &'static str {
    match word {
        "small" | "bare" => "",
        _ => LAB,
    }
}

/// What an output holds: the answer to bob, something else, or nothing.
fn out_word(bytes: &[u8]) -> &'static str {
    if bytes.is_empty() {
        ""
    } else if bytes == LAB_NODE.as_bytes() {
        "node"
    } else {
        "more"
    }
}

/// A run whose input comes in pieces of ten bytes, in which these calls fail.
fn run_row(
    rt: &(impl Threads + Wait + Sync + AllocGlobal),
    row: &str,
    reads: &[u64],
    writes: &[u64],
    disk: MemDisk,
) -> Result<Ran, Fail> {
    let alloc = rt.alloc();
    let given = Streams {
        config: config_of(column(row, 0)).as_bytes(),
        input: input_of(column(row, 2)).as_bytes(),
        piece: 10,
        reads,
        writes,
    };
    run_line(rt, column(row, 1), given, disk)
}

/// The run of a row on a disk with these bytes.
fn run_on(
    rt: &(impl Threads + Wait + Sync + AllocGlobal),
    row: &str,
    bytes: &[u8],
) -> Result<Ran, Fail> {
    let alloc = rt.alloc();
    let (kind, number) = column(row, 3).split_once(' ').ok_or("no fault")?;
    let number = number.parse::<u64>().ok().ok_or("no number")?;
    let calls = [number];
    let none = Vec::new(alloc);
    match kind {
        "r" => run_row(rt, row, &calls, &[], disk_of(alloc, bytes, ROOM, none)?),
        "w" => run_row(rt, row, &[], &calls, disk_of(alloc, bytes, ROOM, none)?),
        "d" => {
            let disk = disk_of(alloc, bytes, ROOM, calls.to_vec(alloc)?)?;
            run_row(rt, row, &[], &[], disk)
        }
        "R" => run_row(rt, row, &[], &[], disk_of(alloc, bytes, number, none)?),
        _ => {
            let room = number.saturating_add(bytes.len() as u64);
            run_row(rt, row, &[], &[], disk_of(alloc, bytes, room, none)?)
        }
    }
}

/// Whether a run ends and prints as its row says. One that a call of the disk stops leaves no session behind.
fn holds(rt: &(impl Threads + Wait + Sync + AllocGlobal), row: &str) -> Result<bool, Fail> {
    let alloc = rt.alloc();
    let bytes = start(rt, column(row, 0))?;
    let done = run_on(rt, row, bytes.as_slice())?;
    let status = format!(in alloc; "{}", done.status)?;
    let quiet = done.status != 5 || done.closed.is_none();
    let same = status.as_str() == column(row, 4);
    Ok(quiet && same && out_word(done.out.bytes()) == column(row, 5))
}

#[test]
fn faults_of_each_call_are_told(rt: HostRuntime) -> Result<(), Fail> {
    for row in FAULTS.split('\n') {
        assert!(rt; holds(&rt, row)?, "{row}");
    }
    Ok(())
}

#[test]
fn disks_without_room_are_told(rt: HostRuntime) -> Result<(), Fail> {
    for row in ROOMS.split('\n') {
        assert!(rt; holds(&rt, row)?, "{row}");
    }
    Ok(())
}

/// Whether `/home/y27` has a document once a row was run.
fn is_imported(rt: &(impl Threads + Wait + Sync + AllocGlobal), row: &str) -> Result<bool, Fail> {
    let alloc = rt.alloc();
    let bytes = start(rt, column(row, 0))?;
    let disk = run_on(rt, row, bytes.as_slice())?.disk;
    let room = disk_of(alloc, disk.bytes(), ROOM, Vec::new(alloc))?;
    Ok(printed(rt, "export /home/y27", room)?.0 == 0)
}

// Where the run's record fits and the document doesn't, the record is all that is kept.
#[test]
fn a_document_is_imported_whole_or_not_at_all(rt: HostRuntime) -> Result<(), Fail> {
    for (row, there) in [
        ("lab|import /home/y27|small|r 0", false),
        ("lab|import /home/y27|small|r 2", false),
        ("lab|import /home/y27|small|w 0", true),
        ("lab|import /home/y27|small|+ 22", false),
        ("lab|import /home/y27|small|+ 23", false),
        ("lab|import /home/y27|small|+ 60", false),
        ("lab|import /home/y27|small|+ 10000", true),
    ] {
        assert!(rt; is_imported(&rt, row)? == there, "{row}");
    }
    Ok(())
}

#[test]
fn the_record_of_a_run_is_all_that_is_kept(rt: HostRuntime) -> Result<(), Fail> {
    let alloc = rt.alloc();
    let bytes = start(&rt, "lab")?;
    let done = run_on(&rt, "lab|import /home/y27|small|+ 60", bytes.as_slice())?;
    let end = bytes.len().saturating_add(21);
    let told = format!(in alloc; "version 1, lanes 2, run 1, batches 2, end {end}\n")?;
    let disk = disk_of(alloc, done.disk.bytes(), ROOM, Vec::new(alloc))?;
    let (_, line) = printed(&rt, "verify", disk)?;
    assert!(rt; line.as_slice() == told.as_bytes());
    Ok(())
}

/// The status of `sample 0` over an output that takes as many bytes as the slice has.
fn sample_into(
    rt: &(impl Threads + Wait + Sync + AllocGlobal),
    room: &mut [u8],
) -> Result<u8, Fail> {
    let alloc = rt.alloc();
    let words = words_of(alloc, "sample 0")?;
    let mut config = MemSource::new(Vec::new(alloc), 1, Vec::new(alloc));
    let mut input = MemSource::new(Vec::new(alloc), 1, Vec::new(alloc));
    let mut out = StdSink::new(room);
    let disk = disk_of(alloc, b"", ROOM, Vec::new(alloc))?;
    let doors: Vec<MemDoor> = Vec::new(alloc);
    let done = run(
        rt,
        alloc,
        words.as_slice(),
        &mut config,
        &mut input,
        &mut out,
        disk,
        doors,
    );
    Ok(done.status)
}

#[test]
fn a_front_of_a_sample_is_printed_where_the_output_fails(rt: HostRuntime) -> Result<(), Fail> {
    let mut held = [0u8; 50];
    assert_eq!(rt; sample_into(&rt, held.as_mut_slice())?, 4);
    let front = "slab 0 count 14300 sum 15204565899741\nslab 100 count 14300";
    assert!(rt; front.as_bytes().starts_with(held.as_slice()));
    assert!(rt; holds(&rt, "none|sample 0||w 0|4|")?);
    Ok(())
}
