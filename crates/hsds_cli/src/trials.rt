//! Runs over streams and disks in memory.

ghost use Rattle.std.specs.Prelude.{◌<◌};

use crate::closed::{Closed as LeftClosed, Ends};
use crate::exchanges::exchange_of;
use crate::run::{Finished, run};
use edge_traits::{MemDisk, MemDoor, MemSink, MemSource};
use rest_session::kept::Closed;
use std::alloc::{AllocError, Global};
use std::sync::Wait;
use std::test::Fail;
use std::thread::Threads;

/// The room of a disk.
pub const ROOM: u64 = 1 << 24;

/// A configuration with a folder and a domain.
pub const LAB: &str = "[tokens]
ta = \"alice\"
tb = \"bob\"
tc = \"carol\"

[groups]
lab = [\"alice\", \"bob\", \"carol\"]
ops = [\"bob\"]

[folders.\"/home\"]
owner = \"alice\"

[folders.\"/home\".acls.alice]
create = true
read = true
update = true
delete = true
readACL = true
updateACL = true

[domains.\"/home/lab\"]
owner = \"alice\"

[domains.\"/home/lab\".acls.alice]
create = true
read = true
update = true
delete = true
readACL = true
updateACL = true

[domains.\"/home/lab\".acls.carol]

[domains.\"/home/lab\".acls.\"g:lab\"]
read = true

[domains.\"/home/lab\".acls.\"g:ops\"]
update = true
";

/// What a run is given beside its words and its disk: the configuration, the input with how many of its bytes one read gives,
/// and the numbers of the reads and writes that fail.
#[derive(Clone, Copy)]
pub struct Streams<'a> {
    pub config: &'a [u8],
    pub input: &'a [u8],
    pub piece: usize,
    pub reads: &'a [u64],
    pub writes: &'a [u64],
}

/// A configuration, and an input without faults.
pub fn plain<'a>(config: &'a str, input: &'a str) -> Streams<'a>
    ensures { 0 < result.piece }
{
    Streams {
        config: config.as_bytes(),
        input: input.as_bytes(),
        piece: 100_000,
        reads: &[],
        writes: &[],
    }
}

/// What a run came to.
#[derive(Drop)]
pub struct Ran {
    pub status: u8,
    pub out: MemSink,
    pub disk: MemDisk,
    /// How the link left the world, where the run was a session.
    pub closed: Option<Closed>,
}

/// A disk that holds these bytes.
pub fn disk_of(alloc: Global, bytes: &[u8], room: u64, failing: Vec<u64>) -> Result<MemDisk, Fail> {
    if bytes.len() as u64 > room {
        return Err(Fail::from("no room"));
    }
    Ok(MemDisk::new(alloc, bytes.to_vec(alloc)?, room, failing)?)
}

/// The words of a line, between its spaces.
pub fn words_of(alloc: Global, line: &str) -> Result<Vec<String>, AllocError> {
    let mut words = Vec::new(alloc);
    for word in line.split(' ') {
        words.push(String::from_str(alloc, word)?)?;
    }
    Ok(words)
}

/// How a session's link left the world.
fn link_closed(closed: Option<LeftClosed>) -> Option<Closed> {
    match closed {
        Some(
            LeftClosed {
                front,
                kept,
                ends: Ends::Link(end),
            },
        ) => Some(Closed { front, kept, end }),
        _ => None,
    }
}

/// One run of the words of a line on a disk.
pub fn run_line(
    rt: &(impl Threads + Wait + Sync + AllocGlobal),
    line: &str,
    streams: Streams<'_>,
    disk: MemDisk,
) -> Result<Ran, Fail>
    requires { 0 < streams.piece }
{
    let alloc = rt.alloc();
    let words = words_of(alloc, line)?;
    let mut config = MemSource::new(streams.config.to_vec(alloc)?, 4096, Vec::new(alloc));
    let mut input = MemSource::new(
        streams.input.to_vec(alloc)?,
        streams.piece,
        streams.reads.to_vec(alloc)?,
    );
    let mut out = MemSink::new(alloc, streams.writes.to_vec(alloc)?);
    let doors: Vec<MemDoor> = Vec::new(alloc);
    let Finished {
        status,
        disk,
        closed,
        ..
    } = run(
        rt,
        alloc,
        words.as_slice(),
        &mut config,
        &mut input,
        &mut out,
        disk,
        doors,
    );
    match disk {
        Some(disk) => Ok(Ran {
            status,
            out,
            disk,
            closed: link_closed(closed),
        }),
        None => Err(Fail::from("no disk")),
    }
}

/// A disk with the journal that `init` makes of a configuration for two lanes.
pub fn made(
    rt: &(impl Threads + Wait + Sync + AllocGlobal),
    config: &str,
) -> Result<MemDisk, Fail> {
    let alloc = rt.alloc();
    let disk = disk_of(alloc, b"", ROOM, Vec::new(alloc))?;
    let done = run_line(rt, "init --lanes 2", plain(config, ""), disk)?;
    if done.status == 0 {
        Ok(done.disk)
    } else {
        Err(Fail::from("no journal was made"))
    }
}

/// A dataset of two numbers that is made and written.
pub static WRITTEN: &str =
    r#"POST /datasets|{"type":"H5T_STD_I32LE","shape":[2],"link":{"id":"g#","name":"x"}}|
    201 Created|{"attributeCount":0,"creationProperties":{"layout":{"class":"H5D_CHUNKED","dims":[2]}},"id":"d~0",
    "root":"g#","shape":{"class":"H5S_SIMPLE","dims":[2],"maxdims":[2]},"type":{"base":"H5T_STD_I32LE",
    "class":"H5T_INTEGER"}}
PUT /datasets/d~0/value|{"value":[1,2]}|200 OK|{}"#;

/// A flush, and a second write.
pub static AND_AGAIN: &str = r#"PUT /?flush=1||204 No Content|
PUT /datasets/d~0/value|{"value":[3,4]}|200 OK|{}"#;

/// A disk with the journal of a session that made the dataset and wrote it once.
pub fn written(rt: &(impl Threads + Wait + Sync + AllocGlobal)) -> Result<MemDisk, Fail> {
    let alloc = rt.alloc();
    let exchange = exchange_of(alloc, WRITTEN)?;
    let given = plain(LAB, exchange.sent.as_str());
    let done = run_line(rt, "session", given, made(rt, LAB)?)?;
    if done.status == 0 && done.out.bytes() == exchange.answers.as_bytes() {
        Ok(done.disk)
    } else {
        Err(Fail::from("nothing was written"))
    }
}

/// The bytes of the journal of an empty configuration, for one lane.
pub fn small(rt: &(impl Threads + Wait + Sync + AllocGlobal)) -> Result<Vec<u8>, Fail> {
    let alloc = rt.alloc();
    let disk = disk_of(alloc, b"", ROOM, Vec::new(alloc))?;
    let done = run_line(rt, "init --lanes 1", plain("", ""), disk)?;
    if done.status == 0 && done.disk.bytes().len() == 112 {
        Ok(done.disk.bytes().to_vec(alloc)?)
    } else {
        Err(Fail::from("no journal was made"))
    }
}

/// What a line prints on a disk with these bytes, and the status.
pub fn printed(
    rt: &(impl Threads + Wait + Sync + AllocGlobal),
    line: &str,
    disk: MemDisk,
) -> Result<(u8, Vec<u8>), Fail> {
    let alloc = rt.alloc();
    let done = run_line(rt, line, plain("", ""), disk)?;
    Ok((done.status, done.out.bytes().to_vec(alloc)?))
}

/// The numbers of many calls, from one on.
pub fn from_on(alloc: Global, first: u64) -> Result<Vec<u64>, AllocError> {
    let mut calls = Vec::new(alloc);
    for call in first..first.saturating_add(40) {
        calls.push(call)?;
    }
    Ok(calls)
}
