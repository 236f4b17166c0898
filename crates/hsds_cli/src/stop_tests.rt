//! What stands after a stop of the disk, and what a flush does to it.

use crate::exchanges::{exchange_of, spelled};
use crate::trials::{
    AND_AGAIN, LAB, ROOM, Ran, WRITTEN, disk_of, from_on, made, plain, printed, run_line,
};
use edge_traits::MemDisk;
use rest_session::kept::Closed;
use rest_session::links::LinkEnd;
use std::alloc::Global;
use std::process::Abort;
use std::sync::Wait;
use std::test::Fail;
use std::thread::Threads;

static OLD: &str = r#"GET /datasets/d~0/value||200 OK|{"value":[1,2]}"#;

static NEW: &str = r#"GET /datasets/d~0/value||200 OK|{"value":[3,4]}"#;

/// The document of the domain once the dataset was written, and a line feed.
static DOCUMENT: &str =
    r#"{"apiVersion":"1.1.1","datasets":{"d~0":{"attributes":[],"creationProperties":{"layout":{
    "class":"H5D_CHUNKED","dims":[2]}},"shape":{"class":"H5S_SIMPLE","dims":[2],"maxdims":[2]},"type":{
    "base":"H5T_STD_I32LE","class":"H5T_INTEGER"},"value":[1,2]}},"datatypes":{},"groups":{"g#":{"attributes":[],
    "links":[{"class":"H5L_TYPE_HARD","collection":"datasets","id":"d~0","title":"x"}]}},"root":"g#"}
"#;

/// The session of alice on a journal, whose disk stops at a call: whether she has these answers, and the run.
fn stopped(
    rt: &(impl Threads + Wait + Sync + AllocGlobal),
    rows: &str,
    bytes: &[u8],
    call: u64,
) -> Result<(bool, Ran), Fail> {
    let alloc = rt.alloc();
    let exchange = exchange_of(alloc, rows)?;
    let disk = disk_of(alloc, bytes, ROOM, from_on(alloc, call)?)?;
    let done = run_line(rt, "session", plain(LAB, exchange.sent.as_str()), disk)?;
    Ok((done.out.bytes() == exchange.answers.as_bytes(), done))
}

/// Whether a session on a disk answers the rows of alice.
pub fn finds(
    rt: &(impl Threads + Wait + Sync + AllocGlobal),
    disk: MemDisk,
    rows: &str,
) -> Result<bool, Fail> {
    let alloc = rt.alloc();
    let exchange = exchange_of(alloc, rows)?;
    let done = run_line(rt, "session", plain(LAB, exchange.sent.as_str()), disk)?;
    Ok(done.status == 0 && done.out.bytes() == exchange.answers.as_bytes())
}

/// The session that makes the dataset, writes it, flushes it and writes it again, whose disk stops at a call.
fn written_twice(
    rt: &(impl Abort + Threads + Wait + Sync + AllocGlobal),
    call: u64,
) -> Result<Ran, Fail> {
    let alloc = rt.alloc();
    let rows = format!(in alloc; "{WRITTEN}\n{AND_AGAIN}")?;
    let journal = made(rt, LAB)?;
    let (answered, done) = stopped(rt, rows.as_str(), journal.bytes(), call)?;
    assert!(rt; answered, "{call}");
    Ok(done)
}

/// Whether what was flushed stands in an image, or what was written after it, in the answers and in the document.
pub fn is_old(
    rt: &(impl Abort + Threads + Wait + Sync + AllocGlobal),
    image: &MemDisk,
) -> Result<bool, Fail> {
    let alloc = rt.alloc();
    let (status, document) = printed(rt, "export /home/lab", image.crash(0)?)?;
    let old = spelled(alloc, DOCUMENT)?;
    let new = old.replace(alloc, "[1,2]", "[3,4]")?;
    let is_old = finds(rt, image.crash(0)?, OLD)?;
    assert!(rt; status == 0 && (is_old || finds(rt, image.crash(0)?, NEW)?));
    let wanted = if is_old { old } else { new };
    assert!(rt; document.as_slice() == wanted.as_bytes());
    Ok(is_old)
}

// The calls of the opening and of the run's record have the numbers 0 to 6, those of the flush 7 to 10.
#[test]
fn a_stop_behind_a_flush_leaves_what_was_flushed_or_more(rt: HostRuntime) -> Result<(), Fail> {
    let mut olds = 0u8;
    for call in 11..16u64 {
        let done = written_twice(&rt, call)?;
        assert_eq!(rt; done.status, if call < 15 { 5u8 } else { 0 }, "{call}");
        for kept in [0u64, 1, 8, 9, 45, 46] {
            if is_old(&rt, &done.disk.crash(kept)?)? {
                olds = olds.saturating_add(1);
            }
        }
    }
    // The old where nothing of the second marker is there, and else the new.
    assert_eq!(rt; olds, 6 * 3 + 1);
    Ok(())
}

/// A cell is changed, and flushed.
static FLUSHED: &str = r#"PUT /datasets/d~0/value|{"points":[1],"value":[7]}|200 OK|{}
PUT /?flush=1||204 No Content|"#;

// Its record has a key of 21 bytes and a body of 8.
#[test]
fn a_flush_of_one_cell_is_two_writes_and_two_syncs(rt: HostRuntime) -> Result<(), Fail> {
    let alloc = rt.alloc();
    let before = written_twice(&rt, 100)?.disk;
    let begun = before.bytes().len().saturating_add(22);
    for (call, status, grown, marker, synced) in [
        (7u64, 5u8, 0usize, 0u8, true),
        (8, 5, 46, 0, false),
        (9, 5, 46, 0, true),
        (10, 5, 46, 1, false),
        (11, 0, 46, 1, true),
    ] {
        let (answered, done) = stopped(&rt, FLUSHED, before.bytes(), call)?;
        assert_eq!(rt; done.status, status, "{call}");
        assert!(rt; answered == (status == 0), "{call}");
        let bytes = done.disk.bytes();
        assert_eq!(rt; bytes.len().saturating_sub(begun), grown, "{call}");
        let found = bytes.get(begun.saturating_sub(1)).copied();
        assert!(rt; found == Some(marker), "{call}");
        assert!(rt; (done.disk.crash(0)?.bytes() == bytes) == synced, "{call}");
    }
    Ok(())
}

/// A right is taken away, which isn't kept.
pub static TAKEN_AWAY: &str =
    r#"PUT /acls/alice|{"create":true,"read":true,"delete":true,"readACL":true,
    "updateACL":true}|503 Service Unavailable|{"reason":"disk-fault"}"#;

/// What is denied then.
pub static DENIED: &str =
    r#"PUT /datasets/d~0/value|{"value":1}|403 Forbidden|{"domain":"/home/lab",
    "reason":"forbidden","right":"update"}"#;

#[test]
fn a_change_that_is_not_kept_stands_and_is_kept_later(rt: HostRuntime) -> Result<(), Fail> {
    let alloc = rt.alloc();
    let exchange = exchange_of(alloc, format!(in alloc; "{TAKEN_AWAY}\n{DENIED}")?.as_str())?;
    let journal = made(&rt, LAB)?;
    for call in 7..11u64 {
        let mut failing = Vec::new(alloc);
        failing.push(call)?;
        let disk = disk_of(alloc, journal.bytes(), ROOM, failing)?;
        let done = run_line(&rt, "session", plain(LAB, exchange.sent.as_str()), disk)?;
        assert_eq!(rt; done.status, 0, "{call}");
        assert!(rt; done.out.bytes() == exchange.answers.as_bytes(), "{call}");
        let end = Some(Closed {
            front: 2,
            kept: 2,
            end: LinkEnd::Closed,
        });
        assert!(rt; done.closed == end, "{call}");
        assert!(rt; finds(&rt, done.disk.crash(0)?, DENIED)?, "{call}");
    }
    Ok(())
}

/// The export of the small document from domain 2 in run 1, and that of the domain as it was configured, each with a line feed.
static SMALL_EXPORT: &str = r#"{"apiVersion":"1.1.1","datasets":{},"datatypes":{},"groups":{
    "g-00000000-0002-8000-8000-010000000000":{"attributes":[],"links":[]}},
    "root":"g-00000000-0002-8000-8000-010000000000"}
"#;

static LAB_EXPORT: &str =
    r#"{"apiVersion":"1.1.1","datasets":{},"datatypes":{},"groups":{"g#":{"attributes":[],
    "links":[]}},"root":"g#"}
"#;

/// Whether an image has the imported domain; the other stands as it was.
fn is_new(
    rt: &(impl Abort + Threads + Wait + Sync + AllocGlobal),
    image: &MemDisk,
) -> Result<bool, Fail> {
    let alloc = rt.alloc();
    let (status, text) = printed(rt, "export /home/lab", image.crash(0)?)?;
    assert!(rt; status == 0 && text.as_slice() == spelled(alloc, LAB_EXPORT)?.as_bytes());
    let (status, text) = printed(rt, "export /home/y27", image.crash(0)?)?;
    assert!(rt; status == 7 || text.as_slice() == spelled(alloc, SMALL_EXPORT)?.as_bytes());
    Ok(status == 0)
}

#[test]
fn a_stop_leaves_the_old_world_or_the_new_one(rt: HostRuntime) -> Result<(), Fail> {
    let alloc = rt.alloc();
    let journal = made(&rt, LAB)?;
    let mut news = 0u8;
    for call in 3..12u64 {
        let disk = disk_of(alloc, journal.bytes(), ROOM, from_on(alloc, call)?)?;
        let small = plain("", "{\"groups\":{\"g\":{}},\"root\":\"g\"}");
        let stopped = run_line(&rt, "import /home/y27 --owner bob", small, disk)?.disk;
        for kept in [0u64, 1, 8, 9, 45, 500] {
            let there = is_new(&rt, &stopped.crash(kept)?)?;
            assert!(rt; there || call < 11, "{call} {kept}");
            if there {
                news = news.saturating_add(1);
            }
        }
    }
    assert!(rt; news >= 6);
    Ok(())
}
