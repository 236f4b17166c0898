//! Journals whose bytes are truncated or changed, disks that are full, and how a link left the world.

use crate::exchanges::exchange_of;
use crate::trials::{
    AND_AGAIN, LAB, ROOM, Ran, Streams, WRITTEN, disk_of, from_on, made, plain, run_line, small,
};
use http_wire::MessageFault;
use rest_session::kept::Closed;
use rest_session::links::LinkEnd;
use std::alloc::{AllocError, Global};
use std::process::Abort;
use std::sync::Wait;
use std::test::Fail;
use std::thread::Threads;

const ASKED: &str = "GET / HTTP/1.1\r\n\r\n";

const DENIED: &str =
    "HTTP/1.1 403 Forbidden\r\nContent-Type: application/json\r\nContent-Length: 50\r\n\
     WWW-Authenticate: Bearer realm=\"hsds\"\r\n\r\n{\"domain\":\"/\",\"reason\":\"forbidden\",\
     \"right\":\"read\"}";

/// The status with which a journal of an empty configuration is opened. It is that of both commands; where it is 0 a session
/// answers from a world, and else it answers nothing and the bytes stay.
fn opening(
    rt: &(impl Abort + Threads + Wait + Sync + AllocGlobal),
    bytes: &[u8],
) -> Result<u8, Fail> {
    let alloc = rt.alloc();
    let disk = disk_of(alloc, bytes, ROOM, Vec::new(alloc))?;
    let told = run_line(rt, "verify", plain("", ""), disk)?;
    assert!(rt; told.disk.bytes() == bytes);
    let done = run_line(rt, "session", plain("", ASKED), told.disk)?;
    assert_eq!(rt; done.status, told.status);
    if done.status == 0 {
        assert!(rt; done.out.bytes() == DENIED.as_bytes());
        assert!(rt; done.closed.is_some());
    } else {
        assert!(rt; done.out.bytes().is_empty());
        assert!(rt; done.disk.bytes() == bytes);
        assert!(rt; done.closed.is_none());
    }
    Ok(done.status)
}

/// Some bytes, one of which has other bits.
fn flipped(alloc: Global, bytes: &[u8], at: usize, bits: u8) -> Result<Vec<u8>, AllocError> {
    let mut changed = bytes.to_vec(alloc)?;
    if let Some(byte) = changed.get_mut(at) {
        *byte ^= bits;
    }
    Ok(changed)
}

#[test]
fn bytes_that_are_no_journal_are_refused(rt: HostRuntime) -> Result<(), Fail> {
    let alloc = rt.alloc();
    let journal = small(&rt)?;
    let whole = journal.as_slice();
    for length in 0..whole.len() {
        assert_eq!(rt; opening(&rt, &whole[..length])?, 6, "{length}");
    }
    // A byte of the magic, the lanes and the zeros, the marker, the length, the run's key and its first byte, and the last marker.
    for (at, bits, status) in [
        (0usize, 1u8, 6u8),
        (11, 1, 6),
        (11, 2, 0),
        (12, 1, 6),
        (16, 1, 6),
        (24, 1, 6),
        (29, 8, 6),
        (34, 1, 6),
        (111, 1, 6),
        (111, 2, 0),
    ] {
        let changed = flipped(alloc, whole, at, bits)?;
        assert_eq!(rt; opening(&rt, changed.as_slice())?, status, "{at}");
    }
    Ok(())
}

#[test]
fn a_changed_byte_is_refused_or_read(rt: HostRuntime) -> Result<(), Fail> {
    let alloc = rt.alloc();
    let journal = small(&rt)?;
    for at in 0..journal.len() {
        for bits in [1u8, 2, 128] {
            let changed = flipped(alloc, journal.as_slice(), at, bits)?;
            let status = opening(&rt, changed.as_slice())?;
            assert!(rt; status == 0 || status == 6, "{at} {bits}");
        }
    }
    Ok(())
}

// ---- a full disk

/// A configuration whose folder `/` is alice's.
pub const OWN_ROOT: &str = "[tokens]
ta = \"alice\"

[folders.\"/\"]
owner = \"alice\"

[folders.\"/\".acls.alice]
create = true
read = true
update = true
delete = true
readACL = true
updateACL = true
";

/// The body of its record.
const BEFORE: &str =
    "{\"acls\":{\"alice\":{\"create\":true,\"delete\":true,\"read\":true,\"readACL\":true,\
     \"update\":true,\"updateACL\":true}},\"class\":\"folder\",\"owner\":\"alice\"}";

/// That body once bob has an entry.
pub const AFTER: &str =
    "{\"acls\":{\"alice\":{\"create\":true,\"delete\":true,\"read\":true,\"readACL\":true,\
     \"update\":true,\"updateACL\":true},\"bob\":{\"create\":false,\"delete\":false,\
     \"read\":true,\"readACL\":false,\"update\":false,\"updateACL\":false}},\"class\":\"folder\",\
     \"owner\":\"alice\"}";

/// A session in which alice gives bob an entry, on a disk of so much room: whether she has the answer, and the run.
fn entered(
    rt: &(impl Threads + Wait + Sync + AllocGlobal),
    room: u64,
    answer: &str,
) -> Result<(bool, Ran), Fail> {
    let alloc = rt.alloc();
    let journal = made(rt, OWN_ROOT)?;
    let row = format!(in alloc; "PUT /acls/bob?domain=/|{{\"read\":true}}|{answer}")?;
    let exchange = exchange_of(alloc, row.as_str())?;
    let disk = disk_of(alloc, journal.bytes(), room, Vec::new(alloc))?;
    let given = plain(OWN_ROOT, exchange.sent.as_str());
    let done = run_line(rt, "session", given, disk)?;
    Ok((done.out.bytes() == exchange.answers.as_bytes(), done))
}

// A header and a batch of three records, and a closed marker; then the record of a run.
#[test]
fn a_full_disk_is_told(rt: HostRuntime) -> Result<(), Fail> {
    let alloc = rt.alloc();
    let size = (16 + 9 + 13 + 17 + 10 + 1usize).saturating_add(BEFORE.len());
    assert_eq!(rt; made(&rt, OWN_ROOT)?.bytes().len(), size);
    let end = size.saturating_add(21);
    let need = (10 + 10usize).saturating_add(AFTER.len());
    let fits = end.saturating_add(need);
    let short = fits.saturating_sub(1);
    let answer = format!(in alloc;
        "503 Service Unavailable|\
         {{\"end\":{end},\"need\":{need},\"reason\":\"journal-full\",\"room\":{short}}}"
    )?;
    let (answered, done) = entered(&rt, short as u64, answer.as_str())?;
    assert!(rt; answered && done.status == 11);
    assert!(rt; done.closed == closed(1, 0, LinkEnd::Closed));
    assert_eq!(rt; done.disk.bytes().len(), end.saturating_add(1));
    let (answered, done) = entered(&rt, fits as u64, "201 Created|{}")?;
    assert!(rt; answered && done.status == 0);
    assert_eq!(rt; done.disk.bytes().len(), fits);
    Ok(())
}

// ---- how a link left the world

fn closed(front: u64, kept: u64, end: LinkEnd) -> Option<Closed> {
    Some(Closed { front, kept, end })
}

const NODE: &str = "GET /?domain=/home/lab HTTP/1.1\r\nAuthorization: Bearer ta\r\n\r\n";

/// A session of some requests in one piece, whose reads and whose disk fail at these calls.
fn left(
    rt: &(impl Threads + Wait + Sync + AllocGlobal),
    input: &str,
    reads: &[u64],
    failing: Vec<u64>,
) -> Result<Ran, Fail> {
    let alloc = rt.alloc();
    let disk = disk_of(alloc, made(rt, LAB)?.bytes(), ROOM, failing)?;
    let given = Streams {
        config: LAB.as_bytes(),
        input: input.as_bytes(),
        piece: 100_000,
        reads,
        writes: &[],
    };
    run_line(rt, "session", given, disk)
}

#[test]
fn a_link_leaves_the_world_at_a_place(rt: HostRuntime) -> Result<(), Fail> {
    let alloc = rt.alloc();
    // What is no request has no place, and what is denied has one.
    let three = format!(in alloc; "{NODE}GET /nothing HTTP/1.1\r\n\r\n{ASKED}")?;
    let cut = format!(in alloc; "{NODE}GET /")?;
    let fault = LinkEnd::Ended(MessageFault::BadHead);
    for (input, reads, status, end) in [
        ("", [].as_slice(), 0u8, closed(0, 0, LinkEnd::Closed)),
        (
            three.as_str(),
            [].as_slice(),
            0,
            closed(2, 2, LinkEnd::Closed),
        ),
        (
            cut.as_str(),
            [].as_slice(),
            10,
            closed(1, 1, LinkEnd::Cut { rest: 5 }),
        ),
        ("\0", [].as_slice(), 10, closed(0, 0, fault)),
        (NODE, [1u64].as_slice(), 3, closed(1, 1, LinkEnd::ReadFault)),
    ] {
        let done = left(&rt, input, reads, Vec::new(alloc))?;
        assert_eq!(rt; done.status, status, "{input}");
        assert!(rt; done.closed == end, "{input}");
    }
    Ok(())
}

// The requests have the places 1 to 4, and the last keeping that was done is that of the flush.
#[test]
fn a_stop_leaves_the_last_keeping(rt: HostRuntime) -> Result<(), Fail> {
    let alloc = rt.alloc();
    let exchange = exchange_of(alloc, format!(in alloc; "{WRITTEN}\n{AND_AGAIN}")?.as_str())?;
    for (call, kept) in [(7u64, 0u64), (11, 3)] {
        let done = left(&rt, exchange.sent.as_str(), &[], from_on(alloc, call)?)?;
        assert_eq!(rt; done.status, 5, "{call}");
        assert!(rt; done.closed == closed(4, kept, LinkEnd::Closed), "{call}");
    }
    Ok(())
}
