//! A journal on a disk in memory of which a call fails.

use edge_traits::MemDisk;
use flush_journal::{Batch, Journal, Recovered, Why};
use std::alloc::Global;
use std::process::Abort;

/// A journal with one batch, whose record has the key 1 and the body 7.
static OLD: [u8; 36] =
    *b"hsdsjrn1\x00\x00\x00\x01\x00\x00\x00\x00\x01\x00\x00\x00\x00\x00\x00\x00\x0a\x00\x00\x00\x01\x01\x00\x00\x00\x01\x07\x00";

/// The key of that record.
static KEY: &[u8] = b"\x01";

/// The body that the record gets.
static NEW: &[u8] = b"\x00\x00\x00\x05";

/// The disk of that journal, of which the calls with these numbers fail.
fn disk_of(rt: &(impl Abort + AllocGlobal), failing: &[u64]) -> MemDisk {
    let image = OLD.to_vec(rt.alloc()).expect(rt, "memory");
    let failing = failing.to_vec(rt.alloc()).expect(rt, "memory");
    assert!(rt; image.len() as u64 <= 1000);
    MemDisk::new(rt.alloc(), image, 1000, failing).expect(rt, "memory")
}

/// The journal on a disk, and what it holds.
fn opened(alloc: Global, disk: MemDisk) -> Result<(Journal<MemDisk>, Recovered), Why> {
    match Journal::recover(alloc, disk) {
        Ok(opened) => Ok(opened),
        Err(refused) => Err(refused.why),
    }
}

/// The journal on the disk, of which the calls with these numbers fail.
fn journal_of(rt: &(impl Abort + AllocGlobal), failing: &[u64]) -> Journal<MemDisk> {
    let (journal, _) = opened(rt.alloc(), disk_of(rt, failing)).expect(rt, "a journal");
    journal
}

/// Appends the new record, where no batch is pending.
fn append(rt: &(impl Abort + AllocGlobal), journal: &mut Journal<MemDisk>) -> Result<(), Why> {
    if journal.pending() {
        return Err(Why::Exists);
    }
    let mut batch = Batch::new(rt.alloc());
    batch.push(KEY, NEW).expect(rt, "memory");
    journal.append(batch)
}

/// Whether a journal has so many batches up to this place.
fn reaches(journal: &Journal<MemDisk>, batches: u64, end: u64) -> bool {
    let report = journal.report();
    report.batches == batches && report.end == end
}

/// Whether just one record is held, with this body.
fn holds(recovered: &Recovered, body: &[u8]) -> bool {
    recovered.get(KEY) == Some(body)
        && recovered.next_key(None) == Some(KEY)
        && recovered.next_key(Some(KEY)).is_none()
}

/// Whether what a crash leaves that keeps so many bytes has the old record or the new one.
fn is_old_or_new(rt: &(impl Abort + AllocGlobal), disk: &MemDisk, kept: u64) -> bool {
    let left = disk.crash(kept).expect(rt, "memory");
    let (_, recovered) = opened(rt.alloc(), left).expect(rt, "a journal");
    holds(&recovered, b"\x07") || holds(&recovered, NEW)
}

/// An append is refused at this call of the disk and owed, and each crash then leaves the old record or the new one.
fn stops(rt: &(impl Abort + AllocGlobal), call: u64) {
    let mut journal = journal_of(rt, &[call]);
    assert!(rt; append(rt, &mut journal) == Err(Why::DiskFault), "{call}");
    assert!(rt; reaches(&journal, 1, 35) && journal.pending(), "{call}");
    let disk = journal.into_disk();
    for kept in 0..40 {
        assert!(rt; is_old_or_new(rt, &disk, kept), "{kept} of {call}");
    }
}

/// The calls of an opening are a sync, the length and one read; an append then writes, syncs, writes and syncs.
const FIRST_CALL: u64 = 3;

#[test]
fn a_stop_at_each_call_leaves_the_old_or_the_new(rt: HostRuntime) {
    for call in FIRST_CALL..FIRST_CALL + 4 {
        stops(&rt, call);
    }
}

/// An append is refused at its first sync and its settling at this call, and each crash then leaves the old record or the new one.
fn stops_twice(rt: &(impl Abort + AllocGlobal), call: u64) {
    let mut journal = journal_of(rt, &[FIRST_CALL + 1, call]);
    assert!(rt; append(rt, &mut journal) == Err(Why::DiskFault), "{call}");
    assert!(rt; journal.settle() == Err(Why::DiskFault), "{call}");
    let disk = journal.into_disk();
    for kept in 0..60 {
        assert!(rt; is_old_or_new(rt, &disk, kept), "{kept} of {call}");
    }
}

#[test]
fn two_stops_leave_the_old_or_the_new(rt: HostRuntime) {
    for call in FIRST_CALL + 2..FIRST_CALL + 8 {
        stops_twice(&rt, call);
    }
}

/// Appends the new record, and settles at most twice.
fn hold(rt: &(impl Abort + AllocGlobal), journal: &mut Journal<MemDisk>) -> bool {
    let mut done = append(rt, journal);
    for _ in 0..2u8 {
        if done.is_err() {
            done = journal.settle();
        }
    }
    done.is_ok()
}

/// Whether a disk of 58 bytes holds two batches, and the new record.
fn has_new(rt: &(impl Abort + AllocGlobal), disk: MemDisk) -> bool {
    let length = disk.bytes().len();
    let (journal, recovered) = opened(rt.alloc(), disk).expect(rt, "a journal");
    length == 58 && reaches(&journal, 2, 57) && holds(&recovered, NEW)
}

/// What is appended where this call of the disk fails is settled, and whatever a crash leaves holds it.
fn settles(rt: &(impl Abort + AllocGlobal), call: u64) {
    let mut journal = journal_of(rt, &[call]);
    assert!(rt; hold(rt, &mut journal), "{call}");
    assert!(rt; journal.settle().is_ok(), "{call}");
    assert!(rt; reaches(&journal, 2, 57) && !journal.pending(), "{call}");
    let left = journal.into_disk().crash(0).expect(rt, "memory");
    assert!(rt; has_new(rt, left), "{call}");
}

#[test]
fn a_settle_after_each_failing_call_holds_the_batch(rt: HostRuntime) {
    for call in FIRST_CALL..FIRST_CALL + 8 {
        settles(&rt, call);
    }
}
