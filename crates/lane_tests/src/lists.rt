//! Forty lists of events.

use crate::events::happen_first;
use crate::kept::Past;
use crate::openings::{begun_world, opening};
use crate::pictures::{Picture, picture_of};
use crate::requests::column;
use crate::services::{Entry, begun_service};
use edge_traits::MemDisk;
use std::alloc::Global;
use std::process::Abort;
use std::test::Fail;

/// What a row shows; which calls of the disk fail, counted from the begin of the run, where an append writes, syncs, writes
/// and syncs; the events; and then the statuses in order of places, `-` where turns are out, with `c` and `p` of what is
/// kept in the end.
const CUTS: &str = r#"c and p at 0||cut 0 1 reg app|0 0
nothing is kept before an append||put0 0 cut 0 1 reg|201 0 0
the register alone, with no cut of lanes||folder reg app|201 0 1
the register alone, with a turn that is out||put0 reg app|- 0 1
the register alone, and then the turn||put0 reg app 0 get1 1|201 200 0 1
a put and a cut||put0 0 cut 0 1 reg app|201 1 1
a cut that is drawn before the turn||put0 cut 0 1 0 reg app|201 1 1
a lane is cut before the other's turn||put0 put1 cut 1 1 0 0 reg app|201 201 2 2
a put behind a drawn cut||cut put0 0 0 1 reg app|201 0 1
a put behind all cuts||put1 1 cut 0 1 reg put0 0 app|201 201 1 1"#;

const LINKS: &str = r#"a link and what it leads to, in one lane||join0 0 0 cut 0 1 reg app|201 1 1
what a link leads to isn't made yet, in one lane||join0 0 reg app|- 0 1
a link and what it leads to, in two lanes||join1 1 0 cut 0 1 reg app|201 1 1
what a link leads to isn't made yet, in two lanes||join1 1 reg app|- 0 1
a cut behind a link whose object is made later||join1 cut 1 1 0 0 reg app|201 1 1
what a refused link leads to isn't made, in one lane||join0 make join0 0 0 0 0 1 cut 0 1 reg app|201 201 409 3 3
what a refused link leads to isn't made, in two lanes||join0 0 0 join0 0 1 cut 0 1 reg app|201 409 2 2
a group goes before its link||gone1 join1 1 1 0 cut 0 1 reg app|200 410 2 2
a group goes behind its link||join1 gone1 1 1 0 cut 0 1 reg app|201 200 2 2
a new object is changed||make new0 0 0 cut 0 1 reg app|201 201 2 2"#;

const RIGHTS_AND_DOMAINS: &str =
    r#"a right that goes behind a grant, with a cut behind both||lists lists lists lists lists lists lists bob1 deny cut see1 1 0 1 reg app|200 200 200 200 200 200 200 201 201 403 9 10
a right that goes behind a grant, with a cut before both||lists lists lists lists lists lists lists cut bob1 deny 0 1 reg app see1 1|200 200 200 200 200 200 200 201 201 403 7 9
the same with the turn before the append||lists lists lists lists lists lists lists cut bob1 deny 0 1 1 reg app|200 200 200 200 200 200 200 201 201 7 9
the same with the register's cut before the right goes||lists lists lists lists lists lists lists cut bob1 0 1 reg deny app 1|200 200 200 200 200 200 200 201 201 7 8
a right that comes again||deny bob1 allow bob1 1 cut 0 1 reg app|201 403 201 201 4 4
a domain goes||end 1 0 cut 0 1 reg app|200 1 1
a domain goes beside what isn't made in it yet||make end 1 reg app 0 0|201 200 0 2
a domain goes behind a cut, and what is made in it stands in a batch||make 0 cut end 0 1 reg app 1 0|201 200 1 2
a domain goes beside a link and its object||join1 end 1 reg app 0 1 0|201 200 0 2
a domain goes and comes again||put0 0 cut 0 1 reg app end lab 0 reg app 1 cut 0 1 reg app|201 200 201 3 3
an object of a new domain||far0 far far0 reg app 1 cut 0 1 reg app|404 201 201 3 3"#;

const DISKS: &str =
    r#"what is removed is gone||put0 0 join0 0 0 cut 0 1 reg app drop0 unlink0 0 0 cut 0 1 reg app|201 201 200 200 4 4
lanes that are cut twice in one batch||put0 0 cut 0 1 put1 1 cut 0 1 reg app|201 201 2 2
a cut of lanes behind that of the register||put0 0 reg cut 0 1 put1 reg app|201 - 1 2
the first write fails|0|put0 0 cut 0 1 reg app! set|201 1 1
the first sync fails|1|put0 0 cut 0 1 reg app! put1 deny 1 set cut 0 1 reg app|201 201 201 3 3
the gate's write fails, and the settling's too|2 3|put0 0 cut 0 1 reg app! set! put1 1 set|201 201 1 1
the last sync fails|3|put0 0 cut 0 1 reg app! put0 0 set get1 1|201 409 200 1 1
a later append fails|4|put0 0 cut 0 1 reg app deny put1 1 cut 0 1 reg app! see1 set|201 201 201 403 3 3
the register alone fails, and again|5 8|put0 0 cut 0 1 reg app deny reg app! set! see1 set reg app|201 201 403 1 3"#;

/// The calls of the disk until the run has begun.
const FIRST_CALL: u64 = 7;

/// How many of the bytes that were written since the last sync stand after a crash.
static CRASHES: [u64; 12] = [0, 1, 4, 9, 20, 40, 70, 100, 150, 200, 300, 1000];

/// Where nothing is pending, every crash leaves the same.
fn crashes(past: &Past) -> &'static [u64] {
    match past.pending {
        Some(_) => &CRASHES,
        None => &[0],
    }
}

fn number_in(word: &str) -> u64 {
    let mut number = 0u64;
    for digit in word.as_bytes() {
        number = number
            .saturating_mul(10)
            .saturating_add(u64::from(digit.saturating_sub(b'0')));
    }
    number
}

fn failing(alloc: Global, words: &str) -> Result<Vec<u64>, Fail> {
    let mut calls = Vec::new(alloc);
    for word in words.split_ascii_whitespace() {
        calls.push(FIRST_CALL.saturating_add(number_in(word)))?;
    }
    Ok(calls)
}

/// What is found behind a crash of a disk.
fn found_behind(alloc: Global, disk: &MemDisk, crash: u64) -> Result<Picture, Fail> {
    let (world, _) = begun_world(alloc, disk.crash(crash)?)?;
    picture_of(alloc, &world)
}

/// So many events of a row are done, and then the disk stops.
fn try_front(
    rt: &(impl Abort + AllocGlobal),
    bytes: &[u8],
    row: &str,
    many: usize,
) -> Result<Past, Fail> {
    let alloc = rt.alloc();
    let mut service = begun_service(alloc, bytes, failing(alloc, column(row, 1))?)?;
    happen_first(&mut service, column(row, 2), many)?;
    let (disk, past) = service.stop();
    for crash in crashes(&past) {
        let found = found_behind(alloc, &disk, *crash)?;
        assert!(rt;
            past.is_kept(&found),
            "{row}: after {many} events, {crash} bytes"
        );
    }
    Ok(past)
}

/// Of a request whose turns were all taken.
fn status(entry: &Entry) -> &str {
    if entry.left > 0 {
        return "-";
    }
    match entry.reply.as_str().split_once(' ') {
        Some((status, _)) => status,
        None => "?",
    }
}

/// That the lanes answered as one world does.
fn assert_answered(rt: &impl Abort, row: &str, past: &Past) {
    for entry in &past.entries {
        let got = entry.reply.as_str();
        let wanted = entry.wanted.as_str();
        assert!(rt;
            entry.left > 0 || got == wanted,
            "{row}: {got} for {wanted}"
        );
    }
}

fn summary(alloc: Global, past: &Past) -> Result<String, Fail> {
    let mut text = String::new(alloc);
    for entry in &past.entries {
        text.push_str(status(entry))?;
        text.push_str(" ")?;
    }
    let c = past.own.c;
    let p = past.own.p;
    let reach = format!(in alloc; "{c} {p}")?;
    text.push_str(reach.as_str())?;
    Ok(text)
}

/// That a row is as it says.
fn assert_row(rt: &(impl Abort + AllocGlobal), bytes: &[u8], row: &str) -> Result<(), Fail> {
    let events = column(row, 2).split_ascii_whitespace().count();
    for many in 0..events {
        try_front(rt, bytes, row, many)?;
    }
    let past = try_front(rt, bytes, row, events)?;
    assert_answered(rt, row, &past);
    let summary = summary(rt.alloc(), &past)?;
    let got = summary.as_str();
    assert!(rt; got == column(row, 3), "{row}: {got}");
    Ok(())
}

/// That all rows are as they say.
fn assert_rows(rt: &(impl Abort + AllocGlobal), rows: &str) -> Result<(), Fail> {
    let bytes = opening(rt.alloc())?;
    for row in rows.split('\n') {
        assert_row(rt, bytes.as_slice(), row)?;
    }
    Ok(())
}

#[test]
fn cuts_are_taken_in_any_order(rt: HostRuntime) -> Result<(), Fail> {
    assert_rows(&rt, CUTS)
}

#[test]
fn links_come_before_what_they_lead_to(rt: HostRuntime) -> Result<(), Fail> {
    assert_rows(&rt, LINKS)
}

#[test]
fn rights_and_domains_go_and_come(rt: HostRuntime) -> Result<(), Fail> {
    assert_rows(&rt, RIGHTS_AND_DOMAINS)
}

#[test]
fn disks_fail_and_batches_settle(rt: HostRuntime) -> Result<(), Fail> {
    assert_rows(&rt, DISKS)
}
