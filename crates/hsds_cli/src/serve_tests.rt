//! The links of doors in memory, served over a disk in memory.

use crate::closed::{Closed, Ends};
use crate::exchanges::{Exchange, exchange_of};
use crate::journal_tests::{AFTER, OWN_ROOT};
use crate::run::{Finished, run};
use crate::stop_tests::{DENIED, TAKEN_AWAY, finds, is_old};
use crate::trials::{
    AND_AGAIN, LAB, ROOM, WRITTEN, disk_of, from_on, made, plain, run_line, words_of,
};
use edge_traits::{MemDisk, MemDoor, MemLink, MemSink, MemSource};
use rest_session::halls::Report;
use rest_session::links::LinkEnd;
use std::alloc::{AllocError, Global};
use std::sync::Wait;
use std::test::Fail;
use std::thread::Threads;

/// The dataset's value, once it was written.
static VALUE: &str = r#"GET /datasets/d~0/value||200 OK|{"value":[1,2]}"#;

/// A flush.
static FLUSH: &str = "PUT /?flush=1||204 No Content|";

/// A link that brings these bytes.
fn link_of(alloc: Global, input: &str) -> Result<MemLink, AllocError> {
    let source = MemSource::new(input.as_bytes().to_vec(alloc)?, 4096, Vec::new(alloc));
    Ok(MemLink::new(source, MemSink::new(alloc, Vec::new(alloc))))
}

/// A door to links that bring these inputs, of which the calls of these numbers fail.
fn door_of(alloc: Global, inputs: &[&str], failing: &[u64]) -> Result<MemDoor, AllocError> {
    let mut links = Vec::new(alloc);
    for input in inputs {
        links.push(link_of(alloc, *input)?)?;
    }
    MemDoor::new(alloc, links, failing.to_vec(alloc)?)
}

/// Two doors.
fn two_doors(alloc: Global, first: MemDoor, second: MemDoor) -> Result<Vec<MemDoor>, AllocError> {
    let mut doors = Vec::new(alloc);
    doors.push(first)?;
    doors.push(second)?;
    Ok(doors)
}

/// A run of `serve` over doors.
fn served(
    rt: &(impl Threads + Wait + Sync + AllocGlobal),
    (line, config): (&str, &str),
    doors: Vec<MemDoor>,
    disk: MemDisk,
) -> Result<Finished<MemDisk, MemDoor>, Fail> {
    let alloc = rt.alloc();
    if doors.len() > 16 {
        return Err(Fail::from("too many doors"));
    }
    let words = words_of(alloc, line)?;
    let mut config = MemSource::new(config.as_bytes().to_vec(alloc)?, 4096, Vec::new(alloc));
    let mut input = MemSource::new(Vec::new(alloc), 1, Vec::new(alloc));
    let mut out = MemSink::new(alloc, Vec::new(alloc));
    Ok(run(
        rt,
        alloc,
        words.as_slice(),
        &mut config,
        &mut input,
        &mut out,
        disk,
        doors,
    ))
}

fn end_word(end: LinkEnd) -> &'static str {
    match end {
        LinkEnd::Closed => "closed ",
        LinkEnd::Cut { .. } => "cut ",
        LinkEnd::WriteFault => "write-fault ",
        _ => "other ",
    }
}

/// What a worker tells, as text.
fn push_report(text: &mut String, report: &Report) -> Result<(), AllocError> {
    for end in &report.ends {
        text.push_str(end_word(*end))?;
    }
    text.push_str(if report.door_failed { "failed|" } else { "|" })
}

/// How doors left the world, as text.
fn told(alloc: Global, closed: &Option<Closed>) -> Result<String, Fail> {
    let Some(
        Closed {
            front,
            kept,
            ends: Ends::Doors(reports),
        },
    ) = closed
    else {
        return Err(Fail::from("no door was closed"));
    };
    let mut text = format!(in alloc; "{front} {kept} ")?;
    for report in reports {
        push_report(&mut text, report)?;
    }
    Ok(text)
}

/// Whether the links that a door had given back were answered so, in order.
fn has_answers(door: Option<&MemDoor>, answers: &[&str]) -> bool {
    let Some(door) = door else {
        return false;
    };
    let ended = door.ended();
    ended.len() == answers.len()
        && ended
            .iter()
            .zip(answers)
            .all(|(link, answer)| link.bytes() == answer.as_bytes())
}

/// The text of an exchange over two links: what is made and written, and what is read then.
fn over_two(alloc: Global) -> Result<(Exchange, Exchange), AllocError> {
    let second = format!(in alloc; "{VALUE}\n{FLUSH}")?;
    Ok((
        exchange_of(alloc, WRITTEN)?,
        exchange_of(alloc, second.as_str())?,
    ))
}

#[test]
fn links_of_two_doors_are_served_and_kept(rt: HostRuntime) -> Result<(), Fail> {
    let alloc = rt.alloc();
    let (first, second) = over_two(alloc)?;
    let flush = exchange_of(alloc, FLUSH)?;
    let writer = door_of(alloc, &[first.sent.as_str(), second.sent.as_str()], &[])?;
    let other = door_of(alloc, &[flush.sent.as_str(), "GET /"], &[])?;
    let doors = two_doors(alloc, writer, other)?;
    let done = served(&rt, ("serve --links 2", LAB), doors, made(&rt, LAB)?)?;
    assert_eq!(rt; done.status, 0);
    let answers = [first.answers.as_str(), second.answers.as_str()];
    assert!(rt; has_answers(done.doors.get(0), &answers));
    assert!(rt; has_answers(done.doors.get(1), &[flush.answers.as_str(), ""]));
    assert!(rt; told(alloc, &done.closed)?.as_str() == "5 5 closed closed |closed cut |");
    let disk = done.disk.ok_or("no disk")?;
    let read = exchange_of(alloc, VALUE)?;
    let again = run_line(&rt, "session", plain(LAB, read.sent.as_str()), disk)?;
    assert!(rt; again.status == 0 && again.out.bytes() == read.answers.as_bytes());
    Ok(())
}

#[test]
fn a_door_that_fails_is_told(rt: HostRuntime) -> Result<(), Fail> {
    let alloc = rt.alloc();
    let flush = exchange_of(alloc, FLUSH)?;
    for (failing, ends) in [
        (0u64, "1 1 failed|closed |"),
        (1, "2 2 closed failed|closed |"),
    ] {
        let first = door_of(alloc, &[flush.sent.as_str()], &[failing])?;
        let second = door_of(alloc, &[flush.sent.as_str()], &[])?;
        let doors = two_doors(alloc, first, second)?;
        let done = served(&rt, ("serve", LAB), doors, made(&rt, LAB)?)?;
        assert_eq!(rt; done.status, 9);
        assert!(rt; told(alloc, &done.closed)?.as_str() == ends);
    }
    Ok(())
}

#[test]
fn no_door_is_asked_where_no_world_is_opened(rt: HostRuntime) -> Result<(), Fail> {
    let alloc = rt.alloc();
    for (line, bytes, status) in [
        ("serve --links 0", "", 1u8),
        ("serve", "no journal", 6),
        ("verify", "no journal", 6),
    ] {
        let doors = two_doors(
            alloc,
            door_of(alloc, &[""], &[0])?,
            door_of(alloc, &[""], &[])?,
        )?;
        let disk = disk_of(alloc, bytes.as_bytes(), ROOM, Vec::new(alloc))?;
        let done = served(&rt, (line, LAB), doors, disk)?;
        assert_eq!(rt; done.status, status);
        assert!(rt; has_answers(done.doors.get(0), &[]) && has_answers(done.doors.get(1), &[]));
        assert!(rt; done.closed.is_none());
    }
    Ok(())
}

// ---- one link, over a disk that fails or is full

/// What one link came to: whether it was answered so, and the run with how its door left the world.
#[derive(Drop)]
struct OneLink {
    answered: bool,
    status: u8,
    told: String,
    disk: MemDisk,
}

/// A run of `serve` over a door with one link, whose sink fails at these writes.
fn over_one(
    rt: &(impl Threads + Wait + Sync + AllocGlobal),
    (config, rows): (&str, &str),
    writes: &[u64],
    disk: MemDisk,
) -> Result<OneLink, Fail> {
    let alloc = rt.alloc();
    let exchange = exchange_of(alloc, rows)?;
    let source = MemSource::new(
        exchange.sent.as_bytes().to_vec(alloc)?,
        4096,
        Vec::new(alloc),
    );
    let sink = MemSink::new(alloc, writes.to_vec(alloc)?);
    let mut links = Vec::new(alloc);
    links.push(MemLink::new(source, sink))?;
    let mut doors = Vec::new(alloc);
    doors.push(MemDoor::new(alloc, links, Vec::new(alloc))?)?;
    let done = served(rt, ("serve", config), doors, disk)?;
    Ok(OneLink {
        answered: has_answers(done.doors.get(0), &[exchange.answers.as_str()]),
        status: done.status,
        told: told(alloc, &done.closed)?,
        disk: done.disk.ok_or("no disk")?,
    })
}

#[test]
fn a_change_that_is_not_kept_stands_for_the_next_request(rt: HostRuntime) -> Result<(), Fail> {
    let alloc = rt.alloc();
    let rows = format!(in alloc; "{TAKEN_AWAY}\n{DENIED}")?;
    let journal = made(&rt, LAB)?;
    for call in 7..11u64 {
        let mut failing = Vec::new(alloc);
        failing.push(call)?;
        let disk = disk_of(alloc, journal.bytes(), ROOM, failing)?;
        let done = over_one(&rt, (LAB, rows.as_str()), &[], disk)?;
        assert!(rt; done.answered && done.status == 0, "{call}");
        assert!(rt; done.told.as_str() == "2 2 closed |", "{call}");
        assert!(rt; finds(&rt, done.disk.crash(0)?, DENIED)?, "{call}");
    }
    Ok(())
}

// The calls of the opening and of the run's record have the numbers 0 to 6, those of the flush 7 to 10, and those of the last one
// 11 to 14.
#[test]
fn a_stop_behind_a_flush_of_a_link_leaves_what_was_flushed_or_more(
    rt: HostRuntime,
) -> Result<(), Fail> {
    let alloc = rt.alloc();
    let rows = format!(in alloc; "{WRITTEN}\n{AND_AGAIN}")?;
    let journal = made(&rt, LAB)?;
    let mut olds = 0u8;
    for call in 11..16u64 {
        let disk = disk_of(alloc, journal.bytes(), ROOM, from_on(alloc, call)?)?;
        let done = over_one(&rt, (LAB, rows.as_str()), &[], disk)?;
        assert!(rt; done.answered, "{call}");
        assert_eq!(rt; done.status, if call < 15 { 5u8 } else { 0 }, "{call}");
        for kept in [0u64, 1, 8, 9, 45, 46] {
            if is_old(&rt, &done.disk.crash(kept)?)? {
                olds = olds.saturating_add(1);
            }
        }
    }
    // The old where nothing of the second marker is there, and else the new.
    assert_eq!(rt; olds, 6 * 3 + 1);
    Ok(())
}

#[test]
fn a_full_journal_refuses_each_keeping_of_a_link(rt: HostRuntime) -> Result<(), Fail> {
    let alloc = rt.alloc();
    let journal = made(&rt, OWN_ROOT)?;
    // The record of the run is 22 bytes, and the next batch begins at its closed marker.
    let end = journal.bytes().len().saturating_add(21);
    let need = (10 + 10usize).saturating_add(AFTER.len());
    let room = end.saturating_add(need).saturating_sub(1);
    let answer = format!(in alloc;
        "503 Service Unavailable|\
         {{\"end\":{end},\"need\":{need},\"reason\":\"journal-full\",\"room\":{room}}}"
    )?;
    // The second finds the batch of the first, which is written before its own.
    let rows = format!(in alloc;
        "PUT /acls/bob?domain=/|{{\"read\":true}}|{answer}\nPUT /acls/carol?domain=/|{{}}|{answer}"
    )?;
    let disk = disk_of(alloc, journal.bytes(), room as u64, Vec::new(alloc))?;
    let done = over_one(&rt, (OWN_ROOT, rows.as_str()), &[], disk)?;
    assert!(rt; done.answered && done.status == 11);
    assert!(rt; done.told.as_str() == "2 0 closed |");
    assert_eq!(rt; done.disk.bytes().len(), end.saturating_add(1));
    Ok(())
}

// The third write is the answer to the flush.
#[test]
fn what_was_flushed_stands_where_its_answer_is_not_written(rt: HostRuntime) -> Result<(), Fail> {
    let alloc = rt.alloc();
    let rows = format!(in alloc; "{WRITTEN}\n{FLUSH}")?;
    let done = over_one(&rt, (LAB, rows.as_str()), &[2], made(&rt, LAB)?)?;
    assert!(rt; !done.answered && done.status == 0);
    assert!(rt; done.told.as_str() == "3 3 write-fault |");
    assert!(rt; is_old(&rt, &done.disk.crash(0)?)?);
    Ok(())
}
