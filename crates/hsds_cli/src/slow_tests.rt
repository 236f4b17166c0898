//! Links that are served while a disk syncs, and writes that are flushed though nobody asks for a flush.

ghost use Rattle.std.specs.Prelude.{◌≡◌, ◌≤◌, IfOk, None, length, refl};

use crate::exchanges::{Exchange, exchange_of};
use crate::run::{Finished, run};
use crate::trials::{LAB, ROOM, WRITTEN, disk_of, made, words_of};
use edge_traits::{
    Disk, Door, Failed, FaultCount, Link, MemDisk, MemSink, MemSource, Sink, Source,
};
use std::alloc::{AllocError, Global};
use std::sync::atomic::{AtomicU64, Ordering};
use std::sync::{Arc, Wait};
use std::test::Fail;
use std::thread;
use std::thread::Threads;

/// How often somebody looks for what others count before going on all the same.
const MOST_LOOKS: u32 = 5_000_000;

/// How many syncs an opening and the record of a run make.
const OPENING: u64 = 3;

/// What others count, and how many are waited for.
#[derive(Drop)]
struct Waiting {
    count: Arc<AtomicU64>,
    least: u64,
    /// Whether they didn't come in time.
    gave_up: bool,
}

impl Waiting {
    fn on(count: &Arc<AtomicU64>, least: u64) -> Result<Waiting, AllocError> {
        Ok(Waiting {
            count: Arc::try_clone(count)?,
            least,
            gave_up: false,
        })
    }

    fn wait(&mut self) {
        for _ in 0..MOST_LOOKS {
            if self.count.load(Ordering::SeqCst) >= self.least {
                return;
            }
            thread::yield_now();
        }
        self.gave_up = true;
    }
}

// ---- the disk

/// A disk that counts its syncs where others see it, and waits inside one of them.
#[derive(Drop)]
struct SlowDisk<D> {
    disk: D,
    syncs: Arc<AtomicU64>,
    slow: u64,
    waiting: Waiting,
}

impl<D: Disk> Disk for SlowDisk<D> {
    ghost honest = { D.honest };

    ghost reads = { λ d. D.reads d.disk };

    ghost images = { λ d. D.images d.disk };

    ghost moment = { λ d. D.moment d.disk };

    ghost left_since = { λ d. D.left_since d.disk };

    ghost faults = { λ d. D.faults d.disk };

    ghost most = { λ d. D.most d.disk };

    ghost Others = { D.Others };

    ghost beside = { λ d. D.beside d.disk };

    ghost beside_since = { λ d. D.beside_since d.disk };

    ghost stopped = { λ d. D.stopped d.disk };

    fn length(&mut self) -> Result<u64, Failed> {
        self.disk.length()
    }

    fn room(&self) -> u64 {
        self.disk.room()
    }

    fn read_at(&mut self, at: u64, buf: &mut [u8]) -> Result<usize, Failed> {
        self.disk.read_at(at, buf)
    }

    fn write_at(&mut self, at: u64, bytes: &[u8]) -> Result<(), Failed> {
        self.disk.write_at(at, bytes)
    }

    fn sync(&mut self) -> Result<(), Failed> {
        if self.syncs.fetch_add(1, Ordering::SeqCst) == self.slow {
            self.waiting.wait();
        }
        self.disk.sync()
    }

    ghost fits = { λ d told. D.fits d.disk told };

    ghost reads_left = { λ d told. D.reads_left d.disk told };

    ghost counts_now = { λ d t c told le image. D.counts_now d.disk t c told le image };

    ghost only_now = { λ d c told left. D.only_now d.disk c told left };
}

// ---- a link and its door

/// A link that gives its later bytes once others have counted so many, and counts its own answers where others see it.
#[derive(Drop)]
struct SlowLink {
    early: MemSource,
    late: MemSource,
    waiting: Waiting,
    sink: MemSink,
    answers: Arc<AtomicU64>,
    read_faults: FaultCount,
    write_faults: FaultCount,
}

impl SlowLink {
    fn read_either(&mut self, buf: &mut [u8]) -> Result<usize, Failed>
        ensures bound { IfOk result (λ n. n ≤ length buf.old) }
        ensures same { length buf.new ≡ length buf.old }
        ensures faults { (self.new.read_faults ≡ self.old.read_faults)
            × (self.new.write_faults ≡ self.old.write_faults) }
    {
        let count = self.early.read(buf)?;
        if count > 0 {
            return Ok(count);
        }
        self.waiting.wait();
        self.late.read(buf)
    }
}

impl Source for SlowLink {
    ghost left = { λ _. None };

    ghost faults = { λ l. l.read_faults };

    ghost beside = { λ l. (None, l.write_faults) };

    fn read(&mut self, buf: &mut [u8]) -> Result<usize, Failed> {
        match self.read_either(buf) {
            Ok(count) => Ok(count),
            Err(Failed) => {
                self.read_faults.rise();
                Err(Failed)
            }
        }
    }
}

impl Sink for SlowLink {
    ghost held = { λ _. None };

    ghost faults = { λ l. l.write_faults };

    ghost beside = { λ l. (None, l.read_faults) };

    fn write(&mut self, bytes: &[u8]) -> Result<usize, Failed> {
        match self.sink.write(bytes) {
            Ok(count) => {
                self.answers.fetch_add(1, Ordering::SeqCst);
                Ok(count)
            }
            Err(Failed) => {
                self.write_faults.rise();
                Err(Failed)
            }
        }
    }
}

impl Link for SlowLink {
    ghost source_beside = { λ link. refl };

    ghost sink_beside = { λ link. refl };

    ghost one_object = { λ link. refl };
}

/// A door to one link.
#[derive(Drop)]
struct SlowDoor {
    link: Option<SlowLink>,
    ended: Option<SlowLink>,
    out: u64,
    count: FaultCount,
}

impl Door for SlowDoor {
    type Link = SlowLink;

    ghost left = { λ _. None };

    ghost ended = { λ _. None };

    ghost out = { λ d. d.out };

    ghost faults = { λ d. d.count };

    fn next(&mut self) -> Result<Option<SlowLink>, Failed> {
        match self.link.take() {
            Some(link) if self.out < u64::MAX => {
                self.out += 1;
                Ok(Some(link))
            }
            _ => Ok(None),
        }
    }

    fn give_back(&mut self, link: SlowLink) {
        self.ended = Some(link);
        self.out -= 1;
    }
}

// ---- what is asked

/// The dataset's value, once it was written.
static VALUE: &str = r#"GET /datasets/d~0/value||200 OK|{"value":[1,2]}"#;

/// A write of the dataset.
static WRITE: &str = r#"PUT /datasets/d~0/value|{"value":[1,2]}|200 OK|{}"#;

/// The dataset is made, written and flushed.
fn flushed(alloc: Global) -> Result<Exchange, AllocError> {
    let rows = format!(in alloc; "{WRITTEN}\nPUT /?flush=1||204 No Content|")?;
    exchange_of(alloc, rows.as_str())
}

/// A row so many times.
fn times(alloc: Global, row: &str, count: u32) -> Result<Exchange, AllocError> {
    let mut rows = row.to_string(alloc)?;
    for _ in 1..count {
        rows.push_str("\n")?;
        rows.push_str(row)?;
    }
    exchange_of(alloc, rows.as_str())
}

fn source_of(alloc: Global, bytes: &str) -> Result<MemSource, AllocError> {
    Ok(MemSource::new(bytes.as_bytes().to_vec(alloc)?, 4096, Vec::new(alloc)))
}

/// A door to a link that asks the first, and the second once others have counted so many.
fn door_to(
    alloc: Global,
    early: &str,
    late: &str,
    waiting: Waiting,
    answers: &Arc<AtomicU64>,
) -> Result<SlowDoor, AllocError> {
    let link = SlowLink {
        early: source_of(alloc, early)?,
        late: source_of(alloc, late)?,
        waiting,
        sink: MemSink::new(alloc, Vec::new(alloc)),
        answers: Arc::try_clone(answers)?,
        read_faults: FaultCount::new(),
        write_faults: FaultCount::new(),
    };
    Ok(SlowDoor {
        link: Some(link),
        ended: None,
        out: 0,
        count: FaultCount::new(),
    })
}

impl SlowDoor {
    /// Whether its link was answered so, and had what it waited for.
    fn has_answers(&self, answers: &str) -> bool {
        let Some(link) = &self.ended else {
            return false;
        };
        link.sink.bytes() == answers.as_bytes() && !link.waiting.gave_up
    }
}

/// A run of `serve` over both doors, with a worker at each and one that flushes.
fn served(
    rt: &(impl Threads + Wait + Sync + AllocGlobal),
    first: SlowDoor,
    second: SlowDoor,
    disk: SlowDisk<MemDisk>,
) -> Result<Finished<SlowDisk<MemDisk>, SlowDoor>, Fail> {
    let alloc = rt.alloc();
    let words = words_of(alloc, "serve")?;
    let mut doors = Vec::with_capacity(alloc, 2)?;
    doors.push_reserved(first);
    doors.push_reserved(second);
    let mut config = MemSource::new(LAB.as_bytes().to_vec(alloc)?, 4096, Vec::new(alloc));
    let mut input = MemSource::new(Vec::new(alloc), 1, Vec::new(alloc));
    let mut out = MemSink::new(alloc, Vec::new(alloc));
    Ok(run(
        rt,
        alloc,
        words.as_slice(),
        &mut config,
        &mut input,
        &mut out,
        disk,
        doors,
    ))
}

/// A disk with the journal of the laboratory, which waits inside its sync of that number.
fn slow_disk(
    rt: &(impl Threads + Wait + Sync + AllocGlobal),
    syncs: &Arc<AtomicU64>,
    slow: u64,
    waiting: Waiting,
) -> Result<SlowDisk<MemDisk>, Fail> {
    let alloc = rt.alloc();
    let disk = disk_of(alloc, made(rt, LAB)?.bytes(), ROOM, Vec::new(alloc))?;
    Ok(SlowDisk {
        disk,
        syncs: Arc::try_clone(syncs)?,
        slow,
        waiting,
    })
}

/// The first link asks for a flush, whose first sync goes on only once a hundred reads of the second link were answered; and that
/// link begins only inside this sync.
#[test]
fn reads_are_answered_while_a_flush_waits_for_its_disk(rt: HostRuntime) -> Result<(), Fail> {
    let alloc = rt.alloc();
    let syncs = Arc::new(alloc, AtomicU64::new(0))?;
    let others = Arc::new(alloc, AtomicU64::new(0))?;
    let reads = Arc::new(alloc, AtomicU64::new(0))?;
    let (writer, reader) = (flushed(alloc)?, times(alloc, VALUE, 100)?);
    let at_once = Waiting::on(&others, 0)?;
    let first = door_to(alloc, writer.sent.as_str(), "", at_once, &others)?;
    let inside = Waiting::on(&syncs, OPENING + 1)?;
    let second = door_to(alloc, "", reader.sent.as_str(), inside, &reads)?;
    let disk = slow_disk(&rt, &syncs, OPENING, Waiting::on(&reads, 100)?)?;
    let done = served(&rt, first, second, disk)?;
    assert_eq!(rt; done.status, 0);
    assert!(rt; !done.disk.ok_or("no disk")?.waiting.gave_up);
    for (door, answers) in done.doors.iter().zip([&writer.answers, &reader.answers]) {
        assert!(rt; door.has_answers(answers.as_str()));
    }
    Ok(())
}

/// The first link writes two hundred times, and nobody asks for a flush. The second asks only once the disk has synced twice since the
/// hall began.
#[test]
fn writes_are_flushed_though_nobody_asks(rt: HostRuntime) -> Result<(), Fail> {
    let alloc = rt.alloc();
    let syncs = Arc::new(alloc, AtomicU64::new(0))?;
    let others = Arc::new(alloc, AtomicU64::new(0))?;
    let making = exchange_of(alloc, WRITTEN)?;
    let (writes, reader) = (times(alloc, WRITE, 200)?, times(alloc, VALUE, 1)?);
    let at_once = Waiting::on(&others, 0)?;
    let first = door_to(
        alloc,
        making.sent.as_str(),
        writes.sent.as_str(),
        at_once,
        &others,
    )?;
    let behind = Waiting::on(&syncs, OPENING + 2)?;
    let second = door_to(alloc, "", reader.sent.as_str(), behind, &others)?;
    let disk = slow_disk(&rt, &syncs, u64::MAX, Waiting::on(&others, 0)?)?;
    let done = served(&rt, first, second, disk)?;
    assert_eq!(rt; done.status, 0);
    let asked = format!(in alloc; "{}{}", making.answers.as_str(), writes.answers.as_str())?;
    for (door, answers) in done.doors.iter().zip([&asked, &reader.answers]) {
        assert!(rt; door.has_answers(answers.as_str()));
    }
    Ok(())
}
