//! Worlds to begin with, which a journal holds.

ghost use Rattle.std.specs.Prelude.{◌≡◌, IfOk, None};
ghost use Rattle.flush_journal.specs.Standing.{pending_of};
ghost use Rattle.hall.specs.JournalDesks.{HoldsWorld};
ghost use Rattle.hall.specs.Passes.{IsNewWorld};

use crate::requests::{answer_to, tokens};
use edge_traits::{Disk, MemDisk};
use flush_journal::{Batch, Journal};
use hall::installed_worlds_are_new;
use object_records::keys::{next_body, next_key, run_body, run_key};
use service_core::World;
use service_core::journals::{Begun, begin_world};
use std::alloc::Global;
use std::test::Fail;

const ROOM: u64 = 1_000_000;

const ROOT: &str =
    r#"{"acls":{"default":{"create":true,"delete":true,"read":true,"readACL":true,"update":true,"updateACL":true}},"class":"folder","owner":"default"}"#;

/// What makes the world with which each list of events begins: two groups in a domain, in two lanes.
const BEGIN: &str = r#"|alice|/lab|PUT|/|
|alice|/lab|POST|/groups|{}
|alice|/lab|PUT|/acls/bob|{"create":true,"read":true,"update":true,"delete":true,"readACL":true,"updateACL":true}"#;

fn push(batch: &mut Batch, key: &[u8], body: &[u8]) -> Result<(), Fail> {
    if key.is_empty() || key.len() >= 65_536 || body.len() >= 65_536 {
        return Err(Fail::from("no record"));
    }
    batch.push(key, body)?;
    Ok(())
}

/// The records of a world in run 0 over the folder `/`, where everybody has all rights.
fn first_batch(alloc: Global) -> Result<Batch, Fail> {
    let mut batch = Batch::new(alloc);
    push(&mut batch, &run_key(), &run_body(0))?;
    push(&mut batch, &next_key(), &next_body(1))?;
    push(&mut batch, b"\x02/", ROOT.as_bytes())?;
    Ok(batch)
}

/// Whether a batch was appended, where none was pending.
pub(crate) fn is_appended(journal: &mut Journal<MemDisk>, batch: Batch) -> Result<bool, Fail> {
    if journal.pending() {
        return Err(Fail::from("a batch is pending"));
    }
    Ok(journal.append(batch).is_ok())
}

fn append(journal: &mut Journal<MemDisk>, batch: Batch) -> Result<(), Fail> {
    if is_appended(journal, batch)? {
        return Ok(());
    }
    Err(Fail::from("an append"))
}

/// The world that the journal on a disk holds, in the next run, with the journal, which has begun the run.
pub(crate) fn begun_world<D: Disk + Drop>(
    alloc: Global,
    disk: D,
) -> Result<(World, Journal<D>), Fail>
    ensures new { IfOk result (λ begun. IsNewWorld begun.0) }
    ensures idle { IfOk result (λ begun. pending_of begun.1 ≡ None) }
    ensures holds { IfOk result (λ begun. D.honest → HoldsWorld D.Disk begun.1 begun.0) }
{
    installed_worlds_are_new();
    match begin_world(alloc, disk) {
        Ok(Begun { journal, world }) => Ok((world, journal)),
        Err(_) => Err(Fail::from("no run")),
    }
}

/// A journal of two lanes with the first records.
fn first_journal(alloc: Global) -> Result<Journal<MemDisk>, Fail> {
    let Ok(mut journal) = Journal::create(disk_of(alloc, b"", Vec::new(alloc))?, 2) else {
        return Err(Fail::from("no journal"));
    };
    append(&mut journal, first_batch(alloc)?)?;
    Ok(journal)
}

fn step_all(alloc: Global, world: &mut World, rows: &str) -> Result<(), Fail> {
    let tokens = tokens(alloc)?;
    for row in rows.split('\n') {
        let _ = answer_to(alloc, &tokens, world, row)?;
    }
    Ok(())
}

/// The bytes of a journal that holds the world of the begin, in run 1.
pub(crate) fn opening(alloc: Global) -> Result<Vec<u8>, Fail> {
    made_by(alloc, BEGIN)
}

/// The bytes of a journal that holds the world that some rows made, in run 1.
pub(crate) fn made_by(alloc: Global, rows: &str) -> Result<Vec<u8>, Fail> {
    let (mut world, journal) = begun_world(alloc, first_journal(alloc)?.into_disk())?;
    step_all(alloc, &mut world, rows)?;
    kept_bytes(alloc, world, journal)
}

/// The bytes of a journal once it has all that changed of its world.
pub(crate) fn kept_bytes(
    alloc: Global,
    mut world: World,
    mut journal: Journal<MemDisk>,
) -> Result<Vec<u8>, Fail> {
    let mut batch = Batch::new(alloc);
    world.cut(&mut batch)?;
    append(&mut journal, batch)?;
    let disk = journal.into_disk();
    Ok(disk.bytes().to_vec(alloc)?)
}

/// A disk of these bytes, of which some calls fail.
pub(crate) fn disk_of(alloc: Global, bytes: &[u8], failing: Vec<u64>) -> Result<MemDisk, Fail> {
    if bytes.len() as u64 > ROOM {
        return Err(Fail::from("no room"));
    }
    Ok(MemDisk::new(alloc, bytes.to_vec(alloc)?, ROOM, failing)?)
}

/// The world that a journal of these bytes holds, in the next run.
pub(crate) fn world_on(alloc: Global, bytes: &[u8]) -> Result<World, Fail> {
    let (world, _) = begun_on(alloc, bytes, Vec::new(alloc))?;
    Ok(world)
}

/// The same with its journal, which has begun the run, on a disk of which some calls fail.
pub(crate) fn begun_on(
    alloc: Global,
    bytes: &[u8],
    failing: Vec<u64>,
) -> Result<(World, Journal<MemDisk>), Fail> {
    begun_world(alloc, disk_of(alloc, bytes, failing)?)
}
