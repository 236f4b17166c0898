//! What lies between the commands and the files of a system: which files a command opens, which runs have one at a time, a folder
//! whose sync fails, and a disk that was not opened.

use crate::exchanges::column;
use crate::files::{Access, CommandFiles, JournalFile, files_of};
use crate::journal_file;
use crate::named_disk::NamedDisk;
use crate::opened_disk::OpenedDisk;
use crate::run::run;
use crate::trials::{ROOM, disk_of, words_of};
use edge_traits::{Disk, MemDisk, MemDoor, MemSink, MemSource};
use std::alloc::{AllocError, Global};
use std::sync::Wait;
use std::test::Fail;
use std::thread::Threads;

// A row is a line, the configuration's name, and the journal's with the way in which it is opened.
static OPENED: &str = "init|hsds.toml|hsds.journal make
init --lanes 2 --journal j --config c|c|j make
session|hsds.toml|hsds.journal change
session --journal=init --config=session|session|init change
serve|hsds.toml|hsds.journal change
serve --links 1 --journal j --config c --listen a|c|j change
export /home/lab|-|hsds.journal read
export --journal j /home|-|j read
import /home/lab|-|hsds.journal change
import --owner bob --journal j /home|-|j change
verify|-|hsds.journal read
verify --journal a/b|-|a/b read
sample 0|-|-
init --lanes 17 --journal j|-|-
session --journal|-|-
serve --workers 17|-|-
verify --config c|-|-";

fn access_word(access: Access) -> &'static str {
    match access {
        Access::Read => "read",
        Access::Change => "change",
        Access::Make => "make",
    }
}

/// The files that a line opens, as a row has them.
fn opened_by(alloc: Global, line: &str) -> Result<String, AllocError> {
    let words = words_of(alloc, line)?;
    let CommandFiles { config, journal } = files_of(alloc, words.as_slice())?;
    let config = config.unwrap_or("-");
    match journal {
        Some(JournalFile { name, access }) => {
            let word = access_word(access);
            format!(in alloc; "{config}|{name} {word}")
        }
        None => format!(in alloc; "{config}|-"),
    }
}

#[test]
fn a_command_opens_its_files(rt: HostRuntime) -> Result<(), Fail> {
    let alloc = rt.alloc();
    for row in OPENED.split('\n') {
        let opened = opened_by(alloc, column(row, 0))?;
        let wanted = format!(in alloc; "{}|{}", column(row, 1), column(row, 2))?;
        assert!(rt; opened.as_str() == wanted.as_str(), "{row}");
    }
    Ok(())
}

/// Whether a journal can be opened so.
fn is_had(rt: &HostRuntime, access: Access) -> bool {
    let name = "locked.journal";
    journal_file(rt, JournalFile { name, access }).is_ok()
}

/// Which of the three ways of opening it are open beside a run that has it so.
fn beside(rt: &HostRuntime, access: Access) -> Result<[bool; 3], Fail> {
    let name = "locked.journal";
    let Ok(_had) = journal_file(rt, JournalFile { name, access }) else {
        return Err(Fail::from("the journal can't be opened"));
    };
    Ok([
        is_had(rt, Access::Read),
        is_had(rt, Access::Change),
        is_had(rt, Access::Make),
    ])
}

#[test]
fn one_run_at_a_time_has_a_journal_or_many_read_it(rt: HostRuntime) -> Result<(), Fail> {
    for (access, free) in [
        (Access::Make, [false, false, false]),
        (Access::Change, [false, false, false]),
        (Access::Read, [true, false, false]),
    ] {
        assert!(rt; beside(&rt, access)? == free);
    }
    assert!(rt; is_had(&rt, Access::Change));
    Ok(())
}

/// The status of a line on a disk, with an empty configuration and an empty input.
fn status_on<D: Disk + Drop + Send>(
    rt: &(impl Threads + Wait + Sync + AllocGlobal),
    line: &str,
    disk: D,
) -> Result<u8, Fail> {
    let alloc = rt.alloc();
    let words = words_of(alloc, line)?;
    let mut config = MemSource::new(Vec::new(alloc), 1, Vec::new(alloc));
    let mut input = MemSource::new(Vec::new(alloc), 1, Vec::new(alloc));
    let mut out = MemSink::new(alloc, Vec::new(alloc));
    let doors: Vec<MemDoor> = Vec::new(alloc);
    let done = run(
        rt,
        alloc,
        words.as_slice(),
        &mut config,
        &mut input,
        &mut out,
        disk,
        doors,
    );
    Ok(done.status)
}

/// The status of an `init` of whose folder this sync fails.
fn made_in(rt: &(impl Threads + Wait + Sync + AllocGlobal), failing: u64) -> Result<u8, Fail> {
    let alloc = rt.alloc();
    let file = disk_of(alloc, b"", ROOM, Vec::new(alloc))?;
    let folder = disk_of(alloc, b"", ROOM, [failing].to_vec(alloc)?)?;
    let disk = OpenedDisk::new(Some(NamedDisk::new(file, Some(folder))));
    status_on(rt, "init --lanes 1", disk)
}

// An `init` syncs three times.
#[test]
fn a_journal_is_made_once_its_folder_is_synced(rt: HostRuntime) -> Result<(), Fail> {
    for (failing, status) in [(0u64, 5u8), (1, 5), (2, 5), (3, 0)] {
        assert_eq!(rt; made_in(&rt, failing)?, status, "{failing}");
    }
    Ok(())
}

#[test]
fn a_disk_that_was_not_opened_is_a_fault(rt: HostRuntime) -> Result<(), Fail> {
    for line in [
        "init",
        "session",
        "serve",
        "export /home",
        "import /home/lab",
        "verify",
    ] {
        let disk: OpenedDisk<MemDisk> = OpenedDisk::new(None);
        assert_eq!(rt; status_on(&rt, line, disk)?, 5, "{line}");
    }
    Ok(())
}
