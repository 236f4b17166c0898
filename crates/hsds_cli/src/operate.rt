//! The commands that wait for nobody, by one call, `operate`. Of these `init` makes a journal, `verify` tells of one, and `sample` tells of
//! a world of its own.

ghost use Rattle.std.specs.Prelude.{◌≡◌, ◌≤◌, ℕ, List, None, Option, Some};
ghost use Rattle.command_words.specs.Views.{IsInRange, as_command};
ghost use Rattle.edge_traits.specs.Causes.{Rose};
ghost use Rattle.flush_journal.specs.Unchanged.{SameBytes, SameDisk};
ghost use Rattle.hsds_cli.specs.Lines.{IsPrinted, IsTold, verify_line};
ghost use Rattle.hsds_cli.specs.Makings.{IsInit, making_status};
ghost use Rattle.hsds_cli.specs.Openings.{IsVerified, opening_status};
ghost use Rattle.hsds_cli.specs.Operated.{IsOperated, IsOperatedStatus, WaitsForNobody};
ghost use Rattle.hsds_cli.specs.Runs.{IsUnconfigured, TakesNone};
ghost use Rattle.hsds_cli.specs.Sides.{sides_of};
ghost use Rattle.samples.specs.Values.Samples.{sample_text};

use crate::command_end::CommandEnd;
use crate::configured::configured;
use crate::export::export;
use crate::import::import;
use crate::lines::{made_line, report_line};
use crate::status::Status;
use command_words::Wanted;
use edge_traits::{Disk, Failed, Sink, Source, write_all};
use flush_journal::{JournalRefused, Report, Why};
use samples::sample_text;
use service_core::journals::{
    OpenFault, OpenRefused, Opened, first_roots_by_runs_and_serials, make_journal, open_world,
};
use std::alloc::Global;

/// Does a command that waits for nobody: any but `session` and `serve`. It is given no leave to wait or to make threads.
pub fn operate<C: Source, S: Source, K: Sink, D: Disk>(
    alloc: Global,
    wanted: &Wanted<'_>,
    config: &mut C,
    input: &mut S,
    out: &mut K,
    disk: D,
) -> CommandEnd<D>
    requires range { IsInRange wanted.now }
    requires nobody { WaitsForNobody (as_command wanted.now) }
    ensures operated { IsOperated D.Disk (as_command wanted.now) (sides_of C.Source S.Source K.Sink
        config.old config.new input.old input.new out.old out.new)
        disk result.disk result.status }

    // So it never ends with the numbers 1, 9, 10 and 12.
    ensures statuses { IsOperatedStatus result.status }

    ensures same { SameDisk D.Disk disk result.disk }
    ensures closed { result.closed ≡ None }
    ensures config_later { C.faults config.old ≤ C.faults config.new }
    ensures input_later { S.faults input.old ≤ S.faults input.new }
    ensures out_later { K.faults out.old ≤ K.faults out.new }

    // The configuration is read by `init` alone, and the input by `import`.
    ensures unread { IsUnconfigured (Some (as_command wanted.now)) → config.new ≡ config.old }
    ensures untaken { TakesNone (Some (as_command wanted.now)) → input.new ≡ input.old }
{
    match wanted {
        Wanted::Init { lanes, .. } => init(alloc, *lanes, config, out, disk),
        Wanted::Export { path, .. } => export(alloc, path, out, disk),
        Wanted::Import { path, owner, .. } => import(alloc, path, owner, input, out, disk),
        Wanted::Sample { n } => CommandEnd {
            status: sample(alloc, *n, out),
            disk,
            closed: None,
        },
        Wanted::Verify { .. } => verify(alloc, out, disk),
        Wanted::Session { .. } | Wanted::Serve { .. } => unreachable!(),
    }
}

/// Makes a journal for so many lanes of the configured folders and domains, and prints their numbers.
pub fn init<C: Source, K: Sink, D: Disk>(
    alloc: Global,
    lanes: u32,
    config: &mut C,
    out: &mut K,
    disk: D,
) -> CommandEnd<D>
    requires some_lane { 1 ≤ lanes }
    requires few_lanes { lanes ≤ 16 }
    ensures init { (left : Option (List ℕ)) (faults : ℕ) → IsInit D.Disk lanes (record {
      text = C.left config.old;
      left_before = left;
      left_after = left;
      held_before = K.held out.old;
      held_after = K.held out.new;
      config_before = C.faults config.old;
      config_after = C.faults config.new;
      input_before = faults;
      input_after = faults;
      out_before = K.faults out.old;
      out_after = K.faults out.new;
    }) disk result.disk result.status }
    ensures same { SameDisk D.Disk disk result.disk }
    ensures closed { result.closed ≡ None }
    ensures config_later { C.faults config.old ≤ C.faults config.new }
    ensures out_later { K.faults out.old ≤ K.faults out.new }
{
    let config = match configured(alloc, config) {
        Ok(config) => config,
        Err(status) => return CommandEnd {
            status,
            disk,
            closed: None,
        },
    };
    let (folders, domains) = (config.catalogue.folders(), config.catalogue.domains());
    let Ok(line) = made_line(alloc, lanes, folders, domains) else {
        return CommandEnd {
            status: Status::NoMemory,
            disk,
            closed: None,
        };
    };
    first_roots_by_runs_and_serials();
    match make_journal(alloc, disk, config.catalogue, lanes) {
        Ok(journal) => CommandEnd {
            status: print(out, line.as_str()),
            disk: journal.into_disk(),
            closed: None,
        },
        Err(JournalRefused { disk, why }) => CommandEnd {
            status: making_status(why),
            disk,
            closed: None,
        },
    }
}

/// Prints the numbers of the journal on a disk, and the run that it keeps. No byte of the disk changes.
pub fn verify<K: Sink, D: Disk>(alloc: Global, out: &mut K, disk: D) -> CommandEnd<D>
    ensures verified { (text left : Option (List ℕ)) (config input : ℕ)
        → IsVerified D.Disk (record {
          text = text;
          left_before = left;
          left_after = left;
          held_before = K.held out.old;
          held_after = K.held out.new;
          config_before = config;
          config_after = config;
          input_before = input;
          input_after = input;
          out_before = K.faults out.old;
          out_after = K.faults out.new;
        }) disk result.disk result.status }
    ensures bytes { D.honest → SameBytes D.Disk disk result.disk }
    ensures same { SameDisk D.Disk disk result.disk }
    ensures closed { result.closed ≡ None }
    ensures out_later { K.faults out.old ≤ K.faults out.new }
{
    let (journal, run) = match open_world(alloc, disk) {
        Ok(Opened { journal, world }) => (journal, world.run().saturating_sub(1)),
        Err(OpenRefused { disk, why }) => return CommandEnd {
            status: opening_status(&why),
            disk,
            closed: None,
        },
    };
    let status = tell(alloc, journal.report(), run, out);
    CommandEnd {
        status,
        disk: journal.into_disk(),
        closed: None,
    }
}

// Prints the line on a journal.
fn tell<K: Sink>(alloc: Global, report: Report, run: u32, out: &mut K) -> Status
    ensures told { IsTold (verify_line report run) (K.held out.old) (K.held out.new)
        (K.faults out.old) (K.faults out.new) result }
    ensures later { K.faults out.old ≤ K.faults out.new }
{
    match report_line(alloc, report, run) {
        Ok(line) => print(out, line.as_str()),
        Err(_) => Status::NoMemory,
    }
}

/// Prints the sums of the sample that begins with a number. It needs no disk, and reads nothing.
pub fn sample<K: Sink>(alloc: Global, n: u32, out: &mut K) -> Status
    ensures told { IsTold (sample_text n) (K.held out.old) (K.held out.new)
        (K.faults out.old) (K.faults out.new) result }
    ensures later { K.faults out.old ≤ K.faults out.new }
{
    match sample_text(alloc, n) {
        Ok(text) => print(out, text.as_str()),
        Err(_) => Status::NoMemory,
    }
}

/// Prints a text whole.
pub fn print<K: Sink>(out: &mut K, line: &str) -> Status
    ensures printed { IsPrinted line.now (K.held out.old) (K.held out.new)
        (K.faults out.old) (K.faults out.new) result }
    ensures later { K.faults out.old ≤ K.faults out.new }
{
    match write_all(out, line.as_bytes()) {
        Ok(()) => Status::Done,
        Err(Failed) => Status::WriteFault,
    }
}

// The status where no journal was made.
fn making_status(why: Why) -> Status
    ensures { result ≡ making_status why }
{
    match why {
        Why::DiskFault => Status::DiskFault,
        Why::JournalFull { .. } => Status::UsedUp,
        Why::Exists => Status::JournalExists,
        Why::NotAJournal { .. } | Why::NoMemory => Status::NoMemory,
    }
}

/// The status where no world was opened.
pub fn opening_status(why: &OpenFault) -> Status
    ensures { result ≡ opening_status why.now }
{
    match why {
        OpenFault::DiskFault => Status::DiskFault,
        OpenFault::NotAJournal { .. } | OpenFault::BadRecord { .. } => Status::NotAJournal,
        OpenFault::RunsUsed => Status::UsedUp,
        OpenFault::NoMemory => Status::NoMemory,
    }
}
