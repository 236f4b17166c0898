//! The command `import`: it makes a document a new domain.

ghost use Rattle.std.specs.Prelude.{◌≡◌, ◌≤◌, ℕ, List, None, Option};
ghost use Rattle.flush_journal.specs.Unchanged.{SameDisk};
ghost use Rattle.hsds_cli.specs.Imports.{IsImported, IsOutcomeTold};
ghost use Rattle.hsds_cli.specs.Lines.{IsTold, import_line};

use crate::command_end::CommandEnd;
use crate::lines::counts_line;
use crate::operate::{opening_status, print};
use crate::session::refusal_status;
use crate::status::Status;
use edge_traits::{Disk, Sink, Source};
use json_import::adoption::Counts;
use json_import::kept::{Imported, Outcome, import_domain};
use object_ids::{DomainPath, Name};
use std::alloc::Global;

/// Makes the document that `input` has a new domain of an owner at a path, in a new run of the world that a journal keeps, and
/// prints how many objects it holds.
pub fn import<S: Source, K: Sink, D: Disk>(
    alloc: Global,
    path: &DomainPath,
    owner: &Name,
    input: &mut S,
    out: &mut K,
    disk: D,
) -> CommandEnd<D>
    ensures imported { (text : Option (List ℕ)) (config : ℕ)
        → IsImported D.Disk path.now owner.now (record {
          text = text;
          left_before = S.left input.old;
          left_after = S.left input.new;
          held_before = K.held out.old;
          held_after = K.held out.new;
          config_before = config;
          config_after = config;
          input_before = S.faults input.old;
          input_after = S.faults input.new;
          out_before = K.faults out.old;
          out_after = K.faults out.new;
        }) disk result.disk result.status }
    ensures same { SameDisk D.Disk disk result.disk }
    ensures closed { result.closed ≡ None }
    ensures input_later { S.faults input.old ≤ S.faults input.new }
    ensures out_later { K.faults out.old ≤ K.faults out.new }
{
    let Imported { disk, outcome } = import_domain(alloc, path, owner, input, disk);
    CommandEnd {
        status: tell(alloc, &outcome, out),
        disk,
        closed: None,
    }
}

// Prints how much was adopted, and answers the status of what an import came to.
fn tell<K: Sink>(alloc: Global, outcome: &Outcome, out: &mut K) -> Status
    ensures told { IsOutcomeTold outcome.now (K.held out.old) (K.held out.new)
        (K.faults out.old) (K.faults out.new) result }
    ensures later { K.faults out.old ≤ K.faults out.new }
{
    match outcome {
        Outcome::Unopened(why) => opening_status(why),
        Outcome::Unbegun(why) => refusal_status(*why),
        Outcome::Unread => Status::ReadFault,
        Outcome::Refused => Status::Refused,
        Outcome::NoMemory => Status::NoMemory,
        Outcome::Unkept(why) => refusal_status(*why),
        Outcome::Adopted(counts) => tell_counts(alloc, *counts, out),
    }
}

// Prints how many objects were adopted.
fn tell_counts<K: Sink>(alloc: Global, counts: Counts, out: &mut K) -> Status
    ensures told { IsTold (import_line counts) (K.held out.old) (K.held out.new)
        (K.faults out.old) (K.faults out.new) result }
    ensures later { K.faults out.old ≤ K.faults out.new }
{
    match counts_line(alloc, counts) {
        Ok(line) => print(out, line.as_str()),
        Err(_) => Status::NoMemory,
    }
}
