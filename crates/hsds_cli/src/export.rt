//! The command `export`: it prints the document of a domain.

ghost use Rattle.std.specs.Prelude.{◌≡◌, ◌≤◌, ℕ, List, None, Option, IfErr, IfOk, string_bytes};
ghost use Rattle.flush_journal.specs.Unchanged.{SameBytes, SameDisk};
ghost use Rattle.json_export.specs.Documents.{doc};
ghost use Rattle.service_core.specs.Worlds.{seen};
ghost use Rattle.hsds_cli.specs.Exports.{IsDocumentTold, IsExported, IsLineOf, IsLineRefused};

use crate::command_end::CommandEnd;
use crate::operate::{opening_status, print};
use crate::status::Status;
use edge_traits::{Disk, Sink};
use json_export::document_text;
use json_import::adoption::exports_are_loaded;
use object_ids::DomainPath;
use service_core::World;
use service_core::described::objects_are_whole;
use service_core::journals::{OpenRefused, Opened, open_world};
use std::alloc::Global;

/// Prints the document of the domain at a path, of the world that a journal keeps, and a line feed. No byte of the disk changes.
pub fn export<K: Sink, D: Disk>(
    alloc: Global,
    path: &DomainPath,
    out: &mut K,
    disk: D,
) -> CommandEnd<D>
    ensures exported { (text left : Option (List ℕ)) (config input : ℕ)
        → IsExported D.Disk path.now (record {
          text = text;
          left_before = left;
          left_after = left;
          held_before = K.held out.old;
          held_after = K.held out.new;
          config_before = config;
          config_after = config;
          input_before = input;
          input_after = input;
          out_before = K.faults out.old;
          out_after = K.faults out.new;
        }) disk result.disk result.status }
    ensures bytes { D.honest → SameBytes D.Disk disk result.disk }
    ensures same { SameDisk D.Disk disk result.disk }
    ensures closed { result.closed ≡ None }
    ensures out_later { K.faults out.old ≤ K.faults out.new }
{
    let (journal, world) = match open_world(alloc, disk) {
        Ok(Opened { journal, world }) => (journal, world),
        Err(OpenRefused { disk, why }) => return CommandEnd {
            status: opening_status(&why),
            disk,
            closed: None,
        },
    };
    objects_are_whole(&world);
    exports_are_loaded();
    let status = tell(alloc, &world, path, out);
    CommandEnd {
        status,
        disk: journal.into_disk(),
        closed: None,
    }
}

// Prints the line of the document at a path of a world.
fn tell<K: Sink>(alloc: Global, world: &World, path: &DomainPath, out: &mut K) -> Status
    ensures told { IsDocumentTold (doc (seen world.now) path.now) (K.held out.old) (K.held out.new)
        (K.faults out.old) (K.faults out.new) result }
    ensures later { K.faults out.old ≤ K.faults out.new }
{
    match line_of(alloc, world, path) {
        Ok(line) => print(out, line.as_str()),
        Err(status) => status,
    }
}

// The text of the document at a path of a world, and a line feed.
fn line_of(alloc: Global, world: &World, path: &DomainPath) -> Result<String, Status>
    ensures ok { IfOk result (λ line. IsLineOf (doc (seen world.now) path.now) (string_bytes line)) }
    ensures err { IfErr result (IsLineRefused (doc (seen world.now) path.now)) }
{
    let mut line = document_text(alloc, world, path)?;
    let Ok(()) = line.push('\n') else {
        return Err(Status::NoMemory);
    };
    Ok(line)
}
