ghost use Rattle.std.specs.Prelude.{◌≡◌, ◌⊎◌, ◌≤◌, IfSome, Some, map, string_bytes, vec_len};
ghost use Rattle.command_words.specs.Commands.{Command, command_of};
ghost use Rattle.flush_journal.specs.Unchanged.{SameDisk};
ghost use Rattle.hsds_cli.specs.declared.closed.Closed.{Closed};
ghost use Rattle.hsds_cli.specs.declared.status.Status.{Status};
ghost use Rattle.hsds_cli.specs.Status.{number_of};
ghost use Rattle.hsds_cli.specs.Completeness.{IsUndisturbed};
ghost use Rattle.hsds_cli.specs.Doors.{doors_of};
ghost use Rattle.hsds_cli.specs.Runs.{IsRun, IsUnconfigured, MayBeUnkept, OpensNone, TakesNone};
ghost use Rattle.hsds_cli.specs.Sides.{sides_of};

use crate::closed::Closed;
use crate::command_end::{CommandEnd, WithDoors};
use crate::operate::operate;
use crate::serve::{serve, unserved};
use crate::session::session;
use crate::status::Status;
use command_words::{Wanted, WordsFault, wanted};
use edge_traits::{Disk, Door, Sink, Source};
use hall::{AtDesk, JournalDesk};
use std::alloc::Global;
use std::sync::Wait;
use std::thread::Threads;

/// The answer of a run: its status, the disk and the doors as it leaves them, and how the links left the world.
#[derive(Drop)]
pub struct Finished<D, F> {
    /// The number with which the program exits.
    pub status: u8,
    /// The disk. It is missing only at status 13, where `serve` found no memory for its hall.
    pub disk: Option<D>,
    /// The doors, in their order.
    pub doors: Vec<F>,
    /// How the links left the world, where any were served.
    pub closed: Option<Closed>,
}

/// Does what the words say: `init` makes a journal of the configuration, `session` serves the world that a journal keeps to
/// `input` and `out` as one link, `serve` the links that come to the doors, by a worker at each, `export` prints the document
/// of a domain, `import` makes a document of `input` a new domain, `sample` prints the sums of a sample world, and `verify`
/// tells a journal's numbers. There are at most 16 doors; of another command than `serve` they come back as they were.
pub fn run<
    R: Threads + Wait + Sync,
    C: Source,
    S: Source,
    K: Sink,
    D: Disk + Drop + Send,
    F: Door + Send,
>(
    rt: &R,
    alloc: Global,
    words: &[String],
    config: &mut C,
    input: &mut S,
    out: &mut K,
    disk: D,
    doors: Vec<F>,
) -> Finished<D, F>
where
    F::Link: Send,
    requires { vec_len doors ≤ 16 }

    ensures run { (status : Status) × (result.status ≡ number_of status)
        × IfSome result.disk (SameDisk D.Disk disk)
        × IsRun D.Disk ⟦<JournalDesk<D> as AtDesk>⟧ (map string_bytes words.now)
        (sides_of C.Source S.Source K.Sink
        config.old config.new input.old input.new out.old out.new)
        (doors_of ⟦<F as Door>⟧ ⟦<F::Link as Source>⟧ ⟦<F::Link as Sink>⟧
        doors.items result.doors.items) disk result.disk result.closed status }

    // No count of faults falls.
    ensures config_later { C.faults config.old ≤ C.faults config.new }
    ensures input_later { S.faults input.old ≤ S.faults input.new }
    ensures out_later { K.faults out.old ≤ K.faults out.new }

    // The configuration is read by `init`, `session` and `serve` alone, the input by `session` and `import`, and a door is asked
    // by `serve` alone.
    ensures unread { IsUnconfigured (command_of (map string_bytes words.now))
        → config.new ≡ config.old }
    ensures untaken { TakesNone (command_of (map string_bytes words.now)) → input.new ≡ input.old }

    ensures unopened { OpensNone (command_of (map string_bytes words.now)) → result.doors ≡ doors }

    // What was decided over links is kept at their end, but for a fault of the disk, want of room or of memory.
    ensures kept { (closed : Closed) → result.closed ≡ Some closed
        → (closed.kept ≡ closed.front) ⊎ MayBeUnkept result.status }

    // A command that finds what it needs is done, but for want of memory, where nothing fails and each keeping has room.
    ensures complete { (command : Command) (after : D) → D.honest
        → command_of (map string_bytes words.now) ≡ Some command → result.disk ≡ Some after
        → IsUndisturbed D.Disk ⟦<JournalDesk<D> as AtDesk>⟧ command (sides_of C.Source S.Source K.Sink
        config.old config.new input.old input.new out.old out.new)
        (doors_of ⟦<F as Door>⟧ ⟦<F::Link as Source>⟧ ⟦<F::Link as Sink>⟧
        doors.items result.doors.items) disk after result.closed
        → (result.status ≡ 0) ⊎ (result.status ≡ 13) }
{
    let WithDoors {
        end: CommandEnd {
            status,
            disk,
            closed,
        },
        doors,
    } = obey(rt, alloc, words, config, input, out, disk, doors);
    Finished {
        status: status.number(),
        disk,
        doors,
        closed,
    }
}

/// Does the command that the words are.
fn obey<
    R: Threads + Wait + Sync,
    C: Source,
    S: Source,
    K: Sink,
    D: Disk + Drop + Send,
    F: Door + Send,
>(
    rt: &R,
    alloc: Global,
    words: &[String],
    config: &mut C,
    input: &mut S,
    out: &mut K,
    disk: D,
    doors: Vec<F>,
) -> WithDoors<D, F>
where
    F::Link: Send,
    requires few { vec_len doors ≤ 16 }
    ensures run { IsRun D.Disk ⟦<JournalDesk<D> as AtDesk>⟧ (map string_bytes words.now)
        (sides_of C.Source S.Source K.Sink
        config.old config.new input.old input.new out.old out.new)
        (doors_of ⟦<F as Door>⟧ ⟦<F::Link as Source>⟧ ⟦<F::Link as Sink>⟧
        doors.items result.doors.items) disk result.end.disk result.end.closed result.end.status }
    ensures same { IfSome result.end.disk (SameDisk D.Disk disk) }
    ensures config_later { C.faults config.old ≤ C.faults config.new }
    ensures input_later { S.faults input.old ≤ S.faults input.new }
    ensures out_later { K.faults out.old ≤ K.faults out.new }
    ensures unread { IsUnconfigured (command_of (map string_bytes words.now))
        → config.new ≡ config.old }
    ensures untaken { TakesNone (command_of (map string_bytes words.now)) → input.new ≡ input.old }
    ensures unopened { OpensNone (command_of (map string_bytes words.now)) → result.doors ≡ doors }
{
    match wanted(alloc, words) {
        Ok(Wanted::Session { .. }) => session(alloc, config, input, out, disk).beside(doors),
        Ok(Wanted::Serve { links, .. }) => serve(rt, alloc, links, config, disk, doors),
        Ok(command) => operate(alloc, &command, config, input, out, disk).beside(doors),
        Err(WordsFault::Refused) => unserved(Status::Words, disk, doors),
        Err(WordsFault::NoMemory) => unserved(Status::NoMemory, disk, doors),
    }
}
