//! The command `serve`: the links of many doors, and a journal.

ghost use Rattle.std.specs.Prelude.{◌≡◌, ◌≤◌, ℕ, IfSome, List, None, Option, Some, vec_len};
ghost use Rattle.std.specs.List.{list_any};
ghost use Rattle.flush_journal.specs.Unchanged.{SameDisk};
ghost use Rattle.hsds_cli.specs.Doors.{doors_of};
ghost use Rattle.hsds_cli.specs.Serves.{IsServe, doors_closed, is_budget, reports_status};
ghost use Rattle.hsds_cli.specs.Serves.{served_status, some_budget, some_failed};

use crate::closed::{Closed, Ends};
use crate::command_end::{CommandEnd, WithDoors};
use crate::configured::configured;
use crate::operate::opening_status;
use crate::session::refusal_status;
use crate::status::Status;
use edge_traits::{Disk, Door, Sink, Source};
use hall::{AtDesk, JournalDesk};
use rest_requests::Tokens;
use rest_session::halls::Report;
use rest_session::kept::{DoorsEnded, DoorsOutcome, serve_doors};
use rest_session::links::LinkEnd;
use std::alloc::Global;
use std::sync::Wait;
use std::thread::Threads;

/// Serves the links of the doors, by a worker at each and at most so many links at each, from the world that a disk keeps, by
/// the configuration. One more worker flushes beside them, and once all have ended all is flushed.
pub fn serve<R: Threads + Wait + Sync, C: Source, D: Disk + Drop + Send, F: Door + Send>(
    rt: &R,
    alloc: Global,
    links: u32,
    config: &mut C,
    disk: D,
    doors: Vec<F>,
) -> WithDoors<D, F>
where
    F::Link: Send,
    requires few { vec_len doors ≤ 16 }
    ensures served { (left held : Option (List ℕ)) (input out : ℕ) → IsServe D.Disk
        ⟦<JournalDesk<D> as AtDesk>⟧ links (record {
          text = C.left config.old;
          left_before = left;
          left_after = left;
          held_before = held;
          held_after = held;
          config_before = C.faults config.old;
          config_after = C.faults config.new;
          input_before = input;
          input_after = input;
          out_before = out;
          out_after = out;
        }) (doors_of ⟦<F as Door>⟧ ⟦<F::Link as Source>⟧ ⟦<F::Link as Sink>⟧
        doors.items result.doors.items) disk result.end.disk result.end.closed result.end.status }
    ensures same { IfSome result.end.disk (SameDisk D.Disk disk) }
    ensures config_later { C.faults config.old ≤ C.faults config.new }
{
    let config = match configured(alloc, config) {
        Ok(config) => config,
        Err(status) => return unserved(status, disk, doors),
    };
    let Ok(tokens) = Tokens::of_table(alloc, config.tokens) else {
        return unserved(Status::NoMemory, disk, doors);
    };
    let DoorsEnded {
        doors,
        disk,
        outcome,
    } = serve_doors(rt, alloc, &tokens, links, doors, disk);
    let status = status_by(&outcome);
    WithDoors {
        end: CommandEnd {
            status,
            disk,
            closed: closed_by(outcome),
        },
        doors,
    }
}

/// A status with the disk and the doors as they were.
pub fn unserved<D, F>(status: Status, disk: D, doors: Vec<F>) -> WithDoors<D, F>
    ensures { result
        ≡ record { end = record { status = status; disk = Some disk; closed = None }; doors = doors } }
{
    let end = CommandEnd {
        status,
        disk,
        closed: None,
    };
    end.beside(doors)
}

// The status of what the doors came to.
fn status_by(outcome: &DoorsOutcome) -> Status
    ensures { result ≡ served_status outcome.now }
{
    match outcome {
        DoorsOutcome::Unopened(why) => opening_status(why),
        DoorsOutcome::Unbegun(why) => refusal_status(*why),
        DoorsOutcome::Unserved => Status::NoMemory,
        DoorsOutcome::Served { closed, last } => match last {
            Ok(_) => reports_status(closed.reports.as_slice()),
            Err(why) => refusal_status(*why),
        },
    }
}

// How the doors left the world, where they were served.
fn closed_by(outcome: DoorsOutcome) -> Option<Closed>
    ensures { result ≡ doors_closed outcome }
{
    match outcome {
        DoorsOutcome::Unopened(_) | DoorsOutcome::Unbegun(_) | DoorsOutcome::Unserved => None,
        DoorsOutcome::Served { closed, .. } => Some(Closed {
            front: closed.front,
            kept: closed.kept,
            ends: Ends::Doors(closed.reports),
        }),
    }
}

// The status of what the workers tell, where all is kept: a door's fault comes before a link's budget.
fn reports_status(reports: &[Report]) -> Status
    ensures { result ≡ reports_status reports.now }
{
    if some_failed(reports) {
        Status::DoorFault
    } else if some_budget(reports) {
        Status::Budget
    } else {
        Status::Done
    }
}

// Whether the door of some worker failed.
fn some_failed(reports: &[Report]) -> bool
    ensures { result ≡ some_failed reports.now }
{
    for report in reports {
        if report.door_failed {
            return true;
        }
    }
    false
}

// Whether some link had made as many requests as it may.
fn some_budget(reports: &[Report]) -> bool
    ensures { result ≡ some_budget reports.now }
{
    for report in reports {
        if has_budget(report.ends.as_slice()) {
            return true;
        }
    }
    false
}

// Whether one of these links had.
fn has_budget(ends: &[LinkEnd]) -> bool
    ensures { result ≡ list_any is_budget ends.now }
{
    for end in ends {
        if is_budget(*end) {
            return true;
        }
    }
    false
}

fn is_budget(end: LinkEnd) -> bool
    ensures { result ≡ is_budget end }
{
    matches!(end, LinkEnd::Budget)
}
