ghost use Rattle.std.specs.Prelude.{◌≡◌, ◌≤◌, IfSome, None, length, vec_len};
ghost use Rattle.std.specs.declared.snapshot.Snapshot.{Snapshot};
ghost use Rattle.edge_traits.specs.Causes.{Rose};
ghost use Rattle.flush_journal.specs.Standing.{disk_of, pending_of};
ghost use Rattle.flush_journal.specs.Unchanged.{SameDisk};
ghost use Rattle.flush_journal.specs.declared.journal.Journal.{Journal};
ghost use Rattle.lane_histories.specs.Legal.{IsLegal};
ghost use Rattle.hall_rule.specs.Seen.{history_of};
ghost use Rattle.service_core.specs.Worlds.{State};
ghost use Rattle.service_histories.specs.ArrayServices.{array_service};
ghost use Rattle.service_histories.specs.Tellings.{opening};
ghost use Rattle.hall.specs.Answers.{ArrayLists, ArrayStart};
ghost use Rattle.hall.specs.JournalDesks.{HoldsWorld};
ghost use Rattle.hall.specs.Passes.{IsDeskAtEnd, IsNewWorld};
ghost use Rattle.rest_session.specs.Halls.Visits.{telling};
ghost use Rattle.rest_session.specs.Kept.Doors.{HaveEnded, HaveEndedInRun, IsDoorsDiskFault};
ghost use Rattle.rest_session.specs.Kept.Doors.{LeavesKept};

use crate::halls::{ClosedHall, HallOutcome, ServedHall, serve_hall};
use crate::kept::outcome::{ClosedDoors, DoorsEnded, DoorsOutcome};
use edge_traits::{Disk, Door, Sink, Source};
use flush_journal::{Journal, Why};
use hall::{AtDesk, JournalDesk, installed_worlds_are_new};
use rest_requests::Tokens;
use service_core::World;
use service_core::journals::{BeginRefused, Begun, begin_world};
use service_histories::what_is_kept_stays_kept;
use std::alloc::Global;
use std::sync::Wait;
use std::thread::Threads;

/// Opens the world that a disk keeps, begins a run of it, and serves the links of the doors over one hall: by a worker at each
/// door, at most so many links at each, and one that flushes beside them. Behind the last worker's end all is flushed once more.
///
/// Where no world is opened, no run is begun, or there is no memory for the hall and its workers, the doors are as they were.
pub fn serve_doors<F: Door + Send, D: Disk + Drop + Send, R: Threads + Wait + Sync>(
    rt: &R,
    alloc: Global,
    tokens: &Tokens,
    links: u32,
    doors: Vec<F>,
    disk: D,
) -> DoorsEnded<F, D>
where
    F::Link: Send,
    requires few { vec_len doors ≤ 16 }
    ensures ended { HaveEnded D.Disk ⟦<JournalDesk<D> as AtDesk>⟧
        (telling ⟦<F as Door>⟧ ⟦<F::Link as Source>⟧ ⟦<F::Link as Sink>⟧) tokens.now links
        disk result.disk doors.items result.doors.items result.outcome }
    ensures same { IfSome result.disk (SameDisk D.Disk disk) }

    // The disk had a fault only where its count rose.
    ensures disk_fault { IsDoorsDiskFault result.outcome
        → IfSome result.disk (λ d. Rose (D.faults disk) (D.faults d)) }
{
    installed_worlds_are_new();
    match begin_world(alloc, disk) {
        Ok(Begun { journal, world }) => {
            serve_run(rt, alloc, tokens, links, doors, journal, world)
        }
        Err(BeginRefused { disk, why }) => DoorsEnded {
            doors,
            disk: Some(disk),
            outcome: DoorsOutcome::from(why),
        },
    }
}

// Serves doors over a world in its run.
fn serve_run<F: Door + Send, D: Disk + Drop + Send, R: Threads + Wait + Sync>(
    rt: &R,
    alloc: Global,
    tokens: &Tokens,
    links: u32,
    doors: Vec<F>,
    journal: Journal<D>,
    world: World,
) -> DoorsEnded<F, D>
where
    F::Link: Send,
    requires few { vec_len doors ≤ 16 }
    requires new { IsNewWorld world }
    requires idle { pending_of journal ≡ None }
    requires holds { D.honest → HoldsWorld D.Disk journal world }
    ensures ended { HaveEndedInRun D.Disk ⟦<JournalDesk<D> as AtDesk>⟧
        (telling ⟦<F as Door>⟧ ⟦<F::Link as Source>⟧ ⟦<F::Link as Sink>⟧) tokens.now links
        journal world result.disk doors.items result.doors.items result.outcome }
    ensures same { IfSome result.disk (SameDisk D.Disk (disk_of journal)) }
    ensures disk_fault { IsDoorsDiskFault result.outcome
        → IfSome result.disk (λ d. Rose (D.faults (disk_of journal)) (D.faults d)) }
{
    let ServedHall { doors, outcome } = serve_hall(rt, alloc, world, journal, tokens, links, doors);
    match outcome {
        HallOutcome::NoWorkers(journal) => DoorsEnded {
            doors,
            disk: Some(journal.into_disk()),
            outcome: DoorsOutcome::Unserved,
        },
        HallOutcome::NoHall => DoorsEnded {
            doors,
            disk: None,
            outcome: DoorsOutcome::Unserved,
        },
        HallOutcome::Closed(closed) => {
            let EndedHall { disk, closed, last } = end_hall(closed);
            DoorsEnded {
                doors,
                disk: Some(disk),
                outcome: DoorsOutcome::Served { closed, last },
            }
        }
    }
}

// What a hall that was served left, and the disk.
#[derive(Drop)]
struct EndedHall<D> {
    disk: D,
    closed: ClosedDoors,
    last: Result<u64, Why>,
}

// Takes a closed hall apart.
fn end_hall<D: Disk + Drop>(hall: ClosedHall<D>) -> EndedHall<D>
    ensures told { result.closed
        ≡ record { front = hall.front; kept = hall.kept; reports = hall.reports } }
    ensures last { result.last ≡ hall.last }
    ensures disk { result.disk ≡ hall.desk.desk.disk }

    // Whatever a crash leaves is kept from the history.
    ensures leaves { D.honest → (first : State) (start : ArrayStart (Snapshot (Journal D D.Disk)))
        (seen : ArrayLists) → start.register ≡ first.register → start.owners ≡ first.lanes
        → IsLegal (array_service (length first.lanes)) (opening (length first.lanes) first)
        (history_of (array_service (length first.lanes)) seen)
        → IsDeskAtEnd ⟦<JournalDesk<D> as AtDesk>⟧ start seen hall.desk
        → LeavesKept D.Disk first seen (disk_of start.desk.value) result.disk hall.desk.desk.pending
        hall.desk.desk.kept }
{
    what_is_kept_stays_kept();
    let ClosedHall {
        world: _,
        front,
        kept,
        last,
        reports,
        desk,
    } = hall;
    desk.images_are_kept();
    desk.keepings_are_kept();
    EndedHall {
        disk: desk.into_disk(),
        closed: ClosedDoors {
            front,
            kept,
            reports,
        },
        last,
    }
}
