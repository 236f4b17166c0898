//! The call that begins a hall, runs its workers and closes it.
ghost use Rattle.std.specs.Prelude.{◌≡◌, ℕ, ◌+◌, ◌≤◌, ◌<◌, [], All, None, Some, false, map};
ghost use Rattle.std.specs.Prelude.{slice_get, vec_capacity, vec_len};
ghost use Rattle.flush_journal.specs.Standing.{pending_of};
ghost use Rattle.hall.specs.JournalDesks.{HoldsWorld};
ghost use Rattle.hall.specs.Passes.{HasBegun, IsNewWorld, opening, who};
ghost use Rattle.service_core.specs.Worlds.{State};
ghost use Rattle.rest_session.specs.Halls.Accounts.{IsReady, account};
ghost use Rattle.rest_session.specs.Halls.Histories.{HasServed, IsClosed};
ghost use Rattle.rest_session.specs.Halls.Visits.{telling};
ghost use Rattle.rest_session.specs.Halls.Workers.{WorksAt};

use crate::halls::closed::{ClosedHall, HallOutcome, ServedHall};
use crate::halls::hiring::{Room, dismiss, make_room, staff};
use crate::halls::workers::{Worker, work};
use edge_traits::{Disk, Door, Sink, Source};
use flush_journal::Journal;
use hall::{AtDesk, Hall, JournalDesk, OpenGate, Pass};
use rest_requests::Tokens;
use service_core::World;
use service_histories::{replies_are_replays, the_register_counts};
use std::alloc::Global;
use std::sync::Wait;
use std::thread::Threads;

// `work` over a `Vec` of workers.
fn work_all<D: Disk + Drop + Send, F: Door + Send, R: Threads + Wait + Sync>(
    rt: &R,
    alloc: Global,
    hall: &Hall<JournalDesk<D>>,
    tokens: &Tokens,
    links: u32,
    workers: &mut Vec<Worker<JournalDesk<D>, F, OpenGate>>,
)
where
    F::Link: Send,
    requires ready { All (λ w. IsReady hall.now w.pass) workers.old.items }
    requires new { All (λ w. (w.ends.items ≡ []) × (links ≤ vec_capacity w.ends)
        × (w.door_failed ≡ false)) workers.old.items }
    ensures ready { All (λ w. IsReady hall.now w.pass) workers.new.items }
    ensures same { map (λ w. who w.pass) workers.new.items ≡ map (λ w. who w.pass) workers.old.items }
    ensures works { (i : ℕ) (x y : _)
        → slice_get workers.old.items i ≡ Some x → slice_get workers.new.items i ≡ Some y
        → WorksAt (telling ⟦<F as Door>⟧ ⟦<F::Link as Source>⟧ ⟦<F::Link as Sink>⟧) links
        x.door y.door y.ends.items
        (account tokens.now hall.now x.pass) (account tokens.now hall.now y.pass) y.door_failed }
    ensures len { vec_len workers.new ≡ vec_len workers.old }
{
    work(rt, alloc, hall, tokens, links, workers.as_mut_slice());
}

// From a hall with its first pass to its end: behind the last worker's end the first pass flushes once more.
fn run_hall<D: Disk + Drop + Send, F: Door + Send, R: Threads + Wait + Sync>(
    rt: &R,
    alloc: Global,
    hall: Hall<JournalDesk<D>>,
    mut pass: Pass<JournalDesk<D>>,
    tokens: &Tokens,
    links: u32,
    doors: &mut Vec<F>,
    room: Room<JournalDesk<D>, F>,
) -> ClosedHall<D>
where
    F::Link: Send,
    requires begun { (s : State) × IsNewWorld s × HasBegun hall pass s (vec_len doors.old + 2) }
    requires lists { (vec_len room.lists ≡ vec_len doors.old + 1)
        × All (λ l. (l.items ≡ []) × (links ≤ vec_capacity l)) room.lists.items }
    requires workers { (room.workers.items ≡ [])
        × (vec_len doors.old < vec_capacity room.workers) }
    requires reports { (room.reports.items ≡ [])
        × (vec_len doors.old ≤ vec_capacity room.reports) }
    ensures closed { (s : State) → IsNewWorld s → HasBegun hall pass s (vec_len doors.old + 2)
        → IsClosed D.Disk ⟦<JournalDesk<D> as AtDesk>⟧
        (telling ⟦<F as Door>⟧ ⟦<F::Link as Source>⟧ ⟦<F::Link as Sink>⟧) tokens.now links
        (opening hall).desk.value s result doors.old.items doors.new.items }
{
    the_register_counts();
    replies_are_replays();
    let Room {
        lists,
        mut workers,
        mut reports,
    } = room;
    staff(&hall, links, &mut pass, doors, lists, &mut workers);
    work_all(rt, alloc, &hall, tokens, links, &mut workers);
    dismiss(&hall, &mut pass, workers, doors, &mut reports);
    let last = hall.flush(rt, &mut pass);
    let (world, desk) = hall.close(pass);
    let front = world.places();
    let kept = desk.kept().c;
    ClosedHall {
        world,
        front,
        kept,
        last,
        reports,
        desk,
    }
}

/// Serves the links of the doors over one hall, which begins with the world that a journal holds: by a worker at each door, each
/// of which serves at most so many links, one after another, and one that flushes beside them. Behind the last worker's end all is
/// flushed once more. All memory of the workers and the hall is taken first.
pub fn serve_hall<D: Disk + Drop + Send, F: Door + Send, R: Threads + Wait + Sync>(
    rt: &R,
    alloc: Global,
    world: World,
    journal: Journal<D>,
    tokens: &Tokens,
    links: u32,
    mut doors: Vec<F>,
) -> ServedHall<F, D>
where
    F::Link: Send,
    requires few { vec_len doors ≤ 16 }
    requires new { IsNewWorld world }
    requires idle { pending_of journal ≡ None }
    requires holds { D.honest → HoldsWorld D.Disk journal world }

    // One legal history from this world on: each door's links were served by its own entries, in order, and all that was
    // acknowledged was kept.
    ensures served { HasServed D.Disk ⟦<JournalDesk<D> as AtDesk>⟧
        (telling ⟦<F as Door>⟧ ⟦<F::Link as Source>⟧ ⟦<F::Link as Sink>⟧) tokens.now links
        journal world doors.items result.doors.items result.outcome }
{
    let Ok(room) = make_room(alloc, doors.len(), links) else {
        return ServedHall {
            doors,
            outcome: HallOutcome::NoWorkers(journal),
        };
    };
    let (world, desk) = JournalDesk::begin(alloc, world, journal);
    let Ok((hall, pass)) = Hall::begin(alloc, world, desk, doors.len() as u32 + 2) else {
        let Room {
            lists: _,
            workers,
            reports: _,
        } = room;
        workers.destroy_empty();
        return ServedHall {
            doors,
            outcome: HallOutcome::NoHall,
        };
    };
    let closed = run_hall(rt, alloc, hall, pass, tokens, links, &mut doors, room);
    ServedHall {
        doors,
        outcome: HallOutcome::Closed(closed),
    }
}
