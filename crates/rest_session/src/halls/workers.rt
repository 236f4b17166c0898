//! Many workers at one hall.
ghost use Rattle.std.specs.Prelude.{◌≡◌, ℕ, ◌≤◌, [], All, Some, false, map, slice_get, vec_capacity};
ghost use Rattle.hall.specs.Passes.{who};
ghost use Rattle.rest_session.specs.Halls.Accounts.{IsReady, account};
ghost use Rattle.rest_session.specs.Halls.Gates.{HasGoneThroughAll};
ghost use Rattle.rest_session.specs.Halls.Visits.{telling};
ghost use Rattle.rest_session.specs.Halls.Workers.{HasWorked, WorksAt};
ghost use Rattle.rest_session.specs.declared.halls.workers.TheConstants.{MOST_THREADS};

use crate::halls::attending::attend_door;
use crate::halls::flushing::{Endings, flush_beside};
use crate::links::LinkEnd;
use edge_traits::{Disk, Door, Sink, Source};
use hall::{AtDesk, Gate, Hall, JournalDesk, Pass};
use rest_requests::Tokens;
use std::alloc::Global;
use std::sync::Wait;
use std::thread;
use std::thread::Threads;

/// How many workers run at a time at most: sixteen at doors, and one that flushes.
const MOST_THREADS: usize = 17;

/// At most seventeen workers run at a time.
pub fn limit_of_threads()
    ensures { MOST_THREADS ≡ 17 }
{}

/// The ends of a worker's links, in order.
pub type LinkEnds = Vec<LinkEnd>;

/// A worker: its door and its pass, and a gate through which it goes in each turn of a lane. What it did is told by the ends
/// of its links, and by whether its door failed. One without a door flushes beside the others.
pub struct Worker<D: AtDesk, F, G> {
    pub door: Option<F>,
    pub gate: G,
    pub pass: Pass<D>,
    pub ends: LinkEnds,
    pub door_failed: bool,
}

// How many of the workers have a door.
fn count_doors<D: AtDesk, F, G>(workers: &[Worker<D, F, G>]) -> usize {
    workers
        .iter()
        .filter(|worker| worker.door.is_some())
        .count()
}

fn run_worker<D: Disk + Drop, G: Gate, F: Door, R: Wait>(
    rt: &R,
    alloc: Global,
    hall: &Hall<JournalDesk<D>>,
    tokens: &Tokens,
    links: u32,
    doors: &Endings,
    worker: &mut Worker<JournalDesk<D>, F, G>,
)
    requires ready { IsReady hall.now worker.old.pass }
    requires new { (worker.old.ends.items ≡ []) × (links ≤ vec_capacity worker.old.ends)
        × (worker.old.door_failed ≡ false) }
    ensures { HasWorked (telling ⟦<F as Door>⟧ ⟦<F::Link as Source>⟧ ⟦<F::Link as Sink>⟧) G.goes
        tokens.now links hall.now worker.old worker.new }
{
    match &mut worker.door {
        Some(door) => {
            worker.door_failed = attend_door(
                rt,
                alloc,
                hall,
                &mut worker.pass,
                &mut worker.gate,
                tokens,
                links,
                door,
                &mut worker.ends,
            );
            doors.add();
        }
        None => flush_beside(rt, hall, &mut worker.pass, doors),
    }
}

// The closure says by a clause what it leaves of a worker: what a gate may become isn't found behind a call inside.
fn work_each<D: Disk + Drop + Send, G: Gate + Send, F: Door + Send, R: Threads + Wait + Sync>(
    rt: &R,
    alloc: Global,
    hall: &Hall<JournalDesk<D>>,
    tokens: &Tokens,
    links: u32,
    doors: &Endings,
    workers: &mut [Worker<JournalDesk<D>, F, G>],
)
where
    F::Link: Send,
    requires ready { All (λ w. IsReady hall.now w.pass) workers.old }
    requires new { All (λ w. (w.ends.items ≡ []) × (links ≤ vec_capacity w.ends)
        × (w.door_failed ≡ false)) workers.old }
    ensures { (i : ℕ) (x y : _) → slice_get workers.old i ≡ Some x → slice_get workers.new i ≡ Some y
        → HasWorked (telling ⟦<F as Door>⟧ ⟦<F::Link as Source>⟧ ⟦<F::Link as Sink>⟧) G.goes
        tokens.now links hall.now x y }
{
    let run = |_: usize, worker: &mut Worker<JournalDesk<D>, F, G>|
        requires { IsReady hall.now worker.now.pass × (worker.now.ends.items ≡ [])
            × (links ≤ vec_capacity worker.now.ends) × (worker.now.door_failed ≡ false) }
        ensures { HasWorked (telling F.Door F.Link.Source F.Link.Sink) G.goes tokens.entry.now
            links hall.entry.now worker.entry.now worker.exit.now }
    { run_worker(rt, alloc, hall, tokens, links, doors, worker) };
    thread::for_each_mut(rt, workers, MOST_THREADS, &run);
}

/// Runs the workers, each in a thread of its own where one can be made: each serves the links of its door, one after another,
/// until the door has none left, it fails, or `links` were given. One without a door, which comes last, flushes beside them
/// until all of them have ended.
pub fn work<D: Disk + Drop + Send, G: Gate + Send, F: Door + Send, R: Threads + Wait + Sync>(
    rt: &R,
    alloc: Global,
    hall: &Hall<JournalDesk<D>>,
    tokens: &Tokens,
    links: u32,
    workers: &mut [Worker<JournalDesk<D>, F, G>],
)
where
    F::Link: Send,
    requires ready { All (λ w. IsReady hall.now w.pass) workers.old }
    requires new { All (λ w. (w.ends.items ≡ []) × (links ≤ vec_capacity w.ends)
        × (w.door_failed ≡ false)) workers.old }
    ensures ready { All (λ w. IsReady hall.now w.pass) workers.new }
    ensures same { map (λ w. who w.pass) workers.new ≡ map (λ w. who w.pass) workers.old }

    // One without a door asks nothing.
    ensures works { (i : ℕ) (x y : _)
        → slice_get workers.old i ≡ Some x → slice_get workers.new i ≡ Some y
        → WorksAt (telling ⟦<F as Door>⟧ ⟦<F::Link as Source>⟧ ⟦<F::Link as Sink>⟧) links
        x.door y.door y.ends.items
        (account tokens.now hall.now x.pass) (account tokens.now hall.now y.pass) y.door_failed }

    // Each turn of each request that a worker's links asked went through its own gate, in order.
    ensures gates { (i : ℕ) (x y : _)
        → slice_get workers.old i ≡ Some x → slice_get workers.new i ≡ Some y
        → HasGoneThroughAll G.goes (account tokens.now hall.now x.pass)
        (account tokens.now hall.now y.pass) x.gate y.gate }
{
    let doors = Endings::new(count_doors(workers));
    work_each(rt, alloc, hall, tokens, links, &doors, workers);
}
