//! The room, the hiring and the leaving of workers.
ghost use Rattle.std.specs.Prelude.{◌≡◌, ℕ, ◌+◌, ◌<◌, ◌≤◌, ◌++◌, List, [], ◌∷◌, All, IfOk, IsSome};
ghost use Rattle.std.specs.Prelude.{None, Some, false, map, reverse, vec_capacity, vec_len};
ghost use Rattle.hall_rule.specs.Sums.{upward};
ghost use Rattle.hall.specs.Passes.{IsPassOf, TookIn, view_of};
ghost use Rattle.rest_session.specs.Halls.Staff.{IsAlone, IsGiver, IsHired, IsStaff, numbers};

use crate::halls::workers::{LinkEnds, Worker};
use hall::{AtDesk, Hall, OpenGate, Pass};
use std::alloc::{AllocError, Global};

/// What a worker has to tell.
#[derive(Drop)]
pub struct Report {
    /// How the links of its door ended, in order.
    pub ends: LinkEnds,
    /// Whether its door failed.
    pub door_failed: bool,
}

/// All memory that the workers of a hall take.
pub(crate) struct Room<D: AtDesk, F> {
    pub lists: Vec<LinkEnds>,
    pub workers: Vec<Worker<D, F, OpenGate>>,
    pub reports: Vec<Report>,
}

// Empty lists of ends, each with room for so many.
fn make_lists(alloc: Global, count: usize, links: u32) -> Result<Vec<LinkEnds>, AllocError>
    ensures count { IfOk result (λ v. vec_len v ≡ count) }
    ensures room { IfOk result (λ v. All (λ l. (l.items ≡ []) × (links ≤ vec_capacity l)) v.items) }
{
    let mut lists = Vec::new(alloc);
    'lists: for _ in 0..count {
        lists.push(Vec::with_capacity(alloc, links as usize)?)?;
    }
    Ok(lists)
}

/// Room for a worker at each door, and for one that flushes.
pub(crate) fn make_room<D: AtDesk, F>(
    alloc: Global,
    doors: usize,
    links: u32,
) -> Result<Room<D, F>, AllocError>
    requires { doors ≤ 16 }
    ensures lists { IfOk result (λ r. (vec_len r.lists ≡ doors + 1)
        × All (λ l. (l.items ≡ []) × (links ≤ vec_capacity l)) r.lists.items) }
    ensures workers { IfOk result (λ r. (r.workers.items ≡ [])
        × (doors + 1 ≤ vec_capacity r.workers)) }
    ensures reports { IfOk result (λ r. (r.reports.items ≡ [])
        × (doors ≤ vec_capacity r.reports)) }
{
    let lists = make_lists(alloc, doors + 1, links)?;
    let reports = Vec::with_capacity(alloc, doors)?;
    let workers = Vec::with_capacity(alloc, doors + 1)?;
    Ok(Room {
        lists,
        workers,
        reports,
    })
}

// A worker with the next number of the first pass.
fn hire<D: AtDesk, F>(
    hall: &Hall<D>,
    pass: &mut Pass<D>,
    door: Option<F>,
    lists: &mut Vec<LinkEnds>,
) -> Worker<D, F, OpenGate>
    requires lists { 0 < vec_len lists.old }
    requires giver { (k n : ℕ) × IsGiver hall.now k (n + 1) pass.old }
    ensures giver { (k n : ℕ) → IsGiver hall.now k (n + 1) pass.old
        → IsGiver hall.now (k + 1) n pass.new × IsHired hall.now (k + 1) result.pass }
    ensures lists { lists.old.items ≡ lists.new.items ++ result.ends ∷ [] }
    ensures left { vec_len lists.new + 1 ≡ vec_len lists.old }
    ensures door { result.door ≡ door }
    ensures failed { result.door_failed ≡ false }
{
    let share = hall.split(pass);
    let ends = lists.pop().unwrap();
    Worker {
        door,
        gate: OpenGate,
        pass: share,
        ends,
        door_failed: false,
    }
}

// A worker for each door, the last door first.
fn hire_all<D: AtDesk, F>(
    hall: &Hall<D>,
    pass: &mut Pass<D>,
    doors: &mut Vec<F>,
    lists: &mut Vec<LinkEnds>,
    workers: &mut Vec<Worker<D, F, OpenGate>>,
)
    requires lists { vec_len lists.old ≡ vec_len doors.old + 1 }
    requires giver { IsGiver hall.now 0 (vec_len doors.old + 1) pass.old }
    requires workers { (workers.old.items ≡ [])
        × (vec_len doors.old < vec_capacity workers.old) }
    ensures giver { IsGiver hall.now (vec_len doors.old) 1 pass.new }
    ensures hired { All (λ w. (x : ℕ) × IsHired hall.now x w.pass) workers.new.items }
    ensures numbers { map (λ w. (view_of w.pass).number) workers.new.items
        ≡ upward 1 (vec_len doors.old) }
    ensures doors { map (λ w. w.door) workers.new.items ≡ reverse (map (λ d. Some d) doors.old.items) }
    ensures lists { lists.old.items ≡ lists.new.items ++ reverse (map (λ w. w.ends) workers.new.items) }
    ensures left { vec_len lists.new ≡ 1 }
    ensures failed { All (λ w. w.door_failed ≡ false) workers.new.items }
    ensures room { vec_capacity workers.new ≡ vec_capacity workers.old }
    ensures rest { (doors.new.items ≡ []) × (vec_capacity doors.new ≡ vec_capacity doors.old) }
{
    'doors: while let Some(door) = doors.pop() {
        let worker = hire(hall, pass, Some(door), lists);
        workers.push_reserved(worker);
    }
}

/// A worker for each door, in order, and behind them one that flushes.
pub(crate) fn staff<D: AtDesk, F>(
    hall: &Hall<D>,
    links: u32,
    pass: &mut Pass<D>,
    doors: &mut Vec<F>,
    mut lists: Vec<LinkEnds>,
    workers: &mut Vec<Worker<D, F, OpenGate>>,
)
    requires giver { IsGiver hall.now 0 (vec_len doors.old + 1) pass.old }
    requires lists { (vec_len lists ≡ vec_len doors.old + 1)
        × All (λ l. (l.items ≡ []) × (links ≤ vec_capacity l)) lists.items }
    requires workers { (workers.old.items ≡ [])
        × (vec_len doors.old < vec_capacity workers.old) }
    ensures giver { IsGiver hall.now (vec_len doors.old + 1) 0 pass.new }
    ensures hired { All (λ w. (x : ℕ) × IsHired hall.now x w.pass) workers.new.items }
    ensures numbers { map (λ w. (view_of w.pass).number) workers.new.items
        ≡ upward 1 (vec_len doors.old + 1) }
    ensures doors { IsStaff doors.old.items workers.new.items }
    ensures ready { All (λ w. (w.ends.items ≡ []) × (links ≤ vec_capacity w.ends)
        × (w.door_failed ≡ false)) workers.new.items }
    ensures rest { (doors.new.items ≡ []) × (vec_capacity doors.new ≡ vec_capacity doors.old) }
{
    doors.reverse();
    hire_all(hall, pass, doors, &mut lists, workers);
    let flusher = hire(hall, pass, None, &mut lists);
    workers.push_reserved(flusher);
}

// Joins the workers' passes into this one, the last first. The doors and the reports come in that order.
fn take_in<D: AtDesk, F>(
    hall: &Hall<D>,
    pass: &mut Pass<D>,
    mut workers: Vec<Worker<D, F, OpenGate>>,
    doors: &mut Vec<F>,
    reports: &mut Vec<Report>,
)
    requires of { IsPassOf hall.now pass.old }
    requires all_of { All (λ w. IsPassOf hall.now w.pass × IsAlone (view_of w.pass)) workers.items }
    requires at_doors { All (λ w. IsSome w.door) workers.items }
    requires doors_room { vec_len doors.old + vec_len workers ≤ vec_capacity doors.old }
    requires reports_room { vec_len reports.old + vec_len workers ≤ vec_capacity reports.old }
    ensures of { IsPassOf hall.now pass.new }
    ensures names { numbers pass.new ≡ numbers pass.old + vec_len workers }
    ensures itself { TookIn (view_of pass.new) (view_of pass.old) }
    ensures others { All (λ w. TookIn (view_of pass.new) (view_of w.pass)) workers.items }
    ensures doors { map (λ d. Some d) doors.new.items
        ≡ map (λ d. Some d) doors.old.items ++ reverse (map (λ w. w.door) workers.items) }
    ensures reports { reports.new.items ≡ reports.old.items
        ++ reverse (map (λ w. record { ends = w.ends; door_failed = w.door_failed }) workers.items) }
{
    'workers: while let Some(worker) = workers.pop() {
        let Worker {
            door,
            gate: _,
            pass: other,
            ends,
            door_failed,
        } = worker;
        hall.join(pass, other);
        doors.push_reserved(door.unwrap());
        reports.push_reserved(Report { ends, door_failed });
    }
    workers.destroy_empty();
}

// Joins the pass of a worker without a door into this one.
fn take_flusher<D: AtDesk, F>(hall: &Hall<D>, pass: &mut Pass<D>, flusher: Worker<D, F, OpenGate>)
    requires of { IsPassOf hall.now pass.old }
    requires its { IsPassOf hall.now flusher.pass }
    requires alone { IsAlone (view_of flusher.pass) }
    requires no_door { flusher.door ≡ None }
    ensures of { IsPassOf hall.now pass.new }
    ensures names { numbers pass.new ≡ numbers pass.old + 1 }
    ensures itself { TookIn (view_of pass.new) (view_of pass.old) }
    ensures other { TookIn (view_of pass.new) (view_of flusher.pass) }
{
    let Worker {
        door,
        gate: _,
        pass: other,
        ends: _,
        door_failed: _,
    } = flusher;
    match door {
        None => {}
        Some(_) => unreachable!(),
    }
    hall.join(pass, other);
}

/// Joins all workers' passes into this one. The doors and the reports come in the order of their workers.
pub(crate) fn dismiss<D: AtDesk, F>(
    hall: &Hall<D>,
    pass: &mut Pass<D>,
    mut workers: Vec<Worker<D, F, OpenGate>>,
    doors: &mut Vec<F>,
    reports: &mut Vec<Report>,
)
    requires of { IsPassOf hall.now pass.old }
    requires all_of { All (λ w. IsPassOf hall.now w.pass × IsAlone (view_of w.pass)) workers.items }
    requires staff { (given : List F) × IsStaff given workers.items }
    requires doors_room { (doors.old.items ≡ []) × (vec_len workers ≤ vec_capacity doors.old + 1) }
    requires reports_room { (reports.old.items ≡ [])
        × (vec_len workers ≤ vec_capacity reports.old + 1) }
    ensures of { IsPassOf hall.now pass.new }
    ensures names { numbers pass.new ≡ numbers pass.old + vec_len workers }
    ensures itself { TookIn (view_of pass.new) (view_of pass.old) }
    ensures others { All (λ w. TookIn (view_of pass.new) (view_of w.pass)) workers.items }
    ensures doors { IsStaff doors.new.items workers.items }
    ensures reports { (flusher : Report)
        × (map (λ w. record { ends = w.ends; door_failed = w.door_failed }) workers.items
        ≡ reports.new.items ++ flusher ∷ []) }
{
    let flusher = workers.pop().unwrap();
    take_flusher(hall, pass, flusher);
    take_in(hall, pass, workers, doors, reports);
    doors.reverse();
    reports.reverse();
}
