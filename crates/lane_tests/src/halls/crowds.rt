//! Many callers of one hall, each with rows and a thread of its own.

ghost use Rattle.std.specs.Prelude.{◌≡◌, ℕ, ◌+◌, ◌≤◌, [], All, Some, slice_get};
ghost use Rattle.std.specs.Prelude.{length, vec_capacity, vec_len};
ghost use Rattle.hall.specs.Passes.{HasBegun, IsPassOf, names_of};
ghost use Rattle.lane_tests.specs.Crowds.{IsGiver, IsMember};
ghost use Rattle.service_core.specs.Worlds.{State};

use crate::halls::asks::{Told, ask_rows};
use crate::halls::worlds::{MemDesk, hall_on};
use edge_traits::MemDisk;
use hall::{Hall, Pass};
use service_core::World;
use std::alloc::Global;
use std::sync::Wait;
use std::test::Fail;
use std::thread;
use std::thread::Threads;

const MOST_THREADS: usize = 16;

/// Rows, and what they were answered; nothing where one of them is no request, or memory ran out.
#[derive(Drop)]
pub(crate) struct Heard {
    pub(crate) rows: Vec<String>,
    pub(crate) told: Option<Vec<Told>>,
}

impl Heard {
    /// The row that was answered at a place, and the answer.
    fn at(&self, place: u64) -> Option<(&str, &Told)> {
        let told = self.told.as_ref()?;
        for (row, answer) in self.rows.iter().zip(told) {
            if answer.place == place {
                return Some((row.as_str(), answer));
            }
        }
        None
    }
}

/// The row that was answered at a place to one of these, and the answer.
pub(crate) fn heard_at(heard: &[Heard], place: u64) -> Option<(&str, &Told)> {
    for one in heard {
        let found = one.at(place);
        if found.is_some() {
            return found;
        }
    }
    None
}

/// One of many callers: its pass, and its rows.
pub(crate) struct Member {
    pass: Pass<MemDesk>,
    heard: Heard,
}

/// A caller with the next number of the first pass.
fn admit(hall: &Hall<MemDesk>, pass: &mut Pass<MemDesk>, rows: Vec<String>) -> Member
    requires giver { (n : ℕ) × IsGiver hall.now (n + 1) pass.old }
    ensures giver { (n : ℕ) → IsGiver hall.now (n + 1) pass.old
        → IsGiver hall.now n pass.new × IsMember hall.now result.pass }
{
    let share = hall.split(pass);
    Member {
        pass: share,
        heard: Heard { rows, told: None },
    }
}

/// A caller for each list of rows.
fn admit_all(
    hall: &Hall<MemDesk>,
    pass: &mut Pass<MemDesk>,
    scripts: &mut Vec<Vec<String>>,
    members: &mut Vec<Member>,
)
    requires giver { IsGiver hall.now (vec_len scripts.old) pass.old }
    requires room { (members.old.items ≡ [])
        × (vec_len scripts.old ≤ vec_capacity members.old) }
    ensures giver { IsGiver hall.now 0 pass.new }
    ensures members { All (λ m. IsMember hall.now m.pass) members.new.items }
    ensures count { vec_len members.new ≡ vec_len scripts.old }
{
    'scripts: while let Some(rows) = scripts.pop() {
        let member = admit(hall, pass, rows);
        members.push_reserved(member);
    }
}

fn speak<W: Wait>(rt: &W, alloc: Global, hall: &Hall<MemDesk>, member: &mut Member)
    requires { IsMember hall.now member.old.pass }
    ensures { IsMember hall.now member.new.pass }
{
    let rows = member.heard.rows.as_slice();
    let told = ask_rows(rt, alloc, hall, &mut member.pass, rows);
    member.heard.told = told;
}

/// Each asks its rows, in a thread of its own where one can be made.
fn speak_each<R: Threads + Wait + Sync>(
    rt: &R,
    alloc: Global,
    hall: &Hall<MemDesk>,
    members: &mut [Member],
)
    requires { All (λ m. IsMember hall.now m.pass) members.old }
    ensures { (i : ℕ) (x y : _) → slice_get members.old i ≡ Some x → slice_get members.new i ≡ Some y
        → IsMember hall.now y.pass }
{
    thread::for_each_mut(
        rt,
        members,
        MOST_THREADS,
        &|_, member| { speak(rt, alloc, hall, member) },
    );
}

fn speak_all<R: Threads + Wait + Sync>(
    rt: &R,
    alloc: Global,
    hall: &Hall<MemDesk>,
    members: &mut Vec<Member>,
)
    requires { All (λ m. IsMember hall.now m.pass) members.old.items }
    ensures members { All (λ m. IsMember hall.now m.pass) members.new.items }
    ensures count { vec_len members.new ≡ vec_len members.old }
{
    speak_each(rt, alloc, hall, members.as_mut_slice());
}

/// Joins all callers' passes into this one.
fn take_in(
    hall: &Hall<MemDesk>,
    pass: &mut Pass<MemDesk>,
    mut members: Vec<Member>,
    heard: &mut Vec<Heard>,
)
    requires of_this_hall { IsPassOf hall.now pass.old }
    requires members { All (λ m. IsMember hall.now m.pass) members.items }
    ensures of_this_hall { IsPassOf hall.now pass.new }
    ensures names { length (names_of pass.new) ≡ length (names_of pass.old) + vec_len members }
{
    'members: while let Some(member) = members.pop() {
        let Member {
            pass: other,
            heard: its,
        } = member;
        hall.join(pass, other);
        drop(heard.push(its));
    }
    members.destroy_empty();
}

/// What callers were answered, and the world and the disk that they left.
#[derive(Drop)]
pub(crate) struct Left {
    pub(crate) world: World,
    pub(crate) disk: MemDisk,
    pub(crate) heard: Vec<Heard>,
}

/// From a hall with its first pass to its end.
fn over_hall<R: Threads + Wait + Sync>(
    rt: &R,
    alloc: Global,
    hall: Hall<MemDesk>,
    mut pass: Pass<MemDesk>,
    mut scripts: Vec<Vec<String>>,
    mut members: Vec<Member>,
) -> Left
    requires begun { (s : State) × HasBegun hall pass s (vec_len scripts + 1) }
    requires room { (members.items ≡ []) × (vec_len scripts ≤ vec_capacity members) }
{
    let mut heard = Vec::new(alloc);
    admit_all(&hall, &mut pass, &mut scripts, &mut members);
    speak_all(rt, alloc, &hall, &mut members);
    take_in(&hall, &mut pass, members, &mut heard);
    let (world, desk) = hall.close(pass);
    let disk = desk.into_disk();
    Left { world, disk, heard }
}

/// Callers ask one hall over the world of a journal at the same time, each its own rows.
pub(crate) fn over_journal<R: Threads + Wait + Sync>(
    rt: &R,
    alloc: Global,
    bytes: &[u8],
    scripts: Vec<Vec<String>>,
) -> Result<Left, Fail>
    requires { vec_len scripts ≤ 16 }
{
    let members = Vec::with_capacity(alloc, scripts.len())?;
    match hall_on(alloc, bytes, scripts.len() as u32 + 1) {
        Ok((hall, pass)) => Ok(over_hall(rt, alloc, hall, pass, scripts, members)),
        Err(fail) => {
            members.destroy_empty();
            Err(fail)
        }
    }
}
