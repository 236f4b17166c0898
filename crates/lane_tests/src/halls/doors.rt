//! Two doors, whose links are served over one hall at the same time.

ghost use Rattle.std.specs.Prelude.{◌≡◌, ℕ, ◌+◌, ◌≤◌, [], All, IfOk, false, length};
ghost use Rattle.std.specs.Prelude.{vec_capacity, vec_len};
ghost use Rattle.hall.specs.Passes.{HasBegun, IsPassOf, names_of};
ghost use Rattle.lane_tests.specs.Crowds.{IsGiver, IsMember};
ghost use Rattle.rest_session.specs.Halls.Accounts.{IsReady};
ghost use Rattle.service_core.specs.Worlds.{State};

use crate::halls::patient_gate::PatientGate;
use crate::halls::worlds::{MemDesk, hall_on, workshop};
use crate::requests::tokens;
use edge_traits::{MemDoor, MemLink, MemSink, MemSource};
use hall::{Hall, Pass};
use rest_requests::Tokens;
use rest_session::halls::{LinkEnds, Worker, work};
use std::alloc::{AllocError, Global};
use std::sync::atomic::AtomicU64;
use std::sync::{Arc, Wait};
use std::test::Fail;
use std::thread::Threads;

type Clerk = Worker<MemDesk, MemDoor, PatientGate>;

/// A door as its worker has it, the gate of that worker, and room for how the link ends.
#[derive(Drop)]
struct Post {
    door: Option<MemDoor>,
    gate: PatientGate,
    ends: LinkEnds,
}

/// A worker at a door, with the next number of the first pass.
fn hire(hall: &Hall<MemDesk>, pass: &mut Pass<MemDesk>, post: Post) -> Clerk
    requires giver { (n : ℕ) × IsGiver hall.now (n + 1) pass.old }
    requires ends { (post.ends.items ≡ []) × (1 ≤ vec_capacity post.ends) }
    ensures giver { (n : ℕ) → IsGiver hall.now (n + 1) pass.old → IsGiver hall.now n pass.new }
    ensures member { IsMember hall.now result.pass }
    ensures ready { IsReady hall.now result.pass }
    ensures new { (result.ends.items ≡ []) × (1 ≤ vec_capacity result.ends)
        × (result.door_failed ≡ false) }
{
    let share = hall.split(pass);
    let Post { door, gate, ends } = post;
    Worker {
        door,
        gate,
        pass: share,
        ends,
        door_failed: false,
    }
}

fn hire_both(
    hall: &Hall<MemDesk>,
    pass: &mut Pass<MemDesk>,
    first: Post,
    second: Post,
    clerks: &mut Vec<Clerk>,
)
    requires giver { IsGiver hall.now 2 pass.old }
    requires first { (first.ends.items ≡ []) × (1 ≤ vec_capacity first.ends) }
    requires second { (second.ends.items ≡ []) × (1 ≤ vec_capacity second.ends) }
    requires room { (clerks.old.items ≡ []) × (2 ≤ vec_capacity clerks.old) }
    ensures giver { IsGiver hall.now 0 pass.new }
    ensures members { All (λ w. IsMember hall.now w.pass) clerks.new.items }
    ensures ready { All (λ w. IsReady hall.now w.pass) clerks.new.items }
    ensures new { All (λ w. (w.ends.items ≡ []) × (1 ≤ vec_capacity w.ends)
        × (w.door_failed ≡ false)) clerks.new.items }
    ensures count { vec_len clerks.new ≡ 2 }
{
    let one = hire(hall, pass, first);
    let two = hire(hall, pass, second);
    clerks.push_reserved(one);
    clerks.push_reserved(two);
}

fn work_all<R: Threads + Wait + Sync>(
    rt: &R,
    alloc: Global,
    hall: &Hall<MemDesk>,
    tokens: &Tokens,
    clerks: &mut Vec<Clerk>,
)
    requires members { All (λ w. IsMember hall.now w.pass) clerks.old.items }
    requires ready { All (λ w. IsReady hall.now w.pass) clerks.old.items }
    requires new { All (λ w. (w.ends.items ≡ []) × (1 ≤ vec_capacity w.ends)
        × (w.door_failed ≡ false)) clerks.old.items }
    ensures members { All (λ w. IsMember hall.now w.pass) clerks.new.items }
    ensures count { vec_len clerks.new ≡ vec_len clerks.old }
{
    work(rt, alloc, hall, tokens, 1, clerks.as_mut_slice());
}

/// Joins the workers' passes into this one. The last post comes first.
fn dismiss(
    hall: &Hall<MemDesk>,
    pass: &mut Pass<MemDesk>,
    mut clerks: Vec<Clerk>,
    posts: &mut Vec<Post>,
)
    requires of_this_hall { IsPassOf hall.now pass.old }
    requires members { All (λ w. IsMember hall.now w.pass) clerks.items }
    ensures of_this_hall { IsPassOf hall.now pass.new }
    ensures names { length (names_of pass.new) ≡ length (names_of pass.old) + vec_len clerks }
{
    'clerks: while let Some(clerk) = clerks.pop() {
        let Worker {
            door,
            gate,
            pass: other,
            ends,
            door_failed: _,
        } = clerk;
        hall.join(pass, other);
        drop(posts.push(Post { door, gate, ends }));
    }
    clerks.destroy_empty();
}

/// Serves both doors with the first pass of a hall for three, which then has all numbers again. The second post comes first.
fn serve_both<R: Threads + Wait + Sync>(
    rt: &R,
    alloc: Global,
    hall: &Hall<MemDesk>,
    pass: &mut Pass<MemDesk>,
    tokens: &Tokens,
    first: Post,
    second: Post,
    mut clerks: Vec<Clerk>,
) -> Vec<Post>
    requires giver { IsGiver hall.now 2 pass.old }
    requires first { (first.ends.items ≡ []) × (1 ≤ vec_capacity first.ends) }
    requires second { (second.ends.items ≡ []) × (1 ≤ vec_capacity second.ends) }
    requires room { (clerks.items ≡ []) × (2 ≤ vec_capacity clerks) }
    ensures of_this_hall { IsPassOf hall.now pass.new }
    ensures names { length (names_of pass.new) ≡ 3 }
{
    let mut posts = Vec::new(alloc);
    hire_both(hall, pass, first, second, &mut clerks);
    work_all(rt, alloc, hall, tokens, &mut clerks);
    dismiss(hall, pass, clerks, &mut posts);
    posts
}

/// Serves both doors over a hall with its first pass, to its end.
fn over_hall<R: Threads + Wait + Sync>(
    rt: &R,
    alloc: Global,
    hall: Hall<MemDesk>,
    mut pass: Pass<MemDesk>,
    tokens: &Tokens,
    first: Post,
    second: Post,
    clerks: Vec<Clerk>,
) -> Vec<Post>
    requires begun { (s : State) × HasBegun hall pass s 3 }
    requires first { (first.ends.items ≡ []) × (1 ≤ vec_capacity first.ends) }
    requires second { (second.ends.items ≡ []) × (1 ≤ vec_capacity second.ends) }
    requires room { (clerks.items ≡ []) × (2 ≤ vec_capacity clerks) }
{
    let posts = serve_both(rt, alloc, &hall, &mut pass, tokens, first, second, clerks);
    let (_world, _desk) = hall.close(pass);
    posts
}

/// Both doors as they were left, behind a hall that was begun for them; the second first.
fn served<R: Threads + Wait + Sync>(
    rt: &R,
    alloc: Global,
    tokens: &Tokens,
    first: Post,
    second: Post,
) -> Result<Vec<Post>, Fail>
    requires first { (first.ends.items ≡ []) × (1 ≤ vec_capacity first.ends) }
    requires second { (second.ends.items ≡ []) × (1 ≤ vec_capacity second.ends) }
{
    let bytes = workshop(alloc)?;
    let clerks = Vec::with_capacity(alloc, 2)?;
    match hall_on(alloc, bytes.as_slice(), 3) {
        Ok((hall, pass)) => Ok(over_hall(rt, alloc, hall, pass, tokens, first, second, clerks)),
        Err(fail) => {
            clerks.destroy_empty();
            Err(fail)
        }
    }
}

/// A gate that opens once another was gone through twice, and that other one, which opens once somebody stands before the first.
fn gates(alloc: Global) -> Result<(PatientGate, PatientGate), AllocError> {
    let ones = Arc::new(alloc, AtomicU64::new(0))?;
    let twos = Arc::new(alloc, AtomicU64::new(0))?;
    let first = PatientGate::new(Arc::try_clone(&ones)?, Arc::try_clone(&twos)?, 2);
    Ok((first, PatientGate::new(twos, ones, 1)))
}

/// A door to a link with these bytes.
fn door_to(alloc: Global, input: &str) -> Result<MemDoor, AllocError> {
    let source = MemSource::new(input.as_bytes().to_vec(alloc)?, 4096, Vec::new(alloc));
    let mut links = Vec::with_capacity(alloc, 1)?;
    links.push_reserved(MemLink::new(source, MemSink::new(alloc, Vec::new(alloc))));
    MemDoor::new(alloc, links, Vec::new(alloc))
}

/// A post behind a gate, with a link that has these bytes.
fn post_at(alloc: Global, gate: PatientGate, input: &str) -> Result<Post, AllocError>
    ensures { IfOk result (λ post. (post.ends.items ≡ []) × (1 ≤ vec_capacity post.ends)) }
{
    let door = Some(door_to(alloc, input)?);
    let ends = Vec::with_capacity(alloc, 1)?;
    Ok(Post { door, gate, ends })
}

impl Post {
    /// Whether its link was answered so, and its gate opened no sooner than it should.
    fn has_answer(&self, answer: &str) -> bool {
        let Some(door) = &self.door else {
            return false;
        };
        let Some(link) = door.ended().first() else {
            return false;
        };
        link.bytes() == answer.as_bytes() && !self.gate.gave_up
    }
}

/// A read of an object of lane 1, and two of one of lane 0.
static ASKED: [&str; 2] = [
    "GET /datasets/d-00000000-0001-8000-8000-010000000001/value?domain=/home/lab HTTP/1.1\r\nAuthorization: Bearer alice\r\n\r\n",
    "GET /datasets/d-00000000-0001-8000-8000-010000000002/value?domain=/home/lab HTTP/1.1\r\nAuthorization: Bearer alice\r\n\r\nGET /datasets/d-00000000-0001-8000-8000-010000000002/value?domain=/home/lab HTTP/1.1\r\nAuthorization: Bearer alice\r\n\r\n",
];

static ANSWERED: [&str; 2] = [
    "HTTP/1.1 200 OK\r\nContent-Type: application/json\r\nContent-Length: 19\r\n\r\n{\"value\":[0,0,0,0]}",
    "HTTP/1.1 200 OK\r\nContent-Type: application/json\r\nContent-Length: 35\r\n\r\n{\"value\":[[0,0],[0,0],[0,0],[0,0]]}HTTP/1.1 200 OK\r\nContent-Type: application/json\r\nContent-Length: 35\r\n\r\n{\"value\":[[0,0],[0,0],[0,0],[0,0]]}",
];

/// The posts of both links, each behind its gate.
fn both_posts(alloc: Global) -> Result<(Post, Post), AllocError>
    ensures first { IfOk result (λ posts. (posts.0.ends.items ≡ []) × (1 ≤ vec_capacity posts.0.ends)) }
    ensures second { IfOk result (λ posts. (posts.1.ends.items ≡ []) × (1 ≤ vec_capacity posts.1.ends)) }
{
    let (shut, open) = gates(alloc)?;
    let first = post_at(alloc, shut, ASKED[0])?;
    let second = post_at(alloc, open, ASKED[1])?;
    Ok((first, second))
}

/// Both links as they were left, the second first.
fn both_served<R: Threads + Wait + Sync>(rt: &R, alloc: Global) -> Result<Vec<Post>, Fail> {
    let tokens = tokens(alloc)?;
    let (first, second) = both_posts(alloc)?;
    served(rt, alloc, &tokens, first, second)
}

/// Whether these are both, the second first, and each link was answered as it should.
fn are_answered(posts: &[Post]) -> bool {
    for (post, answer) in posts.iter().zip([ANSWERED[1], ANSWERED[0]]) {
        if !post.has_answer(answer) {
            return false;
        }
    }
    posts.len() == 2
}

/// The first link reads an object of lane 1, behind a gate that stays shut until the second link asks again, so until its read of an
/// object of lane 0 was answered. And that is answered only once the first stands before its gate.
#[test]
fn a_lane_that_waits_holds_up_no_other(rt: HostRuntime) -> Result<(), Fail> {
    let posts = both_served(&rt, rt.alloc())?;
    assert!(rt; are_answered(posts.as_slice()));
    Ok(())
}
