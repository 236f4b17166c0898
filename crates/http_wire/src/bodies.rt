ghost use Rattle.std.specs.Prelude.{◌≡◌, ℕ, ◌<◌, ◌≤◌, length, take};
ghost use Rattle.edge_traits.specs.Causes.{Rose};
ghost use Rattle.http_wire.specs.Bodies.{IsFilled, IsBodyRead};
ghost use Rattle.http_wire.specs.declared.bodies.Filled.TheVariants as fill;
ghost use Rattle.http_wire.specs.declared.bodies.BodyRead.TheVariants as read;

use crate::line_read::read_behind;
use edge_traits::{Failed, Source};
use std::alloc::Global;

/// How far bytes were filled.
#[derive(Clone, Copy)]
pub enum Filled {
    Full,
    /// The input ended, with as many bytes filled.
    Cut(usize),
    /// The source had a fault, with as many bytes filled.
    Fault(usize),
}

/// A body that was read.
#[derive(Drop)]
pub enum BodyRead {
    Whole(Vec<u8>),
    /// The input ended after as many bytes of it.
    Cut(usize),
    Fault,
    NoMemory,
}

/// Reads a body of which some first bytes are there, straight into its place.
pub fn read_body<S: Source>(alloc: Global, source: &mut S, front: &[u8], size: usize) -> BodyRead
    requires { length front.now < size }
    ensures read { IsBodyRead (S.left source.old) (S.left source.new) front.now size result }
    ensures beside { S.beside source.new ≡ S.beside source.old }
    ensures names { S.names source.new ≡ S.names source.old }
    ensures later { S.faults source.old ≤ S.faults source.new }
    ensures fault { result ≡ read.Fault → Rose (S.faults source.old) (S.faults source.new) }
{
    let Ok(mut body) = vec![in alloc; 0; size] else {
        return BodyRead::NoMemory;
    };
    match fill_behind(source, &mut body, front) {
        Filled::Full => BodyRead::Whole(body),
        Filled::Cut(count) => BodyRead::Cut(count),
        Filled::Fault(_) => BodyRead::Fault,
    }
}

/// Puts some first bytes, and fills the rest from the source.
fn fill_behind<S: Source>(source: &mut S, bytes: &mut [u8], front: &[u8]) -> Filled
    requires { length front.now < length bytes.old }
    ensures stays { take (length front.now) bytes.new ≡ front.now }
    ensures filled { IsFilled (S.left source.old) (S.left source.new) (length front.now) bytes.new
        result }
    ensures beside { S.beside source.new ≡ S.beside source.old }
    ensures names { S.names source.new ≡ S.names source.old }
    ensures later { S.faults source.old ≤ S.faults source.new }
    ensures fault { (n : ℕ) → result ≡ fill.Fault n
        → Rose (S.faults source.old) (S.faults source.new) }
{
    let here = front.len();
    bytes[..here].copy_from_slice(front);
    fill_from(source, bytes, here)
}

/// Fills bytes from a place on.
fn fill_from<S: Source>(source: &mut S, bytes: &mut [u8], at: usize) -> Filled
    requires { at ≤ length bytes.old }
    ensures stays { take at bytes.new ≡ take at bytes.old }
    ensures filled { IsFilled (S.left source.old) (S.left source.new) at bytes.new result }
    ensures beside { S.beside source.new ≡ S.beside source.old }
    ensures names { S.names source.new ≡ S.names source.old }
    ensures later { S.faults source.old ≤ S.faults source.new }
    ensures fault { (n : ℕ) → result ≡ fill.Fault n
        → Rose (S.faults source.old) (S.faults source.new) }
{
    let mut end = at;
    'pieces: while end < bytes.len() {
        match read_behind(source, bytes, end) {
            Err(Failed) => return Filled::Fault(end),
            Ok(0) => return Filled::Cut(end),
            Ok(count) => end += count,
        }
    }
    Filled::Full
}
