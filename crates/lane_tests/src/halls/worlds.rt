//! Worlds with which halls begin.

ghost use Rattle.std.specs.Prelude.{◌≤◌, IfOk};
ghost use Rattle.hall.specs.Passes.{HasBegun};
ghost use Rattle.service_core.specs.Worlds.{State};

use crate::openings::{begun_world, disk_of, made_by};
use edge_traits::MemDisk;
use hall::{Hall, JournalDesk, Pass};
use std::alloc::Global;
use std::test::Fail;

/// What makes the folder and the domain of the laboratory, with its list: alice has all rights, carol none, the group
/// `lab` reads, and `ops` updates; and a dataset in each lane.
const WORKSHOP: &str = r#"|alice|/home|PUT|/|{"folder":true}
|alice|/home/lab|PUT|/|
|alice|/home/lab|PUT|/acls/carol|{}
|alice|/home/lab|PUT|/acls/g:lab|{"read":true}
|alice|/home/lab|PUT|/acls/g:ops|{"update":true}
|alice|/home/lab|POST|/datasets|{"type":"H5T_STD_I32LE","shape":[4]}
|alice|/home/lab|POST|/datasets|{"type":"H5T_STD_I8LE","shape":[4,2],"maxdims":[0,2]}"#;

/// The desk of a journal in memory.
pub(crate) type MemDesk = JournalDesk<MemDisk>;

/// The bytes of a journal that holds the laboratory with its datasets.
pub(crate) fn workshop(alloc: Global) -> Result<Vec<u8>, Fail> {
    made_by(alloc, WORKSHOP)
}

/// A hall over the world that a journal of these bytes holds, in run 2, for so many passes, with the first of them.
pub(crate) fn hall_on(
    alloc: Global,
    bytes: &[u8],
    passes: u32,
) -> Result<(Hall<MemDesk>, Pass<MemDesk>), Fail>
    requires { 1 ≤ passes }
    ensures { IfOk result (λ begun. (s : State) × HasBegun begun.0 begun.1 s passes) }
{
    let (world, journal) = begun_world(alloc, disk_of(alloc, bytes, Vec::new(alloc))?)?;
    let (world, desk) = JournalDesk::begin(alloc, world, journal);
    match Hall::begin(alloc, world, desk, passes) {
        Ok(begun) => Ok(begun),
        Err(_) => Err(Fail::from("no memory for a hall")),
    }
}
