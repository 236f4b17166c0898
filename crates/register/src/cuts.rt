//! The records that a cut of a register appends.

ghost use Rattle.std.specs.Prelude.{◌≡◌, ◌<◌, ◌++◌, ℕ, List, Some, IsSome, true, false, length, string_bytes, IfOk, OnOk, OnErr};
ghost use Rattle.std.specs.FinMap.{get};
ghost use Rattle.flush_journal.specs.Batches.{records};
ghost use Rattle.object_ids.specs.Paths.{path_of};
ghost use Rattle.register.specs.Cutting.{AddsAllNodes, AddsNode, AddsNodes, AddsNumbers, AddsOne};
ghost use Rattle.register.specs.Cutting.{AddsRegister, AddsWanted, IsNodeBody};
ghost use Rattle.register.specs.Cutting.{is_key_wanted, is_of_all, is_of_paths, is_wanted};
ghost use Rattle.register.specs.Kept.{AddsInTurn, numbers_marked};
ghost use Rattle.object_records.specs.Keys.Keys.{next_key, node_key, run_key};
ghost use Rattle.object_records.specs.Keys.Numbers.{next_bytes, run_bytes};

use crate::marks::Marks;
use containers::text_maps::TextMap;
use domains::records::node_text;
use domains::{Catalogue, nodes_of_catalogues};
use flush_journal::Batch;
use flush_journal::cuts::add_record;
use object_ids::{PathFault, read_path};
use object_records::keys::{next_body, next_key, node_key, run_body, run_key};
use std::alloc::{AllocError, Global};

/// Appends the records that are marked; an error leaves the batch as it was.
pub(crate) fn append_whole(
    alloc: Global,
    run: u32,
    catalogue: &Catalogue,
    marks: &Marks,
    into: &mut Batch,
) -> Result<(), AllocError>
    ensures ok { OnOk result (AddsRegister run catalogue.now marks.now true
        (records into.old) (records into.new)) }
    ensures order { OnOk result (AddsInTurn run catalogue.now marks.now
        (records into.old) (records into.new)) }
    ensures err { OnErr result (records into.new ≡ records into.old) }
{
    let size = into.size();
    match append_records(alloc, run, catalogue, marks, into) {
        Ok(()) => Ok(()),
        Err(error) => {
            into.truncate(size);
            Err(error)
        }
    }
}

// Those of the run, of the next domain's number, and of nodes.
fn append_records(
    alloc: Global,
    run: u32,
    catalogue: &Catalogue,
    marks: &Marks,
    into: &mut Batch,
) -> Result<(), AllocError>
    ensures ok { OnOk result (AddsRegister run catalogue.now marks.now true
        (records into.old) (records into.new)) }
    ensures order { OnOk result (AddsInTurn run catalogue.now marks.now
        (records into.old) (records into.new)) }
    ensures err { OnErr result (AddsRegister run catalogue.now marks.now false
        (records into.old) (records into.new)) }
{
    append_numbers(run, catalogue, marks, into)?;
    append_nodes(alloc, catalogue, marks, into)
}

// Those of the run and of the next domain's number.
fn append_numbers(
    run: u32,
    catalogue: &Catalogue,
    marks: &Marks,
    into: &mut Batch,
) -> Result<(), AllocError>
    ensures ok { OnOk result (AddsNumbers run catalogue.now marks.now true
        (records into.old) (records into.new)) }
    ensures order { OnOk result (records into.new
        ≡ records into.old ++ numbers_marked run catalogue.now marks.now) }
    ensures err { OnErr result (AddsNumbers run catalogue.now marks.now false
        (records into.old) (records into.new)) }
{
    append_one(marks.has_run(), &run_key(), &run_body(run), into)?;
    append_one(
        marks.has_next(),
        &next_key(),
        &next_body(catalogue.next_number()),
        into,
    )
}

// A record, where it is due.
fn append_one(is_due: bool, key: &[u8], body: &[u8], into: &mut Batch) -> Result<(), AllocError>
    requires some { 0 < length key.now }
    requires short { length key.now < 65536 }
    ensures ok { OnOk result (AddsOne is_due key.now body.now true
        (records into.old) (records into.new)) }
    ensures err { OnErr result (AddsOne is_due key.now body.now false
        (records into.old) (records into.new)) }
{
    if is_due {
        return add_record(into, key, body);
    }
    Ok(())
}

// Those of all nodes where all are marked, and of marked paths.
fn append_nodes(
    alloc: Global,
    catalogue: &Catalogue,
    marks: &Marks,
    into: &mut Batch,
) -> Result<(), AllocError>
    ensures ok { OnOk result (AddsAllNodes catalogue.now marks.now true
        (records into.old) (records into.new)) }
    ensures err { OnErr result (AddsAllNodes catalogue.now marks.now false
        (records into.old) (records into.new)) }
{
    append_all(alloc, catalogue, marks, into)?;
    append_marked(alloc, catalogue, marks, into)
}

fn append_all(
    alloc: Global,
    catalogue: &Catalogue,
    marks: &Marks,
    into: &mut Batch,
) -> Result<(), AllocError>
    ensures ok { OnOk result (AddsNodes catalogue.now (is_of_all catalogue.now marks.now) true
        (records into.old) (records into.new)) }
    ensures err { OnErr result (AddsNodes catalogue.now (is_of_all catalogue.now marks.now) false
        (records into.old) (records into.new)) }
{
    if !marks.has_all() {
        return Ok(());
    }
    append_paths(alloc, catalogue, catalogue.as_map(), false, into)
}

fn append_marked(
    alloc: Global,
    catalogue: &Catalogue,
    marks: &Marks,
    into: &mut Batch,
) -> Result<(), AllocError>
    ensures ok { OnOk result (AddsNodes catalogue.now (is_of_paths catalogue.now marks.now) true
        (records into.old) (records into.new)) }
    ensures err { OnErr result (AddsNodes catalogue.now (is_of_paths catalogue.now marks.now) false
        (records into.old) (records into.new)) }
{
    append_paths(alloc, catalogue, marks.paths(), marks.has_all(), into)
}

// Those of the paths that a map has, or of those where no node stands, in the order of the paths' bytes.
fn append_paths<V>(
    alloc: Global,
    catalogue: &Catalogue,
    keys: &TextMap<V>,
    missing: bool,
    into: &mut Batch,
) -> Result<(), AllocError>
    requires { (path : List ℕ) → IsSome (get keys.now path) → path_of path ≡ Some path }
    ensures ok { OnOk result (AddsNodes catalogue.now (is_key_wanted catalogue.now keys.now missing) true
        (records into.old) (records into.new)) }
    ensures err { OnErr result (AddsNodes catalogue.now (is_key_wanted catalogue.now keys.now missing) false
        (records into.old) (records into.new)) }
{
    let mut last = None;
    while let Some((path, _)) = keys.next_key(last) {
        append_wanted(alloc, catalogue, missing, path, into)?;
        last = Some(path);
    }
    Ok(())
}

// That of a path, where it is wanted.
fn append_wanted(
    alloc: Global,
    catalogue: &Catalogue,
    missing: bool,
    path: &str,
    into: &mut Batch,
) -> Result<(), AllocError>
    requires { path_of path.now ≡ Some path.now }
    ensures ok { OnOk result (AddsWanted (is_wanted catalogue.now missing path.now) catalogue.now path.now
        (records into.old) (records into.new)) }
    ensures err { OnErr result (records into.new ≡ records into.old) }
{
    if is_wanted(catalogue, missing, path) {
        return append_node(alloc, catalogue, path, into);
    }
    Ok(())
}

fn is_wanted(catalogue: &Catalogue, missing: bool, path: &str) -> bool
    ensures { result ≡ is_wanted catalogue.now missing path.now }
{
    !(missing && catalogue.as_map().contains_key(path))
}

// That of a path: the text of the node, or nothing where none stands.
fn append_node(
    alloc: Global,
    catalogue: &Catalogue,
    path: &str,
    into: &mut Batch,
) -> Result<(), AllocError>
    requires { path_of path.now ≡ Some path.now }
    ensures ok { OnOk result (AddsNode catalogue.now path.now (records into.old) (records into.new)) }
    ensures err { OnErr result (records into.new ≡ records into.old) }
{
    let body = node_body(alloc, catalogue, path)?;
    let key = key_of_path(alloc, path)?;
    add_record(into, key.as_slice(), body.as_bytes())
}

// The key of the record of a path.
fn key_of_path(alloc: Global, path: &str) -> Result<Vec<u8>, AllocError>
    requires { path_of path.now ≡ Some path.now }
    ensures { IfOk result (λ key. key.items ≡ node_key path.now) }
{
    match read_path(alloc, path) {
        Ok(path) => node_key(alloc, &path),
        Err(PathFault::NoMemory) => Err(AllocError),
        Err(PathFault::BadPath) => unreachable!(),
    }
}

// The body of the record of a path.
fn node_body(alloc: Global, catalogue: &Catalogue, path: &str) -> Result<String, AllocError>
    ensures { IfOk result (λ text. IsNodeBody (get catalogue.now.nodes path.now) (string_bytes text)) }
{
    nodes_of_catalogues();
    match catalogue.find_text(path) {
        Some(node) => node_text(alloc, node),
        None => Ok(String::new(alloc)),
    }
}
