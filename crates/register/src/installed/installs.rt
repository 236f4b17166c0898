//! A walk over records that installs the register.

ghost use Rattle.std.specs.Prelude.{◌≡◌, ◌≢◌, ◌↔◌, ℕ, List, Some, IfOk, IfErr, IsTrue};
ghost use Rattle.std.specs.declared.cmp.Ordering.TheVariants.{Less};
ghost use Rattle.containers.specs.TextMaps.Keyed.{text_order};
ghost use Rattle.std.specs.FinMap.{get};
ghost use Rattle.object_ids.specs.Paths.{root_path};
ghost use Rattle.domains.specs.declared.classes.NodeClass.TheVariants.{Folder};
ghost use Rattle.object_records.specs.Keys.Keys.{node_key};
ghost use Rattle.object_records.specs.InstallFaults.{MatchFault};
ghost use Rattle.containers.specs.TextMaps.Fronts.{IsLeast};
ghost use Rattle.register.specs.Installed.Registers.{DescribesRegister, IsNodeRecord, IsRegisterFault, IsRun};
ghost use Rattle.register.specs.Installed.Registers.{class_at, node_at};
ghost use Rattle.register.specs.Installed.Walks.{Blames, IsFirst, IsNextOf, is_past_nodes};

use crate::installed::faults::fault_at;
use crate::installed::nodes::{begin, install_record, read_root};
use crate::installed::numbers::{next_of, run_of};
use domains::Catalogue;
use domains::records::NodeFault;
use flush_journal::Recovered;
use object_ids::IdMap;
use object_records::InstallFault;
use object_records::keys::{next_key, run_key};
use std::alloc::{AllocError, Global};

/// The kept run, and the catalogue with the number that the next domain takes.
#[derive(Drop)]
pub struct KeptRegister {
    pub run: u32,
    pub catalogue: Catalogue,
}

/// The register that records describe.
///
/// # Errors
///
/// `BadRecord` with the least key of the register whose record is missing or can't stand; or `NoMemory`.
pub fn install(alloc: Global, kept: &Recovered) -> Result<KeptRegister, InstallFault>
    ensures described { IfOk result (λ r. DescribesRegister kept.now r.run r.catalogue) }
    ensures fault { IfErr result (λ e. MatchFault e (IsLeast (IsRegisterFault kept.now))) }
{
    let Some(run) = run_of(kept) else {
        return Err(fault_at(alloc, &run_key(), NodeFault::BadNode));
    };
    let next = next_of(kept);
    let mut catalogue = install_nodes(alloc, kept, run, next)?;
    let Some(next) = next else {
        return Err(fault_at(alloc, &next_key(), NodeFault::BadNode));
    };
    catalogue.set_next(next);
    Ok(KeptRegister { run, catalogue })
}

// The folders and domains of the records.
fn install_nodes(
    alloc: Global,
    kept: &Recovered,
    run: u32,
    next: Option<u64>,
) -> Result<Catalogue, InstallFault>
    requires run { IsRun kept.now run }
    requires next { IsNextOf kept.now next }
    ensures nodes { IfOk result (λ c. (path : List ℕ) → get c.nodes path ≡ node_at kept.now path) }
    ensures root { IfOk result (λ _. class_at kept.now root_path ≡ Some Folder) }
    ensures rules { IfOk result (λ _. (path body : List ℕ) → get kept.now (node_key path) ≡ Some body
        → IsNodeRecord kept.now path body) }
    ensures fault { IfErr result (λ e. MatchFault e (IsLeast (IsRegisterFault kept.now))) }
{
    let root = match read_root(alloc, kept) {
        Ok(root) => root,
        Err(fault) => return Err(first_fault(alloc, kept, fault)),
    };
    let mut catalogue = match begin(alloc, root) {
        Ok(catalogue) => catalogue,
        Err(AllocError) => return Err(InstallFault::NoMemory),
    };
    let mut roots = IdMap::new(alloc);
    let records = kept.as_tree();
    for (key, body) in records {
        let key = key.as_slice();
        if is_past_nodes(key) {
            return Ok(catalogue);
        }
        let installed = install_record(
            alloc,
            run,
            next,
            &mut catalogue,
            &mut roots,
            key,
            body.bytes(),
        );
        if let Err(fault) = installed {
            return Err(fault_at(alloc, key, fault));
        }
    }
    Ok(catalogue)
}

// Whether no key behind it is a node's: so the walk ends at the first object, and passes by no chunk.
fn is_past_nodes(key: &[u8]) -> bool
    ensures { result ≡ is_past_nodes key.now }
{
    match key {
        [byte, ..] => *byte > 2,
        [] => false,
    }
}

// The least key at fault where no folder stands at `/`: one before its key that is no path's, or its own.
fn first_fault(alloc: Global, kept: &Recovered, fault: NodeFault) -> InstallFault
    requires root { Blames fault (class_at kept.now root_path ≢ Some Folder) }
    ensures { (run : ℕ) → IsRun kept.now run
        → MatchFault result (IsLeast (IsRegisterFault kept.now)) }
{
    fault_at(alloc, first_key(kept), fault)
}

// The least key behind that of the run up to that of `/`, whether there is one of `/` or not.
fn first_key(kept: &Recovered) -> &[u8]
    ensures { IsFirst kept.now result.now }
{
    if kept.get(&[2]).is_some() {
        return &[2];
    }
    let Some(key) = kept.next_key(Some(&[2])) else {
        return &[2, 47];
    };
    if is_before(key, &[2, 47]) {
        key
    } else {
        &[2, 47]
    }
}

fn is_before(key: &[u8], other: &[u8]) -> bool
    ensures { IsTrue result ↔ (text_order key.now other.now ≡ Less) }
{
    key < other
}
