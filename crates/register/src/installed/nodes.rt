//! The folders and domains that records tell, one at a time.

ghost use Rattle.std.specs.Prelude.{◌≡◌, ◌≢◌, ◌∷◌, ℕ, List, Option, Some, None, IfOk, IfErr, OnOk, IsTrue, ◌↔◌};
ghost use Rattle.std.specs.FinMap.{get, len};
ghost use Rattle.flush_journal.specs.Records.{Held, Record};
ghost use Rattle.object_ids.specs.Paths.{path_of, root_path};
ghost use Rattle.domains.specs.declared.classes.NodeClass.TheVariants.{Folder};
ghost use Rattle.domains.specs.Records.Nodes.{IsKeptNode};
ghost use Rattle.object_records.specs.Keys.Keys.{IsPath};
ghost use Rattle.register.specs.Installed.Registers.{IsNodeRecord, IsRun, class_at, is_node_key, node_at};
ghost use Rattle.register.specs.Installed.Walks.{AreRoots, Blames, IsNextOf, IsNodeWalk, NoPut, PutsNode};
ghost use Rattle.register.specs.Installed.Walks.{IsBadNode};

use crate::installed::numbers::{may_stand, put_root};
use domains::records::{NodeFault, read_node};
use domains::{Catalogue, Node, NodeClass};
use flush_journal::Recovered;
use object_ids::{DomainPath, IdMap, ObjectId, PathFault, read_path};
use object_records::keys::node_at;
use std::alloc::{AllocError, Global};

// The node of `/`, where a folder stands there.
pub(crate) fn read_root(alloc: Global, kept: &Recovered) -> Result<Node, NodeFault>
    ensures reads { IfOk result (λ node. node_at kept.now root_path ≡ Some node) }
    ensures class { IfOk result (λ node. node.class ≡ Folder) }
    ensures kept { IfOk result IsKeptNode }
    ensures bad { IfErr result (λ e. Blames e (class_at kept.now root_path ≢ Some Folder)) }
{
    let Some(body) = kept.get(&[2, 47]) else {
        return Err(NodeFault::BadNode);
    };
    let node = read_node(alloc, body)?;
    if node.class == NodeClass::Folder {
        Ok(node)
    } else {
        Err(NodeFault::BadNode)
    }
}

// The catalogue of a root.
pub(crate) fn begin(alloc: Global, root: Node) -> Result<Catalogue, AllocError>
    requires class { root.class ≡ Folder }
    ensures root { IfOk result (λ c. get c.nodes root_path ≡ Some root) }
    ensures others { IfOk result (λ c. (path : List ℕ) → path ≢ root_path → get c.nodes path ≡ None) }
    ensures one { IfOk result (λ c. len c.nodes ≡ 1) }
{
    let path = path_at(alloc, "/")?;
    let mut catalogue = Catalogue::new(alloc, root.owner.copy()?)?;
    catalogue.put_node(&path, root)?;
    Ok(catalogue)
}

// Installs what a record tells, where it is that of a node.
pub(crate) fn install_record(
    alloc: Global,
    run: u32,
    next: Option<u64>,
    catalogue: &mut Catalogue,
    roots: &mut IdMap<ObjectId>,
    key: &[u8],
    body: &[u8],
) -> Result<(), NodeFault>
    requires { AreRoots catalogue.old roots.old }
    ensures done { OnOk result ((held : Held) (rest : List Record)
        → IsRun held run → IsNextOf held next → class_at held root_path ≡ Some Folder
        → IsNodeWalk held ((key.now, body.now) ∷ rest) catalogue.old roots.old
        → IsNodeWalk held rest catalogue.new roots.new) }
    ensures bad { IfErr result (λ e. (held : Held) (rest : List Record)
        → IsRun held run → IsNextOf held next → class_at held root_path ≡ Some Folder
        → IsNodeWalk held ((key.now, body.now) ∷ rest) catalogue.old roots.old
        → Blames e (IsBadNode held key.now body.now)) }
{
    if !is_node_key(key) {
        return Ok(());
    }
    let Some(path) = node_at(key) else {
        return Err(NodeFault::BadNode);
    };
    if path == "/" {
        let _most = catalogue.nodes();
        return Ok(());
    }
    install_node(alloc, run, next, catalogue, roots, path, body)
}

fn is_node_key(key: &[u8]) -> bool
    ensures { result ≡ is_node_key key.now }
{
    matches!(key, [2, ..])
}

// Installs the node of a path.
fn install_node(
    alloc: Global,
    run: u32,
    next: Option<u64>,
    catalogue: &mut Catalogue,
    roots: &mut IdMap<ObjectId>,
    path: &str,
    body: &[u8],
) -> Result<(), NodeFault>
    requires path { IsPath path.now }
    requires roots { AreRoots catalogue.old roots.old }
    ensures ok { OnOk result (PutsNode run next path.now body.now catalogue.old roots.old catalogue.new roots.new) }
    ensures bad { IfErr result (λ e. Blames e (NoPut run next path.now body.now catalogue.old roots.old)) }
{
    let node = read_node(alloc, body)?;
    if !may_stand(run, next, roots, node.class) {
        return Err(NodeFault::BadNode);
    }
    let path = path_at(alloc, path)?;
    if !catalogue.has_place(&path) {
        return Err(NodeFault::BadNode);
    }
    put_root(roots, node.class)?;
    catalogue.put_node(&path, node)?;
    Ok(())
}

// The path that a text is.
fn path_at(alloc: Global, text: &str) -> Result<DomainPath, AllocError>
    requires { path_of text.now ≡ Some text.now }
    ensures { IfOk result (λ path. path ≡ text.now) }
{
    match read_path(alloc, text) {
        Ok(path) => Ok(path),
        Err(PathFault::NoMemory) => Err(AllocError),
        Err(PathFault::BadPath) => unreachable!(),
    }
}
