ghost use Rattle.std.specs.Prelude.{◌≡◌, ◌≢◌, ◌≤◌, ◌<◌, ◌^◌, ◌↔◌, ℕ, List, count_by};
ghost use Rattle.std.specs.Prelude.{Err, OnOk, OnErr, IfOk, IsTrue};
ghost use Rattle.std.specs.FinMap as map;
ghost use Rattle.std.specs.Option.{option_copied};
ghost use Rattle.serde_json.specs.View.{view};
ghost use Rattle.object_ids.specs.IdValues.{Id};
ghost use Rattle.domains.specs.declared.classes.NodeClass.{NodeClass};
ghost use Rattle.domains.specs.Changes.{Blames, children_fault, domain_count, domain_fault};
ghost use Rattle.domains.specs.Changes.{entry_fault, entry_put, folder_count, is_folder_node};
ghost use Rattle.domains.specs.Changes.{list_fault, make_fault, new_domain, new_node, node_fault};
ghost use Rattle.domains.specs.Changes.{node_with, remove_fault, root_of, with_entry, without_node};
ghost use Rattle.domains.specs.Children.{has_children};
ghost use Rattle.domains.specs.NodeTrees.{children_tree};
ghost use Rattle.domains.specs.Contents.{HasChildren, HasRoot, IsCatalogue, IsDomainAt, IsFolderAt};
ghost use Rattle.domains.specs.Contents.{IsFree, IsNumberFree, IsPlace, MayStandAt, NumberFits};
ghost use Rattle.domains.specs.Contents.{most_nodes, only_root, raised, with_node};

use crate::children::{child_list, has_child};
use crate::classes::{Node, NodeClass};
use crate::faults::CatFault;
use access_lists::{AccessList, ListFault, Rights};
use containers::text_maps::TextMap;
use object_ids::{DomainPath, Kind, LimitKind, Name, ObjectId};
use serde_json::Value;
use std::alloc::{AllocError, Global};
use std::collections::BTreeMap;
use std::marker::Model;

/// The most nodes of a catalogue.
pub const MAX_NODES: u64 = 65_536;

/// The numbers of domains are below this one.
pub const NUMBER_LIMIT: u64 = 0x1_0000_0000_0000;

/// All folders and domains by their paths, and the number that the next domain gets. The folder `/` is always there,
/// and each other node stands in a folder.
#[derive(Drop)]
pub struct Catalogue {
    alloc: Global,
    nodes: TextMap<Node>,
    next: u64,
}

impl Model for Catalogue {
    ghost use Rattle.std.specs.Prelude.{ℕ, refl};
    ghost use Rattle.std.specs.FinMap as map;
    ghost use Rattle.std.specs.Coded.{code_by, coded×, coded_list, coded_ℕ};
    ghost use Rattle.containers.specs.TextMaps.Keyed.{text_order};
    ghost use Rattle.domains.specs.contracts.classes.Node as node;
    ghost use Rattle.domains.specs.declared.classes.Node.{Node};
    ghost use Rattle.domains.specs.Contents.{Contents, IsCatalogue};

    ghost Value = { Contents };

    ghost coded = { code_by (map.FinMap text_order Node × ℕ)
        (coded× (map.code (coded_list coded_ℕ) node.the_row.coded) coded_ℕ)
        (λ c. (c.nodes, c.next)) (λ p. record { nodes = p.0; next = p.1 }) (λ _. refl) };

    ghost view = { λ a. record { nodes = a.nodes; next = a.next } };

    ghost invariant = { λ a. IsCatalogue (record { nodes = a.nodes; next = a.next }) };
}

impl Catalogue {
    /// The folder `/` alone, which has this owner and an empty access list. The next domain's number is 1.
    pub fn new(alloc: Global, owner: Name) -> Result<Catalogue, AllocError>
        ensures { IfOk result (λ catalogue. catalogue ≡ only_root (record { class = NodeClass.Folder; owner = owner; list = map.empty })) }
    {
        let root = Node {
            class: NodeClass::Folder,
            owner,
            list: AccessList::new(alloc),
        };
        let mut nodes = TextMap::new(alloc);
        nodes.put_copy("/", root)?;
        Ok(Catalogue {
            alloc,
            nodes,
            next: 1,
        })
    }

    /// The number of the next domain, which is above that of each domain.
    pub fn next_number(&self) -> u64
        ensures value { result ≡ self.now.next }
        ensures free { (path : List ℕ) → IsFree self.now path result }
        ensures most { result ≤ 2 ^ 48 }
        ensures valid { IsCatalogue self.now }
    {
        self.next
    }

    /// How many nodes there are.
    pub fn nodes(&self) -> u64
        ensures value { result ≡ map.len self.now.nodes }
        ensures most { result ≤ most_nodes }
    {
        self.nodes.len() as u64
    }

    /// How many folders there are.
    pub fn folders(&self) -> u64
        ensures { result ≡ folder_count self.now }
    {
        count_folders(self.nodes.as_tree()) as u64
    }

    /// How many domains there are.
    pub fn domains(&self) -> u64
        ensures value { result ≡ domain_count self.now }
        ensures most { result ≤ most_nodes }
    {
        self.nodes() - self.folders()
    }

    /// All nodes by their paths.
    pub fn as_map(&self) -> &TextMap<Node>
        ensures value { result.now ≡ self.now.nodes }
        ensures valid { IsCatalogue self.now }
    {
        &self.nodes
    }

    /// The node at a path.
    pub fn find(&self, path: &DomainPath) -> Option<&Node>
        ensures value { option_copied result ≡ map.get self.now.nodes path.now }
        ensures valid { IsCatalogue self.now }
    {
        self.nodes.get(path.text())
    }

    /// The node whose path has this text as it stands. Takes no memory.
    pub fn find_text(&self, path: &str) -> Option<&Node>
        ensures value { option_copied result ≡ map.get self.now.nodes path.now }
        ensures valid { IsCatalogue self.now }
    {
        self.nodes.get(path)
    }

    /// Whether a folder stands at the path that this text is. Takes no memory.
    pub fn is_folder(&self, path: &str) -> bool
        ensures { IsTrue result ↔ IsFolderAt self.now path.now }
    {
        match self.find_text(path) {
            Some(node) => node.class == NodeClass::Folder,
            None => false,
        }
    }

    /// Whether a node may be added at a path: none stands there, a folder stands at the parent, and there is room.
    pub fn has_place(&self, path: &DomainPath) -> bool
        ensures exact { IsTrue result ↔ IsPlace self.now path.now }

        // What `put_node` asks at such a path.
        ensures place { IsPlace self.now path.now → (class : NodeClass) → MayStandAt self.now path.now class }
        ensures children { IsPlace self.now path.now → ¬ (HasChildren self.now path.now) }
    {
        if self.find(path).is_some() {
            return false;
        }
        if self.nodes() >= MAX_NODES {
            return false;
        }
        self.is_folder(path.parent_text())
    }

    /// Puts a node at a path, in place of any that is there, and raises the next number above the node's. An error
    /// leaves the catalogue as it was, and comes only where the path is new.
    ///
    /// The node at `/` is a folder, and any other stands in a folder. There is room for one more node. A folder with
    /// children stays a folder. A domain's number is below 2^48 and no other path's, and its root is the id of a group
    /// of that number.
    pub fn put_node(&mut self, path: &DomainPath, node: Node) -> Result<(), AllocError>
        requires place { MayStandAt self.old path.now node.class }
        requires room { map.len self.old.nodes < most_nodes }
        requires children { HasChildren self.old path.now → node.class ≡ NodeClass.Folder }
        requires fits { NumberFits node.class }
        requires free { IsNumberFree self.old path.now node.class }
        requires root { HasRoot node.class }
        ensures ok { OnOk result (self.new ≡ with_node self.old path.now node) }
        ensures err { OnErr result (self.new ≡ self.old) }
        ensures absent { OnErr result (map.get self.old.nodes path.now ≡ None) }
    {
        let next = raised(self.next, node.class);
        self.nodes.put_copy(path.text(), node)?;
        self.next = next;
        Ok(())
    }

    /// Makes a folder, in whose list the owner has all six rights.
    ///
    /// # Errors
    ///
    /// In this order: `NoFolder` where no folder stands at the parent, `Taken` where a node stands at the path, and
    /// `Limit` where there are 65,536 nodes. After an error the catalogue is as it was.
    pub fn make_folder(&mut self, path: &DomainPath, owner: &Name) -> Result<(), CatFault>
        ensures ok { OnOk result
            (self.new ≡ with_node self.old path.now (new_node NodeClass.Folder owner.now)) }
        ensures err { OnErr result (self.new ≡ self.old) }
        ensures why { Blames result (make_fault self.old path.now) }
    {
        self.may_make(path)?;
        let node = new_node(self.alloc, NodeClass::Folder, owner)?;
        self.put_node(path, node)?;
        Ok(())
    }

    /// Makes a domain, in whose list the owner has all six rights. It gets the next number, and its root is the id of a
    /// group of this number, run and serial. The next number then rises.
    ///
    /// # Errors
    ///
    /// Those of `make_folder`, and then `Limit` where the number 2^48 - 1 was used. After an error the catalogue is as
    /// it was.
    pub fn make_domain(
        &mut self,
        path: &DomainPath,
        owner: &Name,
        run: u32,
        serial: u64,
    ) -> Result<ObjectId, CatFault>
        requires run { run < 2 ^ 22 }
        requires serial { serial < 2 ^ 40 }
        ensures ok { OnOk result
            (self.new ≡ with_node self.old path.now (new_domain self.old.next run serial owner.now)) }
        ensures root { IfOk result (λ root. root ≡ root_of self.old.next run serial) }
        ensures err { OnErr result (self.new ≡ self.old) }
        ensures why { Blames result (domain_fault self.old path.now) }
    {
        self.may_make(path)?;
        let number = self.next_number();
        if number >= NUMBER_LIMIT {
            return Err(CatFault::Limit {
                what: LimitKind::Domain,
            });
        }
        let root = ObjectId {
            kind: Kind::Group,
            domain: number,
            run,
            serial,
        };
        let node = new_node(self.alloc, NodeClass::Domain { number, root }, owner)?;
        self.put_node(path, node)?;
        Ok(root)
    }

    /// The number of a domain that is made at a path. Takes no memory.
    ///
    /// # Errors
    ///
    /// Those of `make_domain` but want of memory.
    pub fn domain_number(&self, path: &DomainPath) -> Result<u64, CatFault>
        ensures number { IfOk result (λ number. number ≡ self.now.next) }
        ensures fits { IfOk result (λ number. number < 2 ^ 48) }
        ensures why { Blames result (domain_fault self.now path.now) }
        ensures memory { result ≢ Err CatFault.NoMemory }
    {
        self.may_make(path)?;
        let next = self.next_number();
        if next >= NUMBER_LIMIT {
            return Err(CatFault::Limit {
                what: LimitKind::Domain,
            });
        }
        Ok(next)
    }

    // Whether a node may be made at a path.
    fn may_make(&self, path: &DomainPath) -> Result<(), CatFault>
        ensures why { Blames result (make_fault self.now path.now) }
        ensures memory { result ≢ Err CatFault.NoMemory }
        ensures place { OnOk result (IsPlace self.now path.now) }
        ensures may { OnOk result ((class : NodeClass) → MayStandAt self.now path.now class) }
        ensures children { OnOk result (¬ (HasChildren self.now path.now)) }
    {
        if !self.is_folder(path.parent_text()) {
            return Err(CatFault::NoFolder);
        }
        if self.find(path).is_some() {
            return Err(CatFault::Taken);
        }
        if self.nodes() >= MAX_NODES {
            return Err(CatFault::Limit {
                what: LimitKind::Nodes,
            });
        }
        Ok(())
    }

    /// Removes a node. Takes no memory.
    ///
    /// # Errors
    ///
    /// In this order: `NoDomain` where no node stands at the path, `NotEmpty` where the node has children, and `Root` where
    /// the path is `/`. After an error the catalogue is as it was.
    pub fn remove(&mut self, path: &DomainPath) -> Result<(), CatFault>
        ensures ok { OnOk result (self.new ≡ without_node self.old path.now) }
        ensures err { OnErr result (self.new ≡ self.old) }
        ensures why { Blames result (remove_fault self.old path.now) }
        ensures memory { result ≢ Err CatFault.NoMemory }
    {
        if !self.nodes.contains_key(path.text()) {
            return Err(CatFault::NoDomain);
        }
        if self.has_children(path.text()) {
            return Err(CatFault::NotEmpty);
        }
        if path.text() == "/" {
            return Err(CatFault::Root);
        }
        let _ = self.nodes.remove(path.text());
        Ok(())
    }

    // Whether a node stands right below a path.
    fn has_children(&self, path: &str) -> bool
        ensures { result ≡ has_children self.now path.now }
    {
        has_child(&self.nodes, path)
    }

    /// The nodes right below a folder, in the order of their paths' bytes, as a list of objects with the keys `class`,
    /// `name`, which is the path, and `owner`.
    ///
    /// # Errors
    ///
    /// `NoFolder` where no folder stands at the path.
    pub fn children(&self, alloc: Global, path: &DomainPath) -> Result<Value, CatFault>
        ensures ok { IfOk result (λ tree. view tree ≡ children_tree self.now path.now) }
        ensures why { Blames result (children_fault self.now path.now) }
    {
        if !self.is_folder(path.text()) {
            return Err(CatFault::NoFolder);
        }
        let list = child_list(alloc, &self.nodes, path.text())?;
        Ok(Value::Array(list))
    }

    /// Puts an entry into the list of a node, in place of any of that name.
    ///
    /// # Errors
    ///
    /// In this order: `NoDomain` where no node stands at the path, and `Limit` where the name is new and the list has
    /// 1,024 entries. After an error the catalogue is as it was.
    pub fn set_entry(
        &mut self,
        path: &DomainPath,
        name: &Name,
        rights: Rights,
    ) -> Result<(), CatFault>
        ensures ok { OnOk result (self.new ≡ with_entry self.old path.now name.now rights) }
        ensures err { OnErr result (self.new ≡ self.old) }
        ensures why { Blames result (entry_fault self.old path.now name.now) }
    {
        put_entry_at(&mut self.nodes, path.text(), name, rights)
    }

    /// Sets the number of the next domain, which is above that of each domain, and at most 2^48.
    pub fn set_next(&mut self, next: u64)
        requires above { (path : List ℕ) (number : ℕ) (root : Id)
            → IsDomainAt self.old path number root → number < next }
        requires fits { next ≤ 2 ^ 48 }
        ensures { self.new ≡ record self.old { next = next } }
    {
        self.next = next;
    }
}

// How many of some nodes are folders.
fn count_folders(nodes: &BTreeMap<String, Node>) -> usize
    ensures { result ≡ count_by (λ e. is_folder_node e.1) nodes.now.entries }
{
    let _most = nodes.len();
    let mut count = 0;
    for (_, node) in nodes {
        if is_folder_node(node) {
            count += 1;
        }
    }
    count
}

fn is_folder_node(node: &Node) -> bool
    ensures { result ≡ is_folder_node node.now }
{
    matches!(node.class, NodeClass::Folder)
}

// A node whose owner has all six rights.
fn new_node(alloc: Global, class: NodeClass, owner: &Name) -> Result<Node, AllocError>
    ensures { IfOk result (λ node. node ≡ new_node class owner.now) }
{
    Ok(Node {
        class,
        owner: owner.copy()?,
        list: AccessList::of(alloc, owner.copy()?, Rights::ALL)?,
    })
}

// Puts an entry into the list of the node at a path.
fn put_entry_at(
    nodes: &mut TextMap<Node>,
    path: &str,
    name: &Name,
    rights: Rights,
) -> Result<(), CatFault>
    ensures ok { OnOk result
        (nodes.new ≡ entry_put nodes.old path.now (map.get nodes.old path.now) name.now rights) }
    ensures err { OnErr result (nodes.new ≡ nodes.old) }
    ensures why { Blames result (node_fault (map.get nodes.old path.now) name.now) }
{
    match nodes.get_mut(path) {
        Some(node) => put_entry(node, name, rights),
        None => Err(CatFault::NoDomain),
    }
}

// Puts an entry into the list of a node.
fn put_entry(node: &mut Node, name: &Name, rights: Rights) -> Result<(), CatFault>
    ensures ok { OnOk result (node.new ≡ node_with node.old name.now rights) }
    ensures err { OnErr result (node.new ≡ node.old) }
    ensures why { Blames result (list_fault node.old.list name.now) }
    ensures class { node.new.class ≡ node.old.class }
{
    if node.list.is_full_for(name.text()) {
        return Err(CatFault::Limit {
            what: LimitKind::Entries,
        });
    }
    let name = name.copy()?;
    match node.list.put(name, rights) {
        Ok(()) => Ok(()),
        Err(ListFault::NoMemory) => Err(CatFault::NoMemory),
        // There is room.
        Err(ListFault::Limit) => unreachable!(),
    }
}

// The next number once a node is there.
fn raised(next: u64, class: NodeClass) -> u64
    requires { NumberFits class }
    ensures { result ≡ raised next class }
{
    match class {
        NodeClass::Folder => next,
        NodeClass::Domain { number, .. } => next.max(number + 1),
    }
}
