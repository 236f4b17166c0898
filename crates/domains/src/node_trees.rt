//! The JSON of nodes (HSDS, `GET /` and `GET /domains`).
ghost use Rattle.std.specs.Prelude.{◌≡◌, IfOk, codes};
ghost use Rattle.serde_json.specs.View.{view};
ghost use Rattle.serde_json.specs.Data.{object, string, member, no_members};
ghost use Rattle.object_ids.specs.Ids.{text_of_id};
ghost use Rattle.domains.specs.NodeTrees.{child_tree, class_tree, class_word, node_tree};

use crate::classes::{Node, NodeClass};
use object_ids::{ObjectId, id_text};
use serde_json::{Value, json};
use std::alloc::{AllocError, Global};

/// A node: its `class`, its `owner`, and a domain's `root` group.
pub fn node_json(alloc: Global, node: &Node) -> Result<Value, AllocError>
    ensures { IfOk result (λ tree. view tree ≡ node_tree node.now) }
{
    class_json(alloc, &node.class, node.owner.text())
}

fn class_json(alloc: Global, class: &NodeClass, owner: &str) -> Result<Value, AllocError>
    ensures { IfOk result (λ tree. view tree ≡ class_tree class.now owner.now) }
{
    match class {
        NodeClass::Folder => folder_json(alloc, owner),
        NodeClass::Domain { root, .. } => domain_json(alloc, owner, root),
    }
}

fn folder_json(alloc: Global, owner: &str) -> Result<Value, AllocError>
    ensures { IfOk result (λ tree. view tree
        ≡ object (member (codes "class") (string (codes "folder"))
        (member (codes "owner") (string owner.now) no_members))) }
{
    json!(in alloc; {"class": "folder", "owner": owner})
}

fn domain_json(alloc: Global, owner: &str, root: &ObjectId) -> Result<Value, AllocError>
    ensures { IfOk result (λ tree. view tree
        ≡ object (member (codes "class") (string (codes "domain"))
        (member (codes "owner") (string owner.now)
        (member (codes "root") (string (text_of_id root.now)) no_members)))) }
{
    let id = id_text(alloc, root)?;
    json!(in alloc; {"class": "domain", "owner": owner, "root": id.as_str()})
}

// A node in the list of its folder.
pub(crate) fn child_json(alloc: Global, path: &str, node: &Node) -> Result<Value, AllocError>
    ensures { IfOk result (λ tree. view tree ≡ child_tree path.now node.now) }
{
    let class = class_word(&node.class);
    let owner = node.owner.text();
    json!(in alloc; {"class": class, "name": path, "owner": owner})
}

fn class_word(class: &NodeClass) -> &'static str
    ensures { result.now ≡ class_word class.now }
{
    match class {
        NodeClass::Folder => "folder",
        NodeClass::Domain { .. } => "domain",
    }
}
