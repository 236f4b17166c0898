//! A node as text.

ghost use Rattle.std.specs.Prelude.{◌≡◌, ◌≢◌, [], Some, IfOk, string_bytes};
ghost use Rattle.serde_json.specs.View.{view};
ghost use Rattle.domains.specs.Contents.{HasRoot, NumberFits};
ghost use Rattle.domains.specs.Records.Nodes.{HasId, IsKeptNode, class_tree, domain_tree, folder_tree};
ghost use Rattle.domains.specs.Records.Nodes.{node_body, node_of_body, node_tree};

use crate::{Node, NodeClass};
use access_lists::list_json;
use object_ids::{ObjectId, id_text};
use serde_json::{Value, json};
use std::alloc::{AllocError, Global};

/// The text of a node's record, which reads as the node. A domain's root is the id of a group of its
/// number, as in every catalogue.
///
/// # Errors
///
/// Only where memory runs out.
pub fn node_text(alloc: Global, node: &Node) -> Result<String, AllocError>
    requires { HasRoot node.now.class }
    ensures exact { IfOk result (λ text. string_bytes text ≡ node_body node.now) }
    ensures reads { IfOk result (λ text. node_of_body (string_bytes text) ≡ Some node.now) }
    ensures some { IfOk result (λ text. string_bytes text ≢ []) }
{
    is_whole(node);
    let tree = node_json(alloc, node)?;
    let text = tree.to_string(alloc)?;
    let _ = text.as_str();
    Ok(text)
}

/// What is true of every node: its owner and each entry of its list have names, the list is not too
/// long, and a domain's number is below 2^48.
pub fn is_whole(node: &Node)
    requires { HasRoot node.now.class }
    ensures { IsKeptNode node.now }
{
    let _ = node.owner.text();
    node.list.is_whole();
    has_id(&node.class);
}

// A domain's number is that of its root's id.
fn has_id(class: &NodeClass)
    requires { HasRoot class.now }
    ensures fits { NumberFits class.now }
    ensures id { HasId class.now }
{
    match class {
        NodeClass::Folder => {}
        NodeClass::Domain { root, .. } => {
            let _domain = root.domain;
        }
    }
}

/// The tree of a node: its list, its class and its owner, and of a domain its number and its root.
///
/// # Errors
///
/// Only where memory runs out.
pub fn node_json(alloc: Global, node: &Node) -> Result<Value, AllocError>
    ensures { IfOk result (λ tree. view tree ≡ node_tree node.now) }
{
    let acls = list_json(alloc, &node.list)?;
    class_json(alloc, &node.class, acls, node.owner.text())
}

fn class_json(
    alloc: Global,
    class: &NodeClass,
    acls: Value,
    owner: &str,
) -> Result<Value, AllocError>
    ensures { IfOk result (λ tree. view tree ≡ class_tree class.now (view acls) owner.now) }
{
    match class {
        NodeClass::Folder => folder_json(alloc, acls, owner),
        NodeClass::Domain { number, root } => domain_json(alloc, acls, *number, owner, root),
    }
}

fn folder_json(alloc: Global, acls: Value, owner: &str) -> Result<Value, AllocError>
    ensures { IfOk result (λ tree. view tree ≡ folder_tree (view acls) owner.now) }
{
    json!(in alloc; {"acls": acls, "class": "folder", "owner": owner})
}

fn domain_json(
    alloc: Global,
    acls: Value,
    number: u64,
    owner: &str,
    root: &ObjectId,
) -> Result<Value, AllocError>
    ensures { IfOk result (λ tree. view tree ≡ domain_tree (view acls) number owner.now root.now) }
{
    let id = id_text(alloc, root)?;
    json!(in alloc; {
        "acls": acls,
        "class": "domain",
        "number": number,
        "owner": owner,
        "root": id.as_str()
    })
}
