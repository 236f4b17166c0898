//! The node that a body is the text of.

ghost use Rattle.std.specs.Prelude.{◌≡◌, ◌≢◌, ◌↔◌, [], IfOk, IfSome, IsErrOf, IsSome, IsUtf8};
ghost use Rattle.serde_json.specs.Errors.{IsMemory};
ghost use Rattle.serde_json.specs.View.{view};
ghost use Rattle.groups_links.specs.IdTexts.{id_of};
ghost use Rattle.domains.specs.Contents.{HasRoot};
ghost use Rattle.domains.specs.Records.Readings.{Reads};
ghost use Rattle.domains.specs.Records.Nodes.{IsKeptNode, class_in, class_of, domain_in, domain_of};
ghost use Rattle.domains.specs.Records.Nodes.{folder_in, is_root, node_in, node_of_body, number_at};
ghost use Rattle.domains.specs.Records.Nodes.{owner_in, root_at};

use crate::records::NodeFault;
use crate::records::entries::{acls_in, name_in, size};
use crate::records::nodes::is_whole;
use crate::{Node, NodeClass};
use json_trees::{member_text, whole_number};
use object_ids::{Kind, Name, ObjectId, read_id};
use serde_json::{Error, Value};
use std::alloc::Global;

/// The node that a body is the text of.
///
/// # Errors
///
/// [`NodeFault::BadNode`] exactly where there is none, or [`NodeFault::NoMemory`], which comes only of a body that is UTF-8 and
/// isn't empty.
pub fn read_node(alloc: Global, body: &[u8]) -> Result<Node, NodeFault>
    ensures reads { Reads result (node_of_body body.now) }
    ensures memory { IsErrOf result NodeFault.NoMemory → IsUtf8 body.now × (body.now ≢ []) }
    ensures kept { IfOk result IsKeptNode }
{
    let Ok(text) = str::from_utf8(body) else {
        return Err(NodeFault::BadNode);
    };
    match Value::from_str(alloc, text) {
        Ok(tree) => node_in(alloc, &tree),
        Err(error) => Err(json_fault(&error)),
    }
}

// Memory ran out exactly where `serde_json` says so; else the text is no JSON, and so no node's.
fn json_fault(error: &Error) -> NodeFault
    ensures { (result ≡ NodeFault.NoMemory) ↔ IsMemory error.now }
{
    if error.is_memory() {
        NodeFault::NoMemory
    } else {
        NodeFault::BadNode
    }
}

/// The node that a tree spells.
///
/// # Errors
///
/// [`NodeFault::BadNode`] exactly where there is none, or [`NodeFault::NoMemory`], which comes only of a tree with the class and
/// the owner of a node.
pub fn node_in(alloc: Global, tree: &Value) -> Result<Node, NodeFault>
    ensures reads { Reads result (node_in (view tree.now)) }
    ensures memory { IsErrOf result NodeFault.NoMemory
        → IsSome (class_in (view tree.now)) × IsSome (owner_in (view tree.now)) }
    ensures kept { IfOk result IsKeptNode }
{
    let Some(class) = class_in(tree) else {
        return Err(NodeFault::BadNode);
    };
    let owner = owner_in(alloc, tree)?;
    let list = acls_in(alloc, tree)?;
    let node = Node { class, owner, list };
    is_whole(&node);
    Ok(node)
}

fn owner_in(alloc: Global, tree: &Value) -> Result<Name, NodeFault>
    ensures reads { Reads result (owner_in (view tree.now)) }
    ensures memory { IsErrOf result NodeFault.NoMemory → IsSome (owner_in (view tree.now)) }
{
    let Some(text) = member_text(tree, "owner") else {
        return Err(NodeFault::BadNode);
    };
    name_in(alloc, text)
}

fn class_in(tree: &Value) -> Option<NodeClass>
    ensures class { result ≡ class_in (view tree.now) }
    ensures root { IfSome result HasRoot }
{
    class_of(tree, member_text(tree, "class")?)
}

fn class_of(tree: &Value, word: &str) -> Option<NodeClass>
    ensures class { result ≡ class_of (view tree.now) word.now }
    ensures root { IfSome result HasRoot }
{
    match word {
        "folder" => folder_in(tree),
        "domain" => domain_in(tree),
        _ => None,
    }
}

fn folder_in(tree: &Value) -> Option<NodeClass>
    ensures class { result ≡ folder_in (view tree.now) }
    ensures root { IfSome result HasRoot }
{
    if size(tree) == 3 {
        Some(NodeClass::Folder)
    } else {
        None
    }
}

fn domain_in(tree: &Value) -> Option<NodeClass>
    ensures class { result ≡ domain_in (view tree.now) }
    ensures root { IfSome result HasRoot }
{
    if size(tree) != 5 {
        return None;
    }
    let number = number_at(tree)?;
    let root = root_at(tree)?;
    domain_of(number, root)
}

fn number_at(tree: &Value) -> Option<u64>
    ensures { result ≡ number_at (view tree.now) }
{
    whole_number(tree.get("number")?)
}

fn root_at(tree: &Value) -> Option<ObjectId>
    ensures { result ≡ root_at (view tree.now) }
{
    id_of(member_text(tree, "root")?)
}

fn id_of(text: &str) -> Option<ObjectId>
    ensures { result ≡ id_of text.now }
{
    read_id(text)
}

fn domain_of(number: u64, root: ObjectId) -> Option<NodeClass>
    ensures class { result ≡ domain_of number root }
    ensures root { IfSome result HasRoot }
{
    if is_root(number, root) {
        Some(NodeClass::Domain { number, root })
    } else {
        None
    }
}

fn is_root(number: u64, root: ObjectId) -> bool
    ensures { result ≡ is_root number root }
{
    matches!(root.kind, Kind::Group) && root.domain == number
}
