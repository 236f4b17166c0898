//! The access list that a tree spells.

ghost use Rattle.std.specs.Prelude.{◌≡◌, ◌<◌, Err, IsErrOf, IsSome, OnOk};
ghost use Rattle.std.specs.FinMap as map;
ghost use Rattle.serde_json.specs.View.{members_view, view};
ghost use Rattle.access_lists.specs.InForce.{most_entries};
ghost use Rattle.domains.specs.Records.Readings.{Reads};
ghost use Rattle.domains.specs.Records.Lists.{entry_in, entry_of, list_in, listed, name_in};
ghost use Rattle.json_trees.specs.Trees.{pairs_of};
ghost use Rattle.domains.specs.Records.Lists.{right_at, size};
ghost use Rattle.domains.specs.Records.Nodes.{acls_in};
ghost use Rattle.domains.specs.declared.records.faults.NodeFault.TheVariants.{BadNode};

use crate::records::NodeFault;
use access_lists::{AccessList, MAX_ENTRIES, Right, Rights};
use object_ids::Name;
use serde_json::{Map, Value};
use std::alloc::Global;

/// The list at its key.
pub(crate) fn acls_in(alloc: Global, tree: &Value) -> Result<AccessList, NodeFault>
    ensures { Reads result (acls_in (view tree.now)) }
{
    let Some(acls) = tree.get("acls") else {
        return Err(NodeFault::BadNode);
    };
    list_in(alloc, acls)
}

fn list_in(alloc: Global, tree: &Value) -> Result<AccessList, NodeFault>
    ensures { Reads result (list_in (view tree.now)) }
{
    let Some(members) = tree.as_object() else {
        return Err(NodeFault::BadNode);
    };
    listed(alloc, members)
}

fn listed(alloc: Global, members: &Map<String, Value>) -> Result<AccessList, NodeFault>
    ensures { Reads result (listed (pairs_of (members_view members.now.entries))) }
{
    if members.len() > MAX_ENTRIES {
        return Err(NodeFault::BadNode);
    }
    let mut list = AccessList::new(alloc);
    'entries: for (key, value) in members {
        let (name, rights) = entry_of(alloc, key.as_str(), value)?;
        put_entry(&mut list, name, rights)?;
    }
    Ok(list)
}

// Puts an entry into a list that has room for it.
fn put_entry(list: &mut AccessList, name: Name, rights: Rights) -> Result<(), NodeFault>
    requires { map.len list.old < most_entries }
    ensures ok { OnOk result (list.new ≡ map.insert list.old name rights) }
    ensures memory { ¬ (result ≡ Err BadNode) }
{
    Ok(list.put(name, rights)?)
}

// A name, and the entry at it.
fn entry_of(alloc: Global, key: &str, value: &Value) -> Result<(Name, Rights), NodeFault>
    ensures { Reads result (entry_of (key.now, view value.now)) }
{
    let name = name_in(alloc, key)?;
    let Some(rights) = entry_in(value) else {
        return Err(NodeFault::BadNode);
    };
    Ok((name, rights))
}

/// The name that a text is.
pub(crate) fn name_in(alloc: Global, text: &str) -> Result<Name, NodeFault>
    ensures reads { Reads result (name_in text.now) }
    ensures memory { IsErrOf result NodeFault.NoMemory → IsSome (name_in text.now) }
{
    Ok(Name::read(alloc, text, text.len())?)
}

fn entry_in(tree: &Value) -> Option<Rights>
    ensures { result ≡ entry_in (view tree.now) }
{
    if size(tree) != 6 {
        return None;
    }
    Some(Rights {
        create: right_at(tree, Right::Create)?,
        read: right_at(tree, Right::Read)?,
        update: right_at(tree, Right::Update)?,
        delete: right_at(tree, Right::Delete)?,
        read_acl: right_at(tree, Right::ReadAcl)?,
        update_acl: right_at(tree, Right::UpdateAcl)?,
    })
}

fn right_at(tree: &Value, right: Right) -> Option<bool>
    ensures { result ≡ right_at right (view tree.now) }
{
    tree.get(right.name()).and_then(Value::as_bool)
}

/// How many members a tree has.
pub(crate) fn size(tree: &Value) -> usize
    ensures { result ≡ size (view tree.now) }
{
    match tree.as_object() {
        Some(members) => members.len(),
        None => 0,
    }
}
