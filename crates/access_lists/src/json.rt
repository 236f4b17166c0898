//! The JSON of entries and of access lists (HDF REST API, "ACLs").
ghost use Rattle.std.specs.Prelude.{◌≡◌, IfOk, map};
ghost use Rattle.serde_json.specs.View.{view, members_view};
ghost use Rattle.serde_json.specs.Data.{no_members};
ghost use Rattle.object_ids.specs.NamedEntries.{named_entries};
ghost use Rattle.access_lists.specs.EntryTrees.{acl_tree, acls_tree, entry_in};
ghost use Rattle.access_lists.specs.EntryTrees.{entry_tree, list_tree, put_all, truth_at};
ghost use Rattle.access_lists.specs.RightWords.{right_name};

use crate::list::AccessList;
use crate::right::Right;
use crate::rights::Rights;
use object_ids::{Name, Named};
use serde_json::{Map, Value, json, put};
use std::alloc::{AllocError, Global};
use std::collections::BTreeMap;

/// Reads an entry: an object in which each of the keys `create`, `read`, `update`, `delete`, `readACL` and `updateACL` is
/// a truth value or absent, which is false. Other keys are ignored. None where the tree is no such object.
pub fn read_entry(tree: &Value) -> Option<Rights>
    ensures { result ≡ entry_in (view tree.now) }
{
    if !tree.is_object() {
        return None;
    }
    Some(Rights {
        create: truth_at(tree, Right::Create)?,
        read: truth_at(tree, Right::Read)?,
        update: truth_at(tree, Right::Update)?,
        delete: truth_at(tree, Right::Delete)?,
        read_acl: truth_at(tree, Right::ReadAcl)?,
        update_acl: truth_at(tree, Right::UpdateAcl)?,
    })
}

// The truth value at the key of a right.
fn truth_at(tree: &Value, right: Right) -> Option<bool>
    ensures { result ≡ truth_at (right_name right) (view tree.now) }
{
    match tree.get(right.name()) {
        Some(value) => value.as_bool(),
        None => Some(false),
    }
}

/// An entry: its six keys.
pub fn entry_json(alloc: Global, rights: &Rights) -> Result<Value, AllocError>
    ensures { IfOk result (λ tree. view tree ≡ entry_tree rights.now) }
{
    json!(in alloc; {
        "create": rights.create,
        "delete": rights.delete,
        "read": rights.read,
        "readACL": rights.read_acl,
        "update": rights.update,
        "updateACL": rights.update_acl
    })
}

/// An entry with its name: its six keys, and `userName`.
pub fn acl_json(alloc: Global, name: &Name, rights: &Rights) -> Result<Value, AllocError>
    ensures { IfOk result (λ tree. view tree ≡ acl_tree name.now rights.now) }
{
    let name = name.text();
    json!(in alloc; {
        "create": rights.create,
        "delete": rights.delete,
        "read": rights.read,
        "readACL": rights.read_acl,
        "update": rights.update,
        "updateACL": rights.update_acl,
        "userName": name
    })
}

/// A list as an object of its entries by their names.
pub fn list_json(alloc: Global, list: &AccessList) -> Result<Value, AllocError>
    ensures { IfOk result (λ tree. view tree ≡ list_tree list.now) }
{
    Ok(Value::Object(members(alloc, list.as_tree())?))
}

/// A list as a list of its entries with their names, in the order of the names' bytes.
pub fn acls_json(alloc: Global, list: &AccessList) -> Result<Value, AllocError>
    ensures { IfOk result (λ tree. view tree ≡ acls_tree list.now) }
{
    Ok(Value::Array(acls(alloc, list.as_tree())?))
}

// The entries by their names.
fn members(
    alloc: Global,
    entries: &BTreeMap<String, Named<Rights>>,
) -> Result<Map<String, Value>, AllocError>
    ensures { IfOk result (λ members. members_view members.entries
        ≡ put_all (named_entries entries.now.entries) no_members) }
{
    let mut members = Map::new(alloc);
    for (_, named) in entries {
        let entry = entry_json(alloc, &named.value)?;
        put(&mut members, alloc, named.name.text(), entry)?;
    }
    Ok(members)
}

// The entries with their names.
fn acls(alloc: Global, entries: &BTreeMap<String, Named<Rights>>) -> Result<Vec<Value>, AllocError>
    ensures { IfOk result (λ acls. map view acls.items
        ≡ map (λ e. acl_tree e.0 e.1) (named_entries entries.now.entries)) }
{
    let mut acls = Vec::new(alloc);
    for (_, named) in entries {
        acls.push(acl_json(alloc, &named.name, &named.value)?)?;
    }
    Ok(acls)
}
