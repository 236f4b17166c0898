ghost use Rattle.std.specs.Prelude.{◌≡◌, ◌<◌, OnOk, true, false, Some, None, IfOk, IsErrOf};
ghost use Rattle.std.specs.FinMap as map;
ghost use Rattle.std.specs.List.{list_all};
ghost use Rattle.toml.specs.View.{view, table_view};
ghost use Rattle.configuration.specs.Settings.{entry_of, flag_at, is_right_key, is_right_pair, list_in, rights_in, rights_of};
ghost use Rattle.configuration.specs.Tables.{pairs_of};
ghost use Rattle.containers.specs.Options.{only_if};

use crate::fault::Refusal;
use crate::limits::MAX_NAME_LEN;
use crate::people::read_name;
use access_lists::{AccessList, ListFault, MAX_ENTRIES, Rights};
use object_ids::Name;
use std::alloc::Global;
use toml::{Table, Value};

/// Reads an access list.
pub fn read_list(alloc: Global, table: &Table) -> Result<AccessList, Refusal>
    ensures ok { IfOk result (λ list. list_in (table_view table.now) ≡ Some list) }
    ensures bad { IsErrOf result Refusal.BadKey → list_in (table_view table.now) ≡ None }
{
    if table.len() > MAX_ENTRIES {
        return Err(Refusal::BadKey);
    }
    let mut list = AccessList::new(alloc);
    'entries: for (key, value) in table {
        let (name, rights) = read_entry(alloc, key.as_str(), value)?;
        put_entry(&mut list, name, rights)?;
    }
    Ok(list)
}

// The entry that is configured by a key and its value.
fn read_entry(alloc: Global, key: &str, value: &Value) -> Result<(Name, Rights), Refusal>
    ensures ok { IfOk result (λ e. entry_of (key.now, view value.now) ≡ Some e) }
    ensures bad { IsErrOf result Refusal.BadKey → entry_of (key.now, view value.now) ≡ None }
{
    let Some(rights) = read_rights(value) else {
        return Err(Refusal::BadKey);
    };
    let name = read_name(alloc, key, MAX_NAME_LEN)?;
    Ok((name, rights))
}

// Puts an entry into a list that has room for it.
fn put_entry(list: &mut AccessList, name: Name, rights: Rights) -> Result<(), Refusal>
    requires { map.len list.old < MAX_ENTRIES }
    ensures ok { OnOk result (list.new ≡ map.insert list.old name rights) }
    ensures memory { ¬ (IsErrOf result Refusal.BadKey) }
{
    match list.put(name, rights) {
        Ok(()) => Ok(()),
        Err(ListFault::Limit) => Err(Refusal::BadKey),
        Err(ListFault::NoMemory) => Err(Refusal::NoMemory),
    }
}

// The rights of an entry.
fn read_rights(value: &Value) -> Option<Rights>
    ensures { result ≡ rights_of (view value.now) }
{
    read_rights_in(value.as_table()?)
}

fn read_rights_in(table: &Table) -> Option<Rights>
    ensures { result ≡ only_if (list_all is_right_pair (pairs_of (table_view table.now))) (Some (rights_in (table_view table.now))) }
{
    if has_right_pairs(table) {
        Some(rights_in(table))
    } else {
        None
    }
}

fn has_right_pairs(table: &Table) -> bool
    ensures { result ≡ list_all is_right_pair (pairs_of (table_view table.now)) }
{
    'pairs: for (key, value) in table {
        if !is_right_pair(key.as_str(), value) {
            return false;
        }
    }
    true
}

fn is_right_pair(key: &str, value: &Value) -> bool
    ensures { result ≡ is_right_pair (key.now, view value.now) }
{
    is_right_key(key) && value.is_bool()
}

fn is_right_key(key: &str) -> bool
    ensures { result ≡ is_right_key key.now }
{
    matches!(
        key,
        "create" | "read" | "update" | "delete" | "readACL" | "updateACL"
    )
}

fn rights_in(table: &Table) -> Rights
    ensures { result ≡ rights_in (table_view table.now) }
{
    Rights {
        create: flag_at(table, "create"),
        read: flag_at(table, "read"),
        update: flag_at(table, "update"),
        delete: flag_at(table, "delete"),
        read_acl: flag_at(table, "readACL"),
        update_acl: flag_at(table, "updateACL"),
    }
}

fn flag_at(table: &Table, key: &str) -> bool
    ensures { result ≡ flag_at key.now (table_view table.now) }
{
    match table.get(key) {
        Some(value) => value.as_bool().unwrap_or(false),
        None => false,
    }
}
