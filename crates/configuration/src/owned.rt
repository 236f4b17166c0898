ghost use Rattle.std.specs.Prelude.{◌≡◌, [], true, false, Some, None, IfOk, IsErrOf, codes};
ghost use Rattle.std.specs.Option.{option_and_then};
ghost use Rattle.toml.specs.Data.{as_table, get_member};
ghost use Rattle.toml.specs.View.{view, table_view};
ghost use Rattle.configuration.specs.Settings.{is_owner, is_setting_key, list_in, owner_of, setting_in};
ghost use Rattle.configuration.specs.Tables.{has_only, table_at};

use crate::fault::Refusal;
use crate::limits::MAX_NAME_LEN;
use crate::people::{read_name, user_named};
use crate::rights::read_list;
use crate::setting::Setting;
use crate::tables::table_at;
use access_lists::AccessList;
use object_ids::Name;
use std::alloc::Global;
use toml::{Table, Value};

/// What the value at a path configures.
pub fn read_setting(alloc: Global, value: &Value) -> Result<Setting, Refusal>
    ensures ok { IfOk result (λ setting. option_and_then setting_in (as_table (view value.now)) ≡ Some setting) }
    ensures bad { IsErrOf result Refusal.BadKey → option_and_then setting_in (as_table (view value.now)) ≡ None }
{
    match value.as_table() {
        Some(table) => read_setting_in(alloc, table),
        None => Err(Refusal::BadKey),
    }
}

fn read_setting_in(alloc: Global, table: &Table) -> Result<Setting, Refusal>
    ensures ok { IfOk result (λ setting. setting_in (table_view table.now) ≡ Some setting) }
    ensures bad { IsErrOf result Refusal.BadKey → setting_in (table_view table.now) ≡ None }
{
    if !has_setting_keys(table) {
        return Err(Refusal::BadKey);
    }
    let owner = read_owner_at(alloc, table)?;
    let list = read_list_at(alloc, table)?;
    Ok(Setting { owner, list })
}

fn has_setting_keys(table: &Table) -> bool
    ensures { result ≡ has_only is_setting_key (table_view table.now) }
{
    'keys: for (key, _value) in table {
        if !is_setting_key(key.as_str()) {
            return false;
        }
    }
    true
}

fn is_setting_key(key: &str) -> bool
    ensures { result ≡ is_setting_key key.now }
{
    matches!(key, "owner" | "acls")
}

fn read_owner_at(alloc: Global, table: &Table) -> Result<Name, Refusal>
    ensures ok { IfOk result (λ owner. option_and_then owner_of (get_member (codes "owner") (table_view table.now)) ≡ Some owner) }
    ensures bad { IsErrOf result Refusal.BadKey → option_and_then owner_of (get_member (codes "owner") (table_view table.now)) ≡ None }
{
    match table.get("owner") {
        Some(value) => read_owner(alloc, value),
        None => Err(Refusal::BadKey),
    }
}

fn read_owner(alloc: Global, value: &Value) -> Result<Name, Refusal>
    ensures ok { IfOk result (λ owner. owner_of (view value.now) ≡ Some owner) }
    ensures bad { IsErrOf result Refusal.BadKey → owner_of (view value.now) ≡ None }
{
    match value.as_str() {
        Some(text) => owner_named(alloc, text),
        None => Err(Refusal::BadKey),
    }
}

fn owner_named(alloc: Global, text: &str) -> Result<Name, Refusal>
    ensures ok { IfOk result (λ owner. (owner ≡ text.now) × (is_owner text.now ≡ true)) }
    ensures bad { IsErrOf result Refusal.BadKey → is_owner text.now ≡ false }
{
    if text == "default" {
        return read_name(alloc, text, MAX_NAME_LEN);
    }
    user_named(alloc, text)
}

fn read_list_at(alloc: Global, table: &Table) -> Result<AccessList, Refusal>
    ensures ok { IfOk result (λ list. option_and_then list_in (table_at (codes "acls") (table_view table.now)) ≡ Some list) }
    ensures bad { IsErrOf result Refusal.BadKey → option_and_then list_in (table_at (codes "acls") (table_view table.now)) ≡ None }
{
    match table_at(table, "acls", &Table::new(alloc)) {
        Some(entries) => read_list(alloc, entries),
        None => Err(Refusal::BadKey),
    }
}
