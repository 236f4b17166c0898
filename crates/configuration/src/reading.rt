ghost use Rattle.std.specs.Prelude.{◌≡◌, ◌⊎◌, [], true, false, Some, None, IfOk, IsErrOf, IsSomeAnd, codes, option_and_then};
ghost use Rattle.toml.specs.Errors.{IsMemory};
ghost use Rattle.toml.specs.View.{table_view};
ghost use Rattle.configuration.specs.Configured.{catalogue_in, config_of, document_in, is_config_key, tokens_in};
ghost use Rattle.configuration.specs.ConfiguredNodes.{HasFirstRoots, HasFirstSerials};
ghost use Rattle.configuration.specs.Settings.{settings_in};
ghost use Rattle.configuration.specs.Tables.{has_only, table_at};

use crate::catalogue::make_catalogue;
use crate::config::Config;
use crate::fault::{ConfigFault, Refusal};
use crate::people::{read_groups, read_tokens};
use crate::settings::{Settings, read_settings};
use crate::tables::table_at;
use access_lists::tokens::TokenTable;
use domains::Catalogue;
use std::alloc::Global;
use std::str;
use toml::Table;
use toml::de::Error;

/// Reads a configuration from the bytes of a TOML document.
///
/// The tables of the document may each be absent. `tokens` has a user for each token, and `groups` a list of users for
/// each group. `folders` and `domains` have for each path an `owner`, and an access list `acls`, which may be absent and is
/// empty then: a table of entries, each a table of the six rights `create`, `read`, `update`, `delete`, `readACL` and
/// `updateACL`, of which an absent one is false. Any other key is refused, and so is a value of another kind.
///
/// A token is 1 to 255 visible bytes of ASCII. A user is a name of at most 255 bytes that is not `default` and does not
/// begin with `g:`; an owner may also be `default`. A group is a name of at most 253 bytes, and an access list has at most
/// 1,024 entries, whose names have at most 255 bytes.
///
/// No path is named twice, not with a slash at its end either, and `/` is no domain. The parent of each path is `/` or a
/// configured folder. There are at most 65,535 paths beside `/`. Where `/` is not configured, its owner is `default` and its
/// access list is empty. Domains have the numbers 1, 2 and so on in byte order of their paths, and the serials of their
/// roots begin with 0 in run 0.
pub fn read_config(alloc: Global, text: &[u8]) -> Result<Config, ConfigFault>
    ensures ok { IfOk result (λ config. option_and_then config_of (document_in text.now) ≡ Some config) }
    ensures roots { IfOk result (λ config. HasFirstRoots config.catalogue) }
    ensures serials { IfOk result (λ config. HasFirstSerials config.catalogue) }
    ensures bad_toml { IsErrOf result ConfigFault.BadToml → document_in text.now ≡ None }
    ensures bad_key { IsErrOf result ConfigFault.BadKey → IsSomeAnd (document_in text.now) (λ table. config_of table ≡ None) }
{
    let table = read_document(alloc, text)?;
    match read_table(alloc, &table) {
        Ok(config) => Ok(config),
        Err(Refusal::BadKey) => Err(ConfigFault::BadKey),
        Err(Refusal::NoMemory) => Err(ConfigFault::NoMemory),
    }
}

// The table of a document.
fn read_document(alloc: Global, text: &[u8]) -> Result<Table, ConfigFault>
    ensures ok { IfOk result (λ table. document_in text.now ≡ Some (table_view table)) }
    ensures bad_toml { IsErrOf result ConfigFault.BadToml → document_in text.now ≡ None }
    ensures never { ¬ (IsErrOf result ConfigFault.BadKey) }
{
    let Ok(text) = str::from_utf8(text) else {
        return Err(ConfigFault::BadToml);
    };
    match toml::table_from_str(alloc, text) {
        Ok(table) => Ok(table),
        Err(error) => Err(toml_fault(&error)),
    }
}

// Memory ran out where `toml` says so, and nowhere else.
fn toml_fault(error: &Error) -> ConfigFault
    ensures { ((result ≡ ConfigFault.NoMemory) × IsMemory error.now)
        ⊎ ((result ≡ ConfigFault.BadToml) × ¬ (IsMemory error.now)) }
{
    if error.is_memory() {
        ConfigFault::NoMemory
    } else {
        ConfigFault::BadToml
    }
}

// The configuration of a document's table.
fn read_table(alloc: Global, table: &Table) -> Result<Config, Refusal>
    ensures ok { IfOk result (λ config. config_of (table_view table.now) ≡ Some config) }
    ensures roots { IfOk result (λ config. HasFirstRoots config.catalogue) }
    ensures serials { IfOk result (λ config. HasFirstSerials config.catalogue) }
    ensures bad { IsErrOf result Refusal.BadKey → config_of (table_view table.now) ≡ None }
{
    if !has_config_keys(table) {
        return Err(Refusal::BadKey);
    }
    let tokens = read_tokens_in(alloc, table)?;
    let catalogue = read_catalogue_in(alloc, table)?;
    Ok(Config { tokens, catalogue })
}

fn has_config_keys(table: &Table) -> bool
    ensures { result ≡ has_only is_config_key (table_view table.now) }
{
    'keys: for (key, _value) in table {
        if !is_config_key(key.as_str()) {
            return false;
        }
    }
    true
}

fn is_config_key(key: &str) -> bool
    ensures { result ≡ is_config_key key.now }
{
    matches!(key, "tokens" | "groups" | "folders" | "domains")
}

fn read_tokens_in(alloc: Global, table: &Table) -> Result<TokenTable, Refusal>
    ensures ok { IfOk result (λ tokens. tokens_in (table_view table.now) ≡ Some tokens) }
    ensures bad { IsErrOf result Refusal.BadKey → tokens_in (table_view table.now) ≡ None }
{
    let empty = Table::new(alloc);
    let Some(groups) = table_at(table, "groups", &empty) else {
        return Err(Refusal::BadKey);
    };
    let memberships = read_groups(alloc, groups)?;
    let Some(tokens) = table_at(table, "tokens", &empty) else {
        return Err(Refusal::BadKey);
    };
    read_tokens(alloc, tokens, &memberships)
}

fn read_catalogue_in(alloc: Global, table: &Table) -> Result<Catalogue, Refusal>
    ensures ok { IfOk result (λ catalogue. catalogue_in (table_view table.now) ≡ Some catalogue) }
    ensures roots { IfOk result HasFirstRoots }
    ensures serials { IfOk result HasFirstSerials }
    ensures bad { IsErrOf result Refusal.BadKey → catalogue_in (table_view table.now) ≡ None }
{
    let folders = read_settings_at(alloc, table, "folders")?;
    let domains = read_settings_at(alloc, table, "domains")?;
    make_catalogue(alloc, folders, domains)
}

fn read_settings_at(alloc: Global, table: &Table, key: &str) -> Result<Settings, Refusal>
    ensures ok { IfOk result (λ settings. option_and_then settings_in (table_at key.now (table_view table.now)) ≡ Some settings) }
    ensures bad { IsErrOf result Refusal.BadKey → option_and_then settings_in (table_at key.now (table_view table.now)) ≡ None }
{
    match table_at(table, key, &Table::new(alloc)) {
        Some(settings) => read_settings(alloc, settings),
        None => Err(Refusal::BadKey),
    }
}
