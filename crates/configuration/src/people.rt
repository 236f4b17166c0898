ghost use Rattle.std.specs.Prelude.{◌≡◌, ◌++◌, ◌∷◌, ◌||◌, ◌&&◌, not, [], map as mapped, List, ℕ, true, false};
ghost use Rattle.std.specs.Prelude.{Some, None, IfOk, OnOk, IsErrOf, if◌then◌else◌, string_bytes};
ghost use Rattle.std.specs.List.{list_all, list_any};
ghost use Rattle.std.specs.FinMap as map;
ghost use Rattle.std.specs.Str.{bytes_eq};
ghost use Rattle.toml.specs.View.{view, table_view, array_view};
ghost use Rattle.object_ids.specs.Names.{is_name};
ghost use Rattle.configuration.specs.People.{is_user, user_of, users_of, Group, group_of, groups_in};
ghost use Rattle.configuration.specs.People.{groups_with, is_visible, is_token, token_of, callers_in};
ghost use Rattle.configuration.specs.People.{names_at};
ghost use Rattle.configuration.specs.Tables.{all_of, elements_of};

use crate::fault::Refusal;
use crate::limits::{MAX_GROUP_LEN, MAX_NAME_LEN, MAX_TOKEN_LEN};
use access_lists::tokens::TokenTable;
use access_lists::{Caller, Names};
use containers::text_maps::TextMap;
use object_ids::Name;
use std::alloc::{AllocError, Global};
use toml::{Table, Value};

/// Reads the name of a user.
pub fn read_user(alloc: Global, value: &Value) -> Result<Name, Refusal>
    ensures ok { IfOk result (λ user. user_of (view value.now) ≡ Some user) }
    ensures bad { IsErrOf result Refusal.BadKey → user_of (view value.now) ≡ None }
{
    match value.as_str() {
        Some(text) => user_named(alloc, text),
        None => Err(Refusal::BadKey),
    }
}

/// The user whose name is a text.
pub fn user_named(alloc: Global, text: &str) -> Result<Name, Refusal>
    ensures ok { IfOk result (λ user. (user ≡ text.now) × (is_user text.now ≡ true)) }
    ensures bad { IsErrOf result Refusal.BadKey → is_user text.now ≡ false }
{
    if text == "default" || text.starts_with("g:") {
        return Err(Refusal::BadKey);
    }
    read_name(alloc, text, MAX_NAME_LEN)
}

/// The name whose text is this.
pub fn read_name(alloc: Global, text: &str, most: usize) -> Result<Name, Refusal>
    ensures ok { IfOk result (λ name. (name ≡ text.now) × (is_name most text.now ≡ true)) }
    ensures bad { IsErrOf result Refusal.BadKey → is_name most text.now ≡ false }
{
    match Name::read(alloc, text, most) {
        Ok(name) => Ok(name),
        Err(fault) => Err(Refusal::from(fault)),
    }
}

/// For each user that a table of groups lists, the names of the groups that list it, in their byte order.
pub fn read_groups(alloc: Global, table: &Table) -> Result<TextMap<Names>, Refusal>
    ensures ok { IfOk result (λ m. (groups : List Group)
        × (groups_in (table_view table.now) ≡ Some groups)
        × ((user : List ℕ) → names_at m user ≡ groups_with groups user)) }
    ensures bad { IsErrOf result Refusal.BadKey → groups_in (table_view table.now) ≡ None }
{
    let mut memberships = TextMap::new(alloc);
    'groups: for (key, value) in table {
        read_group(alloc, &mut memberships, key.as_str(), value)?;
    }
    Ok(memberships)
}

// Adds a group, which is configured by a key and its value, to the groups of its users.
fn read_group(
    alloc: Global,
    memberships: &mut TextMap<Names>,
    key: &str,
    value: &Value,
) -> Result<(), Refusal>
    ensures ok { OnOk result ((group : Group)
        × (group_of (key.now, view value.now) ≡ Some group)
        × ((q : List ℕ) → names_at memberships.new q
        ≡ names_at memberships.old q ++ groups_with (group ∷ []) q)) }
    ensures bad { IsErrOf result Refusal.BadKey → group_of (key.now, view value.now) ≡ None }
{
    let group = read_name(alloc, key, MAX_GROUP_LEN)?;
    let users = read_users(alloc, value)?;
    add_group(alloc, memberships, &group, users.as_slice())?;
    Ok(())
}

// The users that a group lists.
fn read_users(alloc: Global, value: &Value) -> Result<Vec<Name>, Refusal>
    ensures ok { IfOk result (λ users. users_of (view value.now) ≡ Some users.items) }
    ensures bad { IsErrOf result Refusal.BadKey → users_of (view value.now) ≡ None }
{
    match value.as_array() {
        Some(values) => users_in(alloc, values.as_slice()),
        None => Err(Refusal::BadKey),
    }
}

fn users_in(alloc: Global, values: &[Value]) -> Result<Vec<Name>, Refusal>
    ensures ok { IfOk result (λ users. all_of user_of (mapped view values.now) ≡ Some users.items) }
    ensures bad { IsErrOf result Refusal.BadKey → all_of user_of (mapped view values.now) ≡ None }
{
    let mut users = Vec::new(alloc);
    'users: for value in values {
        users.push(read_user(alloc, value)?)?;
    }
    Ok(users)
}

// Adds a group to the groups of each of its users, once where it lists a user twice.
fn add_group(
    alloc: Global,
    memberships: &mut TextMap<Names>,
    group: &Name,
    users: &[Name],
) -> Result<(), AllocError>
    ensures { OnOk result ((q : List ℕ) → names_at memberships.new q
        ≡ names_at memberships.old q ++ (if list_any (bytes_eq q) users.now then group.now ∷ [] else [])) }
{
    let mut known = TextMap::new(alloc);
    'users: for user in users {
        add_once(alloc, memberships, &mut known, group, user)?;
    }
    Ok(())
}

// Adds a group to those of a user who was not known in this group yet.
fn add_once(
    alloc: Global,
    memberships: &mut TextMap<Names>,
    known: &mut TextMap<bool>,
    group: &Name,
    user: &Name,
) -> Result<(), AllocError>
    ensures known { OnOk result ((q : List ℕ) → map.contains_key known.new q ≡ (map.contains_key known.old q || bytes_eq q user.now)) }
    ensures added { OnOk result ((q : List ℕ) → names_at memberships.new q
        ≡ names_at memberships.old q ++ (if not (map.contains_key known.old q) && bytes_eq q user.now then group.now ∷ [] else [])) }
{
    if known.contains_key(user.text()) {
        return Ok(());
    }
    known.put_copy(user.text(), true)?;
    add_membership(alloc, memberships, user, group)
}

// Adds a group to those of a user.
fn add_membership(
    alloc: Global,
    memberships: &mut TextMap<Names>,
    user: &Name,
    group: &Name,
) -> Result<(), AllocError>
    ensures { OnOk result ((q : List ℕ) → names_at memberships.new q
        ≡ names_at memberships.old q ++ (if bytes_eq q user.now then group.now ∷ [] else [])) }
{
    let mut names = take_names(alloc, memberships, user);
    names.push(group.copy()?)?;
    memberships.put_copy(user.text(), names)
}

// The groups of a user, taken out of the map.
fn take_names(alloc: Global, memberships: &mut TextMap<Names>, user: &Name) -> Names
    ensures value { result ≡ names_at memberships.old user.now }
    ensures rest { memberships.new ≡ map.remove memberships.old user.now }
{
    match memberships.remove(user.text()) {
        Some(names) => names,
        None => Names::new(alloc),
    }
}

fn is_token(token: &[u8]) -> bool
    ensures { result ≡ is_token token.now }
{
    if token.is_empty() || token.len() > MAX_TOKEN_LEN {
        return false;
    }
    has_visible_bytes(token)
}

fn has_visible_bytes(token: &[u8]) -> bool
    ensures { result ≡ list_all is_visible token.now }
{
    token.iter().all(|byte| is_visible(*byte))
}

fn is_visible(byte: u8) -> bool
    ensures { result ≡ is_visible byte }
{
    0x21 <= byte && byte <= 0x7e
}

/// The callers of a table of tokens, where `memberships` has the groups of each user.
pub fn read_tokens(
    alloc: Global,
    table: &Table,
    memberships: &TextMap<Names>,
) -> Result<TokenTable, Refusal>
    ensures ok { IfOk result (λ tokens. callers_in (names_at memberships.now) (table_view table.now) ≡ Some tokens) }
    ensures bad { IsErrOf result Refusal.BadKey → callers_in (names_at memberships.now) (table_view table.now) ≡ None }
{
    let mut tokens = TokenTable::new(alloc);
    'tokens: for (key, value) in table {
        let caller = read_token(alloc, key.as_str(), value, memberships)?;
        tokens.put(key.as_bytes(), caller)?;
    }
    Ok(tokens)
}

// The caller of a token, which is configured by a key and its value.
fn read_token(
    alloc: Global,
    key: &str,
    value: &Value,
    memberships: &TextMap<Names>,
) -> Result<Caller, Refusal>
    ensures ok { IfOk result (λ caller. token_of (names_at memberships.now) (key.now, view value.now) ≡ Some (key.now, caller)) }
    ensures bad { IsErrOf result Refusal.BadKey → token_of (names_at memberships.now) (key.now, view value.now) ≡ None }
{
    if !is_token(key.as_bytes()) {
        return Err(Refusal::BadKey);
    }
    let user = read_user(alloc, value)?;
    let groups = groups_for(alloc, memberships, &user)?;
    Ok(Caller {
        user: Some(user),
        groups,
    })
}

// The groups of a user.
fn groups_for(alloc: Global, memberships: &TextMap<Names>, user: &Name) -> Result<Names, AllocError>
    ensures { IfOk result (λ names. names ≡ names_at memberships.now user.now) }
{
    match memberships.get(user.text()) {
        Some(names) => names.copy(),
        None => Ok(Names::new(alloc)),
    }
}
