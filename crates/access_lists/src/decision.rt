ghost use Rattle.std.specs.Prelude.{◌≡◌, option_map, false};
ghost use Rattle.std.specs.Option.{unwrap_or};
ghost use Rattle.access_lists.specs.GroupNames.{names_of};
ghost use Rattle.access_lists.specs.InForce.{default_entry, group_entries, has, joined, own_entry, union_holds};
ghost use Rattle.access_lists.specs.RightWords.{holds};

use crate::group::Group;
use crate::list::AccessList;
use crate::people::Caller;
use crate::right::Right;
use crate::rights::Rights;
use object_ids::Name;

/// The name of the entry for everybody who has no entry of his own and of no group.
const DEFAULT: &str = "default";

/// Whether a list gives a caller a right. The first of these decides: the entry of the caller's user name, the union of
/// the entries of the caller's groups, the entry `default`. Where there is none, the caller has no right. Takes no
/// memory, and looks up one entry for each group of the caller.
pub fn decide(list: &AccessList, caller: &Caller, right: Right) -> bool
    ensures { result ≡ has list.now caller.now right }
{
    if let Some(given) = own_gives(list, &caller.user, right) {
        return given;
    }
    if let Some(given) = groups_give(list, caller.groups.groups(), right) {
        return given;
    }
    default_gives(list, right)
}

// Whether the entry of the user's own name has the right.
fn own_gives(list: &AccessList, user: &Option<Name>, right: Right) -> Option<bool>
    ensures { result ≡ option_map (holds right) (own_entry list.now user.now) }
{
    let name = user.as_ref()?;
    entry_gives(list.get(name), right)
}

// Whether one of the groups' entries has the right.
fn groups_give(list: &AccessList, groups: &[Group], right: Right) -> Option<bool>
    ensures { result ≡ union_holds right (group_entries list.now (names_of groups.now)) }
{
    let mut given = None;
    for group in groups {
        given = joined(given, list.entry(group.key()), right);
    }
    given
}

// What is given by some entries and one more.
fn joined(given: Option<bool>, entry: Option<Rights>, right: Right) -> Option<bool>
    ensures { result ≡ joined (option_map (holds right) entry) given }
{
    match (given, entry) {
        (Some(given), Some(rights)) => Some(given || rights.holds(right)),
        (None, Some(rights)) => Some(rights.holds(right)),
        (given, None) => given,
    }
}

// Whether the entry for everybody else has the right.
fn default_gives(list: &AccessList, right: Right) -> bool
    ensures { result ≡ unwrap_or (option_map (holds right) (default_entry list.now)) false }
{
    match list.entry(DEFAULT) {
        Some(rights) => rights.holds(right),
        None => false,
    }
}

fn entry_gives(entry: Option<Rights>, right: Right) -> Option<bool>
    ensures { result ≡ option_map (holds right) entry }
{
    let rights = entry?;
    Some(rights.holds(right))
}
