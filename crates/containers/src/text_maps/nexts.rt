// The next entry of a map, in the order of its keys.
ghost use Rattle.std.specs.Prelude.{◌≡◌, Some, option_map, true};
ghost use Rattle.std.specs.BTreeMap.{IsOrdered};
ghost use Rattle.std.specs.List.{filter};
ghost use Rattle.std.specs.Ordering.{is_lt};
ghost use Rattle.containers.specs.TextMaps.Nexts.{first, is_behind, left};

use std::cmp::Ordering;
use std::collections::BTreeMap;
use std::collections::btree_map::Comparable;
use std::ops::Bound;

// The first entry behind a key, or the first of all.
pub(crate) fn next_entry<'a, K: Ord, V, Q: Comparable<K>>(
    entries: &'a BTreeMap<K, V>,
    after: Option<Q>,
) -> Option<(&'a K, &'a V)>
    ensures first { option_map (λ e. (e.0.now, e.1.now)) result
        ≡ first (filter (λ e. is_behind Q.compare after e.0) entries.now.entries) }
    ensures ordered { IsOrdered K.cmp entries.now }
{
    let Some(after) = after else {
        return entries.iter().next();
    };
    match entries.get_key_value(after) {
        Some((held, _)) => entry_behind(entries, held),
        None => behind(entries, after),
    }
}

/// The entry of the least key of a tree behind another.
pub fn entry_behind<'a, K: Ord, V>(
    entries: &'a BTreeMap<K, V>,
    key: &'a K,
) -> Option<(&'a K, &'a V)>
    ensures first { option_map (λ e. (e.0.now, e.1.now)) result
        ≡ first (left K.cmp (Some key.now) entries.now.entries) }
    ensures ordered { IsOrdered K.cmp entries.now }
{
    entries
        .range((Bound::Excluded(key), Bound::Unbounded))
        .next()
}

// The first entry behind a key.
fn behind<'a, K: Ord, V, Q: Comparable<K>>(
    entries: &'a BTreeMap<K, V>,
    after: Q,
) -> Option<(&'a K, &'a V)>
    ensures first { option_map (λ e. (e.0.now, e.1.now)) result
        ≡ first (filter (λ e. is_lt (Q.compare after e.0)) entries.now.entries) }
    ensures ordered { IsOrdered K.cmp entries.now }
{
    for (key, value) in entries {
        if matches!(after.compare(key), Ordering::Less) {
            return Some((key, value));
        }
    }
    None
}
