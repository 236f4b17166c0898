// A value in place of another.
ghost use Rattle.std.specs.Prelude.{◌≡◌, Some, IfSome, IfNone};
ghost use Rattle.std.specs.BTreeMap.{UpdatesBy, IsUnchanged, get_by};

use std::collections::BTreeMap;
use std::collections::btree_map::Comparable;

/// Writes a value at a key that the map has, or gives the value back.
pub(crate) fn replace<K: Ord, V: Drop, Q: Comparable<K>>(
    entries: &mut BTreeMap<K, V>,
    key: Q,
    value: V,
) -> Option<V>
    ensures there { IfNone result
        (UpdatesBy K.cmp (Q.compare key) entries.old entries.new (Some value)) }
    ensures unchanged { IfSome result (λ _. IsUnchanged entries.old entries.new) }
    ensures absent { IfSome result (λ _. get_by (Q.compare key) entries.old ≡ None) }
    ensures given_back { IfSome result (λ v. v ≡ value) }
{
    match entries.get_mut(key) {
        Some(slot) => {
            *slot = value;
            None
        }
        None => Some(value),
    }
}
