// Maps from byte strings.
ghost use Rattle.std.specs.Prelude.{◌≡◌, ◌↔◌, Some, OnOk, OnErr, IfSome, IfNone, IsTrue, vec_items, option_map};
ghost use Rattle.std.specs.Borrow.{LendsIf, sem};
ghost use Rattle.std.specs.BTreeMap.{UpdatesBy, IsUnchanged, get_by};
ghost use Rattle.std.specs.FinMap as map;
ghost use Rattle.std.specs.Option.{option_copied, option_copied_mut};
ghost use Rattle.containers.specs.TextMaps.Keyed.{text_order, keyed};
ghost use Rattle.containers.specs.TextMaps.Nexts.{IsNext, IsStep};
ghost use Rattle.containers.specs.contracts.text_maps.byte_map.ByteMap.{the_row};

use crate::text_maps::nexts::next_entry;
use crate::text_maps::replace::replace;
use std::alloc::{AllocError, Global};
use std::collections::BTreeMap;
use std::marker::Model;

/// A map from byte strings to values, in the order of the bytes.
#[derive(Drop)]
pub struct ByteMap<V> {
    alloc: Global,
    entries: BTreeMap<Vec<u8>, V>,
}

impl<V> Model for ByteMap<V> {
    ghost use Rattle.std.specs.Prelude.{List, ℕ, vec_items};
    ghost use Rattle.std.specs.FinMap as map;
    ghost use Rattle.std.specs.Coded.{coded_ℕ, coded_list};
    ghost use Rattle.containers.specs.TextMaps.Keyed.{text_order, keyed};

    ghost Value = { map.FinMap text_order V };

    ghost coded = { map.code (coded_list coded_ℕ) V.code };

    ghost view = { λ a. map.from_entries (keyed vec_items a.entries.entries) };
}

impl<V> ByteMap<V> {
    /// A map without entries. It takes no memory.
    pub fn new(alloc: Global) -> Self
        ensures { result ≡ map.empty }
    {
        ByteMap {
            alloc,
            entries: BTreeMap::new(alloc),
        }
    }

    /// How many keys the map has.
    pub fn len(&self) -> usize
        ensures { result ≡ map.len self.now }
    {
        self.entries.len()
    }

    /// Whether the map has no key.
    pub fn is_empty(&self) -> bool
        ensures { IsTrue result ↔ (map.len self.now ≡ 0) }
    {
        self.len() == 0
    }

    /// The value at a byte string.
    pub fn get(&self, key: &[u8]) -> Option<&V>
        ensures { option_copied result ≡ map.get self.now key.now }
    {
        self.entries.get(key)
    }

    /// The entries, in the order of the bytes.
    pub fn as_tree(&self) -> &BTreeMap<Vec<u8>, V>
        ensures { map.entries self.now ≡ keyed vec_items result.now.entries }
    {
        let _count = self.entries.len();
        &self.entries
    }

    /// The entry of the least byte string behind another, or of the least one of all. Where the map has the other one,
    /// it is found in the order of the tree; else each byte string before it is looked at.
    pub fn next_key(&self, after: Option<&[u8]>) -> Option<(&[u8], &V)>
        ensures least { IsNext self.now (option_copied after.entry) (option_map (λ e. e.0.now) result) }
        ensures value { IfSome result (λ e. map.get self.now e.0.now ≡ Some e.1.now) }
        ensures step { IsStep self.now (option_copied after.entry)
            (option_map (λ e. (e.0.now, e.1.now)) result) }
    {
        let (key, value) = next_entry(&self.entries, after)?;
        Some((key.as_slice(), value))
    }

    /// Whether the map has a value at a byte string.
    pub fn contains_key(&self, key: &[u8]) -> bool
        ensures { result ≡ map.contains_key self.now key.now }
    {
        self.entries.contains_key(key)
    }
}

impl<V> ByteMap<V> {
    /// The value at a byte string, to be changed in place.
    pub fn get_mut(&mut self, key: &[u8]) -> Option<&mut V>
        ensures* writes_back { sem 𝓛 (LendsIf (the_row V.row) V.row self.entry result
            (map.insert self.old key.now) self.old) }
        ensures value { option_copied_mut result ≡ map.get self.old key.now }
    {
        self.entries.get_mut(key)
    }
}

impl<V: Drop> ByteMap<V> {
    /// Puts a value at a byte string, in place of any that is there. An error leaves the map as it was, and comes
    /// only where the byte string is new.
    pub fn put(&mut self, key: Vec<u8>, value: V) -> Result<(), AllocError>
        ensures ok { OnOk result (self.new ≡ map.insert self.old key.items value) }
        ensures err { OnErr result (self.new ≡ self.old) }
        ensures absent { OnErr result (map.get self.old key.items ≡ None) }
    {
        self.entries.insert(key, value)?;
        Ok(())
    }

    /// As `put`, at a copy of a borrowed byte string, which is made only where the byte string is new.
    pub fn put_copy(&mut self, key: &[u8], value: V) -> Result<(), AllocError>
        ensures ok { OnOk result (self.new ≡ map.insert self.old key.now value) }
        ensures err { OnErr result (self.new ≡ self.old) }
        ensures absent { OnErr result (map.get self.old key.now ≡ None) }
    {
        match replace(&mut self.entries, key, value) {
            Some(value) => {
                let copy = key.to_vec(self.alloc)?;
                self.put(copy, value)
            }
            None => Ok(()),
        }
    }

    /// Takes a byte string and its value out of the map, and gives the value.
    pub fn remove(&mut self, key: &[u8]) -> Option<V>
        ensures value { result ≡ map.get self.old key.now }
        ensures rest { self.new ≡ map.remove self.old key.now }
    {
        self.entries.remove(key)
    }
}
