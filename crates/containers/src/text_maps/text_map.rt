// Maps from texts.
ghost use Rattle.std.specs.Prelude.{◌≡◌, ◌↔◌, List, ℕ, Some, OnOk, OnErr, IfSome, IfNone, IfOk, IsTrue};
ghost use Rattle.std.specs.Prelude.{string_bytes, is_some, option_map};
ghost use Rattle.std.specs.Borrow.{LendsIf, sem};
ghost use Rattle.std.specs.FinMap as map;
ghost use Rattle.std.specs.Option.{option_copied, option_copied_mut};
ghost use Rattle.std.specs.BTreeMap.{UpdatesBy, IsUnchanged};
ghost use Rattle.std.specs.Cmp.Lexicographic.{slice_cmp};
ghost use Rattle.std.specs.Ordering.{nat_cmp};
ghost use Rattle.std.specs.String.{string_cmp};
ghost use Rattle.containers.specs.TextMaps.Keyed.{text_order, keyed};
ghost use Rattle.containers.specs.TextMaps.Nexts.{IsNext, IsStep};
ghost use Rattle.containers.specs.contracts.text_maps.text_map.TextMap.{the_row};

use crate::text_maps::nexts::next_entry;
use crate::text_maps::replace::replace;
use std::alloc::{AllocError, Global};
use std::collections::BTreeMap;
use std::marker::Model;

/// A map from texts to values, in the order of the texts' bytes.
#[derive(Drop)]
pub struct TextMap<V> {
    alloc: Global,
    entries: BTreeMap<String, V>,
}

impl<V> Model for TextMap<V> {
    ghost use Rattle.std.specs.Prelude.{List, ℕ, string_bytes};
    ghost use Rattle.std.specs.FinMap as map;
    ghost use Rattle.std.specs.Coded.{coded_ℕ, coded_list};
    ghost use Rattle.containers.specs.TextMaps.Keyed.{text_order, keyed};

    ghost Value = { map.FinMap text_order V };

    ghost coded = { map.code (coded_list coded_ℕ) V.code };

    ghost view = { λ a. map.from_entries (keyed string_bytes a.entries.entries) };
}

impl<V> TextMap<V> {
    /// A map without entries. It takes no memory.
    pub fn new(alloc: Global) -> Self
        ensures { result ≡ map.empty }
    {
        TextMap {
            alloc,
            entries: BTreeMap::new(alloc),
        }
    }

    /// How many keys the map has.
    pub fn len(&self) -> usize
        ensures { result ≡ map.len self.now }
    {
        self.entries.len()
    }

    /// Whether the map has no key.
    pub fn is_empty(&self) -> bool
        ensures { IsTrue result ↔ (map.len self.now ≡ 0) }
    {
        self.len() == 0
    }

    /// The value at a text.
    pub fn get(&self, key: &str) -> Option<&V>
        ensures { option_copied result ≡ map.get self.now key.now }
    {
        self.entries.get(key)
    }

    /// The entries, in the order of the texts' bytes.
    pub fn as_tree(&self) -> &BTreeMap<String, V>
        ensures { map.entries self.now ≡ keyed string_bytes result.now.entries }
    {
        let _count = self.entries.len();
        &self.entries
    }

    /// The entry of the least text behind another, or of the least text of all. Where the map has the other text, it is
    /// found in the order of the tree; else each text before it is looked at.
    pub fn next_key(&self, after: Option<&str>) -> Option<(&str, &V)>
        ensures least { IsNext self.now (option_copied after.entry) (option_map (λ e. e.0.now) result) }
        ensures value { IfSome result (λ e. map.get self.now e.0.now ≡ Some e.1.now) }
        ensures step { IsStep self.now (option_copied after.entry)
            (option_map (λ e. (e.0.now, e.1.now)) result) }
    {
        let (key, value) = next_entry(&self.entries, after)?;
        Some((key.as_str(), value))
    }

    /// Whether the map has a value at a text.
    pub fn contains_key(&self, key: &str) -> bool
        ensures { result ≡ map.contains_key self.now key.now }
    {
        self.entries.contains_key(key)
    }
}

impl<V> TextMap<V> {
    /// The value at a text, to be changed in place.
    pub fn get_mut(&mut self, key: &str) -> Option<&mut V>
        ensures* writes_back { sem 𝓛 (LendsIf (the_row V.row) V.row self.entry result
            (map.insert self.old key.now) self.old) }
        ensures value { option_copied_mut result ≡ map.get self.old key.now }
    {
        self.entries.get_mut(key)
    }
}

impl<V: Drop> TextMap<V> {
    /// Puts a value at a text, in place of any that is there. An error leaves the map as it was, and comes only where
    /// the text is new.
    pub fn put(&mut self, key: String, value: V) -> Result<(), AllocError>
        ensures ok { OnOk result (self.new ≡ map.insert self.old (string_bytes key) value) }
        ensures err { OnErr result (self.new ≡ self.old) }
        ensures absent { OnErr result (map.get self.old (string_bytes key) ≡ None) }
    {
        self.entries.insert(key, value)?;
        Ok(())
    }

    /// As `put`, at a copy of a borrowed text, which is made only where the text is new.
    pub fn put_copy(&mut self, key: &str, value: V) -> Result<(), AllocError>
        ensures ok { OnOk result (self.new ≡ map.insert self.old key.now value) }
        ensures err { OnErr result (self.new ≡ self.old) }
        ensures absent { OnErr result (map.get self.old key.now ≡ None) }
    {
        match replace(&mut self.entries, key, value) {
            Some(value) => {
                let copy = String::from_str(self.alloc, key)?;
                self.put(copy, value)
            }
            None => Ok(()),
        }
    }

    /// Takes a text and its value out of the map, and gives the value.
    pub fn remove(&mut self, key: &str) -> Option<V>
        ensures value { result ≡ map.get self.old key.now }
        ensures rest { self.new ≡ map.remove self.old key.now }
    {
        self.entries.remove(key)
    }
}
