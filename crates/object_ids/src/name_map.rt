// Maps by names.
ghost use Rattle.std.specs.Prelude.{◌≡◌, ◌↔◌, List, ℕ, Some, None, OnOk, OnErr, IsTrue, option_map, string_bytes};
ghost use Rattle.std.specs.Borrow.{LendsIf, sem};
ghost use Rattle.std.specs.FinMap as map;
ghost use Rattle.std.specs.Option.{option_copied, option_copied_mut};
ghost use Rattle.object_ids.specs.NamedEntries.{named_entries};
ghost use Rattle.object_ids.specs.Puts.{put_fault, Blames};
ghost use Rattle.object_ids.specs.contracts.name_map.NameMap.{the_row};
ghost use Rattle.containers.specs.TextMaps.Nexts.{IsNext, IsKeyStep};

use crate::names::Name;
use crate::puts::PutFault;
use containers::text_maps::TextMap;
use std::alloc::{AllocError, Global};
use std::collections::BTreeMap;
use std::marker::Model;

/// A name and the value at it.
#[derive(Drop)]
pub struct Named<V> {
    pub name: Name,
    pub value: V,
}

/// A map from names to values, in the order of the names' bytes. It lends the names that it was given.
#[derive(Drop)]
pub struct NameMap<V> {
    alloc: Global,
    entries: TextMap<Named<V>>,
}

impl<V> Model for NameMap<V> {
    ghost use Rattle.std.specs.Prelude.{List, ℕ};
    ghost use Rattle.std.specs.Coded.{coded_ℕ, coded_list};
    ghost use Rattle.std.specs.FinMap as map;
    ghost use Rattle.object_ids.specs.NamedEntries.{AreNamed};
    ghost use Rattle.containers.specs.TextMaps.Keyed.{text_order, with_values};

    ghost Value = { map.FinMap text_order V };

    ghost coded = { map.code (coded_list coded_ℕ) V.code };

    ghost view = { λ a. with_values (λ n. n.value) a.entries };

    // Each name stands at its own text.
    ghost invariant = { λ a. AreNamed a.entries };
}

impl<V> NameMap<V> {
    /// A map without entries. It takes no memory.
    pub fn new(alloc: Global) -> Self
        ensures { result ≡ map.empty }
    {
        NameMap {
            alloc,
            entries: TextMap::new(alloc),
        }
    }

    /// How many names the map has.
    pub fn len(&self) -> usize
        ensures { result ≡ map.len self.now }
    {
        self.entries.len()
    }

    /// Whether the map has no name.
    pub fn is_empty(&self) -> bool
        ensures { IsTrue result ↔ (map.len self.now ≡ 0) }
    {
        self.len() == 0
    }

    /// The value at a name, which is given by its text.
    pub fn get(&self, text: &str) -> Option<&V>
        ensures { option_copied result ≡ map.get self.now text.now }
    {
        match self.entries.get(text) {
            Some(named) => Some(&named.value),
            None => None,
        }
    }

    /// Whether a name has a value.
    pub fn contains(&self, text: &str) -> bool
        ensures { result ≡ map.contains_key self.now text.now }
    {
        self.get(text).is_some()
    }

    /// The value at a name, to be changed in place.
    pub fn get_mut(&mut self, text: &str) -> Option<&mut V>
        ensures* writes_back { sem 𝓛 (LendsIf (the_row V.row) V.row self.entry result
            (map.insert self.old text.now) self.old) }
        ensures value { option_copied_mut result ≡ map.get self.old text.now }
    {
        match self.entries.get_mut(text) {
            Some(named) => Some(&mut named.value),
            None => None,
        }
    }

    /// The names with their values, in the order of the names' bytes.
    pub fn as_tree(&self) -> &BTreeMap<String, Named<V>>
        ensures { map.entries self.now ≡ named_entries result.now.entries }
    {
        self.entries.as_tree()
    }

    /// The least name behind a text, or the least of all. Where the map has the name of that text, it is found in the
    /// order of the tree; else each name before it is looked at.
    pub fn next_name(&self, after: Option<&str>) -> Option<&Name>
        ensures least { IsNext self.now (option_copied after.entry) (option_copied result) }
        ensures step { IsKeyStep self.now (option_copied after.entry) (option_copied result) }
    {
        let (_, named) = self.entries.next_key(after)?;
        Some(&named.name)
    }
}

impl<V: Drop> NameMap<V> {
    /// Puts a value at a name, in place of any that is there. An error leaves the map as it was, and comes only where the
    /// name is new.
    pub fn put(&mut self, name: Name, value: V) -> Result<(), AllocError>
        ensures ok { OnOk result (self.new ≡ map.insert self.old name value) }
        ensures err { OnErr result (self.new ≡ self.old) }
        ensures absent { OnErr result (map.get self.old name ≡ None) }
    {
        match self.entries.get_mut(name.text()) {
            Some(named) => {
                named.value = value;
                Ok(())
            }
            None => self.put_new(name, value),
        }
    }

    // Puts a value at a name that is new.
    fn put_new(&mut self, name: Name, value: V) -> Result<(), AllocError>
        requires { map.get self.old name ≡ None }
        ensures ok { OnOk result (self.new ≡ map.insert self.old name value) }
        ensures err { OnErr result (self.new ≡ self.old) }
    {
        let key = String::from_str(self.alloc, name.text())?;
        self.entries.put(key, Named { name, value })
    }

    /// Puts a value at a new name of a map that is to have at most `most` names. An error leaves the map as it was.
    ///
    /// # Errors
    ///
    /// `Taken` where the name has a value; else `Limit` where there are `most` names or more; else `NoMemory`.
    pub fn put_within(&mut self, most: usize, name: Name, value: V) -> Result<(), PutFault>
        ensures ok { OnOk result (self.new ≡ map.insert self.old name value) }
        ensures err { OnErr result (self.new ≡ self.old) }
        ensures why { Blames result (put_fault most self.old name) }
    {
        if self.contains(name.text()) {
            return Err(PutFault::Taken);
        }
        if self.len() >= most {
            return Err(PutFault::Limit);
        }
        self.put_new(name, value)?;
        Ok(())
    }

    /// Takes a name and its value out of the map, and gives the value.
    pub fn remove(&mut self, text: &str) -> Option<V>
        ensures value { result ≡ map.get self.old text.now }
        ensures rest { self.new ≡ map.remove self.old text.now }
    {
        match self.entries.remove(text) {
            Some(named) => Some(named.value),
            None => None,
        }
    }
}
