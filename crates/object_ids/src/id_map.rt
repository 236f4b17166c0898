// Maps from ids.
ghost use Rattle.std.specs.Prelude.{◌≡◌, Some, OnOk, OnErr, option_map};
ghost use Rattle.std.specs.Borrow.{LendsIf, sem};
ghost use Rattle.std.specs.FinMap as map;
ghost use Rattle.std.specs.BTreeMap.{IsOrdered};
ghost use Rattle.std.specs.Option.{option_copied, option_copied_mut};
ghost use Rattle.object_ids.specs.IdOrder.{id_order};
ghost use Rattle.object_ids.specs.contracts.id_map.IdMap.{the_row};
ghost use Rattle.containers.specs.TextMaps.Nexts.{first, left, IsNext, IsKeyStep};

use crate::ids::ObjectId;
use containers::text_maps::entry_behind;
use std::alloc::{AllocError, Global};
use std::collections::BTreeMap;
use std::marker::Model;

/// A map from ids to values, in the order of the ids.
#[derive(Drop)]
pub struct IdMap<V> {
    entries: BTreeMap<ObjectId, V>,
}

impl<V> Model for IdMap<V> {
    ghost use Rattle.std.specs.FinMap as map;
    ghost use Rattle.object_ids.specs.IdOrder.{id_order};
    ghost use Rattle.object_ids.specs.contracts.ids.ObjectId as id_row;

    ghost Value = { map.FinMap id_order V };

    ghost coded = { map.code id_row.the_row.coded V.code };

    ghost view = { λ a. map.from_entries a.entries.entries };
}

impl<V> IdMap<V> {
    /// A map without entries. It takes no memory.
    pub fn new(alloc: Global) -> Self
        ensures { result ≡ map.empty }
    {
        IdMap {
            entries: BTreeMap::new(alloc),
        }
    }

    /// How many ids the map has.
    pub fn len(&self) -> usize
        ensures { result ≡ map.len self.now }
    {
        self.entries.len()
    }

    /// The value at an id.
    pub fn get(&self, id: &ObjectId) -> Option<&V>
        ensures { option_copied result ≡ map.get self.now id.now }
    {
        self.entries.get(id)
    }

    /// The value at an id, to be changed in place.
    pub fn get_mut(&mut self, id: &ObjectId) -> Option<&mut V>
        ensures* writes_back { sem 𝓛 (LendsIf (the_row V.row) V.row self.entry result
            (map.insert self.old id.now) self.old) }
        ensures value { option_copied_mut result ≡ map.get self.old id.now }
    {
        self.entries.get_mut(id)
    }

    /// The entries, in the order of the ids.
    pub fn as_tree(&self) -> &BTreeMap<ObjectId, V>
        ensures { map.entries self.now ≡ result.now.entries }
    {
        let _count = self.entries.len();
        &self.entries
    }

    /// The least id behind another, or the least of all.
    pub fn next_id(&self, after: Option<&ObjectId>) -> Option<ObjectId>
        ensures least { IsNext self.now (option_copied after.entry) result }
        ensures step { IsKeyStep self.now (option_copied after.entry) result }
    {
        let (id, _) = next_entry(&self.entries, after)?;
        Some(*id)
    }
}

impl<V: Drop> IdMap<V> {
    /// Puts a value at an id, in place of any that is there. An error leaves the map as it was, and comes only where the
    /// id is new.
    pub fn put(&mut self, id: ObjectId, value: V) -> Result<(), AllocError>
        ensures ok { OnOk result (self.new ≡ map.insert self.old id value) }
        ensures err { OnErr result (self.new ≡ self.old) }
        ensures absent { OnErr result (map.get self.old id ≡ None) }
    {
        self.entries.insert(id, value)?;
        Ok(())
    }

    /// Takes an id and its value out of the map, and gives the value.
    pub fn remove(&mut self, id: &ObjectId) -> Option<V>
        ensures value { result ≡ map.get self.old id.now }
        ensures rest { self.new ≡ map.remove self.old id.now }
    {
        self.entries.remove(id)
    }
}

// The first entry behind an id, or the first of all.
fn next_entry<'a, V>(
    entries: &'a BTreeMap<ObjectId, V>,
    after: Option<&'a ObjectId>,
) -> Option<(&'a ObjectId, &'a V)>
    ensures first { option_map (λ e. (e.0.now, e.1.now)) result
        ≡ first (left id_order (option_copied after.entry) entries.now.entries) }
    ensures ordered { IsOrdered id_order entries.now }
{
    match after {
        Some(id) => entry_behind(entries, id),
        None => entries.iter().next(),
    }
}
