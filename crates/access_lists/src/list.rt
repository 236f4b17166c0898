ghost use Rattle.std.specs.Prelude.{◌≡◌, ◌↔◌, ◌≤◌, OnOk, OnErr, IfOk, IsErrOf, IsTrue};
ghost use Rattle.std.specs.FinMap as map;
ghost use Rattle.std.specs.Option.{option_copied};
ghost use Rattle.containers.specs.TextMaps.Nexts.{IsNext, IsKeyStep};
ghost use Rattle.object_ids.specs.NamedEntries.{named_entries};
ghost use Rattle.access_lists.specs.InForce.{most_entries};
ghost use Rattle.access_lists.specs.Lists.{IsList};
ghost use Rattle.access_lists.specs.declared.list.ListFault.TheVariants.{NoMemory};

use crate::rights::Rights;
use object_ids::{Name, NameMap, Named};
use std::alloc::{AllocError, Global};
use std::collections::BTreeMap;
use std::marker::Model;

/// The most entries of a list.
pub const MAX_ENTRIES: usize = 1024;

/// An access list: an entry for each of some names. A user's name stands for that user, `g:` and a group's name for the
/// users of that group, and `default` for everybody else.
#[derive(Drop)]
pub struct AccessList {
    entries: NameMap<Rights>,
}

impl Model for AccessList {
    ghost use Rattle.std.specs.Prelude.{ℕ, List};
    ghost use Rattle.std.specs.FinMap as map;
    ghost use Rattle.std.specs.Coded.{coded_ℕ, coded_list};
    ghost use Rattle.containers.specs.TextMaps.Keyed.{text_order};
    ghost use Rattle.access_lists.specs.declared.rights.Rights.{Rights};
    ghost use Rattle.access_lists.specs.contracts.rights.Rights as rights;
    ghost use Rattle.access_lists.specs.Lists.{IsList};

    ghost Value = { map.FinMap text_order Rights };

    ghost coded = { map.code (coded_list coded_ℕ) rights.the_row.coded };

    ghost view = { λ a. a.entries };

    ghost invariant = { λ a. IsList a.entries };
}

/// Why an entry was not put into a list.
#[derive(Clone, Copy, Debug, PartialEq, Eq)]
pub enum ListFault {
    /// The name is new, and the list has its most entries.
    Limit,
    /// There was no memory for the entry.
    NoMemory,
}

impl From<AllocError> for ListFault {
    ghost from_gives = { λ _ e. e ≡ NoMemory };

    fn from(_error: AllocError) -> ListFault {
        ListFault::NoMemory
    }
}

impl AccessList {
    /// A list without entries. It takes no memory.
    pub fn new(alloc: Global) -> AccessList
        ensures { result ≡ map.empty }
    {
        AccessList {
            entries: NameMap::new(alloc),
        }
    }

    /// A list with one entry.
    pub fn of(alloc: Global, name: Name, rights: Rights) -> Result<AccessList, AllocError>
        ensures { IfOk result (λ list. list ≡ map.insert map.empty name rights) }
    {
        let _ = name.text();
        let mut entries = NameMap::new(alloc);
        entries.put(name, rights)?;
        Ok(AccessList { entries })
    }

    /// What is true of every list: it has at most 1,024 entries, and each stands under a name.
    pub fn is_whole(&self)
        ensures { IsList self.now }
    {
        let _entries = &self.entries;
    }

    /// How many entries the list has.
    pub fn len(&self) -> usize
        ensures len { result ≡ map.len self.now }
        ensures most { map.len self.now ≤ most_entries }
    {
        self.entries.len()
    }

    /// Whether the list has no entry.
    pub fn is_empty(&self) -> bool
        ensures { IsTrue result ↔ (map.len self.now ≡ 0) }
    {
        self.entries.is_empty()
    }

    /// The entry of a name.
    pub fn get(&self, name: &Name) -> Option<Rights>
        ensures { result ≡ map.get self.now name.now }
    {
        self.entry(name.text())
    }

    /// The least name behind another, in the order of their bytes, or the least of all.
    pub fn next_name(&self, after: Option<&Name>) -> Option<&Name>
        ensures least { IsNext self.now (option_copied after.entry) (option_copied result) }
        ensures step { IsKeyStep self.now (option_copied after.entry) (option_copied result) }
    {
        match after {
            Some(name) => self.entries.next_name(Some(name.text())),
            None => self.entries.next_name(None),
        }
    }

    /// Puts an entry under a name, in place of any that is there. After an error the list is as it was.
    pub fn put(&mut self, name: Name, rights: Rights) -> Result<(), ListFault>
        ensures ok { OnOk result (self.new ≡ map.insert self.old name rights) }
        ensures err { OnErr result (self.new ≡ self.old) }
        ensures limit { IsErrOf result ListFault.Limit
            ↔ ((map.get self.old name ≡ None) × (most_entries ≤ map.len self.old)) }
        ensures memory { IsErrOf result ListFault.NoMemory → map.get self.old name ≡ None }
    {
        if self.is_full_for(name.text()) {
            return Err(ListFault::Limit);
        }
        self.entries.put(name, rights)?;
        Ok(())
    }

    /// Whether a name has no entry, and there is no room for one. Takes no memory.
    pub fn is_full_for(&self, text: &str) -> bool
        ensures { IsTrue result
            ↔ ((map.get self.now text.now ≡ None) × (most_entries ≤ map.len self.now)) }
    {
        self.entry(text).is_none() && self.entries.len() >= MAX_ENTRIES
    }

    // The entry that stands under a text.
    pub(crate) fn entry(&self, text: &str) -> Option<Rights>
        ensures { result ≡ map.get self.now text.now }
    {
        self.entries.get(text).copied()
    }

    // The names with their entries, in the order of the names' bytes.
    pub(crate) fn as_tree(&self) -> &BTreeMap<String, Named<Rights>>
        ensures { map.entries self.now ≡ named_entries result.now.entries }
    {
        self.entries.as_tree()
    }
}
