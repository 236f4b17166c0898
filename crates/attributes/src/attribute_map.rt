//! The attributes of an object, by their names.

ghost use Rattle.std.specs.Prelude.{◌≡◌, ◌≤◌, ◌↔◌, true, false, map, length};
ghost use Rattle.std.specs.Prelude.{OnOk, OnErr, IfOk, IfSome, IsTrue, MatchResult};
ghost use Rattle.std.specs.FinMap as finite;
ghost use Rattle.std.specs.List.{AllByRecursion};
ghost use Rattle.std.specs.Option.{option_copied};
ghost use Rattle.serde_json.specs.Data.{array};
ghost use Rattle.serde_json.specs.View.{view, items_of};
ghost use Rattle.hdf_values.specs.Attributes.{content, IsSoundAttribute};
ghost use Rattle.object_ids.specs.NamedEntries.{named_entries};
ghost use Rattle.object_ids.specs.Puts.{put_fault, Blames};
ghost use Rattle.containers.specs.TextMaps.Nexts.{IsNext, IsKeyStep};
ghost use Rattle.attributes.specs.AttributeMaps.{AreAttributes, most_attributes, longest_name};
ghost use Rattle.attributes.specs.AttributeTrees.{entry_tree, attributes_list};

use crate::MAX_ATTRIBUTES;
use crate::trees::attribute_json;
use hdf_values::Attribute;
use object_ids::{Name, NameMap, Named, NoName, PutFault};
use serde_json::Value;
use shapes::Form;
use std::alloc::{AllocError, Global};
use std::collections::BTreeMap;
use std::marker::Model;

/// The attributes of an object, by their names: at most [`MAX_ATTRIBUTES`], each with a name of at
/// most [`MAX_ATTRIBUTE_NAME`](crate::MAX_ATTRIBUTE_NAME) bytes.
#[derive(Drop)]
pub struct Attributes {
    entries: NameMap<Attribute>,
}

impl Model for Attributes {
    ghost use Rattle.std.specs.Coded.{coded_list, coded_ℕ};
    ghost use Rattle.std.specs.FinMap as finite;
    ghost use Rattle.containers.specs.TextMaps.Keyed.{text_order};
    ghost use Rattle.hdf_values.specs.contracts.attributes.Attribute as attribute;
    ghost use Rattle.hdf_values.specs.declared.attributes.Attribute.{Attribute};
    ghost use Rattle.attributes.specs.AttributeMaps.{AreAttributes};

    ghost Value = { finite.FinMap text_order Attribute };

    ghost coded = { finite.code (coded_list coded_ℕ) attribute.the_row.coded };

    ghost view = { λ a. a.entries };

    ghost invariant = { λ a. AreAttributes a.entries };
}

impl Attributes {
    /// No attribute. It takes no memory.
    pub fn new(alloc: Global) -> Attributes
        ensures { result ≡ finite.empty }
    {
        Attributes {
            entries: NameMap::new(alloc),
        }
    }

    /// How many attributes there are.
    pub fn len(&self) -> u64
        ensures count { result ≡ finite.len self.now }
        ensures most { result ≤ most_attributes }
    {
        self.entries.len() as u64
    }

    /// Whether there is no attribute.
    pub fn is_empty(&self) -> bool
        ensures { IsTrue result ↔ (finite.len self.now ≡ 0) }
    {
        self.entries.is_empty()
    }

    /// What is true of the attributes of every object: they are at most so many, each name is within
    /// its limit, and each attribute is one that some tree spells.
    pub fn is_whole(&self)
        ensures { AreAttributes self.now }
    {
        let _entries = &self.entries;
    }

    /// The attribute at a name.
    pub fn get(&self, name: &Name) -> Option<&Attribute>
        ensures value { option_copied result ≡ finite.get self.now name.now }
        ensures sound { IfSome result (λ a. IsSoundAttribute (content a.now)) }
    {
        self.entries.get(name.text())
    }

    /// Puts an attribute at a name that has none. After an error the attributes are as they were.
    ///
    /// # Errors
    ///
    /// `Taken` where the name has an attribute; else `Limit` where there are [`MAX_ATTRIBUTES`]; else
    /// `NoMemory`.
    pub fn put(&mut self, name: Name, attribute: Attribute) -> Result<(), PutFault>
        requires short { length name ≤ longest_name }
        requires sound { IsSoundAttribute (content attribute) }
        ensures ok { OnOk result (self.new ≡ finite.insert self.old name attribute) }
        ensures err { OnErr result (self.new ≡ self.old) }
        ensures why { Blames result (put_fault most_attributes self.old name) }
    {
        let _text = name.text();
        self.entries.put_within(MAX_ATTRIBUTES, name, attribute)
    }

    /// Takes a name and its attribute out.
    ///
    /// # Errors
    ///
    /// [`NoName`] where the name has no attribute.
    pub fn remove(&mut self, name: &Name) -> Result<(), NoName>
        ensures ok { OnOk result (self.new ≡ finite.remove self.old name.now) }
        ensures err { OnErr result (self.new ≡ self.old) }
        ensures there { MatchResult result
            (λ _. finite.contains_key self.old name.now ≡ true)
            (λ _. finite.contains_key self.old name.now ≡ false) }
    {
        let Some(_) = self.entries.remove(name.text()) else {
            return Err(NoName);
        };
        Ok(())
    }

    /// The least name behind another, or the least of all, in the order of the names' bytes.
    pub fn next_name(&self, after: Option<&Name>) -> Option<&Name>
        ensures least { IsNext self.now (option_copied after.entry) (option_copied result) }
        ensures step { IsKeyStep self.now (option_copied after.entry) (option_copied result) }
    {
        self.entries.next_name(after.map(Name::text))
    }

    /// The trees of the attributes, in byte order of their names, with their values where these are
    /// asked for.
    ///
    /// # Errors
    ///
    /// Only where memory runs out.
    pub fn list(&self, alloc: Global, form: Form, with_value: bool) -> Result<Value, AllocError>
        ensures { IfOk result (λ v. view v ≡ attributes_list self.now form with_value) }
    {
        listed(alloc, self.entries.as_tree(), form, with_value)
    }
}

// The trees of entries, one after another.
fn listed(
    alloc: Global,
    entries: &BTreeMap<String, Named<Attribute>>,
    form: Form,
    with_value: bool,
) -> Result<Value, AllocError>
    requires { AllByRecursion (λ e. IsSoundAttribute (content e.1))
        (named_entries entries.now.entries) }
    ensures { IfOk result (λ v. view v
        ≡ array (items_of (map (entry_tree form with_value) (named_entries entries.now.entries)))) }
{
    let mut items = Vec::new(alloc);
    for (_, named) in entries {
        items.push(attribute_json(alloc, &named.name, &named.value, form, with_value)?)?;
    }
    Ok(Value::Array(items))
}
