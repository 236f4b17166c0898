//! The links of a group.

ghost use Rattle.std.specs.Prelude.{◌≡◌, ◌↔◌, IfOk, IsTrue, OnErr, OnOk, is_ok};
ghost use Rattle.std.specs.Prelude.{map as each};
ghost use Rattle.std.specs.FinMap as map;
ghost use Rattle.std.specs.Option.{option_copied};
ghost use Rattle.serde_json.specs.Data.{array};
ghost use Rattle.serde_json.specs.View.{items_of, view};
ghost use Rattle.containers.specs.TextMaps.Nexts.{IsKeyStep, IsNext};
ghost use Rattle.object_ids.specs.Puts.{Blames, put_fault};
ghost use Rattle.groups_links.specs.GroupLinks.{AreLinks, most_links};
ghost use Rattle.groups_links.specs.Printed.{link_tree, links_list};
ghost use Rattle.groups_links.specs.Targets.{IsSoundLink};
ghost use Rattle.groups_links.specs.Titles.{IsGoodTitle};

use crate::MAX_LINKS;
use crate::printing::link_json;
use crate::target::LinkTo;
use object_ids::{Name, NameMap, Named, NoName, PutFault};
use serde_json::Value;
use shapes::Form;
use std::alloc::{AllocError, Global};
use std::collections::BTreeMap;
use std::marker::Model;

/// The links of a group by their titles, of which there are at most [`MAX_LINKS`].
#[derive(Drop)]
pub struct Links {
    by_title: NameMap<LinkTo>,
}

impl Model for Links {
    ghost use Rattle.std.specs.FinMap as map;
    ghost use Rattle.std.specs.Coded.{coded_list, coded_ℕ};
    ghost use Rattle.containers.specs.TextMaps.Keyed.{text_order};
    ghost use Rattle.groups_links.specs.declared.target.LinkTo.{LinkTo};
    ghost use Rattle.groups_links.specs.contracts.target.LinkTo as link_row;
    ghost use Rattle.groups_links.specs.GroupLinks.{AreLinks};

    ghost Value = { map.FinMap text_order LinkTo };

    ghost coded = { map.code (coded_list coded_ℕ) link_row.the_row.coded };

    ghost view = { λ a. a.by_title };

    ghost invariant = { λ a. AreLinks a.by_title };
}

impl Links {
    /// No links. It takes no memory.
    pub fn new(alloc: Global) -> Links
        ensures { result ≡ map.empty }
    {
        Links {
            by_title: NameMap::new(alloc),
        }
    }

    /// How many links there are.
    pub fn len(&self) -> u64
        ensures count { result ≡ map.len self.now }
        ensures whole { AreLinks self.now }
    {
        self.by_title.len() as u64
    }

    /// Whether there are no links.
    pub fn is_empty(&self) -> bool
        ensures { IsTrue result ↔ (map.len self.now ≡ 0) }
    {
        self.by_title.is_empty()
    }

    /// The link of a title.
    pub fn get(&self, title: &Name) -> Option<&LinkTo>
        ensures { option_copied result ≡ map.get self.now title.now }
    {
        self.by_title.get(title.text())
    }

    /// Puts a link at a title that has none. After an error the links are as they were.
    ///
    /// # Errors
    ///
    /// [`PutFault::Taken`] where the title has a link, else [`PutFault::Limit`] where there are
    /// [`MAX_LINKS`], else [`PutFault::NoMemory`] only where memory runs out.
    pub fn put(&mut self, title: Name, link: LinkTo) -> Result<(), PutFault>
        requires title { IsGoodTitle title }
        requires link { IsSoundLink link }
        ensures ok { OnOk result (self.new ≡ map.insert self.old title link) }
        ensures err { OnErr result (self.new ≡ self.old) }
        ensures why { Blames result (put_fault most_links self.old title) }
    {
        // The text of a title is a name, as the links keep it.
        let _text = title.text();
        self.by_title.put_within(MAX_LINKS, title, link)
    }

    /// Takes out a title and its link.
    ///
    /// # Errors
    ///
    /// [`NoName`] where the title has no link; the links are then as they were.
    pub fn remove(&mut self, title: &Name) -> Result<(), NoName>
        ensures there { is_ok result ≡ map.contains_key self.old title.now }
        ensures ok { OnOk result (self.new ≡ map.remove self.old title.now) }
        ensures err { OnErr result (self.new ≡ self.old) }
    {
        let Some(_) = self.by_title.remove(title.text()) else {
            return Err(NoName);
        };
        Ok(())
    }

    /// The least title behind another, or the least of all.
    pub fn next_title(&self, after: Option<&Name>) -> Option<&Name>
        ensures least { IsNext self.now (option_copied after.entry) (option_copied result) }
        ensures step { IsKeyStep self.now (option_copied after.entry) (option_copied result) }
    {
        match after {
            Some(title) => self.by_title.next_name(Some(title.text())),
            None => self.by_title.next_name(None),
        }
    }

    /// The list of the links' trees, in byte order of their titles.
    ///
    /// # Errors
    ///
    /// Only where memory runs out.
    pub fn list(&self, alloc: Global, form: Form) -> Result<Value, AllocError>
        ensures { IfOk result (λ tree. view tree ≡ links_list self.now form) }
    {
        listed(alloc, self.by_title.as_tree(), form)
    }
}

fn listed(
    alloc: Global,
    links: &BTreeMap<String, Named<LinkTo>>,
    form: Form,
) -> Result<Value, AllocError>
    ensures { IfOk result (λ tree. view tree
        ≡ array (items_of (each (λ e. link_tree e.1.name e.1.value form) links.now.entries))) }
{
    let mut items = Vec::new(alloc);
    for (_, link) in links {
        items.push(link_json(alloc, &link.name, &link.value, form)?)?;
    }
    Ok(Value::Array(items))
}
