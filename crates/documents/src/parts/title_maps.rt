//! The links of a group of a document, by their titles.

ghost use Rattle.std.specs.Prelude.{◌≡◌, OnOk, OnErr};
ghost use Rattle.std.specs.FinMap as finite;
ghost use Rattle.std.specs.Option.{option_copied};
ghost use Rattle.containers.specs.TextMaps.Nexts.{IsKeyStep, IsNext};
ghost use Rattle.object_ids.specs.Puts.{Blames, put_fault};
ghost use Rattle.groups_links.specs.GroupLinks.{most_links};
ghost use Rattle.groups_links.specs.Titles.{IsGoodTitle};
ghost use Rattle.documents.specs.Parts.TitleMaps.{AreTargets, IsSoundTarget};

use crate::parts::targets::Target;
use groups_links::MAX_LINKS;
use object_ids::{Name, NameMap, PutFault};
use std::alloc::Global;
use std::marker::Model;

/// The links of a group of a document by their titles, as many as a group may have; each title is
/// one, and each path and file is as short as it must be.
#[derive(Drop)]
pub struct Targets {
    by_title: NameMap<Target>,
}

impl Model for Targets {
    ghost use Rattle.std.specs.FinMap as finite;
    ghost use Rattle.std.specs.Coded.{coded_list, coded_ℕ};
    ghost use Rattle.containers.specs.TextMaps.Keyed.{text_order};
    ghost use Rattle.documents.specs.declared.parts.targets.Target.{Target};
    ghost use Rattle.documents.specs.contracts.parts.targets.Target as target_row;
    ghost use Rattle.documents.specs.Parts.TitleMaps.{AreTargets};

    ghost Value = { finite.FinMap text_order Target };

    ghost coded = { finite.code (coded_list coded_ℕ) target_row.the_row.coded };

    ghost view = { λ a. a.by_title };

    ghost invariant = { λ a. AreTargets a.by_title };
}

impl Targets {
    /// No links. It takes no memory.
    pub fn new(alloc: Global) -> Targets
        ensures { result ≡ finite.empty }
    {
        Targets {
            by_title: NameMap::new(alloc),
        }
    }

    /// What is true of the links of every group.
    pub fn is_whole(&self)
        ensures { AreTargets self.now }
    {
        let _links = &self.by_title;
    }

    /// The link of a title.
    pub fn get(&self, title: &Name) -> Option<&Target>
        ensures { option_copied result ≡ finite.get self.now title.now }
    {
        self.by_title.get(title.text())
    }

    /// The least title behind another, or the least of all.
    pub fn next_title(&self, after: Option<&Name>) -> Option<&Name>
        ensures least { IsNext self.now (option_copied after.entry) (option_copied result) }
        ensures step { IsKeyStep self.now (option_copied after.entry) (option_copied result) }
    {
        match after {
            Some(title) => self.by_title.next_name(Some(title.text())),
            None => self.by_title.next_name(None),
        }
    }

    /// Puts a link at a title that has none. After an error the links are as they were.
    ///
    /// # Errors
    ///
    /// `Taken` where the title has a link, else `Limit` where there are as many as a group may have,
    /// else `NoMemory`.
    pub fn put(&mut self, title: Name, target: Target) -> Result<(), PutFault>
        requires title { IsGoodTitle title }
        requires target { IsSoundTarget target }
        ensures ok { OnOk result (self.new ≡ finite.insert self.old title target) }
        ensures err { OnErr result (self.new ≡ self.old) }
        ensures why { Blames result (put_fault most_links self.old title) }
    {
        self.by_title.put_within(MAX_LINKS, title, target)
    }
}
