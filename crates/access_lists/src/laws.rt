//! What holds of all lists and of their trees.
ghost use Rattle.std.specs.Prelude.{◌≡◌, ◌⊎◌, ◌↔◌, ℕ, List, Some, None, option_map};
ghost use Rattle.std.specs.FinMap as map;
ghost use Rattle.serde_json.specs.Data.{Data};
ghost use Rattle.serde_json.specs.Find.{as_object, get};
ghost use Rattle.access_lists.specs.EntryTrees.{IsEntry, entry_in, entry_tree, list_in, list_tree};
ghost use Rattle.access_lists.specs.EntryTrees.{truth_at};
ghost use Rattle.access_lists.specs.InForce.{Entries, most_entries};
ghost use Rattle.access_lists.specs.RightWords.{all_rights, right_name};
ghost use Rattle.access_lists.specs.declared.right.Right.{Right};
ghost use Rattle.access_lists.specs.declared.rights.Rights.{Rights};
ghost use Rattle.access_lists.specs.declared.list.TheConstants.{MAX_ENTRIES};

use crate::rights::Rights;

/// A list has at most 1,024 entries.
pub fn entry_limit()
    ensures defined { most_entries ≡ 1024 }
    ensures counted { MAX_ENTRIES ≡ 1024 }
{}

/// The entry with all rights has each of the six.
pub fn all_six_rights()
    ensures { Rights.ALL ≡ all_rights }
{
    let _all = Rights::ALL;
}

/// Which trees are entries, and what the trees of entries and lists are read as.
pub fn trees_of_entries()
    ensures entry { (d : Data) (entry : Rights) → ((entry_in d ≡ Some entry) ↔ IsEntry d entry) }

    // No entry is a tree that is no object, or that has something else at one of the six keys.
    ensures other { (d : Data) → ((entry_in d ≡ None)
        ↔ ((as_object d ≡ None) ⊎ ((right : Right) × (truth_at (right_name right) d ≡ None)))) }
    ensures entry_back { (entry : Rights) → entry_in (entry_tree entry) ≡ Some entry }

    // Each entry of a list stands at its name, and nothing else does.
    ensures named { (list : Entries) (name : List ℕ)
        → get name (list_tree list) ≡ option_map entry_tree (map.get list name) }
    ensures list_back { (list : Entries) → list_in (list_tree list) ≡ Some list }
{}
