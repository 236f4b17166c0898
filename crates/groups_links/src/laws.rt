//! What holds of links, in other words than the definitions.

ghost use Rattle.std.specs.Prelude.{◌≡◌, ◌↔◌, ℕ, List, Some, codes};
ghost use Rattle.serde_json.specs.Data.{string};
ghost use Rattle.serde_json.specs.Find.{get};
ghost use Rattle.object_ids.specs.Ids.{InRange, text_of_id};
ghost use Rattle.object_ids.specs.IdValues.{Id};
ghost use Rattle.shapes.specs.declared.printing.Form.{Form};
ghost use Rattle.groups_links.specs.GroupLinks.{most_links};
ghost use Rattle.groups_links.specs.IdTexts.{id_of};
ghost use Rattle.groups_links.specs.Printed.{link_tree};
ghost use Rattle.groups_links.specs.Targets.{IsSoundLink, link_in, most_of_text};
ghost use Rattle.groups_links.specs.Titles.{most_of_title};
ghost use Rattle.groups_links.specs.declared.target.LinkTo.{LinkTo};
ghost use Rattle.groups_links.specs.declared.TheConstants.{MAX_LINKS, MAX_TEXT, MAX_TITLE};

/// The limits, as numbers.
pub fn limits_of_links()
    ensures links { (MAX_LINKS ≡ 65_536) × (most_links ≡ 65_536) }
    ensures title { (MAX_TITLE ≡ 255) × (most_of_title ≡ 255) }
    ensures text { (MAX_TEXT ≡ 1024) × (most_of_text ≡ 1024) }
{}

/// A text is read as an id exactly where it is that id's text.
pub fn id_texts_are_read()
    ensures { (text : List ℕ) (id : Id)
        → ((id_of text ≡ Some id) ↔ (InRange id × (text_of_id id ≡ text))) }
{}

/// The tree of a link spells that link, in each form, and has its title.
pub fn printed_links_read_back()
    ensures link { (title : List ℕ) (link : LinkTo) (form : Form) → IsSoundLink link
        → link_in (link_tree title link form) ≡ Some link }
    ensures title { (title : List ℕ) (link : LinkTo) (form : Form)
        → get (codes "title") (link_tree title link form) ≡ Some (string title) }
{}
