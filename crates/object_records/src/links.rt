//! The links that a list of trees spells.

ghost use Rattle.std.specs.Prelude.{IfOk, map};
ghost use Rattle.std.specs.FinMap as finite;
ghost use Rattle.serde_json.specs.View.{view};
ghost use Rattle.json_trees.specs.Shown.{shown};
ghost use Rattle.groups_links.specs.GroupLinks.{most_links};
ghost use Rattle.groups_links.specs.Titles.{IsGoodTitle};
ghost use Rattle.object_records.specs.Readings.{Reads};
ghost use Rattle.object_records.specs.Lists.{links_in, listed, put_in, title_at, titled_in};

use crate::BodyFault;
use crate::names::name_at;
use groups_links::{Links, MAX_TITLE, good_title, read_link};
use json_trees::list_items;
use object_ids::Name;
use serde_json::Value;
use std::alloc::Global;

/// The links of a list, of which an absent one has none.
pub(crate) fn links_in(alloc: Global, tree: Option<&Value>) -> Result<Links, BodyFault>
    ensures { Reads (λ links. links) result (links_in (shown tree.entry)) }
{
    let Some(tree) = tree else {
        return Ok(Links::new(alloc));
    };
    let Some(items) = list_items(tree) else {
        return Err(BodyFault::NoObject);
    };
    listed(alloc, items)
}

fn listed(alloc: Global, items: &[Value]) -> Result<Links, BodyFault>
    ensures { Reads (λ links. links) result
        (listed most_links titled_in finite.empty (map view items.now)) }
{
    let mut links = Links::new(alloc);
    for item in items {
        put_link(alloc, &mut links, item)?;
    }
    Ok(links)
}

// Puts the link that a tree spells.
fn put_link(alloc: Global, links: &mut Links, tree: &Value) -> Result<(), BodyFault>
    ensures { Reads (λ _. links.new) result
        (put_in most_links titled_in links.old (view tree.now)) }
{
    let title = title_at(alloc, tree)?;
    let link = read_link(alloc, tree)?;
    links.put(title, link)?;
    Ok(())
}

fn title_at(alloc: Global, tree: &Value) -> Result<Name, BodyFault>
    ensures reads { Reads (λ title. title) result (title_at (view tree.now)) }
    ensures good { IfOk result IsGoodTitle }
{
    let title = name_at(alloc, tree, "title", MAX_TITLE)?;
    if good_title(&title) {
        Ok(title)
    } else {
        Err(BodyFault::NoObject)
    }
}
