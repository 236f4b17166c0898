//! The links of a group of a document.

ghost use Rattle.std.specs.Prelude.{◌≡◌, ◌+◌, ◌<◌, ◌≤◌, IfOk, IfSome, length, map};
ghost use Rattle.std.specs.Prelude.{option_and_then, option_map};
ghost use Rattle.std.specs.FinMap as finite;
ghost use Rattle.serde_json.specs.View.{view};
ghost use Rattle.json_trees.specs.Shown.{shown};
ghost use Rattle.groups_links.specs.GroupLinks.{most_links};
ghost use Rattle.groups_links.specs.Targets.{IsSoundLink, link_in};
ghost use Rattle.documents.specs.Parts.Faults.{Answers, Leaves};
ghost use Rattle.documents.specs.Parts.LinkLists.{hard_of, link_at, link_step, links_at};
ghost use Rattle.documents.specs.Parts.LinkLists.{outward_of, target_at, target_of};
ghost use Rattle.documents.specs.Parts.Items.{each_item};
ghost use Rattle.documents.specs.Parts.TitleMaps.{IsSoundTarget};

use crate::parts::faults::{DocCause, DocFault, refused};
use crate::parts::ids::{IdText, is_id};
use crate::parts::items::{items, members, numbered};
use crate::parts::names::new_title;
use crate::parts::paths::DocPath;
use crate::parts::targets::Target;
use crate::parts::title_maps::Targets;
use groups_links::{LinkFault, LinkTo, MAX_LINKS, read_link};
use json_trees::member_text;
use object_ids::PutFault;
use serde_json::Value;
use std::alloc::{AllocError, Global};

/// The links that a list at a path spells, of which an absent one has none. A hard link leads to
/// any id that the document has; the other links are those of [`read_link`].
///
/// # Errors
///
/// The first fault: of the list that it is none, that it has more than
/// [`MAX_LINKS`](groups_links::MAX_LINKS) members, and then of each member that it is no object, of
/// its title, and of the rest.
#[tactic(auto, unfolding(crate::specs::Parts::LinkLists::links_at))]
pub fn read_links(
    alloc: Global,
    document: &Value,
    path: &str,
    tree: Option<&Value>,
) -> Result<Targets, DocFault>
    ensures { Answers result (links_at (view document.now) path.now (shown tree.entry)) }
{
    let Some(tree) = tree else {
        return Ok(Targets::new(alloc));
    };
    let items = items(alloc, path, MAX_LINKS, tree)?;
    listed(alloc, document, path, items)
}

fn listed(alloc: Global, document: &Value, path: &str, items: &[Value]) -> Result<Targets, DocFault>
    requires { length items.now ≤ most_links }
    ensures { Answers result
        (each_item (link_step (view document.now) path.now) finite.empty 0 (map view items.now)) }
{
    let mut links = Targets::new(alloc);
    for (index, item) in items.iter().enumerate() {
        put_item(alloc, document, path, index, item, &mut links)?;
    }
    Ok(links)
}

fn put_item(
    alloc: Global,
    document: &Value,
    path: &str,
    index: usize,
    item: &Value,
    links: &mut Targets,
) -> Result<(), DocFault>
    requires { finite.len links.old < most_links }
    ensures exact { Leaves result links.new
        (link_step (view document.now) path.now index links.old (view item.now)) }
    ensures many { finite.len links.new ≤ finite.len links.old + 1 }
{
    let path = numbered(alloc, path, index)?;
    put_link(alloc, document, path.text(), item, links)
}

#[tactic(auto, unfolding(crate::specs::Parts::LinkLists::link_at))]
fn put_link(
    alloc: Global,
    document: &Value,
    path: &str,
    item: &Value,
    links: &mut Targets,
) -> Result<(), DocFault>
    requires { finite.len links.old < most_links }
    ensures exact { Leaves result links.new
        (link_at (view document.now) path.now links.old (view item.now)) }
    ensures many { finite.len links.new ≤ finite.len links.old + 1 }
{
    members(alloc, path, item)?;
    let key = DocPath::under(alloc, path, "title")?;
    let title = new_title(alloc, key.text(), links, member_text(item, "title"))?;
    let target = target_at(alloc, document, path, item)?;
    match links.put(title, target) {
        Ok(()) => Ok(()),
        Err(PutFault::NoMemory) => Err(DocFault::NoMemory),
        // The title is new, and there is room.
        Err(PutFault::Taken | PutFault::Limit) => unreachable!(),
    }
}

fn target_at(alloc: Global, document: &Value, path: &str, item: &Value) -> Result<Target, DocFault>
    ensures exact { Answers result (target_at (view document.now) path.now (view item.now)) }
    ensures sound { IfOk result IsSoundTarget }
{
    match target(alloc, document, item)? {
        Some(target) => Ok(target),
        None => Err(refused(alloc, path, DocCause::BadLink)),
    }
}

fn target(alloc: Global, document: &Value, item: &Value) -> Result<Option<Target>, AllocError>
    ensures reads { IfOk result (λ t. t ≡ target_of (view document.now) (view item.now)) }
    ensures sound { IfOk result (λ t. IfSome t IsSoundTarget) }
{
    match item.get("id") {
        Some(id) => hard(alloc, document, id.as_str()),
        None => outward(alloc, item),
    }
}

fn hard(alloc: Global, document: &Value, id: Option<&str>) -> Result<Option<Target>, AllocError>
    ensures reads { IfOk result (λ t. t ≡ hard_of (view document.now)
        (option_map (λ s. s.now) id.entry)) }
    ensures sound { IfOk result (λ t. IfSome t IsSoundTarget) }
{
    let Some(id) = id else {
        return Ok(None);
    };
    if is_id(document, id) {
        Ok(Some(Target::Hard(IdText::new(alloc, id)?)))
    } else {
        Ok(None)
    }
}

// A link that leads to a path.
fn outward(alloc: Global, item: &Value) -> Result<Option<Target>, AllocError>
    ensures reads { IfOk result (λ t. t ≡ option_and_then outward_of (link_in (view item.now))) }
    ensures sound { IfOk result (λ t. IfSome t IsSoundTarget) }
{
    match read_link(alloc, item) {
        Ok(link) => Ok(outward_target(link)),
        Err(LinkFault::NotALink) => Ok(None),
        Err(LinkFault::NoMemory) => Err(AllocError),
    }
}

fn outward_target(link: LinkTo) -> Option<Target>
    requires { IsSoundLink link }
    ensures reads { result ≡ outward_of link }
    ensures sound { IfSome result IsSoundTarget }
{
    match link {
        LinkTo::Hard(_) => None,
        LinkTo::Soft(path) => Some(Target::Soft(path)),
        LinkTo::External { path, file } => Some(Target::External { path, file }),
    }
}
