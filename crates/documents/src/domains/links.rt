//! The links of a group, as a document shows them.

ghost use Rattle.std.specs.Prelude.{◌≡◌, ◌++◌, IfOk, OnOk, map};
ghost use Rattle.std.specs.FinMap.{get};
ghost use Rattle.serde_json.specs.View.{view};
ghost use Rattle.documents.specs.Domains.Domains.{is_there};
ghost use Rattle.documents.specs.Domains.Entries.{is_shown, link_at, links_tree};

use crate::domains::home::Home;
use crate::domains::store::ObjectStore;
use groups_links::{LinkTo, Links, link_json};
use object_ids::{Name, ObjectId};
use serde_json::Value;
use shapes::Form;
use std::alloc::{AllocError, Global};

/// The list of a group's links, in byte order of their titles. A hard link stands there only where its target is an object
/// of the domain.
pub(crate) fn links_json<S: ObjectStore>(
    alloc: Global,
    store: &S,
    home: &Home,
    links: &Links,
) -> Result<Value, AllocError>
    ensures { IfOk result
        (λ tree. view tree ≡ links_tree (S.objects store.now) home.now links.now) }
{
    let mut items = Vec::new(alloc);
    let mut after: Option<&Name> = None;
    while let Some(title) = links.next_title(after) {
        push_link(alloc, store, home, links, title, &mut items)?;
        after = Some(title);
    }
    Ok(Value::Array(items))
}

// The tree of the link at a title, where it is shown.
fn push_link<S: ObjectStore>(
    alloc: Global,
    store: &S,
    home: &Home,
    links: &Links,
    title: &Name,
    items: &mut Vec<Value>,
) -> Result<(), AllocError>
    ensures { OnOk result (map view items.new.items ≡ map view items.old.items
        ++ link_at (S.objects store.now) home.now title.now (get links.now title.now)) }
{
    let Some(link) = links.get(title) else {
        return Ok(());
    };
    if is_shown(store, home, link) {
        items.push(link_json(alloc, title, link, Form::Document)?)?;
    }
    Ok(())
}

fn is_shown<S: ObjectStore>(store: &S, home: &Home, link: &LinkTo) -> bool
    ensures { result ≡ is_shown (S.objects store.now) home.now link.now }
{
    match link {
        LinkTo::Hard(id) => is_there(store, home, id),
        LinkTo::Soft(_) => true,
        LinkTo::External { .. } => true,
    }
}

// Whether the domain has an object at an id.
fn is_there<S: ObjectStore>(store: &S, home: &Home, id: &ObjectId) -> bool
    ensures { result ≡ is_there (S.objects store.now) home.now id.now }
{
    id.domain == home.number && (store.object(id).is_some() || *id == home.root)
}
