//! The collections of a domain, and its document.

ghost use Rattle.std.specs.Prelude.{◌≡◌, IfOk, OnOk, codes};
ghost use Rattle.std.specs.FinMap.{entries, get};
ghost use Rattle.serde_json.specs.Data.{no_members};
ghost use Rattle.serde_json.specs.View.{members_view, view};
ghost use Rattle.object_ids.specs.Ids.{text_of_id};
ghost use Rattle.object_acts.specs.Objects.{IsSoundBody};
ghost use Rattle.documents.specs.Domains.Documents.{collection_tree, document_tree, is_of};
ghost use Rattle.documents.specs.Domains.Documents.{put_at, put_each, put_one, whole_tree};

use crate::domains::entries::entry_json;
use crate::domains::home::Home;
use crate::domains::ranges::{first_id, next_of};
use crate::domains::store::ObjectStore;
use object_acts::Object;
use object_ids::{Kind, ObjectId, id_text};
use serde_json::{Map, Value, json, put};
use std::alloc::{AllocError, Global};

/// The document of a domain.
///
/// # Errors
///
/// Only where memory runs out.
pub fn domain_json<S: ObjectStore>(
    alloc: Global,
    store: &S,
    home: &Home,
) -> Result<Value, AllocError>
    ensures { IfOk result (λ tree. view tree ≡ document_tree (S.objects store.now) home.now) }
{
    let datasets = collection(alloc, store, home, Kind::Dataset)?;
    let datatypes = collection(alloc, store, home, Kind::Datatype)?;
    let groups = collection(alloc, store, home, Kind::Group)?;
    let root = id_text(alloc, &home.root)?;
    whole(alloc, datasets, datatypes, groups, root.as_str())
}

fn whole(
    alloc: Global,
    datasets: Value,
    datatypes: Value,
    groups: Value,
    root: &str,
) -> Result<Value, AllocError>
    ensures { IfOk result (λ tree. view tree
        ≡ whole_tree (view datasets) (view datatypes) (view groups) root.now) }
{
    json!(in alloc; {
        "apiVersion": "1.1.1",
        "datasets": datasets,
        "datatypes": datatypes,
        "groups": groups,
        "root": root
    })
}

// The objects of a kind, each at the text of its id; among them the root, also where it is held nowhere.
fn collection<S: ObjectStore>(
    alloc: Global,
    store: &S,
    home: &Home,
    kind: Kind,
) -> Result<Value, AllocError>
    ensures { IfOk result
        (λ tree. view tree ≡ collection_tree (S.objects store.now) home.now kind) }
{
    let mut members = Map::new(alloc);
    let root = Object::new_group(alloc);
    put_object(alloc, store, home, kind, &home.root, &root, &mut members)?;
    put_objects(alloc, store, home, kind, &mut members)?;
    Ok(Value::Object(members))
}

// The walk looks at the ids of the kind in the domain alone.
fn put_objects<S: ObjectStore>(
    alloc: Global,
    store: &S,
    home: &Home,
    kind: Kind,
    members: &mut Map<String, Value>,
) -> Result<(), AllocError>
    ensures { OnOk result (members_view members.new.entries
        ≡ put_each (S.objects store.now) home.now kind (entries (S.objects store.now))
        (members_view members.old.entries)) }
{
    let mut last = first_id(kind, home);
    put_at(alloc, store, home, kind, &last, members)?;
    while let Some(id) = next_of(store, home, &last) {
        put_at(alloc, store, home, kind, &id, members)?;
        last = id;
    }
    Ok(())
}

fn put_at<S: ObjectStore>(
    alloc: Global,
    store: &S,
    home: &Home,
    kind: Kind,
    id: &ObjectId,
    members: &mut Map<String, Value>,
) -> Result<(), AllocError>
    ensures { OnOk result (members_view members.new.entries
        ≡ put_at (S.objects store.now) home.now kind id.now (get (S.objects store.now) id.now)
        (members_view members.old.entries)) }
{
    match store.object(id) {
        Some(object) => put_object(alloc, store, home, kind, id, object, members),
        None => Ok(()),
    }
}

fn put_object<S: ObjectStore>(
    alloc: Global,
    store: &S,
    home: &Home,
    kind: Kind,
    id: &ObjectId,
    object: &Object,
    members: &mut Map<String, Value>,
) -> Result<(), AllocError>
    requires { IsSoundBody object.now.body }
    ensures { OnOk result (members_view members.new.entries
        ≡ put_one (S.objects store.now) home.now kind (id.now, object.now)
        (members_view members.old.entries)) }
{
    if is_of(kind, home, id) {
        let text = id_text(alloc, id)?;
        let entry = entry_json(alloc, store, home, object)?;
        put(members, alloc, text.as_str(), entry)
    } else {
        Ok(())
    }
}

pub(crate) fn is_of(kind: Kind, home: &Home, id: &ObjectId) -> bool
    ensures { result ≡ is_of kind home.now id.now }
{
    id.kind == kind && id.domain == home.number
}
