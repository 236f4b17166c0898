//! The collections of a domain, in the order of the texts of ids, which is that of the ids.

ghost use Rattle.std.specs.Prelude.{◌≡◌, ◌∷◌, IfOk, OnOk, Some};
ghost use Rattle.std.specs.FinMap.{entries, get};
ghost use Rattle.serde_json.specs.Data.{no_members};
ghost use Rattle.json_trees.specs.Copied.{Adds};
ghost use Rattle.object_ids.specs.Ids.{InRange, text_of_id};
ghost use Rattle.object_acts.specs.Objects.{IsSoundBody, empty_group};
ghost use Rattle.documents.specs.Domains.Collected.{WritesFound, WritesRoot, end_tokens};
ghost use Rattle.documents.specs.Domains.Documents.{collection_tree, put_each};
ghost use Rattle.documents.specs.Domains.Entries.{entry_tree};
ghost use Rattle.documents.specs.Domains.Writing.{PrintsMember, PrintsMembers};

use crate::domains::collections::is_of;
use crate::domains::home::Home;
use crate::domains::ranges::{first_id, next_of};
use crate::domains::store::ObjectStore;
use crate::domains::writing::datasets::write_entry;
use json::Writer;
use object_acts::Object;
use object_ids::{Kind, ObjectId, id_text};
use std::alloc::{AllocError, Global};
use std::cmp::Ordering;

/// Writes a key and the objects of a kind, each at the text of its id; among them the root, also where it is held nowhere.
pub(crate) fn write_collection<S: ObjectStore>(
    alloc: Global,
    store: &S,
    home: &Home,
    key: &str,
    kind: Kind,
    writer: &mut Writer,
) -> Result<(), AllocError>
    ensures { OnOk result (PrintsMember key.now
        (collection_tree (S.objects store.now) home.now kind) writer.old writer.new) }
{
    writer.key(key)?;
    writer.begin_object()?;
    write_objects(alloc, store, home, kind, writer)
}

// The walk looks at the ids of the kind in the domain alone. The root comes in its turn, as an empty group where it isn't held.
fn write_objects<S: ObjectStore>(
    alloc: Global,
    store: &S,
    home: &Home,
    kind: Kind,
    writer: &mut Writer,
) -> Result<(), AllocError>
    ensures { OnOk result (PrintsMembers (put_each (S.objects store.now) home.now kind
        ((home.now.root, empty_group) ∷ entries (S.objects store.now)) no_members)
        writer.old writer.new) }
{
    let root = root_of(home);
    let mut last = first_id(kind, home);
    let is_root = is_of(kind, home, &root);
    let mut is_due = write_found(alloc, store, home, kind, &last, is_root, writer)?;
    while let Some(id) = next_of(store, home, &last) {
        is_due = write_found(alloc, store, home, kind, &id, is_due, writer)?;
        last = id;
    }
    write_end(alloc, store, home, is_due, writer)
}

fn root_of(home: &Home) -> ObjectId
    ensures root { result ≡ home.now.root }
    ensures range { InRange result }
{
    let root = home.root;
    let _serial = root.serial;
    root
}

// The root where it is still to come, and the bracket that closes the collection.
fn write_end<S: ObjectStore>(
    alloc: Global,
    store: &S,
    home: &Home,
    is_due: bool,
    writer: &mut Writer,
) -> Result<(), AllocError>
    ensures { OnOk result
        (Adds (end_tokens (S.objects store.now) home.now is_due) writer.old writer.new) }
{
    if is_due {
        write_root(alloc, store, home, writer)?;
    }
    writer.end_object()
}

// The object at an id, behind the root where that comes before it; and whether the root is still to come.
fn write_found<S: ObjectStore>(
    alloc: Global,
    store: &S,
    home: &Home,
    kind: Kind,
    id: &ObjectId,
    is_due: bool,
    writer: &mut Writer,
) -> Result<bool, AllocError>
    ensures { IfOk result (λ due. WritesFound (S.objects store.now) home.now kind id.now
        (get (S.objects store.now) id.now) is_due due writer.old writer.new) }
{
    match store.object(id) {
        Some(object) => write_held(alloc, store, home, kind, id, object, is_due, writer),
        None => Ok(is_due),
    }
}

fn write_held<S: ObjectStore>(
    alloc: Global,
    store: &S,
    home: &Home,
    kind: Kind,
    id: &ObjectId,
    object: &Object,
    is_due: bool,
    writer: &mut Writer,
) -> Result<bool, AllocError>
    requires { IsSoundBody object.now.body }
    ensures { IfOk result (λ due. WritesFound (S.objects store.now) home.now kind id.now
        (Some object.now) is_due due writer.old writer.new) }
{
    if is_of(kind, home, id) {
        let due = write_before(alloc, store, home, id, is_due, writer)?;
        write_object(alloc, store, home, id, object, writer)?;
        Ok(due)
    } else {
        Ok(is_due)
    }
}

// The root, where it is due before an id; and whether it is still to come behind that.
fn write_before<S: ObjectStore>(
    alloc: Global,
    store: &S,
    home: &Home,
    id: &ObjectId,
    is_due: bool,
    writer: &mut Writer,
) -> Result<bool, AllocError>
    ensures { IfOk result (λ due. WritesRoot (S.objects store.now) home.now id.now
        is_due due writer.old writer.new) }
{
    match home.root.cmp(id) {
        Ordering::Less => {
            if is_due {
                write_root(alloc, store, home, writer)?;
            }
            Ok(false)
        }
        Ordering::Equal => Ok(false),
        Ordering::Greater => Ok(is_due),
    }
}

// The root as an empty group.
fn write_root<S: ObjectStore>(
    alloc: Global,
    store: &S,
    home: &Home,
    writer: &mut Writer,
) -> Result<(), AllocError>
    ensures { OnOk result (PrintsMember (text_of_id home.now.root)
        (entry_tree (S.objects store.now) home.now empty_group) writer.old writer.new) }
{
    let root = Object::new_group(alloc);
    write_object(alloc, store, home, &home.root, &root, writer)
}

// An object at the text of its id.
fn write_object<S: ObjectStore>(
    alloc: Global,
    store: &S,
    home: &Home,
    id: &ObjectId,
    object: &Object,
    writer: &mut Writer,
) -> Result<(), AllocError>
    requires { IsSoundBody object.now.body }
    ensures { OnOk result (PrintsMember (text_of_id id.now)
        (entry_tree (S.objects store.now) home.now object.now) writer.old writer.new) }
{
    let text = id_text(alloc, id)?;
    writer.key(text.as_str())?;
    write_entry(alloc, store, home, object, writer)
}
