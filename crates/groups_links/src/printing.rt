//! The tree that spells a link (HDF5/JSON, "Link").

ghost use Rattle.std.specs.Prelude.{◌≡◌, IfOk};
ghost use Rattle.serde_json.specs.View.{view};
ghost use Rattle.groups_links.specs.Printed.{collection_of, external_tree, hard_tree, link_tree, soft_tree};

use crate::target::LinkTo;
use object_ids::{Kind, Name, ObjectId, id_text};
use serde_json::{Value, json};
use shapes::Form;
use std::alloc::{AllocError, Global};

/// The tree that spells a link of a title: an object with `class` and `title`; a hard link has
/// also `collection` and `id`, any other `h5path`, and an external one `h5domain` for the REST API
/// and `file` in a document.
///
/// # Errors
///
/// Only where memory runs out.
pub fn link_json(
    alloc: Global,
    title: &Name,
    link: &LinkTo,
    form: Form,
) -> Result<Value, AllocError>
    ensures { IfOk result (λ tree. view tree ≡ link_tree title.now link.now form) }
{
    match link {
        LinkTo::Hard(id) => hard(alloc, title.text(), id),
        LinkTo::Soft(path) => soft(alloc, title.text(), path.text()),
        LinkTo::External { path, file } => {
            external(alloc, title.text(), path.text(), file.text(), form)
        }
    }
}

fn hard(alloc: Global, title: &str, id: &ObjectId) -> Result<Value, AllocError>
    ensures { IfOk result (λ tree. view tree ≡ hard_tree title.now id.now) }
{
    let text = id_text(alloc, id)?;
    let collection = collection_of(id.kind);
    json!(in alloc; {
        "class": "H5L_TYPE_HARD",
        "collection": collection,
        "id": text.as_str(),
        "title": title
    })
}

fn soft(alloc: Global, title: &str, path: &str) -> Result<Value, AllocError>
    ensures { IfOk result (λ tree. view tree ≡ soft_tree title.now path.now) }
{
    json!(in alloc; {"class": "H5L_TYPE_SOFT", "h5path": path, "title": title})
}

fn external(
    alloc: Global,
    title: &str,
    path: &str,
    file: &str,
    form: Form,
) -> Result<Value, AllocError>
    ensures { IfOk result
        (λ tree. view tree ≡ external_tree title.now path.now file.now form) }
{
    match form {
        Form::Rest => json!(in alloc; {
            "class": "H5L_TYPE_EXTERNAL",
            "h5domain": file,
            "h5path": path,
            "title": title
        }),
        Form::Document => json!(in alloc; {
            "class": "H5L_TYPE_EXTERNAL",
            "file": file,
            "h5path": path,
            "title": title
        }),
    }
}

// The collection in which an object of a kind stands.
fn collection_of(kind: Kind) -> &'static str
    ensures { result.now ≡ collection_of kind }
{
    match kind {
        Kind::Group => "groups",
        Kind::Dataset => "datasets",
        Kind::Datatype => "datatypes",
    }
}
