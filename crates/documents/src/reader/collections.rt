//! The collections of a document.

ghost use Rattle.std.specs.Prelude.{◌≡◌};
ghost use Rattle.std.specs.FinMap.{empty};
ghost use Rattle.std.specs.Option.{option_copied};
ghost use Rattle.serde_json.specs.View.{view, members_view};
ghost use Rattle.json_trees.specs.Shown.{shown};
ghost use Rattle.documents.specs.Parts.Faults.{Answers};
ghost use Rattle.documents.specs.Reader.Collections.{datatype_step};
ghost use Rattle.documents.specs.Reader.Kept.{datasets_with, kept_at, kept_step};
ghost use Rattle.documents.specs.Reader.Collections.{datatypes_at, each_member, group_step, groups_at};

use crate::parts::{DocCause, DocFault, DocPath, members, refused};
use crate::reader::loaded::{Dataset, Datatype, Group};
use crate::reader::objects::{put_dataset, put_datatype, put_group};
use containers::text_maps::TextMap;
use json_trees::KeptTree;
use serde_json::{Map, Value};
use std::alloc::Global;

// The datasets of a document, which may be absent; their values may be kept apart.
#[tactic(auto, unfolding(crate::specs::Reader::Kept::datasets_with))]
pub(crate) fn read_datasets(
    alloc: Global,
    values: &TextMap<Option<KeptTree>>,
    tree: Option<&Value>,
) -> Result<TextMap<Dataset>, DocFault>
    ensures { Answers result (datasets_with values.now (shown tree.entry)) }
{
    let Some(tree) = tree else {
        return Ok(TextMap::new(alloc));
    };
    let objects = members(alloc, "datasets", tree)?;
    all_datasets(alloc, values, objects)
}

fn all_datasets(
    alloc: Global,
    values: &TextMap<Option<KeptTree>>,
    objects: &Map<String, Value>,
) -> Result<TextMap<Dataset>, DocFault>
    ensures { Answers result
        (each_member (kept_step values.now) empty (members_view objects.now.entries)) }
{
    let mut datasets = TextMap::new(alloc);
    for (id, tree) in objects {
        let path = DocPath::under(alloc, "datasets", id.as_str())?;
        put_dataset(
            alloc,
            path.text(),
            id.as_str(),
            value_of(values, id.as_str()),
            tree,
            &mut datasets,
        )?;
    }
    Ok(datasets)
}

// The value that is kept for an id.
fn value_of<'a>(values: &'a TextMap<Option<KeptTree>>, id: &str) -> Option<&'a KeptTree>
    ensures { option_copied result ≡ kept_at values.now id.now }
{
    match values.get(id) {
        None => None,
        Some(value) => value.as_ref(),
    }
}

// The committed datatypes of a document, which may be absent.
#[tactic(auto, unfolding(crate::specs::Reader::Collections::datatypes_at))]
pub(crate) fn read_datatypes(
    alloc: Global,
    document: &Value,
    tree: Option<&Value>,
) -> Result<TextMap<Datatype>, DocFault>
    ensures { Answers result (datatypes_at (view document.now) (shown tree.entry)) }
{
    let Some(tree) = tree else {
        return Ok(TextMap::new(alloc));
    };
    let objects = members(alloc, "datatypes", tree)?;
    all_datatypes(alloc, document, objects)
}

fn all_datatypes(
    alloc: Global,
    document: &Value,
    objects: &Map<String, Value>,
) -> Result<TextMap<Datatype>, DocFault>
    ensures { Answers result
        (each_member (datatype_step (view document.now)) empty
        (members_view objects.now.entries)) }
{
    let mut datatypes = TextMap::new(alloc);
    for (id, tree) in objects {
        let path = DocPath::under(alloc, "datatypes", id.as_str())?;
        put_datatype(
            alloc,
            document,
            path.text(),
            id.as_str(),
            tree,
            &mut datatypes,
        )?;
    }
    Ok(datatypes)
}

// The groups of a document.
#[tactic(auto, unfolding(crate::specs::Reader::Collections::groups_at))]
pub(crate) fn read_groups(
    alloc: Global,
    document: &Value,
    tree: Option<&Value>,
) -> Result<TextMap<Group>, DocFault>
    ensures { Answers result (groups_at (view document.now) (shown tree.entry)) }
{
    let Some(tree) = tree else {
        return Err(refused(alloc, "groups", DocCause::NotADocument));
    };
    let objects = members(alloc, "groups", tree)?;
    all_groups(alloc, document, objects)
}

fn all_groups(
    alloc: Global,
    document: &Value,
    objects: &Map<String, Value>,
) -> Result<TextMap<Group>, DocFault>
    ensures { Answers result
        (each_member (group_step (view document.now)) empty
        (members_view objects.now.entries)) }
{
    let mut groups = TextMap::new(alloc);
    for (id, tree) in objects {
        let path = DocPath::under(alloc, "groups", id.as_str())?;
        put_group(alloc, document, path.text(), id.as_str(), tree, &mut groups)?;
    }
    Ok(groups)
}
