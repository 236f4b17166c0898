//! Whole documents.

ghost use Rattle.std.specs.Prelude.{◌≡◌, ◌<◌, IfOk, Ok, length, option_map};
ghost use Rattle.serde_json.specs.View.{view};
ghost use Rattle.json_trees.specs.Shown.{shown};
ghost use Rattle.documents.specs.Parts.Faults.{Answers};
ghost use Rattle.documents.specs.Reader.Documents.{doc_of, root_at, tree_doc, version_at};
ghost use Rattle.documents.specs.Reader.Kept.{tree_with};
ghost use Rattle.documents.specs.Reader.Loads.{Loads, LoadsText};
ghost use Rattle.documents.specs.Reader.Texts.{IsToldLong, most_bytes};
ghost use Rattle.documents.specs.declared.reader.loaded.Loaded.{Loaded};

use crate::parts::{DocCause, DocFault, IdText, members, refused};
use crate::reader::collections::{read_datasets, read_datatypes, read_groups};
use crate::reader::loaded::{Group, Loaded};
use crate::reader::parsing::parse;
use containers::text_maps::TextMap;
use json_trees::{KeptTree, member_text};
use serde_json::Value;
use std::alloc::Global;

/// What a document holds, from its text.
///
/// # Errors
///
/// The first fault: `TooLong` exactly where the text has more than
/// [`MAX_DOCUMENT`](crate::reader::MAX_DOCUMENT) bytes, else `BadJson` exactly where it is no JSON that
/// `serde_json` reads, else that of [`read_tree`]; or want of memory, but not of a text that is too long.
pub fn read_document(alloc: Global, text: &[u8]) -> Result<Loaded, DocFault>
    ensures first { Answers result (doc_of text.now) }
    ensures long { most_bytes < length text.now → IsToldLong result }
    ensures loads { IfOk result (LoadsText text.now) }
    ensures only { (l : Loaded) → LoadsText text.now l → Answers result (Ok l) }
{
    whole(alloc, text)
}

fn whole(alloc: Global, text: &[u8]) -> Result<Loaded, DocFault>
    ensures first { Answers result (doc_of text.now) }
    ensures long { most_bytes < length text.now → IsToldLong result }
{
    let document = parse(alloc, text)?;
    read_parts(alloc, &document.values, &document.tree)
}

/// What a document holds, from its tree.
///
/// The parts are tried in the order `apiVersion`, `datasets`, `datatypes`, `groups`, `root`; the
/// objects of a collection in byte order of their ids; of one object its id, its attributes, its
/// type, shape, creation properties and value, its links. `alias` and other keys are ignored.
///
/// # Errors
///
/// The first fault, with the path from the top down to the key that is missing or wrong; or want of
/// memory.
pub fn read_tree(alloc: Global, tree: &Value) -> Result<Loaded, DocFault>
    ensures first { Answers result (tree_doc (view tree.now)) }
    ensures loads { IfOk result (Loads (view tree.now)) }
    ensures only { (l : Loaded) → Loads (view tree.now) l → Answers result (Ok l) }
{
    whole_tree(alloc, tree)
}

fn whole_tree(alloc: Global, tree: &Value) -> Result<Loaded, DocFault>
    ensures { Answers result (tree_doc (view tree.now)) }
{
    read_parts(alloc, &TextMap::new(alloc), tree)
}

// What a document holds, whose values may be kept apart from its tree.
#[tactic(auto, unfolding(crate::specs::Reader::Kept::tree_with))]
fn read_parts(
    alloc: Global,
    values: &TextMap<Option<KeptTree>>,
    tree: &Value,
) -> Result<Loaded, DocFault>
    ensures { Answers result (tree_with values.now (view tree.now)) }
{
    members(alloc, "", tree)?;
    read_version(alloc, tree.get("apiVersion"))?;
    let datasets = read_datasets(alloc, values, tree.get("datasets"))?;
    let datatypes = read_datatypes(alloc, tree, tree.get("datatypes"))?;
    let groups = read_groups(alloc, tree, tree.get("groups"))?;
    let root = read_root(alloc, &groups, member_text(tree, "root"))?;
    Ok(Loaded {
        root,
        groups,
        datasets,
        datatypes,
    })
}

// The version, which is any text or absent.
#[tactic(auto, unfolding(crate::specs::Reader::Documents::version_at))]
fn read_version(alloc: Global, tree: Option<&Value>) -> Result<(), DocFault>
    ensures { Answers result (version_at (shown tree.entry)) }
{
    let Some(tree) = tree else {
        return Ok(());
    };
    if tree.as_str().is_some() {
        Ok(())
    } else {
        Err(refused(alloc, "apiVersion", DocCause::NotADocument))
    }
}

// The id of the root, which is that of a group.
fn read_root(alloc: Global, groups: &TextMap<Group>, id: Option<&str>) -> Result<IdText, DocFault>
    ensures { Answers result (root_at groups.now (option_map (λ s. s.now) id.entry)) }
{
    let Some(id) = id else {
        return Err(refused(alloc, "root", DocCause::NotADocument));
    };
    if groups.contains_key(id) {
        Ok(IdText::new(alloc, id)?)
    } else {
        Err(refused(alloc, "root", DocCause::NotADocument))
    }
}
