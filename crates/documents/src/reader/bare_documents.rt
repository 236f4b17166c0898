//! Documents, read token by token: the values of datasets are kept as texts, and the rest is a tree.

ghost use Rattle.std.specs.Prelude.{◌≡◌, ◌∷◌, true, List, None, Some, Err, IfOk, IfSome, codes, length, if◌then◌else◌};
ghost use Rattle.std.specs.Str.{bytes_eq};
ghost use Rattle.json.specs.Json.{members, value as value_in};
ghost use Rattle.json.specs.Token.{Token as SpecToken, begin_object};
ghost use Rattle.serde_json.specs.Data.{Data, Members, no_members, null, object, put};
ghost use Rattle.serde_json.specs.Read.{converted, max_depth, of_json, of_members, read};
ghost use Rattle.serde_json.specs.View.{members_view, view};
ghost use Rattle.json_trees.specs.Copied.{Reads};
ghost use Rattle.json_trees.specs.declared.kept.fault.ReadFault.TheVariants.{NotJson};
ghost use Rattle.documents.specs.Reader.Bare.{AreValuesAt, IsBare, PutsPart, bare_part, is_document_key};

use crate::reader::bare_datasets::{BareDatasets, begins_object, read_datasets, read_part};
use containers::text_maps::TextMap;
use json::{Reader, Scratch};
use json_trees::{KeptTree, ReadFault};
use serde_json::{Map, Value, put};
use std::alloc::Global;

/// How deep arrays and objects nest at most in a member of a document.
const PART_DEPTH: usize = 126;

/// A document without the values of its datasets, and these by the ids of the datasets.
#[derive(Drop)]
pub struct BareDocument {
    /// The tree of the document, with null in place of each value.
    pub tree: Value,
    /// What stands at each id: the value of its dataset, where it has one.
    pub values: TextMap<Option<KeptTree>>,
}

/// The document that a text has; nothing where the text, its datasets or one of them is no object.
///
/// # Errors
///
/// `NotJson` only where `serde_json` reads nothing of the text, or want of memory.
pub(crate) fn document_in(alloc: Global, text: &str) -> Result<Option<BareDocument>, ReadFault>
    ensures read { IfOk result (λ found. IfSome found (λ document. (d : Data)
        × (read text.now ≡ Some d) × IsBare d document)) }
    ensures refused { result ≡ Err NotJson → read text.now ≡ None }
{
    let mut scratch = Scratch::new(alloc);
    let mut reader = Reader::new(text, &mut scratch)?;
    if !begins_object(&mut reader) {
        return Ok(None);
    }
    let Some(document) = read_parts(alloc, &mut reader)? else {
        return Ok(None);
    };
    match reader.next() {
        Some(_) => Err(ReadFault::NotJson),
        None => Ok(Some(document)),
    }
}

/// Reads the members of a document, and the brace that closes it.
fn read_parts(alloc: Global, reader: &mut Reader<'_>) -> Result<Option<BareDocument>, ReadFault>
    ensures read { IfOk result (λ found. IfSome found (λ document. (all : Members)
        × Reads max_depth (begin_object ∷ reader.old) (object all) reader.new
        × IsBare (object all) document)) }
    ensures refused { result ≡ Err NotJson → converted (λ ms. of_members ms no_members)
        (members (value_in 126) (length reader.old) reader.old) ≡ None }
{
    let mut tree = Map::new(alloc);
    let mut values = TextMap::new(alloc);
    'members: while let Some(key) = reader.next_key()? {
        if !put_part(alloc, reader, key, &mut tree, &mut values)? {
            return Ok(None);
        }
    }
    Ok(Some(BareDocument {
        tree: Value::Object(tree),
        values,
    }))
}

/// Reads the member of a document that has this key, and puts it into the tree. False where it would be the datasets,
/// and is no object of objects.
fn put_part(
    alloc: Global,
    reader: &mut Reader<'_>,
    key: &str,
    tree: &mut Map<String, Value>,
    values: &mut TextMap<Option<KeptTree>>,
) -> Result<bool, ReadFault>
    ensures read { IfOk result (λ going. going ≡ true → (d : Data)
        × Reads 126 reader.old d reader.new
        × PutsPart key.now d (members_view tree.old.entries) (members_view tree.new.entries)
        values.old values.new) }
    ensures refused { result ≡ Err NotJson → converted of_json (value_in 126 reader.old) ≡ None }
{
    if key != "datasets" {
        let part = read_part(alloc, reader, PART_DEPTH, is_document_key(key))?;
        put(tree, alloc, key, part)?;
        return Ok(true);
    }
    let Some(datasets) = read_datasets(alloc, reader)? else {
        return Ok(false);
    };
    let BareDatasets {
        tree: bare,
        values: kept,
    } = datasets;
    put(tree, alloc, key, bare)?;
    *values = kept;
    Ok(true)
}

/// Whether the reader of documents asks for what stands at a key, besides the datasets.
fn is_document_key(key: &str) -> bool
    ensures { result ≡ is_document_key key.now }
{
    key == "apiVersion" || key == "datatypes" || key == "groups" || key == "root"
}
