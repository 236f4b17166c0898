//! The datasets of a document, read token by token: their values are kept as texts, and the rest is a tree.

ghost use Rattle.std.specs.Prelude.{◌≡◌, ◌≤◌, ◌∷◌, true, List, None, Some, Err, IfOk, IfSome, codes, length, if◌then◌else◌};
ghost use Rattle.std.specs.Str.{bytes_eq};
ghost use Rattle.json.specs.Json.{members, value as value_in};
ghost use Rattle.json.specs.Token.{Token as SpecToken, begin_object};
ghost use Rattle.serde_json.specs.Data.{Data, Members, no_members, null, object, put};
ghost use Rattle.serde_json.specs.Read.{converted, max_depth, of_json, of_members};
ghost use Rattle.serde_json.specs.View.{members_view, view};
ghost use Rattle.json_trees.specs.Copied.{Reads};
ghost use Rattle.json_trees.specs.declared.kept.fault.ReadFault.TheVariants.{NotJson};
ghost use Rattle.documents.specs.Reader.Bare.{IsBareDataset, IsBareDatasets, bare_member, is_dataset_key};

use containers::text_maps::TextMap;
use json::{Reader, Token};
use json_trees::{KeptTree, ReadFault, check_value};
use serde_json::{Map, Value, put};
use std::alloc::Global;

/// How deep arrays and objects nest at most in a member of a dataset, of the datasets, and of a document.
const MEMBER_DEPTH: usize = 124;

/// A dataset without its value, and the value.
#[derive(Drop)]
pub struct BareDataset {
    /// The tree of the dataset, with null in place of its value.
    pub tree: Value,
    /// The value.
    pub value: Option<KeptTree>,
}

/// The datasets without their values, and the values by the ids of the datasets.
#[derive(Drop)]
pub struct BareDatasets {
    /// The tree of the datasets, with null in place of each value.
    pub tree: Value,
    /// What stands at each id: the value of its dataset, where it has one.
    pub values: TextMap<Option<KeptTree>>,
}

/// Whether an object comes next; the brace that opens it is then taken.
pub(crate) fn begins_object(reader: &mut Reader<'_>) -> bool
    ensures { result ≡ true → reader.old ≡ begin_object ∷ reader.new }
{
    match reader.next() {
        Some(Token::BeginObject) => true,
        _ => false,
    }
}

/// The value that comes next as a tree where it is wanted, else null.
pub(crate) fn read_part(
    alloc: Global,
    reader: &mut Reader<'_>,
    depth: usize,
    is_wanted: bool,
) -> Result<Value, ReadFault>
    requires { depth ≤ max_depth }
    ensures read { IfOk result (λ part. (d : Data) × Reads depth reader.old d reader.new
        × (view part ≡ (if is_wanted then d else null))) }
    ensures refused { result ≡ Err NotJson
        → converted of_json (value_in depth reader.old) ≡ None }
{
    if !is_wanted {
        check_value(reader, depth)?;
        return Ok(Value::Null);
    }
    let kept = KeptTree::take(alloc, reader, depth)?;
    Ok(kept.to_value(alloc)?)
}

/// The datasets, where an object of objects comes next; else nothing.
pub(crate) fn read_datasets(
    alloc: Global,
    reader: &mut Reader<'_>,
) -> Result<Option<BareDatasets>, ReadFault>
    ensures read { IfOk result (λ found. IfSome found (λ datasets. (d : Data)
        × Reads 126 reader.old d reader.new × IsBareDatasets d datasets)) }
    ensures refused { result ≡ Err NotJson → converted of_json (value_in 126 reader.old) ≡ None }
{
    if begins_object(reader) {
        read_objects(alloc, reader)
    } else {
        Ok(None)
    }
}

/// Reads the members of the object of datasets, and the brace that closes it.
fn read_objects(alloc: Global, reader: &mut Reader<'_>) -> Result<Option<BareDatasets>, ReadFault>
    ensures read { IfOk result (λ found. IfSome found (λ datasets. (all : Members)
        × Reads 126 (begin_object ∷ reader.old) (object all) reader.new
        × IsBareDatasets (object all) datasets)) }
    ensures refused { result ≡ Err NotJson → converted (λ ms. of_members ms no_members)
        (members (value_in 125) (length reader.old) reader.old) ≡ None }
{
    let mut tree = Map::new(alloc);
    let mut values = TextMap::new(alloc);
    'members: while let Some(id) = reader.next_key()? {
        let Some(dataset) = read_dataset(alloc, reader)? else {
            return Ok(None);
        };
        let BareDataset { tree: bare, value } = dataset;
        put(&mut tree, alloc, id, bare)?;
        values.put_copy(id, value)?;
    }
    Ok(Some(BareDatasets {
        tree: Value::Object(tree),
        values,
    }))
}

/// The dataset, where an object comes next; else nothing.
fn read_dataset(alloc: Global, reader: &mut Reader<'_>) -> Result<Option<BareDataset>, ReadFault>
    ensures read { IfOk result (λ found. IfSome found (λ dataset. (d : Data)
        × Reads 125 reader.old d reader.new × IsBareDataset d dataset)) }
    ensures refused { result ≡ Err NotJson → converted of_json (value_in 125 reader.old) ≡ None }
{
    if begins_object(reader) {
        Ok(Some(read_members(alloc, reader)?))
    } else {
        Ok(None)
    }
}

/// Reads the members of a dataset, and the brace that closes it.
fn read_members(alloc: Global, reader: &mut Reader<'_>) -> Result<BareDataset, ReadFault>
    ensures read { IfOk result (λ dataset. (all : Members)
        × Reads 125 (begin_object ∷ reader.old) (object all) reader.new
        × IsBareDataset (object all) dataset) }
    ensures refused { result ≡ Err NotJson → converted (λ ms. of_members ms no_members)
        (members (value_in 124) (length reader.old) reader.old) ≡ None }
{
    let mut tree = Map::new(alloc);
    let mut value = None;
    'members: while let Some(key) = reader.next_key()? {
        read_member(alloc, reader, key, &mut tree, &mut value)?;
    }
    Ok(BareDataset {
        tree: Value::Object(tree),
        value,
    })
}

/// Reads the member of a dataset that has this key.
fn read_member(
    alloc: Global,
    reader: &mut Reader<'_>,
    key: &str,
    tree: &mut Map<String, Value>,
    value: &mut Option<KeptTree>,
) -> Result<(), ReadFault>
    ensures read { IfOk result (λ _. (d : Data) × Reads 124 reader.old d reader.new
        × (members_view tree.new.entries
        ≡ put key.now (bare_member key.now d) (members_view tree.old.entries))
        × (value.new ≡ (if bytes_eq key.now (codes "value") then Some d else value.old))) }
    ensures refused { result ≡ Err NotJson → converted of_json (value_in 124 reader.old) ≡ None }
{
    if key == "value" {
        *value = Some(KeptTree::take(alloc, reader, MEMBER_DEPTH)?);
        put(tree, alloc, key, Value::Null)?;
        return Ok(());
    }
    let part = read_part(alloc, reader, MEMBER_DEPTH, is_dataset_key(key))?;
    put(tree, alloc, key, part)?;
    Ok(())
}

/// Whether the reader of datasets asks for what stands at a key.
fn is_dataset_key(key: &str) -> bool
    ensures { result ≡ is_dataset_key key.now }
{
    key == "attributes" || key == "type" || key == "shape" || key == "creationProperties"
}
