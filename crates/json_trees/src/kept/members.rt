//! The members of objects.

ghost use Rattle.std.specs.Prelude.{◌≡◌, ◌<◌, true, false, List, length, Some, IfOk, OnOk, if◌then◌else◌};
ghost use Rattle.json.specs.Token.{Token as SpecToken};
ghost use Rattle.serde_json.specs.Data.{Data, Members, no_members};
ghost use Rattle.serde_json.specs.Find.{get, get_member};
ghost use Rattle.json_trees.specs.Kept.{Begins};
ghost use Rattle.json_trees.specs.Begun.{AreReadMembers};

use crate::kept::kept_tree::KeptTree;
use crate::kept::passing::pass_value;
use json::{Reader, Scratch, Token};
use std::alloc::{AllocError, Global};

/// The tree at a key of a kept tree: of a key that stands twice the last.
///
/// # Errors
///
/// Only where memory runs out.
pub fn member_at(alloc: Global, tree: &KeptTree, key: &str) -> Result<Option<KeptTree>, AllocError>
    ensures { IfOk result (λ found. found ≡ get key.now tree.now) }
{
    let mut scratch = Scratch::new(alloc);
    let mut reader = tree.reader(&mut scratch)?;
    let Some(first) = reader.next() else {
        return Err(AllocError);
    };
    match first {
        Token::BeginObject => last_at(alloc, &mut reader, key),
        _ => Ok(None),
    }
}

/// The tree at the last of the members that have the key.
fn last_at(
    alloc: Global,
    reader: &mut Reader<'_>,
    key: &str,
) -> Result<Option<KeptTree>, AllocError>
    ensures { IfOk result (λ found. (all : Members) (rest : List SpecToken)
        → AreReadMembers reader.old no_members all rest → found ≡ get_member key.now all) }
{
    let mut found = None;
    'members: loop {
        match reader.next_key() {
            Ok(Some(name)) => found = after(alloc, reader, is_same(name, key), found)?,
            Ok(None) => return Ok(found),
            Err(_) => return Err(AllocError),
        }
    }
}

fn is_same(name: &str, key: &str) -> bool
    ensures same { result ≡ true → name.now ≡ key.now }
    ensures other { result ≡ false → key.now ≡ name.now → ⊥ }
{
    name == key
}

/// The tree that comes next where it is wanted, and else what was found before.
fn after(
    alloc: Global,
    reader: &mut Reader<'_>,
    is_wanted: bool,
    found: Option<KeptTree>,
) -> Result<Option<KeptTree>, AllocError>
    ensures told { IfOk result (λ last. (tree : Data) (rest : List SpecToken)
        → Begins reader.old tree rest → (reader.new ≡ rest)
        × (last ≡ (if is_wanted then Some tree else found))) }
    ensures shorter { OnOk result (length reader.new < length reader.old) }
{
    if is_wanted {
        Ok(Some(KeptTree::next(alloc, reader)?))
    } else {
        pass_value(reader)?;
        Ok(found)
    }
}
