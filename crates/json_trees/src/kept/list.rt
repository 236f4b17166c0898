//! A kept tree of which it is known how many items it has.

ghost use Rattle.std.specs.Prelude.{◌≡◌, ◌+◌, List, IfOk, length, option_map};
ghost use Rattle.json.specs.Token.{Token as SpecToken};
ghost use Rattle.serde_json.specs.Data.{Items};
ghost use Rattle.json_trees.specs.Begun.{AreTrees};
ghost use Rattle.json_trees.specs.Trees.{list_in, list_of};

use crate::kept::kept_tree::KeptTree;
use crate::kept::passing::pass_value;
use json::{Reader, Scratch, Token};
use std::alloc::{AllocError, Global};
use std::marker::Model;

/// A kept tree whose items were counted, so that asking for their number takes no memory. It is seen
/// as its data.
#[derive(Drop)]
pub struct KeptList {
    tree: KeptTree,
    count: Option<usize>,
}

impl Model for KeptList {
    ghost use Rattle.std.specs.Prelude.{◌≡◌, length, option_map};
    ghost use Rattle.serde_json.specs.Data.{Data};
    ghost use Rattle.json_trees.specs.CodedData.{coded_data};
    ghost use Rattle.json_trees.specs.Trees.{list_in};

    ghost Value = { Data };

    ghost coded = { coded_data };

    ghost view = { λ a. a.tree };

    ghost invariant = { λ a. a.count ≡ option_map length (list_in a.tree) };
}

impl KeptList {
    /// The tree, with its items counted.
    ///
    /// # Errors
    ///
    /// Only where memory runs out.
    pub fn of(alloc: Global, tree: KeptTree) -> Result<KeptList, AllocError>
        ensures { IfOk result (λ list. list ≡ tree) }
    {
        let mut scratch = Scratch::new(alloc);
        let count = count_items(&tree, &mut scratch)?;
        Ok(KeptList { tree, count })
    }

    /// How many items the tree has, where it is a list.
    pub fn count(&self) -> Option<usize>
        ensures { result ≡ option_map length (list_in self.now) }
    {
        self.count
    }

    /// The tree itself.
    pub fn tree(&self) -> &KeptTree
        ensures { result.now ≡ self.now }
    {
        &self.tree
    }
}

/// How many items a kept tree has that is a list; all of them are passed over.
fn count_items(tree: &KeptTree, scratch: &mut Scratch) -> Result<Option<usize>, AllocError>
    ensures { IfOk result (λ count. count ≡ option_map length (list_in tree.now)) }
{
    let mut reader = tree.reader(scratch)?;
    let Some(first) = reader.next() else {
        return Err(AllocError);
    };
    match first {
        Token::BeginArray => Ok(Some(count_left(&mut reader)?)),
        _ => Ok(None),
    }
}

/// How many items are left of a list.
fn count_left(reader: &mut Reader<'_>) -> Result<usize, AllocError>
    ensures { IfOk result (λ count. (trees : Items) (rest : List SpecToken)
        → AreTrees reader.old trees rest → count ≡ length (list_of trees)) }
{
    let mut count = 0usize;
    'items: while !reader.take_end_array() {
        pass_value(reader)?;
        count = one_more(count)?;
    }
    Ok(count)
}

/// The next number. Where it is too large for any text, it fails.
fn one_more(count: usize) -> Result<usize, AllocError>
    ensures { IfOk result (λ more. more ≡ count + 1) }
{
    count.checked_add(1).ok_or(AllocError)
}
