//! Dims from kept trees, token by token.

ghost use Rattle.std.specs.Prelude.{◌≡◌, ◌≤◌, ◌<◌, ◌∷◌, [], ℕ, List, Some, None, All, length, option_and_then, option_map};
ghost use Rattle.std.specs.Prelude.{IfOk, IfSome, OnOk};
ghost use Rattle.json.specs.Reads.{token_of};
ghost use Rattle.json.specs.Token.{Token as SpecToken};
ghost use Rattle.serde_json.specs.Data.{Data, Items};
ghost use Rattle.serde_json.specs.Find.{as_u64};
ghost use Rattle.serde_json.specs.Read.{number_of};
ghost use Rattle.json_trees.specs.Begun.{AreTrees};
ghost use Rattle.json_trees.specs.Kept.{Begins};
ghost use Rattle.json_trees.specs.Trees.{all_in, list_of};
ghost use Rattle.shapes.specs.declared.TheConstants.{MAX_EXTENT};
ghost use Rattle.shapes.specs.Extents.{dims_in, extent_in, small};
ghost use Rattle.shapes.specs.Shapes.{IsDims};
ghost use Rattle.shapes.specs.Spelled.{few_of, dims_with};

use crate::{Dims, MAX_EXTENT, MAX_RANK};
use json::{Reader, Scratch, Token};
use json_trees::{KeptTree, pass_rest, pass_value, unsigned_of};
use std::alloc::{AllocError, Global};
use std::marker::Model;

/// A kept tree of which it is known what dims it spells, so that asking for them takes no memory. It
/// is seen as its data.
#[derive(Drop)]
pub struct KeptDims {
    tree: KeptTree,
    dims: Option<Dims>,
}

impl Model for KeptDims {
    ghost use Rattle.std.specs.Prelude.{◌≡◌, option_and_then};
    ghost use Rattle.serde_json.specs.Data.{Data};
    ghost use Rattle.json_trees.specs.CodedData.{coded_data};
    ghost use Rattle.shapes.specs.Extents.{dims_in};
    ghost use Rattle.shapes.specs.Spelled.{few_of};

    ghost Value = { Data };

    ghost coded = { coded_data };

    ghost view = { λ a. a.tree };

    ghost invariant = { λ a. a.dims ≡ option_and_then few_of (dims_in a.tree) };
}

impl KeptDims {
    /// The tree, with its dims read.
    ///
    /// # Errors
    ///
    /// Only where memory runs out.
    pub fn of(alloc: Global, tree: KeptTree) -> Result<KeptDims, AllocError>
        ensures { IfOk result (λ dims. dims ≡ tree) }
    {
        let dims = dims_of(alloc, &tree)?;
        Ok(KeptDims { tree, dims })
    }

    /// The dims that the tree spells, as [`crate::read_dims`] tells them of a tree.
    pub fn dims(&self) -> Option<Dims>
        ensures spelled { IfSome result (IsDims self.now) }
        ensures only { (ns : List ℕ) → IsDims self.now ns → result ≡ Some ns }
        ensures first { result ≡ option_and_then few_of (dims_in self.now) }
        ensures small { IfSome result (All (λ n. n ≤ MAX_EXTENT)) }
    {
        self.spelled()
    }

    /// The tree itself.
    pub fn tree(&self) -> &KeptTree
        ensures { result.now ≡ self.now }
    {
        &self.tree
    }

    fn spelled(&self) -> Option<Dims>
        ensures { result ≡ option_and_then few_of (dims_in self.now) }
    {
        self.dims
    }
}

fn dims_of(alloc: Global, tree: &KeptTree) -> Result<Option<Dims>, AllocError>
    ensures { IfOk result (λ dims. dims ≡ option_and_then few_of (dims_in tree.now)) }
{
    let mut scratch = Scratch::new(alloc);
    let mut reader = tree.reader(&mut scratch)?;
    next_dims(&mut reader)
}

/// The dims that the value spells which comes next in a reader, as [`crate::read_dims`] tells them of
/// its tree. All of the value is passed.
///
/// # Errors
///
/// Only where no value comes next.
pub fn next_dims(reader: &mut Reader<'_>) -> Result<Option<Dims>, AllocError>
    ensures told { IfOk result (λ dims. (tree : Data) (rest : List SpecToken)
        → Begins reader.old tree rest → (reader.new ≡ rest)
        × (dims ≡ option_and_then few_of (dims_in tree))) }
    ensures shorter { OnOk result (length reader.new < length reader.old) }
{
    let Some(first) = reader.next() else {
        return Err(AllocError);
    };
    match first {
        Token::BeginArray => next_list(reader),
        _ => Ok(one_axis(extent(first, reader)?)),
    }
}

/// [`next_dims`], of a list whose bracket was taken.
fn next_list(reader: &mut Reader<'_>) -> Result<Option<Dims>, AllocError>
    ensures told { IfOk result (λ dims. (trees : Items) (rest : List SpecToken)
        → AreTrees reader.old trees rest → (reader.new ≡ rest)
        × (dims ≡ option_and_then few_of (all_in extent_in (list_of trees)))) }
    ensures not_longer { OnOk result (length reader.new ≤ length reader.old) }
{
    let mut dims = Some(Dims::new());
    'items: while !reader.take_end_array() {
        dims = with_next(reader, dims)?;
    }
    Ok(some_dims(dims))
}

/// Dims with the extent that comes next. None where it is none, where there is no room for it, or
/// where there were none before; then the value is passed over.
fn with_next(reader: &mut Reader<'_>, dims: Option<Dims>) -> Result<Option<Dims>, AllocError>
    ensures told { IfOk result (λ more. (tree : Data) (rest : List SpecToken)
        → Begins reader.old tree rest → (reader.new ≡ rest)
        × (more ≡ dims_with dims (extent_in tree))) }
    ensures shorter { OnOk result (length reader.new < length reader.old) }
{
    match dims {
        Some(dims) => Ok(longer(dims, next_extent(reader)?)),
        None => {
            pass_value(reader)?;
            Ok(None)
        }
    }
}

fn longer(dims: Dims, n: Option<u64>) -> Option<Dims>
    ensures { result ≡ dims_with (Some dims) n }
{
    let n = n?;
    if dims.len() < MAX_RANK {
        let mut more = dims;
        more.push(n);
        Some(more)
    } else {
        None
    }
}

/// Dims of at least one axis.
fn some_dims(dims: Option<Dims>) -> Option<Dims>
    ensures { result ≡ option_and_then few_of dims }
{
    let dims = dims?;
    if 1 <= dims.len() { Some(dims) } else { None }
}

fn one_axis(n: Option<u64>) -> Option<Dims>
    ensures { result ≡ option_and_then few_of (option_map (λ n. n ∷ []) n) }
{
    Some(Dims::repeated(n?, 1))
}

/// The extent that the value is which comes next.
fn next_extent(reader: &mut Reader<'_>) -> Result<Option<u64>, AllocError>
    ensures told { IfOk result (λ n. (tree : Data) (rest : List SpecToken)
        → Begins reader.old tree rest → (reader.new ≡ rest) × (n ≡ extent_in tree)) }
    ensures shorter { OnOk result (length reader.new < length reader.old) }
{
    let Some(first) = reader.next() else {
        return Err(AllocError);
    };
    extent(first, reader)
}

/// [`next_extent`], of a value whose first token was taken.
fn extent(first: Token<'_>, reader: &mut Reader<'_>) -> Result<Option<u64>, AllocError>
    ensures told { IfOk result (λ n. (tree : Data) (rest : List SpecToken)
        → Begins (token_of first.entry ∷ reader.old) tree rest → (reader.new ≡ rest)
        × (n ≡ extent_in tree)) }
    ensures not_longer { OnOk result (length reader.new ≤ length reader.old) }
{
    match first {
        Token::Number(text) => Ok(extent_of(text)),
        _ => {
            pass_rest(first, reader)?;
            Ok(None)
        }
    }
}

fn extent_of(text: &str) -> Option<u64>
    ensures { result
        ≡ option_and_then small (option_and_then as_u64 (number_of text.now)) }
{
    let n = unsigned_of(text)?;
    if n <= MAX_EXTENT { Some(n) } else { None }
}
