//! How JSON spells points, read from kept trees token by token: no more of a tree is held than its
//! points.

ghost use Rattle.std.specs.Prelude.{◌≡◌, ◌≤◌, ◌↔◌, ℕ, List, All, Some, length, Ok, Err, IfOk, IsErrOf, OnOk};
ghost use Rattle.json.specs.Token.{Token as SpecToken};
ghost use Rattle.serde_json.specs.Data.{Data, Items, array};
ghost use Rattle.shapes.specs.declared.Shape.{Shape};
ghost use Rattle.shapes.specs.declared.Shape.TheVariants.{Simple};
ghost use Rattle.shapes.specs.RowMajor.{is_inside};
ghost use Rattle.shapes.specs.Shapes.{LiesIn, lies_in, dims_of};
ghost use Rattle.json_trees.specs.Begun.{AreTrees};
ghost use Rattle.json_trees.specs.Kept.{Begins};
ghost use Rattle.json_trees.specs.Trees.{list_of, list_in};
ghost use Rattle.point_select.specs.Points.{SpellsPoints, IsFirstBad};
ghost use Rattle.point_select.specs.Faults.{point_at, point_of, points_from, points_of, GivesPoint, GivesPoints, IsRead};
ghost use Rattle.point_select.specs.declared.PointFault.{PointFault};

use crate::{MAX_POINTS, PointFault, Points};
use json::{Reader, Scratch, Token};
use json_trees::{KeptList, KeptTree};
use shapes::{Dims, Shape, next_dims};
use std::alloc::Global;

/// The points of a shape that a kept tree spells: a list of at most [`MAX_POINTS`] points, each a
/// list of coordinates, or one coordinate where the shape has one axis.
///
/// # Errors
///
/// The first fault in the order of [`PointFault`]; or want of memory, which comes only of a list of at
/// most [`MAX_POINTS`] items on a shape with axes.
pub fn read_points(alloc: Global, tree: &KeptList, shape: &Shape) -> Result<Points, PointFault>
    ensures spelled { IfOk result (SpellsPoints tree.now shape.now) }
    ensures only { (points : List (List ℕ)) → SpellsPoints tree.now shape.now points
        → GivesPoints result (Ok points) }
    ensures first { GivesPoints result (points_of tree.now shape.now) }
    ensures memory { IsErrOf result PointFault.NoMemory → IsRead shape.now (list_in tree.now) }
    ensures inside { IfOk result (All (λ at. LiesIn at shape.now)) }
    ensures few { IfOk result (λ points. length points ≤ 65536) }
{
    first_of(alloc, tree, shape)
}

/// A tree spells one list of points of a shape, or it has a fault, and never both. The fault of a
/// list that isn't too long, on a shape with axes, is that of its first bad point.
pub fn points_or_fault()
    ensures one { (d : Data) (shape : Shape) (ps qs : List (List ℕ))
        → SpellsPoints d shape ps → SpellsPoints d shape qs → ps ≡ qs }
    ensures spelled { (d : Data) (shape : Shape) (ps : List (List ℕ))
        → (SpellsPoints d shape ps ↔ (points_of d shape ≡ Ok ps)) }
    ensures fault { (d : Data) (shape : Shape) (f : PointFault) (ps : List (List ℕ))
        → points_of d shape ≡ Err f → SpellsPoints d shape ps → ⊥ }
    ensures first { (d : Data) (dims limits : List ℕ) (items : Items) (f : PointFault)
        → d ≡ array items → length (list_of items) ≤ 65536
        → points_of d (Simple dims limits) ≡ Err f → IsFirstBad dims 0 (list_of items) f }
{}

#[tactic(auto, unfolding(crate::specs::Faults::points_of))]
fn first_of(alloc: Global, tree: &KeptList, shape: &Shape) -> Result<Points, PointFault>
    ensures first { GivesPoints result (points_of tree.now shape.now) }
    ensures memory { IsErrOf result PointFault.NoMemory → IsRead shape.now (list_in tree.now) }
{
    let Some(count) = tree.count() else {
        return Err(PointFault::Syntax { index: 0 });
    };
    if MAX_POINTS < count {
        return Err(PointFault::TooMany {
            count: count as u64,
        });
    }
    match shape {
        Shape::Simple { dims, .. } => { all_points(alloc, tree.tree(), shape, dims.len(), count) }
        Shape::Null => Err(PointFault::Rank { index: 0 }),
        Shape::Scalar => Err(PointFault::Rank { index: 0 }),
    }
}

/// The points of a list with so many items.
fn all_points(
    alloc: Global,
    tree: &KeptTree,
    shape: &Shape,
    rank: usize,
    count: usize,
) -> Result<Points, PointFault>
    requires few { count ≤ 65536 }
    requires rank { rank ≡ length (dims_of shape.now) }
    requires axes { (at : List ℕ) → lies_in at shape.now ≡ is_inside at (dims_of shape.now) }
    ensures { (ds : List Data) → list_in tree.now ≡ Some ds → length ds ≡ count
        → GivesPoints result (points_from (dims_of shape.now) 0 ds) }
{
    let mut scratch = Scratch::new(alloc);
    let mut reader = tree.reader(&mut scratch)?;
    match reader.next() {
        Some(Token::BeginArray) => each_point(alloc, &mut reader, shape, rank, count),
        _ => Err(PointFault::NoMemory),
    }
}

/// [`all_points`], of a list whose bracket was taken.
fn each_point(
    alloc: Global,
    reader: &mut Reader<'_>,
    shape: &Shape,
    rank: usize,
    count: usize,
) -> Result<Points, PointFault>
    requires few { count ≤ 65536 }
    requires rank { rank ≡ length (dims_of shape.now) }
    requires axes { (at : List ℕ) → lies_in at shape.now ≡ is_inside at (dims_of shape.now) }
    ensures { (trees : Items) (rest : List SpecToken) → AreTrees reader.old trees rest
        → length (list_of trees) ≡ count
        → GivesPoints result (points_from (dims_of shape.now) 0 (list_of trees)) }
{
    let mut list = Vec::with_capacity(alloc, count)?;
    for index in 0..count {
        let at = next_point(reader, shape, rank, index as u64)?;
        list.push_reserved(at);
    }
    Ok(Points::new(list))
}

/// The point that comes next, which has a number.
fn next_point(
    reader: &mut Reader<'_>,
    shape: &Shape,
    rank: usize,
    index: u64,
) -> Result<Dims, PointFault>
    requires rank { rank ≡ length (dims_of shape.now) }
    requires axes { (at : List ℕ) → lies_in at shape.now ≡ is_inside at (dims_of shape.now) }
    ensures { (tree : Data) (rest : List SpecToken) → Begins reader.old tree rest
        → GivesPoint result (point_of (dims_of shape.now) index tree)
        × OnOk result (reader.new ≡ rest) }
{
    let Some(at) = next_dims(reader)? else {
        return Err(PointFault::Syntax { index });
    };
    judged(at, shape, rank, index)
}

fn judged(at: Dims, shape: &Shape, rank: usize, index: u64) -> Result<Dims, PointFault>
    requires rank { rank ≡ length (dims_of shape.now) }
    requires axes { (at : List ℕ) → lies_in at shape.now ≡ is_inside at (dims_of shape.now) }
    ensures { result ≡ point_at (dims_of shape.now) index (Some at) }
{
    if at.len() != rank {
        return Err(PointFault::Rank { index });
    }
    if shape.contains(&at) {
        Ok(at)
    } else {
        Err(PointFault::Past { index })
    }
}
