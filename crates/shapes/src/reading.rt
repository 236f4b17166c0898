//! How JSON trees spell shapes and dims (HDF5/JSON, "Shape"), and how a shape takes other dims.

ghost use Rattle.std.specs.Prelude.{◌≡◌, ◌≤◌, ◌↔◌, ℕ, ◌∷◌, [], List, Option, Some, None, Ok, Err, All, map};
ghost use Rattle.std.specs.Prelude.{length, option_map, option_and_then, IfOk, IfSome, min, codes, nat_le};
ghost use Rattle.std.specs.Prelude.{◌-◌, ◌^◌};
ghost use Rattle.serde_json.specs.Data.{Data};
ghost use Rattle.serde_json.specs.View.{view};
ghost use Rattle.serde_json.specs.Find.{get};
ghost use Rattle.json_trees.specs.Shown.{shown};
ghost use Rattle.json_trees.specs.Trees.{all_in, list_in};
ghost use Rattle.shapes.specs.Extents.{extent_in, extents_in, dims_in};
ghost use Rattle.shapes.specs.Spelled.{kept_of, number_in, kept_grid, kept_limited, kept_simple, few_of};
ghost use Rattle.shapes.specs.RowMajor.{room_of};
ghost use Rattle.shapes.specs.Shapes.{IsShape, IsSound, IsResized, IsDims, shape_of, resized_of, fitted_of};
ghost use Rattle.shapes.specs.Shapes.{plain_of, worded_of, word_of, limits_tree, is_over as over_limit};
ghost use Rattle.shapes.specs.Shapes.{first_over as over_from};
ghost use Rattle.shapes.specs.declared.Shape.{Shape};
ghost use Rattle.shapes.specs.declared.ShapeFault.{ShapeFault};
ghost use Rattle.shapes.specs.declared.TheConstants.{MAX_RANK, MAX_EXTENT, MAX_CELLS};

use crate::{Dims, MAX_CELLS, MAX_EXTENT, MAX_RANK, Shape, ShapeFault};
use json_trees::{list_items, member_text, tree_is, whole_number};
use serde_json::Value;

/// What the numbers of a list are.
#[derive(Clone, Copy)]
enum Role {
    Dim,
    Limit,
}

/// The numbers of a list: how many they are, and those of them that a shape has room for.
#[derive(Clone, Copy)]
struct Spelled {
    kept: Dims,
    count: usize,
}

/// The shape that trees spell.
///
/// No tree, or `"H5S_SCALAR"`, is one cell. `"H5S_NULL"` is no cell. A number is one axis, a list
/// an axis for each of its numbers. An object has one of these words or `"H5S_SIMPLE"` as `class`,
/// and then the list `dims` and maybe the list `maxdims`. Limits that are given beside the shape
/// come before those inside it. Without limits they are the dims. The word `"H5S_UNLIMITED"` for a
/// limit is 0, no limit.
///
/// # Errors
///
/// The first fault in the order of [`ShapeFault`].
pub fn read_shape(shape: Option<&Value>, maxdims: Option<&Value>) -> Result<Shape, ShapeFault>
    ensures spelled { IfOk result (IsShape (shown shape.entry) (shown maxdims.entry)) }
    ensures only { (s : Shape) → IsShape (shown shape.entry) (shown maxdims.entry) s
        → result ≡ Ok s }
    ensures first { result ≡ shape_of (shown shape.entry) (shown maxdims.entry) }
    ensures sound { IfOk result IsSound }
{
    first_of(shape, maxdims)
}

/// Trees spell one shape, or they have a fault, and never both.
pub fn shape_or_fault()
    ensures one { (shape limits : Option Data) (s t : Shape)
        → IsShape shape limits s → IsShape shape limits t → s ≡ t }
    ensures spelled { (shape limits : Option Data) (s : Shape)
        → (IsShape shape limits s ↔ (shape_of shape limits ≡ Ok s)) }
    ensures fault { (shape limits : Option Data) (f : ShapeFault) (s : Shape)
        → shape_of shape limits ≡ Err f → IsShape shape limits s → ⊥ }
{}

#[tactic(auto, unfolding(crate::specs::Shapes::shape_of))]
fn first_of(shape: Option<&Value>, maxdims: Option<&Value>) -> Result<Shape, ShapeFault>
    ensures { result ≡ shape_of (shown shape.entry) (shown maxdims.entry) }
{
    match shape {
        None => plain(Shape::Scalar, maxdims),
        Some(tree) => worded(tree, limits_beside(tree, maxdims)),
    }
}

fn limits_beside<'a>(tree: &'a Value, maxdims: Option<&'a Value>) -> Option<&'a Value>
    ensures { shown result ≡ limits_tree (Some (view tree.now)) (shown maxdims.entry) }
{
    match maxdims {
        Some(limits) => Some(limits),
        None => tree.get("maxdims"),
    }
}

fn plain(shape: Shape, limits: Option<&Value>) -> Result<Shape, ShapeFault>
    ensures { result ≡ plain_of shape (shown limits.entry) }
{
    match limits {
        None => Ok(shape),
        Some(_) => Err(ShapeFault::NotAShape),
    }
}

fn word(tree: &Value) -> Option<&str>
    ensures { option_map (λ s. s.now) result ≡ word_of (view tree.now) }
{
    match tree.as_str() {
        Some(text) => Some(text),
        None => member_text(tree, "class"),
    }
}

#[tactic(auto, using(crate::proofs::SpelledLemmas::simple_kept), unfolding(crate::specs::Shapes::worded_of))]
fn worded(tree: &Value, limits: Option<&Value>) -> Result<Shape, ShapeFault>
    ensures { result ≡ worded_of (word_of (view tree.now)) (view tree.now) (shown limits.entry) }
{
    match word(tree) {
        None => simple(spelled_dims(tree), limits),
        Some("H5S_NULL") => plain(Shape::Null, limits),
        Some("H5S_SCALAR") => plain(Shape::Scalar, limits),
        Some("H5S_SIMPLE") => simple(inner_dims(tree), limits),
        Some(_) => Err(ShapeFault::NotAShape),
    }
}

fn inner_dims(tree: &Value) -> Option<Spelled>
    ensures { result
        ≡ option_map kept_of (option_and_then extents_in (get (codes "dims") (view tree.now))) }
{
    spelled_list(tree.get("dims")?, Role::Dim)
}

fn spelled_list(tree: &Value, role: Role) -> Option<Spelled>
    ensures { result
        ≡ option_map kept_of (option_and_then (all_in (number_in role)) (list_in (view tree.now))) }
{
    numbers(list_items(tree)?, role)
}

fn spelled_dims(tree: &Value) -> Option<Spelled>
    ensures { result ≡ option_map kept_of (dims_in (view tree.now)) }
{
    match list_items(tree) {
        Some(items) => numbers(items, Role::Dim),
        None => one_dim(tree),
    }
}

fn one_dim(tree: &Value) -> Option<Spelled>
    ensures { result
        ≡ option_map kept_of (option_map (λ n. n ∷ []) (extent_in (view tree.now))) }
{
    let n = extent(tree)?;
    Some(Spelled {
        kept: Dims::repeated(n, 1),
        count: 1,
    })
}

fn extent(tree: &Value) -> Option<u64>
    ensures { result ≡ extent_in (view tree.now) }
{
    let n = whole_number(tree)?;
    if n <= MAX_EXTENT { Some(n) } else { None }
}

fn number(tree: &Value, role: Role) -> Option<u64>
    ensures { result ≡ number_in role (view tree.now) }
{
    match role {
        Role::Dim => extent(tree),
        Role::Limit => {
            if tree_is(tree, "H5S_UNLIMITED") {
                Some(0)
            } else {
                extent(tree)
            }
        }
    }
}

fn numbers(items: &[Value], role: Role) -> Option<Spelled>
    ensures { result ≡ option_map kept_of (all_in (number_in role) (map view items.now)) }
{
    let mut kept = Dims::new();
    for item in items {
        kept.keep(number(item, role)?);
    }
    Some(Spelled {
        kept,
        count: items.len(),
    })
}

fn simple(dims: Option<Spelled>, limits: Option<&Value>) -> Result<Shape, ShapeFault>
    ensures { result ≡ kept_simple dims (shown limits.entry) }
{
    let Some(dims) = dims else {
        return Err(ShapeFault::NotAShape);
    };
    match limits {
        None => grid(&dims, &dims),
        Some(tree) => limited(&dims, spelled_list(tree, Role::Limit)),
    }
}

fn limited(dims: &Spelled, limits: Option<Spelled>) -> Result<Shape, ShapeFault>
    ensures { result ≡ kept_limited dims.now limits }
{
    match limits {
        None => Err(ShapeFault::NotAShape),
        Some(limits) => grid(dims, &limits),
    }
}

fn grid(dims: &Spelled, limits: &Spelled) -> Result<Shape, ShapeFault>
    ensures { result ≡ kept_grid dims.now limits.now }
{
    if 1 <= dims.count && dims.count <= MAX_RANK && dims.count == limits.count {
        fitted(&dims.kept, &limits.kept)
    } else {
        Err(ShapeFault::Rank)
    }
}

#[tactic(auto, unfolding(crate::specs::Shapes::fitted_of, crate::specs::Shapes::over_or_room))]
fn fitted(dims: &Dims, limits: &Dims) -> Result<Shape, ShapeFault>
    ensures { result ≡ fitted_of dims.now limits.now }
{
    if dims.len() != limits.len() {
        return Err(ShapeFault::Rank);
    }
    if let Some(axis) = first_over(dims, limits) {
        return Err(ShapeFault::DimOverMax { axis });
    }
    if room_fits(dims.as_slice()) {
        Ok(Shape::Simple {
            dims: *dims,
            maxdims: *limits,
        })
    } else {
        Err(ShapeFault::TooLarge)
    }
}

fn first_over(dims: &Dims, limits: &Dims) -> Option<u8>
    requires { length dims.now ≡ length limits.now }
    ensures { result ≡ over_from 0 dims.now limits.now }
{
    for axis in 0..dims.len() {
        if is_over(dims.get(axis), limits.get(axis)) {
            return Some(axis as u8);
        }
    }
    None
}

fn is_over(n: u64, limit: u64) -> bool
    ensures { result ≡ over_limit n limit }
{
    0 < limit && limit < n
}

fn room_fits(dims: &[u64]) -> bool
    ensures { result ≡ nat_le (room_of dims.now) MAX_CELLS }
{
    room(dims) <= MAX_CELLS
}

/// The product of the dims, each at least 1, or the largest number where it is above that.
fn room(dims: &[u64]) -> u64
    ensures { result ≡ min (room_of dims.now) (2 ^ 64 - 1) }
{
    let mut total = 1u64;
    for n in dims {
        total = total.saturating_mul((*n).max(1));
    }
    total
}

/// The dims that a tree spells: a list of 1 to [`MAX_RANK`] whole numbers up to [`MAX_EXTENT`], or
/// one such number. None where the tree is neither.
pub fn read_dims(tree: &Value) -> Option<Dims>
    ensures spelled { IfSome result (IsDims (view tree.now)) }
    ensures only { (ns : List ℕ) → IsDims (view tree.now) ns → result ≡ Some ns }
    ensures first { result ≡ option_and_then few_of (dims_in (view tree.now)) }
    ensures small { IfSome result (All (λ n. n ≤ MAX_EXTENT)) }
{
    few_dims(tree)
}

fn few_dims(tree: &Value) -> Option<Dims>
    ensures { result ≡ option_and_then few_of (dims_in (view tree.now)) }
{
    let dims = spelled_dims(tree)?;
    if 1 <= dims.count && dims.count <= MAX_RANK {
        Some(dims.kept)
    } else {
        None
    }
}

/// The shape with other dims under its own limits.
///
/// # Errors
///
/// The first of [`ShapeFault::Rank`], [`ShapeFault::DimOverMax`] and [`ShapeFault::TooLarge`] that
/// applies. A shape without dims takes none, which is `Rank`.
pub fn resized(shape: &Shape, dims: &Dims) -> Result<Shape, ShapeFault>
    ensures resized { IfOk result (IsResized shape.now dims.now) }
    ensures only { (s : Shape) → IsResized shape.now dims.now s → result ≡ Ok s }
    ensures first { result ≡ resized_of shape.now dims.now }
    ensures sound { IsSound shape.now → All (λ n. n ≤ MAX_EXTENT) dims.now → IfOk result IsSound }
{
    first_resized(shape, dims)
}

#[tactic(auto, unfolding(crate::specs::Shapes::resized_of))]
fn first_resized(shape: &Shape, dims: &Dims) -> Result<Shape, ShapeFault>
    ensures { result ≡ resized_of shape.now dims.now }
{
    match shape {
        Shape::Simple { maxdims, .. } => fitted(dims, maxdims),
        Shape::Null => Err(ShapeFault::Rank),
        Shape::Scalar => Err(ShapeFault::Rank),
    }
}
