//! The sum of what is read.

ghost use Rattle.std.specs.Prelude.{◌≡◌, ◌%◌, ◌^◌, ℕ, codes, map};
ghost use Rattle.serde_json.specs.View.{view};
ghost use Rattle.object_ops.specs.Replies.{only};
ghost use Rattle.samples.specs.Values.Samples.{slab_sum};
ghost use Rattle.samples.specs.Sums.{members, number_in, row_in, total_in};
ghost use Rattle.samples.specs.Trees.{read_tree};

use json_trees::Tree;
use serde_json::Value;

/// The sum of the numbers of a slab, modulo 2^64.
pub(crate) fn sum_of(tree: &Value) -> u64
    ensures total { result ≡ total_in (view tree.now) % 2 ^ 64 }
    ensures slab { (n a : ℕ) → view tree.now ≡ read_tree n a 100 143 → result ≡ slab_sum n a }
{
    let mut sum: u64 = 0;
    for row in items_of(tree) {
        sum = sum.wrapping_add(sum_of_row(row));
    }
    sum
}

fn sum_of_row(tree: &Value) -> u64
    ensures { result ≡ row_in (view tree.now) % 2 ^ 64 }
{
    let mut sum: u64 = 0;
    for number in items_of(tree) {
        sum = sum.wrapping_add(number.as_u64().unwrap_or(0));
    }
    sum
}

fn items_of(tree: &Value) -> &[Value]
    ensures { map view result.now ≡ members (view tree.now) }
{
    match tree.as_array() {
        Some(items) => items.as_slice(),
        None => &[],
    }
}

/// The sum of the numbers at the key `value` of an answer's body.
pub(crate) fn sum_of_body(body: &Tree) -> u64
    ensures { (n a : ℕ) → body.now ≡ only (codes "value") (read_tree n a 100 143)
        → result ≡ slab_sum n a }
{
    match body.value().get("value") {
        Some(tree) => sum_of(tree),
        None => 0,
    }
}
