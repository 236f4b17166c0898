//! Trees of JSON (RFC 8259) that contracts see as data, and looking into them: their whole numbers,
//! their lists, the texts at their keys.
//!
//! A [`Tree`] holds its nodes, a [`KeptTree`] its text.
//!
//! `specs/` has the words that contracts on trees share, and `Faults` those by which a contract
//! says which of several faults comes first.
#![tactic(auto)]

ghost use Rattle.std.specs.Prelude.{◌≡◌, ◌⊎◌, ◌↔◌, Ok, Err, Result, map, option_map};
ghost use Rattle.serde_json.specs.View.{view};
ghost use Rattle.json_trees.specs.Faults.{◌>>=◌ as followed_by};
ghost use Rattle.json_trees.specs.Trees.{whole_in, list_in, text_at, is_text};

mod kept;
mod tree;

pub use kept::{
    KeptList, KeptTree, ReadFault, check_value, has_number, member_at, negative_of, pass_rest,
    pass_value, unsigned_of,
};
use serde_json::Value;
pub use tree::Tree;

/// The number of a tree that is a whole number from 0 to 2^64 - 1, written without a fraction or
/// an exponent.
pub fn whole_number(tree: &Value) -> Option<u64>
    ensures { result ≡ whole_in (view tree.now) }
{
    tree.as_u64()
}

/// Whether a tree is this text.
pub fn tree_is(tree: &Value, text: &str) -> bool
    ensures { result ≡ is_text text.now (view tree.now) }
{
    match tree.as_str() {
        Some(found) => found == text,
        None => false,
    }
}

/// The items of a tree that is a list.
pub fn list_items(tree: &Value) -> Option<&[Value]>
    ensures { option_map (λ items. map view items.now) result ≡ list_in (view tree.now) }
{
    let list = tree.as_array()?;
    Some(list.as_slice())
}

/// The text at a key of a tree that is an object.
pub fn member_text<'a>(tree: &'a Value, key: &str) -> Option<&'a str>
    ensures { option_map (λ text. text.now) result ≡ text_at key.now (view tree.now) }
{
    tree.get(key).and_then(Value::as_str)
}

/// Of two tests, one after the other: both pass exactly where the first passes and then the second
/// over what it gave, and the fault is that of the first that fails.
pub fn first_fault_decides<A, B, E>()
    ensures passed { (r : Result A E) (next : A → Result B E) (y : B)
        → ((followed_by r next ≡ Ok y) ↔ ((x : A) × (r ≡ Ok x) × (next x ≡ Ok y))) }
    ensures failed { (r : Result A E) (next : A → Result B E) (e : E)
        → ((followed_by r next ≡ Err e)
        ↔ ((r ≡ Err e) ⊎ ((x : A) × (r ≡ Ok x) × (next x ≡ Err e)))) }
{}
