//! Objects and lists in a document.

ghost use Rattle.std.specs.Prelude.{◌≡◌, ◌≤◌, IfOk, decimal, length, map, string_bytes};
ghost use Rattle.serde_json.specs.View.{members_view, view};
ghost use Rattle.json_trees.specs.Trees.{list_in};
ghost use Rattle.documents.specs.Parts.Faults.{Gives};
ghost use Rattle.documents.specs.Parts.Items.{items_at, members_at};
ghost use Rattle.documents.specs.Parts.Paths.{under};

use crate::parts::faults::{DocCause, DocFault, refused};
use crate::parts::paths::DocPath;
use json_trees::list_items;
use serde_json::{Map, Value};
use std::alloc::{AllocError, Global};

/// The members of what is to be an object.
///
/// # Errors
///
/// `NotADocument` where it is none, or want of memory.
pub fn members<'a>(
    alloc: Global,
    path: &str,
    tree: &'a Value,
) -> Result<&'a Map<String, Value>, DocFault>
    ensures { Gives (λ m. members_view m.now.entries) result
        (members_at path.now (view tree.now)) }
{
    match tree.as_object() {
        None => Err(refused(alloc, path, DocCause::NotADocument)),
        Some(members) => Ok(members),
    }
}

// The items of what is to be a list of at most so many.
pub(crate) fn items<'a>(
    alloc: Global,
    path: &str,
    most: usize,
    tree: &'a Value,
) -> Result<&'a [Value], DocFault>
    ensures exact { Gives (λ items. map view items.now) result
        (items_at most path.now (list_in (view tree.now))) }
    ensures few { IfOk result (λ items. length items.now ≤ most) }
{
    match list_items(tree) {
        None => Err(refused(alloc, path, DocCause::NotADocument)),
        Some(items) => {
            if items.len() <= most {
                Ok(items)
            } else {
                Err(refused(alloc, path, DocCause::Limit))
            }
        }
    }
}

/// The path of a member of a list.
///
/// # Errors
///
/// Only where memory runs out.
pub fn numbered(alloc: Global, path: &str, index: usize) -> Result<DocPath, AllocError>
    ensures { IfOk result (λ p. p ≡ under path.now (decimal index)) }
{
    let number = number_text(alloc, index)?;
    DocPath::under(alloc, path, number.as_str())
}

fn number_text(alloc: Global, index: usize) -> Result<String, AllocError>
    ensures { IfOk result (λ s. string_bytes s ≡ decimal index) }
{
    format!(in alloc; "{index}")
}
