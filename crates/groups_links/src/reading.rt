//! The link that a tree spells (HDF5/JSON, "Link").

ghost use Rattle.std.specs.Prelude.{◌≡◌, ◌↔◌, None, IfOk, IsErrOf};
ghost use Rattle.serde_json.specs.View.{view};
ghost use Rattle.json_trees.specs.Shown.{shown};
ghost use Rattle.groups_links.specs.Targets.{IsSoundLink, Reads, file_at, hard_in, link_in};
ghost use Rattle.groups_links.specs.Targets.{name_fault, outward_in, text_in, IsText};
ghost use Rattle.groups_links.specs.declared.reading.LinkFault.TheVariants.{NotALink};

use crate::MAX_TEXT;
use crate::target::LinkTo;
use object_ids::{Name, NameFault, read_id};
use serde_json::Value;
use std::alloc::Global;

/// Why a tree was not read as a link.
#[derive(Clone, Copy, Debug, PartialEq, Eq)]
pub enum LinkFault {
    /// The tree is outside the grammar, or a text in it is no id or no name.
    NotALink,
    /// There was no memory for the link.
    NoMemory,
}

impl From<NameFault> for LinkFault {
    ghost from_gives = { λ fault e. e ≡ name_fault fault };

    fn from(fault: NameFault) -> LinkFault {
        match fault {
            NameFault::BadName => LinkFault::NotALink,
            NameFault::NoMemory => LinkFault::NoMemory,
        }
    }
}

/// The link that a tree spells. An object with an `id` is a hard link, whatever else it has; one
/// with an `h5path` and an `h5domain`, `file` or `domain`, of which the first decides, is an
/// external link; one with an `h5path` alone is a soft link. Paths and files are names of at most
/// [`MAX_TEXT`] bytes. Other keys are ignored.
///
/// # Errors
///
/// [`LinkFault::NotALink`] for any other tree, and [`LinkFault::NoMemory`] only for a link.
pub fn read_link(alloc: Global, tree: &Value) -> Result<LinkTo, LinkFault>
    ensures reads { Reads result (link_in (view tree.now)) }
    ensures refused { IsErrOf result NotALink ↔ (link_in (view tree.now) ≡ None) }
    ensures sound { IfOk result IsSoundLink }
{
    link(alloc, tree)
}

#[tactic(auto, unfolding(crate::specs::Targets::link_in))]
fn link(alloc: Global, tree: &Value) -> Result<LinkTo, LinkFault>
    ensures reads { Reads result (link_in (view tree.now)) }
    ensures sound { IfOk result IsSoundLink }
{
    if let Some(id) = tree.get("id") {
        return hard(id);
    }
    let Some(path) = tree.get("h5path") else {
        return Err(LinkFault::NotALink);
    };
    match file_in(tree) {
        Some(file) => external(alloc, path, file),
        None => soft(alloc, path),
    }
}

// The tree that names a link's file.
fn file_in(tree: &Value) -> Option<&Value>
    ensures { shown result ≡ file_at (view tree.now) }
{
    tree.get("h5domain")
        .or(tree.get("file"))
        .or(tree.get("domain"))
}

fn hard(id: &Value) -> Result<LinkTo, LinkFault>
    ensures reads { Reads result (hard_in (view id.now)) }
    ensures sound { IfOk result IsSoundLink }
{
    let Some(text) = id.as_str() else {
        return Err(LinkFault::NotALink);
    };
    match read_id(text) {
        Some(id) => Ok(LinkTo::Hard(id)),
        None => Err(LinkFault::NotALink),
    }
}

fn soft(alloc: Global, path: &Value) -> Result<LinkTo, LinkFault>
    ensures reads { Reads result (outward_in (view path.now) None) }
    ensures sound { IfOk result IsSoundLink }
{
    Ok(LinkTo::Soft(text(alloc, path)?))
}

// Both texts are judged, so that want of memory for one doesn't hide that the other is no name.
fn external(alloc: Global, path: &Value, file: &Value) -> Result<LinkTo, LinkFault>
    ensures reads { Reads result (outward_in (view path.now) (Some (view file.now))) }
    ensures sound { IfOk result IsSoundLink }
{
    match (text(alloc, path), text(alloc, file)) {
        (Ok(path), Ok(file)) => Ok(LinkTo::External { path, file }),
        (Err(LinkFault::NotALink), _) | (_, Err(LinkFault::NotALink)) => Err(LinkFault::NotALink),
        _ => Err(LinkFault::NoMemory),
    }
}

// A path or a file.
fn text(alloc: Global, tree: &Value) -> Result<Name, LinkFault>
    ensures reads { Reads result (text_in (view tree.now)) }
    ensures sound { IfOk result IsText }
{
    match tree.as_str() {
        Some(text) => Ok(Name::read(alloc, text, MAX_TEXT)?),
        None => Err(LinkFault::NotALink),
    }
}
