//! The document of a domain.

ghost use Rattle.std.specs.Prelude.{◌≡◌, ◌↔◌, ◌≤◌, ◌^◌, Some, None, Err, IfOk, length, string_bytes};
ghost use Rattle.serde_json.specs.View.{view};
ghost use Rattle.serde_json.specs.Written.{compact_text};
ghost use Rattle.documents.specs.Domains.Documents.{document_tree};
ghost use Rattle.documents.specs.Domains.Printed.{IsPrinted};
ghost use Rattle.service_core.specs.Worlds.{seen};
ghost use Rattle.json_export.specs.Documents.{Answers, CannotFit, IsReadAs, IsTextOf, IsTooLong, doc};
ghost use Rattle.json_export.specs.Documents.{home_at, home_of};

use crate::faults::ExportFault;
use crate::worlds::WorldObjects;
use documents::domains::{Home, domain_json, print_domain};
use domains::NodeClass;
use object_ids::DomainPath;
use serde_json::Value;
use service_core::World;
use std::alloc::Global;

/// The document of the domain at a path: all objects of the domain, and the root, each at the text of its id.
///
/// # Errors
///
/// [`ExportFault::NoDomain`] exactly where no domain is at the path; [`ExportFault::TooLarge`] exactly where the compact text of
/// the document has more than [`crate::MAX_TEXT`] bytes, and before a value is read where the shapes of the datasets ask for
/// so many; [`ExportFault::NoMemory`] only where memory runs out.
pub fn document(alloc: Global, world: &World, path: &DomainPath) -> Result<Value, ExportFault>
    ensures tree { IfOk result (λ tree. doc (seen world.now) path.now ≡ Some (view tree)) }
    ensures short { IfOk result (λ tree. length (compact_text (view tree)) ≤ 2 ^ 27) }
    ensures none { (result ≡ Err ExportFault.NoDomain) ↔ (doc (seen world.now) path.now ≡ None) }
    ensures large { result ≡ Err ExportFault.TooLarge → IsTooLong (doc (seen world.now) path.now) }
    ensures early { CannotFit (seen world.now) (home_at (seen world.now) path.now)
        → result ≡ Err ExportFault.TooLarge }
{
    tree_at(alloc, world, path)
}

/// The compact text of that document, which is read as the document, where it nests no deeper than is read.
///
/// # Errors
///
/// Those of [`document`], and where it has them.
pub fn document_text(alloc: Global, world: &World, path: &DomainPath) -> Result<String, ExportFault>
    ensures text { IfOk result
        (λ text. IsTextOf (string_bytes text) (doc (seen world.now) path.now)) }
    ensures reads { IfOk result
        (λ text. IsReadAs (string_bytes text) (doc (seen world.now) path.now)) }
    ensures short { IfOk result (λ text. length (string_bytes text) ≤ 2 ^ 27) }
    ensures none { (result ≡ Err ExportFault.NoDomain) ↔ (doc (seen world.now) path.now ≡ None) }
    ensures large { result ≡ Err ExportFault.TooLarge → IsTooLong (doc (seen world.now) path.now) }
    ensures early { CannotFit (seen world.now) (home_at (seen world.now) path.now)
        → result ≡ Err ExportFault.TooLarge }
{
    text_at(alloc, world, path)
}

// The text of the document at a path, where there is one that isn't too long.
fn text_at(alloc: Global, world: &World, path: &DomainPath) -> Result<String, ExportFault>
    ensures answer { Answers (λ text tree. IsPrinted tree (string_bytes text)) result
        (doc (seen world.now) path.now) }
    ensures early { CannotFit (seen world.now) (home_at (seen world.now) path.now)
        → result ≡ Err ExportFault.TooLarge }
{
    match home_at(world, path) {
        Some(home) => domain_text(alloc, world, &home),
        None => Err(ExportFault::NoDomain),
    }
}

// The document at a path, where there is one whose text isn't too long.
fn tree_at(alloc: Global, world: &World, path: &DomainPath) -> Result<Value, ExportFault>
    ensures answer { Answers (λ found tree. view found ≡ tree) result
        (doc (seen world.now) path.now) }
    ensures early { CannotFit (seen world.now) (home_at (seen world.now) path.now)
        → result ≡ Err ExportFault.TooLarge }
{
    match home_at(world, path) {
        Some(home) => domain_tree(alloc, world, &home),
        None => Err(ExportFault::NoDomain),
    }
}

// The domain at a path, where one is there.
fn home_at(world: &World, path: &DomainPath) -> Option<Home>
    ensures { result ≡ home_at (seen world.now) path.now }
{
    let node = world.node(path)?;
    home_of(&node.class)
}

fn home_of(class: &NodeClass) -> Option<Home>
    ensures { result ≡ home_of (Some class.now) }
{
    match class {
        NodeClass::Folder => None,
        NodeClass::Domain { number, root } => Some(Home {
            number: *number,
            root: *root,
        }),
    }
}

// The text of a domain's document.
fn domain_text(alloc: Global, world: &World, home: &Home) -> Result<String, ExportFault>
    ensures answer { Answers (λ text tree. IsPrinted tree (string_bytes text)) result
        (Some (document_tree (seen world.now).objects home.now)) }
    ensures early { CannotFit (seen world.now) (Some home.now) → result ≡ Err ExportFault.TooLarge }
{
    Ok(print_domain(alloc, &WorldObjects { world }, home)?)
}

// A domain's document, where its text isn't too long. The text is let go before the tree is made.
fn domain_tree(alloc: Global, world: &World, home: &Home) -> Result<Value, ExportFault>
    ensures answer { Answers (λ found tree. view found ≡ tree) result
        (Some (document_tree (seen world.now).objects home.now)) }
    ensures early { CannotFit (seen world.now) (Some home.now) → result ≡ Err ExportFault.TooLarge }
{
    domain_text(alloc, world, home)?;
    Ok(domain_json(alloc, &WorldObjects { world }, home)?)
}
