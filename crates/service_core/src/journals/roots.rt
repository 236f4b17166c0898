//! The roots of the domains of a catalogue.

ghost use Rattle.std.specs.Prelude.{◌≡◌, IfOk};
ghost use Rattle.domains.specs.declared.classes.NodeClass.{NodeClass};
ghost use Rattle.service_core.specs.Journals.Groups.{root_in, roots_in, roots_of};

use domains::{Catalogue, Node, NodeClass};
use object_ids::ObjectId;
use std::alloc::{AllocError, Global};
use std::collections::BTreeMap;

/// The roots of all domains, in the order of their paths' bytes.
pub(crate) fn roots_of(alloc: Global, catalogue: &Catalogue) -> Result<Vec<ObjectId>, AllocError>
    ensures { IfOk result (λ roots. roots.items ≡ roots_of catalogue.now) }
{
    roots_in(alloc, catalogue.as_map().as_tree())
}

fn roots_in(alloc: Global, nodes: &BTreeMap<String, Node>) -> Result<Vec<ObjectId>, AllocError>
    ensures { IfOk result (λ roots. roots.items ≡ roots_in nodes.now.entries) }
{
    let _most = nodes.len();
    let mut roots = Vec::new(alloc);
    for (_, node) in nodes {
        if let Some(root) = root_in(&node.class) {
            roots.push(root)?;
        }
    }
    Ok(roots)
}

fn root_in(class: &NodeClass) -> Option<ObjectId>
    ensures { result ≡ root_in class.now }
{
    match class {
        NodeClass::Folder => None,
        NodeClass::Domain { root, .. } => Some(*root),
    }
}
