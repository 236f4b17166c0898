// The nodes right below a path.
ghost use Rattle.std.specs.Prelude.{◌≡◌, ℕ, List, IfOk, Some, map, option_map};
ghost use Rattle.std.specs.FinMap as finite;
ghost use Rattle.std.specs.List.{list_any};
ghost use Rattle.serde_json.specs.View.{view};
ghost use Rattle.domains.specs.Children.{children_in, is_child};
ghost use Rattle.domains.specs.ChildSteps.{AreCanonical, IsChildStep, IsFrom};
ghost use Rattle.domains.specs.NodeTrees.{child_tree};

use crate::classes::Node;
use crate::node_trees::child_json;
use containers::text_maps::TextMap;
use object_ids::parent_text;
use serde_json::Value;
use std::alloc::{AllocError, Global};

// Whether a node stands right below a path.
pub(crate) fn has_child(nodes: &TextMap<Node>, folder: &str) -> bool
    requires { AreCanonical nodes.now }
    ensures { result ≡ list_any (λ e. is_child folder.now e.0) (finite.entries nodes.now) }
{
    next_child(nodes, folder, folder).is_some()
}

// The nodes right below a path, each as a tree.
pub(crate) fn child_list(
    alloc: Global,
    nodes: &TextMap<Node>,
    folder: &str,
) -> Result<Vec<Value>, AllocError>
    requires { AreCanonical nodes.now }
    ensures { IfOk result (λ trees. map view trees.items
        ≡ map (λ e. child_tree e.0 e.1) (children_in folder.now (finite.entries nodes.now))) }
{
    let mut trees = Vec::new(alloc);
    let mut after = folder;
    'children: while let Some((path, node)) = next_child(nodes, folder, after) {
        trees.push(child_json(alloc, path, node)?)?;
        after = path;
    }
    Ok(trees)
}

// The first node right below a folder that stands behind another path, which is the folder's or stands behind it. The
// paths that begin with the folder's stand in a row, so the walk ends behind them.
fn next_child<'a>(
    nodes: &'a TextMap<Node>,
    folder: &str,
    after: &'a str,
) -> Option<(&'a str, &'a Node)>
    requires paths { AreCanonical nodes.now }
    requires from { IsFrom folder.now after.now }
    ensures step { IsChildStep folder.now (finite.entries nodes.now) after.now
        (option_map (λ e. (e.0.now, e.1.now)) result) }
    ensures behind { (path : List ℕ) → option_map (λ e. e.0.now) result ≡ Some path
        → IsFrom folder.now path }
{
    let mut last = after;
    'paths: while let Some((path, node)) = nodes.next_key(Some(last)) {
        if !path.as_bytes().starts_with(folder.as_bytes()) {
            return None;
        }
        if parent_text(path) == folder {
            return Some((path, node));
        }
        last = path;
    }
    None
}
