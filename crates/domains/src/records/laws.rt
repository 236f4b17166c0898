//! What holds of the trees of all nodes.

ghost use Rattle.std.specs.Prelude.{◌≡◌, ◌≤◌, ◌↔◌, ℕ, List, Some, true};
ghost use Rattle.std.specs.Str.{is_utf8};
ghost use Rattle.serde_json.specs.Data.{depth};
ghost use Rattle.serde_json.specs.Read.{read};
ghost use Rattle.domains.specs.declared.classes.Node.{Node};
ghost use Rattle.domains.specs.Records.Nodes.{IsKeptNode, node_in, node_of_body, node_tree};

/// The tree of a node spells the node, and nests three deep at most.
pub fn trees_of_nodes()
    ensures back { (node : Node) → IsKeptNode node → node_in (node_tree node) ≡ Some node }

    // A body is a node's exactly where it is a text that reads as the node's tree.
    ensures exact { (body : List ℕ) (node : Node) → ((node_of_body body ≡ Some node)
        ↔ ((is_utf8 body ≡ true) × (read body ≡ Some (node_tree node)) × IsKeptNode node)) }
    ensures flat { (node : Node) → depth (node_tree node) ≤ 3 }
{}
