//! What holds of all catalogues.
ghost use Rattle.std.specs.Prelude.{◌≡◌, ◌↔◌, ◌+◌, ◌^◌, ℕ, List, [], true, Some};
ghost use Rattle.std.specs.FinMap as map;
ghost use Rattle.object_ids.specs.Paths.{root_path};
ghost use Rattle.domains.specs.Changes.{domain_count, folder_count, number_limit};
ghost use Rattle.domains.specs.Children.{children_of, has_children};
ghost use Rattle.domains.specs.Contents.{Contents, HasChildren, HasRoot, IsCatalogue, NumberFits};
ghost use Rattle.domains.specs.Contents.{most_nodes, only_root};
ghost use Rattle.domains.specs.declared.catalogue.TheConstants.{MAX_NODES, NUMBER_LIMIT};
ghost use Rattle.domains.specs.declared.classes.Node.{Node};

/// A catalogue has at most 65,536 nodes, and its domains have numbers below 2^48.
pub fn catalogue_limits()
    ensures nodes { most_nodes ≡ 65536 }
    ensures counted { MAX_NODES ≡ 65536 }
    ensures numbers { number_limit ≡ 2 ^ 48 }
    ensures tested { NUMBER_LIMIT ≡ 2 ^ 48 }
{}

/// A node is a folder or a domain, and the test whether a path has children finds those that stand right below it.
pub fn nodes_of_catalogues()
    ensures all { (c : Contents) → folder_count c + domain_count c ≡ map.len c.nodes }
    ensures tested { (c : Contents) (path : List ℕ)
        → ((has_children c path ≡ true) ↔ HasChildren c path) }

    // Each domain of a catalogue has a number below 2^48, and a group of that number as its root.
    ensures rooted { (c : Contents) (path : List ℕ) (node : Node) → IsCatalogue c
        → map.get c.nodes path ≡ Some node → HasRoot node.class × NumberFits node.class }

    // `/` is no child of itself.
    ensures first { (node : Node) → children_of (only_root node) root_path ≡ [] }
{}
