//! What holds of configurations, in other words than the definitions.

ghost use Rattle.std.specs.Prelude.{◌≡◌, ◌↔◌, Some};
ghost use Rattle.access_lists.specs.declared.list.TheConstants.{MAX_ENTRIES};
ghost use Rattle.domains.specs.Contents.{Contents};
ghost use Rattle.configuration.specs.ConfiguredNodes.{HasConfigured, HasFirstRoots, MakeTree, Settings};
ghost use Rattle.configuration.specs.Catalogues.{catalogue_of};
ghost use Rattle.configuration.specs.declared.limits.TheConstants.{MAX_BELOW_ROOT, MAX_GROUP_LEN, MAX_NAME_LEN, MAX_TOKEN_LEN};

/// The limits of a configuration: bytes of the name of a user, an owner or an entry, of the name of
/// a group and of a token, entries of an access list, and folders and domains beside `/`.
pub fn limits_of_configurations()
    ensures name { MAX_NAME_LEN ≡ 255 }
    ensures group { MAX_GROUP_LEN ≡ 253 }
    ensures token { MAX_TOKEN_LEN ≡ 255 }
    ensures entries { MAX_ENTRIES ≡ 1_024 }
    ensures nodes { MAX_BELOW_ROOT ≡ 65_535 }
{}

/// Configured folders and domains have a catalogue exactly where they make a tree, and it has just
/// these nodes: each path its class, owner and list, and each domain the number and the root that
/// its rank among the domains says.
pub fn configured_catalogue()
    ensures nodes { (folders domains : Settings) (c : Contents)
        → (catalogue_of folders domains ≡ Some c)
        ↔ (MakeTree folders domains × HasConfigured folders domains c) }

    // The root of each domain was given out in run 0.
    ensures roots { (folders domains : Settings) (c : Contents) → catalogue_of folders domains ≡ Some c → HasFirstRoots c }
{}
