//! How much a document holds.

ghost use Rattle.std.specs.Prelude.{◌≡◌, ◌+◌};
ghost use Rattle.std.specs.FinMap.{len};
ghost use Rattle.json_import.specs.Fresh.Names.{others};
ghost use Rattle.json_import.specs.Fresh.Renamed.{other_count};
ghost use Rattle.json_import.specs.Adoption.Adopted.{counts_of};

use documents::reader::Loaded;

/// How many objects a document holds.
#[derive(Clone, Copy, Debug, PartialEq, Eq)]
pub struct Counts {
    pub groups: u64,
    pub datasets: u64,
    pub datatypes: u64,
}

impl Counts {
    pub(crate) fn of(loaded: &Loaded) -> Counts
        ensures { result ≡ counts_of loaded.now }
    {
        Counts {
            groups: loaded.groups.len() as u64,
            datasets: loaded.datasets.len() as u64,
            datatypes: loaded.datatypes.len() as u64,
        }
    }
}

// How many serials a document needs: one for the root, and one for each other object.
pub(crate) fn serials_needed(loaded: &Loaded) -> u128
    ensures { result ≡ 1 + other_count loaded.now }
{
    let groups = other_groups(loaded) as u128;
    1 + groups + loaded.datasets.len() as u128 + loaded.datatypes.len() as u128
}

fn other_groups(loaded: &Loaded) -> usize
    ensures { result ≡ len (others loaded.now) }
{
    let groups = loaded.groups.len();
    if loaded.groups.contains_key(loaded.root.text()) {
        groups.saturating_sub(1)
    } else {
        groups
    }
}
