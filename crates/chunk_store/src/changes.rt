//! Which chunks may be dirty, so that nobody walks over those that are clean.

ghost use Rattle.std.specs.Prelude.{◌≡◌, ℕ, List, [], OnOk, true, false};
ghost use Rattle.chunk_store.specs.Cells.{has};
ghost use Rattle.chunk_store.specs.Changes.{KeepsListed};

use shapes::Dims;
use std::alloc::{AllocError, Global};
use std::collections::BTreeMap;

/// Chunks that may be dirty.
pub(crate) type Listed = BTreeMap<Dims, ()>;

/// Which chunks may be dirty.
#[derive(Drop)]
pub(crate) struct Changes {
    /// These, unless all may be.
    pub(crate) listed: Listed,
    /// Whether all may be, also chunks outside the array.
    pub(crate) all: bool,
    /// Those that were added by the write that is under way.
    pub(crate) added: Vec<Dims>,
}

impl Changes {
    /// No chunk is dirty.
    pub(crate) fn new(alloc: Global) -> Changes
        ensures listed { (i : List ℕ) → has result.listed i ≡ false }
        ensures all { result.all ≡ false }
    {
        Changes {
            listed: BTreeMap::new(alloc),
            all: false,
            added: Vec::new(alloc),
        }
    }

    /// Lists a chunk.
    pub(crate) fn list(&mut self, index: &Dims) -> Result<(), AllocError>
        ensures keeps { KeepsListed self.old self.new }
        ensures there { OnOk result (has self.new.listed index.now ≡ true) }
        ensures added { self.new.added ≡ self.old.added }
    {
        match self.listed.insert(*index, ()) {
            Ok(_) => Ok(()),
            Err(_) => Err(AllocError),
        }
    }
}
