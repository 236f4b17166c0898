//! Arrays of which nothing is kept yet.

ghost use Rattle.std.specs.Prelude.{◌≡◌, []};
ghost use Rattle.chunk_store.specs.Marks.{IsTracked};

use chunk_store::Array;
use std::marker::Model;

/// An array no chunk of which has a record. It is seen without which of its chunks have changed.
#[derive(Drop)]
pub struct FreshArray {
    array: Array,
}

impl Model for FreshArray {
    ghost use Rattle.std.specs.Prelude.{[]};
    ghost use Rattle.chunk_store.specs.Grids.{Grid, coded_grid};
    ghost use Rattle.chunk_store.specs.Marks.{IsTracked};

    ghost Value = { Grid };

    ghost coded = { coded_grid };

    ghost view = { λ a. a.array.grid };

    ghost invariant = { λ a. IsTracked (λ _. []) a.array };
}

impl FreshArray {
    /// An array whose changed chunks are all that differ from its fill.
    pub fn new(array: Array) -> FreshArray
        requires { IsTracked (λ _. []) array }
        ensures { result ≡ array.grid }
    {
        FreshArray { array }
    }

    /// The array.
    pub fn array(&self) -> &Array
        ensures same { result.now.grid ≡ self.now }
        ensures tracked { IsTracked (λ _. []) result.now }
    {
        &self.array
    }

    /// The array as it is.
    pub fn into_array(self) -> Array
        ensures same { result.grid ≡ self }
        ensures tracked { IsTracked (λ _. []) result }
    {
        self.array
    }
}
