ghost use Rattle.std.specs.Prelude.{◌≡◌, ℕ, ◌^◌, ◌<◌};
ghost use Rattle.edge_traits.specs.Causes.{Rose};

use std::marker::Model;

/// How many faults an object has had. It never falls, and stands still at the end of a `u64`.
#[derive(Clone, Copy, Debug)]
pub struct FaultCount {
    count: u64,
}

impl Model for FaultCount {
    ghost Value = { ℕ };

    ghost view = { λ f. f.count };

    ghost inverse = { λ n. record { count = n } };
}

impl FaultCount {
    /// No fault yet.
    pub fn new() -> FaultCount
        ensures { result ≡ 0 }
    {
        FaultCount { count: 0 }
    }

    /// The count.
    pub fn count(&self) -> u64
        ensures { result ≡ self.now }
    {
        self.count
    }

    /// Counts one more fault.
    pub fn rise(&mut self)
        ensures { Rose self.old self.new }
    {
        self.count = self.count.saturating_add(1);
    }
}
