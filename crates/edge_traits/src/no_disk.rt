ghost use Rattle.std.specs.Prelude.{◌≡◌, ◌≤◌, ℕ, List, [], length, IsErr, refl};
ghost use Rattle.std.proofs.Common.{arith};
ghost use Rattle.edge_traits.specs.Causes.{Rose};

use crate::faults::FaultCount;
use crate::{Disk, Failed};

/// A disk of length 0 and room 0. Each call of it that can fail does so, and is a fault.
#[derive(Debug, Clone, Copy)]
pub struct NoDisk {
    count: FaultCount,
}

impl NoDisk {
    /// Such a disk, with no fault yet.
    pub fn new() -> NoDisk
        ensures { ⟦<NoDisk as Disk>⟧.faults result ≡ 0 }
    {
        NoDisk {
            count: FaultCount::new(),
        }
    }
}

impl Disk for NoDisk {
    ghost honest = { Unit {0} };

    ghost reads = { λ _. [] };

    ghost images = { λ _ c. c ≡ [] };

    ghost moment = { λ _. 0 };

    ghost left_since = { λ _ _ c. c ≡ [] };

    ghost faults = { λ d. d.count };

    ghost most = { λ _. 0 };

    ghost Others = { Unit {0} };

    ghost beside = { λ _. tt };

    ghost beside_since = { λ _ _ _. Unit {0} };

    fn length(&mut self) -> Result<u64, Failed>
        ensures fails { IsErr result }
        ensures counts { Rose (⟦<NoDisk as Disk>⟧.faults self.old) (⟦<NoDisk as Disk>⟧.faults self.new) }
    {
        self.count.rise();
        Err(Failed)
    }

    fn room(&self) -> u64 {
        0
    }

    fn read_at(&mut self, _at: u64, _buf: &mut [u8]) -> Result<usize, Failed>
        ensures fails { IsErr result }
        ensures counts { Rose (⟦<NoDisk as Disk>⟧.faults self.old) (⟦<NoDisk as Disk>⟧.faults self.new) }
    {
        self.count.rise();
        Err(Failed)
    }

    fn write_at(&mut self, _at: u64, _bytes: &[u8]) -> Result<(), Failed>
        ensures fails { IsErr result }
        ensures counts { Rose (⟦<NoDisk as Disk>⟧.faults self.old) (⟦<NoDisk as Disk>⟧.faults self.new) }
    {
        self.count.rise();
        Err(Failed)
    }

    fn sync(&mut self) -> Result<(), Failed>
        ensures fails { IsErr result }
        ensures counts { Rose (⟦<NoDisk as Disk>⟧.faults self.old) (⟦<NoDisk as Disk>⟧.faults self.new) }
    {
        self.count.rise();
        Err(Failed)
    }

    ghost fits = { λ _ _. omega arith };

    ghost reads_left = { λ _ _. refl };

    ghost counts_now = { λ _ _ _ _ _ empty. empty };

    ghost only_now = { λ _ _ _ empty. empty };
}
