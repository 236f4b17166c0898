ghost use Rattle.std.specs.Prelude.{◌≡◌, ℕ, OnOk};
ghost use Rattle.flush_journal.specs.Batches.{records};
ghost use Rattle.flush_journal.specs.Records.{Held, Record, put_all};
ghost use Rattle.flush_journal.specs.Cuts.Cuts.{AppendsOnce};

use crate::Batch;
use std::alloc::AllocError;

/// A world of which a journal keeps records.
pub trait Kept {
    /// What is kept.
    ghost World: { Type 0 };

    /// The world as it stands, whatever of it is to be written.
    ghost world: { Self → World };

    /// How many requests it has decided.
    ghost places: { World → ℕ };

    /// What is held tells it, but for what is to be written.
    ghost says: { Self → Held → Type 0 };

    /// What is held describes a world.
    ghost tells: { Held → World → Type 0 };

    /// A record that the next cut writes: what stands at a key of what changed.
    ghost is_cut: { Self → Record → Type 0 };

    /// Appends the records of what changed since the last cut. After `Ok` what is held with them describes the world.
    ///
    /// # Errors
    ///
    /// Only where memory runs out. What was appended stays in the batch, and what is not cut is cut later.
    fn cut(&mut self, into: &mut Batch) -> Result<(), AllocError>
        ensures cut { (held : Held) → says self.old (put_all (records into.old) held)
            → says self.new (put_all (records into.new) held) }
        ensures none { OnOk result ((r : Record) → is_cut self.new r → ⊥) }
        ensures told { OnOk result ((held : Held) → says self.new held
            → tells held (world self.new)) }
        ensures bodies { AppendsOnce (is_cut self.old) (records into.old) (records into.new) }
        ensures world { world self.new ≡ world self.old };

    /// How many requests the world has decided.
    fn places(&self) -> u64
        ensures { result ≡ places (world self.now) };
}
