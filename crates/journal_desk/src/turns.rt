//! What the callers' side does in a turn of the desk.
ghost use Rattle.std.specs.Prelude.{◌≡◌, ℕ, suc, ◌<◌, IfOk};
ghost use Rattle.std.specs.Result.{is_ok};
ghost use Rattle.flush_journal.specs.Batches.{records};
ghost use Rattle.journal_desk.specs.Cuts.{DrawsCut, TakesCut, TakesRegisterCut};

use crate::note::Note;
use flush_journal::Batch;
use std::alloc::AllocError;

/// What the callers' side does in a turn of its desk. Between two calls others ask and take turns
/// of lanes; none of them cuts.
pub trait Turns<N: Note> {
    /// It stands between two steps of its own as they need it.
    ghost ready: { Self → Type 0 };

    /// What no step changes.
    ghost Fixed: { Type 0 };

    ghost fixed: { Self → Fixed };

    /// Over how many lanes notes are read here. No step changes it.
    ghost lanes: { Self → ℕ };

    /// A note of the lists as they were seen last, and of the lanes as they were cut last.
    ghost seen: { Self → N };

    /// The number of the cut that was drawn last, and how many places had been given.
    ghost drawn: { Self → ℕ × ℕ };

    /// The lanes from this one on haven't passed that cut's ticket yet.
    ghost next_lane: { Self → ℕ };

    /// How many lanes there are.
    fn lane_count(&self) -> u32
        requires ready { ready self.now }
        ensures { result ≡ (N.kept (lanes self.now)).service.lanes };

    /// A note of what was seen last.
    fn note(&mut self) -> N
        requires ready { ready self.old }
        ensures start { N.start (lanes self.old) result
            ≡ N.start (lanes self.old) (seen self.old) }
        ensures history { N.history (lanes self.old) result
            ≡ N.history (lanes self.old) (seen self.old) }
        ensures was { N.was (lanes self.old) result ≡ N.was (lanes self.old) (seen self.old) }
        ensures seen { seen self.new ≡ seen self.old }
        ensures cut { (drawn self.new ≡ drawn self.old)
            × (next_lane self.new ≡ next_lane self.old) }
        ensures same { lanes self.new ≡ lanes self.old }
        ensures fixed { fixed self.new ≡ fixed self.old }
        ensures ready { ready self.new };

    /// Draws a cut at the register, with a ticket in each lane, and answers how many places had
    /// been given.
    fn draw_cut(&mut self) -> u64
        requires ready { ready self.old }
        requires passed { next_lane self.old ≡ (N.kept (lanes self.old)).service.lanes }
        ensures cut { DrawsCut (N.kept (lanes self.old)).service
            (N.start (lanes self.old) (seen self.old))
            (N.history (lanes self.old) (seen self.old))
            (N.history (lanes self.old) (seen self.new))
            (drawn self.new).0 (drawn self.new).1 }
        ensures places { result ≡ (drawn self.new).1 }
        ensures lanes { next_lane self.new ≡ 0 }
        ensures start { N.start (lanes self.old) (seen self.new)
            ≡ N.start (lanes self.old) (seen self.old) }
        ensures was { N.was (lanes self.old) (seen self.new)
            ≡ N.was (lanes self.old) (seen self.old) }
        ensures same { lanes self.new ≡ lanes self.old }
        ensures fixed { fixed self.new ≡ fixed self.old }
        ensures ready { ready self.new };

    /// Cuts the next lane in its turn.
    ///
    /// # Errors
    ///
    /// Only where memory runs out. Then no record is added, and the lane is marked as it was.
    fn cut_lane(&mut self, into: &mut Batch) -> Result<(), AllocError>
        requires ready { ready self.old }
        requires left { next_lane self.old < (N.kept (lanes self.old)).service.lanes }
        ensures cut { TakesCut (N.kept (lanes self.old))
            (N.start (lanes self.old) (seen self.old))
            (N.history (lanes self.old) (seen self.old))
            (N.history (lanes self.old) (seen self.new))
            (N.was (lanes self.old) (seen self.old)) (N.was (lanes self.old) (seen self.new))
            (next_lane self.old) (drawn self.old).0 (drawn self.old).1 (is_ok result)
            (records into.old) (records into.new) }
        ensures lanes { next_lane self.new ≡ suc (next_lane self.old) }
        ensures start { N.start (lanes self.old) (seen self.new)
            ≡ N.start (lanes self.old) (seen self.old) }
        ensures drawn { drawn self.new ≡ drawn self.old }
        ensures same { lanes self.new ≡ lanes self.old }
        ensures fixed { fixed self.new ≡ fixed self.old }
        ensures ready { ready self.new };

    /// Cuts the register, and answers how many places had been given.
    ///
    /// # Errors
    ///
    /// Only where memory runs out. Then no record is added.
    fn cut_register(&mut self, into: &mut Batch) -> Result<u64, AllocError>
        requires ready { ready self.old }
        requires passed { next_lane self.old ≡ (N.kept (lanes self.old)).service.lanes }
        ensures cut { (p : ℕ) × TakesRegisterCut (N.kept (lanes self.old))
            (N.start (lanes self.old) (seen self.old))
            (N.history (lanes self.old) (seen self.old))
            (N.history (lanes self.old) (seen self.new)) p (is_ok result)
            (records into.old) (records into.new) × IfOk result (λ n. n ≡ p) }
        ensures lanes { next_lane self.new ≡ next_lane self.old }
        ensures start { N.start (lanes self.old) (seen self.new)
            ≡ N.start (lanes self.old) (seen self.old) }
        ensures was { N.was (lanes self.old) (seen self.new)
            ≡ N.was (lanes self.old) (seen self.old) }
        ensures drawn { drawn self.new ≡ drawn self.old }
        ensures same { lanes self.new ≡ lanes self.old }
        ensures fixed { fixed self.new ≡ fixed self.old }
        ensures ready { ready self.new };
}
