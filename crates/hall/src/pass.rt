//! A pass, with which a caller asks.
ghost use Rattle.std.specs.Prelude.{◌≡◌, ◌<◌, ◌≤◌, ℕ, [], true};
ghost use Rattle.lane_histories.specs.Histories.{IsIn, own, places};
ghost use Rattle.lane_histories.specs.declared.items.Entry.{Entry};
ghost use Rattle.hall_rule.specs.Rule.{names};
ghost use Rattle.hall_rule.specs.Sums.{times};
ghost use Rattle.service_histories.specs.ArrayServices.{Asked};
ghost use Rattle.register.specs.declared.verdicts.Verdict.{Verdict};

use crate::desk::AtDesk;
use crate::plays::Chair;

/// What a caller asks a hall with. It has a number of its own, it may have numbers to give to
/// further passes, and it must be spent, by `Hall::join` or `Hall::close`.
pub struct Pass<D: AtDesk> {
    pub(crate) seat: Chair<D>,
    pub(crate) front: u64,
    ghost idle: { seat.me.0.claims ≡ [] },
    ghost bare: { seat.me.1 ≡ [] },
    ghost live: { seat.me.0.live ≡ true },
    ghost alone: { seat.me.0.guests ≡ [] },
    ghost counted: { front ≤ places seat.me.0.seen.register },
    ghost below: { (x : ℕ) (e : Entry Asked Verdict) → 0 < times x (names seat.me.0)
        → IsIn (own x seat.me.0.seen.register) e → e.place < front },
}

impl<D: AtDesk> Pass<D> {
    ghost use Rattle.hall.specs.Passes.{IsFrontOf, IsIdle};

    /// A place below which each request of this pass lies, and of those that were joined into it,
    /// and at or above which each later one will.
    pub fn front(&self) -> u64
        ensures front { result ≡ self.now.front }
        ensures is_front { IsFrontOf result self.now }
    {
        self.front
    }

    /// Between its calls a pass holds no number, no ticket and no turn.
    pub fn is_idle(&self)
        ensures { IsIdle self.now }
    {}
}
