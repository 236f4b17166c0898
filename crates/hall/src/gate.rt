//! A gate, through which each turn goes that a request takes in a lane.
ghost use Rattle.std.specs.Prelude.{◌≡◌, ℕ};

/// What a caller does inside a lane's turn, before its part of the request is done. It may wait as
/// long as it likes, and holds up the lane as long.
pub trait Gate {
    /// What the gate may have become, by what it was, the lane and the place.
    ghost goes: { Self → ℕ → ℕ → Self → Type 0 };

    /// `place` is the place of the request. No cut goes through a gate.
    fn before(&mut self, lane: u32, place: u64)
        ensures { goes self.old lane place self.new };
}

/// A gate that stands open.
#[derive(Clone, Copy, Debug)]
pub struct OpenGate;

impl Gate for OpenGate {
    ghost goes = { λ old lane place new. new ≡ old };

    fn before(&mut self, _lane: u32, _place: u64) {}
}
