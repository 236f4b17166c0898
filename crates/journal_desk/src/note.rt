//! What lies beside a desk.
ghost use Rattle.std.specs.Prelude.{ℕ};
ghost use Rattle.lane_histories.specs.Services.{World};
ghost use Rattle.lane_histories.specs.Histories.{History};
ghost use Rattle.journal_desk.specs.KeptServices.{KeptService};

/// What lies beside a desk and says which history the desk knows. No byte of it need exist. How
/// many lanes there are only a run knows, so it says everything over a number of them.
pub trait Note: Drop {
    /// The service whose world is kept, and what the bodies that a journal holds tell of it.
    ghost kept: { ℕ → KeptService };

    /// The world at the opening.
    ghost start: { (lanes : ℕ) → Self → World (kept lanes).service };

    /// The lists as they were seen.
    ghost history: { (lanes : ℕ) → Self → History (kept lanes).service };

    /// Each lane as it was at its last cut that found memory, or at the opening.
    ghost was: { (lanes : ℕ) → Self → ℕ → (kept lanes).marking.Marked };
}
