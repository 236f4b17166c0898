//! Events that have to wait for others.

ghost use Rattle.std.specs.Prelude.{ℕ, Bool, [], ◌∷◌, false, true};
ghost use Rattle.lane_tests.specs.Examples.Cuts.{Notes, after_late, drawn_early, drawn_late, opened};
ghost use Rattle.lane_tests.specs.Examples.Cuts.{register_first, register_short};
ghost use Rattle.lane_tests.specs.Examples.Links.{contents, links};
ghost use Rattle.lane_tests.specs.Examples.Made.{both_out};
ghost use Rattle.lane_tests.specs.Examples.Tears.{torn_core};
ghost use Rattle.lane_histories.specs.Core.{Core, Happens, Runs, appends, cuts_register, draws_cut};
ghost use Rattle.lane_histories.specs.Core.{settles, takes_turn};
ghost use Rattle.lane_histories.specs.declared.items.Outcome.{Outcome};

/// No append comes while a batch is pending, while a lane is torn, or where the last of the cuts
/// isn't one of the register that found memory; and no settle where nothing is pending.
pub fn no_append_comes_too_early()
    ensures run { Runs (cuts_register false ∷ []) opened register_short }
    ensures short { (ok : Bool) (before after moment : ℕ) (new : Notes)
        → Happens (appends ok before after moment) register_short new → ⊥ }
    ensures drawn { (ok : Bool) (before after moment : ℕ) (new : Notes)
        → Happens (appends ok before after moment) register_first new → ⊥ }
    ensures torn { (ok : Bool) (before after moment : ℕ) (new : Notes)
        → Happens (appends ok before after moment) torn_core new → ⊥ }
    ensures pending { (ok : Bool) (before after moment : ℕ) (new : Notes)
        → Happens (appends ok before after moment) (after_late false) new → ⊥ }
    ensures settled { (ok : Bool) (before after moment : ℕ) (new : Notes)
        → Happens (settles ok before after moment) (after_late true) new → ⊥ }
{}

/// No cut is drawn, and the register isn't cut, while a ticket of a drawn cut is out or a batch is
/// pending.
pub fn no_cut_comes_too_early()
    ensures drawn { (new : Notes) → Happens draws_cut drawn_late new → ⊥ }
    ensures register { (found : Bool) (new : Notes)
        → Happens (cuts_register found) drawn_late new → ⊥ }
    ensures pending { (new : Notes) → Happens draws_cut (after_late false) new → ⊥ }
    ensures unsettled { (found : Bool) (new : Notes)
        → Happens (cuts_register found) (after_late false) new → ⊥ }
{}

/// No turn comes before the lane's next ticket, and no second turn before the first.
pub fn no_turn_comes_too_early()
    ensures cut { (y : Outcome ℕ) (new : Notes) → Happens (takes_turn 0 y) drawn_early new → ⊥ }
    ensures second { (y : Outcome Bool) (new : Core links contents)
        → Happens (takes_turn 1 y) both_out new → ⊥ }
{}
