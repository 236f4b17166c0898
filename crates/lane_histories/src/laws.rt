//! What holds of every history. No program calls these functions; the contract of each is the law.

ghost use Rattle.std.specs.Prelude.{ℕ};
ghost use Rattle.lane_histories.specs.Counting.{RegistersCount};
ghost use Rattle.lane_histories.specs.JournalContents.{JournalContents};
ghost use Rattle.lane_histories.specs.Laws.{CataloguesStay, CoresAreLegal, CoresStandForLists};
ghost use Rattle.lane_histories.specs.Laws.{CutPairsAreKept, CutsStayTold, EntriesAreFound};
ghost use Rattle.lane_histories.specs.Laws.{ImagesAreKept, KeepingsLast, KeepingsTell};
ghost use Rattle.lane_histories.specs.Laws.{OutcomesAreFound, OwnEntriesAreInOrder};
ghost use Rattle.lane_histories.specs.Laws.{OwnEntriesAreLater, OwnEntriesGrow, OwnEntriesStay};
ghost use Rattle.lane_histories.specs.Laws.{PrefixesAreLegal};
ghost use Rattle.lane_histories.specs.Laws.{RepliesAreReplays, RepliesStay};
ghost use Rattle.lane_histories.specs.Laws.{ReplaysAreLegal, ReplaysAreProducts, StaysKept};
ghost use Rattle.lane_histories.specs.Laws.{TicketsAreNumbered, TicketsStay, TurnsComeInOrder};
ghost use Rattle.lane_histories.specs.Laws.{VerdictsAreOfTheirPlaces};
ghost use Rattle.lane_histories.specs.Laws.{WholeAnswersArePlain, WholeIsPlain};
ghost use Rattle.lane_histories.specs.Ready.{KeptIsGiven, Readiness, TurnsAreReady};
ghost use Rattle.lane_histories.specs.Services.{Service};
ghost use Rattle.lane_histories.specs.Shorts.{ShortsAreTold};
ghost use Rattle.lane_histories.specs.Since.{CutsStaySaid, CutsTell, LanesAreSinceThemselves};
ghost use Rattle.lane_histories.specs.Since.{Marking, SaidCutsTell, TurnsStaySince};

/// A service with a register and some number of lanes, whose world a journal keeps. No value of it
/// is made.
pub trait Lanes {
    /// What it is made of, over so many lanes.
    ghost service: { ℕ → Service };

    /// What its journal holds, and what that tells.
    ghost contents: { (lanes : ℕ) → JournalContents (service lanes) };
}

/// One whose lanes mark what a journal may not hold yet.
pub trait MarkedLanes {
    /// What it is made of, over so many lanes.
    ghost service: { ℕ → Service };

    /// What its journal holds, and what that tells.
    ghost contents: { (lanes : ℕ) → JournalContents (service lanes) };

    /// How what changed is marked.
    ghost marking: { (lanes : ℕ) → Marking (service lanes) (contents lanes) };
}

/// One whose tasks need something of the objects, such as that none has a fresh id.
pub trait ReadyLanes {
    /// What it is made of, over so many lanes.
    ghost service: { ℕ → Service };

    /// What the register gave out, and what a task needs.
    ghost readiness: { (lanes : ℕ) → Readiness (service lanes) };
}

/// A legal history is legal at each earlier moment: each list may be cut short, as long as no lane
/// is left with more tickets than were issued.
pub fn prefixes_are_legal<S: Lanes>()
    ensures { (lanes : ℕ) → PrefixesAreLegal (S.service lanes) }
{}

/// Each verdict is one that the register may give as it is at the place of its request, and what a
/// journal keeps of the register at a place stays so as the history grows.
pub fn verdicts_are_of_their_places<S: Lanes>()
    ensures verdict { (lanes : ℕ) → VerdictsAreOfTheirPlaces (S.service lanes) }
    ensures stay { (lanes : ℕ) → CataloguesStay (S.service lanes) }
{}

/// A lane takes its turns and cuts in the order in which their tickets were issued: the n-th is of
/// the n-th ticket, and a ticket keeps its number as the history grows.
pub fn turns_come_in_order<S: Lanes>()
    ensures order { (lanes : ℕ) → TurnsComeInOrder (S.service lanes) }
    ensures numbers { (lanes : ℕ) → TicketsAreNumbered (S.service lanes) }
    ensures stay { (lanes : ℕ) → TicketsStay (S.service lanes) }
{}

/// A register that counts the places and the tickets that it gave has counted those of its list. An
/// item issues two tickets in a lane at most.
pub fn registers_count<S: Lanes>()
    ensures { (lanes : ℕ) → RegistersCount (S.service lanes) }
{}

/// The lists are legal exactly where the replay of one world, place by place, may come so; and that
/// replay comes to what the register's list and each lane's list come to, each by itself.
pub fn replays_are_products<S: Lanes>()
    ensures product { (lanes : ℕ) → ReplaysAreProducts (S.service lanes) }
    ensures legal { (lanes : ℕ) → ReplaysAreLegal (S.service lanes) }
{}

/// Where each ticket was passed and each turn found memory, the world and the answers are those of
/// requests done one after another.
pub fn whole_histories_are_plain<S: Lanes>()
    ensures world { (lanes : ℕ) → WholeIsPlain (S.service lanes) }
    ensures answers { (lanes : ℕ) → WholeAnswersArePlain (S.service lanes) }
{}

/// What the request of a place is answered is what the replay answers there, and it stays so as the
/// history grows; it is read from the one entry of the place, and the one outcome of each part.
pub fn replies_are_replays<S: Lanes>()
    ensures replay { (lanes : ℕ) → RepliesAreReplays (S.service lanes) }
    ensures stay { (lanes : ℕ) → RepliesStay (S.service lanes) }
    ensures entry { (lanes : ℕ) → EntriesAreFound (S.service lanes) }
    ensures outcome { (lanes : ℕ) → OutcomesAreFound (S.service lanes) }
{}

/// A place is answered by the verdict of its entry, or by its turns: that memory was wanting exactly
/// where one of them found none, but for those in each lane, which the register answers.
pub fn wants_of_memory_are_told<S: Lanes>()
    ensures { (lanes : ℕ) → ShortsAreTold (S.service lanes) }
{}

/// What is kept from a history is kept, with the same numbers, from each longer one.
pub fn what_is_kept_stays_kept<S: Lanes>()
    ensures { (lanes : ℕ) → StaysKept (S.service lanes) }
{}

/// A content that tells each lane and the catalogue as they were at their last cuts tells a world
/// that is kept, whichever drawn cut and register cut these were, as long as the register's was the
/// last of all; and it still tells them as requests and turns come.
pub fn cut_pairs_are_kept<S: Lanes>()
    ensures kept { (lanes : ℕ) → CutPairsAreKept (S.service lanes) (S.contents lanes) }
    ensures stay { (lanes : ℕ) → CutsStayTold (S.service lanes) (S.contents lanes) }
{}

/// After any events from the opening the history is legal, the register and each lane are those of
/// their lists, and whatever a crash leaves tells a world that is kept at least as far as the
/// desk's own numbers say. Those are of the last batch that was answered Ok, and never fall.
pub fn events_keep<S: Lanes>()
    ensures legal { (lanes : ℕ) → CoresAreLegal (S.service lanes) (S.contents lanes) }
    ensures lists { (lanes : ℕ) → CoresStandForLists (S.service lanes) (S.contents lanes) }
    ensures images { (lanes : ℕ) → ImagesAreKept (S.service lanes) (S.contents lanes) }
    ensures numbers { (lanes : ℕ) → KeepingsTell (S.service lanes) (S.contents lanes) }
    ensures last { (lanes : ℕ) → KeepingsLast (S.service lanes) (S.contents lanes) }
{}

/// From its marks alone a lane knows that a cut makes what was cut tell the lane as it stands,
/// where that said it as it was at its last cut. What says each lane so, and tells the catalogue,
/// tells all cuts; and it says them still as requests and turns come.
pub fn cuts_tell_the_lane<S: MarkedLanes>()
    ensures itself { (lanes : ℕ) → LanesAreSinceThemselves (S.marking lanes) }
    ensures turn { (lanes : ℕ) → TurnsStaySince (S.marking lanes) }
    ensures cut { (lanes : ℕ) → CutsTell (S.marking lanes) }
    ensures all { (lanes : ℕ) → SaidCutsTell (S.marking lanes) }
    ensures stay { (lanes : ℕ) → CutsStaySaid (S.marking lanes) }
{}

/// In a legal history the next turn of a lane finds its objects as it needs them; and what is kept
/// of a lane, under the catalogue of a place, has nothing that wasn't given out before that place.
pub fn turns_are_ready<S: ReadyLanes>()
    ensures turns { (lanes : ℕ) → TurnsAreReady (S.service lanes) (S.readiness lanes) }
    ensures kept { (lanes : ℕ) → KeptIsGiven (S.service lanes) (S.readiness lanes) }
{}

/// The entries of one pass stand in the order of their places, each once. They stay as the history
/// grows, and each that comes has a place that wasn't given before; what a pass asks is one more of
/// its own, and none of another's.
pub fn own_entries_are_in_order<S: Lanes>()
    ensures stay { (lanes : ℕ) → OwnEntriesStay (S.service lanes) }
    ensures grow { (lanes : ℕ) → OwnEntriesGrow (S.service lanes) }
    ensures order { (lanes : ℕ) → OwnEntriesAreInOrder (S.service lanes) }
    ensures later { (lanes : ℕ) → OwnEntriesAreLater (S.service lanes) }
{}
