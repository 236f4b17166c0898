//! What holds of every hall. The functions do nothing: the contract of each is a law, which who
//! calls it may cite.

ghost use Rattle.std.specs.Prelude.{ℕ};
ghost use Rattle.lane_histories.specs.Services.{Service};
ghost use Rattle.hall_rule.specs.Machines.{HallMachines};
ghost use Rattle.hall_rule.specs.StepLaws.{HandsHold, StepsKeepRule, StepsTell};
ghost use Rattle.hall_rule.specs.TurnLaws.{DeskTurns, LaneTurns, ListsAreHistories};
ghost use Rattle.hall_rule.specs.TurnLaws.{MachinesStand, RegisterTurns};
ghost use Rattle.hall_rule.specs.AskLaws.{AsksAreAnswered, LanesAreServed};
ghost use Rattle.hall_rule.specs.EndLaws.{HallsBeginAndEnd};

/// A hall, by what it serves and by its machines. No value of it is made.
pub trait RuledHall {
    /// What it serves, over so many lanes.
    ghost service: { ℕ → Service };

    /// Its register, its owners and its desk, with what of the service they are.
    ghost hall: { (lanes : ℕ) → HallMachines (service lanes) };
}

/// Each kind of step keeps the rule, whatever the other passes have done: a number is drawn, a word
/// is looked at, a turn is passed on, a pass is split, a note is cut off, and passes are joined.
pub fn steps_keep_the_rule<H: RuledHall>()
    ensures { (lanes : ℕ) → StepsKeepRule (H.hall lanes).machines }
{}

/// What a pass knows behind a step: what the machine is that it took, that its item joined the
/// list, and that all it had seen begins what it sees.
pub fn steps_tell_what_was_seen<H: RuledHall>()
    ensures { (lanes : ℕ) → StepsTell (H.hall lanes).machines }
{}

/// The slot that a pass took last is the one that it reads and writes.
pub fn hands_hold_what_was_taken<H: RuledHall>()
    ensures { (lanes : ℕ) → HandsHold (H.hall lanes).machines }
{}

/// The machine that a look took out of its slot stands for its queue's list.
pub fn machines_stand_for_their_lists<H: RuledHall>()
    ensures { (lanes : ℕ) → MachinesStand (H.hall lanes).machines }
{}

/// The lists that passes have seen are histories of the service, and go on as histories do.
pub fn lists_are_histories<H: RuledHall>()
    ensures { (lanes : ℕ) → ListsAreHistories (H.service lanes) (H.hall lanes).Owner }
{}

/// A turn of the register: it decides a request at the next place, draws a cut, or is cut. Only who
/// holds the desk's turn may do the latter two.
pub fn the_register_takes_turns<H: RuledHall>()
    ensures { (lanes : ℕ) → RegisterTurns (H.hall lanes).machines }
{}

/// A turn of a lane: its owner does a part of a request, or passes over it, or is cut for who holds
/// the desk's turn.
pub fn lanes_take_turns<H: RuledHall>()
    ensures { (lanes : ℕ) → LaneTurns (H.hall lanes).machines }
{}

/// A turn of the desk: what stays of it as others go on, and what its keeping has to say.
pub fn the_desk_takes_turns<H: RuledHall>()
    ensures { (lanes : ℕ) → DeskTurns (H.hall lanes).machines }
{}

/// The register's turn and those of the lanes make a whole `ask`: the answer is the reply of its
/// place in one legal history.
pub fn asks_are_answered<H: RuledHall>()
    ensures { (lanes : ℕ) → AsksAreAnswered (H.hall lanes).machines }
{}

/// One ticket in each lane, turn by turn: a request that goes to all lanes, or a drawn cut.
pub fn each_lane_is_served<H: RuledHall>()
    ensures { (lanes : ℕ) → LanesAreServed (H.hall lanes).machines }
{}

/// A hall begins with machines to which nothing was done, and keeps the rule from then on. Where
/// one pass has every name, each machine lies in its slot, where one history has brought it.
pub fn halls_begin_and_end<H: RuledHall>()
    ensures { (lanes : ℕ) → HallsBeginAndEnd (H.hall lanes).machines }
{}
