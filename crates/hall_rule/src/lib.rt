//! The rule of a hall. A register, the owner of each lane's objects and a journal's desk lie in the
//! slots of a table, and passes take turns at them: each draws a number or has a ticket, waits
//! until the queue's word shows it, takes the machine out, lets it act, and passes the turn on.
//!
//! The rule says what holds between any two steps: each word is the length of a list; each number
//! and each ticket that was not passed is in one pass's hands; a turn is held by one pass alone; a
//! machine that lies in its slot stands for its list; the lists are legal, and each pass has seen
//! beginnings of them. Each kind of step keeps it, and tells the pass that took it what it saw.
//!
//! It stands on `atomic_table` and `lane_histories` alone, for any service and any machines. A hall
//! names its own as a `RuledHall`; the rule of its table is `FollowsRule`, what its steps tell is
//! said in `specs/Steps.antt`, and its calls cite the laws. Its slots are laid by `lay`, and
//! emptied by `take_machines`.
#![tactic(auto)]

mod laws;
mod queue;
mod slot;
mod view;

pub use laws::{
    RuledHall, asks_are_answered, each_lane_is_served, halls_begin_and_end,
    hands_hold_what_was_taken, lanes_take_turns, lists_are_histories,
    machines_stand_for_their_lists, steps_keep_the_rule, steps_tell_what_was_seen,
    the_desk_takes_turns, the_register_takes_turns,
};
pub use queue::{Claim, Queue};
pub use slot::{LaneNews, LaneSlot, RegisterNews, RegisterSlot, Slot, lay, take_machines};
pub use view::{Lists, Opening, Start, View};
