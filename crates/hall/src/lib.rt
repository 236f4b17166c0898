//! The hall: many callers over one register and the owners of its lanes, and one legal history.
//!
//! A world is taken apart, and its register, the owner of each lane and a desk lie in the slots of
//! a table. Each caller has a pass, and asks with it from its own thread. A request takes a number
//! of the register and waits for its turn, in which it is decided at its place; then it takes the
//! turns of the lanes whose tickets it was issued, in order. No two turns of one queue overlap, and
//! turns of different queues do.
//!
//! What holds between any two steps is the rule of `hall_rule`, over the histories of
//! `service_histories`. A contract sees a pass as the lists that it has seen so far.
#![tactic(auto)]

mod acting;
mod asking;
mod cutting;
mod deciding;
mod desk;
mod desk_turn;
mod desk_work;
mod flushing;
mod gate;
mod hall;
mod journal;
mod kept_answer;
mod note;
mod pass;
mod plays;
mod sending;
mod sharing;
mod turns;
mod worlds;

pub use desk::{AtDesk, NotedDesk};
pub use gate::{Gate, OpenGate};
pub use hall::Hall;
pub use journal::{DeskWork, JournalDesk};
pub use kept_answer::{KeptAnswer, work_for};
pub use note::HallNote;
pub use pass::Pass;
pub use sending::{hall_is_shared, pass_is_sent};
pub use worlds::{ended_worlds_are_said, installed_worlds_are_new};
