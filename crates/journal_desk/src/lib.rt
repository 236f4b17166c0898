//! The desk of a journal beside running callers: the journal, the records that its next batch will
//! have, how far it reaches, and a note of the history that was seen at the desk's turns so far.
//!
//! Callers ask and take their turns while a desk writes. So the desk doesn't know the history as it
//! is, and its contract speaks of the note: whatever a crash leaves of its disk is a world that is
//! kept from the note's lists, and what was kept once is kept from each longer note. What a turn of
//! the desk asks of the callers' side, the cuts of the lanes and of the register, is the trait
//! `Turns`.
#![tactic(auto)]

mod desk;
mod laws;
mod note;
mod turns;

pub use desk::Desk;
pub use laws::{cuts_can_come, keepings_follow, marked_cuts_write};
pub use note::Note;
pub use turns::Turns;
