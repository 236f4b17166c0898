//! The histories of the array service: the register, the owners of its lanes, and what a journal
//! holds of them, as a service of `lane_histories`, with that crate's laws.
//!
//! Definitions and laws alone; no program calls this crate.
#![tactic(auto)]

mod asked;
mod laws;
mod service;
mod tasks;

pub use asked::Asked;
pub use laws::{
    calls_are_events, cut_pairs_are_kept, cuts_tell_the_lane, cuts_tell_the_register, events_keep,
    histories_are_legal, images_open, kept_objects_stand, own_entries_are_in_order,
    replies_are_replays, the_register_counts, turns_are_ready, wants_of_memory_are_told,
    what_is_kept_stays_kept, whole_histories_are_plain, worlds_are_told, worlds_close, worlds_open,
};
pub use service::ArrayService;
pub use tasks::Task;
