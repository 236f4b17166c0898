//! Histories of a register and its lanes: what was asked at which place and with which verdict,
//! what each lane did of it and in which order, and which worlds a journal may hold of them.
//!
//! Definitions and laws alone, for every service of this kind; no program calls this crate. The
//! items of the lists are types, so that other types may hold them. A law is the contract of a
//! function with an empty body.
#![tactic(auto)]

mod items;
mod laws;

pub use items::{Answer, Entry, Keeping, LaneItem, Outcome, Part, Reach, RegisterItem};
pub use laws::{
    Lanes, MarkedLanes, ReadyLanes, cut_pairs_are_kept, cuts_tell_the_lane, events_keep,
    own_entries_are_in_order, prefixes_are_legal, registers_count, replays_are_products,
    replies_are_replays, turns_are_ready, turns_come_in_order, verdicts_are_of_their_places,
    wants_of_memory_are_told, what_is_kept_stays_kept, whole_histories_are_plain,
};
