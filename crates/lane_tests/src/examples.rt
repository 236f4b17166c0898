//! Two small services with lanes, and what holds of their histories: notes in two lanes with one
//! right to write them, and objects that are linked from a group and then made with fresh ids.
//!
//! On the notes a request that was granted at place 7, whose right goes at place 8, is run event by
//! event, with a cut drawn before its turn and behind it. What no service can do is shown of any
//! lists, or of one of these two.

mod batches;
mod cuts;
mod linked;
mod notebook;
mod refuted;
mod requests;
mod tears;
mod turns;
mod verdicts;
mod waiting;

pub use batches::{
    early_reach, refused_batch_may_be_held, the_desk_reaches_as_far_as_it_did, what_was_cut_is_kept,
};
pub use cuts::{notes_are_answered, part_before_the_cut_is_kept, part_behind_the_cut_is_missing};
pub use linked::LinkedObjects;
pub use notebook::{MarkedNotebook, Notebook, marked_lane_is_cut};
pub use refuted::{
    batches_reach_no_farther_than_their_cut, older_lists_decide_nothing,
    reached_turns_are_not_skipped, turns_come_in_no_other_order, worlds_are_kept_under_one_list,
};
pub use requests::{Request, Verdict};
pub use tears::{short_cut_keeps_the_register_alone, torn_lane_is_kept_in_no_way};
pub use turns::{
    made_objects_are_fresh, outcome_of_the_make, ticket_of_the_make, two_turns_have_one_answer,
    undone_turns_leave_the_objects,
};
pub use verdicts::verdict_behind_the_revocation;
pub use waiting::{no_append_comes_too_early, no_cut_comes_too_early, no_turn_comes_too_early};
