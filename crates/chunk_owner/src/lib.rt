//! The owner of a lane's objects: what one step of a request does to the object that it touches, what a cut adds to a
//! batch, and a lane made from records.
//!
//! [`slots`] has the objects with their marks, [`installs`] makes them from records, [`owners`] has all lanes.
#![tactic(auto)]

mod absent;
pub mod installs;
mod laws;
mod owner;
pub mod owners;
mod placing;
mod sending;
pub mod slots;
mod steps;
mod touching;

pub use laws::{
    domains_are_dropped_in_each_lane, ids_without_objects, keys_are_of_one_lane, lanes_are_joined,
    other_domains_are_left, other_records_leave_a_lane, others_stay, reads_leave_all,
    refusals_leave_all, steps_add_only_what_was_given, steps_are_taken_at_home,
};
pub use owner::Owner;
pub use sending::{owner_is_sent, owner_is_shared};
pub use steps::touched;
