//! The world: its catalogue and its objects, what each request answers and changes of it, and what a journal keeps of it.
//!
//! [`journals`] opens and makes journals and begins runs, [`described`] and [`answer_trees`] are laws, [`strays`] finds
//! records of no world.
#![tactic(auto)]

pub mod answer_trees;
mod answers;
pub mod described;
mod faults;
pub mod journals;
mod kept;
mod laws;
mod owners;
pub mod strays;
mod turns;
mod world;

pub use answers::{Answer, What};
pub use laws::{
    calls_are_replays, granted_requests_in_other_words, other_requests_keep_the_catalogue,
    places_and_tickets_tell_nothing, places_in_order, unserved_requests_keep_the_world,
};
pub use owners::Owners;
pub use world::World;
