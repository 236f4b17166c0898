//! Objects, which are groups, datasets and committed datatypes with their attributes, and what each operation answers
//! and changes of one of them (HDF REST API, "Group", "Dataset", "Datatype", "Link", "Attribute").
//!
//! [`arrays`] has what is read of arrays and written to them, [`depths`] and [`exact`] laws of the trees.
#![tactic(auto)]

pub mod arrays;
mod attribute_acts;
mod changing;
mod crossing;
pub mod depths;
pub mod exact;
mod fault;
mod laws;
mod link_acts;
mod names;
mod objects;
mod reading;
mod trees;

pub use changing::{change, link_made};
pub use crossing::object_is_sent;
pub use fault::ChangeFault;
pub use laws::refusals_leave_the_object;
pub use objects::{Body, Object};
pub use reading::reply;
pub use trees::object_json;
