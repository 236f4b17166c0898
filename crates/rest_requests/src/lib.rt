//! What a message asks (HDF REST API): its caller and its request, or the first refusal.
//!
//! The route and the method decide what is asked, the Authorization header who asks, the query or a header where it is
//! asked, and the rest of the path and the body give the parts of the operation.
//!
//! [`routes`] has the table of routes, [`queries`] the parts of a target.
#![tactic(auto)]

mod datasets;
mod domain;
mod fault;
mod forms;
mod laws;
mod nodes;
mod objects;
mod operations;
mod parameters;
mod parts;
pub mod queries;
mod reading;
pub mod routes;
mod tokens;

pub use fault::RequestFault;
pub use forms::methods_are_served;
pub use laws::refusals_in_order;
pub use parts::RequestParts;
pub use reading::{lent_request, read_request};
pub use tokens::Tokens;
