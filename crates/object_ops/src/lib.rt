//! The words of requests and replies (HDF REST API): what can be asked of a folder, a domain or an object, what is
//! answered, why a request is refused, and which right each request needs.
//!
//! [`creation`] has the chunks and the fill that a dataset is made with.
#![tactic(auto)]

mod body;
pub mod creation;
mod grants;
mod laws;
mod ops;
mod refusal_trees;
mod refusals;
mod replies;
mod rights;
mod select_trees;
mod sending;
mod value_trees;
mod words;

pub use body::Body;
pub use grants::{Grant, Step};
pub use laws::bodies_of_refusals;
pub use ops::{LinkPlace, Make, Op, Part, Request, SelectText};
pub use refusal_trees::refusal_json;
pub use refusals::Refusal;
pub use replies::Reply;
pub use rights::{On, needs, on_text};
pub use sending::{op_is_sent, reply_is_sent};
pub use words::{FieldWord, SelectWord, ShapeWord, ValueWord};
