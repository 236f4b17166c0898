//! Trees of JSON that are kept as their texts, so that they take no more memory than those; contracts
//! see the data that `serde_json` reads of them.

mod checks;
mod copies;
mod fault;
mod kept_tree;
mod list;
mod members;
mod numbers;
mod passing;

pub use checks::check_value;
pub use fault::ReadFault;
pub use kept_tree::KeptTree;
pub use list::KeptList;
pub use members::member_at;
pub use numbers::{has_number, negative_of, unsigned_of};
pub use passing::{pass_rest, pass_value};
