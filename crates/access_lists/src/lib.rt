//! Access control lists: who may do what at a folder or a domain.
//!
//! An access list maps names of users and groups to entries, and an entry is a set of six rights, as in the
//! documentation of HSDS on ACLs.
//!
//! [`tokens`] has the table of bearer tokens: who sends a request.
#![tactic(auto)]

mod decision;
mod group;
mod json;
mod laws;
mod list;
mod people;
mod right;
mod rights;
mod sending;

pub use decision::decide;
pub use json::{acl_json, acls_json, entry_json, list_json, read_entry};
pub use laws::{all_six_rights, entry_limit, trees_of_entries};
pub use list::{AccessList, ListFault, MAX_ENTRIES};
pub use people::{Caller, Names};
pub use right::Right;
pub use rights::Rights;
pub use sending::{caller_is_sent, tokens_are_shared};

pub mod tokens;
