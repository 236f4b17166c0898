//! The bodies of nodes' records: a folder or a domain as JSON text, and back.
//!
//! A folder is an object with the keys `acls`, `class` and `owner`, and a domain has `number` and
//! `root` besides. Under `acls` stands an object of the entries by their names, and each entry is an
//! object of the six rights. No other key is taken, and none may be missing.

mod entries;
mod faults;
mod laws;
mod nodes;
mod reading;

pub use faults::NodeFault;
pub use laws::trees_of_nodes;
pub use nodes::{is_whole, node_json, node_text};
pub use reading::{node_in, read_node};
