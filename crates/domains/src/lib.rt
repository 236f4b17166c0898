//! The catalogue: which folders and domains there are, whose they are, and their access lists.
//!
//! Folders and domains are those of HSDS: a domain is an HDF5 file's worth of objects under a root group, and folders
//! hold domains and folders.
//!
//! [`records`] has the bodies of nodes' records.
#![tactic(auto)]

mod catalogue;
mod children;
mod classes;
mod faults;
mod laws;
mod node_trees;

pub use catalogue::{Catalogue, MAX_NODES, NUMBER_LIMIT};
pub use classes::{Node, NodeClass};
pub use faults::CatFault;
pub use laws::{catalogue_limits, nodes_of_catalogues};
pub use node_trees::node_json;

pub mod records;
