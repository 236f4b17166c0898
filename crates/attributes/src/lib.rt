//! The attributes of an object: small values by their names.
//!
//! Their trees are those of the HDF5/JSON specification and the HDF REST API, "Attribute".
#![tactic(auto)]

mod attribute_map;
mod laws;
mod trees;

pub use attribute_map::Attributes;
pub use laws::{limits_of_attributes, named_attributes_read_back};
pub use object_ids::{NoName, PutFault};
pub use trees::attribute_json;

/// The most attributes of an object.
pub const MAX_ATTRIBUTES: usize = 1_024;

/// The most bytes of an attribute's name.
pub const MAX_ATTRIBUTE_NAME: usize = 255;
