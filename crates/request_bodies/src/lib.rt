//! The bodies of requests (HDF REST API): the JSON object that a body is, and what its keys ask for.
//!
//! Each call gives the part of an operation, or the first refusal of the body in the order of
//! [`object_ops::Refusal`]. Of the parts of the wrong form the type comes first, then the creation properties
//! or the value, and then the link; creation properties and an attribute's value are judged only where the
//! type and the shape are accepted. A key that stands twice counts by its last value; one whose value is null
//! is there. Other keys are ignored.
#![tactic(auto)]

mod attributes;
mod bodies;
mod faults;
mod keys;
mod laws;
mod links;
mod makes;
mod properties;
mod value_bodies;
mod values;

pub use attributes::{MAX_ATTRIBUTE_CELLS, attribute_of};
pub use bodies::body_of;
pub use faults::{AttributeBodyFault, BodyFault};
pub use keys::{dims_of, folder_of, rights_of};
pub use laws::{attributes_in_order, limits_of_bodies, makes_in_order};
pub use links::{MAX_NAME, id_of_kind, name_of, target_of, title_of};
pub use makes::make_of;
pub use value_bodies::{ValueBody, value_body_of};
pub use values::{points_of, write_of};
