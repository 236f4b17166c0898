//! The parts of the objects of an HDF5/JSON document: their attributes, their links, their types,
//! and the arrays of datasets; each is read, or the first fault is told with its path and its cause.
//!
//! Ids are any texts, so a hard link leads to a text. Of each list the length is tried before its
//! members, and the members in their order.

mod arrays;
mod attribute_lists;
mod faults;
mod fresh_arrays;
mod ids;
mod items;
mod kept_values;
mod laws;
mod link_lists;
mod names;
mod paths;
mod sound_types;
mod targets;
mod title_maps;
mod types;

pub(crate) use arrays::array_of;
pub use arrays::read_array;
pub use attribute_lists::{MAX_ATTRIBUTE_CELLS, read_attributes};
pub use faults::{AttributesFault, DocCause, DocFault, refused, refused_at, refused_whole};
pub use fresh_arrays::FreshArray;
pub use ids::{IdText, has_id, is_id};
pub use items::{members, numbered};
pub use laws::{cells_have_elements, limits_of_parts, parts_or_fault};
pub use link_lists::read_links;
pub use paths::DocPath;
pub use sound_types::SoundType;
pub use targets::Target;
pub use title_maps::Targets;
pub use types::read_kind;
