//! Links of groups: titles that lead to an object of the same domain, to a path, or to a path in
//! another file.
//!
//! The forms are those of the HDF5/JSON specification and the HDF REST API, "Link".
#![tactic(auto)]

mod group;
mod laws;
mod printing;
mod reading;
mod target;
mod titles;

pub use group::Links;
pub use laws::{id_texts_are_read, limits_of_links, printed_links_read_back};
pub use object_ids::{NoName, PutFault};
pub use printing::link_json;
pub use reading::{LinkFault, read_link};
pub use target::LinkTo;
pub use titles::good_title;

/// The most links of a group.
pub const MAX_LINKS: usize = 65_536;

/// The most bytes of a title.
pub const MAX_TITLE: usize = 255;

/// The most bytes of a path or a file that a link leads to.
pub const MAX_TEXT: usize = 1024;
