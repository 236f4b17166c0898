//! The document of a domain: all its objects as one JSON tree, and as text (HDF5/JSON specification).

mod collections;
mod entries;
mod home;
mod laws;
mod lengths;
mod links;
mod printed;
mod ranges;
mod store;
mod writing;

pub use collections::domain_json;
pub use entries::entry_json;
pub use home::Home;
pub use laws::{collections_by_ids, documents_have_least_lengths, documents_have_no_floats};
pub use printed::{MAX_TEXT, PrintFault, print_domain};
pub use store::ObjectStore;
