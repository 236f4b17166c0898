//! HDF5/JSON documents as new domains of a world (HDF5/JSON specification).
#![tactic(auto)]

pub mod adoption;
pub mod fresh;
pub mod kept;
pub mod round_trips;

pub use adoption::{AdoptFault, Counts, adopt};
pub use documents::parts::{DocCause, DocFault, DocPath};
pub use documents::reader::{Loaded, MAX_DOCUMENT, read_document};
