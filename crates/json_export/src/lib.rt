//! The document of a domain of a world, as a tree and as text (HDF5/JSON specification).
#![tactic(auto)]

mod exports;
mod faults;
mod worlds;

pub use documents::domains::MAX_TEXT;
pub use exports::{document, document_text};
pub use faults::ExportFault;
