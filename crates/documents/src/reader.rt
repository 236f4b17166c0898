//! The reader of HDF5/JSON documents: the objects of a domain as one text.
//!
//! A document is a JSON object with the collections `datasets`, `datatypes` and `groups`, each an
//! object of objects by their ids, and with the id of its `root` group. Ids are any texts of 1 to
//! 255 bytes. What is read, or what is at fault, is one definition of the bytes; and what is read is
//! related to the tree without an order of tests and without paths.

mod bare_datasets;
mod bare_documents;
mod collections;
mod laws;
mod loaded;
mod objects;
mod parsing;
mod reading;

pub use crate::parts::{
    DocCause, DocFault, DocPath, FreshArray, IdText, SoundType, Target, Targets,
};
pub use laws::document_or_fault;
pub use loaded::{Dataset, Datatype, Group, Loaded};
pub use reading::{read_document, read_tree};

/// The most bytes of a document: 2^27.
pub const MAX_DOCUMENT: usize = 134_217_728;

/// The most bytes of an id.
pub const MAX_ID: usize = 255;
