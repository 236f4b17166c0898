//! HDF5/JSON documents (HDF5/JSON specification): the document of a domain as a tree and as text, and the reader of documents.
#![tactic(auto)]

pub mod domains;
pub mod parts;
pub mod reader;
