//! What is read of a document and adopted is exported again: the document of the new domain holds what the first held, under
//! the texts of the fresh ids. No program calls these functions; the contract of each is a law.

mod laws;

pub use laws::{documents_read_back, domains_are_loaded, parts_read_back};
