//! An import over a disk: the journal is opened, a run begins, a document is read from a source and adopted as a new
//! domain, and that is kept.

mod import;
mod outcome;
mod reading;

pub use import::import_domain;
pub use outcome::{Imported, Outcome};
