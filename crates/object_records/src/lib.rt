//! The bodies of objects' records: an object as JSON text, and back.
//!
//! The text is that of the object's entry in a document of the HDF5/JSON specification, without the
//! cells of a dataset, which have records of their own.
//!
//! [`keys`] has the keys of a journal's records.
#![tactic(auto)]

mod creations;
mod faults;
mod install_fault;
pub mod keys;
mod laws;
mod links;
mod names;
mod objects;
mod reading;

pub use faults::BodyFault;
pub use install_fault::InstallFault;
pub use laws::entries_tell_apart;
pub use objects::{is_whole, object_json, object_text};
pub use reading::{object_in, read_object};
