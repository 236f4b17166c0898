//! The creation properties of a dataset (HDF REST API, "creationProperties"; HDF5/JSON,
//! "Dataset"): how its cells are split into chunks, and the fill of cells that were never written.

mod faults;
mod laws;
mod reading;

pub use faults::CreationFault;
pub use laws::creation_or_fault;
pub use reading::{Creation, read_creation};
