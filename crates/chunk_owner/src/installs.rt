//! The objects of a lane, made from the records that a journal held.

mod chunks;
mod faults;
mod keys;
mod laws;
mod objects;
mod records;

pub(crate) use faults::RecordFault;
pub(crate) use keys::{LaneKey, lane_key_at, lane_of_key};
pub use laws::{described_records_stand, records_tell_one};
pub use object_records::InstallFault;
pub(crate) use records::install_record;
