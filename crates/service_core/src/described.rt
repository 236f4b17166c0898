//! What holds of the worlds that records describe.

mod laws;
mod whole;

pub use laws::{
    described_registers_stand, described_worlds_stand, one_key_is_named, records_tell_one_world,
};
pub use whole::objects_are_whole;
