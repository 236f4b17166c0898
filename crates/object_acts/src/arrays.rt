//! What requests read of a dataset's array and write to it: parts of its value, points, its shape and its type, and
//! how its creation properties are told (HDF REST API, "Value", "Point selection", "Shape", "Type").

mod bytes;
mod creation;
mod faults;
mod laws;
mod reads;
mod writes;

pub use creation::creation_json;
pub use laws::{
    limits, points_read_back, refusals_leave_the_array, writes_done_or_refused, written_reads_back,
};
pub use reads::{read_points, read_shape, read_type, read_value};
pub use writes::{change_shape, write_value};

/// The most bytes of elements that one request reads or writes: 2^23.
pub const MAX_BYTES: u64 = 8_388_608;

/// The most bytes of chunks that one request adds to an array: 2^28.
pub const MAX_NEW_BYTES: u64 = 268_435_456;
