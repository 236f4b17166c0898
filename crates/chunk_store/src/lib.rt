//! Arrays: grids of cells with elements of one type, of which the cells that were never written
//! have a fill, and which know which of their chunks are dirty (HDF5 user guide, "Datasets" and
//! "Chunked storage layout").
//!
//! [`box_copies`] and [`strided_copies`] copy elements between a selection and a box.
#![tactic(auto)]

mod access;
mod additions;
mod array;
pub mod box_copies;
mod buffers;
mod changes;
mod chunk_boxes;
mod chunks;
mod elements;
mod laws;
mod marks;
mod picks;
mod places;
mod points;
mod rows;
mod slabs;
mod stretches;
pub mod strided_copies;
mod touched;
mod truncating;

pub use array::{Array, InstallFault};
pub use chunk_boxes::boxes_of_chunks;
pub use laws::{
    arrays_same, cells_after_calls, chunks_in_turn, chunks_installed, reads_of_cells,
    records_stand, writes_joined,
};
