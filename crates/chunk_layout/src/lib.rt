//! How an array's cells are split into chunks: the chunk's dims, and the chunk and offset of a cell
//! (HDF5 user guide, "Chunked storage layout"; HDF REST API, "creationProperties").
//!
//! [`default_chunks`] has the default chunk as a function of the dims.
#![tactic(auto)]

ghost use Rattle.std.specs.Prelude.{◌≡◌};

use shapes::Dims;

mod cells;
pub mod default_chunks;
mod defaults;
mod grids;
mod reading;
mod sizes;

pub use cells::{chunk_and_offset, chunk_of, coords_in_chunk, offset_in};
pub use defaults::default_layout;
pub use grids::{grid_of_chunks, is_in_grid};
pub use reading::{layout_or_fault, read_layout};
pub use shapes::MAX_CHUNK_BYTES;

/// The most bytes of a chunk that nobody asked for, where it has more than one element.
pub const DEFAULT_CHUNK_BYTES: u64 = 65_536;

/// The limits, as numbers.
pub fn limits()
    ensures asked { MAX_CHUNK_BYTES ≡ 1_048_576 }
    ensures default { DEFAULT_CHUNK_BYTES ≡ 65_536 }
{}

/// The layout of an array.
#[derive(Clone, Copy, Debug, PartialEq, Eq)]
pub struct Layout {
    /// The extent of a chunk on each axis; no axis where the array has none.
    pub chunk: Dims,
}

/// Why creation properties give no layout. Of several faults the one that stands first here is
/// told.
#[derive(Clone, Copy, Debug, PartialEq, Eq)]
pub enum LayoutFault {
    /// The properties are no object, or their `layout` is outside the grammar.
    NotALayout,
    /// The chunk has more or fewer dims than the array.
    Rank,
    /// A dim of the chunk is 0 or above [`shapes::MAX_EXTENT`]; this is the first such axis.
    Dim {
        /// The axis, from 0.
        axis: u8,
    },
    /// The chunk has more than [`MAX_CHUNK_BYTES`] bytes and more than one element.
    TooBig,
}
