//! Shapes of arrays: none, one cell, or a grid of cells with a dim for each axis and a limit to
//! which the dim may grow; how JSON spells them, and the row-major order of their cells.
//!
//! The forms are those of the HDF5/JSON specification and the HDF REST API, "Shape".
#![tactic(auto)]

use containers::short_lists::ShortList;

mod cells;
mod kept_dims;
mod laws;
mod printing;
mod reading;
mod row_major;

pub use kept_dims::{KeptDims, next_dims};
pub use laws::{cells_are_inside, indices_number_the_cells, limits_of_shapes};
pub use printing::{Form, shape_json};
pub use reading::{read_dims, read_shape, resized, shape_or_fault};
pub use row_major::{coords_at, count, place_of};

/// The most axes that a shape has (HDF5's `H5S_MAX_RANK`).
pub const MAX_RANK: usize = 32;

/// The largest dim, and the largest limit of a dim: 2^31 - 1.
pub const MAX_EXTENT: u64 = 2_147_483_647;

/// The most cells of a shape, with a dim of 0 counted as 1: 2^48.
pub const MAX_CELLS: u64 = 281_474_976_710_656;

/// The most bytes of a chunk that a caller asks for, where it has more than one element: 2^20.
pub const MAX_CHUNK_BYTES: u64 = 1_048_576;

/// A number for each axis: dims, limits or coordinates, the slowest axis first.
pub type Dims = ShortList<MAX_RANK>;

/// The shape of an array.
#[derive(Clone, Copy, Debug, PartialEq, Eq)]
pub enum Shape {
    /// No cell (`H5S_NULL`).
    Null,
    /// One cell and no axis (`H5S_SCALAR`).
    Scalar,
    /// A cell for each choice of a coordinate below the dim on each axis (`H5S_SIMPLE`).
    Simple {
        /// The extent of each axis.
        dims: Dims,
        /// The limit to which each dim may grow; 0 is no limit.
        maxdims: Dims,
    },
}

/// Why trees spell no shape, or why a shape can't take other dims. Of several faults the one that
/// stands first here is told.
#[derive(Clone, Copy, Debug, PartialEq, Eq)]
pub enum ShapeFault {
    /// A tree is outside the grammar, a number is negative or above [`MAX_EXTENT`], or limits
    /// stand beside a shape without dims.
    NotAShape,
    /// There are no dims, more than [`MAX_RANK`], or more or fewer limits than dims.
    Rank,
    /// A dim is above its limit; this is the first such axis.
    DimOverMax {
        /// The axis, from 0.
        axis: u8,
    },
    /// The dims, with 0 counted as 1, have a product above [`MAX_CELLS`].
    TooLarge,
}
