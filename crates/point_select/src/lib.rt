//! Points of a grid: lists of coordinates, and how JSON spells them (HDF REST API, "Point
//! selection").
#![tactic(auto)]

use std::alloc::AllocError;

mod points;
mod reading;

pub use points::{Points, limit_of_points};
pub use reading::{points_or_fault, read_points};

/// The most points of one list.
pub const MAX_POINTS: usize = 65_536;

/// Why a tree spells no points of a shape. A tree that is no list, and then too many points, come
/// first; of the other faults the one of the first bad point is told, and of one point's faults
/// the one that stands first here.
#[derive(Clone, Copy, Debug, PartialEq, Eq)]
pub enum PointFault {
    /// The tree is no list, or a point is neither a list of 1 to [`shapes::MAX_RANK`] whole numbers
    /// up to [`shapes::MAX_EXTENT`] nor one such number.
    Syntax {
        /// The point's number, from 0; 0 where the tree is no list.
        index: u64,
    },
    /// There are more than [`MAX_POINTS`].
    TooMany {
        /// How many there are.
        count: u64,
    },
    /// A point has more or fewer coordinates than the shape has axes, or the shape has none.
    Rank {
        /// The point's number, from 0; 0 where the shape has no axis.
        index: u64,
    },
    /// A coordinate of a point is not below its dim.
    Past {
        /// The point's number, from 0.
        index: u64,
    },
    /// Memory ran out.
    NoMemory,
}

impl From<AllocError> for PointFault {
    ghost use Rattle.std.specs.Prelude.{◌≡◌};
    ghost use Rattle.point_select.specs.declared.PointFault.TheVariants.{NoMemory};

    ghost from_gives = { λ _ e. e ≡ NoMemory };

    fn from(_error: AllocError) -> PointFault {
        PointFault::NoMemory
    }
}
