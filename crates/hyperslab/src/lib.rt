//! Selections of a grid's cells by a start, a stop and a step on each axis: how a text or JSON lists
//! spell them, which cells they select, and how those in a box of the grid lie in runs.
//!
//! The forms are those of the HDF REST API, "Value", its query parameter `select` and its keys
//! `start`, `stop` and `step`.
#![tactic(auto)]

ghost use Rattle.std.specs.Prelude.{◌≡◌, ◌^◌};
ghost use Rattle.hyperslab.specs.declared.TheConstants.{MAX_DIGITS, MAX_SELECTED};

use shapes::Dims;

mod all_cells;
mod judging;
mod lists;
mod numbered;
mod reading;
mod runs;
mod selected;

pub use all_cells::whole;
pub use judging::one_outcome;
pub use lists::{from_lists, lists_or_fault};
pub use reading::{Part, read_select, reading_or_fault, written_reads_back};
pub use runs::{Run, Runs};
pub use selected::{each_cell_once, one_step_past_the_end};

/// The most digits that a number in a text has.
pub const MAX_DIGITS: u8 = 10;

/// The most cells that a selection has: 2^20.
pub const MAX_SELECTED: u64 = 1_048_576;

/// The limits as numbers.
pub fn limits()
    ensures digits { MAX_DIGITS ≡ 10 }
    ensures cells { MAX_SELECTED ≡ 2 ^ 20 }
{}

/// A selection: on each axis the numbers from the start on, a step apart, that are below the stop.
#[derive(Clone, Copy, Debug, PartialEq, Eq)]
pub struct Slab {
    /// The first number on each axis.
    pub start: Dims,
    /// The end of each axis, which is not selected.
    pub stop: Dims,
    /// The distance between selected numbers on each axis.
    pub step: Dims,
}

/// Why a text or lists spell no selection of a shape. Of several faults the one that stands first
/// here is told, but the axes are judged one after another, each by `Step`, `Order` and `Past`.
#[derive(Clone, Copy, Debug, PartialEq, Eq)]
pub enum SlabFault {
    /// The text or a list is outside the grammar.
    Syntax {
        /// The first byte of a text after which no selection can follow, or the text's length
        /// where it ends too early; 0 where a list is no list of numbers.
        byte: u64,
    },
    /// The shape has no axis, or not one for each part of the selection.
    Rank,
    /// A step is 0.
    Step {
        /// The axis, from 0.
        axis: u8,
    },
    /// A start is above its stop.
    Order {
        /// The axis, from 0.
        axis: u8,
    },
    /// A stop is above the axis's dim.
    Past {
        /// The axis, from 0.
        axis: u8,
    },
    /// More than [`MAX_SELECTED`] cells are selected, where an axis of which no number is selected
    /// counts as one number.
    TooMany {
        /// How many they are.
        count: u64,
    },
}
