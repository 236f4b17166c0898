//! Copies between the bytes of a selection's cells and those of a box of a grid.

mod boxes;
mod moves;

pub use boxes::{fill_box, read_box, write_box};
