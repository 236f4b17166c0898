//! The sample of a number: the elements of its dataset, and the lines that tell the sums of its slabs.

mod elements;
mod lines;

pub use elements::Elements;
pub use lines::{slab_line, total_line};
