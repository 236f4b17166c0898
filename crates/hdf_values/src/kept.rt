//! Values from kept trees, element by element, with no tree of the value in memory; and values that
//! are kept packed.

mod nested;
mod numbers;
mod packed;
mod parts;
mod streams;
mod unpacking;
mod value;

pub use nested::read_kept;
pub use value::KeptValue;
