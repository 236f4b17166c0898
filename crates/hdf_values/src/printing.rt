//! The JSON text of values, printed straight from their bytes, with no tree in between.
//!
//! What is printed is, letter by letter, the compact text of the tree that
//! [`write_nested`](crate::write_nested) makes of the same bytes.

mod elements;
mod nested;
mod numbers;

pub use nested::{keyed_text, nested_text, push_nested};
