//! Copies of elements of one size between byte slices, in which they lie a stride apart.

mod copies;

pub use copies::{Strided, copy_strided};
