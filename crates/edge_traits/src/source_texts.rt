//! Texts that sources have: a source is read to its end, where that comes within a limit.

mod reading;

pub use reading::{TextFault, read_text};
