//! The sample of a number, read from a world.
//!
//! [`values`] has the elements of a sample and its lines.
#![tactic(auto)]

mod document;
mod requests;
mod selection;
mod slabs;
mod sums;
mod texts;
pub mod values;
mod world;

pub use texts::sample_text;
