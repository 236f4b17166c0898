//! The register, made from the records that a journal held.

mod faults;
mod installs;
mod nodes;
mod numbers;

pub use installs::{KeptRegister, install};
