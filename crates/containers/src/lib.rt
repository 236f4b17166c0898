//! Containers that several crates share: maps whose keys are texts or bytes, and short lists of numbers.
#![tactic(auto)]

pub mod short_lists;
pub mod text_maps;
