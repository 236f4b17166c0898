//! The owners of all lanes: a cut of each in turn, and all lanes made from records.

mod cuts;
mod holding;
mod installs;

pub use cuts::{are_whole, cut_lanes};
pub use holding::are_described;
pub use installs::install_lanes;
