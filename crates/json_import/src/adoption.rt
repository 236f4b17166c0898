//! Documents as new domains of a world.

mod adoption;
mod counts;
mod faults;
mod laws;

pub use adoption::adopt;
pub use counts::Counts;
pub use faults::AdoptFault;
pub use laws::exports_are_loaded;
