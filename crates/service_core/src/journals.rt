//! Journals with the worlds that they keep: one is opened, a run of its world begins, and a new one is made of a catalogue.

mod beginning;
mod faults;
mod first_world;
mod laws;
mod making;
mod opening;
mod roots;

pub use beginning::{BeginFault, BeginRefused, Begun, begin_world};
pub use faults::{MakeRefused, OpenFault, OpenRefused};
pub use laws::first_roots_by_runs_and_serials;
pub use making::make_journal;
pub use opening::{Opened, open_world};
