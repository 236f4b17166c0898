//! The objects of a lane, and what the next cut writes of each: records of those that were made, changed or removed
//! since the last cut, and of the chunks that changed.

mod changes;
mod changing;
mod chunks;
mod cuts;
mod forgetting;
mod laws;
mod objects;
mod placing;
mod settling;
mod slot;
mod standing;

pub use changes::Changes;
pub use changing::{change, change_at, link_at, link_made};
pub use cuts::cut;
pub use forgetting::{forget, note_domain};
pub use laws::records_describe;
pub use placing::{put, remove};
pub use slot::{Mark, Slot};
pub use standing::{has_object, next_id, object};
