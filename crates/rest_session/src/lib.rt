//! The service over one link (HDF REST API, RFC 9112): each message that the link gives is read as a request, decided by
//! the access list in force and done, and answered, one after another.
//!
//! [`links`] serves one link over any service, [`kept`] a world over a disk, and [`halls`] the links of many doors over one
//! hall.
#![tactic(auto)]

mod answers;
pub mod halls;
pub mod kept;
pub mod laws;
pub mod links;
mod serving;
mod texts;
mod world_session;

pub use answers::{answer_reply, refusal_reply};
pub use laws::{what_is_kept_stood, what_waits_stood};
pub use serving::serve_world;
pub use texts::answer_text;
pub use world_session::WorldSession;
