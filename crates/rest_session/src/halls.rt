//! Many links over one hall: workers, one at each door, whose links are served one after another, each by asking the hall, and
//! one that flushes beside them. The answers of all of them are those of one legal history.

mod attending;
mod closed;
mod flushing;
mod hiring;
mod session;
mod top;
mod workers;

pub use attending::{attend_door, serve_link};
pub use closed::{ClosedHall, HallOutcome, ServedHall};
pub use flushing::limit_of_turns;
pub use hiring::Report;
pub use session::HallSession;
pub use top::serve_hall;
pub use workers::{LinkEnds, Worker, limit_of_threads, work};
