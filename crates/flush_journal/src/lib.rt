//! A journal of batches of records on a disk. On a disk that keeps its rule, whatever a crash leaves after `append` has
//! answered Ok holds the batch; and whatever one leaves at any moment since the call began has what stood there before,
//! with the whole batch or without it.
//!
//! [`cuts`] has what a cut adds to a batch, [`keepings`] what a journal keeps of a world.
#![tactic(auto)]

mod batch;
mod create;
mod header;
mod journal;
mod laws;
mod markers;
mod payload;
mod read;
mod reader;
mod records;
mod recovered;
mod report;
mod why;

pub use batch::{Batch, batch_is_sent, record_size};
pub use journal::Journal;
pub use laws::{
    content_lies_inside, content_tells_map, earlier_bytes_stay, journal_or_fault, last_record_wins,
    payload_is_encoding, runs_join,
};
pub use recovered::{Body, Recovered};
pub use report::Report;
pub use why::{JournalRefused, Why};

pub mod cuts;
pub mod keepings;
