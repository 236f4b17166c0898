//! The keys of a journal's records, and the numbers that some of them hold, as bytes and back.
//!
//! A key begins with a byte that says what its record is for: 1 the run, 2 a folder or a domain, 3
//! an object, 4 a chunk of a dataset, 5 the number that the next domain takes.

mod chunks;
mod ids;
mod laws;
mod nodes;
mod numbers;
mod objects;

pub use chunks::{ChunkId, chunk_at, chunk_key};
pub use laws::record_keys_differ;
pub use nodes::{node_at, node_key};
pub use numbers::{
    is_next_key, is_run_key, next_body, next_in, next_key, run_body, run_in, run_key,
};
pub use objects::{object_at, object_key};
