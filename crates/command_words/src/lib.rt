//! The words of the command line: which of them are a command, and its values.
#![tactic(auto)]

mod app;
mod command;
mod long;
mod number;
mod reader;
mod row;
mod words;

pub use command::{
    DEFAULT_CONFIG, DEFAULT_JOURNAL, DEFAULT_LANES, DEFAULT_LINKS, DEFAULT_LISTEN, DEFAULT_OWNER,
    DEFAULT_WORKERS, MAX_LANES, MAX_LINKS, MAX_OWNER_LEN, MAX_WORKERS, Wanted, WordText,
    WordsFault,
};
pub use words::wanted;
