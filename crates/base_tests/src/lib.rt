//! Tests of what the journal stands on: ends over readers, writers and files, the disk in memory, and a journal whose
//! disk fails at each of its calls.
#![tactic(auto)]

#[cfg(test)]
mod edge_rows;
#[cfg(test)]
mod journal_rows;
