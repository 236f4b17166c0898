//! Tests of the array crates that no request shows: runs of selections in boxes, bytes that are
//! elements or not, and values that are packed or not, by rows worked out by hand.
#![tactic(auto)]

#[cfg(test)]
mod byte_rows;
#[cfg(test)]
mod packed_rows;
#[cfg(test)]
mod run_rows;
#[cfg(test)]
mod tables;
