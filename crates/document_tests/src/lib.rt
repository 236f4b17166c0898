//! Tests of documents (HDF5/JSON specification): what is told of those with several faults.
#![tactic(auto)]

#[cfg(test)]
mod faults;
