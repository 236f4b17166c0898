//! Values of elements: which JSON trees are values of a type, and their bytes; one element, lists
//! of elements nested by an array's extents, their JSON texts, and attributes.
//!
//! The forms are those of the HDF5/JSON specification and the HDF REST API, "Value" and
//! "Attribute". A whole number is two's complement in the byte order of its type. A text is its
//! UTF-8 bytes, filled up to the length of its type. A compound is its fields, one after another.
#![tactic(auto)]

mod attributes;
mod elements;
mod faults;
mod integers;
mod kept;
mod laws;
mod nested;
mod pieces;
mod printing;
mod shaped;
mod texts;

pub use attributes::{Attribute, AttributeFault, Bytes, read_attribute};
pub use elements::{decode, encode, is_encoded, zero};
pub use faults::{Misfit, ValueFault};
pub use kept::{KeptValue, read_kept};
pub use laws::{
    attribute_or_fault, contents_tell_apart, encoded_elements, first_fault_is_told,
    limits_of_values, lowest_fault_is_told, nested_or_fault, pieces_of_joins, pieces_replaced,
    printed_attributes_read_back, shaped_or_fault, texts_read_back, value_or_fault, values_in_rows,
    values_read_back,
};
pub use nested::{read_nested, write_nested};
pub use pieces::first_unencoded;
pub use printing::{keyed_text, nested_text, push_nested};
pub use shaped::{read_value, write_value};

/// The most bytes of an attribute's value.
pub const MAX_ATTRIBUTE: u64 = 65_536;

/// The most bytes for which memory is taken before the first element was read.
pub const MAX_AHEAD: u64 = 16_777_216;
