//! Types of elements: integers, fixed-length texts and compounds of them; how JSON spells them, and
//! how many bytes an element takes.
//!
//! The forms are those of the HDF5/JSON specification and the HDF REST API, "Type".
#![tactic(auto)]

ghost use Rattle.std.specs.Prelude.{◌≡◌, ◌≤◌, ℕ, List, length};
ghost use Rattle.serde_json.specs.Data.{Data};
ghost use Rattle.hdf_types.specs.Elems.{Elem};
ghost use Rattle.hdf_types.specs.FirstFault.{IsFirstFault};
ghost use Rattle.hdf_types.specs.Reading.{size_of};
ghost use Rattle.hdf_types.specs.Types.{IsSoundType};
ghost use Rattle.hdf_types.specs.declared.faults.Cause.{Cause};

use containers::short_lists::ShortList;

mod faults;
mod leaves;
mod members;
mod printing;
mod reading;
mod types;
mod walks;

pub use faults::{Cause, Class, TypeFault};
pub use printing::type_json;
pub use reading::{first_fault, read_type, type_or_fault};
pub use types::{ElemType, Field, FieldName, Fields};

/// How deep compounds may nest.
pub const MAX_NESTING: u8 = 4;

/// The most fields of one compound.
pub const MAX_FIELDS: usize = 64;

/// The longest fixed-length text, in bytes.
pub const MAX_TEXT: u64 = 65_535;

/// The longest field name, in bytes.
pub const MAX_NAME: usize = 255;

/// The largest element, in bytes.
pub const MAX_SIZE: u64 = 1_048_576;

/// The limits, as numbers. An element takes at least one byte, and a first fault stands inside at
/// most 4 compounds.
pub fn limits()
    ensures nesting { MAX_NESTING ≡ 4 }
    ensures fields { MAX_FIELDS ≡ 64 }
    ensures text { MAX_TEXT ≡ 65_535 }
    ensures name { MAX_NAME ≡ 255 }
    ensures size { MAX_SIZE ≡ 1_048_576 }
    ensures some_byte { (e : Elem) → IsSoundType e → 1 ≤ size_of e }
    ensures path { (d : Data) (path : List ℕ) (cause : Cause) → IsFirstFault d path cause
        → length path ≤ 4 }
{}

/// The place of a type in a type: a field's index for each compound around it.
pub type FieldPath = ShortList<5>;

/// A two's complement integer or an unsigned one.
#[derive(Clone, Copy, Debug, PartialEq, Eq)]
pub struct IntType {
    /// Whether there are negative values.
    pub signed: bool,
    /// 8, 16, 32 or 64.
    pub bits: u8,
    /// Whether the highest byte comes first.
    pub big: bool,
}

/// How a text shorter than its type's length is filled up.
#[derive(Clone, Copy, Debug, PartialEq, Eq)]
pub enum Pad {
    /// By zero bytes, of which there is at least one (`H5T_STR_NULLTERM`).
    NullTerm,
    /// By zero bytes (`H5T_STR_NULLPAD`).
    NullPad,
    /// By spaces (`H5T_STR_SPACEPAD`).
    SpacePad,
}

/// A text of a fixed length.
#[derive(Clone, Copy, Debug, PartialEq, Eq)]
pub struct TextType {
    /// Whether characters beyond ASCII may stand in it.
    pub utf8: bool,
    /// How it is filled up.
    pub pad: Pad,
    /// Its length in bytes.
    pub len: u32,
}
