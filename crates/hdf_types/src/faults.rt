//! Why a tree is no type.

ghost use Rattle.std.specs.Prelude.{◌≡◌};
ghost use Rattle.hdf_types.specs.declared.faults.TypeFault.TheVariants.{NoMemory, Refused};

use crate::FieldPath;
use std::alloc::{AllocError, AllocFailed};

/// A class of HDF5 types that arrays here do not hold.
#[derive(Clone, Copy, Debug, PartialEq, Eq)]
pub enum Class {
    /// `H5T_FLOAT`, and the names that begin with `H5T_IEEE_`.
    Float,
    /// `H5T_REFERENCE`
    Reference,
    /// `H5T_VLEN`
    Vlen,
    /// `H5T_OPAQUE`
    Opaque,
    /// `H5T_BITFIELD`
    Bitfield,
    /// `H5T_ARRAY`
    Array,
    /// `H5T_ENUM`
    Enum,
    /// `H5T_TIME`
    Time,
    /// `H5T_STRING` of variable length.
    String,
}

/// What is wrong with a node of a type's tree. Of several faults of one node the one that stands
/// first here is told.
#[derive(Clone, Copy, Debug, PartialEq, Eq)]
pub enum Cause {
    /// The node is outside the grammar.
    NotAType,
    /// A class that is not supported.
    Unsupported {
        /// The class.
        class: Class,
    },
    /// A compound inside as many others as may nest.
    TooDeep,
    /// A compound of too many fields.
    TooMany,
    /// A text's length of 0, or above the longest.
    BadLength,
    /// A field has an earlier field's name; this is the first such field.
    DupField {
        /// The field's index.
        index: u8,
    },
    /// The element takes too many bytes.
    TooLarge,
}

/// Why a type could not be read.
#[derive(Clone, Copy, Debug, PartialEq, Eq)]
pub enum TypeFault {
    /// Memory ran out.
    NoMemory,
    /// The tree is no type.
    Refused {
        /// Where the fault is.
        path: FieldPath,
        /// What it is.
        cause: Cause,
    },
}

/// The refusal of a node at a path.
pub fn refused(path: &FieldPath, cause: Cause) -> TypeFault
    ensures { result ≡ Refused path.now cause }
{
    TypeFault::Refused { path: *path, cause }
}

impl From<AllocError> for TypeFault {
    ghost from_gives = { λ _ e. e ≡ NoMemory };

    fn from(_error: AllocError) -> TypeFault {
        TypeFault::NoMemory
    }
}

impl<T: Drop> From<AllocFailed<T>> for TypeFault {
    ghost from_gives = { λ _ e. e ≡ NoMemory };

    fn from(_error: AllocFailed<T>) -> TypeFault {
        TypeFault::NoMemory
    }
}
