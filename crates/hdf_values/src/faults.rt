//! Why a tree is no value.

ghost use Rattle.std.specs.Prelude.{◌≡◌};
ghost use Rattle.hdf_values.specs.Faults.{rank, lower, at_place};
ghost use Rattle.hdf_values.specs.declared.faults.ValueFault.TheVariants.{NoMemory};

use std::alloc::{AllocError, AllocFailed};

/// What is wrong with a part of an element. Of several parts, and of several faults of one part,
/// the one that stands first here is told.
#[derive(Clone, Copy, Debug, PartialEq, Eq)]
pub enum Misfit {
    /// The tree is of another kind, or a compound's list has another length.
    NotOfType,
    /// A whole number is outside the type's range.
    OutOfRange,
    /// A text has too many bytes.
    TooLong,
    /// A text of the ASCII set has another character.
    NotAscii,
    /// A text has the character U+0000.
    Nul,
}

/// Why a tree is no value of a type and extents.
#[derive(Clone, Copy, Debug, PartialEq, Eq)]
pub enum ValueFault {
    /// Memory ran out.
    NoMemory,
    /// [`Misfit::NotOfType`] of an element, or a list is missing where an axis has one.
    NotOfType {
        /// The element's place in row-major order, or that of the list's first element.
        place: u64,
    },
    /// [`Misfit::OutOfRange`] of an element.
    OutOfRange {
        /// The element's place in row-major order.
        place: u64,
    },
    /// [`Misfit::TooLong`] of an element.
    TooLong {
        /// The element's place in row-major order.
        place: u64,
    },
    /// [`Misfit::NotAscii`] of an element.
    NotAscii {
        /// The element's place in row-major order.
        place: u64,
    },
    /// [`Misfit::Nul`] of an element.
    Nul {
        /// The element's place in row-major order.
        place: u64,
    },
    /// An axis's list has another length than its extent.
    WrongCount {
        /// The extent.
        want: u64,
        /// The length.
        got: u64,
    },
}

impl Misfit {
    /// The place in the order of faults, from 1.
    pub fn rank(self) -> u8
        ensures { result ≡ rank self }
    {
        match self {
            Misfit::NotOfType => 1,
            Misfit::OutOfRange => 2,
            Misfit::TooLong => 3,
            Misfit::NotAscii => 4,
            Misfit::Nul => 5,
        }
    }

    pub(crate) fn lower(self, other: Misfit) -> Misfit
        ensures { result ≡ lower self other }
    {
        if self.rank() <= other.rank() {
            self
        } else {
            other
        }
    }

    /// The fault of the element at a place.
    pub(crate) fn at(self, place: u64) -> ValueFault
        ensures { result ≡ at_place place self }
    {
        match self {
            Misfit::NotOfType => ValueFault::NotOfType { place },
            Misfit::OutOfRange => ValueFault::OutOfRange { place },
            Misfit::TooLong => ValueFault::TooLong { place },
            Misfit::NotAscii => ValueFault::NotAscii { place },
            Misfit::Nul => ValueFault::Nul { place },
        }
    }
}

impl From<AllocError> for ValueFault {
    ghost from_gives = { λ _ e. e ≡ NoMemory };

    fn from(_error: AllocError) -> ValueFault {
        ValueFault::NoMemory
    }
}

impl<T: Drop> From<AllocFailed<T>> for ValueFault {
    ghost from_gives = { λ _ e. e ≡ NoMemory };

    fn from(_error: AllocFailed<T>) -> ValueFault {
        ValueFault::NoMemory
    }
}
